//! The objects that had data and ended, as the host is told of them.

ghost use Rattle.std.specs.Prelude.{◌≡◌, ◌≤◌, ◌+◌, ◌++◌, [], length};
ghost use Rattle.std.specs.VecDeque.{deque_capacity, deque_len};
ghost use Rattle.wl_host_client.specs.Client.{ConservesClient, HandsNote, ended_objects, without_notes};

use super::flattening::data_of;
use super::{Client, Core};
use std::collections::VecDeque;
use wl_client::{Note, ObjectId};
use wl_flat::flat::FlatObjectId;
use wl_flat::status::Status;

/// An object that had data and was destroyed.
#[derive(Drop)]
pub struct DestroyedObject {
    /// Its id.
    pub id: ObjectId,
    /// The data that it had.
    pub user_data: u64,
}

/// Takes the notes from the core and puts them behind the others, with the data of each object. The core has the data until the
/// object leaves its number, which it does only when events are read, or by `reclaim`.
pub fn take_notes(core: &mut Core, notes: &mut VecDeque<DestroyedObject>)
    requires { deque_len notes.old + length core.old.session.notes ≤ deque_capacity notes.old }
    ensures core { core.new ≡ without_notes core.old }
    ensures notes { notes.new.items ≡ notes.old.items ++ ended_objects core.old.session }
{
    let ended = core.take_notes();
    for note in &ended {
        let Note::Destroyed(id) = *note;
        let user_data = data_of(core, &id).unwrap_or(0);
        notes.push_back_reserved(DestroyedObject { id, user_data });
    }
}

impl Client {
    /// The next object that had data and was destroyed, by the client or by an event, in the order in which they ended: its id,
    /// and the data that it had when it ended. Each comes once.
    ///
    /// The status is `WouldBlock` if there is none. Then what was lent is as it was.
    pub fn next_note(&mut self, id: &mut FlatObjectId, user_data: &mut u64) -> Status
        ensures call { HandsNote self.old.notes self.old id.old user_data.old result self.new id.new user_data.new }
        ensures descriptors { ConservesClient self.old [] [] self.new }
    {
        let Some(ended) = self.notes.pop_front() else {
            return Status::WouldBlock;
        };
        *id = FlatObjectId::of_proxy(ended.id);
        *user_data = ended.user_data;
        Status::Ok
    }
}
