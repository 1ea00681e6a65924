//! The sending of an event.

ghost use Rattle.std.specs.Prelude.{◌≡◌, ◌<◌, ◌++◌, IfSome, OnErr, OnOk, map, Some};
ghost use Rattle.std.specs.VecDeque.{deque_capacity, deque_len};
ghost use Rattle.wl_link.specs.Store.{held};
ghost use Rattle.wl_server_client.specs.NoteTimes.{IsNumbered, GivesNumbers, NotesInTime};
ghost use Rattle.wl_server_client.specs.Inside.Client.{Does};
ghost use Rattle.wl_server_client.specs.Inside.Ending.{notes_ending, registries_ending, store_ending, PutsEnd, TellsEnd};
ghost use Rattle.wl_server_client.specs.Events.{AsksForMemory, SendsEvent, session_content};

use crate::client::Client;
use crate::error::EventError;
use crate::events::check::check_event;
use crate::events::own_events::{is_out_of_memory, put_delete_id};
use crate::ids::object_id::ObjectId;
use crate::notes::queues::{NoteNumbers, WaitingNotes};
use crate::objects::{ClientObjects, Kept, reserve_note, take_out_noted};
use std::alloc::Global;
use wl_link::{BufferedSocket, Object, Transport};
use wl_wire::{IoFault, Message, OutOfMemory, OwnNumbers, Protocol, Token};

/// Makes room for the note of the sender's end, if the event ends it and it has user data.
fn make_room<U: Drop>(
    waiting: &mut WaitingNotes<U>,
    sender: &Object<Kept<U>>,
    ends: bool,
) -> Result<(), OutOfMemory>
    ensures items { waiting.new.queue.items ≡ waiting.old.queue.items }
    ensures asked { OnErr result (AsksForMemory sender.now ends) }
    ensures room { OnOk result (AsksForMemory sender.now ends → deque_len waiting.new.queue < deque_capacity waiting.new.queue) }
{
    if !ends {
        return Ok(());
    }
    reserve_note(waiting, sender)
}

/// Takes the sender out, if the event ends it. If it had user data, a note of its end waits for the next cleanup.
fn end_sender<U: Drop>(
    objects: &mut ClientObjects<U>,
    waiting: &mut WaitingNotes<U>,
    numbers: &mut NoteNumbers,
    sender: &ObjectId,
    ends: bool,
)
    requires { IfSome (held objects.old.map.store sender.now.number) (λ x. AsksForMemory x ends → deque_len waiting.old.queue < deque_capacity waiting.old.queue) }
    ensures store { objects.new.map.store ≡ store_ending ends objects.old.map.store sender.now.number }
    ensures registries { IfSome (held objects.old.map.store sender.now.number)
        (λ x. objects.new.registries.items ≡ registries_ending ends objects.old.registries.items sender.now.number x) }
    ensures serial { objects.new.last_serial ≡ objects.old.last_serial }
    ensures waiting { IfSome (held objects.old.map.store sender.now.number)
        (λ x. map (λ w. w.1) waiting.new.queue.items ≡ map (λ w. w.1) waiting.old.queue.items ++ notes_ending ends sender.now.client sender.now.number x) }
    ensures in_time { GivesNumbers (map (λ w. w.0) waiting.old.queue.items) numbers.old.waiting (map (λ w. w.0) waiting.new.queue.items) numbers.new.waiting }
    ensures made { numbers.new.made ≡ numbers.old.made }
{
    if ends {
        take_out_noted(objects, waiting, numbers, sender);
    }
}

/// Tells the client that the number is free again, if an event was written that ends the object of this number. Returns
/// the fault of the write that failed, if one did.
fn put_end<T: Transport>(
    alloc: Global,
    socket: &mut BufferedSocket<T>,
    number: u32,
    ends: bool,
    written: Result<(), IoFault>,
) -> Result<(), IoFault>
    ensures { PutsEnd T.sends socket.old number ends written result socket.new }
{
    written?;
    if !ends {
        return Ok(());
    }
    put_delete_id(alloc, socket, number)
}

impl<T: Transport + Drop, U: Drop, C: Drop> Client<T, U, C> {
    /// Tells the client that the object of this number is gone, if the event that was written ends it. If the event could
    /// not be written, or the client could not be told, the client is killed with the reason `ConnectionClosed`. Returns
    /// whether memory ran out.
    fn tell_end(
        &mut self,
        numbers: &mut NoteNumbers,
        number: u32,
        ends: bool,
        written: Result<(), IoFault>,
    ) -> bool
        ensures tells { TellsEnd T.sends self.old number ends written result self.new }
        ensures in_time { NotesInTime self.old.times numbers.old self.new.times numbers.new }
        ensures numbered { IsNumbered (Some self.old) → IsNumbered (Some self.new) }
    {
        let alloc = self.alloc();
        let answer = put_end(alloc, &mut self.socket, number, ends, written);
        self.kill_unless_written(numbers, answer)
    }

    /// Sends an event of one of the client's objects. To a killed client nothing is sent. Also returns whether memory ran
    /// out.
    ///
    /// If the event ends its sender, the sender is taken out, also if the event could not be written. If there is no
    /// memory, nothing is done. The sender is looked up by its id only once; only a destructor goes to its number again, to
    /// take it out after the write.
    pub fn send_event(
        &mut self,
        protocol: &Protocol,
        numbers: &mut NoteNumbers,
        message: &Message<ObjectId, Token>,
    ) -> (Result<(), EventError>, bool)
        ensures does { Does self.old (λ p did q. SendsEvent T.sends message.now.sender_id.client protocol.now p (session_content message.now) result.0 result.1 did q) self.new }
        ensures in_time { NotesInTime self.old.times numbers.old self.new.times numbers.new }
        ensures numbered { IsNumbered (Some self.old) → IsNumbered (Some self.new) }
    {
        if self.is_killed {
            return (Ok(()), false);
        }
        let id = &message.sender_id;
        let (sender, ends) = match check_event(protocol, &id.client(), &self.objects.map, message) {
            Ok(granted) => granted,
            Err(error) => return (Err(error), false),
        };
        if make_room(&mut self.waiting, sender, ends).is_err() {
            return (Err(EventError::OutOfMemory), true);
        }
        let written = self.socket.write_numbered(message, &OwnNumbers);
        if is_out_of_memory(written) {
            return (Err(EventError::OutOfMemory), true);
        }
        end_sender(&mut self.objects, &mut self.waiting, numbers, id, ends);
        (
            Ok(()),
            self.tell_end(numbers, id.protocol_id(), ends, written),
        )
    }
}
