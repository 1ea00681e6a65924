//! The end of an event that was handed out.

ghost use Rattle.std.specs.Prelude.{◌≡◌, IsSome, MatchOption, MatchResult};
ghost use Rattle.wl_client.specs.Session.{alive, core_of, named, with_core};
ghost use Rattle.wl_client.specs.Cutting.{CutsFinish};
ghost use Rattle.wl_client.specs.Finish.{Finishes, refusal, with_data_for, with_dead};
ghost use Rattle.wl_client.specs.Plain.{EndsEvent};
ghost use Rattle.wl_client.specs.Accounts.{CallsLocally};
ghost use Rattle.wl_client.specs.Steps.{refused_finish};
ghost use Rattle.wl_client.specs.declared.step.Reply.TheVariants as reply;
ghost use Rattle.wl_client.specs.declared.step.Step.TheVariants as step;

use crate::backend::Backend;
use crate::error::{FinishError, FinishRefused};
use crate::event::OpenEvent;
use crate::object_id::ObjectId;
use crate::objects::{give_data, give_up, named_in, note_end};
use wl_wire::OutOfMemory;

/// Why an event that made this object cannot be ended with these data, if memory does not run out.
fn refusal<U>(created: &Option<ObjectId>, user_data: &Option<U>) -> Option<FinishError>
    ensures { result ≡ refusal created.now user_data.now }
{
    match (created.is_some(), user_data.is_some()) {
        (true, false) => Some(FinishError::MissingObjectData),
        (false, true) => Some(FinishError::UnexpectedData),
        _ => None,
    }
}

impl<T: Drop, U: Drop> Backend<T, U> {
    /// Ends the event that `next_event` handed out. If the event made an object, the object gets this user data.
    ///
    /// An event may end its sender (`MessageDesc::is_destructor`). Then the sender is marked as destroyed. It is noted, if it
    /// has user data and the client had not destroyed it. The errors are, in this order:
    ///
    /// - `NoOpenEvent` if no event is open;
    /// - `MissingObjectData` if the event made an object, and no data are given;
    /// - `UnexpectedData` if the event made no object, and data are given;
    /// - `OutOfMemory` if there is no memory for a note.
    ///
    /// Each gives the data back. The event stays open, and nothing is changed.
    pub fn finish_event(&mut self, user_data: Option<U>) -> Result<(), FinishRefused<U>>
        ensures call { CallsLocally self.old (step.FinishEvent user_data) (reply.FinishEvent result) self.new }
        ensures plain { EndsEvent self.old.session user_data result self.new.session }
        ensures finished { Finishes self.old.session user_data result self.new.session }
        ensures refused { self.new.refused ≡ refused_finish result }
        ensures cutting { CutsFinish self.old.session user_data result self.new.session }
    {
        self.end_event(user_data)
    }

    /// Ends the event that is open, or says why it cannot be ended with these data.
    fn end_event(&mut self, user_data: Option<U>) -> Result<(), FinishRefused<U>>
        ensures finished { Finishes self.old.session user_data result self.new.session }
        ensures refused { self.new.refused ≡ refused_finish result }
    {
        self.refused = false;
        let Some(event) = self.open_event else {
            let error = FinishError::NoOpenEvent;
            return Err(FinishRefused { error, user_data });
        };
        if let Some(error) = refusal(&event.created, &user_data) {
            return Err(FinishRefused { error, user_data });
        }
        if event.is_destructor && self.end_object(&event.sender).is_err() {
            self.refused = true;
            let error = FinishError::OutOfMemory;
            return Err(FinishRefused { error, user_data });
        }
        self.open_event = None;
        self.give_created(event.created, user_data);
        Ok(())
    }

    /// The event that is open: it was handed out, and neither `finish_event` nor `fail` has ended it. `None` if no event is open.
    ///
    /// It says what the table says of the event and which object the event made, so a program need not look that up.
    pub fn open_event(&self) -> Option<OpenEvent>
        ensures { result ≡ self.now.session.open_event }
    {
        self.open_event
    }

    /// Gives the user data to the object that an event made, if it made one.
    fn give_created(&mut self, created: Option<ObjectId>, user_data: Option<U>)
        ensures given { self.new.session ≡ with_core self.old.session (with_data_for (core_of self.old.session) created user_data) }
        ensures refused { self.new.refused ≡ self.old.refused }
    {
        if let (Some(id), Some(user_data)) = (created, user_data) {
            // The object is still there: it leaves the map only in a reading, or after one that deletes its id, and there is none
            // while the event is open.
            let _ = give_data(&mut self.objects, &id, user_data);
        }
    }

    /// Marks the object that the id names as destroyed. It is noted, if it has user data and the client had not destroyed
    /// it.
    ///
    /// If there is no memory for the note, nothing is changed.
    fn end_object(&mut self, id: &ObjectId) -> Result<(), OutOfMemory>
        ensures ended { MatchResult result
            (λ _. self.new.session ≡ with_core self.old.session (with_dead (core_of self.old.session) id.now.number (named self.old.session.store id.now)))
            (λ _. (self.new.session ≡ self.old.session) × MatchOption (alive (named self.old.session.store id.now)) ⊥ (λ x. IsSome x.value.user_data)) }
        ensures refused { self.new.refused ≡ self.old.refused }
    {
        let number = id.protocol_id();
        let Some(object) = named_in(&self.objects, id) else {
            return Ok(());
        };
        if !object.value.client_destroyed {
            note_end(&mut self.notes, number, object)?;
        }
        give_up(&mut self.objects, number);
        Ok(())
    }
}
