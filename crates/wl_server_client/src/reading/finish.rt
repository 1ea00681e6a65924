//! Finishes an action that was handed out.

ghost use Rattle.std.specs.Prelude.{◌≡◌, ◌+◌, ◌<◌, ◌≤◌, ◌++◌, if◌then◌else◌, IsSome, MatchOption, IfOk, Ok, Some, OnErr, OnOk, false, is_some, true, map, option_copied};
ghost use Rattle.std.specs.Result.{result_and};
ghost use Rattle.std.specs.VecDeque.{deque_capacity, deque_len};
ghost use Rattle.wl_link.specs.Store.{held, removed};
ghost use Rattle.wl_link.specs.declared.object.Object.{Object};
ghost use Rattle.wl_server_client.specs.declared.objects.Kept.{Kept};
ghost use Rattle.wl_server_client.specs.Inside.Client.{Does};
ghost use Rattle.wl_server_client.specs.Finish.{ended_by, FinishesBind, FinishesOpen, FinishesRequest, refusal};
ghost use Rattle.wl_server_client.specs.Inside.Finishing.{BindLeaves, DataHeld, EndsSender, RequestLeaves, ended_as, lacks_finish, part_finished};
ghost use Rattle.wl_server_client.specs.NoteTimes.{IsNumbered, GivesNumbers, NotesInTime};
ghost use Rattle.wl_server_client.specs.Inside.NoteTimes.{one_made};
ghost use Rattle.wl_server_client.specs.Part.{note_of_end, registries_without};
ghost use Rattle.wl_server_client.specs.declared.reading.action.OpenAction.TheVariants as opened;

use crate::client::Client;
use crate::error::{FinishError, FinishRefused};
use crate::events::own_events::{is_out_of_memory, put_delete_id};
use crate::ids::client_id::ClientId;
use crate::ids::object_id::ObjectId;
use crate::notes::Happening;
use crate::notes::queues::{MadeNotes, NoteNumbers};
use crate::objects::data::give_if_kept;
use crate::objects::{ClientObjects, Kept, id_at, named_in, take_out};
use crate::reading::action::OpenAction;
use std::alloc::Global;
use wl_link::{Object, ObjectMap, Transport};
use wl_wire::{IoFault, OutOfMemory};

/// The error if a request cannot be finished with this user data if memory does not run out. For a killed client the data
/// may be missing.
fn refusal_of<U>(
    is_killed: bool,
    created: &Option<ObjectId>,
    user_data: &Option<U>,
) -> Option<FinishError>
    ensures { result ≡ refusal is_killed created.now user_data.now }
{
    match (created.is_some(), user_data.is_some()) {
        (true, false) if !is_killed => Some(FinishError::MissingObjectData),
        (false, true) => Some(FinishError::UnexpectedData),
        _ => None,
    }
}

/// The object that a request ends: its sender, if the request is a destructor and the object is there.
fn ended_in<'a, U: Drop>(
    objects: &'a ObjectMap<Kept<U>>,
    sender: &ObjectId,
    is_destructor: bool,
) -> Option<&'a Object<Kept<U>>>
    ensures { option_copied result ≡ ended_by objects.now.store sender.now is_destructor }
{
    if !is_destructor {
        return None;
    }
    named_in(objects, sender)
}

/// Makes room for two notes, if the object has user data: the one of its end, and one more.
fn reserve_end<U: Drop>(
    made: &mut MadeNotes<U>,
    object: &Object<Kept<U>>,
) -> Result<(), OutOfMemory>
    ensures items { made.new.queue.items ≡ made.old.queue.items }
    ensures len { deque_len made.new.queue ≡ deque_len made.old.queue }
    ensures capacity { deque_capacity made.old.queue ≤ deque_capacity made.new.queue }
    ensures room { OnOk result (IsSome object.now.value.user_data → deque_len made.new.queue + 2 ≤ deque_capacity made.new.queue) }
    ensures asked { OnErr result (is_some object.now.value.user_data ≡ true) }
{
    if object.value.user_data.is_some() {
        made.reserve(2)?;
    }
    Ok(())
}

/// Takes the object of this number out, and makes a note of that if it had user data, which uses up a number of a note.
/// There is room for the note.
fn take_out_made<U: Drop>(
    objects: &mut ClientObjects<U>,
    made: &mut MadeNotes<U>,
    numbers: &mut NoteNumbers,
    client: &ClientId,
    number: u32,
)
    requires { (x : Object (Kept U)) → held objects.old.map.store number ≡ Some x → IsSome x.value.user_data → deque_len made.old.queue + 2 ≤ deque_capacity made.old.queue }
    ensures removed { objects.new.map.store ≡ removed objects.old.map.store number }
    ensures serial { objects.new.last_serial ≡ objects.old.last_serial }
    ensures left { (x : Object (Kept U)) → held objects.old.map.store number ≡ Some x
        → (objects.new.registries.items ≡ registries_without objects.old.registries.items number x)
        × (map (λ m. m.1) made.new.queue.items ≡ map (λ m. m.1) made.old.queue.items ++ note_of_end client.now number x) }
    ensures numbers { MatchOption (held objects.old.map.store number) (numbers.new ≡ numbers.old)
        (λ x. numbers.new ≡ (if is_some x.value.user_data then one_made numbers.old else numbers.old)) }
    ensures in_time { GivesNumbers (map (λ m. m.0) made.old.queue.items) numbers.old.made (map (λ m. m.0) made.new.queue.items) numbers.new.made }
    ensures waiting { numbers.new.waiting ≡ numbers.old.waiting }
    ensures room { deque_len made.old.queue < deque_capacity made.old.queue → deque_len made.new.queue < deque_capacity made.new.queue }
{
    let Some(object) = take_out(objects, number) else {
        return;
    };
    let id = id_at(client, number, &object);
    if let Some(user_data) = object.value.user_data {
        made.push(numbers, Happening::Destroyed(id, user_data));
    }
}

impl<T: Transport + Drop, U: Drop, C: Drop> Client<T, U, C> {
    /// Destroys the sender of a request, if the request is a destructor and the object is there: tells the client that
    /// the number is free, takes the object out, and makes a note of that if it had user data. Returns the result of
    /// telling the client. `OutOfMemory` says that there was no memory for that or for the note, and that the object stays.
    fn end_sender(
        &mut self,
        alloc: Global,
        id: &ClientId,
        numbers: &mut NoteNumbers,
        sender: &ObjectId,
        is_destructor: bool,
    ) -> Result<(), IoFault>
        ensures ends { EndsSender T.sends id.now self.old sender.now is_destructor (ended_as result) self.new }
        ensures in_time { NotesInTime self.old.times numbers.old self.new.times numbers.new }
        ensures numbered { IsNumbered (Some self.old) → IsNumbered (Some self.new) }
    {
        let Some(object) = ended_in(&self.objects.map, sender, is_destructor) else {
            return Ok(());
        };
        let Ok(()) = reserve_end(&mut self.made, object) else {
            return Err(IoFault::OutOfMemory);
        };
        let number = sender.protocol_id();
        let wrote = put_delete_id(alloc, &mut self.socket, number);
        if is_out_of_memory(wrote) {
            return Err(IoFault::OutOfMemory);
        }
        take_out_made(&mut self.objects, &mut self.made, numbers, id, number);
        wrote
    }

    /// Ends the open action, and gives the object that it made this user data. Returns the data if that is gone.
    fn finish_action(&mut self, created: Option<ObjectId>, user_data: Option<U>) -> Option<U>
        ensures finished { self.new ≡ record self.old { part = part_finished self.old.part created user_data } }
        ensures back { DataHeld self.new.part.store created user_data result }
    {
        self.action.close();
        match (created, user_data) {
            (Some(id), Some(user_data)) => { give_if_kept(&mut self.objects.map, &id, user_data) }
            _ => None,
        }
    }

    /// Finishes the open request with this user data. Returns the data if the object that it made is gone.
    fn end_request(
        &mut self,
        id: &ClientId,
        numbers: &mut NoteNumbers,
        sender: &ObjectId,
        is_destructor: bool,
        created: Option<ObjectId>,
        user_data: Option<U>,
    ) -> Result<Option<U>, FinishRefused<Option<U>>>
        ensures done { Does self.old (λ p did q. FinishesOpen T.sends id.now p (opened.Request sender.now is_destructor created) user_data (result_and result (Ok tt)) (lacks_finish (result_and result (Ok tt))) did q) self.new }
        ensures back { IfOk result (λ back. DataHeld self.new.part.store created user_data back) }
        ensures in_time { NotesInTime self.old.times numbers.old self.new.times numbers.new }
        ensures numbered { IsNumbered (Some self.old) → IsNumbered (Some self.new) }
    {
        if let Some(error) = refusal_of(self.is_killed, &created, &user_data) {
            return Err(FinishRefused { error, user_data });
        }
        if !is_destructor {
            return Ok(self.finish_action(created, user_data));
        }
        let alloc = self.alloc();
        let told = self.end_sender(alloc, id, numbers, sender, is_destructor);
        if is_out_of_memory(told) {
            let error = FinishError::OutOfMemory;
            return Err(FinishRefused { error, user_data });
        }
        let back = self.finish_action(created, user_data);
        let _ = self.kill_unless_written(numbers, told);
        Ok(back)
    }

    /// Finishes the open request. Returns the user data if the object that it made is gone.
    pub fn finish_request(
        &mut self,
        id: &ClientId,
        numbers: &mut NoteNumbers,
        user_data: Option<U>,
    ) -> Result<Option<U>, FinishRefused<Option<U>>>
        ensures done { Does self.old (λ p did q. FinishesRequest T.sends id.now p user_data (result_and result (Ok tt)) (lacks_finish (result_and result (Ok tt))) did q) self.new }
        ensures back { RequestLeaves self.old.part user_data result self.new.part }
        ensures in_time { NotesInTime self.old.times numbers.old self.new.times numbers.new }
        ensures numbered { IsNumbered (Some self.old) → IsNumbered (Some self.new) }
    {
        let Some(action) = self.action.get() else {
            let error = FinishError::NoOpenAction;
            return Err(FinishRefused { error, user_data });
        };
        match action {
            OpenAction::Request {
                sender,
                is_destructor,
                created,
            } => { self.end_request(id, numbers, &sender, is_destructor, created, user_data) }
            OpenAction::Bind { .. } => {
                let error = FinishError::WrongKind;
                Err(FinishRefused { error, user_data })
            }
        }
    }

    /// Finishes the open bind: its object gets this user data. Returns them if it is gone.
    pub fn finish_bind(&mut self, user_data: U) -> Result<Option<U>, FinishRefused<U>>
        ensures done { Does self.old (λ p did q. FinishesBind p user_data (result_and result (Ok tt)) false did q) self.new }
        ensures back { BindLeaves self.old.part user_data result self.new.part }
        ensures times { self.new.times ≡ self.old.times }
        ensures numbered { IsNumbered (Some self.old) → IsNumbered (Some self.new) }
    {
        let Some(action) = self.action.get() else {
            let error = FinishError::NoOpenAction;
            return Err(FinishRefused { error, user_data });
        };
        match action {
            OpenAction::Bind { object } => { Ok(self.finish_action(Some(object), Some(user_data))) }
            OpenAction::Request { .. } => {
                let error = FinishError::WrongKind;
                Err(FinishRefused { error, user_data })
            }
        }
    }
}
