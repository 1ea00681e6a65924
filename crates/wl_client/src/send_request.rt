//! Sends a request.

ghost use Rattle.std.specs.Prelude.{◌≡◌, ◌<◌, ◌⊎◌, true, IfSome, IsSome, IsTrue, OnErr, OnOk, MatchResult, is_some, vec_len, vec_capacity};
ghost use Rattle.wl_wire.specs.MapIds.{numbered};
ghost use Rattle.wl_client.specs.Plain.{SendsRequest};
ghost use Rattle.wl_client.specs.Requests.{Requested, Sent, SentAs, SentWithChild, ended_by, id_of_new, number_of_new, session_content};
ghost use Rattle.wl_client.specs.Inside.Sending.{IsNext, IsNextObject, LacksNext, WrittenTo, ended_of, is_noted, notes_ending, serial_with, store_ending, store_with};
ghost use Rattle.wl_client.specs.Accounts.{Calls};
ghost use Rattle.wl_client.specs.Steps.{CallOf, refused_request};
ghost use Rattle.wl_client.specs.declared.step.Reply.TheVariants as reply;
ghost use Rattle.wl_client.specs.declared.step.Step.TheVariants as step;

use crate::backend::Backend;
use crate::error::{RequestError, WaylandError};
use crate::object_id::ObjectId;
use crate::objects::{Kept, Note, fresh_object, give_up, id_at, named_in};
use crate::request::{Granted, RequestNumbers, check_request};
use wl_link::{BufferedSocket, Object, ObjectMap, Transport};
use wl_wire::{InterfaceId, IoFault, Message, OutOfMemory, Token};

/// The sender, if the request ends it, and whether it has user data.
fn ended_sender<U: Drop>(
    objects: &ObjectMap<Kept<U>>,
    message: &Message<ObjectId, Token>,
    is_destructor: bool,
) -> Option<(ObjectId, bool)>
    ensures { result ≡ ended_of (ended_by objects.now.store (session_content message.now) is_destructor) }
{
    if !is_destructor {
        return None;
    }
    match named_in(objects, &message.sender_id) {
        Some(object) => {
            let number = message.sender_id.protocol_id();
            Some((id_at(number, object), object.value.user_data.is_some()))
        }
        None => None,
    }
}

/// The number of the new object; 0 if there is none.
fn number_of<U>(new: &Option<(u32, Object<Kept<U>>)>) -> u32
    ensures { result ≡ number_of_new new.now }
{
    match new {
        Some((number, _)) => *number,
        None => 0,
    }
}

/// Makes room for a new object, if `creates` is set, and for a note, if `is_noted` is set.
fn make_room<U: Drop>(
    objects: &mut ObjectMap<Kept<U>>,
    notes: &mut Vec<Note>,
    creates: bool,
    is_noted: bool,
) -> Result<(), OutOfMemory>
    ensures store { objects.new.store ≡ objects.old.store }
    ensures notes { notes.new.items ≡ notes.old.items }
    ensures asked { OnErr result (IsTrue creates ⊎ IsTrue is_noted) }
    ensures reserved { OnOk result (IsTrue creates → objects.new.reserved ≡ true) }
    ensures room { OnOk result (IsTrue is_noted → vec_len notes.new < vec_capacity notes.new) }
{
    if creates {
        objects.reserve()?;
    }
    if is_noted {
        notes.reserve(1)?;
    }
    Ok(())
}

/// Writes the message. The new object gets this number.
///
/// The error says that there was no memory. Any other fault is stored as the session's error, in place of the last one.
fn write<T: Transport>(
    socket: &mut BufferedSocket<T>,
    error: &mut Option<WaylandError>,
    message: &Message<ObjectId, Token>,
    new_object: u32,
) -> Result<(), OutOfMemory>
    ensures { WrittenTo T.sends socket.old error.old (numbered (λ id. id.number) (λ _. new_object) message.now) result socket.new error.new }
{
    match socket.write_numbered(message, &RequestNumbers { new_object }) {
        Ok(()) => Ok(()),
        Err(IoFault::OutOfMemory) => Err(OutOfMemory),
        Err(fault) => {
            *error = Some(WaylandError::Io(fault));
            Ok(())
        }
    }
}

/// Takes the new object, if there is one, and puts it at its number. Its serial is given out by that. Returns its id, or
/// the null id.
fn put_new<U: Drop>(
    objects: &mut ObjectMap<Kept<U>>,
    last_serial: &mut u64,
    new: &mut Option<(u32, Object<Kept<U>>)>,
) -> ObjectId
    requires next { IfSome new.old (IsNext objects.old.store last_serial.old) }
    requires room { IsSome new.old → objects.old.reserved ≡ true }
    ensures store { objects.new.store ≡ store_with objects.old.store new.old }
    ensures serial { last_serial.new ≡ serial_with last_serial.old new.old }
    ensures id { result ≡ id_of_new new.old }
{
    let Some((number, object)) = new.take() else {
        return ObjectId::null();
    };
    let serial = object.value.serial;
    let id = ObjectId::from_parts(number, serial, object.interface);
    match objects.insert_at(number, object) {
        Ok(()) => {
            *last_serial = serial;
            id
        }
        Err(_) => unreachable!(),
    }
}

/// Flags the sender as destroyed by the client, if the request ends it. It is noted, if it has user data.
fn end_sender<U: Drop>(
    objects: &mut ObjectMap<Kept<U>>,
    notes: &mut Vec<Note>,
    ended: Option<(ObjectId, bool)>,
)
    requires { IsTrue (is_noted ended) → vec_len notes.old < vec_capacity notes.old }
    ensures store { objects.new.store ≡ store_ending objects.old.store ended }
    ensures notes { notes.new.items ≡ notes_ending notes.old.items ended }
{
    let Some((id, has_data)) = ended else {
        return;
    };
    give_up(objects, id.protocol_id());
    if has_data {
        notes.push_reserved(Note::Destroyed(id));
    }
}

/// Whether there was no memory for the request.
fn lacks_memory(answer: &Result<ObjectId, RequestError>) -> bool
    ensures { result ≡ refused_request answer.now }
{
    matches!(answer, Err(RequestError::OutOfMemory))
}

impl<T: Transport + Drop, U: Drop> Backend<T, U> {
    /// The next new object of the client, with its number. Nothing is changed.
    ///
    /// The error is `IdsExhausted` if no number is left, and else `SerialsExhausted` if no serial is left.
    fn next_object(
        &mut self,
        child: (InterfaceId, u32),
        user_data: U,
    ) -> Result<(u32, Object<Kept<U>>), RequestError>
        ensures next { MatchResult result (IsNextObject self.old.session child user_data) (LacksNext self.old.session) }
        ensures unchanged { self.new.session ≡ self.old.session }
    {
        let Some(number) = self.objects.next_client() else {
            return Err(RequestError::IdsExhausted);
        };
        if self.last_serial == u64::MAX {
            return Err(RequestError::SerialsExhausted);
        }
        let serial = self.last_serial + 1;
        let object = fresh_object(child.0, child.1, serial, Some(user_data));
        Ok((number, object))
    }

    /// Sends a request that was not refused. First it makes room for what the session keeps of the request, then it writes
    /// the request. After that it puts the new object, and ends the sender, if the request makes or ends one.
    ///
    /// If there is no memory, no object is put and none is ended. The new object is lent, so that an early return has
    /// nothing to drop.
    fn send(
        &mut self,
        message: &Message<ObjectId, Token>,
        new: &mut Option<(u32, Object<Kept<U>>)>,
        is_destructor: bool,
    ) -> Result<ObjectId, RequestError>
        requires { IfSome new.old (IsNext self.old.session.store self.old.session.last_serial) }
        ensures { Sent T.sends self.old.session (session_content message.now) new.old
            (ended_by self.old.session.store (session_content message.now) is_destructor) result self.new.session }
    {
        let ended = ended_sender(&self.objects, message, is_destructor);
        let number = number_of(new);
        let creates = new.is_some();
        let is_noted = matches!(ended, Some((_, true)));
        let room = make_room(&mut self.objects, &mut self.notes, creates, is_noted);
        if room.is_err() {
            return Err(RequestError::OutOfMemory);
        }
        if write(&mut self.socket, &mut self.error, message, number).is_err() {
            return Err(RequestError::OutOfMemory);
        }
        let id = put_new(&mut self.objects, &mut self.last_serial, new);
        end_sender(&mut self.objects, &mut self.notes, ended);
        Ok(id)
    }

    /// Sends a request that makes an object with this interface, version and user data.
    ///
    /// The request is refused if no number or no serial is left for the object.
    fn send_with_child(
        &mut self,
        message: &Message<ObjectId, Token>,
        child: (InterfaceId, u32),
        user_data: U,
        is_destructor: bool,
    ) -> Result<ObjectId, RequestError>
        ensures { SentWithChild T.sends self.old.session (session_content message.now) child user_data
            (ended_by self.old.session.store (session_content message.now) is_destructor) result self.new.session }
    {
        let new = self.next_object(child, user_data)?;
        self.send(message, &mut Some(new), is_destructor)
    }

    /// Sends a request that was not refused. If it makes an object, `user_data` has its data.
    fn send_granted(
        &mut self,
        message: &Message<ObjectId, Token>,
        granted: Granted,
        user_data: Option<U>,
    ) -> Result<ObjectId, RequestError>
        requires { IsSome granted.child → IsSome user_data }
        ensures { SentAs T.sends self.old.session (session_content message.now) granted.child user_data
            (ended_by self.old.session.store (session_content message.now) granted.is_destructor) result self.new.session }
    {
        match (granted.child, user_data) {
            (None, _) => self.send(message, &mut None, granted.is_destructor),
            (Some(_), None) => unreachable!(),
            (Some(child), Some(user_data)) => {
                self.send_with_child(message, child, user_data, granted.is_destructor)
            }
        }
    }

    /// Checks the request, and appends it to what waits to be sent. Returns the id of the object that it makes, or the null
    /// id.
    ///
    /// It stands for `wayland_backend::client::Backend::send_request`. If the request makes an object, the new id among its
    /// arguments must be null; the session puts the number in. The object gets this user data. Its interface and version
    /// are those of `child_spec`. If the table names the interface, `child_spec` may be `None`; the version is then the
    /// sender's. If the request makes no object, `user_data` and `child_spec` are dropped. A destructor request destroys
    /// its sender on the client's side, as `destroy_object` does.
    ///
    /// The errors are the variants of `RequestError`, which says in which order they are decided. The object arguments are
    /// looked at from left to right, before the new object is made. An error changes nothing, with one exception: after
    /// `OutOfMemory`, what a flush before the write sent or lost no longer waits, and a buffer that grew keeps its
    /// capacity.
    ///
    /// If the transport fails, or the request is too long (`TooBig`), that is stored as the session's error, and the answer
    /// is `Ok`.
    pub fn send_request(
        &mut self,
        message: Message<ObjectId, Token>,
        user_data: Option<U>,
        child_spec: Option<(InterfaceId, u32)>,
    ) -> Result<ObjectId, RequestError>
        ensures call { Calls (CallOf T.sends T.receives) self.old (step.SendRequest message user_data child_spec) (reply.SendRequest result) self.new }
        ensures plain { SendsRequest self.old.session (session_content message) user_data child_spec result self.new.session }
        ensures requested { Requested T.sends self.old.session (session_content message) user_data child_spec result self.new.session }
        ensures refused { self.new.refused ≡ refused_request result }
    {
        self.send_request_lent(&message, user_data, child_spec)
    }

    /// Sends a request that is lent, as `send_request` does: a caller that keeps the message may use its memory again. The
    /// errors are those of `send_request`.
    pub fn send_request_lent(
        &mut self,
        message: &Message<ObjectId, Token>,
        user_data: Option<U>,
        child_spec: Option<(InterfaceId, u32)>,
    ) -> Result<ObjectId, RequestError>
        ensures call { Calls (CallOf T.sends T.receives) self.old (step.SendRequest message.now user_data child_spec) (reply.SendRequest result) self.new }
        ensures plain { SendsRequest self.old.session (session_content message.now) user_data child_spec result self.new.session }
        ensures requested { Requested T.sends self.old.session (session_content message.now) user_data child_spec result self.new.session }
        ensures refused { self.new.refused ≡ refused_request result }
    {
        self.check_and_send(message, user_data, child_spec)
    }

    /// Checks the request, and sends it if it is not refused.
    fn check_and_send(
        &mut self,
        message: &Message<ObjectId, Token>,
        user_data: Option<U>,
        child_spec: Option<(InterfaceId, u32)>,
    ) -> Result<ObjectId, RequestError>
        ensures requested { Requested T.sends self.old.session (session_content message.now) user_data child_spec result self.new.session }
        ensures refused { self.new.refused ≡ refused_request result }
    {
        let has_data = user_data.is_some();
        let checked = check_request(&self.protocol, &self.objects, message, has_data, child_spec);
        let answer = match checked {
            Ok(granted) => self.send_granted(message, granted, user_data),
            Err(error) => Err(error),
        };
        self.refused = lacks_memory(&answer);
        answer
    }
}
