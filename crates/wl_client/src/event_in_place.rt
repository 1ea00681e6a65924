//! Messages of words that are handled where they stand, without being read first: a `delete_id`, and an event whose arguments
//! are numbers.

ghost use Rattle.std.specs.Prelude.{◌≡◌, ◌≤◌, ◌*◌, ◌++◌, List, Some, IfSome, IsTrue, MatchBool, MatchOption, length, take};
ghost use Rattle.std.specs.List.{AllByRecursion};
ghost use Rattle.smallvec.specs.SmallVec.{HasRoomFor};
ghost use Rattle.wl_wire.specs.declared.argument.Argument.{Argument as EventArgument};
ghost use Rattle.wl_wire.specs.declared.argument.Token.{Token as WireToken};
ghost use Rattle.wl_wire.specs.Parse.{IsWhole, payload_of};
ghost use Rattle.wl_wire.specs.Reading.{IsWord};
ghost use Rattle.wl_client.specs.ObjectId.{IdParts};
ghost use Rattle.wl_client.specs.Requests.{session_content};
ghost use Rattle.wl_client.specs.Inside.EventInPlace.{DeleteWaits, HandledInPlace, IsNumber, NumbersAre, NumbersWait, number_argument};
ghost use Rattle.wl_client.specs.Inside.ReadingLoop.{GaveEvent, HandlesMessage, IsHeader, WentOn};

use crate::backend::Backend;
use crate::event::OpenEvent;
use crate::message::{desc_of, event_desc};
use crate::object_id::ObjectId;
use crate::objects::{Kept, delete_id, id_at};
use wl_link::{BufferedSocket, ObjectMap, Transport};
use wl_wire::opcodes::DELETE_ID;
use wl_wire::{Args, Argument, ArgumentType, DISPLAY, INLINE_ARGS, Message, Protocol, Token};

/// What the handling of a message in place came to.
#[derive(Clone, Copy)]
pub enum InPlace {
    /// There is an event to hand out.
    Event,
    /// The id of a number was deleted.
    Deleted,
    /// It is no message that is handled in place.
    Not,
}

/// The number whose id the server deletes, if the first message that was received is a `delete_id`, is complete, and has no
/// more bytes than it needs. It has this header.
fn waiting_delete<T: Drop, U: Drop>(
    protocol: &Protocol,
    objects: &ObjectMap<Kept<U>>,
    socket: &BufferedSocket<T>,
    header: (u32, u16),
) -> Option<u32>
    requires { IsHeader socket.now header }
    ensures { IfSome result (λ n. DeleteWaits protocol.now objects.now.store socket.now n) }
{
    let (sender, opcode) = header;
    if opcode != DELETE_ID {
        return None;
    }
    let desc = event_desc(protocol, objects, sender, opcode)?;
    match desc.signature.as_slice() {
        [ArgumentType::Uint] => socket.next_word(),
        _ => None,
    }
}

/// Whether an argument of that type is a number, which is a word on the wire and is handed out as it is.
fn is_number(kind: ArgumentType) -> bool
    ensures { IsTrue result → IsNumber kind }
{
    match kind {
        ArgumentType::Int | ArgumentType::Uint | ArgumentType::Fixed => true,
        ArgumentType::Str(_)
        | ArgumentType::Object(_)
        | ArgumentType::NewId
        | ArgumentType::Array
        | ArgumentType::Fd => false,
    }
}

/// Whether each argument under this signature is a number.
fn are_numbers(signature: &[ArgumentType]) -> bool
    ensures { IsTrue result → AllByRecursion IsNumber signature.now }
{
    let Some((kind, kinds)) = signature.split_first() else {
        return true;
    };
    if !is_number(*kind) {
        return false;
    }
    are_numbers(kinds)
}

/// The argument of this type that a word is.
fn number_of(kind: ArgumentType, word: u32) -> Argument<ObjectId, Token>
    requires { IsNumber kind }
    ensures { number_argument kind word ≡ Some result }
{
    match kind {
        ArgumentType::Int => Argument::Int(word.cast_signed()),
        ArgumentType::Uint => Argument::Uint(word),
        ArgumentType::Fixed => Argument::Fixed(word.cast_signed()),
        ArgumentType::Str(_)
        | ArgumentType::Object(_)
        | ArgumentType::NewId
        | ArgumentType::Array
        | ArgumentType::Fd => unreachable!(),
    }
}

/// The word at the front of the payload.
fn front_word(payload: &[u8]) -> u32
    requires { 4 ≤ length payload.now }
    ensures { IsWord result (take 4 payload.now) }
{
    u32::from_le_bytes([payload[0], payload[1], payload[2], payload[3]])
}

/// Appends the arguments under this signature, which are numbers. The payload has their words.
fn push_numbers(signature: &[ArgumentType], payload: &[u8], args: &mut Args<ObjectId>)
    requires numbers { AllByRecursion IsNumber signature.now }
    requires words { 4 * length signature.now ≤ length payload.now }
    requires room { HasRoomFor args.old (length signature.now) }
    ensures pushed { (values : List (EventArgument IdParts WireToken)) × (args.new.items ≡ args.old.items ++ values) × NumbersAre signature.now payload.now values }
    ensures capacity { args.new.capacity ≡ args.old.capacity }
{
    if let Some((kind, kinds)) = signature.split_first() {
        args.push_reserved(number_of(*kind, front_word(payload)));
        push_numbers(kinds, &payload[4..], args);
    }
}

/// The payload of the first message that was received, if it is there to its end, and its arguments under this signature are at
/// most four, all of them numbers, for which it has the words.
fn waiting_numbers<'s, T: Drop>(
    socket: &'s BufferedSocket<T>,
    signature: &[ArgumentType],
) -> Option<&'s [u8]>
    ensures { IfSome result (λ payload. IsWhole socket.now.incoming.bytes × (payload.now ≡ payload_of socket.now.incoming.bytes)
        × AllByRecursion IsNumber signature.now × (4 * length signature.now ≤ length payload.now) × (length signature.now ≤ INLINE_ARGS)) }
{
    if signature.len() > INLINE_ARGS || !are_numbers(signature) {
        return None;
    }
    let payload = &socket.front()?[8..];
    if payload.len() < 4 * signature.len() {
        return None;
    }
    Some(payload)
}

/// Puts the first message that was received, which has this header, into `event`, if it is an event of at most four numbers and
/// nothing else, for an object that the client has not destroyed, and is there to its end. Returns what is open then. If it is
/// not, `event` is as it was.
fn read_numbers<T: Drop, U: Drop>(
    protocol: &Protocol,
    objects: &ObjectMap<Kept<U>>,
    socket: &BufferedSocket<T>,
    header: (u32, u16),
    event: &mut Message<ObjectId, Token>,
) -> Option<OpenEvent>
    requires header { IsHeader socket.now header }
    requires inline { INLINE_ARGS ≤ event.old.args.capacity }
    ensures waits { MatchOption result (event.new ≡ event.old)
        (λ opened. NumbersWait protocol.now objects.now.store socket.now (session_content event.new) opened) }
    ensures inline { INLINE_ARGS ≤ event.new.args.capacity }
{
    let (sender, opcode) = header;
    let object = objects.find(sender)?;
    if object.value.client_destroyed {
        return None;
    }
    let desc = desc_of(protocol, object, opcode)?;
    let payload = waiting_numbers(socket, desc.signature.as_slice())?;
    event.sender_id = id_at(sender, object);
    event.opcode = opcode;
    event.args.clear();
    push_numbers(desc.signature.as_slice(), payload, &mut event.args);
    Some(OpenEvent {
        sender: event.sender_id,
        is_destructor: desc.is_destructor,
        created: None,
    })
}

impl<T: Transport + Drop, U: Drop> Backend<T, U> {
    /// Handles the first message that was received, which has this header, if it is a `delete_id` of which nothing is
    /// lacking. If not, nothing is changed.
    pub(crate) fn delete_in_place(&mut self, header: (u32, u16)) -> bool
        requires { IsHeader self.old.session.link header }
        ensures { MatchBool result (HandlesMessage self.old.session WentOn self.new.session) (self.new.session ≡ self.old.session) }
    {
        if header.0 != DISPLAY {
            return false;
        }
        let waiting = waiting_delete(&self.protocol, &self.objects, &self.socket, header);
        let Some(number) = waiting else {
            return false;
        };
        // Without a place for the id it is taken as any other message, for which there is no memory then.
        if self.freed.reserve().is_err() {
            return false;
        }
        self.socket.skip_message(0);
        delete_id(&mut self.objects, &mut self.freed, number);
        true
    }

    /// Hands out the first message that was received, which has this header, if it is an event of at most four numbers. If it is
    /// not, nothing is changed.
    pub(crate) fn take_numbers(
        &mut self,
        header: (u32, u16),
        event: &mut Message<ObjectId, Token>,
    ) -> bool
        requires header { IsHeader self.old.session.link header }
        requires inline { INLINE_ARGS ≤ event.old.args.capacity }
        ensures handles { MatchBool result (HandlesMessage self.old.session (GaveEvent event.new) self.new.session)
            ((self.new ≡ self.old) × (event.new ≡ event.old)) }
        ensures inline { INLINE_ARGS ≤ event.new.args.capacity }
    {
        if header.0 == DISPLAY {
            return false;
        }
        let waiting = read_numbers(&self.protocol, &self.objects, &self.socket, header, event);
        let Some(opened) = waiting else {
            return false;
        };
        self.open_event = Some(opened);
        self.socket.skip_message(0);
        true
    }

    /// Handles the first message that was received, which has this header, if it is one that is handled in place. If it is an
    /// event, that is in `event` then. If it is not handled, nothing is changed.
    pub(crate) fn handle_in_place(
        &mut self,
        header: (u32, u16),
        event: &mut Message<ObjectId, Token>,
    ) -> InPlace
        requires header { IsHeader self.old.session.link header }
        requires inline { INLINE_ARGS ≤ event.old.args.capacity }
        ensures handled { HandledInPlace self.old.session result event.new self.new.session }
        ensures inline { INLINE_ARGS ≤ event.new.args.capacity }
    {
        if self.delete_in_place(header) {
            return InPlace::Deleted;
        }
        if self.take_numbers(header, event) {
            return InPlace::Event;
        }
        InPlace::Not
    }
}
