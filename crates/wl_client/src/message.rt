//! Takes the first message off what was received, and handles it.

ghost use Rattle.std.specs.Prelude.{◌≡◌, ◌≤◌, ◌||◌, ℕ, Option, [], true, false, None, Some, IfOk, IfSome, MatchResult, length, OnErr, OnOk, option_copied, option_map};
ghost use Rattle.std.specs.List.{list_any};
ghost use Rattle.smallvec.specs.SmallVec.{HasRoomFor};
ghost use Rattle.wl_wire.specs.Argument.{type_of};
ghost use Rattle.wl_wire.specs.Message.{content};
ghost use Rattle.wl_wire.specs.MessageRows.{creates};
ghost use Rattle.wl_wire.specs.Parse.{IsThere};
ghost use Rattle.wl_wire.specs.Table.{is_new_id, message_row};
ghost use Rattle.wl_link.specs.Link.{ReadOne, read_into};
ghost use Rattle.wl_link.specs.Store.{held};
ghost use Rattle.wl_wire.specs.declared.error.IoFault.TheVariants as io;
ghost use Rattle.wl_client.specs.declared.error.EventError.TheVariants as no_event;
ghost use Rattle.wl_client.specs.declared.error.WaylandError.TheVariants.{Io, Protocol as ProtocolFault};
ghost use Rattle.wl_client.specs.Events.{display_event, error_of};
ghost use Rattle.wl_client.specs.Freeing.{deleted_number, destroyed_at, freed_asks, with_freed};
ghost use Rattle.wl_client.specs.Handling.{handling, is_passed_over, row_in};
ghost use Rattle.wl_client.specs.Reading.{row_asks};
ghost use Rattle.wl_client.specs.Inside.Conversion.{objects_in};
ghost use Rattle.wl_client.specs.Inside.Freed.{FreedStays, HasPlace};
ghost use Rattle.wl_wire.specs.declared.argument.Token.{Token};
ghost use Rattle.wl_wire.specs.declared.message.Message.{Message};
ghost use Rattle.wl_client.specs.declared.event.OpenEvent.{OpenEvent as OpenEventOf};
ghost use Rattle.wl_client.specs.ObjectId.{IdParts};
ghost use Rattle.wl_client.specs.Inside.ReadingLoop.{Carries, EndsWith, IsHeader, NotTaken, NotTakenTo, Stores, TakenTo, TookWith, HandlesMessage, message_result, unknown_signature};

use crate::backend::Backend;
use crate::display_event::{DisplayMessage, display_event, told_error};
use crate::error::{EventError, WaylandError};
use crate::event::handle_and_tell;
use crate::event_fault::{EventFault, fault_text};
use crate::event_in_place::InPlace;
use crate::freed::Freed;
use crate::object_id::ObjectId;
use crate::objects::{Kept, delete_id};
use std::alloc::Global;
use wl_link::{BufferedSocket, Object, ObjectMap, Transport, clear_message};
use wl_wire::opcodes::DELETE_ID;
use wl_wire::{
    Args, DISPLAY, INLINE_ARGS, IoFault, Message, MessageDesc, MessageParseError, OutOfMemory,
    Protocol, ProtocolError, Text, Token,
};

/// Why a reading handed out no event, and whether memory ran out.
#[derive(Clone, Copy)]
pub struct NoEvent {
    /// The error that `next_event` returns.
    pub error: EventError,
    /// Whether memory ran out.
    pub refused: bool,
}

/// What the handling of a message came to.
#[derive(Clone, Copy)]
pub enum MessageEnd {
    /// There is an event to hand out.
    Event,
    /// A message was handled, and the reading goes on.
    Continues,
    /// No message is complete: bytes or tokens are missing.
    Lacks,
    /// The reading ends without an event.
    Ends(NoEvent),
}

/// The description of the event with that opcode, of the object with that number. `None` if there is no such object or
/// event.
pub fn event_desc<'p, U: Drop>(
    protocol: &'p Protocol,
    objects: &ObjectMap<Kept<U>>,
    sender: u32,
    opcode: u16,
) -> Option<&'p MessageDesc>
    ensures { option_map message_row (option_copied result) ≡ row_in protocol.now (held objects.now.store sender) opcode }
{
    desc_of(protocol, objects.find(sender)?, opcode)
}

/// The description of the event with that opcode, of this object. `None` if there is no such event.
pub fn desc_of<'p, U: Drop>(
    protocol: &'p Protocol,
    object: &Object<Kept<U>>,
    opcode: u16,
) -> Option<&'p MessageDesc>
    ensures { option_map message_row (option_copied result) ≡ row_in protocol.now (Some object.now) opcode }
{
    protocol.event(object.interface, opcode)
}

/// Makes room for what the first message becomes, if it is complete: for its arguments, for the object that it may make, and for
/// the id of one that may leave its number. It has this header.
///
/// If the message is not complete, this asks for no memory.
fn make_room<T: Drop, U: Drop>(
    objects: &mut ObjectMap<Kept<U>>,
    converted: &mut Args<ObjectId>,
    freed: &mut Freed,
    socket: &BufferedSocket<T>,
    header: (u32, u16),
    desc: &MessageDesc,
) -> Result<(), OutOfMemory>
    requires empty { converted.old.items ≡ [] }
    requires inline { INLINE_ARGS ≤ converted.old.capacity }
    ensures store { objects.new.store ≡ objects.old.store }
    ensures empty { converted.new.items ≡ [] }
    ensures inline { INLINE_ARGS ≤ converted.new.capacity }
    ensures room { OnOk result (IsThere socket.now.incoming.bytes desc.now.signature.items socket.now.incoming.tokens
        → length desc.now.signature.items ≤ converted.new.capacity) }
    ensures can_make { OnOk result (IsThere socket.now.incoming.bytes desc.now.signature.items socket.now.incoming.tokens
        → creates (message_row desc.now) ≡ true → objects.new.reserved ≡ true) }
    ensures freed { FreedStays freed.old freed.new }
    ensures makes { OnOk result (IsThere socket.now.incoming.bytes desc.now.signature.items socket.now.incoming.tokens
        → creates (message_row desc.now) ≡ true → HasPlace freed.new) }
    ensures deletes { OnOk result (IsThere socket.now.incoming.bytes desc.now.signature.items socket.now.incoming.tokens
        → header.0 ≡ 1 → header.1 ≡ 1 → HasPlace freed.new) }
    ensures asked { OnErr result (((row_asks (Some (message_row desc.now)) || freed_asks freed.old.kept header.0 header.1) ≡ true)
        × IsThere socket.now.incoming.bytes desc.now.signature.items socket.now.incoming.tokens) }
{
    let creates = desc.creates_object();
    let deletes = freed.kept && header.0 == DISPLAY && header.1 == DELETE_ID;
    let asks = creates || desc.signature.len() > INLINE_ARGS || deletes;
    if !asks || !socket.holds_message(desc.signature.as_slice()) {
        return Ok(());
    }
    converted.reserve(desc.signature.len())?;
    if creates {
        objects.reserve()?;
    }
    if creates || deletes {
        freed.reserve()?;
    }
    Ok(())
}

/// Takes the first message off what was received, of this sender, for which the table has no event. Its arguments stay unread,
/// and it takes no token. If it is not passed over, it is malformed.
#[cold]
#[inline(never)]
fn pass_over<T: Drop, U: Drop>(
    passes: bool,
    objects: &ObjectMap<Kept<U>>,
    socket: &mut BufferedSocket<T>,
    sender: u32,
    message: &mut Message<u32, Token>,
) -> Result<(), MessageParseError>
    requires header { 8 ≤ length socket.old.incoming.bytes }
    requires place { INLINE_ARGS ≤ message.old.args.capacity }
    ensures read { ReadOne (λ _ _ found. found ≡ unknown_signature passes (held objects.now.store sender)) socket.old
        (read_into result message.new) socket.new }
    ensures passed { OnOk result (is_passed_over passes (held objects.now.store sender) None ≡ true) }
    ensures empty { OnOk result (message.new.args.items ≡ []) }
    ensures place { INLINE_ARGS ≤ message.new.args.capacity }
{
    let is_known = match objects.find(sender) {
        Some(object) => !object.value.client_destroyed,
        None => false,
    };
    if !passes || is_known {
        return Err(MessageParseError::Malformed);
    }
    socket.read_with_signature(&[], message)
}

/// Takes the first message off what was received. It has this sender and opcode. Returns its description in the table; `None`
/// if there is none, and the message is passed over.
///
/// First it makes room for what the message becomes: in `converted`, which is emptied, for its arguments, in the map for the
/// object that it may make, and in `freed` for the id of one that may leave its number.
fn take<'p, T: Drop, U: Drop>(
    passes: bool,
    protocol: &'p Protocol,
    objects: &mut ObjectMap<Kept<U>>,
    freed: &mut Freed,
    socket: &mut BufferedSocket<T>,
    header: (u32, u16),
    message: &mut Message<u32, Token>,
    converted: &mut Args<ObjectId>,
) -> Result<Option<&'p MessageDesc>, MessageParseError>
    requires header { IsHeader socket.old header }
    requires inline { INLINE_ARGS ≤ converted.old.capacity }
    requires place { INLINE_ARGS ≤ message.old.args.capacity }
    ensures took { TookWith passes protocol.now objects.old.store freed.old.kept socket.old result (content message.new) socket.new }
    ensures store { objects.new.store ≡ objects.old.store }
    ensures room { OnOk result (HasRoomFor converted.new (length message.new.args.items)) }
    ensures inline { INLINE_ARGS ≤ converted.new.capacity }
    ensures empty { converted.new.items ≡ [] }
    ensures can_make { OnOk result (list_any (λ x. is_new_id (type_of x)) message.new.args.items ≡ true → objects.new.reserved ≡ true) }
    ensures place { INLINE_ARGS ≤ message.new.args.capacity }
    ensures freed { FreedStays freed.old freed.new }
    ensures makes { OnOk result (list_any (λ x. is_new_id (type_of x)) message.new.args.items ≡ true → HasPlace freed.new) }
    ensures deletes { IfOk result (λ desc. IfSome desc (λ _. message.new.sender_id ≡ 1 → message.new.opcode ≡ 1 → HasPlace freed.new)) }
{
    converted.clear();
    let (sender, opcode) = header;
    let Some(desc) = event_desc(protocol, objects, sender, opcode) else {
        pass_over(passes, objects, socket, sender, message)?;
        return Ok(None);
    };
    let signature = desc.signature.as_slice();
    let Ok(()) = make_room(objects, converted, freed, socket, header, desc) else {
        return Err(MessageParseError::OutOfMemory);
    };
    socket.read_with_signature(signature, message)?;
    Ok(Some(desc))
}

/// Stores the error. If there was no memory for its texts, it stores `OutOfMemory`.
#[cold]
#[inline(never)]
fn fail(stored: &mut Option<WaylandError>, error: Result<ProtocolError, OutOfMemory>) -> NoEvent
    ensures { MatchResult error
        (λ e. (result ≡ record { error = no_event.Failed; refused = false }) × (stored.new ≡ Some (ProtocolFault e)))
        (λ _. (result ≡ record { error = no_event.Failed; refused = true }) × (stored.new ≡ Some (Io io.OutOfMemory))) }
{
    match error {
        Ok(error) => {
            *stored = Some(WaylandError::Protocol(error));
            NoEvent {
                error: EventError::Failed,
                refused: false,
            }
        }
        Err(OutOfMemory) => {
            *stored = Some(WaylandError::Io(IoFault::OutOfMemory));
            NoEvent {
                error: EventError::Failed,
                refused: true,
            }
        }
    }
}

/// Stores an error that says what is wrong with an event: code 0, object 0, no interface, and the text of the fault.
#[cold]
#[inline(never)]
fn fail_by(
    alloc: Global,
    protocol: &Protocol,
    stored: &mut Option<WaylandError>,
    fault: EventFault,
) -> NoEvent
    ensures { Stores (error_of protocol.now fault) result stored.new }
{
    match fault_text(alloc, protocol, fault) {
        Ok(text) => {
            let error = ProtocolError {
                code: 0,
                object_id: 0,
                object_interface: Text::new(String::new(alloc)),
                message: Text::new(text),
            };
            fail(stored, Ok(error))
        }
        Err(OutOfMemory) => fail(stored, Err(OutOfMemory)),
    }
}

/// Handles an event of the display.
fn handle_display<U: Drop>(
    protocol: &Protocol,
    objects: &mut ObjectMap<Kept<U>>,
    freed: &mut Freed,
    stored: &mut Option<WaylandError>,
    message: &Message<u32, Token>,
) -> MessageEnd
    requires sender { message.now.sender_id ≡ 1 }
    requires place { message.now.opcode ≡ 1 → HasPlace freed.old }
    ensures kept { freed.new.kept ≡ freed.old.kept }
    ensures freed { freed.new.ids.items ≡ with_freed freed.old.kept freed.old.ids.items
        (destroyed_at objects.old.store (deleted_number (display_event message.now.opcode message.now.args.items))) }
    ensures carries { (last_serial : ℕ) (event : Message IdParts Token) (open_event : Option OpenEventOf)
        → Carries (handling protocol.now (objects_in objects.old last_serial) (content message.now)) (message_result result event) (objects_in objects.new last_serial)
        stored.old stored.new open_event open_event }
{
    let alloc = *message.args.allocator();
    match display_event(message) {
        DisplayMessage::Deletes(number) => {
            delete_id(objects, freed, number);
            MessageEnd::Continues
        }
        DisplayMessage::Fails(code, number, text) => {
            let error = told_error(alloc, protocol, objects, code, number, text);
            MessageEnd::Ends(fail(stored, error))
        }
        DisplayMessage::Unreadable => {
            MessageEnd::Ends(fail_by(alloc, protocol, stored, EventFault::Malformed))
        }
    }
}

/// What the handling of a message comes to, if an event came to this: it was handed out, or not, or has a fault. A fault is
/// stored as the session's error.
fn event_end(
    alloc: Global,
    protocol: &Protocol,
    stored: &mut Option<WaylandError>,
    handled: Result<bool, EventFault>,
) -> MessageEnd
    ensures { EndsWith protocol.now handled result stored.old stored.new }
{
    match handled {
        Ok(true) => MessageEnd::Event,
        Ok(false) => MessageEnd::Continues,
        Err(fault) => MessageEnd::Ends(fail_by(alloc, protocol, stored, fault)),
    }
}

impl<T: Transport + Drop, U: Drop> Backend<T, U> {
    /// Takes the first message off what was received, and handles it. If it makes an event, that is in `event` then.
    pub(crate) fn handle_message(&mut self, event: &mut Message<ObjectId, Token>) -> MessageEnd
        requires { INLINE_ARGS ≤ event.old.args.capacity }
        ensures handles { HandlesMessage self.old.session (message_result result event.new) self.new.session }
        ensures inline { INLINE_ARGS ≤ event.new.args.capacity }
    {
        let Some(header) = self.socket.next_header() else {
            return self.not_taken(MessageParseError::MissingData);
        };
        match self.handle_in_place(header, event) {
            InPlace::Event => MessageEnd::Event,
            InPlace::Deleted => MessageEnd::Continues,
            InPlace::Not => self.handle_at(header, event),
        }
    }

    /// Does the same for a message that is not handled in place, and has this header.
    #[inline(never)]
    fn handle_at(&mut self, header: (u32, u16), event: &mut Message<ObjectId, Token>) -> MessageEnd
        requires header { IsHeader self.old.session.link header }
        requires inline { INLINE_ARGS ≤ event.old.args.capacity }
        ensures handles { HandlesMessage self.old.session (message_result result event.new) self.new.session }
        ensures inline { INLINE_ARGS ≤ event.new.args.capacity }
    {
        let handled = self.take_and_handle(header, event);
        clear_message(&mut self.place.message);
        match handled {
            Ok(end) => end,
            Err(error) => self.not_taken(error),
        }
    }

    /// Takes the message off what was received, and handles it. The rest of the message stays in the session's place. The error
    /// says why no message was taken.
    fn take_and_handle(
        &mut self,
        header: (u32, u16),
        event: &mut Message<ObjectId, Token>,
    ) -> Result<MessageEnd, MessageParseError>
        requires header { IsHeader self.old.session.link header }
        requires inline { INLINE_ARGS ≤ event.old.args.capacity }
        ensures taken { TakenTo self.old.session result event.new self.new.session }
        ensures inline { INLINE_ARGS ≤ event.new.args.capacity }
    {
        let message = &mut self.place.message;
        let taken = take(
            self.passes_over,
            &self.protocol,
            &mut self.objects,
            &mut self.freed,
            &mut self.socket,
            header,
            message,
            &mut event.args,
        )?;
        let Some(desc) = taken else {
            return Ok(MessageEnd::Continues);
        };
        if message.sender_id == DISPLAY {
            return Ok(handle_display(
                &self.protocol,
                &mut self.objects,
                &mut self.freed,
                &mut self.error,
                message,
            ));
        }
        let handled = handle_and_tell(
            &mut self.objects,
            &mut self.last_serial,
            &mut self.freed,
            &mut self.open_event,
            desc,
            message,
            event,
        );
        let alloc = *message.args.allocator();
        Ok(event_end(alloc, &self.protocol, &mut self.error, handled))
    }

    /// What it comes to if no message was taken.
    fn not_taken(&mut self, error: MessageParseError) -> MessageEnd
        requires { NotTaken self.old.session error }
        ensures { (event : Message IdParts Token) → NotTakenTo self.old.session (message_result result event) self.new.session }
    {
        let alloc = *self.notes.allocator();
        match error {
            MessageParseError::MissingData | MessageParseError::MissingFD => MessageEnd::Lacks,
            MessageParseError::Malformed => {
                MessageEnd::Ends(fail_by(
                    alloc,
                    &self.protocol,
                    &mut self.error,
                    EventFault::Malformed,
                ))
            }
            MessageParseError::OutOfMemory => MessageEnd::Ends(NoEvent {
                error: EventError::OutOfMemory,
                refused: true,
            }),
        }
    }
}
