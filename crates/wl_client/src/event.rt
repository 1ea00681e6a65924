//! The events of all objects but the display.

ghost use Rattle.std.specs.Prelude.{◌≡◌, ◌==◌, if◌then◌else◌, [], true, None, IsSome, length, MatchOption};
ghost use Rattle.std.specs.List.{list_any};
ghost use Rattle.smallvec.specs.SmallVec.{HasRoomFor};
ghost use Rattle.wl_wire.specs.Message.{content};
ghost use Rattle.wl_wire.specs.Argument.{type_of};
ghost use Rattle.wl_wire.specs.Table.{is_new_id, message_row};
ghost use Rattle.wl_link.specs.Store.{held};
ghost use Rattle.wl_client.specs.Events.{convert as outcome_of, start};
ghost use Rattle.wl_client.specs.Freeing.{destroyed_at, first_new_id, with_freed};
ghost use Rattle.wl_client.specs.Inside.Conversion.{objects_in};
ghost use Rattle.wl_client.specs.Inside.Freed.{HasPlace};
ghost use Rattle.wl_client.specs.Requests.{session_content};
ghost use Rattle.wl_client.specs.Inside.ReadingLoop.{HandledAs};

use crate::event_arguments::{Progress, Receiver, convert};
use crate::event_fault::EventFault;
use crate::freed::Freed;
use crate::object_id::ObjectId;
use crate::objects::{Kept, id_at};
use wl_link::ObjectMap;
use wl_wire::{Argument, Message, MessageDesc, Token};

/// An event that is open: it was handed out and is not finished yet. `Backend::open_event` returns it.
#[derive(Clone, Copy, Debug, PartialEq, Eq)]
pub struct OpenEvent {
    /// The object that the event was sent to.
    pub sender: ObjectId,
    /// Whether the event ends that object: the table names it a destructor.
    pub is_destructor: bool,
    /// The object that the event made, if it made one. `finish_event` wants its user data.
    pub created: Option<ObjectId>,
}

/// Makes an event from a message: converts its arguments, which are taken out of it, and puts them into `event`. Returns
/// whether the event is handed out. Then it is open.
///
/// `event` has no arguments yet, and room for these. The map has room for an object, if one of them is a new id. The event is
/// not handed out if the client has destroyed its receiver. The error says what is wrong with the event.
pub fn handle_event<U: Drop>(
    objects: &mut ObjectMap<Kept<U>>,
    last_serial: &mut u64,
    open_event: &mut Option<OpenEvent>,
    desc: &MessageDesc,
    message: &mut Message<u32, Token>,
    event: &mut Message<ObjectId, Token>,
) -> Result<bool, EventFault>
    requires receiver { IsSome (held objects.old.store message.old.sender_id) }
    requires can_make { list_any (λ x. is_new_id (type_of x)) message.old.args.items ≡ true → objects.old.reserved ≡ true }
    requires empty { event.old.args.items ≡ [] }
    requires room { HasRoomFor event.old.args (length message.old.args.items) }
    ensures capacity { event.new.args.capacity ≡ event.old.args.capacity }
    ensures place { message.new.args.capacity ≡ message.old.args.capacity }
    ensures handled { MatchOption (held objects.old.store message.old.sender_id) ⊥
        (λ x. HandledAs (content message.old) x (message_row desc.now)
        (outcome_of x.version x.value.client_destroyed (start (objects_in objects.old last_serial.old) (message_row desc.now)) [] message.old.args.items)
        result (session_content event.new) open_event.old open_event.new (objects_in objects.new last_serial.new)) }
{
    let Some(object) = objects.find(message.sender_id) else {
        return Ok(false);
    };
    event.sender_id = id_at(message.sender_id, object);
    event.opcode = message.opcode;
    let receiver = Receiver {
        version: object.version,
        client_destroyed: object.value.client_destroyed,
    };
    let mut progress = Progress {
        asked: desc.arg_interfaces.as_slice(),
        child: desc.child_interface,
        created: None,
    };
    // After this the first argument comes last: it is taken out without moving the others.
    message.args.reverse();
    convert(
        objects,
        last_serial,
        receiver,
        &mut progress,
        &mut message.args,
        &mut event.args,
    )?;
    if receiver.client_destroyed {
        return Ok(false);
    }
    *open_event = Some(OpenEvent {
        sender: event.sender_id,
        is_destructor: desc.is_destructor,
        created: progress.created,
    });
    Ok(true)
}

/// The first new id among the arguments.
fn first_new_id(args: &[Argument<u32, Token>]) -> Option<u32>
    ensures { result ≡ first_new_id args.now }
{
    match args.split_first()? {
        (Argument::NewId(number), _) => Some(*number),
        (_, rest) => first_new_id(rest),
    }
}

/// The id of the object at the first new id among the arguments, if the client has destroyed it. It leaves its number if an
/// event makes an object there. It is not looked for if ids are not kept.
fn taken_over<U: Drop>(
    kept: bool,
    objects: &ObjectMap<Kept<U>>,
    args: &[Argument<u32, Token>],
) -> Option<ObjectId>
    ensures taken { kept ≡ true → result ≡ destroyed_at objects.now.store (first_new_id args.now) }
    ensures none { IsSome result → IsSome (first_new_id args.now) × (kept ≡ true) }
{
    if !kept {
        return None;
    }
    let number = first_new_id(args)?;
    let object = objects.find(number)?;
    if !object.value.client_destroyed {
        return None;
    }
    Some(id_at(number, object))
}

/// Makes an event from a message, as `handle_event` does, and keeps the id of an object that leaves its number for the one that
/// the event makes.
pub fn handle_and_tell<U: Drop>(
    objects: &mut ObjectMap<Kept<U>>,
    last_serial: &mut u64,
    freed: &mut Freed,
    open_event: &mut Option<OpenEvent>,
    desc: &MessageDesc,
    message: &mut Message<u32, Token>,
    event: &mut Message<ObjectId, Token>,
) -> Result<bool, EventFault>
    requires receiver { IsSome (held objects.old.store message.old.sender_id) }
    requires can_make { list_any (λ x. is_new_id (type_of x)) message.old.args.items ≡ true → objects.old.reserved ≡ true }
    requires empty { event.old.args.items ≡ [] }
    requires room { HasRoomFor event.old.args (length message.old.args.items) }
    requires place { list_any (λ x. is_new_id (type_of x)) message.old.args.items ≡ true → HasPlace freed.old }
    ensures capacity { event.new.args.capacity ≡ event.old.args.capacity }
    ensures place { message.new.args.capacity ≡ message.old.args.capacity }
    ensures handled { MatchOption (held objects.old.store message.old.sender_id) ⊥
        (λ x. HandledAs (content message.old) x (message_row desc.now)
        (outcome_of x.version x.value.client_destroyed (start (objects_in objects.old last_serial.old) (message_row desc.now)) [] message.old.args.items)
        result (session_content event.new) open_event.old open_event.new (objects_in objects.new last_serial.new)) }
    ensures kept { freed.new.kept ≡ freed.old.kept }
    ensures freed { freed.new.ids.items ≡ with_freed freed.old.kept freed.old.ids.items
        (if last_serial.new == last_serial.old then None else destroyed_at objects.old.store (first_new_id message.old.args.items)) }
{
    let taken = taken_over(freed.kept, objects, message.args.as_slice());
    let last = *last_serial;
    let handled = handle_event(objects, last_serial, open_event, desc, message, event);
    if *last_serial != last {
        freed.push(taken);
    }
    handled
}
