//! Which events are refused.

ghost use Rattle.std.specs.Prelude.{◌≡◌, Bool, Err, IfOk, MatchResult, Ok, Some};
ghost use Rattle.wl_wire.specs.declared.argument.Argument.TheVariants as arg;
ghost use Rattle.wl_wire.specs.declared.argument.ArgumentType.TheVariants as kind;
ghost use Rattle.wl_wire.specs.declared.interface.InterfaceId.{InterfaceId};
ghost use Rattle.wl_wire.specs.Table.{MessageRow, message_row};
ghost use Rattle.wl_link.specs.Refusals.{first_refusal};
ghost use Rattle.wl_server_client.specs.Inside.EventChecks.{fault_of};
ghost use Rattle.wl_server_client.specs.Events.{argument_fault, argument_faults, event_check, id_fault, session_content};
ghost use Rattle.wl_server_client.specs.Part.{named};

use crate::error::EventError;
use crate::ids::client_id::ClientId;
use crate::ids::object_id::ObjectId;
use crate::objects::{Kept, named_in};
use wl_link::{Object, ObjectMap};
use wl_wire::{
    ANONYMOUS_INTERFACE, AllowNull, Argument, ArgumentType, InterfaceId, Message, MessageDesc,
    Protocol, Token, check_for_signature, same_interface_or_anonymous,
};

/// The interface of the client's object that the id names, or the error if the id is refused.
fn kept_interface<U: Drop>(
    client: &ClientId,
    objects: &ObjectMap<Kept<U>>,
    id: &ObjectId,
) -> Result<InterfaceId, EventError>
    ensures { (is_asked : InterfaceId → Bool) → fault_of is_asked result ≡ id_fault client.now objects.now.store is_asked id.now }
{
    if id.client() != *client {
        return Err(EventError::ForeignObject);
    }
    match named_in(objects, id) {
        Some(object) => Ok(object.interface),
        None => Err(EventError::InvalidId),
    }
}

/// The error of an object argument, if it is refused. `null` says whether the signature lets it be null, and `asked` is
/// the interface that the table asks for.
fn object_fault<U: Drop>(
    client: &ClientId,
    objects: &ObjectMap<Kept<U>>,
    null: AllowNull,
    asked: InterfaceId,
    id: &ObjectId,
) -> Option<EventError>
    ensures { (row : MessageRow) → result ≡ argument_fault client.now objects.now.store row (kind.Object null) asked (arg.Object id.now) }
{
    if id.protocol_id() == 0 {
        return match null {
            AllowNull::Yes => None,
            AllowNull::No => Some(EventError::NullObject),
        };
    }
    match kept_interface(client, objects, id) {
        Err(error) => Some(error),
        Ok(interface) if same_interface_or_anonymous(asked, interface) => None,
        Ok(_) => Some(EventError::WrongInterface),
    }
}

/// The error of a new id, if it is refused. The table says which interface it has to have.
fn new_id_fault<U: Drop>(
    client: &ClientId,
    objects: &ObjectMap<Kept<U>>,
    desc: &MessageDesc,
    id: &ObjectId,
) -> Option<EventError>
    ensures { (asked : InterfaceId) → result ≡ argument_fault client.now objects.now.store (message_row desc.now) kind.NewId asked (arg.NewId id.now) }
{
    if id.protocol_id() == 0 {
        return Some(EventError::NullNewId);
    }
    match (kept_interface(client, objects, id), desc.child_interface) {
        (Err(error), _) => Some(error),
        (Ok(interface), Some(child)) if child.0 == interface.0 => None,
        (Ok(_), _) => Some(EventError::WrongInterface),
    }
}

/// The error of an argument of that type, if it is refused. The table asks for the given interface next.
fn argument_fault<U: Drop>(
    client: &ClientId,
    objects: &ObjectMap<Kept<U>>,
    desc: &MessageDesc,
    kind: ArgumentType,
    asked: InterfaceId,
    arg: &Argument<ObjectId, Token>,
) -> Option<EventError>
    ensures { result ≡ argument_fault client.now objects.now.store (message_row desc.now) kind asked arg.now }
{
    match (kind, arg) {
        (ArgumentType::Object(null), Argument::Object(id)) => {
            object_fault(client, objects, null, asked, id)
        }
        (ArgumentType::NewId, Argument::NewId(id)) => { new_id_fault(client, objects, desc, id) }
        _ => None,
    }
}

/// The error of the first argument that is refused, from left to right.
fn first_fault<U: Drop>(
    client: &ClientId,
    objects: &ObjectMap<Kept<U>>,
    desc: &MessageDesc,
    args: &[Argument<ObjectId, Token>],
) -> Option<EventError>
    ensures { result ≡ first_refusal (argument_faults client.now objects.now.store (message_row desc.now) desc.now.signature.items desc.now.arg_interfaces.items args.now) }
{
    let mut asked = desc.arg_interfaces.as_slice();
    for (kind, arg) in desc.signature.iter().zip(args) {
        let (next, rest) = match asked {
            [next, rest @ ..] => (*next, rest),
            [] => (ANONYMOUS_INTERFACE, asked),
        };
        if let Some(error) = argument_fault(client, objects, desc, *kind, next, arg) {
            return Some(error);
        }
        if let Argument::Object(_) = arg {
            asked = rest;
        }
    }
    None
}

/// The sender of the event, and whether the event is a destructor, which ends it; or the first error for which the event is
/// refused.
pub fn check_event<'a, U: Drop>(
    protocol: &Protocol,
    client: &ClientId,
    objects: &'a ObjectMap<Kept<U>>,
    message: &Message<ObjectId, Token>,
) -> Result<(&'a Object<Kept<U>>, bool), EventError>
    ensures decided { MatchResult result
        (λ granted. event_check client.now objects.now.store protocol.now (session_content message.now) ≡ Ok (granted.0.now, granted.1))
        (λ error. event_check client.now objects.now.store protocol.now (session_content message.now) ≡ Err error) }
    ensures sender { IfOk result (λ granted. named objects.now.store message.now.sender_id ≡ Some granted.0.now) }
{
    let Some(sender) = named_in(objects, &message.sender_id) else {
        return Err(EventError::InvalidId);
    };
    let Some(desc) = protocol.event(sender.interface, message.opcode) else {
        return Err(EventError::UnknownOpcode);
    };
    let args = message.args.as_slice();
    if !check_for_signature(&desc.signature, args) {
        return Err(EventError::BadSignature);
    }
    match first_fault(client, objects, desc, args) {
        Some(error) => Err(error),
        None => Ok((sender, desc.is_destructor)),
    }
}
