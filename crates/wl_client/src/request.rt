//! Decides which requests are refused, and gives those that are sent their numbers.

ghost use Rattle.std.specs.Prelude.{◌≡◌};
ghost use Rattle.std.specs.List.{list_all};
ghost use Rattle.wl_wire.specs.Table.{message_row};
ghost use Rattle.wl_wire.specs.MessageRows.{left_after};
ghost use Rattle.wl_link.specs.Refusals.{first_refusal};
ghost use Rattle.wl_client.specs.Requests.{child_refusals, is_placeholder, argument_fault, argument_faults, refusals, request_check, session_content};

use crate::error::RequestError;
use crate::object_id::ObjectId;
use crate::objects::{Kept, live_in, named_in};
use wl_link::{Object, ObjectMap};
use wl_wire::{
    ANONYMOUS_INTERFACE, AllowNull, Argument, ArgumentType, InterfaceId, Message, MessageDesc,
    Numbering, Protocol, Token, check_for_signature, same_interface_or_anonymous,
};

/// What is decided of a request that is not refused.
#[derive(Clone, Copy)]
pub struct Granted {
    /// The interface and the version of the new object, if the request makes one.
    pub child: Option<(InterfaceId, u32)>,
    /// Whether the request ends its sender.
    pub is_destructor: bool,
}

/// Whether each new id among the arguments is null.
fn are_placeholders(args: &[Argument<ObjectId, Token>]) -> bool
    ensures { result ≡ list_all is_placeholder args.now }
{
    args.iter().all(|arg| match arg {
        Argument::NewId(id) => id.protocol_id() == 0,
        _ => true,
    })
}

/// Why the argument is refused, if it is. `kind` is its type in the signature, and `asked` the interface that the table
/// asks for.
fn argument_fault<U: Drop>(
    objects: &ObjectMap<Kept<U>>,
    kind: ArgumentType,
    asked: InterfaceId,
    arg: &Argument<ObjectId, Token>,
) -> Option<RequestError>
    ensures { result ≡ argument_fault objects.now.store kind asked arg.now }
{
    match (kind, arg) {
        (ArgumentType::Object(null), Argument::Object(id)) => {
            if id.protocol_id() == 0 {
                return match null {
                    AllowNull::Yes => None,
                    AllowNull::No => Some(RequestError::NullObject),
                };
            }
            match live_in(objects, id) {
                None => Some(RequestError::InvalidId),
                Some(object) if same_interface_or_anonymous(asked, object.interface) => None,
                Some(_) => Some(RequestError::WrongInterface),
            }
        }
        _ => None,
    }
}

/// The interfaces that the table asks for after this argument. Each object argument takes one.
fn left_after<'a>(arg: &Argument<ObjectId, Token>, asked: &'a [InterfaceId]) -> &'a [InterfaceId]
    ensures { result.now ≡ left_after arg.now asked.now }
{
    match (arg, asked) {
        (Argument::Object(_), [_, rest @ ..]) => rest,
        _ => asked,
    }
}

/// Why the first argument that is refused is refused, from left to right. `interfaces` are those that the table asks for.
fn first_fault<U: Drop>(
    objects: &ObjectMap<Kept<U>>,
    signature: &[ArgumentType],
    interfaces: &[InterfaceId],
    args: &[Argument<ObjectId, Token>],
) -> Option<RequestError>
    ensures { result ≡ first_refusal (argument_faults objects.now.store signature.now interfaces.now args.now) }
{
    let mut asked = interfaces;
    for (kind, arg) in signature.iter().zip(args) {
        // If the table names no further interface, any object fits.
        let next = asked.first().copied().unwrap_or(ANONYMOUS_INTERFACE);
        if let Some(error) = argument_fault(objects, *kind, next, arg) {
            return Some(error);
        }
        asked = left_after(arg, asked);
    }
    None
}

/// Why a request is refused because of the object that it makes, if it is.
fn child_refusal(
    protocol: &Protocol,
    desc: &MessageDesc,
    version: u32,
    spec: Option<(InterfaceId, u32)>,
    has_data: bool,
    args: &[Argument<ObjectId, Token>],
) -> Option<RequestError>
    ensures { result ≡ first_refusal (child_refusals protocol.now (message_row desc.now) version spec has_data args.now) }
{
    match (spec, desc.child_interface) {
        (Some((interface, _)), _) if protocol.get(interface).is_none() => {
            return Some(RequestError::UnknownInterface);
        }
        (Some((interface, _)), Some(child)) if child.0 != interface.0 => {
            return Some(RequestError::WrongChild);
        }
        (Some((_, asked)), Some(_)) if version != asked => {
            return Some(RequestError::WrongChildVersion);
        }
        (None, None) => return Some(RequestError::MissingChildSpec),
        _ => {}
    }
    if !has_data {
        return Some(RequestError::MissingObjectData);
    }
    if !are_placeholders(args) {
        return Some(RequestError::NotPlaceholder);
    }
    None
}

/// Why the request with that sender and that description is refused, if it is.
fn refusal<U: Drop>(
    protocol: &Protocol,
    objects: &ObjectMap<Kept<U>>,
    sender: &Object<Kept<U>>,
    desc: &MessageDesc,
    message: &Message<ObjectId, Token>,
    has_data: bool,
    spec: Option<(InterfaceId, u32)>,
) -> Option<RequestError>
    ensures { result ≡ first_refusal (refusals protocol.now objects.now.store sender.now (message_row desc.now) (session_content message.now) has_data spec) }
{
    let args = message.args.as_slice();
    if sender.value.client_destroyed {
        return Some(RequestError::InvalidId);
    }
    if !check_for_signature(&desc.signature, args) {
        return Some(RequestError::BadSignature);
    }
    if desc.creates_object() {
        if let Some(error) = child_refusal(protocol, desc, sender.version, spec, has_data, args) {
            return Some(error);
        }
    }
    first_fault(objects, &desc.signature, &desc.arg_interfaces, args)
}

/// Decides on a request. The error is the first reason for which it is refused.
pub(crate) fn check_request<U: Drop>(
    protocol: &Protocol,
    objects: &ObjectMap<Kept<U>>,
    message: &Message<ObjectId, Token>,
    has_data: bool,
    spec: Option<(InterfaceId, u32)>,
) -> Result<Granted, RequestError>
    ensures { result ≡ request_check protocol.now objects.now.store (session_content message.now) has_data spec }
{
    let Some(sender) = named_in(objects, &message.sender_id) else {
        return Err(RequestError::InvalidId);
    };
    let Some(desc) = protocol.request(sender.interface, message.opcode) else {
        return Err(RequestError::UnknownOpcode);
    };
    if let Some(error) = refusal(protocol, objects, sender, desc, message, has_data, spec) {
        return Err(error);
    }
    // What the caller asks for, or else the table's interface with the sender's version.
    let child = match (desc.creates_object(), spec, desc.child_interface) {
        (true, Some(spec), _) => Some(spec),
        (true, None, Some(child)) => Some((child, sender.version)),
        _ => None,
    };
    Ok(Granted {
        child,
        is_destructor: desc.is_destructor,
    })
}

/// The numbers of a request's ids on the wire. Each id has its own number; the new object has the number that is given
/// here.
#[derive(Clone, Copy)]
pub(crate) struct RequestNumbers {
    /// The number of the new object.
    pub new_object: u32,
}

impl Numbering<ObjectId> for RequestNumbers {
    ghost object_number = { λ _ id. id.number };

    ghost new_number = { λ numbers _. numbers.new_object };

    fn number_object(&self, id: &ObjectId) -> u32 {
        id.protocol_id()
    }

    fn number_new(&self, _id: &ObjectId) -> u32 {
        self.new_object
    }
}
