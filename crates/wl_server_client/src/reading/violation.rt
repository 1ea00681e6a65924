//! How a client broke the protocol by a message, which is kept where it is killed for that.

ghost use Rattle.std.specs.Prelude.{◌≡◌, ◌≤◌, MatchResult, Ok, Err, is_some, length, option_map};
ghost use Rattle.wl_wire.specs.Pieces.{text_of};
ghost use Rattle.wl_link.specs.Reader.{unreadable};
ghost use Rattle.wl_wire.specs.Parse.{opcode_of, sender_of};
ghost use Rattle.wl_link.specs.Store.{held};
ghost use Rattle.wl_server_client.specs.Reading.{row_in, unread};
ghost use Rattle.wl_server_client.specs.Violations.{misread, rest_after};

use crate::objects::Kept;
use crate::reading::front_request::find_request;
use crate::reading::response::RequestFault;
use wl_link::{BufferedSocket, ObjectMap};
use wl_wire::{
    ANONYMOUS_INTERFACE, ArgumentType, InterfaceId, Protocol, message_header, read_counted,
    read_word,
};

/// What was wrong with a message for which a client was killed. The arguments count from 0.
///
/// A *malformed* message ends the client without a word. For each other one an error is posted on the client's display, if there is
/// memory and room for it.
#[derive(Clone, Copy, Debug)]
pub enum MessageFault {
    /// Malformed: no object had the number in the header. libwayland says `invalid object`.
    UnknownSender,
    /// Malformed: the object's interface has no request with this opcode. libwayland says `invalid method`.
    UnknownOpcode,
    /// Malformed: by its header the message had fewer than the 8 bytes of a header.
    ShortHeader,
    /// Malformed: the message ended before this argument did.
    MissingBytes(usize),
    /// Malformed: the bytes of this argument, which is a string, had no zero at their end, or another zero.
    UnendedString(usize),
    /// The request needs a higher version than its object has.
    SinceLater {
        /// The object's version.
        version: u32,
        /// The least version that has the request.
        since: u32,
    },
    /// The client could not bind a global.
    RefusedBind {
        /// The name of the global that it asked for.
        global: u32,
        /// The version that it asked for.
        version: u32,
        /// Whether it named an interface: the name was not null.
        has_name: bool,
    },
    /// It would have made an object at a number above this limit (`Backend::set_object_limit`).
    TooManyObjects(u32),
    /// What was wrong with this argument, which was read.
    WrongArgument(usize, RequestFault),
}

/// How a client broke the protocol by a message, so that it was killed.
#[derive(Clone, Copy, Debug)]
pub struct Violation {
    /// The number in the message's header: of the object that it was sent to.
    pub sender_id: u32,
    /// The interface of that object; `ANONYMOUS_INTERFACE` if no object had the number.
    pub interface: InterfaceId,
    /// The opcode in the message's header.
    pub opcode: u16,
    /// What was wrong.
    pub fault: MessageFault,
}

/// Whether the bytes are those of a string, or none at all.
#[tactic(auto, unfolding(wl_wire::specs::Pieces::text_of))]
fn is_string(bytes: &[u8]) -> bool
    ensures { result ≡ is_some (text_of bytes.now) }
{
    match bytes.split_last() {
        Some((last, text)) => *last == 0 && !text.contains(&0),
        None => true,
    }
}

/// What follows the argument at that place, which is of that type. The error says why it cannot be read.
fn rest_after(place: usize, kind: ArgumentType, bytes: &[u8]) -> Result<&[u8], MessageFault>
    ensures { MatchResult result (λ rest. rest_after place kind bytes.now ≡ Ok rest.now) (λ f. rest_after place kind bytes.now ≡ Err f) }
{
    match kind {
        ArgumentType::Fd => Ok(bytes),
        ArgumentType::Str(_) => match read_counted(bytes) {
            Some((text, rest)) if is_string(text) => Ok(rest),
            Some(_) => Err(MessageFault::UnendedString(place)),
            None => Err(MessageFault::MissingBytes(place)),
        },
        ArgumentType::Array => match read_counted(bytes) {
            Some((_, rest)) => Ok(rest),
            None => Err(MessageFault::MissingBytes(place)),
        },
        ArgumentType::Int
        | ArgumentType::Uint
        | ArgumentType::Fixed
        | ArgumentType::Object(_)
        | ArgumentType::NewId => match read_word(bytes) {
            Some((_, rest)) => Ok(rest),
            None => Err(MessageFault::MissingBytes(place)),
        },
    }
}

/// What is wrong with the first argument that cannot be read.
fn misread(signature: &[ArgumentType], payload: &[u8]) -> MessageFault
    ensures { result ≡ misread 0 signature.now payload.now }
{
    let mut place = 0usize;
    let mut kinds = signature;
    let mut bytes = payload;
    while let Some((kind, others)) = kinds.split_first() {
        match rest_after(place, *kind, bytes) {
            Ok(rest) => bytes = rest,
            Err(fault) => return fault,
        }
        place += 1;
        kinds = others;
    }
    MessageFault::MissingBytes(place)
}

/// How the message at the front, whose header is there, breaks the protocol if it is malformed.
///
/// It is not inlined, so that it costs nothing for other messages.
#[cold]
#[inline(never)]
pub fn unread<T: Drop, U: Drop>(
    protocol: &Protocol,
    objects: &ObjectMap<Kept<U>>,
    socket: &BufferedSocket<T>,
) -> Violation
    requires header { 8 ≤ length socket.now.incoming.bytes }
    ensures unread { result ≡ unread protocol.now objects.now.store
        (unreadable (option_map (λ row. row.signature) (row_in protocol.now (held objects.now.store (sender_of socket.now.incoming.bytes)) (opcode_of socket.now.incoming.bytes)))
        socket.now.incoming.bytes) }
{
    let bytes = socket.received();
    let Some(header) = message_header(bytes) else {
        unreachable!()
    };
    let mut violation = Violation {
        sender_id: header.sender_id,
        interface: ANONYMOUS_INTERFACE,
        opcode: header.opcode,
        fault: MessageFault::UnknownSender,
    };
    let Some(object) = objects.find(header.sender_id) else {
        return violation;
    };
    violation.interface = object.interface;
    violation.fault = match find_request(protocol, objects, header.sender_id, header.opcode) {
        None => MessageFault::UnknownOpcode,
        Some(_) if header.len < 8 => MessageFault::ShortHeader,
        Some(request) => {
            let message = if header.len < bytes.len() {
                bytes.split_at(header.len).0
            } else {
                bytes
            };
            misread(request.desc.signature.as_slice(), message.split_at(8).1)
        }
    };
    violation
}
