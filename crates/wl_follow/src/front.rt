//! The message at the front of what a side sent.

ghost use Rattle.std.specs.Prelude.{◌≡◌, ◌≤◌, ◌<◌, IfErr, IfOk, MatchOption, OnOk, length};
ghost use Rattle.wl_wire.specs.Message.{content};
ghost use Rattle.wl_wire.specs.Parse.{ReadsMessage, RefusesMessage, opcode_of, sender_of};
ghost use Rattle.wl_wire.specs.Table.{message_row};
ghost use Rattle.wl_wire.specs.declared.message.TheConstants.{INLINE_ARGS};
ghost use Rattle.wl_link.specs.Exchange.{Queue};
ghost use Rattle.wl_follow.specs.Fronts.{HasNoMessage, IsKnown, IsUnknown, ReadsKnown};
ghost use Rattle.wl_follow.specs.Objects.{object_of};

use crate::side::Side;
use wl_link::{BufferedSocket, ObjectMap};
use wl_wire::{
    ArgumentType, INLINE_ARGS, InterfaceId, Message, MessageDesc, MessageParseError, Protocol,
    Token,
};

/// What holds bytes and tokens that a side sent, and that were not taken off yet.
pub trait MessageSource {
    /// The bytes and the tokens.
    ghost queue: { Self → Queue };

    /// The sender and the opcode of the first message; `None` if fewer bytes wait than the eight of a header.
    fn next_header(&self) -> Option<(u32, u16)>
        ensures { MatchOption result (length (queue self.now).bytes < 8)
            (λ x. (8 ≤ length (queue self.now).bytes)
            × (x.0 ≡ sender_of (queue self.now).bytes) × (x.1 ≡ opcode_of (queue self.now).bytes)) };

    /// Reads the first message under the signature, and leaves it where it is. The lent arguments have a capacity of at least
    /// [`INLINE_ARGS`].
    fn peek(
        &mut self,
        signature: &[ArgumentType],
        message: &mut Message<u32, Token>,
    ) -> Result<(), MessageParseError>
        requires { INLINE_ARGS ≤ message.old.args.capacity }
        ensures found { OnOk result (ReadsMessage (queue self.old).bytes signature.now (queue self.old).tokens (content message.new)) }
        ensures refused { IfErr result (RefusesMessage (queue self.old).bytes signature.now (queue self.old).tokens) }
        ensures unchanged { self.new ≡ self.old }
        ensures capacity { INLINE_ARGS ≤ message.new.args.capacity };
}

/// What a link has received.
impl<T> MessageSource for BufferedSocket<T> {
    ghost queue = { λ l. l.incoming };

    fn next_header(&self) -> Option<(u32, u16)> {
        BufferedSocket::next_header(self)
    }

    fn peek(
        &mut self,
        signature: &[ArgumentType],
        message: &mut Message<u32, Token>,
    ) -> Result<(), MessageParseError> {
        BufferedSocket::peek(self, signature, message)
    }
}

/// What is known of a message: the side that sent it, its object's interface and version, and what the table has of it.
#[derive(Clone, Copy)]
pub struct Found<'t> {
    /// The side that sent it.
    pub side: Side,
    /// The interface of the object.
    pub interface: InterfaceId,
    /// The version of the object.
    pub version: u32,
    /// The message.
    pub desc: &'t MessageDesc,
}

/// Why no message was read.
#[derive(Clone, Copy, Debug, PartialEq, Eq)]
pub enum NoMessage {
    /// The first one is not there to its end, or lacks a descriptor.
    Incomplete,
    /// The first one is of an object that is not known, or of an opcode that the table lacks. These are the number of its sender and
    /// the opcode. Where it ends is not looked at.
    Unknown(u32, u16),
    /// The first one cannot be read.
    Malformed,
    /// There was no memory for its arguments.
    OutOfMemory,
}

/// What the table has of a message of this object.
fn described<'t>(
    table: &'t Protocol,
    objects: &ObjectMap<()>,
    side: Side,
    sender: u32,
    opcode: u16,
) -> Option<Found<'t>>
    ensures known { MatchOption result (IsUnknown table.now objects.now.store side sender opcode)
        (λ found. IsKnown table.now objects.now.store side sender opcode (object_of found.interface found.version) (message_row found.desc.now)) }
    ensures side { MatchOption result (Unit {0}) (λ found. found.side ≡ side) }
{
    let object = objects.find(sender)?;
    let desc = match side {
        Side::Client => table.request(object.interface, opcode)?,
        Side::Server => table.event(object.interface, opcode)?,
    };
    Some(Found {
        side,
        interface: object.interface,
        version: object.version,
        desc,
    })
}

/// Reads the first message that the side sent, and leaves it where it is. It is read under the row that the table has for its opcode
/// and the interface of its sender.
///
/// The arguments of the lent message are replaced. They must have a capacity of at least [`INLINE_ARGS`]. After an error they have no
/// meaning.
pub fn read_front<'t, S: MessageSource>(
    table: &'t Protocol,
    objects: &ObjectMap<()>,
    side: Side,
    from: &mut S,
    message: &mut Message<u32, Token>,
) -> Result<Found<'t>, NoMessage>
    requires { INLINE_ARGS ≤ message.old.args.capacity }
    ensures found { IfOk result (λ found. ReadsKnown table.now objects.now.store side (S.queue from.old)
        (object_of found.interface found.version) (message_row found.desc.now) (content message.new)) }
    ensures side { IfOk result (λ found. found.side ≡ side) }
    ensures none { IfErr result (HasNoMessage table.now objects.now.store side (S.queue from.old)) }
    ensures unchanged { from.new ≡ from.old }
    ensures capacity { INLINE_ARGS ≤ message.new.args.capacity }
{
    let Some((sender, opcode)) = from.next_header() else {
        return Err(NoMessage::Incomplete);
    };
    let Some(found) = described(table, objects, side, sender, opcode) else {
        return Err(NoMessage::Unknown(sender, opcode));
    };
    match from.peek(found.desc.signature.as_slice(), message) {
        Ok(()) => Ok(found),
        Err(MessageParseError::MissingData) => Err(NoMessage::Incomplete),
        Err(MessageParseError::MissingFD) => Err(NoMessage::Incomplete),
        Err(MessageParseError::Malformed) => Err(NoMessage::Malformed),
        Err(MessageParseError::OutOfMemory) => Err(NoMessage::OutOfMemory),
    }
}
