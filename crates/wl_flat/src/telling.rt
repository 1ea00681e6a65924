//! The messages of a connection, as they are told beside its session. Both sessions share this.

ghost use Rattle.std.specs.Prelude.{◌≡◌, ◌≤◌, ◌+◌, IfOk, OnErr, OnOk, length, min};
ghost use Rattle.wl_flat.specs.Arguments.{all_bytes, bytes_of, written_at};
ghost use Rattle.wl_flat.specs.Flat.{over_front};
ghost use Rattle.wl_flat.specs.Sending.{sent_of};
ghost use Rattle.wl_flat.specs.Told.{CatchesUp, FindsNext, HandsTold, Hears, TellsNextTo, args_in, as_tokens, came_in, flat_told, left_off, new_telling, not_taken, told_argument, told_arguments, told_object, waiting_in, with_said};
ghost use Rattle.wl_follow.specs.Following.{sent};
ghost use Rattle.wl_wire.specs.Message.{content};

use crate::arguments::{Needs, length_of, write_bytes, zeros_behind_array, zeros_behind_string};
use crate::descriptors::DescriptorQueue;
use crate::flat::{
    FlatArgument, FlatClientId, FlatObjectId, FlatTold, MESSAGE, NO_MESSAGE, UNKNOWN_MESSAGE,
    count_number, interface_number, kind,
};
use crate::incoming::take_in;
use crate::outgoing::copy_descriptors;
use crate::status::Status;
use smallvec::SmallVec;
use std::alloc::Global;
use wl_follow::{Follower, Side, Told, What};
use wl_link::{MAX_FDS_OUT, Mailbox};
use wl_wire::{Argument, InterfaceId, Message, OutOfMemory, Protocol, Token};

/// A message that was found, and what was read of it.
type Found = (Told, Message<u32, Token>);

/// What is told of a connection, of which the session is one side. The *peer* is the other side.
///
/// A follower has what arrived of the peer, from the moment on at which the host put it in, and what is to be sent, once that was seen in
/// the mailbox. What arrived is released to be told once the session has read it.
#[derive(Drop)]
pub struct Telling {
    /// The follower. In it the number of a token is that of the descriptor.
    pub follower: Follower,
    /// How many of the bytes that wait in the mailbox to be sent it has.
    pub said: usize,
    /// How many of the tokens that go with them.
    pub said_tokens: usize,
    /// The message that was told, and that found no room in the memory that was lent for it.
    pub kept: Option<Found>,
}

/// The descriptors as tokens, whose numbers are theirs.
fn as_tokens(descriptors: &[i32], tokens: &mut [Token])
    requires { length descriptors.now ≡ length tokens.old }
    ensures { tokens.new ≡ as_tokens descriptors.now }
{
    for (index, descriptor) in descriptors.iter().enumerate() {
        tokens[index] = Token(*descriptor);
    }
}

impl Telling {
    /// Of a connection over which nothing went.
    pub fn new(alloc: Global) -> Result<Self, OutOfMemory>
        ensures { IfOk result (λ telling. telling ≡ new_telling) }
    {
        Ok(Telling {
            follower: Follower::new(alloc)?,
            said: 0,
            said_tokens: 0,
            kept: None,
        })
    }

    /// This arrived from the peer.
    ///
    /// The error says that there was no memory. Then nothing is changed.
    pub fn hear(&mut self, peer: Side, bytes: &[u8], descriptors: &[i32]) -> Result<(), OutOfMemory>
        requires { length descriptors.now ≤ 28 }
        ensures ok { OnOk result (self.new ≡ came_in peer bytes.now descriptors.now self.old) }
        ensures err { OnErr result (self.new ≡ self.old) }
        ensures released { (sent peer self.old.follower).released ≤ length (sent peer self.old.follower).bytes }
    {
        let mut tokens = [Token(0); MAX_FDS_OUT];
        let tokens = &mut tokens[..descriptors.len()];
        as_tokens(descriptors, tokens);
        self.follower.append(peer, bytes, tokens)
    }

    /// Puts what arrived from the peer into the mailbox, to be told once it is read. What is refused is not told.
    ///
    /// The statuses are those of `incoming::take_in`, and `OutOfMemory` also if there was no memory to tell it. Then nothing is changed.
    pub fn take_in(
        &mut self,
        peer: Side,
        mailbox: &mut Mailbox,
        queue: &mut DescriptorQueue,
        bytes: &[u8],
        descriptors: &[i32],
    ) -> Status
        ensures { Hears peer mailbox.old queue.old self.old bytes.now descriptors.now result mailbox.new queue.new self.new }
    {
        let come_alone = bytes.is_empty() && !descriptors.is_empty();
        if come_alone || descriptors.len() > MAX_FDS_OUT {
            return take_in(mailbox, queue, bytes, descriptors);
        }
        if self.hear(peer, bytes, descriptors).is_err() {
            return Status::OutOfMemory;
        }
        let status = take_in(mailbox, queue, bytes, descriptors);
        if status != Status::Ok {
            self.take_back(peer, bytes, descriptors);
        }
        status
    }

    /// The session did not take what just arrived.
    pub fn take_back(&mut self, peer: Side, bytes: &[u8], descriptors: &[i32])
        ensures { self.new ≡ not_taken peer bytes.now descriptors.now self.old }
    {
        self.follower
            .take_back(peer, bytes.len(), descriptors.len());
    }

    /// The session has read all that arrived but for so many bytes; and what it has written waits in the mailbox, as far as it is there.
    /// Both may be told now: first what was read, then what was written.
    ///
    /// The error says that there was no memory. Then the next call goes on.
    pub fn catch_up(
        &mut self,
        peer: Side,
        unread: usize,
        mailbox: &Mailbox,
        sending: &DescriptorQueue,
    ) -> Result<(), OutOfMemory>
        ensures { CatchesUp peer unread (waiting_in mailbox.now sending.now) self.old result self.new }
    {
        self.follower.release(peer, unread)?;
        self.take_said(peer, mailbox, sending)?;
        self.follower.release(peer.other(), 0)
    }

    /// Appends what waits in the mailbox to be sent, as far as the follower does not have it.
    fn take_said(
        &mut self,
        peer: Side,
        mailbox: &Mailbox,
        sending: &DescriptorQueue,
    ) -> Result<(), OutOfMemory>
        ensures ok { OnOk result (self.new ≡ with_said peer (waiting_in mailbox.now sending.now) self.old) }
        ensures err { OnErr result (self.new ≡ self.old) }
    {
        let (bytes, waiting) = (mailbox.bytes(), mailbox.tokens());
        let mut descriptors = [0; MAX_FDS_OUT];
        let mut tokens = [Token(0); MAX_FDS_OUT];
        copy_descriptors(sending, waiting, &mut descriptors);
        let tokens = &mut tokens[..waiting.len()];
        as_tokens(&descriptors[..waiting.len()], tokens);
        let before = self.said.min(bytes.len());
        let tokens_before = self.said_tokens.min(waiting.len());
        let new_tokens = &tokens[tokens_before..];
        self.follower
            .append(peer.other(), &bytes[before..], new_tokens)?;
        self.said = bytes.len();
        self.said_tokens = waiting.len();
        Ok(())
    }

    /// So many of the bytes in the mailbox were sent, or all if there are fewer. Nothing was taken off the mailbox yet.
    pub fn sent(&mut self, count: u32, mailbox: &Mailbox)
        ensures { self.new ≡ left_off (sent_of count mailbox.now) self.old }
    {
        let count = mailbox.bytes().len().min(count as usize);
        if count > 0 {
            self.said = self.said.saturating_sub(count);
            self.said_tokens = 0;
        }
    }

    /// The message that was kept, or else the next one that the follower tells.
    fn find(&mut self, table: &Protocol, alloc: Global) -> Result<Option<Found>, OutOfMemory>
        ensures { FindsNext table.now self.old result self.new }
    {
        if let Some(found) = self.kept.take() {
            return Ok(Some(found));
        }
        let mut message = Message {
            sender_id: 0,
            opcode: 0,
            args: SmallVec::new(alloc),
        };
        match self.follower.next(table, &mut message)? {
            Some(told) => Ok(Some((told, message))),
            None => Ok(None),
        }
    }

    /// Writes what was found to the lent memory, if that has room for its arguments. Else it is kept.
    fn hand_out(
        &mut self,
        found: Found,
        out: &mut FlatTold,
        arguments: &mut [FlatArgument],
        bytes: &mut [u8],
    ) -> Status
        ensures { HandsTold self.old found (record { out = out.old; arguments = arguments.old; bytes = bytes.old }) result
            (record { out = out.new; arguments = arguments.new; bytes = bytes.new }) self.new }
    {
        let args = args_in(&found);
        let needs = Needs::of(args);
        *out = flat_told(&found, needs);
        if !needs.fit(arguments, bytes) {
            self.kept = Some(found);
            return Status::TooSmall;
        }
        write_told(&self.follower, args, arguments, bytes);
        Status::Ok
    }

    /// Tells the next message into the lent memory. The status is `TooSmall` if it has no room for it: then `out` says how much is needed,
    /// and the message is told by the next call with enough. It is `WouldBlock` if there is none, and `OutOfMemory`.
    pub fn next(
        &mut self,
        table: &Protocol,
        alloc: Global,
        out: &mut FlatTold,
        arguments: &mut [FlatArgument],
        bytes: &mut [u8],
    ) -> Status
        ensures { TellsNextTo table.now self.old (record { out = out.old; arguments = arguments.old; bytes = bytes.old }) result
            (record { out = out.new; arguments = arguments.new; bytes = bytes.new }) self.new }
    {
        match self.find(table, alloc) {
            Ok(Some(found)) => self.hand_out(found, out, arguments, bytes),
            Ok(None) => {
                *out = FlatTold::none();
                Status::WouldBlock
            }
            Err(OutOfMemory) => {
                *out = FlatTold::none();
                Status::OutOfMemory
            }
        }
    }
}

/// The arguments of a message that was read.
fn args_in(found: &Found) -> &[Argument<u32, Token>]
    ensures { result.now ≡ args_in found.now.0.what (content found.now.1) }
{
    match found.0.what {
        What::Message(_) | What::Refused(_, _) => found.1.args.as_slice(),
        What::Unknown(_, _) | What::Malformed => &[],
    }
}

/// What was found as a flat struct, but for its arguments.
fn flat_what(found: &Found) -> FlatTold
    ensures { result ≡ record (flat_told found.now.0 (content found.now.1)) { arguments = 0; bytes = 0 } }
{
    let (told, message) = (found.0, &found.1);
    let (kind, number, interface, opcode) = match told.what {
        What::Message(interface) | What::Refused(interface, _) => (
            MESSAGE,
            message.sender_id,
            interface_number(interface),
            message.opcode,
        ),
        What::Unknown(sender, opcode) => (UNKNOWN_MESSAGE, sender, 0, opcode),
        What::Malformed => (NO_MESSAGE, 0, 0, 0),
    };
    FlatTold {
        kind,
        is_event: u32::from(told.side == Side::Server),
        number,
        interface,
        opcode: u32::from(opcode),
        arguments: 0,
        bytes: 0,
        is_last: u32::from(matches!(told.what, What::Refused(_, _) | What::Malformed)),
    }
}

/// What was found as a flat struct.
fn flat_told(found: &Found, needs: Needs) -> FlatTold
    requires arguments { needs.arguments ≡ length (args_in found.now.0.what (content found.now.1)) }
    requires bytes { needs.bytes ≡ min (length (all_bytes (args_in found.now.0.what (content found.now.1)))) usize.MAX }
    ensures { result ≡ flat_told found.now.0 (content found.now.1) }
{
    FlatTold {
        arguments: count_number(needs.arguments),
        bytes: count_number(needs.bytes),
        ..flat_what(found)
    }
}

/// The object of that number as a flat struct, of the interface that is known of it, and 0 if none is.
fn told_object(follower: &Follower, number: u32) -> FlatObjectId
    ensures { result ≡ told_object follower.now number }
{
    FlatObjectId {
        serial: 0,
        client: FlatClientId::none(),
        interface: interface_number(follower.interface_of(number).unwrap_or(InterfaceId(0))),
        number,
    }
}

/// The argument as a flat struct; of a descriptor its number. The bytes of a string or an array go to the place `at` of the lent ones,
/// which have room for them.
#[tactic(auto, using(crate::proofs::Flattening::written_nothing))]
fn told_argument(
    follower: &Follower,
    arg: &Argument<u32, Token>,
    bytes: &mut [u8],
    at: usize,
) -> FlatArgument
    requires { at + length (bytes_of arg.now) ≤ length bytes.old }
    ensures flat { result ≡ told_argument follower.now at arg.now }
    ensures bytes { bytes.new ≡ written_at at (bytes_of arg.now) bytes.old }
{
    match arg {
        Argument::Int(value) => FlatArgument::of_number(kind::INT, *value),
        Argument::Uint(value) => FlatArgument::of_number(kind::UINT, value.cast_signed()),
        Argument::Fixed(value) => FlatArgument::of_number(kind::FIXED, *value),
        Argument::Str(None) => FlatArgument::of_number(kind::NULL_STRING, 0),
        Argument::Str(Some(text)) => {
            let from = text.as_bytes();
            write_bytes(
                kind::STRING,
                from,
                zeros_behind_string(from.len()),
                bytes,
                at,
            )
        }
        Argument::Object(number) => {
            FlatArgument::of_object(kind::OBJECT, told_object(follower, *number), 0)
        }
        Argument::NewId(number) => {
            FlatArgument::of_object(kind::NEW_ID, told_object(follower, *number), 0)
        }
        Argument::Array(array) => {
            let from = array.as_slice();
            write_bytes(kind::ARRAY, from, zeros_behind_array(from.len()), bytes, at)
        }
        Argument::Fd(token) => FlatArgument::of_number(kind::DESCRIPTOR, token.0),
    }
}

/// Writes the arguments to the front of the lent memory, which has room for them.
fn write_told(
    follower: &Follower,
    args: &[Argument<u32, Token>],
    arguments: &mut [FlatArgument],
    bytes: &mut [u8],
)
    requires room { length args.now ≤ length arguments.old }
    requires room_for_bytes { length (all_bytes args.now) ≤ length bytes.old }
    ensures arguments { arguments.new ≡ over_front (told_arguments follower.now 0 args.now) arguments.old }
    ensures bytes { bytes.new ≡ over_front (all_bytes args.now) bytes.old }
{
    let mut count = 0usize;
    let mut at = 0usize;
    for arg in args {
        arguments[count] = told_argument(follower, arg, bytes, at);
        count += 1;
        at += length_of(arg);
    }
}
