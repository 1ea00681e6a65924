//! The link: a transport with buffers.

ghost use Rattle.std.specs.Prelude.{◌≡◌, ◌≢◌, ◌+◌, ◌-◌, ◌*◌, ◌^◌, ◌<◌, ◌≤◌, ◌∷◌, List, [], length, map, take, ◌↔◌, nat_le, if◌then◌else◌, IsTrue, Some, Ok, Err, IfOk, IfErr, OnOk, OnErr, MatchOption, MatchResult};
ghost use Rattle.std.specs.Borrow.{sem};
ghost use Rattle.std.specs.VecDeque.{deque_capacity, deque_len};
ghost use Rattle.wl_wire.specs.Argument.{Matches};
ghost use Rattle.wl_wire.specs.MapIds.{numbered};
ghost use Rattle.wl_wire.specs.Message.{IsMessage, content, size};
ghost use Rattle.wl_wire.specs.declared.error.MessageParseError.TheVariants as parse;
ghost use Rattle.wl_wire.specs.Parse.{IsInline, IsThere, IsWhole, ReadsMessage, RefusesMessage, length_of, opcode_of, payload_of, sender_of};
ghost use Rattle.wl_wire.specs.Reading.{IsWord};
ghost use Rattle.wl_link.specs.Puts.{PutsOut, Said, messages_of};
ghost use Rattle.wl_link.specs.Link.{number_message, IsFresh, LimitSet, Flushed, Filled, Grown, Wants, Put, Placed, Wrote, ReadOne, looked_up, read_content, read_into, needed, has_room, ignoring, counted_answer, grown_capacity, free_room, with_incoming, after_first, without_front, FindsRoom, IsFull, LacksBytes};
ghost use Rattle.wl_link.specs.NothingLost.{FlushKeeps, FlushDrains, WriteKeeps};
ghost use Rattle.wl_link.specs.Sides.{ReadTakes};
ghost use Rattle.wl_link.specs.Inside.WaitingBytes.{FitsUnder, IsFullUnder, grown_to, write_answer_of};

/// For a program between two links: looks at the first message, and hands on that message or all that came.
mod hand_on;

use crate::buffer::Buffer;
use crate::limit::{DEFAULT_MAX_BUFFER_SIZE, grown_size, incoming_limit, rounded};
use crate::number_message::{NUMBER_MESSAGE_SIZE, NumberMessage};
use crate::token_queue::TokenQueue;
use crate::transport::{MAX_BYTES_OUT, MAX_FDS_OUT, Transport};
pub use hand_on::HandOnError;
use smallvec::SmallVec;
use std::alloc::{AllocError, Global};
use std::collections::VecDeque;
use std::fmt;
use std::marker::Model;
use wl_wire::{
    ArgumentType, INLINE_ARGS, IoFault, Message, MessageParseError, MessageWriteError, Numbering,
    OutOfMemory, OwnNumbers, Token, message_header, message_is_there, numbered_size, parse_into,
};

/// A *link*: a transport, and what waits on both sides of it.
///
/// The *incoming* buffer has the bytes that were received and not read yet, and the *outgoing* one those that were written
/// and not sent yet. A queue of tokens, numbers that stand for file descriptors, goes with each.
#[derive(Drop)]
pub struct BufferedSocket<T> {
    transport: T,
    incoming: Buffer,
    tokens_in: VecDeque<Token>,
    outgoing: Buffer,
    tokens_out: TokenQueue,
    limit: Option<usize>,
}

impl<T> fmt::Debug for BufferedSocket<T> {
    fn fmt<W: fmt::Write>(&self, f: &mut fmt::Formatter<W>) -> fmt::Result {
        f.write_str("BufferedSocket { .. }")
    }
}

impl<T> Model for BufferedSocket<T> {
    ghost use Rattle.std.specs.Prelude.{◌≤◌};
    ghost use Rattle.std.specs.VecDeque.{deque_capacity};
    ghost use Rattle.wl_link.specs.Link.{LinkState};
    ghost use Rattle.wl_link.specs.Inside.WaitingBytes.{beside};

    ghost Value = { LinkState T };

    ghost view = { λ s. record {
      transport = s.transport;
      incoming = beside s.incoming.bytes s.tokens_in.items;
      incoming_capacity = s.incoming.size;
      outgoing = beside s.outgoing.bytes s.tokens_out;
      outgoing_capacity = s.outgoing.size;
      limit = s.limit;
    } };

    // So there is room for what a receive may give, unless more than 28 tokens wait.
    ghost invariant = { λ s. 56 ≤ deque_capacity s.tokens_in };
}

impl<T> BufferedSocket<T> {
    ghost use Rattle.wl_link.specs.Lending.{LendsTransport};

    /// A link over the transport, on which nothing waits.
    ///
    /// Both buffers have a capacity of 4096 bytes, and may grow up to the limit `max_buffer_size`. The limit is rounded up
    /// to a power of two, and is at least 4096. `None` is no limit for the outgoing buffer. The incoming buffer never grows
    /// beyond 65536 bytes.
    ///
    /// The error is `OutOfMemory`.
    pub fn new(
        alloc: Global,
        transport: T,
        max_buffer_size: Option<usize>,
    ) -> Result<Self, OutOfMemory>
    where
        T: Drop,
        ensures { IfOk result (IsFresh transport max_buffer_size) }
    {
        let incoming = Buffer::new(alloc, DEFAULT_MAX_BUFFER_SIZE)?;
        let outgoing = Buffer::new(alloc, DEFAULT_MAX_BUFFER_SIZE)?;
        let tokens_in = VecDeque::with_capacity(alloc, 2 * MAX_FDS_OUT)?;
        let tokens_out = TokenQueue::new(alloc)?;
        Ok(BufferedSocket {
            transport,
            incoming,
            tokens_in,
            outgoing,
            tokens_out,
            limit: rounded(max_buffer_size),
        })
    }

    /// Sets how far the buffers may grow, in bytes. The limit is rounded as in `new`. A buffer that is larger already keeps
    /// its capacity.
    pub fn set_max_buffer_size(&mut self, max_buffer_size: Option<usize>)
        ensures { LimitSet self.old max_buffer_size self.new }
    {
        self.limit = rounded(max_buffer_size);
    }

    /// The limit of the buffers in bytes, as it was rounded; `None` if there is none.
    pub fn max_buffer_size(&self) -> Option<usize>
        ensures { result ≡ self.now.limit }
    {
        self.limit
    }

    /// How much waits: the bytes and the tokens that were received and not read yet, and the bytes and the tokens that were
    /// written and not sent yet.
    pub fn waiting(&self) -> [usize; 4]
        ensures { result ≡ length self.now.incoming.bytes ∷ length self.now.incoming.tokens
            ∷ length self.now.outgoing.bytes ∷ length self.now.outgoing.tokens ∷ [] }
    {
        [
            self.incoming.len(),
            self.tokens_in.len(),
            self.outgoing.len(),
            self.tokens_out.len(),
        ]
    }

    /// The capacity of the incoming and of the outgoing buffer, in bytes.
    pub fn storage(&self) -> [usize; 2]
        ensures { result ≡ self.now.incoming_capacity ∷ self.now.outgoing_capacity ∷ [] }
    {
        [self.incoming.size(), self.outgoing.size()]
    }

    /// The transport.
    pub fn transport(&self) -> &T
        ensures { result.now ≡ self.now.transport }
    {
        &self.transport
    }

    /// The transport, which the caller may change. What waits on the link stays as it is.
    pub fn transport_mut(&mut self) -> &mut T
        ensures* lends { sem 𝓛 (LendsTransport T.row self.entry result) }
        ensures value { result.now ≡ self.old.transport }
    {
        &mut self.transport
    }

    /// The sender and the opcode of the first message that was received; `None` if fewer bytes wait than the eight of a
    /// header.
    pub fn next_header(&self) -> Option<(u32, u16)>
        ensures { MatchOption result (length self.now.incoming.bytes < 8)
            (λ x. (8 ≤ length self.now.incoming.bytes)
            × (x.0 ≡ sender_of self.now.incoming.bytes) × (x.1 ≡ opcode_of self.now.incoming.bytes)) }
    {
        let header = message_header(self.incoming.bytes())?;
        Some((header.sender_id, header.opcode))
    }

    /// The word after the header of the first message that was received, if that message is complete and has no more bytes
    /// than these twelve; else `None`.
    pub fn next_word(&self) -> Option<u32>
        ensures { MatchOption result (¬ (IsWhole self.now.incoming.bytes × (length_of self.now.incoming.bytes ≡ 12)))
            (λ word. IsWhole self.now.incoming.bytes × (length_of self.now.incoming.bytes ≡ 12)
            × IsWord word (payload_of self.now.incoming.bytes)) }
    {
        word_after_header(self.incoming.bytes())
    }

    /// Takes the first message off what was received without reading it, and so many tokens with it, or all if fewer wait. The message
    /// must be complete.
    pub fn skip_message(&mut self, tokens: usize)
        requires { IsWhole self.old.incoming.bytes }
        ensures { self.new ≡ with_incoming self.old self.old.transport (without_front tokens self.old.incoming) }
    {
        if let Some(header) = message_header(self.incoming.bytes()) {
            self.incoming.consume(header.len);
        }
        // Most messages have none.
        if tokens > 0 {
            self.tokens_in.drain(..tokens.min(self.tokens_in.len()));
        }
    }

    /// Whether the first message that was received is complete, and at least as many tokens wait as the signature has file
    /// descriptors.
    pub fn holds_message(&self, signature: &[ArgumentType]) -> bool
        ensures { IsTrue result ↔ IsThere self.now.incoming.bytes signature.now self.now.incoming.tokens }
    {
        message_is_there(self.incoming.bytes(), signature, self.tokens_in.len())
    }

    /// Takes the first message off what was received, and reads it under the signature that the closure gives for its
    /// sender and opcode.
    ///
    /// The message's tokens are taken too. The error is `MissingData` if fewer than the eight bytes of a header wait, and
    /// `Malformed` if the closure gives no signature. Otherwise it is the error of `parse_message` under that signature. An
    /// error takes nothing.
    pub fn read_one_message<'s, F>(
        &mut self,
        signature: F,
    ) -> Result<Message<u32, Token>, MessageParseError>
    where
        F: FnOnce(u32, u16) -> Option<&'s [ArgumentType]> + Drop,
        // The closure is called only if a header waits.
        requires { 8 ≤ length self.old.incoming.bytes → F.IsAlwaysCallable signature }
        ensures read { ReadOne (looked_up (F.post signature)) self.old (read_content result) self.new }
        ensures first { ReadTakes (looked_up (F.post signature)) self.old (read_content result) self.new }
        ensures matches { IfOk result (λ m. (found : _) × looked_up (F.post signature) m.sender_id m.opcode (Some found) × Matches found m.args.items) }
        ensures fewer { OnOk result (length self.new.incoming.bytes < length self.old.incoming.bytes) }
    {
        let Some(header) = message_header(self.incoming.bytes()) else {
            return Err(MessageParseError::MissingData);
        };
        let Some(signature) = signature(header.sender_id, header.opcode) else {
            return Err(MessageParseError::Malformed);
        };
        // If a part of the message is missing, no room is made for the message.
        if 8 <= header.len && self.incoming.len() < header.len {
            return Err(MessageParseError::MissingData);
        }
        let mut message = Message {
            sender_id: 0,
            opcode: 0,
            args: SmallVec::new(*self.tokens_in.allocator()),
        };
        self.read_under(signature, &mut message)?;
        Ok(message)
    }

    /// Does the same as `read_one_message`, but reads into a message that the caller lends. The arguments of that message
    /// are replaced.
    ///
    /// The lent `args` must have a capacity of at least `INLINE_ARGS`, as a new `SmallVec` of that size has. The errors are
    /// the same. After an error the content of the lent message has no meaning.
    pub fn read_into<'s, F>(
        &mut self,
        signature: F,
        message: &mut Message<u32, Token>,
    ) -> Result<(), MessageParseError>
    where
        F: FnOnce(u32, u16) -> Option<&'s [ArgumentType]> + Drop,
        // The closure is called only if a header waits.
        requires callable { 8 ≤ length self.old.incoming.bytes → F.IsAlwaysCallable signature }
        requires inline { INLINE_ARGS ≤ message.old.args.capacity }
        ensures read { ReadOne (looked_up (F.post signature)) self.old (read_into result message.new) self.new }
        ensures first { ReadTakes (looked_up (F.post signature)) self.old (read_into result message.new) self.new }
        ensures matches { OnOk result ((found : _) × looked_up (F.post signature) message.new.sender_id message.new.opcode (Some found) × Matches found message.new.args.items) }
        ensures fewer { OnOk result (length self.new.incoming.bytes < length self.old.incoming.bytes) }
        ensures capacity { INLINE_ARGS ≤ message.new.args.capacity }
    {
        let bytes = self.incoming.bytes();
        let Some(header) = message_header(bytes) else {
            return Err(MessageParseError::MissingData);
        };
        let Some(signature) = signature(header.sender_id, header.opcode) else {
            return Err(MessageParseError::Malformed);
        };
        self.read_under(signature, message)?;
        Ok(())
    }

    /// Takes the first message off what was received, reads it under the signature, and puts it into the lent message.
    fn read_under(
        &mut self,
        signature: &[ArgumentType],
        message: &mut Message<u32, Token>,
    ) -> Result<(), MessageParseError>
        requires inline { INLINE_ARGS ≤ message.old.args.capacity }
        ensures found { OnOk result (ReadsMessage self.old.incoming.bytes signature.now self.old.incoming.tokens (content message.new)) }
        ensures taken { OnOk result (self.new ≡ with_incoming self.old self.old.transport (after_first signature.now self.old.incoming)) }
        ensures matches { OnOk result (Matches signature.now message.new.args.items) }
        ensures refused { IfErr result (RefusesMessage self.old.incoming.bytes signature.now self.old.incoming.tokens) }
        ensures small { IsInline signature.now → IfErr result (λ e. e ≢ parse.OutOfMemory) }
        ensures unchanged { OnErr result (self.new ≡ self.old) }
        ensures capacity { INLINE_ARGS ≤ message.new.args.capacity }
    {
        let alloc = *self.tokens_in.allocator();
        let bytes = self.incoming.bytes();
        let rest = parse_into(alloc, bytes, signature, &mut self.tokens_in, message)?;
        let len = bytes.len() - rest.len();
        self.incoming.consume(len);
        Ok(())
    }

    /// Does the same as `read_into`, under this signature, for any sender and opcode.
    pub fn read_with_signature(
        &mut self,
        signature: &[ArgumentType],
        message: &mut Message<u32, Token>,
    ) -> Result<(), MessageParseError>
        requires { INLINE_ARGS ≤ message.old.args.capacity }
        ensures read { ReadOne (λ _ _ found. found ≡ Some signature.now) self.old (read_into result message.new) self.new }
        ensures matches { OnOk result (Matches signature.now message.new.args.items) }
        ensures fewer { OnOk result (length self.new.incoming.bytes < length self.old.incoming.bytes) }
        ensures capacity { INLINE_ARGS ≤ message.new.args.capacity }
    {
        self.read_under(signature, message)
    }

    /// Whether the outgoing buffer has room for `size` more bytes, as large as it is now.
    pub fn has_room(&self, size: usize) -> bool
        ensures { result ≡ has_room self.now size }
    {
        size <= self.outgoing.size() - self.outgoing.len()
    }

    /// Doubles the outgoing buffer until it has room for `more` bytes, as far as the limit allows. If there is no memory,
    /// it stays as it was.
    fn grow_for(&mut self, more: usize) -> Result<(), OutOfMemory>
        requires { more < 2 ^ 63 }
        ensures { MatchResult result (λ _. Grown self.old more self.new)
            (λ _. (self.new ≡ self.old) × Wants self.old.limit (needed self.old more) self.old.outgoing_capacity) }
    {
        let size = self.outgoing.size();
        let needed = self.outgoing.len() + more;
        let Some(grown) = grown_size(self.limit, needed, size) else {
            return Err(OutOfMemory);
        };
        if grown == size {
            return Ok(());
        }
        self.outgoing.grow(grown)
    }

    /// Appends the message to what waits to be sent. The outgoing buffer has room for it.
    fn put<Id, N: Numbering<Id>>(
        &mut self,
        message: &Message<Id, Token>,
        numbers: &N,
    ) -> Result<(), IoFault>
        requires small { size (numbered (N.object_number numbers.now) (N.new_number numbers.now) message.now) ≤ 65535 }
        requires room { IsTrue (has_room self.old (size (numbered (N.object_number numbers.now) (N.new_number numbers.now) message.now))) }
        ensures put { Put self.old (numbered (N.object_number numbers.now) (N.new_number numbers.now) message.now) result self.new }
        ensures message { OnOk result (IsMessage (numbered (N.object_number numbers.now) (N.new_number numbers.now) message.now)) }
    {
        let written = self.outgoing.put(message, numbers, &mut self.tokens_out);
        write_answer(written).unwrap_or(Err(IoFault::TooBig))
    }

    /// Ends the link and returns its transport. What waits is lost.
    pub fn into_transport(self) -> T
        ensures { result ≡ self.transport }
    {
        let BufferedSocket {
            transport,
            incoming: _,
            tokens_in: _,
            outgoing: _,
            tokens_out: _,
            limit: _,
        } = self;
        transport
    }
}

impl<T: Transport> BufferedSocket<T> {
    /// Sends what waits to be sent, until no bytes wait.
    ///
    /// Each send is offered the first 4096 bytes that wait, or all if they are fewer, with all the tokens that wait. If
    /// more than 28 tokens wait, it is offered 1 byte with the first 28 tokens. The bytes and tokens that a send takes no
    /// longer wait. If a send takes no bytes, the flush ends with `Ok`; the bytes still wait, but the tokens that were
    /// offered are lost.
    ///
    /// The error is the fault of the transport, which ends the flush. What was not sent still waits.
    pub fn flush(&mut self) -> Result<(), IoFault>
        ensures flushed { Flushed T.sends self.old result self.new }
        ensures kept { FlushKeeps T.sends self.old result self.new }
        ensures drained { FlushDrains T.sends self.old result self.new }
    {
        if self.outgoing.is_empty() {
            return Ok(());
        }
        self.flush_waiting()
    }

    /// Sends what waits. It is a function of its own, so that a flush of a link on which no bytes wait costs one
    /// comparison.
    #[inline(never)]
    fn flush_waiting(&mut self) -> Result<(), IoFault>
        ensures flushed { Flushed T.sends self.old result self.new }
        ensures kept { FlushKeeps T.sends self.old result self.new }
        ensures drained { FlushDrains T.sends self.old result self.new }
    {
        while self.outgoing.len() > 0 {
            let bytes = first_bytes(self.outgoing.bytes(), self.tokens_out.len());
            let fds = self.tokens_out.first(MAX_FDS_OUT);
            match self.transport.send_msg(bytes, fds) {
                Err(fault) => return Err(fault),
                Ok(0) => {
                    self.tokens_out.drop_first(MAX_FDS_OUT);
                    return Ok(());
                }
                Ok(count) => {
                    self.outgoing.consume(count);
                    self.tokens_out.drop_first(MAX_FDS_OUT);
                }
            }
        }
        Ok(())
    }

    /// Appends the message to what waits to be sent.
    ///
    /// If the outgoing buffer has too little room, it is doubled, as often as needed and as the limit allows. If there is
    /// still too little room, what waits is flushed. The errors are:
    ///
    /// - `TooBig` if the message takes more than 65535 bytes, or if there is too little room even after the flush;
    /// - `OutOfMemory` if there is no memory to double the buffer, or for the message's tokens. There is always room for 28
    ///   tokens that wait, these among them;
    /// - a fault of that flush, but not `WouldBlock`.
    ///
    /// After an error the message is not written. A buffer that was doubled keeps its capacity, though, and the flush may
    /// have sent something. If there is no memory to double the buffer, nothing is changed.
    pub fn write_message(&mut self, message: &Message<u32, Token>) -> Result<(), IoFault>
        ensures wrote { Wrote T.sends self.old (content message.now) result self.new }
        ensures kept { WriteKeeps T.sends self.old (content message.now) result self.new }
        ensures message { OnOk result (IsMessage (content message.now)) }
    {
        self.write_numbered(message, &OwnNumbers)
    }

    /// Appends the messages to what waits to be sent. The outgoing buffer must have room for them: 12 bytes for each.
    ///
    /// It does the same as `write_message` of each, one after another. They are not counted first, so this costs less.
    pub fn write_numbers(&mut self, messages: &[NumberMessage])
        requires room { IsTrue (has_room self.old (12 * length messages.now)) }
        ensures puts { (said : List Said) → messages_of said ≡ map number_message messages.now
            → PutsOut T.sends self.old said [] said (Ok tt) self.new }
        ensures incoming { self.new.incoming ≡ self.old.incoming }
    {
        self.outgoing.append_numbers(messages);
    }

    /// Does the same as `write_message`, with the numbers that `numbers` gives the message's ids.
    pub fn write_numbered<Id, N: Numbering<Id>>(
        &mut self,
        message: &Message<Id, Token>,
        numbers: &N,
    ) -> Result<(), IoFault>
        ensures wrote { Wrote T.sends self.old (numbered (N.object_number numbers.now) (N.new_number numbers.now) message.now) result self.new }
        ensures kept { WriteKeeps T.sends self.old (numbered (N.object_number numbers.now) (N.new_number numbers.now) message.now) result self.new }
        ensures message { OnOk result (IsMessage (numbered (N.object_number numbers.now) (N.new_number numbers.now) message.now)) }
    {
        match write_answer(self.outgoing.write(message, numbers, &mut self.tokens_out)) {
            Some(answer) => answer,
            None => self.make_room_and_write(message, numbers),
        }
    }

    /// Makes room and writes the message, if there was too little room after what waits.
    ///
    /// It is not inlined, so that it costs nothing for a write that finds room.
    #[inline(never)]
    fn make_room_and_write<Id, N: Numbering<Id>>(
        &mut self,
        message: &Message<Id, Token>,
        numbers: &N,
    ) -> Result<(), IoFault>
        requires { size (numbered (N.object_number numbers.now) (N.new_number numbers.now) message.now) ≤ 65535 }
        ensures wrote { Wrote T.sends self.old (numbered (N.object_number numbers.now) (N.new_number numbers.now) message.now) result self.new }
        ensures message { OnOk result (IsMessage (numbered (N.object_number numbers.now) (N.new_number numbers.now) message.now)) }
    {
        let Some(len) = numbered_size(message, numbers) else {
            return Err(IoFault::TooBig);
        };
        let Ok(()) = self.grow_for(len) else {
            return Err(IoFault::OutOfMemory);
        };
        self.place(message, numbers, len)
    }

    /// Appends the message, of `len` bytes, to what waits. If there is too little room, it flushes first.
    fn place<Id, N: Numbering<Id>>(
        &mut self,
        message: &Message<Id, Token>,
        numbers: &N,
        len: usize,
    ) -> Result<(), IoFault>
        requires len { len ≡ size (numbered (N.object_number numbers.now) (N.new_number numbers.now) message.now) }
        requires small { len ≤ 65535 }
        ensures placed { Placed T.sends self.old (numbered (N.object_number numbers.now) (N.new_number numbers.now) message.now) result self.new }
        ensures message { OnOk result (IsMessage (numbered (N.object_number numbers.now) (N.new_number numbers.now) message.now)) }
    {
        if self.has_room(len) {
            return self.put(message, numbers);
        }
        self.flush_for_room()?;
        if self.has_room(len) {
            return self.put(message, numbers);
        }
        Err(IoFault::TooBig)
    }

    /// Flushes what waits. `WouldBlock` is no error here.
    fn flush_for_room(&mut self) -> Result<(), IoFault>
        ensures { (flushed : _) × Flushed T.sends self.old flushed self.new × (result ≡ ignoring flushed) }
    {
        match self.flush() {
            Ok(()) => Ok(()),
            Err(IoFault::WouldBlock) => Ok(()),
            Err(fault) => Err(fault),
        }
    }

    /// Receives once, into all of the incoming buffer that is free.
    ///
    /// If no byte of the buffer is free, it is doubled first, up to the limit or 65536 bytes, whichever is less. So a
    /// message that is not complete always finds room, if it is no longer than that. The errors are:
    ///
    /// - `OutOfMemory` if there is no memory to double the buffer, or to make room for the 28 tokens that a receive may give.
    ///   That room is there unless more than 28 tokens wait. So a receive that finds a byte free and no more tokens is not
    ///   out of memory. After this error nothing was received;
    /// - `Pipe` if no bytes came: the stream has ended, or no byte of the buffer is free. Tokens that came without bytes
    ///   wait all the same;
    /// - a fault of the transport. It may be `OutOfMemory` too.
    pub fn fill_incoming_buffers(&mut self) -> Result<(), IoFault>
        ensures filled { Filled T.receives self.old result self.new }
        ensures room { result ≢ Err IoFault.OutOfMemory → FindsRoom self.old self.new.incoming_capacity }
        ensures doubled { FindsRoom self.old (grown_capacity self.old) }

        // A receive is offered no byte only if the buffer is full, and as large as it may become.
        ensures full { (free_room self.old ≡ 0) ↔ IsFull self.old }
    {
        let size = size_with_room(&self.incoming, self.limit);
        let Ok(()) = reserve_tokens(&mut self.tokens_in) else {
            return Err(IoFault::OutOfMemory);
        };
        let Ok(()) = self.incoming.grow(size) else {
            return Err(IoFault::OutOfMemory);
        };
        let received = self
            .incoming
            .receive(&mut self.transport, &mut self.tokens_in);
        answer_of(received)
    }
}

/// The word after the header of the message at the front, if that is complete and has twelve bytes; else `None`.
fn word_after_header(bytes: &[u8]) -> Option<u32>
    ensures { MatchOption result (¬ (IsWhole bytes.now × (length_of bytes.now ≡ 12)))
        (λ word. IsWhole bytes.now × (length_of bytes.now ≡ 12) × IsWord word (payload_of bytes.now)) }
{
    let header = message_header(bytes)?;
    if header.len != NUMBER_MESSAGE_SIZE || bytes.len() < NUMBER_MESSAGE_SIZE {
        return None;
    }
    Some(u32::from_le_bytes([bytes[8], bytes[9], bytes[10], bytes[11]]))
}

/// The capacity of the incoming buffer for the next receive: it is doubled if no byte is free and the limit allows it.
fn size_with_room(incoming: &Buffer, limit: Option<usize>) -> usize
    ensures is { result ≡ grown_to limit incoming.now }
    ensures room { LacksBytes incoming.now.bytes → FitsUnder limit incoming.now.bytes → length incoming.now.bytes < result }
    ensures no_less { incoming.now.size ≤ result }
    ensures full { (grown_to limit incoming.now - length incoming.now.bytes ≡ 0) ↔ IsFullUnder limit incoming.now }
{
    let size = incoming.size();
    if incoming.len() < size || size >= incoming_limit(limit) {
        return size;
    }
    size * 2
}

/// Makes room for as many tokens as a receive may give at most. If there is room already, this is one comparison. A queue with
/// a capacity of twice as many asks for memory only if more than 28 wait in it.
fn reserve_tokens(tokens: &mut VecDeque<Token>) -> Result<(), AllocError>
    ensures items { tokens.new.items ≡ tokens.old.items }
    ensures room { OnOk result (deque_len tokens.new + 28 ≤ deque_capacity tokens.new) }
    ensures full { OnErr result (56 ≤ deque_capacity tokens.old → 28 < length tokens.old.items) }
    ensures capacity { deque_capacity tokens.old ≤ deque_capacity tokens.new }
{
    if tokens.capacity() - tokens.len() >= MAX_FDS_OUT {
        return Ok(());
    }
    tokens.reserve(MAX_FDS_OUT)
}

/// The bytes that the next send is offered, if `tokens` tokens wait.
#[tactic(auto, using(std::proofs::lemmas::List::take_min))]
fn first_bytes(bytes: &[u8], tokens: usize) -> &[u8]
    ensures { result.now ≡ take (if nat_le tokens 28 then 4096 else 1) bytes.now }
{
    let most = if tokens > MAX_FDS_OUT {
        1
    } else {
        MAX_BYTES_OUT
    };
    let count = most.min(bytes.len());
    &bytes[..count]
}

/// What a write to the outgoing buffer means for the link; `None` if there was too little room after what waits.
fn write_answer(written: Result<(), MessageWriteError>) -> Option<Result<(), IoFault>>
    ensures { MatchOption result (written ≡ Err MessageWriteError.BufferTooSmall)
        (λ answer. (written ≢ Err MessageWriteError.BufferTooSmall) × (answer ≡ write_answer_of written)) }
{
    match written {
        Ok(()) => Some(Ok(())),
        Err(MessageWriteError::TooLong) => Some(Err(IoFault::TooBig)),
        Err(MessageWriteError::BufferTooSmall) => None,
        Err(MessageWriteError::OutOfMemory) => Some(Err(IoFault::OutOfMemory)),
    }
}

/// What a receive means for the link: no bytes are the end of the stream, `Pipe`.
fn answer_of(received: Result<usize, IoFault>) -> Result<(), IoFault>
    ensures { result ≡ counted_answer received }
{
    match received {
        Ok(0) => Err(IoFault::Pipe),
        Ok(_) => Ok(()),
        Err(fault) => Err(fault),
    }
}
