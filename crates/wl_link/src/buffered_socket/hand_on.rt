//! What a program needs that stands between two links: to look at the first message without taking it, and to hand it on as
//! it is.

ghost use Rattle.std.specs.Prelude.{◌≡◌, ◌≢◌, ◌+◌, ◌<◌, ◌≤◌, ◌++◌, [], length, take, drop, OnOk, OnErr, IfOk, IfErr, MatchOption};
ghost use Rattle.std.specs.VecDeque.{deque_capacity};
ghost use Rattle.wl_wire.specs.Argument.{Matches};
ghost use Rattle.wl_wire.specs.Message.{content};
ghost use Rattle.wl_wire.specs.declared.error.MessageParseError.TheVariants as parse;
ghost use Rattle.wl_wire.specs.Parse.{IsInline, IsWhole, ReadsMessage, RefusesMessage, fd_count, length_of};
ghost use Rattle.wl_link.specs.Exchange.{joined, nothing};
ghost use Rattle.wl_link.specs.HandOn.{Carries, HandsOn, HandsOnRest, LeavesOtherWay};
ghost use Rattle.wl_link.specs.Link.{has_room, with_incoming, with_outgoing};
ghost use Rattle.wl_link.specs.Inside.HandFront.{HandsFront};
ghost use Rattle.wl_link.specs.Inside.WaitingBytes.{beside};

use crate::buffered_socket::BufferedSocket;
use std::alloc::Global;
use std::collections::VecDeque;
use std::fmt;
use thiserror::Error;
use wl_wire::{
    ArgumentType, INLINE_ARGS, Message, MessageParseError, OutOfMemory, Token, fd_places,
    message_header, peek_into,
};

/// Why a message was not handed on.
#[derive(Clone, Copy, PartialEq, Eq, Error)]
pub enum HandOnError {
    /// A part of the message is missing.
    #[error("a part of the message is missing")]
    MissingData,
    /// The header says a length below its own.
    #[error("the message is malformed")]
    Malformed,
    /// A descriptor of the message is missing.
    #[error("a descriptor of the message is missing")]
    MissingFD,
    /// The buffer of what waits to be sent may not grow as far as the message needs.
    #[error("too much waits to be sent")]
    NoRoom,
    /// There was no memory.
    #[error("out of memory")]
    OutOfMemory,
}

/// Writes what `Display` writes.
impl fmt::Debug for HandOnError {
    fn fmt<W: fmt::Write>(&self, f: &mut fmt::Formatter<W>) -> fmt::Result {
        write!(f, "{self}")
    }
}

impl<T> BufferedSocket<T> {
    /// The bytes that were received and not read yet.
    pub fn received(&self) -> &[u8]
        ensures { result.now ≡ self.now.incoming.bytes }
    {
        self.incoming.bytes()
    }

    /// The tokens that were received and not read yet.
    pub fn received_tokens(&self) -> &VecDeque<Token>
        ensures { result.now.items ≡ self.now.incoming.tokens }
    {
        &self.tokens_in
    }

    /// The bytes of the first message that was received, if it is there to its end.
    pub fn front(&self) -> Option<&[u8]>
        ensures { MatchOption result (¬ (IsWhole self.now.incoming.bytes))
            (λ front. IsWhole self.now.incoming.bytes × (front.now ≡ take (length_of self.now.incoming.bytes) self.now.incoming.bytes)) }
    {
        let bytes = self.incoming.bytes();
        let header = message_header(bytes)?;
        if header.len < 8 || bytes.len() < header.len {
            return None;
        }
        Some(&bytes[..header.len])
    }

    /// Reads the first message that was received under the signature, and leaves it where it is.
    pub fn peek(
        &mut self,
        signature: &[ArgumentType],
        message: &mut Message<u32, Token>,
    ) -> Result<(), MessageParseError>
        requires { INLINE_ARGS ≤ message.old.args.capacity }
        ensures found { OnOk result (ReadsMessage self.old.incoming.bytes signature.now self.old.incoming.tokens (content message.new)) }
        ensures matches { OnOk result (Matches signature.now message.new.args.items) }
        ensures refused { IfErr result (RefusesMessage self.old.incoming.bytes signature.now self.old.incoming.tokens) }
        ensures small { IsInline signature.now → IfErr result (λ e. e ≢ parse.OutOfMemory) }
        ensures unchanged { self.new ≡ self.old }
        ensures capacity { INLINE_ARGS ≤ message.new.args.capacity }
    {
        let alloc = *self.tokens_in.allocator();
        let bytes = self.incoming.bytes();
        peek_into(alloc, bytes, signature, &mut self.tokens_in, message)
    }

    /// Takes out all that was received and not read yet: the bytes and the tokens. They are copied into lists of their size, and
    /// the link keeps its own memory.
    ///
    /// The error is `OutOfMemory` if there is no memory for these lists. It changes nothing, and comes only if bytes or tokens
    /// wait.
    pub fn take_received(&mut self) -> Result<(Vec<u8>, Vec<Token>), OutOfMemory>
        ensures taken { IfOk result (λ x. (x.0.items ≡ self.old.incoming.bytes) × (x.1.items ≡ self.old.incoming.tokens)) }
        ensures left { OnOk result (self.new ≡ with_incoming self.old self.old.transport nothing) }
        ensures unchanged { OnErr result (self.new ≡ self.old) }
        ensures memory { OnErr result (self.old.incoming ≢ nothing) }
    {
        let alloc = *self.tokens_in.allocator();
        let bytes = copy_of(alloc, self.incoming.bytes())?;
        let tokens = copy_of(alloc, self.tokens_in.make_contiguous())?;
        self.incoming.consume(bytes.len());
        self.tokens_in.clear();
        Ok((bytes, tokens))
    }

    /// Moves so many bytes and tokens from the front of what was received to the end of what waits to be sent on the other
    /// link. The error is `NoRoom` or `OutOfMemory`. Then nothing was moved, but the buffer of the other link may have grown.
    fn hand_front<S>(
        &mut self,
        len: usize,
        count: usize,
        to: &mut BufferedSocket<S>,
    ) -> Result<(), HandOnError>
        requires bytes { len ≤ length self.old.incoming.bytes }
        requires tokens { count ≤ length self.old.incoming.tokens }
        ensures handed { HandsFront len count self.old to.old result self.new to.new }
        ensures carried { Carries self.old to.old self.new to.new }
        ensures other_way { LeavesOtherWay self.old to.old self.new to.new }
    {
        let bytes = self.incoming.bytes();
        let Ok(()) = to.grow_for(len) else {
            return Err(HandOnError::OutOfMemory);
        };
        if !to.has_room(len) {
            return Err(HandOnError::NoRoom);
        }
        let Ok(()) = to.put_raw(&bytes[..len], &mut self.tokens_in, count) else {
            return Err(HandOnError::OutOfMemory);
        };
        self.incoming.consume(len);
        Ok(())
    }

    /// Takes the first message off what was received, and appends it to what waits to be sent on the other link: its bytes as
    /// they are, and as many tokens as the signature has file descriptors.
    ///
    /// The message is not read, and nothing is sent. The buffer of the other link is doubled if need be, as its limit allows.
    /// The errors are decided in this order, and after each both links have what they had:
    ///
    /// - `MissingData` if a part of the message is missing;
    /// - `Malformed` if its header says a length below 8;
    /// - `MissingFD` if fewer tokens wait than the signature has file descriptors;
    /// - `OutOfMemory` if the buffer has too little room and may be doubled, and there is no memory for it;
    /// - `NoRoom` if the buffer has too little room;
    /// - `OutOfMemory` if the message has tokens, more than 28 would wait with them, and there is no memory for them.
    pub fn hand_on<S>(
        &mut self,
        signature: &[ArgumentType],
        to: &mut BufferedSocket<S>,
    ) -> Result<(), HandOnError>
        ensures handed { HandsOn signature.now self.old to.old result self.new to.new }
        ensures carried { Carries self.old to.old self.new to.new }
        ensures other_way { LeavesOtherWay self.old to.old self.new to.new }
    {
        let bytes = self.incoming.bytes();
        let Some(header) = message_header(bytes) else {
            return Err(HandOnError::MissingData);
        };
        if header.len < 8 {
            return Err(HandOnError::Malformed);
        }
        if bytes.len() < header.len {
            return Err(HandOnError::MissingData);
        }
        let count = fd_places(signature);
        if self.tokens_in.len() < count {
            return Err(HandOnError::MissingFD);
        }
        self.hand_front(header.len, count, to)
    }

    /// Takes all that was received and not read, and appends it to what waits to be sent on the other link, whether it is whole
    /// messages or not.
    ///
    /// Nothing is sent. The buffer of the other link is doubled if need be, as its limit allows. The errors are decided in this
    /// order, and after each both links have what they had:
    ///
    /// - `OutOfMemory` if the buffer has too little room and may be doubled, and there is no memory for it;
    /// - `NoRoom` if the buffer has too little room;
    /// - `OutOfMemory` if there are tokens, more than 28 would wait with them, and there is no memory for them.
    pub fn hand_on_rest<S>(&mut self, to: &mut BufferedSocket<S>) -> Result<(), HandOnError>
        ensures handed { HandsOnRest self.old to.old result self.new to.new }
        ensures carried { Carries self.old to.old self.new to.new }
        ensures other_way { LeavesOtherWay self.old to.old self.new to.new }
    {
        let (len, count) = (self.incoming.len(), self.tokens_in.len());
        self.hand_front(len, count, to)
    }

    /// Appends these bytes to what waits to be sent, and as many tokens of the queue, which has them.
    fn put_raw(
        &mut self,
        bytes: &[u8],
        tokens: &mut VecDeque<Token>,
        count: usize,
    ) -> Result<(), OutOfMemory>
        requires room { length self.old.outgoing.bytes + length bytes.now ≤ self.old.outgoing_capacity }
        requires tokens { count ≤ length tokens.old.items }
        ensures put { OnOk result (self.new ≡ with_outgoing self.old self.old.transport (joined self.old.outgoing (beside bytes.now (take count tokens.old.items)))) }
        ensures taken { OnOk result (tokens.new.items ≡ drop count tokens.old.items) }
        ensures unchanged { OnErr result ((self.new ≡ self.old) × (tokens.new.items ≡ tokens.old.items)) }
        ensures some { OnErr result (0 < count) }
        ensures many { OnErr result (28 < length self.old.outgoing.tokens + count) }
        ensures capacity { deque_capacity tokens.new ≡ deque_capacity tokens.old }
    {
        self.tokens_out.append_from(tokens, count)?;
        self.outgoing.append(bytes);
        Ok(())
    }
}

/// A list of these elements. For none it takes no memory.
fn copy_of<E: Copy>(alloc: Global, items: &[E]) -> Result<Vec<E>, OutOfMemory>
    ensures items { IfOk result (λ copy. copy.items ≡ items.now) }
    ensures some { OnErr result (items.now ≢ []) }
{
    let mut copy = Vec::with_capacity(alloc, items.len())?;
    copy.extend_from_slice(items)?;
    Ok(copy)
}
