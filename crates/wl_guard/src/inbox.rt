//! What came from a side, and was not read yet.

ghost use Rattle.std.specs.Prelude.{◌≡◌, ◌+◌, ◌≤◌, ◌<◌, ◌++◌, ◌∷◌, [], OnErr, OnOk, MatchOption, drop, length, take, vec_len, vec_capacity};
ghost use Rattle.std.specs.VecDeque.{deque_capacity, deque_len};
ghost use Rattle.wl_wire.specs.Parse.{IsThere, IsWhole, fd_count, length_of};
ghost use Rattle.wl_link.specs.Exchange.{joined, nothing};
ghost use Rattle.wl_link.specs.HandOn.{first_of};
ghost use Rattle.wl_link.specs.Link.{after_first};

use crate::bytes::ByteQueue;
use crate::outbox::Outbox;
use std::alloc::{AllocError, Global};
use std::collections::VecDeque;
use std::marker::Model;
use wl_follow::MessageSource;
use wl_wire::{
    ArgumentType, Message, MessageParseError, OutOfMemory, Token, fd_places, message_header,
    peek_into,
};

/// What came from a side, and was not read yet: bytes, and tokens beside them.
#[derive(Drop)]
pub struct Inbox {
    bytes: ByteQueue,
    tokens: VecDeque<Token>,
}

impl Model for Inbox {
    ghost use Rattle.wl_link.specs.Exchange.{Queue};

    ghost Value = { Queue };

    ghost view = { λ i. record { bytes = i.bytes; tokens = i.tokens.items } };
}

/// Appends the tokens, for which there is room.
fn push_tokens(to: &mut VecDeque<Token>, tokens: &[Token])
    requires { deque_len to.old + length tokens.now ≤ deque_capacity to.old }
    ensures { to.new.items ≡ to.old.items ++ tokens.now }
{
    for token in tokens {
        to.push_back_reserved(*token);
    }
}

/// Takes `count` tokens off the front of the queue, which has them, and appends them to the list. If there is no memory for them,
/// nothing is changed.
pub fn move_tokens(
    from: &mut VecDeque<Token>,
    count: usize,
    to: &mut Vec<Token>,
) -> Result<(), AllocError>
    requires { count ≤ length from.old.items }
    ensures appended { OnOk result (to.new.items ≡ to.old.items ++ take count from.old.items) }
    ensures taken { OnOk result (from.new.items ≡ drop count from.old.items) }
    ensures unchanged { OnErr result ((to.new.items ≡ to.old.items) × (from.new.items ≡ from.old.items)) }
    ensures full { OnErr result (vec_capacity to.old < vec_len to.old + count) }
{
    let (first, _) = from.make_contiguous().split_at(count);
    to.extend_from_slice(first)?;
    from.drain(..count);
    Ok(())
}

impl Inbox {
    /// Nothing came yet. It allocates nothing.
    pub fn new(alloc: Global) -> Self
        ensures { result ≡ nothing }
    {
        Inbox {
            bytes: ByteQueue::new(alloc),
            tokens: VecDeque::new(alloc),
        }
    }

    /// Appends what came. The error says that there was no memory. Then nothing is changed.
    pub fn append(&mut self, bytes: &[u8], tokens: &[Token]) -> Result<(), OutOfMemory>
        ensures ok { OnOk result (self.new ≡ joined self.old (record { bytes = bytes.now; tokens = tokens.now })) }
        ensures err { OnErr result (self.new ≡ self.old) }
    {
        self.tokens.reserve(tokens.len())?;
        self.bytes.append(bytes)?;
        push_tokens(&mut self.tokens, tokens);
        Ok(())
    }

    /// How many bytes wait to be read.
    pub fn len(&self) -> usize
        ensures { result ≡ length self.now.bytes }
    {
        self.bytes.len()
    }

    /// How many tokens wait for their message.
    pub fn tokens_left(&self) -> usize
        ensures { result ≡ length self.now.tokens }
    {
        self.tokens.len()
    }

    /// How long the first message is, as its header says; `None` if not even a header is there.
    pub fn front_length(&self) -> Option<usize>
        ensures { MatchOption result (length self.now.bytes < 8) (λ n. (8 ≤ length self.now.bytes) × (n ≡ length_of self.now.bytes)) }
    {
        let header = message_header(self.bytes.as_slice())?;
        Some(header.len)
    }

    /// How long the first message is, as its header says, which is there.
    pub fn first_length(&self) -> usize
        ensures { 8 ≤ length self.now.bytes → result ≡ length_of self.now.bytes }
    {
        self.front_length().unwrap_or(0)
    }

    /// Takes the first message off, which is there, and appends it to what is to be sent: its bytes as they are, and as many tokens as
    /// the signature has file descriptors. The error says that there was no memory. Then nothing is changed.
    pub fn hand_on(
        &mut self,
        signature: &[ArgumentType],
        to: &mut Outbox,
    ) -> Result<(), OutOfMemory>
        requires { IsThere self.old.bytes signature.now self.old.tokens }
        ensures sent { OnOk result (to.new ≡ joined to.old (first_of signature.now self.old)) }
        ensures taken { OnOk result (self.new ≡ after_first signature.now self.old) }
        ensures unchanged { OnErr result ((self.new ≡ self.old) × (to.new ≡ to.old)) }
    {
        let len = self.front_length().unwrap_or(0);
        let bytes = &self.bytes.as_slice()[..len];
        to.append_from(bytes, &mut self.tokens, fd_places(signature))?;
        self.bytes.drop_first(len);
        Ok(())
    }

    /// Takes the first message off, which is there, and appends its tokens to the list. The error says that there was no memory. Then
    /// nothing is changed.
    pub fn take_off(
        &mut self,
        signature: &[ArgumentType],
        released: &mut Vec<Token>,
    ) -> Result<(), OutOfMemory>
        requires { IsThere self.old.bytes signature.now self.old.tokens }
        ensures released { OnOk result (released.new.items ≡ released.old.items ++ (first_of signature.now self.old).tokens) }
        ensures taken { OnOk result (self.new ≡ after_first signature.now self.old) }
        ensures unchanged { OnErr result ((self.new ≡ self.old) × (released.new.items ≡ released.old.items)) }
        ensures full { OnErr result (vec_capacity released.old < vec_len released.old + length self.old.tokens) }
    {
        let len = self.front_length().unwrap_or(0);
        move_tokens(&mut self.tokens, fd_places(signature), released)?;
        self.bytes.drop_first(len);
        Ok(())
    }

    /// Takes the first token out; `None` if there is none.
    pub fn pop_token(&mut self) -> Option<Token>
        ensures { MatchOption result ((self.old.tokens ≡ []) × (self.new ≡ self.old))
            (λ t. self.old ≡ record { bytes = self.new.bytes; tokens = t ∷ self.new.tokens }) }
    {
        self.tokens.pop_front()
    }
}

impl MessageSource for Inbox {
    ghost queue = { λ i. i };

    fn next_header(&self) -> Option<(u32, u16)> {
        let header = message_header(self.bytes.as_slice())?;
        Some((header.sender_id, header.opcode))
    }

    fn peek(
        &mut self,
        signature: &[ArgumentType],
        message: &mut Message<u32, Token>,
    ) -> Result<(), MessageParseError> {
        let alloc = *self.tokens.allocator();
        peek_into(
            alloc,
            self.bytes.as_slice(),
            signature,
            &mut self.tokens,
            message,
        )
    }
}
