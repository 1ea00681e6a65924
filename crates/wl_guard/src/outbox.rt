//! What is to be sent to a side.

ghost use Rattle.std.specs.Prelude.{◌≡◌, ◌≢◌, ◌+◌, ◌≤◌, [], IfOk, IsOk, OnErr, OnOk, drop, length, take};
ghost use Rattle.wl_wire.specs.Message.{content, spelling};
ghost use Rattle.wl_link.specs.Exchange.{joined, nothing};
ghost use Rattle.wl_guard.specs.Queues.{left_after, offered, one_send};

use crate::bytes::ByteQueue;
use crate::inbox::move_tokens;
use std::alloc::Global;
use std::collections::VecDeque;
use std::marker::Model;
use wl_link::MAX_FDS_OUT;
use wl_wire::{Message, OutOfMemory, Token, message_size, write_to_buffers};

/// What is to be sent to a side: bytes, and the tokens that go with them.
#[derive(Drop)]
pub struct Outbox {
    bytes: ByteQueue,
    tokens: Vec<Token>,
}

impl Model for Outbox {
    ghost use Rattle.wl_link.specs.Exchange.{Queue};

    ghost Value = { Queue };

    ghost view = { λ o. record { bytes = o.bytes; tokens = o.tokens.items } };
}

/// The bytes of a message. The error says that there was no memory, or that they would be more than 65535.
fn spelled(alloc: Global, message: &Message<u32, Token>) -> Result<Vec<u8>, OutOfMemory>
    ensures { IfOk result (λ bytes. bytes.items ≡ spelling (content message.now)) }
{
    let Some(size) = message_size(message) else {
        return Err(OutOfMemory);
    };
    let mut bytes = vec![in alloc; 0; size]?;
    let mut tokens = Vec::new(alloc);
    match write_to_buffers(message, &mut bytes, &mut tokens) {
        Ok(_) => Ok(bytes),
        Err(_) => Err(OutOfMemory),
    }
}

/// The first bytes: `most` of them, or all if there are fewer.
#[tactic(auto, using(std::proofs::lemmas::List::take_min))]
fn first_bytes(bytes: &[u8], most: usize) -> &[u8]
    ensures { result.now ≡ take most bytes.now }
{
    let count = most.min(bytes.len());
    &bytes[..count]
}

/// The first tokens: `most` of them, or all if there are fewer.
#[tactic(auto, using(std::proofs::lemmas::List::take_min))]
fn first_tokens(tokens: &[Token], most: usize) -> &[Token]
    ensures { result.now ≡ take most tokens.now }
{
    let count = most.min(tokens.len());
    &tokens[..count]
}

/// Takes the first tokens off: `most` of them, or all if there are fewer.
#[tactic(auto, using(std::proofs::lemmas::List::drop_all))]
fn drop_tokens(tokens: &mut Vec<Token>, most: usize)
    ensures { tokens.new.items ≡ drop most tokens.old.items }
{
    if tokens.len() <= most {
        tokens.clear();
    } else {
        tokens.drain(..most);
    }
}

impl Outbox {
    /// Nothing is to be sent. It allocates nothing.
    pub fn new(alloc: Global) -> Self
        ensures { result ≡ nothing }
    {
        Outbox {
            bytes: ByteQueue::new(alloc),
            tokens: Vec::new(alloc),
        }
    }

    /// How many bytes are to be sent.
    pub fn len(&self) -> usize
        ensures { result ≡ length self.now.bytes }
    {
        self.bytes.len()
    }

    /// Appends the bytes, and as many tokens from the front of the queue, which has them. The error says that there was no memory. Then
    /// nothing is changed.
    pub fn append_from(
        &mut self,
        bytes: &[u8],
        tokens: &mut VecDeque<Token>,
        count: usize,
    ) -> Result<(), OutOfMemory>
        requires { count ≤ length tokens.old.items }
        ensures sent { OnOk result (self.new ≡ joined self.old (record { bytes = bytes.now; tokens = take count tokens.old.items })) }
        ensures taken { OnOk result (tokens.new.items ≡ drop count tokens.old.items) }
        ensures unchanged { OnErr result ((self.new ≡ self.old) × (tokens.new.items ≡ tokens.old.items)) }
    {
        self.tokens.reserve(count)?;
        self.bytes.append(bytes)?;
        move_tokens(tokens, count, &mut self.tokens)?;
        Ok(())
    }

    /// Appends the bytes of a message without tokens. The error says that there was no memory. Then nothing is changed.
    pub fn write(&mut self, message: &Message<u32, Token>) -> Result<(), OutOfMemory>
        ensures written { OnOk result (self.new ≡ joined self.old (record { bytes = spelling (content message.now); tokens = [] })) }
        ensures unchanged { OnErr result (self.new ≡ self.old) }
    {
        let bytes = spelled(*self.tokens.allocator(), message)?;
        self.bytes.append(&bytes)
    }

    /// How many bytes one send takes: all, if at most 28 tokens are to be sent; else one.
    fn offered(&self) -> usize
        ensures { result ≡ offered self.now }
    {
        if self.tokens.len() <= MAX_FDS_OUT {
            self.bytes.len()
        } else {
            1
        }
    }

    /// What one send takes: all bytes with all tokens, if these are at most 28; else one byte with the first 28.
    pub fn to_send(&self) -> (&[u8], &[Token])
        ensures { record { bytes = result.0.now; tokens = result.1.now } ≡ one_send self.now }
    {
        (
            first_bytes(self.bytes.as_slice(), self.offered()),
            first_tokens(self.tokens.as_slice(), MAX_FDS_OUT),
        )
    }

    /// So many of the bytes of one send were sent, or all if they are fewer. If the count is above 0, its tokens were sent too.
    pub fn sent(&mut self, count: usize)
        ensures { self.new ≡ left_after count self.old }
    {
        if count == 0 {
            return;
        }
        let taken = count.min(self.offered());
        self.bytes.drop_first(taken);
        drop_tokens(&mut self.tokens, MAX_FDS_OUT);
    }
}
