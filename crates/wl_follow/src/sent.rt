//! What a side sent, and was not told yet.

ghost use Rattle.std.specs.Prelude.{◌≡◌, ◌≤◌, ◌<◌, ◌↔◌, ◌++◌, IsTrue, MatchOption, OnErr, OnOk, drop, length};
ghost use Rattle.wl_wire.specs.Parse.{IsThere, IsWhole, length_of};
ghost use Rattle.wl_follow.specs.Sent.{less_sent, more_sent, nothing_sent, ready_part, ready_more, released_but, released_count, unfollowed, without_first};

use crate::front::MessageSource;
use std::alloc::{AllocError, Global};
use std::collections::VecDeque;
use std::marker::Model;
use wl_wire::{
    ArgumentType, Message, MessageParseError, OutOfMemory, Token, fd_places, message_header,
    message_is_there, peek_into,
};

/// The bytes and tokens that a side sent, and that were not told yet.
///
/// To take a message off moves none of the other bytes. They are moved to the front only if bytes that are appended find no room, and
/// only if they are no more than those that were told.
#[derive(Drop)]
pub struct Sent {
    bytes: Vec<u8>,
    /// How many of the bytes were told.
    start: usize,
    /// How many of them were told, or may be told now.
    ready: usize,
    /// How many of them were told, or may be told once it is their turn.
    released: usize,
    tokens: VecDeque<Token>,
    is_followed: bool,
}

impl Model for Sent {
    ghost use Rattle.std.specs.Prelude.{◌-◌, ◌≤◌, drop, vec_len};
    ghost use Rattle.wl_follow.specs.Sent.{SentState};

    ghost Value = { SentState };

    ghost view = { λ s. record {
      bytes = drop s.start s.bytes.items;
      tokens = s.tokens.items;
      ready = s.ready - s.start;
      released = s.released - s.start;
      is_followed = s.is_followed;
    } };

    ghost invariant = { λ s. (s.start ≤ s.ready) × (s.ready ≤ s.released) × (s.released ≤ vec_len s.bytes) };
}

impl Sent {
    /// Nothing was sent yet. It allocates nothing.
    pub fn new(alloc: Global) -> Self
        ensures { result ≡ nothing_sent }
    {
        Sent {
            bytes: Vec::new(alloc),
            start: 0,
            ready: 0,
            released: 0,
            tokens: VecDeque::new(alloc),
            is_followed: true,
        }
    }

    /// Appends what the side sent. Of a side that is followed no further nothing is kept.
    ///
    /// The error says that there was no memory. Then nothing is changed.
    pub fn append(&mut self, bytes: &[u8], tokens: &[Token]) -> Result<(), OutOfMemory>
        ensures ok { OnOk result (self.new ≡ more_sent bytes.now tokens.now self.old) }
        ensures err { OnErr result (self.new ≡ self.old) }
        ensures released { self.old.released ≤ length self.old.bytes }
    {
        if !self.is_followed {
            return Ok(());
        }
        self.move_up(bytes.len());
        self.bytes.reserve(bytes.len())?;
        append_tokens(&mut self.tokens, tokens)?;
        self.bytes.extend_from_slice(bytes)?;
        Ok(())
    }

    /// Takes the last bytes and tokens back, so many. Bytes that were released stay; tokens are taken back also then. Of a side that is
    /// followed no further nothing was kept.
    pub fn take_back(&mut self, bytes: usize, tokens: usize)
        ensures { self.new ≡ less_sent bytes tokens self.old }
    {
        if !self.is_followed {
            return;
        }
        let untold = self.bytes.len() - self.start;
        let kept = untold.saturating_sub(bytes).max(self.released - self.start);
        self.bytes.truncate(self.start + kept);
        self.tokens
            .truncate(self.tokens.len().saturating_sub(tokens));
    }

    /// Moves the bytes that were not told to the front, if there is no room for `more` behind them and they are no more than those that
    /// were told.
    fn move_up(&mut self, more: usize)
        ensures { self.new ≡ self.old }
    {
        let untold = self.bytes.len() - self.start;
        if self.start < untold || more <= self.bytes.capacity() - self.bytes.len() {
            return;
        }
        self.bytes.drain(..self.start);
        self.ready -= self.start;
        self.released -= self.start;
        self.start = 0;
    }

    /// How many more bytes all but the last `left` are than those that may be told already, now or once it is their turn.
    pub fn unreleased_but(&self, left: usize) -> usize
        ensures { result ≡ released_count left self.now }
    {
        (self.bytes.len() - self.released).saturating_sub(left)
    }

    /// All but the last `left` bytes may be told, once it is their turn.
    pub fn release_but(&mut self, left: usize)
        ensures { self.new ≡ released_but left self.old }
    {
        self.released += self.unreleased_but(left);
    }

    /// It is the turn of so many more of the bytes.
    pub fn make_ready(&mut self, count: usize)
        ensures { self.new ≡ ready_more count self.old }
    {
        self.ready += count.min(self.released - self.ready);
    }

    /// How long the first message is that may be told, as its header says; `None` if not even a header may be told.
    pub fn front_length(&self) -> Option<usize>
        ensures { MatchOption result (length (ready_part self.now).bytes < 8)
            (λ n. (8 ≤ length (ready_part self.now).bytes) × (n ≡ length_of (ready_part self.now).bytes)) }
    {
        let header = message_header(&self.bytes[self.start..self.ready])?;
        Some(header.len)
    }

    /// Whether the first message may be told to its end.
    pub fn is_whole(&self) -> bool
        ensures { IsTrue result ↔ IsWhole (ready_part self.now).bytes }
    {
        message_is_there(&self.bytes[self.start..self.ready], &[], 0)
    }

    /// Takes the first message off, with as many tokens as the signature has file descriptors. It is there.
    pub fn take_first(&mut self, signature: &[ArgumentType])
        requires { IsThere (ready_part self.old).bytes signature.now self.old.tokens }
        ensures { self.new ≡ without_first signature.now self.old }
    {
        if let Some(len) = self.front_length() {
            self.start += len;
            drop_tokens(&mut self.tokens, fd_places(signature));
        }
    }

    /// Drops what was sent and not told. Nothing is kept from now on.
    pub fn stop(&mut self)
        ensures { self.new ≡ unfollowed self.old }
    {
        self.bytes.clear();
        self.start = 0;
        self.ready = 0;
        self.released = 0;
        self.tokens.clear();
        self.is_followed = false;
    }
}

/// Appends the tokens. If there is no memory for them, the queue is as it was.
fn append_tokens(to: &mut VecDeque<Token>, tokens: &[Token]) -> Result<(), AllocError>
    ensures ok { OnOk result (to.new.items ≡ to.old.items ++ tokens.now) }
    ensures err { OnErr result (to.new.items ≡ to.old.items) }
{
    to.reserve(tokens.len())?;
    for token in tokens {
        to.push_back_reserved(*token);
    }
    Ok(())
}

/// Takes `count` tokens off the front.
fn drop_tokens(tokens: &mut VecDeque<Token>, count: usize)
    ensures { tokens.new.items ≡ drop count tokens.old.items }
{
    for _ in 0..count {
        let _ = tokens.pop_front();
    }
}

/// What may be told now.
impl MessageSource for Sent {
    ghost queue = { ready_part };

    fn next_header(&self) -> Option<(u32, u16)> {
        let header = message_header(&self.bytes[self.start..self.ready])?;
        Some((header.sender_id, header.opcode))
    }

    fn peek(
        &mut self,
        signature: &[ArgumentType],
        message: &mut Message<u32, Token>,
    ) -> Result<(), MessageParseError> {
        let alloc = *self.tokens.allocator();
        let bytes = &self.bytes[self.start..self.ready];
        peek_into(alloc, bytes, signature, &mut self.tokens, message)
    }
}
