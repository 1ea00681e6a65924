//! Bytes with tokens, as they wait in the transports of this crate.

ghost use Rattle.std.specs.Prelude.{◌≡◌, ◌≢◌, ◌≤◌, ◌<◌, ◌+◌, ◌-◌, ◌++◌, ◌==◌, [], IsOk, IfOk, OnOk, OnErr, MatchResult, length, take, drop, min};
ghost use Rattle.std.specs.Vec.{vec_len};
ghost use Rattle.std.specs.VecDeque.{deque_len, deque_capacity};
ghost use Rattle.wl_link.specs.Exchange.{nothing, joined};
ghost use Rattle.wl_link.specs.Mailbox.{behind};

use std::alloc::AllocError;
use std::collections::VecDeque;
use std::marker::Model;
use wl_wire::Token;

/// Bytes, and at most 28 tokens. The bytes are given out in pieces, and the tokens with the first piece.
///
/// To give bytes out moves none of the others. They are moved to the front only if bytes that are appended find no room, and
/// only if they are no more than those that were given out. So no byte that was given out makes more than one other move.
#[derive(Debug, Drop)]
pub struct Parcel {
    bytes: Vec<u8>,
    /// How many of the bytes were given out.
    start: usize,
    tokens: Vec<Token>,
}

impl Model for Parcel {
    ghost use Rattle.std.specs.Prelude.{◌≤◌, drop};
    ghost use Rattle.std.specs.Vec.{vec_len};
    ghost use Rattle.wl_link.specs.Exchange.{Queue};

    ghost Value = { Queue };

    ghost view = { λ p. record { bytes = drop p.start p.bytes.items; tokens = p.tokens.items } };

    ghost invariant = { λ p. (p.start ≤ vec_len p.bytes) × (vec_len p.tokens ≤ 28) };
}

impl Parcel {
    /// A parcel of these bytes and tokens. It allocates nothing.
    pub fn new(bytes: Vec<u8>, tokens: Vec<Token>) -> Self
        requires { vec_len tokens ≤ 28 }
        ensures { result ≡ record { bytes = bytes.items; tokens = tokens.items } }
    {
        Parcel {
            bytes,
            start: 0,
            tokens,
        }
    }

    /// The bytes that are left.
    pub fn bytes(&self) -> &[u8]
        ensures { result.now ≡ self.now.bytes }
    {
        &self.bytes[self.start..]
    }

    /// The tokens that are left.
    pub fn tokens(&self) -> &[Token]
        ensures tokens { result.now ≡ self.now.tokens }
        ensures few { length result.now ≤ 28 }
    {
        &self.tokens
    }

    /// Whether no bytes are left.
    pub fn is_empty(&self) -> bool
        ensures { result ≡ (length self.now.bytes == 0) }
    {
        self.bytes[self.start..].is_empty()
    }

    /// Moves as many of the bytes as fit to the front of the buffer, and appends all the tokens to the queue. Returns how
    /// many bytes it moved.
    ///
    /// If there is no memory for the tokens, nothing is changed.
    pub fn give(
        &mut self,
        buffer: &mut [u8],
        tokens: &mut VecDeque<Token>,
    ) -> Result<usize, AllocError>
        ensures gives { MatchResult result
            (λ n. (n ≡ min (length buffer.old) (length self.old.bytes))
            × (take n buffer.new ≡ take (length buffer.old) self.old.bytes)
            × (tokens.new.items ≡ tokens.old.items ++ self.old.tokens)
            × (self.new ≡ record { bytes = drop (length buffer.old) self.old.bytes; tokens = [] }))
            (λ _. (self.old.tokens ≢ []) × (self.new ≡ self.old) × (buffer.new ≡ buffer.old)
            × (tokens.new.items ≡ tokens.old.items)) }
        ensures few { length self.old.tokens ≤ 28 }
        ensures rest { IfOk result (λ n. drop n buffer.new ≡ drop n buffer.old) }
        ensures room { deque_len tokens.old + 28 ≤ deque_capacity tokens.old → IsOk result }
        ensures capacity { deque_capacity tokens.old ≤ deque_capacity tokens.new }
    {
        if !self.tokens.is_empty() {
            append(tokens, &self.tokens)?;
            self.tokens.clear();
        }
        let count = buffer.len().min(self.bytes.len() - self.start);
        buffer[..count].copy_from_slice(&self.bytes[self.start..self.start + count]);
        self.skip(count);
        Ok(count)
    }

    /// Takes `count` bytes off the front; all, if there are fewer. If the count is not 0, the tokens go with them.
    pub fn take_off(&mut self, count: usize)
        ensures { self.new ≡ behind count self.old }
    {
        if count == 0 {
            return;
        }
        let count = count.min(self.bytes.len() - self.start);
        self.tokens.clear();
        self.skip(count);
    }

    /// Appends the bytes and the tokens. If there is no memory for them, nothing is changed.
    pub fn append(&mut self, bytes: &[u8], tokens: &[Token]) -> Result<(), AllocError>
        requires { length self.old.tokens + length tokens.now ≤ 28 }
        ensures ok { OnOk result (self.new ≡ joined self.old (record { bytes = bytes.now; tokens = tokens.now })) }
        ensures err { OnErr result ((self.new ≡ self.old) × (record { bytes = bytes.now; tokens = tokens.now } ≢ nothing)) }
    {
        if bytes.len() > self.bytes.capacity() - self.bytes.len() {
            self.move_up();
        }
        self.bytes.reserve(bytes.len())?;
        if !tokens.is_empty() {
            self.tokens.extend_from_slice(tokens)?;
        }
        self.bytes.extend_from_slice(bytes)?;
        Ok(())
    }

    /// Passes over so many bytes. The memory is used from its front again once none are left.
    fn skip(&mut self, count: usize)
        requires { count ≤ length self.old.bytes }
        ensures { self.new ≡ record self.old { bytes = drop count self.old.bytes } }
    {
        self.start += count;
        if self.start == self.bytes.len() {
            self.bytes.clear();
            self.start = 0;
        }
    }

    /// Moves the bytes that are left to the front, if they are no more than those that were given out.
    ///
    /// It is not inlined, so that it costs nothing where there is room behind them.
    #[inline(never)]
    fn move_up(&mut self)
        ensures { self.new ≡ self.old }
    {
        let waiting = self.bytes.len() - self.start;
        if self.start < waiting {
            return;
        }
        self.bytes.drain(..self.start);
        self.start = 0;
    }
}

/// Appends the tokens to the queue. If there is no memory for them, the queue is as it was.
fn append(to: &mut VecDeque<Token>, tokens: &[Token]) -> Result<(), AllocError>
    ensures items { MatchResult result (λ _. to.new.items ≡ to.old.items ++ tokens.now)
        (λ _. (to.new.items ≡ to.old.items) × (tokens.now ≢ [])) }
    ensures room { deque_len to.old + length tokens.now ≤ deque_capacity to.old → IsOk result }
    ensures capacity { deque_capacity to.old ≤ deque_capacity to.new }
{
    if tokens.is_empty() {
        return Ok(());
    }
    to.reserve(tokens.len())?;
    for token in tokens {
        to.push_back_reserved(*token);
    }
    Ok(())
}
