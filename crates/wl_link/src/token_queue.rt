//! The tokens that wait to be sent. A *token* is a number that stands for a file descriptor.

ghost use Rattle.std.specs.Prelude.{◌≡◌, ◌≢◌, ◌↔◌, ◌+◌, ◌<◌, ◌≤◌, ◌++◌, [], Err, length, take, drop, IfOk, OnOk, OnErr};
ghost use Rattle.std.specs.VecDeque.{deque_capacity};
ghost use Rattle.wl_wire.specs.MapIds.{numbered};
ghost use Rattle.wl_wire.specs.Message.{IsMessage, size, spelling, tokens};
ghost use Rattle.wl_link.specs.Link.{TokensAsk};

use crate::transport::MAX_FDS_OUT;
use std::alloc::Global;
use std::collections::VecDeque;
use std::marker::Model;
use wl_wire::{Message, MessageWriteError, Numbering, OutOfMemory, Token, write_numbered};

/// A queue of tokens in a vector.
///
/// The tokens that are taken off the front stay in the vector at first. They are removed, and the others moved, once they
/// are at least as many as the others. So a vector with room for 56 tokens always has room for 28 that wait.
#[derive(Drop)]
pub struct TokenQueue {
    tokens: Vec<Token>,
    start: usize,
}

impl Model for TokenQueue {
    ghost use Rattle.std.specs.Prelude.{List, ◌+◌, ◌≤◌, drop};
    ghost use Rattle.std.specs.Vec.{vec_capacity, vec_len};
    ghost use Rattle.wl_wire.specs.declared.argument.Token.{Token};

    ghost Value = { List Token };

    ghost view = { λ q. drop q.start q.tokens.items };

    ghost invariant = { λ q. (q.start + q.start ≤ vec_len q.tokens) × (56 ≤ vec_capacity q.tokens) };
}

impl TokenQueue {
    /// An empty queue. The error is `OutOfMemory`.
    pub fn new(alloc: Global) -> Result<Self, OutOfMemory>
        ensures { IfOk result (λ q. q ≡ []) }
    {
        let tokens = Vec::with_capacity(alloc, 2 * MAX_FDS_OUT)?;
        Ok(TokenQueue { tokens, start: 0 })
    }

    /// How many tokens wait.
    pub fn len(&self) -> usize
        ensures { result ≡ length self.now }
    {
        self.tokens.len() - self.start
    }

    /// The first tokens: `most` of them, or all if fewer wait.
    pub fn first(&self, most: usize) -> &[Token]
        ensures { result.now ≡ take most self.now }
    {
        let waiting = &self.tokens[self.start..];
        first_tokens(waiting, most)
    }

    /// Takes the first tokens off: `most` of them, or all if fewer wait.
    pub fn drop_first(&mut self, most: usize)
        ensures { self.new ≡ drop most self.old }
    {
        if self.tokens.is_empty() {
            return;
        }
        let start = self.start + most.min(self.tokens.len() - self.start);
        if start < self.tokens.len() - start {
            self.start = start;
        } else {
            self.tokens.drain(..start);
            self.start = 0;
        }
    }

    /// Takes `count` tokens off the front of the other queue, which has them, and appends them to this one. If there is no
    /// memory for them, nothing is changed. Memory runs out only if more than 28 tokens would wait, and never for none.
    pub fn append_from(
        &mut self,
        tokens: &mut VecDeque<Token>,
        count: usize,
    ) -> Result<(), OutOfMemory>
        requires { count ≤ length tokens.old.items }
        ensures appended { OnOk result (self.new ≡ self.old ++ take count tokens.old.items) }
        ensures taken { OnOk result (tokens.new.items ≡ drop count tokens.old.items) }
        ensures unchanged { OnErr result ((self.new ≡ self.old) × (tokens.new.items ≡ tokens.old.items)) }
        ensures some { OnErr result (0 < count) }
        ensures many { OnErr result (28 < length self.old + count) }
        ensures capacity { deque_capacity tokens.new ≡ deque_capacity tokens.old }
    {
        if count == 0 {
            return Ok(());
        }
        let (first, _) = tokens.make_contiguous().split_at(count);
        self.tokens.extend_from_slice(first)?;
        tokens.drain(..count);
        Ok(())
    }

    /// Writes the message at the front of the slice, with the numbers that `numbers` gives its ids, and appends its tokens
    /// to the queue. Returns how many bytes were written.
    ///
    /// The errors are those of `write_to_buffers`. An error changes nothing. Memory runs out only if more than 28 tokens would
    /// wait.
    pub fn write<Id, N: Numbering<Id>>(
        &mut self,
        message: &Message<Id, Token>,
        numbers: &N,
        payload: &mut [u8],
    ) -> Result<usize, MessageWriteError>
        ensures written { IfOk result (λ n. (n ≡ size (numbered (N.object_number numbers.now) (N.new_number numbers.now) message.now))
            × (payload.new ≡ spelling (numbered (N.object_number numbers.now) (N.new_number numbers.now) message.now) ++ drop n payload.old)) }
        ensures tokens { OnOk result (self.new ≡ self.old ++ tokens (numbered (N.object_number numbers.now) (N.new_number numbers.now) message.now).args) }
        ensures too_long { (result ≡ Err MessageWriteError.TooLong) ↔ (65535 < size (numbered (N.object_number numbers.now) (N.new_number numbers.now) message.now)) }
        ensures too_small { (result ≡ Err MessageWriteError.BufferTooSmall)
            ↔ ((size (numbered (N.object_number numbers.now) (N.new_number numbers.now) message.now) ≤ 65535) × (length payload.old < size (numbered (N.object_number numbers.now) (N.new_number numbers.now) message.now))) }
        ensures message { OnOk result (IsMessage (numbered (N.object_number numbers.now) (N.new_number numbers.now) message.now)) }
        ensures memory { result ≡ Err MessageWriteError.OutOfMemory → TokensAsk self.old (numbered (N.object_number numbers.now) (N.new_number numbers.now) message.now) }
        ensures unchanged { OnErr result ((payload.new ≡ payload.old) × (self.new ≡ self.old)) }
    {
        write_numbered(message, numbers, payload, &mut self.tokens)
    }
}

/// The first tokens: `most` of them, or all if there are fewer.
#[tactic(auto, using(std::proofs::lemmas::List::take_min))]
fn first_tokens(tokens: &[Token], most: usize) -> &[Token]
    ensures { result.now ≡ take most tokens.now }
{
    let count = most.min(tokens.len());
    &tokens[..count]
}
