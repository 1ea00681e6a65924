//! The descriptors that a session was given, in order.
//!
//! The core of a session knows a file descriptor only by its *token*. The host passes descriptors and no tokens, so this
//! crate keeps them and numbers them: the token of a descriptor is how many came before it, in 32 bits, whatever the
//! descriptor's own number is.

ghost use Rattle.std.specs.Prelude.{◌≡◌, ◌<◌, ◌-◌, ◌^◌, ◌++◌, [], IfNone, OnOk, OnErr, length, option_to_list, slice_get, take};
ghost use Rattle.wl_flat.specs.Descriptors.{descriptor_of, distance, given_up, last_held, next_tokens, put_in, taken_out, token_after};

use std::alloc::{AllocError, Global};
use std::collections::VecDeque;
use std::marker::Model;
use wl_wire::{OutOfMemory, Token};

/// The descriptors that went into a session on one side of one connection, and did not come out yet.
///
/// The core *holds* a descriptor from the call that puts it in until the core gives its token up, and it gives tokens up in
/// their order. Those that it left out in between, as those of a message that it refused, are *passed over*: they belong to
/// no message, and the host gets them back on their own. So each descriptor comes out once.
///
/// To take a descriptor out allocates nothing.
#[derive(Drop)]
pub struct DescriptorQueue {
    /// Those that were passed over, and then those that the core holds.
    descriptors: VecDeque<i32>,
    /// How many were passed over.
    passed: usize,
    /// The token, without its sign, of the first one that the core holds.
    front: u32,
}

impl Model for DescriptorQueue {
    ghost use Rattle.std.specs.Prelude.{◌≤◌, ◌<◌, ◌^◌, take, drop};
    ghost use Rattle.std.specs.VecDeque.{deque_len};
    ghost use Rattle.wl_flat.specs.Descriptors.{Descriptors};

    ghost Value = { Descriptors };

    ghost view = { λ q. record { passed = take q.passed q.descriptors.items; held = drop q.passed q.descriptors.items; front = q.front } };

    ghost invariant = { λ q. (q.passed ≤ deque_len q.descriptors) × (deque_len q.descriptors < 2 ^ 32) };
}

impl DescriptorQueue {
    /// A queue without descriptors. It allocates nothing.
    pub fn new(alloc: Global) -> Self
        ensures { result ≡ record { passed = []; held = []; front = 0 } }
    {
        DescriptorQueue {
            descriptors: VecDeque::new(alloc),
            passed: 0,
            front: 0,
        }
    }

    /// How many descriptors the core holds.
    pub fn held(&self) -> usize
        ensures { result ≡ length self.now.held }
    {
        self.descriptors.len() - self.passed
    }

    /// Puts descriptors in behind the others. Their tokens are the next ones (`next_tokens`).
    ///
    /// The error is `OutOfMemory` if there is no memory for them, or if 2³² or more would be kept. Then nothing is changed.
    pub fn put_in(&mut self, descriptors: &[i32]) -> Result<(), OutOfMemory>
        ensures ok { OnOk result (self.new ≡ put_in self.old descriptors.now) }
        ensures err { OnErr result (self.new ≡ self.old) }
    {
        if descriptors.is_empty() {
            return Ok(());
        }
        if descriptors.len() > u32::MAX as usize - self.descriptors.len() {
            return Err(OutOfMemory);
        }
        append(&mut self.descriptors, descriptors)?;
        Ok(())
    }

    /// Takes the last `count` descriptors back, or all that are held if there are fewer: the core did not take them.
    #[tactic(auto, using(crate::proofs::Queues::passed_of_shorter, crate::proofs::Queues::held_of_shorter))]
    pub fn take_back(&mut self, count: usize)
        ensures { self.new ≡ record self.old { held = take (length self.old.held - count) self.old.held } }
    {
        let left = self.held().saturating_sub(count);
        self.descriptors.truncate(self.passed + left);
    }

    /// The token of the descriptor that is put in next.
    pub fn next_token(&self) -> Token
        ensures { result ≡ token_after self.now (length self.now.held) }
    {
        Token(self.front.wrapping_add(self.held() as u32).cast_signed())
    }

    /// Writes the tokens of the descriptors that are put in next, one for each place.
    pub fn next_tokens(&self, tokens: &mut [Token])
        ensures { tokens.new ≡ next_tokens self.now (length tokens.old) }
    {
        let mut next = self.front.wrapping_add(self.held() as u32);
        for index in 0..tokens.len() {
            tokens[index] = Token(next.cast_signed());
            next = next.wrapping_add(1);
        }
    }

    /// The token, without its sign, of the first descriptor that the core holds, or of the one that is put in next.
    pub fn front(&self) -> u32
        ensures front { result ≡ self.now.front }
        ensures few { length self.now.held < 2 ^ 32 }
    {
        self.front
    }

    /// The held descriptor that has so many before it.
    pub fn held_at(&self, index: usize) -> Option<i32>
        ensures { result ≡ slice_get self.now.held index }
    {
        self.descriptors
            .get(self.passed.saturating_add(index))
            .copied()
    }

    /// How many held descriptors stand before the one of this token. It is as many as are held, or more, if none has the
    /// token.
    fn distance(&self, token: Token) -> u32
        ensures { result ≡ distance self.now token }
    {
        token.0.cast_unsigned().wrapping_sub(self.front)
    }

    /// The descriptor of this token; `None` if the core holds none that has it.
    pub fn descriptor(&self, token: Token) -> Option<i32>
        ensures { result ≡ descriptor_of self.now token }
    {
        let index = self.passed + self.distance(token) as usize;
        self.descriptors.get(index).copied()
    }

    /// Takes the descriptor of this token out. Those that stood before it are passed over. `None` if the core holds none
    /// that has the token; then nothing is changed.
    #[tactic(auto, using(crate::proofs::Queues::passed_of_taken, crate::proofs::Queues::held_of_taken))]
    pub fn take_out(&mut self, token: Token) -> Option<i32>
        ensures descriptor { result ≡ descriptor_of self.old token }
        ensures after { self.new ≡ taken_out self.old token result }
    {
        let distance = self.distance(token) as usize;
        let descriptor = self.descriptors.remove(self.passed + distance)?;
        self.passed += distance;
        self.front = token.0.cast_unsigned().wrapping_add(1);
        Some(descriptor)
    }

    /// Passes over all that are held: the core holds none of them any more.
    pub fn give_up(&mut self)
        ensures { self.new ≡ given_up self.old }
    {
        self.passed = self.descriptors.len();
    }

    /// Passes over those that are held, but for the last `count`: the core holds only these any more.
    #[tactic(auto, using(crate::proofs::Queues::passed_of_last, crate::proofs::Queues::held_of_last))]
    pub fn keep_last(&mut self, count: usize)
        ensures after { self.new ≡ last_held count self.old }
        ensures few { length self.old.held < 2 ^ 32 }
    {
        let dropped = self.held().saturating_sub(count);
        self.passed += dropped;
        self.front = self.front.wrapping_add(dropped as u32);
    }

    /// Takes the next descriptor out that was passed over.
    pub fn next_passed(&mut self) -> Option<i32>
        ensures passed { self.old.passed ≡ option_to_list result ++ self.new.passed }
        ensures held { self.new.held ≡ self.old.held }
        ensures front { self.new.front ≡ self.old.front }
        ensures none { IfNone result (self.old.passed ≡ []) }
    {
        if self.passed == 0 {
            return None;
        }
        self.passed -= 1;
        self.descriptors.pop_front()
    }
}

/// Appends the descriptors. If there is no memory for them, the queue is as it was.
fn append(to: &mut VecDeque<i32>, descriptors: &[i32]) -> Result<(), AllocError>
    ensures ok { OnOk result (to.new.items ≡ to.old.items ++ descriptors.now) }
    ensures err { OnErr result (to.new.items ≡ to.old.items) }
{
    to.reserve(descriptors.len())?;
    for descriptor in descriptors {
        to.push_back_reserved(*descriptor);
    }
    Ok(())
}
