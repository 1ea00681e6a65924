//! A transport whose answers are given beforehand, as a *script*, for programs and tests that have no other transport.

ghost use Rattle.std.specs.Prelude.{◌≡◌, ◌<◌, ◌≤◌, ◌+◌, ◌++◌, ◌∷◌, [], ◌↔◌, length, drop, map, Ok, Err, IfOk, OnOk, OnErr};
ghost use Rattle.wl_link.specs.Script.{parcel, count_taken};

use crate::parcel::Parcel;
use crate::transport::{MAX_FDS_OUT, Transport};
use std::alloc::Global;
use std::collections::VecDeque;
use std::marker::Model;
use std::{fmt, mem};
use thiserror::Error;
use wl_wire::{IoFault, OutOfMemory, Token};

/// Why an arrival was not added to a script.
#[derive(Clone, Copy, Debug, PartialEq, Eq, Error)]
pub enum ArriveError {
    /// There are more than 28 tokens with the bytes.
    #[error("more than 28 tokens in one chunk")]
    TooManyTokens,
    /// There was no memory for the arrival.
    #[error("out of memory")]
    OutOfMemory,
}

/// The transport by script: its answers are given beforehand.
///
/// A script has two queues. Each *arrival* is a chunk of bytes with tokens, or a fault, which a receive will give. Each
/// *send answer* is a count of bytes, or a fault, which a send will give. A third list records what was sent.
///
/// - A receive of a chunk gives as many of its bytes as fit into the buffer, with all its tokens. The other bytes stay
///   first in the queue. If no arrival is left, a receive returns `WouldBlock`. If the buffer has no bytes, it returns 0
///   and changes nothing.
/// - A send uses up the first send answer. If none is left, it takes all that it is offered.
/// - If there is no memory for the tokens of a receive, or for the record of a send, the call returns `OutOfMemory` and
///   changes nothing.
#[derive(Drop)]
pub struct Memory {
    arrivals: VecDeque<Result<Parcel, IoFault>>,
    answers: VecDeque<Result<usize, IoFault>>,
    sent: Vec<(Vec<u8>, Vec<Token>)>,
}

impl fmt::Debug for Memory {
    fn fmt<W: fmt::Write>(&self, f: &mut fmt::Formatter<W>) -> fmt::Result {
        f.write_str("Memory { .. }")
    }
}

impl Model for Memory {
    ghost use Rattle.std.specs.Prelude.{map};
    ghost use Rattle.wl_link.specs.Script.{Script, parcel};

    ghost Value = { Script };

    ghost view = { λ m. record { arrivals = m.arrivals.items; answers = m.answers.items; sent = map parcel m.sent.items } };
}

impl Memory {
    /// A transport with an empty script. It allocates nothing.
    pub fn new(alloc: Global) -> Self
        ensures { result ≡ record { arrivals = []; answers = []; sent = [] } }
    {
        Memory {
            arrivals: VecDeque::new(alloc),
            answers: VecDeque::new(alloc),
            sent: Vec::new(alloc),
        }
    }

    /// Appends a chunk to the arrivals.
    ///
    /// The error is `TooManyTokens` if there are more than 28 tokens, and else `OutOfMemory`. After an error the script is
    /// as it was, and the chunk is dropped.
    pub fn arrive(&mut self, bytes: Vec<u8>, tokens: Vec<Token>) -> Result<(), ArriveError>
        ensures ok { OnOk result (self.new ≡ record self.old {
          arrivals = self.old.arrivals ++ Ok (record { bytes = bytes.items; tokens = tokens.items }) ∷ [];
        }) }
        ensures too_many { (result ≡ Err ArriveError.TooManyTokens) ↔ (28 < length tokens.items) }
        ensures err { OnErr result (self.new ≡ self.old) }
    {
        if tokens.len() > MAX_FDS_OUT {
            return Err(ArriveError::TooManyTokens);
        }
        match self.arrivals.push_back(Ok(Parcel::new(bytes, tokens))) {
            Ok(()) => Ok(()),
            Err(_) => Err(ArriveError::OutOfMemory),
        }
    }

    /// Appends a fault to the arrivals: a receive will return it.
    ///
    /// The error is `OutOfMemory`. After it the script is as it was.
    pub fn arrive_fault(&mut self, fault: IoFault) -> Result<(), OutOfMemory>
        ensures ok { OnOk result (self.new ≡ record self.old { arrivals = self.old.arrivals ++ Err fault ∷ [] }) }
        ensures err { OnErr result (self.new ≡ self.old) }
    {
        self.arrivals.push_back(Err(fault))?;
        Ok(())
    }

    /// Appends a count to the send answers: a send will take that many bytes, or all if it is offered fewer.
    ///
    /// The error is `OutOfMemory`. After it the script is as it was.
    pub fn accept(&mut self, count: usize) -> Result<(), OutOfMemory>
        ensures ok { OnOk result (self.new ≡ record self.old { answers = self.old.answers ++ Ok count ∷ [] }) }
        ensures err { OnErr result (self.new ≡ self.old) }
    {
        self.answers.push_back(Ok(count))?;
        Ok(())
    }

    /// Appends a fault to the send answers: a send will return it.
    ///
    /// The error is `OutOfMemory`. After it the script is as it was.
    pub fn accept_fault(&mut self, fault: IoFault) -> Result<(), OutOfMemory>
        ensures ok { OnOk result (self.new ≡ record self.old { answers = self.old.answers ++ Err fault ∷ [] }) }
        ensures err { OnErr result (self.new ≡ self.old) }
    {
        self.answers.push_back(Err(fault))?;
        Ok(())
    }

    /// How many arrivals are left. A chunk of which only a part was received counts as one.
    pub fn arrivals_left(&self) -> usize
        ensures { result ≡ length self.now.arrivals }
    {
        self.arrivals.len()
    }

    /// What was sent: the bytes and tokens of each send that took something, the oldest first.
    pub fn sent(&self) -> &[(Vec<u8>, Vec<Token>)]
        ensures { map parcel result.now ≡ self.now.sent }
    {
        self.sent.as_slice()
    }

    /// Takes the record of what was sent, and leaves an empty one. It allocates nothing.
    pub fn take_sent(&mut self) -> Vec<(Vec<u8>, Vec<Token>)>
        ensures taken { map parcel result.items ≡ self.old.sent }
        ensures rest { self.new ≡ record self.old { sent = [] } }
    {
        let alloc = *self.sent.allocator();
        mem::replace(&mut self.sent, Vec::new(alloc))
    }

    /// How many bytes the next send takes of `offered` bytes. The error is the fault that the script gives it.
    fn next_count(&self, offered: usize) -> Result<usize, IoFault>
        ensures count { result ≡ count_taken self.now.answers offered }
        ensures within { IfOk result (λ n. n ≤ offered) }
    {
        match self.answers.front() {
            None => Ok(offered),
            Some(Ok(count)) => Ok(offered.min(*count)),
            Some(Err(fault)) => Err(*fault),
        }
    }

    /// Records what a send took. If there is no memory for it, nothing is recorded.
    fn record(&mut self, bytes: &[u8], tokens: &[Token]) -> Result<(), OutOfMemory>
        ensures ok { OnOk result (self.new ≡ record self.old {
          sent = self.old.sent ++ record { bytes = bytes.now; tokens = tokens.now } ∷ [];
        }) }
        ensures err { OnErr result (self.new ≡ self.old) }
    {
        let alloc = *self.sent.allocator();
        let bytes = Vec::from_slice(alloc, bytes)?;
        let tokens = Vec::from_slice(alloc, tokens)?;
        self.sent.push((bytes, tokens))?;
        Ok(())
    }
}

impl Transport for Memory {
    ghost use Rattle.std.specs.VecDeque.{deque_len, deque_capacity};
    ghost use Rattle.wl_link.specs.Exchange.{Lands, receipt};
    ghost use Rattle.wl_link.specs.Script.{ScriptSends, ScriptReceives, script_gives};
    ghost use Rattle.wl_link.specs.ScriptLaws.{script_within_offer, script_within_room, script_few_tokens};

    ghost sends = { ScriptSends };

    ghost receives = { ScriptReceives };

    fn send_msg(&mut self, bytes: &[u8], tokens: &[Token]) -> Result<usize, IoFault> {
        match self.next_count(bytes.len()) {
            Err(fault) => {
                self.answers.pop_front();
                Err(fault)
            }
            Ok(0) => {
                self.answers.pop_front();
                Ok(0)
            }
            Ok(count) => {
                let Ok(()) = self.record(&bytes[..count], tokens) else {
                    return Err(IoFault::OutOfMemory);
                };
                self.answers.pop_front();
                Ok(count)
            }
        }
    }

    fn rcv_msg(&mut self, buffer: &mut [u8], tokens: &mut VecDeque<Token>) -> Result<usize, IoFault>
        ensures received { ScriptReceives self.old (length buffer.old)
            (receipt result buffer.new tokens.old.items tokens.new.items) self.new }
        ensures lands { Lands result buffer.old tokens.old.items buffer.new tokens.new.items }
        ensures capacity { deque_capacity tokens.old ≤ deque_capacity tokens.new }

        // The rest of the buffer stays as it was. If the queue has the capacity for 28 more tokens, no memory is needed.
        ensures rest { IfOk result (λ n. drop n buffer.new ≡ drop n buffer.old) }
        ensures room { deque_len tokens.old + 28 ≤ deque_capacity tokens.old
            → receipt result buffer.new tokens.old.items tokens.new.items ≡ script_gives self.old (length buffer.old) }
    {
        if buffer.is_empty() {
            return Ok(0);
        }
        if self.arrivals.is_empty() {
            return Err(IoFault::WouldBlock);
        }
        match &mut self.arrivals[0] {
            Err(fault) => {
                let fault = *fault;
                self.arrivals.pop_front();
                Err(fault)
            }
            Ok(parcel) => {
                let Ok(count) = parcel.give(buffer, tokens) else {
                    return Err(IoFault::OutOfMemory);
                };
                if parcel.is_empty() {
                    self.arrivals.pop_front();
                }
                Ok(count)
            }
        }
    }

    ghost within_offer = { script_within_offer };

    ghost within_room = { script_within_room };

    ghost few_tokens = { script_few_tokens };
}
