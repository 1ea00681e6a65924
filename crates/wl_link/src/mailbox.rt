//! A transport for a program that receives and sends by itself, the *host*: the host puts in what it received, and takes out
//! what it is to send.

ghost use Rattle.std.specs.Prelude.{◌≡◌, ◌≢◌, ◌≤◌, ◌<◌, ◌+◌, ◌↔◌, None, Some, length, drop, OnOk, OnErr, IfOk, Err};
ghost use Rattle.wl_link.specs.Exchange.{joined, nothing};
ghost use Rattle.wl_link.specs.Mailbox.{behind, mailbox_answer};
ghost use Rattle.wl_link.specs.declared.mailbox.Ending.TheVariants as ending;

use crate::parcel::Parcel;
use crate::transport::{MAX_FDS_OUT, Transport};
use std::alloc::Global;
use std::collections::VecDeque;
use std::marker::Model;
use thiserror::Error;
use wl_wire::{IoFault, Token};

/// Why a mailbox did not take in what the host received.
#[derive(Clone, Copy, Debug, PartialEq, Eq, Error)]
pub enum MailboxError {
    /// With those that were not received yet there would be more than 28 tokens.
    #[error("more than 28 tokens wait")]
    TooManyTokens,
    /// There was no memory for the bytes and the tokens.
    #[error("out of memory")]
    OutOfMemory,
}

/// What comes after the bytes that arrived.
#[derive(Clone, Copy, Debug, PartialEq, Eq)]
pub enum Ending {
    /// More may arrive: a receive returns `WouldBlock` until then.
    Open,
    /// The end of the stream: a receive returns 0.
    Ended,
    /// A fault: a receive returns it.
    Failed(IoFault),
}

/// The transport by mailbox. Another part of the program, the *host*, receives and sends: it owns the socket.
///
/// The host puts in what it received (`arrive`), and what comes after that (`end`). It looks at what is to be sent (`bytes`,
/// `tokens`), sends it, and says how much it sent (`sent`). At most 28 tokens wait on each side, so that one `recvmsg` or
/// `sendmsg` carries all of them.
///
/// - A receive gives as many of the bytes that arrived as fit into the buffer, and all tokens with the first of them. If no
///   byte is left, it returns what comes after them: `WouldBlock`, 0 or a fault. That stays, as it does in a socket; tokens
///   that arrived without bytes stay too. If the buffer has no bytes, a receive returns 0 and changes nothing.
/// - A send takes all that it is offered, or nothing. It returns `WouldBlock` as long as `room` bytes or more wait to be sent,
///   or if more than 28 tokens would wait. If the host said that sends fail (`fail_sends`), it returns that fault. A send of
///   no bytes loses no tokens: they wait for the next bytes.
/// - If there is no memory for what a call would take or give, it returns `OutOfMemory` and changes nothing.
///
/// Each side keeps its memory, so that in the long run its calls ask for none.
#[derive(Debug, Drop)]
pub struct Mailbox {
    arrived: Parcel,
    ending: Ending,
    waiting: Parcel,
    room: usize,
    send_fault: Option<IoFault>,
}

impl Model for Mailbox {
    ghost use Rattle.wl_link.specs.Mailbox.{MailboxState};

    ghost Value = { MailboxState };

    ghost view = { λ m. record { arrived = m.arrived; ending = m.ending; waiting = m.waiting; room = m.room; send_fault = m.send_fault } };
}

impl Mailbox {
    /// An empty mailbox, whose room for bytes to be sent has no limit (`usize::MAX`). It allocates nothing.
    pub fn new(alloc: Global) -> Self
        ensures { result ≡ record { arrived = nothing; ending = ending.Open; waiting = nothing; room = 18446744073709551615; send_fault = None } }
    {
        Mailbox {
            arrived: Parcel::new(Vec::new(alloc), Vec::new(alloc)),
            ending: Ending::Open,
            waiting: Parcel::new(Vec::new(alloc), Vec::new(alloc)),
            room: usize::MAX,
            send_fault: None,
        }
    }

    /// Puts in bytes that the host received, and the tokens that came with them.
    ///
    /// The error is `TooManyTokens` if more than 28 tokens would wait to be received, and else `OutOfMemory`. After an error
    /// the mailbox is as it was.
    pub fn arrive(&mut self, bytes: &[u8], tokens: &[Token]) -> Result<(), MailboxError>
        ensures ok { OnOk result (self.new ≡ record self.old {
          arrived = joined self.old.arrived (record { bytes = bytes.now; tokens = tokens.now });
        }) }
        ensures too_many { (result ≡ Err MailboxError.TooManyTokens) ↔ (28 < length self.old.arrived.tokens + length tokens.now) }
        ensures memory { result ≡ Err MailboxError.OutOfMemory → record { bytes = bytes.now; tokens = tokens.now } ≢ nothing }
        ensures err { OnErr result (self.new ≡ self.old) }
    {
        if tokens.len() > MAX_FDS_OUT - self.arrived.tokens().len() {
            return Err(MailboxError::TooManyTokens);
        }
        match self.arrived.append(bytes, tokens) {
            Ok(()) => Ok(()),
            Err(_) => Err(MailboxError::OutOfMemory),
        }
    }

    /// Says what comes after the bytes that arrived, and after those that arrive from now on.
    pub fn end(&mut self, ending: Ending)
        ensures { self.new ≡ record self.old { ending = ending } }
    {
        self.ending = ending;
    }

    /// What comes after the bytes that arrived.
    pub fn ending(&self) -> Ending
        ensures { result ≡ self.now.ending }
    {
        self.ending
    }

    /// How many of the bytes that arrived were not received yet.
    pub fn bytes_left(&self) -> usize
        ensures { result ≡ length self.now.arrived.bytes }
    {
        self.arrived.bytes().len()
    }

    /// The tokens that arrived and were not received yet. They are at most 28.
    pub fn tokens_left(&self) -> &[Token]
        ensures tokens { result.now ≡ self.now.arrived.tokens }
        ensures few { length result.now ≤ 28 }
    {
        self.arrived.tokens()
    }

    /// The bytes that are to be sent.
    pub fn bytes(&self) -> &[u8]
        ensures { result.now ≡ self.now.waiting.bytes }
    {
        self.waiting.bytes()
    }

    /// The tokens that are to be sent with the first of the bytes. They are at most 28.
    pub fn tokens(&self) -> &[Token]
        ensures tokens { result.now ≡ self.now.waiting.tokens }
        ensures few { length result.now ≤ 28 }
    {
        self.waiting.tokens()
    }

    /// Takes out what the host sent: `count` of the bytes, or all if there are fewer. If the count is above 0, all the tokens
    /// were sent too.
    pub fn sent(&mut self, count: usize)
        ensures { self.new ≡ record self.old { waiting = behind count self.old.waiting } }
    {
        self.waiting.take_off(count);
    }

    /// Sets the room: from now on a send returns `WouldBlock` as long as so many bytes or more wait to be sent. With a room of
    /// 0 each send does.
    ///
    /// As a link offers up to 4096 bytes in a send, up to 4095 bytes more than the room may wait.
    pub fn set_room(&mut self, room: usize)
        ensures { self.new ≡ record self.old { room = room } }
    {
        self.room = room;
    }

    /// Says that sends fail: from now on each send returns this fault. What waits to be sent stays.
    pub fn fail_sends(&mut self, fault: IoFault)
        ensures { self.new ≡ record self.old { send_fault = Some fault } }
    {
        self.send_fault = Some(fault);
    }

    /// What a send of so many bytes with so many tokens answers, if there is memory.
    fn answer(&self, bytes: &[u8], tokens: &[Token]) -> Result<usize, IoFault>
        ensures answer { result ≡ mailbox_answer self.now (record { bytes = bytes.now; tokens = tokens.now }) }
        ensures few { IfOk result (λ n. length self.now.waiting.tokens + length tokens.now ≤ 28) }
    {
        if let Some(fault) = self.send_fault {
            return Err(fault);
        }
        if self.waiting.bytes().len() >= self.room
            || tokens.len() > MAX_FDS_OUT - self.waiting.tokens().len()
        {
            return Err(IoFault::WouldBlock);
        }
        Ok(bytes.len())
    }
}

impl Transport for Mailbox {
    ghost use Rattle.std.specs.VecDeque.{deque_len, deque_capacity};
    ghost use Rattle.wl_link.specs.Exchange.{Lands, receipt};
    ghost use Rattle.wl_link.specs.Mailbox.{MailboxSends, MailboxReceives, mailbox_gives};
    ghost use Rattle.wl_link.specs.MailboxLaws.{mailbox_within_offer, mailbox_within_room, mailbox_few_tokens};

    ghost sends = { MailboxSends };

    ghost receives = { MailboxReceives };

    fn send_msg(&mut self, bytes: &[u8], tokens: &[Token]) -> Result<usize, IoFault> {
        let count = self.answer(bytes, tokens)?;
        let Ok(()) = self.waiting.append(bytes, tokens) else {
            return Err(IoFault::OutOfMemory);
        };
        Ok(count)
    }

    fn rcv_msg(&mut self, buffer: &mut [u8], tokens: &mut VecDeque<Token>) -> Result<usize, IoFault>
        ensures received { MailboxReceives self.old (length buffer.old)
            (receipt result buffer.new tokens.old.items tokens.new.items) self.new }
        ensures lands { Lands result buffer.old tokens.old.items buffer.new tokens.new.items }
        ensures capacity { deque_capacity tokens.old ≤ deque_capacity tokens.new }

        // The rest of the buffer stays as it was. If the queue has the capacity for 28 more tokens, no memory is needed.
        ensures rest { IfOk result (λ n. drop n buffer.new ≡ drop n buffer.old) }
        ensures room { deque_len tokens.old + 28 ≤ deque_capacity tokens.old
            → receipt result buffer.new tokens.old.items tokens.new.items ≡ mailbox_gives self.old (length buffer.old) }
    {
        if buffer.is_empty() {
            return Ok(0);
        }
        if self.arrived.is_empty() {
            return match self.ending {
                Ending::Open => Err(IoFault::WouldBlock),
                Ending::Ended => Ok(0),
                Ending::Failed(fault) => Err(fault),
            };
        }
        let Ok(count) = self.arrived.give(buffer, tokens) else {
            return Err(IoFault::OutOfMemory);
        };
        Ok(count)
    }

    ghost within_offer = { mailbox_within_offer };

    ghost within_room = { mailbox_within_room };

    ghost few_tokens = { mailbox_few_tokens };
}
