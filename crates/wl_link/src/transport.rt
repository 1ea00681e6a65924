//! What carries bytes and tokens to the peer. A *token* is a number that stands for a file descriptor.

ghost use Rattle.std.specs.Prelude.{ℕ, ◌≤◌, length, Result, Ok};
ghost use Rattle.std.specs.VecDeque.{deque_capacity};
ghost use Rattle.wl_wire.specs.declared.error.IoFault.{IoFault};
ghost use Rattle.wl_link.specs.Exchange.{Queue, Lands, receipt};

use std::collections::VecDeque;
use wl_wire::{IoFault, Token};

/// The most tokens that one send is offered, and the most that one receive may give.
pub const MAX_FDS_OUT: usize = 28;

/// The most bytes that one send is offered.
pub const MAX_BYTES_OUT: usize = 4096;

/// A transport of bytes, with tokens beside them.
///
/// An implementation says by two relations what its calls do, and contracts use these. `sends` relates the transport before
/// the call, the bytes and tokens that are offered, the answer, and the transport after the call. `receives` relates the
/// transport before, the room for bytes, what came, and the transport after.
pub trait Transport {
    ghost sends: { Self → Queue → Result ℕ IoFault → Self → Type 0 };

    ghost receives: { Self → ℕ → Result Queue IoFault → Self → Type 0 };

    /// Offers the bytes, with the tokens, to the other side. Returns how many of the bytes were taken.
    ///
    /// If the count is above 0, all the tokens were taken too. A flush ends after a count of 0, and the tokens that it
    /// offered are lost. The error is the transport's fault: `WouldBlock` if nothing can be sent now.
    fn send_msg(&mut self, bytes: &[u8], tokens: &[Token]) -> Result<usize, IoFault>
        ensures { sends self.old (record { bytes = bytes.now; tokens = tokens.now }) result self.new };

    /// Receives into the front of the buffer. Returns how many bytes came. The tokens that came, at most 28, are appended
    /// to the queue.
    ///
    /// 0 bytes are the end of the stream, unless the buffer has no bytes. The error is the transport's fault: `WouldBlock`
    /// if nothing can be received now. After an error the buffer and the queue are as they were.
    ///
    /// The queue never loses capacity. So an implementation appends to the queue that it is lent, and puts no other in its
    /// place.
    fn rcv_msg(&mut self, buffer: &mut [u8], tokens: &mut VecDeque<Token>) -> Result<usize, IoFault>
        ensures received { receives self.old (length buffer.old)
            (receipt result buffer.new tokens.old.items tokens.new.items) self.new }
        ensures lands { Lands result buffer.old tokens.old.items buffer.new tokens.new.items }
        ensures capacity { deque_capacity tokens.old ≤ deque_capacity tokens.new };

    // No more is taken than was offered.
    ghost within_offer: { (before after : Self) (offer : Queue) (n : ℕ) →
        sends before offer (Ok n) after → n ≤ length offer.bytes };

    // No more bytes come than there is room for, and at most 28 tokens.
    ghost within_room: { (before after : Self) (room : ℕ) (came : Queue) →
        receives before room (Ok came) after → length came.bytes ≤ room };

    ghost few_tokens: { (before after : Self) (room : ℕ) (came : Queue) →
        receives before room (Ok came) after → length came.tokens ≤ 28 };
}
