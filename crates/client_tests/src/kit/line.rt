//! A transport that counts its drop.

ghost use Rattle.std.specs.Prelude.{◌≤◌, IfOk, length};

use std::collections::VecDeque;
use test_kit::counted::Counted;
use wl_link::Transport;
use wl_wire::{IoFault, Token};

/// A transport that gives these bytes, takes all that it is sent, and counts its drop. It carries no descriptors.
#[derive(Drop)]
pub struct Line<'a> {
    from_server: &'a [u8],
    counted: Counted<'a>,
}

impl<'a> Line<'a> {
    /// A transport over which these bytes come, and whose drop counts as this value's.
    pub fn new(from_server: &'a [u8], counted: Counted<'a>) -> Self {
        Line {
            from_server,
            counted,
        }
    }
}

impl<'a> Transport for Line<'a> {
    ghost sends = { λ before offer answer after. IfOk answer (λ n. n ≤ length offer.bytes) };

    ghost receives = { λ before room answer after.
        IfOk answer (λ came. (length came.bytes ≤ room) × (length came.tokens ≤ 28)) };

    fn send_msg(&mut self, bytes: &[u8], _tokens: &[Token]) -> Result<usize, IoFault> {
        Ok(bytes.len())
    }

    fn rcv_msg(
        &mut self,
        buffer: &mut [u8],
        _tokens: &mut VecDeque<Token>,
    ) -> Result<usize, IoFault> {
        if buffer.is_empty() {
            return Ok(0);
        }
        if self.from_server.is_empty() {
            return Err(IoFault::WouldBlock);
        }
        let count = buffer.len().min(self.from_server.len());
        let (now, later) = self.from_server.split_at(count);
        buffer[..count].copy_from_slice(now);
        self.from_server = later;
        Ok(count)
    }

    ghost within_offer = { λ before after offer n sent. sent };

    ghost within_room = { λ before after room came received. received.0 };

    ghost few_tokens = { λ before after room came received. received.1 };
}
