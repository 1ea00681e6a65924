//! A handler of globals and a transport that count their drops.

ghost use Rattle.std.specs.Prelude.{◌≤◌, IfOk, length};

use std::collections::VecDeque;
use test_kit::counted::Counted;
use wl_link::Transport;
use wl_server::{ClientId, GlobalHandler, GlobalId};
use wl_wire::{IoFault, Token};

/// A handler that shows its global to each client, and counts its drop.
#[derive(Drop)]
pub struct Offered<'a>(pub Counted<'a>);

impl<'a> GlobalHandler<Counted<'a>> for Offered<'a> {
    ghost use Rattle.std.specs.Prelude.{true};

    ghost views = { λ _ _ _ _. true };

    fn can_view(&self, _client: &ClientId, _client_data: &Counted<'a>, _global: &GlobalId) -> bool {
        true
    }
}

/// A transport that gives these bytes, takes all that it is sent, and counts its drop. It carries no descriptors.
#[derive(Drop)]
pub struct Line<'a> {
    from_client: &'a [u8],
    counted: Counted<'a>,
}

impl<'a> Line<'a> {
    /// A transport over which these bytes come, and whose drop counts as this value's.
    pub fn new(from_client: &'a [u8], counted: Counted<'a>) -> Self {
        Line {
            from_client,
            counted,
        }
    }
}

impl<'a> Transport for Line<'a> {
    ghost sends = { λ before offer answer after. IfOk answer (λ n. n ≤ length offer.bytes) };

    ghost receives = { λ before room answer after.
        IfOk answer (λ came. (length came.bytes ≤ room) × (length came.tokens ≤ 28)) };

    fn send_msg(&mut self, bytes: &[u8], _tokens: &[Token]) -> Result<usize, IoFault> {
        Ok(bytes.len())
    }

    fn rcv_msg(
        &mut self,
        buffer: &mut [u8],
        _tokens: &mut VecDeque<Token>,
    ) -> Result<usize, IoFault> {
        if buffer.is_empty() {
            return Ok(0);
        }
        if self.from_client.is_empty() {
            return Err(IoFault::WouldBlock);
        }
        let count = buffer.len().min(self.from_client.len());
        let (now, later) = self.from_client.split_at(count);
        buffer[..count].copy_from_slice(now);
        self.from_client = later;
        Ok(count)
    }

    ghost within_offer = { λ before after offer n sent. sent };

    ghost within_room = { λ before after room came received. received.0 };

    ghost few_tokens = { λ before after room came received. received.1 };
}
