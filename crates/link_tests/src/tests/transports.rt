//! Transports of the tests' own, and what tests ask of a transport beside sends and receives.

ghost use Rattle.std.specs.Prelude.{◌≡◌, length, min, Ok, Err};

use std::alloc::Global;
use std::collections::VecDeque;
use std::test::Fail;
use wl_link::{Mailbox, Memory, Transport};
use wl_wire::{IoFault, Token};

/// A transport that may record what is sent over it. Here it records nothing.
pub trait Record {
    /// What each send that took something took, the oldest first.
    fn sends(&self) -> &[(Vec<u8>, Vec<Token>)] {
        &[]
    }

    /// The record, which is empty from then on.
    fn take_sends(&mut self, alloc: Global) -> Result<Vec<(Vec<u8>, Vec<Token>)>, Fail> {
        Ok(Vec::new(alloc))
    }
}

impl Record for Memory {
    fn sends(&self) -> &[(Vec<u8>, Vec<Token>)] {
        self.sent()
    }

    fn take_sends(&mut self, _alloc: Global) -> Result<Vec<(Vec<u8>, Vec<Token>)>, Fail> {
        Ok(self.take_sent())
    }
}

impl Record for Mailbox {
    /// What waits to be sent, which is sent by that: as one send.
    fn take_sends(&mut self, alloc: Global) -> Result<Vec<(Vec<u8>, Vec<Token>)>, Fail> {
        let bytes = Vec::from_slice(alloc, self.bytes())?;
        let tokens = Vec::from_slice(alloc, self.tokens())?;
        self.sent(bytes.len());
        let mut sends = Vec::new(alloc);
        sends.push((bytes, tokens))?;
        Ok(sends)
    }
}

/// Refuses each send and each receive.
#[derive(Drop)]
pub struct Refusing;

impl Transport for Refusing {
    ghost use Rattle.wl_wire.specs.declared.error.IoFault.TheVariants as fault;
    ghost use Rattle.std.proofs.Common.{rules};

    ghost sends = { λ before offer answer after. answer ≡ Err fault.Pipe };

    ghost receives = { λ before room answer after. answer ≡ Err fault.Pipe };

    fn send_msg(&mut self, _bytes: &[u8], _tokens: &[Token]) -> Result<usize, IoFault> {
        Err(IoFault::Pipe)
    }

    fn rcv_msg(
        &mut self,
        _buffer: &mut [u8],
        _tokens: &mut VecDeque<Token>,
    ) -> Result<usize, IoFault> {
        Err(IoFault::Pipe)
    }

    ghost within_offer = { λ before after offer n sent. Prim.search rules };

    ghost within_room = { λ before after room came received. Prim.search rules };

    ghost few_tokens = { λ before after room came received. Prim.search rules };
}

impl Record for Refusing {}

/// Takes one byte of each send, with its tokens, and gives nothing.
#[derive(Drop)]
pub struct OneByte;

impl Transport for OneByte {
    ghost use Rattle.wl_wire.specs.declared.error.IoFault.TheVariants as fault;
    ghost use Rattle.std.proofs.Common.{rules};

    ghost sends = { λ before offer answer after. answer ≡ Ok (min 1 (length offer.bytes)) };

    ghost receives = { λ before room answer after. answer ≡ Err fault.WouldBlock };

    fn send_msg(&mut self, bytes: &[u8], _tokens: &[Token]) -> Result<usize, IoFault> {
        Ok(bytes.len().min(1))
    }

    fn rcv_msg(
        &mut self,
        _buffer: &mut [u8],
        _tokens: &mut VecDeque<Token>,
    ) -> Result<usize, IoFault> {
        Err(IoFault::WouldBlock)
    }

    ghost within_offer = { λ before after offer n sent. Prim.search rules };

    ghost within_room = { λ before after room came received. Prim.search rules };

    ghost few_tokens = { λ before after room came received. Prim.search rules };
}

impl Record for OneByte {}

/// Takes nothing. A receive gives one byte and one token, if the queue has room for all the tokens that a receive may
/// give, and is refused if it has not.
#[derive(Drop)]
pub struct WantsRoom;

impl Transport for WantsRoom {
    ghost use Rattle.std.specs.Prelude.{◌≤◌, length, IfOk, IsErr};
    ghost use Rattle.std.proofs.Common.{rules};

    ghost sends = { λ before offer answer after. IsErr answer };

    ghost receives = { λ before room answer after.
        IfOk answer (λ came. (length came.bytes ≤ room) × (length came.tokens ≤ 28)) };

    fn send_msg(&mut self, _bytes: &[u8], _tokens: &[Token]) -> Result<usize, IoFault> {
        Err(IoFault::WouldBlock)
    }

    fn rcv_msg(
        &mut self,
        buffer: &mut [u8],
        tokens: &mut VecDeque<Token>,
    ) -> Result<usize, IoFault> {
        if buffer.is_empty() || tokens.capacity() - tokens.len() < 28 {
            return Err(IoFault::InvalidInput);
        }
        tokens.push_back_reserved(Token(1));
        Ok(1)
    }

    ghost within_offer = { λ before after offer n sent. Prim.search rules };

    ghost within_room = { λ before after room came received. received.0 };

    ghost few_tokens = { λ before after room came received. received.1 };
}

impl Record for WantsRoom {}
