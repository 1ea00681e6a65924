//! Handlers of the dispatches.

use server_test_kit::values::Shown;
use smallvec::SmallVec;
use std::alloc::{AllocError, Global};
use test_kit::quad::QUAD;
use wl_link::Memory;
use wl_server::{Backend, ClientId, DisconnectReason, GlobalId, Handler, ObjectId};
use wl_wire::{Argument, INLINE_ARGS, Message, Token};

/// Answers its number if there is a new object, and makes no call.
#[derive(Drop)]
pub struct Numbering(pub u32);

impl Handler<Memory, u32, Shown, bool> for Numbering {
    ghost use Rattle.std.specs.Prelude.{◌≡◌, Some, MatchOption, None};

    ghost requests = { λ h b id sender opcode args created u h' b'. MatchOption created (u ≡ None) (λ _. u ≡ Some h.0) × (h' ≡ h) × (b' ≡ b) };

    ghost binds = { λ h b id global object u h' b'. (u ≡ h.0) × (h' ≡ h) × (b' ≡ b) };

    fn request(
        &mut self,
        _backend: &mut Backend<Memory, u32, Shown, bool>,
        _client: &ClientId,
        _sender: ObjectId,
        _opcode: u16,
        _args: SmallVec<Argument<ObjectId, Token>, INLINE_ARGS>,
        created: Option<ObjectId>,
    ) -> Option<u32> {
        match created {
            Some(_) => Some(self.0),
            None => None,
        }
    }

    fn bind(
        &mut self,
        _backend: &mut Backend<Memory, u32, Shown, bool>,
        _client: &ClientId,
        _global: GlobalId,
        _object: ObjectId,
    ) -> u32 {
        self.0
    }
}

/// Sums the integers of the requests that it is lent. A request that is not lent counts as 1000. It makes no call.
#[derive(Drop)]
pub struct Summing(pub i32);

impl Handler<Memory, u32, Shown, bool> for Summing {
    ghost use Rattle.std.specs.Prelude.{◌≡◌, None};

    ghost requests = { λ h b id sender opcode args created u h' b'. (u ≡ None) × (b' ≡ b) };

    ghost binds = { λ h b id global object u h' b'. (u ≡ 4) × (h' ≡ h) × (b' ≡ b) };

    fn request(
        &mut self,
        _backend: &mut Backend<Memory, u32, Shown, bool>,
        _client: &ClientId,
        _sender: ObjectId,
        _opcode: u16,
        _args: SmallVec<Argument<ObjectId, Token>, INLINE_ARGS>,
        _created: Option<ObjectId>,
    ) -> Option<u32> {
        self.0 = self.0.wrapping_add(1000);
        None
    }

    fn request_lent(
        &mut self,
        _backend: &mut Backend<Memory, u32, Shown, bool>,
        _client: &ClientId,
        _sender: ObjectId,
        _opcode: u16,
        args: &mut SmallVec<Argument<ObjectId, Token>, INLINE_ARGS>,
        _created: Option<ObjectId>,
    ) -> Option<u32> {
        for arg in args.as_slice() {
            if let Argument::Int(value) = arg {
                self.0 = self.0.wrapping_add(*value);
            }
        }
        None
    }

    fn bind(
        &mut self,
        _backend: &mut Backend<Memory, u32, Shown, bool>,
        _client: &ClientId,
        _global: GlobalId,
        _object: ObjectId,
    ) -> u32 {
        4
    }
}

/// Kills the client that binds, as closed, and answers its number to the bind.
#[derive(Drop)]
pub struct Killing(pub u32);

impl Handler<Memory, u32, Shown, bool> for Killing {
    ghost use Rattle.std.specs.Prelude.{◌≡◌, None};

    ghost requests = { λ h b id sender opcode args created u h' b'. (u ≡ None) × (h' ≡ h) × (b' ≡ b) };

    ghost binds = { λ h b id global object u h' b'. (u ≡ h.0) × (h' ≡ h) };

    fn request(
        &mut self,
        _backend: &mut Backend<Memory, u32, Shown, bool>,
        _client: &ClientId,
        _sender: ObjectId,
        _opcode: u16,
        _args: SmallVec<Argument<ObjectId, Token>, INLINE_ARGS>,
        _created: Option<ObjectId>,
    ) -> Option<u32> {
        None
    }

    fn bind(
        &mut self,
        backend: &mut Backend<Memory, u32, Shown, bool>,
        client: &ClientId,
        _global: GlobalId,
        _object: ObjectId,
    ) -> u32 {
        backend.kill_client(client, DisconnectReason::ConnectionClosed);
        self.0
    }
}

/// Answers as it should not: with its number if a request made no object, and with nothing if it made one.
#[derive(Drop)]
pub struct Contrary(pub u32);

impl Handler<Memory, u32, Shown, bool> for Contrary {
    ghost use Rattle.std.specs.Prelude.{◌≡◌, Some, MatchOption, None};

    ghost requests = { λ h b id sender opcode args created u h' b'. MatchOption created (u ≡ Some h.0) (λ _. u ≡ None) × (h' ≡ h) × (b' ≡ b) };

    ghost binds = { λ h b id global object u h' b'. (u ≡ h.0) × (h' ≡ h) × (b' ≡ b) };

    fn request(
        &mut self,
        _backend: &mut Backend<Memory, u32, Shown, bool>,
        _client: &ClientId,
        _sender: ObjectId,
        _opcode: u16,
        _args: SmallVec<Argument<ObjectId, Token>, INLINE_ARGS>,
        created: Option<ObjectId>,
    ) -> Option<u32> {
        match created {
            Some(_) => None,
            None => Some(self.0),
        }
    }

    fn bind(
        &mut self,
        _backend: &mut Backend<Memory, u32, Shown, bool>,
        _client: &ClientId,
        _global: GlobalId,
        _object: ObjectId,
    ) -> u32 {
        self.0
    }
}

/// Takes the client out that binds, and answers its number to the bind.
#[derive(Drop)]
pub struct TakingOut(pub u32);

impl Handler<Memory, u32, Shown, bool> for TakingOut {
    ghost use Rattle.std.specs.Prelude.{◌≡◌, None};

    ghost requests = { λ h b id sender opcode args created u h' b'. (u ≡ None) × (h' ≡ h) × (b' ≡ b) };

    ghost binds = { λ h b id global object u h' b'. (u ≡ h.0) × (h' ≡ h) };

    fn request(
        &mut self,
        _backend: &mut Backend<Memory, u32, Shown, bool>,
        _client: &ClientId,
        _sender: ObjectId,
        _opcode: u16,
        _args: SmallVec<Argument<ObjectId, Token>, INLINE_ARGS>,
        _created: Option<ObjectId>,
    ) -> Option<u32> {
        None
    }

    fn bind(
        &mut self,
        backend: &mut Backend<Memory, u32, Shown, bool>,
        client: &ClientId,
        _global: GlobalId,
        _object: ObjectId,
    ) -> u32 {
        backend.kill_client(client, DisconnectReason::ConnectionClosed);
        let _ = backend.cleanup();
        self.0
    }
}

/// If an object is bound, sends `quad.moved` by it and by an object of another client, makes an object of each client, and
/// destroys one of each.
#[derive(Drop)]
pub struct Working {
    /// What it answers to a bind.
    pub data: u32,
    /// An object of the client that binds.
    pub own: ObjectId,
    /// An object of another client.
    pub other: ObjectId,
    /// For its messages.
    pub alloc: Global,
}

/// `quad.moved`, by this object, of 7.
fn moved(alloc: Global, sender_id: ObjectId) -> Result<Message<ObjectId, Token>, AllocError> {
    let mut args = SmallVec::new(alloc);
    args.push(Argument::Int(7))?;
    Ok(Message {
        sender_id,
        opcode: 0,
        args,
    })
}

impl Handler<Memory, u32, Shown, bool> for Working {
    ghost use Rattle.std.specs.Prelude.{◌≡◌, None};

    ghost requests = { λ h b id sender opcode args created u h' b'. (u ≡ None) × (h' ≡ h) × (b' ≡ b) };

    ghost binds = { λ h b id global object u h' b'. (u ≡ h.data) × (h' ≡ h) };

    fn request(
        &mut self,
        _backend: &mut Backend<Memory, u32, Shown, bool>,
        _client: &ClientId,
        _sender: ObjectId,
        _opcode: u16,
        _args: SmallVec<Argument<ObjectId, Token>, INLINE_ARGS>,
        _created: Option<ObjectId>,
    ) -> Option<u32> {
        None
    }

    fn bind(
        &mut self,
        backend: &mut Backend<Memory, u32, Shown, bool>,
        client: &ClientId,
        _global: GlobalId,
        object: ObjectId,
    ) -> u32 {
        let Ok(told) = moved(self.alloc, object) else {
            return self.data;
        };
        let Ok(other_told) = moved(self.alloc, self.other) else {
            return self.data;
        };
        let _ = backend.send_event(told);
        let _ = backend.send_event(other_told);
        let _ = backend.create_object(client, QUAD, 3, 8);
        let _ = backend.create_object(&self.other.client(), QUAD, 3, 6);
        let _ = backend.destroy_object(&self.own);
        let _ = backend.destroy_object(&self.other);
        self.data
    }
}
