//! The handler of a dispatch: each new object gets the same label as its data.

ghost use Rattle.std.specs.Prelude.{◌≡◌, option_map};

use smallvec::SmallVec;
use wl_link::Transport;
use wl_server::{Backend, ClientId, GlobalHandler, GlobalId, Handler, ObjectId};
use wl_wire::{Argument, INLINE_ARGS, Token};

/// Gives each object that a client makes or binds in a dispatch this label as its data.
#[derive(Debug, Drop)]
pub struct Labels {
    /// The label.
    pub label: u32,
}

impl<T: Transport + Drop, G: GlobalHandler<C> + Drop, C: Drop> Handler<T, u32, G, C> for Labels {
    ghost requests = { λ labels before client sender opcode args created user_data labels' after.
        user_data ≡ option_map (λ _. labels.label) created };

    ghost binds = { λ labels before client global object user_data labels' after. user_data ≡ labels.label };

    fn request(
        &mut self,
        _backend: &mut Backend<T, u32, G, C>,
        _client: &ClientId,
        _sender: ObjectId,
        _opcode: u16,
        _args: SmallVec<Argument<ObjectId, Token>, INLINE_ARGS>,
        created: Option<ObjectId>,
    ) -> Option<u32> {
        match created {
            Some(_) => Some(self.label),
            None => None,
        }
    }

    fn bind(
        &mut self,
        _backend: &mut Backend<T, u32, G, C>,
        _client: &ClientId,
        _global: GlobalId,
        _object: ObjectId,
    ) -> u32 {
        self.label
    }
}
