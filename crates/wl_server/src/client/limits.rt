//! How far the buffers of clients may grow.

ghost use Rattle.std.specs.Prelude.{Some, false};
ghost use Rattle.wl_server_model.specs.Backend.{Calls};
ghost use Rattle.wl_server_model.specs.PartStep.{over};
ghost use Rattle.wl_server_model.specs.Plain.Calls.{SetsDefaultLimit, SetsLimit};
ghost use Rattle.wl_server_model.specs.declared.step.Reply.TheVariants as reply;
ghost use Rattle.wl_server_model.specs.declared.step.Step.TheVariants as step;

use crate::backend::Backend;
use crate::client::stored::stored_mut;
use wl_link::Transport;
use wl_server_client::globals::handler::GlobalHandler;
use wl_server_client::ids::client_id::ClientId;

impl<T: Transport + Drop, U: Drop, G: GlobalHandler<C> + Drop, C: Drop> Backend<T, U, G, C> {
    /// Sets how far the buffers of each client that is inserted from now on may grow, in bytes.
    /// `set_client_max_buffer_size` says how the number is rounded and which buffers there are.
    pub fn set_default_max_buffer_size(&mut self, max_buffer_size: usize)
        ensures call { Calls (over T.sends T.receives G.views) self.old (step.SetDefaultMaxBufferSize max_buffer_size) reply.SetDefaultMaxBufferSize self.new }
        ensures plain { SetsDefaultLimit self.old max_buffer_size self.new }
    {
        self.refused = false;
        self.default_limit = max_buffer_size;
    }

    /// Sets how far the buffers of the client may grow: the one of what is to be sent, and the one of what was received
    /// and is not read yet.
    ///
    /// The limit is in bytes, and is rounded up to a power of two of at least 4096. The buffer of what was received never
    /// grows beyond 65536 bytes. If the client is not stored, nothing happens.
    pub fn set_client_max_buffer_size(&mut self, client: &ClientId, max_buffer_size: usize)
        ensures call { Calls (over T.sends T.receives G.views) self.old (step.SetClientMaxBufferSize client.now max_buffer_size) reply.SetClientMaxBufferSize self.new }
        ensures plain { SetsLimit self.old client.now max_buffer_size self.new }
    {
        self.refused = false;
        let Some(stored) = stored_mut(&mut self.clients, &mut self.touched, client) else {
            return;
        };
        stored.socket.set_max_buffer_size(Some(max_buffer_size));
    }
}
