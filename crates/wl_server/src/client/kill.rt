//! The killing of a client.

ghost use Rattle.std.specs.Prelude.{Some};
ghost use Rattle.wl_server_model.specs.Backend.{Calls};
ghost use Rattle.wl_server_model.specs.PartStep.{over};
ghost use Rattle.wl_server_model.specs.Plain.{KillsClient};
ghost use Rattle.wl_server_model.specs.declared.step.Reply.TheVariants as reply;
ghost use Rattle.wl_server_model.specs.declared.step.Step.TheVariants as step;

use crate::backend::Backend;
use crate::client::stored::stored_mut;
use wl_link::Transport;
use wl_server_client::globals::handler::GlobalHandler;
use wl_server_client::ids::client_id::ClientId;
use wl_server_client::notes::DisconnectReason;

impl<T: Transport + Drop, U: Drop, G: GlobalHandler<C> + Drop, C: Drop> Backend<T, U, G, C> {
    /// Kills the client. A note says that it was disconnected, with this reason, unless it was killed before.
    ///
    /// It stands for `wayland_backend::server::Handle::kill_client`. The client stays stored until the next cleanup. If
    /// it is not stored, nothing happens. The call allocates no memory.
    pub fn kill_client(&mut self, id: &ClientId, reason: DisconnectReason)
        ensures call { Calls (over T.sends T.receives G.views) self.old (step.KillClient id.now reason) reply.KillClient self.new }
        ensures plain { KillsClient self.old id.now reason self.new }
    {
        self.refused = false;
        let Some(client) = stored_mut(&mut self.clients, &mut self.touched, id) else {
            return;
        };
        client.kill(&mut self.numbers, reason);
    }
}
