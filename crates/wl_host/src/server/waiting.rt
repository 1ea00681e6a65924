//! How much waits for a client, and of it.

ghost use Rattle.std.specs.Prelude.{◌≡◌, option_map};
ghost use Rattle.wl_host.specs.Calls.{or_invalid};
ghost use Rattle.wl_flat.specs.Flat.{client_of};
ghost use Rattle.wl_flat.specs.Waiting.{waiting_on};
ghost use Rattle.wl_server_model.specs.Lookups.{client_of as stored_client};

use crate::server::Server;
use wl_flat::flat::{FlatClientId, Waiting};
use wl_flat::status::Status;
use wl_flat::waiting::waiting_on;

impl Server {
    /// How much waits for the client, in the core and in its mailbox: what the host received of it, and no action was read of; and
    /// what is to be sent to it. An action that is kept for the next call is read.
    ///
    /// The status is `InvalidId` if the client is not stored.
    pub fn waiting(&self, client: &FlatClientId) -> Result<Waiting, Status>
        ensures { result ≡ or_invalid (option_map (λ p. waiting_on p.link) (stored_client self.now.core.server (client_of client.now))) }
    {
        let id = client.id();
        let Ok(in_core) = self.core.waiting(&id) else {
            return Err(Status::InvalidId);
        };
        match self.core.transport(&id) {
            Ok(mailbox) => Ok(waiting_on(in_core, mailbox)),
            Err(error) => Err(Status::from(error)),
        }
    }
}
