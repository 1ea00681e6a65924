//! Sends what waits in the buffers of a client.

ghost use Rattle.std.specs.Prelude.{◌≡◌, Some};
ghost use Rattle.wl_link.specs.Puts.{lacks_memory};
ghost use Rattle.wl_server_client.specs.Inside.Client.{Does};
ghost use Rattle.wl_server_client.specs.Felt.{FlushedTo};
ghost use Rattle.wl_server_client.specs.NoteTimes.{IsNumbered};

use crate::client::Client;
use wl_link::Transport;
use wl_wire::IoFault;

impl<T: Transport + Drop, U: Drop, C: Drop> Client<T, U, C> {
    /// Sends what waits for the client, as far as its transport takes it.
    pub fn flush(&mut self) -> Result<(), IoFault>
        ensures flushed { Does self.old (λ p did q. FlushedTo T.sends p result (lacks_memory result) did q) self.new }
        ensures times { self.new.times ≡ self.old.times }
        ensures numbered { IsNumbered (Some self.old) → IsNumbered (Some self.new) }
    {
        self.socket.flush()
    }
}
