//! How much waits in a client's session.

ghost use Rattle.std.specs.Prelude.{◌≡◌, Ok};
ghost use Rattle.wl_flat.specs.Waiting.{waiting_on};

use super::Client;
use wl_flat::flat::Waiting;
use wl_flat::status::Status;
use wl_flat::waiting::waiting_on;

impl Client {
    /// How much waits, in the core and in the mailbox: what the host received, and no event was read of; and what is to be sent. An
    /// event that is kept for the next call is read. Once the session has failed, the counts stay, and nothing is sent any more: the
    /// descriptors among them are those that `next_dropped` gives back.
    pub fn waiting(&self) -> Result<Waiting, Status>
        ensures { result ≡ Ok (waiting_on self.now.core.session.link) }
    {
        Ok(waiting_on(self.core.waiting(), self.core.transport()))
    }
}
