//! How much waits for a client, and of it.

ghost use Rattle.std.specs.Prelude.{◌≡◌, MatchResult, None, Some};
ghost use Rattle.wl_server_model.specs.Lookups.{waiting_of};

use crate::backend::Backend;
use wl_server_client::error::InvalidId;
use wl_server_client::ids::client_id::ClientId;

impl<T: Drop, U: Drop, G: Drop, C: Drop> Backend<T, U, G, C> {
    /// How much waits in the server for a client, killed or not: the bytes and the tokens of it that were received and not read
    /// yet, and the bytes and the tokens for it that were written and not sent yet. What waits in its transport is not counted.
    ///
    /// The error is `InvalidId` if the client is not stored.
    pub fn waiting(&self, id: &ClientId) -> Result<[usize; 4], InvalidId>
        ensures { MatchResult result (λ counts. waiting_of self.now.server id.now ≡ Some counts)
            (λ _. waiting_of self.now.server id.now ≡ None) }
    {
        match self.client(id) {
            Some(client) => Ok(client.socket.waiting()),
            None => Err(InvalidId),
        }
    }
}
