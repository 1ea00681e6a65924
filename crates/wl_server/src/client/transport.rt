//! A client's transport, borrowed mutably.

ghost use Rattle.std.specs.Prelude.{◌≡◌, MatchResult, None, OnOk, Some};
ghost use Rattle.std.specs.Borrow.{sem};
ghost use Rattle.wl_server.specs.Lending.{server_over, state_over};
ghost use Rattle.wl_server_model.specs.Lookups.{transport_of};
ghost use Rattle.wl_server_model.specs.PartStep.{over};
ghost use Rattle.wl_server_model.specs.Plain.Transport.{LeavesTransport};
ghost use Rattle.wl_server_model.specs.Backend.{IsChange};

use crate::backend::Backend;
use crate::client::stored::lend_stored;
use wl_link::Transport;
use wl_server_client::error::InvalidId;
use wl_server_client::globals::handler::GlobalHandler;
use wl_server_client::ids::client_id::ClientId;

impl<T: Transport + Drop, U: Drop, G: GlobalHandler<C> + Drop, C: Drop> Backend<T, U, G, C> {
    ghost use Rattle.wl_server.specs.Lending.{LendsServerTransport};

    /// The client's transport, which may be changed through the reference. All else stays as it is, and so does the
    /// answer of `memory_refused`.
    ///
    /// After the loan the look-up of the client's transport answers what was left in it, and all others answer as before.
    ///
    /// The error is `InvalidId` if the client is not stored.
    pub fn transport_mut(&mut self, id: &ClientId) -> Result<&mut T, InvalidId>
        ensures call { OnOk result ((t : _) → IsChange (over T.sends T.receives G.views) self.old.server id.now t (server_over self.old.server id.now t)) }
        ensures plain { OnOk result ((left : _) → LeavesTransport self.old id.now left (state_over self.old id.now left)) }
        ensures* lends { sem 𝓛 (LendsServerTransport T.row U.row G.row C.row self.entry id.now result) }
        ensures value { MatchResult result (λ transport. transport_of self.old.server id.now ≡ Some transport.now)
            (λ _. transport_of self.old.server id.now ≡ None) }
    {
        let Some(client) = lend_stored(&mut self.clients, id) else {
            return Err(InvalidId);
        };
        Ok(client.transport_mut())
    }
}
