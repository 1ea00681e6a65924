//! Kills a client: the next cleanup hands it out, with its transport.

ghost use Rattle.std.specs.Prelude.{◌≡◌, [], IfNone, IfOk, IfSome};
ghost use Rattle.wl_server_model.specs.Lookups.{client_of};
ghost use Rattle.wl_server_model.specs.PartStep.{share_of};
ghost use Rattle.wl_server_model.specs.Plain.{HandsOut};

use wl_link::Transport;
use wl_server::{Backend, ClientId, DisconnectReason, GlobalHandler};
use wl_wire::OutOfMemory;

/// Kills a client, and takes out the clients that are killed, with their transports.
///
/// A client that was stored is in the result once, with its transport, to which what waited was flushed. It is no longer
/// stored. A client that was not stored is not in the result. The error is `OutOfMemory`.
pub fn disconnect<T: Transport + Drop, U: Drop, G: GlobalHandler<C> + Drop, C: Drop>(
    server: &mut Backend<T, U, G, C>,
    client: &ClientId,
) -> Result<Vec<(ClientId, T)>, OutOfMemory>
    ensures stored { IfOk result (λ out. IfSome (client_of server.old.server client.now)
        (λ was. HandsOut T.sends was (share_of client.now out.items) (client_of server.new.server client.now))) }
    ensures unknown { IfOk result (λ out. IfNone (client_of server.old.server client.now) (share_of client.now out.items ≡ [])) }
{
    server.kill_client(client, DisconnectReason::ConnectionClosed);
    server.cleanup()
}
