//! Offers a global: each registry of a client that may see it is told of it.

ghost use Rattle.std.specs.Prelude.{IfOk};
ghost use Rattle.wl_server_model.specs.PartStep.{over};
ghost use Rattle.wl_callers.specs.Announcement.{IsOffered};

use wl_link::Transport;
use wl_server::laws::registries_announce_what_is_shown;
use wl_server::{Backend, GlobalError, GlobalHandler, GlobalId};
use wl_wire::InterfaceId;

/// Offers a global. If that succeeds, each registry of a live client that may see the global was told of its name, its
/// interface and its version. That holds for each registry that was made for the client, as long as the program itself
/// sends no event of it and does not destroy it.
///
/// The errors are those of `create_global`.
pub fn offer<T: Transport + Drop, U: Drop, G: GlobalHandler<C> + Drop, C: Drop>(
    server: &mut Backend<T, U, G, C>,
    interface: InterfaceId,
    version: u32,
    handler: G,
) -> Result<GlobalId, GlobalError>
    ensures { IfOk result (λ global. IsOffered (over T.sends T.receives G.views) handler interface version global server.new.server) }
{
    registries_announce_what_is_shown::<T, U, G, C>();
    server.create_global(interface, version, handler)
}
