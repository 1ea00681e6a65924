//! The program's handlers of its globals.

ghost use Rattle.std.specs.Prelude.{◌≡◌, Bool};

use crate::ids::client_id::ClientId;
use crate::ids::global_id::GlobalId;

/// A program's handler of a global, which says which clients may see it.
///
/// It stands for `wayland_backend::server::GlobalHandler`, of which only `can_view` is left. The answer depends only on
/// the handler, the client's id and data, and the global's id. The server asks as often as it likes, and expects the same
/// answer each time. A program that hides no global uses `ShownToAll`.
pub trait GlobalHandler<C> {
    ghost use Rattle.wl_server_client.specs.Ids.{ClientParts, GlobalParts};

    ghost views: { Self → ClientParts → C → GlobalParts → Bool };

    /// Whether the client may see the global. `client_data` is the program's data of the client.
    ///
    /// Unlike in wayland-backend there is no default answer `true`: a program that hides no global uses `ShownToAll`.
    fn can_view(&self, client: &ClientId, client_data: &C, global: &GlobalId) -> bool
        ensures { result ≡ views self.now client.now client_data.now global.now };
}

/// A handler that shows its global to each client.
#[derive(Clone, Copy, Debug, Drop)]
pub struct ShownToAll;

impl<C> GlobalHandler<C> for ShownToAll {
    ghost use Rattle.std.specs.Prelude.{true};

    ghost views = { λ _ _ _ _. true };

    fn can_view(&self, _client: &ClientId, _client_data: &C, _global: &GlobalId) -> bool {
        true
    }
}
