//! A client's transport, borrowed mutably.

ghost use Rattle.std.specs.Prelude.{◌≡◌};
ghost use Rattle.std.specs.Borrow.{sem};

use crate::client::Client;

impl<T: Drop, U: Drop, C: Drop> Client<T, U, C> {
    ghost use Rattle.wl_server_client.specs.Lending.{LendsTransportOf};

    /// The transport, which may be changed through the reference. All else stays as it is.
    pub fn transport_mut(&mut self) -> &mut T
        ensures* lends { sem 𝓛 (LendsTransportOf T.row U.row C.row self.entry result) }
        ensures value { result.now ≡ self.old.part.link.transport }
    {
        self.socket.transport_mut()
    }
}
