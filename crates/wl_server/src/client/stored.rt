//! The look-up of a stored client by its id, to change it.

ghost use Rattle.std.specs.Borrow.{sem};
ghost use Rattle.std.specs.Option.{option_copied_mut};
ghost use Rattle.std.specs.Prelude.{◌≡◌, ◌<◌, IsTrue, MatchOption, Some, is_some, length, slice_set};
ghost use Rattle.wl_server_model.specs.Inside.Lookup.{LendsStored};
ghost use Rattle.wl_server.specs.Inside.Touched.{AreTouched};
ghost use Rattle.wl_server_client.specs.Stored.{Stored};
ghost use Rattle.wl_server_model.specs.Server.{client_at};

use crate::client::Slots;
use crate::client::touched::Touched;
use wl_server_client::client::Client;
use wl_server_client::ids::client_id::ClientId;

/// Whether the client is stored.
fn is_stored<T: Drop, U: Drop, C: Drop>(clients: &Slots<T, U, C>, id: &ClientId) -> bool
    ensures stored { result ≡ is_some (client_at id.now clients.now.items) }
    ensures within { IsTrue result → id.now.slot < length clients.now.items }
{
    match clients.get(id.slot() as usize) {
        Some(Some(client)) => client.serial == id.serial(),
        _ => false,
    }
}

/// The client, borrowed mutably, if it is stored. It does not count as touched: what waits for it has to stay as it is.
pub fn lend_stored<'a, T: Drop, U: Drop, C: Drop>(
    clients: &'a mut Slots<T, U, C>,
    id: &ClientId,
) -> Option<&'a mut Client<T, U, C>>
    ensures* lends { sem 𝓛 (LendsStored T.row U.row C.row clients.entry id.now result) }
    ensures value { option_copied_mut result ≡ client_at id.now clients.old.items }
{
    if is_stored(clients, id) {
        clients[id.slot() as usize].as_mut()
    } else {
        None
    }
}

/// The client, borrowed mutably, if it is stored. It counts as touched from then on, whatever becomes of it. The function
/// takes these fields and not the whole server, so a call can use the server's other fields beside the client.
pub fn stored_mut<'a, T: Drop, U: Drop, C: Drop>(
    clients: &'a mut Slots<T, U, C>,
    touched: &mut Touched,
    id: &ClientId,
) -> Option<&'a mut Client<T, U, C>>
    ensures* lends { sem 𝓛 (LendsStored T.row U.row C.row clients.entry id.now result) }
    ensures value { option_copied_mut result ≡ client_at id.now clients.old.items }
    ensures touched { AreTouched touched.old clients.old.items
        → MatchOption result (AreTouched touched.new clients.old.items) (λ _. (s : Stored T U C) → AreTouched touched.new (slice_set clients.old.items id.now.slot (Some s))) }
{
    if is_stored(clients, id) {
        let slot = id.slot() as usize;
        touched.insert(slot);
        clients[slot].as_mut()
    } else {
        None
    }
}
