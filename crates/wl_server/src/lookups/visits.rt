//! Calls a closure for each live client, or for each object of a client.

ghost use Rattle.std.specs.Prelude.{◌≡◌, ◌≤◌, Err, MatchOption, Ok, length, option_to_list};
ghost use Rattle.std.specs.List.{FoldsTo};
ghost use Rattle.wl_server_model.specs.Lookups.{id_if_stored, live_clients, live_from, objects_of_client};
ghost use Rattle.wl_server_model.specs.Inside.Walks.{ids_of};

use crate::backend::Backend;
use wl_link::ObjectMap;
use wl_server_client::client::Client;
use wl_server_client::error::InvalidId;
use wl_server_client::ids::client_id::ClientId;
use wl_server_client::ids::object_id::ObjectId;
use wl_server_client::objects::{Kept, id_at};

/// The id of the client of a slot, if it has one that is live.
pub(crate) fn live_at<T, U, C>(slot: u32, place: &Option<Client<T, U, C>>) -> Option<ClientId>
    ensures { option_to_list result ≡ id_if_stored slot place.now }
{
    match place {
        Some(client) if !client.is_killed => Some(ClientId::from_parts(slot, client.serial)),
        _ => None,
    }
}

/// Calls the closure once with the id of each live client, by ascending slot.
fn visit_live<T, U, C, F: FnMut(ClientId)>(clients: &[Option<Client<T, U, C>>], f: &mut F)
    requires call { F.IsAlwaysCallable f.old }
    requires slots { length clients.now ≤ 0x100000000 }
    ensures { FoldsTo (λ p x q. F.step p x tt q) f.old (live_from 0 clients.now) f.new }
{
    let mut rest = clients;
    let mut slot: u64 = 0;
    while let Some((place, others)) = rest.split_first() {
        if let Some(id) = live_at(slot as u32, place) {
            f(id);
        }
        rest = others;
        slot += 1;
    }
}

/// Calls the closure once with the id of each object of a client, by ascending number.
fn visit_all<U: Drop, F: FnMut(ObjectId)>(
    client: &ClientId,
    objects: &ObjectMap<Kept<U>>,
    f: &mut F,
)
    requires { F.IsAlwaysCallable f.old }
    ensures { FoldsTo (λ p x q. F.step p x tt q) f.old (ids_of client.now objects.now.store) f.new }
{
    let mut all = objects.all_objects();
    while let Some((number, object)) = all.next() {
        f(id_at(client, number, object));
    }
}

impl<T: Drop, U: Drop, G: Drop, C: Drop> Backend<T, U, G, C> {
    /// Calls the closure once with the id of each live client, by ascending slot. A client that was killed is left out.
    ///
    /// It stands for `wayland_backend::server::Handle::with_all_clients`. The closure is lent, so that the caller has it after the
    /// walk.
    pub fn with_all_clients<F: FnMut(ClientId)>(&self, f: &mut F)
        requires { F.IsAlwaysCallable f.old }
        ensures { FoldsTo (λ p x q. F.step p x tt q) f.old (live_clients self.now.server) f.new }
    {
        visit_live(&self.clients, f);
    }

    /// Calls the closure once with the id of each object of the client, by ascending number.
    ///
    /// It stands for `wayland_backend::server::Handle::with_all_objects_for`. The error is `InvalidId` if the client is
    /// not stored. Then the closure is not called.
    pub fn with_all_objects_for<F: FnMut(ObjectId)>(
        &self,
        client: &ClientId,
        f: &mut F,
    ) -> Result<(), InvalidId>
        requires { F.IsAlwaysCallable f.old }
        ensures { MatchOption (objects_of_client self.now.server client.now) ((result ≡ Err _) × (f.new ≡ f.old))
            (λ ids. (result ≡ Ok tt) × FoldsTo (λ p x q. F.step p x tt q) f.old ids f.new) }
    {
        let Some(stored) = self.client(client) else {
            return Err(InvalidId);
        };
        visit_all(client, &stored.objects.map, f);
        Ok(())
    }
}
