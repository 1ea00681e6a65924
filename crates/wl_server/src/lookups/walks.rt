//! Walks over the live clients, and over the objects of a client.

ghost use Rattle.std.specs.Prelude.{◌≡◌, MatchResult, None, Some};
ghost use Rattle.std.specs.Iterator.{YieldsFirst, item_count};
ghost use Rattle.wl_server_model.specs.Lookups.{live_clients, objects_of_client};

use crate::backend::Backend;
use crate::lookups::visits::live_at;
use std::fmt;
use std::marker::Model;
use wl_link::AllObjects;
use wl_server_client::client::Client;
use wl_server_client::error::InvalidId;
use wl_server_client::ids::client_id::ClientId;
use wl_server_client::ids::object_id::ObjectId;
use wl_server_client::objects::{Kept, id_at};

/// An iterator over the ids of the live clients, by ascending slot.
#[derive(Drop)]
pub struct AllClients<'a, T, U, C> {
    /// The places of the clients that are still to come.
    clients: &'a [Option<Client<T, U, C>>],
    /// The slot of the first of `clients`. After the last slot of all it is 2^32.
    slot: u64,
}

impl<'a, T, U, C> fmt::Debug for AllClients<'a, T, U, C> {
    fn fmt<W: fmt::Write>(&self, f: &mut fmt::Formatter<W>) -> fmt::Result {
        f.write_str("AllClients { .. }")
    }
}

impl<'a, T, U, C> Model for AllClients<'a, T, U, C> {
    ghost use Rattle.std.specs.Coded.{codes};
    ghost use Rattle.std.specs.Prelude.{List, ◌+◌, ◌≤◌, length};
    ghost use Rattle.wl_server_client.specs.Ids.{ClientParts};
    ghost use Rattle.wl_server_model.specs.Lookups.{live_from};

    ghost Value = { List ClientParts };

    ghost coded = { Prim.hlevel (codes) };

    ghost view = { λ a. live_from a.slot a.clients.now };

    ghost invariant = { λ a. a.slot + length a.clients.now ≤ 0x100000000 };
}

impl<'a, T, U, C> Iterator for AllClients<'a, T, U, C> {
    type Item = ClientId;

    ghost next_gives = { YieldsFirst (λ rest. rest) };

    ghost remaining = { item_count (λ rest. rest) };

    /// The id of the next live client.
    fn next(&mut self) -> Option<ClientId> {
        while let Some((place, others)) = self.clients.split_first() {
            let slot = self.slot as u32;
            self.clients = others;
            self.slot += 1;
            if let Some(id) = live_at(slot, place) {
                return Some(id);
            }
        }
        None
    }
}

/// An iterator over the ids of the objects of a client, by ascending number.
#[derive(Drop)]
pub struct AllObjectsFor<'a, U> {
    /// The client.
    client: ClientId,
    /// Its objects that are still to come.
    objects: AllObjects<'a, Kept<U>>,
}

impl<'a, U> fmt::Debug for AllObjectsFor<'a, U> {
    fn fmt<W: fmt::Write>(&self, f: &mut fmt::Formatter<W>) -> fmt::Result {
        f.write_str("AllObjectsFor { .. }")
    }
}

impl<'a, U> Model for AllObjectsFor<'a, U> {
    ghost use Rattle.std.specs.Coded.{codes};
    ghost use Rattle.std.specs.Prelude.{List, map};
    ghost use Rattle.wl_server_client.specs.Ids.{IdParts};
    ghost use Rattle.wl_server_client.specs.Part.{id_at};

    ghost Value = { List IdParts };

    ghost coded = { Prim.hlevel (codes) };

    ghost view = { λ a. map (λ e. id_at a.client e.0 e.1) a.objects };
}

impl<'a, U> Iterator for AllObjectsFor<'a, U> {
    type Item = ObjectId;

    ghost next_gives = { YieldsFirst (λ rest. rest) };

    ghost remaining = { item_count (λ rest. rest) };

    /// The id of the next object.
    fn next(&mut self) -> Option<ObjectId> {
        match self.objects.next() {
            Some((number, object)) => Some(id_at(&self.client, number, object)),
            None => None,
        }
    }
}

impl<T: Drop, U: Drop, G: Drop, C: Drop> Backend<T, U, G, C> {
    /// The ids of the live clients, by ascending slot. A client that was killed is left out. Neither this call nor the
    /// walk allocates.
    ///
    /// A caller can prove something of this walk: a contract says which ids it gives.
    pub fn all_clients(&self) -> AllClients<'_, T, U, C>
        ensures { result ≡ live_clients self.now.server }
    {
        AllClients {
            clients: &self.clients,
            slot: 0,
        }
    }

    /// The ids of all objects of the client, by ascending number. Neither this call nor the walk allocates.
    ///
    /// A caller can prove something of this walk: a contract says which ids it gives. The error is `InvalidId` if the
    /// client is not stored.
    pub fn all_objects_for(&self, client: &ClientId) -> Result<AllObjectsFor<'_, U>, InvalidId>
        ensures { MatchResult result (λ ids. objects_of_client self.now.server client.now ≡ Some ids)
            (λ _. objects_of_client self.now.server client.now ≡ None) }
    {
        match self.client(client) {
            Some(stored) => Ok(AllObjectsFor {
                client: *client,
                objects: stored.objects.map.all_objects(),
            }),
            None => Err(InvalidId),
        }
    }
}
