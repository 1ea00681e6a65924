//! Objects with their data: by number, and all of a client.

ghost use Rattle.std.specs.Prelude.{◌≡◌, MatchResult, None, Some, option_copied};
ghost use Rattle.std.specs.Iterator.{YieldsFirstBy, item_count};
ghost use Rattle.wl_server_model.specs.Lookups.{held_by_number, held_of_client};

use crate::backend::Backend;
use std::fmt;
use std::marker::Model;
use wl_link::AllObjects;
use wl_server_client::error::InvalidId;
use wl_server_client::ids::client_id::ClientId;
use wl_server_client::ids::object_id::ObjectId;
use wl_server_client::objects::{Kept, id_at};

/// An iterator over the objects of a client, by ascending number: the id of each, and its user data if it has any.
#[derive(Drop)]
pub struct AllHeldFor<'a, U> {
    /// The client.
    client: ClientId,
    /// Its objects that are still to come.
    objects: AllObjects<'a, Kept<U>>,
}

impl<'a, U> fmt::Debug for AllHeldFor<'a, U> {
    fn fmt<W: fmt::Write>(&self, f: &mut fmt::Formatter<W>) -> fmt::Result {
        f.write_str("AllHeldFor { .. }")
    }
}

impl<'a, U> Model for AllHeldFor<'a, U> {
    ghost use Rattle.std.specs.Coded.{codes};
    ghost use Rattle.std.specs.Prelude.{List, Option, map};
    ghost use Rattle.wl_server_client.specs.Ids.{IdParts};
    ghost use Rattle.wl_server_model.specs.Lookups.{held_at};

    ghost Value = { List (IdParts × Option U) };

    ghost coded = { Prim.hlevel (codes) };

    ghost view = { λ a. map (λ e. held_at a.client e.0 e.1) a.objects };
}

impl<'a, U> Iterator for AllHeldFor<'a, U> {
    type Item = (ObjectId, Option<&'a U>);

    ghost next_gives = { YieldsFirstBy (λ item. (item.0, option_copied item.1)) (λ rest. rest) };

    ghost remaining = { item_count (λ rest. rest) };

    /// The id and the user data of the next object.
    fn next(&mut self) -> Option<(ObjectId, Option<&'a U>)> {
        match self.objects.next() {
            Some((number, object)) => {
                let id = id_at(&self.client, number, object);
                Some((id, object.value.user_data.as_ref()))
            }
            None => None,
        }
    }
}

impl<T: Drop, U: Drop, G: Drop, C: Drop> Backend<T, U, G, C> {
    /// The client's object that has this number, whatever its interface: its id, and its user data if it has any.
    ///
    /// It stands for `wl_client_get_object` of libwayland. The error is `InvalidId` if the client is not stored, or no object
    /// has the number.
    pub fn object_by_number(
        &self,
        client: &ClientId,
        number: u32,
    ) -> Result<(ObjectId, Option<&U>), InvalidId>
        ensures { MatchResult result
            (λ held. held_by_number self.now.server client.now number ≡ Some (held.0, option_copied held.1))
            (λ _. held_by_number self.now.server client.now number ≡ None) }
    {
        let Some(stored) = self.client(client) else {
            return Err(InvalidId);
        };
        match stored.objects.map.find(number) {
            Some(object) => {
                let id = id_at(client, number, object);
                Ok((id, object.value.user_data.as_ref()))
            }
            None => Err(InvalidId),
        }
    }

    /// All objects of the client, by ascending number: the id of each, and its user data if it has any. Neither this call nor
    /// the walk allocates.
    ///
    /// It stands for `wl_client_for_each_resource` of libwayland. A caller can prove something of this walk: a contract says
    /// what it gives. The error is `InvalidId` if the client is not stored.
    pub fn all_held_for(&self, client: &ClientId) -> Result<AllHeldFor<'_, U>, InvalidId>
        ensures { MatchResult result (λ held. held_of_client self.now.server client.now ≡ Some held)
            (λ _. held_of_client self.now.server client.now ≡ None) }
    {
        match self.client(client) {
            Some(stored) => Ok(AllHeldFor {
                client: *client,
                objects: stored.objects.map.all_objects(),
            }),
            None => Err(InvalidId),
        }
    }
}
