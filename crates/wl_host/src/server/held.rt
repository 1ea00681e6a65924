//! Objects with the program's data of them: by number, and all of a client.

ghost use Rattle.std.specs.Prelude.{◌≡◌, MatchOption, length, map, min, option_copied, option_map};
ghost use Rattle.wl_host.specs.Calls.{or_invalid};
ghost use Rattle.wl_flat.specs.Flat.{client_of};
ghost use Rattle.wl_host.specs.Held.{flat_held};
ghost use Rattle.wl_host.specs.Lists.{Lists, filled};
ghost use Rattle.wl_flat.specs.declared.status.Status.TheVariants as status;
ghost use Rattle.wl_server_model.specs.Lookups.{held_by_number, held_of_client};

use crate::server::Server;
use crate::server::listing::{put_next, room_for};
use wl_flat::flat::{FlatClientId, FlatHeldObject, FlatObjectId, count_number};
use wl_flat::status::Status;
use wl_server::{AllHeldFor, ObjectId};

/// The object with the program's data of it, or 0 if it has none.
fn held(id: ObjectId, user_data: Option<&u64>) -> FlatHeldObject
    ensures { result ≡ flat_held (id, option_copied user_data.entry) }
{
    FlatHeldObject {
        object: FlatObjectId::of_resource(id),
        data: user_data.copied().unwrap_or(0),
    }
}

/// Writes the objects to the lent memory, as far as it has room. Returns how many there are.
fn put_all(all: AllHeldFor<'_, u64>, objects: &mut [FlatHeldObject]) -> usize
    ensures found { result ≡ min (length all.entry) 18446744073709551615 }
    ensures list { objects.new ≡ filled (map flat_held all.entry) objects.old }
{
    let mut rest = all;
    let mut found = 0usize;
    while let Some((id, user_data)) = rest.next() {
        put_next(objects, &mut found, held(id, user_data));
    }
    found
}

impl Server {
    /// The client's object that has this number, whatever its interface, with the program's data of it
    /// (`wl_server::Backend::object_by_number`). The status is `InvalidId` if the client is not stored, or no object has the
    /// number.
    pub fn object_by_number(
        &self,
        client: &FlatClientId,
        number: u32,
    ) -> Result<FlatHeldObject, Status>
        ensures { result ≡ or_invalid (option_map flat_held (held_by_number self.now.core.server (client_of client.now) number)) }
    {
        match self.core.object_by_number(&client.id(), number) {
            Ok((id, user_data)) => Ok(held(id, user_data)),
            Err(error) => Err(Status::from(error)),
        }
    }

    /// Writes the client's objects, each with the program's data of it, to the lent memory, by ascending number, as far as it has
    /// room (`wl_server::Backend::all_held_for`). `count` is how many there are. The status is `InvalidId` if the client is not
    /// stored, and `TooSmall` if the memory has no room for all.
    pub fn held_objects(
        &self,
        client: &FlatClientId,
        objects: &mut [FlatHeldObject],
        count: &mut u32,
    ) -> Status
        ensures { MatchOption (held_of_client self.now.core.server (client_of client.now))
            ((result ≡ status.InvalidId) × (objects.new ≡ objects.old) × (count.new ≡ 0))
            (λ all. Lists (map flat_held all) objects.old objects.new count.new result) }
    {
        match self.core.all_held_for(&client.id()) {
            Ok(all) => {
                let found = put_all(all, objects);
                *count = count_number(found);
                room_for(found, objects.len())
            }
            Err(error) => {
                *count = 0;
                Status::from(error)
            }
        }
    }
}
