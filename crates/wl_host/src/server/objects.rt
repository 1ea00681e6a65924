//! The objects of a server's session.

ghost use Rattle.std.specs.Prelude.{[], ◌≡◌, ◌≢◌, Err, MatchOption, Ok, length, map, min, option_map};
ghost use Rattle.wl_flat.specs.Descriptors.{Conserves};
ghost use Rattle.wl_host.specs.Server.{kept_by_server};
ghost use Rattle.wl_flat.specs.Status.{of_create, flattened};
ghost use Rattle.wl_flat.specs.declared.status.Status.TheVariants as status;
ghost use Rattle.wl_host.specs.Calls.{CreatesObject, DestroysObject, SetsObjectData, flat_object_info, interface_of, of_invalid, or_invalid, status_by};
ghost use Rattle.wl_host.specs.Clients.{told_at};
ghost use Rattle.wl_host.specs.Lists.{Lists, filled};
ghost use Rattle.wl_flat.specs.Flat.{client_of, flat_resource, resource_of};
ghost use Rattle.wl_server_model.specs.Lookups.{object_data_of, object_for_number, object_info_of, objects_of_client};

use crate::server::Server;
use crate::server::listing::{put_next, room_for};
use wl_flat::flat::{FlatClientId, FlatObjectId, FlatObjectInfo, count_number, interface_number};
use wl_flat::status::Status;
use wl_server::{ClientId, CreateError, InvalidId, ObjectId};
use wl_wire::InterfaceId;

/// The object that was created, or the status of the error.
fn created(answer: Result<ObjectId, CreateError>) -> Result<FlatObjectId, Status>
    ensures { result ≡ flattened flat_resource of_create answer }
{
    match answer {
        Ok(id) => Ok(FlatObjectId::of_resource(id)),
        Err(error) => Err(Status::from(error)),
    }
}

/// The status of an answer of `set_object_data`.
fn data_set(answer: Result<(), InvalidId>) -> Status
    ensures { result ≡ status_by of_invalid answer }
{
    match answer {
        Ok(()) => Status::Ok,
        Err(error) => Status::from(error),
    }
}

impl Server {
    /// Creates an object of the client (`wl_server::Backend::create_object`).
    ///
    /// The status is `MissingData` if `has_data` is 0: such an object always has data. Else it is that of
    /// `wl_server::CreateError`.
    pub fn create_object(
        &mut self,
        client: &FlatClientId,
        interface: u32,
        version: u32,
        has_data: u32,
        user_data: u64,
    ) -> Result<FlatObjectId, Status>
        ensures none { has_data ≡ 0 → (result ≡ Err status.MissingData) × (self.new ≡ self.old) }
        ensures created { has_data ≢ 0 → CreatesObject self.old.core client.now interface version user_data result self.new.core }
        ensures beside { self.new ≡ record self.old { core = self.new.core } }
        ensures descriptors { Conserves kept_by_server self.old [] [] self.new }
    {
        if has_data == 0 {
            return Err(Status::MissingData);
        }
        let interface = InterfaceId(interface as usize);
        let client = client.id();
        created(
            self.core
                .create_object(&client, interface, version, user_data),
        )
    }

    /// Destroys the object (`wl_server::Backend::destroy_object`). The status is that of `wl_server::DestroyError`.
    pub fn destroy_object(&mut self, object: &FlatObjectId) -> Status
        ensures call { DestroysObject self.old.core object.now result self.new.core }
        ensures beside { self.new ≡ told_at self.old self.new.core object.now.client.slot }
        ensures descriptors { Conserves kept_by_server self.old [] [] self.new }
    {
        let id = object.resource();
        let answer = self.core.destroy_object(&id);
        self.seats.list(id.client().slot());
        self.mark();
        match answer {
            Ok(()) => Status::Ok,
            Err(error) => Status::from(error),
        }
    }

    /// What the protocol knows of the object. The status is `InvalidId` if the id names none.
    pub fn object_info(&self, object: &FlatObjectId) -> Result<FlatObjectInfo, Status>
        ensures { result ≡ or_invalid (option_map flat_object_info (object_info_of self.now.core.server (resource_of object.now))) }
    {
        match self.core.object_info(&object.resource()) {
            Ok(info) => Ok(FlatObjectInfo {
                number: info.id,
                interface: interface_number(info.interface),
                version: info.version,
            }),
            Err(error) => Err(Status::from(error)),
        }
    }

    /// The program's data of the object. The status is `InvalidId` if the id names no object, or one without data.
    pub fn object_data(&self, object: &FlatObjectId) -> Result<u64, Status>
        ensures { result ≡ or_invalid (object_data_of self.now.core.server (resource_of object.now)) }
    {
        match self.core.get_object_data(&object.resource()) {
            Ok(user_data) => Ok(*user_data),
            Err(error) => Err(Status::from(error)),
        }
    }

    /// Gives the object these data in place of those that it had. The status is `InvalidId` if the id names none.
    pub fn set_object_data(&mut self, object: &FlatObjectId, user_data: u64) -> Status
        ensures call { SetsObjectData self.old.core object.now user_data result self.new.core }
        ensures beside { self.new ≡ record self.old { core = self.new.core } }
        ensures descriptors { Conserves kept_by_server self.old [] [] self.new }
    {
        data_set(self.core.set_object_data(&object.resource(), user_data))
    }

    /// The client's object that has this number. The status is `InvalidId` if the client is not stored, or no object has the
    /// number, or it has another interface.
    pub fn object_for_protocol_id(
        &self,
        client: &FlatClientId,
        interface: u32,
        number: u32,
    ) -> Result<FlatObjectId, Status>
        ensures { result ≡ or_invalid (option_map flat_resource (object_for_number self.now.core.server (client_of client.now) (interface_of interface) number)) }
    {
        let interface = InterfaceId(interface as usize);
        match self
            .core
            .object_for_protocol_id(&client.id(), interface, number)
        {
            Ok(id) => Ok(FlatObjectId::of_resource(id)),
            Err(error) => Err(Status::from(error)),
        }
    }

    /// Writes the ids of the client's objects to the lent memory, by ascending number, as far as it has room. `count` is how
    /// many there are. The status is `InvalidId` if the client is not stored, and `TooSmall` if the memory has no room for all.
    pub fn objects(
        &self,
        client: &FlatClientId,
        objects: &mut [FlatObjectId],
        count: &mut u32,
    ) -> Status
        ensures { MatchOption (objects_of_client self.now.core.server (client_of client.now))
            ((result ≡ status.InvalidId) × (objects.new ≡ objects.old) × (count.new ≡ 0))
            (λ ids. Lists (map flat_resource ids) objects.old objects.new count.new result) }
    {
        let Ok(found) = self.list_objects(&client.id(), objects) else {
            *count = 0;
            return Status::InvalidId;
        };
        *count = count_number(found);
        room_for(found, objects.len())
    }

    /// Writes the ids of the client's objects to the lent memory. Returns how many there are.
    fn list_objects(
        &self,
        client: &ClientId,
        objects: &mut [FlatObjectId],
    ) -> Result<usize, InvalidId>
        ensures { MatchOption (objects_of_client self.now.core.server client.now)
            ((result ≡ Err _) × (objects.new ≡ objects.old))
            (λ ids. (result ≡ Ok (min (length ids) 18446744073709551615)) × (objects.new ≡ filled (map flat_resource ids) objects.old)) }
    {
        let mut found = 0usize;
        let mut write = |id: ObjectId| put_next(objects, &mut found, FlatObjectId::of_resource(id));
        self.core.with_all_objects_for(client, &mut write)?;
        Ok(found)
    }
}
