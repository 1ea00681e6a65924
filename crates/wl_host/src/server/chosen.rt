//! What the host chooses of an object: its number, and its version.

ghost use Rattle.std.specs.Prelude.{[], ◌≡◌, ◌≢◌, Err, IfErr};
ghost use Rattle.wl_host.specs.Chosen.{ClaimsObject, CreatesObjectAt, SetsObjectVersion, TakesObject, unclaimed};
ghost use Rattle.wl_flat.specs.Descriptors.{Conserves};
ghost use Rattle.wl_host.specs.Server.{kept_by_server};
ghost use Rattle.wl_flat.specs.Status.{flattened, of_create_at, of_version};
ghost use Rattle.wl_host.specs.Calls.{status_by};
ghost use Rattle.wl_server_model.specs.Plain.{IsUnchanged};
ghost use Rattle.wl_flat.specs.Flat.{flat_resource};
ghost use Rattle.wl_flat.specs.declared.status.Status.TheVariants as status;

use crate::server::Server;
use wl_flat::flat::{FlatClientId, FlatObjectId};
use wl_flat::status::Status;
use wl_server::{CreateAtError, ObjectId, VersionError};
use wl_wire::InterfaceId;

/// The object that was created, or the status of the error.
fn created_at(answer: Result<ObjectId, CreateAtError>) -> Result<FlatObjectId, Status>
    ensures { result ≡ flattened flat_resource of_create_at answer }
{
    match answer {
        Ok(id) => Ok(FlatObjectId::of_resource(id)),
        Err(error) => Err(Status::from(error)),
    }
}

/// The status of an answer of `set_object_version`.
fn version_set(answer: Result<(), VersionError>) -> Status
    ensures { result ≡ status_by of_version answer }
{
    match answer {
        Ok(()) => Status::Ok,
        Err(error) => Status::from(error),
    }
}

impl Server {
    /// Creates an object of the client at this number of its range (`wl_server::Backend::create_object_at`).
    ///
    /// The status is `MissingData` if `has_data` is 0: such an object always has data. Else it is that of
    /// `wl_server::CreateAtError`.
    pub fn create_object_at(
        &mut self,
        client: &FlatClientId,
        interface: u32,
        version: u32,
        number: u32,
        has_data: u32,
        user_data: u64,
    ) -> Result<FlatObjectId, Status>
        ensures none { has_data ≡ 0 → (result ≡ Err status.MissingData) × (self.new ≡ self.old) }
        ensures created { has_data ≢ 0 → CreatesObjectAt self.old.core client.now interface version number user_data result self.new.core }
        ensures beside { self.new ≡ record self.old { core = self.new.core } }
        ensures descriptors { Conserves kept_by_server self.old [] [] self.new }
    {
        if has_data == 0 {
            return Err(Status::MissingData);
        }
        let interface = InterfaceId(interface as usize);
        let client = client.id();
        created_at(
            self.core
                .create_object_at(&client, interface, version, number, user_data),
        )
    }

    /// Finds or makes the object that is to stand for something of the host's, and gives it this version and these data.
    ///
    /// - At the number 0 it is a new object of the server's range, as by `create_object`.
    /// - Else, if the client has an object at the number that is of the interface and has no data, or 0, it is that one, as one that a
    ///   request made and that was finished with the data 0. It gets the version and the data, as by `set_object_version` and
    ///   `set_object_data`. The latter never fails then.
    /// - Else it is a new object at the number, as by `create_object_at`.
    ///
    /// The status is that of the call that is made: `InvalidId` if the client is not stored; of a new object `UnknownInterface`,
    /// `SerialsExhausted` or `OutOfMemory`, `IdsExhausted` at the number 0, and `NotFree` at another one; of an object that is there
    /// `VersionTooHigh`, if the version is 0 or above that of the interface in the table. The version of a new object is not checked.
    /// After an error nothing is changed.
    pub fn claim_object(
        &mut self,
        client: &FlatClientId,
        interface: u32,
        version: u32,
        number: u32,
        user_data: u64,
    ) -> Result<FlatObjectId, Status>
        ensures call { ClaimsObject self.old.core client.now interface version number user_data result self.new.core }
        ensures refused { IfErr result (λ _. IsUnchanged self.old.core self.new.core) }
        ensures beside { self.new ≡ record self.old { core = self.new.core } }
        ensures descriptors { Conserves kept_by_server self.old [] [] self.new }
    {
        if number == 0 {
            return self.create_object(client, interface, version, 1, user_data);
        }
        match self.unclaimed(client, interface, number) {
            Some(object) => self.take_object(&object, version, user_data),
            None => self.create_object_at(client, interface, version, number, 1, user_data),
        }
    }

    /// The client's object at the number, if it is of the interface and has no data, or 0.
    fn unclaimed(&self, client: &FlatClientId, interface: u32, number: u32) -> Option<FlatObjectId>
        ensures { result ≡ unclaimed self.now.core client.now interface number }
    {
        match self.object_by_number(client, number) {
            Ok(held) => {
                let is_unclaimed = held.object.interface == interface && held.data == 0;
                is_unclaimed.then_some(held.object)
            }
            Err(_) => None,
        }
    }

    /// Gives the object this version and these data, or neither if the version is refused.
    fn take_object(
        &mut self,
        object: &FlatObjectId,
        version: u32,
        user_data: u64,
    ) -> Result<FlatObjectId, Status>
        ensures call { TakesObject self.old.core object.now version user_data result self.new.core }
        ensures beside { self.new ≡ record self.old { core = self.new.core } }
        ensures descriptors { Conserves kept_by_server self.old [] [] self.new }
    {
        let id = object.resource();
        if let Err(error) = self.core.set_object_version(&id, version) {
            return Err(Status::from(error));
        }
        // It is there, since it got a version: the data are not refused.
        let _ = self.core.set_object_data(&id, user_data);
        Ok(*object)
    }

    /// Sets the version of the object (`wl_server::Backend::set_object_version`).
    ///
    /// The status is `InvalidId` if the id names none, and `VersionTooHigh` if the version is 0 or above that of the object's
    /// interface in the table.
    pub fn set_object_version(&mut self, object: &FlatObjectId, version: u32) -> Status
        ensures call { SetsObjectVersion self.old.core object.now version result self.new.core }
        ensures beside { self.new ≡ record self.old { core = self.new.core } }
        ensures descriptors { Conserves kept_by_server self.old [] [] self.new }
    {
        version_set(self.core.set_object_version(&object.resource(), version))
    }
}
