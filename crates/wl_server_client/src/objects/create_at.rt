//! Objects that the program creates at a number of the client's range.

ghost use Rattle.std.specs.Prelude.{◌≡◌, [], Some};
ghost use Rattle.wl_server_client.specs.NoteTimes.{IsNumbered};
ghost use Rattle.wl_server_client.specs.Chosen.{CreatesNumbered};
ghost use Rattle.wl_server_client.specs.Inside.Choosing.{InsertsOwn};
ghost use Rattle.wl_server_client.specs.Inside.Client.{Does};

use crate::client::Client;
use crate::error::CreateAtError;
use crate::ids::client_id::ClientId;
use crate::ids::object_id::ObjectId;
use crate::objects::{Kept, fresh_object};
use wl_link::{InsertError, Object, ObjectMap, SERVER_ID_LIMIT};
use wl_wire::{InterfaceId, Protocol};

/// Puts an object at a number of the client's range.
fn insert_own<U: Drop>(
    objects: &mut ObjectMap<Kept<U>>,
    number: u32,
    object: Object<Kept<U>>,
) -> Result<(), InsertError>
    ensures { InsertsOwn objects.old.store number object result objects.new.store }
{
    if number >= SERVER_ID_LIMIT {
        return Err(InsertError::NotFree);
    }
    objects.insert_at(number, object)
}

impl<T: Drop, U: Drop, C: Drop> Client<T, U, C> {
    /// Creates an object at this number of the client, whose id is `id`.
    pub fn create_object_at(
        &mut self,
        id: &ClientId,
        protocol: &Protocol,
        interface: InterfaceId,
        version: u32,
        number: u32,
        user_data: U,
    ) -> Result<ObjectId, CreateAtError>
        ensures does { Does self.old (λ p did q. (did ≡ []) × CreatesNumbered protocol.now id.now p interface version number user_data result q) self.new }
        ensures times { self.new.times ≡ self.old.times }
        ensures numbered { IsNumbered (Some self.old) → IsNumbered (Some self.new) }
    {
        if protocol.get(interface).is_none() {
            return Err(CreateAtError::UnknownInterface);
        }
        let Some(serial) = self.objects.last_serial.checked_add(1) else {
            return Err(CreateAtError::SerialsExhausted);
        };
        let object = fresh_object(interface, version, serial, Some(user_data));
        match insert_own(&mut self.objects.map, number, object) {
            Ok(()) => {
                self.objects.last_serial = serial;
                Ok(ObjectId::from_parts(number, serial, *id, interface))
            }
            Err(InsertError::NotFree) => Err(CreateAtError::NotFree),
            Err(InsertError::OutOfMemory) => Err(CreateAtError::OutOfMemory),
        }
    }
}
