//! Objects that the server creates.

ghost use Rattle.std.specs.Prelude.{◌≡◌, [], Some};
ghost use Rattle.wl_server_client.specs.NoteTimes.{IsNumbered};
ghost use Rattle.wl_server_client.specs.Inside.Client.{Does};
ghost use Rattle.wl_server_client.specs.Inside.Creation.{LacksSerial};
ghost use Rattle.wl_server_client.specs.Objects.{Creates};

use crate::client::Client;
use crate::error::CreateError;
use crate::ids::client_id::ClientId;
use crate::ids::object_id::ObjectId;
use crate::objects::{Kept, fresh_object};
use wl_link::{NewError, ObjectMap, SERVER_ID_LIMIT};
use wl_wire::{InterfaceId, Protocol};

/// How many numbers the server's range has.
const SERVER_NUMBERS: u32 = 0x0100_0000;

/// The error of a creation if no serial is left. It is `IdsExhausted` if no number is left either, and else
/// `SerialsExhausted`. It looks at the numbers of the server's range one by one. Only this rare case does that: otherwise
/// the insertion itself finds that no number is left.
#[cold]
#[inline(never)]
fn without_serial<U: Drop>(objects: &ObjectMap<Kept<U>>) -> CreateError
    ensures { LacksSerial objects.now.store result }
{
    for place in 0..SERVER_NUMBERS {
        let number = SERVER_ID_LIMIT + place;
        if objects.find(number).is_none() {
            return CreateError::SerialsExhausted;
        }
    }
    CreateError::IdsExhausted
}

impl<T: Drop, U: Drop, C: Drop> Client<T, U, C> {
    /// Creates an object of the server for this client, whose id is `id`.
    pub fn create_object(
        &mut self,
        id: &ClientId,
        protocol: &Protocol,
        interface: InterfaceId,
        version: u32,
        user_data: U,
    ) -> Result<ObjectId, CreateError>
        ensures does { Does self.old (λ p did q. (did ≡ []) × Creates protocol.now id.now p interface version user_data result q) self.new }
        ensures times { self.new.times ≡ self.old.times }
        ensures numbered { IsNumbered (Some self.old) → IsNumbered (Some self.new) }
    {
        if protocol.get(interface).is_none() {
            return Err(CreateError::UnknownInterface);
        }
        let Some(serial) = self.objects.last_serial.checked_add(1) else {
            return Err(without_serial(&self.objects.map));
        };
        let object = fresh_object(interface, version, serial, Some(user_data));
        match self.objects.map.server_insert_new(object) {
            Ok(number) => {
                self.objects.last_serial = serial;
                Ok(ObjectId::from_parts(number, serial, *id, interface))
            }
            Err(NewError::IdsExhausted) => Err(CreateError::IdsExhausted),
            Err(NewError::OutOfMemory) => Err(CreateError::OutOfMemory),
        }
    }
}
