//! The version of an object.

ghost use Rattle.std.specs.Prelude.{◌≡◌, false};
ghost use Rattle.wl_server_client.specs.Chosen.{has_version as in_table};
ghost use Rattle.wl_server_client.specs.Inside.Choosing.{SetsVersionIn};

use crate::error::VersionError;
use crate::ids::object_id::ObjectId;
use crate::objects::{Kept, named_in};
use wl_link::ObjectMap;
use wl_wire::{InterfaceId, Protocol};

/// Whether the interface has the version: it is not 0, and not above that of the table.
fn has_version(protocol: &Protocol, interface: InterfaceId, version: u32) -> bool
    ensures { result ≡ in_table protocol.now interface version }
{
    match protocol.get(interface) {
        Some(known) => version > 0 && version <= known.version,
        None => false,
    }
}

/// Sets the version of the object that the id names.
pub fn set_version<U: Drop>(
    objects: &mut ObjectMap<Kept<U>>,
    protocol: &Protocol,
    id: &ObjectId,
    version: u32,
) -> Result<(), VersionError>
    ensures { SetsVersionIn protocol.now objects.old.store id.now version result objects.new.store }
{
    let Some(object) = named_in(objects, id) else {
        return Err(VersionError::InvalidId);
    };
    if !has_version(protocol, object.interface, version) {
        return Err(VersionError::UnknownVersion);
    }
    objects.with(id.protocol_id(), |object| {
        object.version = version;
    });
    Ok(())
}
