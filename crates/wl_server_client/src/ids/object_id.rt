//! The ids of the objects of a server's clients.

ghost use Rattle.std.specs.Prelude.{◌≡◌, ◌↔◌, ◌++◌, IsTrue, IfOk, codes};
ghost use Rattle.std.specs.String.{string_bytes};
ghost use Rattle.std.specs.Fmt.{decimal};
ghost use Rattle.wl_wire.specs.Table.{anonymous_id, name_of};

use crate::ids::client_id::ClientId;
use std::alloc::Global;
use std::fmt;
use std::hash::{Hash, Hasher};
use std::marker::Model;
use wl_wire::{ANONYMOUS_INTERFACE, InterfaceId, Numbering, OutOfMemory, OwnNumbers, Protocol};

/// The id of an object: its number in the protocol, its serial, its client, and its interface.
///
/// It stands for `wayland_backend::server::ObjectId`. The serial tells the object from others of the same client that
/// have the number at another time. Two ids are equal if all parts are equal. The hash leaves the interface out. An id
/// with number 0 is null, whatever its other parts are.
#[derive(Clone, Copy, PartialEq, Eq)]
pub struct ObjectId {
    serial: u64,
    // The client's serial and slot stand apart, so that an id has 32 bytes: a `ClientId` would be filled up to 16.
    client_serial: u64,
    interface: InterfaceId,
    client_slot: u32,
    number: u32,
}

impl Model for ObjectId {
    ghost use Rattle.wl_server_client.specs.Ids.{IdParts};

    ghost Value = { IdParts };

    ghost view = { λ id. record { number = id.number; serial = id.serial; client = record { slot = id.client_slot; serial = id.client_serial }; interface = id.interface } };

    ghost inverse = { λ id. record { serial = id.serial; client_serial = id.client.serial; interface = id.interface; client_slot = id.client.slot; number = id.number } };
}

impl Hash for ObjectId {
    ghost use Rattle.std.specs.Prelude.{◌++◌};
    ghost use Rattle.std.proofs.Common.{rules};
    ghost use Rattle.std.specs.Hash as fed;
    ghost use Rattle.std.specs.Cmp.Rules.{hashing};

    ghost hash_input = { λ id. fed.u32 id.number ++ fed.u64 id.serial ++ fed.u32 id.client.slot ++ fed.u64 id.client.serial };

    ghost respects_eq = { Prim.search (hashing, rules) };

    fn hash<H: Hasher>(&self, state: &mut H) {
        state.write_u32(self.number);
        state.write_u64(self.serial);
        state.write_u32(self.client_slot);
        state.write_u64(self.client_serial);
    }
}

impl fmt::Debug for ObjectId {
    fn fmt<W: fmt::Write>(&self, f: &mut fmt::Formatter<W>) -> fmt::Result {
        f.debug_struct("ObjectId")
            .field("serial", &self.serial)
            .field("client", &self.client())
            .field("interface", &self.interface)
            .field("number", &self.number)
            .finish()
    }
}

impl ObjectId {
    /// The null id, which names no object: number 0, serial 0, the anonymous interface, and the client of slot 0 and
    /// serial 0.
    pub fn null() -> Self
        ensures { result ≡ record { number = 0; serial = 0; client = record { slot = 0; serial = 0 }; interface = anonymous_id } }
    {
        ObjectId {
            serial: 0,
            client_serial: 0,
            interface: ANONYMOUS_INTERFACE,
            client_slot: 0,
            number: 0,
        }
    }

    /// Makes the id of these parts. It need not name an object.
    pub fn from_parts(number: u32, serial: u64, client: ClientId, interface: InterfaceId) -> Self
        ensures { result ≡ record { number = number; serial = serial; client = client; interface = interface } }
    {
        ObjectId {
            serial,
            client_serial: client.serial(),
            interface,
            client_slot: client.slot(),
            number,
        }
    }

    /// Whether it is null: whether its number is 0.
    pub fn is_null(&self) -> bool
        ensures { IsTrue result ↔ (self.now.number ≡ 0) }
    {
        self.number == 0
    }

    /// The client that the object belongs to.
    pub fn client(&self) -> ClientId
        ensures { result ≡ self.now.client }
    {
        ClientId::from_parts(self.client_slot, self.client_serial)
    }

    /// Whether both ids are of the same client.
    pub fn same_client_as(&self, other: &ObjectId) -> bool
        ensures { IsTrue result ↔ (self.now.client ≡ other.now.client) }
    {
        self.client() == other.client()
    }

    /// The interface of the object.
    pub fn interface(&self) -> InterfaceId
        ensures { result ≡ self.now.interface }
    {
        self.interface
    }

    /// The number of the object in the protocol.
    pub fn protocol_id(&self) -> u32
        ensures { result ≡ self.now.number }
    {
        self.number
    }

    /// The serial of the object. No other object of the client has it.
    pub fn serial(&self) -> u64
        ensures { result ≡ self.now.serial }
    {
        self.serial
    }

    /// The id as a text: the name of its interface, `@`, its number, and the slot of its client in square brackets, as in
    /// `wl_surface@3[0]`.
    ///
    /// The error is `OutOfMemory`.
    pub fn display(&self, alloc: Global, protocol: &Protocol) -> Result<String, OutOfMemory>
        ensures { IfOk result (λ text. string_bytes text ≡ name_of protocol.now self.now.interface.0 ++ codes "@" ++ decimal self.now.number ++ codes "[" ++ decimal self.now.client.slot ++ codes "]") }
    {
        let name = protocol.name(self.interface);
        let number = self.number;
        let slot = self.client_slot;
        Ok(format!(in alloc; "{name}@{number}[{slot}]")?)
    }
}

/// The number that each id of an event has on the wire: its own.
impl Numbering<ObjectId> for OwnNumbers {
    ghost object_number = { λ _ id. id.number };

    ghost new_number = { λ _ id. id.number };

    fn number_object(&self, id: &ObjectId) -> u32 {
        id.protocol_id()
    }

    fn number_new(&self, id: &ObjectId) -> u32 {
        id.protocol_id()
    }
}
