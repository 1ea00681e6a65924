//! The ids of a client's objects.

ghost use Rattle.std.specs.Prelude.{◌≡◌, ◌↔◌, ◌++◌, IsTrue, IfOk, codes};
ghost use Rattle.std.specs.String.{string_bytes};
ghost use Rattle.std.specs.Fmt.{decimal};
ghost use Rattle.wl_wire.specs.Table.{anonymous_id, name_of};

use std::alloc::Global;
use std::hash::{Hash, Hasher};
use std::marker::Model;
use wl_wire::{ANONYMOUS_INTERFACE, InterfaceId, OutOfMemory, Protocol};

/// The id of an object: its number in the protocol, its serial, and its interface. It stands for
/// `wayland_backend::client::ObjectId`.
///
/// The *serial* tells an object from others that had or will have its number. Two ids are equal if all their parts are
/// equal. The hash leaves the interface out. An id with number 0 is null: it names no object.
#[derive(Clone, Copy, Debug, PartialEq, Eq)]
pub struct ObjectId {
    serial: u64,
    interface: InterfaceId,
    number: u32,
}

impl Model for ObjectId {
    ghost use Rattle.wl_client.specs.ObjectId.{IdParts};

    ghost Value = { IdParts };

    ghost view = { λ id. record { number = id.number; serial = id.serial; interface = id.interface } };

    ghost inverse = { λ id. record { serial = id.serial; interface = id.interface; number = id.number } };
}

impl Hash for ObjectId {
    ghost use Rattle.std.specs.Prelude.{◌++◌};
    ghost use Rattle.std.proofs.Common.{rules};
    ghost use Rattle.std.specs.Hash as fed;
    ghost use Rattle.std.specs.Cmp.Rules.{hashing};

    ghost hash_input = { λ id. fed.u32 id.number ++ fed.u64 id.serial };

    ghost respects_eq = { Prim.search (hashing, rules) };

    fn hash<H: Hasher>(&self, state: &mut H) {
        state.write_u32(self.number);
        state.write_u64(self.serial);
    }
}

impl ObjectId {
    /// The null id: number 0, serial 0, the anonymous interface.
    pub fn null() -> Self
        ensures { result ≡ record { number = 0; serial = 0; interface = anonymous_id } }
    {
        ObjectId {
            serial: 0,
            interface: ANONYMOUS_INTERFACE,
            number: 0,
        }
    }

    /// The id with these parts.
    pub fn from_parts(number: u32, serial: u64, interface: InterfaceId) -> Self
        ensures { result ≡ record { number = number; serial = serial; interface = interface } }
    {
        ObjectId {
            serial,
            interface,
            number,
        }
    }

    /// Whether the id is null: whether its number is 0.
    pub fn is_null(&self) -> bool
        ensures { IsTrue result ↔ (self.now.number ≡ 0) }
    {
        self.number == 0
    }

    /// The interface of the object.
    pub fn interface(&self) -> InterfaceId
        ensures { result ≡ self.now.interface }
    {
        self.interface
    }

    /// The number of the object in the protocol: 1 to 0xFEFFFFFF if the client made it, 0xFF000000 or more if the server
    /// made it. It is 0 if the id is null.
    pub fn protocol_id(&self) -> u32
        ensures { result ≡ self.now.number }
    {
        self.number
    }

    /// The id as text: the name of its interface, `@`, and its number. The name is `<unknown>` if the interface is not in
    /// the table.
    pub fn display(&self, alloc: Global, protocol: &Protocol) -> Result<String, OutOfMemory>
        ensures { IfOk result (λ text. string_bytes text ≡ name_of protocol.now self.now.interface.0 ++ codes "@" ++ decimal self.now.number) }
    {
        let name = protocol.name(self.interface);
        let number = self.number;
        Ok(format!(in alloc; "{name}@{number}")?)
    }

    /// The serial of the object, which no other object of the session has.
    pub fn serial(&self) -> u64
        ensures { result ≡ self.now.serial }
    {
        self.serial
    }
}
