//! The ids of a server's globals, and what a global offers.

ghost use Rattle.std.specs.Prelude.{◌≡◌};

use std::marker::Model;
use wl_wire::InterfaceId;

/// The id of a global: its name, and a serial that no other global has. So it never names a later global of the same
/// name (`wl_server::laws::no_id_is_given_twice`).
///
/// It stands for `wayland_backend::server::GlobalId`.
#[derive(Clone, Copy, Debug, PartialEq, Eq, Hash)]
pub struct GlobalId {
    serial: u64,
    name: u32,
}

impl Model for GlobalId {
    ghost use Rattle.wl_server_client.specs.Ids.{GlobalParts};

    ghost Value = { GlobalParts };

    ghost view = { λ id. record { name = id.name; serial = id.serial } };

    ghost inverse = { λ id. record { serial = id.serial; name = id.name } };
}

impl GlobalId {
    /// Makes the id of these parts. It need not name a global.
    pub fn from_parts(name: u32, serial: u64) -> Self
        ensures { result ≡ record { name = name; serial = serial } }
    {
        GlobalId { serial, name }
    }

    /// The name, a number by which clients bind the global (`wl_registry.bind`).
    pub fn name(&self) -> u32
        ensures { result ≡ self.now.name }
    {
        self.name
    }

    /// The serial, counted from 1. No other global of the server ever has it.
    pub fn serial(&self) -> u64
        ensures { result ≡ self.now.serial }
    {
        self.serial
    }
}

/// What a global offers.
///
/// It stands for `wayland_backend::server::GlobalInfo`.
#[derive(Clone, Copy, Debug)]
pub struct GlobalInfo {
    /// The interface of the objects that are bound to it.
    pub interface: InterfaceId,
    /// The greatest version that can be bound.
    pub version: u32,
    /// Whether it was disabled: it is no longer announced, and clients may still bind it.
    pub disabled: bool,
}
