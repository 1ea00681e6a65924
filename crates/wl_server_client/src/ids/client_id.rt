//! The ids of a server's clients.

ghost use Rattle.std.specs.Prelude.{◌≡◌};

use std::marker::Model;

/// The id of a client: its slot, and a serial that no other client has. So it never names a later client of the same
/// slot (`wl_server::laws::no_id_is_given_twice`).
///
/// It stands for `wayland_backend::server::ClientId`.
#[derive(Clone, Copy, Debug, PartialEq, Eq, Hash)]
pub struct ClientId {
    serial: u64,
    slot: u32,
}

impl Model for ClientId {
    ghost use Rattle.wl_server_client.specs.Ids.{ClientParts};

    ghost Value = { ClientParts };

    ghost view = { λ id. record { slot = id.slot; serial = id.serial } };

    ghost inverse = { λ id. record { serial = id.serial; slot = id.slot } };
}

impl ClientId {
    /// Makes the id of these parts. It need not name a client.
    pub fn from_parts(slot: u32, serial: u64) -> Self
        ensures { result ≡ record { slot = slot; serial = serial } }
    {
        ClientId { serial, slot }
    }

    /// The slot, an index. No other client of the server has it at the same time.
    pub fn slot(&self) -> u32
        ensures { result ≡ self.now.slot }
    {
        self.slot
    }

    /// The serial, counted from 1. No other client of the server ever has it.
    pub fn serial(&self) -> u64
        ensures { result ≡ self.now.serial }
    {
        self.serial
    }
}
