//! What a server keeps of one client.
//!
//! A method of `Client` is what a call does to the client, after the server has looked the client up. It stands with the
//! others of its topic: in `objects`, `events`, `reading`, `notes`, or here.
//!
//! A client is *stored* from its insertion until `Backend::cleanup` takes it out. It is *live* as long as it is stored
//! and not killed. Its *slot* is its index in the server's list of clients.

/// Sends what waits.
pub mod flush;
/// A new client.
pub mod insert;
/// `kill`, which marks a client and notes the reason; and the killing after a failed write.
pub mod kill;
/// `transport_mut`.
pub mod transport;

use crate::notes::queues::{MadeNotes, WaitingNotes};
use crate::objects::ClientObjects;
use crate::reading::open_place::OpenPlace;
use crate::reading::violation::Violation;
use std::alloc::Global;
use std::marker::Model;
use wl_link::BufferedSocket;

/// What is kept of a client.
#[derive(Drop)]
pub struct Client<T, U, C> {
    /// The serial in its id.
    pub serial: u64,
    /// Its connection: the transport, and the buffers of what was received and of what is to be sent.
    pub socket: BufferedSocket<T>,
    /// The program's data of the client.
    pub data: C,
    /// Its objects.
    pub objects: ClientObjects<U>,
    /// Whether it was killed. It is then kept until the next cleanup.
    pub is_killed: bool,
    /// How it broke the protocol, if it was killed for a message.
    pub violation: Option<Violation>,
    /// The action that was handed out and is not finished yet.
    pub action: OpenPlace,
    /// The notes that the next cleanup hands on.
    pub waiting: WaitingNotes<U>,
    /// The notes that were made and are not gathered in the server's list yet. A live client has capacity for one more
    /// here. So killing it needs no memory.
    pub made: MadeNotes<U>,
}

impl<T, U, C> Model for Client<T, U, C> {
    ghost use Rattle.std.specs.Coded.{codes};
    ghost use Rattle.std.specs.Prelude.{◌≡◌, ◌<◌, false, map};
    ghost use Rattle.std.specs.VecDeque.{deque_capacity, deque_len};
    ghost use Rattle.wl_link.specs.ObjectMap.{store_code};
    ghost use Rattle.wl_server_client.specs.Stored.{Stored};

    ghost Value = { Stored T U C };

    ghost coded = { Prim.hlevel (codes, store_code) };

    ghost view = { λ c. record {
      serial = c.serial;
      part = record {
        link = c.socket;
        client_data = c.data;
        store = c.objects.map.store;
        last_serial = c.objects.last_serial;
        is_killed = c.is_killed;
        action = c.action;
        registries = c.objects.registries.items;
        waiting = map (λ w. w.1) c.waiting.queue.items;
        violation = c.violation;
      };
      made = map (λ m. m.1) c.made.queue.items;
      times = record { made = map (λ m. m.0) c.made.queue.items; waiting = map (λ w. w.0) c.waiting.queue.items };
    } };

    ghost invariant = { λ c. c.is_killed ≡ false → deque_len c.made.queue < deque_capacity c.made.queue };
}

impl<T, U, C> Client<T, U, C> {
    /// The allocator of all that is kept of the client.
    pub fn alloc(&self) -> Global {
        *self.objects.registries.allocator()
    }
}
