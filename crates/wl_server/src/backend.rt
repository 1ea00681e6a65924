//! The server as a program uses it, and the fields that it keeps.

ghost use Rattle.std.specs.Prelude.{◌≡◌, false};
ghost use Rattle.wl_server_model.specs.Server.{new_server};

use crate::client::Slots;
use crate::client::touched::Touched;
use std::alloc::Global;
use std::fmt;
use std::marker::Model;
use wl_link::{DEFAULT_MAX_BUFFER_SIZE, MessagePlace, ObjectMap};
use wl_server_client::globals::KeptGlobal;
use wl_server_client::notes::Note;
use wl_server_client::notes::queues::NoteNumbers;
use wl_wire::Protocol;

/// A Wayland server: its clients, their objects, and its globals.
///
/// It stands for `wayland_backend::server::Backend` and `Handle`, and a call with the name of one of theirs stands for
/// that one. It opens no socket and starts no thread: it does something only within a call. Its types are the program's
/// choice:
///
/// - `T` is the transport, which carries bytes and file descriptors. Each client has one.
/// - `U` is the user data of an object.
/// - `G` is the handler of a global, which says which clients may see it (`GlobalHandler`).
/// - `C` is the program's data of a client.
///
/// A client is *stored* from `insert_client` until a cleanup takes it out. It is *live* as long as it is stored and not
/// killed.
#[derive(Drop)]
pub struct Backend<T, U, G, C> {
    /// The table of interfaces.
    pub(crate) protocol: Protocol,
    /// The globals by name.
    pub(crate) globals: ObjectMap<KeptGlobal<G>>,
    /// The serial of the global that was created last; 0 if none was.
    pub(crate) last_global: u64,
    /// Whether a new global gets only a name that was never in use.
    pub(crate) keeps_names: bool,
    /// How far the buffers of new clients may grow, in bytes.
    pub(crate) default_limit: usize,
    /// The greatest number at which a request may make an object, if there is a limit.
    pub(crate) object_limit: Option<u32>,
    /// Whether a registry that a client asks for is handed out.
    pub(crate) hands_registries: bool,
    /// The serial of the client that was inserted last; 0 if none was.
    pub(crate) last_client: u64,
    /// The clients by slot.
    pub(crate) clients: Slots<T, U, C>,
    /// Which of them were touched: for no other does anything wait.
    pub(crate) touched: Touched,
    /// The first slot that may be free: each slot below it has a client. The search for a free slot begins here.
    pub(crate) free_from: usize,
    /// The notes that are gathered and not taken by the program yet, the oldest first.
    pub(crate) notes: Vec<Note<U>>,
    /// The numbers that the next notes get.
    pub(crate) numbers: NoteNumbers,
    /// What `memory_refused` returns.
    pub(crate) refused: bool,
    /// The place of the message that is being read. A sync is answered from it, too. It is kept here, so that no message is
    /// made for either.
    pub(crate) place: MessagePlace,
}

impl<T, U, G, C> fmt::Debug for Backend<T, U, G, C> {
    fn fmt<W: fmt::Write>(&self, f: &mut fmt::Formatter<W>) -> fmt::Result {
        f.write_str("Backend { .. }")
    }
}

impl<T, U, G, C> Model for Backend<T, U, G, C> {
    ghost use Rattle.std.specs.Coded.{codes};
    ghost use Rattle.std.specs.Prelude.{map, vec_len};
    ghost use Rattle.wl_link.specs.ObjectMap.{store_code};
    ghost use Rattle.wl_server_model.specs.Backend.{BackendState};
    ghost use Rattle.wl_server_model.specs.Inside.Inserting.{HasSlots};
    ghost use Rattle.wl_server.specs.Inside.Touched.{AreTouched};
    ghost use Rattle.wl_server_model.specs.NoteOrder.{AllNumbered, HasNumbers};
    ghost use Rattle.wl_server_client.specs.NoteTimes.{times_of};

    ghost Value = { BackendState T U G C };

    ghost coded = { Prim.hlevel (codes, store_code) };

    ghost view = { λ b. record {
      server = record {
        offer = record {
          table = b.protocol;
          globals = record { store = b.globals.store; last_serial = b.last_global; keeps_names = b.keeps_names };
          default_limit = b.default_limit;
          object_limit = b.object_limit;
          hands_registries = b.hands_registries;
        };
        last_client = b.last_client;
        clients = b.clients.items;
        notes = b.notes.items;
        numbers = b.numbers;
      };
      refused = b.refused;
    } };

    ghost invariant = { λ b. HasSlots (vec_len b.clients) b.free_from b.clients.items × HasNumbers b.numbers (map times_of b.clients.items) × AllNumbered b.clients.items × AreTouched b.touched b.clients.items };
}

impl<T: Drop, U: Drop, G: Drop, C: Drop> Backend<T, U, G, C> {
    /// A server without clients and globals, for this table of interfaces.
    pub fn new(alloc: Global, protocol: Protocol) -> Self
        ensures server { result.server ≡ new_server protocol }
        ensures refused { result.refused ≡ false }
    {
        Backend {
            protocol,
            globals: ObjectMap::new(alloc),
            last_global: 0,
            keeps_names: false,
            default_limit: DEFAULT_MAX_BUFFER_SIZE,
            object_limit: None,
            hands_registries: false,
            last_client: 0,
            clients: Vec::new(alloc),
            touched: Touched::all(alloc),
            free_from: 0,
            notes: Vec::new(alloc),
            numbers: NoteNumbers::new(),
            refused: false,
            place: MessagePlace::new(alloc),
        }
    }

    /// The allocator of all that the server keeps.
    pub(crate) fn alloc(&self) -> Global {
        *self.notes.allocator()
    }

    /// The table of interfaces: the one that the server was made with, and what was added since.
    pub fn protocol(&self) -> &Protocol
        ensures { result.now ≡ self.now.server.offer.table }
    {
        &self.protocol
    }

    /// Whether memory ran out in the last call that took `&mut self`, in the server or in a transport. A call of
    /// `transport_mut` does not count as one.
    ///
    /// It may be `true` even if that call returned no error: for instance, if a client could not be told something and
    /// was killed.
    pub fn memory_refused(&self) -> bool
        ensures { result ≡ self.now.refused }
    {
        self.refused
    }
}
