//! A server's session as a host drives it.
//!
//! | Calls | Code |
//! |---|---|
//! | `new`, `add_interfaces`, `extend_interfaces`, `memory_refused`, `set_default_max_buffer_size`, `refuse_nulls` | `server` |
//! | `join_interface` | `server::joining` |
//! | clients, and what arrives of them | `server::clients`, `server::arrivals` |
//! | `next_action`, and those that finish an action | `server::actions`, `server::refusals` |
//! | `send_event`, `post_error` | `server::events` |
//! | objects, globals | `server::objects`, `server::chosen`, `server::held`, `server::globals` |
//! | `set_object_limit` | `server::limits` |
//! | what is to be sent, what waits, and clients that are gone | `server::sending`, `server::waiting`, `server::departures` |
//! | registries that are handed out | `server::registries` |
//! | notes, `keep_notes` | `server::notes` |
//! | what is told of clients | `server::telling` |
//! | `violation` | `server::violations` |

pub mod actions;
pub mod arrivals;
pub mod chosen;
pub mod clients;
pub mod departures;
pub mod events;
pub mod globals;
pub mod held;
pub mod hidden;
pub mod joining;
pub mod ledger;
pub mod limits;
pub mod listing;
pub mod notes;
pub mod objects;
pub mod refusals;
pub mod registries;
pub mod seats;
pub mod sending;
pub mod slots;
pub mod telling;
pub mod violations;
pub mod waiting;

ghost use Rattle.std.specs.Prelude.{[], ◌≡◌, IfErr, IfOk, true};
ghost use Rattle.wl_flat.specs.Descriptors.{Conserves};
ghost use Rattle.wl_host.specs.Server.{kept_by_server};
ghost use Rattle.wl_host.specs.Calls.{world};
ghost use Rattle.wl_flat.specs.Nulls.{sets};
ghost use Rattle.wl_host.specs.Tables.{AddsInterfaces, ExtendsInterfaces, IsNewServer, new_state};
ghost use Rattle.wl_flat.specs.Tables.{IsFaultOf};
ghost use Rattle.wl_server_model.specs.Backend.{Calls};
ghost use Rattle.wl_server_model.specs.declared.step.Reply.TheVariants as reply;
ghost use Rattle.wl_server_model.specs.declared.step.Step.TheVariants as step;
ghost use Rattle.wl_flat.specs.declared.status.Status.TheVariants as status;

use crate::server::registries::Told;
use crate::server::seats::Seats;
use smallvec::SmallVec;
use std::alloc::Global;
use std::collections::{BTreeSet, VecDeque};
use std::fmt;
use std::marker::Model;
use wl_flat::arguments::Objects;
use wl_flat::extending::{ExtensionFault, Growing, extend};
use wl_flat::flat::{FlatClientId, FlatGlobalId, FlatObjectId};
use wl_flat::rows::{Rows, TableFault, interfaces_of, table_answer};
use wl_flat::status::Status;
use wl_link::Mailbox;
use wl_server::{Action, Backend, ClientId, GlobalHandler, GlobalId, Note, ObjectId};
use wl_wire::{Interface, InterfaceId, Message, MessageDesc, Protocol, TableError, Token};

/// How far the buffers of a new client may grow at first, in bytes. The core's 4096 are so few that a client which is busy for
/// a moment is killed.
const DEFAULT_MAX_BUFFER_SIZE: usize = 1048576;

/// The program's data of a client, and which globals it may see.
#[derive(Debug, Drop)]
pub struct HostClient {
    /// The data.
    pub user_data: u64,
    /// The groups that the client is in, one for each bit.
    pub groups: u64,
    /// The globals that are hidden from it.
    pub hidden: BTreeSet<FlatGlobalId>,
}

/// The program's data of a global, and which clients may see it.
#[derive(Debug, Drop)]
pub struct HostGlobal {
    /// The data.
    pub user_data: u64,
    /// The groups of clients that may see it, one for each bit.
    pub groups: u64,
    /// The clients that it is hidden from.
    pub hidden: BTreeSet<FlatClientId>,
}

/// A client sees a global if they have a group in common, and neither is hidden from the other.
impl GlobalHandler<HostClient> for HostGlobal {
    ghost use Rattle.wl_host.specs.Visibility.{sees};

    ghost views = { sees };

    fn can_view(&self, client: &ClientId, client_data: &HostClient, global: &GlobalId) -> bool {
        self.groups & client_data.groups != 0
            && !self.hidden.contains(&FlatClientId::new(*client))
            && !client_data.hidden.contains(&FlatGlobalId::new(*global))
    }
}

/// The core of a server's session: a server over mailboxes. The program's data of an object are a number.
pub type Core = Backend<Mailbox, u64, HostGlobal, HostClient>;

/// A server's session, as a host drives it.
///
/// The host owns the sockets. It passes on what it received (`received`), takes the actions of each client
/// (`next_action`), answers by events (`send_event`) and by finishing the actions, and sends what is to be sent (`next_writable`,
/// `to_send`, `sent`). Clients that were killed are taken out by `cleanup`, and come out of `next_gone`.
///
/// Each descriptor that the session takes in comes out once: with an action, by `sent`, by `next_gone`, or by `next_dropped`.
/// The session takes it in if the call answers `Ok`, and else it is still the host's.
#[derive(Drop)]
pub struct Server {
    /// The core.
    pub(crate) core: Core,
    /// What is kept of the clients beside it.
    pub(crate) seats: Seats,
    /// The notes that were taken from the core and not handed out, the oldest first.
    pub(crate) notes: VecDeque<Note<u64>>,
    /// The action that was read last. It is kept, so that none is made for each reading.
    pub(crate) action: Action,
    /// The event that was sent last. It is kept for the same reason.
    pub(crate) event: Message<ObjectId, Token>,
    /// Whether a call since the last `cleanup` may have killed a client, or made a note that waits for it.
    pub(crate) may_clean_up: bool,
    /// Whether a call since the last look for notes may have made one.
    pub(crate) may_have_notes: bool,
    /// Whether a request with a null that the table forbids is refused.
    pub(crate) refuses_nulls: bool,
    /// Whether notes are kept until the host takes them.
    pub(crate) keeps_notes: bool,
    /// Which registries were told of which globals, and not of their removal since, in order.
    pub(crate) told: Vec<Told>,
    /// Whether the messages of each client that is inserted from now on are told.
    pub(crate) tells: bool,
}

impl fmt::Debug for Server {
    fn fmt<W: fmt::Write>(&self, f: &mut fmt::Formatter<W>) -> fmt::Result {
        f.write_str("Server { .. }")
    }
}

impl Model for Server {
    ghost use Rattle.std.specs.Coded.{codes};
    ghost use Rattle.wl_link.specs.ObjectMap.{store_code};
    ghost use Rattle.wl_host.specs.Server.{ServerState};

    ghost Value = { ServerState };

    ghost coded = { Prim.hlevel (codes, store_code) };

    ghost view = { λ s. record {
      core = s.core;
      seats = s.seats;
      notes = s.notes.items;
      may_clean_up = s.may_clean_up;
      may_have_notes = s.may_have_notes;
      refuses_nulls = s.refuses_nulls;
      keeps_notes = s.keeps_notes;
      told = s.told.items;
      tells = s.tells;
    } };
}

/// An action of no object.
pub(crate) fn no_action(alloc: Global) -> Action {
    Action::Request {
        sender: ObjectId::null(),
        opcode: 0,
        args: SmallVec::new(alloc),
        is_destructor: false,
        created: None,
    }
}

impl Server {
    /// A session without clients and globals, for the table of these rows. The buffers of clients may grow to 1 MiB.
    ///
    /// The error is the first row that names what is not there (`fault::ROW`), or if there is none, the first fault of the table.
    /// It is `fault::OUT_OF_MEMORY` if there was no memory.
    pub fn new(alloc: Global, rows: &Rows) -> Result<Self, TableFault>
        ensures made { IfOk result (IsNewServer rows.now) }
        ensures fault { IfErr result (IsFaultOf rows.now) }
    {
        let interfaces = interfaces_of(alloc, rows)?;
        match Protocol::new(alloc, interfaces) {
            Ok(protocol) => Ok(Server::over(alloc, protocol)),
            Err(error) => Err(TableFault::from(error)),
        }
    }

    /// A session without clients and globals, for this table.
    fn over(alloc: Global, protocol: Protocol) -> Self
        ensures { result ≡ new_state protocol }
    {
        let mut core = Backend::new(alloc, protocol);
        core.set_default_max_buffer_size(DEFAULT_MAX_BUFFER_SIZE);
        Server {
            core,
            seats: Seats::new(alloc),
            notes: VecDeque::new(alloc),
            action: no_action(alloc),
            event: Message {
                sender_id: ObjectId::null(),
                opcode: 0,
                args: SmallVec::new(alloc),
            },
            may_clean_up: false,
            may_have_notes: false,
            refuses_nulls: false,
            keeps_notes: true,
            told: Vec::new(alloc),
            tells: false,
        }
    }

    /// The allocator of all that the session keeps.
    pub(crate) fn alloc(&self) -> Global {
        *self.notes.allocator()
    }

    /// Appends the interfaces of these rows to the table. Their numbers go on behind the last one of the table.
    ///
    /// The error is as that of `new`. Then the table is as it was.
    pub fn add_interfaces(&mut self, rows: &Rows) -> Result<(), TableFault>
        ensures call { AddsInterfaces rows.now self.old.core result self.new.core }
        ensures beside { self.new ≡ record self.old { core = self.new.core } }
        ensures descriptors { Conserves kept_by_server self.old [] [] self.new }
    {
        let interfaces = interfaces_of(self.alloc(), rows)?;
        table_answer(self.core.add_interfaces(interfaces))
    }

    /// Extends the table by whole rows. An interface whose name is new is added. One that the table has is compared with its
    /// row: the messages that both have must be the same, and what the row has more is appended. Its version rises to that of
    /// the row, if that is greater. A shorter row changes nothing.
    ///
    /// Two messages are the same if their names, the types of their arguments, the interfaces that these name and the versions
    /// that have them are. Whether a message is a destructor and whether an argument may be null is not compared, and an
    /// argument that names no interface agrees with any. What the table has stays.
    ///
    /// In the rows the number of an interface is that of the table. The new ones have the numbers after the last one of the
    /// table, in their order among the rows.
    ///
    /// All rows are read and compared before anything changes. `fault::ROW` names a row that names what is not there,
    /// `fault::CONTRADICTS` the first message that differs, of the first row that has one, and `fault::DUPLICATE_NAME` a name
    /// that stands twice among the rows: the table is as it was. If there is none of these, the new interfaces are added, all
    /// of them or none, and the others are extended, one after the other. A fault of what a row has more leaves the new ones
    /// added, and those before it extended. So does `fault::OUT_OF_MEMORY`, and then the same call again goes on.
    pub fn extend_interfaces(&mut self, rows: &Rows) -> Result<(), ExtensionFault>
        ensures call { ExtendsInterfaces rows.now self.old.core result self.new.core }
        ensures beside { self.new ≡ record self.old { core = self.new.core } }
        ensures descriptors { Conserves kept_by_server self.old [] [] self.new }
    {
        let alloc = self.alloc();
        let interfaces = interfaces_of(alloc, rows)?;
        extend(alloc, &mut self.core, interfaces)
    }

    /// Whether memory was refused in the last call of the core that changed it (`wl_server::Backend::memory_refused`).
    pub fn memory_refused(&self) -> bool
        ensures { result ≡ self.now.core.refused }
    {
        self.core.memory_refused()
    }

    /// Sets how far the buffers of each client that is inserted from now on may grow, in bytes
    /// (`wl_server::Backend::set_default_max_buffer_size`).
    pub fn set_default_max_buffer_size(&mut self, size: u64) -> Status
        ensures call { Calls world self.old.core (step.SetDefaultMaxBufferSize size) reply.SetDefaultMaxBufferSize self.new.core }
        ensures beside { self.new ≡ record self.old { core = self.new.core } }
        ensures descriptors { Conserves kept_by_server self.old [] [] self.new }
        ensures status { result ≡ status.Ok }
    {
        self.core.set_default_max_buffer_size(size as usize);
        Status::Ok
    }

    /// Sets whether a request with a null that the table forbids is refused: no such request is handed out then, and its client
    /// is killed (`next_action`). They are if `is_on` is not 0. In a new session they are not, and `forbidden_null` of an action
    /// tells of the null.
    ///
    /// After a call that refused a request so, `memory_refused` says only whether memory ran out as the request was finished, and
    /// not whether it did as the client was told.
    pub fn refuse_nulls(&mut self, is_on: u32) -> Status
        ensures set { self.new ≡ record self.old { refuses_nulls = sets is_on } }
        ensures descriptors { Conserves kept_by_server self.old [] [] self.new }
        ensures status { result ≡ status.Ok }
    {
        self.refuses_nulls = is_on != 0;
        Status::Ok
    }

    /// A call may have killed clients and made notes.
    pub(crate) fn mark(&mut self)
        ensures { self.new ≡ record self.old { may_clean_up = true; may_have_notes = true } }
    {
        self.may_clean_up = true;
        self.may_have_notes = true;
    }
}

impl Objects<ObjectId, Server> for Core {
    ghost use Rattle.wl_host.specs.Calls.{data_or_zero};
    ghost use Rattle.wl_flat.specs.Flat.{flat_resource};

    ghost flat_of = { flat_resource };

    ghost data_of = { data_or_zero };

    fn flat(&self, id: &ObjectId) -> FlatObjectId {
        FlatObjectId::of_resource(*id)
    }

    fn data_or_zero(&self, id: &ObjectId) -> u64 {
        if id.is_null() {
            return 0;
        }
        match self.get_object_data(id) {
            Ok(user_data) => *user_data,
            Err(_) => 0,
        }
    }
}

impl Growing<Server> for Core {
    ghost use Rattle.wl_host.specs.Calls.{world};
    ghost use Rattle.wl_server_model.specs.Backend.{IsGrowth};

    ghost table_of = { λ s. s.server.offer.table };

    ghost grows = { IsGrowth world };

    fn table(&self) -> &Protocol {
        self.protocol()
    }

    fn add(&mut self, interfaces: Vec<Interface>) -> Result<(), TableError> {
        self.add_interfaces(interfaces)
    }

    fn lengthen(
        &mut self,
        id: InterfaceId,
        version: u32,
        requests: Vec<MessageDesc>,
        events: Vec<MessageDesc>,
    ) -> Result<(), TableError> {
        self.extend_interface(id, version, requests, events)
    }
}
