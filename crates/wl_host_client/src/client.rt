//! A client's session as a host drives it.
//!
//! | Calls | Code |
//! |---|---|
//! | `connect`, the table, the limits, `pass_over_unknown_senders`, `refuse_nulls`, `fail`, `last_error` | this file, `client::faults` |
//! | `join_interface` | `client::joining` |
//! | `received`, `received_end`, `receive_failed` | `client::receiving` |
//! | `next_run` | `client::runs` |
//! | `next_event`, `finish_event` | `client::events`, `client::flattening`, `client::refusals` |
//! | `send_request` | `client::requests` |
//! | the calls about one object | `client::objects` |
//! | `next_note` | `client::notes` |
//! | `keep_freed`, `next_freed` | `client::freed` |
//! | `flush`, `to_send`, `sent`, `send_failed`, `next_dropped`, `waiting` | `client::sending`, `client::waiting` |
//! | `tell_messages`, `next_told` | `client::telling` |

ghost use Rattle.std.specs.Prelude.{◌≡◌, [], IfErr, IfOk, Ok};
ghost use Rattle.wl_wire.specs.declared.protocol.TableError.TheVariants as table_error;
ghost use Rattle.wl_flat.specs.Rows.{fault_of};
ghost use Rattle.wl_host_client.specs.Tables.{AddsToClient, ExtendsClient, IsConnectedOver, IsNewClient};
ghost use Rattle.wl_flat.specs.Tables.{IsFaultOf};
ghost use Rattle.wl_wire.specs.Table.{display_id};
ghost use Rattle.wl_host_client.specs.Client.{ConservesClient, SetsLimit, limit_of, mailbox_of, passing_over, with_mailbox};
ghost use Rattle.wl_flat.specs.Flat.{flat_proxy};
ghost use Rattle.wl_flat.specs.Nulls.{sets};
ghost use Rattle.wl_flat.specs.declared.status.Status.TheVariants as status;

mod events;
mod faults;
mod flattening;
mod freed;
mod joining;
mod notes;
mod objects;
mod receiving;
mod refusals;
mod requests;
mod runs;
mod sending;
mod telling;
mod waiting;

use self::notes::DestroyedObject;
use self::telling::Messages;
use smallvec::SmallVec;
use std::alloc::Global;
use std::collections::VecDeque;
use std::fmt;
use std::marker::Model;
use wl_client::{Backend, ObjectId};
use wl_flat::descriptors::DescriptorQueue;
use wl_flat::extending::{ExtensionFault, Growing, extend};
use wl_flat::flat::FlatObjectId;
use wl_flat::rows::{Rows, TableFault, interfaces_of, table_answer};
use wl_flat::status::Status;
use wl_link::Mailbox;
use wl_wire::{Interface, InterfaceId, Message, MessageDesc, Protocol, TableError, Token};

/// The core of a client's session: the session over a mailbox. The program's data of an object are a number.
pub type Core = Backend<Mailbox, u64>;

/// A client's session, for a host that owns the socket. It stands for `wayland_backend::client::Backend`.
///
/// The host puts in what it received (`received`), and asks for the events (`next_event`). It sends requests
/// (`send_request`), has them put together (`flush`), sends what there is (`to_send`), and says how much it sent (`sent`).
///
/// A descriptor that is put in comes out once: with an event, by `sent`, or by `next_dropped`. It is put in by a call of
/// `received` or `send_request` that succeeds. After any other answer it is still the host's.
#[derive(Drop)]
pub struct Client {
    /// The session.
    core: Core,
    /// The descriptors that arrived, and no event has handed out.
    arrivals: DescriptorQueue,
    /// The descriptors of requests that were not sent yet.
    departures: DescriptorQueue,
    /// The event that was read last. It is kept here, so that no new one is made for each event.
    event: Message<ObjectId, Token>,
    /// Whether that event is still to be handed out: the memory that was lent for it was too small.
    is_kept: bool,
    /// The request that is being sent, kept for the same reason.
    request: Message<ObjectId, Token>,
    /// The objects that ended and were not handed out yet, the oldest first. The core itself keeps no note between two calls.
    notes: VecDeque<DestroyedObject>,
    /// Whether an event with a null that the table forbids ends the session.
    refuses_nulls: bool,
    /// What is told of its messages, if they are told.
    messages: Messages,
    /// Whether nothing was received or sent yet.
    is_new: bool,
}

impl fmt::Debug for Client {
    fn fmt<W: fmt::Write>(&self, f: &mut fmt::Formatter<W>) -> fmt::Result {
        f.write_str("Client { .. }")
    }
}

impl Model for Client {
    ghost use Rattle.std.specs.Prelude.{◌≡◌, []};
    ghost use Rattle.std.specs.Coded.{codes};
    ghost use Rattle.wl_link.specs.ObjectMap.{store_code};
    ghost use Rattle.wl_host_client.specs.Client.{HostedClient, kept_of};

    ghost Value = { HostedClient };

    ghost coded = { Prim.hlevel (codes, store_code) };

    ghost view = { λ c. record {
      core = c.core;
      arrivals = c.arrivals;
      departures = c.departures;
      kept = kept_of c.is_kept c.event;
      notes = c.notes.items;
      refuses_nulls = c.refuses_nulls;
      telling = c.messages;
      is_new = c.is_new;
    } };

    ghost invariant = { λ c. c.core.session.notes ≡ [] };
}

/// A message without arguments.
fn empty_message(alloc: Global) -> Message<ObjectId, Token> {
    Message {
        sender_id: ObjectId::null(),
        opcode: 0,
        args: SmallVec::new(alloc),
    }
}

/// A size in bytes. One that is no `usize` is the greatest.
fn size_of(size: u64) -> usize
    ensures { result ≡ size }
{
    usize::try_from(size).unwrap_or(usize::MAX)
}

impl Client {
    /// A new session with the table of these rows. It has one object, the display. Nothing is sent yet.
    ///
    /// The fault says what is wrong with the rows, or that there was no memory.
    pub fn connect(alloc: Global, rows: &Rows) -> Result<Client, TableFault>
        ensures connected { IfOk result (IsNewClient rows.now) }
        ensures fault { IfErr result (IsFaultOf rows.now) }
    {
        let interfaces = interfaces_of(alloc, rows)?;
        match Protocol::new(alloc, interfaces) {
            Ok(protocol) => Client::over(alloc, protocol),
            Err(error) => Err(TableFault::from(error)),
        }
    }

    /// A new session with this table.
    fn over(alloc: Global, protocol: Protocol) -> Result<Client, TableFault>
        ensures connected { IfOk result (IsConnectedOver protocol) }
        ensures fault { IfErr result (λ fault. fault ≡ fault_of table_error.OutOfMemory) }
    {
        let Ok(core) = Backend::connect(alloc, protocol, Mailbox::new(alloc)) else {
            return Err(TableFault::from(TableError::OutOfMemory));
        };
        Ok(Client {
            core,
            arrivals: DescriptorQueue::new(alloc),
            departures: DescriptorQueue::new(alloc),
            event: empty_message(alloc),
            is_kept: false,
            request: empty_message(alloc),
            notes: VecDeque::new(alloc),
            refuses_nulls: false,
            messages: Messages::none(),
            is_new: true,
        })
    }

    /// Appends the interfaces of these rows to the table, all of them or none. The interfaces that are there keep their
    /// numbers.
    ///
    /// The fault says what is wrong with the rows, or that there was no memory. Then the table is as it was.
    pub fn add_interfaces(&mut self, rows: &Rows) -> Result<(), TableFault>
        ensures call { AddsToClient rows.now self.old.core result self.new.core }
        ensures beside { self.new ≡ record self.old { core = self.new.core } }
        ensures descriptors { ConservesClient self.old [] [] self.new }
    {
        let alloc = *self.notes.allocator();
        let interfaces = interfaces_of(alloc, rows)?;
        table_answer(self.core.add_interfaces(interfaces))
    }

    /// Extends the table by whole rows, as `Server::extend_interfaces` does.
    pub fn extend_interfaces(&mut self, rows: &Rows) -> Result<(), ExtensionFault>
        ensures call { ExtendsClient rows.now self.old.core result self.new.core }
        ensures beside { self.new ≡ record self.old { core = self.new.core } }
        ensures descriptors { ConservesClient self.old [] [] self.new }
    {
        let alloc = *self.notes.allocator();
        let interfaces = interfaces_of(alloc, rows)?;
        extend(alloc, &mut self.core, interfaces)
    }

    /// Whether memory was refused in the last call of the core that changes it.
    pub fn memory_refused(&self) -> bool
        ensures { result ≡ self.now.core.refused }
    {
        self.core.memory_refused()
    }

    /// Sets how far the buffers of the connection may grow, in bytes. If `has_limit` is 0, there is no limit, as in a new
    /// session.
    ///
    /// The limit is rounded up to a power of two, and is at least 4096. The buffer of what was received never grows beyond
    /// 65536 bytes.
    pub fn set_max_buffer_size(&mut self, has_limit: u32, size: u64) -> Status
        ensures call { SetsLimit self.old.core (limit_of has_limit size) self.new.core }
        ensures beside { self.new ≡ record self.old { core = self.new.core } }
        ensures descriptors { ConservesClient self.old [] [] self.new }
        ensures answer { result ≡ status.Ok }
    {
        let limit = if has_limit == 0 {
            None
        } else {
            Some(size_of(size))
        };
        self.core.set_max_buffer_size(limit);
        Status::Ok
    }

    /// Sets whether messages of unknown senders are passed over (`Backend::pass_over_unknown_senders`): they are if `passes` is
    /// not 0. In a new session they are not.
    ///
    /// Such a message takes no descriptor. One that came with it goes out with the next event that has one, or comes by
    /// `next_dropped` when the session has failed.
    pub fn pass_over_unknown_senders(&mut self, passes: u32) -> Status
        ensures set { self.new ≡ passing_over self.old passes }
        ensures descriptors { ConservesClient self.old [] [] self.new }
        ensures answer { result ≡ status.Ok }
    {
        self.core.pass_over_unknown_senders(passes != 0);
        Status::Ok
    }

    /// Sets how many bytes may wait for the host to send them. Once so many wait, `flush` answers `WouldBlock`.
    pub fn set_room(&mut self, room: u64) -> Status
        ensures room { self.new ≡ with_mailbox self.old (record (mailbox_of self.old) { room = room }) }
        ensures descriptors { ConservesClient self.old [] [] self.new }
        ensures answer { result ≡ status.Ok }
    {
        self.core.transport_mut().set_room(size_of(room));
        Status::Ok
    }

    /// Sets whether an event with a null that the table forbids is refused: no such event is handed out then, and the session ends
    /// (`next_event`). They are if `is_on` is not 0. In a new session they are not, and `forbidden_null` of an event tells of the
    /// null.
    pub fn refuse_nulls(&mut self, is_on: u32) -> Status
        ensures set { self.new ≡ record self.old { refuses_nulls = sets is_on } }
        ensures descriptors { ConservesClient self.old [] [] self.new }
        ensures answer { result ≡ status.Ok }
    {
        self.refuses_nulls = is_on != 0;
        Status::Ok
    }

    /// The id of the display, `wl_display`, which is object 1.
    pub fn display(&self) -> Result<FlatObjectId, Status>
        ensures { result ≡ Ok (flat_proxy (record { number = 1; serial = 0; interface = display_id })) }
    {
        Ok(FlatObjectId::of_proxy(self.core.display_id()))
    }
}

impl Growing<Client> for Core {
    ghost use Rattle.wl_host_client.specs.Tables.{ClientGrows};

    ghost table_of = { λ s. s.session.table };

    ghost grows = { ClientGrows };

    fn table(&self) -> &Protocol {
        self.protocol()
    }

    fn add(&mut self, interfaces: Vec<Interface>) -> Result<(), TableError> {
        self.add_interfaces(interfaces)
    }

    fn lengthen(
        &mut self,
        id: InterfaceId,
        version: u32,
        requests: Vec<MessageDesc>,
        events: Vec<MessageDesc>,
    ) -> Result<(), TableError> {
        self.extend_interface(id, version, requests, events)
    }
}
