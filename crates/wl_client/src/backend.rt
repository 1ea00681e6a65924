//! The client's session as a program uses it: its fields, how it is made, and the calls that are not about requests, events
//! or objects.

ghost use Rattle.std.specs.Prelude.{◌≡◌, ◌∷◌, [], false, length, Ok, IfOk, option_copied};
ghost use Rattle.std.specs.Borrow.{sem};
ghost use Rattle.wl_wire.specs.Table.{AnswersExtension, AnswersGrowth, IsAcceptedTable, LongerRow, NewRows, after_extension, display_id, extension_of, grown, interface_rows, refused_growth};
ghost use Rattle.wl_link.specs.Link.{LinkState, LimitSet};
ghost use Rattle.wl_link.specs.Store.{empty_store, stored};
ghost use Rattle.wl_client.specs.Accounts.{CallsLocally, IsGrowth};
ghost use Rattle.wl_client.specs.Plain.Calls.{AddsInterfaces, ExtendsInterface, FailsBy, SetsLimit, SetsPassingOver, TakesNotes};
ghost use Rattle.wl_client.specs.Session.{IsConnected, display_object, failed_by};
ghost use Rattle.wl_client.specs.Steps.{CallOf};
ghost use Rattle.wl_client.specs.declared.step.Reply.TheVariants as reply;
ghost use Rattle.wl_client.specs.declared.step.Step.TheVariants as step;

use crate::error::WaylandError;
use crate::event::OpenEvent;
use crate::freed::Freed;
use crate::object_id::ObjectId;
use crate::objects::{Kept, Note, fresh_object};
use std::alloc::Global;
use std::collections::VecDeque;
use std::marker::Model;
use std::{fmt, mem};
use wl_link::{BufferedSocket, MessagePlace, ObjectMap, Transport};
use wl_wire::{
    DISPLAY, Interface, InterfaceId, MessageDesc, OutOfMemory, Protocol, TableError,
    WL_DISPLAY_INTERFACE,
};

/// A client's session with its server.
///
/// It stands for `wayland_backend::client::Backend`. It opens no socket and starts no thread: it does something only within
/// a call. `next_event` receives and hands out events, `send_request` and `flush` send. Its types are the program's choice:
///
/// - `T` is the transport, which carries bytes and file descriptors.
/// - `U` is the user data of an object.
#[derive(Drop)]
pub struct Backend<T, U> {
    /// The table of interfaces.
    pub(crate) protocol: Protocol,
    /// The connection: the transport, and the buffers of what was received and of what is to be sent.
    pub(crate) socket: BufferedSocket<T>,
    /// The objects by number.
    pub(crate) objects: ObjectMap<Kept<U>>,
    /// The serial of the object that was made last; 0 if none was.
    pub(crate) last_serial: u64,
    /// The session's error, if it has one.
    pub(crate) error: Option<WaylandError>,
    /// The event that was handed out and is not finished yet.
    pub(crate) open_event: Option<OpenEvent>,
    /// The notes that were not taken yet, the oldest first.
    pub(crate) notes: Vec<Note>,
    /// Whether messages of unknown senders are passed over.
    pub(crate) passes_over: bool,
    /// The ids of the objects that left their numbers, if they are kept.
    pub(crate) freed: Freed,
    /// Whether memory ran out in the last call that took `&mut self`.
    pub(crate) refused: bool,
    /// The message that is being read. It is kept here, so that no new one is made for each message.
    pub(crate) place: MessagePlace,
}

impl<T, U> fmt::Debug for Backend<T, U> {
    fn fmt<W: fmt::Write>(&self, f: &mut fmt::Formatter<W>) -> fmt::Result {
        f.write_str("Backend { .. }")
    }
}

impl<T, U> Model for Backend<T, U> {
    ghost use Rattle.std.specs.Coded.{codes};
    ghost use Rattle.wl_link.specs.ObjectMap.{store_code};
    ghost use Rattle.wl_client.specs.Session.{ClientState};

    ghost Value = { ClientState T U };

    ghost coded = { Prim.hlevel (codes, store_code) };

    ghost view = { λ b. record {
      session = record {
        table = b.protocol;
        link = b.socket;
        store = b.objects.store;
        last_serial = b.last_serial;
        error = b.error;
        open_event = b.open_event;
        notes = b.notes.items;
        passes_over = b.passes_over;
        keeps_freed = b.freed.kept;
        freed = b.freed.ids.items;
      };
      refused = b.refused;
    } };
}

/// The objects of a new session: the display alone.
fn first_objects<U: Drop>(alloc: Global) -> Result<ObjectMap<Kept<U>>, OutOfMemory>
    ensures { IfOk result (λ objects. objects.store ≡ stored empty_store 1 display_object) }
{
    let mut objects = ObjectMap::new(alloc);
    let display = fresh_object(WL_DISPLAY_INTERFACE, 1, 0, None);
    match objects.insert_at(DISPLAY, display) {
        Ok(()) => Ok(objects),
        Err(_) => Err(OutOfMemory),
    }
}

/// Whether the table refused to grow for want of memory.
fn lacks_memory(answer: &Result<(), TableError>) -> bool
    ensures { result ≡ refused_growth answer.now }
{
    matches!(answer, Err(TableError::OutOfMemory))
}

impl<T: Drop, U: Drop> Backend<T, U> {
    /// A new session over the transport, with this table of interfaces. It has one object: the display, with number 1 and
    /// version 1.
    ///
    /// It stands for `wayland_backend::client::Backend::connect`. Nothing is sent yet, and no limit is set for what waits
    /// to be sent.
    pub fn connect(alloc: Global, protocol: Protocol, transport: T) -> Result<Self, OutOfMemory>
        ensures connected { IfOk result (λ client. IsConnected protocol transport client.session) }
        ensures refused { IfOk result (λ client. client.refused ≡ false) }
    {
        let objects = first_objects(alloc)?;
        let socket = BufferedSocket::new(alloc, transport, None)?;
        Ok(Backend {
            protocol,
            socket,
            objects,
            last_serial: 0,
            error: None,
            open_event: None,
            notes: Vec::new(alloc),
            passes_over: false,
            freed: Freed {
                kept: false,
                ids: VecDeque::new(alloc),
            },
            refused: false,
            place: MessagePlace::new(alloc),
        })
    }

    /// The id of the display, `wl_display`, which is object 1.
    pub fn display_id(&self) -> ObjectId
        ensures { result ≡ record { number = 1; serial = 0; interface = display_id } }
    {
        ObjectId::from_parts(DISPLAY, 0, WL_DISPLAY_INTERFACE)
    }

    /// The table of interfaces: the one that the session was made with, and what was added since.
    pub fn protocol(&self) -> &Protocol
        ensures { result.now ≡ self.now.session.table }
    {
        &self.protocol
    }

    /// The transport.
    pub fn transport(&self) -> &T
        ensures { result.now ≡ self.now.session.link.transport }
    {
        self.socket.transport()
    }

    /// How much waits in the session: the bytes and the tokens that were received and not read yet, and the bytes and the tokens
    /// that were written and not sent yet. What waits in the transport is not counted.
    pub fn waiting(&self) -> [usize; 4]
        ensures { result ≡ length self.now.session.link.incoming.bytes ∷ length self.now.session.link.incoming.tokens
            ∷ length self.now.session.link.outgoing.bytes ∷ length self.now.session.link.outgoing.tokens ∷ [] }
    {
        self.socket.waiting()
    }

    /// Whether memory ran out in the last call that took `&mut self`, in the session or in its transport. A call of
    /// `transport_mut` does not count as one.
    pub fn memory_refused(&self) -> bool
        ensures { result ≡ self.now.refused }
    {
        self.refused
    }

    /// The session's error, if it has one: a fault of the transport, an error that the server sent, what was wrong with an
    /// event, or what the program gave `fail`.
    ///
    /// A session that has an error reads and flushes no more. Its other calls go on. If a later request meets a fault while
    /// it is written, that fault takes the place of the error.
    pub fn last_error(&self) -> Option<&WaylandError>
        ensures { option_copied result ≡ self.now.session.error }
    {
        self.error.as_ref()
    }
}

impl<T: Drop, U: Drop> Backend<T, U> {
    ghost use Rattle.wl_client.specs.Lending.{LendsClientTransport};

    /// The transport, which the caller may change. The session is otherwise as it was.
    ///
    /// Whatever the caller leaves in it is a change in the session's history (`laws::local_calls_are_calls`).
    pub fn transport_mut(&mut self) -> &mut T
        ensures* lends { sem 𝓛 (LendsClientTransport T.row U.row self.entry result) }
        ensures value { result.now ≡ self.old.session.link.transport }
    {
        self.socket.transport_mut()
    }

    /// Ends the session with this error, unless it has one. It reads and flushes no more (`last_error`).
    ///
    /// An event that is open is closed, as no other call does: an object that it made gets no user data, and an event that ends its
    /// sender leaves that alive. It allocates nothing.
    pub fn fail(&mut self, error: WaylandError)
        ensures call { CallsLocally self.old (step.Fail error) reply.Fail self.new }
        ensures plain { FailsBy self.old.session error self.new.session }
        ensures failed { self.new.session ≡ failed_by self.old.session error }
        ensures refused { self.new.refused ≡ false }
    {
        self.refused = false;
        self.open_event = None;
        if self.error.is_none() {
            self.error = Some(error);
        }
    }

    /// Takes the notes, the oldest first. A *note* says that an object which had user data was destroyed. It allocates
    /// nothing.
    pub fn take_notes(&mut self) -> Vec<Note>
        ensures call { CallsLocally self.old step.TakeNotes (reply.TakeNotes result) self.new }
        ensures plain { TakesNotes self.old.session result.items self.new.session }
        ensures taken { result.items ≡ self.old.session.notes }
        ensures left { self.new.session ≡ record self.old.session { notes = [] } }
        ensures refused { self.new.refused ≡ false }
    {
        self.refused = false;
        let none = Vec::new(*self.notes.allocator());
        mem::replace(&mut self.notes, none)
    }

    /// Sets how far the buffers of the connection may grow, in bytes.
    ///
    /// There are two: one for what waits to be sent, and one for what was received and waits to be read. The limit is
    /// rounded up to a power of two, and is at least 4096. `None` is no limit, as in a new session. The buffer of what was
    /// received never grows beyond 65536 bytes.
    pub fn set_max_buffer_size(&mut self, max_buffer_size: Option<usize>)
        ensures call { CallsLocally self.old (step.SetMaxBufferSize max_buffer_size) reply.SetMaxBufferSize self.new }
        ensures plain { SetsLimit self.old.session max_buffer_size self.new.session }
        ensures set { (link : LinkState T) × LimitSet self.old.session.link max_buffer_size link
            × (self.new.session ≡ record self.old.session { link = link }) }
        ensures refused { self.new.refused ≡ false }
    {
        self.refused = false;
        self.socket.set_max_buffer_size(max_buffer_size);
    }

    /// Sets whether messages of unknown senders are *passed over*, as libwayland does. In a new session they are not, and such a
    /// message ends the session as malformed.
    ///
    /// The sender of a message is unknown if its number holds no object: none was ever made there, or the server has deleted
    /// the id of one that the client destroyed. Nothing is known of the arguments of such a message: its bytes are passed over,
    /// and it takes no descriptor. If it had some, the next message that takes descriptors gets them. A message whose length is
    /// below 8, that of the header, ends the session all the same.
    ///
    /// An object that the client destroyed, and whose id is not deleted yet, is known, and so are its events: with this setting
    /// and without it they are dropped with their descriptors. With it one that its interface does not have is passed over, too.
    /// An object that the client has not destroyed has to get events of its interface.
    ///
    /// Set it before the first reading: what was received and is not read yet is read by it. It allocates nothing.
    pub fn pass_over_unknown_senders(&mut self, passes: bool)
        ensures call { CallsLocally self.old (step.PassOverUnknownSenders passes) reply.PassOverUnknownSenders self.new }
        ensures plain { SetsPassingOver self.old.session passes self.new.session }
        ensures set { self.new.session ≡ record self.old.session { passes_over = passes } }
        ensures refused { self.new.refused ≡ false }
    {
        self.refused = false;
        self.passes_over = passes;
    }

    /// Does nothing and returns `Ok(0)`: there is no inner queue.
    pub fn dispatch_inner_queue(&mut self) -> Result<usize, WaylandError>
        ensures call { CallsLocally self.old step.DispatchInnerQueue (reply.DispatchInnerQueue result) self.new }
        ensures plain { (result ≡ Ok 0) × (self.new.session ≡ self.old.session) }
        ensures answer { result ≡ Ok 0 }
        ensures session { self.new.session ≡ self.old.session }
        ensures refused { self.new.refused ≡ false }
    {
        self.refused = false;
        Ok(0)
    }
}

impl<T: Transport + Drop, U: Drop> Backend<T, U> {
    /// Appends more interfaces to the session's table, all of them or none, as `Protocol::extend` does. The interfaces that
    /// are there keep their ids, and nothing else of the session changes. After an error the table is as it was.
    pub fn add_interfaces(&mut self, interfaces: Vec<Interface>) -> Result<(), TableError>
        ensures call { IsGrowth (CallOf T.sends T.receives) self.old (NewRows (interface_rows interfaces.items)) result self.new }
        ensures plain { AddsInterfaces self.old.session (interface_rows interfaces.items) result self.new.session }
        ensures answer { AnswersGrowth self.old.session.table (interface_rows interfaces.items) result }
        ensures session { self.new.session
            ≡ record self.old.session { table = grown self.old.session.table (interface_rows interfaces.items) result } }
        ensures accepted { IsAcceptedTable self.new.session.table }
        ensures refused { self.new.refused ≡ refused_growth result }
    {
        let answer = self.protocol.extend(interfaces);
        self.refused = lacks_memory(&answer);
        answer
    }

    /// Appends more requests and events to those of an interface that the session's table has, all of them or none, and
    /// raises its version, as `Protocol::extend_row` does. What is there keeps its opcodes, and nothing else of the session
    /// changes. After an error the table is as it was.
    ///
    /// What was received and is not read yet is read by the longer row: an event whose opcode was outside the row, which would
    /// have ended the session, is then handed out.
    pub fn extend_interface(
        &mut self,
        interface: InterfaceId,
        version: u32,
        requests: Vec<MessageDesc>,
        events: Vec<MessageDesc>,
    ) -> Result<(), TableError>
        ensures call { IsGrowth (CallOf T.sends T.receives) self.old
            (LongerRow (extension_of interface version requests.items events.items)) result self.new }
        ensures plain { ExtendsInterface self.old.session (extension_of interface version requests.items events.items) result self.new.session }
        ensures answer { AnswersExtension self.old.session.table (extension_of interface version requests.items events.items) result }
        ensures session { self.new.session ≡ record self.old.session {
          table = after_extension self.old.session.table (extension_of interface version requests.items events.items) result;
        } }
        ensures accepted { IsAcceptedTable self.new.session.table }
        ensures refused { self.new.refused ≡ refused_growth result }
    {
        let answer = self
            .protocol
            .extend_row(interface, version, requests, events);
        self.refused = lacks_memory(&answer);
        answer
    }
}
