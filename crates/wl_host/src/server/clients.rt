//! The clients of a server's session.

ghost use Rattle.std.specs.Prelude.{[], ◌≡◌, IfOk, length, map, min, option_map};
ghost use Rattle.wl_flat.specs.Descriptors.{Conserves};
ghost use Rattle.wl_host.specs.Server.{kept_by_server};
ghost use Rattle.wl_host.specs.Calls.{InsertsClient, TellsNextClient, or_invalid, world};
ghost use Rattle.wl_host.specs.Clients.{SetsRoom, inserted, marked};
ghost use Rattle.wl_host.specs.Lists.{Lists, filled};
ghost use Rattle.wl_flat.specs.Told.{first_telling};
ghost use Rattle.wl_flat.specs.Flat.{client_of, flat_client};
ghost use Rattle.wl_server_model.specs.Backend.{Calls};
ghost use Rattle.wl_server_model.specs.Lookups.{client_data_of, live_clients};
ghost use Rattle.wl_server_model.specs.declared.step.Reply.TheVariants as reply;
ghost use Rattle.wl_server_model.specs.declared.step.Step.TheVariants as step;
ghost use Rattle.wl_server_client.specs.declared.notes.DisconnectReason.TheVariants as reason;
ghost use Rattle.wl_flat.specs.declared.status.Status.TheVariants as status;

use crate::server::listing::{put_next, room_for};
use crate::server::{HostClient, Server, hidden};
use wl_flat::flat::{FlatClientId, FlatGlobalId, count_number};
use wl_flat::status::Status;
use wl_flat::telling::Telling;
use wl_link::Mailbox;
use wl_server::{ClientId, DisconnectReason};
use wl_wire::OutOfMemory;

/// How many bytes wait in the mailbox of a client until no more are put there, if the host sets no other number. What comes
/// behind them waits in the core, up to the limit of the client's buffers.
const DEFAULT_ROOM: usize = 65536;

impl Server {
    /// Inserts a client. It sees each global with which it has a group in common: a bit of `groups`. But it does not see
    /// those of `hidden`, nor those that are hidden from it.
    ///
    /// An id of `hidden` need not name a global yet: `next_global_id` tells the one that the next global gets.
    ///
    /// The status is that of `wl_server::InsertClientError`: `Full`, or `OutOfMemory`. Then nothing is changed.
    pub fn insert_client(
        &mut self,
        user_data: u64,
        groups: u64,
        hidden: &[FlatGlobalId],
    ) -> Result<FlatClientId, Status>
        ensures call { InsertsClient self.old.core user_data groups hidden.now result self.new.core }
        ensures beside { self.new ≡ inserted self.old self.new.core result user_data }
        ensures descriptors { Conserves kept_by_server self.old [] [] self.new }
    {
        let telling = self.first_telling()?;
        let hidden = hidden::globals(self.alloc(), hidden)?;
        let mut mailbox = Mailbox::new(self.alloc());
        mailbox.set_room(DEFAULT_ROOM);
        let client = HostClient {
            user_data,
            groups,
            hidden,
        };
        match self.seats.insert(&mut self.core, mailbox, client, telling) {
            Ok(id) => {
                self.may_have_notes = true;
                Ok(FlatClientId::new(id))
            }
            Err(status) => Err(status),
        }
    }

    /// What is told of a client that is inserted, if its messages are to be told.
    fn first_telling(&self) -> Result<Option<Telling>, OutOfMemory>
        ensures { IfOk result (λ telling. telling ≡ first_telling self.now.tells) }
    {
        if self.tells {
            Ok(Some(Telling::new(self.alloc())?))
        } else {
            Ok(None)
        }
    }

    /// The id that the next client gets (`wl_server::Backend::next_client_id`). The status is `Full` if there can be none.
    pub fn next_client_id(&self) -> Result<FlatClientId, Status>
        ensures { TellsNextClient self.now.core result }
    {
        match self.core.next_client_id() {
            Some(id) => Ok(FlatClientId::new(id)),
            None => Err(Status::Full),
        }
    }

    /// The program's data of the client. The status is `InvalidId` if the client is not stored.
    pub fn client_data(&self, client: &FlatClientId) -> Result<u64, Status>
        ensures { result ≡ or_invalid (option_map (λ c. c.user_data) (client_data_of self.now.core.server (client_of client.now))) }
    {
        match self.core.get_client_data(&client.id()) {
            Ok(client) => Ok(client.user_data),
            Err(error) => Err(Status::from(error)),
        }
    }

    /// Writes the ids of the live clients to the lent memory, by ascending slot, as far as it has room. `count` is how many
    /// there are. The status is `TooSmall` if the memory has no room for all.
    pub fn clients(&self, clients: &mut [FlatClientId], count: &mut u32) -> Status
        ensures { Lists (map flat_client (live_clients self.now.core.server)) clients.old clients.new count.new result }
    {
        let found = self.list_clients(clients);
        *count = count_number(found);
        room_for(found, clients.len())
    }

    /// Writes the ids of the live clients to the lent memory. Returns how many there are.
    fn list_clients(&self, clients: &mut [FlatClientId]) -> usize
        ensures list { clients.new ≡ filled (map flat_client (live_clients self.now.core.server)) clients.old }
        ensures count { result ≡ min (length (live_clients self.now.core.server)) 18446744073709551615 }
    {
        let mut found = 0usize;
        let mut write = |id: ClientId| put_next(clients, &mut found, FlatClientId::new(id));
        self.core.with_all_clients(&mut write);
        found
    }

    /// Kills the client, with the reason that its connection is closed. If it is not stored, nothing happens.
    pub fn kill_client(&mut self, client: &FlatClientId) -> Status
        ensures call { Calls world self.old.core (step.KillClient (client_of client.now) reason.ConnectionClosed) reply.KillClient self.new.core }
        ensures beside { self.new ≡ marked self.old self.new.core }
        ensures descriptors { Conserves kept_by_server self.old [] [] self.new }
        ensures status { result ≡ status.Ok }
    {
        self.core
            .kill_client(&client.id(), DisconnectReason::ConnectionClosed);
        self.mark();
        Status::Ok
    }

    /// Sets how far the buffers of the client may grow, in bytes (`wl_server::Backend::set_client_max_buffer_size`). If it is
    /// not stored, nothing happens.
    pub fn set_max_buffer_size(&mut self, client: &FlatClientId, size: u64) -> Status
        ensures call { Calls world self.old.core (step.SetClientMaxBufferSize (client_of client.now) size) reply.SetClientMaxBufferSize self.new.core }
        ensures beside { self.new ≡ record self.old { core = self.new.core } }
        ensures descriptors { Conserves kept_by_server self.old [] [] self.new }
        ensures status { result ≡ status.Ok }
    {
        self.core
            .set_client_max_buffer_size(&client.id(), size as usize);
        Status::Ok
    }

    /// Sets how many bytes wait in the client's mailbox until no more are put there (`wl_link::Mailbox::set_room`).
    /// `next_writable` asks the client again: there may be room now for what waits in the core. The status is `InvalidId` if
    /// the client is not stored.
    pub fn set_room(&mut self, client: &FlatClientId, room: u64) -> Status
        ensures room { SetsRoom self.old (client_of client.now) room result self.new }
        ensures descriptors { Conserves kept_by_server self.old [] [] self.new }
    {
        let id = client.id();
        match self.core.transport_mut(&id) {
            Ok(mailbox) => mailbox.set_room(room as usize),
            Err(error) => return Status::from(error),
        }
        self.seats.list(id.slot());
        Status::Ok
    }
}
