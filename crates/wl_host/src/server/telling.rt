//! What is told of clients: their messages, and those to them.

ghost use Rattle.std.specs.Prelude.{◌≡◌, []};
ghost use Rattle.wl_flat.specs.Descriptors.{Conserves};
ghost use Rattle.wl_flat.specs.Flat.{client_of};
ghost use Rattle.wl_flat.specs.Nulls.{sets};
ghost use Rattle.wl_host.specs.Server.{kept_by_server};
ghost use Rattle.wl_host.specs.Tellings.{CatchesUpWith, NextTold, TellsNextOf};
ghost use Rattle.wl_host.specs.Hearing.{is_told};
ghost use Rattle.wl_host.specs.Seats.{ledger_of};
ghost use Rattle.wl_flat.specs.declared.status.Status.TheVariants as status;

use crate::server::Server;
use wl_flat::flat::{FlatArgument, FlatClientId, FlatTold};
use wl_flat::status::Status;
use wl_server::ClientId;
use wl_wire::OutOfMemory;

impl Server {
    /// Sets whether the messages are told of each client that is inserted from now on, and of those to it (`next_told`): they are if
    /// `is_on` is not 0. In a new session they are not. Of clients that are there already nothing changes.
    pub fn tell_messages(&mut self, is_on: u32) -> Status
        ensures set { self.new ≡ record self.old { tells = sets is_on } }
        ensures descriptors { Conserves kept_by_server self.old [] [] self.new }
        ensures status { result ≡ status.Ok }
    {
        self.tells = is_on != 0;
        Status::Ok
    }

    /// Tells the next message that the session has read from the client, or has written for it, into the lent memory: each once, those
    /// of each side in order. What the session writes is seen once it is in the client's mailbox (`next_writable`, `flush_client`).
    /// What was read before this call, `next_action` or `to_send` comes before what was written before it.
    ///
    /// The message is read by the table, and by the objects that the messages before it made and ended. So a message of an object
    /// that is not known so, as one that a host made whose event was never sent, is told without its arguments. Its descriptors are
    /// told as numbers, and may be closed already. The objects have the interfaces that they have after the message. Their data, and the
    /// serials of their ids, are 0.
    ///
    /// The status is
    ///
    /// - `InvalidId` if the client's messages are not told (`tell_messages`), or it was taken out (`cleanup`);
    /// - `TooSmall` if `arguments` or `bytes` has no room for the message. Then `out` says how much is needed, and the message is told by
    ///   the next call with enough;
    /// - `WouldBlock` if there is no more now;
    /// - `OutOfMemory`. The next call goes on.
    ///
    /// After any but `Ok` and `TooSmall` `out` is all zeros. After any but `Ok` the rest of the lent memory is as it was.
    pub fn next_told(
        &mut self,
        client: &FlatClientId,
        out: &mut FlatTold,
        arguments: &mut [FlatArgument],
        bytes: &mut [u8],
    ) -> Status
        ensures told { NextTold self.old (client_of client.now) (record { out = out.old; arguments = arguments.old; bytes = bytes.old }) result
            (record { out = out.new; arguments = arguments.new; bytes = bytes.new }) self.new }
        ensures descriptors { Conserves kept_by_server self.old [] [] self.new }
    {
        let id = client.id();
        match self.catch_up(&id) {
            Ok(()) => self.tell_next_of(&id, out, arguments, bytes),
            Err(OutOfMemory) => {
                *out = FlatTold::none();
                Status::OutOfMemory
            }
        }
    }

    /// Tells the next message of the client, of what caught up. The statuses are those of `next_told`.
    fn tell_next_of(
        &mut self,
        id: &ClientId,
        out: &mut FlatTold,
        arguments: &mut [FlatArgument],
        bytes: &mut [u8],
    ) -> Status
        ensures told { TellsNextOf self.old id.now (record { out = out.old; arguments = arguments.old; bytes = bytes.old }) result
            (record { out = out.new; arguments = arguments.new; bytes = bytes.new }) self.new }
        ensures descriptors { Conserves kept_by_server self.old [] [] self.new }
    {
        let alloc = self.alloc();
        let Some(ledger) = self.seats.get_mut(id) else {
            *out = FlatTold::none();
            return Status::InvalidId;
        };
        ledger.tell_next(self.core.protocol(), alloc, out, arguments, bytes)
    }

    /// What is told of the client catches up with the session.
    ///
    /// The error says that there was no memory. Then the next call goes on.
    pub(crate) fn catch_up(&mut self, id: &ClientId) -> Result<(), OutOfMemory>
        ensures { CatchesUpWith self.old id.now result self.new }
    {
        if !self.is_told(id) {
            return Ok(());
        }
        let Ok(counts) = self.core.waiting(id) else {
            return Ok(());
        };
        let Some(ledger) = self.seats.get_mut(id) else {
            return Ok(());
        };
        let Ok(mailbox) = self.core.transport(id) else {
            return Ok(());
        };
        ledger.catch_up(counts[0].saturating_add(mailbox.bytes_left()), mailbox)
    }

    /// Whether the client's messages are told.
    fn is_told(&self, id: &ClientId) -> bool
        ensures { result ≡ is_told (ledger_of id.now self.now.seats.ledgers) }
    {
        match self.seats.get(id) {
            Some(ledger) => ledger.telling.is_some(),
            None => false,
        }
    }
}
