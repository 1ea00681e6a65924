//! What is to be sent, and to whom.

ghost use Rattle.std.specs.Prelude.{◌≡◌, []};
ghost use Rattle.wl_flat.specs.Descriptors.{Conserves};
ghost use Rattle.wl_flat.specs.Flat.{client_of};
ghost use Rattle.wl_host.specs.Seats.{ledger_at};
ghost use Rattle.wl_host.specs.Server.{Asks, AsksClient, AsksInTurn, FoundHasBytes, NextWritable, NoneAskedHasBytes, Sent, has_bytes, kept_by_server, sent_with, to_send};
ghost use Rattle.wl_host.specs.Flushing.{FlushesClient, OkHasBytes, said_of};
ghost use Rattle.wl_host.specs.Tellings.{CopiesTold, SendsTold, sent_told};

use crate::server::seats::Seats;
use crate::server::{Core, Server};
use wl_flat::flat::{Counts, FlatClientId};
use wl_flat::outgoing::copy_out;
use wl_flat::status::Status;
use wl_server::ClientId;
use wl_wire::{IoFault, OutOfMemory};

/// Whether bytes wait in the client's mailbox.
fn has_bytes(core: &Core, id: &ClientId) -> bool
    ensures { result ≡ has_bytes core.now id.now }
{
    match core.transport(id) {
        Ok(mailbox) => !mailbox.bytes().is_empty(),
        Err(_) => false,
    }
}

/// The client, if something waits in its mailbox after what waits in the core was put there.
///
/// The error says that nothing does, since there was no memory to put it there.
fn ask(core: &mut Core, id: &ClientId) -> Result<Option<ClientId>, OutOfMemory>
    ensures { AsksClient core.old id.now result core.new }
{
    // What finds no room or no memory in the mailbox stays in the core.
    let answer = core.flush(Some(*id));
    if has_bytes(core, id) {
        return Ok(Some(*id));
    }
    match answer {
        Err(IoFault::OutOfMemory) => Err(OutOfMemory),
        _ => Ok(None),
    }
}

/// The status by what came of asking a client.
fn said(asked: Result<Option<ClientId>, OutOfMemory>) -> Status
    ensures { result ≡ said_of asked }
{
    match asked {
        Ok(Some(_)) => Status::Ok,
        Ok(None) => Status::WouldBlock,
        Err(OutOfMemory) => Status::OutOfMemory,
    }
}

/// The client that has the slot, if something waits in its mailbox.
fn ask_at(core: &mut Core, seats: &Seats, slot: u32) -> Result<Option<ClientId>, OutOfMemory>
    ensures { Asks core.old (ledger_at slot seats.now.ledgers) result core.new }
{
    match seats.client_at(slot) {
        Some(id) => ask(core, &id),
        None => Ok(None),
    }
}

/// The next client that has something to be sent, of those that are to be asked.
fn next_of(core: &mut Core, seats: &mut Seats) -> Result<Option<ClientId>, OutOfMemory>
    ensures asked { AsksInTurn seats.old.ledgers core.old seats.old.writable result seats.new.writable core.new }
    ensures beside { seats.new ≡ record seats.old { writable = seats.new.writable } }
{
    while let Some(slot) = seats.next_listed() {
        match ask_at(core, seats, slot) {
            Ok(Some(id)) => return Ok(Some(id)),
            Ok(None) => {}
            Err(refused) => {
                // What waits in the core would else be forgotten.
                seats.list(slot);
                return Err(refused);
            }
        }
    }
    Ok(None)
}

impl Server {
    /// The next client to which something is to be sent. What waits for it in the core is put into its mailbox before.
    ///
    /// A client comes again only after another call for it, or after all that was in its mailbox was sent. The statuses are
    ///
    /// - `OutOfMemory` if there was no memory to put something into the mailbox of a client. That client is asked again, behind
    ///   the others: the next call goes on with them;
    /// - `WouldBlock` if there is no such client. Then nothing waits for any that was to be asked: not in its mailbox, and in the
    ///   core only if the mailbox has no room (`set_room`).
    pub fn next_writable(&mut self) -> Result<FlatClientId, Status>
        ensures call { NextWritable self.old result self.new }
        ensures found { FoundHasBytes self.new.core result }
        ensures none_found { NoneAskedHasBytes self.old.seats self.new.core result }
        ensures descriptors { Conserves kept_by_server self.old [] [] self.new }
    {
        match next_of(&mut self.core, &mut self.seats) {
            Ok(Some(id)) => Ok(FlatClientId::new(id)),
            Ok(None) => Err(Status::WouldBlock),
            Err(OutOfMemory) => Err(Status::OutOfMemory),
        }
    }

    /// Puts what waits for the client in the core into its mailbox, and asks whether something is to be sent to it
    /// (`wl_server::Backend::flush_client`). Other clients are as they were. If `next_writable` was to ask this one, it still does.
    ///
    /// The status is `Ok` if something is to be sent, and `WouldBlock` if nothing is: in the core something may wait for which the
    /// mailbox has no room (`set_room`). It is `OutOfMemory` if there was no memory to put something into the mailbox, and nothing is
    /// there yet; `InvalidId` if the client is not stored.
    pub fn flush_client(&mut self, client: &FlatClientId) -> Status
        ensures call { FlushesClient self.old (client_of client.now) result self.new }
        ensures waits { OkHasBytes self.new.core (client_of client.now) result }
        ensures descriptors { Conserves kept_by_server self.old [] [] self.new }
    {
        let id = client.id();
        match self.core.transport(&id) {
            Ok(_) => said(ask(&mut self.core, &id)),
            Err(error) => Status::from(error),
        }
    }

    /// Copies what is to be sent to the client: as many bytes as fit, and all descriptors, which go with the first byte. The
    /// counts say how many these are; both are 0 if no byte is copied. Nothing is taken away: `sent` does that.
    ///
    /// The status is `InvalidId` if the client is not stored, and `TooSmall` if there is no room for the descriptors. Then
    /// `counts` says how many of them there are. Room for 28 is always enough. If the client's messages are told, it is
    /// `OutOfMemory` if there was no memory to tell those that are to be sent. Then nothing is copied, and the next call goes on.
    pub fn to_send(
        &mut self,
        client: &FlatClientId,
        bytes: &mut [u8],
        descriptors: &mut [i32],
        counts: &mut Counts,
    ) -> Status
        ensures copied { CopiesTold self.old (client_of client.now) bytes.old descriptors.old
            (record { status = result; bytes = bytes.new; descriptors = descriptors.new; counts = counts.new }) self.new }
        ensures conserved { Conserves kept_by_server self.old [] [] self.new }
    {
        match self.catch_up(&client.id()) {
            Ok(()) => self.copy_waiting(client, bytes, descriptors, counts),
            Err(OutOfMemory) => {
                *counts = Counts::new(0, 0);
                Status::OutOfMemory
            }
        }
    }

    /// Copies what is in the client's mailbox. The status is as that of `to_send`.
    fn copy_waiting(
        &self,
        client: &FlatClientId,
        bytes: &mut [u8],
        descriptors: &mut [i32],
        counts: &mut Counts,
    ) -> Status
        ensures status { result ≡ (to_send self.now (client_of client.now) bytes.old descriptors.old).status }
        ensures bytes { bytes.new ≡ (to_send self.now (client_of client.now) bytes.old descriptors.old).bytes }
        ensures descriptors { descriptors.new ≡ (to_send self.now (client_of client.now) bytes.old descriptors.old).descriptors }
        ensures counts { counts.new ≡ (to_send self.now (client_of client.now) bytes.old descriptors.old).counts }
    {
        *counts = Counts::new(0, 0);
        let id = client.id();
        let Some(ledger) = self.seats.get(&id) else {
            return Status::InvalidId;
        };
        match self.core.transport(&id) {
            Ok(mailbox) => copy_out(mailbox, &ledger.sending, bytes, descriptors, counts),
            Err(error) => Status::from(error),
        }
    }

    /// The host sent so many of the bytes that `to_send` copied, and with the first of them all the descriptors, which it may
    /// close. No other call for the client comes in between.
    ///
    /// The status is `InvalidId` if the client is not stored. If the client's messages are told, it is `OutOfMemory` if there was no
    /// memory to tell some that `to_send` had not seen. Then nothing is changed but what is told, and the host makes the same call
    /// again.
    pub fn sent(&mut self, client: &FlatClientId, count: u32) -> Status
        ensures sent { SendsTold self.old (client_of client.now) count result self.new }
        ensures descriptors { Conserves kept_by_server self.old [] (sent_told self.old (client_of client.now) count result) self.new }
    {
        match self.catch_up(&client.id()) {
            Ok(()) => self.take_off(client, count),
            Err(OutOfMemory) => Status::OutOfMemory,
        }
    }

    /// Takes so many bytes off the client's mailbox. The status is as that of `sent`.
    fn take_off(&mut self, client: &FlatClientId, count: u32) -> Status
        ensures sent { Sent self.old (client_of client.now) count result self.new }
        ensures descriptors { Conserves kept_by_server self.old [] (sent_with self.old (client_of client.now) count) self.new }
    {
        let id = client.id();
        let Some(ledger) = self.seats.get_mut(&id) else {
            return Status::InvalidId;
        };
        let is_empty = match self.core.transport_mut(&id) {
            Ok(mailbox) => ledger.take_off(mailbox, count),
            Err(error) => return Status::from(error),
        };
        if is_empty {
            // The core may have more for which there was no room.
            self.seats.list(id.slot());
        }
        Status::Ok
    }
}
