//! Clients that are gone, and descriptors that belong to nobody.

ghost use Rattle.std.specs.Prelude.{◌≡◌, [], if◌then◌else◌, map, not};
ghost use Rattle.wl_host.specs.Cleaning.{CleansUp};
ghost use Rattle.wl_flat.specs.Descriptors.{Conserves};
ghost use Rattle.wl_flat.specs.Flat.{over_front};
ghost use Rattle.wl_host.specs.Seats.{gone_all};
ghost use Rattle.wl_flat.specs.Sending.{descriptors_of, shown};
ghost use Rattle.wl_host.specs.Server.{NextDropped, TakesOut, flat_gone, gone_with_first, handed, is_too_small, kept_by_server, next_gone};

use crate::server::Server;
use crate::server::ledger::Departed;
use crate::server::seats::Seats;
use wl_flat::flat::{Counts, FlatClientId, Gone};
use wl_flat::outgoing::{copy_bytes, copy_descriptors};
use wl_flat::status::Status;
use wl_link::Mailbox;
use wl_server::ClientId;

/// Writes what is left of the client, with what is still to be sent to it. Returns whether the lent memory has room for all of
/// it; if it has not, only `out` is written.
fn write_gone(
    departed: &Departed,
    out: &mut Gone,
    bytes: &mut [u8],
    descriptors: &mut [i32],
) -> bool
    ensures room { result ≡ not (is_too_small departed.now.mailbox bytes.old descriptors.old) }
    ensures out { out.new ≡ flat_gone departed.now }
    ensures bytes { bytes.new ≡ (if is_too_small departed.now.mailbox bytes.old descriptors.old then bytes.old else over_front departed.now.mailbox.waiting.bytes bytes.old) }
    ensures descriptors { descriptors.new ≡ (if is_too_small departed.now.mailbox bytes.old descriptors.old then descriptors.old
        else over_front (map shown (descriptors_of departed.now.sending departed.now.mailbox.waiting.tokens)) descriptors.old) }
{
    let waiting = departed.mailbox.bytes();
    let tokens = departed.mailbox.tokens();
    *out = Gone {
        client: FlatClientId::new(departed.id),
        data: departed.user_data,
        waiting: Counts::new(waiting.len(), tokens.len()),
    };
    if waiting.len() > bytes.len() || tokens.len() > descriptors.len() {
        return false;
    }
    copy_descriptors(&departed.sending, tokens, descriptors);
    copy_bytes(waiting, bytes);
    true
}

/// The core let these clients go, and gave their mailboxes back.
#[tactic(auto, using(crate::proofs::Keeping::gone_all_push))]
fn depart_all(seats: &mut Seats, gone: Vec<(ClientId, Mailbox)>)
    ensures { seats.new ≡ gone_all seats.old gone.items }
{
    for (id, mailbox) in gone {
        seats.depart(&id, mailbox);
    }
}

impl Server {
    /// Takes the clients out that were killed (`wl_server::Backend::cleanup`). `next_gone` hands them out. If notes are not kept
    /// (`keep_notes`), those that there are then are dropped.
    ///
    /// The status is `OutOfMemory` if there was no memory. Then nothing is changed.
    pub fn cleanup(&mut self) -> Status
        ensures call { CleansUp self.old result self.new }
        ensures descriptors { Conserves kept_by_server self.old [] [] self.new }
    {
        if let Err(status) = self.take_out_killed() {
            return status;
        }
        if !self.keeps_notes {
            self.drop_notes();
        }
        Status::Ok
    }

    /// Takes the killed clients out of the core, if there may be some.
    fn take_out_killed(&mut self) -> Result<(), Status>
        ensures { TakesOut self.old result self.new }
    {
        if !self.may_clean_up {
            return Ok(());
        }
        match self.core.cleanup() {
            Ok(gone) => {
                depart_all(&mut self.seats, gone);
                self.may_clean_up = false;
                self.may_have_notes = true;
                Ok(())
            }
            Err(error) => Err(Status::from(error)),
        }
    }

    /// Hands out the client that was taken out first and not handed out yet, with the last bytes that are to be sent to it and
    /// the descriptors that go with them. All other descriptors of events for it come out of `next_dropped` after that.
    ///
    /// The status is `WouldBlock` if there is no such client, and `TooSmall` if the lent memory has no room for all that is to be
    /// sent. Then `out` says how much there is, and the client is handed out by the next call with enough.
    pub fn next_gone(&mut self, out: &mut Gone, bytes: &mut [u8], descriptors: &mut [i32]) -> Status
        ensures status { result ≡ (next_gone self.old out.old bytes.old descriptors.old).status }
        ensures out { out.new ≡ (next_gone self.old out.old bytes.old descriptors.old).out }
        ensures bytes { bytes.new ≡ (next_gone self.old out.old bytes.old descriptors.old).bytes }
        ensures descriptors { descriptors.new ≡ (next_gone self.old out.old bytes.old descriptors.old).descriptors }
        ensures after { self.new ≡ (next_gone self.old out.old bytes.old descriptors.old).after }
        ensures conserves { Conserves kept_by_server self.old [] (gone_with_first self.old result) self.new }
    {
        let Some(departed) = self.seats.first_gone() else {
            return Status::WouldBlock;
        };
        if !write_gone(departed, out, bytes, descriptors) {
            return Status::TooSmall;
        }
        self.seats.leave();
        Status::Ok
    }

    /// The next descriptor that belongs to nobody: the core passed it over, or its client is gone. The host may close it.
    ///
    /// The status is `WouldBlock` if there is none, but for those of clients that `next_gone` is still to hand out.
    pub fn next_dropped(&mut self) -> Result<i32, Status>
        ensures call { NextDropped self.old result self.new }
        ensures descriptors { Conserves kept_by_server self.old [] (handed result) self.new }
    {
        match self.seats.next_passed() {
            Some(descriptor) => Ok(descriptor),
            None => Err(Status::WouldBlock),
        }
    }
}
