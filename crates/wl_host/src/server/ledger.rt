//! What a session keeps of a client beside the core.

ghost use Rattle.std.specs.Prelude.{◌≡◌, ◌==◌, MatchOption, length};
ghost use Rattle.wl_flat.specs.Descriptors.{given_up};
ghost use Rattle.wl_host.specs.Hearing.{LedgerCatchesUp, LedgerTells, TakesIn, ledger_after};
ghost use Rattle.wl_host.specs.Seats.{HasNonePassed, LedgerPassesOut, departed, left_of, new_ledger};
ghost use Rattle.wl_flat.specs.Sending.{mailbox_after};

use std::alloc::Global;
use wl_flat::descriptors::DescriptorQueue;
use wl_flat::flat::{FlatArgument, FlatTold};
use wl_flat::incoming::take_in;
use wl_flat::outgoing::{take_all_out, take_off};
use wl_flat::status::Status;
use wl_flat::telling::Telling;
use wl_follow::Side;
use wl_link::Mailbox;
use wl_server::{Action, ClientId};
use wl_wire::{OutOfMemory, Protocol};

/// What is kept of a client from its insertion until the core lets it go.
#[derive(Drop)]
pub struct Ledger {
    /// The client.
    pub id: ClientId,
    /// The program's data of the client.
    pub user_data: u64,
    /// The descriptors that arrived, and that no action has handed out.
    pub received: DescriptorQueue,
    /// The descriptors of events, and that were not sent.
    pub sending: DescriptorQueue,
    /// The open action, if it was not handed out yet: the memory that was lent for it was too small, or it is refused, and there was
    /// no memory to finish it.
    pub kept: Option<Action>,
    /// Whether the open action ends the object that it was sent to.
    pub ends_sender: bool,
    /// What is told of it, if its messages are told.
    pub telling: Option<Telling>,
}

/// What is kept of a client that the core let go, until it is handed out.
#[derive(Drop)]
pub struct Departed {
    /// The client.
    pub id: ClientId,
    /// The program's data of the client.
    pub user_data: u64,
    /// The descriptors of events, and that were not sent.
    pub sending: DescriptorQueue,
    /// What is still to be sent to the client.
    pub mailbox: Mailbox,
}

impl Ledger {
    /// What is kept of a client that was inserted just now.
    pub fn new(alloc: Global, id: ClientId, user_data: u64, telling: Option<Telling>) -> Self
        ensures { result ≡ new_ledger id user_data telling }
    {
        Ledger {
            id,
            user_data,
            received: DescriptorQueue::new(alloc),
            sending: DescriptorQueue::new(alloc),
            kept: None,
            ends_sender: false,
            telling,
        }
    }

    /// Puts what arrived into the client's mailbox. If its messages are told, it is to be told once it is read.
    ///
    /// The statuses are those of `incoming::take_in`, and `OutOfMemory` also if there was no memory to tell it. Then nothing is changed.
    pub fn take_in(&mut self, mailbox: &mut Mailbox, bytes: &[u8], descriptors: &[i32]) -> Status
        ensures { TakesIn mailbox.old self.old bytes.now descriptors.now result mailbox.new self.new }
    {
        match &mut self.telling {
            Some(telling) => telling.take_in(
                Side::Client,
                mailbox,
                &mut self.received,
                bytes,
                descriptors,
            ),
            None => take_in(mailbox, &mut self.received, bytes, descriptors),
        }
    }

    /// So many of the bytes in the client's mailbox were sent, or all if there are fewer. Returns whether no byte is left.
    pub fn take_off(&mut self, mailbox: &mut Mailbox, count: u32) -> bool
        ensures empty { result ≡ (length mailbox.new.waiting.bytes == 0) }
        ensures mailbox { mailbox.new ≡ mailbox_after count mailbox.old }
        ensures ledger { self.new ≡ ledger_after count mailbox.old self.old }
    {
        if let Some(telling) = &mut self.telling {
            telling.sent(count, mailbox);
        }
        take_off(mailbox, &mut self.sending, count)
    }

    /// What is told of the client, if something is, catches up with the session, which has read all that arrived but for so many bytes.
    ///
    /// The error says that there was no memory. Then the next call goes on.
    pub fn catch_up(&mut self, unread: usize, mailbox: &Mailbox) -> Result<(), OutOfMemory>
        ensures { LedgerCatchesUp unread mailbox.now self.old result self.new }
    {
        match &mut self.telling {
            Some(telling) => telling.catch_up(Side::Client, unread, mailbox, &self.sending),
            None => Ok(()),
        }
    }

    /// Tells the next message of the client, or to it. The status is `InvalidId` if its messages are not told, and else that of
    /// `Telling::next`.
    pub fn tell_next(
        &mut self,
        table: &Protocol,
        alloc: Global,
        out: &mut FlatTold,
        arguments: &mut [FlatArgument],
        bytes: &mut [u8],
    ) -> Status
        ensures { LedgerTells table.now self.old (record { out = out.old; arguments = arguments.old; bytes = bytes.old }) result
            (record { out = out.new; arguments = arguments.new; bytes = bytes.new }) self.new }
    {
        match &mut self.telling {
            Some(telling) => telling.next(table, alloc, out, arguments, bytes),
            None => {
                *out = FlatTold::none();
                Status::InvalidId
            }
        }
    }

    /// The next descriptor that was passed over.
    pub fn next_passed(&mut self) -> Option<i32>
        ensures { MatchOption result (HasNonePassed self.old × (self.new ≡ self.old)) (λ d. LedgerPassesOut self.old d self.new) }
    {
        match self.received.next_passed() {
            Some(descriptor) => Some(descriptor),
            None => self.sending.next_passed(),
        }
    }

    /// The core let the client go, and gave its mailbox back. Nothing that arrived will be read: those descriptors were passed
    /// over.
    pub fn depart(self, mailbox: Mailbox) -> (Departed, DescriptorQueue)
        ensures departed { result.0 ≡ departed self mailbox }
        ensures received { result.1 ≡ given_up self.received }
    {
        let Ledger {
            id,
            user_data,
            mut received,
            sending,
            ..
        } = self;
        received.give_up();
        let departed = Departed {
            id,
            user_data,
            sending,
            mailbox,
        };
        (departed, received)
    }
}

impl Departed {
    /// The mailbox was handed out with its descriptors, and nothing else will be sent: the rest of the descriptors were passed
    /// over.
    pub fn leave(self) -> DescriptorQueue
        ensures { result ≡ left_of self }
    {
        let Departed {
            mut sending,
            mailbox,
            ..
        } = self;
        take_all_out(&mut sending, mailbox.tokens());
        sending.give_up();
        sending
    }
}
