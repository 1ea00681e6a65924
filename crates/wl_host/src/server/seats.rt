//! What a session keeps of all clients beside the core.

ghost use Rattle.std.specs.Borrow.{sem};
ghost use Rattle.std.specs.Option.{option_copied, option_copied_mut};
ghost use Rattle.std.specs.Prelude.{◌≡◌, ◌+◌, ◌<◌, ◌≤◌, ◌^◌, ◌∷◌, [], ℕ, IfErr, IfOk, IsTrue, MatchOption, OnOk, is_some, length, max, option_map, slice_get, slice_set, vec_capacity, vec_len};
ghost use Rattle.std.specs.VecDeque.{PushesBack, deque_capacity, deque_len};
ghost use Rattle.wl_flat.specs.Descriptors.{given_up};
ghost use Rattle.wl_host.specs.Inside.Seats.{AreMarked, HasRoomAt, LendsSeat, PassesOutOf, SameButRoom, without_ledger};
ghost use Rattle.wl_host.specs.Seats.{AllEmpty, InsertsInto, LeftPassesOut, PassesNext, SeatHasNonePassed, SeatPassesOut, departed, gone_with, ledger_at, ledger_of, left_by_first, listed, listed_all, no_seats, padded, seated};

use crate::server::ledger::{Departed, Ledger};
use crate::server::slots::SlotQueue;
use crate::server::{Core, HostClient};
use std::alloc::Global;
use std::collections::VecDeque;
use std::marker::Model;
use wl_flat::descriptors::DescriptorQueue;
use wl_flat::status::Status;
use wl_flat::telling::Telling;
use wl_link::Mailbox;
use wl_server::ClientId;
use wl_wire::OutOfMemory;

/// What is kept of the clients, and of the descriptors of those that are gone.
///
/// Room is made when a client is inserted. So to let a client go, to list it, and to take a descriptor out need no memory.
#[derive(Drop)]
pub struct Seats {
    /// The ledgers of the clients that the core has, by slot.
    ledgers: Vec<Option<Ledger>>,
    /// The clients that are gone and were not handed out, the oldest first.
    gone: VecDeque<Departed>,
    /// The queues of clients that are gone. All their descriptors were passed over.
    left: VecDeque<DescriptorQueue>,
    /// The slots of the clients that are to be asked for what is to be sent.
    writable: SlotQueue,
    /// The slots of the clients that may have descriptors that were passed over.
    marked: SlotQueue,
}

impl Model for Seats {
    ghost use Rattle.std.specs.Coded.{codes};
    ghost use Rattle.wl_link.specs.ObjectMap.{store_code};
    ghost use Rattle.wl_host.specs.Seats.{SeatsState};

    ghost Value = { SeatsState };

    ghost coded = { Prim.hlevel (codes, store_code) };

    ghost use Rattle.wl_host.specs.Inside.Seats.{AreSeats};

    ghost view = { λ s. record { ledgers = s.ledgers.items; gone = s.gone.items; left = s.left.items; writable = s.writable.slots } };

    ghost invariant = { AreSeats };
}

/// Whether the core has this client, and the ledger is the one of it.
fn is_seated(ledgers: &Vec<Option<Ledger>>, id: &ClientId) -> bool
    ensures seated { result ≡ is_some (ledger_of id.now ledgers.now.items) }
    ensures within { IsTrue result → id.now.slot < length ledgers.now.items }
{
    match ledgers.get(id.slot() as usize) {
        Some(Some(ledger)) => ledger.id.serial() == id.serial(),
        _ => false,
    }
}

/// The ledger of the client, to change it.
fn ledger_mut<'a>(ledgers: &'a mut Vec<Option<Ledger>>, id: &ClientId) -> Option<&'a mut Ledger>
    ensures* lends { sem 𝓛 (LendsSeat ledgers.entry id.now result) }
    ensures value { option_copied_mut result ≡ ledger_of id.now ledgers.old.items }
{
    if is_seated(ledgers, id) {
        ledgers[id.slot() as usize].as_mut()
    } else {
        None
    }
}

/// Takes the ledger of the client off its seat.
fn take_ledger(ledgers: &mut Vec<Option<Ledger>>, id: &ClientId) -> Option<Ledger>
    ensures value { result ≡ ledger_of id.now ledgers.old.items }
    ensures after { ledgers.new.items ≡ without_ledger ledgers.old.items id.now.slot result }
    ensures len { vec_len ledgers.new ≡ vec_len ledgers.old }
{
    if is_seated(ledgers, id) {
        ledgers[id.slot() as usize].take()
    } else {
        None
    }
}

/// Puts the ledger on its seat. Returns the one that was there.
fn put_ledger(ledgers: &mut Vec<Option<Ledger>>, ledger: Ledger) -> Option<Ledger>
    requires { ledger.id.slot < vec_capacity ledgers.old }
    ensures value { result ≡ ledger_at ledger.id.slot ledgers.old.items }
    ensures after { ledgers.new.items ≡ slice_set (padded ledgers.old.items ledger.id.slot) ledger.id.slot (Some ledger) }
    ensures len { vec_len ledgers.new ≡ max (vec_len ledgers.old) (ledger.id.slot + 1) }
{
    let slot = ledger.id.slot() as usize;
    for _missing in ledgers.len()..slot + 1 {
        ledgers.push_reserved(None);
    }
    ledgers[slot].replace(ledger)
}

/// Makes room to seat one client more, at this slot, and to let it go, and whoever sits there.
///
/// The error says that there was no memory.
fn make_room(
    ledgers: &mut Vec<Option<Ledger>>,
    gone: &mut VecDeque<Departed>,
    left: &mut VecDeque<DescriptorQueue>,
    slot: u32,
) -> Result<(), OutOfMemory>
    requires { vec_len ledgers.old ≤ 2 ^ 32 }
    ensures ledgers { ledgers.new.items ≡ ledgers.old.items }
    ensures gone { SameButRoom gone.old gone.new }
    ensures left { SameButRoom left.old left.new }
    ensures room { OnOk result (HasRoomAt slot ledgers.new gone.new left.new) }
{
    let known = ledgers.len();
    let count = known.max(slot as usize + 1);
    ledgers.reserve(count - known)?;
    // Each of the clients may go, and whoever sits at the slot goes before.
    gone.reserve(count + 1)?;
    let Some(queues) = gone.len().checked_add(2 * (count + 1)) else {
        return Err(OutOfMemory);
    };
    left.reserve(queues)?;
    Ok(())
}

/// Makes room for one client more, at this slot, in all lists.
///
/// The error says that there was no memory.
fn make_all_room(
    ledgers: &mut Vec<Option<Ledger>>,
    gone: &mut VecDeque<Departed>,
    left: &mut VecDeque<DescriptorQueue>,
    writable: &mut SlotQueue,
    marked: &mut SlotQueue,
    slot: u32,
) -> Result<(), OutOfMemory>
    requires { vec_len ledgers.old ≤ 2 ^ 32 }
    ensures ledgers { ledgers.new.items ≡ ledgers.old.items }
    ensures gone { SameButRoom gone.old gone.new }
    ensures left { SameButRoom left.old left.new }
    ensures room { OnOk result (HasRoomAt slot ledgers.new gone.new left.new) }
    ensures writable { (writable.new.slots ≡ writable.old.slots) × (writable.old.room ≤ writable.new.room) }
    ensures marked { (marked.new.slots ≡ marked.old.slots) × (marked.old.room ≤ marked.new.room) }
    ensures listed { OnOk result ((slot + 1 ≤ writable.new.room) × (slot + 1 ≤ marked.new.room)) }
{
    make_room(ledgers, gone, left, slot)?;
    writable.make_room(slot as usize + 1)?;
    marked.make_room(slot as usize + 1)
}

/// The core let the client go: it is gone, and its queue of what arrived is left.
fn let_go(
    gone: &mut VecDeque<Departed>,
    left: &mut VecDeque<DescriptorQueue>,
    ledger: Ledger,
    mailbox: Mailbox,
)
    requires gone { deque_len gone.old < deque_capacity gone.old }
    requires left { deque_len left.old < deque_capacity left.old }
    ensures gone { PushesBack gone.old (departed ledger mailbox) gone.new }
    ensures left { PushesBack left.old (given_up ledger.received) left.new }
{
    let (departed, received) = ledger.depart(mailbox);
    gone.push_back_reserved(departed);
    left.push_back_reserved(received);
}

/// The next descriptor of the queues of which all was passed over. Those that are empty are removed.
fn next_left(left: &mut VecDeque<DescriptorQueue>) -> Option<i32>
    ensures passed { MatchOption result (AllEmpty left.old.items × (left.new.items ≡ [])) (λ d. LeftPassesOut left.old.items d left.new.items) }
    ensures len { deque_len left.new ≤ deque_len left.old }
    ensures capacity { deque_capacity left.new ≡ deque_capacity left.old }
{
    while let Some(mut queue) = left.pop_front() {
        queue.give_up();
        if let Some(descriptor) = queue.next_passed() {
            left.push_front_reserved(queue);
            return Some(descriptor);
        }
    }
    None
}

/// The next descriptor of the client on the seat that was passed over.
fn next_passed_of(seat: &mut Option<Ledger>) -> Option<i32>
    ensures { MatchOption result (SeatHasNonePassed seat.old × (seat.new ≡ seat.old)) (λ d. PassesOutOf seat.old d seat.new) }
{
    match seat {
        Some(ledger) => ledger.next_passed(),
        None => None,
    }
}

/// The next descriptor of the client at the slot that was passed over.
fn next_passed_at(ledgers: &mut Vec<Option<Ledger>>, slot: u32) -> Option<i32>
    ensures passed { MatchOption result (SeatHasNonePassed (ledger_at slot ledgers.old.items) × (ledgers.new.items ≡ ledgers.old.items))
        (λ d. SeatPassesOut ledgers.old.items slot d ledgers.new.items) }
    ensures len { vec_len ledgers.new ≡ vec_len ledgers.old }
{
    let index = slot as usize;
    if index >= ledgers.len() {
        return None;
    }
    next_passed_of(&mut ledgers[index])
}

/// The next descriptor that was passed over, of the clients that are marked. Those that have none are no longer marked.
fn next_marked(ledgers: &mut Vec<Option<Ledger>>, marked: &mut SlotQueue) -> Option<i32>
    ensures passed { MatchOption result ((marked.new.slots ≡ []) × (ledgers.new.items ≡ ledgers.old.items))
        (λ d. (slot : ℕ) × SeatPassesOut ledgers.old.items slot d ledgers.new.items) }
    ensures marks { AreMarked marked.old.slots ledgers.old.items → AreMarked marked.new.slots ledgers.new.items }
    ensures room { marked.new.room ≡ marked.old.room }
    ensures len { vec_len ledgers.new ≡ vec_len ledgers.old }
{
    while let Some(slot) = marked.first() {
        if let Some(descriptor) = next_passed_at(ledgers, slot) {
            return Some(descriptor);
        }
        marked.next();
    }
    None
}

impl Seats {
    ghost use Rattle.wl_host.specs.Inside.Lending.{LendsLedger};

    /// No seats. It allocates nothing.
    pub fn new(alloc: Global) -> Self
        ensures { result ≡ no_seats }
    {
        Seats {
            ledgers: Vec::new(alloc),
            gone: VecDeque::new(alloc),
            left: VecDeque::new(alloc),
            writable: SlotQueue::new(alloc),
            marked: SlotQueue::new(alloc),
        }
    }

    /// The ledger of a client that the core has.
    pub fn get(&self, id: &ClientId) -> Option<&Ledger>
        ensures { option_copied result ≡ ledger_of id.now self.now.ledgers }
    {
        match self.ledgers.get(id.slot() as usize) {
            Some(Some(ledger)) if ledger.id.serial() == id.serial() => Some(ledger),
            _ => None,
        }
    }

    /// The ledger of a client that the core has, to change it.
    #[tactic(auto, using(crate::proofs::Seating::seats_lent, crate::proofs::Seating::seats_marked))]
    pub fn get_mut(&mut self, id: &ClientId) -> Option<&mut Ledger>
        ensures* lends { sem 𝓛 (LendsLedger self.entry id.now result) }
        ensures value { option_copied_mut result ≡ ledger_of id.now self.old.ledgers }
    {
        // Descriptors may be passed over.
        self.marked.add(id.slot());
        let ledger = ledger_mut(&mut self.ledgers, id)?;
        Some(ledger)
    }

    /// Inserts a client into the core, and makes a ledger for it, with what is told of it.
    ///
    /// The status is `Full` if the core takes no more clients, or `OutOfMemory`. Then nothing is changed.
    pub fn insert(
        &mut self,
        core: &mut Core,
        mailbox: Mailbox,
        client: HostClient,
        telling: Option<Telling>,
    ) -> Result<ClientId, Status>
        ensures core { InsertsInto core.old mailbox client result core.new }
        ensures ok { IfOk result (λ id. self.new ≡ seated self.old id client.user_data telling) }
        ensures err { IfErr result (λ _. self.new ≡ self.old) }
    {
        let Some(next) = core.next_client_id() else {
            return Err(Status::Full);
        };
        let slot = next.slot();
        make_all_room(
            &mut self.ledgers,
            &mut self.gone,
            &mut self.left,
            &mut self.writable,
            &mut self.marked,
            slot,
        )?;
        let alloc = *self.gone.allocator();
        let user_data = client.user_data;
        let id = core.insert_client(mailbox, client)?;
        let ledger = Ledger::new(alloc, id, user_data, telling);
        if let Some(earlier) = put_ledger(&mut self.ledgers, ledger) {
            // The core gave its slot away, so it has let it go.
            let_go(&mut self.gone, &mut self.left, earlier, Mailbox::new(alloc));
        }
        Ok(id)
    }

    /// Appends the slot to the list of those that are to be asked for what is to be sent, if it does not stand there.
    pub fn list(&mut self, slot: u32)
        ensures { self.new ≡ listed self.old slot }
    {
        if (slot as usize) < self.ledgers.len() {
            self.writable.add(slot);
        }
    }

    /// Appends each slot to the list that does not stand there.
    pub fn list_all(&mut self)
        ensures { self.new ≡ listed_all self.old }
    {
        for slot in 0..self.ledgers.len() {
            self.writable.add(slot as u32);
        }
    }

    /// Takes the first slot off the list.
    pub fn next_listed(&mut self) -> Option<u32>
        ensures slots { MatchOption result ((self.old.writable ≡ []) × (self.new.writable ≡ [])) (λ slot. self.old.writable ≡ slot ∷ self.new.writable) }
        ensures beside { self.new ≡ record self.old { writable = self.new.writable } }
    {
        self.writable.next()
    }

    /// The client that has the slot.
    pub fn client_at(&self, slot: u32) -> Option<ClientId>
        ensures { result ≡ option_map (λ l. l.id) (ledger_at slot self.now.ledgers) }
    {
        match self.ledgers.get(slot as usize) {
            Some(Some(ledger)) => Some(ledger.id),
            _ => None,
        }
    }

    /// The core let the client go, and gave its mailbox back.
    pub fn depart(&mut self, id: &ClientId, mailbox: Mailbox)
        ensures { self.new ≡ gone_with self.old id.now mailbox }
    {
        if let Some(ledger) = take_ledger(&mut self.ledgers, id) {
            let_go(&mut self.gone, &mut self.left, ledger, mailbox);
        }
    }

    /// The client that is gone, was not handed out, and went first.
    pub fn first_gone(&self) -> Option<&Departed>
        ensures { option_copied result ≡ slice_get self.now.gone 0 }
    {
        self.gone.front()
    }

    /// The client that went first was handed out.
    pub fn leave(&mut self)
        ensures { self.new ≡ left_by_first self.old }
    {
        if let Some(departed) = self.gone.pop_front() {
            self.left.push_back_reserved(departed.leave());
        }
    }

    /// The next descriptor that was passed over.
    pub fn next_passed(&mut self) -> Option<i32>
        ensures { PassesNext self.old result self.new }
    {
        match next_left(&mut self.left) {
            Some(descriptor) => Some(descriptor),
            None => next_marked(&mut self.ledgers, &mut self.marked),
        }
    }
}
