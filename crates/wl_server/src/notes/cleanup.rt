//! The cleanup: takes out the clients that were killed, and makes the notes that waited for it.
//!
//! The page of the module `notes` of `wl_server_client` explains what notes are, and which of them are made, wait, or are gathered.

ghost use Rattle.std.specs.Prelude.{◌≡◌, ℕ, map, ◌+◌, ◌++◌, ◌<◌, ◌≤◌, [], length, min, slice_get, true, IfOk, MatchOption, OnErr, OnOk};
ghost use Rattle.std.specs.Vec.{vec_capacity, vec_len};
ghost use Rattle.wl_server_model.specs.Backend.{Calls};
ghost use Rattle.wl_server_model.specs.Inside.Cleanup.{CleansUp};
ghost use Rattle.wl_server_model.specs.Inside.Gathering.{count_leaving};
ghost use Rattle.wl_server_model.specs.NoteOrder.{AllNumbered, AllTakeFirst, IsOrderOf, NoneWaits};
ghost use Rattle.wl_server_client.specs.NoteTimes.{times_of};
ghost use Rattle.wl_server_model.specs.Inside.NoteOrder.{count_places};
ghost use Rattle.wl_server_model.specs.Inside.Leaving.{all_staying, collected, ends_at, given_at, staying};
ghost use Rattle.wl_server.specs.Inside.Touched.{AllLive, AllQuiet};
ghost use Rattle.wl_server_model.specs.PartStep.{over};
ghost use Rattle.wl_server_model.specs.Plain.{CleansUpClients};
ghost use Rattle.wl_server_model.specs.declared.step.Reply.TheVariants as reply;
ghost use Rattle.wl_server_model.specs.declared.step.Step.TheVariants as step;

use crate::backend::Backend;
use crate::client::Slots;
use crate::client::flush::flush_killed;
use crate::notes::gather::{count_of, gather, is_quiet, order_of};
use std::alloc::Global;
use wl_link::Transport;
use wl_server_client::client::Client;
use wl_server_client::globals::handler::GlobalHandler;
use wl_server_client::ids::client_id::ClientId;
use wl_server_client::notes::Note;
use wl_server_client::notes::leaving::{count_ending, end_objects};
use wl_server_client::notes::queues::{NoteNumbers, NotePlace};
use wl_sets::slot_set::SlotSet;
use wl_wire::OutOfMemory;

/// Takes the client of a slot out, if it was killed. Notes are made of the end of its objects that have user data, and
/// its transport is put into `given`. All else of it is dropped.
fn leave_at<T: Drop, U: Drop, C: Drop>(
    slot: u32,
    place: &mut Option<Client<T, U, C>>,
    notes: &mut Vec<Note<U>>,
    given: &mut Vec<(ClientId, T)>,
)
    requires notes { vec_len notes.old + length (ends_at slot place.old) ≤ vec_capacity notes.old }
    requires given { vec_len given.old + length (given_at slot place.old) ≤ vec_capacity given.old }
    ensures stays { place.new ≡ staying place.old }
    ensures noted { notes.new.items ≡ notes.old.items ++ ends_at slot place.old }
    ensures given { given.new.items ≡ given.old.items ++ given_at slot place.old }
    ensures notes_room { vec_capacity notes.new ≡ vec_capacity notes.old }
    ensures given_room { vec_capacity given.new ≡ vec_capacity given.old }
{
    let Some(client) = place else {
        return;
    };
    if !client.is_killed {
        return;
    }
    let id = ClientId::from_parts(slot, client.serial);
    if let Some(client) = place.take() {
        end_objects(client.objects, &id, notes);
        given.push_reserved((id, client.socket.into_transport()));
    }
}

/// Takes all killed clients out, by ascending slot. The set has all of these.
pub fn leave_all<T: Drop, U: Drop, C: Drop>(
    clients: &mut Slots<T, U, C>,
    to_note: &SlotSet,
    notes: &mut Vec<Note<U>>,
    given: &mut Vec<(ClientId, T)>,
)
    requires slots { length clients.old.items ≤ 0x100000000 }
    requires live { AllLive to_note.now.words.items clients.old.items }
    requires notes { vec_len notes.old + length (collected ends_at 0 clients.old.items) ≤ vec_capacity notes.old }
    requires given { vec_len given.old + length (collected given_at 0 clients.old.items) ≤ vec_capacity given.old }
    ensures stay { clients.new.items ≡ all_staying clients.old.items }
    ensures noted { notes.new.items ≡ notes.old.items ++ collected ends_at 0 clients.old.items }
    ensures given { given.new.items ≡ given.old.items ++ collected given_at 0 clients.old.items }
{
    let end = clients.len();
    let mut slot = to_note.next_from(0, end);
    while slot < end {
        leave_at(slot as u32, &mut clients[slot], notes, given);
        slot = to_note.next_from(slot + 1, end);
    }
}

/// The first slot that may be free once these clients were taken out, by ascending slot. Before that it was `from`.
fn free_from_after<T>(from: usize, given: &[(ClientId, T)]) -> usize
    ensures { MatchOption (slice_get given.now 0) (result ≡ from) (λ first. result ≡ min from first.0.slot) }
{
    match given.first() {
        Some((id, _)) => from.min(id.slot() as usize),
        None => from,
    }
}

/// How many notes are made of the end of objects if the client of a slot is taken out. The count may be larger than that,
/// and `usize::MAX` stands for any larger number.
fn count_ends_at<T: Drop, U: Drop, C: Drop>(client: &Option<Client<T, U, C>>) -> usize
    ensures { (slot : ℕ) → result < 0xFFFFFFFFFFFFFFFF → length (ends_at slot client.now) ≤ result }
{
    match client {
        Some(client) if client.is_killed => count_ending(&client.objects.map),
        _ => 0,
    }
}

/// 1 if the client of a slot is to be taken out, and else 0.
fn count_given_at<T, U, C>(client: &Option<Client<T, U, C>>) -> usize
    ensures { (slot : ℕ) → length (given_at slot client.now) ≡ result }
{
    match client {
        Some(client) if client.is_killed => 1,
        _ => 0,
    }
}

/// What a cleanup has to do. `usize::MAX` stands for any larger number.
#[derive(Drop)]
pub struct Work {
    /// How many notes of all clients are gathered.
    pub gathered: usize,
    /// How many clients are to be taken out.
    pub leaving: usize,
    /// How many notes are made of the end of their objects. It may be larger than that.
    pub ends: usize,
}

/// Counts what a cleanup has to do. It looks once at the clients that may have notes or be killed, and takes those out of
/// the set that turn out to be quiet.
pub fn count_work<T: Drop, U: Drop, C: Drop>(
    clients: &[Option<Client<T, U, C>>],
    to_note: &mut SlotSet,
) -> Work
    requires { AllQuiet to_note.old.words.items clients.now }
    ensures quiet { AllQuiet to_note.new.words.items clients.now }
    ensures gathered { result.gathered < 0xFFFFFFFFFFFFFFFF → count_leaving true clients.now ≤ result.gathered }
    ensures places { result.gathered < 0xFFFFFFFFFFFFFFFF → count_places true (map times_of clients.now) ≤ result.gathered }
    ensures few_gathered { result.gathered ≤ count_leaving true clients.now }
    ensures leaving { result.leaving < 0xFFFFFFFFFFFFFFFF → length (collected given_at 0 clients.now) ≤ result.leaving }
    ensures few_leaving { result.leaving ≤ length (collected given_at 0 clients.now) }
    ensures ends { result.ends < 0xFFFFFFFFFFFFFFFF → length (collected ends_at 0 clients.now) ≤ result.ends }
{
    let end = clients.len();
    let mut gathered: usize = 0;
    let mut leaving: usize = 0;
    let mut ends: usize = 0;
    let mut slot = to_note.next_from(0, end);
    while slot < end {
        let place = &clients[slot];
        gathered = gathered.saturating_add(count_of(place, true));
        leaving = leaving.saturating_add(count_given_at(place));
        ends = ends.saturating_add(count_ends_at(place));
        to_note.remove_if(slot, is_quiet(place));
        slot = to_note.next_from(slot + 1, end);
    }
    Work {
        gathered,
        leaving,
        ends,
    }
}

/// The memory that a cleanup needs.
#[derive(Drop)]
pub struct CleanupMemory<T> {
    /// The places of the notes that it gathers, in order of time.
    pub order: Vec<NotePlace>,
    /// Room for the clients that are taken out, with their transports.
    pub given: Vec<(ClientId, T)>,
}

/// Allocates the memory for the notes of a cleanup that does this work.
fn memory_for_notes<U: Drop>(work: &Work, notes: &mut Vec<Note<U>>) -> Result<(), OutOfMemory>
    ensures room { (gathered ends : ℕ) → (work.now.gathered < 0xFFFFFFFFFFFFFFFF → gathered ≤ work.now.gathered)
        → (work.now.ends < 0xFFFFFFFFFFFFFFFF → ends ≤ work.now.ends) → OnOk result (vec_len notes.new + gathered + ends ≤ vec_capacity notes.new) }
    ensures items { notes.new.items ≡ notes.old.items }
{
    notes.reserve(work.gathered.saturating_add(work.ends))?;
    Ok(())
}

/// Allocates all memory that a cleanup needs. If no notes are to be gathered and no client is to be taken out, it
/// allocates nothing.
pub fn memory_for<T: Drop, U: Drop, C: Drop>(
    alloc: Global,
    clients: &[Option<Client<T, U, C>>],
    to_note: &mut SlotSet,
    notes: &mut Vec<Note<U>>,
) -> Result<CleanupMemory<T>, OutOfMemory>
    requires slots { length clients.now ≤ 0x100000000 }
    requires quiet { AllQuiet to_note.old.words.items clients.now }
    ensures quiet { AllQuiet to_note.new.words.items clients.now }
    ensures notes { OnOk result (vec_len notes.new + count_leaving true clients.now + length (collected ends_at 0 clients.now) ≤ vec_capacity notes.new) }
    ensures given { IfOk result (λ memory. length (collected given_at 0 clients.now) ≤ vec_capacity memory.given) }
    ensures none { IfOk result (λ memory. memory.given.items ≡ []) }
    ensures order { IfOk result (λ memory. IsOrderOf true clients.now memory.order.items) }
    ensures items { notes.new.items ≡ notes.old.items }
    ensures some { OnErr result (0 < count_leaving true clients.now + length (collected given_at 0 clients.now)) }
{
    let work = count_work(clients, to_note);
    let count = work.gathered.saturating_add(work.leaving);
    if count == 0 {
        return Ok(CleanupMemory {
            order: Vec::new(alloc),
            given: Vec::new(alloc),
        });
    }
    memory_for_notes(&work, notes)?;
    let order = order_of(alloc, clients, to_note, true, work.gathered)?;
    let given = Vec::with_capacity(alloc, work.leaving)?;
    Ok(CleanupMemory { order, given })
}

/// Flushes the killed clients, gathers all notes, and takes the killed clients out. If no client was killed, it only
/// gathers. No note waits then, so the numbers of those that wait begin at 0 again. Returns whether memory ran out in a
/// flush.
fn clean_up<T: Transport + Drop, U: Drop, C: Drop>(
    clients: &mut Slots<T, U, C>,
    to_note: &SlotSet,
    numbers: &mut NoteNumbers,
    notes: &mut Vec<Note<U>>,
    memory: &mut CleanupMemory<T>,
) -> bool
    requires slots { length clients.old.items ≤ 0x100000000 }
    requires live { AllLive to_note.now.words.items clients.old.items }
    requires notes { vec_len notes.old + count_leaving true clients.old.items + length (collected ends_at 0 clients.old.items) ≤ vec_capacity notes.old }
    requires order { IsOrderOf true clients.old.items memory.old.order.items }
    requires given { length (collected given_at 0 clients.old.items) ≤ vec_capacity memory.old.given }
    requires none { memory.old.given.items ≡ [] }
    ensures cleaned { CleansUp T.sends clients.old.items notes.old.items result clients.new.items notes.new.items memory.new.given.items }
    ensures first { AllTakeFirst (map times_of clients.old.items) (map times_of clients.new.items) }
    ensures none_waits { NoneWaits (map times_of clients.new.items) }
    ensures numbered { AllNumbered clients.old.items → AllNumbered clients.new.items }
    ensures numbers { numbers.new ≡ record numbers.old { waiting = 0 } }
{
    numbers.begin_waiting_anew();
    if memory.given.capacity() == 0 {
        // No client was killed: none is flushed or taken out.
        gather(clients, true, &memory.order, notes);
        return false;
    }
    let refused = flush_killed(clients, to_note);
    gather(clients, true, &memory.order, notes);
    leave_all(clients, to_note, notes, &mut memory.given);
    refused
}

impl<T: Transport + Drop, U: Drop, G: GlobalHandler<C> + Drop, C: Drop> Backend<T, U, G, C> {
    /// Takes out the clients that were killed, and makes the notes that waited for a cleanup. Returns the clients that
    /// were taken out, by ascending slot, with their transports.
    ///
    /// What waits for such a client is sent before, as far as its transport takes it. A fault of that is dropped. A note
    /// is made of the end of each of its objects that has user data, by ascending number. The slot of the client is free
    /// again.
    ///
    /// The notes that waited are made in order of time, and come before those of the objects of clients that are taken
    /// out. `take_notes` hands them out.
    ///
    /// The error is `OutOfMemory`. Then nothing is changed. If no notes are to be gathered and no client is to be taken
    /// out, the call allocates nothing.
    pub fn cleanup(&mut self) -> Result<Vec<(ClientId, T)>, OutOfMemory>
        ensures call { Calls (over T.sends T.receives G.views) self.old step.Cleanup (reply.Cleanup result) self.new }
        ensures plain { CleansUpClients T.sends self.old result self.new }
    {
        let alloc = self.alloc();
        match memory_for(
            alloc,
            &self.clients,
            &mut self.touched.to_note,
            &mut self.notes,
        ) {
            Ok(mut memory) => {
                self.refused = clean_up(
                    &mut self.clients,
                    &self.touched.to_note,
                    &mut self.numbers,
                    &mut self.notes,
                    &mut memory,
                );
                self.free_from = free_from_after(self.free_from, &memory.given);
                Ok(memory.given)
            }
            Err(error) => {
                self.refused = true;
                Err(error)
            }
        }
    }
}
