//! Gathers the notes of all clients in one list, in order of time.
//!
//! In this file `waits` says whether the notes that wait for a cleanup are gathered, too, after those that were made.
//! The page of the module `notes` of `wl_server_client` explains these words.

ghost use Rattle.std.specs.Prelude.{◌≡◌, ℕ, ◌+◌, ◌++◌, ◌≤◌, ◌<◌, ◌==◌, if◌then◌else◌, length, map, false, None, Some, IfOk, IsPermutation, IsTrue, OnErr, OnOk};
ghost use Rattle.std.specs.Vec.{vec_capacity, vec_len};
ghost use Rattle.wl_server_model.specs.Inside.Gathering.{AllLeft, Gathers, MovesNote, count_leaving};
ghost use Rattle.wl_server_model.specs.NoteOrder.{AllNumbered, AllTakeFirst, Along, IsInOrder, IsOrderOf, Rise, places_at};
ghost use Rattle.wl_server_client.specs.NoteTimes.{IsNumbered, TakesFirst, places_of, times_of, to_gather};
ghost use Rattle.wl_server_client.specs.Inside.NoteTimes.{AreNumbered};
ghost use Rattle.wl_server_model.specs.Inside.NoteOrder.{NoneNumbered, count_places};
ghost use Rattle.wl_server.specs.Inside.Touched.{AllQuiet, IsQuiet};
ghost use Rattle.wl_server_client.specs.Stored.{note_of as the_note};

use crate::client::Slots;
use std::alloc::Global;
use wl_server_client::client::Client;
use wl_server_client::ids::client_id::ClientId;
use wl_server_client::notes::queues::NotePlace;
use wl_server_client::notes::{Happening, Note};
use wl_sets::slot_set::SlotSet;
use wl_wire::OutOfMemory;

/// The note that this happened to the client.
fn note_of<U>(id: ClientId, happening: Happening<U>) -> Note<U>
    ensures { result ≡ the_note id happening }
{
    match happening {
        Happening::Initialized => Note::Initialized(id),
        Happening::Disconnected(reason) => Note::Disconnected(id, reason),
        Happening::Destroyed(object, user_data) => Note::Destroyed(id, object, user_data),
    }
}

/// Moves the next note of the client of a slot to the end of the list. There is such a note, and room for it.
fn move_note<T, U, C>(
    slot: u32,
    client: &mut Option<Client<T, U, C>>,
    waits: bool,
    notes: &mut Vec<Note<U>>,
)
    requires some { 0 < length (to_gather waits client.old) }
    requires room { vec_len notes.old < vec_capacity notes.old }
    ensures moved { MovesNote waits slot client.old notes.old.items client.new notes.new.items }
    ensures first { TakesFirst (times_of client.old) (times_of client.new) }
    ensures numbered { AreNumbered waits client.new }
    ensures all_numbered { IsNumbered client.old → IsNumbered client.new }
    ensures capacity { vec_capacity notes.new ≡ vec_capacity notes.old }
{
    let Some(client) = client else { unreachable!() };
    let Some(happening) = client.take_note(waits) else {
        unreachable!()
    };
    let id = ClientId::from_parts(slot, client.serial);
    notes.push_reserved(note_of(id, happening));
}

/// Moves the notes of all clients to the end of the list. There is room for them.
///
/// `order` has the place of each note. Its slots say of which client the next note is taken. The notes of one client keep
/// their order.
pub fn gather<T, U, C>(
    clients: &mut Slots<T, U, C>,
    waits: bool,
    order: &[NotePlace],
    notes: &mut Vec<Note<U>>,
)
    requires order { IsOrderOf waits clients.old.items order.now }
    requires room { vec_len notes.old + count_leaving waits clients.old.items ≤ vec_capacity notes.old }
    ensures gathered { Gathers waits clients.old.items notes.old.items clients.new.items notes.new.items }
    ensures ended { AllLeft waits clients.new.items }
    ensures along { Along notes.old.items notes.new.items order.now }
    ensures first { AllTakeFirst (map times_of clients.old.items) (map times_of clients.new.items) }
    ensures no_numbers { NoneNumbered waits (map times_of clients.new.items) }
    ensures numbered { AllNumbered clients.old.items → AllNumbered clients.new.items }
    ensures capacity { vec_capacity notes.new ≡ vec_capacity notes.old }
{
    for place in order {
        let slot = place.slot();
        move_note(slot, &mut clients[slot as usize], waits, notes);
    }
}

/// How many notes of the client of a slot are gathered.
pub fn count_of<T, U, C>(client: &Option<Client<T, U, C>>, waits: bool) -> usize
    ensures notes { result ≡ length (to_gather waits client.now) }
    ensures places { result ≡ length (places_of waits 0 (times_of client.now)) }
{
    match client {
        Some(client) if waits => client.made.len() + client.waiting.len(),
        Some(client) => client.made.len(),
        None => 0,
    }
}

/// Whether the client of a slot is live and has no notes, if there is one.
pub fn is_quiet<T, U, C>(client: &Option<Client<T, U, C>>) -> bool
    ensures { IsTrue result → IsQuiet client.now }
{
    match client {
        Some(client) => !client.is_killed && client.made.len() == 0 && client.waiting.len() == 0,
        None => true,
    }
}

/// How many notes of all clients are gathered. `usize::MAX` stands for any larger number. It looks at the clients that may
/// have notes, and takes those out of the set that turn out to be quiet.
pub fn count_notes<T, U, C>(
    clients: &[Option<Client<T, U, C>>],
    to_note: &mut SlotSet,
    waits: bool,
) -> usize
    requires { AllQuiet to_note.old.words.items clients.now }
    ensures quiet { AllQuiet to_note.new.words.items clients.now }
    ensures all { result < 0xFFFFFFFFFFFFFFFF → count_leaving waits clients.now ≤ result }
    ensures places { result < 0xFFFFFFFFFFFFFFFF → count_places waits (map times_of clients.now) ≤ result }
    ensures no_more { result ≤ count_leaving waits clients.now }
{
    let end = clients.len();
    let mut count: usize = 0;
    let mut slot = to_note.next_from(0, end);
    while slot < end {
        let place = &clients[slot];
        count = count.saturating_add(count_of(place, waits));
        to_note.remove_if(slot, is_quiet(place));
        slot = to_note.next_from(slot + 1, end);
    }
    count
}

/// Appends the places of the notes of the client of a slot that are gathered.
fn put_places_at<T, U, C>(
    client: &Option<Client<T, U, C>>,
    waits: bool,
    slot: u32,
    order: &mut Vec<NotePlace>,
) -> Result<(), OutOfMemory>
    ensures counted { OnOk result ((k : ℕ) → places_at k order.new.items ≡ places_at k order.old.items + (if slot == k then length (to_gather waits client.now) else 0)) }
    ensures placed { OnOk result (order.new.items ≡ order.old.items ++ places_of waits slot (times_of client.now)) }
{
    let Some(client) = client else {
        return Ok(());
    };
    client.made.put_places(slot, order)?;
    if waits {
        client.waiting.put_places(slot, order)?;
    }
    Ok(())
}

/// Sorts the places by time.
fn put_in_order(order: &mut Vec<NotePlace>)
    ensures rise { Rise order.new.items }
    ensures moved { IsPermutation order.old.items order.new.items }
{
    order.sort_unstable();
}

/// The places of all notes that are gathered, in order of time. Room for `count` places is allocated first.
pub fn order_of<T, U, C>(
    alloc: Global,
    clients: &[Option<Client<T, U, C>>],
    to_note: &SlotSet,
    waits: bool,
    count: usize,
) -> Result<Vec<NotePlace>, OutOfMemory>
    requires slots { length clients.now ≤ 0x100000000 }
    requires quiet { AllQuiet to_note.now.words.items clients.now }
    ensures { IfOk result (λ order. IsOrderOf waits clients.now order.items) }
{
    let mut order = Vec::with_capacity(alloc, count)?;
    let end = clients.len();
    let mut slot = to_note.next_from(0, end);
    while slot < end {
        put_places_at(&clients[slot], waits, slot as u32, &mut order)?;
        slot = to_note.next_from(slot + 1, end);
    }
    put_in_order(&mut order);
    Ok(order)
}

/// Moves the notes of all clients that were made to the end of the list, in order of time. If there is no memory, nothing
/// is changed. If there are no such notes, it allocates nothing.
pub fn gather_made<T, U, C>(
    alloc: Global,
    clients: &mut Slots<T, U, C>,
    to_note: &mut SlotSet,
    notes: &mut Vec<Note<U>>,
) -> Result<(), OutOfMemory>
    requires slots { length clients.old.items ≤ 0x100000000 }
    requires quiet { AllQuiet to_note.old.words.items clients.old.items }
    ensures quiet { AllQuiet to_note.new.words.items clients.old.items }
    ensures gathered { IfOk result (λ _. Gathers false clients.old.items notes.old.items clients.new.items notes.new.items) }
    ensures ended { IfOk result (λ _. AllLeft false clients.new.items) }
    ensures numbered { AllNumbered clients.old.items → AllNumbered clients.new.items }
    ensures in_order { IfOk result (λ _. IsInOrder false clients.old.items notes.old.items notes.new.items) }
    ensures first { AllTakeFirst (map times_of clients.old.items) (map times_of clients.new.items) }
    ensures unchanged { OnErr result ((clients.new.items ≡ clients.old.items) × (notes.new.items ≡ notes.old.items)) }
    ensures some { OnErr result (0 < count_leaving false clients.old.items) }
{
    let count = count_notes(clients, to_note, false);
    if count == 0 {
        return Ok(());
    }
    let order = order_of(alloc, clients, to_note, false, count)?;
    notes.reserve(count)?;
    gather(clients, false, &order, notes);
    Ok(())
}
