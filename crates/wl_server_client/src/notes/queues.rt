//! The notes that are kept with a client, each with its number.
//!
//! The page of the module `notes` says which notes are made, and which wait.
//!
//! The numbers and the queues are private to this file. So a note gets its number when it is put into a queue, and the
//! place of a note has the number that is kept with it.

ghost use Rattle.std.specs.Prelude.{◌≡◌, ℕ, List, ◌+◌, ◌++◌, ◌∷◌, ◌<◌, ◌≤◌, [], false, true, length, map, IfOk, MatchOption, OnOk};
ghost use Rattle.std.specs.VecDeque.{deque_capacity, deque_len};
ghost use Rattle.wl_server_client.specs.NoteTimes.{GivesNumbers, number_after};
ghost use Rattle.wl_server_client.specs.Inside.NoteTimes.{place_of};

use crate::notes::Happening;
use std::alloc::Global;
use std::collections::VecDeque;
use wl_wire::OutOfMemory;

/// The numbers that the next notes get. Notes are kept with their client. Their numbers tell in which order the notes of
/// all clients were put into the queues. Those of notes that wait begin at 0 again when a cleanup has gathered them all.
#[derive(Drop)]
pub struct NoteNumbers {
    /// The number of the next note that waits for a cleanup.
    waiting: u128,
    /// The number of the next note that is made.
    made: u128,
}

/// Returns the next number, and counts up.
fn next_number(next: &mut u128) -> u128
    ensures given { result ≡ next.old }
    ensures counted { next.new ≡ number_after next.old }
{
    let number = *next;
    *next = number.saturating_add(1);
    number
}

impl NoteNumbers {
    /// The numbers of a server without notes.
    pub fn new() -> Self
        ensures { result ≡ record { waiting = 0; made = 0 } }
    {
        NoteNumbers {
            waiting: 0,
            made: 0,
        }
    }

    /// The numbers of notes that wait begin at 0 again.
    pub fn begin_waiting_anew(&mut self)
        ensures { self.new ≡ record self.old { waiting = 0 } }
    {
        self.waiting = 0;
    }
}

/// The place of a note in the order of time, and the slot of its client. Notes that were made come before those that
/// wait; among each kind they are ordered by number.
#[derive(Drop, PartialEq, Eq, PartialOrd, Ord)]
pub struct NotePlace {
    waits: bool,
    number: u128,
    slot: u32,
}

impl NotePlace {
    /// The slot of the note's client.
    pub fn slot(&self) -> u32
        ensures { result ≡ self.now.slot }
    {
        self.slot
    }
}

/// Appends the places of the notes of this queue. `waits` says whether they wait.
fn put_places<U>(
    queue: &VecDeque<(u128, Happening<U>)>,
    waits: bool,
    slot: u32,
    order: &mut Vec<NotePlace>,
) -> Result<(), OutOfMemory>
    ensures { OnOk result (order.new.items ≡ order.old.items ++ map (place_of waits slot) queue.now.items) }
{
    for (number, _) in queue.iter() {
        let number = *number;
        order.push(NotePlace {
            waits,
            number,
            slot,
        })?;
    }
    Ok(())
}

/// The notes of a client that were made and are not gathered yet, in order.
#[derive(Drop)]
pub struct MadeNotes<U> {
    queue: VecDeque<(u128, Happening<U>)>,
}

impl<U> MadeNotes<U> {
    /// A queue without notes, with room for this many.
    pub fn with_capacity(alloc: Global, count: usize) -> Result<Self, OutOfMemory>
        ensures none { IfOk result (λ notes. notes.queue.items ≡ []) }
        ensures len { IfOk result (λ notes. deque_len notes.queue ≡ 0) }
        ensures room { IfOk result (λ notes. count ≤ deque_capacity notes.queue) }
    {
        let queue = VecDeque::with_capacity(alloc, count)?;
        Ok(MadeNotes { queue })
    }

    /// Makes room for this many more.
    pub fn reserve(&mut self, additional: usize) -> Result<(), OutOfMemory>
        ensures items { self.new.queue.items ≡ self.old.queue.items }
        ensures len { deque_len self.new.queue ≡ deque_len self.old.queue }
        ensures capacity { deque_capacity self.old.queue ≤ deque_capacity self.new.queue }
        ensures room { OnOk result (deque_len self.new.queue + additional ≤ deque_capacity self.new.queue) }
    {
        Ok(self.queue.reserve(additional)?)
    }

    /// Adds a note that is made. It gets the next number of those that are made.
    pub fn push(&mut self, numbers: &mut NoteNumbers, happening: Happening<U>)
        requires { deque_len self.old.queue < deque_capacity self.old.queue }
        ensures items { self.new.queue.items ≡ self.old.queue.items ++ (numbers.old.made, happening) ∷ [] }
        ensures numbers { numbers.new ≡ record numbers.old { made = number_after numbers.old.made } }
        ensures in_time { GivesNumbers (map (λ n. n.0) self.old.queue.items) numbers.old.made (map (λ n. n.0) self.new.queue.items) numbers.new.made }
        ensures len { deque_len self.new.queue ≡ deque_len self.old.queue + 1 }
        ensures capacity { deque_capacity self.new.queue ≡ deque_capacity self.old.queue }
    {
        let number = next_number(&mut numbers.made);
        self.queue.push_back_reserved((number, happening));
    }

    /// Takes the oldest note.
    pub fn pop(&mut self) -> Option<Happening<U>>
        ensures oldest { MatchOption result ((self.old.queue.items ≡ []) × (self.new.queue.items ≡ []))
            (λ h. map (λ n. n.1) self.old.queue.items ≡ h ∷ map (λ n. n.1) self.new.queue.items) }
        ensures first { (ns : List ℕ) × (map (λ n. n.0) self.old.queue.items ≡ ns ++ map (λ n. n.0) self.new.queue.items) }
        ensures room { deque_len self.old.queue < deque_capacity self.old.queue → deque_len self.new.queue < deque_capacity self.new.queue }
    {
        let (_, happening) = self.queue.pop_front()?;
        Some(happening)
    }

    /// How many notes there are.
    pub fn len(&self) -> usize
        ensures { result ≡ length self.now.queue.items }
    {
        self.queue.len()
    }

    /// Appends the places of the notes.
    pub fn put_places(&self, slot: u32, order: &mut Vec<NotePlace>) -> Result<(), OutOfMemory>
        ensures { OnOk result (order.new.items ≡ order.old.items ++ map (place_of false slot) self.now.queue.items) }
    {
        put_places(&self.queue, false, slot, order)
    }
}

/// The notes of a client that wait for the next cleanup, in order.
#[derive(Drop)]
pub struct WaitingNotes<U> {
    queue: VecDeque<(u128, Happening<U>)>,
}

impl<U> WaitingNotes<U> {
    /// A queue without notes.
    pub fn new(alloc: Global) -> Self
        ensures { result.queue.items ≡ [] }
    {
        WaitingNotes {
            queue: VecDeque::new(alloc),
        }
    }

    /// Makes room for one more.
    pub fn reserve(&mut self) -> Result<(), OutOfMemory>
        ensures items { self.new.queue.items ≡ self.old.queue.items }
        ensures room { OnOk result (deque_len self.new.queue < deque_capacity self.new.queue) }
    {
        Ok(self.queue.reserve(1)?)
    }

    /// Adds a note that waits. It gets the next number of those that wait.
    pub fn push(&mut self, numbers: &mut NoteNumbers, happening: Happening<U>)
        requires { deque_len self.old.queue < deque_capacity self.old.queue }
        ensures items { self.new.queue.items ≡ self.old.queue.items ++ (numbers.old.waiting, happening) ∷ [] }
        ensures numbers { numbers.new ≡ record numbers.old { waiting = number_after numbers.old.waiting } }
        ensures in_time { GivesNumbers (map (λ n. n.0) self.old.queue.items) numbers.old.waiting (map (λ n. n.0) self.new.queue.items) numbers.new.waiting }
    {
        let number = next_number(&mut numbers.waiting);
        self.queue.push_back_reserved((number, happening));
    }

    /// Takes the oldest note.
    pub fn pop(&mut self) -> Option<Happening<U>>
        ensures oldest { MatchOption result ((self.old.queue.items ≡ []) × (self.new.queue.items ≡ []))
            (λ h. map (λ n. n.1) self.old.queue.items ≡ h ∷ map (λ n. n.1) self.new.queue.items) }
        ensures first { (ns : List ℕ) × (map (λ n. n.0) self.old.queue.items ≡ ns ++ map (λ n. n.0) self.new.queue.items) }
    {
        let (_, happening) = self.queue.pop_front()?;
        Some(happening)
    }

    /// How many notes there are.
    pub fn len(&self) -> usize
        ensures { result ≡ length self.now.queue.items }
    {
        self.queue.len()
    }

    /// Appends the places of the notes.
    pub fn put_places(&self, slot: u32, order: &mut Vec<NotePlace>) -> Result<(), OutOfMemory>
        ensures { OnOk result (order.new.items ≡ order.old.items ++ map (place_of true slot) self.now.queue.items) }
    {
        put_places(&self.queue, true, slot, order)
    }
}
