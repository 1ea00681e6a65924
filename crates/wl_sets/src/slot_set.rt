//! Sets of slots, with a bit for each slot.
//!
//! The *slot* of a client is its index in the server's list of clients. A *word* has the bits of 64 slots, and its *row* is
//! its index.

ghost use Rattle.std.specs.Prelude.{◌≡◌, ℕ, ◌<◌, ◌≤◌, ◌+◌, ◌≢◌, ◌%◌, [], length, slice_get, Some};
ghost use Rattle.std.specs.Int.{bit_at};
ghost use Rattle.wl_sets.specs.SlotSets.{Adds, IsOut, TakesOut};

use std::alloc::{AllocError, Global};

/// A set of slots. It has each slot for whose bit there is no word yet: so a new set has all slots, and needs no memory.
#[derive(Drop)]
pub struct SlotSet {
    words: Vec<u64>,
}

/// The word with this bit set.
fn with_bit(word: u64, at: usize) -> u64
    requires { at < 64 }
    ensures here { bit_at result at ≡ 1 }
    ensures others { (i : ℕ) → i < 64 → i ≢ at → bit_at result i ≡ bit_at word i }
{
    word | 1 << at
}

/// The word with this bit cleared.
fn without_bit(word: u64, at: usize) -> u64
    requires { at < 64 }
    ensures others { (i : ℕ) → i < 64 → i ≢ at → bit_at result i ≡ bit_at word i }
{
    word & !(1 << at)
}

/// The lowest bit of the word that is set, from this one on. If none is, it is 64.
fn lowest_bit(word: u64, from: usize) -> usize
    requires { from < 64 }
    ensures from { from ≤ result }
    ensures within { result ≤ 64 }
    ensures skipped { (i : ℕ) → from ≤ i → i < result → bit_at word i ≡ 0 }
{
    let rest = word & (u64::MAX << from);
    if rest == 0 {
        64
    } else {
        rest.trailing_zeros() as usize
    }
}

/// The first row from this one on whose word is not 0. If there is none, it is the number of rows.
fn next_row(words: &[u64], from: usize) -> usize
    requires { from ≤ length words.now }
    ensures from { from ≤ result }
    ensures within { result ≤ length words.now }
    ensures skipped { (row : ℕ) → from ≤ row → row < result → slice_get words.now row ≡ Some 0 }
{
    for row in from..words.len() {
        if words[row] != 0 {
            return row;
        }
    }
    words.len()
}

/// The first slot of the set, from this one on.
fn first_slot(words: &[u64], from: usize) -> usize
    ensures from { from ≤ result }
    ensures skipped { (k : ℕ) → from ≤ k → k < result → IsOut words.now k }
{
    let row = from / 64;
    if row >= words.len() {
        return from;
    }
    let bit = lowest_bit(words[row], from % 64);
    if bit < 64 {
        return 64 * row + bit;
    }
    let row = next_row(words, row + 1);
    let start = row.saturating_mul(64);
    if row >= words.len() {
        return start;
    }
    start.saturating_add(lowest_bit(words[row], 0))
}

/// Sets all bits.
fn fill(words: &mut [u64])
    ensures { (k : ℕ) → IsOut words.new k → ⊥ }
{
    for row in 0..words.len() {
        words[row] = u64::MAX;
    }
}

impl SlotSet {
    /// The set of all slots.
    pub fn all(alloc: Global) -> Self
        ensures { result.words.items ≡ [] }
    {
        SlotSet {
            words: Vec::new(alloc),
        }
    }

    /// Makes a bit for the slot, if the slots before it have theirs. The slot is in the set until it is taken out.
    pub fn grow_to(&mut self, slot: usize) -> Result<(), AllocError>
        ensures { (k : ℕ) → IsOut self.new.words.items k → IsOut self.old.words.items k }
    {
        if slot / 64 >= self.words.len() {
            self.words.reserve(1)?;
            self.words.push_reserved(u64::MAX);
        }
        Ok(())
    }

    /// Puts the slot into the set.
    pub fn insert(&mut self, slot: usize)
        ensures { Adds slot self.old.words.items self.new.words.items }
    {
        let row = slot / 64;
        if row < self.words.len() {
            self.words[row] = with_bit(self.words[row], slot % 64);
        }
    }

    /// Puts all slots into the set.
    pub fn insert_all(&mut self)
        ensures { (k : ℕ) → IsOut self.new.words.items k → ⊥ }
    {
        fill(&mut self.words);
    }

    /// Takes the slot out, if the flag is set and the slot has a bit.
    pub fn remove_if(&mut self, slot: usize, flag: bool)
        ensures { TakesOut slot flag self.old.words.items self.new.words.items }
    {
        let row = slot / 64;
        if flag && row < self.words.len() {
            self.words[row] = without_bit(self.words[row], slot % 64);
        }
    }

    /// The first slot of the set, from `from` on. If there is none below `end`, it is `end`.
    pub fn next_from(&self, from: usize, end: usize) -> usize
        requires { from ≤ end }
        ensures from { from ≤ result }
        ensures within { result ≤ end }
        ensures skipped { (k : ℕ) → from ≤ k → k < result → IsOut self.now.words.items k }
    {
        first_slot(&self.words, from).min(end)
    }
}
