//! Slots in an order.

ghost use Rattle.std.specs.Prelude.{◌≡◌, ◌≤◌, ◌∷◌, [], MatchOption, OnOk, drop};
ghost use Rattle.wl_host.specs.Inside.Slots.{with_slot};

use std::alloc::Global;
use std::collections::VecDeque;
use std::marker::Model;
use wl_wire::OutOfMemory;

/// Slots in an order, each at most once. To add one takes no memory, if room was made for it.
#[derive(Drop)]
pub struct SlotQueue {
    /// The slots, in order.
    slots: VecDeque<u32>,
    /// For each slot that there is room for, whether it is among them.
    is_among: Vec<bool>,
}

impl Model for SlotQueue {
    ghost use Rattle.std.specs.Prelude.{vec_len};
    ghost use Rattle.std.specs.VecDeque.{deque_len, deque_capacity};
    ghost use Rattle.wl_host.specs.Inside.Slots.{AreSlots, Slots};

    ghost Value = { Slots };

    ghost view = { λ q. record { slots = q.slots.items; room = vec_len q.is_among } };

    ghost invariant = { λ q. AreSlots (deque_len q.slots) (deque_capacity q.slots) q.slots.items q.is_among.items };
}

impl SlotQueue {
    /// No slots, and room for none.
    pub fn new(alloc: Global) -> Self
        ensures { result ≡ record { slots = []; room = 0 } }
    {
        SlotQueue {
            slots: VecDeque::new(alloc),
            is_among: Vec::new(alloc),
        }
    }

    /// Makes room for so many slots.
    pub fn make_room(&mut self, count: usize) -> Result<(), OutOfMemory>
        ensures ok { OnOk result (count ≤ self.new.room) }
        ensures slots { self.new.slots ≡ self.old.slots }
        ensures room { self.old.room ≤ self.new.room }
    {
        let known = self.is_among.len();
        if count <= known {
            return Ok(());
        }
        // Each of them may be added.
        self.slots.reserve(count)?;
        self.is_among.resize(count, false)?;
        Ok(())
    }

    /// Adds the slot behind the others, if it is not among them.
    pub fn add(&mut self, slot: u32)
        ensures { self.new ≡ with_slot self.old slot }
    {
        let index = slot as usize;
        if index >= self.is_among.len() || self.is_among[index] {
            return;
        }
        self.is_among[index] = true;
        self.slots.push_back_reserved(slot);
    }

    /// The first slot.
    pub fn first(&self) -> Option<u32>
        ensures { MatchOption result (self.now.slots ≡ []) (λ slot. self.now.slots ≡ slot ∷ (drop 1 self.now.slots)) }
    {
        self.slots.front().copied()
    }

    /// Takes the first slot off.
    pub fn next(&mut self) -> Option<u32>
        ensures slots { MatchOption result ((self.old.slots ≡ []) × (self.new.slots ≡ [])) (λ slot. self.old.slots ≡ slot ∷ self.new.slots) }
        ensures room { self.new.room ≡ self.old.room }
    {
        let slot = self.slots.pop_front()?;
        let index = slot as usize;
        if index < self.is_among.len() {
            self.is_among[index] = false;
        }
        Some(slot)
    }
}
