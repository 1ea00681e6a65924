//! The objects of a program, each in a slot of its own: the queue of its events, whether it is destroyed, and how often it is
//! referred to.

ghost use Rattle.std.specs.Prelude.{◌≡◌, ◌↔◌, ℕ, ◌+◌, ◌<◌, ◌==◌, ◌&&◌, IfOk, IfSome, IsTrue, OnErr, IfNone, OnOk, false, if◌then◌else◌, length, true};
ghost use Rattle.wl_queues.specs.Objects.{given_up, is_destroyed, left_by, nobody, with_destroyed, with_queue};
ghost use Rattle.wl_queues.specs.Inside.Slots.{IsListed, is_unused, slot_at};

use std::alloc::{AllocError, Global};
use std::collections::VecDeque;

/// What has become of an object.
#[derive(Clone, Copy, Debug, PartialEq, Eq)]
pub enum Fate {
    /// The slot has no object.
    Free,
    /// The program may still be told of it.
    Alive,
    /// The program destroyed it. Events that came before that may still refer to it.
    Destroyed,
}

/// What an object's slot says of it.
#[derive(Clone, Copy, Debug, PartialEq, Eq)]
pub struct Object {
    /// The queue in which its events wait that are still to come.
    pub queue: usize,
    /// What has become of it.
    pub fate: Fate,
    /// The host's own, as the object was added. Of a slot that has no object it is 0.
    pub content: u64,
}

/// An object that is unused: the program destroyed it, and no event names it any more.
#[derive(Clone, Copy, Debug, PartialEq, Eq)]
pub struct UnusedObject {
    /// The slot that it had.
    pub object: usize,
    /// The content with which it was added.
    pub content: u64,
}

/// What is kept of an object.
#[derive(Clone, Copy)]
pub(crate) struct Slot {
    pub(crate) object: Object,
    /// How often events that wait, or that are in hand, name it.
    pub(crate) references: u64,
    /// The slot that was freed before this one, if this one is free.
    pub(crate) next: usize,
}

/// Whether the object is unused once it is referred to once less.
fn is_last(slot: &Slot) -> bool
    ensures { result ≡ (is_destroyed slot.now.object.fate && (slot.now.references == 1)) }
{
    slot.object.fate == Fate::Destroyed && slot.references == 1
}

/// All objects.
#[derive(Drop)]
pub(crate) struct Objects {
    slots: Vec<Slot>,
    /// The slot that was freed last. It is not free, or not there, if no slot is.
    first_free: usize,
    /// The objects that are destroyed and that nothing refers to: the oldest first.
    unused: VecDeque<usize>,
    ghost listed: { IsListed slots.items unused },
}

impl Objects {
    ghost use Rattle.wl_queues.specs.Inside.Objects.{AddsObject, AddsReferences, AreAllReferred, IsLiveIn, IsUnreferred, KeepsObjects, KeepsReferences, ListsUnused, ObjectsAre, TakesOldest, TakesReferences, UsesFreedSlot, is_last_reference, object_of, once_for, references_of};

    /// No objects.
    pub(crate) fn new(alloc: Global) -> Self
        ensures objects { (o : ℕ) → object_of result o ≡ nobody }
        ensures references { (o : ℕ) → references_of result o ≡ 0 }
    {
        Objects {
            slots: Vec::new(alloc),
            first_free: 0,
            unused: VecDeque::new(alloc),
        }
    }

    /// What has become of the object.
    pub(crate) fn get(&self, object: usize) -> Object
        ensures { result ≡ object_of self.now object }
    {
        if object < self.slots.len() {
            self.slots[object].object
        } else {
            Object {
                queue: 0,
                fate: Fate::Free,
                content: 0,
            }
        }
    }

    /// How often the object is referred to.
    pub(crate) fn references(&self, object: usize) -> u64
        ensures { result ≡ references_of self.now object }
    {
        if object < self.slots.len() {
            self.slots[object].references
        } else {
            0
        }
    }

    /// A new object of the queue with this content, in a slot that was free: the one that was freed last, and a new one only if none
    /// is free.
    pub(crate) fn add(&mut self, queue: usize, content: u64) -> Result<usize, AllocError>
        ensures free { IfOk result (λ o. (object_of self.old o).fate ≡ Fate.Free) }
        ensures reused { IfOk result (λ o. UsesFreedSlot self.old o) }
        ensures objects { IfOk result (λ o. AddsObject self.old queue content o self.new) }
        ensures refused { OnErr result (KeepsObjects self.old self.new) }
        ensures references { KeepsReferences self.old self.new }
    {
        self.unused.reserve(self.slots.len() + 1)?;
        let object = Object {
            queue,
            fate: Fate::Alive,
            content,
        };
        let slot = self.first_free;
        if slot < self.slots.len() && self.slots[slot].object.fate == Fate::Free {
            self.first_free = self.slots[slot].next;
            self.slots[slot].object = object;
            return Ok(slot);
        }
        let slot = self.slots.len();
        self.slots.push(Slot {
            object,
            references: 0,
            next: 0,
        })?;
        Ok(slot)
    }

    /// Later events of the object wait in this queue.
    pub(crate) fn set_queue(&mut self, object: usize, queue: usize)
        requires { IsLiveIn self.old object }
        ensures objects { ObjectsAre self.new (with_queue object queue (object_of self.old)) }
        ensures references { KeepsReferences self.old self.new }
    {
        self.slots[object].object.queue = queue;
    }

    /// The objects of this queue have the default queue from now on.
    pub(crate) fn leave_queue(&mut self, queue: usize)
        ensures objects { ObjectsAre self.new (λ o. left_by queue (object_of self.old o)) }
        ensures references { KeepsReferences self.old self.new }
    {
        for object in 0..self.slots.len() {
            if self.slots[object].object.queue == queue {
                self.slots[object].object.queue = 0;
            }
        }
    }

    /// The program destroys the object.
    pub(crate) fn destroy(&mut self, object: usize)
        requires { IsLiveIn self.old object }
        ensures objects { ObjectsAre self.new (with_destroyed object (object_of self.old)) }
        ensures references { KeepsReferences self.old self.new }
        ensures listed { ListsUnused self.old (references_of self.old object == 0) object self.new }
    {
        let references = self.slots[object].references;
        self.slots[object].object.fate = Fate::Destroyed;
        if references == 0 {
            self.unused.push_back_reserved(object);
        }
    }

    /// The object is referred to once more.
    pub(crate) fn hold(&mut self, object: usize)
        requires alive { IsLiveIn self.old object }
        requires room { references_of self.old object < 0xFFFFFFFFFFFFFFFF }
        ensures objects { KeepsObjects self.old self.new }
        ensures references { AddsReferences self.old self.new (once_for object) }
    {
        self.slots[object].references += 1;
    }

    /// The object is referred to once less.
    pub(crate) fn release(&mut self, object: usize)
        requires { 0 < references_of self.old object }
        ensures objects { KeepsObjects self.old self.new }
        ensures references { TakesReferences self.old self.new (once_for object) }
        ensures listed { ListsUnused self.old (is_last_reference self.old object) object self.new }
    {
        let slot = self.slots[object];
        self.slots[object].references = slot.references - 1;
        if is_last(&slot) {
            self.unused.push_back_reserved(object);
        }
    }

    /// The object that became unused first. Its slot is free from now on.
    pub(crate) fn next_unused(&mut self) -> Option<UnusedObject>
        ensures unused { IfSome result (λ u. IsUnreferred self.old u.object) }
        ensures content { IfSome result (λ u. u.content ≡ (object_of self.old u.object).content) }
        ensures none { IfNone result (AreAllReferred self.old) }
        ensures oldest { TakesOldest self.old result self.new }
        ensures freed { IfSome result (λ u. u.object ≡ self.new.first_free) }
        ensures objects { ObjectsAre self.new (given_up result (object_of self.old)) }
        ensures references { KeepsReferences self.old self.new }
    {
        let object = self.unused.pop_front()?;
        let slot = &mut self.slots[object];
        let content = slot.object.content;
        slot.object = Object {
            queue: 0,
            fate: Fate::Free,
            content: 0,
        };
        slot.next = self.first_free;
        self.first_free = object;
        Some(UnusedObject { object, content })
    }
}
