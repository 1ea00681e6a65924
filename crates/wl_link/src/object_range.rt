//! The objects of one range of numbers.
//!
//! A *place* is the position of a number in its range, counted from 0.

ghost use Rattle.std.specs.Prelude.{◌≡◌, ◌+◌, ◌<◌, ◌≤◌, [], length, true, false, None, Some, Err, OnOk, OnErr, IsSome, option_copied};
ghost use Rattle.std.specs.Fn.{FnOnceReturnsAtMut};
ghost use Rattle.wl_link.specs.Inside.PlaceList.{place, free_flag, is_free_place, put_len, has_place_capacity, IsKnown, SetsPlace, PutsAt, PutsNew, LendsAt, IsFirstFree, ShowsFree, WordsReadIn, ReadsFew, entries_from};
ghost use Rattle.wl_sets.specs.FreeTree.{has_capacity};
ghost use Rattle.wl_link.specs.declared.object_map.InsertError.TheVariants as insert;
ghost use Rattle.wl_link.specs.declared.object_map.NewError.TheVariants as new;

use crate::all_objects::RangeObjects;
use crate::into_objects::RangeIntoObjects;
use crate::object::Object;
use crate::object_map::{InsertError, NewError};
use std::alloc::{AllocError, Global};
use wl_sets::free_tree::FreeTree;
use wl_wire::OutOfMemory;

/// The objects of a range, each at its place. There is a place for each number that was ever in use, from the first number of the
/// range on.
#[derive(Drop)]
pub(crate) struct ObjectRange<Data> {
    // What each place has.
    slots: Vec<Option<Object<Data>>>,
    // The places without an object.
    free: FreeTree,
    // Whether there is known to be capacity for one place more.
    is_ready: bool,
}

impl<Data: Drop> ObjectRange<Data> {
    /// A range without places. It allocates nothing.
    pub(crate) fn new(alloc: Global) -> Self
        ensures slots { result.slots.items ≡ [] }
        ensures free { ShowsFree result.slots.items result.free.levels.items }
        ensures ready { result.is_ready ≡ false }
    {
        ObjectRange {
            slots: Vec::new(alloc),
            free: FreeTree::new(alloc),
            is_ready: false,
        }
    }

    /// The object at this place; `None` if there is none.
    pub(crate) fn find(&self, at: usize) -> Option<&Object<Data>>
        ensures found { option_copied result ≡ place self.now.slots.items at }
        ensures within { IsSome result → at < length self.now.slots.items }
    {
        match self.slots.get(at) {
            Some(slot) => slot.as_ref(),
            None => None,
        }
    }

    /// Whether there is such a place, and it has no object.
    pub(crate) fn is_vacant(&self, at: usize) -> bool
        ensures { result ≡ free_flag self.now.slots.items at }
    {
        match self.slots.get(at) {
            Some(slot) => slot.is_none(),
            None => false,
        }
    }

    /// Whether an object may be put at this place: it has none, and is not beyond the one after the last.
    pub(crate) fn is_free(&self, at: usize) -> bool
        ensures { result ≡ is_free_place self.now.slots.items at }
    {
        self.find(at).is_none() && at <= self.slots.len()
    }

    /// How many places there are.
    pub(crate) fn places(&self) -> usize
        ensures { result ≡ length self.now.slots.items }
    {
        self.slots.len()
    }

    /// The first place without an object, which may be the one after the last. `words_read` becomes the number of words
    /// that the search read.
    pub(crate) fn first_free(&self, words_read: &mut u32) -> usize
        requires { ShowsFree self.now.slots.items self.now.free.levels.items }
        ensures first { IsFirstFree self.now.slots.items result }
        ensures words_read { WordsReadIn self.now.slots.items words_read.new }
        ensures few_words { ReadsFew self.now.slots.items words_read.new }
    {
        *words_read = 0;
        match self.free.least(words_read) {
            Some(at) => at,
            None => self.slots.len(),
        }
    }

    /// Takes the object at this place out; `None` if there is none.
    pub(crate) fn remove(&mut self, at: usize) -> Option<Object<Data>>
        requires { ShowsFree self.old.slots.items self.old.free.levels.items }
        ensures free { ShowsFree self.new.slots.items self.new.free.levels.items }
        ensures found { result ≡ place self.old.slots.items at }
        ensures places { SetsPlace self.old.slots.items at None self.new.slots.items }
        ensures len { length self.new.slots.items ≡ length self.old.slots.items }
        ensures room { has_place_capacity self.new.slots self.new.free.levels ≡ has_place_capacity self.old.slots self.old.free.levels }
        ensures ready { self.new.is_ready ≡ self.old.is_ready }
    {
        if at < self.slots.len() {
            let object = self.slots[at].take();
            self.free.mark(at, true);
            object
        } else {
            None
        }
    }

    /// Puts the object at this place, which may be the one after the last. After an error the objects are as they were.
    pub(crate) fn put(&mut self, at: usize, object: Object<Data>) -> Result<(), OutOfMemory>
        requires within { at ≤ length self.old.slots.items }
        requires fits { length self.old.slots.items + 1 < 4294967296 }
        requires free { ShowsFree self.old.slots.items self.old.free.levels.items }
        ensures free { ShowsFree self.new.slots.items self.new.free.levels.items }
        ensures places { OnOk result (SetsPlace self.old.slots.items at (Some object) self.new.slots.items) }
        ensures len { OnOk result (length self.new.slots.items ≡ put_len at (length self.old.slots.items)) }
        ensures err { OnErr result (self.new.slots.items ≡ self.old.slots.items) }
        ensures grows { OnErr result (at ≡ length self.old.slots.items) }
        ensures full { OnErr result (has_place_capacity self.old.slots self.old.free.levels ≡ false) }
        ensures known { IsKnown self.old.is_ready self.old.slots self.old.free.levels → IsKnown self.new.is_ready self.new.slots self.new.free.levels }
    {
        if at < self.slots.len() {
            self.slots[at] = Some(object);
            self.free.mark(at, false);
            return Ok(());
        }
        self.append(at, object)
    }

    /// Adds the place after the last, with the object.
    ///
    /// It is a function of its own, so that it costs nothing for a place that was in use before.
    #[inline(never)]
    fn append(&mut self, at: usize, object: Object<Data>) -> Result<(), OutOfMemory>
        requires last { at ≡ length self.old.slots.items }
        requires fits { length self.old.slots.items + 1 < 4294967296 }
        requires free { ShowsFree self.old.slots.items self.old.free.levels.items }
        ensures free { ShowsFree self.new.slots.items self.new.free.levels.items }
        ensures places { OnOk result (SetsPlace self.old.slots.items at (Some object) self.new.slots.items) }
        ensures len { OnOk result (length self.new.slots.items ≡ put_len at (length self.old.slots.items)) }
        ensures err { OnErr result (self.new.slots.items ≡ self.old.slots.items) }
        ensures full { OnErr result (has_place_capacity self.old.slots self.old.free.levels ≡ false) }
        ensures known { IsKnown self.old.is_ready self.old.slots self.old.free.levels → IsKnown self.new.is_ready self.new.slots self.new.free.levels }
    {
        self.is_ready = false;
        self.free.reserve_for(at)?;
        reserve_slot(&mut self.slots)?;
        self.slots.push(Some(object))?;
        self.free.push(at);
        Ok(())
    }

    /// Puts the object at this place, if the place is free.
    ///
    /// A place is free if it has no object, and is not beyond the one after the last. Else the error is `NotFree`.
    pub(crate) fn insert_at(&mut self, at: usize, object: Object<Data>) -> Result<(), InsertError>
        requires fits { length self.old.slots.items + 1 < 4294967296 }
        requires free { ShowsFree self.old.slots.items self.old.free.levels.items }
        ensures free { ShowsFree self.new.slots.items self.new.free.levels.items }
        ensures places { PutsAt self.old.slots.items at object result self.new.slots.items }
        ensures full { result ≡ Err insert.OutOfMemory → has_place_capacity self.old.slots self.old.free.levels ≡ false }
        ensures kept { OnErr result (has_place_capacity self.old.slots self.old.free.levels ≡ true → has_place_capacity self.new.slots self.new.free.levels ≡ true) }
        ensures known { IsKnown self.old.is_ready self.old.slots self.old.free.levels → IsKnown self.new.is_ready self.new.slots self.new.free.levels }
    {
        if !self.is_free(at) {
            return Err(InsertError::NotFree);
        }
        match self.put(at, object) {
            Ok(()) => Ok(()),
            Err(OutOfMemory) => Err(InsertError::OutOfMemory),
        }
    }

    /// Puts a new object at the first place without one. Returns its number, if `first` is the number of the first place.
    ///
    /// The error is `IdsExhausted` if that place is not below `end`, and else `OutOfMemory`. `words_read` becomes the
    /// number of words that the search read.
    pub(crate) fn insert_new(
        &mut self,
        first: u32,
        end: usize,
        object: Object<Data>,
        words_read: &mut u32,
    ) -> Result<u32, NewError>
        requires fits { length self.old.slots.items + 1 < 4294967296 }
        requires numbers { end + first ≤ 4294967296 }
        requires free { ShowsFree self.old.slots.items self.old.free.levels.items }
        ensures free { ShowsFree self.new.slots.items self.new.free.levels.items }
        ensures places { PutsNew self.old.slots.items first end object result self.new.slots.items }
        ensures full { result ≡ Err new.OutOfMemory → has_place_capacity self.old.slots self.old.free.levels ≡ false }
        ensures kept { OnErr result (has_place_capacity self.old.slots self.old.free.levels ≡ true
            → has_place_capacity self.new.slots self.new.free.levels ≡ true) }
        ensures known { IsKnown self.old.is_ready self.old.slots self.old.free.levels → IsKnown self.new.is_ready self.new.slots self.new.free.levels }
        ensures words_read { WordsReadIn self.old.slots.items words_read.new }
        ensures few_words { ReadsFew self.old.slots.items words_read.new }
    {
        *words_read = 0;
        if let Some(at) = self.free.take_least(end, words_read) {
            if at >= end {
                return Err(NewError::IdsExhausted);
            }
            self.slots[at] = Some(object);
            return Ok(at as u32 + first);
        }
        let at = self.slots.len();
        if at >= end {
            return Err(NewError::IdsExhausted);
        }
        match self.append(at, object) {
            Ok(()) => Ok(at as u32 + first),
            Err(OutOfMemory) => Err(NewError::OutOfMemory),
        }
    }

    /// Calls `f` with the object at this place, which it may change. Returns what `f` returns, and `None` if there is no
    /// object.
    pub(crate) fn with<R, F: FnOnce(&mut Object<Data>) -> R>(
        &mut self,
        at: usize,
        f: F,
    ) -> Option<R>
        requires callable { F.IsAlwaysCallable f }
        requires free { ShowsFree self.old.slots.items self.old.free.levels.items }
        ensures free { ShowsFree self.new.slots.items self.new.free.levels.items }
        ensures called { LendsAt (FnOnceReturnsAtMut F.FnOnce f) self.old.slots.items at result self.new.slots.items }
        ensures len { length self.new.slots.items ≡ length self.old.slots.items }
        ensures room { has_place_capacity self.new.slots self.new.free.levels ≡ has_place_capacity self.old.slots self.old.free.levels }
        ensures ready { self.new.is_ready ≡ self.old.is_ready }
    {
        if at < self.slots.len() {
            match &mut self.slots[at] {
                Some(object) => Some(f(object)),
                None => None,
            }
        } else {
            None
        }
    }

    /// Reserves the capacity for one more place. Where there is known to be some, it looks no further.
    pub(crate) fn reserve(&mut self) -> Result<(), OutOfMemory>
        requires free { ShowsFree self.old.slots.items self.old.free.levels.items }
        requires known { IsKnown self.old.is_ready self.old.slots self.old.free.levels }
        ensures free { ShowsFree self.new.slots.items self.new.free.levels.items }
        ensures known { IsKnown self.new.is_ready self.new.slots self.new.free.levels }
        ensures items { self.new.slots.items ≡ self.old.slots.items }
        ensures ok { OnOk result (has_place_capacity self.new.slots self.new.free.levels ≡ true) }
        ensures err { OnErr result (has_place_capacity self.old.slots self.old.free.levels ≡ false) }
    {
        if self.is_ready {
            return Ok(());
        }
        self.reserve_next()
    }

    /// Reserves the capacity for one more place, which is not known to be there.
    ///
    /// It is a function of its own, so that it costs one comparison if the capacity is known to be there.
    #[inline(never)]
    fn reserve_next(&mut self) -> Result<(), OutOfMemory>
        requires free { ShowsFree self.old.slots.items self.old.free.levels.items }
        requires ready { self.old.is_ready ≡ false }
        ensures free { ShowsFree self.new.slots.items self.new.free.levels.items }
        ensures known { IsKnown self.new.is_ready self.new.slots self.new.free.levels }
        ensures items { self.new.slots.items ≡ self.old.slots.items }
        ensures ok { OnOk result (has_place_capacity self.new.slots self.new.free.levels ≡ true) }
        ensures err { OnErr result (has_place_capacity self.old.slots self.old.free.levels ≡ false) }
    {
        self.free.reserve()?;
        reserve_slot(&mut self.slots)?;
        self.is_ready = true;
        Ok(())
    }

    /// The objects, each with its number, if `first` is the number of the first place.
    pub(crate) fn objects(&self, first: u32) -> RangeObjects<'_, Data>
        requires { first + length self.now.slots.items ≤ 4294967296 }
        ensures { result ≡ entries_from first self.now.slots.items }
    {
        RangeObjects {
            slots: self.slots.as_slice(),
            number: first as u64,
        }
    }

    /// The same, moved out of their places. It takes no memory.
    pub(crate) fn into_objects(self, first: u32) -> RangeIntoObjects<Data>
        requires { first + length self.slots.items ≤ 4294967296 }
        ensures { result ≡ entries_from first self.slots.items }
    {
        RangeIntoObjects {
            slots: self.slots.into_iter(),
            number: first as u64,
        }
    }
}

/// Reserves the capacity for one more slot. The error says that there was no memory.
///
/// It asks for sixteen slots at once if four are full: a list that outgrows four seldom ends at eight.
fn reserve_slot<Slot>(slots: &mut Vec<Slot>) -> Result<(), AllocError>
    ensures items { slots.new.items ≡ slots.old.items }
    ensures ok { OnOk result (has_capacity slots.new ≡ true) }
    ensures err { OnErr result (has_capacity slots.old ≡ false) }
{
    let len = slots.len();
    if len < slots.capacity() {
        return Ok(());
    }
    slots.reserve(if len == 4 { 12 } else { 1 })
}
