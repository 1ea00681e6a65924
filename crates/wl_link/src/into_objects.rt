//! Moving the objects out of a map that is given up.

ghost use Rattle.std.specs.Iterator.{YieldsFirst, item_count};

use crate::object::Object;
use std::alloc::Global;
use std::marker::Model;
use std::{fmt, vec};

/// The objects of a map that is given up, each with its number, by ascending number: those of the client's range first.
/// An object that is not taken is dropped with this.
#[derive(Drop)]
pub struct IntoObjects<Data> {
    pub(crate) clients: RangeIntoObjects<Data>,
    pub(crate) servers: RangeIntoObjects<Data>,
}

impl<Data> fmt::Debug for IntoObjects<Data> {
    fn fmt<W: fmt::Write>(&self, f: &mut fmt::Formatter<W>) -> fmt::Result {
        f.write_str("IntoObjects { .. }")
    }
}

impl<Data> Model for IntoObjects<Data> {
    ghost use Rattle.std.specs.Prelude.{ℕ, List, ◌++◌};
    ghost use Rattle.std.specs.Coded.{coded_list, coded×, coded_ℕ};
    ghost use Rattle.wl_link.specs.declared.object.Object.{Object as ObjectOf};
    ghost use Rattle.wl_link.specs.ObjectMap.{object_code};

    ghost Value = { List (ℕ × ObjectOf Data) };

    ghost coded = { coded_list (coded× coded_ℕ (object_code Data.code)) };

    ghost view = { λ a. a.clients ++ a.servers };
}

impl<Data: Drop> Iterator for IntoObjects<Data> {
    type Item = (u32, Object<Data>);

    ghost next_gives = { YieldsFirst (λ rest. rest) };

    ghost remaining = { item_count (λ rest. rest) };

    /// The next object and its number.
    fn next(&mut self) -> Option<(u32, Object<Data>)> {
        match self.clients.next() {
            Some(item) => Some(item),
            None => self.servers.next(),
        }
    }
}

/// The objects of one range that is given up, each with its number, by ascending number.
#[derive(Drop)]
pub(crate) struct RangeIntoObjects<Data> {
    pub(crate) slots: vec::IntoIter<Option<Object<Data>>, Global>,
    // The number of the first of `slots`; after the last of all numbers it is 2^32.
    pub(crate) number: u64,
}

impl<Data> Model for RangeIntoObjects<Data> {
    ghost use Rattle.std.specs.Prelude.{ℕ, List, ◌+◌, ◌≤◌, length};
    ghost use Rattle.std.specs.Coded.{coded_list, coded×, coded_ℕ};
    ghost use Rattle.std.specs.Vec.Iter.{into_iter_items};
    ghost use Rattle.wl_link.specs.declared.object.Object.{Object as ObjectOf};
    ghost use Rattle.wl_link.specs.ObjectMap.{object_code};

    ghost Value = { List (ℕ × ObjectOf Data) };

    ghost coded = { coded_list (coded× coded_ℕ (object_code Data.code)) };

    ghost use Rattle.wl_link.specs.Inside.PlaceList.{entries_from};

    ghost view = { λ o. entries_from o.number (into_iter_items o.slots) };

    ghost invariant = { λ o. o.number + length (into_iter_items o.slots) ≤ 4294967296 };
}

impl<Data: Drop> Iterator for RangeIntoObjects<Data> {
    type Item = (u32, Object<Data>);

    ghost next_gives = { YieldsFirst (λ rest. rest) };

    ghost remaining = { item_count (λ rest. rest) };

    /// The next object and its number.
    fn next(&mut self) -> Option<(u32, Object<Data>)> {
        while let Some(slot) = self.slots.next() {
            let number = self.number as u32;
            self.number += 1;
            if let Some(object) = slot {
                return Some((number, object));
            }
        }
        None
    }
}
