//! The walk over the objects of a map.

ghost use Rattle.std.specs.Iterator.{YieldsFirstBy, item_count};

use crate::object::Object;
use std::fmt;
use std::marker::Model;

/// An iterator over the objects of a map, each with its number. The numbers ascend: first those of the client's range, then
/// the server's.
#[derive(Drop)]
pub struct AllObjects<'a, Data> {
    /// The objects of the client's range that are still to come.
    pub(crate) clients: RangeObjects<'a, Data>,
    /// The objects of the server's range that are still to come.
    pub(crate) servers: RangeObjects<'a, Data>,
}

impl<'a, Data> fmt::Debug for AllObjects<'a, Data> {
    fn fmt<W: fmt::Write>(&self, f: &mut fmt::Formatter<W>) -> fmt::Result {
        f.write_str("AllObjects { .. }")
    }
}

impl<'a, Data> Model for AllObjects<'a, Data> {
    ghost use Rattle.std.specs.Prelude.{ℕ, List, ◌++◌};
    ghost use Rattle.std.specs.Coded.{coded_list, coded×, coded_ℕ};
    ghost use Rattle.wl_link.specs.declared.object.Object.{Object as ObjectOf};
    ghost use Rattle.wl_link.specs.ObjectMap.{object_code};

    ghost Value = { List (ℕ × ObjectOf Data) };

    ghost coded = { coded_list (coded× coded_ℕ (object_code Data.code)) };

    ghost view = { λ a. a.clients ++ a.servers };
}

impl<'a, Data> Iterator for AllObjects<'a, Data> {
    type Item = (u32, &'a Object<Data>);

    ghost next_gives = { YieldsFirstBy (λ item. (item.0, item.1.now)) (λ rest. rest) };

    ghost remaining = { item_count (λ rest. rest) };

    /// The next object, with its number.
    fn next(&mut self) -> Option<(u32, &'a Object<Data>)> {
        match self.clients.next() {
            Some(item) => Some(item),
            None => self.servers.next(),
        }
    }
}

/// An iterator over the objects of one range, each with its number. The numbers ascend.
#[derive(Drop)]
pub(crate) struct RangeObjects<'a, Data> {
    /// The places of the range that are still to come.
    pub(crate) slots: &'a [Option<Object<Data>>],
    /// The number of the first of `slots`. After the last number of all it is 2^32.
    pub(crate) number: u64,
}

impl<'a, Data> Model for RangeObjects<'a, Data> {
    ghost use Rattle.std.specs.Prelude.{ℕ, List, ◌+◌, ◌≤◌, length};
    ghost use Rattle.std.specs.Coded.{coded_list, coded×, coded_ℕ};
    ghost use Rattle.wl_link.specs.declared.object.Object.{Object as ObjectOf};
    ghost use Rattle.wl_link.specs.ObjectMap.{object_code};

    ghost Value = { List (ℕ × ObjectOf Data) };

    ghost coded = { coded_list (coded× coded_ℕ (object_code Data.code)) };

    ghost use Rattle.wl_link.specs.Inside.PlaceList.{entries_from};

    ghost view = { λ o. entries_from o.number o.slots.now };

    ghost invariant = { λ o. o.number + length o.slots.now ≤ 4294967296 };
}

impl<'a, Data> Iterator for RangeObjects<'a, Data> {
    type Item = (u32, &'a Object<Data>);

    ghost next_gives = { YieldsFirstBy (λ item. (item.0, item.1.now)) (λ rest. rest) };

    ghost remaining = { item_count (λ rest. rest) };

    /// The next object, with its number.
    fn next(&mut self) -> Option<(u32, &'a Object<Data>)> {
        while let Some((slot, rest)) = self.slots.split_first() {
            let number = self.number as u32;
            self.slots = rest;
            self.number += 1;
            if let Some(object) = slot {
                return Some((number, object));
            }
        }
        None
    }
}
