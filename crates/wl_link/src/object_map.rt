//! The objects of a session by their numbers.

ghost use Rattle.std.specs.Prelude.{◌≡◌, ◌+◌, ◌<◌, ◌≤◌, false, true, Err, OnOk, OnErr, IfSome, IsSome, IsTrue, MatchOption, option_copied};
ghost use Rattle.std.specs.Fn.{FnOnceReturnsAtMut};
ghost use Rattle.std.specs.FinMap as map;
ghost use Rattle.wl_link.specs.declared.object.Object.{Object as ObjectOf};
ghost use Rattle.wl_link.specs.Store.{client_range, server_range, empty_store, first_unused, held, is_free, is_vacant, removed, stored, IsWalk};
ghost use Rattle.wl_link.specs.ObjectMap.{InsertsAt, InsertsNew, NextNew, InsertionsGive, WordsRead, Lends};
ghost use Rattle.wl_link.specs.Unused.{NextUnused, all_numbers};
ghost use Rattle.wl_link.specs.Inside.PlaceList.{IsPlaceOf};
ghost use Rattle.wl_link.specs.declared.object_map.InsertError.TheVariants as insert;
ghost use Rattle.wl_link.specs.declared.object_map.NewError.TheVariants as new;

use crate::all_objects::AllObjects;
use crate::into_objects::IntoObjects;
use crate::object::Object;
use crate::object_range::ObjectRange;
use std::alloc::Global;
use std::fmt;
use std::marker::Model;
use thiserror::Error;
use wl_wire::{InterfaceId, KnownObjects, OutOfMemory};

/// The first number of the objects that the server makes. The numbers of the client's objects are below it, from 1 on.
pub const SERVER_ID_LIMIT: u32 = 0xFF00_0000;

/// How many numbers the client's range has.
const CLIENT_PLACES: usize = SERVER_ID_LIMIT as usize - 1;

/// How many numbers the server's range has.
const SERVER_PLACES: usize = 0x0100_0000;

/// Why an object was not put at a given number.
#[derive(Clone, Copy, Debug, PartialEq, Eq, Error)]
pub enum InsertError {
    /// The number is 0, or it holds an object, or it is above the first unused number of its range.
    #[error("the number is not free")]
    NotFree,
    /// There was no memory for the object.
    #[error("out of memory")]
    OutOfMemory,
}

/// Why a new object got no number.
#[derive(Clone, Copy, Debug, PartialEq, Eq, Error)]
pub enum NewError {
    /// Each number of the range holds an object.
    #[error("no number is left")]
    IdsExhausted,
    /// There was no memory for the object.
    #[error("out of memory")]
    OutOfMemory,
}

/// The objects of a session, by number. The *client's range* is 1 to 0xFEFFFFFF, for the objects that the client makes. The
/// *server's range* is 0xFF000000 to 0xFFFFFFFF, for those that the server makes. The Wayland protocol has these ranges.
///
/// A new object gets the least number of its range that holds no object. It is looked up in a tree of words. The search
/// reads one word more each time that there are 64 times as many objects; apart from that its time does not grow with them.
/// `docs/speed.md` counts its instructions.
#[derive(Drop)]
pub struct ObjectMap<Data> {
    clients: ObjectRange<Data>,
    servers: ObjectRange<Data>,
    words_read: u32,
}

impl<Data> fmt::Debug for ObjectMap<Data> {
    fn fmt<W: fmt::Write>(&self, f: &mut fmt::Formatter<W>) -> fmt::Result {
        f.write_str("ObjectMap { .. }")
    }
}

impl<Data> Model for ObjectMap<Data> {
    ghost use Rattle.std.specs.Prelude.{◌&&◌};
    ghost use Rattle.wl_link.specs.ObjectMap.{MapState, map_code};

    ghost Value = { MapState Data };

    ghost coded = { map_code Data.code };

    ghost use Rattle.wl_link.specs.Inside.PlaceList.{has_place_capacity, store_of, Whole};

    ghost view = { λ m. record {
      store = store_of m.clients.slots.items m.servers.slots.items;
      reserved = has_place_capacity m.clients.slots m.clients.free.levels && has_place_capacity m.servers.slots m.servers.free.levels;
      words_read = m.words_read;
    } };

    ghost invariant = { λ m. Whole m.clients.slots m.servers.slots m.clients.free.levels m.servers.free.levels m.clients.is_ready m.servers.is_ready };
}

/// Where the object with a number is kept.
enum Place {
    /// Nowhere: the number is 0, which no object has.
    Nowhere,
    /// At this place of the client's range, counted from 0.
    Client(usize),
    /// At this place of the server's range, counted from 0.
    Server(usize),
}

/// Where the object with this number is kept.
fn place_of(number: u32) -> Place
    ensures { IsPlaceOf number result }
{
    if number >= SERVER_ID_LIMIT {
        Place::Server((number - SERVER_ID_LIMIT) as usize)
    } else if number > 0 {
        Place::Client((number - 1) as usize)
    } else {
        Place::Nowhere
    }
}

/// The number of the place `at`, if it is below `end`. `first` is the number of the first place.
fn number_of(at: usize, first: u32, end: usize) -> Option<u32>
    requires { end + first ≤ 4294967296 }
    ensures { MatchOption result (end ≤ at) (λ n. (at < end) × (n ≡ at + first)) }
{
    if at < end {
        Some(at as u32 + first)
    } else {
        None
    }
}

impl<Data: Drop> ObjectMap<Data> {
    /// A map without objects. It allocates nothing.
    pub fn new(alloc: Global) -> Self
        ensures store { result.store ≡ empty_store }
        ensures no_words { result.words_read ≡ 0 }
        ensures limit { (SERVER_ID_LIMIT ≡ client_range.end) × (SERVER_ID_LIMIT ≡ server_range.first) }
    {
        ObjectMap {
            clients: ObjectRange::new(alloc),
            servers: ObjectRange::new(alloc),
            words_read: 0,
        }
    }

    /// The object with this number; `None` if there is none, as for 0, which stands for no object. It allocates nothing.
    pub fn find(&self, number: u32) -> Option<&Object<Data>>
        ensures found { option_copied result ≡ held self.now.store number }
        ensures used { IsSome result → number < first_unused self.now.store number }
        ensures nonzero { IsSome result → 0 < number }
    {
        match place_of(number) {
            Place::Nowhere => None,
            Place::Client(at) => self.clients.find(at),
            Place::Server(at) => self.servers.find(at),
        }
    }

    /// Whether the number was in use before and holds no object now. It allocates nothing.
    ///
    /// So an object put at this number and taken out again leaves the objects, and the first unused numbers, as they were.
    pub fn is_vacant(&self, number: u32) -> bool
        ensures vacant { result ≡ is_vacant self.now.store number }
        ensures free { IsTrue result → is_free self.now.store number ≡ true }
        ensures stays { IsTrue result → (x : ObjectOf Data) → removed (stored self.now.store number x) number ≡ self.now.store }
    {
        match place_of(number) {
            Place::Nowhere => false,
            Place::Client(at) => self.clients.is_vacant(at),
            Place::Server(at) => self.servers.is_vacant(at),
        }
    }

    /// Whether an object may be put at this number: `insert_at` puts one there, if there is memory. It allocates nothing.
    pub fn is_free(&self, number: u32) -> bool
        ensures { result ≡ is_free self.now.store number }
    {
        match place_of(number) {
            Place::Nowhere => false,
            Place::Client(at) => self.clients.is_free(at),
            Place::Server(at) => self.servers.is_free(at),
        }
    }

    /// Takes the object with this number out of the map; `None` if there is none. It allocates nothing. The number may be
    /// given to another object.
    pub fn remove(&mut self, number: u32) -> Option<Object<Data>>
        ensures found { result ≡ held self.old.store number }
        ensures removed { self.new.store ≡ removed self.old.store number }
        ensures reserved { self.new.reserved ≡ self.old.reserved }
        ensures words_read { self.new.words_read ≡ self.old.words_read }
    {
        match place_of(number) {
            Place::Nowhere => None,
            Place::Client(at) => self.clients.remove(at),
            Place::Server(at) => self.servers.remove(at),
        }
    }

    /// Puts an object at this number.
    ///
    /// The error is `NotFree` if the number is 0, or holds an object, or is above the first unused number of its range, and
    /// else `OutOfMemory`. An error changes nothing.
    pub fn insert_at(&mut self, number: u32, object: Object<Data>) -> Result<(), InsertError>
        ensures inserts { InsertsAt self.old.store number object result self.new.store }
        ensures reserved { result ≡ Err insert.OutOfMemory → self.old.reserved ≡ false }
        ensures kept { OnErr result (self.old.reserved ≡ true → self.new.reserved ≡ true) }
        ensures words_read { self.new.words_read ≡ self.old.words_read }
    {
        match place_of(number) {
            Place::Nowhere => Err(InsertError::NotFree),
            Place::Client(at) => self.clients.insert_at(at, object),
            Place::Server(at) => self.servers.insert_at(at, object),
        }
    }

    /// Puts a new object at the least number of the client's range that holds no object. Returns that number.
    ///
    /// The error is `IdsExhausted` if each number of the range holds an object, and else `OutOfMemory`. An error changes
    /// nothing.
    pub fn client_insert_new(&mut self, object: Object<Data>) -> Result<u32, NewError>
        ensures inserts { InsertsNew client_range self.old.store object result self.new.store }
        ensures reserved { result ≡ Err new.OutOfMemory → self.old.reserved ≡ false }
        ensures kept { OnErr result (self.old.reserved ≡ true → self.new.reserved ≡ true) }
        ensures words_read { WordsRead client_range self.old.store self.new.words_read }
        ensures few_words { self.new.words_read ≤ 6 }
    {
        self.clients
            .insert_new(1, CLIENT_PLACES, object, &mut self.words_read)
    }

    /// Puts a new object at the least number of the server's range that holds no object. Returns that number.
    ///
    /// The error is `IdsExhausted` if each number of the range holds an object, and else `OutOfMemory`. An error changes
    /// nothing.
    pub fn server_insert_new(&mut self, object: Object<Data>) -> Result<u32, NewError>
        ensures inserts { InsertsNew server_range self.old.store object result self.new.store }
        ensures reserved { result ≡ Err new.OutOfMemory → self.old.reserved ≡ false }
        ensures kept { OnErr result (self.old.reserved ≡ true → self.new.reserved ≡ true) }
        ensures words_read { WordsRead server_range self.old.store self.new.words_read }
        ensures few_words { self.new.words_read ≤ 4 }
    {
        self.servers.insert_new(SERVER_ID_LIMIT, SERVER_PLACES, object, &mut self.words_read)
    }

    /// The number that `client_insert_new` would give; `None` if each number of the client's range holds an object. It
    /// allocates nothing.
    ///
    /// `insert_at` accepts this number. So the search is made once.
    pub fn next_client(&mut self) -> Option<u32>
        ensures next { NextNew client_range self.old.store result }
        ensures given { InsertionsGive client_range self.old.store result }
        ensures free { IfSome result (λ number. is_free self.old.store number ≡ true) }
        ensures store { self.new.store ≡ self.old.store }
        ensures reserved { self.new.reserved ≡ self.old.reserved }
        ensures words_read { WordsRead client_range self.old.store self.new.words_read }
        ensures few_words { self.new.words_read ≤ 6 }
    {
        let at = self.clients.first_free(&mut self.words_read);
        number_of(at, 1, CLIENT_PLACES)
    }

    /// The number that `client_insert_new` would give, as `next_client` tells it. The map is only looked at, so
    /// `words_read` does not count this search.
    pub fn peek_client(&self) -> Option<u32>
        ensures next { NextNew client_range self.now.store result }
        ensures given { InsertionsGive client_range self.now.store result }
        ensures free { IfSome result (λ number. is_free self.now.store number ≡ true) }
    {
        number_of(self.clients.first_free(&mut 0), 1, CLIENT_PLACES)
    }

    /// The number that `server_insert_new` would give; `None` if each number of the server's range holds an object. It
    /// allocates nothing, and `words_read` does not count this search.
    pub fn peek_server(&self) -> Option<u32>
        ensures next { NextNew server_range self.now.store result }
        ensures given { InsertionsGive server_range self.now.store result }
    {
        number_of(
            self.servers.first_free(&mut 0),
            SERVER_ID_LIMIT,
            SERVER_PLACES,
        )
    }

    /// The least number of both ranges that was never in use; `None` if each was. It allocates nothing.
    pub fn peek_unused(&self) -> Option<u32>
        ensures next { NextUnused all_numbers self.now.store result }
        ensures free { IfSome result (λ number. is_free self.now.store number ≡ true) }
    {
        match number_of(self.clients.places(), 1, CLIENT_PLACES) {
            Some(number) => Some(number),
            None => number_of(self.servers.places(), SERVER_ID_LIMIT, SERVER_PLACES),
        }
    }

    /// How many words of the tree the last search for a number read; 0 before the first search.
    ///
    /// The searches are those of `client_insert_new`, `server_insert_new` and `next_client`. One reads at most 6 words in
    /// the client's range, and 4 in the server's.
    pub fn words_read(&self) -> u32
        ensures { result ≡ self.now.words_read }
    {
        self.words_read
    }

    /// Reserves the capacity for one more object in each range, so that the next insertion takes no memory.
    ///
    /// The error is `OutOfMemory`. The objects stay as they are.
    pub fn reserve(&mut self) -> Result<(), OutOfMemory>
        ensures ok { OnOk result (self.new.reserved ≡ true) }
        ensures err { OnErr result (self.old.reserved ≡ false) }
        ensures store { self.new.store ≡ self.old.store }
        ensures words_read { self.new.words_read ≡ self.old.words_read }
    {
        self.clients.reserve()?;
        self.servers.reserve()
    }

    /// Calls `f` once with the object of this number, which it may change. Returns what `f` returns.
    ///
    /// If the number holds no object, `f` is not called and the answer is `None`. It takes no memory, apart from what `f`
    /// takes.
    pub fn with<R, F: FnOnce(&mut Object<Data>) -> R>(&mut self, number: u32, f: F) -> Option<R>
        requires { F.IsAlwaysCallable f }
        ensures called { Lends (FnOnceReturnsAtMut F.FnOnce f) self.old.store number result self.new.store }
        ensures reserved { self.new.reserved ≡ self.old.reserved }
        ensures words_read { self.new.words_read ≡ self.old.words_read }
    {
        match place_of(number) {
            Place::Nowhere => None,
            Place::Client(at) => self.clients.with(at, f),
            Place::Server(at) => self.servers.with(at, f),
        }
    }

    /// The objects, each with its number. The numbers ascend: first those of the client's range, then the server's. Neither
    /// this call nor the walk allocates.
    pub fn all_objects(&self) -> AllObjects<'_, Data>
        ensures objects { result ≡ map.entries self.now.store.objects }
        ensures walk { IsWalk self.now.store result }
    {
        AllObjects {
            clients: self.clients.objects(1),
            servers: self.servers.objects(SERVER_ID_LIMIT),
        }
    }

    /// Gives the map up, and moves its objects out of it: the same objects with their numbers, by ascending number. Neither
    /// this nor the walk takes memory. It costs less than taking each out by its number, since no number has to become free.
    pub fn into_objects(self) -> IntoObjects<Data>
        ensures objects { result ≡ map.entries self.store.objects }
        ensures walk { IsWalk self.store result }
    {
        IntoObjects {
            clients: self.clients.into_objects(1),
            servers: self.servers.into_objects(SERVER_ID_LIMIT),
        }
    }
}

/// The objects of the map, as a message's text names them.
impl<Data: Drop> KnownObjects for ObjectMap<Data> {
    ghost use Rattle.std.specs.Prelude.{option_map};
    ghost use Rattle.wl_link.specs.Store.{held};

    ghost interface_of = { λ objects number. option_map (λ o. o.interface) (held objects.store number) };

    fn interface_of_object(&self, number: u32) -> Option<InterfaceId> {
        let object = self.find(number)?;
        Some(object.interface)
    }
}
