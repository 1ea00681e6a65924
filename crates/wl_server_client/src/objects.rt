//! The objects of a client: what is kept of each, how one is found, and how one is removed.

ghost use Rattle.std.specs.Prelude.{◌≡◌, ◌<◌, ◌++◌, true, IfSome, IsSome, Ok, OnErr, OnOk, MatchOption, if◌then◌else◌, is_some, map, not, option_copied};
ghost use Rattle.std.specs.List.{filter};
ghost use Rattle.std.specs.VecDeque.{deque_capacity, deque_len};
ghost use Rattle.wl_link.specs.Store.{held, removed};
ghost use Rattle.wl_server_client.specs.NoteTimes.{GivesNumbers};
ghost use Rattle.wl_server_client.specs.Inside.NoteTimes.{one_waits};
ghost use Rattle.wl_server_client.specs.Part.{named, note_of_end, registries_without, same_id, fresh_object as the_object, id_at as the_id};

/// `create_object`.
pub mod create;
/// `create_object_at`.
pub mod create_at;
/// The data of an object: set, or changed in place.
pub mod data;
/// `destroy_object`.
pub mod destroy;
/// `set_object_version`.
pub mod version;

use crate::ids::client_id::ClientId;
use crate::ids::object_id::ObjectId;
use crate::notes::Happening;
use crate::notes::queues::{NoteNumbers, WaitingNotes};
use std::marker::Model;
use wl_link::{Object, ObjectMap};
use wl_wire::{InterfaceId, OutOfMemory, WL_REGISTRY_INTERFACE};

/// What is kept of an object in addition to its interface and version.
#[derive(Drop)]
pub struct Kept<U> {
    /// The serial. No other object of the client has it.
    pub serial: u64,
    /// The program's data of the object.
    pub user_data: Option<U>,
}

/// A `wl_registry` that was made for a client, by the number and the serial in its id.
#[derive(Drop)]
pub struct Registry {
    /// The number of the object in the protocol.
    pub number: u32,
    /// The serial of the object.
    pub serial: u64,
}

impl Model for Registry {
    ghost use Rattle.wl_link.specs.Identity.{Id};

    ghost Value = { Id };

    ghost view = { λ r. record { number = r.number; serial = r.serial } };

    ghost inverse = { λ r. record { number = r.number; serial = r.serial } };
}

/// The objects of a client.
#[derive(Drop)]
pub struct ClientObjects<U> {
    /// The objects by number.
    pub map: ObjectMap<Kept<U>>,
    /// The serial of the object that was made last; 0 if none was.
    pub last_serial: u64,
    /// The registries that were made for the client and are still there, in the order in which they were made.
    pub registries: Vec<Registry>,
}

/// A new object with these values.
pub fn fresh_object<U>(
    interface: InterfaceId,
    version: u32,
    serial: u64,
    user_data: Option<U>,
) -> Object<Kept<U>>
    ensures { result ≡ the_object interface version serial user_data }
{
    Object {
        interface,
        version,
        value: Kept { serial, user_data },
    }
}

/// The object that the id names, if it is there: the one of its number, if that has its serial.
pub fn named_in<'a, U: Drop>(
    objects: &'a ObjectMap<Kept<U>>,
    id: &ObjectId,
) -> Option<&'a Object<Kept<U>>>
    ensures { option_copied result ≡ named objects.now.store id.now }
{
    if id.is_null() {
        return None;
    }
    match objects.find(id.protocol_id()) {
        Some(object) if object.value.serial == id.serial() => Some(object),
        _ => None,
    }
}

/// The id of the client's object `object`, whose number is `number`.
pub fn id_at<U>(client: &ClientId, number: u32, object: &Object<Kept<U>>) -> ObjectId
    ensures { result ≡ the_id client.now number object.now }
{
    ObjectId::from_parts(number, object.value.serial, *client, object.interface)
}

/// Takes the object of this number and serial out of the list of registries.
fn forget(registries: &mut Vec<Registry>, number: u32, serial: u64)
    ensures { registries.new.items ≡ filter (λ r. not (same_id r (record { number = number; serial = serial }))) registries.old.items }
{
    registries.retain(|registry| registry.number != number || registry.serial != serial);
}

/// Takes the object of this number out of the map, and out of the list of registries if it is one. It allocates no
/// memory.
pub fn take_out<U: Drop>(objects: &mut ClientObjects<U>, number: u32) -> Option<Object<Kept<U>>>
    ensures found { result ≡ held objects.old.map.store number }
    ensures removed { objects.new.map.store ≡ removed objects.old.map.store number }
    ensures registries { MatchOption result (objects.new.registries.items ≡ objects.old.registries.items)
        (λ x. objects.new.registries.items ≡ registries_without objects.old.registries.items number x) }
    ensures serial { objects.new.last_serial ≡ objects.old.last_serial }
{
    let object = objects.map.remove(number)?;
    if object.interface == WL_REGISTRY_INTERFACE {
        forget(&mut objects.registries, number, object.value.serial);
    }
    Some(object)
}

/// Makes room for a note that this object is destroyed, if it has user data.
pub fn reserve_note<U>(
    waiting: &mut WaitingNotes<U>,
    object: &Object<Kept<U>>,
) -> Result<(), OutOfMemory>
    ensures items { waiting.new.queue.items ≡ waiting.old.queue.items }
    ensures room { OnOk result (IsSome object.now.value.user_data → deque_len waiting.new.queue < deque_capacity waiting.new.queue) }
    ensures asked { OnErr result (is_some object.now.value.user_data ≡ true) }
{
    if object.value.user_data.is_some() {
        waiting.reserve()?;
    }
    Ok(())
}

/// Takes the object with the number of the id out. If it had user data, a note of its end waits for the next cleanup,
/// and uses up a number. There is room for that note.
pub fn take_out_noted<U: Drop>(
    objects: &mut ClientObjects<U>,
    waiting: &mut WaitingNotes<U>,
    numbers: &mut NoteNumbers,
    id: &ObjectId,
)
    requires { IfSome (held objects.old.map.store id.now.number)
        (λ x. IsSome x.value.user_data → deque_len waiting.old.queue < deque_capacity waiting.old.queue) }
    ensures removed { objects.new.map.store ≡ removed objects.old.map.store id.now.number }
    ensures registries { IfSome (held objects.old.map.store id.now.number)
        (λ x. objects.new.registries.items ≡ registries_without objects.old.registries.items id.now.number x) }
    ensures serial { objects.new.last_serial ≡ objects.old.last_serial }
    ensures noted { IfSome (held objects.old.map.store id.now.number)
        (λ x. map (λ w. w.1) waiting.new.queue.items ≡ map (λ w. w.1) waiting.old.queue.items ++ note_of_end id.now.client id.now.number x) }
    ensures numbers { MatchOption (held objects.old.map.store id.now.number) (numbers.new ≡ numbers.old)
        (λ x. numbers.new ≡ (if is_some x.value.user_data then one_waits numbers.old else numbers.old)) }
    ensures in_time { GivesNumbers (map (λ w. w.0) waiting.old.queue.items) numbers.old.waiting (map (λ w. w.0) waiting.new.queue.items) numbers.new.waiting }
    ensures made { numbers.new.made ≡ numbers.old.made }
{
    let number = id.protocol_id();
    let Some(object) = take_out(objects, number) else {
        return;
    };
    let gone = id_at(&id.client(), number, &object);
    if let Some(user_data) = object.value.user_data {
        waiting.push(numbers, Happening::Destroyed(gone, user_data));
    }
}
