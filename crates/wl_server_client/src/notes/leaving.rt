//! The objects of clients that are taken out.

ghost use Rattle.std.specs.Prelude.{◌≡◌, ◌+◌, ◌++◌, ◌<◌, ◌≤◌, length, map};
ghost use Rattle.std.specs.FinMap.{entries};
ghost use Rattle.std.specs.Vec.{vec_capacity, vec_len};
ghost use Rattle.wl_server_client.specs.Inside.Leaving.{with_data, ends_of};
ghost use Rattle.wl_server_client.specs.Part.{note_of_end};
ghost use Rattle.wl_server_client.specs.Stored.{note_of};

use crate::ids::client_id::ClientId;
use crate::notes::Note;
use crate::objects::{ClientObjects, Kept, id_at};
use wl_link::{Object, ObjectMap};

/// How many objects have user data. `usize::MAX` stands for any larger number.
pub fn count_ending<U: Drop>(objects: &ObjectMap<Kept<U>>) -> usize
    ensures { result < 0xFFFFFFFFFFFFFFFF → length (with_data (entries objects.now.store.objects)) ≤ result }
{
    let mut count: usize = 0;
    let mut all = objects.all_objects();
    while let Some((_, object)) = all.next() {
        if object.value.user_data.is_some() {
            count = count.saturating_add(1);
        }
    }
    count
}

/// Makes a note of the end of this object, if it has user data.
fn end_object<U: Drop>(
    client: &ClientId,
    number: u32,
    object: Object<Kept<U>>,
    notes: &mut Vec<Note<U>>,
)
    requires { vec_len notes.old + length (note_of_end client.now number object) ≤ vec_capacity notes.old }
    ensures noted { notes.new.items ≡ notes.old.items ++ map (note_of client.now) (note_of_end client.now number object) }
    ensures capacity { vec_capacity notes.new ≡ vec_capacity notes.old }
{
    let id = id_at(client, number, &object);
    if let Some(user_data) = object.value.user_data {
        notes.push_reserved(Note::Destroyed(*client, id, user_data));
    }
}

/// Goes through the objects of a client that is taken out, by ascending number, moving each out of the map. Makes a note
/// of each that has user data.
pub fn end_objects<U: Drop>(objects: ClientObjects<U>, client: &ClientId, notes: &mut Vec<Note<U>>)
    requires { vec_len notes.old + length (with_data (entries objects.map.store.objects)) ≤ vec_capacity notes.old }
    ensures noted { notes.new.items ≡ notes.old.items ++ map (note_of client.now) (ends_of client.now (entries objects.map.store.objects)) }
    ensures capacity { vec_capacity notes.new ≡ vec_capacity notes.old }
{
    let mut all = objects.map.into_objects();
    while let Some((number, object)) = all.next() {
        end_object(client, number, object, notes);
    }
}
