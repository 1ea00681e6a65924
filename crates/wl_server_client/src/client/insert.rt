//! New clients.

ghost use Rattle.std.specs.Prelude.{◌≡◌, ◌<◌, None, Some, IfOk, ◌∷◌, [], map, MatchResult};
ghost use Rattle.std.specs.VecDeque.{deque_capacity, deque_len};
ghost use Rattle.wl_link.specs.Link.{IsFresh};
ghost use Rattle.wl_link.specs.Store.{empty_store, stored};
ghost use Rattle.wl_server_client.specs.Inside.Client.{IsInserted};
ghost use Rattle.wl_server_client.specs.NoteTimes.{IsNumbered, GivesNumbers, NotesInTime};
ghost use Rattle.wl_server_client.specs.Inside.NoteTimes.{one_made};
ghost use Rattle.wl_server_client.specs.Part.{display_object};
ghost use Rattle.wl_server_client.specs.Stored.{no_times};
ghost use Rattle.wl_server_client.specs.declared.notes.Happening.TheVariants.{Initialized};

use crate::client::Client;
use crate::notes::Happening;
use crate::notes::queues::{MadeNotes, NoteNumbers, WaitingNotes};
use crate::objects::{ClientObjects, Kept, fresh_object};
use crate::reading::open_place::OpenPlace;
use std::alloc::Global;
use wl_link::{BufferedSocket, ObjectMap};
use wl_wire::{DISPLAY, OutOfMemory, WL_DISPLAY_INTERFACE};

/// The objects and the notes of a client that was just inserted. Its one object is the display. Its one note says that it
/// was inserted, and there is room for the note of its end. If there is no memory, no number of a note is used up.
fn first_lists<U: Drop>(
    alloc: Global,
    numbers: &mut NoteNumbers,
) -> Result<(ObjectMap<Kept<U>>, MadeNotes<U>), OutOfMemory>
    ensures objects { IfOk result (λ lists. lists.0.store ≡ stored empty_store 1 display_object) }
    ensures notes { IfOk result (λ lists. map (λ m. m.1) lists.1.queue.items ≡ Initialized ∷ []) }
    ensures room { IfOk result (λ lists. deque_len lists.1.queue < deque_capacity lists.1.queue) }
    ensures numbers { MatchResult result (λ lists. numbers.new ≡ one_made numbers.old) (λ e. numbers.new ≡ numbers.old) }
    ensures in_time { IfOk result (λ lists. GivesNumbers [] numbers.old.made (map (λ m. m.0) lists.1.queue.items) numbers.new.made) }
{
    let mut objects = ObjectMap::new(alloc);
    let display = fresh_object(WL_DISPLAY_INTERFACE, 1, 0, None);
    let Ok(()) = objects.insert_at(DISPLAY, display) else {
        return Err(OutOfMemory);
    };
    let mut made = MadeNotes::with_capacity(alloc, 2)?;
    made.push(numbers, Happening::Initialized);
    Ok((objects, made))
}

/// The connection, the objects and the notes of a client that was just inserted.
fn first_parts<T: Drop, U: Drop>(
    alloc: Global,
    transport: T,
    max_buffer_size: usize,
    numbers: &mut NoteNumbers,
) -> Result<(BufferedSocket<T>, ObjectMap<Kept<U>>, MadeNotes<U>), OutOfMemory>
    ensures link { IfOk result (λ parts. IsFresh transport (Some max_buffer_size) parts.0) }
    ensures objects { IfOk result (λ parts. parts.1.store ≡ stored empty_store 1 display_object) }
    ensures notes { IfOk result (λ parts. map (λ m. m.1) parts.2.queue.items ≡ Initialized ∷ []) }
    ensures room { IfOk result (λ parts. deque_len parts.2.queue < deque_capacity parts.2.queue) }
    ensures numbers { MatchResult result (λ parts. numbers.new ≡ one_made numbers.old) (λ e. numbers.new ≡ numbers.old) }
    ensures in_time { IfOk result (λ parts. GivesNumbers [] numbers.old.made (map (λ m. m.0) parts.2.queue.items) numbers.new.made) }
{
    let socket = BufferedSocket::new(alloc, transport, Some(max_buffer_size))?;
    // This is last because it uses up the number of a note, and an error must not use up one.
    let (objects, made) = first_lists(alloc, numbers)?;
    Ok((socket, objects, made))
}

impl<T: Drop, U: Drop, C: Drop> Client<T, U, C> {
    /// A client that was just inserted. A note says so.
    pub fn new(
        alloc: Global,
        serial: u64,
        transport: T,
        max_buffer_size: usize,
        client_data: C,
        numbers: &mut NoteNumbers,
    ) -> Result<Self, OutOfMemory>
        ensures inserted { IfOk result (IsInserted serial transport (Some max_buffer_size) client_data) }
        ensures numbers { MatchResult result (λ client. numbers.new ≡ one_made numbers.old) (λ e. numbers.new ≡ numbers.old) }
        ensures in_time { IfOk result (λ client. NotesInTime no_times numbers.old client.times numbers.new) }
        ensures numbered { IfOk result (λ client. IsNumbered (Some client)) }
    {
        let (socket, map, made) = first_parts(alloc, transport, max_buffer_size, numbers)?;
        Ok(Client {
            serial,
            socket,
            data: client_data,
            objects: ClientObjects {
                map,
                last_serial: 0,
                registries: Vec::new(alloc),
            },
            is_killed: false,
            violation: None,
            action: OpenPlace::new(),
            waiting: WaitingNotes::new(alloc),
            made,
        })
    }
}
