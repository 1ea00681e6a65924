//! Objects that the program destroys.

ghost use Rattle.std.specs.Prelude.{◌≡◌, ◌==◌, if◌then◌else◌, None, option_copied, Some};
ghost use Rattle.wl_server_client.specs.NoteTimes.{IsNumbered, NotesInTime};
ghost use Rattle.wl_server_client.specs.Inside.Client.{Does};
ghost use Rattle.wl_server_client.specs.Inside.Destruction.{lacks_destroy};
ghost use Rattle.wl_server_client.specs.Objects.{Destroys};
ghost use Rattle.wl_server_client.specs.Part.{named};

use crate::client::Client;
use crate::error::DestroyError;
use crate::events::own_events::{is_out_of_memory, put_delete_id};
use crate::ids::object_id::ObjectId;
use crate::notes::queues::NoteNumbers;
use crate::objects::{Kept, named_in, reserve_note, take_out_noted};
use wl_link::{Object, ObjectMap, Transport};
use wl_wire::{DISPLAY, OutOfMemory};

/// The object that the id names, if there is one and the program may destroy it: the display may not be destroyed.
fn destroyable<'a, U: Drop>(
    objects: &'a ObjectMap<Kept<U>>,
    id: &ObjectId,
) -> Option<&'a Object<Kept<U>>>
    ensures { option_copied result ≡ (if id.now.number == 1 then None else named objects.now.store id.now) }
{
    if id.protocol_id() == DISPLAY {
        return None;
    }
    named_in(objects, id)
}

impl<T: Transport + Drop, U: Drop, C: Drop> Client<T, U, C> {
    /// Destroys the object that the id names.
    pub fn destroy_object(
        &mut self,
        numbers: &mut NoteNumbers,
        id: &ObjectId,
    ) -> Result<(), DestroyError>
        ensures does { Does self.old (λ p did q. Destroys T.sends id.now.client p id.now result (lacks_destroy result) did q) self.new }
        ensures in_time { NotesInTime self.old.times numbers.old self.new.times numbers.new }
        ensures numbered { IsNumbered (Some self.old) → IsNumbered (Some self.new) }
    {
        let alloc = self.alloc();
        let Some(object) = destroyable(&self.objects.map, id) else {
            return Err(DestroyError::InvalidId);
        };
        if let Err(OutOfMemory) = reserve_note(&mut self.waiting, object) {
            return Err(DestroyError::OutOfMemory);
        }
        let wrote = put_delete_id(alloc, &mut self.socket, id.protocol_id());
        if is_out_of_memory(wrote) {
            return Err(DestroyError::OutOfMemory);
        }
        take_out_noted(&mut self.objects, &mut self.waiting, numbers, id);
        let _ = self.kill_unless_written(numbers, wrote);
        Ok(())
    }
}
