//! The objects that events name, each in a slot.

ghost use Rattle.std.specs.Prelude.{IsSome, None, Ok, ◌≡◌, ◌≢◌};
ghost use Rattle.wl_c.specs.Calls.{Found, Gave};
ghost use Rattle.wl_c.specs.Queues.{Answered, unused};
ghost use Rattle.wl_flat.specs.EventQueues.{Adds, Destroys, SetsQueue, TellsUnused, flat_object, now_in};

use super::place::QueuesPlace;
use crate::answer::{number_of, write_answer, write_unused};
use std::alloc::Global;
use wl_host::{FlatQueuedObject, Status};

/// Adds an object of the queue with this content, and writes its slot.
#[unsafe(no_mangle)]
pub extern "C" fn nb_queues_add(
    alloc: Global,
    place: &mut QueuesPlace,
    queue: usize,
    content: u64,
    object: &mut usize,
) -> u32
    ensures none { place.old.kept.held ≡ None → (result ≡ 1) × (place.new.kept.held ≡ None) × (object.new ≡ object.old) }
    ensures stays { IsSome place.old.kept.held → IsSome place.new.kept.held }
    ensures unwritten { result ≢ 0 → object.new ≡ object.old }
    ensures call { Gave place.old.kept.held result object.old object.new place.new.kept.held (λ q answer r. Adds queue content q answer r) }
{
    let Some(mut queues) = place.take(alloc) else {
        return Status::NoSession.code();
    };
    let answer = queues.add(queue, content);
    place.put(queues);
    write_answer(answer, object)
}

/// Gives an object another queue, for its events that are still to come.
#[unsafe(no_mangle)]
pub extern "C" fn nb_queues_set_queue(
    alloc: Global,
    place: &mut QueuesPlace,
    object: usize,
    queue: usize,
) -> u32
    ensures none { place.old.kept.held ≡ None → (result ≡ 1) × (place.new.kept.held ≡ None) }
    ensures stays { IsSome place.old.kept.held → IsSome place.new.kept.held }
    ensures call { Answered place.old.kept.held result place.new.kept.held (λ q answer r. SetsQueue object queue q answer r) }
{
    let Some(mut queues) = place.take(alloc) else {
        return Status::NoSession.code();
    };
    let answer = queues.set_queue(object, queue);
    place.put(queues);
    number_of(answer)
}

/// Says that the object is destroyed.
#[unsafe(no_mangle)]
pub extern "C" fn nb_queues_destroy(alloc: Global, place: &mut QueuesPlace, object: usize) -> u32
    ensures none { place.old.kept.held ≡ None → (result ≡ 1) × (place.new.kept.held ≡ None) }
    ensures stays { IsSome place.old.kept.held → IsSome place.new.kept.held }
    ensures call { Answered place.old.kept.held result place.new.kept.held (λ q answer r. Destroys object q answer r) }
{
    let Some(mut queues) = place.take(alloc) else {
        return Status::NoSession.code();
    };
    let answer = queues.destroy(object);
    place.put(queues);
    number_of(answer)
}

/// Writes what a slot says of its object.
#[unsafe(no_mangle)]
pub extern "C" fn nb_queues_object(
    alloc: Global,
    place: &mut QueuesPlace,
    slot: usize,
    object: &mut FlatQueuedObject,
) -> u32
    ensures none { place.old.kept.held ≡ None → (result ≡ 1) × (place.new.kept.held ≡ None) × (object.new ≡ object.old) }
    ensures kept { place.new.kept.held ≡ place.old.kept.held }
    ensures unwritten { result ≢ 0 → object.new ≡ object.old }
    ensures answer { Found place.old.kept.held result object.old object.new (λ q answer. answer ≡ Ok (flat_object ((now_in q).objects slot))) }
{
    let Some(queues) = place.take(alloc) else {
        return Status::NoSession.code();
    };
    let answer = queues.object(slot);
    place.put(queues);
    write_answer(Ok(answer), object)
}

/// Writes the slot of an object that is unused, which is free from now on, and the content of the object.
#[unsafe(no_mangle)]
pub extern "C" fn nb_queues_next_unused(
    alloc: Global,
    place: &mut QueuesPlace,
    object: &mut usize,
    content: &mut u64,
) -> u32
    ensures none { place.old.kept.held ≡ None → (result ≡ 1) × (place.new.kept.held ≡ None) × (object.new ≡ object.old) × (content.new ≡ content.old) }
    ensures stays { IsSome place.old.kept.held → IsSome place.new.kept.held }
    ensures unwritten { result ≢ 0 → (object.new ≡ object.old) × (content.new ≡ content.old) }
    ensures call { Gave place.old.kept.held result (unused object.old content.old) (unused object.new content.new) place.new.kept.held (λ q answer r. TellsUnused q answer r) }
{
    let Some(mut queues) = place.take(alloc) else {
        return Status::NoSession.code();
    };
    let answer = queues.next_unused();
    place.put(queues);
    write_unused(answer, object, content)
}
