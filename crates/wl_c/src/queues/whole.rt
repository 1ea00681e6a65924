//! Queues of events as a whole: their begin and their end, each queue, and that the session failed.

ghost use Rattle.std.specs.Prelude.{IsSome, None, Ok, Some, ◌≡◌, ◌≢◌, ◌↔◌};
ghost use Rattle.wl_c.specs.Calls.{Did, FoundFlag, Gave};
ghost use Rattle.wl_c.specs.Queues.{Answered};
ghost use Rattle.wl_flat.specs.EventQueues.{DropsQueue, MakesQueue, now_in};
ghost use Rattle.wl_flat.specs.declared.event_queues.EventQueues.{EventQueues};
ghost use Rattle.wl_queues.specs.Queues.{Fail, IsAlike};
ghost use Rattle.wl_queues.specs.Queues as waits;
ghost use Rattle.wl_queues.specs.Runs.{new_queues};
ghost use Rattle.wl_queues.specs.States.{Calls};

use super::place::{QueuesPlace, in_box};
use crate::answer::{number_of, write_answer, write_flag};
use std::alloc::Global;
use wl_host::{EventQueues, Status};

/// Makes queues in an empty place, without objects, with the default queue alone. A place that holds queues keeps them, and the
/// status is `NB_IN_USE`.
#[unsafe(no_mangle)]
pub extern "C" fn nb_queues_start(alloc: Global, place: &mut QueuesPlace) -> u32
    ensures in_use { IsSome place.old.kept.held → (result ≡ 2) × (place.new.kept.held ≡ place.old.kept.held) }
    ensures begun { place.old.kept.held ≡ None → (result ≡ 0) ↔ IsSome place.new.kept.held }
    ensures made { (q : EventQueues) → place.old.kept.held ≡ None → place.new.kept.held ≡ Some q → IsAlike new_queues (now_in q) }
    ensures refused { place.old.kept.held ≡ None → place.new.kept.held ≡ None → result ≡ 3 }
{
    if let Some(queues) = place.take(alloc) {
        place.put(queues);
        return Status::InUse.code();
    }
    match in_box(alloc, EventQueues::new(alloc)) {
        Some(queues) => {
            place.put(queues);
            Status::Ok.code()
        }
        None => Status::OutOfMemory.code(),
    }
}

/// Ends the queues, and frees their memory. What the contents of events stand for is the host's, and stays as it is. The place is
/// empty then, and may be begun again.
#[unsafe(no_mangle)]
pub extern "C" fn nb_queues_end(alloc: Global, place: &mut QueuesPlace) -> u32
    ensures none { place.old.kept.held ≡ None → result ≡ 1 }
    ensures some { IsSome place.old.kept.held → result ≡ 0 }
    ensures ended { place.new.kept.held ≡ None }
{
    match place.take(alloc) {
        Some(_) => Status::Ok.code(),
        None => Status::NoSession.code(),
    }
}

/// Makes a queue, and writes its number.
#[unsafe(no_mangle)]
pub extern "C" fn nb_queues_new_queue(
    alloc: Global,
    place: &mut QueuesPlace,
    queue: &mut usize,
) -> u32
    ensures none { place.old.kept.held ≡ None → (result ≡ 1) × (place.new.kept.held ≡ None) × (queue.new ≡ queue.old) }
    ensures stays { IsSome place.old.kept.held → IsSome place.new.kept.held }
    ensures unwritten { result ≢ 0 → queue.new ≡ queue.old }
    ensures call { Gave place.old.kept.held result queue.old queue.new place.new.kept.held (λ q answer r. MakesQueue q answer r) }
{
    let Some(mut queues) = place.take(alloc) else {
        return Status::NoSession.code();
    };
    let answer = queues.new_queue();
    place.put(queues);
    write_answer(answer, queue)
}

/// Drops a queue.
#[unsafe(no_mangle)]
pub extern "C" fn nb_queues_drop_queue(alloc: Global, place: &mut QueuesPlace, queue: usize) -> u32
    ensures none { place.old.kept.held ≡ None → (result ≡ 1) × (place.new.kept.held ≡ None) }
    ensures stays { IsSome place.old.kept.held → IsSome place.new.kept.held }
    ensures call { Answered place.old.kept.held result place.new.kept.held (λ q answer r. DropsQueue queue q answer r) }
{
    let Some(mut queues) = place.take(alloc) else {
        return Status::NoSession.code();
    };
    let answer = queues.drop_queue(queue);
    place.put(queues);
    number_of(answer)
}

/// Writes 1 if an event waits in the queue, and 0 else.
#[unsafe(no_mangle)]
pub extern "C" fn nb_queues_has_events(
    alloc: Global,
    place: &mut QueuesPlace,
    queue: usize,
    has_events: &mut u32,
) -> u32
    ensures none { place.old.kept.held ≡ None → (result ≡ 1) × (place.new.kept.held ≡ None) × (has_events.new ≡ has_events.old) }
    ensures kept { place.new.kept.held ≡ place.old.kept.held }
    ensures unwritten { result ≢ 0 → has_events.new ≡ has_events.old }
    ensures answer { FoundFlag place.old.kept.held result has_events.old has_events.new (λ q answer. answer ≡ Ok (waits.has_events (now_in q) queue)) }
{
    let Some(queues) = place.take(alloc) else {
        return Status::NoSession.code();
    };
    let answer = queues.has_events(queue);
    place.put(queues);
    write_flag(Ok(answer), has_events)
}

/// Says that the session failed: no event is handed out any more.
#[unsafe(no_mangle)]
pub extern "C" fn nb_queues_fail(alloc: Global, place: &mut QueuesPlace) -> u32
    ensures none { place.old.kept.held ≡ None → (result ≡ 1) × (place.new.kept.held ≡ None) }
    ensures stays { IsSome place.old.kept.held → IsSome place.new.kept.held }
    ensures call { Did place.old.kept.held result place.new.kept.held (λ q status r. Calls q.core Fail r.core) }
    ensures answer { IsSome place.old.kept.held → result ≡ 0 }
{
    let Some(mut queues) = place.take(alloc) else {
        return Status::NoSession.code();
    };
    queues.fail();
    place.put(queues);
    Status::Ok.code()
}
