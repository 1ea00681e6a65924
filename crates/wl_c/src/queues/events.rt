//! Events that wait, and events in hand.

ghost use Rattle.std.specs.Prelude.{IsSome, None, ◌≡◌, ◌≢◌, option_map};
ghost use Rattle.wl_c.specs.Calls.{Found, Gave};
ghost use Rattle.wl_c.specs.Queues.{Answered};
ghost use Rattle.wl_flat.specs.Status.{found};
ghost use Rattle.wl_flat.specs.EventQueues.{Finishes, Puts, Takes, flat_handed, now_in};
ghost use Rattle.wl_queues.specs.Queues.{argument_of, event_of};

use super::place::QueuesPlace;
use crate::answer::{number_of, write_answer};
use std::alloc::Global;
use wl_host::{FlatQueuedEvent, Status};

/// Puts an event into the queue of its sender.
#[unsafe(no_mangle)]
pub extern "C" fn nb_queues_put(
    alloc: Global,
    place: &mut QueuesPlace,
    sender: usize,
    arguments: &[usize],
    content: u64,
) -> u32
    ensures none { place.old.kept.held ≡ None → (result ≡ 1) × (place.new.kept.held ≡ None) }
    ensures stays { IsSome place.old.kept.held → IsSome place.new.kept.held }
    ensures call { Answered place.old.kept.held result place.new.kept.held (λ q answer r. Puts sender arguments.now content q answer r) }
{
    let Some(mut queues) = place.take(alloc) else {
        return Status::NoSession.code();
    };
    let answer = queues.put(alloc, sender, arguments, content);
    place.put(queues);
    number_of(answer)
}

/// Takes the first event out of a queue, and writes it with what becomes of it.
#[unsafe(no_mangle)]
pub extern "C" fn nb_queues_next_of(
    alloc: Global,
    place: &mut QueuesPlace,
    queue: usize,
    event: &mut FlatQueuedEvent,
) -> u32
    ensures none { place.old.kept.held ≡ None → (result ≡ 1) × (place.new.kept.held ≡ None) × (event.new ≡ event.old) }
    ensures stays { IsSome place.old.kept.held → IsSome place.new.kept.held }
    ensures unwritten { result ≢ 0 → event.new ≡ event.old }
    ensures call { Gave place.old.kept.held result event.old event.new place.new.kept.held (λ q answer r. Takes queue q answer r) }
{
    let Some(mut queues) = place.take(alloc) else {
        return Status::NoSession.code();
    };
    let answer = queues.next_of(queue);
    place.put(queues);
    write_answer(answer, event)
}

/// Writes the event that is in hand with this ticket.
#[unsafe(no_mangle)]
pub extern "C" fn nb_queues_event(
    alloc: Global,
    place: &mut QueuesPlace,
    ticket: u64,
    event: &mut FlatQueuedEvent,
) -> u32
    ensures none { place.old.kept.held ≡ None → (result ≡ 1) × (place.new.kept.held ≡ None) × (event.new ≡ event.old) }
    ensures kept { place.new.kept.held ≡ place.old.kept.held }
    ensures unwritten { result ≢ 0 → event.new ≡ event.old }
    ensures answer { Found place.old.kept.held result event.old event.new (λ q answer. answer ≡ found (option_map (flat_handed ticket) (event_of (now_in q) ticket))) }
{
    let Some(queues) = place.take(alloc) else {
        return Status::NoSession.code();
    };
    let answer = queues.event(ticket);
    place.put(queues);
    write_answer(answer, event)
}

/// Writes the slot of the object that is an argument of the event in hand.
#[unsafe(no_mangle)]
pub extern "C" fn nb_queues_argument(
    alloc: Global,
    place: &mut QueuesPlace,
    ticket: u64,
    index: usize,
    object: &mut usize,
) -> u32
    ensures none { place.old.kept.held ≡ None → (result ≡ 1) × (place.new.kept.held ≡ None) × (object.new ≡ object.old) }
    ensures kept { place.new.kept.held ≡ place.old.kept.held }
    ensures unwritten { result ≢ 0 → object.new ≡ object.old }
    ensures answer { Found place.old.kept.held result object.old object.new (λ q answer. answer ≡ found (argument_of (now_in q) ticket index)) }
{
    let Some(queues) = place.take(alloc) else {
        return Status::NoSession.code();
    };
    let answer = queues.argument(ticket, index);
    place.put(queues);
    write_answer(answer, object)
}

/// Ends the event in hand, and writes its content.
#[unsafe(no_mangle)]
pub extern "C" fn nb_queues_finish(
    alloc: Global,
    place: &mut QueuesPlace,
    ticket: u64,
    content: &mut u64,
) -> u32
    ensures none { place.old.kept.held ≡ None → (result ≡ 1) × (place.new.kept.held ≡ None) × (content.new ≡ content.old) }
    ensures stays { IsSome place.old.kept.held → IsSome place.new.kept.held }
    ensures unwritten { result ≢ 0 → content.new ≡ content.old }
    ensures call { Gave place.old.kept.held result content.old content.new place.new.kept.held (λ q answer r. Finishes ticket q answer r) }
{
    let Some(mut queues) = place.take(alloc) else {
        return Status::NoSession.code();
    };
    let answer = queues.finish(ticket);
    place.put(queues);
    write_answer(answer, content)
}
