//! What a client's session hands out to the host.

ghost use Rattle.std.specs.Prelude.{IfErr, IsSome, None, [], not, ◌==◌, ◌≡◌, ◌≢◌};
ghost use Rattle.wl_c.specs.Calls.{Did, Gave};
ghost use Rattle.wl_host_client.specs.Client.{ConservesClient, Drops, Flushes, HandsFreedId, HandsNote, HasNoneDropped, KeepsFreed, told};
ghost use Rattle.wl_host_client.specs.ClientTellings.{CopiesTold, SendsTold, sent_told};
ghost use Rattle.wl_flat.specs.declared.status.Status.TheVariants as status;

use super::place::ClientPlace;
use crate::answer::write_answer;
use std::alloc::Global;
use wl_host::{Counts, FlatObjectId, Status};

/// Moves what requests wrote into the mailbox, as far as it has room.
#[unsafe(no_mangle)]
pub extern "C" fn nb_client_flush(alloc: Global, place: &mut ClientPlace) -> u32
    ensures none { place.old.kept.held ≡ None → (result ≡ 1) × (place.new.kept.held ≡ None) }
    ensures stays { IsSome place.old.kept.held → IsSome place.new.kept.held }
    ensures call { Did place.old.kept.held result place.new.kept.held (λ s status t. Flushes s.core status t.core) }
    ensures beside { Did place.old.kept.held result place.new.kept.held (λ s status t. t ≡ record s { core = t.core }) }
    ensures descriptors { Did place.old.kept.held result place.new.kept.held (λ s status t. ConservesClient s [] [] t) }
{
    let Some(mut session) = place.take(alloc) else {
        return Status::NoSession.code();
    };
    let status = session.flush();
    place.put(session);
    status.code()
}

/// Copies what is to be sent. It stays until `nb_client_sent` says that it was sent.
#[unsafe(no_mangle)]
pub extern "C" fn nb_client_to_send(
    alloc: Global,
    place: &mut ClientPlace,
    bytes: &mut [u8],
    descriptors: &mut [i32],
    counts: &mut Counts,
) -> u32
    ensures none { place.old.kept.held ≡ None → (result ≡ 1) × (place.new.kept.held ≡ None) × (bytes.new ≡ bytes.old) × (descriptors.new ≡ descriptors.old) × (counts.new ≡ counts.old) }
    ensures stays { IsSome place.old.kept.held → IsSome place.new.kept.held }
    ensures copied { Did place.old.kept.held result place.new.kept.held (λ s status t. CopiesTold s bytes.old descriptors.old (record { status = status; bytes = bytes.new; descriptors = descriptors.new; counts = counts.new }) t) }
    ensures conserved { Did place.old.kept.held result place.new.kept.held (λ s status t. ConservesClient s [] [] t) }
{
    let Some(mut session) = place.take(alloc) else {
        return Status::NoSession.code();
    };
    let status = session.to_send(bytes, descriptors, counts);
    place.put(session);
    status.code()
}

/// Says that so many bytes were sent, and with the first of them all descriptors.
#[unsafe(no_mangle)]
pub extern "C" fn nb_client_sent(alloc: Global, place: &mut ClientPlace, count: u32) -> u32
    ensures none { place.old.kept.held ≡ None → (result ≡ 1) × (place.new.kept.held ≡ None) }
    ensures stays { IsSome place.old.kept.held → IsSome place.new.kept.held }
    ensures sent { Did place.old.kept.held result place.new.kept.held (λ s status t. SendsTold s count status t) }
    ensures descriptors { Did place.old.kept.held result place.new.kept.held (λ s status t. ConservesClient s [] (sent_told s count status) t) }
{
    let Some(mut session) = place.take(alloc) else {
        return Status::NoSession.code();
    };
    let status = session.sent(count);
    place.put(session);
    status.code()
}

/// Hands out the next object that had data and was destroyed, with the data that it had then.
#[unsafe(no_mangle)]
pub extern "C" fn nb_client_next_note(
    alloc: Global,
    place: &mut ClientPlace,
    destroyed: &mut FlatObjectId,
    user_data: &mut u64,
) -> u32
    ensures none { place.old.kept.held ≡ None → (result ≡ 1) × (place.new.kept.held ≡ None) × (destroyed.new ≡ destroyed.old) × (user_data.new ≡ user_data.old) }
    ensures stays { IsSome place.old.kept.held → IsSome place.new.kept.held }
    ensures call { Did place.old.kept.held result place.new.kept.held (λ s status t. HandsNote s.notes s destroyed.old user_data.old status t destroyed.new user_data.new) }
    ensures descriptors { Did place.old.kept.held result place.new.kept.held (λ s status t. ConservesClient s [] [] t) }
{
    let Some(mut session) = place.take(alloc) else {
        return Status::NoSession.code();
    };
    let status = session.next_note(destroyed, user_data);
    place.put(session);
    status.code()
}

/// Sets whether the ids of objects that leave their numbers are kept.
#[unsafe(no_mangle)]
pub extern "C" fn nb_client_keep_freed(alloc: Global, place: &mut ClientPlace, keeps: u32) -> u32
    ensures none { place.old.kept.held ≡ None → (result ≡ 1) × (place.new.kept.held ≡ None) }
    ensures stays { IsSome place.old.kept.held → IsSome place.new.kept.held }
    ensures call { Did place.old.kept.held result place.new.kept.held (λ s status t. KeepsFreed s.core (not (keeps == 0)) t.core) }
    ensures beside { Did place.old.kept.held result place.new.kept.held (λ s status t. t ≡ record s { core = t.core }) }
    ensures descriptors { Did place.old.kept.held result place.new.kept.held (λ s status t. ConservesClient s [] [] t) }
    ensures answer { IsSome place.old.kept.held → result ≡ 0 }
{
    let Some(mut session) = place.take(alloc) else {
        return Status::NoSession.code();
    };
    let status = session.keep_freed(keeps);
    place.put(session);
    status.code()
}

/// Hands out the next id of an object that left its number.
#[unsafe(no_mangle)]
pub extern "C" fn nb_client_next_freed(
    alloc: Global,
    place: &mut ClientPlace,
    object: &mut FlatObjectId,
) -> u32
    ensures none { place.old.kept.held ≡ None → (result ≡ 1) × (place.new.kept.held ≡ None) × (object.new ≡ object.old) }
    ensures stays { IsSome place.old.kept.held → IsSome place.new.kept.held }
    ensures call { Did place.old.kept.held result place.new.kept.held (λ s status t. HandsFreedId s.core.session.freed s object.old status t object.new) }
    ensures descriptors { Did place.old.kept.held result place.new.kept.held (λ s status t. ConservesClient s [] [] t) }
{
    let Some(mut session) = place.take(alloc) else {
        return Status::NoSession.code();
    };
    let status = session.next_freed(object);
    place.put(session);
    status.code()
}

/// Hands out the next descriptor that no call will hand out. The host closes it.
#[unsafe(no_mangle)]
pub extern "C" fn nb_client_next_dropped(
    alloc: Global,
    place: &mut ClientPlace,
    descriptor: &mut i32,
) -> u32
    ensures none { place.old.kept.held ≡ None → (result ≡ 1) × (place.new.kept.held ≡ None) × (descriptor.new ≡ descriptor.old) }
    ensures stays { IsSome place.old.kept.held → IsSome place.new.kept.held }
    ensures unwritten { result ≢ 0 → descriptor.new ≡ descriptor.old }
    ensures call { Gave place.old.kept.held result descriptor.old descriptor.new place.new.kept.held (λ s answer t. Drops s answer t) }
    ensures none_dropped { Gave place.old.kept.held result descriptor.old descriptor.new place.new.kept.held (λ s answer t. IfErr answer (λ _. HasNoneDropped t)) }
    ensures descriptors { Gave place.old.kept.held result descriptor.old descriptor.new place.new.kept.held (λ s answer t. ConservesClient s [] (told answer) t) }
{
    let Some(mut session) = place.take(alloc) else {
        return Status::NoSession.code();
    };
    let answer = session.next_dropped();
    place.put(session);
    write_answer(answer, descriptor)
}
