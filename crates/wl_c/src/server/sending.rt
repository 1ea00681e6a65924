//! What a server's session hands out to the host.

ghost use Rattle.std.specs.Prelude.{IsSome, None, [], ◌≡◌, ◌≢◌};
ghost use Rattle.wl_c.specs.Calls.{Did, Gave, Told};
ghost use Rattle.wl_host.specs.Cleaning.{CleansUp};
ghost use Rattle.wl_flat.specs.Descriptors.{Conserves};
ghost use Rattle.wl_flat.specs.Flat.{client_of};
ghost use Rattle.wl_host.specs.Flushing.{FlushesClient, OkHasBytes};
ghost use Rattle.wl_host.specs.Notes.{NextNote};
ghost use Rattle.wl_flat.specs.Nulls.{sets};
ghost use Rattle.wl_host.specs.Server.{FoundHasBytes, NextDropped, NextWritable, NoneAskedHasBytes, gone_with_first, handed, kept_by_server, next_gone};
ghost use Rattle.wl_host.specs.Tellings.{CopiesTold, SendsTold, sent_told};
ghost use Rattle.wl_flat.specs.declared.status.Status.TheVariants as status;

use super::place::ServerPlace;
use crate::answer::write_answer;
use std::alloc::Global;
use wl_host::{Counts, FlatClientId, FlatNote, Gone, Status};

/// Flushes the next client that a call touched, and writes its id where something waits to be sent to it.
#[unsafe(no_mangle)]
pub extern "C" fn nb_server_next_writable(
    alloc: Global,
    place: &mut ServerPlace,
    client: &mut FlatClientId,
) -> u32
    ensures none { place.old.kept.held ≡ None → (result ≡ 1) × (place.new.kept.held ≡ None) × (client.new ≡ client.old) }
    ensures stays { IsSome place.old.kept.held → IsSome place.new.kept.held }
    ensures unwritten { result ≢ 0 → client.new ≡ client.old }
    ensures call { Gave place.old.kept.held result client.old client.new place.new.kept.held (λ s answer t. NextWritable s answer t) }
    ensures found { Gave place.old.kept.held result client.old client.new place.new.kept.held (λ s answer t. FoundHasBytes t.core answer) }
    ensures none_found { Gave place.old.kept.held result client.old client.new place.new.kept.held (λ s answer t. NoneAskedHasBytes s.seats t.core answer) }
    ensures descriptors { Gave place.old.kept.held result client.old client.new place.new.kept.held (λ s answer t. Conserves kept_by_server s [] [] t) }
{
    let Some(mut session) = place.take(alloc) else {
        return Status::NoSession.code();
    };
    let answer = session.next_writable();
    place.put(session);
    write_answer(answer, client)
}

/// Flushes a client, and says whether something waits to be sent to it.
#[unsafe(no_mangle)]
pub extern "C" fn nb_server_flush_client(
    alloc: Global,
    place: &mut ServerPlace,
    client: &FlatClientId,
) -> u32
    ensures none { place.old.kept.held ≡ None → (result ≡ 1) × (place.new.kept.held ≡ None) }
    ensures stays { IsSome place.old.kept.held → IsSome place.new.kept.held }
    ensures call { Did place.old.kept.held result place.new.kept.held (λ s status t. FlushesClient s (client_of client.now) status t) }
    ensures waits { Did place.old.kept.held result place.new.kept.held (λ s status t. OkHasBytes t.core (client_of client.now) status) }
    ensures descriptors { Did place.old.kept.held result place.new.kept.held (λ s status t. Conserves kept_by_server s [] [] t) }
{
    let Some(mut session) = place.take(alloc) else {
        return Status::NoSession.code();
    };
    let status = session.flush_client(client);
    place.put(session);
    status.code()
}

/// Copies what is to be sent to a client. It stays until `nb_server_sent` says that it was sent.
#[unsafe(no_mangle)]
pub extern "C" fn nb_server_to_send(
    alloc: Global,
    place: &mut ServerPlace,
    client: &FlatClientId,
    bytes: &mut [u8],
    descriptors: &mut [i32],
    counts: &mut Counts,
) -> u32
    ensures none { place.old.kept.held ≡ None → (result ≡ 1) × (place.new.kept.held ≡ None) × (bytes.new ≡ bytes.old) × (descriptors.new ≡ descriptors.old) × (counts.new ≡ counts.old) }
    ensures stays { IsSome place.old.kept.held → IsSome place.new.kept.held }
    ensures copied { Did place.old.kept.held result place.new.kept.held (λ s status t. CopiesTold s (client_of client.now) bytes.old descriptors.old (record { status = status; bytes = bytes.new; descriptors = descriptors.new; counts = counts.new }) t) }
    ensures conserved { Did place.old.kept.held result place.new.kept.held (λ s status t. Conserves kept_by_server s [] [] t) }
{
    let Some(mut session) = place.take(alloc) else {
        return Status::NoSession.code();
    };
    let status = session.to_send(client, bytes, descriptors, counts);
    place.put(session);
    status.code()
}

/// Says that so many bytes were sent to a client, and with the first of them all descriptors.
#[unsafe(no_mangle)]
pub extern "C" fn nb_server_sent(
    alloc: Global,
    place: &mut ServerPlace,
    client: &FlatClientId,
    count: u32,
) -> u32
    ensures none { place.old.kept.held ≡ None → (result ≡ 1) × (place.new.kept.held ≡ None) }
    ensures stays { IsSome place.old.kept.held → IsSome place.new.kept.held }
    ensures sent { Did place.old.kept.held result place.new.kept.held (λ s status t. SendsTold s (client_of client.now) count status t) }
    ensures descriptors { Did place.old.kept.held result place.new.kept.held (λ s status t. Conserves kept_by_server s [] (sent_told s (client_of client.now) count status) t) }
{
    let Some(mut session) = place.take(alloc) else {
        return Status::NoSession.code();
    };
    let status = session.sent(client, count);
    place.put(session);
    status.code()
}

/// Takes out the clients that were killed. `nb_server_next_gone` hands them out.
#[unsafe(no_mangle)]
pub extern "C" fn nb_server_cleanup(alloc: Global, place: &mut ServerPlace) -> u32
    ensures none { place.old.kept.held ≡ None → (result ≡ 1) × (place.new.kept.held ≡ None) }
    ensures stays { IsSome place.old.kept.held → IsSome place.new.kept.held }
    ensures call { Did place.old.kept.held result place.new.kept.held (λ s status t. CleansUp s status t) }
    ensures descriptors { Did place.old.kept.held result place.new.kept.held (λ s status t. Conserves kept_by_server s [] [] t) }
{
    let Some(mut session) = place.take(alloc) else {
        return Status::NoSession.code();
    };
    let status = session.cleanup();
    place.put(session);
    status.code()
}

/// Hands out the next client that was taken out, with its last bytes and descriptors.
#[unsafe(no_mangle)]
pub extern "C" fn nb_server_next_gone(
    alloc: Global,
    place: &mut ServerPlace,
    gone: &mut Gone,
    bytes: &mut [u8],
    descriptors: &mut [i32],
) -> u32
    ensures none { place.old.kept.held ≡ None → (result ≡ 1) × (place.new.kept.held ≡ None) × (gone.new ≡ gone.old) × (bytes.new ≡ bytes.old) × (descriptors.new ≡ descriptors.old) }
    ensures stays { IsSome place.old.kept.held → IsSome place.new.kept.held }
    ensures status { Did place.old.kept.held result place.new.kept.held (λ s status t. status ≡ (next_gone s gone.old bytes.old descriptors.old).status) }
    ensures out { Did place.old.kept.held result place.new.kept.held (λ s status t. gone.new ≡ (next_gone s gone.old bytes.old descriptors.old).out) }
    ensures bytes { Did place.old.kept.held result place.new.kept.held (λ s status t. bytes.new ≡ (next_gone s gone.old bytes.old descriptors.old).bytes) }
    ensures descriptors { Did place.old.kept.held result place.new.kept.held (λ s status t. descriptors.new ≡ (next_gone s gone.old bytes.old descriptors.old).descriptors) }
    ensures after { Did place.old.kept.held result place.new.kept.held (λ s status t. t ≡ (next_gone s gone.old bytes.old descriptors.old).after) }
    ensures conserves { Did place.old.kept.held result place.new.kept.held (λ s status t. Conserves kept_by_server s [] (gone_with_first s status) t) }
{
    let Some(mut session) = place.take(alloc) else {
        return Status::NoSession.code();
    };
    let status = session.next_gone(gone, bytes, descriptors);
    place.put(session);
    status.code()
}

/// Hands out the next note: a client that came or was killed, or an object that was destroyed.
#[unsafe(no_mangle)]
pub extern "C" fn nb_server_next_note(
    alloc: Global,
    place: &mut ServerPlace,
    note: &mut FlatNote,
    text: &mut [u8],
) -> u32
    ensures none { place.old.kept.held ≡ None → (result ≡ 1) × (place.new.kept.held ≡ None) × (note.new ≡ note.old) × (text.new ≡ text.old) }
    ensures stays { IsSome place.old.kept.held → IsSome place.new.kept.held }
    ensures call { Did place.old.kept.held result place.new.kept.held (λ s status t. NextNote s note.old text.old status note.new text.new t) }
    ensures descriptors { Did place.old.kept.held result place.new.kept.held (λ s status t. Conserves kept_by_server s [] [] t) }
{
    let Some(mut session) = place.take(alloc) else {
        return Status::NoSession.code();
    };
    let status = session.next_note(note, text);
    place.put(session);
    status.code()
}

/// Sets whether notes are kept until they are handed out: not if `is_on` is 0.
#[unsafe(no_mangle)]
pub extern "C" fn nb_server_keep_notes(alloc: Global, place: &mut ServerPlace, is_on: u32) -> u32
    ensures none { place.old.kept.held ≡ None → (result ≡ 1) × (place.new.kept.held ≡ None) }
    ensures stays { IsSome place.old.kept.held → IsSome place.new.kept.held }
    ensures set { Did place.old.kept.held result place.new.kept.held (λ s status t. t ≡ record s { keeps_notes = sets is_on }) }
    ensures descriptors { Did place.old.kept.held result place.new.kept.held (λ s status t. Conserves kept_by_server s [] [] t) }
    ensures status { IsSome place.old.kept.held → result ≡ 0 }
{
    let Some(mut session) = place.take(alloc) else {
        return Status::NoSession.code();
    };
    let status = session.keep_notes(is_on);
    place.put(session);
    status.code()
}

/// Hands out the next descriptor that no call will hand out. The host closes it.
#[unsafe(no_mangle)]
pub extern "C" fn nb_server_next_dropped(
    alloc: Global,
    place: &mut ServerPlace,
    descriptor: &mut i32,
) -> u32
    ensures none { place.old.kept.held ≡ None → (result ≡ 1) × (place.new.kept.held ≡ None) × (descriptor.new ≡ descriptor.old) }
    ensures stays { IsSome place.old.kept.held → IsSome place.new.kept.held }
    ensures unwritten { result ≢ 0 → descriptor.new ≡ descriptor.old }
    ensures call { Gave place.old.kept.held result descriptor.old descriptor.new place.new.kept.held (λ s answer t. NextDropped s answer t) }
    ensures descriptors { Gave place.old.kept.held result descriptor.old descriptor.new place.new.kept.held (λ s answer t. Conserves kept_by_server s [] (handed answer) t) }
{
    let Some(mut session) = place.take(alloc) else {
        return Status::NoSession.code();
    };
    let answer = session.next_dropped();
    place.put(session);
    write_answer(answer, descriptor)
}
