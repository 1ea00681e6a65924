//! What a client's session receives, its events and its requests.

ghost use Rattle.std.specs.Prelude.{IsSome, List, None, Some, [], ℤ, ◌≡◌, ◌≢◌};
ghost use Rattle.wl_c.specs.Calls.{Did, Gave, GaveFlag};
ghost use Rattle.wl_flat.specs.Arguments.{descriptors_given};
ghost use Rattle.wl_host_client.specs.Client.{ConservesClient, EndsEvent, EndsEventWith, Sends, failed, given_with, mailbox_of, taken_in, with_mailbox};
ghost use Rattle.wl_host_client.specs.ClientTellings.{ReadsTold, ReceivesTold};
ghost use Rattle.wl_flat.specs.declared.status.Status.TheVariants as status;
ghost use Rattle.wl_link.specs.declared.mailbox.Ending.TheVariants as ending;
ghost use Rattle.wl_wire.specs.declared.error.IoFault.TheVariants as fault;

use super::place::ClientPlace;
use crate::answer::{write_answer, write_flag};
use std::alloc::Global;
use wl_host::{FlatArgument, FlatEvent, FlatObjectId, FlatRequest, Status};

/// Takes what the host received. The descriptors are the session's if, and only if, the status is `NB_OK`.
#[unsafe(no_mangle)]
pub extern "C" fn nb_client_received(
    alloc: Global,
    place: &mut ClientPlace,
    bytes: &[u8],
    descriptors: &[i32],
) -> u32
    ensures none { place.old.kept.held ≡ None → (result ≡ 1) × (place.new.kept.held ≡ None) }
    ensures stays { IsSome place.old.kept.held → IsSome place.new.kept.held }
    ensures call { Did place.old.kept.held result place.new.kept.held (λ s status t. ReceivesTold s bytes.now descriptors.now status t) }
    ensures descriptors { Did place.old.kept.held result place.new.kept.held (λ s status t. ConservesClient s (taken_in status descriptors.now) [] t) }
{
    let Some(mut session) = place.take(alloc) else {
        return Status::NoSession.code();
    };
    let status = session.received(bytes, descriptors);
    place.put(session);
    status.code()
}

/// Says that the server closed the connection. The session ends once all that came before is read.
#[unsafe(no_mangle)]
pub extern "C" fn nb_client_received_end(alloc: Global, place: &mut ClientPlace) -> u32
    ensures none { place.old.kept.held ≡ None → (result ≡ 1) × (place.new.kept.held ≡ None) }
    ensures stays { IsSome place.old.kept.held → IsSome place.new.kept.held }
    ensures ended { Did place.old.kept.held result place.new.kept.held (λ s status t. t ≡ with_mailbox s (record (mailbox_of s) { ending = ending.Ended })) }
    ensures descriptors { Did place.old.kept.held result place.new.kept.held (λ s status t. ConservesClient s [] [] t) }
    ensures answer { IsSome place.old.kept.held → result ≡ 0 }
{
    let Some(mut session) = place.take(alloc) else {
        return Status::NoSession.code();
    };
    let status = session.received_end();
    place.put(session);
    status.code()
}

/// Says that receiving failed with this number of the system.
#[unsafe(no_mangle)]
pub extern "C" fn nb_client_receive_failed(
    alloc: Global,
    place: &mut ClientPlace,
    number: i32,
) -> u32
    ensures none { place.old.kept.held ≡ None → (result ≡ 1) × (place.new.kept.held ≡ None) }
    ensures stays { IsSome place.old.kept.held → IsSome place.new.kept.held }
    ensures failed { Did place.old.kept.held result place.new.kept.held (λ s status t. t ≡ with_mailbox s (record (mailbox_of s) { ending = ending.Failed (fault.Other number) })) }
    ensures descriptors { Did place.old.kept.held result place.new.kept.held (λ s status t. ConservesClient s [] [] t) }
    ensures answer { IsSome place.old.kept.held → result ≡ 0 }
{
    let Some(mut session) = place.take(alloc) else {
        return Status::NoSession.code();
    };
    let status = session.receive_failed(number);
    place.put(session);
    status.code()
}

/// Ends the session, for a reason of the host's own.
#[unsafe(no_mangle)]
pub extern "C" fn nb_client_fail(alloc: Global, place: &mut ClientPlace, number: i32) -> u32
    ensures none { place.old.kept.held ≡ None → (result ≡ 1) × (place.new.kept.held ≡ None) }
    ensures stays { IsSome place.old.kept.held → IsSome place.new.kept.held }
    ensures failed { Did place.old.kept.held result place.new.kept.held (λ s status t. t ≡ failed s number) }
    ensures descriptors { Did place.old.kept.held result place.new.kept.held (λ s status t. ConservesClient s [] [] t) }
    ensures answer { IsSome place.old.kept.held → result ≡ 0 }
{
    let Some(mut session) = place.take(alloc) else {
        return Status::NoSession.code();
    };
    let status = session.fail(number);
    place.put(session);
    status.code()
}

/// Says that sending failed with this number of the system.
#[unsafe(no_mangle)]
pub extern "C" fn nb_client_send_failed(alloc: Global, place: &mut ClientPlace, number: i32) -> u32
    ensures none { place.old.kept.held ≡ None → (result ≡ 1) × (place.new.kept.held ≡ None) }
    ensures stays { IsSome place.old.kept.held → IsSome place.new.kept.held }
    ensures failed { Did place.old.kept.held result place.new.kept.held (λ s status t. t ≡ with_mailbox s (record (mailbox_of s) { send_fault = Some (fault.Other number) })) }
    ensures descriptors { Did place.old.kept.held result place.new.kept.held (λ s status t. ConservesClient s [] [] t) }
    ensures answer { IsSome place.old.kept.held → result ≡ 0 }
{
    let Some(mut session) = place.take(alloc) else {
        return Status::NoSession.code();
    };
    let status = session.send_failed(number);
    place.put(session);
    status.code()
}

/// Reads the next event. What it says of strings and arrays goes into `bytes`.
#[unsafe(no_mangle)]
pub extern "C" fn nb_client_next_event(
    alloc: Global,
    place: &mut ClientPlace,
    event: &mut FlatEvent,
    arguments: &mut [FlatArgument],
    bytes: &mut [u8],
) -> u32
    ensures none { place.old.kept.held ≡ None → (result ≡ 1) × (place.new.kept.held ≡ None) × (event.new ≡ event.old) × (arguments.new ≡ arguments.old) × (bytes.new ≡ bytes.old) }
    ensures stays { IsSome place.old.kept.held → IsSome place.new.kept.held }
    ensures call { Did place.old.kept.held result place.new.kept.held (λ s status t. (came_out : List ℤ) × ReadsTold s (record { out = event.old; arguments = arguments.old; bytes = bytes.old }) status came_out t (record { out = event.new; arguments = arguments.new; bytes = bytes.new }) × ConservesClient s [] came_out t) }
{
    let Some(mut session) = place.take(alloc) else {
        return Status::NoSession.code();
    };
    let status = session.next_event(event, arguments, bytes);
    place.put(session);
    status.code()
}

/// Finishes the open event. An object that it made gets no data.
#[unsafe(no_mangle)]
pub extern "C" fn nb_client_finish_event(alloc: Global, place: &mut ClientPlace) -> u32
    ensures none { place.old.kept.held ≡ None → (result ≡ 1) × (place.new.kept.held ≡ None) }
    ensures stays { IsSome place.old.kept.held → IsSome place.new.kept.held }
    ensures call { Did place.old.kept.held result place.new.kept.held (λ s status t. EndsEvent s None status t) }
    ensures descriptors { Did place.old.kept.held result place.new.kept.held (λ s status t. ConservesClient s [] [] t) }
{
    let Some(mut session) = place.take(alloc) else {
        return Status::NoSession.code();
    };
    let status = session.finish_event();
    place.put(session);
    status.code()
}

/// Finishes the open event and gives this data to the object that it made. `is_kept` tells whether that object lives.
#[unsafe(no_mangle)]
pub extern "C" fn nb_client_finish_event_with(
    alloc: Global,
    place: &mut ClientPlace,
    user_data: u64,
    is_kept: &mut u32,
) -> u32
    ensures none { place.old.kept.held ≡ None → (result ≡ 1) × (place.new.kept.held ≡ None) × (is_kept.new ≡ is_kept.old) }
    ensures stays { IsSome place.old.kept.held → IsSome place.new.kept.held }
    ensures unwritten { result ≢ 0 → is_kept.new ≡ is_kept.old }
    ensures call { GaveFlag place.old.kept.held result is_kept.old is_kept.new place.new.kept.held (λ s answer t. EndsEventWith s user_data answer t) }
    ensures descriptors { GaveFlag place.old.kept.held result is_kept.old is_kept.new place.new.kept.held (λ s answer t. ConservesClient s [] [] t) }
{
    let Some(mut session) = place.take(alloc) else {
        return Status::NoSession.code();
    };
    let answer = session.finish_event_with(user_data);
    place.put(session);
    write_flag(answer, is_kept)
}

/// Sends a request. Its descriptors are the session's if, and only if, the status is `NB_OK`.
#[unsafe(no_mangle)]
pub extern "C" fn nb_client_send_request(
    alloc: Global,
    place: &mut ClientPlace,
    request: &FlatRequest,
    arguments: &[FlatArgument],
    bytes: &[u8],
    created: &mut FlatObjectId,
) -> u32
    ensures none { place.old.kept.held ≡ None → (result ≡ 1) × (place.new.kept.held ≡ None) × (created.new ≡ created.old) }
    ensures stays { IsSome place.old.kept.held → IsSome place.new.kept.held }
    ensures unwritten { result ≢ 0 → created.new ≡ created.old }
    ensures call { Gave place.old.kept.held result created.old created.new place.new.kept.held (λ s answer t. Sends s request.now arguments.now bytes.now answer t) }
    ensures descriptors { Gave place.old.kept.held result created.old created.new place.new.kept.held (λ s answer t. ConservesClient s (given_with answer (descriptors_given arguments.now)) [] t) }
{
    let Some(mut session) = place.take(alloc) else {
        return Status::NoSession.code();
    };
    let answer = session.send_request(request, arguments, bytes);
    place.put(session);
    write_answer(answer, created)
}
