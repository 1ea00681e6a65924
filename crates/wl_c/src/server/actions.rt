//! What clients ask for, and what the program answers.

ghost use Rattle.std.specs.Prelude.{Bool, IsSome, List, None, Result, Some, [], ℤ, ◌≡◌, ◌≢◌};
ghost use Rattle.wl_c.specs.Calls.{Did, GaveFlag};
ghost use Rattle.wl_host.specs.Actions.{EndsAsAction, EndsBind, EndsRequest, status_of_end};
ghost use Rattle.wl_flat.specs.Arguments.{descriptors_given};
ghost use Rattle.wl_flat.specs.Descriptors.{Conserves};
ghost use Rattle.wl_host.specs.Events.{PostsError, SendsEvent};
ghost use Rattle.wl_flat.specs.Flat.{client_of};
ghost use Rattle.wl_host.specs.Server.{kept_by_server, went_in};
ghost use Rattle.wl_host.specs.Tellings.{ReadsTold};
ghost use Rattle.wl_flat.specs.declared.status.Status.TheVariants as status;
ghost use Rattle.wl_flat.specs.declared.status.Status.{Status};

use super::place::ServerPlace;
use crate::answer::write_flag;
use std::alloc::Global;
use wl_host::{FlatAction, FlatArgument, FlatClientId, FlatObjectId, Status};

/// Reads the next request or bind of a client. What it says of strings and arrays goes into `bytes`.
#[unsafe(no_mangle)]
pub extern "C" fn nb_server_next_action(
    alloc: Global,
    place: &mut ServerPlace,
    client: &FlatClientId,
    action: &mut FlatAction,
    arguments: &mut [FlatArgument],
    bytes: &mut [u8],
) -> u32
    ensures none { place.old.kept.held ≡ None → (result ≡ 1) × (place.new.kept.held ≡ None) × (action.new ≡ action.old) × (arguments.new ≡ arguments.old) × (bytes.new ≡ bytes.old) }
    ensures stays { IsSome place.old.kept.held → IsSome place.new.kept.held }
    ensures call { Did place.old.kept.held result place.new.kept.held (λ s status t. (came_out : List ℤ) × ReadsTold s (client_of client.now) arguments.old bytes.old status (record { out = action.new; arguments = arguments.new; bytes = bytes.new }) came_out t × Conserves kept_by_server s [] came_out t) }
{
    let Some(mut session) = place.take(alloc) else {
        return Status::NoSession.code();
    };
    let status = session.next_action(client, action, arguments, bytes);
    place.put(session);
    status.code()
}

/// Finishes the open request, which made no object.
#[unsafe(no_mangle)]
pub extern "C" fn nb_server_finish_request(
    alloc: Global,
    place: &mut ServerPlace,
    client: &FlatClientId,
) -> u32
    ensures none { place.old.kept.held ≡ None → (result ≡ 1) × (place.new.kept.held ≡ None) }
    ensures stays { IsSome place.old.kept.held → IsSome place.new.kept.held }
    ensures call { Did place.old.kept.held result place.new.kept.held (λ s status t. (answer : Result Bool Status) × EndsRequest s (client_of client.now) None answer t × (status ≡ status_of_end answer)) }
    ensures descriptors { Did place.old.kept.held result place.new.kept.held (λ s status t. Conserves kept_by_server s [] [] t) }
{
    let Some(mut session) = place.take(alloc) else {
        return Status::NoSession.code();
    };
    let status = session.finish_request(client);
    place.put(session);
    status.code()
}

/// Finishes the open request and gives this data to the object that it made. `is_kept` tells whether that object lives.
#[unsafe(no_mangle)]
pub extern "C" fn nb_server_finish_request_with(
    alloc: Global,
    place: &mut ServerPlace,
    client: &FlatClientId,
    user_data: u64,
    is_kept: &mut u32,
) -> u32
    ensures none { place.old.kept.held ≡ None → (result ≡ 1) × (place.new.kept.held ≡ None) × (is_kept.new ≡ is_kept.old) }
    ensures stays { IsSome place.old.kept.held → IsSome place.new.kept.held }
    ensures unwritten { result ≢ 0 → is_kept.new ≡ is_kept.old }
    ensures call { GaveFlag place.old.kept.held result is_kept.old is_kept.new place.new.kept.held (λ s answer t. EndsRequest s (client_of client.now) (Some user_data) answer t) }
    ensures descriptors { GaveFlag place.old.kept.held result is_kept.old is_kept.new place.new.kept.held (λ s answer t. Conserves kept_by_server s [] [] t) }
{
    let Some(mut session) = place.take(alloc) else {
        return Status::NoSession.code();
    };
    let answer = session.finish_request_with(client, user_data);
    place.put(session);
    write_flag(answer, is_kept)
}

/// Finishes the open bind and gives this data to the object that it made. `is_kept` tells whether that object lives.
#[unsafe(no_mangle)]
pub extern "C" fn nb_server_finish_bind(
    alloc: Global,
    place: &mut ServerPlace,
    client: &FlatClientId,
    user_data: u64,
    is_kept: &mut u32,
) -> u32
    ensures none { place.old.kept.held ≡ None → (result ≡ 1) × (place.new.kept.held ≡ None) × (is_kept.new ≡ is_kept.old) }
    ensures stays { IsSome place.old.kept.held → IsSome place.new.kept.held }
    ensures unwritten { result ≢ 0 → is_kept.new ≡ is_kept.old }
    ensures call { GaveFlag place.old.kept.held result is_kept.old is_kept.new place.new.kept.held (λ s answer t. EndsBind s (client_of client.now) user_data answer t) }
    ensures descriptors { GaveFlag place.old.kept.held result is_kept.old is_kept.new place.new.kept.held (λ s answer t. Conserves kept_by_server s [] [] t) }
{
    let Some(mut session) = place.take(alloc) else {
        return Status::NoSession.code();
    };
    let answer = session.finish_bind(client, user_data);
    place.put(session);
    write_flag(answer, is_kept)
}

/// Finishes the open action, which is this one, and gives the data 0 to the object that it made, if it made one.
#[unsafe(no_mangle)]
pub extern "C" fn nb_server_finish_action(
    alloc: Global,
    place: &mut ServerPlace,
    client: &FlatClientId,
    action: &FlatAction,
) -> u32
    ensures none { place.old.kept.held ≡ None → (result ≡ 1) × (place.new.kept.held ≡ None) }
    ensures stays { IsSome place.old.kept.held → IsSome place.new.kept.held }
    ensures call { Did place.old.kept.held result place.new.kept.held (λ s status t. (answer : Result Bool Status) × EndsAsAction s (client_of client.now) action.now answer t × (status ≡ status_of_end answer)) }
    ensures descriptors { Did place.old.kept.held result place.new.kept.held (λ s status t. Conserves kept_by_server s [] [] t) }
{
    let Some(mut session) = place.take(alloc) else {
        return Status::NoSession.code();
    };
    let status = session.finish_action(client, action);
    place.put(session);
    status.code()
}

/// Sends an event. Its descriptors are the session's if, and only if, the status is `NB_OK`.
#[unsafe(no_mangle)]
pub extern "C" fn nb_server_send_event(
    alloc: Global,
    place: &mut ServerPlace,
    sender: &FlatObjectId,
    opcode: u32,
    arguments: &[FlatArgument],
    bytes: &[u8],
) -> u32
    ensures none { place.old.kept.held ≡ None → (result ≡ 1) × (place.new.kept.held ≡ None) }
    ensures stays { IsSome place.old.kept.held → IsSome place.new.kept.held }
    ensures call { Did place.old.kept.held result place.new.kept.held (λ s status t. SendsEvent s (record { sender = sender.now; opcode = opcode; arguments = arguments.now; bytes = bytes.now }) status t) }
    ensures descriptors { Did place.old.kept.held result place.new.kept.held (λ s status t. Conserves kept_by_server s (went_in status (descriptors_given arguments.now)) [] t) }
{
    let Some(mut session) = place.take(alloc) else {
        return Status::NoSession.code();
    };
    let status = session.send_event(sender, opcode, arguments, bytes);
    place.put(session);
    status.code()
}

/// Tells the client of an object of a protocol error, and kills it.
#[unsafe(no_mangle)]
pub extern "C" fn nb_server_post_error(
    alloc: Global,
    place: &mut ServerPlace,
    object: &FlatObjectId,
    code: u32,
    message: &[u8],
) -> u32
    ensures none { place.old.kept.held ≡ None → (result ≡ 1) × (place.new.kept.held ≡ None) }
    ensures stays { IsSome place.old.kept.held → IsSome place.new.kept.held }
    ensures call { Did place.old.kept.held result place.new.kept.held (λ s status t. PostsError s object.now code message.now status t) }
    ensures descriptors { Did place.old.kept.held result place.new.kept.held (λ s status t. Conserves kept_by_server s [] [] t) }
{
    let Some(mut session) = place.take(alloc) else {
        return Status::NoSession.code();
    };
    let status = session.post_error(object, code, message);
    place.put(session);
    status.code()
}
