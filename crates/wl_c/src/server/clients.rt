//! The clients of a server's session, and what is received from them.

ghost use Rattle.std.specs.Prelude.{IsSome, None, [], map, option_map, ◌≡◌, ◌≢◌};
ghost use Rattle.wl_c.specs.Calls.{Did, Found, Gave, Told};
ghost use Rattle.wl_host.specs.Calls.{InsertsClient, TellsNextClient, or_invalid, world};
ghost use Rattle.wl_host.specs.Clients.{inserted, marked};
ghost use Rattle.wl_flat.specs.Descriptors.{Conserves};
ghost use Rattle.wl_flat.specs.Flat.{client_of, flat_client};
ghost use Rattle.wl_host.specs.Lists.{Lists};
ghost use Rattle.wl_host.specs.Server.{Ends, FailsSends, Received, kept_by_server, went_in};
ghost use Rattle.wl_flat.specs.declared.status.Status.TheVariants as status;
ghost use Rattle.wl_link.specs.declared.mailbox.Ending.TheVariants as ending;
ghost use Rattle.wl_server_model.specs.Backend.{Calls};
ghost use Rattle.wl_server_model.specs.Lookups.{client_data_of, live_clients};
ghost use Rattle.wl_server_client.specs.declared.notes.DisconnectReason.TheVariants as reason;
ghost use Rattle.wl_server_model.specs.declared.step.Reply.TheVariants as reply;
ghost use Rattle.wl_server_model.specs.declared.step.Step.TheVariants as step;
ghost use Rattle.wl_wire.specs.declared.error.IoFault.TheVariants as fault;

use super::place::ServerPlace;
use crate::answer::write_answer;
use std::alloc::Global;
use wl_host::{FlatClientId, FlatGlobalId, Status};

/// Inserts a client with data of the program's. It sees the globals that share a bit of `groups`, but for those that are hidden:
/// by its list, or by theirs.
#[unsafe(no_mangle)]
pub extern "C" fn nb_server_insert_client(
    alloc: Global,
    place: &mut ServerPlace,
    user_data: u64,
    groups: u64,
    hidden: &[FlatGlobalId],
    client: &mut FlatClientId,
) -> u32
    ensures none { place.old.kept.held ≡ None → (result ≡ 1) × (place.new.kept.held ≡ None) × (client.new ≡ client.old) }
    ensures stays { IsSome place.old.kept.held → IsSome place.new.kept.held }
    ensures unwritten { result ≢ 0 → client.new ≡ client.old }
    ensures call { Gave place.old.kept.held result client.old client.new place.new.kept.held (λ s answer t. InsertsClient s.core user_data groups hidden.now answer t.core) }
    ensures beside { Gave place.old.kept.held result client.old client.new place.new.kept.held (λ s answer t. t ≡ inserted s t.core answer user_data) }
    ensures descriptors { Gave place.old.kept.held result client.old client.new place.new.kept.held (λ s answer t. Conserves kept_by_server s [] [] t) }
{
    let Some(mut session) = place.take(alloc) else {
        return Status::NoSession.code();
    };
    let answer = session.insert_client(user_data, groups, hidden);
    place.put(session);
    write_answer(answer, client)
}

/// Writes the program's data of a client.
#[unsafe(no_mangle)]
pub extern "C" fn nb_server_client_data(
    alloc: Global,
    place: &mut ServerPlace,
    client: &FlatClientId,
    user_data: &mut u64,
) -> u32
    ensures none { place.old.kept.held ≡ None → (result ≡ 1) × (place.new.kept.held ≡ None) × (user_data.new ≡ user_data.old) }
    ensures kept { place.new.kept.held ≡ place.old.kept.held }
    ensures unwritten { result ≢ 0 → user_data.new ≡ user_data.old }
    ensures answer { Found place.old.kept.held result user_data.old user_data.new (λ s answer. answer ≡ or_invalid (option_map (λ c. c.user_data) (client_data_of s.core.server (client_of client.now)))) }
{
    let Some(session) = place.take(alloc) else {
        return Status::NoSession.code();
    };
    let answer = session.client_data(client);
    place.put(session);
    write_answer(answer, user_data)
}

/// Lists the clients. `count` has their number, also where the list is too short for them.
#[unsafe(no_mangle)]
pub extern "C" fn nb_server_clients(
    alloc: Global,
    place: &mut ServerPlace,
    clients: &mut [FlatClientId],
    count: &mut u32,
) -> u32
    ensures none { place.old.kept.held ≡ None → (result ≡ 1) × (place.new.kept.held ≡ None) × (clients.new ≡ clients.old) × (count.new ≡ count.old) }
    ensures kept { place.new.kept.held ≡ place.old.kept.held }
    ensures answer { Told place.old.kept.held result (λ s status. Lists (map flat_client (live_clients s.core.server)) clients.old clients.new count.new status) }
{
    let Some(session) = place.take(alloc) else {
        return Status::NoSession.code();
    };
    let status = session.clients(clients, count);
    place.put(session);
    status.code()
}

/// Kills a client, as if its connection had ended. An unknown one is left alone.
#[unsafe(no_mangle)]
pub extern "C" fn nb_server_kill_client(
    alloc: Global,
    place: &mut ServerPlace,
    client: &FlatClientId,
) -> u32
    ensures none { place.old.kept.held ≡ None → (result ≡ 1) × (place.new.kept.held ≡ None) }
    ensures stays { IsSome place.old.kept.held → IsSome place.new.kept.held }
    ensures call { Did place.old.kept.held result place.new.kept.held (λ s status t. Calls world s.core (step.KillClient (client_of client.now) reason.ConnectionClosed) reply.KillClient t.core) }
    ensures beside { Did place.old.kept.held result place.new.kept.held (λ s status t. t ≡ marked s t.core) }
    ensures descriptors { Did place.old.kept.held result place.new.kept.held (λ s status t. Conserves kept_by_server s [] [] t) }
    ensures status { IsSome place.old.kept.held → result ≡ 0 }
{
    let Some(mut session) = place.take(alloc) else {
        return Status::NoSession.code();
    };
    let status = session.kill_client(client);
    place.put(session);
    status.code()
}

/// Takes what the host received from a client. The descriptors are the session's if, and only if, the status is `NB_OK`.
#[unsafe(no_mangle)]
pub extern "C" fn nb_server_received(
    alloc: Global,
    place: &mut ServerPlace,
    client: &FlatClientId,
    bytes: &[u8],
    descriptors: &[i32],
) -> u32
    ensures none { place.old.kept.held ≡ None → (result ≡ 1) × (place.new.kept.held ≡ None) }
    ensures stays { IsSome place.old.kept.held → IsSome place.new.kept.held }
    ensures arrived { Did place.old.kept.held result place.new.kept.held (λ s status t. Received s (client_of client.now) bytes.now descriptors.now status t) }
    ensures descriptors { Did place.old.kept.held result place.new.kept.held (λ s status t. Conserves kept_by_server s (went_in status descriptors.now) [] t) }
{
    let Some(mut session) = place.take(alloc) else {
        return Status::NoSession.code();
    };
    let status = session.received(client, bytes, descriptors);
    place.put(session);
    status.code()
}

/// Says that the client closed its connection. It is killed once all that came before is read.
#[unsafe(no_mangle)]
pub extern "C" fn nb_server_received_end(
    alloc: Global,
    place: &mut ServerPlace,
    client: &FlatClientId,
) -> u32
    ensures none { place.old.kept.held ≡ None → (result ≡ 1) × (place.new.kept.held ≡ None) }
    ensures stays { IsSome place.old.kept.held → IsSome place.new.kept.held }
    ensures call { Did place.old.kept.held result place.new.kept.held (λ s status t. Ends s (client_of client.now) ending.Ended status t) }
{
    let Some(mut session) = place.take(alloc) else {
        return Status::NoSession.code();
    };
    let status = session.received_end(client);
    place.put(session);
    status.code()
}

/// Says that receiving from a client failed with this number of the system.
#[unsafe(no_mangle)]
pub extern "C" fn nb_server_receive_failed(
    alloc: Global,
    place: &mut ServerPlace,
    client: &FlatClientId,
    number: i32,
) -> u32
    ensures none { place.old.kept.held ≡ None → (result ≡ 1) × (place.new.kept.held ≡ None) }
    ensures stays { IsSome place.old.kept.held → IsSome place.new.kept.held }
    ensures call { Did place.old.kept.held result place.new.kept.held (λ s status t. Ends s (client_of client.now) (ending.Failed (fault.Other number)) status t) }
{
    let Some(mut session) = place.take(alloc) else {
        return Status::NoSession.code();
    };
    let status = session.receive_failed(client, number);
    place.put(session);
    status.code()
}

/// Says that sending to a client failed. It is killed.
#[unsafe(no_mangle)]
pub extern "C" fn nb_server_send_failed(
    alloc: Global,
    place: &mut ServerPlace,
    client: &FlatClientId,
) -> u32
    ensures none { place.old.kept.held ≡ None → (result ≡ 1) × (place.new.kept.held ≡ None) }
    ensures stays { IsSome place.old.kept.held → IsSome place.new.kept.held }
    ensures call { Did place.old.kept.held result place.new.kept.held (λ s status t. FailsSends s (client_of client.now) status t) }
{
    let Some(mut session) = place.take(alloc) else {
        return Status::NoSession.code();
    };
    let status = session.send_failed(client);
    place.put(session);
    status.code()
}

/// Writes the id that the next client will have.
#[unsafe(no_mangle)]
pub extern "C" fn nb_server_next_client_id(
    alloc: Global,
    place: &mut ServerPlace,
    client: &mut FlatClientId,
) -> u32
    ensures none { place.old.kept.held ≡ None → (result ≡ 1) × (place.new.kept.held ≡ None) × (client.new ≡ client.old) }
    ensures kept { place.new.kept.held ≡ place.old.kept.held }
    ensures unwritten { result ≢ 0 → client.new ≡ client.old }
    ensures answer { Found place.old.kept.held result client.old client.new (λ s answer. TellsNextClient s.core answer) }
{
    let Some(session) = place.take(alloc) else {
        return Status::NoSession.code();
    };
    let answer = session.next_client_id();
    place.put(session);
    write_answer(answer, client)
}
