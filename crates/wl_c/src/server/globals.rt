//! The globals of a server's session.

ghost use Rattle.std.specs.Prelude.{IsSome, None, OnErr, OnOk, [], not, option_map, ◌==◌, ◌≡◌, ◌≢◌};
ghost use Rattle.wl_c.specs.Calls.{Did, Found, Gave};
ghost use Rattle.wl_host.specs.Calls.{CreatesGlobal, TellsNextGlobal, flat_global_info, or_invalid, world};
ghost use Rattle.wl_flat.specs.Descriptors.{Conserves};
ghost use Rattle.wl_flat.specs.Flat.{client_of, global_of};
ghost use Rattle.wl_host.specs.Globals.{told_all};
ghost use Rattle.wl_host.specs.Server.{kept_by_server};
ghost use Rattle.wl_host.specs.Visibility.{sees};
ghost use Rattle.wl_flat.specs.declared.status.Status.TheVariants as status;
ghost use Rattle.wl_server_model.specs.Backend.{Calls};
ghost use Rattle.wl_server_model.specs.Lookups.{global_info_by, handler_of, name_for};
ghost use Rattle.wl_server_model.specs.declared.step.Reply.TheVariants as reply;
ghost use Rattle.wl_server_model.specs.declared.step.Step.TheVariants as step;

use super::place::ServerPlace;
use crate::answer::write_answer;
use std::alloc::Global;
use wl_host::{FlatClientId, FlatGlobalId, FlatGlobalInfo, Status};

/// Writes the id that the next global will have.
#[unsafe(no_mangle)]
pub extern "C" fn nb_server_next_global_id(
    alloc: Global,
    place: &mut ServerPlace,
    global: &mut FlatGlobalId,
) -> u32
    ensures none { place.old.kept.held ≡ None → (result ≡ 1) × (place.new.kept.held ≡ None) × (global.new ≡ global.old) }
    ensures kept { place.new.kept.held ≡ place.old.kept.held }
    ensures unwritten { result ≢ 0 → global.new ≡ global.old }
    ensures answer { Found place.old.kept.held result global.old global.new (λ s answer. TellsNextGlobal s.core answer) }
{
    let Some(session) = place.take(alloc) else {
        return Status::NoSession.code();
    };
    let answer = session.next_global_id();
    place.put(session);
    write_answer(answer, global)
}

/// Announces a global to the clients that share a bit of `groups`, but for those from which it is hidden: by its list, or by theirs.
#[unsafe(no_mangle)]
pub extern "C" fn nb_server_create_global(
    alloc: Global,
    place: &mut ServerPlace,
    interface: u32,
    version: u32,
    user_data: u64,
    groups: u64,
    hidden: &[FlatClientId],
    global: &mut FlatGlobalId,
) -> u32
    ensures none { place.old.kept.held ≡ None → (result ≡ 1) × (place.new.kept.held ≡ None) × (global.new ≡ global.old) }
    ensures stays { IsSome place.old.kept.held → IsSome place.new.kept.held }
    ensures unwritten { result ≢ 0 → global.new ≡ global.old }
    ensures call { Gave place.old.kept.held result global.old global.new place.new.kept.held (λ s answer t. CreatesGlobal s.core interface version user_data groups hidden.now answer t.core) }
    ensures told { Gave place.old.kept.held result global.old global.new place.new.kept.held (λ s answer t. OnOk answer (t ≡ told_all s t.core)) }
    ensures refused { Gave place.old.kept.held result global.old global.new place.new.kept.held (λ s answer t. OnErr answer (t ≡ record s { core = t.core })) }
    ensures descriptors { Gave place.old.kept.held result global.old global.new place.new.kept.held (λ s answer t. Conserves kept_by_server s [] [] t) }
{
    let Some(mut session) = place.take(alloc) else {
        return Status::NoSession.code();
    };
    let answer = session.create_global(interface, version, user_data, groups, hidden);
    place.put(session);
    write_answer(answer, global)
}

/// Withdraws a global from the clients. Binds that are on their way still find it.
#[unsafe(no_mangle)]
pub extern "C" fn nb_server_disable_global(
    alloc: Global,
    place: &mut ServerPlace,
    global: &FlatGlobalId,
) -> u32
    ensures none { place.old.kept.held ≡ None → (result ≡ 1) × (place.new.kept.held ≡ None) }
    ensures stays { IsSome place.old.kept.held → IsSome place.new.kept.held }
    ensures call { Did place.old.kept.held result place.new.kept.held (λ s status t. Calls world s.core (step.DisableGlobal (global_of global.now)) reply.DisableGlobal t.core) }
    ensures beside { Did place.old.kept.held result place.new.kept.held (λ s status t. t ≡ told_all s t.core) }
    ensures descriptors { Did place.old.kept.held result place.new.kept.held (λ s status t. Conserves kept_by_server s [] [] t) }
    ensures status { IsSome place.old.kept.held → result ≡ 0 }
{
    let Some(mut session) = place.take(alloc) else {
        return Status::NoSession.code();
    };
    let status = session.disable_global(global);
    place.put(session);
    status.code()
}

/// Removes a global. An unknown one is left alone.
#[unsafe(no_mangle)]
pub extern "C" fn nb_server_remove_global(
    alloc: Global,
    place: &mut ServerPlace,
    global: &FlatGlobalId,
) -> u32
    ensures none { place.old.kept.held ≡ None → (result ≡ 1) × (place.new.kept.held ≡ None) }
    ensures stays { IsSome place.old.kept.held → IsSome place.new.kept.held }
    ensures call { Did place.old.kept.held result place.new.kept.held (λ s status t. Calls world s.core (step.RemoveGlobal (global_of global.now)) reply.RemoveGlobal t.core) }
    ensures beside { Did place.old.kept.held result place.new.kept.held (λ s status t. t ≡ told_all s t.core) }
    ensures descriptors { Did place.old.kept.held result place.new.kept.held (λ s status t. Conserves kept_by_server s [] [] t) }
    ensures status { IsSome place.old.kept.held → result ≡ 0 }
{
    let Some(mut session) = place.take(alloc) else {
        return Status::NoSession.code();
    };
    let status = session.remove_global(global);
    place.put(session);
    status.code()
}

/// Sets whether the names of globals are kept.
#[unsafe(no_mangle)]
pub extern "C" fn nb_server_keep_global_names(
    alloc: Global,
    place: &mut ServerPlace,
    keep: u32,
) -> u32
    ensures none { place.old.kept.held ≡ None → (result ≡ 1) × (place.new.kept.held ≡ None) }
    ensures stays { IsSome place.old.kept.held → IsSome place.new.kept.held }
    ensures call { Did place.old.kept.held result place.new.kept.held (λ s status t. Calls world s.core (step.KeepGlobalNames (not (keep == 0))) reply.KeepGlobalNames t.core) }
    ensures beside { Did place.old.kept.held result place.new.kept.held (λ s status t. t ≡ record s { core = t.core }) }
    ensures descriptors { Did place.old.kept.held result place.new.kept.held (λ s status t. Conserves kept_by_server s [] [] t) }
    ensures status { IsSome place.old.kept.held → result ≡ 0 }
{
    let Some(mut session) = place.take(alloc) else {
        return Status::NoSession.code();
    };
    let status = session.keep_global_names(keep);
    place.put(session);
    status.code()
}

/// Writes the interface and the version of a global, and whether it is disabled.
#[unsafe(no_mangle)]
pub extern "C" fn nb_server_global_info(
    alloc: Global,
    place: &mut ServerPlace,
    global: &FlatGlobalId,
    info: &mut FlatGlobalInfo,
) -> u32
    ensures none { place.old.kept.held ≡ None → (result ≡ 1) × (place.new.kept.held ≡ None) × (info.new ≡ info.old) }
    ensures kept { place.new.kept.held ≡ place.old.kept.held }
    ensures unwritten { result ≢ 0 → info.new ≡ info.old }
    ensures answer { Found place.old.kept.held result info.old info.new (λ s answer. answer ≡ or_invalid (option_map flat_global_info (global_info_by s.core.server (global_of global.now)))) }
{
    let Some(session) = place.take(alloc) else {
        return Status::NoSession.code();
    };
    let answer = session.global_info(global);
    place.put(session);
    write_answer(answer, info)
}

/// Writes the program's data of a global.
#[unsafe(no_mangle)]
pub extern "C" fn nb_server_global_data(
    alloc: Global,
    place: &mut ServerPlace,
    global: &FlatGlobalId,
    user_data: &mut u64,
) -> u32
    ensures none { place.old.kept.held ≡ None → (result ≡ 1) × (place.new.kept.held ≡ None) × (user_data.new ≡ user_data.old) }
    ensures kept { place.new.kept.held ≡ place.old.kept.held }
    ensures unwritten { result ≢ 0 → user_data.new ≡ user_data.old }
    ensures answer { Found place.old.kept.held result user_data.old user_data.new (λ s answer. answer ≡ or_invalid (option_map (λ g. g.user_data) (handler_of s.core.server (global_of global.now)))) }
{
    let Some(session) = place.take(alloc) else {
        return Status::NoSession.code();
    };
    let answer = session.global_data(global);
    place.put(session);
    write_answer(answer, user_data)
}

/// Writes the name by which a client knows a global.
#[unsafe(no_mangle)]
pub extern "C" fn nb_server_global_name(
    alloc: Global,
    place: &mut ServerPlace,
    global: &FlatGlobalId,
    client: &FlatClientId,
    name: &mut u32,
) -> u32
    ensures none { place.old.kept.held ≡ None → (result ≡ 1) × (place.new.kept.held ≡ None) × (name.new ≡ name.old) }
    ensures kept { place.new.kept.held ≡ place.old.kept.held }
    ensures unwritten { result ≢ 0 → name.new ≡ name.old }
    ensures answer { Found place.old.kept.held result name.old name.new (λ s answer. answer ≡ or_invalid (name_for s.core.server sees (global_of global.now) (client_of client.now))) }
{
    let Some(session) = place.take(alloc) else {
        return Status::NoSession.code();
    };
    let answer = session.global_name(global, client);
    place.put(session);
    write_answer(answer, name)
}
