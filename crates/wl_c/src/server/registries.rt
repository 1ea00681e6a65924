//! Registries that are handed out to the host.

ghost use Rattle.std.specs.Prelude.{IsSome, None, [], not, ◌==◌, ◌≡◌};
ghost use Rattle.wl_c.specs.Calls.{Did};
ghost use Rattle.wl_host.specs.Calls.{world};
ghost use Rattle.wl_flat.specs.Descriptors.{Conserves};
ghost use Rattle.wl_flat.specs.Flat.{global_of, resource_of};
ghost use Rattle.wl_host.specs.Registries.{Announces, Withdraws};
ghost use Rattle.wl_host.specs.Server.{kept_by_server};
ghost use Rattle.wl_server_model.specs.Backend.{Calls};
ghost use Rattle.wl_server_model.specs.declared.step.Reply.TheVariants as reply;
ghost use Rattle.wl_server_model.specs.declared.step.Step.TheVariants as step;

use super::place::ServerPlace;
use std::alloc::Global;
use wl_host::{FlatGlobalId, FlatObjectId, Status};

/// Hands out the registries that clients ask for, or no longer.
#[unsafe(no_mangle)]
pub extern "C" fn nb_server_hand_out_registries(
    alloc: Global,
    place: &mut ServerPlace,
    hand_out: u32,
) -> u32
    ensures none { place.old.kept.held ≡ None → (result ≡ 1) × (place.new.kept.held ≡ None) }
    ensures stays { IsSome place.old.kept.held → IsSome place.new.kept.held }
    ensures call { Did place.old.kept.held result place.new.kept.held (λ s status t. Calls world s.core (step.HandOutRegistries (not (hand_out == 0))) reply.HandOutRegistries t.core) }
    ensures beside { Did place.old.kept.held result place.new.kept.held (λ s status t. t ≡ record s { core = t.core }) }
    ensures descriptors { Did place.old.kept.held result place.new.kept.held (λ s status t. Conserves kept_by_server s [] [] t) }
    ensures status { IsSome place.old.kept.held → result ≡ 0 }
{
    let Some(mut session) = place.take(alloc) else {
        return Status::NoSession.code();
    };
    let status = session.hand_out_registries(hand_out);
    place.put(session);
    status.code()
}

/// Tells a registry that was handed out of a global.
#[unsafe(no_mangle)]
pub extern "C" fn nb_server_announce_global(
    alloc: Global,
    place: &mut ServerPlace,
    registry: &FlatObjectId,
    global: &FlatGlobalId,
) -> u32
    ensures none { place.old.kept.held ≡ None → (result ≡ 1) × (place.new.kept.held ≡ None) }
    ensures stays { IsSome place.old.kept.held → IsSome place.new.kept.held }
    ensures call { Did place.old.kept.held result place.new.kept.held (λ s status t. Announces s (resource_of registry.now) (global_of global.now) status t) }
    ensures descriptors { Did place.old.kept.held result place.new.kept.held (λ s status t. Conserves kept_by_server s [] [] t) }
{
    let Some(mut session) = place.take(alloc) else {
        return Status::NoSession.code();
    };
    let status = session.announce_global(registry, global);
    place.put(session);
    status.code()
}

/// Tells each registry that was told of a global that it is removed.
#[unsafe(no_mangle)]
pub extern "C" fn nb_server_withdraw_global(
    alloc: Global,
    place: &mut ServerPlace,
    global: &FlatGlobalId,
) -> u32
    ensures none { place.old.kept.held ≡ None → (result ≡ 1) × (place.new.kept.held ≡ None) }
    ensures stays { IsSome place.old.kept.held → IsSome place.new.kept.held }
    ensures call { Did place.old.kept.held result place.new.kept.held (λ s status t. Withdraws s (global_of global.now) status t) }
    ensures descriptors { Did place.old.kept.held result place.new.kept.held (λ s status t. Conserves kept_by_server s [] [] t) }
{
    let Some(mut session) = place.take(alloc) else {
        return Status::NoSession.code();
    };
    let status = session.withdraw_global(global);
    place.put(session);
    status.code()
}
