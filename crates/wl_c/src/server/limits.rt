//! Limits that the host sets for all clients of a server's session.

ghost use Rattle.std.specs.Prelude.{IsSome, None, [], ◌≡◌};
ghost use Rattle.wl_c.specs.Calls.{Did};
ghost use Rattle.wl_host.specs.Calls.{world};
ghost use Rattle.wl_flat.specs.Descriptors.{Conserves};
ghost use Rattle.wl_host.specs.Limits.{object_limit_of};
ghost use Rattle.wl_host.specs.Server.{kept_by_server};
ghost use Rattle.wl_server_model.specs.Backend.{Calls};
ghost use Rattle.wl_server_model.specs.declared.step.Reply.TheVariants as reply;
ghost use Rattle.wl_server_model.specs.declared.step.Step.TheVariants as step;

use super::place::ServerPlace;
use std::alloc::Global;
use wl_host::Status;

/// Sets how many objects each client may have. At 0 there is no limit.
#[unsafe(no_mangle)]
pub extern "C" fn nb_server_set_object_limit(
    alloc: Global,
    place: &mut ServerPlace,
    limit: u32,
) -> u32
    ensures none { place.old.kept.held ≡ None → (result ≡ 1) × (place.new.kept.held ≡ None) }
    ensures stays { IsSome place.old.kept.held → IsSome place.new.kept.held }
    ensures call { Did place.old.kept.held result place.new.kept.held (λ s status t. Calls world s.core (step.SetObjectLimit (object_limit_of limit)) reply.SetObjectLimit t.core) }
    ensures beside { Did place.old.kept.held result place.new.kept.held (λ s status t. t ≡ record s { core = t.core }) }
    ensures descriptors { Did place.old.kept.held result place.new.kept.held (λ s status t. Conserves kept_by_server s [] [] t) }
    ensures status { IsSome place.old.kept.held → result ≡ 0 }
{
    let Some(mut session) = place.take(alloc) else {
        return Status::NoSession.code();
    };
    let status = session.set_object_limit(limit);
    place.put(session);
    status.code()
}
