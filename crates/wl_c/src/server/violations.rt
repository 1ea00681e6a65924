//! How a server's client broke the protocol.

ghost use Rattle.std.specs.Prelude.{None, option_map, ◌≡◌, ◌≢◌};
ghost use Rattle.wl_c.specs.Calls.{Found};
ghost use Rattle.wl_host.specs.Calls.{or_invalid};
ghost use Rattle.wl_flat.specs.Flat.{client_of};
ghost use Rattle.wl_host.specs.Violations.{flat_violation};
ghost use Rattle.wl_server_model.specs.Lookups.{violation_of};

use super::place::ServerPlace;
use crate::answer::write_answer;
use std::alloc::Global;
use wl_host::{FlatClientId, FlatViolation, Status};

/// Writes how a client broke the protocol, if it was killed for a message.
#[unsafe(no_mangle)]
pub extern "C" fn nb_server_violation(
    alloc: Global,
    place: &mut ServerPlace,
    client: &FlatClientId,
    violation: &mut FlatViolation,
) -> u32
    ensures none { place.old.kept.held ≡ None → (result ≡ 1) × (place.new.kept.held ≡ None) × (violation.new ≡ violation.old) }
    ensures kept { place.new.kept.held ≡ place.old.kept.held }
    ensures unwritten { result ≢ 0 → violation.new ≡ violation.old }
    ensures answer { Found place.old.kept.held result violation.old violation.new (λ s answer. answer ≡ or_invalid (option_map flat_violation (violation_of s.core.server (client_of client.now)))) }
{
    let Some(session) = place.take(alloc) else {
        return Status::NoSession.code();
    };
    let answer = session.violation(client);
    place.put(session);
    write_answer(answer, violation)
}
