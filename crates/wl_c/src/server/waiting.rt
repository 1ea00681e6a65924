//! How much waits for a client of a server's session.

ghost use Rattle.std.specs.Prelude.{None, ◌≡◌, ◌≢◌, option_map};
ghost use Rattle.wl_c.specs.Calls.{Found};
ghost use Rattle.wl_host.specs.Calls.{or_invalid};
ghost use Rattle.wl_flat.specs.Flat.{client_of};
ghost use Rattle.wl_flat.specs.Waiting.{waiting_on};
ghost use Rattle.wl_server_model.specs.Lookups.{client_of as stored_client};

use super::place::ServerPlace;
use crate::answer::write_answer;
use std::alloc::Global;
use wl_host::{FlatClientId, Status, Waiting};

/// Writes how much waits for a client, and of it.
#[unsafe(no_mangle)]
pub extern "C" fn nb_server_waiting(
    alloc: Global,
    place: &mut ServerPlace,
    client: &FlatClientId,
    waiting: &mut Waiting,
) -> u32
    ensures none { place.old.kept.held ≡ None → (result ≡ 1) × (place.new.kept.held ≡ None) × (waiting.new ≡ waiting.old) }
    ensures kept { place.new.kept.held ≡ place.old.kept.held }
    ensures unwritten { result ≢ 0 → waiting.new ≡ waiting.old }
    ensures answer { Found place.old.kept.held result waiting.old waiting.new (λ s answer. answer ≡ or_invalid (option_map (λ p. waiting_on p.link) (stored_client s.core.server (client_of client.now)))) }
{
    let Some(session) = place.take(alloc) else {
        return Status::NoSession.code();
    };
    let answer = session.waiting(client);
    place.put(session);
    write_answer(answer, waiting)
}
