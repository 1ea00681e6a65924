//! How much waits in a client's session.

ghost use Rattle.std.specs.Prelude.{None, Ok, ◌≡◌, ◌≢◌};
ghost use Rattle.wl_c.specs.Calls.{Found};
ghost use Rattle.wl_flat.specs.Waiting.{waiting_on};

use super::place::ClientPlace;
use crate::answer::write_answer;
use std::alloc::Global;
use wl_host::{Status, Waiting};

/// Writes how much waits.
#[unsafe(no_mangle)]
pub extern "C" fn nb_client_waiting(
    alloc: Global,
    place: &mut ClientPlace,
    waiting: &mut Waiting,
) -> u32
    ensures none { place.old.kept.held ≡ None → (result ≡ 1) × (place.new.kept.held ≡ None) × (waiting.new ≡ waiting.old) }
    ensures kept { place.new.kept.held ≡ place.old.kept.held }
    ensures unwritten { result ≢ 0 → waiting.new ≡ waiting.old }
    ensures answer { Found place.old.kept.held result waiting.old waiting.new (λ s answer. answer ≡ Ok (waiting_on s.core.session.link)) }
{
    let Some(session) = place.take(alloc) else {
        return Status::NoSession.code();
    };
    let answer = session.waiting();
    place.put(session);
    write_answer(answer, waiting)
}
