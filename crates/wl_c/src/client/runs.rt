//! Which messages that arrived a client's session is to have together.

ghost use Rattle.std.specs.Prelude.{None, Ok, ◌≡◌, ◌≢◌};
ghost use Rattle.wl_c.specs.Calls.{Found};
ghost use Rattle.wl_host_client.specs.Runs.{next_run};

use super::place::ClientPlace;
use crate::answer::write_answer;
use std::alloc::Global;
use wl_host::{FlatRun, Status};

/// Writes which messages at the front of what arrived the session is to have together.
#[unsafe(no_mangle)]
pub extern "C" fn nb_client_next_run(
    alloc: Global,
    place: &mut ClientPlace,
    bytes: &[u8],
    descriptors: u32,
    run: &mut FlatRun,
) -> u32
    ensures none { place.old.kept.held ≡ None → (result ≡ 1) × (place.new.kept.held ≡ None) × (run.new ≡ run.old) }
    ensures kept { place.new.kept.held ≡ place.old.kept.held }
    ensures unwritten { result ≢ 0 → run.new ≡ run.old }
    ensures answer { Found place.old.kept.held result run.old run.new (λ s answer. answer ≡ Ok (next_run s.core bytes.now descriptors)) }
{
    let Some(session) = place.take(alloc) else {
        return Status::NoSession.code();
    };
    let answer = session.next_run(bytes, descriptors);
    place.put(session);
    write_answer(Ok(answer), run)
}
