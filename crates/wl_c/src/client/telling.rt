//! The messages of a client's session, as they are told.

ghost use Rattle.std.specs.Prelude.{IsSome, None, [], ◌≡◌};
ghost use Rattle.wl_c.specs.Calls.{Did};
ghost use Rattle.wl_host_client.specs.Client.{ConservesClient};
ghost use Rattle.wl_host_client.specs.ClientTellings.{NextTold, SetsTelling};
ghost use Rattle.wl_flat.specs.Nulls.{sets};

use super::place::ClientPlace;
use std::alloc::Global;
use wl_host::{FlatArgument, FlatTold, Status};

/// Sets whether the messages of the session are told: not if `is_on` is 0.
#[unsafe(no_mangle)]
pub extern "C" fn nb_client_tell_messages(alloc: Global, place: &mut ClientPlace, is_on: u32) -> u32
    ensures none { place.old.kept.held ≡ None → (result ≡ 1) × (place.new.kept.held ≡ None) }
    ensures stays { IsSome place.old.kept.held → IsSome place.new.kept.held }
    ensures set { Did place.old.kept.held result place.new.kept.held (λ s status t. SetsTelling (sets is_on) s status t) }
    ensures descriptors { Did place.old.kept.held result place.new.kept.held (λ s status t. ConservesClient s [] [] t) }
{
    let Some(mut session) = place.take(alloc) else {
        return Status::NoSession.code();
    };
    let status = session.tell_messages(is_on);
    place.put(session);
    status.code()
}

/// Tells the next message of the session. What it says of strings and arrays goes into `bytes`.
#[unsafe(no_mangle)]
pub extern "C" fn nb_client_next_told(
    alloc: Global,
    place: &mut ClientPlace,
    told: &mut FlatTold,
    arguments: &mut [FlatArgument],
    bytes: &mut [u8],
) -> u32
    ensures none { place.old.kept.held ≡ None → (result ≡ 1) × (place.new.kept.held ≡ None) × (told.new ≡ told.old) × (arguments.new ≡ arguments.old) × (bytes.new ≡ bytes.old) }
    ensures stays { IsSome place.old.kept.held → IsSome place.new.kept.held }
    ensures call { Did place.old.kept.held result place.new.kept.held (λ s status t. NextTold s (record { out = told.old; arguments = arguments.old; bytes = bytes.old }) status (record { out = told.new; arguments = arguments.new; bytes = bytes.new }) t) }
    ensures descriptors { Did place.old.kept.held result place.new.kept.held (λ s status t. ConservesClient s [] [] t) }
{
    let Some(mut session) = place.take(alloc) else {
        return Status::NoSession.code();
    };
    let status = session.next_told(told, arguments, bytes);
    place.put(session);
    status.code()
}
