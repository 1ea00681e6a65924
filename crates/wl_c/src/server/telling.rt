//! The messages of clients of a server's session, and those to them, as they are told.

ghost use Rattle.std.specs.Prelude.{IsSome, None, [], ◌≡◌};
ghost use Rattle.wl_c.specs.Calls.{Did};
ghost use Rattle.wl_flat.specs.Descriptors.{Conserves};
ghost use Rattle.wl_flat.specs.Flat.{client_of};
ghost use Rattle.wl_host.specs.Server.{kept_by_server};
ghost use Rattle.wl_host.specs.Tellings.{NextTold};

use super::place::ServerPlace;
use std::alloc::Global;
use wl_host::{FlatArgument, FlatClientId, FlatTold, Status};

/// Tells the next message of a client, or to it. What it says of strings and arrays goes into `bytes`.
#[unsafe(no_mangle)]
pub extern "C" fn nb_server_next_told(
    alloc: Global,
    place: &mut ServerPlace,
    client: &FlatClientId,
    told: &mut FlatTold,
    arguments: &mut [FlatArgument],
    bytes: &mut [u8],
) -> u32
    ensures none { place.old.kept.held ≡ None → (result ≡ 1) × (place.new.kept.held ≡ None) × (told.new ≡ told.old) × (arguments.new ≡ arguments.old) × (bytes.new ≡ bytes.old) }
    ensures stays { IsSome place.old.kept.held → IsSome place.new.kept.held }
    ensures call { Did place.old.kept.held result place.new.kept.held (λ s status t. NextTold s (client_of client.now) (record { out = told.old; arguments = arguments.old; bytes = bytes.old }) status (record { out = told.new; arguments = arguments.new; bytes = bytes.new }) t) }
    ensures descriptors { Did place.old.kept.held result place.new.kept.held (λ s status t. Conserves kept_by_server s [] [] t) }
{
    let Some(mut session) = place.take(alloc) else {
        return Status::NoSession.code();
    };
    let status = session.next_told(client, told, arguments, bytes);
    place.put(session);
    status.code()
}
