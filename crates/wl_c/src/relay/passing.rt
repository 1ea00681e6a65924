//! What goes through a relay, and the lines of its log.

ghost use Rattle.std.specs.Prelude.{IsSome, None, ◌≡◌};
ghost use Rattle.wl_c.specs.Calls.{Did};
ghost use Rattle.wl_host_relay.specs.Relays.{Copies, Receives, Sends, TellsLine};

use super::place::RelayPlace;
use std::alloc::Global;
use wl_host::{Counts, Status};

/// Takes what was received from a side, and logs and hands on all that is whole.
#[unsafe(no_mangle)]
pub extern "C" fn nb_relay_received(
    alloc: Global,
    place: &mut RelayPlace,
    side: u32,
    bytes: &[u8],
    descriptors: &[i32],
) -> u32
    ensures none { place.old.kept.held ≡ None → (result ≡ 1) × (place.new.kept.held ≡ None) }
    ensures stays { IsSome place.old.kept.held → IsSome place.new.kept.held }
    ensures call { Did place.old.kept.held result place.new.kept.held (λ r status s. Receives side bytes.now descriptors.now r.core status s.core) }
{
    let Some(mut relay) = place.take(alloc) else {
        return Status::NoSession.code();
    };
    let status = relay.received(alloc, side, bytes, descriptors);
    place.put(relay);
    status.code()
}

/// Copies what is to be sent to a side next. It stays until `nb_relay_sent` says that it was sent.
#[unsafe(no_mangle)]
pub extern "C" fn nb_relay_to_send(
    alloc: Global,
    place: &mut RelayPlace,
    side: u32,
    bytes: &mut [u8],
    descriptors: &mut [i32],
    counts: &mut Counts,
) -> u32
    ensures none { place.old.kept.held ≡ None → (result ≡ 1) × (place.new.kept.held ≡ None) × (bytes.new ≡ bytes.old) × (descriptors.new ≡ descriptors.old) × (counts.new ≡ counts.old) }
    ensures stays { IsSome place.old.kept.held → IsSome place.new.kept.held }
    ensures call { Did place.old.kept.held result place.new.kept.held (λ r status s. Copies side r.core bytes.old descriptors.old counts.old (record { status = status; bytes = bytes.new; descriptors = descriptors.new; counts = counts.new }) s.core) }
{
    let Some(mut relay) = place.take(alloc) else {
        return Status::NoSession.code();
    };
    let status = relay.to_send(side, bytes, descriptors, counts);
    place.put(relay);
    status.code()
}

/// Says that so many bytes were sent to a side, and with the first of them the descriptors.
#[unsafe(no_mangle)]
pub extern "C" fn nb_relay_sent(alloc: Global, place: &mut RelayPlace, side: u32, count: u32) -> u32
    ensures none { place.old.kept.held ≡ None → (result ≡ 1) × (place.new.kept.held ≡ None) }
    ensures stays { IsSome place.old.kept.held → IsSome place.new.kept.held }
    ensures call { Did place.old.kept.held result place.new.kept.held (λ r status s. Sends side count r.core status s.core) }
{
    let Some(mut relay) = place.take(alloc) else {
        return Status::NoSession.code();
    };
    let status = relay.sent(side, count);
    place.put(relay);
    status.code()
}

/// Takes the first line of the log out, and writes it and how many bytes it has. If there is less room, it stays, and only the number
/// is written.
#[unsafe(no_mangle)]
pub extern "C" fn nb_relay_next_line(
    alloc: Global,
    place: &mut RelayPlace,
    text: &mut [u8],
    size: &mut usize,
) -> u32
    ensures none { place.old.kept.held ≡ None → (result ≡ 1) × (place.new.kept.held ≡ None) × (text.new ≡ text.old) × (size.new ≡ size.old) }
    ensures stays { IsSome place.old.kept.held → IsSome place.new.kept.held }
    ensures call { Did place.old.kept.held result place.new.kept.held (λ r status s. TellsLine r.core text.old size.old (record { status = status; text = text.new; size = size.new }) s.core) }
{
    let Some(mut relay) = place.take(alloc) else {
        return Status::NoSession.code();
    };
    let status = relay.next_line(text, size);
    place.put(relay);
    status.code()
}
