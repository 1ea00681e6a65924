//! What goes through a guard.

ghost use Rattle.std.specs.Prelude.{IsSome, None, Option, Some, ◌≡◌, ◌≢◌};
ghost use Rattle.wl_c.specs.Calls.{Did, Gave, Told};
ghost use Rattle.wl_flat.specs.Guards.{Frees, Receives, Sends, copied_for};
ghost use Rattle.wl_flat.specs.declared.guards.Policy.{Policy};

use super::place::GuardPlace;
use crate::answer::write_answer;
use crate::policy::PolicyPlace;
use std::alloc::Global;
use wl_host::{Counts, Policy, Status};

/// Takes what was received from a side, and passes what the policy of the other place allows. That place may be empty, too.
#[unsafe(no_mangle)]
pub extern "C" fn nb_guard_received(
    alloc: Global,
    place: &mut GuardPlace,
    policy: &mut PolicyPlace,
    side: u32,
    bytes: &[u8],
    descriptors: &[i32],
) -> u32
    ensures none { place.old.kept.held ≡ None → (result ≡ 1) × (place.new.kept.held ≡ None) }
    ensures no_policy { policy.old.kept.held ≡ None → (result ≡ 1) × (place.new.kept.held ≡ place.old.kept.held) }
    ensures stays { IsSome place.old.kept.held → IsSome place.new.kept.held }
    ensures policy { policy.new.kept.held ≡ policy.old.kept.held }
    ensures call { (p : Policy) → policy.old.kept.held ≡ Some p → Did place.old.kept.held result place.new.kept.held (λ g status h. Receives p side bytes.now descriptors.now g status h) }
{
    let Some(rules) = policy.take(alloc) else {
        return Status::NoSession.code();
    };
    let status = received_by(alloc, place, &rules, side, bytes, descriptors);
    policy.put(rules);
    status
}

/// Takes what was received from a side, and passes what the policy allows.
fn received_by(
    alloc: Global,
    place: &mut GuardPlace,
    rules: &Policy,
    side: u32,
    bytes: &[u8],
    descriptors: &[i32],
) -> u32
    ensures none { place.old.kept.held ≡ None → (result ≡ 1) × (place.new.kept.held ≡ None) }
    ensures stays { IsSome place.old.kept.held → IsSome place.new.kept.held }
    ensures call { Did place.old.kept.held result place.new.kept.held (λ g status h. Receives rules.now side bytes.now descriptors.now g status h) }
{
    let Some(mut guard) = place.take(alloc) else {
        return Status::NoSession.code();
    };
    let status = guard.received(alloc, rules, side, bytes, descriptors);
    place.put(guard);
    status.code()
}

/// Copies what is to be sent to a side. It stays until `nb_guard_sent` says that it was sent.
#[unsafe(no_mangle)]
pub extern "C" fn nb_guard_to_send(
    alloc: Global,
    place: &mut GuardPlace,
    side: u32,
    bytes: &mut [u8],
    descriptors: &mut [i32],
    counts: &mut Counts,
) -> u32
    ensures none { place.old.kept.held ≡ None → (result ≡ 1) × (place.new.kept.held ≡ None) × (bytes.new ≡ bytes.old) × (descriptors.new ≡ descriptors.old) × (counts.new ≡ counts.old) }
    ensures kept { place.new.kept.held ≡ place.old.kept.held }
    ensures counts { Told place.old.kept.held result (λ g status. counts.new ≡ (copied_for side g bytes.old descriptors.old counts.old).counts) }
    ensures bytes { Told place.old.kept.held result (λ g status. bytes.new ≡ (copied_for side g bytes.old descriptors.old counts.old).bytes) }
    ensures descriptors { Told place.old.kept.held result (λ g status. descriptors.new ≡ (copied_for side g bytes.old descriptors.old counts.old).descriptors) }
    ensures status { Told place.old.kept.held result (λ g status. status ≡ (copied_for side g bytes.old descriptors.old counts.old).status) }
{
    let Some(guard) = place.take(alloc) else {
        return Status::NoSession.code();
    };
    let status = guard.to_send(side, bytes, descriptors, counts);
    place.put(guard);
    status.code()
}

/// Says that so many bytes were sent to a side, and with the first of them the descriptors.
#[unsafe(no_mangle)]
pub extern "C" fn nb_guard_sent(alloc: Global, place: &mut GuardPlace, side: u32, count: u32) -> u32
    ensures none { place.old.kept.held ≡ None → (result ≡ 1) × (place.new.kept.held ≡ None) }
    ensures stays { IsSome place.old.kept.held → IsSome place.new.kept.held }
    ensures call { Did place.old.kept.held result place.new.kept.held (λ g status h. Sends side count g status h) }
{
    let Some(mut guard) = place.take(alloc) else {
        return Status::NoSession.code();
    };
    let status = guard.sent(side, count);
    place.put(guard);
    status.code()
}

/// Hands out the next descriptor that does not go on. The host closes it.
#[unsafe(no_mangle)]
pub extern "C" fn nb_guard_next_released(
    alloc: Global,
    place: &mut GuardPlace,
    descriptor: &mut i32,
) -> u32
    ensures none { place.old.kept.held ≡ None → (result ≡ 1) × (place.new.kept.held ≡ None) × (descriptor.new ≡ descriptor.old) }
    ensures stays { IsSome place.old.kept.held → IsSome place.new.kept.held }
    ensures unwritten { result ≢ 0 → descriptor.new ≡ descriptor.old }
    ensures call { Gave place.old.kept.held result descriptor.old descriptor.new place.new.kept.held (λ g answer h. Frees g answer h) }
{
    let Some(mut guard) = place.take(alloc) else {
        return Status::NoSession.code();
    };
    let answer = guard.next_released();
    place.put(guard);
    write_answer(answer, descriptor)
}
