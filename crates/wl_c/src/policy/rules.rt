//! The rules of a policy.

ghost use Rattle.std.specs.Prelude.{IsSome, None, ◌≡◌};
ghost use Rattle.wl_c.specs.Queues.{Answered};
ghost use Rattle.wl_flat.specs.Guards.{Allows, Ignores, Refuses};

use super::place::PolicyPlace;
use crate::answer::number_of;
use std::alloc::Global;
use wl_host::Status;

/// Allows globals of the interface of this name, up to this version.
#[unsafe(no_mangle)]
pub extern "C" fn nb_policy_allow(
    alloc: Global,
    place: &mut PolicyPlace,
    interface: &[u8],
    version: u32,
) -> u32
    ensures none { place.old.kept.held ≡ None → (result ≡ 1) × (place.new.kept.held ≡ None) }
    ensures stays { IsSome place.old.kept.held → IsSome place.new.kept.held }
    ensures call { Answered place.old.kept.held result place.new.kept.held (λ p answer r. Allows interface.now version p answer r) }
{
    let Some(mut policy) = place.take(alloc) else {
        return Status::NoSession.code();
    };
    let answer = policy.allow(interface, version);
    place.put(policy);
    number_of(answer)
}

/// Says that the request of this name ends the connection.
#[unsafe(no_mangle)]
pub extern "C" fn nb_policy_refuse(
    alloc: Global,
    place: &mut PolicyPlace,
    interface: &[u8],
    request: &[u8],
) -> u32
    ensures none { place.old.kept.held ≡ None → (result ≡ 1) × (place.new.kept.held ≡ None) }
    ensures stays { IsSome place.old.kept.held → IsSome place.new.kept.held }
    ensures call { Answered place.old.kept.held result place.new.kept.held (λ p answer r. Refuses interface.now request.now p answer r) }
{
    let Some(mut policy) = place.take(alloc) else {
        return Status::NoSession.code();
    };
    let answer = policy.refuse(interface, request);
    place.put(policy);
    number_of(answer)
}

/// Says that the request of this name is dropped.
#[unsafe(no_mangle)]
pub extern "C" fn nb_policy_ignore(
    alloc: Global,
    place: &mut PolicyPlace,
    interface: &[u8],
    request: &[u8],
) -> u32
    ensures none { place.old.kept.held ≡ None → (result ≡ 1) × (place.new.kept.held ≡ None) }
    ensures stays { IsSome place.old.kept.held → IsSome place.new.kept.held }
    ensures call { Answered place.old.kept.held result place.new.kept.held (λ p answer r. Ignores interface.now request.now p answer r) }
{
    let Some(mut policy) = place.take(alloc) else {
        return Status::NoSession.code();
    };
    let answer = policy.ignore(interface, request);
    place.put(policy);
    number_of(answer)
}
