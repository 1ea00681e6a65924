//! A guard as a whole: its begin, its end, and how its connection ended.

ghost use Rattle.std.specs.Prelude.{IsSome, None, Ok, Some, ◌↔◌, ◌≡◌, ◌≢◌};
ghost use Rattle.wl_c.specs.Calls.{Did, Found};
ghost use Rattle.wl_guard.specs.Guard.{new_guard};
ghost use Rattle.wl_flat.specs.Guards.{HangsUp, flat_end};
ghost use Rattle.wl_flat.specs.declared.guards.Guard.{Guard};

use super::place::{GuardPlace, in_box};
use crate::answer::write_answer;
use std::alloc::Global;
use wl_host::{FlatEnd, Guard, Status};

/// Makes a guard in an empty place, of a connection on which nothing was said. A place that holds a guard keeps it, and the status is
/// `NB_IN_USE`.
#[unsafe(no_mangle)]
pub extern "C" fn nb_guard_new(alloc: Global, place: &mut GuardPlace) -> u32
    ensures in_use { IsSome place.old.kept.held → (result ≡ 2) × (place.new.kept.held ≡ place.old.kept.held) }
    ensures begun { place.old.kept.held ≡ None → (result ≡ 0) ↔ IsSome place.new.kept.held }
    ensures made { (g : Guard) → place.old.kept.held ≡ None → place.new.kept.held ≡ Some g → g.core ≡ new_guard }
    ensures refused { place.old.kept.held ≡ None → place.new.kept.held ≡ None → result ≡ 3 }
{
    if let Some(guard) = place.take(alloc) {
        place.put(guard);
        return Status::InUse.code();
    }
    match in_box(alloc, Guard::new(alloc)) {
        Some(guard) => {
            place.put(guard);
            Status::Ok.code()
        }
        None => Status::OutOfMemory.code(),
    }
}

/// Ends the guard, and frees its memory. Descriptors that it has are the host's, and stay open. The place is empty then, and may be begun
/// again.
#[unsafe(no_mangle)]
pub extern "C" fn nb_guard_end(alloc: Global, place: &mut GuardPlace) -> u32
    ensures none { place.old.kept.held ≡ None → result ≡ 1 }
    ensures some { IsSome place.old.kept.held → result ≡ 0 }
    ensures ended { place.new.kept.held ≡ None }
{
    match place.take(alloc) {
        Some(_) => Status::Ok.code(),
        None => Status::NoSession.code(),
    }
}

/// Ends the connection, since a side has hung up. One that has ended stays as it is.
#[unsafe(no_mangle)]
pub extern "C" fn nb_guard_hang_up(alloc: Global, place: &mut GuardPlace) -> u32
    ensures none { place.old.kept.held ≡ None → (result ≡ 1) × (place.new.kept.held ≡ None) }
    ensures stays { IsSome place.old.kept.held → IsSome place.new.kept.held }
    ensures call { Did place.old.kept.held result place.new.kept.held (λ g status h. HangsUp g h) }
    ensures status { IsSome place.old.kept.held → result ≡ 0 }
{
    let Some(mut guard) = place.take(alloc) else {
        return Status::NoSession.code();
    };
    guard.hang_up();
    place.put(guard);
    Status::Ok.code()
}

/// Writes how the connection ended, if it has.
#[unsafe(no_mangle)]
pub extern "C" fn nb_guard_how_ended(
    alloc: Global,
    place: &mut GuardPlace,
    end: &mut FlatEnd,
) -> u32
    ensures none { place.old.kept.held ≡ None → (result ≡ 1) × (place.new.kept.held ≡ None) × (end.new ≡ end.old) }
    ensures kept { place.new.kept.held ≡ place.old.kept.held }
    ensures unwritten { result ≢ 0 → end.new ≡ end.old }
    ensures answer { Found place.old.kept.held result end.old end.new (λ g answer. answer ≡ Ok (flat_end g.core.end)) }
{
    let Some(guard) = place.take(alloc) else {
        return Status::NoSession.code();
    };
    let answer = guard.how_ended();
    place.put(guard);
    write_answer(Ok(answer), end)
}
