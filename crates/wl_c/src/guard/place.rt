//! Where a guard lives between two calls.

ghost use Rattle.std.specs.Prelude.{IfSome, IsSome, MatchOption, None, Ok, Option, Some, ◌≡◌, ◌↔◌};

use super::kept::GuardKept;
use std::alloc::Global;
use std::mem;
use wl_host::Guard;
use wl_wire::OutOfMemory;

/// The state of a place without a guard. Memory of zeros is such a place.
const EMPTY: u64 = 0;

/// The state of a place that holds a guard.
const HOLDS: u64 = 1;

/// Memory of C for a guard: zeros at first, and then what the calls leave there.
///
/// C does not copy it, and gives it to one call at a time.
#[repr(C)]
#[derive(Drop)]
pub struct GuardPlace {
    /// Whether there is a guard.
    state: u64,
    /// The guard.
    pub kept: GuardKept,
    ghost fits: { (state ≡ 1) ↔ IsSome kept.held },
}

impl GuardPlace {
    /// A place without a guard.
    fn empty() -> GuardPlace
        ensures { result.kept.held ≡ None }
    {
        GuardPlace {
            state: EMPTY,
            kept: GuardKept::nothing(),
        }
    }

    /// A place that holds this guard.
    fn holding(guard: Box<Guard>) -> GuardPlace
        ensures { result.kept.held ≡ Some guard.value }
    {
        GuardPlace {
            state: HOLDS,
            kept: GuardKept::of(guard),
        }
    }

    /// Takes the guard out, if there is one. The place is empty then.
    pub fn take(&mut self, alloc: Global) -> Option<Box<Guard>>
        ensures taken { MatchOption result (self.old.kept.held ≡ None) (λ guard. self.old.kept.held ≡ Some guard.value) }
        ensures empty { self.new.kept.held ≡ None }
    {
        let GuardPlace { state, kept } = mem::replace(self, GuardPlace::empty());
        if state != HOLDS {
            return None;
        }
        Some(kept.guard(alloc))
    }

    /// Puts a guard into an empty place.
    pub fn put(&mut self, guard: Box<Guard>)
        requires { self.old.kept.held ≡ None }
        ensures { self.new.kept.held ≡ Some guard.value }
    {
        *self = GuardPlace::holding(guard);
    }
}

/// Puts what was made into a box of its own. `None`: there is no memory for either.
///
/// It knows nothing of a guard, so the proof has no case for each field that a refusal drops.
pub fn in_box<T: Drop>(alloc: Global, made: Result<T, OutOfMemory>) -> Option<Box<T>>
    ensures { IfSome result (λ place. made ≡ Ok place.value) }
{
    match Box::new(alloc, made.ok()?) {
        Ok(place) => Some(place),
        Err(_) => None,
    }
}
