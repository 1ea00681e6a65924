//! Where a relay lives between two calls.

ghost use Rattle.std.specs.Prelude.{IsSome, MatchOption, None, Option, Some, ◌≡◌, ◌↔◌};

use super::kept::RelayKept;
use std::alloc::Global;
use std::mem;
use wl_host_relay::Relay;

/// The state of a place without a relay. Memory of zeros is such a place.
const EMPTY: u64 = 0;

/// The state of a place that holds a relay.
const HOLDS: u64 = 1;

/// Memory of C for a relay: zeros at first, and then what the calls leave there.
///
/// C does not copy it, and gives it to one call at a time.
#[repr(C)]
#[derive(Drop)]
pub struct RelayPlace {
    /// Whether there is a relay.
    state: u64,
    /// The relay.
    pub kept: RelayKept,
    ghost fits: { (state ≡ 1) ↔ IsSome kept.held },
}

impl RelayPlace {
    /// A place without a relay.
    fn empty() -> RelayPlace
        ensures { result.kept.held ≡ None }
    {
        RelayPlace {
            state: EMPTY,
            kept: RelayKept::nothing(),
        }
    }

    /// A place that holds this relay.
    fn holding(relay: Box<Relay>) -> RelayPlace
        ensures { result.kept.held ≡ Some relay.value }
    {
        RelayPlace {
            state: HOLDS,
            kept: RelayKept::of(relay),
        }
    }

    /// Takes the relay out, if there is one. The place is empty then.
    pub fn take(&mut self, alloc: Global) -> Option<Box<Relay>>
        ensures taken { MatchOption result (self.old.kept.held ≡ None) (λ relay. self.old.kept.held ≡ Some relay.value) }
        ensures empty { self.new.kept.held ≡ None }
    {
        let RelayPlace { state, kept } = mem::replace(self, RelayPlace::empty());
        if state != HOLDS {
            return None;
        }
        Some(kept.relay(alloc))
    }

    /// Puts a relay into an empty place.
    pub fn put(&mut self, relay: Box<Relay>)
        requires { self.old.kept.held ≡ None }
        ensures { self.new.kept.held ≡ Some relay.value }
    {
        *self = RelayPlace::holding(relay);
    }
}
