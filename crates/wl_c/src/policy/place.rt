//! Where a policy lives between two calls.

ghost use Rattle.std.specs.Prelude.{IsSome, MatchOption, None, Option, Some, ◌≡◌, ◌↔◌};

use super::kept::PolicyKept;
use std::alloc::Global;
use std::mem;
use wl_host::Policy;

/// The state of a place without a policy. Memory of zeros is such a place.
const EMPTY: u64 = 0;

/// The state of a place that holds a policy.
const HOLDS: u64 = 1;

/// Memory of C for a policy: zeros at first, and then what the calls leave there.
///
/// C does not copy it, and gives it to one call at a time.
#[repr(C)]
#[derive(Drop)]
pub struct PolicyPlace {
    /// Whether there is a policy.
    state: u64,
    /// The policy.
    pub kept: PolicyKept,
    ghost fits: { (state ≡ 1) ↔ IsSome kept.held },
}

impl PolicyPlace {
    /// A place without a policy.
    fn empty() -> PolicyPlace
        ensures { result.kept.held ≡ None }
    {
        PolicyPlace {
            state: EMPTY,
            kept: PolicyKept::nothing(),
        }
    }

    /// A place that holds this policy.
    fn holding(policy: Box<Policy>) -> PolicyPlace
        ensures { result.kept.held ≡ Some policy.value }
    {
        PolicyPlace {
            state: HOLDS,
            kept: PolicyKept::of(policy),
        }
    }

    /// Takes the policy out, if there is one. The place is empty then.
    pub fn take(&mut self, alloc: Global) -> Option<Box<Policy>>
        ensures taken { MatchOption result (self.old.kept.held ≡ None) (λ policy. self.old.kept.held ≡ Some policy.value) }
        ensures empty { self.new.kept.held ≡ None }
    {
        let PolicyPlace { state, kept } = mem::replace(self, PolicyPlace::empty());
        if state != HOLDS {
            return None;
        }
        Some(kept.policy(alloc))
    }

    /// Puts a policy into an empty place.
    pub fn put(&mut self, policy: Box<Policy>)
        requires { self.old.kept.held ≡ None }
        ensures { self.new.kept.held ≡ Some policy.value }
    {
        *self = PolicyPlace::holding(policy);
    }
}
