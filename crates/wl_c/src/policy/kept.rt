//! A policy in a box, behind a pointer that C may keep.

ghost use Rattle.std.specs.Prelude.{IsSome, None, Option, Some, ◌≡◌};
ghost use Rattle.std.specs.contracts.option.Option as option;
ghost use Rattle.wl_flat.specs.contracts.guards.Policy as policy;
ghost use Rattle.wl_flat.specs.declared.guards.Policy.{Policy};

use crate::parts::Parts;
use std::alloc::Global;
use std::marker::{Model, Send};
use std::ptr;
use wl_host::Policy;

/// Nothing, or a policy in a box. C keeps the pointer to it, and follows it never.
///
/// It owns the box: `held` is the value in it. A drop frees nothing, so the box is taken out first.
#[repr(C)]
#[derive(Drop)]
pub struct PolicyKept {
    /// Where the policy lies. The type has no name in C.
    at: *mut u8,
    /// The policy.
    pub ghost held: { Option Policy } by { (option.the_row policy.the_row).coded },
}

impl Model for PolicyKept {
    ghost use Rattle.wl_c.specs.Held.{owns_held};
    ghost use Rattle.wl_flat.specs.contracts.guards.Policy.{the_row};

    ghost also_owns = { λ kept. owns_held the_row kept.at kept.held };
}

impl PolicyKept {
    /// Nothing.
    pub fn nothing() -> PolicyKept
        ensures { result.held ≡ None }
    {
        PolicyKept {
            at: ptr::null_mut(),
        }
    }

    /// Keeps the box that these are the parts of.
    fn pack(parts: Parts<Policy, Global>) -> PolicyKept
        ensures { result.held ≡ Some parts.value }
    {
        let Parts { at, handle: _ } = parts;
        PolicyKept { at: at as *mut u8 }
    }

    /// The parts of the box that is kept.
    fn unpack(self, handle: Global) -> Parts<Policy, Global>
        requires { IsSome self.held }
        ensures { self.held ≡ Some result.value }
    {
        let PolicyKept { at } = self;
        Parts {
            at: at as *mut Policy,
            handle,
        }
    }

    /// Keeps the box.
    pub fn of(policy: Box<Policy>) -> PolicyKept
        ensures { result.held ≡ Some policy.value }
    {
        PolicyKept::pack(Parts::of(policy))
    }

    /// The box that is kept.
    pub fn policy(self, handle: Global) -> Box<Policy>
        requires { IsSome self.held }
        ensures { self.held ≡ Some result.value }
    {
        self.unpack(handle).whole()
    }
}

// A policy may go to another thread, and any thread may free its block.
unsafe impl Send for PolicyKept {}
