//! A guard in a box, behind a pointer that C may keep.

ghost use Rattle.std.specs.Prelude.{IsSome, None, Option, Some, ◌≡◌};
ghost use Rattle.std.specs.contracts.option.Option as option;
ghost use Rattle.wl_flat.specs.contracts.guards.Guard as guard;
ghost use Rattle.wl_flat.specs.declared.guards.Guard.{Guard};

use crate::parts::Parts;
use std::alloc::Global;
use std::marker::{Model, Send};
use std::ptr;
use wl_host::Guard;

/// Nothing, or a guard in a box. C keeps the pointer to it, and follows it never.
///
/// It owns the box: `held` is the value in it. A drop frees nothing, so the box is taken out first.
#[repr(C)]
#[derive(Drop)]
pub struct GuardKept {
    /// Where the guard lies. The type has no name in C.
    at: *mut u8,
    /// The guard.
    pub ghost held: { Option Guard } by { (option.the_row guard.the_row).coded },
}

impl Model for GuardKept {
    ghost use Rattle.wl_c.specs.Held.{owns_held};
    ghost use Rattle.wl_flat.specs.contracts.guards.Guard.{the_row};

    ghost also_owns = { λ kept. owns_held the_row kept.at kept.held };
}

impl GuardKept {
    /// Nothing.
    pub fn nothing() -> GuardKept
        ensures { result.held ≡ None }
    {
        GuardKept {
            at: ptr::null_mut(),
        }
    }

    /// Keeps the box that these are the parts of.
    fn pack(parts: Parts<Guard, Global>) -> GuardKept
        ensures { result.held ≡ Some parts.value }
    {
        let Parts { at, handle: _ } = parts;
        GuardKept { at: at as *mut u8 }
    }

    /// The parts of the box that is kept.
    fn unpack(self, handle: Global) -> Parts<Guard, Global>
        requires { IsSome self.held }
        ensures { self.held ≡ Some result.value }
    {
        let GuardKept { at } = self;
        Parts {
            at: at as *mut Guard,
            handle,
        }
    }

    /// Keeps the box.
    pub fn of(guard: Box<Guard>) -> GuardKept
        ensures { result.held ≡ Some guard.value }
    {
        GuardKept::pack(Parts::of(guard))
    }

    /// The box that is kept.
    pub fn guard(self, handle: Global) -> Box<Guard>
        requires { IsSome self.held }
        ensures { self.held ≡ Some result.value }
    {
        self.unpack(handle).whole()
    }
}

// A guard may go to another thread, and any thread may free its block.
unsafe impl Send for GuardKept {}
