//! A relay in a box, behind a pointer that C may keep.

ghost use Rattle.std.specs.Prelude.{IsSome, None, Option, Some, ◌≡◌};
ghost use Rattle.std.specs.contracts.option.Option as option;
ghost use Rattle.wl_host_relay.specs.contracts.relay.Relay as relay;
ghost use Rattle.wl_host_relay.specs.declared.relay.Relay.{Relay};

use crate::parts::Parts;
use std::alloc::Global;
use std::marker::{Model, Send};
use std::ptr;
use wl_host_relay::Relay;

/// Nothing, or a relay in a box. C keeps the pointer to it, and follows it never.
///
/// It owns the box: `held` is the value in it. A drop frees nothing, so the box is taken out first.
#[repr(C)]
#[derive(Drop)]
pub struct RelayKept {
    /// Where the relay lies. The type has no name in C.
    at: *mut u8,
    /// The relay.
    pub ghost held: { Option Relay } by { (option.the_row relay.the_row).coded },
}

impl Model for RelayKept {
    ghost use Rattle.wl_c.specs.Held.{owns_held};
    ghost use Rattle.wl_host_relay.specs.contracts.relay.Relay.{the_row};

    ghost also_owns = { λ kept. owns_held the_row kept.at kept.held };
}

impl RelayKept {
    /// Nothing.
    pub fn nothing() -> RelayKept
        ensures { result.held ≡ None }
    {
        RelayKept {
            at: ptr::null_mut(),
        }
    }

    /// Keeps the box that these are the parts of.
    fn pack(parts: Parts<Relay, Global>) -> RelayKept
        ensures { result.held ≡ Some parts.value }
    {
        let Parts { at, handle: _ } = parts;
        RelayKept { at: at as *mut u8 }
    }

    /// The parts of the box that is kept.
    fn unpack(self, handle: Global) -> Parts<Relay, Global>
        requires { IsSome self.held }
        ensures { self.held ≡ Some result.value }
    {
        let RelayKept { at } = self;
        Parts {
            at: at as *mut Relay,
            handle,
        }
    }

    /// Keeps the box.
    pub fn of(relay: Box<Relay>) -> RelayKept
        ensures { result.held ≡ Some relay.value }
    {
        RelayKept::pack(Parts::of(relay))
    }

    /// The box that is kept.
    pub fn relay(self, handle: Global) -> Box<Relay>
        requires { IsSome self.held }
        ensures { self.held ≡ Some result.value }
    {
        self.unpack(handle).whole()
    }
}

// A relay may go to another thread, and any thread may free its block.
unsafe impl Send for RelayKept {}
