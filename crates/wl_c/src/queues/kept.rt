//! Queues of events in a box, behind a pointer that C may keep.

ghost use Rattle.std.specs.Prelude.{IsSome, None, Option, Some, ◌≡◌};
ghost use Rattle.std.specs.contracts.option.Option as option;
ghost use Rattle.wl_flat.specs.contracts.event_queues.EventQueues as queues;
ghost use Rattle.wl_flat.specs.declared.event_queues.EventQueues.{EventQueues};

use crate::parts::Parts;
use std::alloc::Global;
use std::marker::{Model, Send};
use std::ptr;
use wl_host::EventQueues;

/// Nothing, or queues of events in a box. C keeps the pointer to it, and follows it never.
///
/// It owns the box: `held` is the value in it. A drop frees nothing, so the box is taken out first.
#[repr(C)]
#[derive(Drop)]
pub struct QueuesKept {
    /// Where the queues lie. The type has no name in C.
    at: *mut u8,
    /// The queues.
    pub ghost held: { Option EventQueues } by { (option.the_row queues.the_row).coded },
}

impl Model for QueuesKept {
    ghost use Rattle.wl_c.specs.Held.{owns_held};
    ghost use Rattle.wl_flat.specs.contracts.event_queues.EventQueues.{the_row};

    ghost also_owns = { λ kept. owns_held the_row kept.at kept.held };
}

impl QueuesKept {
    /// Nothing.
    pub fn nothing() -> QueuesKept
        ensures { result.held ≡ None }
    {
        QueuesKept {
            at: ptr::null_mut(),
        }
    }

    /// Keeps the box that these are the parts of.
    fn pack(parts: Parts<EventQueues, Global>) -> QueuesKept
        ensures { result.held ≡ Some parts.value }
    {
        let Parts { at, handle: _ } = parts;
        QueuesKept { at: at as *mut u8 }
    }

    /// The parts of the box that is kept.
    fn unpack(self, handle: Global) -> Parts<EventQueues, Global>
        requires { IsSome self.held }
        ensures { self.held ≡ Some result.value }
    {
        let QueuesKept { at } = self;
        Parts {
            at: at as *mut EventQueues,
            handle,
        }
    }

    /// Keeps the box.
    pub fn of(queues: Box<EventQueues>) -> QueuesKept
        ensures { result.held ≡ Some queues.value }
    {
        QueuesKept::pack(Parts::of(queues))
    }

    /// The box that is kept.
    pub fn queues(self, handle: Global) -> Box<EventQueues>
        requires { IsSome self.held }
        ensures { self.held ≡ Some result.value }
    {
        self.unpack(handle).whole()
    }
}

// Queues may go to another thread, and any thread may free its block.
unsafe impl Send for QueuesKept {}
