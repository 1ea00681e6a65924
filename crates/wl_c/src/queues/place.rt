//! Where queues of events live between two calls.

ghost use Rattle.std.specs.Prelude.{IfSome, IsSome, MatchOption, None, Ok, Option, Some, ◌≡◌, ◌↔◌};

use super::kept::QueuesKept;
use std::alloc::{AllocError, Global};
use std::mem;
use wl_host::EventQueues;

/// The state of a place without queues. Memory of zeros is such a place.
const EMPTY: u64 = 0;

/// The state of a place that holds queues.
const HOLDS: u64 = 1;

/// Memory of C for queues of events: zeros at first, and then what the calls leave there.
///
/// C does not copy it, and gives it to one call at a time.
#[repr(C)]
#[derive(Drop)]
pub struct QueuesPlace {
    /// Whether there are queues.
    state: u64,
    /// The queues.
    pub kept: QueuesKept,
    ghost fits: { (state ≡ 1) ↔ IsSome kept.held },
}

impl QueuesPlace {
    /// A place without queues.
    fn empty() -> QueuesPlace
        ensures { result.kept.held ≡ None }
    {
        QueuesPlace {
            state: EMPTY,
            kept: QueuesKept::nothing(),
        }
    }

    /// A place that holds these queues.
    fn holding(queues: Box<EventQueues>) -> QueuesPlace
        ensures { result.kept.held ≡ Some queues.value }
    {
        QueuesPlace {
            state: HOLDS,
            kept: QueuesKept::of(queues),
        }
    }

    /// Takes the queues out, if there are some. The place is empty then.
    pub fn take(&mut self, alloc: Global) -> Option<Box<EventQueues>>
        ensures taken { MatchOption result (self.old.kept.held ≡ None) (λ queues. self.old.kept.held ≡ Some queues.value) }
        ensures empty { self.new.kept.held ≡ None }
    {
        let QueuesPlace { state, kept } = mem::replace(self, QueuesPlace::empty());
        if state != HOLDS {
            return None;
        }
        Some(kept.queues(alloc))
    }

    /// Puts queues into an empty place.
    pub fn put(&mut self, queues: Box<EventQueues>)
        requires { self.old.kept.held ≡ None }
        ensures { self.new.kept.held ≡ Some queues.value }
    {
        *self = QueuesPlace::holding(queues);
    }
}

/// Puts what was made into a box of its own. `None`: there is no memory for either.
///
/// It knows nothing of queues, so the proof has no case for each field that a refusal drops.
pub fn in_box<T: Drop>(alloc: Global, made: Result<T, AllocError>) -> Option<Box<T>>
    ensures { IfSome result (λ place. made ≡ Ok place.value) }
{
    match Box::new(alloc, made.ok()?) {
        Ok(place) => Some(place),
        Err(_) => None,
    }
}
