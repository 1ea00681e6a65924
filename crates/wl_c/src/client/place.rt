//! Where a client's session lives between two calls.

ghost use Rattle.std.specs.Prelude.{IsSome, MatchOption, None, Option, Some, ◌≡◌, ◌↔◌};

use super::kept::ClientKept;
use std::alloc::Global;
use std::mem;
use wl_host::Client;

/// The state of a place without a session. Memory of zeros is such a place.
const EMPTY: u64 = 0;

/// The state of a place that holds a session.
const HOLDS: u64 = 1;

/// Memory of C for a client's session: zeros at first, and then what the calls leave there.
///
/// C does not copy it, and gives it to one call at a time.
#[repr(C)]
#[derive(Drop)]
pub struct ClientPlace {
    /// Whether there is a session.
    state: u64,
    /// The session.
    pub kept: ClientKept,
    ghost fits: { (state ≡ 1) ↔ IsSome kept.held },
}

impl ClientPlace {
    /// A place without a session.
    fn empty() -> ClientPlace
        ensures { result.kept.held ≡ None }
    {
        ClientPlace {
            state: EMPTY,
            kept: ClientKept::nothing(),
        }
    }

    /// A place that holds this session.
    fn holding(session: Box<Client>) -> ClientPlace
        ensures { result.kept.held ≡ Some session.value }
    {
        ClientPlace {
            state: HOLDS,
            kept: ClientKept::of(session),
        }
    }

    /// Takes the session out, if there is one. The place is empty then.
    pub fn take(&mut self, alloc: Global) -> Option<Box<Client>>
        ensures taken { MatchOption result (self.old.kept.held ≡ None) (λ session. self.old.kept.held ≡ Some session.value) }
        ensures empty { self.new.kept.held ≡ None }
    {
        let ClientPlace { state, kept } = mem::replace(self, ClientPlace::empty());
        if state != HOLDS {
            return None;
        }
        Some(kept.session(alloc))
    }

    /// Puts a session into an empty place.
    pub fn put(&mut self, session: Box<Client>)
        requires { self.old.kept.held ≡ None }
        ensures { self.new.kept.held ≡ Some session.value }
    {
        *self = ClientPlace::holding(session);
    }
}
