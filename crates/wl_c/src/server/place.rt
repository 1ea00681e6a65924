//! Where a server's session lives between two calls.

ghost use Rattle.std.specs.Prelude.{IsSome, MatchOption, None, Option, Some, ◌≡◌, ◌↔◌};

use super::kept::ServerKept;
use std::alloc::Global;
use std::mem;
use wl_host::Server;

/// The state of a place without a session. Memory of zeros is such a place.
const EMPTY: u64 = 0;

/// The state of a place that holds a session.
const HOLDS: u64 = 1;

/// Memory of C for a server's session: zeros at first, and then what the calls leave there.
///
/// C does not copy it, and gives it to one call at a time.
#[repr(C)]
#[derive(Drop)]
pub struct ServerPlace {
    /// Whether there is a session.
    state: u64,
    /// The session.
    pub kept: ServerKept,
    ghost fits: { (state ≡ 1) ↔ IsSome kept.held },
}

impl ServerPlace {
    /// A place without a session.
    fn empty() -> ServerPlace
        ensures { result.kept.held ≡ None }
    {
        ServerPlace {
            state: EMPTY,
            kept: ServerKept::nothing(),
        }
    }

    /// A place that holds this session.
    fn holding(session: Box<Server>) -> ServerPlace
        ensures { result.kept.held ≡ Some session.value }
    {
        ServerPlace {
            state: HOLDS,
            kept: ServerKept::of(session),
        }
    }

    /// Takes the session out, if there is one. The place is empty then.
    pub fn take(&mut self, alloc: Global) -> Option<Box<Server>>
        ensures taken { MatchOption result (self.old.kept.held ≡ None) (λ session. self.old.kept.held ≡ Some session.value) }
        ensures empty { self.new.kept.held ≡ None }
    {
        let ServerPlace { state, kept } = mem::replace(self, ServerPlace::empty());
        if state != HOLDS {
            return None;
        }
        Some(kept.session(alloc))
    }

    /// Puts a session into an empty place.
    pub fn put(&mut self, session: Box<Server>)
        requires { self.old.kept.held ≡ None }
        ensures { self.new.kept.held ≡ Some session.value }
    {
        *self = ServerPlace::holding(session);
    }
}
