//! A place may go to another thread between two calls: a session may, and any thread may free its memory.
//!
//! C has to see to it that one call is over before the next begins on another thread: by a lock, by the start or the end of a
//! thread, or by an atomic. The functions here are called by nobody. That they are proved is what this file is for.

use crate::client::ClientPlace;
use crate::guard::GuardPlace;
use crate::policy::PolicyPlace;
use crate::queues::QueuesPlace;
use crate::relay::RelayPlace;
use crate::server::ServerPlace;
use std::marker::Send;

fn to_another_thread<T: Send>(value: T) -> T {
    value
}

/// A server's session goes to another thread.
pub fn move_server(place: ServerPlace) -> ServerPlace {
    to_another_thread(place)
}

/// A client's session goes to another thread.
pub fn move_client(place: ClientPlace) -> ClientPlace {
    to_another_thread(place)
}

/// Queues of events go to another thread.
pub fn move_queues(place: QueuesPlace) -> QueuesPlace {
    to_another_thread(place)
}

/// A policy goes to another thread.
pub fn move_policy(place: PolicyPlace) -> PolicyPlace {
    to_another_thread(place)
}

/// A guard goes to another thread.
pub fn move_guard(place: GuardPlace) -> GuardPlace {
    to_another_thread(place)
}

/// A relay goes to another thread.
pub fn move_relay(place: RelayPlace) -> RelayPlace {
    to_another_thread(place)
}
