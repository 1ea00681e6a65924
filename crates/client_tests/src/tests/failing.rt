//! Runs of a client in which each receive, each send and each allocation fails in turn.
//!
//! A run is a list of `Call`s, each a step by `replay`.

mod drill;
mod drills;
mod no_memory;
mod refused;
mod transports;
