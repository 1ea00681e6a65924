//! Runs of a server in which each receive, each send and each allocation fails in turn.
//!
//! A run is a list of `Entry`s, each a call by `replay`, but where values count their drops (`refused`).

mod drill;
mod drills;
mod faults;
mod full;
mod notes;
mod refused;
