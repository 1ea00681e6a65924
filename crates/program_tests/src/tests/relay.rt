//! The tests of the relay: lines of what came from both sides, and what is written for them.

mod drill;
mod lines;
