//! The tests of `wl-bench run`: lines that drive a server, and what is printed.

mod bad;
pub mod calls;
mod dispatches;
mod drill;
