//! Callers of `wl_server` and `wl_client`, proved from the public contracts of these crates alone.
//!
//! Each module has one function that a program might have, with the contract that its user wants. `README.md` says what
//! each contract says, and which to read first.
#![tactic(auto)]

pub mod announcement;
pub mod data;
pub mod destruction;
pub mod ending;
pub mod finishing;
pub mod labels;
pub mod proxy;
