//! A relay for a program in another language, the *host*: `wl_relay::Relay`, with numbers, lent memory and descriptors in place of
//! enums, lists and tokens. What the host gives and gets stands in `wl_flat`.
//!
//! The definitions stand in `specs/`: `Relays`.
#![tactic(auto)]

mod relay;
mod sides;

pub use relay::{Relay, mode_of};
pub use wl_relay::Mode;
