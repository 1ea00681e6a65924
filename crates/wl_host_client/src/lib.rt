//! A client's session of the Wayland protocol for a program in another language, the *host*: `wl_client::Backend` over a mailbox
//! (`wl_link::Mailbox`), with which file descriptor is whose. What the host gives and gets stands in `wl_flat`.
//!
//! The definitions stand in `specs/`: `Client`, `Faults`, `Tables` and `Allowed`.
#![tactic(auto)]

mod client;

pub use client::Client;
