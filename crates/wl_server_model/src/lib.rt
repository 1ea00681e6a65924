//! What a server of the Wayland protocol is and does: its calls as values, the definitions of each, and lemmas about runs of them.
//!
//! The crate `wl_server` is the server; its contracts are said in the words of `specs/`. `specs/Server` has what a server holds.
//! `specs/PartStep` has one line for each call, which says what the call does to what is held of one client; `specs/Steps` says
//! what it does to the whole server, and `specs/Runs` what a run of calls does. The other files have the words of the laws that
//! `wl_server::laws` promises, and `specs/Plain` with its folder what a program finds after a call. `specs/Inside/` has what only
//! the functions of `wl_server` say to each other. `proofs/` has the lemmas, by topic: `OverRuns` those of the laws.
#![tactic(auto)]

/// Calls as values, and what each answers.
pub mod step;
