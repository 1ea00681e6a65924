//! The sessions for C: a place for each session in memory that C owns, and an exported function for each call of
//! `embed/numbyroga.h`.
//!
//! A *place* is 16 bytes of C's, with zeros in them at first ([`server::ServerPlace`], [`client::ClientPlace`]). `nb_server_new` and
//! `nb_client_connect` put a session there, `nb_server_end` and `nb_client_end` take it away. Each other call takes the
//! session out, calls its method of `wl_host` or `wl_host_relay`, and puts it back before it returns. So a call on an empty place, or within a
//! call on the same place, answers `NB_NO_SESSION`. Queues of events have such a place, too ([`queues::QueuesPlace`]), and so
//! have a policy and a guard ([`policy::PolicyPlace`], [`guard::GuardPlace`]), and a relay ([`relay::RelayPlace`]). `nb_guard_received`
//! alone takes two places.
//!
//! `nb_version`, `nb_read_signature` and the calls of `nb_readers_` alone take no place. All that another call does is done by the method of the same name. The contract of an
//! export says what becomes of the place, what is written where the call is refused, and in the clauses of the method what the
//! call does:
//!
//! | Clause | What it says |
//! |---|---|
//! | `none` | An empty place answers `NB_NO_SESSION`, stays empty, and nothing is written. |
//! | `stays` | A session that was there is there after the call. |
//! | `kept` | A look-up changes nothing that is held. |
//! | `unwritten` | What is answered is written only where the status is `NB_OK`. |
//! | `in_use`, `begun` | A session begins only in an empty place, and exactly where the status is `NB_OK`. |
//! | `ended` | The place is empty after the end. |
//! | those of the method | What the method says, of the session that the place held and the one that it holds after. `specs/Calls` has the words. |
#![tactic(auto)]

mod answer;
mod boxed;
pub mod client;
pub mod guard;
mod parts;
pub mod policy;
pub mod queues;
mod readers;
pub mod relay;
pub mod server;
mod signatures;
mod sizes;
mod threads;
mod version;
