//! A guard: it stands between a Wayland client and its compositor, and lets through what a policy allows.
//!
//! | Subject | Code | Definitions, in `specs/` |
//! |---|---|---|
//! | what a client may do | `policy` | `Policy` |
//! | what is known of a session | `session` | `Known` |
//! | which requests may be made, what the client is told, and what becomes of each message | `session` | `Requests`, `Events`, `Passages`, `Steps`, `Fates` |
//! | how a connection ends | `ending` | `Ends` |
//! | what waits on both ways | `bytes`, `inbox`, `outbox` | `Queues` |
//! | the guard | `guard` | `Guard` |
//! | calls one after another | `laws` | `Closure`, `Runs` |
#![tactic(auto)]

mod bytes;
mod ending;
mod guard;
mod inbox;
pub mod laws;
mod outbox;
mod policy;
mod session;

pub use ending::{Breach, End};
pub use guard::{ArriveError, Guard};
pub use policy::{Entry, Limits, Policy, PolicyError};
pub use session::Rule;
pub use wl_follow::Side;
