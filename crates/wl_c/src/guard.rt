//! A guard for C: its place, and the calls of `nb_guard_`.
//!
//! | Calls | File |
//! |---|---|
//! | `new`, `end`, `hang_up`, `how_ended` | `whole` |
//! | `received`, `to_send`, `sent`, `next_released` | `passing` |

mod kept;
mod passing;
mod place;
mod whole;

pub use place::GuardPlace;
