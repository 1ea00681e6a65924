//! A relay for C: its place, and the calls of `nb_relay_`.
//!
//! | Calls | File |
//! |---|---|
//! | `new`, `end` | `whole` |
//! | `received`, `to_send`, `sent`, `next_line` | `passing` |

mod kept;
mod passing;
mod place;
mod whole;

pub use place::RelayPlace;
