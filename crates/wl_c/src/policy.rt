//! A policy for C: its place, and the calls of `nb_policy_`.
//!
//! | Calls | File |
//! |---|---|
//! | `new`, `end` | `whole` |
//! | `allow`, `refuse`, `ignore` | `rules` |

mod kept;
mod place;
mod rules;
mod whole;

pub use place::PolicyPlace;
