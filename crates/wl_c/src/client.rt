//! A client's session for C: its place, and the calls of `nb_client_`.
//!
//! | Calls | File |
//! |---|---|
//! | `connect`, `end`, `add_interfaces`, `extend_interfaces`, `memory_refused`, the limits, `pass_over_unknown_senders`, `refuse_nulls`, `last_error` | `session` |
//! | `tell_messages`, `next_told` | `telling` |
//! | `join_interface` | `joining` |
//! | `next_run` | `runs` |
//! | `received`, `next_event`, `finish_event`, `send_request`, .. | `events` |
//! | `display`, `object_data`, .. | `objects` |
//! | `flush`, `to_send`, `sent`, `next_note`, `keep_freed`, `next_freed`, `next_dropped` | `sending` |
//! | `waiting` | `waiting` |

mod events;
mod joining;
mod kept;
mod objects;
mod place;
mod runs;
mod sending;
mod session;
mod telling;
mod waiting;

pub use place::ClientPlace;
