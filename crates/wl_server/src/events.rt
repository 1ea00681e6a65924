//! Calls that send events: `send_event`, and `post_error`, which ends with one.

/// `post_error`.
pub mod post_error;
/// `send_event` and `send_event_lent`.
pub mod send;
