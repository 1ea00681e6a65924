//! Events: which ones are refused, how one is sent, and which ones the server sends by itself.

/// Whether an event may be sent.
pub mod check;
/// The events of displays and callbacks that the server sends by itself: `error`, `delete_id`, `done`.
pub mod own_events;
/// Tells a client of an error on an object, and kills it: `post_error`, and breaches of the protocol.
pub mod post_error;
/// An event of the program.
pub mod send;
