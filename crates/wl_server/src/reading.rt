//! The calls that read the requests of a client, and those that finish actions.
//!
//! The page of the module `reading` of `wl_server_client` says what a *reading* and an *action* are.

/// `finish_request` and `finish_bind`, and both `_returning`.
pub mod finish;
/// `next_action` and `next_action_within`, and both `_into`.
pub mod next_action;
