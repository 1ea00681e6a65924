//! Calls as values, and runs of them over transports by script.
//!
//! The *transport by script* is `wl_link::Memory`: what it receives and how it answers sends is given beforehand, by
//! calls of its own. A *run* is a list of calls, one after another.

/// `replay` carries out a run.
pub mod replay;
/// The calls of a transport by script, as steps of the server.
pub mod script;
