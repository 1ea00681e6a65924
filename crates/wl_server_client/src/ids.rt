//! The ids of clients, objects and globals.

/// `ClientId`.
pub mod client_id;
/// `GlobalId` and `GlobalInfo`.
pub mod global_id;
/// `ObjectId`, and how the ids in an event become numbers.
pub mod object_id;
