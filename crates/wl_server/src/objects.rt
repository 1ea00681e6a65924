//! Calls that create, destroy and change an object of a client.

/// `create_object`.
pub mod create;
/// `create_object_at`.
pub mod create_at;
/// `set_object_data`, and `with_object_data`, which changes them in place.
pub mod data;
/// `destroy_object`.
pub mod destroy;
/// `set_object_limit`.
pub mod limit;
/// `set_object_version`.
pub mod version;
