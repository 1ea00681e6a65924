//! Notes of all clients. The page of the module `notes` of `wl_server_client` says what a note is.

/// `cleanup`: killed clients leave, and notes that wait are made.
pub mod cleanup;
/// Puts the notes of all clients into one list.
pub mod gather;
/// `take_notes`.
pub mod take;
