//! Notes: a *note* tells the program what happened to a client or an object (`Note`).
//!
//! A note is *made* when something happens. `take_notes` hands out the notes that were made. Some notes of destroyed
//! objects *wait* first, until the next cleanup makes them. Until they are *gathered* in one list of the server, notes
//! are kept with their client.

/// The objects of a client that leaves: they are moved out, and notes of their end are made.
pub mod leaving;
/// The notes of one client, and the numbers that order them.
pub mod queues;
/// Takes the notes of one client, one by one.
pub mod take_note;

use crate::ids::client_id::ClientId;
use crate::ids::object_id::ObjectId;
use wl_wire::ProtocolError;

/// Why a client was killed.
///
/// It stands for `wayland_backend::server::DisconnectReason`.
#[derive(Debug, Drop)]
pub enum DisconnectReason {
    /// The connection is closed.
    ConnectionClosed,
    /// The client was killed for this error in its use of the protocol.
    ProtocolError(ProtocolError),
}

/// What happened to a client or to one of its objects. `take_notes` hands notes out.
///
/// The notes stand for the calls `ClientData::initialized`, `ClientData::disconnected` and `ObjectData::destroyed` of
/// `wayland_backend::server`.
#[derive(Debug, Drop)]
pub enum Note<U> {
    /// The client was inserted.
    Initialized(ClientId),
    /// The client was killed, for this reason.
    Disconnected(ClientId, DisconnectReason),
    /// An object of the client is gone. It had this user data.
    Destroyed(ClientId, ObjectId, U),
}

/// What happened to a client or to one of its objects, without the id of the client.
#[derive(Drop)]
pub enum Happening<U> {
    /// The client was inserted.
    Initialized,
    /// The client was killed, for this reason.
    Disconnected(DisconnectReason),
    /// An object of the client is gone. It had this user data.
    Destroyed(ObjectId, U),
}
