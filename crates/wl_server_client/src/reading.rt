//! Reads the messages of a client up to an action, and finishes actions.
//!
//! A *reading* is one call of `next_action`, or of one of the three calls like it. It handles messages, and receives more, until it finds an
//! action or has nothing left to read. An *action* is a request or a bind that is handed out to the program, or a new registry, if the
//! program wants to tell registries of globals by itself.

/// `Action` and `OpenAction`; `Reading`: how much may be read; and what a reading or a message came to.
pub mod action;
/// The arguments of a request: numbers become ids, and a new id makes an object.
pub mod arguments;
/// The requests to a display: `sync` and `get_registry`.
pub mod display_request;
/// The loop of a reading: it handles messages, and receives more.
pub mod find_action;
/// The end of an action.
pub mod finish;
/// The request at the front of the incoming buffer, before it is read.
pub mod front_request;
/// Takes the message at the front off the buffer, and handles it.
pub mod handle_message;
/// Hands out most requests where they stand in the buffer, without reading them into a message.
pub mod in_place;
/// The limit of objects: whether a request goes beyond it.
pub mod limit;
/// The requests to objects that are neither displays nor registries.
pub mod object_request;
/// The place in which a client keeps its open action.
pub mod open_place;
/// The request to a registry: `bind`.
pub mod registry_request;
/// Handles a request by the kind of its object: a display, a registry, or any other.
pub mod request;
/// How a client broke the protocol by a request, and what is left to do: to answer, or to kill the client.
pub mod response;
/// How a client broke the protocol by a message, which is kept where it is killed for that.
pub mod violation;

use crate::globals::KeptGlobal;
use crate::ids::client_id::ClientId;
use wl_link::ObjectMap;
use wl_wire::Protocol;

/// What a reading needs to know in addition to its client's own state.
#[derive(Drop)]
pub struct Surroundings<'a, G> {
    /// The table of interfaces.
    pub protocol: &'a Protocol,
    /// The globals of the server.
    pub globals: &'a ObjectMap<KeptGlobal<G>>,
    /// The id of the client.
    pub client: ClientId,
    /// The greatest number at which a request may make an object, if there is a limit.
    pub object_limit: Option<u32>,
    /// Whether a registry that the client asks for is handed out.
    pub hands_registries: bool,
}
