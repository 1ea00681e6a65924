//! One client, as a server of the Wayland protocol holds it: its connection, its objects by id, its open action and its notes.
//!
//! The crate `wl_server` holds many of these, and is what programs use. It gives the types here under their names again. A method
//! of [`client::Client`] does to one client what a call of the server does, after the server has looked the client up.
//!
//! `specs/Part` has what is held of a client. The files beside it say what each method does to that, in the words with which
//! `wl_server` says it of the whole server. `specs/Inside/` has what only the functions here say to each other, and to `wl_server`.
//!
//! The `ghost use` lines at the top of a file name the files in which the words of its contracts are defined:
//! `Rattle.wl_server_client.specs.Part` is `specs/Part.antt`, and `Rattle.wl_link.specs.Link` is that file of the crate `wl_link`.
#![tactic(auto)]

/// What is kept of a client; how one is made, killed and flushed.
pub mod client;
/// The errors that calls of a server return.
pub mod error;
/// Events: which ones are refused, how one is sent, and those that the server sends by itself.
pub mod events;
/// Globals, as far as one client has to do with them: how one is found, and what a registry is told.
pub mod globals;
/// The ids of clients, objects and globals.
pub mod ids;
/// Laws of ids.
pub mod laws;
/// The notes of a client.
pub mod notes;
/// The objects of a client.
pub mod objects;
/// The texts of the errors that a client is killed for, and the error that its note gives.
pub mod posted_errors;
/// Reads the requests of a client up to an action, and ends actions.
pub mod reading;
