//! The clients of a server, by slot: the calls that insert, kill, flush and limit them, and how one is found.
//!
//! The page of the module `client` of `wl_server_client` says which clients are *stored* and *live*, and what a *slot* is.

/// `flush` sends what waits.
pub mod flush;
/// `flush_client` also says whether more waits.
pub mod flush_client;
/// `insert_client`, and `next_client_id`: the id that it gives next.
pub mod insert;
/// `kill_client`.
pub mod kill;
/// How far the buffers of one client may grow, and those of clients that are inserted later.
pub mod limits;
/// Finds a stored client by its id, to change it, and marks it as touched, but for `transport_mut`.
pub mod stored;
/// Which clients may have something to send, may have notes, or may have been killed.
pub mod touched;
/// `transport_mut`.
pub mod transport;

use wl_server_client::client::Client;

/// The clients by slot, which is an index of 32 bits. `None` is a free slot.
pub type Slots<T, U, C> = Vec<Option<Client<T, U, C>>>;
