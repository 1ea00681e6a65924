//! A buffered connection to a peer, and the objects of a session by number.
//!
//! A [`BufferedSocket`] is a *link*: it keeps what waits to be sent and what was received, writes and reads messages, and
//! sends and receives over a [`Transport`]. An [`ObjectMap`] keeps the objects of a session. Both stand for the types of
//! the same names in the pure Rust backend of `wayland-backend`. A *token* is a number that stands for a file descriptor.
//! The page of this crate, `README.md`, has an example.
//!
//! | Calls | Code | Definitions, in `specs/` |
//! |---|---|---|
//! | of a `BufferedSocket` | `buffered_socket` | `Link`, `NothingLost` |
//! | of a `MessagePlace`, into which messages are read, and `clear_message` | `message_place` | none |
//! | of `NumberMessage`, a message of one number | `number_message` | `Link` |
//! | of a `Transport`, and of `Memory`, the transport by script | `transport`, `memory` | `Exchange`, `Script` |
//! | of `Mailbox`, the transport into which the program puts what it received | `mailbox` | `Mailbox` |
//! | of an `ObjectMap`, and of `AllObjects` and `IntoObjects`, the walks over it | `object_map`, `all_objects`, `into_objects` | `Store`, `ObjectMap` |
//!
//! The `requires` and `ensures` lines of a function are its *contract*: what the caller has to see to, and what is proved
//! of each call. The functions of [`laws`] do nothing. Their contracts state what follows from the definitions alone. The
//! words of these contracts are in the following files of `specs/`:
//!
//! | Laws | Code | Definitions, in `specs/` |
//! |---|---|---|
//! | of calls: nothing is lost, messages come back, one outcome | `laws::calls` | `NothingLost`, `Sides`, `Outcome`, `Relayed`; `Mailbox`, `MailboxCalls`, `MailboxLink` |
//! | of readers: how both sessions read | `laws::readers` | `Reader`, `Puts`, `Served`, `Respect`, `Total`, `Stretch` |
//! | of runs of calls | `laws::runs` | `Runs` |
//! | of object ids | `laws::ids` | `Identity`, `Named` |
#![tactic(auto)]

/// The walk over the objects of a map.
mod all_objects;
/// A buffer of bytes that wait to be read or sent: writes messages, and receives from a transport.
mod buffer;
/// The link: a transport with buffers, over which messages are read and written.
mod buffered_socket;
/// The objects of a map, moved out of it.
mod into_objects;
/// Laws that follow from the definitions alone: of calls, readers, runs and object ids.
pub mod laws;
/// How far the buffers of a link may grow.
mod limit;
/// `Mailbox`: the transport into which a program puts what it received, and from which it takes what to send.
mod mailbox;
/// `Memory`: the transport by script, whose answers are given beforehand.
mod memory;
/// The place that messages are read into, and `clear_message`.
mod message_place;
/// A message whose one argument is a number.
mod number_message;
/// An object: its interface, its version, and what a session keeps of it.
mod object;
/// The objects of a session by number, in two ranges.
mod object_map;
/// The objects of one range of numbers, and which numbers are free.
mod object_range;
/// Bytes with tokens, as they wait in a transport.
mod parcel;
/// The tokens that wait to be sent; and the write of a message, which appends its tokens to them.
mod token_queue;
/// The trait of transports, which carry bytes and tokens to the peer and back.
mod transport;

pub use all_objects::AllObjects;
pub use buffered_socket::{BufferedSocket, HandOnError};
pub use into_objects::IntoObjects;
pub use limit::{DEFAULT_MAX_BUFFER_SIZE, INCOMING_LIMIT};
pub use mailbox::{Ending, Mailbox, MailboxError};
pub use memory::{ArriveError, Memory};
pub use message_place::{MessagePlace, clear_message};
pub use number_message::NumberMessage;
pub use object::Object;
pub use object_map::{InsertError, NewError, ObjectMap, SERVER_ID_LIMIT};
pub use transport::{MAX_BYTES_OUT, MAX_FDS_OUT, Transport};
