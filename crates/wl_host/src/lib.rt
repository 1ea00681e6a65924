//! The sessions of the Wayland protocol for a program in another language, the *host*: numbers, flat structs and lent memory in
//! place of enums and vectors.
//!
//! [`Server`] is a server's session. It is `wl_server::Backend` over mailboxes (`wl_link::Mailbox`), with what a host has to
//! know beside it: who has something to be sent, who is gone, and which file descriptor is whose.
//!
//! [`Client`] is a client's session (`wl_host_client`). What both give to a host stands in `wl_flat`, and so do queues of events
//! ([`EventQueues`], [`FlatReaders`]) and the [`Guard`].
//!
//! | Subject | Code | Definitions, in `specs/` |
//! |---|---|---|
//! | a server's session | `server` and its modules | `Server`, `Calls` |
//! | which client sees which global | `server`, `server::hidden` | `Visibility` |
//! | laws of the flat structs | `laws` | `Arguments`, `Nulls` |
//! | how a client broke the protocol | `server::violations` | `Violations` |
#![tactic(auto)]

mod laws;
mod server;

pub use laws::{a_forbidden_null_is_told, flat_arguments_come_back};
pub use server::violations::{FlatViolation, violation};
pub use server::{HostClient, HostGlobal, Server};
pub use wl_flat::{
    ArgumentRow, BIND, CLIENT_SIDE, Counts, DELETES_ID, DESTROYED, EventQueues, ExtensionFault,
    FlatAction, FlatArgument, FlatClientId, FlatEnd, FlatError, FlatEvent, FlatGlobalId,
    FlatGlobalInfo, FlatHeldObject, FlatNote, FlatObjectId, FlatObjectInfo, FlatQueuedEvent,
    FlatQueuedObject, FlatReaders, FlatRequest, FlatRun, FlatTold, FlatTurn, Gone, Guard, HANDED,
    INSERTED, IO, InterfaceRow, KILLED, LACKS_DESCRIPTORS, Limits, MESSAGE, MessageRow, NO_MESSAGE,
    PASSED_OVER, PLAIN_RUN, PROTOCOL, Policy, QUEUE_DROPPED, REGISTRY, REQUEST, Rows,
    SENDER_DESTROYED, SERVER_SIDE, SESSION_FAILED, SLOT_ALIVE, SLOT_DESTROYED, SLOT_FREE, Status,
    TableFault, UNKNOWN_MESSAGE, UnusedObject, Waiting, fault, kind, read_signature, reason,
};
pub use wl_host_client::Client;
