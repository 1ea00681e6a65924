//! What the sessions of the Wayland protocol are to a program in another language, the *host*: numbers, flat structs and lent memory in
//! place of enums and vectors.
//!
//! The sessions themselves are `wl_host::Server` and `wl_host_client::Client`. Beside them a host with several queues of events, or several
//! threads, has [`EventQueues`] and [`FlatReaders`] (`wl_queues`).
//!
//! [`Guard`] stands between a client and a compositor, and lets through what a [`Policy`] allows (`wl_guard`).
//!
//! | Subject | Code | Definitions, in `specs/` |
//! |---|---|---|
//! | flat structs and ids | `flat` | `Flat` |
//! | queues of events, and who reads | `event_queues`, `readers` | `EventQueues`, `Readers` |
//! | what a call came to | `status` | `Status` |
//! | the table of interfaces as rows | `rows` | `Rows`, `Tables` |
//! | a policy, and guards | `guards` | `Guards` |
//! | signatures as libwayland's tables have them | `signatures` | `Signatures` |
//! | whole rows that extend those of the table | `extending` | `Extending`, `Tables` |
//! | one whole interface that joins the table | `joining` | `Joining`, `Tables` |
//! | arguments of messages, from flat structs and into lent memory | `arguments` | `Arguments` |
//! | which file descriptor a token stands for | `descriptors` | `Descriptors` |
//! | nulls that the table forbids | `nulls` | `Nulls` |
//! | what is told of a connection's messages | `telling` | `Told` |
//! | how much waits | `waiting` | `Waiting` |
#![tactic(auto)]

pub mod arguments;
pub mod descriptors;
pub mod event_queues;
pub mod extending;
pub mod flat;
pub mod guards;
pub mod incoming;
pub mod joining;
pub mod nulls;
pub mod outgoing;
pub mod readers;
pub mod rows;
pub mod signatures;
pub mod status;
pub mod telling;
pub mod waiting;

pub use event_queues::{
    EventQueues, FlatQueuedEvent, FlatQueuedObject, HANDED, QUEUE_DROPPED, SENDER_DESTROYED,
    SESSION_FAILED, SLOT_ALIVE, SLOT_DESTROYED, SLOT_FREE,
};
pub use extending::ExtensionFault;
pub use flat::{
    BIND, Counts, DELETES_ID, DESTROYED, FlatAction, FlatArgument, FlatClientId, FlatError,
    FlatEvent, FlatGlobalId, FlatGlobalInfo, FlatHeldObject, FlatNote, FlatObjectId,
    FlatObjectInfo, FlatRequest, FlatRun, FlatTold, Gone, INSERTED, IO, KILLED, LACKS_DESCRIPTORS,
    MESSAGE, NO_MESSAGE, PASSED_OVER, PLAIN_RUN, PROTOCOL, REGISTRY, REQUEST, UNKNOWN_MESSAGE,
    Waiting, kind,
};
pub use guards::{CLIENT_SIDE, FlatEnd, Guard, Policy, SERVER_SIDE, reason};
pub use readers::{FlatReaders, FlatTurn};
pub use rows::{ArgumentRow, InterfaceRow, MessageRow, Rows, TableFault, fault};
pub use signatures::read_signature;
pub use status::Status;
pub use wl_guard::Limits;
pub use wl_queues::UnusedObject;
