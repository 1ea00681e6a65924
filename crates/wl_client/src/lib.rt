//! A client's session of the Wayland protocol: objects by id, requests, events.
//!
//! A program makes a [`Backend`] from its table of interfaces and a transport. It sends requests with `send_request` and
//! `flush`. It reads events with `next_event`, and ends each with `finish_event`. It learns with `take_notes` which objects
//! were destroyed. The page of this crate, `README.md`, has an example. The documentation of each call says which errors it
//! returns, and in which order they are looked for.
//!
//! The `requires` and `ensures` lines of a function are its *contract*: what the caller has to see to, and what is proved
//! of each call. `specs/Session` says what a session holds. The contract of most calls is one relation between the session
//! before it and after it; that of the others, such as `take_notes`, is written out there. The `ghost use` lines at the top
//! of a file name the files in which the words of its contracts are defined: `Rattle.wl_client.specs.Session` is
//! `specs/Session.antt`, and `Rattle.wl_link.specs.Reader` is that file of the crate `wl_link`.
//!
//! | Calls | Code | Relations, in `specs/` |
//! |---|---|---|
//! | `connect`, `take_notes`, `fail`, the limit, `transport_mut`, .. | `backend`: read it first | `Session`, `Lending`, `Plain/Calls` |
//! | `send_request`, `send_request_lent`, `flush` | `request`, `send_request`, `flush` | `Requests`, `Steps`, `Finish`, `Plain/Calls` |
//! | `next_event`, `next_event_into` | `next_event`, `message`, `event_in_place`, `event`, `event_arguments`, `display_event` | `Reading`, `ReadingEnds`, `Handling`, `Events`, `Cutting` |
//! | `finish_event`, `open_event` | `finish_event` | `Finish`, `Steps`, `Cutting` |
//! | `info`, `get_data`, `set_data`, `with_data`, `destroy_object`, `reclaim` | `objects` | `Objects`, `Plain/Calls` |
//! | `keep_freed`, `next_freed` | `freed` | `Freeing`, `Freed`, `Plain/Calls` |
//! | `object_for_protocol_id` | `by_number` | `ByNumber` |
//! | `replay` | `step`, `replay` | `Steps`, `Handed`, `Named`, `Noted`, `Replies`, `Stretches` |
//!
//! The clause `call` of a call through `&mut self` says that it is a step of a history (`Steps`, `Histories`), of which the laws
//! hold (`Accounts`). A clause `plain` says what a program finds after it (`Plain`, `Plain/Calls`).
//!
//! The functions of [`laws`] do nothing. Their contracts are the laws of runs of calls, in the words of these files:
//! `Handed` and `Named` (ids), `Noted` (notes), `Numbers` (when a number is free again), `Freed` (which objects left their
//! numbers), `Failed` (errors), `Replies` (there is one outcome), `Cutting`, `Heard` and `Stretches` (it does not matter how bytes
//! are cut; the words of a reader are in `Reader` and `Served` of `wl_link`), `ReadingEnds` (why a reading ends), `Scripted`
//! (calls of `Memory` as steps).
#![tactic(auto)]

/// The session: its fields, `connect`, `display_id`, `last_error`, `fail`, `take_notes`, the table, the transport, the limit.
mod backend;
/// The object that a number holds.
mod by_number;
/// What the events of the display say: an error, or that the id of a number is deleted.
mod display_event;
/// The errors of calls, and the error that ends a session.
mod error;
/// Handles an event of any object but the display; and `OpenEvent`: what is known of it while it is open.
mod event;
/// The arguments of an event: numbers become ids, and a new id makes an object.
mod event_arguments;
/// What is wrong with an event, and its text.
mod event_fault;
/// Handles a `delete_id`, or an event of numbers alone, where it stands in the buffer, without reading it first.
mod event_in_place;
/// `finish_event` ends an event that was handed out; `open_event` says which event is open.
mod finish_event;
/// `keep_freed`, `next_freed`: the ids of objects that left their numbers.
mod freed;
/// `flush`: sends what waits to be sent.
mod flush;
/// Laws that follow from the definitions alone: of runs of calls, and of one reading.
pub mod laws;
/// Takes the first message off what was received, and handles it; `MessageEnd`: what that came to.
mod message;
/// `next_event`: a reading, which handles messages and receives more.
mod next_event;
/// The ids of objects.
mod object_id;
/// The objects: what is kept of each, the calls about one object, and `Note`: an object was destroyed.
mod objects;
/// `replay`: runs of steps over the transport by script.
mod replay;
/// Whether a request is refused, and why; and the numbers of its ids.
mod request;
/// `send_request`: writes a request, inserts the object that it makes, and ends the sender of a destructor.
mod send_request;
/// The calls and their answers as values.
mod step;

pub use backend::Backend;
pub use error::{
    DestroyError, EventError, FinishError, FinishRefused, FlushError, InvalidId, RequestError,
    WaylandError,
};
pub use event::OpenEvent;
pub use next_event::READ_TURNS;
pub use object_id::ObjectId;
pub use objects::Note;
pub use step::{Reply, Step, Stopped};
