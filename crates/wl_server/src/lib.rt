//! The server side of the Wayland protocol: clients, their objects by id, globals, requests and events.
//!
//! A [`Backend`] is a server. The page of this crate, `README.md`, has an example.
//!
//! The server stands on two crates. `wl_server_client` is one client as the server holds it, with what a call does to that
//! client. `wl_server_model` has no code but the calls as values: it defines what a server holds and what each call does to
//! it, and has the lemmas about runs of calls.
//!
//! Each call that is a step has the contract `Calls` (`Backend`), which says that the call is one step of its definition.
//! `Server` has what the server holds, and `Part` what it holds for one client. `PartStep` has one line for each call, which
//! says what the call does to that. `Steps` says what it does to the whole server. The line in `PartStep` names the relation of
//! the call. A dispatch is many steps, and a look-up is none: they have contracts of their own.
//!
//! These are files of `specs/` in `wl_server_model`, or else in `wl_server_client` or here. The `ghost use` lines at the top of
//! a file name the files in which the words of its contracts are defined: `Rattle.wl_server_model.specs.Steps` is
//! `specs/Steps.antt` of that crate.
//!
//! The pages of the modules `client`, `notes` and `reading` of `wl_server_client` say which clients are *stored* and *live*, what
//! a *slot*, a *note*, a *reading* and an *action* is.
//!
//! | Calls | Code | Relations |
//! |---|---|---|
//! | `insert_client`, `next_client_id`, `kill_client`, `flush`, `flush_client`, the limits | `client::insert`, `client::kill`, `client::flush`, `client::flush_client`, `client::limits` | `PartStep`, `Felt`, `Telling`, `Next`, `FlushedClient` |
//! | `transport_mut` | `client::transport` | `Backend`, `Lending`, `Plain/Transport` |
//! | `create_object`, `destroy_object`, `set_object_data`, `with_object_data` | `objects` | `Objects`, `DataInPlace`, `Plain/DataInPlace` |
//! | `create_object_at`, `set_object_version` | `objects::create_at`, `objects::version` | `Chosen`, `Plain/Chosen` |
//! | `set_object_limit` | `objects::limit` | `Limited`, `Plain/Calls` |
//! | `send_event`, `send_event_lent`, `post_error` | `events` | `Events`, `Errors`, `Posted` |
//! | `next_action`, `next_action_within`, and both `_into` | `reading::next_action` | `Reading`, `Requests`, `Cutting`, `Room`, `Plain/Reading`, `ReadingEnds` |
//! | `finish_request`, `finish_bind`, and both `_returning` | `reading::finish` | `Finish`, `Cutting`, `Plain` |
//! | `dispatch_single_client`, `dispatch_all_clients`, [`Handler`] | `dispatch` | `Dispatch`, `Reached`, `Plain/Dispatch` |
//! | `create_global`, `disable_global`, `remove_global`, `keep_global_names`, `hand_out_registries` | `globals::create_global`, `globals::remove_global`, `globals::keep_names`, `globals::hand_out_registries` | `PartStep`, `Globals`, `Felt`, `Plain/Globals` |
//! | `add_interfaces`, `extend_interface` | `globals::add_interfaces` | `Steps`, `Plain/Calls`, and `Table` of `wl_wire` |
//! | `cleanup`, `take_notes` | `notes` | `PartStep`, `Felt` |
//! | look-ups, `next_global_id`, `all_clients`, `with_all_clients`, and the same of objects; `object_by_number`, `all_held_for` | `lookups`, `globals::lookups` | `Lookups`, `Next` |
//! | `replay` | `runs::replay` | `Runs`, `Histories`, `Outcome/Whole` |
//!
//! Most calls have a second clause, `plain`. It says what the program finds of the object, the client, the global or the
//! notes after the call, in the words of the look-ups (`Plain` and the files of its folder). It also says
//! that the other clients are as before if the call names one, that the globals are as before if the call is not about them,
//! and after which answers `memory_refused` may be true. It follows from the clause `call`; that of `transport_mut` also needs
//! the value that the loan leaves.
//!
//! The laws of runs are the contracts of the functions of [`laws`]. A *run* is a list of calls, one after another. The
//! words of each law stand in a file: `Runs` (each client is alone), `Identified` (ids), `Logged` (what was
//! sent), `Announced` (globals), `NotedOnce` (notes), `Killed` (killed clients), `GivenOnce` (ids of clients and
//! globals), `Accounts` (these seven, of one history), `Named` (what any id names), `NotedEnds` with its folder (which
//! objects and errors notes tell of), `NoteOrder` with its folder (in which order notes come), `Cutting` and
//! `Stretches` (it does not matter how the bytes are cut into receives), `Outcome` with its folder (there is one
//! outcome), `Bounded` (how often is received), `WithinLimit` (no object above the limit), `ReadingEnds` (why a reading
//! ends). That a message always has room in the buffer (`Room`) is a clause of `next_action` itself.
#![tactic(auto)]

/// The server: what it holds, how one is made, and `memory_refused`: whether memory ran out in the last call.
mod backend;
/// The calls that insert, kill, flush and limit clients; `transport_mut`.
mod client;
/// `dispatch_single_client`, `dispatch_all_clients`, and the trait `Handler`.
mod dispatch;
/// The calls that send events: `send_event`, `post_error`.
mod events;
/// Globals: the calls that create, remove and look them up, and those by which the table grows.
mod globals;
/// Laws that follow from the definitions alone: of runs of calls, of dispatches, and of one reading.
pub mod laws;
/// Look-ups of clients and objects.
mod lookups;
/// Notes of what happened, and `take_notes`; `cleanup`, which takes killed clients out and makes waiting notes.
mod notes;
/// The calls that create, destroy and change objects.
mod objects;
/// The calls that read the next action of a client, and those that finish it.
mod reading;
/// Calls as values, and runs of them.
mod runs;

pub use backend::Backend;
pub use client::flush_client::Flushed;
pub use dispatch::Handler;
pub use lookups::held::AllHeldFor;
pub use lookups::walks::{AllClients, AllObjectsFor};
pub use wl_server_client::error::{
    ActionError, CreateAtError, CreateError, DestroyError, EventError, FinishError, FinishRefused,
    GlobalError, InsertClientError, InvalidId, ScriptError, VersionError,
};
pub use wl_server_client::globals::handler::{GlobalHandler, ShownToAll};
pub use wl_server_client::ids::client_id::ClientId;
pub use wl_server_client::ids::global_id::{GlobalId, GlobalInfo};
pub use wl_server_client::ids::object_id::ObjectId;
pub use wl_server_client::notes::{DisconnectReason, Note};
pub use wl_server_client::reading::action::{Action, READ_TURNS, Reading};
pub use wl_server_client::reading::response::RequestFault;
pub use wl_server_client::reading::violation::{MessageFault, Violation};
pub use wl_server_model::step::{Reply, Step, Stopped};
