//! What follows from the definitions of a server alone. Each function has a law as its contract, and does nothing. The
//! three laws of ids each compare two, and stand in `wl_server_client`.
//!
//! These words are used in this file:
//!
//! - A *run* is a list of calls, one after another. Changes of a transport through `transport_mut`, and the calls by which the
//!   table grows (`add_interfaces`, `extend_interface`), may be among them. Most laws are about each run of a new server (`Backend::new`).
//! - A client is *stored* from its insertion until `Backend::cleanup` takes it out. It is *live* as long as it is stored
//!   and not killed.
//! - A *shared* call is about no single client: for instance `create_global` or `cleanup`.
//! - A *note* tells the program what happened to a client or an object (`Note`).
//! - The *deeds* with a client are what a call does with it: what is sent and received, which messages are put into its
//!   buffer, which actions are handed out, which objects with user data leave, and which notes are made.
//! - A *token* stands for a file descriptor.
//! - The *transport by script* is `wl_link::Memory`, whose answers are given beforehand.
//!
//! The laws of runs speak of every transport. Over the transport by script a call of that transport stands for a change
//! of it (clause `change` of [`calls_over_scripts_are_steps`]).

ghost use Rattle.std.specs.Prelude.{◌≡◌, ◌≢◌, ◌<◌, ◌≤◌, ◌∷◌, ◌++◌, [], ℕ, Bool, false, List, None, Option, Some, Result, Err};
ghost use Rattle.wl_wire.specs.Table.{AnswersExtension, AnswersGrowth, Extension, InterfaceRow};
ghost use Rattle.wl_wire.specs.declared.protocol.TableError.{TableError};
ghost use Rattle.wl_wire.specs.declared.protocol.TableError.TheVariants as table_error;
ghost use Rattle.wl_wire.specs.declared.error.IoFault.{IoFault};
ghost use Rattle.wl_wire.specs.declared.interface.InterfaceId.{InterfaceId};
ghost use Rattle.wl_link.specs.Exchange.{Queue, Sending, nothing, IsFunction, IsReceiveFunction};
ghost use Rattle.wl_link.specs.Reader.{AllFed, Ends, Given, Gives, Reads, Turn, received_in, sends_in, ReaderState};
ghost use Rattle.wl_link.specs.Runs.{RunEntry};
ghost use Rattle.wl_link.specs.Script.{Script, ScriptReceives, ScriptSends};
ghost use Rattle.wl_link.specs.Served.{Answers};
ghost use Rattle.wl_server_client.specs.declared.error.GlobalError.{GlobalError};
ghost use Rattle.wl_server_client.specs.declared.error.GlobalError.TheVariants as global;
ghost use Rattle.wl_server_client.specs.declared.error.InsertClientError.{InsertClientError};
ghost use Rattle.wl_server_client.specs.declared.error.InsertClientError.TheVariants as insert;
ghost use Rattle.wl_server_model.specs.declared.step.Reply.{Reply};
ghost use Rattle.wl_server_model.specs.declared.step.Step.{Step};
ghost use Rattle.wl_server_model.specs.Accounts.{AreAccountedFor, IsAccountedFor};
ghost use Rattle.wl_server_model.specs.Announced.{EachAnnouncesShown};
ghost use Rattle.wl_server_model.specs.Backend.{BackendState};
ghost use Rattle.wl_server_model.specs.Bounded.{EachIsBounded, EachPartIsBounded, receives_over};
ghost use Rattle.wl_server_model.specs.Broken.{LiveKeepNone, ReadingsAloneBreak};
ghost use Rattle.wl_server_model.specs.Cutting.{EachIsServed, GoesOn, HistoriesAreCut, IsServed};
ghost use Rattle.wl_server_model.specs.Dispatch.{EachIsDispatched, EndsDispatch, IsDispatched, answering};
ghost use Rattle.wl_server_model.specs.Outcome.Dispatches.{DispatchesHaveOneOutcome, IsDeterministic, IsDeterministicIfSpared, ManyDispatchesHaveOneOutcome, ManySparedDispatchesHaveOneOutcome, SparedDispatchesHaveOneOutcome};
ghost use Rattle.wl_server_model.specs.GivenOnce.{GivesOnce};
ghost use Rattle.wl_server_client.specs.Globals.{CreatesGlobal, Globals, Offer};
ghost use Rattle.wl_server_client.specs.Ids.{ClientParts, GlobalParts};
ghost use Rattle.wl_server_model.specs.Outcome.{CallsHaveOneOutcome, ClientsHaveOneOutcome, HaveOneOutcome, OffersHaveOneOutcome, OwnRunsHaveOneOutcome};
ghost use Rattle.wl_server_model.specs.Identified.{EachHasOwnIds};
ghost use Rattle.wl_server_model.specs.Killed.{EachStaysKilled};
ghost use Rattle.wl_server_model.specs.Named.{EachKeepsNaming, EachNamesNoneAgain};
ghost use Rattle.wl_server_model.specs.Logged.{EachLogIsSpelled};
ghost use Rattle.wl_server_model.specs.NotedEnds.{EachNoteIsOfAnEnd, EndIsNotedAtOnce};
ghost use Rattle.wl_server_model.specs.NotedEnds.Errors.{EachCallCausesItsErrors, EachErrorIsCaused};
ghost use Rattle.wl_server_model.specs.NotedOnce.{CleanupNotesAll, EachIsNoted, FinishNotesAtOnce};
ghost use Rattle.wl_server_model.specs.NoteOrder.Ordered.{EarlierNotesFirst, EarlierWaitFirst};
ghost use Rattle.wl_server_client.specs.Part.{Part};
ghost use Rattle.wl_server_model.specs.PartStep.{Call, around, over, over_scripts, share_of};
ghost use Rattle.wl_server_client.specs.Reading.{Around, answered, reads_on, server};
ghost use Rattle.wl_server_model.specs.ReadingEnds.{ReadingEnds};
ghost use Rattle.wl_server_model.specs.Runs.{Alone, IsIsolated, Leads, Own, Performs, history};
ghost use Rattle.wl_server_model.specs.Server.{Seen, ServerState, new_server};
ghost use Rattle.wl_server_client.specs.Stored.{Stored};
ghost use Rattle.wl_server_model.specs.Steps.{EachStandsFor, RiseBySlot, Entry, InsertsNext, OneStep, StandsFor, StepOf};
ghost use Rattle.wl_server_model.specs.Stretches.{StretchIsServed, IsStretch, IsStretchWithin, SameLeft, handed_out, arrived, beside_exchanges, finished};
ghost use Rattle.wl_server_client.specs.Telling.{Core, Finish, Told, reader_part};
ghost use Rattle.wl_server_model.specs.WithinLimit.{ReadsWithinLimit};
ghost use Rattle.wl_server_model.specs.Outcome.Whole.{AnswersAlike, HoldsSame, PerformancesHaveOneOutcome, RunsHaveOneOutcome};

use crate::dispatch::Handler;
use wl_link::Transport;
use wl_server_client::globals::handler::GlobalHandler;
pub use wl_server_client::laws::{
    client_ids_are_equal_by_all_parts, global_ids_are_equal_by_all_parts,
    object_ids_are_equal_by_all_parts,
};
use wl_server_client::reading::action::READ_TURNS;

/// The isolation law of a server, over every transport: no client's calls matter to another client.
///
/// After each run of a new server, a client that was inserted is as if only its own calls and the shared ones had been
/// made since then. That concerns what is held of it, its notes, the replies to it, its share of the shared replies, and
/// the deeds with it. Nothing is held of a client that was not inserted. What all clients share depends on the shared
/// calls alone, and so do the ids of globals. The serials of clients depend on these and on how many were inserted.
pub fn each_client_is_alone<T: Transport, U, G: GlobalHandler<C>, C>()
    ensures run { (table : List InterfaceRow) (run : List (Entry T U G C)) (after : ServerState T U G C) →
        Leads (over T.sends T.receives G.views) (new_server table) run after → IsIsolated (over T.sends T.receives G.views) table run after }
{}

/// What a server does with a client has one outcome, over every transport whose answers follow from its value.
///
/// If memory does not run out, a call determines its deeds with each client, and what is held of the client afterwards. (For
/// `insert_client` and `create_global` that is said of the same new id; each run has one outcome of that, too.) If the call
/// is the client's own or a shared one, it also determines the reply to this client, up to where lists lie in memory. The
/// same holds of a list of a client's own calls and the shared ones, and of two runs of a server, whatever other clients do
/// in them. So the definitions of the calls leave no choice except whether memory runs out. The globals and limits that a
/// client finds at its insertion are determined by the shared calls before it.
///
/// All of this holds of steps over the transport by script, what calls of that transport answer included (clause `script`).
pub fn each_client_has_one_outcome<T: Transport, U, G: GlobalHandler<C>, C>()
    ensures call { IsFunction T.sends → IsReceiveFunction T.receives → CallsHaveOneOutcome U (over T.sends T.receives G.views) }
    ensures alone { IsFunction T.sends → IsReceiveFunction T.receives → OwnRunsHaveOneOutcome U (over T.sends T.receives G.views) }
    ensures client { IsFunction T.sends → IsReceiveFunction T.receives → ClientsHaveOneOutcome U (over T.sends T.receives G.views) }
    ensures offer { OffersHaveOneOutcome U (over T.sends T.receives G.views) }
    ensures script { HaveOneOutcome U (over_scripts G.views) }
{}

/// A run of a server has one outcome, over every transport whose answers follow from its value.
///
/// Take two runs of the same calls, in which memory does not run out, from servers that look the same to their program.
/// Their replies are the same, and the servers look the same afterwards: what is held of each client id, the globals and
/// limits, how many clients were inserted, and the order of the notes that are not taken yet. A program does not see where
/// lists lie in memory. The same holds if the order of the notes of different clients is left out (`ordered` is `false`),
/// before and after. It holds of steps over the transport by script, too, also if changes of transports and growths of the table
/// are among them (clause `script`).
///
/// Servers of which the same is held return the same in look-ups (clause `answers`): which clients are live, what is
/// known of a client, an object and a global, and which handler a global has. What calls return about all clients
/// together has one outcome, too: the id of a new client, the id of a new global or the reason for which there is none,
/// what became of interfaces or messages that were to be added, and the lists that `cleanup` and `take_notes` return.
pub fn each_run_of_a_server_has_one_outcome<T: Transport, U, G: GlobalHandler<C>, C>()
    ensures run { IsFunction T.sends → IsReceiveFunction T.receives → RunsHaveOneOutcome U (over T.sends T.receives G.views) }
    ensures steps { IsFunction T.sends → IsReceiveFunction T.receives → PerformancesHaveOneOutcome U (over T.sends T.receives G.views) }
    ensures script { RunsHaveOneOutcome U (over_scripts G.views) }
    ensures answers { (s t : ServerState T U G C) → HoldsSame s t → AnswersAlike s t }
    ensures client { (last : ℕ) (clients : List (Option (Stored T U C))) (a b : Result ClientParts InsertClientError) →
        a ≢ Err insert.OutOfMemory → b ≢ Err insert.OutOfMemory →
        InsertsNext last clients a → InsertsNext last clients b → a ≡ b }
    ensures global { (table : List InterfaceRow) (globals : Globals G) (i : InterfaceId) (version : ℕ)
        (a b : Result GlobalParts GlobalError) → a ≢ Err global.OutOfMemory → b ≢ Err global.OutOfMemory →
        CreatesGlobal table globals i version a → CreatesGlobal table globals i version b → a ≡ b }
    ensures interfaces { (table rows : List InterfaceRow) (a b : Result (Unit {0}) TableError) →
        a ≢ Err table_error.OutOfMemory → b ≢ Err table_error.OutOfMemory →
        AnswersGrowth table rows a → AnswersGrowth table rows b → a ≡ b }
    ensures messages { (table : List InterfaceRow) (more : Extension) (a b : Result (Unit {0}) TableError) →
        a ≢ Err table_error.OutOfMemory → b ≢ Err table_error.OutOfMemory →
        AnswersExtension table more a → AnswersExtension table more b → a ≡ b }
    ensures cleanup { (out out' : List (ClientParts × T)) → RiseBySlot out → RiseBySlot out' →
        ((id : ClientParts) → share_of id out ≡ share_of id out') → out ≡ out' }
{}

/// A dispatch has one outcome, over every transport whose answers follow from its value, if the handler is deterministic.
///
/// A handler is deterministic if what it answers, what becomes of it, and how the server looks after its call follow from
/// what it is given, from its own value, and from how the server looks before (`IsDeterministic`). So is a handler that makes
/// no call, and whose answers are functions.
///
/// Take two dispatches of one client (clause `client`), or of the same clients (clause `several`), with the same handler,
/// over servers that look the same to their program. If `memory_refused` is false after both, they return the same, the
/// handlers are the same afterwards, and the servers look the same. Whether the order of notes counts in that is up to
/// `ordered`, for the handler, too.
///
/// `memory_refused` does not tell of the calls that the handler makes. A handler whose calls may lack memory is not
/// deterministic in this sense, since what follows depends on whether they do. It may note in its own value that a call of it
/// lacked memory, and be deterministic as long as none did (`IsDeterministicIfSpared`). The clauses `spared_client` and
/// `spared_several` say the same of dispatches with such a handler, if none of its calls lacked memory by its value afterwards.
pub fn each_dispatch_has_one_outcome<
    T: Transport,
    U,
    G: GlobalHandler<C>,
    C,
    H: Handler<T, U, G, C>,
>()
    ensures client { IsFunction T.sends → IsReceiveFunction T.receives → (ordered : Bool) → IsDeterministic ordered (answering H.requests H.binds) →
        DispatchesHaveOneOutcome ordered (over T.sends T.receives G.views) (answering H.requests H.binds) }
    ensures several { IsFunction T.sends → IsReceiveFunction T.receives → (ordered : Bool) → IsDeterministic ordered (answering H.requests H.binds) →
        ManyDispatchesHaveOneOutcome ordered (over T.sends T.receives G.views) (answering H.requests H.binds) }
    ensures spared_client { IsFunction T.sends → IsReceiveFunction T.receives → (ordered : Bool) (spared : H → Bool) →
        IsDeterministicIfSpared ordered (answering H.requests H.binds) spared →
        SparedDispatchesHaveOneOutcome ordered (over T.sends T.receives G.views) (answering H.requests H.binds) spared }
    ensures spared_several { IsFunction T.sends → IsReceiveFunction T.receives → (ordered : Bool) (spared : H → Bool) →
        IsDeterministicIfSpared ordered (answering H.requests H.binds) spared →
        ManySparedDispatchesHaveOneOutcome ordered (over T.sends T.receives G.views) (answering H.requests H.binds) spared }
{}

/// The identity law of a server, over every transport: each id that is handed out names its own object.
///
/// In each run of a new server, the objects of each client that was inserted come about by changes, a list of them for
/// each of its own calls and the shared ones. Each id that a reply or an action hands out is of that client. It is made
/// in that call, and names an object then. The id of a new object names one that the call itself makes. The id in a note
/// is made when its object leaves. An id names its object as long as that is there and its client is stored, and
/// afterwards none. No object leaves twice.
pub fn each_id_names_its_own_object<T: Transport, U, G: GlobalHandler<C>, C>()
    ensures run { (table : List InterfaceRow) (run : List (Entry T U G C)) (after : ServerState T U G C) →
        Leads (over T.sends T.receives G.views) (new_server table) run after → EachHasOwnIds (over T.sends T.receives G.views) table run after }
{}

/// The identity law of any id, no matter where it comes from, for instance from `object_for_protocol_id`.
///
/// If an id names an object of a client at some point of a run, it names that very object as long as that is there and
/// its client is stored, and afterwards none (clause `named`). The changes of objects that show this are the same as
/// those of the client's whole run, in the law before, also in a run of steps over the transport by script (clause
/// `script`). If the id names none at a later point, it never names one again (clause `none`).
pub fn each_id_that_names_an_object_keeps_it<T: Transport, U, G: GlobalHandler<C>, C>()
    ensures named { (table : List InterfaceRow) (done later : List (Entry T U G C)) (point after : ServerState T U G C) →
        Leads (over T.sends T.receives G.views) (new_server table) done point → Leads (over T.sends T.receives G.views) point later after →
        EachKeepsNaming (over T.sends T.receives G.views) table done point later after }
    ensures script { (table : List InterfaceRow) (done later : List (Entry Script U G C)) (point after : ServerState Script U G C) →
        Leads (over_scripts G.views) (new_server table) done point → Leads (over_scripts G.views) point later after →
        EachKeepsNaming (over_scripts G.views) table done point later after }
    ensures none { (table : List InterfaceRow) (done between later : List (Entry T U G C)) (point mid after : ServerState T U G C) →
        Leads (over T.sends T.receives G.views) (new_server table) done point → Leads (over T.sends T.receives G.views) point between mid →
        Leads (over T.sends T.receives G.views) mid later after → EachNamesNoneAgain done point mid after }
{}

/// The ids of clients and globals, over every transport: no id is given twice.
///
/// In each run of a new server, each new client has a greater serial than each client before it, and so has each new
/// global. So no id of a client or of a global is given twice. An id that names a client or a global was given in the run.
/// The id of a global names that global, from its creation until it is removed, and then none. An id that was given, and
/// names none at some later point, names none from then on.
pub fn no_id_is_given_twice<T: Transport, U, G: GlobalHandler<C>, C>()
    ensures run { (table : List InterfaceRow) (run : List (Entry T U G C)) (after : ServerState T U G C) →
        Leads (over T.sends T.receives G.views) (new_server table) run after → GivesOnce (over T.sends T.receives G.views) table run after }
{}

/// The log law, over every transport: the bytes that are sent are those of the messages that were put.
///
/// In each run of a new server, take what the transport of a client took since its insertion, followed by what waits to
/// be sent. That is the messages that were put for the client, in order, as bytes. It is their tokens, too, if no send
/// was answered by 0. For a client that was taken out, what waits is what was left over at its end.
pub fn log_is_what_was_sent<T: Transport, U, G: GlobalHandler<C>, C>()
    ensures run { (table : List InterfaceRow) (run : List (Entry T U G C)) (after : ServerState T U G C) →
        Leads (over T.sends T.receives G.views) (new_server table) run after → EachLogIsSpelled run after }
{}

/// The law of notes, over every transport: each object that leaves with user data has one note.
///
/// In each run of a new server, the objects of a client that left with user data are those in its notes of destroyed
/// objects. These are the notes that were handed out, that were made, and that wait for the next cleanup. No object left
/// twice. Each of these notes has the id of an object of this client that left with user data. There is one note of the
/// client's end if it was killed, and else none.
///
/// After a cleanup that succeeds no note waits. When a request is finished, no note begins to wait: if an object with
/// user data leaves by that, its note is made in that call.
pub fn each_object_that_leaves_is_noted_once<T: Transport, U, G: GlobalHandler<C>, C>()
    ensures noted { (table : List InterfaceRow) (run : List (Entry T U G C)) (after : ServerState T U G C) →
        Leads (over T.sends T.receives G.views) (new_server table) run after → EachIsNoted run after }
    ensures cleanup { CleanupNotesAll U (over {C = C} T.sends T.receives G.views) }
    ensures finish { FinishNotesAtOnce U (over {C = C} T.sends T.receives G.views) }
    ensures of_ends { (table : List InterfaceRow) (run : List (Entry T U G C)) (after : ServerState T U G C) →
        Leads (over T.sends T.receives G.views) (new_server table) run after → EachNoteIsOfAnEnd run after }
    ensures at_once { EndIsNotedAtOnce U (over {C = C} T.sends T.receives G.views) }
{}

/// The law of errors, over every transport: each error that a note tells of was given by the program, or is about the
/// client's display.
///
/// The program gives an error with `post_error`, or as the reason of `kill_client`. Else a reading found that the client
/// broke the protocol. Then the error is about the client's display, and the interface in it is the display's.
///
/// Take the notes of a client that are not handed out yet, also those that wait. If one tells after a call that the client
/// was killed for an error, one told so before the call, or the call may kill the client for that error (clause `call`).
/// So in each run of a new server some call may have killed the client for it (clause `run`).
pub fn each_error_in_a_note_has_a_cause<T: Transport, U, G: GlobalHandler<C>, C>()
    ensures call { EachCallCausesItsErrors U (over {C = C} T.sends T.receives G.views) }
    ensures run { (table : List InterfaceRow) (run : List (Entry T U G C)) (after : ServerState T U G C) →
        Leads (over T.sends T.receives G.views) (new_server table) run after → EachErrorIsCaused table run after }
{}

/// The law of the order of notes, over every transport: what happened earlier is handed out earlier.
///
/// Take a point of a run of a new server, and a later one, with no call of `take_notes` that succeeded in between. What
/// `take_notes` would have returned at the earlier point comes first in what it returns at the later one. The rest is what
/// happened since then, to whichever client. Cleanups may be in between: what they add comes behind, too.
///
/// The same holds of notes that wait for a cleanup (clause `waiting`): a cleanup leaves the notes that were made, those that
/// waited, and those of the ends of clients. What waited at an earlier point comes first in what waited at a later one, if
/// no cleanup succeeded in between.
///
/// This holds as long as fewer than 2^128 - 1 notes were made, or began to wait since the last cleanup.
pub fn notes_come_in_the_order_of_time<T: Transport, U, G: GlobalHandler<C>, C>()
    ensures run { (table : List InterfaceRow) → EarlierNotesFirst U (over {C = C} T.sends T.receives G.views) table }
    ensures waiting { (table : List InterfaceRow) → EarlierWaitFirst U (over {C = C} T.sends T.receives G.views) table }
{}

/// The law of killed clients, over every transport: a killed client stays killed until a cleanup takes it out.
///
/// Take any point of a run of a new server at which a client is stored and killed, and what comes after it. Nothing is
/// received from the client. As long as its action is open, each reading of it returns `ActionOpen`; no action is opened
/// again. Then each reading returns `Pipe`, until a cleanup takes the client out, which hands out its transport. From then
/// on each reading returns `InvalidInput`, and the client is not stored again. What is kept of how it broke the protocol
/// (`Backend::violation`) stays as long as it is stored.
pub fn a_killed_client_stays_killed<T: Transport, U, G: GlobalHandler<C>, C>()
    ensures run { (table : List InterfaceRow) (run : List (Entry T U G C)) (after : ServerState T U G C) →
        Leads (over T.sends T.receives G.views) (new_server table) run after → EachStaysKilled (over T.sends T.receives G.views) table run after }
{}

/// The law of violations, over every transport: it is kept of killed clients alone how they broke the protocol.
///
/// After each run of a new server `Backend::violation` is `None` for each client that is live (clause `run`). Only a reading of a
/// client changes it: any other call but its insertion leaves it as it is, as long as the client is stored, whether the call
/// kills the client or not (clause `others`). What a reading leaves of it is said by [`each_reading_ends_for_a_reason`].
pub fn only_a_killed_client_keeps_a_violation<T: Transport, U, G: GlobalHandler<C>, C>()
    ensures run { (table : List InterfaceRow) (run : List (Entry T U G C)) (after : ServerState T U G C) →
        Leads (over T.sends T.receives G.views) (new_server table) run after → LiveKeepNone after }
    ensures others { ReadingsAloneBreak U (over {C = C} T.sends T.receives G.views) }
{}

/// The law of announcements, over every transport: a registry announces the globals that its client may see.
///
/// In each run of a new server, take a live client and a registry that `get_registry` made for it. The globals that the
/// registry announced and did not take back, by the messages that were put for it, are exactly the enabled globals that
/// the client may see. This is promised only if the program itself sends no event of the registry and does not destroy
/// it.
pub fn registries_announce_what_is_shown<T: Transport, U, G: GlobalHandler<C>, C>()
    ensures run { (table : List InterfaceRow) (run : List (Entry T U G C)) (after : ServerState T U G C) →
        Leads (over T.sends T.receives G.views) (new_server table) run after → EachAnnouncesShown (over T.sends T.receives G.views) run after }
{}

/// Over the transport by script a call is the same as its step in `Backend::replay`.
///
/// A change of a client's transport may stand among such steps, too (clause `entry`, and `run` for a list of both). So
/// one history may be made of calls, changes of transports and runs by `replay`. What is said of calls or of steps over
/// the transport by script holds of the whole.
///
/// A step over the transport by script stands for such a call: itself, or a change of the transport of the same client
/// (clause `change`). So what is said of runs over every transport is said of steps, too: a run of steps stands, entry for
/// entry, for one of calls and changes (clause `changes`). What a call of the transport itself answers is not in that.
pub fn calls_over_scripts_are_steps<U, G: GlobalHandler<C>, C>()
    ensures step { (before after : ServerState Script U G C) (call : Step Script U G C) (answer : Reply Script U) (refused : Bool) →
        StepOf (over ScriptSends ScriptReceives G.views) before call answer refused after → StepOf (over_scripts G.views) before call answer refused after }
    ensures entry { (before after : ServerState Script U G C) (e : Entry Script U G C) →
        OneStep (over ScriptSends ScriptReceives G.views) before e after → OneStep (over_scripts G.views) before e after }
    ensures run { (before after : ServerState Script U G C) (run : List (Entry Script U G C)) →
        Leads (over ScriptSends ScriptReceives G.views) before run after → Leads (over_scripts G.views) before run after }
    ensures change { (before after : ServerState Script U G C) (e : Entry Script U G C) → OneStep (over_scripts G.views) before e after →
        (other : Entry Script U G C) × StandsFor e other × OneStep (over ScriptSends ScriptReceives G.views) before other after }
    ensures changes { (before after : ServerState Script U G C) (run : List (Entry Script U G C)) → Leads (over_scripts G.views) before run after →
        (others : List (Entry Script U G C)) × EachStandsFor run others × Leads (over ScriptSends ScriptReceives G.views) before others after }
{}

/// Seven laws of runs hold of one history of steps over the transport by script (clause `steps`).
///
/// They are isolation, identity, log, announcements, notes, killed clients, and the ids of clients and globals. They hold
/// of every history over that transport, too, in which a client's transport may be changed between the steps (clause
/// `history`).
pub fn each_client_of_a_script_is_accounted_for<U, G: GlobalHandler<C>, C>()
    ensures history { (table : List InterfaceRow) (run : List (Entry Script U G C)) (after : ServerState Script U G C) →
        Leads (over_scripts G.views) (new_server table) run after → IsAccountedFor (over_scripts G.views) table run after }
    ensures steps { (table : List InterfaceRow) (steps : List (RunEntry (Step Script U G C) (Reply Script U))) (after : ServerState Script U G C) →
        Performs (over_scripts G.views) (new_server table) steps after → AreAccountedFor (over_scripts G.views) table steps after }
{}

/// The law of cutting, for every transport: it does not matter how bytes and tokens are cut into receives.
///
/// What is *served* of a client is what it gets if all bytes and tokens had come at once: the messages that are put, what
/// is done, and the actions that are handed out. Take a reading in which memory does not run out, and each receive brings a
/// byte or says that the transport would block. What is served of the client before the reading, from what the reading
/// received and from all that comes later, has two parts. The first is what the reading gave. The second is what is
/// served of the client after the reading, from what comes later. This holds whatever comes later, and however later
/// sends are answered.
///
/// What is served depends also on the *finishes*, which are the user data with which the actions are finished, in order.
/// A call that finishes an action uses up the next of them. The same holds for each history that a call may have: its
/// deeds are those of such a reading, or of such a finish.
///
/// What is served has one outcome. Something is always served of what waits, by some answers to the sends, if the
/// outgoing buffer has room for a byte. So it is for each client that is stored, in each run.
pub fn cutting_does_not_matter_to_a_client<T: Transport, U, G, C>()
    ensures reading { (a : Around G C) (left : ℕ) (before after : ReaderState T (Core U C)) (turns : List Turn) (out : Gives (Told U)) →
        Reads T.sends (server a) T.receives left before turns out after → AllFed turns → out.refused ≡ false →
        (finishes : List (Finish U)) → GoesOn a before (received_in turns) (sends_in turns) finishes out.gave after finishes }
    ensures finish { (a : Around G C) (before after : ReaderState T (Core U C)) (u : Finish U) (es : List Sending) (gave : List (Given (Told U))) →
        reads_on before.core ≡ false → Ends T.sends (server a) before u es gave false after →
        (finishes : List (Finish U)) → GoesOn a before nothing es (u ∷ finishes) gave after finishes }
    ensures calls { (views : G → ClientParts → C → GlobalParts → Bool) (before after : ServerState T U G C) (call : Call T U G C) →
        HistoriesAreCut (over T.sends T.receives views) before call after }
    ensures one { (a : Around G C) (before : ReaderState T (Core U C)) (more : Queue) (answers : Answers) (finishes : List (Finish U))
        (gave others : List (Given (Told U))) (x y : _) →
        IsServed a before more answers finishes gave x → IsServed a before more answers finishes others y → (gave ≡ others) × (x ≡ y) }
    ensures some { (a : Around G C) (before : ReaderState T (Core U C)) (more : Queue) (finishes : List (Finish U)) → 0 < before.link.outgoing_capacity →
        (answers : Answers) × (gave : List (Given (Told U))) × (after : _) × IsServed a before more answers finishes gave after }
    ensures each { (views : G → ClientParts → C → GlobalParts → Bool) (table : List InterfaceRow) (run : List (Entry T U G C)) (after : ServerState T U G C) →
        Leads (over T.sends T.receives views) (new_server table) run after → EachIsServed (over T.sends T.receives views) run after }
{}

/// The law of cutting for a stretch of a client's own run, over the transport by script.
///
/// A *stretch* is a part of a client's run in which bytes arrive, and actions are read and finished. What a stretch
/// gives, and how it leaves the client, is what is served of all that arrived, joined, with the finishes that were
/// accepted. So take two stretches in which the same bytes and tokens arrive, however they are cut, and the same finishes
/// are accepted. They do the same, answer the same, and leave the client the same.
///
/// A stretch begins with a live client. Each arrival brings a byte or says that the transport would block. Memory does not
/// run out, and no receive finds the buffer full. The last holds if each message is no longer than the incoming buffer
/// may become, and its tokens come no later than its last byte.
pub fn cutting_does_not_matter_to_a_run<U, G: GlobalHandler<C>, C>()
    ensures served { (id : ClientParts) (offer : Offer G) (before after : Seen Script U C) (p q : Part Script U C) (run : List (Own Script U G C)) →
        before.part ≡ Some p → after.part ≡ Some q → Alone (over_scripts G.views) id offer before run after →
        IsStretch (around (over_scripts G.views) id offer) p run q → StretchIsServed (around (over_scripts G.views) id offer) p run q }
    ensures within { (id : ClientParts) (offer : Offer G) (before after : Seen Script U C) (p q : Part Script U C) (run : List (Own Script U G C)) →
        before.part ≡ Some p → after.part ≡ Some q → Alone (over_scripts G.views) id offer before run after →
        IsStretchWithin (around (over_scripts G.views) id offer) p run q → IsStretch (around (over_scripts G.views) id offer) p run q }
    ensures same { (id : ClientParts) (offer : Offer G) (before after other : Seen Script U C) (p q r : Part Script U C) (run others : List (Own Script U G C)) →
        before.part ≡ Some p → after.part ≡ Some q → other.part ≡ Some r →
        Alone (over_scripts G.views) id offer before run after → Alone (over_scripts G.views) id offer before others other →
        IsStretch (around (over_scripts G.views) id offer) p run q → IsStretch (around (over_scripts G.views) id offer) p others r →
        arrived run ≡ arrived others → finished run ≡ finished others →
        (beside_exchanges (history run) ≡ beside_exchanges (history others)) × (handed_out run ≡ handed_out others) × SameLeft q r }
{}

/// The law of receives, for every transport: a reading receives at most as often as it may.
///
/// The value of a constant of `wl_server_client`: a reading makes at most 64 receives, if the program sets no other number.
pub fn a_reading_receives_64_times()
    ensures { READ_TURNS ≡ 64 }
{}

/// A reading of a live client without an open action ends with an action or for a reason.
///
/// An action comes of the message that the last turn found at the front of what was received. A request has the message's
/// opcode, and its arguments are the message's if each id is turned back into its number. Each object argument is null,
/// where the table allows it, or the kept object of its number, of an interface that fits. The request made an object exactly
/// if it does by the table; then the new id among its arguments is the id of that object, whose number had none before. A bind
/// comes of a message to a registry of the client: of the name of a global, the name of its interface, a version, and the
/// number of the new object. A fault is what the last receive answered, or one of these four:
///
/// - `WouldBlock`: no receive is left, and the message at the front lacks bytes or tokens.
/// - `OutOfMemory`: memory ran out, and the message at the front asks for some, or a receive does. A message of at most
///   four arguments asks for none if it has no string and no array, and makes no object. A receive asks for none if a byte
///   of the buffer is free and no more than 28 tokens wait.
/// - `Proto`: the last turn found bytes at the front that are no message by the table, or a message to a display or a registry
///   whose arguments are none that a request to it has. The client was killed for the reason `ConnectionClosed`.
/// - `Pipe`: the last turn took a message, and the client was killed, for whatever reason.
///
/// After `WouldBlock` and `OutOfMemory` the client lives on. After any other fault it was killed in this reading.
///
/// Of how the client broke the protocol (`Backend::violation`) this is kept: after `Proto` a violation with the number and the
/// opcode in the header at the front of what the last turn found, and with the interface of the object that has the number;
/// after `Pipe` such a one, or nothing, if the client was killed for the reason `ConnectionClosed`; else nothing.
///
/// Each reading carries this (clause `reason` of `Backend::next_action`).
pub fn each_reading_ends_for_a_reason<T: Transport, U, G: GlobalHandler<C>, C>()
    ensures { (a : Around G C) (left : ℕ) (before : Part T U C) (turns : List Turn) (out : Gives (Told U)) (end : ReaderState T (Core U C)) →
        before.is_killed ≡ false → before.action ≡ None → Reads T.sends (server a) T.receives left (reader_part before) turns out end →
        ReadingEnds T.sends T.receives a (reader_part before) turns (answered out.stopped out.gave) out.refused out.left end }
{}

/// No reading makes an object above the limit of objects: what the numbers above it hold stays (`Backend::set_object_limit`).
///
/// No other call makes an object but `insert_client`, `create_object` and `create_object_at` (their `plain`). So a client has at
/// most as many objects of its own numbers as the limit says, its display among them, if the limit was set before it was
/// inserted, was not raised since, and the program creates none for it at a number above the limit.
pub fn no_reading_makes_an_object_above_the_limit<T: Transport, U, G: GlobalHandler<C>, C>()
    ensures { (before after : ServerState T U G C) (e : Entry T U G C) →
        OneStep (over T.sends T.receives G.views) before e after → ReadsWithinLimit before after e.call }
{}

/// A call that does not read a client receives nothing from it. `next_action` receives from its client at most 64 times.
/// The receives of `next_action_within`, with those that its `Reading` has left afterwards, are at most those that it had
/// left before (clause `call`).
///
/// So a dispatch of one client receives from it at most 64 times, however many actions it handles and whatever its
/// handler calls, its cleanup included (clause `dispatch`). A dispatch of several clients is one part for each of them, in
/// order, and a cleanup. In its part each client is received from at most 64 times (clause `several`).
pub fn each_reading_receives_within_its_bound<
    T: Transport,
    U,
    G: GlobalHandler<C>,
    C,
    H: Handler<T, U, G, C>,
>()
    ensures call { (before after : ServerState T U G C) (e : Entry T U G C) →
        OneStep (over T.sends T.receives G.views) before e after → EachIsBounded e }
    ensures dispatch { (id : ClientParts) (h h' : H) (before mid : ServerState T U G C) (after : BackendState T U G C) (calls : List (Entry T U G C))
        (lacked : Bool) (answer result : Result ℕ IoFault) →
        IsDispatched (over T.sends T.receives G.views) (answering H.requests H.binds) id h before calls lacked answer h' mid →
        (ends : EndsDispatch (over T.sends T.receives G.views) before calls lacked mid answer result after) →
        receives_over id (calls ++ ends.cleanup ∷ []) ≤ 64 }
    ensures several { (ids : List ClientParts) (h h' : H) (before mid : ServerState T U G C) (calls : List (Entry T U G C)) (lacked : Bool) (total : ℕ) →
        EachIsDispatched (over T.sends T.receives G.views) (answering H.requests H.binds) ids h before calls lacked total h' mid →
        EachPartIsBounded ids calls }
{}
