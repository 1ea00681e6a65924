//! Laws that follow from the definitions of a session alone. Each function does nothing, but for the last, which compares two
//! ids; its contract states a law.
//!
//! A *run* is a list of calls over the transport by script, each with its reply. A *history* is a list of calls over any
//! transport, each with its reply, of changes that the program makes to the transport between them, and of what it adds to the
//! table. A history *from `connect` on* begins with a session as `connect` returns it (`IsConnected`); any other may begin
//! with any session. The laws of histories speak of every transport. Over the transport by script a call of that transport is
//! a change of it (`calls_over_scripts_are_steps`). An id *names* an object if its number has that object and its serial is
//! that object's.

ghost use Rattle.std.specs.Prelude.{◌≡◌, ◌∷◌, ◌++◌, ◌↔◌, ◌⊎◌, [], Bool, List, Option, None, Some, Result, Ok, Err, IsSome, IsTrue, Vec, false, true, length, map, ℕ};
ghost use Rattle.std.specs.Global.{Global};
ghost use Rattle.wl_wire.specs.declared.argument.Token.{Token};
ghost use Rattle.wl_wire.specs.declared.error.IoFault.{IoFault};
ghost use Rattle.wl_wire.specs.declared.error.OutOfMemory.{OutOfMemory};
ghost use Rattle.wl_wire.specs.Table.{InterfaceRow};
ghost use Rattle.wl_link.specs.declared.memory.ArriveError.{ArriveError};
ghost use Rattle.wl_link.specs.Exchange.{IsFunction, IsReceiveFunction, Queue, nothing};
ghost use Rattle.wl_link.specs.Reader.{AllFed, Given, Gives, ReaderState, Reads, Turn, received_in};
ghost use Rattle.wl_link.specs.Script.{Script, ScriptReceives, ScriptSends, parcel};
ghost use Rattle.wl_link.specs.Store.{held, is_server_number};
ghost use Rattle.wl_link.specs.declared.object.Object.{Object};
ghost use Rattle.wl_client.specs.Cutting.{GoesOn, IsCut, IsServed};
ghost use Rattle.wl_client.specs.Finish.{Finishes};
ghost use Rattle.wl_client.specs.Reading.{answered, client, reader_state_of};
ghost use Rattle.wl_client.specs.ReadingEnds.{ReadingEnds};
ghost use Rattle.wl_client.specs.Requests.{SessionMessage};
ghost use Rattle.wl_client.specs.declared.objects.Kept.{Kept};
ghost use Rattle.wl_client.specs.declared.step.Reply.{Reply};
ghost use Rattle.wl_client.specs.declared.step.Reply.TheVariants as reply;
ghost use Rattle.wl_client.specs.declared.step.Step.{Step};
ghost use Rattle.wl_client.specs.declared.step.Step.TheVariants as step;
ghost use Rattle.wl_client.specs.Accounts.{Calls, CallsLocally, IsAccountedFor, IsChange};
ghost use Rattle.wl_client.specs.Failed.{StaysFailed};
ghost use Rattle.wl_client.specs.Freed.{AllKeep, TellsWhatLeft};
ghost use Rattle.wl_client.specs.Handed.{HasOwnIds};
ghost use Rattle.wl_client.specs.Heard.{AllHeard, Hears, events_in, finished_in};
ghost use Rattle.wl_client.specs.Histories.{Called, Changed, Deed, Does, EachStandsFor, History, called};
ghost use Rattle.wl_client.specs.Named.{KeepsNaming};
ghost use Rattle.wl_client.specs.Numbers.{HasOrLeft, NumberMoves};
ghost use Rattle.wl_client.specs.ObjectId.{IdParts};
ghost use Rattle.wl_client.specs.Noted.{NotesWhatEnded};
ghost use Rattle.wl_client.specs.OneOutcome.{SameAnswers, SameDeeds};
ghost use Rattle.wl_client.specs.Replies.{SameReply, SameReplies};
ghost use Rattle.wl_client.specs.Scripted.{Arrives, Becomes};
ghost use Rattle.wl_client.specs.Session.{ClientState, Core, SessionState, IsConnected, named, over_transport};
ghost use Rattle.wl_client.specs.Steps.{CallOf, Entry, IsOfScript, Leads, StepOf, entries, refused_arrive, refused_script};
ghost use Rattle.wl_client.specs.Stretches.{IsRunServed, IsStretch, IsStretchWithin, SameLeft, arrived, events_of, finished};

use crate::next_event::READ_TURNS;
use crate::object_id::ObjectId;
use wl_link::Transport;

/// The identity law: each id that a session hands out names the object that it was made of, as long as that object is kept,
/// and then none.
///
/// It holds of every history from `connect` on. Each id in a reply is made in the step of that reply. The id of a new object,
/// of a request or an event, is that of an object which this step made. The law also holds where memory ran out in a
/// step.
pub fn each_id_names_its_own_object<T: Transport, U>()
    ensures every { (table : List InterfaceRow) (transport : T) (before after : SessionState T U) (deeds : List (Deed T U)) →
        IsConnected table transport before → History (CallOf T.sends T.receives) before deeds after → HasOwnIds (CallOf T.sends T.receives) before deeds after }
{}

/// The identity law for any id, no matter where it comes from: also for one that `display_id` or a look-up returned.
///
/// It holds of every history from `connect` on. From each point on at which the id names an object, it names that object as
/// long as that is kept, and then none (`named`). If it names none at a later point, it never names one again (`none`).
pub fn each_id_that_names_an_object_keeps_it<T: Transport, U>()
    ensures named { (table : List InterfaceRow) (transport : T) (begun point after : SessionState T U) (done later : List (Deed T U)) →
        IsConnected table transport begun → History (CallOf T.sends T.receives) begun done point → History (CallOf T.sends T.receives) point later after →
        KeepsNaming (CallOf T.sends T.receives) begun done point later after }
    ensures none { (table : List InterfaceRow) (transport : T) (begun point mid after : SessionState T U) (done between later : List (Deed T U)) →
        IsConnected table transport begun → History (CallOf T.sends T.receives) begun done point →
        History (CallOf T.sends T.receives) point between mid → History (CallOf T.sends T.receives) mid later after →
        (id : IdParts) → IsSome (named point.store id) → ¬ IsSome (named mid.store id) → ¬ IsSome (named after.store id) }
{}

/// The law of notes: each object that ends with user data is noted once, and no other.
///
/// Over every history from `connect` on, the notes that were taken, followed by those that still wait, are those of the
/// objects that ended with user data, in order. Each note was made in the step in which its object ended.
pub fn each_object_that_ends_is_noted_once<T: Transport, U>()
    ensures every { (table : List InterfaceRow) (transport : T) (before after : SessionState T U) (deeds : List (Deed T U)) →
        IsConnected table transport before → History (CallOf T.sends T.receives) before deeds after → NotesWhatEnded (CallOf T.sends T.receives) before deeds after }
{}

/// The law of numbers: no object takes the number of another one, unless both sides have given that up.
///
/// It is about the numbers of the client's range, and holds of every history. An object leaves its number only in a step before
/// which the client had destroyed it, or an event had; and its id was deleted before, or the step is a reading of the server's
/// `wl_display.delete_id`. An id counts as deleted only by such a reading, and not for a new object (`step`). So an object that
/// has a number before a history has it after that, or left it in one of its steps in this way (`history`). Numbers of its own
/// range the server uses again without a `delete_id`, but only once the client has destroyed the object.
pub fn a_number_is_free_only_once_both_sides_gave_it_up<T: Transport, U>()
    ensures step { (before after : SessionState T U) (d : Deed T U) (n : ℕ) → is_server_number n ≡ false →
        Does (CallOf T.sends T.receives) before d after → NumberMoves T.sends T.receives n before d after }
    ensures history { (begun after : SessionState T U) (deeds : List (Deed T U)) (n : ℕ) (x : Object (Kept U)) → is_server_number n ≡ false →
        History (CallOf T.sends T.receives) begun deeds after → held begun.store n ≡ Some x → HasOrLeft T.sends T.receives n x begun deeds after }
{}

/// The law of freed ids: while a session keeps the ids of the objects that leave their numbers, each is handed out once, or waits.
///
/// It holds of every history over which ids are kept (`Backend::keep_freed`). The ids that were taken, followed by those that still
/// wait, are those that waited before it, followed by those of the objects that left their numbers in it, in order. What
/// `Backend::reclaim` takes out is not among them: its answer tells that.
pub fn each_number_that_is_left_is_told_once<T: Transport, U>()
    ensures every { (before after : SessionState T U) (deeds : List (Deed T U)) → before.keeps_freed ≡ true → AllKeep deeds →
        History (CallOf T.sends T.receives) before deeds after → TellsWhatLeft (CallOf T.sends T.receives) before deeds after }
{}

/// The law of errors: a session that has an error keeps one. Over every history that begins with such a session, each reading
/// and each flush answers `Failed`.
pub fn a_failed_session_stays_failed<T: Transport, U>()
    ensures every { (before after : SessionState T U) (deeds : List (Deed T U)) →
        IsSome before.error → History (CallOf T.sends T.receives) before deeds after → StaysFailed deeds after }
{}

/// The laws of identity, of names, of notes and of errors hold of every history from `connect` on, and all of them of the
/// same changes of its objects.
pub fn each_client_is_accounted_for<T: Transport, U>()
    ensures every { (table : List InterfaceRow) (transport : T) (begun after : SessionState T U) (deeds : List (Deed T U)) →
        IsConnected table transport begun → History (CallOf T.sends T.receives) begun deeds after → IsAccountedFor (CallOf T.sends T.receives) begun deeds after }
{}

/// A call that neither sends nor receives is a call over every transport: a step of a history, which stays accounted for
/// (`call`). So is each change of the transport that the program makes through `Backend::transport_mut` (`change`).
///
/// The contracts of such calls do not name what the transport sends and receives, so they need no bound.
pub fn local_calls_are_calls<T: Transport, U>()
    ensures call { (before after : ClientState T U) (call : Step U) (answer : Reply U) →
        CallsLocally before call answer after → Calls (CallOf T.sends T.receives) before call answer after }
    ensures change { (before : SessionState T U) (t : T) → IsChange (CallOf T.sends T.receives) before t (over_transport before t) }
{}

/// A call of a session over the transport by script is a step over that transport (`step`). So a history of such calls is one
/// of steps (`history`). Each step is such a call, or one of the transport itself, which is a change of it (`change`). A
/// history of steps stands, one for one, for one of such calls and changes (`changes`). So what is said of histories over
/// every transport is said of steps, too, but for what a call of the transport itself answers.
pub fn calls_over_scripts_are_steps<U>()
    ensures step { (before : SessionState Script U) (call : Step U) (answer : Reply U) (refused : Bool) (after : SessionState Script U) →
        CallOf ScriptSends ScriptReceives before call answer refused after → StepOf before call answer refused after }
    ensures history { (before after : SessionState Script U) (deeds : List (Deed Script U)) →
        History (CallOf ScriptSends ScriptReceives) before deeds after → History StepOf before deeds after }
    ensures change { (before : SessionState Script U) (call : Step U) (answer : Reply U) (refused : Bool) (after : SessionState Script U) →
        StepOf before call answer refused after →
        CallOf ScriptSends ScriptReceives before call answer refused after ⊎ (IsOfScript call × (t : Script) × (after ≡ over_transport before t)) }
    ensures changes { (before after : SessionState Script U) (deeds : List (Deed Script U)) → History StepOf before deeds after →
        (others : List (Deed Script U)) × EachStandsFor deeds others × History (CallOf ScriptSends ScriptReceives) before others after }
{}

/// Histories that follow one another are one history (`every`). A run, as of `Backend::replay`, is a history of its entries
/// (`run`), and so is a part of a history in which only such calls are made.
pub fn histories_are_joined<T: Transport, U>()
    ensures every { (begun mid after : SessionState T U) (deeds others : List (Deed T U)) →
        History (CallOf T.sends T.receives) begun deeds mid → History (CallOf T.sends T.receives) mid others after →
        History (CallOf T.sends T.receives) begun (deeds ++ others) after }
    ensures run { (before after : SessionState Script U) (run : List (Entry U)) →
        Leads before run after ↔ History StepOf before (called run) after }
{}

/// What a program does to the transport by script through `Backend::transport_mut` is a step, if it is one call of `Memory`.
///
/// The premise of each clause is what the contract of that call says of the transport. So in a history the step may stand
/// for the change of the transport that the program made of the session as it was (`instead`): what is proved of runs over
/// scripts then holds of it.
pub fn calls_of_a_script_are_steps<U>()
    ensures arrive { (before : SessionState Script U) (bytes : Vec ℕ Global) (tokens : Vec Token Global) (answer : Result (Unit {0}) ArriveError) (t : Script) →
        Arrives before.link.transport (record { bytes = bytes.items; tokens = tokens.items }) answer t →
        StepOf before (step.Arrive bytes tokens) (reply.Arrive answer) (refused_arrive answer) (over_transport before t) }
    ensures arrive_fault { (before : SessionState Script U) (fault : IoFault) (answer : Result (Unit {0}) OutOfMemory) (t : Script) →
        Becomes before.link.transport (record before.link.transport { arrivals = before.link.transport.arrivals ++ Err fault ∷ [] }) answer t →
        StepOf before (step.ArriveFault fault) (reply.ArriveFault answer) (refused_script answer) (over_transport before t) }
    ensures accept { (before : SessionState Script U) (count : ℕ) (answer : Result (Unit {0}) OutOfMemory) (t : Script) →
        Becomes before.link.transport (record before.link.transport { answers = before.link.transport.answers ++ Ok count ∷ [] }) answer t →
        StepOf before (step.Accept count) (reply.Accept answer) (refused_script answer) (over_transport before t) }
    ensures accept_fault { (before : SessionState Script U) (fault : IoFault) (answer : Result (Unit {0}) OutOfMemory) (t : Script) →
        Becomes before.link.transport (record before.link.transport { answers = before.link.transport.answers ++ Err fault ∷ [] }) answer t →
        StepOf before (step.AcceptFault fault) (reply.AcceptFault answer) (refused_script answer) (over_transport before t) }
    ensures take_sent { (before : SessionState Script U) (sent : Vec (Vec ℕ Global × Vec Token Global) Global) (t : Script) →
        map parcel sent.items ≡ before.link.transport.sent → t ≡ record before.link.transport { sent = [] } →
        StepOf before step.TakeSent (reply.TakeSent sent) false (over_transport before t) }
    ensures instead { (begun mid after : SessionState Script U) (earlier later : List (Deed Script U)) (t : Script) (e : Entry U) →
        History StepOf begun earlier mid → StepOf mid e.step e.answer e.refused (over_transport mid t) →
        History StepOf mid (Changed t ∷ later) after → History StepOf begun (earlier ++ Called e ∷ later) after }
{}

/// If memory does not run out, each step over the transport by script has one outcome (`step`), and so has each run (`run`) and
/// each history of steps (`script`).
///
/// The session before a step, and the step, determine the reply and the session after it. This leaves open only the
/// addresses of a reply's lists in memory. Over every transport the same holds of a call (`call`) and of a history
/// (`history`), if each send and each receive of the transport has one outcome.
pub fn each_run_has_one_outcome<T: Transport, U>()
    ensures call { IsFunction T.sends → IsReceiveFunction T.receives →
        (before after after' : SessionState T U) (step : Step U) (answer answer' : Reply U) →
        CallOf T.sends T.receives before step answer false after → CallOf T.sends T.receives before step answer' false after' →
        SameReply answer answer' × (after ≡ after') }
    ensures history { IsFunction T.sends → IsReceiveFunction T.receives →
        (before after after' : SessionState T U) (deeds others : List (Deed T U)) → SameDeeds deeds others →
        History (CallOf T.sends T.receives) before deeds after → History (CallOf T.sends T.receives) before others after' →
        SameAnswers deeds others × (after ≡ after') }
    ensures step { (before after after' : SessionState Script U) (step : Step U) (answer answer' : Reply U) →
        StepOf before step answer false after → StepOf before step answer' false after' →
        SameReply answer answer' × (after ≡ after') }
    ensures run { (before after after' : SessionState Script U) (steps : List (Step U)) (replies replies' : List (Reply U)) →
        length replies ≡ length steps → length replies' ≡ length steps →
        Leads before (entries steps replies) after → Leads before (entries steps replies') after' →
        SameReplies replies replies' × (after ≡ after') }
    ensures script { (before after after' : SessionState Script U) (deeds others : List (Deed Script U)) → SameDeeds deeds others →
        History StepOf before deeds after → History StepOf before others after' → SameAnswers deeds others × (after ≡ after') }
{}

/// It does not matter how bytes and tokens are cut into receives, for every transport.
///
/// A session *serves* bytes and tokens: it handles them as if they had all come at once, and hands out events. If the
/// session before a reading serves the whole stream, it first hands out the events of the reading. Then it hands out what
/// the session after the reading hands out if it serves the rest of the stream (`reading`). Each receive of the reading
/// must have brought a byte or have returned `WouldBlock`, and memory must not have run out.
///
/// If the session has no error and accepts a finish, that is the next of the finishes (`finish`). Both are said of each call
/// that reads or finishes, too (`call`). A session can always serve what waits (`some`), and that has one outcome (`one`).
pub fn cutting_does_not_matter_to_a_client<T: Transport, U>()
    ensures reading { (left : ℕ) (before after : ReaderState T (Core U)) (turns : List Turn) (out : Gives SessionMessage) →
        Reads T.sends client T.receives left before turns out after → AllFed turns → out.refused ≡ false →
        (finishes : List (Option U)) → GoesOn before (received_in turns) finishes out.gave after finishes }
    ensures finish { (before after : SessionState T U) (u : Option U) → before.error ≡ None → Finishes before u (Ok tt) after →
        (finishes : List (Option U)) → GoesOn (reader_state_of before) nothing (u ∷ finishes) [] (reader_state_of after) finishes }
    ensures call { (before after : SessionState T U) (call : Step U) (answer : Reply U) (refused : Bool) →
        CallOf T.sends T.receives before call answer refused after → IsCut T.sends T.receives before call answer refused after }
    ensures one { (before : ReaderState T (Core U)) (more : Queue) (finishes : List (Option U)) (events others : List (Given SessionMessage)) (x y : _) →
        IsServed before more finishes events x → IsServed before more finishes others y → (events ≡ others) × (x ≡ y) }
    ensures some { (before : ReaderState T (Core U)) (more : Queue) (finishes : List (Option U)) →
        (events : List (Given SessionMessage)) × (after : _) × IsServed before more finishes events after }
{}

/// The same for a part of a history over any transport, in which events are read and finished. The program may change the
/// transport in it, but no other call is made, and memory does not run out.
///
/// Such a part has *turns*: the receives and messages of its readings, one after another (`heard`). If each receive brought a
/// byte or would have blocked, then the session before the part, served over all that was received, first hands out the
/// events of the part. Then it hands out what the session after the part hands out (`served`). The finishes are those that
/// were accepted, and any others after them. So it does not matter how that was cut into receives and readings.
pub fn cutting_does_not_matter_to_a_history<T: Transport, U>()
    ensures heard { (before after : SessionState T U) (deeds : List (Deed T U)) →
        History (CallOf T.sends T.receives) before deeds after → AllHeard deeds → (turns : List Turn) × Hears T.sends T.receives before deeds turns after }
    ensures served { (before after : SessionState T U) (deeds : List (Deed T U)) (turns : List Turn) →
        before.error ≡ None → AllHeard deeds → Hears T.sends T.receives before deeds turns after → AllFed turns →
        (finishes : List (Option U)) → GoesOn (reader_state_of before) (received_in turns) (finished_in deeds ++ finishes) (events_in deeds) (reader_state_of after) finishes }
{}

/// The same for a *stretch* of a run, in which bytes and tokens arrive and events are read and finished.
///
/// A stretch hands out the same, and leads to the same, as if the session served all that arrived, with the finishes that
/// were accepted (`served`). So two stretches with the same bytes and tokens, however they are cut, and with the same
/// finishes hand out the same and lead to the same (`same`). Each arrival must bring a byte or be `WouldBlock`, memory must
/// not run out, and no receive may find the buffer full.
///
/// No receive finds the buffer full if each message is no longer than the incoming buffer may become, and its tokens come
/// no later than its last byte (`within`).
pub fn cutting_does_not_matter_to_a_run<U>()
    ensures served { (before after : SessionState Script U) (run : List (Entry U)) →
        Leads before run after → IsStretch before run after → IsRunServed before run after }
    ensures within { (before after : SessionState Script U) (run : List (Entry U)) →
        Leads before run after → IsStretchWithin before run after → IsStretch before run after }
    ensures same { (before after other : SessionState Script U) (run others : List (Entry U)) →
        Leads before run after → Leads before others other → IsStretch before run after → IsStretch before others other →
        arrived run ≡ arrived others → finished run ≡ finished others → (events_of run ≡ events_of others) × SameLeft after other }
{}

/// The value of a constant of this crate: a reading makes at most 64 receives.
pub fn a_reading_receives_64_times()
    ensures { READ_TURNS ≡ 64 }
{}

/// A reading of a session without an error and without an open event ends with an event or for a reason.
///
/// An event comes of the message that the last turn found at the front of what was received. That message is to a kept object
/// that is not the display and that the client had not destroyed. The event has the message's opcode, and its arguments are the
/// message's if each id is turned back into its number. Each object argument is null, or is the id of the object that its number
/// has, whose interface fits the table's: before the message, or after it if the argument stands behind the new id. Else the
/// answer is one of these:
///
/// - `WouldBlock`: the last receive answered so; or no receive is left, and the message at the front lacks bytes or tokens.
/// - `OutOfMemory`: the last receive answered so; or memory ran out, and the message at the front asks for some, or a receive
///   does.
/// - `Failed`: the session has an error now. This is the fault that the last receive answered, or comes of what the last turn found
///   at the front. That is `wl_display.error` with a text: the session's error is the one that it tells. Else the session's error
///   says what is wrong: bytes that are no message by the table; an event of the display that is neither an error with a text nor
///   a `delete_id`; or, in an event of another object, the first argument that is wrong. Or it is `Io(OutOfMemory)`, if there was no
///   memory for the texts of such an error.
///
/// An argument is wrong if it is the number of an object that is not there or whose interface does not fit the table's; or a new
/// number that the server may not use, or for which the table names no interface, as for a second one.
///
/// After `WouldBlock` and `OutOfMemory` there is no error and no open event. Each reading carries this (clause `reason` of
/// `Backend::next_event`).
pub fn each_reading_ends_for_a_reason<T: Transport, U>()
    ensures { (left : ℕ) (before after : SessionState T U) (turns : List Turn) (out : Gives SessionMessage) →
        before.error ≡ None → before.open_event ≡ None → Reads T.sends client T.receives left (reader_state_of before) turns out (reader_state_of after) →
        ReadingEnds T.sends T.receives (reader_state_of before) turns (answered out.stopped out.gave) out.refused out.left (reader_state_of after) }
{}

/// Two ids of objects are equal if all their parts are equal, and only then.
pub fn ids_are_equal_by_all_parts(a: &ObjectId, b: &ObjectId) -> bool
    ensures { IsTrue result ↔ (a.now ≡ b.now) }
{
    a == b
}
