//! Each receive and each send of each client's transport fails in turn, over the runs of the drills.
//!
//! A receive that fails kills the client, and is the answer of the reading that makes it. A send that fails is the answer
//! of a flush of the client; it is dropped in a flush of all, in the flush after an error, and in a cleanup. In any other
//! call it is a write that failed, which kills the client; the call answers as ever, only a reading answers that the client
//! is killed. All that concerns the other clients is the same as in the run in which nothing fails.
//!
//! A receive or a send that would block, or lacks memory, is made up for by the same call once more: the run comes to what it
//! came to without.

use super::drill::{Entry, Run, Server, behind_insertion, client_of, drill, made};
use server_test_kit::steps::{Call, Made};
use server_test_kit::told::{note, reply};
use server_test_kit::values::{FIRST, SECOND, THIRD, Who};
use std::alloc::Global;
use std::fmt::Write;
use std::process::Abort;
use std::test::Fail;
use test_kit::faults::with_fault;
use test_kit::quad::quad_table;
use wl_link::Memory;
use wl_server::{Backend, ClientId, Note, Reply};
use wl_wire::{IoFault, Token};

/// The fault of a transport that fails.
const FAULT: IoFault = IoFault::Other(5);

/// What becomes of the fault.
#[derive(Clone, Copy)]
enum End {
    /// A reading answers it, and its client is killed.
    Read,
    /// A flush answers it.
    Flushed,
    /// It is dropped.
    Dropped,
    /// The client is killed for it.
    Killed,
    /// It is not met, or it is made up for.
    Unmet,
}

/// What is heard in a run, what is about one client by itself.
#[derive(Drop)]
struct Heard {
    /// The client.
    who: Who,
    /// Whether a call is made again that would block, or for which memory was refused. Then notes are told with the rest.
    makes_up: bool,
    /// What each step tells, but of the client's sends, its notes and that it is taken out.
    texts: Vec<String>,
    /// How many sends to the client there were up to the end of each step.
    sends: Vec<usize>,
    /// How many of them were taken.
    taken: usize,
    /// What was taken, as one.
    bytes: Vec<u8>,
    /// The client's notes, and that it is taken out, a line each.
    notes: String,
}

impl Heard {
    /// Nothing is heard yet.
    fn new(alloc: Global, who: Who, makes_up: bool) -> Self {
        Heard {
            who,
            makes_up,
            texts: Vec::new(alloc),
            sends: Vec::new(alloc),
            taken: 0,
            bytes: Vec::new(alloc),
            notes: String::new(alloc),
        }
    }
}

/// Whether the step is one of the client.
fn is_of(entry: Entry, who: Who) -> bool {
    match client_of(entry) {
        Some(of) => of.0 == who.0 && of.1 == who.1,
        None => false,
    }
}

/// Hears what was sent to the client.
fn hear_sends(heard: &mut Heard, sends: &[(Vec<u8>, Vec<Token>)]) -> Result<(), Fail> {
    heard.taken = heard.taken.saturating_add(sends.len());
    for (bytes, _) in sends {
        heard.bytes.extend_from_slice(bytes.as_slice())?;
    }
    Ok(())
}

/// Hears which clients were taken out.
fn hear_out(heard: &mut Heard, text: &mut String, out: &[(ClientId, Memory)]) -> Result<(), Fail> {
    for (id, script) in out {
        if *id == heard.who.id() {
            writeln!(heard.notes, "out")?;
            hear_sends(heard, script.sent())?;
        } else {
            writeln!(text, "out: client {}, {}", id.slot(), id.serial())?;
        }
    }
    Ok(())
}

/// Writes the note into a line of its own.
fn write_note(log: &mut String, one: &Note<u32>) -> Result<(), Fail> {
    note(log, one)?;
    Ok(writeln!(log)?)
}

/// Whether the note is about the client.
fn is_about(one: &Note<u32>, who: Who) -> bool {
    match one {
        Note::Initialized(id) | Note::Disconnected(id, _) | Note::Destroyed(id, _, _) => {
            *id == who.id()
        }
    }
}

/// Hears the notes.
fn hear_notes(heard: &mut Heard, text: &mut String, notes: &[Note<u32>]) -> Result<(), Fail> {
    for one in notes {
        if is_about(one, heard.who) && !heard.makes_up {
            write_note(&mut heard.notes, one)?;
        } else {
            write_note(text, one)?;
        }
    }
    Ok(())
}

/// Hears the reply to the step.
fn hear(
    heard: &mut Heard,
    text: &mut String,
    entry: Entry,
    told: &Reply<Memory, u32>,
) -> Result<(), Fail> {
    match told {
        Reply::TakeSent(Ok(sends)) if is_of(entry, heard.who) => {
            hear_sends(heard, sends.as_slice())
        }
        Reply::Cleanup(Ok(out)) => hear_out(heard, text, out.as_slice()),
        Reply::TakeNotes(Ok(notes)) => hear_notes(heard, text, notes.as_slice()),
        _ => reply(text, told),
    }
}

/// Hears the replies to the step, of which there is one; what it tells.
fn hear_all(
    alloc: Global,
    heard: &mut Heard,
    entry: Entry,
    replies: &[Reply<Memory, u32>],
) -> Result<Option<String>, Fail> {
    let mut text = String::new(alloc);
    for told in replies {
        hear(heard, &mut text, entry, told)?;
    }
    Ok(Some(text))
}

/// The step as a run.
fn alone(alloc: Global, entry: Entry) -> Result<Vec<Made>, Fail> {
    let mut steps = Vec::new(alloc);
    steps.push(made(alloc, entry)?)?;
    Ok(steps)
}

/// Makes the step, and hears its reply; what it tells, or none if memory was refused.
fn answer(
    alloc: Global,
    server: &mut Server,
    heard: &mut Heard,
    entry: Entry,
) -> Result<Option<String>, Fail> {
    let steps = alone(alloc, entry)?;
    match server.replay(steps) {
        Ok(replies) => hear_all(alloc, heard, entry, replies.as_slice()),
        Err(_) => Ok(None),
    }
}

/// How many sends to the client were not taken, and how many arrivals its script has left.
fn left(server: &Server, who: Who) -> (usize, usize) {
    match server.transport(&who.id()) {
        Ok(script) => (script.sent().len(), script.arrivals_left()),
        Err(_) => (0, 0),
    }
}

/// Whether the step would block, and there is more to be done.
fn would_block(server: &Server, entry: Entry, told: &str) -> bool {
    match entry {
        Entry::Do(Call::Next(who), _) => {
            told == "Io error: would block\n" && left(server, who).1 > 0
        }
        Entry::Do(Call::Flush(_), _) => told == "would block\n",
        _ => false,
    }
}

/// Makes the step, again if its fault is to be made up for; what it tells.
fn told_by(
    alloc: Global,
    server: &mut Server,
    heard: &mut Heard,
    entry: Entry,
) -> Result<String, Fail> {
    let tries = if heard.makes_up { 4 } else { 1 };
    for _ in 0..tries {
        if let Some(told) = answer(alloc, server, heard, entry)? {
            if !(heard.makes_up && would_block(server, entry, told.as_str())) {
                return Ok(told);
            }
        }
    }
    Err(Fail::new("memory was refused, or a step is made again and again"))
}

/// Whether the step gives a script a fault, or a send that it takes before one.
fn is_cue(entry: Entry) -> bool {
    matches!(
        entry,
        Entry::Do(
            Call::ArriveFault(..) | Call::Accept(..) | Call::AcceptFault(..),
            _
        )
    )
}

/// Makes the step, and hears its reply, and how many sends to the client there were up to its end. Of a cue nothing is heard.
fn perform(
    alloc: Global,
    server: &mut Server,
    heard: &mut Heard,
    entry: Entry,
) -> Result<(), Fail> {
    let told = told_by(alloc, server, heard, entry)?;
    if is_cue(entry) {
        return Ok(());
    }
    heard.texts.push(told)?;
    let sends = heard.taken.saturating_add(left(server, heard.who).0);
    Ok(heard.sends.push(sends)?)
}

/// Makes the steps.
fn perform_all(
    alloc: Global,
    server: &mut Server,
    heard: &mut Heard,
    entries: &[Entry],
) -> Result<(), Fail> {
    for entry in entries {
        perform(alloc, server, heard, *entry)?;
    }
    Ok(())
}

/// What is heard of a run of a new server.
fn heard_of(alloc: Global, who: Who, makes_up: bool, entries: &[Entry]) -> Result<Heard, Fail> {
    let mut heard = Heard::new(alloc, who, makes_up);
    play(alloc, &mut heard, entries)?;
    Ok(heard)
}

/// Makes the run of a new server.
fn play(alloc: Global, heard: &mut Heard, entries: &[Entry]) -> Result<(), Fail> {
    let table = quad_table(alloc)?;
    let mut server = Backend::new(alloc, table);
    let answer = perform_all(alloc, &mut server, heard, entries);
    drop(server);
    answer
}

/// The run, and then all that waits is sent and taken, and all notes are.
fn with_end(alloc: Global, run: &Run, who: Who) -> Result<Vec<Entry>, Fail> {
    let end = [
        Entry::Do(Call::Flush(who), ""),
        Entry::Do(Call::Flush(who), ""),
        Entry::Do(Call::TakeSent(who), ""),
        Entry::Do(Call::FlushAll, ""),
        Entry::Do(Call::TakeSent(FIRST), ""),
        Entry::Do(Call::TakeSent(SECOND), ""),
        Entry::Do(Call::TakeSent(THIRD), ""),
        Entry::Do(Call::Cleanup, ""),
        Entry::Do(Call::Notes, ""),
    ];
    let mut entries = Vec::from_slice(alloc, run.entries)?;
    entries.extend_from_slice(&end)?;
    Ok(entries)
}

/// A fault of a run: whose, in which step it is met, and what becomes of it.
#[derive(Clone, Copy)]
struct Met {
    who: Who,
    at: usize,
    end: End,
}

impl Met {
    /// Whether the client is killed for it.
    fn kills(self) -> bool {
        matches!(self.end, End::Read | End::Killed)
    }
}

/// What the step has to tell in place of what it was: of the client's, from that one on in which the fault is met. Nothing in
/// particular if the client is killed then.
fn text_of(met: Met, (at, entry): (usize, Entry), was: &str) -> Option<&str> {
    if at < met.at || !is_of(entry, met.who) {
        return Some(was);
    }
    let is_reading = matches!(entry, Entry::Do(Call::Next(_), _));
    let is_met = at == met.at;
    match met.end {
        End::Read if is_met => Some("Io error: os error 5\n"),
        End::Flushed if is_met => Some("os error 5\n"),
        End::Read | End::Killed if is_reading => Some("Io error: broken pipe\n"),
        End::Read | End::Killed if !is_met => None,
        _ => Some(was),
    }
}

/// Fails if the step tells something else than it has to.
fn judge_text(
    rt: &impl Abort,
    run: &Run,
    met: Met,
    (at, entry): (usize, Entry),
    (was, is): (&str, &str),
) {
    if let Some(text) = text_of(met, (at, entry), was) {
        assert_eq!(rt; is, text, "{}: {at}", run.name);
    }
}

/// Fails if a step tells something else than it has to.
fn judge_texts(
    rt: &impl Abort,
    run: &Run,
    met: Met,
    entries: &[Entry],
    (clean, heard): (&[String], &[String]),
) {
    for (at, (entry, (was, is))) in entries.iter().zip(clean.iter().zip(heard)).enumerate() {
        judge_text(rt, run, met, (at, *entry), (was.as_str(), is.as_str()));
    }
}

/// How many lines begin and end so.
fn lines_with(text: &str, front: &str, back: &str) -> usize {
    text.lines()
        .filter(|line| line.starts_with(front) && line.ends_with(back))
        .count()
}

/// Whether the client was noted as inserted once, as closed once and nothing else, and taken out once.
fn is_closed_once(notes: &str) -> bool {
    lines_with(notes, "initialized", "") == 1
        && lines_with(notes, "disconnected", "") == 1
        && lines_with(notes, "disconnected", ": closed") == 1
        && lines_with(notes, "out", "") == 1
}

/// Fails if the client noted something else than it has to.
fn judge_notes(rt: &impl Abort, run: &Run, met: Met, was: &str, is: &str) {
    let is_right = if met.kills() {
        is_closed_once(is)
    } else {
        is == was
    };
    assert!(rt; is_right, "{}: {is}", run.name);
}

/// Whether the client was sent what it has to be, or the front of that, if it may be no more: what is not sent until a
/// client is taken out is lost, and a killed one is sent no more.
fn is_sent(may_be_a_front: bool, was: &[u8], is: &[u8]) -> bool {
    was.starts_with(is) && (may_be_a_front || was.len() == is.len())
}

/// Fails if the client was sent, or noted, something else than it has to.
fn judge_rest(
    rt: &impl Abort,
    run: &Run,
    met: Met,
    entries: &[Entry],
    (clean, heard): (&Heard, &Heard),
) {
    judge_notes(rt, run, met, clean.notes.as_str(), heard.notes.as_str());
    let is_cleanup = matches!(entries.get(met.at), Some(Entry::Do(Call::Cleanup, _)));
    let is_right = is_sent(
        met.kills() || is_cleanup,
        clean.bytes.as_slice(),
        heard.bytes.as_slice(),
    );
    assert!(rt; is_right, "{}", run.name);
}

/// Fails if what is heard of a run with the fault is not what it has to be.
fn judge_heard(
    rt: &impl Abort,
    run: &Run,
    met: Met,
    entries: &[Entry],
    (clean, heard): (&Heard, &Heard),
) {
    let texts = (clean.texts.as_slice(), heard.texts.as_slice());
    assert!(rt; texts.1.len() == texts.0.len(), "{}", run.name);
    judge_texts(rt, run, met, entries, texts);
    judge_rest(rt, run, met, entries, (clean, heard));
}

/// Whether the step sends the client an error.
fn posts_error(run: &Run, who: Who, at: usize) -> bool {
    who.0 == 0 && run.error_bytes > 0 && matches!(run.dies, Some(step) if step == at)
}

/// What becomes of a send that fails in that step; whether it is the step's last to the client.
fn end_of_send(run: &Run, who: Who, (at, entry): (usize, Entry), is_last: bool) -> End {
    match entry {
        Entry::Do(Call::Flush(_), _) => End::Flushed,
        Entry::Do(Call::FlushAll | Call::Cleanup, _) => End::Dropped,
        _ if is_last && posts_error(run, who, at) => End::Dropped,
        _ => End::Killed,
    }
}

/// What becomes of a fault that is in no step.
fn unmet(who: Who, entries: &[Entry]) -> Met {
    Met {
        who,
        at: entries.len(),
        end: End::Unmet,
    }
}

/// What becomes of the send after so many others, if nothing failed before; not met if there is none.
fn met_by_send(run: &Run, who: Who, entries: &[Entry], sends: &[usize], before: usize) -> Met {
    for (at, (entry, count)) in entries.iter().zip(sends).enumerate() {
        if *count > before {
            let is_last = before.saturating_add(1) == *count;
            let end = end_of_send(run, who, (at, *entry), is_last);
            return Met { who, at, end };
        }
    }
    unmet(who, entries)
}

/// Where the client's first reading that tells of the fault is.
fn met_by_receive(who: Who, entries: &[Entry], texts: &[String]) -> Met {
    for (at, (entry, told)) in entries.iter().zip(texts).enumerate() {
        if is_of(*entry, who) && told.as_str() == "Io error: os error 5\n" {
            let end = End::Read;
            return Met { who, at, end };
        }
    }
    unmet(who, entries)
}

/// What is heard of the run, in which the client's receive at that place answers the fault. One that is not that of a transport
/// that fails is made up for.
fn with_receive(
    alloc: Global,
    (who, place): (Who, usize),
    fault: IoFault,
    entries: &[Entry],
) -> Result<Heard, Fail> {
    let accept = Entry::Do(Call::Accept(who, usize::MAX), "");
    let cue = Entry::Do(Call::ArriveFault(who, fault), "");
    let failing = with_fault(alloc, entries, place, (accept, 0), cue)?;
    heard_of(alloc, who, fault != FAULT, failing.as_slice())
}

/// The same, in which the send to the client after so many others answers the fault.
fn with_send(
    alloc: Global,
    (who, before): (Who, usize),
    fault: IoFault,
    entries: &[Entry],
) -> Result<Heard, Fail> {
    let accept = Entry::Do(Call::Accept(who, usize::MAX), "");
    let cue = Entry::Do(Call::AcceptFault(who, fault), "");
    let place = behind_insertion(entries, who);
    let failing = with_fault(alloc, entries, place, (accept, before), cue)?;
    heard_of(alloc, who, fault != FAULT, failing.as_slice())
}

/// The send to the client after so many others fails; whether there is one.
fn send_fails(
    rt: &(impl Abort + AllocGlobal),
    run: &Run,
    (who, before): (Who, usize),
    entries: &[Entry],
    clean: &Heard,
) -> Result<bool, Fail> {
    let heard = with_send(rt.alloc(), (who, before), FAULT, entries)?;
    let met = met_by_send(run, who, entries, clean.sends.as_slice(), before);
    judge_heard(rt, run, met, entries, (clean, &heard));
    Ok(!matches!(met.end, End::Unmet))
}

/// Each send to the client fails, until none does; how many did.
fn sends_fail(
    rt: &(impl Abort + AllocGlobal),
    run: &Run,
    who: Who,
    entries: &[Entry],
    clean: &Heard,
) -> Result<usize, Fail> {
    for before in 0..100 {
        if !send_fails(rt, run, (who, before), entries, clean)? {
            return Ok(before);
        }
    }
    Err(Fail::new("there are more sends"))
}

/// Whether something arrives of the client at the step.
fn is_arrival(entry: Entry) -> bool {
    matches!(
        entry,
        Entry::Arrive(_) | Entry::Do(Call::Arrive(..) | Call::ArriveWith(..), _)
    )
}

/// Fails if what is heard of a run, in which a receive fails that takes what comes at that step of the client, is not what it has
/// to be; whether it is made. Of what arrives each is.
fn judge_receive(
    rt: &impl Abort,
    run: &Run,
    (who, place): (Who, usize),
    entries: &[Entry],
    (clean, heard): (&Heard, &Heard),
) -> bool {
    let met = met_by_receive(who, entries, heard.texts.as_slice());
    judge_heard(rt, run, met, entries, (clean, heard));
    let has_to_be_met = entries.get(place).is_some_and(|entry| is_arrival(*entry));
    assert!(rt; met.kills() || !has_to_be_met, "{}: {place}", run.name);
    met.kills()
}

/// A receive fails that takes what comes at that step of the client; whether it is made.
fn receive_fails(
    rt: &(impl Abort + AllocGlobal),
    run: &Run,
    (who, place): (Who, usize),
    entries: &[Entry],
    clean: &Heard,
) -> Result<bool, Fail> {
    let heard = with_receive(rt.alloc(), (who, place), FAULT, entries)?;
    Ok(judge_receive(rt, run, (who, place), entries, (clean, &heard)))
}

/// Whether a receive from the client may take what comes at the step: something arrives, or is read.
fn is_receive(entry: Entry, who: Who) -> bool {
    let is_read = matches!(entry, Entry::Do(Call::Next(_), _));
    is_of(entry, who) && (is_read || is_arrival(entry))
}

/// Each receive from the client fails that takes what comes at that step or later; how many are made.
fn receives_fail(
    rt: &(impl Abort + AllocGlobal),
    run: &Run,
    (who, from): (Who, usize),
    entries: &[Entry],
    clean: &Heard,
) -> Result<usize, Fail> {
    let mut count = 0usize;
    for (place, entry) in entries.iter().enumerate().skip(from) {
        if is_receive(*entry, who) && receive_fails(rt, run, (who, place), entries, clean)? {
            count = count.saturating_add(1);
        }
    }
    Ok(count)
}

/// Each receive from the client, at that step or later, and each send to it, fails; how many receives did, and how many sends.
fn each_fails(
    rt: &(impl Abort + AllocGlobal),
    run: &Run,
    (who, from): (Who, usize),
    entries: &[Entry],
) -> Result<(usize, usize), Fail> {
    let clean = heard_of(rt.alloc(), who, false, entries)?;
    let receives = receives_fail(rt, run, (who, from), entries, &clean)?;
    Ok((receives, sends_fail(rt, run, who, entries, &clean)?))
}

/// The same, and what waits in the end is sent.
fn fails_for(
    rt: &(impl Abort + AllocGlobal),
    run: &Run,
    who: Who,
    from: usize,
) -> Result<(usize, usize), Fail> {
    let entries = with_end(rt.alloc(), run, who)?;
    each_fails(rt, run, (who, from), entries.as_slice())
}

/// Makes the run, in which nothing fails, and then with each fault of each client, and fails if it is not as it has to be; how
/// many receives of the first client failed.
pub fn fails_in_turn(rt: &(impl Abort + Print + AllocGlobal), run: &Run) -> Result<usize, Fail> {
    let receives = fails_for_first(rt, run, 0)?;
    for who in [SECOND, THIRD] {
        if behind_insertion(run.entries, who) < run.entries.len() {
            fails_for(rt, run, who, 0)?;
        }
    }
    Ok(receives)
}

/// The same with each fault of the first client, but of no receive before that step.
pub fn fails_for_first(
    rt: &(impl Abort + Print + AllocGlobal),
    run: &Run,
    from: usize,
) -> Result<usize, Fail> {
    drill(rt, run)?;
    let (receives, sends) = fails_for(rt, run, FIRST, from)?;
    assert!(rt; sends == run.sends, "{}: {sends} sends", run.name);
    Ok(receives)
}

/// Fails if what is heard of the run is not what is heard if nothing fails.
fn is_as_ever(rt: &impl Abort, run: &Run, clean: &Heard, heard: &Heard) {
    let met = unmet(FIRST, run.entries);
    judge_heard(rt, run, met, run.entries, (clean, heard));
}

/// The first client's receive at that place answers the fault, and is made up for.
fn receive_is_made_up_for(
    rt: &(impl Abort + AllocGlobal),
    run: &Run,
    place: usize,
    fault: IoFault,
    clean: &Heard,
) -> Result<(), Fail> {
    let heard = with_receive(rt.alloc(), (FIRST, place), fault, run.entries)?;
    is_as_ever(rt, run, clean, &heard);
    Ok(())
}

/// The send to the first client after so many others answers the fault, and is made up for.
fn send_is_made_up_for(
    rt: &(impl Abort + AllocGlobal),
    run: &Run,
    before: usize,
    fault: IoFault,
    clean: &Heard,
) -> Result<(), Fail> {
    let heard = with_send(rt.alloc(), (FIRST, before), fault, run.entries)?;
    is_as_ever(rt, run, clean, &heard);
    Ok(())
}

/// Each receive of the first client, and each send, answers the fault, and is made up for.
fn each_is_made_up_for(
    rt: &(impl Abort + AllocGlobal),
    run: &Run,
    fault: IoFault,
    clean: &Heard,
) -> Result<(), Fail> {
    for (place, entry) in run.entries.iter().enumerate() {
        if is_receive(*entry, FIRST) {
            receive_is_made_up_for(rt, run, place, fault, clean)?;
        }
    }
    for before in 0..6 {
        send_is_made_up_for(rt, run, before, fault, clean)?;
    }
    Ok(())
}

/// The same of a transport that would block, and of one that lacks memory.
pub fn faults_are_made_up_for(rt: &(impl Abort + AllocGlobal), run: &Run) -> Result<(), Fail> {
    let clean = heard_of(rt.alloc(), FIRST, true, run.entries)?;
    for fault in [IoFault::WouldBlock, IoFault::OutOfMemory] {
        each_is_made_up_for(rt, run, fault, &clean)?;
    }
    Ok(())
}
