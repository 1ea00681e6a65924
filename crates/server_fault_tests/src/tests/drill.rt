//! Each allocation is refused in turn: runs that judge themselves, whichever it is.
//!
//! With ample memory a run answers what it has to. If one allocation is refused (`./refusal-drill` refuses each in turn),
//! the replies before that step are the same. Then either no client was killed, and the same call again, and all after
//! it, answers as with ample memory; or the one client whose message found no memory was killed, and nothing of the others
//! changes. If the test itself asked for that memory, it ends with the want, and nothing is judged.

use server_test_kit::steps::{Call, Made, arrive, step};
use server_test_kit::told::reply;
use server_test_kit::values::{FIRST, SECOND, Shown, THIRD, Who};
use std::alloc::Global;
use std::process::Abort;
use std::test::Fail;
use test_kit::cuts::Stream;
use test_kit::quad::{QUAD, quad_table};
use wl_link::Memory;
use wl_server::{ActionError, Backend, ClientId, DisconnectReason, Note, Reply, Stopped};
use wl_wire::{IoFault, Token};

/// A server of the runs.
pub type Server = Backend<Memory, u32, Shown, bool>;

/// A step of a run, and its reply if there is memory.
#[derive(Clone, Copy)]
pub enum Entry {
    /// The call, and what its reply tells.
    Do(Call, &'static str),
    /// The stream arrives of the first client.
    Arrive(Stream),
    /// A global is created, of that name and serial.
    Global(u32),
    /// Takes what was sent to the client: so many bytes by each send.
    Sent(Who, &'static [usize]),
}

/// A run.
#[derive(Clone, Copy)]
pub struct Run<'a> {
    /// What a failing test names.
    pub name: &'static str,
    /// Its steps.
    pub entries: &'a [Entry],
    /// The step that kills the first client, if one does.
    pub dies: Option<usize>,
    /// How many bytes the first client is sent after that, if it broke the protocol: those of the error.
    pub error_bytes: usize,
    /// How many sends to the first client there are, with the one of what waits in the end.
    pub sends: usize,
}

/// The client of the call, if it names one.
fn client_of_call(call: Call) -> Option<Who> {
    match call {
        Call::Create(who, _, _, _)
        | Call::Kill(who)
        | Call::Flush(who)
        | Call::Next(who)
        | Call::Finish(who, _)
        | Call::FinishBind(who, _)
        | Call::Arrive(who, _)
        | Call::ArriveWith(who, _, _)
        | Call::AcceptFault(who, _)
        | Call::TakeSent(who) => Some(who),
        Call::Destroy(of) | Call::PostError(of, _, _) => Some(of.0),
        Call::Send(event) => Some(event.sender().0),
        _ => None,
    }
}

/// The client of the step, if it names one.
pub fn client_of(entry: Entry) -> Option<Who> {
    match entry {
        Entry::Do(call, _) => client_of_call(call),
        Entry::Arrive(_) => Some(FIRST),
        Entry::Global(_) => None,
        Entry::Sent(who, _) => Some(who),
    }
}

/// The step.
pub fn made(alloc: Global, entry: Entry) -> Result<Made, Fail> {
    match entry {
        Entry::Do(call, _) => step(alloc, call),
        Entry::Arrive(stream) => arrive(alloc, FIRST, stream.bytes(alloc)?.as_slice(), None),
        Entry::Global(_) => step(alloc, Call::Global(QUAD, 3)),
        Entry::Sent(who, _) => step(alloc, Call::TakeSent(who)),
    }
}

/// The steps.
fn steps_of(alloc: Global, entries: &[Entry]) -> Result<Vec<Made>, Fail> {
    let mut steps = Vec::new(alloc);
    for entry in entries {
        steps.push(made(alloc, *entry)?)?;
    }
    Ok(steps)
}

/// What the reply tells.
fn text_of(alloc: Global, told: &Reply<Memory, u32>) -> Result<String, Fail> {
    let mut text = String::new(alloc);
    reply(&mut text, told)?;
    Ok(text)
}

/// Whether so many bytes were taken by each send.
fn has_lengths(parcels: &[(Vec<u8>, Vec<Token>)], lengths: &[usize]) -> bool {
    if parcels.len() != lengths.len() {
        return false;
    }
    for ((bytes, _), length) in parcels.iter().zip(lengths) {
        if bytes.len() != *length {
            return false;
        }
    }
    true
}

/// Whether the reply, which tells this text, is that of the step.
fn is_reply(entry: Entry, told: &Reply<Memory, u32>, text: &str) -> bool {
    match entry {
        Entry::Do(_, wanted) => text == wanted,
        Entry::Arrive(_) => text.is_empty(),
        Entry::Global(name) => match told {
            Reply::CreateGlobal(Ok(id)) => id.name() == name && id.serial() == u64::from(name),
            _ => false,
        },
        Entry::Sent(_, lengths) => match told {
            Reply::TakeSent(Ok(parcels)) => has_lengths(parcels.as_slice(), lengths),
            _ => false,
        },
    }
}

/// Fails if the reply is not that of the step.
fn judge(
    rt: &(impl Abort + AllocGlobal),
    run: &Run,
    entry: Entry,
    told: &Reply<Memory, u32>,
) -> Result<(), Fail> {
    let text = text_of(rt.alloc(), told)?;
    let is_right = is_reply(entry, told, text.as_str());
    assert!(rt; is_right, "{}: {}", run.name, text.as_str());
    Ok(())
}

/// Fails if the replies are not those of the steps, one by one.
fn judge_all(
    rt: &(impl Abort + AllocGlobal),
    run: &Run,
    entries: &[Entry],
    replies: &[Reply<Memory, u32>],
) -> Result<(), Fail> {
    for (entry, told) in entries.iter().zip(replies) {
        judge(rt, run, *entry, told)?;
    }
    Ok(())
}

/// Fails if memory was refused, or the replies are not those of all these steps.
fn judge_whole(
    rt: &(impl Abort + AllocGlobal),
    server: &Server,
    run: &Run,
    entries: &[Entry],
    replies: &[Reply<Memory, u32>],
) -> Result<(), Fail> {
    let is_whole = !server.memory_refused() && replies.len() == entries.len();
    assert!(rt; is_whole, "{}", run.name);
    judge_all(rt, run, entries, replies)
}

/// Makes the steps, for which there is memory now: they answer as ever.
fn go_on(
    rt: &(impl Abort + AllocGlobal),
    server: &mut Server,
    run: &Run,
    entries: &[Entry],
) -> Result<(), Fail> {
    match server.replay(steps_of(rt.alloc(), entries)?) {
        Ok(replies) => judge_whole(rt, server, run, entries, replies.as_slice()),
        Err(_) => Err(Fail::new("memory was refused again")),
    }
}

/// Whether the client is live.
fn is_live(server: &Server, who: Who) -> bool {
    for id in server.all_clients() {
        if id == who.id() {
            return true;
        }
    }
    false
}

/// The place after the step that inserts the client; the end if there is none.
pub fn behind_insertion(entries: &[Entry], who: Who) -> usize {
    let mut slot = 0u32;
    for (at, entry) in entries.iter().enumerate() {
        if matches!(entry, Entry::Do(Call::Insert(_), _)) {
            if slot == who.0 {
                return at.saturating_add(1);
            }
            slot = slot.saturating_add(1);
        }
    }
    entries.len()
}

/// Whether the client was inserted, and not killed, before that step of the run.
fn was_live(run: &Run, at: usize, who: Who) -> bool {
    let is_inserted = behind_insertion(run.entries, who) <= at;
    match run.dies {
        Some(step) if who.0 == 0 => is_inserted && at <= step,
        _ => is_inserted,
    }
}

/// The clients of the runs.
const CLIENTS: [Who; 3] = [FIRST, SECOND, THIRD];

/// The clients that the step killed.
fn killed_at(alloc: Global, server: &Server, run: &Run, at: usize) -> Result<Vec<Who>, Fail> {
    let mut killed = Vec::new(alloc);
    for who in CLIENTS {
        if was_live(run, at, who) && !is_live(server, who) {
            killed.push(who)?;
        }
    }
    Ok(killed)
}

/// Whether the client is among these.
fn is_among(all: &[Who], who: Who) -> bool {
    all.iter().any(|one| one.0 == who.0)
}

/// Whether the step can be judged if these clients were killed: it names none of them, and its reply tells nothing of
/// them.
fn is_of_others(entry: Entry, killed: &[Who]) -> bool {
    match entry {
        Entry::Do(Call::Notes | Call::Cleanup, _) => false,
        _ => match client_of(entry) {
            Some(who) => !is_among(killed, who),
            None => true,
        },
    }
}

/// The steps after that one, but those that are of the killed clients.
fn of_others(alloc: Global, run: &Run, at: usize, killed: &[Who]) -> Result<Vec<Entry>, Fail> {
    let mut others = Vec::new(alloc);
    for entry in run.entries.iter().skip(at).skip(1) {
        if is_of_others(*entry, killed) {
            others.push(*entry)?;
        }
    }
    Ok(others)
}

/// How many bytes were sent to the client, and not taken.
fn bytes_sent(server: &Server, who: Who) -> usize {
    let mut bytes = 0usize;
    if let Ok(script) = server.transport(&who.id()) {
        for (parcel, _) in script.sent() {
            bytes = bytes.saturating_add(parcel.len());
        }
    }
    bytes
}

/// Whether it is noted that the client was killed, and whether as closed.
fn ends_of(notes: &[Note<u32>], id: ClientId) -> (usize, usize) {
    let mut ends = 0usize;
    let mut closed = 0usize;
    for note in notes {
        if let Note::Disconnected(of, why) = note {
            if *of == id {
                ends = ends.saturating_add(1);
                if matches!(why, DisconnectReason::ConnectionClosed) {
                    closed = closed.saturating_add(1);
                }
            }
        }
    }
    (ends, closed)
}

/// Whether a reading of the killed client answers `Pipe`.
fn reads_nothing(server: &mut Server, who: Who) -> bool {
    let answer = server.next_action(&who.id());
    matches!(answer, Err(ActionError::Io(IoFault::Pipe)))
}

/// Whether the killed client is noted once, as closed; if it was sent an error, that is noted.
fn is_noted_once(server: &mut Server, run: &Run, who: Who, notes: &[Note<u32>]) -> bool {
    let _ = server.flush(Some(who.id()));
    let has_error = run.error_bytes > 0 && bytes_sent(server, who) == run.error_bytes;
    let closed = if has_error { 0 } else { 1 };
    ends_of(notes, who.id()) == (1, closed)
}

/// The notes, for which there is memory now.
fn noted(server: &mut Server) -> Result<Vec<Note<u32>>, Fail> {
    match server.take_notes() {
        Ok(notes) => Ok(notes),
        Err(_) => Err(Fail::new("memory was refused again")),
    }
}

/// Fails if a killed client reads something, or is not noted once.
fn each_is_noted_once(
    rt: &impl Abort,
    server: &mut Server,
    run: &Run,
    killed: &[Who],
) -> Result<(), Fail> {
    let notes = noted(server)?;
    for who in killed {
        let is_right = reads_nothing(server, *who)
            && is_noted_once(server, run, *who, notes.as_slice());
        assert!(rt; is_right, "{}: {}", run.name, who.0);
    }
    Ok(())
}

/// Whether the ends of the killed clients are not among the notes.
fn are_not_noted(killed: &[Who], notes: &[Note<u32>]) -> bool {
    for who in killed {
        if ends_of(notes, who.id()).0 > 0 {
            return false;
        }
    }
    true
}

/// Fails if the killed clients are not noted once each, and then no more.
fn are_noted_once(
    rt: &impl Abort,
    server: &mut Server,
    run: &Run,
    killed: &[Who],
) -> Result<(), Fail> {
    each_is_noted_once(rt, server, run, killed)?;
    let is_clean = server.cleanup().is_ok();
    let notes = noted(server)?;
    assert!(rt;
        is_clean && are_not_noted(killed, notes.as_slice()),
        "{}",
        run.name
    );
    Ok(())
}

/// Fails if the step killed more than one client that it does not kill with ample memory. If it killed one, it is told,
/// for `./refusal-drill` to see.
fn at_most_one(rt: &(impl Abort + Print), run: &Run, at: usize, killed: &[Who]) {
    let is_first_to_die = matches!(run.dies, Some(step) if step == at);
    let mut count = 0usize;
    for who in killed {
        if !(is_first_to_die && who.0 == 0) {
            count = count.saturating_add(1);
            let _ = println!(rt; "{}: client {} killed for want of memory", run.name, who.0);
        }
    }
    assert!(rt; count <= 1, "{}: {count} clients were killed", run.name);
}

/// Fails if anything is not as it has to be for the other clients if these were killed in that step.
fn judge_others(
    rt: &(impl Abort + Print + AllocGlobal),
    server: &mut Server,
    run: &Run,
    at: usize,
    killed: &[Who],
) -> Result<(), Fail> {
    at_most_one(rt, run, at, killed);
    let others = of_others(rt.alloc(), run, at, killed)?;
    go_on(rt, server, run, others.as_slice())
}

/// Fails if anything is not as it has to be after the step for which memory was refused.
fn judge_rest(
    rt: &(impl Abort + Print + AllocGlobal),
    server: &mut Server,
    run: &Run,
    at: usize,
) -> Result<(), Fail> {
    let killed = killed_at(rt.alloc(), server, run, at)?;
    if killed.is_empty() {
        return go_on(rt, server, run, run.entries.get(at..).unwrap_or(&[]));
    }
    judge_others(rt, server, run, at, killed.as_slice())?;
    are_noted_once(rt, server, run, killed.as_slice())
}

/// Fails if the run was not stopped by a want of memory, or anything is not as it has to be then.
fn judge_stopped(
    rt: &(impl Abort + Print + AllocGlobal),
    server: &mut Server,
    run: &Run,
    stopped: &Stopped<Memory, u32>,
) -> Result<(), Fail> {
    assert!(rt; server.memory_refused(), "{}", run.name);
    judge_all(rt, run, run.entries, stopped.replies.as_slice())?;
    judge_rest(rt, server, run, stopped.step)
}

/// Makes the run, and fails if it is not as it has to be.
fn play(
    rt: &(impl Abort + Print + AllocGlobal),
    server: &mut Server,
    run: &Run,
) -> Result<(), Fail> {
    match server.replay(steps_of(rt.alloc(), run.entries)?) {
        Ok(replies) => judge_whole(rt, server, run, run.entries, replies.as_slice()),
        Err(stopped) => judge_stopped(rt, server, run, &stopped),
    }
}

/// Makes the run of a new server, and fails if it is not as it has to be.
pub fn drill(rt: &(impl Abort + Print + AllocGlobal), run: &Run) -> Result<(), Fail> {
    let mut server = Backend::new(rt.alloc(), quad_table(rt.alloc())?);
    let answer = play(rt, &mut server, run);
    drop(server);
    answer
}
