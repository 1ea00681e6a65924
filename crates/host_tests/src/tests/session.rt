//! Runs of a session: acts, and what each of them tells.
//!
//! One function owns the session, and lends it to those that do the acts.
//!
//! A run can be a drill, which judges itself whichever allocation is refused. A call that is refused memory says so, and changes
//! nothing: the same call again, for which there is memory now, and all after it tell the same as with ample memory. What else may
//! come of a want is the end of a run. If the test itself asked for that memory, it ends with the want, and nothing is judged.
//! `./refusal-drill` refuses each allocation in turn.

use std::alloc::Global;
use std::test::Fail;
use test_kit::log::row_tells;
use wl_host::{Status, TableFault, fault};

/// A session, and what a test does with it.
pub trait Session: Sized {
    /// One call of the session. What it refers to is constant, so that acts can stand in a table.
    type Act;

    /// A new session, unless its table is refused.
    fn begin(alloc: Global) -> Result<Self, TableFault>;

    /// Whether memory was refused in the last call of the core, which cannot say so.
    fn was_refused(&self) -> bool;

    /// Does the act, and tells what came of it except the status, which it returns.
    fn act(&mut self, log: &mut String, act: &Self::Act) -> Result<Status, Fail>;
}

/// An act, and what it tells: its status, and what came of it.
pub type Entry<A> = (A, &'static str);

/// A run of a session.
pub struct Run<A: 'static> {
    /// What a failing test names.
    pub name: &'static str,
    /// What comes first; several runs may begin the same.
    pub first: &'static [Entry<A>],
    /// What comes after it.
    pub entries: &'static [Entry<A>],
}

/// The end of a run. Its last entry may find no memory, and cannot say so; or the first of these acts, which says so, but did its
/// work all the same.
pub struct End<A: 'static> {
    /// The acts.
    pub acts: &'static [A],
    /// What they tell, each in a line.
    pub told: &'static str,
    /// What they may tell in place of it if there was no memory.
    pub refused: &'static str,
}

/// A new session after the first one was refused: if it was memory, and if it may be made once more.
fn begun_again<S: Session>(alloc: Global, refused: TableFault, again: bool) -> Result<S, Fail> {
    if !again || refused.fault != fault::OUT_OF_MEMORY {
        return Err(Fail::new("the table was refused"));
    }
    match S::begin(alloc) {
        Ok(session) => Ok(session),
        Err(_) => Err(Fail::new("memory was refused again")),
    }
}

/// A new session. If memory was refused, it may be made once more.
fn begun<S: Session>(alloc: Global, again: bool) -> Result<S, Fail> {
    match S::begin(alloc) {
        Ok(session) => Ok(session),
        Err(refused) => begun_again(alloc, refused, again),
    }
}

/// What an act answered.
#[derive(Drop)]
struct Answer {
    /// Its status.
    status: Status,
    /// Whether it was refused memory, and done once more.
    was_refused: bool,
}

/// Does the act, and tells what came of it except the status, which it returns. If it was refused memory, it may be done once
/// more.
fn done<S: Session>(
    text: &mut String,
    session: &mut S,
    act: &S::Act,
    again: bool,
) -> Result<Answer, Fail> {
    let status = session.act(text, act)?;
    let was_refused = again && status == Status::OutOfMemory;
    if !was_refused {
        return Ok(Answer {
            status,
            was_refused,
        });
    }
    text.clear();
    let status = session.act(text, act)?;
    Ok(Answer {
        status,
        was_refused,
    })
}

/// Does the act, and writes its status and what it tells into the line. Returns whether it was refused memory.
fn tell<S: Session>(
    line: &mut String,
    session: &mut S,
    act: &S::Act,
    again: bool,
) -> Result<bool, Fail> {
    let mut text = String::new(*line.allocator());
    let answer = done(&mut text, session, act, again)?;
    let (status, text) = (answer.status, text.as_str());
    write!(line, "{status:?}{text}")?;
    Ok(answer.was_refused)
}

/// Does the acts of the entries, and fails if one tells anything else.
fn play<S: Session>(
    rt: &(impl Eprint + AllocGlobal),
    session: &mut S,
    name: &str,
    entries: &[Entry<S::Act>],
    again: bool,
) -> Result<(), Fail> {
    for (act, text) in entries {
        let mut line = String::new(rt.alloc());
        tell(&mut line, session, act, again)?;
        row_tells(rt, name, Ok(line), text)?;
    }
    Ok(())
}

/// Does the acts, and tells each in a line. Returns whether one of them was refused memory.
fn tell_lines<S: Session>(
    log: &mut String,
    session: &mut S,
    acts: &[S::Act],
    again: bool,
) -> Result<bool, Fail> {
    let mut was_refused = false;
    for act in acts {
        was_refused |= tell(log, session, act, again)?;
        writeln!(log)?;
    }
    Ok(was_refused)
}

/// Does what comes last, and fails if it tells anything else. Where memory was refused there are two things that it may tell.
fn play_end<S: Session>(
    rt: &(impl Eprint + AllocGlobal),
    session: &mut S,
    name: &str,
    end: &End<S::Act>,
    again: bool,
) -> Result<(), Fail> {
    let mut was_refused = session.was_refused();
    let mut log = String::new(rt.alloc());
    was_refused |= tell_lines(&mut log, session, end.acts, again)?;
    let text = if was_refused && log.as_str() == end.refused {
        end.refused
    } else {
        end.told
    };
    row_tells(rt, name, Ok(log), text)
}

/// Does the run, and fails if it is not as it has to be.
fn play_all<S: Session>(
    rt: &(impl Eprint + AllocGlobal),
    session: &mut S,
    run: &Run<S::Act>,
    end: Option<&End<S::Act>>,
    again: bool,
) -> Result<(), Fail> {
    play(rt, session, run.name, run.first, again)?;
    play(rt, session, run.name, run.entries, again)?;
    match end {
        Some(end) => play_end(rt, session, run.name, end, again),
        None => Ok(()),
    }
}

/// Fails if the run of a new session, with its end if it has one, is not as it has to be. In a drill, `again`, what is refused
/// memory is done once more.
pub fn run_tells<S: Session + Drop>(
    rt: &(impl Eprint + AllocGlobal),
    run: &Run<S::Act>,
    end: Option<&End<S::Act>>,
    again: bool,
) -> Result<(), Fail> {
    let mut session: S = begun(rt.alloc(), again)?;
    let answer = play_all(rt, &mut session, run, end, again);
    drop(session);
    answer
}
