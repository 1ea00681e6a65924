//! Runs that judge themselves, whichever allocation is refused.
//!
//! A call that is refused memory says so, and changes nothing: what can be looked up is as before, and the same call again, for which
//! there is memory now, and all after it tell the same as with ample memory. If the test itself asked for that memory, it ends with
//! the want, and nothing is judged. `./refusal-drill` refuses each allocation in turn.

use crate::run::{Act, is_text, perform};
use std::alloc::{AllocError, Global};
use std::test::Fail;
use wl_queues::{Object, Queues};

/// An act, and what it tells.
pub type Entry = (Act, &'static str);

/// What can be looked up of queues: of four slots, three queues, four tickets, and two arguments of each of two tickets.
#[derive(Clone, Copy, PartialEq, Eq)]
struct Shown {
    objects: [Object; 4],
    has_events: [bool; 3],
    contents: [Option<u32>; 4],
    arguments: [Option<usize>; 4],
}

/// The number in the event in hand.
fn content(queues: &Queues<u32>, ticket: u64) -> Option<u32> {
    Some(queues.event(ticket)?.content)
}

/// What can be looked up.
fn look_up(queues: &Queues<u32>) -> Shown {
    Shown {
        objects: [
            queues.object(0),
            queues.object(1),
            queues.object(2),
            queues.object(3),
        ],
        has_events: [
            queues.has_events(0),
            queues.has_events(1),
            queues.has_events(2),
        ],
        contents: [
            content(queues, 0),
            content(queues, 1),
            content(queues, 2),
            content(queues, 3),
        ],
        arguments: [
            queues.argument(0, 0),
            queues.argument(0, 1),
            queues.argument(2, 0),
            queues.argument(2, 1),
        ],
    }
}

/// Does the act, and tells what it answers in the log, which has room for that.
fn tell_line(
    alloc: Global,
    queues: &mut Queues<u32>,
    log: &mut String,
    act: Act,
) -> Result<(), AllocError> {
    log.clear();
    perform(alloc, queues, log, act)
}

/// Whether a call was refused memory that tells this.
fn is_refusal(told: &str) -> bool {
    told == "Err(AllocError)\n"
        || told == "Err(OutOfMemory)\n"
        || told == "OutOfMemory\n"
        || told.starts_with("not put: OutOfMemory, ")
}

/// Does the act, once more if it was refused memory. Fails if it tells something else, or if the refusal changed something.
fn play_entry(
    rt: &(impl Eprint + AllocGlobal),
    queues: &mut Queues<u32>,
    log: &mut String,
    name: &str,
    entry: &Entry,
) -> Result<(), Fail> {
    let before = look_up(queues);
    tell_line(rt.alloc(), queues, log, entry.0)?;
    if !is_refusal(log.as_str()) {
        return is_text(rt, name, log.as_str(), entry.1);
    }
    if before != look_up(queues) {
        return Err(Fail::new("a refusal changed something"));
    }
    tell_line(rt.alloc(), queues, log, entry.0)?;
    is_text(rt, name, log.as_str(), entry.1)
}

/// Does the acts, and fails if one of them tells something else.
fn play(
    rt: &(impl Eprint + AllocGlobal),
    queues: &mut Queues<u32>,
    log: &mut String,
    name: &str,
    entries: &[Entry],
) -> Result<(), Fail> {
    for entry in entries {
        play_entry(rt, queues, log, name, entry)?;
    }
    Ok(())
}

/// New queues. If memory was refused they are made once more.
fn begun(alloc: Global) -> Result<Queues<u32>, Fail> {
    for _ in 0..2 {
        if let Ok(queues) = Queues::new(alloc) {
            return Ok(queues);
        }
    }
    Err(Fail::new("memory was refused again"))
}

/// Does the acts with new queues, and fails if one of them tells something else.
pub fn run_tells(
    rt: &(impl Eprint + AllocGlobal),
    name: &str,
    entries: &[Entry],
) -> Result<(), Fail> {
    let mut log = String::with_capacity(rt.alloc(), 200)?;
    let mut queues = begun(rt.alloc())?;
    let answer = play(rt, &mut queues, &mut log, name, entries);
    drop(queues);
    answer
}
