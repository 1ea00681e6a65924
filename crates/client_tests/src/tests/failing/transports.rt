//! Each receive and each send of a client's transport fails in turn, over the runs of the drills.
//!
//! A fault is stored, and each reading and each flush answers from then on that the session failed. A receive or a send that would
//! block, or lacks memory, is made up for by the same call once more: the run comes to what it came to without.

use super::drill::{Client, Entry, Run, connected, error_of};
use crate::kit::steps::{Call, steps};
use crate::kit::told::write_replies;
use std::alloc::Global;
use std::test::Fail;
use test_kit::faults::with_fault;
use test_kit::log::{holds, is_text};
use wl_client::Reply;
use wl_wire::IoFault;

/// The fault of a transport that fails.
const FAULT: IoFault = IoFault::Other(5);

/// What a reading, or a flush, tells that would block.
const WOULD_BLOCK: &str = "would block\n";

/// What it tells of a session that failed.
const FAILED: &str = "the session failed\n";

/// What the replies tell.
fn text_of(alloc: Global, replies: &[Reply<u32>]) -> Result<Option<String>, Fail> {
    let mut text = String::new(alloc);
    write_replies(&mut text, replies)?;
    Ok(Some(text))
}

/// Makes the call; what its reply tells, or none if memory was refused.
fn answer(alloc: Global, client: &mut Client, call: Call) -> Result<Option<String>, Fail> {
    let made = steps(alloc, &[call])?;
    match client.replay(made) {
        Ok(replies) => text_of(alloc, replies.as_slice()),
        Err(_) => Ok(None),
    }
}

/// Whether the call is made again: it would block, and there is more to be done.
fn is_repeated(client: &Client, call: Call, told: &str) -> bool {
    match call {
        Call::Next => told == WOULD_BLOCK && client.transport().arrivals_left() > 0,
        Call::Flush => told == WOULD_BLOCK,
        _ => false,
    }
}

/// Makes the call, again if it would block or lacks memory.
fn made(alloc: Global, client: &mut Client, call: Call) -> Result<String, Fail> {
    for _ in 0..4 {
        if let Some(told) = answer(alloc, client, call)? {
            if !is_repeated(client, call, told.as_str()) {
                return Ok(told);
            }
        }
    }
    Err(Fail::new("the call is made again and again"))
}

/// Makes the calls, and tells what each tells but those that script a fault, and then the session's error.
fn make_all(
    alloc: Global,
    client: &mut Client,
    texts: &mut Vec<String>,
    entries: &[Entry],
) -> Result<(), Fail> {
    for (call, _) in entries {
        let told = made(alloc, client, *call)?;
        match call {
            Call::ArriveFault(_) | Call::Accept(_) | Call::AcceptFault(_) => {}
            _ => texts.push(told)?,
        }
    }
    Ok(texts.push(error_of(alloc, client)?)?)
}

/// The same of a new client.
fn play(alloc: Global, texts: &mut Vec<String>, entries: &[Entry]) -> Result<(), Fail> {
    let mut client = connected(alloc)?;
    let answer = make_all(alloc, &mut client, texts, entries);
    drop(client);
    answer
}

/// Whether the call reads or flushes.
fn is_asked(call: Call) -> bool {
    matches!(call, Call::Next | Call::Flush)
}

/// What the call has to tell: what it does if nothing fails, until one has failed; then that the session failed, if it reads or
/// flushes.
fn has_to_tell<'a>((call, text): Entry, has_failed: bool, is: &'a str) -> &'a str {
    if !has_failed {
        text
    } else if is_asked(call) {
        FAILED
    } else {
        is
    }
}

/// Fails if a call tells something else than it has to: if the fault is met, from the first reading or flush on that answers it.
fn judge_calls(rt: &impl Eprint, run: &Run, is_met: bool, texts: &[String]) -> Result<(), Fail> {
    let mut has_failed = false;
    for (entry, is) in run.entries.iter().zip(texts) {
        let fails = is_met && is_asked(entry.0) && is.as_str() == FAILED;
        has_failed = has_failed || fails;
        is_text(
            rt,
            is.as_str(),
            has_to_tell(*entry, has_failed, is.as_str()),
        )?;
    }
    holds(rt, "a call fails if the fault is met", has_failed == is_met)
}

/// Fails if a run with a fault is not as it has to be: the fault becomes the session's error and is answered from then on, or it is
/// not met, and the run is as without it. Whether it is met.
fn judge(rt: &impl Eprint, run: &Run, texts: &[String]) -> Result<bool, Fail> {
    let as_many = texts.len() == run.entries.len().saturating_add(1);
    holds(rt, "as much is told", as_many)?;
    let error = texts.last().map_or("", |told| told.as_str());
    let is_met = error == "Io error: os error 5";
    holds(rt, run.name, is_met || error == run.error)?;
    judge_calls(rt, run, is_met, texts)?;
    Ok(is_met)
}

/// Makes the run with the fault, and fails if it is not as it has to be; whether the fault is met.
fn is_met(rt: &(impl Eprint + AllocGlobal), run: &Run, failing: &[Entry]) -> Result<bool, Fail> {
    let mut texts = Vec::new(rt.alloc());
    play(rt.alloc(), &mut texts, failing)?;
    judge(rt, run, texts.as_slice())
}

/// The receive at that call answers the fault; whether it is met.
fn receive_fails(
    rt: &(impl Eprint + AllocGlobal),
    run: &Run,
    place: usize,
    fault: IoFault,
) -> Result<bool, Fail> {
    let cue = (Call::ArriveFault(fault), "");
    let failing = with_fault(rt.alloc(), run.entries, place, (cue, 0), cue)?;
    is_met(rt, run, failing.as_slice())
}

/// That send answers the fault, counted from 0; whether it is met.
fn send_fails(
    rt: &(impl Eprint + AllocGlobal),
    run: &Run,
    number: usize,
    fault: IoFault,
) -> Result<bool, Fail> {
    let accept = (Call::Accept(usize::MAX), "");
    let cue = (Call::AcceptFault(fault), "");
    let failing = with_fault(rt.alloc(), run.entries, 0, (accept, number), cue)?;
    is_met(rt, run, failing.as_slice())
}

/// Each receive of the run fails: what arrives is received, and what is read may be. How many are met.
fn receives_fail(rt: &(impl Eprint + AllocGlobal), run: &Run) -> Result<usize, Fail> {
    let mut count = 0usize;
    for (place, (call, _)) in run.entries.iter().enumerate() {
        let is_arrival = matches!(call, Call::Arrive(_));
        if is_arrival || matches!(call, Call::Next) {
            let is_met = receive_fails(rt, run, place, FAULT)?;
            holds(rt, "what arrives is received", is_met || !is_arrival)?;
            if is_met {
                count = count.saturating_add(1);
            }
        }
    }
    Ok(count)
}

/// Each send of the run fails, until none is met; how many are.
fn sends_fail(rt: &(impl Eprint + AllocGlobal), run: &Run) -> Result<usize, Fail> {
    for number in 0..100 {
        if !send_fails(rt, run, number, FAULT)? {
            return Ok(number);
        }
    }
    Err(Fail::new("there are more sends"))
}

/// Each receive of the run, and each send, fails: it is stored, and answered from then on. Fails if there are not so many.
pub fn fails_in_turn(rt: &(impl Eprint + AllocGlobal), run: &Run) -> Result<(), Fail> {
    let receives = receives_fail(rt, run)?;
    holds(rt, "so many receives are met", receives == run.counts.0)?;
    let sends = sends_fail(rt, run)?;
    holds(rt, "so many sends are met", sends == run.counts.1)
}

/// Each receive of the run, and each send, answers a fault that is made up for.
fn each_is_made_up_for(
    rt: &(impl Eprint + AllocGlobal),
    run: &Run,
    fault: IoFault,
) -> Result<(), Fail> {
    for (place, (call, _)) in run.entries.iter().enumerate() {
        if matches!(call, Call::Arrive(_) | Call::Next) {
            let is_met = receive_fails(rt, run, place, fault)?;
            holds(rt, "the receive is made up for", !is_met)?;
        }
    }
    for number in 0..3 {
        let is_met = send_fails(rt, run, number, fault)?;
        holds(rt, "the send is made up for", !is_met)?;
    }
    Ok(())
}

/// Each receive of the run, and each send, would block, or lacks memory: the run comes to what it came to without.
pub fn faults_are_made_up_for(rt: &(impl Eprint + AllocGlobal), run: &Run) -> Result<(), Fail> {
    each_is_made_up_for(rt, run, IoFault::WouldBlock)?;
    each_is_made_up_for(rt, run, IoFault::OutOfMemory)
}
