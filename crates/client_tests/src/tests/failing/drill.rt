//! Each allocation is refused in turn: runs of a client that judge themselves, whichever it is.
//!
//! With ample memory a run answers what it has to. If one allocation is refused (`./refusal-drill` refuses each in turn),
//! the replies before that step are the same, and the same call again, and all after it, answers as with ample memory.
//! If the test itself asked for that memory, it ends with the want, and nothing is judged.

use crate::kit::steps::{Call, steps};
use crate::kit::told::write_reply;
use std::alloc::Global;
use std::test::Fail;
use test_kit::log::{holds, row_tells};
use test_kit::quad::{destructor, push_interface, quad_table};
use wl_client::{Backend, Reply, Step, Stopped};
use wl_link::Memory;
use wl_wire::TableError;

/// A client whose objects have numbers as their data.
pub type Client = Backend<Memory, u32>;

/// A call, and what its reply tells if there is memory.
pub type Entry = (Call, &'static str);

/// A run.
#[derive(Clone, Copy)]
pub struct Run {
    /// What a failing test names.
    pub name: &'static str,
    /// Its calls.
    pub entries: &'static [Entry],
    /// The session's error in the end.
    pub error: &'static str,
    /// How many receives may fail, and how many sends.
    pub counts: (usize, usize),
}

/// The steps.
fn steps_of(alloc: Global, entries: &[Entry]) -> Result<Vec<Step<u32>>, Fail> {
    let mut calls = Vec::new(alloc);
    for entry in entries {
        calls.push(entry.0)?;
    }
    steps(alloc, calls.as_slice())
}

/// What the reply tells.
fn text_of(alloc: Global, told: &Reply<u32>) -> Result<String, Fail> {
    let mut text = String::new(alloc);
    write_reply(&mut text, told)?;
    Ok(text)
}

/// Fails if the reply does not tell this.
fn judge(
    rt: &(impl Eprint + AllocGlobal),
    run: &Run,
    told: &Reply<u32>,
    text: &str,
) -> Result<(), Fail> {
    let told = text_of(rt.alloc(), told)?;
    row_tells(rt, run.name, Ok(told), text)
}

/// Fails if the replies are not those of the steps, one by one.
fn judge_all(
    rt: &(impl Eprint + AllocGlobal),
    run: &Run,
    entries: &[Entry],
    replies: &[Reply<u32>],
) -> Result<(), Fail> {
    for (entry, told) in entries.iter().zip(replies) {
        judge(rt, run, told, entry.1)?;
    }
    Ok(())
}

/// Fails if memory was refused, or the replies are not those of all these steps.
fn judge_whole(
    rt: &(impl Eprint + AllocGlobal),
    client: &Client,
    run: &Run,
    entries: &[Entry],
    replies: &[Reply<u32>],
) -> Result<(), Fail> {
    holds(rt, run.name, !client.memory_refused())?;
    holds(rt, run.name, replies.len() == entries.len())?;
    judge_all(rt, run, entries, replies)
}

/// Makes the steps, for which there is memory now: they answer as ever.
fn go_on(
    rt: &(impl Eprint + AllocGlobal),
    client: &mut Client,
    run: &Run,
    entries: &[Entry],
) -> Result<(), Fail> {
    match client.replay(steps_of(rt.alloc(), entries)?) {
        Ok(replies) => judge_whole(rt, client, run, entries, replies.as_slice()),
        Err(_) => Err(Fail::new("memory was refused again")),
    }
}

/// Fails if the run was not stopped by a want of memory, or does not go on as it has to.
fn judge_stopped(
    rt: &(impl Eprint + AllocGlobal),
    client: &mut Client,
    run: &Run,
    stopped: &Stopped<u32>,
) -> Result<(), Fail> {
    holds(rt, run.name, client.memory_refused())?;
    judge_all(rt, run, run.entries, stopped.replies.as_slice())?;
    let rest = run.entries.get(stopped.step..).unwrap_or(&[]);
    go_on(rt, client, run, rest)
}

/// Fails if the run, which answered so, is not as it has to be.
fn judge_answer(
    rt: &(impl Eprint + AllocGlobal),
    client: &mut Client,
    run: &Run,
    answer: &Result<Vec<Reply<u32>>, Stopped<u32>>,
) -> Result<(), Fail> {
    match answer {
        Ok(replies) => judge_whole(rt, client, run, run.entries, replies.as_slice()),
        Err(stopped) => judge_stopped(rt, client, run, stopped),
    }
}

/// Makes the run, and fails if it is not as it has to be; whether memory was refused.
fn play(rt: &(impl Eprint + AllocGlobal), client: &mut Client, run: &Run) -> Result<bool, Fail> {
    let steps = steps_of(rt.alloc(), run.entries)?;
    let answer = client.replay(steps);
    let judged = judge_answer(rt, client, run, &answer);
    let was_refused = answer.is_err();
    drop(answer);
    judged?;
    Ok(was_refused)
}

/// What the session's error tells.
pub fn error_of(alloc: Global, client: &Client) -> Result<String, Fail> {
    let mut text = String::new(alloc);
    match client.last_error() {
        Some(error) => write!(text, "{error}")?,
        None => write!(text, "no error")?,
    }
    Ok(text)
}

/// Fails if the run left another error. If there was no memory for the error's text, the want is the error.
fn judge_error(
    rt: &(impl Eprint + AllocGlobal),
    client: &Client,
    run: &Run,
    was_refused: bool,
) -> Result<(), Fail> {
    let told = error_of(rt.alloc(), client)?;
    if was_refused && told.as_str() == "Io error: out of memory" {
        return Ok(());
    }
    row_tells(rt, run.name, Ok(told), run.error)
}

/// Adds an interface, makes the run, and fails if it is not as it has to be, or leaves another error.
fn play_to(rt: &(impl Eprint + AllocGlobal), client: &mut Client, run: &Run) -> Result<(), Fail> {
    grow(rt, client)?;
    let was_refused = play(rt, client, run)?;
    judge_error(rt, client, run, was_refused)
}

/// A new client, or none if memory was refused.
fn made(alloc: Global) -> Result<Option<Client>, Fail> {
    let table = quad_table(alloc)?;
    Ok(Backend::connect(alloc, table, Memory::new(alloc)).ok())
}

/// A new client; if memory was refused it is made once more.
pub fn connected(alloc: Global) -> Result<Client, Fail> {
    for _ in 0..2 {
        if let Some(client) = made(alloc)? {
            return Ok(client);
        }
    }
    Err(Fail::new("memory was refused again"))
}

/// Adds an interface to the client's table, and answers what the client does.
fn add(alloc: Global, client: &mut Client) -> Result<Result<(), TableError>, Fail> {
    let mut interfaces = Vec::new(alloc);
    push_interface(
        alloc,
        &mut interfaces,
        "solo",
        1,
        &[],
        &[destructor("gone")],
    )?;
    Ok(client.add_interfaces(interfaces))
}

/// Adds an interface, and fails if that is not done. If memory was refused, the client has to say so, and the next try does it.
fn grow(rt: &(impl Eprint + AllocGlobal), client: &mut Client) -> Result<(), Fail> {
    let mut answer = add(rt.alloc(), client)?;
    holds(
        rt,
        "interfaces",
        client.memory_refused() == (answer == Err(TableError::OutOfMemory)),
    )?;
    if client.memory_refused() {
        answer = add(rt.alloc(), client)?;
    }
    holds(rt, "interfaces are added", answer.is_ok())
}

/// Adds an interface to the table of a new client, makes the run, and fails if it is not as it has to be.
pub fn drill(rt: &(impl Eprint + AllocGlobal), run: &Run) -> Result<(), Fail> {
    let mut client = connected(rt.alloc())?;
    let answer = play_to(rt, &mut client, run);
    drop(client);
    answer
}
