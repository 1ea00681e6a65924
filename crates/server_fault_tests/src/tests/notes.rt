//! The order of notes over a cleanup that is refused memory.

use super::drill::Server;
use server_test_kit::steps::{Call, steps};
use server_test_kit::told::reply;
use server_test_kit::values::{FIRST, SECOND, THIRD, Thing};
use std::alloc::Global;
use std::test::Fail;
use test_kit::log::is_text;
use test_kit::quad::{QUAD, quad_table};
use wl_link::Memory;
use wl_server::{Backend, Reply};

/// What is done before the cleanup: an object of the second client ends, and its note waits; the third client is killed, a
/// fourth is inserted, and the notes are taken that were made.
static BEFORE: [Call; 10] = [
    Call::Insert(true),
    Call::Insert(true),
    Call::Insert(true),
    Call::Create(FIRST, QUAD, 3, 11),
    Call::Create(SECOND, QUAD, 3, 21),
    Call::Create(THIRD, QUAD, 3, 31),
    Call::Destroy(Thing(SECOND, 0xFF00_0000, 1, QUAD)),
    Call::Kill(THIRD),
    Call::Insert(true),
    Call::Notes,
];

/// What is done after it: an object of the first client ends, whose slot is lower.
static AFTER: [Call; 3] = [
    Call::Destroy(Thing(FIRST, 0xFF00_0000, 1, QUAD)),
    Call::Cleanup,
    Call::Notes,
];

/// What that tells after a cleanup that was made: the note that waited, those of the objects of the client that was taken out,
/// and then the note that the next cleanup makes.
const AFTER_A_CLEANUP: &str =
    "done\nout:\ndestroyed 4278190080, 1, 4 of 1 with 21\ndestroyed 4278190080, 1, 4 of 2 with 31\ndestroyed 4278190080, 1, 4 of 0 with 11\n";

/// What that tells after a cleanup that was refused: both notes waited, in order of time, and the objects of the client that is
/// taken out now come after them.
const AFTER_A_REFUSAL: &str =
    "done\nout: client 2, 3 with 0 sends\ndestroyed 4278190080, 1, 4 of 1 with 21\ndestroyed 4278190080, 1, 4 of 0 with 11\ndestroyed 4278190080, 1, 4 of 2 with 31\n";

/// What the replies tell.
fn text_of(alloc: Global, replies: &[Reply<Memory, u32>]) -> Result<Option<String>, Fail> {
    let mut log = String::new(alloc);
    for told in replies {
        reply(&mut log, told)?;
    }
    Ok(Some(log))
}

/// What the calls tell; none if memory was refused.
fn told(alloc: Global, server: &mut Server, calls: &[Call]) -> Result<Option<String>, Fail> {
    let steps = steps(alloc, calls)?;
    match server.replay(steps) {
        Ok(replies) => text_of(alloc, replies.as_slice()),
        Err(_) => Ok(None),
    }
}

/// Makes the cleanup; what has to be told after it.
fn cleaned(server: &mut Server) -> &'static str {
    if server.cleanup().is_err() {
        AFTER_A_REFUSAL
    } else {
        AFTER_A_CLEANUP
    }
}

/// Fails if what is done after the cleanup does not tell this.
fn judge_rest(
    rt: &(impl Eprint + AllocGlobal),
    server: &mut Server,
    text: &str,
) -> Result<(), Fail> {
    match told(rt.alloc(), server, &AFTER)? {
        Some(told) => is_text(rt, told.as_str(), text),
        None => Ok(()),
    }
}

/// Makes the run. If memory is refused anywhere but in the first cleanup, nothing is judged: other runs do that.
fn judge(rt: &(impl Eprint + AllocGlobal), server: &mut Server) -> Result<(), Fail> {
    match told(rt.alloc(), server, &BEFORE)? {
        Some(_) => {
            let text = cleaned(server);
            judge_rest(rt, server, text)
        }
        None => Ok(()),
    }
}

#[test]
fn drill_of_notes_over_a_cleanup(rt: HostRuntime) -> Result<(), Fail> {
    let mut server = Backend::new(rt.alloc(), quad_table(rt.alloc())?);
    let answer = judge(&rt, &mut server);
    drop(server);
    answer
}
