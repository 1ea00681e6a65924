//! Runs by `replay`, and wants of memory of the transport.

use super::acts::{Act, Row, rows_tell};
use crate::kit::steps::{Call, steps};
use crate::kit::told::write_replies;
use crate::kit::values::{Object, Request};
use std::alloc::{AllocError, Global};
use std::fmt::Write;
use std::test::Fail;
use wl_client::{Backend, Reply, Stopped};
use wl_link::Memory;
use wl_wire::IoFault;

/// Writes the replies of a run that stopped, and in which step.
fn write_stopped(log: &mut String, stopped: &Stopped<u32>) -> Result<(), AllocError> {
    write_replies(log, stopped.replies.as_slice())?;
    writeln!(log, "stopped at {}", stopped.step)
}

/// Writes the answer to a run: the replies, and the step at which it stopped, if it did.
fn write_run(
    log: &mut String,
    answer: &Result<Vec<Reply<u32>>, Stopped<u32>>,
) -> Result<(), AllocError> {
    match answer {
        Ok(replies) => write_replies(log, replies.as_slice()),
        Err(stopped) => write_stopped(log, stopped),
    }
}

/// Runs the steps, and writes the replies; if the run stops, also at which step, and whether memory was refused.
pub fn replay(
    alloc: Global,
    client: &mut Backend<Memory, u32>,
    log: &mut String,
    calls: &[Call],
) -> Result<(), Fail> {
    let steps = steps(alloc, calls)?;
    let answer = client.replay(steps);
    let written = write_run(log, &answer);
    drop(answer);
    written?;
    Ok(writeln!(log, "refused: {}", client.memory_refused())?)
}

/// A callback's life, in a run that has each step. `wl_callback.done` and `wl_display.delete_id` end it.
const LIFE: [Call; 22] = [
    Call::KeepFreed(true),
    Call::Send(Request::Sync),
    Call::Accept(5),
    Call::AcceptFault(IoFault::WouldBlock),
    Call::Flush,
    Call::Flush,
    Call::TakeSent,
    Call::Arrive(&[
        2, 0, 0, 0, 0, 0, 12, 0, 0, 0, 0, 0, 1, 0, 0, 0, 1, 0, 12, 0, 2, 0, 0, 0,
    ]),
    Call::ArriveFault(IoFault::WouldBlock),
    Call::Next,
    Call::SetData(Object::Callback, 6),
    Call::Finish(Some(7)),
    Call::Finish(None),
    Call::Destroy(Object::Callback),
    Call::Notes,
    Call::Reclaim(Object::Callback),
    Call::Next,
    Call::Freed,
    Call::SetData(Object::Callback, 8),
    Call::Limit(Some(0)),
    Call::Dispatch,
    Call::Send(Request::Sync),
];

/// A callback whose id the server deletes first.
const RECLAIMED: [Call; 6] = [
    Call::Send(Request::Sync),
    Call::Arrive(&[1, 0, 0, 0, 1, 0, 12, 0, 2, 0, 0, 0]),
    Call::Next,
    Call::Destroy(Object::Callback),
    Call::Reclaim(Object::Callback),
    Call::Send(Request::Sync),
];

/// A session that binds to an interface which its table does not have.
const NOT_ADDED: [Call; 2] = [
    Call::Send(Request::GetRegistry),
    Call::Send(Request::BindAdded),
];

/// The same session with the interface in its table: it has an object of it. `gone` ends that.
const ADDED: [Call; 7] = [
    Call::Send(Request::BindAdded),
    Call::Flush,
    Call::TakeSent,
    Call::Arrive(&[3, 0, 0, 0, 0, 0, 8, 0]),
    Call::Next,
    Call::Finish(None),
    Call::Notes,
];

/// The runs, and what they tell.
static ROWS: [Row; 4] = [
    Row {
        name: "each step has its reply",
        acts: &[Act::Replay(&LIFE)],
        told: "keeping set\nsent: 2, 1\ndone\ndone\nwould block\nflushed\n0100000000\n000c0002000000\ndone\ndone\nevent 0 of 2: 0\ndone\nthere is no new object for the user data, 7 is back\nfinished\nInvalid ObjectId\nnotes: 2, 1\nInvalid ObjectId\nwould block\nfreed 2, 1\nInvalid ObjectId\nlimit set\n0 dispatched\nsent: 2, 2\nrefused: false\n",
    },
    Row {
        name: "interfaces are added",
        acts: &[
            Act::Replay(&NOT_ADDED),
            Act::Add("solo"),
            Act::Add("solo"),
            Act::Replay(&ADDED),
        ],
        told: "sent: 2, 1\nthe new object's interface is not in the table\nrefused: false\ndone\ninterface 0: the name is taken\nsent: 3, 2\nflushed\n0100000001000c000200000002000000000020000200000005000000736f6c6f000000000100000003000000\ndone\nevent 0 of 3:\nfinished\nnotes: 3, 2\nrefused: false\n",
    },
    // The server deletes the id of a callback before the client destroys it: the next sync has its number again.
    Row {
        name: "an object is reclaimed",
        acts: &[Act::Replay(&RECLAIMED)],
        told: "sent: 2, 1\ndone\nwould block\ndestroyed\nreclaimed\nsent: 2, 2\nrefused: false\n",
    },
    // Wants of memory of the transport, a run of no steps after the first, and the next reading after the second.
    Row {
        name: "stopped runs",
        acts: &[
            Act::Replay(&FLUSH),
            Act::Replay(&[]),
            Act::Replay(&READING),
            Act::Replay(&[Call::Next]),
        ],
        told: "sent: 2, 1\ndone\nstopped at 2\nrefused: true\nrefused: false\nflushed\n0100000000000c0002000000\ndone\ndone\nstopped at 4\nrefused: true\nevent 0 of 2: 0\nrefused: false\n",
    },
];

/// Each run tells what it has to.
#[test]
fn rows(rt: HostRuntime) -> Result<(), Fail> {
    rows_tell(&rt, &ROWS)
}

/// A flush for which the transport lacks memory.
const FLUSH: [Call; 4] = [
    Call::Send(Request::Sync),
    Call::AcceptFault(IoFault::OutOfMemory),
    Call::Flush,
    Call::Next,
];

/// A reading for which the transport lacks memory.
const READING: [Call; 5] = [
    Call::Flush,
    Call::TakeSent,
    Call::ArriveFault(IoFault::OutOfMemory),
    Call::Arrive(&[
        2, 0, 0, 0, 0, 0, 12, 0, 0, 0, 0, 0, 1, 0, 0, 0, 1, 0, 12, 0, 2, 0, 0, 0,
    ]),
    Call::Next,
];
