//! The runs for which each allocation is refused in turn, and in which each receive and each send fails in turn.

use super::drill::{Run, drill};
use super::transports::{fails_in_turn, faults_are_made_up_for};
use crate::kit::steps::Call;
use crate::kit::values::{Object, Request};
use std::test::Fail;

/// The end of the callback 2, and of its number.
const ANSWER: [u8; 24] = [
    2, 0, 0, 0, 0, 0, 12, 0, 0, 0, 0, 0, 1, 0, 0, 0, 1, 0, 12, 0, 2, 0, 0, 0,
];

/// The same of the callback 4.
const ANSWER_AT_4: [u8; 24] = [
    4, 0, 0, 0, 0, 0, 12, 0, 0, 0, 0, 0, 1, 0, 0, 0, 1, 0, 12, 0, 4, 0, 0, 0,
];

/// `wl_display.delete_id` of 3.
const DELETED: [u8; 12] = [1, 0, 0, 0, 1, 0, 12, 0, 3, 0, 0, 0];

/// `quad.made`, by object 3, of the first object of the server's range.
const MADE: [u8; 12] = [3, 0, 0, 0, 1, 0, 12, 0, 0, 0, 0, 255];

/// The same of the number 5.
const MADE_AT_5: [u8; 12] = [3, 0, 0, 0, 1, 0, 12, 0, 5, 0, 0, 0];

/// `quad.gone`, by object 3.
const GONE: [u8; 8] = [3, 0, 0, 0, 2, 0, 8, 0];

/// A `quad` is bound, the server makes another, and a sync is answered. Five receives are met: the last is that of the last reading,
/// which finds nothing else.
static MADE_AND_SYNC: Run = Run {
    name: "an object of the server's, and a sync",
    entries: &[
        (Call::Send(Request::GetRegistry), "sent: 2, 1\n"),
        (Call::Send(Request::Bind), "sent: 3, 2\n"),
        (Call::Flush, "flushed\n"),
        (Call::Arrive(&MADE), "done\n"),
        (Call::Next, "event 1 of 3: new 4278190080, 3\n"),
        (Call::Finish(Some(7)), "finished\n"),
        (Call::Send(Request::Sync), "sent: 4, 4\n"),
        (Call::Flush, "flushed\n"),
        (Call::Arrive(&ANSWER_AT_4), "done\n"),
        (Call::Next, "event 0 of 4: 0\n"),
        (Call::Finish(None), "finished\n"),
        (Call::Next, "would block\n"),
        (Call::Notes, "notes: 4, 4\n"),
        (
            Call::TakeSent,
            "0100000001000c00020000000200000000002000010000000500000071756164000000000300000003000000\n0100000000000c0004000000\n",
        ),
    ],
    error: "no error",
    counts: (5, 2),
};

/// The runs.
static RUNS: [Run; 9] = [
    // A callback lives and ends.
    Run {
        name: "a sync",
        entries: &[
            (Call::Send(Request::Sync), "sent: 2, 1\n"),
            (Call::Arrive(&ANSWER), "done\n"),
            (Call::Next, "event 0 of 2: 0\n"),
            (Call::Finish(None), "finished\n"),
            (Call::Next, "would block\n"),
            (Call::Send(Request::Sync), "sent: 2, 2\n"),
            (Call::Flush, "flushed\n"),
            (
                Call::TakeSent,
                "0100000000000c00020000000100000000000c0002000000\n",
            ),
            (Call::Notes, "notes: 2, 1\n"),
        ],
        error: "no error",
        counts: (3, 1),
    },
    // An object is destroyed and deleted.
    Run {
        name: "a destroyed object",
        entries: &[
            (Call::Send(Request::GetRegistry), "sent: 2, 1\n"),
            (Call::Send(Request::Bind), "sent: 3, 2\n"),
            (Call::Destroy(Object::Quad), "destroyed\n"),
            (Call::Destroy(Object::Quad), "Invalid ObjectId\n"),
            (Call::Notes, "notes: 3, 2\n"),
            (Call::Arrive(&DELETED), "done\n"),
            (Call::Next, "would block\n"),
            (Call::SetData(Object::Quad, 8), "Invalid ObjectId\n"),
            (Call::Send(Request::Sync), "sent: 3, 3\n"),
            (Call::Flush, "flushed\n"),
        ],
        error: "no error",
        counts: (2, 1),
    },
    // The same, and its id is told. If there is no memory for that, the message stays unread.
    Run {
        name: "a destroyed object that is told",
        entries: &[
            (Call::KeepFreed(true), "keeping set\n"),
            (Call::Send(Request::GetRegistry), "sent: 2, 1\n"),
            (Call::Send(Request::Bind), "sent: 3, 2\n"),
            (Call::Destroy(Object::Quad), "destroyed\n"),
            (Call::Arrive(&DELETED), "done\n"),
            (Call::Next, "would block\n"),
            (Call::Freed, "freed 3, 2\n"),
            (Call::Freed, "none freed\n"),
            (Call::Send(Request::Sync), "sent: 3, 3\n"),
        ],
        error: "no error",
        counts: (2, 0),
    },
    // The server makes an object at the number of one that was destroyed, and its id is told.
    Run {
        name: "a number that is taken over",
        entries: &[
            (Call::KeepFreed(true), "keeping set\n"),
            (Call::Send(Request::GetRegistry), "sent: 2, 1\n"),
            (Call::Send(Request::Bind), "sent: 3, 2\n"),
            (Call::Arrive(&MADE), "done\n"),
            (Call::Next, "event 1 of 3: new 4278190080, 3\n"),
            (Call::Finish(Some(7)), "finished\n"),
            (Call::Destroy(Object::Child), "destroyed\n"),
            (Call::Arrive(&MADE), "done\n"),
            (Call::Next, "event 1 of 3: new 4278190080, 4\n"),
            (Call::Freed, "freed 4278190080, 3\n"),
        ],
        error: "no error",
        counts: (3, 0),
    },
    // The server makes an object.
    Run {
        name: "an object of the server's",
        entries: &[
            (Call::Send(Request::GetRegistry), "sent: 2, 1\n"),
            (Call::Send(Request::Bind), "sent: 3, 2\n"),
            (Call::Arrive(&MADE), "done\n"),
            (Call::Next, "event 1 of 3: new 4278190080, 3\n"),
            (Call::Finish(Some(7)), "finished\n"),
            (Call::Destroy(Object::Child), "destroyed\n"),
            (Call::Notes, "notes: 4278190080, 3\n"),
        ],
        error: "no error",
        counts: (1, 0),
    },
    // A sender is destroyed before the end of its destructor event.
    Run {
        name: "a sender destroyed early",
        entries: &[
            (Call::Send(Request::GetRegistry), "sent: 2, 1\n"),
            (Call::Send(Request::Bind), "sent: 3, 2\n"),
            (Call::Arrive(&GONE), "done\n"),
            (Call::Next, "event 2 of 3:\n"),
            (Call::Destroy(Object::Quad), "destroyed\n"),
            (Call::Finish(None), "finished\n"),
            (Call::Notes, "notes: 3, 2\n"),
        ],
        error: "no error",
        counts: (1, 0),
    },
    // The server makes an object of the client's range.
    Run {
        name: "a new id of the client's range",
        entries: &[
            (Call::Send(Request::GetRegistry), "sent: 2, 1\n"),
            (Call::Send(Request::Bind), "sent: 3, 2\n"),
            (Call::Arrive(&MADE_AT_5), "done\n"),
            (Call::Next, "the session failed\n"),
            (Call::Flush, "the session failed\n"),
            (Call::Next, "the session failed\n"),
        ],
        error: "Protocol error 0 on object @0: Protocol error: server tried to create an object \"quad\" with invalid id 5.",
        counts: (1, 0),
    },
    // Requests to a full buffer: 4096 bytes wait, so the next has to wait for a send. A send that fails is stored, and the
    // request is answered as ever.
    Run {
        name: "a request to a full buffer",
        entries: &[
            (Call::Limit(Some(4096)), "limit set\n"),
            (Call::Send(Request::GetRegistry), "sent: 2, 1\n"),
            (Call::Send(Request::Bind), "sent: 3, 2\n"),
            (Call::Send(Request::Give(4036)), "sent: 0, 0\n"),
            (Call::Send(Request::Sync), "sent: 4, 3\n"),
            (Call::Flush, "flushed\n"),
        ],
        error: "no error",
        counts: (0, 2),
    },
    Run {
        name: "a destructor request to a full buffer",
        entries: &[
            (Call::Limit(Some(4096)), "limit set\n"),
            (Call::Send(Request::GetRegistry), "sent: 2, 1\n"),
            (Call::Send(Request::Bind), "sent: 3, 2\n"),
            (Call::Send(Request::Give(4036)), "sent: 0, 0\n"),
            (Call::Send(Request::Bare(Object::Quad, 2)), "sent: 0, 0\n"),
            (Call::Notes, "notes: 3, 2\n"),
            (Call::Flush, "flushed\n"),
        ],
        error: "no error",
        counts: (0, 2),
    },
];

#[test]
fn drill_of_a_client(rt: HostRuntime) -> Result<(), Fail> {
    for run in &RUNS {
        drill(&rt, run)?;
    }
    Ok(())
}

/// In each of these runs, each receive and each send fails in turn.
#[test]
fn faults_of_a_client(rt: HostRuntime) -> Result<(), Fail> {
    for run in &RUNS {
        drill(&rt, run)?;
        fails_in_turn(&rt, run)?;
    }
    Ok(())
}

/// The same of one more; and each receive and each send would block, or lacks memory.
#[test]
fn faults_that_are_made_up_for(rt: HostRuntime) -> Result<(), Fail> {
    drill(&rt, &MADE_AND_SYNC)?;
    fails_in_turn(&rt, &MADE_AND_SYNC)?;
    faults_are_made_up_for(&rt, &MADE_AND_SYNC)
}
