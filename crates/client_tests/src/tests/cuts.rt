//! What a server sends, and what breaks the protocol, in every cutting: whole, in two at each place, and byte by byte.

use super::acts::{Act, Cue, Look, log_of};
use super::ways::Way;
use crate::kit::values::{Object, Request};
use std::alloc::Global;
use std::test::Fail;
use test_kit::cuts::{Stream, cut_of, cutting_tells};

/// A run of which what arrives is cut, and what it tells in each cutting.
#[derive(Clone, Copy)]
struct Row {
    name: &'static str,
    before: Act,
    arrives: &'static [u8],
    after: &'static [Act],
    told: &'static str,
}

/// The session's error.
const ERROR: [Act; 1] = [Act::Look(Look::LastError)];

/// The callback is gone, and its number is used again.
const SYNC_AGAIN: [Act; 2] = [
    Act::Look(Look::Info(Object::Callback)),
    Act::Send(Request::Sync),
];

/// All objects are there, and the next sync has the number 4.
const NOTHING_IS_GONE: [Act; 5] = [
    Act::Look(Look::Info(Object::Display)),
    Act::Look(Look::Info(Object::Registry)),
    Act::Look(Look::Info(Object::Quad)),
    Act::Look(Look::LastError),
    Act::Send(Request::Sync),
];

/// The rows.
static ROWS: [Row; 5] = [
    Row {
        name: "the answer to a sync",
        before: Act::Send(Request::Sync),
        arrives: &[
            2, 0, 0, 0, 0, 0, 12, 0, 0, 0, 0, 0, 1, 0, 0, 0, 1, 0, 12, 0, 2, 0, 0, 0,
        ],
        after: &SYNC_AGAIN,
        told: "sent: 2, 1\nevent 0 of 2: 0\nfinished\nwould block\nInvalid ObjectId\nsent: 2, 2\n",
    },
    Row {
        name: "an error without a text",
        before: Act::Bound,
        arrives: &[1, 0, 0, 0, 0, 0, 20, 0, 0, 0, 0, 0, 0, 0, 0, 0, 0, 0, 0, 0],
        after: &ERROR,
        told: "sent: 2, 1\nsent: 3, 2\nthe session failed\nProtocol error 0 on object @0: Malformed Wayland message.\n",
    },
    Row {
        name: "the end of objects that there are not",
        before: Act::Bound,
        arrives: &[
            1, 0, 0, 0, 1, 0, 12, 0, 1, 0, 0, 0, 1, 0, 0, 0, 1, 0, 12, 0, 99, 0, 0, 0,
        ],
        after: &NOTHING_IS_GONE,
        told: "sent: 2, 1\nsent: 3, 2\nwould block\nversion 1\nversion 1\nversion 3\nno error\nsent: 4, 3\n",
    },
    // A message of 13 bytes by object 99, and then `wl_display.error` of code 7 for it, with the text `no`.
    Row {
        name: "an unknown sender that is passed over",
        before: Act::PassOver(true),
        arrives: &[
            99, 0, 0, 0, 5, 0, 13, 0, 1, 2, 3, 4, 5, 1, 0, 0, 0, 0, 0, 24, 0, 99, 0, 0, 0, 7, 0, 0,
            0, 3, 0, 0, 0, 110, 111, 0, 0,
        ],
        after: &ERROR,
        told: "the session failed\nProtocol error 7 on object <unknown>@99: no\n",
    },
    Row {
        name: "a new id of the client's range",
        before: Act::Bound,
        arrives: &[3, 0, 0, 0, 1, 0, 12, 0, 5, 0, 0, 0],
        after: &ERROR,
        told: "sent: 2, 1\nsent: 3, 2\nthe session failed\nProtocol error 0 on object @0: Protocol error: server tried to create an object \"quad\" with invalid id 5.\n",
    },
];

/// What the row tells in the cutting of that number.
fn told_in(alloc: Global, row: &Row, number: usize) -> Result<String, Fail> {
    let stream = Stream {
        front: row.arrives,
        filled: 0,
        back: &[],
    };
    let cut = cut_of(number, row.arrives.len());
    let front = [
        row.before,
        Act::Script(Cue::ArriveCut(stream, cut)),
        Act::Serve,
    ];
    let mut acts = Vec::from_slice(alloc, &front)?;
    acts.extend_from_slice(row.after)?;
    log_of(alloc, Way::Moved, acts.as_slice())
}

/// Fails if the row tells something else in the cutting of that number, and names it.
fn in_cutting(rt: &(impl Eprint + AllocGlobal), row: &Row, number: usize) -> Result<(), Fail> {
    let told = told_in(rt.alloc(), row, number)?;
    cutting_tells(rt, (row.name, number), told.as_str(), row.told)
}

/// Fails if the row tells something else in a cutting.
fn in_every_cutting(rt: &(impl Eprint + AllocGlobal), row: &Row) -> Result<(), Fail> {
    for number in 0..=row.arrives.len() {
        in_cutting(rt, row, number)?;
    }
    Ok(())
}

/// Cutting does not matter to what is handed out, stored and made.
#[test]
fn rows_in_every_cutting(rt: HostRuntime) -> Result<(), Fail> {
    for row in &ROWS {
        in_every_cutting(&rt, row)?;
    }
    Ok(())
}
