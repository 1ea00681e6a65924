//! Whole conversations with a client's session. The bytes are those of the wire format.

use crate::tests::args::{arg, id};
use crate::tests::client_acts::{Act, DISPLAY, NEW, REGISTRY};
use crate::tests::rows::{
    BAD_NOTE, FAR_NOTE, LAX_PAD, LONG_PAD, LONGER_PAD, NEW_CALLBACK, NO_ROWS, OLD_CALLBACK,
    OTHER_PAD, PAD_TWICE, READ_NOTE, TABLE, TOLD_PAD,
};
use crate::tests::session::{Run, run_tells};
use crate::tests::told::NOBODY;
use std::test::Fail;
use wl_host::{Client, FlatArgument, FlatObjectId};

/// The `pad` that is bound after the registry was made.
const BOUND: FlatObjectId = id!(NOBODY, 4 @ 3, serial 2);

/// The callback of a sync that is the first request.
const CALLBACK: FlatObjectId = id!(NOBODY, 3 @ 2, serial 1);

/// The `pad` that the bound one makes.
const MADE: FlatObjectId = id!(NOBODY, 4 @ 4, serial 3);

/// The arguments of `pad.push`: 5 and the descriptor 42.
const PUSH: &[FlatArgument] = &[arg!(int: 5), arg!(fd: 42)];

/// The same with the descriptor 44.
const PUSH_ANOTHER: &[FlatArgument] = &[arg!(int: 5), arg!(fd: 44)];

/// The same in the wrong order, with the descriptor 43.
const WRONG: &[FlatArgument] = &[arg!(fd: 43), arg!(int: 5)];

/// The arguments of `pad.label`: the three bytes behind the first one.
const LABEL: &[FlatArgument] = &[arg!(string: 1, 3)];

/// The arguments of `pad.write`: the first three bytes, and the new object.
const WRITE: &[FlatArgument] = &[arg!(string: 0, 3), arg!(new)];

/// `given` of the object 3, which the client has destroyed.
const TO_DEAD: &[u32] = &[3, 0x00080001];

/// `given` of the object 4.
const TO_LIVE: &[u32] = &[4, 0x00080001];

/// One of each.
const TO_BOTH: &[u32] = &[3, 0x00080001, 4, 0x00080001];

/// `knot.tied` by the object 4, of no object, the object 3, a null string and "x": that is allowed.
const TIED: &[u32] = &[4, 0x001c0000, 0, 3, 0, 2, 0x78];

/// The same of no objects and null strings. The second object and the second string may not be null.
const TIED_NULLS: &[u32] = &[4, 0x00180000, 0, 0, 0, 0];

/// The same of the object 3, twice, and null strings.
const TIED_LAST_NULL: &[u32] = &[4, 0x00180000, 3, 3, 0, 0];

/// `pad.moved` by the object 3, of 0.
const MOVED: &[u32] = &[3, 0x000c0000, 0];

/// `gate.opened` by the object 4, of the first object of the server's range, a null string, which is not allowed, and a descriptor.
const OPENED_NULL: &[u32] = &[4, 0x00100000, 0xff000000, 0];

/// That object.
const OPENED: FlatObjectId = id!(NOBODY, 4 @ 4278190080, serial 4);

/// `wl_registry.global` with a null name, which is not allowed.
const GLOBAL_NULL: &[u32] = &[2, 0x00140000, 1, 0, 1];

/// The conversations, each of a new session.
static ROWS: [Run<Act>; 7] = [
    // `wl_display.sync` is sent, and `wl_callback.done` and `wl_display.delete_id` come back. The callback had data, so it is
    // noted.
    Run {
        name: "sync is answered",
        first: &[],
        entries: &[
            (Act::Send(DISPLAY, 0, Some(7), NEW, &[]), "Ok 3@2 serial 1"),
            (Act::Info(CALLBACK), "Ok 3@2 version 1"),
            (Act::ToSend(0), "Ok [ ] [ ]"),
            (Act::Flush, "Ok"),
            (
                Act::ToSend(0),
                "Ok bytes 12 [ 01 00 00 00 00 00 0c 00 02 00 00 00 ] [ ]",
            ),
            (Act::Sent(4), "Ok"),
            (Act::ToSend(0), "Ok bytes 8 [ 00 00 0c 00 02 00 00 00 ] [ ]"),
            (Act::Sent(100), "Ok"),
            (Act::ToSend(0), "Ok [ ] [ ]"),
            (
                Act::Received(&[2, 0x000c0000, 5, 1, 0x000c0001, 2], &[]),
                "Ok",
            ),
            (
                Act::Next(0, 0),
                "TooSmall ends 1 has_data 1 data 7 arguments 1 by 3@2",
            ),
            (Act::Finish, "NotOpen"),
            (
                Act::Next(1, 0),
                "Ok ends 1 has_data 1 data 7 arguments 1 by 3@2 (1: 5)",
            ),
            (Act::Next(1, 0), "Open"),
            (Act::FinishWith(1), "UnexpectedData"),
            (Act::Finish, "Ok"),
            (Act::Finish, "NotOpen"),
            (Act::Note, "Ok 3@2 serial 1 data 7"),
            (Act::Note, "WouldBlock"),
            (Act::Next(1, 0), "WouldBlock"),
            (Act::Data(CALLBACK), "InvalidId"),
            (Act::Error, "Ok number 0"),
        ],
    },
    // What is to be sent waits until it was, ready or not, and what arrived until an event is read of it. A descriptor without one waits
    // for a message to come.
    Run {
        name: "so much waits",
        first: &[],
        entries: &[
            (Act::Waiting, "Ok 0+0 0+0"),
            (Act::Send(DISPLAY, 0, Some(7), NEW, &[]), "Ok 3@2 serial 1"),
            (Act::Waiting, "Ok 0+0 12+0"),
            (Act::Flush, "Ok"),
            (Act::Send(DISPLAY, 0, Some(8), NEW, &[]), "Ok 3@3 serial 2"),
            (Act::Waiting, "Ok 0+0 24+0"),
            (Act::Sent(5), "Ok"),
            (Act::Waiting, "Ok 0+0 19+0"),
            (Act::Received(&[2, 0x000c0000], &[42]), "Ok"),
            (Act::Waiting, "Ok 8+1 19+0"),
            (Act::Next(1, 0), "WouldBlock"),
            (Act::Received(&[5], &[]), "Ok"),
            (Act::Waiting, "Ok 12+1 19+0"),
            (
                Act::Next(1, 0),
                "Ok ends 1 has_data 1 data 7 arguments 1 by 3@2 (1: 5)",
            ),
            (Act::Waiting, "Ok 0+1 19+0"),
        ],
    },
    // Descriptors go out with requests and come in with events, each once. A request that is refused keeps none. One that came
    // with an event for a destroyed object is dropped once the event is read, and the end drops all that are left.
    Run {
        name: "descriptors come and go",
        first: &[],
        entries: &[
            (Act::Send(DISPLAY, 1, Some(1), NEW, &[]), "Ok 2@2 serial 1"),
            (Act::BindPad(9), "Ok 4@3 serial 2"),
            (Act::Send(BOUND, 3, Some(10), NEW, &[]), "Ok 4@4 serial 3"),
            (Act::Flush, "Ok"),
            (Act::Sent(52), "Ok"),
            (Act::Send(BOUND, 0, None, WRONG, &[]), "BadSignature"),
            (Act::Send(BOUND, 0, None, PUSH, &[]), "Ok 0@0"),
            (Act::Send(BOUND, 1, None, LABEL, b"-hey-"), "Ok 0@0"),
            (Act::Send(BOUND, 1, None, LABEL, b"-he"), "InvalidInput"),
            (Act::Flush, "Ok"),
            (Act::ToSend(0), "TooSmall bytes 28 descriptors 1"),
            (
                Act::ToSend(1),
                "Ok bytes 28 descriptors 1 [ 03 00 00 00 00 00 0c 00 05 00 00 00 03 00 00 00 01 00 10 00 04 00 00 00 68 65 79 00 ] [ 42 ]",
            ),
            (Act::Sent(28), "Ok"),
            (Act::ToSend(0), "Ok [ ] [ ]"),
            (
                Act::Received(
                    &[
                        3, 0x00080001, 3, 0x00080001, 3, 0x000c0000, 6, 4, 0x00080001,
                    ],
                    &[50, 51, 52],
                ),
                "Ok",
            ),
            (
                Act::Next(1, 0),
                "Ok opcode 1 has_data 1 data 9 arguments 1 by 4@3 (7: 50)",
            ),
            (Act::Destroy(BOUND), "Ok"),
            (Act::Destroy(BOUND), "InvalidId"),
            (Act::Finish, "Ok"),
            (Act::Dropped, "WouldBlock"),
            (
                Act::Next(0, 0),
                "TooSmall opcode 1 has_data 1 data 10 arguments 1 by 4@4",
            ),
            (Act::Dropped, "Ok descriptor 51"),
            (Act::Dropped, "WouldBlock"),
            (
                Act::Next(1, 0),
                "Ok opcode 1 has_data 1 data 10 arguments 1 by 4@4 (7: 52)",
            ),
            (Act::Finish, "Ok"),
            (Act::Note, "Ok 4@3 serial 2 data 9"),
            (Act::Send(MADE, 0, None, PUSH_ANOTHER, &[]), "Ok 0@0"),
            (Act::Received(&[4, 0x00080001], &[53]), "Ok"),
            (Act::Received(&[], &[54]), "InvalidInput"),
            (Act::Received(&[4], &[54]), "Ok"),
            (Act::End, "Ok"),
            (
                Act::Next(1, 0),
                "Ok opcode 1 has_data 1 data 10 arguments 1 by 4@4 (7: 53)",
            ),
            (Act::Finish, "Ok"),
            (Act::Dropped, "WouldBlock"),
            (Act::Next(1, 0), "Failed"),
            (Act::Dropped, "Ok descriptor 54"),
            (Act::Dropped, "Ok descriptor 44"),
            (Act::Dropped, "WouldBlock"),
            (Act::Flush, "Failed"),
            (Act::ToSend(0), "Ok [ ] [ ]"),
            (Act::Error, "Ok number 0 kind 1 status 10"),
        ],
    },
    // Each object that had data is noted once when it ends, with the data that it had then: one that the client destroys, the
    // sender of a request that is a destructor, and the sender of such an event.
    Run {
        name: "notes bring the data",
        first: &[],
        entries: &[
            (Act::Send(DISPLAY, 1, Some(1), NEW, &[]), "Ok 2@2 serial 1"),
            (Act::BindPad(9), "Ok 4@3 serial 2"),
            (Act::Send(BOUND, 3, Some(21), NEW, &[]), "Ok 4@4 serial 3"),
            (Act::SetData(MADE, 22), "Ok"),
            (Act::Note, "WouldBlock"),
            (Act::Destroy(MADE), "Ok"),
            (Act::SetData(MADE, 23), "Ok"),
            (Act::Data(MADE), "Ok data 23"),
            (Act::Send(BOUND, 2, None, &[], &[]), "Ok 0@0"),
            (Act::Destroy(REGISTRY), "Ok"),
            (Act::Send(DISPLAY, 0, Some(31), NEW, &[]), "Ok 3@5 serial 4"),
            (Act::Send(DISPLAY, 0, Some(32), NEW, &[]), "Ok 3@6 serial 5"),
            (
                Act::Received(
                    &[
                        5, 0x000c0000, 1, 1, 0x000c0001, 5, 6, 0x000c0000, 2, 1, 0x000c0001, 6,
                    ],
                    &[],
                ),
                "Ok",
            ),
            (
                Act::Next(1, 0),
                "Ok ends 1 has_data 1 data 31 arguments 1 by 3@5 (1: 1)",
            ),
            (Act::Note, "Ok 4@4 serial 3 data 22"),
            (Act::Finish, "Ok"),
            (
                Act::Next(1, 0),
                "Ok ends 1 has_data 1 data 32 arguments 1 by 3@6 (1: 2)",
            ),
            (Act::Finish, "Ok"),
            (Act::Next(1, 0), "WouldBlock"),
            (Act::Note, "Ok 4@3 serial 2 data 9"),
            (Act::Note, "Ok 2@2 serial 1 data 1"),
            (Act::Note, "Ok 3@5 serial 4 data 31"),
            (Act::Note, "Ok 3@6 serial 5 data 32"),
            (Act::Note, "WouldBlock"),
            (Act::Received(&[1, 0x000c0001, 4], &[]), "Ok"),
            (Act::Next(1, 0), "WouldBlock"),
            (Act::Data(MADE), "InvalidId"),
            (Act::Note, "WouldBlock"),
        ],
    },
    // The server deletes the id of a callback before the client destroys it: then its number is used again once it is reclaimed.
    // Its note tells its data all the same.
    Run {
        name: "a number is used again",
        first: &[],
        entries: &[
            (Act::Send(DISPLAY, 0, Some(7), NEW, &[]), "Ok 3@2 serial 1"),
            (Act::Received(&[1, 0x000c0001, 2], &[]), "Ok"),
            (Act::Next(1, 0), "WouldBlock"),
            (Act::Reclaim(CALLBACK), "InvalidId"),
            (Act::Destroy(CALLBACK), "Ok"),
            (Act::Reclaim(CALLBACK), "Ok"),
            (Act::Reclaim(CALLBACK), "InvalidId"),
            (Act::Data(CALLBACK), "InvalidId"),
            (Act::Note, "Ok 3@2 serial 1 data 7"),
            (Act::Send(DISPLAY, 0, Some(8), NEW, &[]), "Ok 3@2 serial 2"),
        ],
    },
    // A message of the object 9, which there is not, is passed over, and then `wl_callback.done` is read. The number of the callback
    // has an object until `wl_display.delete_id`.
    Run {
        name: "an unknown sender is passed over",
        first: &[],
        entries: &[
            (Act::PassOver(2), "Ok"),
            (Act::Send(DISPLAY, 0, Some(7), NEW, &[]), "Ok 3@2 serial 1"),
            (Act::At(2), "Ok 3@2 serial 1"),
            (Act::At(3), "InvalidId"),
            (
                Act::Received(&[9, 0x000c0004, 5, 2, 0x000c0000, 6], &[]),
                "Ok",
            ),
            (
                Act::Next(1, 0),
                "Ok ends 1 has_data 1 data 7 arguments 1 by 3@2 (1: 6)",
            ),
            (Act::Finish, "Ok"),
            (Act::At(2), "Ok 3@2 serial 1"),
            (Act::Received(&[1, 0x000c0001, 2], &[]), "Ok"),
            (Act::Next(1, 0), "WouldBlock"),
            (Act::At(2), "InvalidId"),
            (Act::PassOver(0), "Ok"),
            (Act::Received(&[9, 0x00080000], &[]), "Ok"),
            (Act::Next(1, 0), "Failed"),
        ],
    },
    // The descriptor of an event for a destroyed object comes back as soon as the session has read the event, while those that an
    // event may yet hand out stay: in the mailbox, in the core, and with an event that is kept.
    Run {
        name: "dropped events give their descriptors back",
        first: &[],
        entries: &[
            (Act::Send(DISPLAY, 1, Some(1), NEW, &[]), "Ok 2@2 serial 1"),
            (Act::BindPad(7), "Ok 4@3 serial 2"),
            (Act::BindPad(8), "Ok 4@4 serial 3"),
            (Act::Destroy(BOUND), "Ok"),
            // Not read yet.
            (Act::Received(TO_DEAD, &[50]), "Ok"),
            (Act::Dropped, "WouldBlock"),
            (Act::Next(1, 0), "WouldBlock"),
            (Act::Dropped, "Ok descriptor 50"),
            (Act::Dropped, "WouldBlock"),
            // One waits in the mailbox.
            (Act::Received(TO_DEAD, &[51]), "Ok"),
            (Act::Next(1, 0), "WouldBlock"),
            (Act::Received(TO_LIVE, &[52]), "Ok"),
            (Act::Dropped, "Ok descriptor 51"),
            (Act::Dropped, "WouldBlock"),
            (
                Act::Next(1, 0),
                "Ok opcode 1 has_data 1 data 8 arguments 1 by 4@4 (7: 52)",
            ),
            (Act::Finish, "Ok"),
            // One waits in the core, with half of its event.
            (Act::Received(TO_DEAD, &[53]), "Ok"),
            (Act::Received(&[4], &[54]), "Ok"),
            (Act::Next(1, 0), "WouldBlock"),
            (Act::Dropped, "Ok descriptor 53"),
            (Act::Dropped, "WouldBlock"),
            (Act::Received(&[0x00080001], &[]), "Ok"),
            (
                Act::Next(1, 0),
                "Ok opcode 1 has_data 1 data 8 arguments 1 by 4@4 (7: 54)",
            ),
            (Act::Finish, "Ok"),
            // One is of an event that is kept, and one waits behind it.
            (Act::Received(TO_BOTH, &[55, 56, 57]), "Ok"),
            (
                Act::Next(0, 0),
                "TooSmall opcode 1 has_data 1 data 8 arguments 1 by 4@4",
            ),
            (Act::Dropped, "Ok descriptor 55"),
            (Act::Dropped, "WouldBlock"),
            (Act::Received(TO_LIVE, &[]), "Ok"),
            (
                Act::Next(1, 0),
                "Ok opcode 1 has_data 1 data 8 arguments 1 by 4@4 (7: 56)",
            ),
            (Act::Finish, "Ok"),
            (
                Act::Next(1, 0),
                "Ok opcode 1 has_data 1 data 8 arguments 1 by 4@4 (7: 57)",
            ),
            (Act::Dropped, "WouldBlock"),
        ],
    },
];

/// Each conversation tells what it has to.
#[test]
fn rows(rt: HostRuntime) -> Result<(), Fail> {
    for run in &ROWS {
        run_tells::<Client>(&rt, run, None, false)?;
    }
    Ok(())
}

/// The place of the first null that is not allowed, an object or a string, is told, counted from 1; 0 if there is none. The
/// number 0 is no null.
static NULLS: Run<Act> = Run {
    name: "forbidden nulls are told",
    first: &[],
    entries: &[
        (Act::AddKnot, "Ok"),
        (Act::Send(DISPLAY, 1, Some(1), NEW, &[]), "Ok 2@2 serial 1"),
        (Act::BindPad(9), "Ok 4@3 serial 2"),
        (Act::BindKnot(8), "Ok 5@4 serial 3"),
        (Act::Received(TIED, &[]), "Ok"),
        (
            Act::Next(4, 8),
            "Ok has_data 1 data 8 arguments 4 bytes 8 by 5@4 (4: 0) (4: 0 data 9 object 4@3) (8: 0) (3: 0 length 1) \
             [ 78 00 00 00 00 00 00 00 ]",
        ),
        (Act::Finish, "Ok"),
        (Act::Received(TIED_NULLS, &[]), "Ok"),
        (
            Act::Next(3, 0),
            "TooSmall has_data 1 data 8 arguments 4 null 2 by 5@4 (0: 0) (0: 0) (0: 0)",
        ),
        (
            Act::Next(4, 0),
            "Ok has_data 1 data 8 arguments 4 null 2 by 5@4 (4: 0) (4: 0) (8: 0) (8: 0)",
        ),
        (Act::Finish, "Ok"),
        (Act::Received(TIED_LAST_NULL, &[]), "Ok"),
        (
            Act::Next(4, 0),
            "Ok has_data 1 data 8 arguments 4 null 4 by 5@4 (4: 0 data 9 object 4@3) (4: 0 data 9 object 4@3) (8: 0) (8: 0)",
        ),
        (Act::Finish, "Ok"),
        (Act::Received(MOVED, &[]), "Ok"),
        (
            Act::Next(1, 0),
            "Ok has_data 1 data 9 arguments 1 by 4@3 (0: 0)",
        ),
        (Act::Finish, "Ok"),
        (Act::Received(GLOBAL_NULL, &[]), "Ok"),
        (
            Act::Next(3, 0),
            "Ok has_data 1 data 1 arguments 3 null 2 by 2@2 (1: 1) (8: 0) (1: 1)",
        ),
        (Act::Finish, "Ok"),
    ],
};

/// It tells what it has to.
#[test]
fn nulls(rt: HostRuntime) -> Result<(), Fail> {
    run_tells::<Client>(&rt, &NULLS, None, false)
}

/// Conversations of a session that refuses nulls that the table forbids.
static REFUSED_NULLS: [Run<Act>; 3] = [
    // An event with such a null, a string here, ends the session by a protocol error of code 0 and no object. The event is not
    // handed out: no data are wanted for the object that it makes, which is there without any. All descriptors come out.
    Run {
        name: "an event with a null string",
        first: &[],
        entries: &[
            (Act::AddGate, "Ok"),
            (Act::RefuseNulls(1), "Ok"),
            (Act::Send(DISPLAY, 1, Some(1), NEW, &[]), "Ok 2@2 serial 1"),
            (Act::BindPad(9), "Ok 4@3 serial 2"),
            (Act::BindGate(8), "Ok 5@4 serial 3"),
            (Act::Send(BOUND, 0, None, PUSH, &[]), "Ok 0@0"),
            (Act::Received(OPENED_NULL, &[50, 51]), "Ok"),
            (Act::Next(0, 0), "Failed"),
            (Act::Next(3, 8), "Failed"),
            (Act::Finish, "NotOpen"),
            (Act::FinishWith(7), "NotOpen"),
            (Act::Info(OPENED), "Ok 4@4278190080 version 1"),
            (Act::Data(OPENED), "InvalidId"),
            (Act::Error, "TooSmall number 0 kind 2 status 11 message 45"),
            (Act::Fail(5), "Ok"),
            (Act::Error, "TooSmall number 0 kind 2 status 11 message 45"),
            (Act::Dropped, "Ok descriptor 50"),
            (Act::Dropped, "Ok descriptor 51"),
            (Act::Dropped, "Ok descriptor 42"),
            (Act::Dropped, "WouldBlock"),
            (Act::Note, "WouldBlock"),
            (Act::Flush, "Failed"),
        ],
    },
    // What the table allows is handed out, also a null. A null object ends the session, too; also if the event was kept for want of
    // room before.
    Run {
        name: "an event with a null object, which is kept",
        first: &[],
        entries: &[
            (Act::AddKnot, "Ok"),
            (Act::RefuseNulls(1), "Ok"),
            (Act::Send(DISPLAY, 1, Some(1), NEW, &[]), "Ok 2@2 serial 1"),
            (Act::BindPad(9), "Ok 4@3 serial 2"),
            (Act::BindKnot(8), "Ok 5@4 serial 3"),
            (Act::Received(TIED, &[]), "Ok"),
            (
                Act::Next(4, 8),
                "Ok has_data 1 data 8 arguments 4 bytes 8 by 5@4 (4: 0) (4: 0 data 9 object 4@3) (8: 0) (3: 0 length 1) \
                 [ 78 00 00 00 00 00 00 00 ]",
            ),
            (Act::Finish, "Ok"),
            (Act::RefuseNulls(0), "Ok"),
            (Act::Received(TIED_NULLS, &[]), "Ok"),
            (
                Act::Next(3, 0),
                "TooSmall has_data 1 data 8 arguments 4 null 2 by 5@4 (0: 0) (0: 0) (0: 0)",
            ),
            (Act::RefuseNulls(2), "Ok"),
            (Act::Next(4, 0), "Failed"),
            (Act::Finish, "NotOpen"),
            (Act::Error, "TooSmall number 0 kind 2 status 11 message 43"),
        ],
    },
    // An error that the session has stays.
    Run {
        name: "a kept event with a null, of a session that has failed",
        first: &[],
        entries: &[
            (Act::Send(DISPLAY, 1, Some(1), NEW, &[]), "Ok 2@2 serial 1"),
            (Act::Received(GLOBAL_NULL, &[]), "Ok"),
            (
                Act::Next(0, 0),
                "TooSmall has_data 1 data 1 arguments 3 null 2 by 2@2",
            ),
            (Act::SendFailed(32), "Ok"),
            (Act::Flush, "Failed"),
            (Act::RefuseNulls(1), "Ok"),
            (Act::Next(3, 0), "Failed"),
            (Act::Error, "Ok number 32 kind 1 status 13"),
        ],
    },
];

/// Each of them tells what it has to.
#[test]
fn refused_nulls(rt: HostRuntime) -> Result<(), Fail> {
    for run in &REFUSED_NULLS {
        run_tells::<Client>(&rt, run, None, false)?;
    }
    Ok(())
}

/// A `pad` has its new request and its new event once longer rows have extended the table, and the rows that it began with
/// change nothing then. Rows that contradict are refused.
static WHOLE_ROWS: Run<Act> = Run {
    name: "whole rows extend the table",
    first: &[],
    entries: &[
        (
            Act::Extend(OTHER_PAD),
            "BadTable fault 9 event 1 opcode 1 version 2",
        ),
        (Act::Extend(PAD_TWICE), "BadTable interface 2 fault 3"),
        (Act::Extend(LONG_PAD), "Ok"),
        (Act::Extend(TABLE), "Ok"),
        (Act::Send(DISPLAY, 1, Some(1), NEW, &[]), "Ok 2@2 serial 1"),
        (Act::BindPad(9), "Ok 4@3 serial 2"),
        (
            Act::Send(BOUND, 4, Some(10), WRITE, b"hey"),
            "Ok 5@4 serial 3",
        ),
        (Act::Received(&[3, 0x00080002], &[]), "Ok"),
        (Act::Next(0, 0), "Ok opcode 2 has_data 1 data 9 by 4@3"),
        (Act::Finish, "Ok"),
        (
            Act::Extend(OTHER_PAD),
            "BadTable fault 9 event 1 opcode 1 version 3",
        ),
        (Act::Extend(BAD_NOTE), "BadTable fault 4"),
    ],
};

/// A `pad` that differs is another interface: it has a row of its own, and the first of these that agrees. What a row lacks it takes
/// of the `pad` that agrees with it; of the first one an event is read that came with it.
static ONE_INTERFACE: Run<Act> = Run {
    name: "one interface joins the table",
    first: &[],
    entries: &[
        (Act::Join(TABLE), "Ok number 4"),
        (Act::Join(LAX_PAD), "Ok number 5"),
        (Act::Join(TOLD_PAD), "Ok number 5"),
        (Act::Join(LAX_PAD), "Ok number 5"),
        (Act::Join(READ_NOTE), "Ok number 6"),
        (Act::Join(FAR_NOTE), "BadTable fault 4"),
        (Act::Join(LONGER_PAD), "Ok number 4"),
        (Act::Join(TABLE), "Ok number 4"),
        (Act::Join(NO_ROWS), "BadTable fault 1"),
        (Act::Join(LONG_PAD), "BadTable fault 1"),
        (Act::Join(OLD_CALLBACK), "Ok number 3"),
        (Act::Join(NEW_CALLBACK), "BadTable fault 4"),
        (Act::Send(DISPLAY, 1, Some(1), NEW, &[]), "Ok 2@2 serial 1"),
        (Act::BindPad(9), "Ok 4@3 serial 2"),
        (Act::Received(&[3, 0x00080002], &[]), "Ok"),
        (Act::Next(0, 0), "Ok opcode 2 has_data 1 data 9 by 4@3"),
        (Act::Finish, "Ok"),
    ],
};

/// No note tells of an object that is given up, and its data are 0. It leaves its number when the server deletes its id; at once if that
/// came before.
static GIVEN_UP: [Run<Act>; 3] = [
    Run {
        name: "an object is given up",
        first: &[],
        entries: &[
            (Act::GiveUp(DISPLAY), "InvalidId"),
            (Act::GiveUp(CALLBACK), "InvalidId"),
            (Act::Send(DISPLAY, 0, Some(7), NEW, &[]), "Ok 3@2 serial 1"),
            (Act::Data(CALLBACK), "Ok data 7"),
            (Act::GiveUp(CALLBACK), "Ok"),
            (Act::GiveUp(CALLBACK), "Ok"),
            (Act::Note, "WouldBlock"),
            (Act::Data(CALLBACK), "Ok"),
            (Act::Info(CALLBACK), "InvalidId"),
            (Act::At(2), "Ok 3@2 serial 1"),
            (Act::Received(&[1, 0x000c0001, 2], &[]), "Ok"),
            (Act::Next(1, 0), "WouldBlock"),
            (Act::At(2), "InvalidId"),
            (Act::Note, "WouldBlock"),
        ],
    },
    Run {
        name: "an object is given up that an event has ended",
        first: &[],
        entries: &[
            (Act::Send(DISPLAY, 0, Some(7), NEW, &[]), "Ok 3@2 serial 1"),
            (Act::Received(&[2, 0x000c0000, 6], &[]), "Ok"),
            (
                Act::Next(1, 0),
                "Ok ends 1 has_data 1 data 7 arguments 1 by 3@2 (1: 6)",
            ),
            (Act::Finish, "Ok"),
            (Act::GiveUp(CALLBACK), "Ok"),
            (Act::Data(CALLBACK), "Ok"),
            (Act::Note, "Ok 3@2 serial 1 data 7"),
            (Act::Note, "WouldBlock"),
            (Act::Received(&[1, 0x000c0001, 2], &[]), "Ok"),
            (Act::Next(1, 0), "WouldBlock"),
            (Act::GiveUp(CALLBACK), "InvalidId"),
        ],
    },
    Run {
        name: "an object is given up whose id was deleted",
        first: &[],
        entries: &[
            (Act::Send(DISPLAY, 0, Some(7), NEW, &[]), "Ok 3@2 serial 1"),
            (Act::Received(&[1, 0x000c0001, 2], &[]), "Ok"),
            (Act::Next(1, 0), "WouldBlock"),
            (Act::GiveUp(CALLBACK), "Ok"),
            (Act::Data(CALLBACK), "InvalidId"),
            (Act::Note, "WouldBlock"),
            (Act::Send(DISPLAY, 0, Some(8), NEW, &[]), "Ok 3@2 serial 2"),
        ],
    },
];

/// `pad.given` by the object 3, 29 times.
const GIVEN: &[u32] = &[
    3, 0x00080001, 3, 0x00080001, 3, 0x00080001, 3, 0x00080001, 3, 0x00080001, 3, 0x00080001, 3,
    0x00080001, 3, 0x00080001, 3, 0x00080001, 3, 0x00080001, 3, 0x00080001, 3, 0x00080001, 3,
    0x00080001, 3, 0x00080001, 3, 0x00080001, 3, 0x00080001, 3, 0x00080001, 3, 0x00080001, 3,
    0x00080001, 3, 0x00080001, 3, 0x00080001, 3, 0x00080001, 3, 0x00080001, 3, 0x00080001, 3,
    0x00080001, 3, 0x00080001, 3, 0x00080001, 3, 0x00080001, 3, 0x00080001,
];

/// Which messages go together: events of objects, up to one that makes or ends an object or is the display's, that no event comes of,
/// or that lacks a descriptor. `pad.given` brings one, and `gate.opened` makes an object.
static TOGETHER: Run<Act> = Run {
    name: "messages that go together",
    first: &[],
    entries: &[
        (Act::Send(DISPLAY, 1, Some(1), NEW, &[]), "Ok 2@2 serial 1"),
        (Act::BindPad(9), "Ok 4@3 serial 2"),
        (Act::AddGate, "Ok"),
        (Act::BindGate(8), "Ok 5@4 serial 3"),
        (Act::Run(&[], 3), "Ok"),
        (Act::Run(GIVEN, 29), "Ok bytes 224 descriptors 28"),
        (Act::Run(&[3], 0), "Ok"),
        (Act::Run(&[3, 0x000c0000], 0), "Ok"),
        (
            Act::Run(&[3, 0x000c0000, 5, 3, 0x00080001, 3, 0x000c0000, 7, 3], 2),
            "Ok bytes 32 descriptors 1",
        ),
        (
            Act::Run(&[3, 0x000c0000, 5, 3, 0x00080001, 3, 0x000c0000, 7], 0),
            "Ok bytes 12 kind 3 sender 3 interface 4 opcode 1 size 8 needed 1",
        ),
        (
            Act::Run(&[4, 0x00140000, 0xff000000, 2, 0x61, 3, 0x000c0000, 7], 1),
            "Ok bytes 20 descriptors 1",
        ),
        (
            Act::Run(&[3, 0x000c0000, 5, 1, 0x000c0001, 2, 3, 0x000c0000, 7], 0),
            "Ok bytes 24 kind 1 sender 1 interface 1 opcode 1 size 12 number 2",
        ),
        (
            Act::Run(
                &[3, 0x000c0000, 5, 1, 0x000c0001, 0xff000000, 3, 0x00080001],
                0,
            ),
            "Ok bytes 12 skipped 12 kind 1 sender 1 interface 1 opcode 1 size 12 number 4278190080",
        ),
        (
            Act::Run(&[1, 0x00100001, 2, 2, 3, 0x000c0000, 7], 0),
            "Ok bytes 16",
        ),
        (
            Act::Run(&[9, 0x000c0004, 5, 3, 0x000c0000, 7], 0),
            "Ok bytes 12 kind 2 sender 9 opcode 4 size 12",
        ),
        (Act::Run(&[3, 0x00040000, 5, 6], 0), "Ok bytes 16"),
        (
            Act::Run(&[3, 0x000c0007, 5, 3, 0x000c0000, 7], 0),
            "Ok bytes 12",
        ),
        (Act::Destroy(BOUND), "Ok"),
        (
            Act::Run(&[3, 0x00080001, 3, 0x000c0000, 7], 1),
            "Ok bytes 8 descriptors 1 kind 2 sender 3 interface 4 opcode 1 size 8 needed 1 may_bring 1",
        ),
        (
            Act::Run(&[3, 0x00080001, 3, 0x000c0000, 7], 0),
            "Ok skipped 8 kind 2 sender 3 interface 4 opcode 1 size 8 needed 1 may_bring 1",
        ),
        (
            Act::Run(&[3, 0x000c0000, 7], 0),
            "Ok bytes 12 kind 2 sender 3 interface 4 size 12 may_bring 1",
        ),
    ],
};

/// It tells what it has to.
#[test]
fn whole_rows(rt: HostRuntime) -> Result<(), Fail> {
    run_tells::<Client>(&rt, &WHOLE_ROWS, None, false)?;
    run_tells::<Client>(&rt, &ONE_INTERFACE, None, false)
}

/// They tell what they have to.
#[test]
fn objects_given_up(rt: HostRuntime) -> Result<(), Fail> {
    for run in &GIVEN_UP {
        run_tells::<Client>(&rt, run, None, false)?;
    }
    Ok(())
}

/// It tells what it has to.
#[test]
fn messages_together(rt: HostRuntime) -> Result<(), Fail> {
    run_tells::<Client>(&rt, &TOGETHER, None, false)
}
