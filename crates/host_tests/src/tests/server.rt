//! Whole conversations with a server's session. The bytes are those of the wire format.

use crate::tests::acts::{Act, FIRST, GIVEN, MOVED, SECOND};
use crate::tests::args::{arg, id};
use crate::tests::registries::Telling;
use crate::tests::rows::{
    BAD_NOTE, BARE_NOTE, FAR_NOTE, LAX_PAD, LONG_PAD, LONGER_PAD, NEW_CALLBACK, NO_ROWS,
    OLD_CALLBACK, OTHER_PAD, PAD_TWICE, READ_NOTE, TABLE, TOLD_PAD,
};
use crate::tests::session::{Entry, Run, run_tells};
use crate::tests::told::NULL;
use std::test::Fail;
use wl_host::{FlatClientId, FlatGlobalId, FlatObjectId, Server};

/// One at the first client's slot that was not inserted.
const STRANGER: FlatClientId = FlatClientId { serial: 9, slot: 0 };

/// One at the second client's slot that was not inserted.
const UNKNOWN: FlatClientId = FlatClientId { serial: 1, slot: 1 };

/// `wl_display.get_registry` with the new id 2, and `wl_registry.bind` of the global 1 as a `pad` of version 2 with the new id
/// 3.
const BIND: &[u32] = &[1, 0x000c0001, 2, 2, 0x001c0000, 1, 4, 0x00646170, 2, 3];

/// `pad.push` of 5 and a descriptor.
const PUSH: &[u32] = &[3, 0x000c0000, 5];

/// `pad.label` of "hey".
const LABEL: &[u32] = &[3, 0x00100001, 4, 0x00796568];

/// `pad.close`.
const CLOSE: &[u32] = &[3, 0x00080002];

/// `pad.make` with the new id 4.
const MAKE: &[u32] = &[3, 0x000c0003, 4];

/// `pad.label` of a null string, which `pad` does not allow.
const LABEL_NULL: &[u32] = &[3, 0x000c0001, 0];

/// `knot.tie` by the first object of the server's range, of a null string, "a" and "b": that is allowed.
const TIE: &[u32] = &[0xff000000, 0x001c0000, 0, 2, 0x61, 2, 0x62];

/// The same of "a" and two null strings, neither of which is allowed.
const TIE_NULLS: &[u32] = &[0xff000000, 0x00180000, 2, 0x61, 0, 0];

/// The same of a null string, which is allowed, the empty string, and a null string, which is not.
const TIE_LAST_NULL: &[u32] = &[0xff000000, 0x00180000, 0, 1, 0, 0];

/// `gate.leave` by the first object of the server's range, of a null string, which is not allowed, and a descriptor.
pub const LEAVE_NULL: &[u32] = &[0xff000000, 0x000c0000, 0];

/// `gate.open` by the same, of the new id 2 and a null string, which is not allowed.
const OPEN_NULL: &[u32] = &[0xff000000, 0x00100001, 2, 0];

/// `pad.label` of "hey" by the first object of the server's range.
const SECOND_LABEL: &[u32] = &[0xff000000, 0x00100001, 4, 0x00796568];

/// `wl_display.get_registry` with the new id 2.
pub const REGISTRY: &[u32] = &[1, 0x000c0001, 2];

/// `wl_registry.bind` of the global 1 as a `pad` of version 2 with the new id 3.
pub const BIND_FIRST: &[u32] = &[2, 0x001c0000, 1, 4, 0x00646170, 2, 3];

/// The same of the global 5, with the new id 4.
const BIND_FIFTH: &[u32] = &[2, 0x001c0000, 5, 4, 0x00646170, 2, 4];

/// The `pad` that the first client binds.
const FIRST_PAD: FlatObjectId = id!(FIRST, 4 @ 3, serial 2);

/// The `knot` that the server makes for it next.
const KNOT: FlatObjectId = id!(FIRST, 5 @ 4278190080, serial 3);

/// The same with a serial that it does not have.
const STALE_PAD: FlatObjectId = id!(FIRST, 4 @ 3, serial 9);

/// The first global.
const FIRST_GLOBAL: FlatGlobalId = FlatGlobalId { serial: 1, name: 1 };

/// The fourth.
const FOURTH_GLOBAL: FlatGlobalId = FlatGlobalId { serial: 4, name: 4 };

/// One with the first one's name that was not created.
const NO_GLOBAL: FlatGlobalId = FlatGlobalId { serial: 9, name: 1 };

/// `note.tell` by the second object of the server's range: -5, 2³² - 1, 1.5, "hey", no string, the first object of the
/// server's range, no object, the new id 2, the bytes 1, 2 and 3, and a descriptor.
pub const TELL: &[u32] = &[
    0xff000001, 0x00340000, 0xfffffffb, 0xffffffff, 0x180, 4, 0x00796568, 0, 0xff000000, 0, 2, 3,
    0x00030201,
];

/// The same of 7, 8, -1, the empty string, "x", the object 2, the first object of the server's range, the new id 3, no bytes, and
/// a descriptor.
const TELL_MORE: &[u32] = &[
    0xff000001, 0x00340000, 7, 8, 0xffffff00, 1, 0, 2, 0x00000078, 2, 0xff000000, 3, 0,
];

/// A descriptor, 29 times.
const MANY: [i32; 29] = [5; 29];

/// The same, 28 times.
const FULL: [i32; 28] = [5; 28];

/// A global, and a client that binds it.
pub const BOUND: &[Entry<Act>] = &[
    (Act::Global(70, 1, &[]), "Ok global 1:1"),
    (Act::Insert(7, 1, &[]), "Ok client 0:1"),
    (Act::Received(FIRST, BIND, &[]), "Ok"),
    (
        Act::Next(FIRST, 0, 0),
        "Ok kind 2 data 70 version 2 made 4@3",
    ),
    (Act::FinishBind(FIRST, 33), "Ok kept true"),
];

/// Conversations about requests and events, each of a new session.
static REQUESTS: [Run<Act>; 5] = [
    // A client binds a global, and a descriptor comes with a request and goes with an event.
    Run {
        name: "descriptors come and go",
        first: BOUND,
        entries: &[
            (Act::Received(FIRST, PUSH, &[42]), "Ok"),
            (
                Act::Next(FIRST, 2, 0),
                "Ok kind 1 data 33 arguments 2 by 4@3 (0: 5) (7: 42)",
            ),
            (Act::Finish(FIRST), "Ok"),
            (Act::Next(FIRST, 2, 0), "WouldBlock"),
            (Act::Send(FIRST_PAD, MOVED, &[arg!(int: -1)], &[]), "Ok"),
            (Act::Send(FIRST_PAD, GIVEN, &[arg!(fd: 99)], &[]), "Ok"),
            (Act::Writable, "Ok client 0:1"),
            (Act::Writable, "WouldBlock"),
            (
                Act::ToSend(FIRST),
                "Ok [ 02 00 00 00 00 00 18 00 01 00 00 00 04 00 00 00 70 61 64 00 02 00 00 00 03 00 00 00 00 00 0c 00 ff ff ff ff \
                 03 00 00 00 01 00 08 00 ] [ 99 ]",
            ),
            (Act::Sent(FIRST, 44), "Ok"),
            (Act::Writable, "WouldBlock"),
            (Act::Dropped, "WouldBlock"),
        ],
    },
    // An action that finds no room in the lent memory is handed out later, with its descriptor, and cannot be finished before.
    Run {
        name: "small memory loses nothing",
        first: BOUND,
        entries: &[
            (Act::Received(FIRST, PUSH, &[42]), "Ok"),
            (Act::Received(FIRST, LABEL, &[]), "Ok"),
            (Act::Next(FIRST, 1, 0), "TooSmall arguments 2 (0: 0)"),
            (Act::Finish(FIRST), "NotOpen"),
            (
                Act::Next(FIRST, 2, 0),
                "Ok kind 1 data 33 arguments 2 by 4@3 (0: 5) (7: 42)",
            ),
            (Act::Next(FIRST, 2, 0), "Open"),
            (Act::FinishWith(FIRST, 1), "UnexpectedData"),
            (Act::Finish(FIRST), "Ok"),
            (
                Act::Next(FIRST, 1, 7),
                "TooSmall arguments 1 bytes 8 (0: 0) [ 00 00 00 00 00 00 00 ]",
            ),
            (
                Act::Next(FIRST, 1, 8),
                "Ok kind 1 opcode 1 data 33 arguments 1 bytes 8 by 4@3 (3: 0 length 3) [ 68 65 79 00 00 00 00 00 ]",
            ),
            (Act::FinishBind(FIRST, 1), "WrongKind"),
            (Act::Finish(FIRST), "Ok"),
            (Act::Finish(FIRST), "NotOpen"),
        ],
    },
    // A request with each kind of argument is handed out in flat structs. Its strings, with a zero behind each, and its array begin
    // at multiples of eight of the bytes. Where it finds no room for one of its arguments, or for one of its bytes, the lent memory is as it was, and it is
    // handed out later.
    Run {
        name: "arguments are read",
        first: &[],
        entries: &[
            (Act::AddNote, "Ok"),
            (Act::Insert(7, 1, &[]), "Ok client 0:1"),
            (Act::Create(FIRST, 4, 33), "Ok 4@4278190080"),
            (Act::Create(FIRST, 5, 55), "Ok 5@4278190081"),
            (Act::Received(FIRST, TELL, &[42]), "Ok"),
            (
                Act::Next(FIRST, 9, 16),
                "TooSmall arguments 10 bytes 16 (0: 0) (0: 0) (0: 0) (0: 0) (0: 0) \
                 (0: 0) (0: 0) (0: 0) (0: 0) [ 00 00 00 00 00 00 00 00 00 00 00 00 00 00 00 00 ]",
            ),
            (
                Act::Next(FIRST, 10, 15),
                "TooSmall arguments 10 bytes 16 (0: 0) (0: 0) (0: 0) (0: 0) (0: 0) \
                 (0: 0) (0: 0) (0: 0) (0: 0) (0: 0) [ 00 00 00 00 00 00 00 00 00 00 00 00 00 00 00 ]",
            ),
            (
                Act::Next(FIRST, 11, 18),
                "Ok kind 1 data 55 version 1 arguments 10 bytes 16 by 5@4278190081 made 4@2 (0: -5) (1: -1) (2: 384) (3: 0 length 3) \
                 (8: 0) (4: 0 data 33 object 4@4278190080) (4: 0) (5: 0 object 4@2) (6: 0 at 8 length 3) (7: 42) (0: 0) \
                 [ 68 65 79 00 00 00 00 00 01 02 03 00 00 00 00 00 00 00 ]",
            ),
            (Act::FinishWith(FIRST, 44), "Ok kept true"),
            (Act::Received(FIRST, TELL_MORE, &[43]), "Ok"),
            (
                Act::Next(FIRST, 10, 16),
                "Ok kind 1 data 55 version 1 arguments 10 bytes 16 by 5@4278190081 made 4@3 (0: 7) (1: 8) (2: -256) (3: 0) \
                 (3: 0 at 8 length 1) (4: 0 data 44 object 4@2) (4: 0 data 33 object 4@4278190080) (5: 0 object 4@3) (6: 0 at 16) (7: 43) \
                 [ 00 00 00 00 00 00 00 00 78 00 00 00 00 00 00 00 ]",
            ),
            (Act::FinishWith(FIRST, 45), "Ok kept true"),
            (Act::Next(FIRST, 10, 1), "WouldBlock"),
        ],
    },
    // An event that is refused leaves its descriptor with the host. A destructor ends its object with a note, and tells the client
    // that the number is free.
    Run {
        name: "refused events and destructors",
        first: BOUND,
        entries: &[
            (
                Act::Send(STALE_PAD, GIVEN, &[arg!(fd: 98)], &[]),
                "InvalidId",
            ),
            (Act::Send(FIRST_PAD, GIVEN, &[arg!(fd: 99)], &[]), "Ok"),
            (Act::Writable, "Ok client 0:1"),
            (Act::Sent(FIRST, 24), "Ok"),
            (Act::Received(FIRST, CLOSE, &[]), "Ok"),
            (
                Act::Next(FIRST, 0, 0),
                "Ok kind 1 opcode 2 ends 1 data 33 by 4@3",
            ),
            (Act::Finish(FIRST), "Ok"),
            (Act::Writable, "Ok client 0:1"),
            (
                Act::ToSend(FIRST),
                "Ok [ 03 00 00 00 01 00 08 00 01 00 00 00 01 00 0c 00 03 00 00 00 ] [ ]",
            ),
            (Act::Dropped, "WouldBlock"),
        ],
    },
    // A registry, a bind, and requests that make an object, none, and end their sender: each is finished as what it is, and as
    // nothing else. What it made has the data 0 then, with which the note of its end comes.
    Run {
        name: "each action is finished as what it is",
        first: &[],
        entries: &[
            (Act::Tell(Telling::HandOut(1)), "Ok"),
            (Act::Global(70, 1, &[]), "Ok global 1:1"),
            (Act::Insert(7, 1, &[]), "Ok client 0:1"),
            (Act::Note, "Ok kind 1 client 0:1"),
            (Act::FinishAction(FIRST, wl_host::REQUEST, NULL), "NotOpen"),
            (Act::FinishAction(SECOND, wl_host::BIND, NULL), "InvalidId"),
            (Act::Received(FIRST, REGISTRY, &[]), "Ok"),
            (Act::Next(FIRST, 0, 0), "Ok kind 3 version 1 made 2@2"),
            (Act::FinishAction(FIRST, wl_host::REGISTRY, NULL), "Ok"),
            (Act::Received(FIRST, BIND_FIRST, &[]), "Ok"),
            (
                Act::Next(FIRST, 0, 0),
                "Ok kind 2 data 70 version 2 made 4@3",
            ),
            (
                Act::FinishAction(FIRST, wl_host::REQUEST, FIRST_PAD),
                "WrongKind",
            ),
            (Act::FinishAction(FIRST, wl_host::BIND, FIRST_PAD), "Ok"),
            (Act::Received(FIRST, MAKE, &[]), "Ok"),
            (
                Act::Next(FIRST, 1, 0),
                "Ok kind 1 opcode 3 version 2 arguments 1 by 4@3 made 4@4 (5: 0 object 4@4)",
            ),
            (Act::FinishAction(FIRST, wl_host::BIND, NULL), "WrongKind"),
            (
                Act::FinishAction(FIRST, wl_host::REQUEST, NULL),
                "MissingData",
            ),
            (Act::FinishAction(FIRST, wl_host::REQUEST, FIRST_PAD), "Ok"),
            (Act::Received(FIRST, LABEL, &[]), "Ok"),
            (
                Act::Next(FIRST, 1, 8),
                "Ok kind 1 opcode 1 arguments 1 bytes 8 by 4@3 (3: 0 length 3) [ 68 65 79 00 00 00 00 00 ]",
            ),
            (
                Act::FinishAction(FIRST, wl_host::REQUEST, FIRST_PAD),
                "UnexpectedData",
            ),
            (Act::FinishAction(FIRST, wl_host::REQUEST, NULL), "Ok"),
            (Act::Received(FIRST, CLOSE, &[]), "Ok"),
            (Act::Next(FIRST, 0, 0), "Ok kind 1 opcode 2 ends 1 by 4@3"),
            (Act::FinishAction(FIRST, wl_host::REQUEST, NULL), "Ok"),
            (Act::Note, "Ok kind 3 client 0:1 object 4@3"),
            (Act::FinishAction(FIRST, wl_host::REQUEST, NULL), "NotOpen"),
        ],
    },
];

/// Each of them tells what it has to.
#[test]
fn requests(rt: HostRuntime) -> Result<(), Fail> {
    for run in &REQUESTS {
        run_tells::<Server>(&rt, run, None, false)?;
    }
    Ok(())
}

/// Conversations about nulls that the table forbids.
static NULLS: [Run<Act>; 1] = [
    // The place of the first null that is not allowed is told, counted from 1; 0 if there is none. An empty string is no null.
    // The place is told with the action, and not where there is no room for it. The host refuses such a request by an error.
    Run {
        name: "forbidden nulls are told",
        first: BOUND,
        entries: &[
            (Act::AddKnot, "Ok"),
            (Act::Create(FIRST, 5, 55), "Ok 5@4278190080"),
            (Act::Received(FIRST, LABEL, &[]), "Ok"),
            (
                Act::Next(FIRST, 1, 8),
                "Ok kind 1 opcode 1 data 33 arguments 1 bytes 8 by 4@3 (3: 0 length 3) [ 68 65 79 00 00 00 00 00 ]",
            ),
            (Act::Finish(FIRST), "Ok"),
            (Act::Received(FIRST, LABEL_NULL, &[]), "Ok"),
            (
                Act::Next(FIRST, 1, 0),
                "Ok kind 1 opcode 1 data 33 arguments 1 null 1 by 4@3 (8: 0)",
            ),
            (Act::Finish(FIRST), "Ok"),
            (Act::Received(FIRST, TIE, &[]), "Ok"),
            (
                Act::Next(FIRST, 3, 16),
                "Ok kind 1 data 55 arguments 3 bytes 16 by 5@4278190080 (8: 0) (3: 0 length 1) (3: 0 at 8 length 1) \
                 [ 61 00 00 00 00 00 00 00 62 00 00 00 00 00 00 00 ]",
            ),
            (Act::Finish(FIRST), "Ok"),
            (Act::Received(FIRST, TIE_NULLS, &[]), "Ok"),
            (
                Act::Next(FIRST, 3, 0),
                "TooSmall arguments 3 bytes 8 (0: 0) (0: 0) (0: 0)",
            ),
            (
                Act::Next(FIRST, 3, 8),
                "Ok kind 1 data 55 arguments 3 bytes 8 null 2 by 5@4278190080 (3: 0 length 1) (8: 0) (8: 0) [ 61 00 00 00 00 00 00 00 ]",
            ),
            (Act::Finish(FIRST), "Ok"),
            (Act::Received(FIRST, TIE_LAST_NULL, &[]), "Ok"),
            (
                Act::Next(FIRST, 3, 8),
                "Ok kind 1 data 55 arguments 3 bytes 8 null 3 by 5@4278190080 (8: 0) (3: 0) (8: 0) [ 00 00 00 00 00 00 00 00 ]",
            ),
            (Act::PostError(KNOT, 1, b"null"), "Ok"),
            (Act::Finish(FIRST), "Ok"),
            (Act::Next(FIRST, 3, 0), "Closed"),
        ],
    },
];

/// Each of them tells what it has to.
#[test]
fn nulls(rt: HostRuntime) -> Result<(), Fail> {
    for run in &NULLS {
        run_tells::<Server>(&rt, run, None, false)?;
    }
    Ok(())
}

/// A client with an object, and a `gate` with data. Nulls are refused.
const GATED: &[Entry<Act>] = &[
    (Act::AddGate, "Ok"),
    (Act::RefuseNulls(1), "Ok"),
    (Act::Insert(7, 1, &[]), "Ok client 0:1"),
    (Act::Create(FIRST, 5, 55), "Ok 5@4278190080"),
];

/// Conversations of a session that refuses nulls that the table forbids.
static REFUSED_NULLS: [Run<Act>; 5] = [
    // A client that sends a request with such a null is told so by `wl_display.error` with the code 1, and killed; no such request is
    // handed out, and nothing is left to be finished. Its descriptor comes out once the client is taken out. The object that the
    // request ends is noted, as any other.
    Run {
        name: "a destructor with a null",
        first: GATED,
        entries: &[
            (Act::Received(FIRST, LEAVE_NULL, &[42]), "Ok"),
            (Act::Next(FIRST, 0, 0), "Closed"),
            (Act::Next(FIRST, 2, 8), "Closed"),
            (Act::Finish(FIRST), "NotOpen"),
            (Act::Writable, "Ok client 0:1"),
            (Act::Writable, "WouldBlock"),
            (
                Act::ToSend(FIRST),
                "Ok [ 01 00 00 00 00 00 44 00 01 00 00 00 01 00 00 00 2f 00 00 00 49 6e 76 61 6c 69 64 20 6e 75 6c 6c 20 61 72 67 75 6d 65 6e 74 20 31 20 \
                 69 6e 20 72 65 71 75 65 73 74 20 67 61 74 65 2e 6c 65 61 76 65 2e 00 00 ] [ ]",
            ),
            (Act::Note, "Ok kind 1 client 0:1"),
            (Act::Note, "Ok kind 2 error 1 code 1 client 0:1"),
            (
                Act::Note,
                "Ok kind 3 data 55 client 0:1 object 5@4278190080",
            ),
            (Act::Note, "WouldBlock"),
            (Act::Dropped, "WouldBlock"),
            (Act::Cleanup, "Ok"),
            (Act::Dropped, "Ok descriptor 42"),
            (Act::Dropped, "WouldBlock"),
            (
                Act::Gone,
                "Ok client 0:1 data 7 [ 01 00 00 00 00 00 44 00 01 00 00 00 01 00 00 00 2f 00 00 00 49 6e 76 61 6c 69 64 20 6e 75 6c 6c 20 61 72 67 75 6d 65 6e 74 20 31 20 \
                 69 6e 20 72 65 71 75 65 73 74 20 67 61 74 65 2e 6c 65 61 76 65 2e 00 00 ] [ ]",
            ),
            (Act::Note, "WouldBlock"),
        ],
    },
    // An object that the request makes gets no data, and so is not noted.
    Run {
        name: "a null beside a new object",
        first: GATED,
        entries: &[
            (Act::Received(FIRST, OPEN_NULL, &[]), "Ok"),
            (Act::Next(FIRST, 2, 8), "Closed"),
            (Act::Cleanup, "Ok"),
            (
                Act::Gone,
                "Ok client 0:1 data 7 [ 01 00 00 00 00 00 44 00 01 00 00 00 01 00 00 00 2e 00 00 00 49 6e 76 61 6c 69 64 20 6e 75 6c 6c 20 61 72 67 75 6d 65 6e 74 20 32 20 \
                 69 6e 20 72 65 71 75 65 73 74 20 67 61 74 65 2e 6f 70 65 6e 2e 00 00 00 ] [ ]",
            ),
            (Act::Note, "Ok kind 1 client 0:1"),
            (Act::Note, "Ok kind 2 error 1 code 1 client 0:1"),
            (
                Act::Note,
                "Ok kind 3 data 55 client 0:1 object 5@4278190080",
            ),
            (Act::Note, "WouldBlock"),
        ],
    },
    // What the table allows is handed out, also a null, and so is what other clients send.
    Run {
        name: "what is allowed is handed out",
        first: BOUND,
        entries: &[
            (Act::RefuseNulls(1), "Ok"),
            (Act::AddKnot, "Ok"),
            (Act::Create(FIRST, 5, 55), "Ok 5@4278190080"),
            (Act::Insert(8, 1, &[]), "Ok client 1:2"),
            (Act::Create(SECOND, 4, 44), "Ok 4@4278190080"),
            (Act::Received(FIRST, LABEL, &[]), "Ok"),
            (
                Act::Next(FIRST, 1, 8),
                "Ok kind 1 opcode 1 data 33 arguments 1 bytes 8 by 4@3 (3: 0 length 3) [ 68 65 79 00 00 00 00 00 ]",
            ),
            (Act::Finish(FIRST), "Ok"),
            (Act::Received(FIRST, TIE, &[]), "Ok"),
            (
                Act::Next(FIRST, 3, 16),
                "Ok kind 1 data 55 arguments 3 bytes 16 by 5@4278190080 (8: 0) (3: 0 length 1) (3: 0 at 8 length 1) \
                 [ 61 00 00 00 00 00 00 00 62 00 00 00 00 00 00 00 ]",
            ),
            (Act::Finish(FIRST), "Ok"),
            (Act::Received(FIRST, TIE_LAST_NULL, &[]), "Ok"),
            (Act::Next(FIRST, 3, 8), "Closed"),
            (Act::Received(SECOND, SECOND_LABEL, &[]), "Ok"),
            (
                Act::Next(SECOND, 1, 8),
                "Ok kind 1 opcode 1 data 44 arguments 1 bytes 8 by 4@4278190080 (3: 0 length 3) [ 68 65 79 00 00 00 00 00 ]",
            ),
            (Act::Finish(SECOND), "Ok"),
        ],
    },
    // A request that was kept for want of room is refused too, if they are refused by then. It cannot be finished before.
    Run {
        name: "a kept action is refused",
        first: BOUND,
        entries: &[
            (Act::Writable, "Ok client 0:1"),
            (Act::Sent(FIRST, 24), "Ok"),
            (Act::Received(FIRST, LABEL_NULL, &[]), "Ok"),
            (Act::Next(FIRST, 0, 0), "TooSmall arguments 1"),
            (Act::RefuseNulls(1), "Ok"),
            (Act::Finish(FIRST), "NotOpen"),
            (Act::Next(FIRST, 1, 0), "Closed"),
            (Act::Cleanup, "Ok"),
            (
                Act::Gone,
                "Ok client 0:1 data 7 [ 01 00 00 00 00 00 44 00 01 00 00 00 01 00 00 00 2e 00 00 00 49 6e 76 61 6c 69 64 20 6e 75 6c 6c 20 61 72 67 75 6d 65 6e 74 20 31 20 \
                 69 6e 20 72 65 71 75 65 73 74 20 70 61 64 2e 6c 61 62 65 6c 2e 00 00 00 ] [ ]",
            ),
        ],
    },
    // They are handed out again once the setting is off.
    Run {
        name: "nulls are refused no more",
        first: BOUND,
        entries: &[
            (Act::RefuseNulls(9), "Ok"),
            (Act::RefuseNulls(0), "Ok"),
            (Act::Received(FIRST, LABEL_NULL, &[]), "Ok"),
            (
                Act::Next(FIRST, 1, 0),
                "Ok kind 1 opcode 1 data 33 arguments 1 null 1 by 4@3 (8: 0)",
            ),
            (Act::Finish(FIRST), "Ok"),
            (Act::Next(FIRST, 1, 0), "WouldBlock"),
        ],
    },
];

/// Each of them tells what it has to.
#[test]
fn refused_nulls(rt: HostRuntime) -> Result<(), Fail> {
    for run in &REFUSED_NULLS {
        run_tells::<Server>(&rt, run, None, false)?;
    }
    Ok(())
}

/// Conversations about the ends of clients.
static ENDS: [Run<Act>; 4] = [
    // What is left of a client that is killed comes out once: its last bytes with their descriptor, those that were not read, and
    // the notes. Another client may have its slot by then.
    Run {
        name: "killed clients leave nothing",
        first: BOUND,
        entries: &[
            (Act::Received(FIRST, PUSH, &[42]), "Ok"),
            (Act::Send(FIRST_PAD, GIVEN, &[arg!(fd: 99)], &[]), "Ok"),
            (Act::Kill(FIRST), "Ok"),
            (Act::Next(FIRST, 2, 0), "Closed"),
            (Act::Gone, "WouldBlock"),
            (Act::Cleanup, "Ok"),
            (Act::Insert(8, 1, &[]), "Ok client 0:2"),
            (Act::Dropped, "Ok descriptor 42"),
            (
                Act::Gone,
                "Ok client 0:1 data 7 [ 02 00 00 00 00 00 18 00 01 00 00 00 04 00 00 00 70 61 64 00 02 00 00 00 03 00 00 00 01 00 08 00 ] \
                 [ 99 ]",
            ),
            (Act::Gone, "WouldBlock"),
            (Act::Dropped, "WouldBlock"),
            (Act::Next(FIRST, 2, 0), "InvalidId"),
            (Act::Note, "Ok kind 1 client 0:1"),
            (Act::Note, "Ok kind 2 client 0:1"),
            (Act::Note, "Ok kind 3 data 33 client 0:1 object 4@3"),
            (Act::Note, "Ok kind 1 client 0:2"),
            (Act::Note, "WouldBlock"),
        ],
    },
    // A client that broke the rules of the program is told so in its last bytes, and a note says so. A message with a zero byte is
    // refused.
    Run {
        name: "errors are posted",
        first: BOUND,
        entries: &[
            (Act::Writable, "Ok client 0:1"),
            (Act::Sent(FIRST, 24), "Ok"),
            (Act::PostError(FIRST_PAD, 9, b"no\0"), "InvalidInput"),
            (Act::PostError(FIRST_PAD, 9, b"no way"), "Ok"),
            (Act::Next(FIRST, 0, 0), "Closed"),
            (Act::Cleanup, "Ok"),
            (
                Act::Gone,
                "Ok client 0:1 data 7 [ 01 00 00 00 00 00 1c 00 03 00 00 00 09 00 00 00 07 00 00 00 6e 6f 20 77 61 79 00 00 ] [ ]",
            ),
            (Act::Note, "Ok kind 1 client 0:1"),
            (Act::Note, "Ok kind 2 error 1 code 9 client 0:1"),
        ],
    },
    // A client to which a send failed is killed at once. What it sent before is not read, and its descriptors come back. What was to
    // be sent to it comes with its end.
    Run {
        name: "failed sends kill",
        first: BOUND,
        entries: &[
            (Act::Received(FIRST, PUSH, &[42]), "Ok"),
            (Act::SendFailed(STRANGER), "InvalidId"),
            (Act::SendFailed(FIRST), "Ok"),
            (Act::Next(FIRST, 2, 0), "Closed"),
            (Act::Send(FIRST_PAD, MOVED, &[arg!(int: 1)], &[]), "Ok"),
            (Act::Cleanup, "Ok"),
            (Act::SendFailed(FIRST), "InvalidId"),
            (
                Act::Gone,
                "Ok client 0:1 data 7 [ 02 00 00 00 00 00 18 00 01 00 00 00 04 00 00 00 70 61 64 00 02 00 00 00 ] [ ]",
            ),
            (Act::Dropped, "Ok descriptor 42"),
            (Act::Dropped, "WouldBlock"),
            (Act::Note, "Ok kind 1 client 0:1"),
            (Act::Note, "Ok kind 2 client 0:1"),
            (Act::Note, "Ok kind 3 data 33 client 0:1 object 4@3"),
            (Act::Note, "WouldBlock"),
        ],
    },
    // More than 28 descriptors do not go in, nor one without a byte.
    Run {
        name: "few descriptors go in",
        first: &[],
        entries: &[
            (Act::Insert(7, 1, &[]), "Ok client 0:1"),
            (Act::Received(FIRST, REGISTRY, &MANY), "TooManyDescriptors"),
            (Act::Received(FIRST, REGISTRY, &FULL), "Ok"),
            (Act::Received(FIRST, REGISTRY, &[5]), "TooManyDescriptors"),
            (Act::Received(FIRST, &[], &[5]), "InvalidInput"),
            (Act::Received(FIRST, &[], &[]), "Ok"),
            (Act::Received(UNKNOWN, &[], &[5]), "InvalidId"),
            (Act::Received(UNKNOWN, REGISTRY, &[]), "InvalidId"),
            (Act::Kill(FIRST), "Ok"),
            (Act::Cleanup, "Ok"),
            (Act::Gone, "Ok client 0:1 data 7 [ ] [ ]"),
            (Act::Dropped, "Ok descriptor 5"),
        ],
    },
];

/// Each of them tells what it has to.
#[test]
fn ends(rt: HostRuntime) -> Result<(), Fail> {
    for run in &ENDS {
        run_tells::<Server>(&rt, run, None, false)?;
    }
    Ok(())
}

/// Conversations about globals that are hidden.
static GLOBALS: [Run<Act>; 2] = [
    // A client that has no group in common with a global is not told of it.
    Run {
        name: "groups hide globals",
        first: &[],
        entries: &[
            (Act::Global(70, 1, &[]), "Ok global 1:1"),
            (Act::Insert(7, 2, &[]), "Ok client 0:1"),
            (Act::Received(FIRST, REGISTRY, &[]), "Ok"),
            (Act::Next(FIRST, 0, 0), "WouldBlock"),
            (Act::Writable, "WouldBlock"),
            (Act::Global(71, 6, &[]), "Ok global 2:2"),
            (Act::Writable, "Ok client 0:1"),
            (
                Act::ToSend(FIRST),
                "Ok [ 02 00 00 00 00 00 18 00 02 00 00 00 04 00 00 00 70 61 64 00 02 00 00 00 ] [ ]",
            ),
        ],
    },
    // A global is hidden from a client by the list of whichever comes later. The client is not told of it, does not get its name,
    // and is killed if it binds it all the same.
    Run {
        name: "lists hide globals",
        first: &[],
        entries: &[
            (Act::NextClient, "Ok client 0:1"),
            (Act::NextGlobal, "Ok global 1:1"),
            (Act::Global(70, 1, &[]), "Ok global 1:1"),
            (Act::Global(71, 1, &[FIRST]), "Ok global 2:2"),
            (Act::Global(72, 1, &[]), "Ok global 3:3"),
            (Act::Insert(7, 1, &[FIRST_GLOBAL]), "Ok client 0:1"),
            (
                Act::Insert(8, 1, &[NO_GLOBAL, FOURTH_GLOBAL]),
                "Ok client 1:2",
            ),
            (Act::Global(73, 1, &[]), "Ok global 4:4"),
            (Act::Global(74, 1, &[STRANGER, SECOND]), "Ok global 5:5"),
            (Act::NextClient, "Ok client 2:3"),
            (Act::NextGlobal, "Ok global 6:6"),
            (Act::Sees(FIRST), "Ok 3 4 5"),
            (Act::Sees(SECOND), "Ok 1 2 3"),
            (Act::Received(FIRST, REGISTRY, &[]), "Ok"),
            (Act::Next(FIRST, 0, 0), "WouldBlock"),
            (Act::Received(SECOND, REGISTRY, &[]), "Ok"),
            (Act::Next(SECOND, 0, 0), "WouldBlock"),
            (Act::Global(75, 1, &[FIRST]), "Ok global 6:6"),
            (Act::Writable, "Ok client 0:1"),
            (
                Act::ToSend(FIRST),
                "Ok [ 02 00 00 00 00 00 18 00 03 00 00 00 04 00 00 00 70 61 64 00 02 00 00 00 \
                 02 00 00 00 00 00 18 00 04 00 00 00 04 00 00 00 70 61 64 00 02 00 00 00 \
                 02 00 00 00 00 00 18 00 05 00 00 00 04 00 00 00 70 61 64 00 02 00 00 00 ] [ ]",
            ),
            (Act::Sent(FIRST, 72), "Ok"),
            (Act::Writable, "Ok client 1:2"),
            (
                Act::ToSend(SECOND),
                "Ok [ 02 00 00 00 00 00 18 00 01 00 00 00 04 00 00 00 70 61 64 00 02 00 00 00 \
                 02 00 00 00 00 00 18 00 02 00 00 00 04 00 00 00 70 61 64 00 02 00 00 00 \
                 02 00 00 00 00 00 18 00 03 00 00 00 04 00 00 00 70 61 64 00 02 00 00 00 \
                 02 00 00 00 00 00 18 00 06 00 00 00 04 00 00 00 70 61 64 00 02 00 00 00 ] [ ]",
            ),
            (Act::Sent(SECOND, 96), "Ok"),
            (Act::Received(SECOND, BIND_FIRST, &[]), "Ok"),
            (
                Act::Next(SECOND, 0, 0),
                "Ok kind 2 data 70 version 2 made 4@3",
            ),
            (Act::FinishBind(SECOND, 33), "Ok kept true"),
            (Act::Received(FIRST, BIND_FIRST, &[]), "Ok"),
            (Act::Next(FIRST, 0, 0), "Closed"),
            (Act::Received(SECOND, BIND_FIFTH, &[]), "Ok"),
            (Act::Next(SECOND, 0, 0), "Closed"),
            (Act::Cleanup, "Ok"),
            (
                Act::Gone,
                "Ok client 0:1 data 7 [ 01 00 00 00 00 00 44 00 01 00 00 00 00 00 00 00 2f 00 00 00 49 6e 76 61 6c 69 64 20 62 69 6e 64 69 6e \
                 67 20 6f 66 20 \
                 70 61 64 20 76 65 72 73 69 6f 6e 20 32 20 66 6f 72 20 67 6c 6f 62 61 6c 20 31 2e 00 00 ] [ ]",
            ),
            (
                Act::Gone,
                "Ok client 1:2 data 8 [ 01 00 00 00 00 00 44 00 01 00 00 00 00 00 00 00 2f 00 00 00 49 6e 76 61 6c 69 64 20 62 69 6e 64 69 6e \
                 67 20 6f 66 20 \
                 70 61 64 20 76 65 72 73 69 6f 6e 20 32 20 66 6f 72 20 67 6c 6f 62 61 6c 20 35 2e 00 00 ] [ ]",
            ),
            (Act::Note, "Ok kind 1 client 0:1"),
            (Act::Note, "Ok kind 1 client 1:2"),
            (Act::Note, "Ok kind 2 error 1 client 0:1"),
            (Act::Note, "Ok kind 2 error 1 client 1:2"),
            (Act::Note, "Ok kind 3 data 33 client 1:2 object 4@3"),
            (Act::Note, "WouldBlock"),
        ],
    },
];

/// A `note` that is made first.
const FIRST_NOTE: FlatObjectId = id!(FIRST, 5 @ 0xff000000, serial 1);

/// A `pad` that is made after it.
const SECOND_PAD: FlatObjectId = id!(FIRST, 4 @ 0xff000001, serial 2);

/// Rows that contradict the table, or have a name twice, change nothing. Longer rows extend it: the new interface has a number, and
/// an object its new event. A shorter row changes nothing then. A fault of what a row has more leaves the interface that came
/// with it.
static WHOLE_ROWS: Run<Act> = Run {
    name: "whole rows extend the table",
    first: &[],
    entries: &[
        (
            Act::Extend(OTHER_PAD),
            "BadTable fault 9 event 1 opcode 1 version 2",
        ),
        (Act::Extend(PAD_TWICE), "BadTable interface 2 fault 3"),
        (Act::Insert(7, 1, &[]), "Ok client 0:1"),
        (Act::Create(FIRST, 5, 55), "UnknownInterface"),
        (Act::Extend(LONG_PAD), "Ok"),
        (Act::Extend(TABLE), "Ok"),
        (Act::Create(FIRST, 5, 55), "Ok 5@4278190080"),
        (Act::Create(FIRST, 4, 33), "Ok 4@4278190081"),
        (Act::Send(SECOND_PAD, 2, &[], b""), "Ok"),
        (Act::Send(SECOND_PAD, 3, &[], b""), "UnknownOpcode"),
        (Act::Writable, "Ok client 0:1"),
        (Act::ToSend(FIRST), "Ok [ 01 00 00 ff 02 00 08 00 ] [ ]"),
        (
            Act::Extend(OTHER_PAD),
            "BadTable fault 9 event 1 opcode 1 version 3",
        ),
        (Act::Create(FIRST, 6, 66), "UnknownInterface"),
        (Act::Extend(BAD_NOTE), "BadTable fault 4"),
        (Act::Create(FIRST, 6, 66), "Ok 6@4278190082"),
    ],
};

/// An interface that agrees with the row of its name is that row, which takes what it lacks; a new name is a new row. One that
/// differs is refused, in what a request takes before what an event brings. So are rows of no interface or of two, a message that
/// names what is not there, and more of an interface that is fixed. A `note` without messages gives the number that `pad` names it by,
/// and an object of it has the event that came later.
static ONE_INTERFACE: Run<Act> = Run {
    name: "one interface joins the table",
    first: &[],
    entries: &[
        (Act::Join(TABLE), "Ok number 4"),
        (Act::Join(LAX_PAD), "BadTable fault 9 opcode 1 version 2"),
        (
            Act::Join(TOLD_PAD),
            "BadTable fault 9 event 1 opcode 1 version 2",
        ),
        (Act::Join(LONG_PAD), "BadTable fault 1"),
        (Act::Join(NO_ROWS), "BadTable fault 1"),
        (Act::Join(LONGER_PAD), "BadTable fault 4"),
        (Act::Join(BARE_NOTE), "Ok number 5"),
        (Act::Join(LONGER_PAD), "Ok number 4"),
        (Act::Join(READ_NOTE), "Ok number 5"),
        (Act::Join(FAR_NOTE), "BadTable fault 4"),
        (Act::Join(TABLE), "Ok number 4"),
        (Act::Join(OLD_CALLBACK), "Ok number 3"),
        (Act::Join(NEW_CALLBACK), "BadTable fault 4"),
        (Act::Insert(7, 1, &[]), "Ok client 0:1"),
        (Act::Create(FIRST, 6, 66), "UnknownInterface"),
        (Act::Create(FIRST, 5, 55), "Ok 5@4278190080"),
        (Act::Create(FIRST, 4, 33), "Ok 4@4278190081"),
        (Act::Send(SECOND_PAD, 2, &[], b""), "Ok"),
        (Act::Send(SECOND_PAD, 3, &[], b""), "UnknownOpcode"),
        (Act::Send(FIRST_NOTE, 0, &[], b""), "Ok"),
        (Act::Send(FIRST_NOTE, 1, &[], b""), "UnknownOpcode"),
        (Act::Writable, "Ok client 0:1"),
        (
            Act::ToSend(FIRST),
            "Ok [ 01 00 00 ff 02 00 08 00 00 00 00 ff 00 00 08 00 ] [ ]",
        ),
    ],
};

/// It tells what it has to.
#[test]
fn whole_rows(rt: HostRuntime) -> Result<(), Fail> {
    run_tells::<Server>(&rt, &WHOLE_ROWS, None, false)?;
    run_tells::<Server>(&rt, &ONE_INTERFACE, None, false)
}

/// Each of them tells what it has to.
#[test]
fn globals(rt: HostRuntime) -> Result<(), Fail> {
    for run in &GLOBALS {
        run_tells::<Server>(&rt, run, None, false)?;
    }
    Ok(())
}
