//! What is told of the messages of clients. The bytes are those of the wire format.

use crate::tests::acts::{Act, FIRST, GIVEN, MOVED, SECOND};
use crate::tests::args::{arg, id};
use crate::tests::chosen::Choice;
use crate::tests::rows::MAKING_PAD;
use crate::tests::session::{Entry, Run, run_tells};
use std::test::Fail;
use wl_host::{FlatClientId, FlatObjectId, Server};

/// `wl_display.get_registry` with the new id 2, and `wl_registry.bind` of the global 1 as a `pad` of version 2 with the new id
/// 3.
const BIND: &[u32] = &[1, 0x000c0001, 2, 2, 0x001c0000, 1, 4, 0x00646170, 2, 3];

/// `wl_display.sync` with the new id 2.
const SYNC: &[u32] = &[1, 0x000c0000, 2];

/// Two times `wl_display.sync`, with the new ids 4 and 5.
const SYNCS: &[u32] = &[1, 0x000c0000, 4, 1, 0x000c0000, 5];

/// `pad.push` of 5 and a descriptor, and `pad.label` of "hey".
const PUSH_AND_LABEL: &[u32] = &[3, 0x000c0000, 5, 3, 0x00100001, 4, 0x00796568];

/// `pad.make` of the new id 4, and `pad.close` of the object 3.
const MAKE_AND_CLOSE: &[u32] = &[3, 0x000c0003, 4, 3, 0x00080002];

/// A request to the object 9, which is not there.
const STRAY: &[u32] = &[9, 0x00080004];

/// `wl_display.sync` with the new id 9, before which numbers were never in use.
const SKIP: &[u32] = &[1, 0x000c0000, 9];

/// The client that has the slot of the first one after it.
const NEXT: FlatClientId = FlatClientId { serial: 2, slot: 0 };

/// The `pad` that the first client binds.
const PAD: FlatObjectId = id!(FIRST, 4 @ 3, serial 2);

/// The first object that the server makes for the client, and the second.
const UNTOLD: FlatObjectId = id!(FIRST, 4 @ 0xff000000, serial 3);

const LATER: FlatObjectId = id!(FIRST, 4 @ 0xff000001, serial 4);

/// The `sheet` that it makes after the first object ended.
const SHEET: FlatObjectId = id!(FIRST, 5 @ 0xff000000, serial 4);

/// The opcode of the event `made` of a `pad`.
const MADE: u32 = 2;

/// `pad.push` of 5 and a descriptor.
const PUSH: &[u32] = &[3, 0x000c0000, 5];

/// `pad.close` of the first object of the server's range.
const CLOSE: &[u32] = &[0xff000000, 0x00080002];

/// A client whose messages are told binds a `pad` that has the event `made`, and that was told.
const MAKING: &[Entry<Act>] = &[
    (Act::TellMessages(1), "Ok"),
    (Act::Extend(MAKING_PAD), "Ok"),
    (Act::Global(70, 1, &[]), "Ok global 1:1"),
    (Act::Insert(7, 1, &[]), "Ok client 0:1"),
    (Act::Received(FIRST, BIND, &[]), "Ok"),
    (
        Act::Next(FIRST, 0, 0),
        "Ok kind 2 data 70 version 2 made 4@3",
    ),
    (Act::FinishBind(FIRST, 33), "Ok kept true"),
    (Act::Writable, "Ok client 0:1"),
    (
        Act::NextTold(FIRST, 1, 0),
        "Ok kind 1 opcode 1 arguments 1 of 1@1 (5: 0 object 2@2)",
    ),
    (
        Act::NextTold(FIRST, 4, 8),
        "Ok kind 1 arguments 4 bytes 8 of 2@2 (1: 1) (3: 0 length 3) (1: 2) (5: 0 object 4@3) [ 70 61 64 00 00 00 00 00 ]",
    ),
    (
        Act::NextTold(FIRST, 3, 8),
        "Ok kind 1 event 1 arguments 3 bytes 8 of 2@2 (1: 1) (3: 0 length 3) (1: 2) [ 70 61 64 00 00 00 00 00 ]",
    ),
];

/// Runs of a new session: whose messages are told, and until when.
static TOLD: [Run<Act>; 4] = [
    // Only of clients that are inserted after the call, and only while they are there.
    Run {
        name: "whose messages are told",
        first: &[],
        entries: &[
            (Act::Insert(7, 1, &[]), "Ok client 0:1"),
            (Act::NextTold(FIRST, 0, 0), "InvalidId"),
            (Act::TellMessages(1), "Ok"),
            (Act::NextTold(FIRST, 0, 0), "InvalidId"),
            (Act::Kill(FIRST), "Ok"),
            (Act::Cleanup, "Ok"),
            (Act::Insert(8, 1, &[]), "Ok client 0:2"),
            (Act::NextTold(FIRST, 0, 0), "InvalidId"),
            (Act::NextTold(NEXT, 0, 0), "WouldBlock"),
            (Act::TellMessages(0), "Ok"),
            (Act::Insert(9, 1, &[]), "Ok client 1:3"),
            (Act::NextTold(NEXT, 0, 0), "WouldBlock"),
            (
                Act::NextTold(FlatClientId { serial: 3, slot: 1 }, 0, 0),
                "InvalidId",
            ),
        ],
    },
    // What is no message of an object was not read, so it is not told. The client is killed without a word.
    Run {
        name: "an object that is not there",
        first: &[],
        entries: &[
            (Act::TellMessages(1), "Ok"),
            (Act::Insert(7, 1, &[]), "Ok client 0:1"),
            (Act::Received(FIRST, STRAY, &[]), "Ok"),
            (Act::Next(FIRST, 0, 0), "ProtocolError"),
            (Act::NextTold(FIRST, 0, 0), "WouldBlock"),
            (Act::Choose(Choice::Flush(FIRST)), "WouldBlock"),
            (Act::NextTold(FIRST, 0, 0), "WouldBlock"),
        ],
    },
    // A request for which the client is killed was read. So it is told, and so is the error, which is in the mailbox at once.
    Run {
        name: "a new id that leaves numbers out",
        first: &[],
        entries: &[
            (Act::TellMessages(1), "Ok"),
            (Act::Insert(7, 1, &[]), "Ok client 0:1"),
            (Act::Received(FIRST, SKIP, &[]), "Ok"),
            (Act::Next(FIRST, 0, 0), "Closed"),
            (
                Act::NextTold(FIRST, 1, 0),
                "Ok kind 1 arguments 1 last 1 of 1@1 (5: 0 object 0@9)",
            ),
            (
                Act::NextTold(FIRST, 3, 24),
                "Ok kind 1 event 1 arguments 3 bytes 24 of 1@1 (4: 0 object 1@1) (1: 0) (3: 0 length 18) \
                 [ 49 6e 76 61 6c 69 64 20 6e 65 77 5f 69 64 3a 20 39 2e 00 00 00 00 00 00 ]",
            ),
            (Act::NextTold(FIRST, 0, 0), "WouldBlock"),
        ],
    },
    // Nothing is told of a client that was taken out, not even what is left.
    Run {
        name: "a client that was taken out",
        first: &[],
        entries: &[
            (Act::TellMessages(1), "Ok"),
            (Act::Insert(7, 1, &[]), "Ok client 0:1"),
            (Act::Received(FIRST, SYNC, &[]), "Ok"),
            (Act::Next(FIRST, 0, 0), "WouldBlock"),
            (
                Act::NextTold(FIRST, 1, 0),
                "Ok kind 1 arguments 1 of 1@1 (5: 0 object 3@2)",
            ),
            (Act::Kill(FIRST), "Ok"),
            (Act::Cleanup, "Ok"),
            (Act::NextTold(FIRST, 1, 0), "InvalidId"),
        ],
    },
];

/// Each message is told once: a request when it was read, an event when it is in the mailbox.
static READ_AND_WRITTEN: Run<Act> = Run {
    name: "what is read is told, and then what is written",
    first: &[],
    entries: &[
        (Act::TellMessages(1), "Ok"),
        (Act::Global(70, 1, &[]), "Ok global 1:1"),
        (Act::Insert(7, 1, &[]), "Ok client 0:1"),
        (Act::NextTold(SECOND, 0, 0), "InvalidId"),
        (Act::NextTold(FIRST, 0, 0), "WouldBlock"),
        (Act::Received(FIRST, BIND, &[]), "Ok"),
        (Act::NextTold(FIRST, 1, 0), "WouldBlock"),
        (
            Act::Next(FIRST, 0, 0),
            "Ok kind 2 data 70 version 2 made 4@3",
        ),
        (
            Act::NextTold(FIRST, 1, 0),
            "Ok kind 1 opcode 1 arguments 1 of 1@1 (5: 0 object 2@2)",
        ),
        (
            Act::NextTold(FIRST, 1, 0),
            "TooSmall kind 1 arguments 4 bytes 8 of 2@2 (0: 0)",
        ),
        (
            Act::NextTold(FIRST, 4, 8),
            "Ok kind 1 arguments 4 bytes 8 of 2@2 (1: 1) (3: 0 length 3) (1: 2) (5: 0 object 4@3) [ 70 61 64 00 00 00 00 00 ]",
        ),
        (Act::NextTold(FIRST, 4, 8), "WouldBlock"),
        (Act::FinishBind(FIRST, 33), "Ok kept true"),
        (Act::Writable, "Ok client 0:1"),
        (
            Act::NextTold(FIRST, 3, 8),
            "Ok kind 1 event 1 arguments 3 bytes 8 of 2@2 (1: 1) (3: 0 length 3) (1: 2) [ 70 61 64 00 00 00 00 00 ]",
        ),
        (Act::NextTold(FIRST, 0, 0), "WouldBlock"),
        // The descriptors are told by their numbers. An event is told also if it has left the mailbox.
        (Act::Received(FIRST, PUSH_AND_LABEL, &[42]), "Ok"),
        (
            Act::Next(FIRST, 2, 0),
            "Ok kind 1 data 33 arguments 2 by 4@3 (0: 5) (7: 42)",
        ),
        (Act::Finish(FIRST), "Ok"),
        (Act::Send(PAD, GIVEN, &[arg!(fd: 99)], &[]), "Ok"),
        (Act::Send(PAD, MOVED, &[arg!(int: -1)], &[]), "Ok"),
        (Act::Writable, "Ok client 0:1"),
        (
            Act::Next(FIRST, 1, 8),
            "Ok kind 1 opcode 1 data 33 arguments 1 bytes 8 by 4@3 (3: 0 length 3) [ 68 65 79 00 00 00 00 00 ]",
        ),
        (Act::Sent(FIRST, 44), "Ok"),
        (
            Act::NextTold(FIRST, 2, 0),
            "Ok kind 1 arguments 2 of 4@3 (0: 5) (7: 42)",
        ),
        (
            Act::NextTold(FIRST, 1, 0),
            "Ok kind 1 event 1 opcode 1 arguments 1 of 4@3 (7: 99)",
        ),
        (
            Act::NextTold(FIRST, 1, 0),
            "Ok kind 1 event 1 arguments 1 of 4@3 (0: -1)",
        ),
        (
            Act::NextTold(FIRST, 1, 8),
            "Ok kind 1 opcode 1 arguments 1 bytes 8 of 4@3 (3: 0 length 3) [ 68 65 79 00 00 00 00 00 ]",
        ),
        (Act::NextTold(FIRST, 0, 0), "WouldBlock"),
    ],
};

/// What the session answers by itself is told, too, and so is the end of an object.
static OWN_MESSAGES: Run<Act> = Run {
    name: "the session's own messages are told",
    first: &[],
    entries: &[
        (Act::TellMessages(2), "Ok"),
        (Act::Global(70, 1, &[]), "Ok global 1:1"),
        (Act::Insert(7, 1, &[]), "Ok client 0:1"),
        (Act::Received(FIRST, BIND, &[]), "Ok"),
        (
            Act::Next(FIRST, 0, 0),
            "Ok kind 2 data 70 version 2 made 4@3",
        ),
        (Act::FinishBind(FIRST, 33), "Ok kept true"),
        (Act::Received(FIRST, SYNCS, &[]), "Ok"),
        (Act::Next(FIRST, 0, 0), "WouldBlock"),
        (Act::Writable, "Ok client 0:1"),
        (
            Act::NextTold(FIRST, 1, 0),
            "Ok kind 1 opcode 1 arguments 1 of 1@1 (5: 0 object 2@2)",
        ),
        (
            Act::NextTold(FIRST, 4, 8),
            "Ok kind 1 arguments 4 bytes 8 of 2@2 (1: 1) (3: 0 length 3) (1: 2) (5: 0 object 4@3) [ 70 61 64 00 00 00 00 00 ]",
        ),
        (
            Act::NextTold(FIRST, 1, 0),
            "Ok kind 1 arguments 1 of 1@1 (5: 0 object 3@4)",
        ),
        (
            Act::NextTold(FIRST, 1, 0),
            "Ok kind 1 arguments 1 of 1@1 (5: 0 object 3@5)",
        ),
        (
            Act::NextTold(FIRST, 3, 8),
            "Ok kind 1 event 1 arguments 3 bytes 8 of 2@2 (1: 1) (3: 0 length 3) (1: 2) [ 70 61 64 00 00 00 00 00 ]",
        ),
        (
            Act::NextTold(FIRST, 1, 0),
            "Ok kind 1 event 1 arguments 1 of 3@4 (1: 0)",
        ),
        (
            Act::NextTold(FIRST, 1, 0),
            "Ok kind 1 event 1 opcode 1 arguments 1 of 1@1 (1: 4)",
        ),
        (
            Act::NextTold(FIRST, 1, 0),
            "Ok kind 1 event 1 arguments 1 of 3@5 (1: 0)",
        ),
        (
            Act::NextTold(FIRST, 1, 0),
            "Ok kind 1 event 1 opcode 1 arguments 1 of 1@1 (1: 5)",
        ),
        (Act::NextTold(FIRST, 1, 0), "WouldBlock"),
        // The number 3 is another object's once it was deleted.
        (Act::Received(FIRST, MAKE_AND_CLOSE, &[]), "Ok"),
        (
            Act::Next(FIRST, 1, 0),
            "Ok kind 1 opcode 3 data 33 version 2 arguments 1 by 4@3 made 4@4 (5: 0 object 4@4)",
        ),
        (Act::FinishWith(FIRST, 66), "Ok kept true"),
        (
            Act::Next(FIRST, 0, 0),
            "Ok kind 1 opcode 2 ends 1 data 33 by 4@3",
        ),
        (Act::Finish(FIRST), "Ok"),
        (Act::Writable, "Ok client 0:1"),
        (
            Act::NextTold(FIRST, 1, 0),
            "Ok kind 1 opcode 3 arguments 1 of 4@3 (5: 0 object 4@4)",
        ),
        (Act::NextTold(FIRST, 0, 0), "Ok kind 1 opcode 2 of 4@3"),
        (
            Act::NextTold(FIRST, 1, 0),
            "Ok kind 1 event 1 opcode 1 arguments 1 of 1@1 (1: 3)",
        ),
        (Act::NextTold(FIRST, 1, 0), "WouldBlock"),
    ],
};

/// What arrives and is sent in pieces, and what is refused.
static PIECES: [Run<Act>; 2] = [
    // A request that arrives in two pieces, and events that are sent in two, behind which another comes.
    Run {
        name: "messages in pieces",
        first: MAKING,
        entries: &[
            (Act::Received(FIRST, &[3], &[42]), "Ok"),
            (Act::Next(FIRST, 2, 0), "WouldBlock"),
            (Act::NextTold(FIRST, 2, 0), "WouldBlock"),
            (Act::Received(FIRST, &[0x000c0000, 5], &[]), "Ok"),
            (
                Act::Next(FIRST, 2, 0),
                "Ok kind 1 data 33 arguments 2 by 4@3 (0: 5) (7: 42)",
            ),
            (
                Act::NextTold(FIRST, 2, 0),
                "Ok kind 1 arguments 2 of 4@3 (0: 5) (7: 42)",
            ),
            (Act::Finish(FIRST), "Ok"),
            (Act::Send(PAD, GIVEN, &[arg!(fd: 99)], &[]), "Ok"),
            (Act::Send(PAD, MOVED, &[arg!(int: -1)], &[]), "Ok"),
            (Act::Writable, "Ok client 0:1"),
            // The announcement of 28 bytes, and two bytes of the first event with its descriptor.
            (Act::Sent(FIRST, 30), "Ok"),
            (Act::Send(PAD, GIVEN, &[arg!(fd: 98)], &[]), "Ok"),
            (Act::Writable, "Ok client 0:1"),
            (
                Act::NextTold(FIRST, 1, 0),
                "Ok kind 1 event 1 opcode 1 arguments 1 of 4@3 (7: 99)",
            ),
            (
                Act::NextTold(FIRST, 1, 0),
                "Ok kind 1 event 1 arguments 1 of 4@3 (0: -1)",
            ),
            (
                Act::NextTold(FIRST, 1, 0),
                "Ok kind 1 event 1 opcode 1 arguments 1 of 4@3 (7: 98)",
            ),
            (Act::NextTold(FIRST, 1, 0), "WouldBlock"),
        ],
    },
    // What is refused is not told: descriptors that come alone, or are too many, by themselves or with those that wait.
    Run {
        name: "what is refused is not told",
        first: &[],
        entries: &[
            (Act::TellMessages(1), "Ok"),
            (Act::Global(70, 1, &[]), "Ok global 1:1"),
            (Act::Insert(7, 1, &[]), "Ok client 0:1"),
            (Act::Received(FIRST, &[], &[42]), "InvalidInput"),
            (Act::Received(FIRST, BIND, &[43; 29]), "TooManyDescriptors"),
            (Act::Received(FIRST, BIND, &[44; 20]), "Ok"),
            (
                Act::Received(FIRST, PUSH_AND_LABEL, &[45; 10]),
                "TooManyDescriptors",
            ),
            (Act::Received(FIRST, PUSH_AND_LABEL, &[46; 8]), "Ok"),
            (
                Act::Next(FIRST, 0, 0),
                "Ok kind 2 data 70 version 2 made 4@3",
            ),
            (Act::FinishBind(FIRST, 33), "Ok kept true"),
            (
                Act::Next(FIRST, 2, 0),
                "Ok kind 1 data 33 arguments 2 by 4@3 (0: 5) (7: 44)",
            ),
            (
                Act::NextTold(FIRST, 1, 0),
                "Ok kind 1 opcode 1 arguments 1 of 1@1 (5: 0 object 2@2)",
            ),
            (
                Act::NextTold(FIRST, 4, 8),
                "Ok kind 1 arguments 4 bytes 8 of 2@2 (1: 1) (3: 0 length 3) (1: 2) (5: 0 object 4@3) [ 70 61 64 00 00 00 00 00 ]",
            ),
            (
                Act::NextTold(FIRST, 2, 0),
                "Ok kind 1 arguments 2 of 4@3 (0: 5) (7: 44)",
            ),
            (Act::NextTold(FIRST, 2, 0), "WouldBlock"),
        ],
    },
];

/// Objects that the client knows otherwise.
static UNKNOWN: [Run<Act>; 2] = [
    // An object whose new id was not sent is not known. A new id that leaves its number out ends what is told of the server.
    Run {
        name: "an object of which the client was not told",
        first: MAKING,
        entries: &[
            (Act::Create(FIRST, 4, 44), "Ok 4@4278190080"),
            (Act::Create(FIRST, 4, 55), "Ok 4@4278190081"),
            (Act::Send(UNTOLD, MOVED, &[arg!(int: -1)], &[]), "Ok"),
            (Act::Send(PAD, MADE, &[arg!(made: LATER)], &[]), "Ok"),
            (Act::Send(PAD, MOVED, &[arg!(int: 9)], &[]), "Ok"),
            (Act::Writable, "Ok client 0:1"),
            (
                Act::NextTold(FIRST, 1, 0),
                "Ok kind 2 event 1 of 0@4278190080 (0: 0)",
            ),
            (
                Act::NextTold(FIRST, 1, 0),
                "Ok kind 1 event 1 opcode 2 arguments 1 last 1 of 4@3 (5: 0 object 0@4278190081)",
            ),
            (Act::NextTold(FIRST, 1, 0), "WouldBlock"),
            (Act::Received(FIRST, PUSH, &[42]), "Ok"),
            (
                Act::Next(FIRST, 2, 0),
                "Ok kind 1 data 33 arguments 2 by 4@3 (0: 5) (7: 42)",
            ),
            (
                Act::NextTold(FIRST, 2, 0),
                "Ok kind 1 arguments 2 of 4@3 (0: 5) (7: 42)",
            ),
            (Act::NextTold(FIRST, 2, 0), "WouldBlock"),
        ],
    },
    // The client knows a `pad` at a number where the session has a `sheet` by now: to it the next event is no message.
    Run {
        name: "an event of another interface",
        first: MAKING,
        entries: &[
            (Act::Create(FIRST, 4, 44), "Ok 4@4278190080"),
            (Act::Send(PAD, MADE, &[arg!(made: UNTOLD)], &[]), "Ok"),
            (Act::Writable, "Ok client 0:1"),
            (
                Act::NextTold(FIRST, 1, 0),
                "Ok kind 1 event 1 opcode 2 arguments 1 of 4@3 (5: 0 object 4@4278190080)",
            ),
            (Act::Received(FIRST, CLOSE, &[]), "Ok"),
            (
                Act::Next(FIRST, 0, 0),
                "Ok kind 1 opcode 2 ends 1 data 44 by 4@4278190080",
            ),
            (Act::Finish(FIRST), "Ok"),
            (Act::Create(FIRST, 5, 55), "Ok 5@4278190080"),
            (Act::Send(SHEET, 0, &[], &[]), "Ok"),
            (Act::Writable, "Ok client 0:1"),
            (
                Act::NextTold(FIRST, 0, 0),
                "Ok kind 1 opcode 2 of 4@4278190080",
            ),
            (
                Act::NextTold(FIRST, 0, 0),
                "Ok kind 3 event 1 last 1 of 0@0",
            ),
            (Act::NextTold(FIRST, 0, 0), "WouldBlock"),
        ],
    },
];

#[test]
fn messages(rt: HostRuntime) -> Result<(), Fail> {
    for run in &TOLD {
        run_tells::<Server>(&rt, run, None, false)?;
    }
    Ok(())
}

#[test]
fn messages_read_and_written(rt: HostRuntime) -> Result<(), Fail> {
    run_tells::<Server>(&rt, &READ_AND_WRITTEN, None, false)
}

#[test]
fn messages_of_the_session(rt: HostRuntime) -> Result<(), Fail> {
    run_tells::<Server>(&rt, &OWN_MESSAGES, None, false)
}

#[test]
fn messages_in_pieces(rt: HostRuntime) -> Result<(), Fail> {
    for run in &PIECES {
        run_tells::<Server>(&rt, run, None, false)?;
    }
    Ok(())
}

#[test]
fn messages_of_unknown_objects(rt: HostRuntime) -> Result<(), Fail> {
    for run in &UNKNOWN {
        run_tells::<Server>(&rt, run, None, false)?;
    }
    Ok(())
}

/// Whatever memory is refused, each message is told once when the call is made again.
#[test]
fn drill_of_messages(rt: HostRuntime) -> Result<(), Fail> {
    run_tells::<Server>(&rt, &READ_AND_WRITTEN, None, true)
}
