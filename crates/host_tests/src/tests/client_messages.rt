//! What is told of the messages of a client's session. The bytes are those of the wire format.

use crate::tests::args::{arg, id};
use crate::tests::client_acts::{Act, DISPLAY, NEW};
use crate::tests::session::{Entry, Run, run_tells};
use crate::tests::told::NOBODY;
use std::test::Fail;
use wl_host::{Client, FlatArgument, FlatObjectId};

/// The `pad` that is bound after the registry was made.
const BOUND: FlatObjectId = id!(NOBODY, 4 @ 3, serial 2);

/// The `pad` that the bound one makes.
const MADE: FlatObjectId = id!(NOBODY, 4 @ 4, serial 3);

/// The arguments of `pad.push`: 5 and the descriptor 99.
const PUSH: &[FlatArgument] = &[arg!(int: 5), arg!(fd: 99)];

/// `pad.moved` of -1 and `pad.given`, both by the object 3.
const MOVED_AND_GIVEN: &[u32] = &[3, 0x000c0000, 0xffffffff, 3, 0x00080001];

/// `pad.moved` of 5 and `pad.given` by the object 4, `wl_display.delete_id` of it, `pad.moved` of 6 by it once more, and
/// `pad.moved` of -1 by the object 3.
const TO_DEAD_AND_LIVE: &[u32] = &[
    4, 0x000c0000, 5, 4, 0x00080001, 1, 0x000c0001, 4, 4, 0x000c0000, 6, 3, 0x000c0000, 0xffffffff,
];

/// `pad.moved` of 7 by the object 9, which is not there.
const STRAY: &[u32] = &[9, 0x000c0000, 7];

/// `wl_display.error` of the display, with the code 3 and the text "bad".
const ERROR: &[u32] = &[1, 0x00180000, 1, 3, 4, 0x00646162];

/// A session whose messages are told asks for its registry and binds a `pad`, and that is in the mailbox and was told.
const BINDING: &[Entry<Act>] = &[
    (Act::TellMessages(1), "Ok"),
    (Act::Send(DISPLAY, 1, Some(60), NEW, &[]), "Ok 2@2 serial 1"),
    (Act::BindPad(33), "Ok 4@3 serial 2"),
    (Act::NextTold(1, 0), "WouldBlock"),
    (Act::Flush, "Ok"),
    (
        Act::NextTold(1, 0),
        "Ok kind 1 opcode 1 arguments 1 of 1@1 (5: 0 object 2@2)",
    ),
    (
        Act::NextTold(1, 0),
        "TooSmall kind 1 arguments 4 bytes 8 of 2@2 (0: 0)",
    ),
    (
        Act::NextTold(4, 8),
        "Ok kind 1 arguments 4 bytes 8 of 2@2 (1: 1) (3: 0 length 3) (1: 2) (5: 0 object 4@3) [ 70 61 64 00 00 00 00 00 ]",
    ),
    (Act::NextTold(4, 8), "WouldBlock"),
];

/// Each message is told once: a request when it is in the mailbox, an event when it was read.
static READ_AND_WRITTEN: Run<Act> = Run {
    name: "what is read is told, and then what is written",
    first: BINDING,
    entries: &[
        (Act::Sent(40), "Ok"),
        (Act::Received(MOVED_AND_GIVEN, &[42]), "Ok"),
        (Act::NextTold(1, 0), "WouldBlock"),
        (
            Act::Next(1, 0),
            "Ok has_data 1 data 33 arguments 1 by 4@3 (0: -1)",
        ),
        (Act::Finish, "Ok"),
        (
            Act::NextTold(1, 0),
            "Ok kind 1 event 1 arguments 1 of 4@3 (0: -1)",
        ),
        (Act::NextTold(1, 0), "WouldBlock"),
        // The descriptors are told by their numbers. A request is told also if it has left the mailbox.
        (Act::Send(BOUND, 0, None, PUSH, &[]), "Ok 0@0"),
        (Act::Flush, "Ok"),
        (
            Act::Next(1, 0),
            "Ok opcode 1 has_data 1 data 33 arguments 1 by 4@3 (7: 42)",
        ),
        (Act::Finish, "Ok"),
        (Act::Sent(12), "Ok"),
        (
            Act::NextTold(2, 0),
            "Ok kind 1 arguments 2 of 4@3 (0: 5) (7: 99)",
        ),
        (
            Act::NextTold(1, 0),
            "Ok kind 1 event 1 opcode 1 arguments 1 of 4@3 (7: 42)",
        ),
        (Act::NextTold(1, 0), "WouldBlock"),
    ],
};

/// What the session reads and hands to nobody is told before the event behind it.
static HANDED_TO_NOBODY: Run<Act> = Run {
    name: "what is handed to nobody is told",
    first: BINDING,
    entries: &[
        (Act::PassOver(1), "Ok"),
        (Act::Send(BOUND, 3, Some(66), NEW, &[]), "Ok 4@4 serial 3"),
        (Act::Destroy(MADE), "Ok"),
        (Act::Flush, "Ok"),
        (
            Act::NextTold(1, 0),
            "Ok kind 1 opcode 3 arguments 1 of 4@3 (5: 0 object 4@4)",
        ),
        (Act::Received(STRAY, &[]), "Ok"),
        (Act::Received(TO_DEAD_AND_LIVE, &[42]), "Ok"),
        (
            Act::Next(1, 0),
            "Ok has_data 1 data 33 arguments 1 by 4@3 (0: -1)",
        ),
        (Act::NextTold(0, 0), "Ok kind 2 event 1 of 0@9"),
        (
            Act::NextTold(1, 0),
            "Ok kind 1 event 1 arguments 1 of 4@4 (0: 5)",
        ),
        (
            Act::NextTold(1, 0),
            "Ok kind 1 event 1 opcode 1 arguments 1 of 4@4 (7: 42)",
        ),
        (
            Act::NextTold(1, 0),
            "Ok kind 1 event 1 opcode 1 arguments 1 of 1@1 (1: 4)",
        ),
        (Act::NextTold(0, 0), "Ok kind 2 event 1 of 0@4"),
        (
            Act::NextTold(1, 0),
            "Ok kind 1 event 1 arguments 1 of 4@3 (0: -1)",
        ),
        (Act::NextTold(1, 0), "WouldBlock"),
    ],
};

/// When messages are told, and when they are not.
static TOLD: [Run<Act>; 5] = [
    Run {
        name: "only a session of which nothing was received",
        first: &[],
        entries: &[
            (Act::NextTold(1, 0), "InvalidId"),
            (Act::TellMessages(0), "Ok"),
            (Act::NextTold(1, 0), "InvalidId"),
            // What is refused was not received.
            (Act::Received(&[], &[42]), "InvalidInput"),
            (Act::TellMessages(1), "Ok"),
            (Act::TellMessages(2), "Ok"),
            (Act::NextTold(1, 0), "WouldBlock"),
            (Act::TellMessages(0), "Ok"),
            (Act::NextTold(1, 0), "InvalidId"),
            (Act::Received(&[1], &[]), "Ok"),
            (Act::TellMessages(1), "InUse"),
            (Act::NextTold(1, 0), "InvalidId"),
            (Act::TellMessages(0), "Ok"),
        ],
    },
    // What waits in the mailbox when the messages begin to be told is told, and what waits in the core, too.
    Run {
        name: "only a session of which nothing was sent",
        first: &[],
        entries: &[
            (Act::Send(DISPLAY, 1, Some(60), NEW, &[]), "Ok 2@2 serial 1"),
            (Act::Flush, "Ok"),
            (Act::Send(DISPLAY, 0, Some(61), NEW, &[]), "Ok 3@3 serial 2"),
            (Act::TellMessages(1), "Ok"),
            (
                Act::NextTold(1, 0),
                "Ok kind 1 opcode 1 arguments 1 of 1@1 (5: 0 object 2@2)",
            ),
            (Act::NextTold(1, 0), "WouldBlock"),
            // What was told is not told again if it is set once more.
            (Act::TellMessages(1), "Ok"),
            (Act::Flush, "Ok"),
            (Act::Sent(24), "Ok"),
            (
                Act::NextTold(1, 0),
                "Ok kind 1 arguments 1 of 1@1 (5: 0 object 3@3)",
            ),
            (Act::NextTold(1, 0), "WouldBlock"),
            (Act::TellMessages(0), "Ok"),
            (Act::TellMessages(1), "InUse"),
        ],
    },
    // What is refused is not told: descriptors that come alone, or are too many, by themselves or with those that wait. What arrives in
    // pieces is told once it was read.
    Run {
        name: "what is refused, and what comes in pieces",
        first: BINDING,
        entries: &[
            (Act::Received(&[], &[42]), "InvalidInput"),
            (
                Act::Received(MOVED_AND_GIVEN, &[43; 29]),
                "TooManyDescriptors",
            ),
            (Act::Received(&[3], &[44; 20]), "Ok"),
            (
                Act::Received(MOVED_AND_GIVEN, &[45; 9]),
                "TooManyDescriptors",
            ),
            (Act::NextTold(1, 0), "WouldBlock"),
            (Act::Next(1, 0), "WouldBlock"),
            (Act::NextTold(1, 0), "WouldBlock"),
            (Act::Received(&[0x00080001], &[]), "Ok"),
            (
                Act::Next(1, 0),
                "Ok opcode 1 has_data 1 data 33 arguments 1 by 4@3 (7: 44)",
            ),
            (
                Act::NextTold(1, 0),
                "Ok kind 1 event 1 opcode 1 arguments 1 of 4@3 (7: 44)",
            ),
            (Act::NextTold(1, 0), "WouldBlock"),
        ],
    },
    // The error of the server was read, so it is told. Then nothing is sent any more.
    Run {
        name: "the error that ends the session",
        first: BINDING,
        entries: &[
            (Act::Received(ERROR, &[]), "Ok"),
            (Act::Next(1, 0), "Failed"),
            (
                Act::NextTold(3, 8),
                "Ok kind 1 event 1 arguments 3 bytes 8 of 1@1 (4: 0 object 1@1) (1: 3) (3: 0 length 3) \
                 [ 62 61 64 00 00 00 00 00 ]",
            ),
            (Act::NextTold(1, 0), "WouldBlock"),
            (Act::ToSend(0), "Ok [ ] [ ]"),
            (Act::Sent(40), "Ok"),
        ],
    },
    // What is no message of an object was not read, so it is not told.
    Run {
        name: "an object that is not there",
        first: BINDING,
        entries: &[
            (Act::Received(STRAY, &[]), "Ok"),
            (Act::Next(1, 0), "Failed"),
            (Act::NextTold(1, 0), "WouldBlock"),
        ],
    },
];

#[test]
fn client_messages_read_and_written(rt: HostRuntime) -> Result<(), Fail> {
    run_tells::<Client>(&rt, &READ_AND_WRITTEN, None, false)
}

#[test]
fn client_messages_handed_to_nobody(rt: HostRuntime) -> Result<(), Fail> {
    run_tells::<Client>(&rt, &HANDED_TO_NOBODY, None, false)
}

#[test]
fn client_messages(rt: HostRuntime) -> Result<(), Fail> {
    for run in &TOLD {
        run_tells::<Client>(&rt, run, None, false)?;
    }
    Ok(())
}

/// Whatever memory is refused, each message is told once when the call is made again.
#[test]
fn drill_of_client_messages(rt: HostRuntime) -> Result<(), Fail> {
    run_tells::<Client>(&rt, &READ_AND_WRITTEN, None, true)
}
