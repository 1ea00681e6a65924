//! The runs for which each allocation is refused in turn.

use crate::tests::acts::{Act, FIRST, SECOND};
use crate::tests::args::{arg, id};
use crate::tests::client_acts::{Act as ClientAct, DISPLAY, NEW};
use crate::tests::rows::{KNOT, LAX_PAD, LONG_PAD, LONGER_NOTE, LONGER_PAD, OTHER_PAD};
use crate::tests::server::{LEAVE_NULL, TELL};
use crate::tests::session::{End, Run, run_tells};
use crate::tests::told::{NOBODY, NULL};
use std::test::Fail;
use wl_host::{Client, FlatArgument, FlatClientId, FlatGlobalId, FlatObjectId, Server};

/// The third, at the slot of the first one, which is gone.
const THIRD: FlatClientId = FlatClientId { serial: 3, slot: 0 };

/// The second global.
const SECOND_GLOBAL: FlatGlobalId = FlatGlobalId { serial: 2, name: 2 };

/// The `pad` that is made for the first client.
const PAD: FlatObjectId = id!(FIRST, 4 @ 0xff000000, serial 1);

/// The `note` that is made for it after that.
const NOTE: FlatObjectId = id!(FIRST, 5 @ 0xff000001, serial 2);

/// The arguments of `note.said`: "hey", "abc", 1.5, the descriptor 99, and 7.
const SAID: &[FlatArgument] = &[
    arg!(string: 0, 3),
    arg!(array: 3, 3),
    arg!(fixed: 384),
    arg!(fd: 99),
    arg!(uint: 7),
];

/// Lists of what is hidden, of clients and globals that are there and of those that are not.
static LISTS: Run<Act> = Run {
    name: "lists of what is hidden",
    first: &[],
    entries: &[
        (Act::Global(70, 1, &[SECOND]), "Ok global 1:1"),
        (Act::Global(71, 1, &[]), "Ok global 2:2"),
        (Act::Insert(7, 1, &[]), "Ok client 0:1"),
        (Act::NextClient, "Ok client 1:2"),
        (Act::NextGlobal, "Ok global 3:3"),
        (Act::Insert(8, 1, &[SECOND_GLOBAL]), "Ok client 1:2"),
        (Act::Sees(FIRST), "Ok 1 2"),
        (Act::Sees(SECOND), "Ok"),
        (Act::Global(72, 1, &[FIRST, SECOND]), "Ok global 3:3"),
        (Act::Sees(FIRST), "Ok 1 2"),
        (Act::Kill(FIRST), "Ok"),
        (Act::Cleanup, "Ok"),
        (Act::Gone, "Ok client 0:1 data 7 [ ] [ ]"),
        (Act::Insert(9, 1, &[SECOND_GLOBAL]), "Ok client 0:3"),
        (Act::Sees(THIRD), "Ok 1 3"),
        (Act::Note, "Ok kind 1 client 0:1"),
        (Act::Note, "Ok kind 1 client 1:2"),
        (Act::Note, "Ok kind 2 client 0:1"),
        (Act::Note, "Ok kind 1 client 0:3"),
        (Act::Note, "WouldBlock"),
    ],
};

/// An event and a request of more than four arguments, with strings, arrays and descriptors, and the end of an object.
static ARGUMENTS: Run<Act> = Run {
    name: "arguments",
    first: &[],
    entries: &[
        (Act::AddNote, "Ok"),
        (Act::Insert(7, 1, &[]), "Ok client 0:1"),
        (Act::Create(FIRST, 4, 33), "Ok 4@4278190080"),
        (Act::Create(FIRST, 5, 55), "Ok 5@4278190081"),
        (Act::Send(NOTE, 0, SAID, b"heyabc"), "Ok"),
        (Act::Writable, "Ok client 0:1"),
        (
            Act::ToSend(FIRST),
            "Ok [ 01 00 00 ff 00 00 20 00 04 00 00 00 68 65 79 00 03 00 00 00 61 62 63 00 80 01 00 00 07 00 00 00 ] [ 99 ]",
        ),
        (Act::Sent(FIRST, 32), "Ok"),
        (Act::Received(FIRST, TELL, &[42]), "Ok"),
        (
            Act::Next(FIRST, 10, 16),
            "Ok kind 1 data 55 version 1 arguments 10 bytes 16 by 5@4278190081 made 4@2 (0: -5) (1: -1) (2: 384) (3: 0 length 3) \
             (8: 0) (4: 0 data 33 object 4@4278190080) (4: 0) (5: 0 object 4@2) (6: 0 at 8 length 3) (7: 42) \
             [ 68 65 79 00 00 00 00 00 01 02 03 00 00 00 00 00 ]",
        ),
        (Act::FinishWith(FIRST, 44), "Ok kept true"),
        (Act::Received(FIRST, &[2, 0x00080002], &[43]), "Ok"),
        (
            Act::Next(FIRST, 0, 0),
            "Ok kind 1 opcode 2 ends 1 data 44 by 4@2",
        ),
        // No note is left and nothing is to be sent, so what comes below is there by the end of the object alone.
        (Act::Writable, "WouldBlock"),
        (Act::Note, "Ok kind 1 client 0:1"),
        (Act::Note, "WouldBlock"),
        (Act::Finish(FIRST), "Ok"),
        (Act::Writable, "Ok client 0:1"),
        (
            Act::ToSend(FIRST),
            "Ok [ 01 00 00 00 01 00 0c 00 02 00 00 00 ] [ ]",
        ),
        (Act::Sent(FIRST, 12), "Ok"),
        (Act::Writable, "WouldBlock"),
        (Act::Note, "Ok kind 3 data 44 client 0:1 object 4@2"),
        (Act::Note, "WouldBlock"),
        (Act::Dropped, "WouldBlock"),
        (Act::Kill(FIRST), "Ok"),
        (Act::Cleanup, "Ok"),
        (Act::Gone, "Ok client 0:1 data 7 [ ] [ ]"),
        (Act::Dropped, "Ok descriptor 43"),
        (Act::Dropped, "WouldBlock"),
    ],
};

/// A table that longer rows extend: one interface, its requests and its events, and a new one. Then single ones join it.
static EXTENSION: Run<Act> = Run {
    name: "an extension",
    first: &[],
    entries: &[
        (Act::Extend(LONG_PAD), "Ok"),
        (Act::Extend(LONG_PAD), "Ok"),
        (
            Act::Extend(OTHER_PAD),
            "BadTable fault 9 event 1 opcode 1 version 3",
        ),
        (Act::Insert(7, 1, &[]), "Ok client 0:1"),
        (Act::Create(FIRST, 4, 33), "Ok 4@4278190080"),
        (Act::Create(FIRST, 5, 55), "Ok 5@4278190081"),
        (Act::Create(FIRST, 6, 66), "UnknownInterface"),
        (Act::Send(PAD, 2, &[], b""), "Ok"),
        (Act::Join(KNOT), "Ok number 6"),
        (Act::Join(LONGER_NOTE), "Ok number 5"),
        (Act::Join(LAX_PAD), "BadTable fault 9 opcode 1 version 3"),
        (Act::Create(FIRST, 6, 66), "Ok 6@4278190082"),
    ],
};

/// A request with a null that the session refuses.
static REFUSAL: Run<Act> = Run {
    name: "a refused null",
    first: &[],
    entries: &[
        (Act::AddGate, "Ok"),
        (Act::RefuseNulls(1), "Ok"),
        (Act::Insert(7, 1, &[]), "Ok client 0:1"),
        (Act::Create(FIRST, 5, 55), "Ok 5@4278190080"),
        (Act::Received(FIRST, LEAVE_NULL, &[42]), "Ok"),
        (Act::Next(FIRST, 2, 8), "Closed"),
        // Whatever there was no memory for, nothing that the host may finish is open.
        (Act::Finish(FIRST), "NotOpen"),
        (Act::Next(FIRST, 2, 8), "Closed"),
        (Act::Dropped, "WouldBlock"),
        (Act::Cleanup, "Ok"),
        (Act::Dropped, "Ok descriptor 42"),
        (Act::Dropped, "WouldBlock"),
        (Act::Next(FIRST, 2, 8), "InvalidId"),
    ],
};

/// An error that the program posts.
static ERROR: Run<Act> = Run {
    name: "a posted error",
    first: &[],
    entries: &[
        (Act::Insert(7, 1, &[]), "Ok client 0:1"),
        (Act::Create(FIRST, 4, 33), "Ok 4@4278190080"),
        (Act::PostError(PAD, 9, b"no way"), "Ok"),
    ],
};

/// The client is gone, and was told why, unless there was no memory for it.
static ERROR_END: End<Act> = End {
    acts: &[
        Act::Cleanup,
        Act::Gone,
        Act::Note,
        Act::Note,
        Act::Note,
        Act::Note,
    ],
    told: "Ok
Ok client 0:1 data 7 [ 01 00 00 00 00 00 1c 00 00 00 00 ff 09 00 00 00 07 00 00 00 6e 6f 20 77 61 79 00 00 ] [ ]
Ok kind 1 client 0:1
Ok kind 2 error 1 code 9 client 0:1
Ok kind 3 data 33 client 0:1 object 4@4278190080
WouldBlock
",
    refused: "Ok
Ok client 0:1 data 7 [ ] [ ]
Ok kind 1 client 0:1
Ok kind 2 client 0:1
Ok kind 3 data 33 client 0:1 object 4@4278190080
WouldBlock
",
};

/// The `note` that a client binds after its registry.
const BOUND_NOTE: FlatObjectId = id!(NOBODY, 5 @ 3, serial 2);

/// The `pad` that it binds after that.
const BOUND_PAD: FlatObjectId = id!(NOBODY, 4 @ 4, serial 3);

/// The `pad` that the `note` makes.
const MADE_PAD: FlatObjectId = id!(NOBODY, 4 @ 5, serial 4);

/// The arguments of `note.tell`: -5, 2³² - 1, 1.5, "hey", no string, the `pad`, no object, a new object, "abc", and the descriptor
/// 42.
const TOLD: &[FlatArgument] = &[
    arg!(int: -5),
    arg!(uint: -1),
    arg!(fixed: 384),
    arg!(string: 0, 3),
    arg!(null_string),
    arg!(object: BOUND_PAD),
    arg!(object: NULL),
    arg!(new),
    arg!(array: 3, 3),
    arg!(fd: 42),
];

/// A client binds, sends a request with each kind of argument, receives an event of five, and its objects end in each way: it
/// destroys one, a request ends its sender, and so does an event.
static CLIENT: Run<ClientAct> = Run {
    name: "a client",
    first: &[],
    entries: &[
        (ClientAct::AddNote, "Ok"),
        (
            ClientAct::Send(DISPLAY, 1, Some(1), NEW, &[]),
            "Ok 2@2 serial 1",
        ),
        (ClientAct::BindNote(9), "Ok 5@3 serial 2"),
        (ClientAct::BindPad(10), "Ok 4@4 serial 3"),
        (
            ClientAct::Send(BOUND_NOTE, 0, Some(11), TOLD, b"heyabc"),
            "Ok 4@5 serial 4",
        ),
        (ClientAct::Flush, "Ok"),
        (
            ClientAct::ToSend(1),
            "Ok bytes 124 descriptors 1 [ 01 00 00 00 01 00 0c 00 02 00 00 00 \
             02 00 00 00 00 00 20 00 02 00 00 00 05 00 00 00 6e 6f 74 65 00 00 00 00 01 00 00 00 03 00 00 00 \
             02 00 00 00 00 00 1c 00 01 00 00 00 04 00 00 00 70 61 64 00 02 00 00 00 04 00 00 00 \
             03 00 00 00 00 00 34 00 fb ff ff ff ff ff ff ff 80 01 00 00 04 00 00 00 68 65 79 00 00 00 00 00 04 00 00 00 00 00 00 00 \
             05 00 00 00 03 00 00 00 61 62 63 00 ] [ 42 ]",
        ),
        (ClientAct::Sent(124), "Ok"),
        (
            ClientAct::Received(
                &[3, 0x00200000, 4, 0x00796568, 3, 0x00636261, 384, 7],
                &[50],
            ),
            "Ok",
        ),
        (
            ClientAct::Next(5, 16),
            "Ok has_data 1 data 9 arguments 5 bytes 16 by 5@3 (3: 0 length 3) (6: 0 at 8 length 3) (2: 384) (7: 50) (1: 7) \
             [ 68 65 79 00 00 00 00 00 61 62 63 00 00 00 00 00 ]",
        ),
        (ClientAct::Finish, "Ok"),
        (ClientAct::Destroy(BOUND_PAD), "Ok"),
        (ClientAct::Note, "Ok 4@4 serial 3 data 10"),
        (ClientAct::Send(MADE_PAD, 2, None, &[], &[]), "Ok 0@0"),
        (ClientAct::Note, "Ok 4@5 serial 4 data 11"),
        (
            ClientAct::Send(DISPLAY, 0, Some(31), NEW, &[]),
            "Ok 3@6 serial 5",
        ),
        (
            ClientAct::Received(&[6, 0x000c0000, 1, 1, 0x000c0001, 6], &[]),
            "Ok",
        ),
        (
            ClientAct::Next(1, 0),
            "Ok ends 1 has_data 1 data 31 arguments 1 by 3@6 (1: 1)",
        ),
        (ClientAct::Finish, "Ok"),
        (ClientAct::Note, "Ok 3@6 serial 5 data 31"),
        (ClientAct::Note, "WouldBlock"),
        (ClientAct::Next(1, 0), "WouldBlock"),
        (ClientAct::Dropped, "WouldBlock"),
        (ClientAct::Join(LAX_PAD), "Ok number 6"),
        (ClientAct::Join(LONGER_PAD), "Ok number 4"),
        (ClientAct::Join(LAX_PAD), "Ok number 6"),
        (ClientAct::Error, "Ok number 0"),
    ],
};

/// Whatever memory is refused, what is hidden stays hidden, and what is not is seen.
#[test]
fn drill_of_lists(rt: HostRuntime) -> Result<(), Fail> {
    run_tells::<Server>(&rt, &LISTS, None, true)
}

/// Whatever memory is refused, no argument and no descriptor is lost, and none comes twice.
#[test]
fn drill_of_arguments(rt: HostRuntime) -> Result<(), Fail> {
    run_tells::<Server>(&rt, &ARGUMENTS, None, true)
}

/// Whatever memory is refused, the rows are taken when the call is made again, and each message once.
#[test]
fn drill_of_an_extension(rt: HostRuntime) -> Result<(), Fail> {
    run_tells::<Server>(&rt, &EXTENSION, None, true)
}

/// Whatever memory is refused, the request is not handed out, its client is killed, and its descriptor comes out once.
#[test]
fn drill_of_a_refused_null(rt: HostRuntime) -> Result<(), Fail> {
    run_tells::<Server>(&rt, &REFUSAL, None, true)
}

/// Whatever memory is refused, the client is killed once, and its end is told once.
#[test]
fn drill_of_a_posted_error(rt: HostRuntime) -> Result<(), Fail> {
    run_tells::<Server>(&rt, &ERROR, Some(&ERROR_END), true)
}

/// Whatever memory is refused, the client's requests, events and notes are the same.
#[test]
fn drill_of_a_client(rt: HostRuntime) -> Result<(), Fail> {
    run_tells::<Client>(&rt, &CLIENT, None, true)
}
