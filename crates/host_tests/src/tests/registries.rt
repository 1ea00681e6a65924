//! Registries that are handed out: the host tells them of globals, and of the removal of those that it told.

use crate::tests::acts::{Act, FIRST, SECOND};
use crate::tests::args::{arg, id};
use crate::tests::chosen::Choice;
use crate::tests::server::{BIND_FIRST, REGISTRY};
use crate::tests::session::{End, Entry, Run, run_tells};
use std::test::Fail;
use wl_host::{FlatArgument, FlatClientId, FlatGlobalId, FlatObjectId, Server, Status};

/// One call of a server's session about these.
pub enum Telling {
    /// Registries are handed out if this is not 0.
    HandOut(u32),
    /// The registry is told of the global.
    Announce(FlatObjectId, FlatGlobalId),
    /// Those that were told of the global are told of its removal.
    Withdraw(FlatGlobalId),
    /// The global is disabled.
    Disable(FlatGlobalId),
    /// The global is removed.
    Remove(FlatGlobalId),
}

/// Does a call, and returns its status.
pub fn tell(server: &mut Server, telling: &Telling) -> Status {
    match telling {
        Telling::HandOut(hand_out) => server.hand_out_registries(*hand_out),
        Telling::Announce(registry, global) => server.announce_global(registry, global),
        Telling::Withdraw(global) => server.withdraw_global(global),
        Telling::Disable(global) => server.disable_global(global),
        Telling::Remove(global) => server.remove_global(global),
    }
}

/// The registry of the first client.
const FIRST_REGISTRY: FlatObjectId = id!(FIRST, 2 @ 2, serial 1);

/// That of the second.
const SECOND_REGISTRY: FlatObjectId = id!(SECOND, 2 @ 2, serial 1);

/// The second registry of the first client.
const LATER_REGISTRY: FlatObjectId = id!(FIRST, 2 @ 3, serial 2);

/// One with a serial that it does not have.
const STALE_REGISTRY: FlatObjectId = id!(FIRST, 2 @ 2, serial 9);

/// The display of the first client.
const DISPLAY: FlatObjectId = id!(FIRST, 1 @ 1, serial 0);

/// The first global.
const ONE: FlatGlobalId = FlatGlobalId { serial: 1, name: 1 };

/// The second.
const TWO: FlatGlobalId = FlatGlobalId { serial: 2, name: 2 };

/// One with the first one's name that was not created.
const NONE: FlatGlobalId = FlatGlobalId { serial: 9, name: 1 };

/// `wl_display.get_registry` with the new id 3.
const LATER: &[u32] = &[1, 0x000c0001, 3];

/// Two globals, and a client whose registry is handed out.
const HANDED_OUT: &[Entry<Act>] = &[
    (Act::Tell(Telling::HandOut(1)), "Ok"),
    (Act::Global(70, 1, &[]), "Ok global 1:1"),
    (Act::Global(71, 1, &[]), "Ok global 2:2"),
    (Act::Insert(7, 1, &[]), "Ok client 0:1"),
    (Act::Received(FIRST, REGISTRY, &[]), "Ok"),
    (Act::Next(FIRST, 0, 0), "Ok kind 3 version 1 made 2@2"),
];

/// The runs, each of a new session.
static RUNS: [Run<Act>; 6] = [
    // The session tells it of no global; the host tells it of the second one, and so only of the removal of that, once.
    Run {
        name: "a registry of the host",
        first: HANDED_OUT,
        entries: &[
            (Act::Next(FIRST, 0, 0), "Open"),
            (Act::Finish(FIRST), "WrongKind"),
            (Act::Tell(Telling::Announce(FIRST_REGISTRY, TWO)), "Ok"),
            (Act::FinishBind(FIRST, 33), "Ok kept true"),
            (Act::Writable, "Ok client 0:1"),
            (
                Act::ToSend(FIRST),
                "Ok [ 02 00 00 00 00 00 18 00 02 00 00 00 04 00 00 00 70 61 64 00 02 00 00 00 ] [ ]",
            ),
            (Act::Sent(FIRST, 24), "Ok"),
            (Act::Tell(Telling::Withdraw(ONE)), "Ok"),
            (Act::Tell(Telling::Remove(ONE)), "Ok"),
            (Act::Writable, "WouldBlock"),
            (Act::Tell(Telling::Withdraw(NONE)), "Ok"),
            (Act::Writable, "WouldBlock"),
            (Act::Tell(Telling::Disable(TWO)), "Ok"),
            (Act::Tell(Telling::Withdraw(TWO)), "Ok"),
            (Act::Tell(Telling::Withdraw(TWO)), "Ok"),
            (Act::Writable, "Ok client 0:1"),
            (
                Act::ToSend(FIRST),
                "Ok [ 02 00 00 00 01 00 0c 00 02 00 00 00 ] [ ]",
            ),
            (Act::Sent(FIRST, 12), "Ok"),
            (Act::Writable, "WouldBlock"),
        ],
    },
    // Of two registries of one client, and that of another, each is told of the removal of what it was told of, in the order in which
    // they were told.
    Run {
        name: "three registries",
        first: HANDED_OUT,
        entries: &[
            (Act::FinishBind(FIRST, 33), "Ok kept true"),
            (Act::Received(FIRST, LATER, &[]), "Ok"),
            (Act::Next(FIRST, 0, 0), "Ok kind 3 version 1 made 2@3"),
            (Act::FinishBind(FIRST, 34), "Ok kept true"),
            (Act::Insert(8, 1, &[]), "Ok client 1:2"),
            (Act::Received(SECOND, REGISTRY, &[]), "Ok"),
            (Act::Next(SECOND, 0, 0), "Ok kind 3 version 1 made 2@2"),
            (Act::FinishBind(SECOND, 35), "Ok kept true"),
            (Act::Tell(Telling::Announce(LATER_REGISTRY, ONE)), "Ok"),
            (Act::Tell(Telling::Announce(SECOND_REGISTRY, TWO)), "Ok"),
            (Act::Tell(Telling::Announce(FIRST_REGISTRY, ONE)), "Ok"),
            (Act::Tell(Telling::Announce(FIRST_REGISTRY, TWO)), "Ok"),
            (Act::Choose(Choice::Flush(FIRST)), "Ok"),
            (Act::Sent(FIRST, 72), "Ok"),
            (Act::Choose(Choice::Flush(SECOND)), "Ok"),
            (Act::Sent(SECOND, 24), "Ok"),
            (Act::Tell(Telling::Withdraw(ONE)), "Ok"),
            (Act::Choose(Choice::Flush(SECOND)), "WouldBlock"),
            (Act::Choose(Choice::Flush(FIRST)), "Ok"),
            (
                Act::ToSend(FIRST),
                "Ok [ 03 00 00 00 01 00 0c 00 01 00 00 00 02 00 00 00 01 00 0c 00 01 00 00 00 ] [ ]",
            ),
            (Act::Sent(FIRST, 24), "Ok"),
            (Act::Tell(Telling::Withdraw(TWO)), "Ok"),
            (Act::Choose(Choice::Flush(FIRST)), "Ok"),
            (
                Act::ToSend(FIRST),
                "Ok [ 02 00 00 00 01 00 0c 00 02 00 00 00 ] [ ]",
            ),
            (Act::Choose(Choice::Flush(SECOND)), "Ok"),
            (
                Act::ToSend(SECOND),
                "Ok [ 02 00 00 00 01 00 0c 00 02 00 00 00 ] [ ]",
            ),
        ],
    },
    // A global that is told of twice is taken back twice.
    Run {
        name: "told twice",
        first: HANDED_OUT,
        entries: &[
            (Act::Tell(Telling::Announce(FIRST_REGISTRY, ONE)), "Ok"),
            (Act::Tell(Telling::Announce(FIRST_REGISTRY, ONE)), "Ok"),
            (Act::Choose(Choice::Flush(FIRST)), "Ok"),
            (Act::Sent(FIRST, 48), "Ok"),
            (Act::Tell(Telling::Withdraw(ONE)), "Ok"),
            (Act::Choose(Choice::Flush(FIRST)), "Ok"),
            (
                Act::ToSend(FIRST),
                "Ok [ 02 00 00 00 01 00 0c 00 01 00 00 00 02 00 00 00 01 00 0c 00 01 00 00 00 ] [ ]",
            ),
        ],
    },
    // What is refused tells nothing, and so nothing is taken back.
    Run {
        name: "announcements that are refused",
        first: HANDED_OUT,
        entries: &[
            (
                Act::Tell(Telling::Announce(STALE_REGISTRY, ONE)),
                "InvalidId",
            ),
            (
                Act::Tell(Telling::Announce(SECOND_REGISTRY, ONE)),
                "InvalidId",
            ),
            (
                Act::Tell(Telling::Announce(FIRST_REGISTRY, NONE)),
                "InvalidId",
            ),
            (Act::Tell(Telling::Announce(DISPLAY, ONE)), "BadSignature"),
            (Act::Tell(Telling::Withdraw(ONE)), "Ok"),
            (Act::Writable, "WouldBlock"),
            (Act::FinishBind(FIRST, 33), "Ok kept true"),
        ],
    },
    // A client binds by it; one that does not see the global is refused by the session, whatever its registry was told.
    Run {
        name: "binds by a registry of the host",
        first: HANDED_OUT,
        entries: &[
            (Act::FinishBind(FIRST, 33), "Ok kept true"),
            (Act::Received(FIRST, BIND_FIRST, &[]), "Ok"),
            (
                Act::Next(FIRST, 0, 0),
                "Ok kind 2 data 70 version 2 made 4@3",
            ),
            (Act::FinishBind(FIRST, 44), "Ok kept true"),
            (Act::Insert(8, 2, &[]), "Ok client 1:2"),
            (Act::Received(SECOND, REGISTRY, &[]), "Ok"),
            (Act::Next(SECOND, 0, 0), "Ok kind 3 version 1 made 2@2"),
            (Act::Tell(Telling::Announce(SECOND_REGISTRY, ONE)), "Ok"),
            (Act::FinishBind(SECOND, 35), "Ok kept true"),
            (Act::Received(SECOND, BIND_FIRST, &[]), "Ok"),
            (Act::Next(SECOND, 0, 0), "Closed"),
            (Act::Note, "Ok kind 1 client 0:1"),
            (Act::Note, "Ok kind 1 client 1:2"),
            (Act::Note, "Ok kind 2 error 1 client 1:2"),
            (Act::Cleanup, "Ok"),
            (Act::Note, "Ok kind 3 data 35 client 1:2 object 2@2"),
            (Act::Note, "WouldBlock"),
        ],
    },
    // A killed client is told nothing, and one that is gone is not there. Registries are the session's again if the host wishes.
    Run {
        name: "a client that ends",
        first: HANDED_OUT,
        entries: &[
            (Act::FinishBind(FIRST, 33), "Ok kept true"),
            (Act::Tell(Telling::Announce(FIRST_REGISTRY, ONE)), "Ok"),
            (Act::Kill(FIRST), "Ok"),
            (Act::Tell(Telling::Announce(FIRST_REGISTRY, TWO)), "Ok"),
            (Act::Tell(Telling::Withdraw(TWO)), "Ok"),
            (Act::Cleanup, "Ok"),
            (
                Act::Gone,
                "Ok client 0:1 data 7 [ 02 00 00 00 00 00 18 00 01 00 00 00 04 00 00 00 70 61 64 00 02 00 00 00 ] [ ]",
            ),
            (
                Act::Tell(Telling::Announce(FIRST_REGISTRY, ONE)),
                "InvalidId",
            ),
            (Act::Tell(Telling::Withdraw(ONE)), "Ok"),
            (Act::Tell(Telling::HandOut(0)), "Ok"),
            (Act::Insert(8, 1, &[]), "Ok client 0:2"),
            (
                Act::Received(FlatClientId { serial: 2, slot: 0 }, REGISTRY, &[]),
                "Ok",
            ),
            (
                Act::Next(FlatClientId { serial: 2, slot: 0 }, 0, 0),
                "WouldBlock",
            ),
            (Act::Tell(Telling::Remove(ONE)), "Ok"),
            (Act::Writable, "Ok client 0:2"),
            (
                Act::ToSend(FlatClientId { serial: 2, slot: 0 }),
                "Ok [ 02 00 00 00 00 00 18 00 01 00 00 00 04 00 00 00 70 61 64 00 02 00 00 00 \
                 02 00 00 00 00 00 18 00 02 00 00 00 04 00 00 00 70 61 64 00 02 00 00 00 \
                 02 00 00 00 01 00 0c 00 01 00 00 00 ] [ ]",
            ),
        ],
    },
];

/// The `note` that is made for the first client.
const NOTE: FlatObjectId = id!(FIRST, 5 @ 0xff000000, serial 2);

/// The arguments of `note.said` with an array of 4036 bytes, so that the event takes 4064.
const LONG_SAID: &[FlatArgument] = &[
    arg!(string: 0, 3),
    arg!(array: 3, 4036),
    arg!(fixed: 384),
    arg!(fd: 99),
    arg!(uint: 7),
];

/// A registry is told of a global, and with an event after that 4088 bytes wait for the client.
static FULL: Run<Act> = Run {
    name: "a removal in want",
    first: HANDED_OUT,
    entries: &[
        (Act::FinishBind(FIRST, 33), "Ok kept true"),
        (Act::AddNote, "Ok"),
        (Act::Create(FIRST, 5, 44), "Ok 5@4278190080"),
        (Act::Tell(Telling::Announce(FIRST_REGISTRY, ONE)), "Ok"),
        (Act::Send(NOTE, 0, LONG_SAID, &[120; 4039]), "Ok"),
    ],
};

/// The removal takes 12 bytes, so the buffer of 4096 grows. If there is no memory for that, the host hears of it, and the client is
/// killed as if its connection had ended.
static REMOVAL_END: End<Act> = End {
    acts: &[
        Act::Tell(Telling::Withdraw(ONE)),
        Act::Cleanup,
        Act::Note,
        Act::Note,
    ],
    told: "Ok
Ok
Ok kind 1 client 0:1
WouldBlock
",
    refused: "Ok
Ok
Ok kind 1 client 0:1
Ok kind 2 client 0:1
",
};

/// Each of them tells what it has to.
#[test]
fn rows(rt: HostRuntime) -> Result<(), Fail> {
    for run in &RUNS {
        run_tells::<Server>(&rt, run, None, false)?;
    }
    run_tells::<Server>(&rt, &FULL, Some(&REMOVAL_END), false)
}

/// A registry that is told of two globals, and of the removal of one.
static DRILL: Run<Act> = Run {
    name: "a registry in want",
    first: HANDED_OUT,
    entries: &[
        (Act::Tell(Telling::Announce(FIRST_REGISTRY, ONE)), "Ok"),
        (Act::Tell(Telling::Announce(FIRST_REGISTRY, TWO)), "Ok"),
        (Act::FinishBind(FIRST, 33), "Ok kept true"),
        (Act::Writable, "Ok client 0:1"),
        (
            Act::ToSend(FIRST),
            "Ok [ 02 00 00 00 00 00 18 00 01 00 00 00 04 00 00 00 70 61 64 00 02 00 00 00 \
             02 00 00 00 00 00 18 00 02 00 00 00 04 00 00 00 70 61 64 00 02 00 00 00 ] [ ]",
        ),
        (Act::Sent(FIRST, 48), "Ok"),
        (Act::Tell(Telling::Withdraw(ONE)), "Ok"),
        (Act::Writable, "Ok client 0:1"),
        (
            Act::ToSend(FIRST),
            "Ok [ 02 00 00 00 01 00 0c 00 01 00 00 00 ] [ ]",
        ),
    ],
};

/// Whatever memory is refused, the registry is told of each global once, and of the removal.
#[test]
fn drill_of_a_registry(rt: HostRuntime) -> Result<(), Fail> {
    run_tells::<Server>(&rt, &DRILL, None, true)
}

/// Whatever memory is refused, the registry is told of the removal, or its client is killed.
#[test]
fn drill_of_a_removal(rt: HostRuntime) -> Result<(), Fail> {
    run_tells::<Server>(&rt, &FULL, Some(&REMOVAL_END), true)
}
