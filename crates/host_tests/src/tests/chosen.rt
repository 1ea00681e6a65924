//! What a host chooses: numbers and versions of objects, how many a client may have, and whether names of globals and notes are
//! kept. With it what it looks at: objects with their data, and whether something is to be sent to one client.

use crate::tests::acts::{Act, FIRST, GIVEN, MOVED, SECOND};
use crate::tests::args::{arg, id};
use crate::tests::server::BOUND;
use crate::tests::session::{Run, run_tells};
use crate::tests::told::{NULL, tell_numbers, tell_object, tell_waiting, told};
use std::test::Fail;
use wl_host::{FlatClientId, FlatGlobalId, FlatHeldObject, FlatObjectId, Server, Status};

/// One call of a server's session about these.
pub enum Choice {
    /// An object of the client of this interface and version, at this number, with data.
    Create(FlatClientId, u32, u32, u32, u64),
    /// The object of the client of this interface that is to stand for something, of this version, at this number, with data.
    Claim(FlatClientId, u32, u32, u32, u64),
    /// The object gets this version.
    Version(FlatObjectId, u32),
    /// The names of globals are kept if this is not 0.
    Names(u32),
    /// The global is removed.
    Remove(FlatGlobalId),
    /// The object of the client with this number.
    ByNumber(FlatClientId, u32),
    /// The objects of the client, with room for so many, at most 4.
    All(FlatClientId, usize),
    /// What waits for the client.
    Flush(FlatClientId),
    /// How much waits for the client.
    Waiting(FlatClientId),
    /// Each client may have so many objects, or as many as it likes if this is 0.
    Limit(u32),
    /// Notes are kept if this is not 0.
    Notes(u32),
}

/// An object, with its data if it has any.
fn tell_held(log: &mut String, held: FlatHeldObject) -> Result<(), Fail> {
    tell_object(log, held.object)?;
    tell_numbers(log, &[("data", held.data)])
}

/// The objects of the client, with so much room.
fn tell_all(
    log: &mut String,
    server: &Server,
    client: &FlatClientId,
    room: usize,
) -> Result<Status, Fail> {
    let mut objects = [FlatHeldObject {
        object: NULL,
        data: 0,
    }; 4];
    let Some(objects) = objects.get_mut(..room) else {
        return Err(Fail::new("too much room"));
    };
    let mut count = 0u32;
    let status = server.held_objects(client, objects, &mut count);
    write!(log, " {count}")?;
    for held in objects {
        tell_held(log, *held)?;
    }
    Ok(status)
}

/// Does a call, and tells what came of it except the status, which it returns.
pub fn choose(log: &mut String, server: &mut Server, choice: &Choice) -> Result<Status, Fail> {
    match choice {
        Choice::Create(id, interface, version, number, data) => {
            let answer = server.create_object_at(id, *interface, *version, *number, 1, *data);
            told(log, answer, tell_object)
        }
        Choice::Claim(id, interface, version, number, data) => {
            let answer = server.claim_object(id, *interface, *version, *number, *data);
            told(log, answer, tell_object)
        }
        Choice::Version(id, version) => Ok(server.set_object_version(id, *version)),
        Choice::Names(keep) => Ok(server.keep_global_names(*keep)),
        Choice::Remove(id) => Ok(server.remove_global(id)),
        Choice::ByNumber(id, number) => told(log, server.object_by_number(id, *number), tell_held),
        Choice::All(id, room) => tell_all(log, server, id, *room),
        Choice::Flush(id) => Ok(server.flush_client(id)),
        Choice::Waiting(id) => told(log, server.waiting(id), tell_waiting),
        Choice::Limit(limit) => Ok(server.set_object_limit(*limit)),
        Choice::Notes(is_on) => Ok(server.keep_notes(*is_on)),
    }
}

/// The object that the host makes at the number 4.
const FOURTH: FlatObjectId = id!(FIRST, 4 @ 4, serial 3);

/// The same with a serial that it does not have.
const STALE: FlatObjectId = id!(FIRST, 4 @ 4, serial 2);

/// The `pad` that the first client binds.
const PAD: FlatObjectId = id!(FIRST, 4 @ 3, serial 2);

/// The first global.
const GLOBAL: FlatGlobalId = FlatGlobalId { serial: 1, name: 1 };

/// `pad.make` by the object 4, with the new id 5.
const MAKE: &[u32] = &[4, 0x000c0003, 5];

/// `pad.make` by the object 3, with the new id 4.
const MAKE_4: &[u32] = &[3, 0x000c0003, 4];

/// `pad.make` by the object 4, with the new id 6.
const MAKE_6: &[u32] = &[4, 0x000c0003, 6];

/// The runs, each of a new session.
static RUNS: [Run<Act>; 8] = [
    // The client has the display, its registry and the `pad` at the numbers 1 to 3: 4 is next. The object that the host makes there
    // gets a version that the interface has, and so does what its requests make.
    Run {
        name: "an object at a number",
        first: BOUND,
        entries: &[
            (Act::Choose(Choice::Create(FIRST, 4, 1, 3, 44)), "NotFree"),
            (Act::Choose(Choice::Create(FIRST, 4, 1, 5, 44)), "NotFree"),
            (
                Act::Choose(Choice::Create(FIRST, 4, 1, 0xff000000, 44)),
                "NotFree",
            ),
            (
                Act::Choose(Choice::Create(FIRST, 5, 1, 4, 44)),
                "UnknownInterface",
            ),
            (
                Act::Choose(Choice::Create(SECOND, 4, 1, 4, 44)),
                "InvalidId",
            ),
            (Act::Choose(Choice::Create(FIRST, 4, 1, 4, 44)), "Ok 4@4"),
            (Act::Choose(Choice::Create(FIRST, 4, 1, 4, 44)), "NotFree"),
            (Act::Choose(Choice::ByNumber(FIRST, 4)), "Ok 4@4 data 44"),
            (Act::Choose(Choice::ByNumber(FIRST, 2)), "Ok 2@2"),
            (Act::Choose(Choice::ByNumber(FIRST, 5)), "InvalidId"),
            (
                Act::Choose(Choice::All(FIRST, 4)),
                "Ok 4 1@1 2@2 4@3 data 33 4@4 data 44",
            ),
            (Act::Choose(Choice::All(FIRST, 1)), "TooSmall 4 1@1"),
            (Act::Choose(Choice::All(SECOND, 0)), "InvalidId 0"),
            (Act::Choose(Choice::Version(FOURTH, 0)), "VersionTooHigh"),
            (Act::Choose(Choice::Version(FOURTH, 3)), "VersionTooHigh"),
            (Act::Choose(Choice::Version(STALE, 2)), "InvalidId"),
            (Act::Choose(Choice::Version(FOURTH, 2)), "Ok"),
            (Act::Received(FIRST, MAKE, &[]), "Ok"),
            (
                Act::Next(FIRST, 1, 0),
                "Ok kind 1 opcode 3 data 44 version 2 arguments 1 by 4@4 made 4@5 (5: 0 object 4@5)",
            ),
            (Act::FinishWith(FIRST, 55), "Ok kept true"),
        ],
    },
    // A request makes the object 4, which gets the data 0. It is claimed once, by the first version that the interface has; the request that it
    // makes then is of that version. At the next number, and at 0, a new object is made. The registry at 2 has no data, and is of another
    // interface.
    Run {
        name: "an object is claimed",
        first: BOUND,
        entries: &[
            (Act::Received(FIRST, MAKE_4, &[]), "Ok"),
            (
                Act::Next(FIRST, 1, 0),
                "Ok kind 1 opcode 3 data 33 version 2 arguments 1 by 4@3 made 4@4 (5: 0 object 4@4)",
            ),
            (Act::FinishWith(FIRST, 0), "Ok kept true"),
            (
                Act::Choose(Choice::Claim(FIRST, 4, 0, 4, 44)),
                "VersionTooHigh",
            ),
            (
                Act::Choose(Choice::Claim(FIRST, 4, 3, 4, 44)),
                "VersionTooHigh",
            ),
            (Act::Choose(Choice::ByNumber(FIRST, 4)), "Ok 4@4"),
            (Act::Choose(Choice::Claim(FIRST, 4, 1, 4, 44)), "Ok 4@4"),
            (Act::Choose(Choice::ByNumber(FIRST, 4)), "Ok 4@4 data 44"),
            (Act::Choose(Choice::Claim(FIRST, 4, 1, 4, 45)), "NotFree"),
            (Act::Choose(Choice::Claim(FIRST, 4, 1, 2, 45)), "NotFree"),
            (Act::Choose(Choice::Claim(FIRST, 4, 1, 6, 45)), "NotFree"),
            (
                Act::Choose(Choice::Claim(FIRST, 5, 1, 5, 45)),
                "UnknownInterface",
            ),
            (
                Act::Choose(Choice::Claim(FIRST, 5, 1, 0, 45)),
                "UnknownInterface",
            ),
            (Act::Choose(Choice::Claim(SECOND, 4, 1, 4, 45)), "InvalidId"),
            (Act::Choose(Choice::Claim(SECOND, 4, 1, 0, 45)), "InvalidId"),
            (Act::Choose(Choice::Claim(FIRST, 4, 1, 5, 55)), "Ok 4@5"),
            (
                Act::Choose(Choice::Claim(FIRST, 4, 9, 0, 66)),
                "Ok 4@4278190080",
            ),
            (
                Act::Choose(Choice::All(FIRST, 4)),
                "TooSmall 6 1@1 2@2 4@3 data 33 4@4 data 44",
            ),
            (Act::Choose(Choice::ByNumber(FIRST, 5)), "Ok 4@5 data 55"),
            (
                Act::Choose(Choice::ByNumber(FIRST, 0xff000000)),
                "Ok 4@4278190080 data 66",
            ),
            (Act::Received(FIRST, MAKE_6, &[]), "Ok"),
            (
                Act::Next(FIRST, 1, 0),
                "Ok kind 1 opcode 3 data 44 version 1 arguments 1 by 4@4 made 4@6 (5: 0 object 4@6)",
            ),
        ],
    },
    // As long as names are kept, a new global gets one that was never in use. Then it gets the least free one.
    Run {
        name: "names are kept",
        first: &[],
        entries: &[
            (Act::Choose(Choice::Names(1)), "Ok"),
            (Act::Global(70, 1, &[]), "Ok global 1:1"),
            (Act::Choose(Choice::Remove(GLOBAL)), "Ok"),
            (Act::NextGlobal, "Ok global 2:2"),
            (Act::Global(70, 1, &[]), "Ok global 2:2"),
            (Act::Choose(Choice::Names(0)), "Ok"),
            (Act::NextGlobal, "Ok global 1:3"),
            (Act::Global(70, 1, &[]), "Ok global 1:3"),
        ],
    },
    // The registry's global waits for the first client, and nothing for the second.
    Run {
        name: "one client is flushed",
        first: BOUND,
        entries: &[
            (Act::Insert(8, 1, &[]), "Ok client 1:2"),
            (Act::Choose(Choice::Flush(SECOND)), "WouldBlock"),
            (Act::Choose(Choice::Flush(FIRST)), "Ok"),
            (
                Act::ToSend(FIRST),
                "Ok [ 02 00 00 00 00 00 18 00 01 00 00 00 04 00 00 00 70 61 64 00 02 00 00 00 ] [ ]",
            ),
            (Act::Sent(FIRST, 24), "Ok"),
            (Act::Choose(Choice::Flush(FIRST)), "WouldBlock"),
            (Act::Send(PAD, MOVED, &[arg!(int: -1)], &[]), "Ok"),
            (Act::Choose(Choice::Flush(FIRST)), "Ok"),
            (
                Act::ToSend(FIRST),
                "Ok [ 03 00 00 00 00 00 0c 00 ff ff ff ff ] [ ]",
            ),
            (
                Act::Choose(Choice::Flush(FlatClientId { serial: 9, slot: 0 })),
                "InvalidId",
            ),
        ],
    },
    // What arrived waits until an action is read of it, and what is to be sent until it was: in the session, and then ready. The
    // registry's global is to be sent from the beginning.
    Run {
        name: "so much waits",
        first: BOUND,
        entries: &[
            (Act::Choose(Choice::Waiting(FIRST)), "Ok 0+0 24+0"),
            (Act::Received(FIRST, &[3, 0x000c0000], &[42]), "Ok"),
            (Act::Choose(Choice::Waiting(FIRST)), "Ok 8+1 24+0"),
            (Act::Next(FIRST, 2, 0), "WouldBlock"),
            (Act::Received(FIRST, &[5], &[]), "Ok"),
            (Act::Choose(Choice::Waiting(FIRST)), "Ok 12+1 24+0"),
            (
                Act::Next(FIRST, 2, 0),
                "Ok kind 1 data 33 arguments 2 by 4@3 (0: 5) (7: 42)",
            ),
            (Act::Choose(Choice::Waiting(FIRST)), "Ok 0+0 24+0"),
            (Act::Choose(Choice::Flush(FIRST)), "Ok"),
            (Act::Send(PAD, GIVEN, &[arg!(fd: 99)], &[]), "Ok"),
            (Act::Choose(Choice::Waiting(FIRST)), "Ok 0+0 32+1"),
            (Act::Sent(FIRST, 4), "Ok"),
            (Act::Choose(Choice::Waiting(FIRST)), "Ok 0+0 28+1"),
            (Act::Choose(Choice::Waiting(SECOND)), "InvalidId"),
        ],
    },
    // The client has three objects with its display. It is told that it may not have a fourth, and killed.
    Run {
        name: "the limit of objects is passed",
        first: BOUND,
        entries: &[
            (Act::Choose(Choice::Limit(3)), "Ok"),
            (Act::Received(FIRST, MAKE_4, &[]), "Ok"),
            (Act::Next(FIRST, 1, 0), "Closed"),
            (Act::Next(FIRST, 1, 0), "Closed"),
            (
                Act::ToSend(FIRST),
                "Ok [ 02 00 00 00 00 00 18 00 01 00 00 00 04 00 00 00 70 61 64 00 02 00 00 00 01 00 00 00 00 00 34 00 01 00 00 00 02 00 00 00 \
                 1d 00 00 00 54 6f 6f 20 6d 61 6e 79 20 6f 62 6a 65 63 74 73 3a 20 61 74 20 6d 6f 73 74 20 33 2e 00 00 00 00 ] [ ]",
            ),
        ],
    },
    // At 0 there is no limit.
    Run {
        name: "the limit of objects is lifted",
        first: BOUND,
        entries: &[
            (Act::Choose(Choice::Limit(3)), "Ok"),
            (Act::Choose(Choice::Limit(0)), "Ok"),
            (Act::Received(FIRST, MAKE_4, &[]), "Ok"),
            (
                Act::Next(FIRST, 1, 0),
                "Ok kind 1 opcode 3 data 33 version 2 arguments 1 by 4@3 made 4@4 (5: 0 object 4@4)",
            ),
        ],
    },
    // Notes that are not kept are dropped by a cleanup: those of the core, and those that were taken from it. What is noted after it is
    // there until the next one.
    Run {
        name: "notes are not kept",
        first: BOUND,
        entries: &[
            (Act::Insert(8, 1, &[]), "Ok client 1:2"),
            (Act::Note, "Ok kind 1 client 0:1"),
            (Act::Choose(Choice::Notes(0)), "Ok"),
            (Act::Kill(FIRST), "Ok"),
            (Act::Cleanup, "Ok"),
            (Act::Note, "WouldBlock"),
            (Act::Kill(SECOND), "Ok"),
            (Act::Note, "Ok kind 2 client 1:2"),
            (Act::Choose(Choice::Notes(1)), "Ok"),
            (Act::Cleanup, "Ok"),
            (Act::Insert(9, 1, &[]), "Ok client 0:3"),
            (Act::Cleanup, "Ok"),
            (Act::Note, "Ok kind 1 client 0:3"),
            (Act::Note, "WouldBlock"),
        ],
    },
];

/// Each of them tells what it has to.
#[test]
fn chosen(rt: HostRuntime) -> Result<(), Fail> {
    for run in &RUNS {
        run_tells::<Server>(&rt, run, None, false)?;
    }
    Ok(())
}
