//! The runs for which each allocation is refused in turn, and in which each receive and each send fails in turn.

use super::drill::{Entry, Run, drill};
use super::faults::{fails_in_turn, faults_are_made_up_for};
use server_test_kit::arrivals::{
    BIND, BIND_NULL, BIND_VERSION_1, DESTROY, GET_REGISTRY, GIVE, MAKE, SYNC, SYNC_AT_4, SYNC_AT_5,
    SYNC_AT_SERVER,
};
use server_test_kit::steps::Call;
use server_test_kit::values::{BOUND, Event, FIRST, Named, SECOND, Thing};
use std::process::Abort;
use std::test::Fail;
use test_kit::cuts::Stream;
use test_kit::log::is_text;
use test_kit::quad::{QUAD, quad_table};
use wl_wire::Protocol;

/// The first object that the server makes for the first client.
const MADE: Thing = Thing(FIRST, 0xFF00_0000, 1, QUAD);

/// The second.
const SECOND_MADE: Thing = Thing(FIRST, 0xFF00_0001, 2, QUAD);

/// A bind of the global 1 with a name of 1400 bytes.
const LONG_BIND: Stream = Stream {
    front: &[2, 0, 0, 0, 0, 0, 0x94, 5, 1, 0, 0, 0, 0x79, 5, 0, 0],
    filled: 1400,
    back: &[0, 0, 0, 0, 3, 0, 0, 0, 3, 0, 0, 0],
};

/// Registries and binds.
static REGISTRIES_AND_BINDS: [Run; 3] = [
    // A registry is told.
    Run {
        name: "a registry is told",
        entries: &[
            Entry::Do(Call::Insert(true), "client 0, 1\n"),
            Entry::Do(Call::Global(QUAD, 3), "global 1, 1\n"),
            Entry::Do(Call::Arrive(FIRST, &GET_REGISTRY), ""),
            Entry::Do(Call::Next(FIRST), "Io error: would block\n"),
            Entry::Do(Call::FlushAll, "done\n"),
            Entry::Do(
                Call::TakeSent(FIRST),
                "02 00 00 00 00 00 1c 00 01 00 00 00 05 00 00 00 71 75 61 64 00 00 00 00 03 00 00 00\n",
            ),
            Entry::Do(Call::Disable(Named(1, 1)), ""),
            Entry::Do(Call::FlushAll, "done\n"),
            Entry::Do(
                Call::TakeSent(FIRST),
                "02 00 00 00 01 00 0c 00 01 00 00 00\n",
            ),
            Entry::Do(Call::Disable(Named(1, 1)), ""),
            Entry::Do(Call::FlushAll, "done\n"),
            Entry::Do(Call::TakeSent(FIRST), ""),
            Entry::Do(Call::Remove(Named(1, 1)), ""),
            Entry::Do(Call::Global(QUAD, 3), "global 1, 2\n"),
            Entry::Do(Call::FlushAll, "done\n"),
            Entry::Do(
                Call::TakeSent(FIRST),
                "02 00 00 00 00 00 1c 00 01 00 00 00 05 00 00 00 71 75 61 64 00 00 00 00 03 00 00 00\n",
            ),
            Entry::Do(Call::Notes, "initialized 0, 1\n"),
        ],
        dies: None,
        error_bytes: 0,
        sends: 3,
    },
    // An object is bound.
    Run {
        name: "an object is bound",
        entries: &[
            Entry::Do(Call::Insert(true), "client 0, 1\n"),
            Entry::Do(Call::Global(QUAD, 3), "global 1, 1\n"),
            Entry::Do(Call::Arrive(FIRST, &GET_REGISTRY), ""),
            Entry::Do(Call::Arrive(FIRST, &BIND), ""),
            Entry::Do(Call::Next(FIRST), "global 1, 1 bound as 3, 2, 4 of 0\n"),
            Entry::Do(Call::FinishBind(FIRST, 9), "finished\n"),
            Entry::Do(Call::Arrive(FIRST, &MAKE), ""),
            Entry::Do(
                Call::Next(FIRST),
                "request 1 to 3, 2, 4 of 0: new 4, 3, 4 of 0, which makes 4, 3, 4 of 0\n",
            ),
            Entry::Do(Call::Finish(FIRST, Some(5)), "finished\n"),
            Entry::Do(Call::ArriveWith(FIRST, &GIVE, 7), ""),
            Entry::Do(
                Call::Next(FIRST),
                "request 4 to 3, 2, 4 of 0: no string: 1 bytes: fd 7\n",
            ),
            Entry::Do(Call::Finish(FIRST, None), "finished\n"),
            Entry::Do(Call::Arrive(FIRST, &DESTROY), ""),
            Entry::Do(
                Call::Next(FIRST),
                "request 2 to 3, 2, 4 of 0, which ends it\n",
            ),
            Entry::Do(Call::Finish(FIRST, None), "finished\n"),
            Entry::Do(Call::Flush(FIRST), "done\n"),
            Entry::Do(
                Call::TakeSent(FIRST),
                "02 00 00 00 00 00 1c 00 01 00 00 00 05 00 00 00 71 75 61 64 00 00 00 00 03 00 00 00 01 00 00 00 01 00 0c 00 03 00 00 00\n",
            ),
            Entry::Do(
                Call::Notes,
                "initialized 0, 1\ndestroyed 3, 2, 4 of 0 with 9\n",
            ),
        ],
        dies: None,
        error_bytes: 0,
        sends: 1,
    },
    // A sync is answered.
    Run {
        name: "a sync is answered",
        entries: &[
            Entry::Do(Call::Insert(true), "client 0, 1\n"),
            Entry::Do(Call::Arrive(FIRST, &SYNC), ""),
            Entry::Do(Call::Next(FIRST), "Io error: would block\n"),
            Entry::Do(Call::Flush(FIRST), "done\n"),
            Entry::Do(
                Call::TakeSent(FIRST),
                "02 00 00 00 00 00 0c 00 00 00 00 00 01 00 00 00 01 00 0c 00 02 00 00 00\n",
            ),
            Entry::Do(Call::Notes, "initialized 0, 1\n"),
        ],
        dies: None,
        error_bytes: 0,
        sends: 1,
    },
];

/// Errors.
static ERRORS: [Run; 6] = [
    // A new id that is not the next.
    Run {
        name: "a new id that is not the next",
        entries: &[
            Entry::Do(Call::Insert(true), "client 0, 1\n"),
            Entry::Do(Call::Arrive(FIRST, &SYNC_AT_5), ""),
            Entry::Do(Call::Next(FIRST), "Io error: broken pipe\n"),
            Entry::Do(
                Call::TakeSent(FIRST),
                "01 00 00 00 00 00 28 00 01 00 00 00 00 00 00 00 13 00 00 00 49 6e 76 61 6c 69 64 20 6e 65 77 5f 69 64 3a 20 35 2e 00 00\n",
            ),
            Entry::Do(
                Call::Notes,
                "initialized 0, 1\ndisconnected 0, 1: error 0 on wl_display 1: Invalid new_id: 5.\n",
            ),
            Entry::Do(Call::Next(FIRST), "Io error: broken pipe\n"),
        ],
        dies: Some(2),
        error_bytes: 40,
        sends: 1,
    },
    // A new id of the server's range.
    Run {
        name: "a new id of the server's range",
        entries: &[
            Entry::Do(Call::Insert(true), "client 0, 1\n"),
            Entry::Do(Call::Arrive(FIRST, &SYNC_AT_SERVER), ""),
            Entry::Do(Call::Next(FIRST), "Io error: broken pipe\n"),
            Entry::Do(
                Call::TakeSent(FIRST),
                "01 00 00 00 00 00 30 00 01 00 00 00 00 00 00 00 1c 00 00 00 49 6e 76 61 6c 69 64 20 6e 65 77 5f 69 64 3a 20 34 32 37 38 31 39 30 30 38 30 2e 00\n",
            ),
            Entry::Do(
                Call::Notes,
                "initialized 0, 1\ndisconnected 0, 1: error 0 on wl_display 1: Invalid new_id: 4278190080.\n",
            ),
        ],
        dies: Some(2),
        error_bytes: 48,
        sends: 1,
    },
    // A bind without a name.
    Run {
        name: "a bind without a name",
        entries: &[
            Entry::Do(Call::Insert(true), "client 0, 1\n"),
            Entry::Do(Call::Global(QUAD, 3), "global 1, 1\n"),
            Entry::Do(Call::Arrive(FIRST, &GET_REGISTRY), ""),
            Entry::Do(Call::Next(FIRST), "Io error: would block\n"),
            Entry::Do(Call::FlushAll, "done\n"),
            Entry::Do(
                Call::TakeSent(FIRST),
                "02 00 00 00 00 00 1c 00 01 00 00 00 05 00 00 00 71 75 61 64 00 00 00 00 03 00 00 00\n",
            ),
            Entry::Do(Call::Arrive(FIRST, &BIND_NULL), ""),
            Entry::Do(Call::Next(FIRST), "Io error: broken pipe\n"),
            Entry::Do(
                Call::TakeSent(FIRST),
                "01 00 00 00 00 00 40 00 01 00 00 00 00 00 00 00 2c 00 00 00 49 6e 76 61 6c 69 64 20 62 69 6e 64 69 6e 67 20 6f 66 20 20 76 65 72 73 69 6f 6e 20 31 20 66 6f 72 20 67 6c 6f 62 61 6c 20 31 2e 00\n",
            ),
            Entry::Do(
                Call::Notes,
                "initialized 0, 1\ndisconnected 0, 1: error 0 on wl_display 1: Invalid binding of  version 1 for global 1.\n",
            ),
        ],
        dies: Some(7),
        error_bytes: 64,
        sends: 2,
    },
    // A bind with a long name.
    Run {
        name: "a bind with a long name",
        entries: &[
            Entry::Do(Call::Insert(true), "client 0, 1\n"),
            Entry::Do(Call::Global(QUAD, 3), "global 1, 1\n"),
            Entry::Do(Call::Disable(Named(1, 1)), ""),
            Entry::Do(Call::Arrive(FIRST, &GET_REGISTRY), ""),
            Entry::Arrive(LONG_BIND),
            Entry::Do(Call::Next(FIRST), "Io error: broken pipe\n"),
            Entry::Do(Call::TakeSent(FIRST), ""),
            Entry::Do(Call::Notes, "initialized 0, 1\ndisconnected 0, 1: closed\n"),
        ],
        dies: Some(5),
        error_bytes: 0,
        sends: 0,
    },
    // A request of a later version.
    Run {
        name: "a request of a later version",
        entries: &[
            Entry::Do(Call::Insert(true), "client 0, 1\n"),
            Entry::Do(Call::Global(QUAD, 3), "global 1, 1\n"),
            Entry::Do(Call::Arrive(FIRST, &GET_REGISTRY), ""),
            Entry::Do(Call::Arrive(FIRST, &BIND_VERSION_1), ""),
            Entry::Do(Call::Next(FIRST), "global 1, 1 bound as 3, 2, 4 of 0\n"),
            Entry::Do(Call::FinishBind(FIRST, 9), "finished\n"),
            Entry::Do(Call::Flush(FIRST), "done\n"),
            Entry::Do(
                Call::TakeSent(FIRST),
                "02 00 00 00 00 00 1c 00 01 00 00 00 05 00 00 00 71 75 61 64 00 00 00 00 03 00 00 00\n",
            ),
            Entry::Do(Call::Arrive(FIRST, &MAKE), ""),
            Entry::Do(Call::Next(FIRST), "Io error: broken pipe\n"),
            Entry::Do(
                Call::TakeSent(FIRST),
                "01 00 00 00 00 00 44 00 01 00 00 00 01 00 00 00 2e 00 00 00 69 6e 76 61 6c 69 64 20 6d 65 74 68 6f 64 20 31 20 28 73 69 6e 63 65 20 31 20 3c 20 32 29 2c 20 6f 62 6a 65 63 74 20 71 75 61 64 23 33 00 00 00\n",
            ),
            Entry::Do(
                Call::Notes,
                "initialized 0, 1\ndisconnected 0, 1: error 1 on wl_display 1: invalid method 1 (since 1 < 2), object quad#3\n",
            ),
        ],
        dies: Some(9),
        error_bytes: 68,
        sends: 2,
    },
    // An error is posted.
    Run {
        name: "an error is posted",
        entries: &[
            Entry::Do(Call::Insert(true), "client 0, 1\n"),
            Entry::Do(
                Call::Create(FIRST, QUAD, 3, 9),
                "created 4278190080, 1, 4 of 0\n",
            ),
            Entry::Do(Call::PostError(MADE, 7, "no"), ""),
            Entry::Do(
                Call::TakeSent(FIRST),
                "01 00 00 00 00 00 18 00 00 00 00 ff 07 00 00 00 03 00 00 00 6e 6f 00 00\n",
            ),
            Entry::Do(
                Call::Notes,
                "initialized 0, 1\ndisconnected 0, 1: error 7 on quad 4278190080: no\n",
            ),
        ],
        dies: Some(2),
        error_bytes: 24,
        sends: 1,
    },
];

/// Objects and clients.
static OBJECTS_AND_CLIENTS: [Run; 3] = [
    // Objects are created.
    Run {
        name: "objects are created",
        entries: &[
            Entry::Do(Call::Insert(true), "client 0, 1\n"),
            Entry::Do(
                Call::Create(FIRST, QUAD, 3, 9),
                "created 4278190080, 1, 4 of 0\n",
            ),
            Entry::Do(
                Call::Create(FIRST, QUAD, 3, 8),
                "created 4278190081, 2, 4 of 0\n",
            ),
            Entry::Do(Call::Send(Event::Moved(MADE, 7)), "done\n"),
            Entry::Do(Call::Send(Event::Made(MADE, SECOND_MADE)), "done\n"),
            Entry::Do(Call::Flush(FIRST), "done\n"),
            Entry::Do(
                Call::TakeSent(FIRST),
                "00 00 00 ff 00 00 0c 00 07 00 00 00 00 00 00 ff 01 00 0c 00 01 00 00 ff\n",
            ),
            Entry::Do(Call::Send(Event::Bare(MADE, 2)), "done\n"),
            Entry::Do(Call::Destroy(SECOND_MADE), "done\n"),
            Entry::Do(Call::Flush(FIRST), "done\n"),
            Entry::Do(Call::TakeSent(FIRST), "00 00 00 ff 02 00 08 00\n"),
            Entry::Do(Call::Cleanup, "out:\n"),
            Entry::Do(
                Call::Notes,
                "initialized 0, 1\ndestroyed 4278190080, 1, 4 of 0 with 9\ndestroyed 4278190081, 2, 4 of 0 with 8\n",
            ),
        ],
        dies: None,
        error_bytes: 0,
        sends: 2,
    },
    // The program destroys a sender.
    Run {
        name: "the program destroys a sender",
        entries: &[
            Entry::Do(Call::Insert(true), "client 0, 1\n"),
            Entry::Do(Call::Global(QUAD, 3), "global 1, 1\n"),
            Entry::Do(Call::Arrive(FIRST, &GET_REGISTRY), ""),
            Entry::Do(Call::Arrive(FIRST, &BIND), ""),
            Entry::Do(Call::Next(FIRST), "global 1, 1 bound as 3, 2, 4 of 0\n"),
            Entry::Do(Call::FinishBind(FIRST, 9), "finished\n"),
            Entry::Do(Call::Flush(FIRST), "done\n"),
            Entry::Do(
                Call::TakeSent(FIRST),
                "02 00 00 00 00 00 1c 00 01 00 00 00 05 00 00 00 71 75 61 64 00 00 00 00 03 00 00 00\n",
            ),
            Entry::Do(Call::Arrive(FIRST, &DESTROY), ""),
            Entry::Do(
                Call::Next(FIRST),
                "request 2 to 3, 2, 4 of 0, which ends it\n",
            ),
            Entry::Do(Call::Destroy(BOUND), "done\n"),
            Entry::Do(Call::Finish(FIRST, None), "finished\n"),
            Entry::Do(Call::Flush(FIRST), "done\n"),
            Entry::Do(
                Call::TakeSent(FIRST),
                "01 00 00 00 01 00 0c 00 03 00 00 00\n",
            ),
            Entry::Do(Call::Notes, "initialized 0, 1\n"),
            Entry::Do(Call::Cleanup, "out:\n"),
            Entry::Do(Call::Notes, "destroyed 3, 2, 4 of 0 with 9\n"),
        ],
        dies: None,
        error_bytes: 0,
        sends: 2,
    },
    // A slot is used again.
    Run {
        name: "a slot is used again",
        entries: &[
            Entry::Do(Call::Insert(true), "client 0, 1\n"),
            Entry::Do(Call::Insert(true), "client 1, 2\n"),
            Entry::Do(
                Call::Create(FIRST, QUAD, 3, 9),
                "created 4278190080, 1, 4 of 0\n",
            ),
            Entry::Do(Call::Kill(FIRST), ""),
            Entry::Do(Call::Cleanup, "out: client 0, 1 with 0 sends\n"),
            Entry::Do(
                Call::Notes,
                "initialized 0, 1\ninitialized 1, 2\ndisconnected 0, 1: closed\ndestroyed 4278190080, 1, 4 of 0 with 9\n",
            ),
            Entry::Do(Call::Insert(true), "client 0, 3\n"),
        ],
        dies: Some(3),
        error_bytes: 0,
        sends: 0,
    },
];

/// Two clients, the first of which breaks the protocol in the end.
static TWO_CLIENTS: Run = Run {
    name: "two clients",
    entries: &[
        Entry::Do(Call::Insert(true), "client 0, 1\n"),
        Entry::Do(Call::Insert(true), "client 1, 2\n"),
        Entry::Do(Call::Global(QUAD, 3), "global 1, 1\n"),
        Entry::Do(Call::Arrive(FIRST, &GET_REGISTRY), ""),
        Entry::Do(Call::Arrive(FIRST, &BIND), ""),
        Entry::Do(Call::Next(FIRST), "global 1, 1 bound as 3, 2, 4 of 0\n"),
        Entry::Do(Call::FinishBind(FIRST, 9), "finished\n"),
        Entry::Do(Call::Arrive(SECOND, &GET_REGISTRY), ""),
        Entry::Do(Call::Arrive(SECOND, &BIND), ""),
        Entry::Do(Call::Next(SECOND), "global 1, 1 bound as 3, 2, 4 of 1\n"),
        Entry::Do(Call::FinishBind(SECOND, 8), "finished\n"),
        Entry::Do(Call::Flush(FIRST), "done\n"),
        Entry::Do(Call::Global(QUAD, 2), "global 2, 2\n"),
        Entry::Do(Call::FlushAll, "done\n"),
        Entry::Do(Call::Arrive(FIRST, &DESTROY), ""),
        Entry::Do(
            Call::Next(FIRST),
            "request 2 to 3, 2, 4 of 0, which ends it\n",
        ),
        Entry::Do(Call::Finish(FIRST, None), "finished\n"),
        Entry::Do(Call::Arrive(SECOND, &DESTROY), ""),
        Entry::Do(
            Call::Next(SECOND),
            "request 2 to 3, 2, 4 of 1, which ends it\n",
        ),
        Entry::Do(Call::Finish(SECOND, None), "finished\n"),
        Entry::Do(Call::Disable(Named(2, 2)), ""),
        Entry::Do(Call::FlushAll, "done\n"),
        Entry::Do(
            Call::TakeSent(SECOND),
            "02 00 00 00 00 00 1c 00 01 00 00 00 05 00 00 00 71 75 61 64 00 00 00 00 03 00 00 00 02 00 00 00 00 00 1c 00 02 00 00 00 05 00 00 00 71 75 61 64 00 00 00 00 02 00 00 00\n01 00 00 00 01 00 0c 00 03 00 00 00 02 00 00 00 01 00 0c 00 02 00 00 00\n",
        ),
        Entry::Do(Call::Arrive(FIRST, &SYNC_AT_5), ""),
        Entry::Do(Call::Next(FIRST), "Io error: broken pipe\n"),
        Entry::Do(Call::Flush(FIRST), "done\n"),
        Entry::Do(Call::Flush(FIRST), "done\n"),
        Entry::Do(
            Call::TakeSent(FIRST),
            "02 00 00 00 00 00 1c 00 01 00 00 00 05 00 00 00 71 75 61 64 00 00 00 00 03 00 00 00\n02 00 00 00 00 00 1c 00 02 00 00 00 05 00 00 00 71 75 61 64 00 00 00 00 02 00 00 00\n01 00 00 00 01 00 0c 00 03 00 00 00 02 00 00 00 01 00 0c 00 02 00 00 00\n01 00 00 00 00 00 28 00 01 00 00 00 00 00 00 00 13 00 00 00 49 6e 76 61 6c 69 64 20 6e 65 77 5f 69 64 3a 20 35 2e 00 00\n",
        ),
        Entry::Do(Call::Arrive(SECOND, &SYNC_AT_4), ""),
        Entry::Do(Call::Next(SECOND), "Io error: would block\n"),
        Entry::Do(Call::Flush(SECOND), "done\n"),
        Entry::Do(
            Call::TakeSent(SECOND),
            "04 00 00 00 00 00 0c 00 00 00 00 00 01 00 00 00 01 00 0c 00 04 00 00 00\n",
        ),
        Entry::Do(
            Call::Notes,
            "initialized 0, 1\ninitialized 1, 2\ndestroyed 3, 2, 4 of 0 with 9\ndestroyed 3, 2, 4 of 1 with 8\ndisconnected 0, 1: error 0 on wl_display 1: Invalid new_id: 5.\n",
        ),
        Entry::Do(Call::Cleanup, "out: client 0, 1 with 0 sends\n"),
        Entry::Do(Call::Notes, ""),
    ],
    dies: Some(24),
    error_bytes: 40,
    sends: 4,
};

/// The same without the first client's calls after its insertion: what the second is told, sent and noted is the same.
static SECOND_ALONE: Run = Run {
    name: "the second client alone",
    entries: &[
        Entry::Do(Call::Insert(true), "client 0, 1\n"),
        Entry::Do(Call::Insert(true), "client 1, 2\n"),
        Entry::Do(Call::Global(QUAD, 3), "global 1, 1\n"),
        Entry::Do(Call::Arrive(SECOND, &GET_REGISTRY), ""),
        Entry::Do(Call::Arrive(SECOND, &BIND), ""),
        Entry::Do(Call::Next(SECOND), "global 1, 1 bound as 3, 2, 4 of 1\n"),
        Entry::Do(Call::FinishBind(SECOND, 8), "finished\n"),
        Entry::Do(Call::Global(QUAD, 2), "global 2, 2\n"),
        Entry::Do(Call::FlushAll, "done\n"),
        Entry::Do(Call::Arrive(SECOND, &DESTROY), ""),
        Entry::Do(
            Call::Next(SECOND),
            "request 2 to 3, 2, 4 of 1, which ends it\n",
        ),
        Entry::Do(Call::Finish(SECOND, None), "finished\n"),
        Entry::Do(Call::Disable(Named(2, 2)), ""),
        Entry::Do(Call::FlushAll, "done\n"),
        Entry::Do(
            Call::TakeSent(SECOND),
            "02 00 00 00 00 00 1c 00 01 00 00 00 05 00 00 00 71 75 61 64 00 00 00 00 03 00 00 00 02 00 00 00 00 00 1c 00 02 00 00 00 05 00 00 00 71 75 61 64 00 00 00 00 02 00 00 00\n01 00 00 00 01 00 0c 00 03 00 00 00 02 00 00 00 01 00 0c 00 02 00 00 00\n",
        ),
        Entry::Do(Call::Arrive(SECOND, &SYNC_AT_4), ""),
        Entry::Do(Call::Next(SECOND), "Io error: would block\n"),
        Entry::Do(Call::Flush(SECOND), "done\n"),
        Entry::Do(
            Call::TakeSent(SECOND),
            "04 00 00 00 00 00 0c 00 00 00 00 00 01 00 00 00 01 00 0c 00 04 00 00 00\n",
        ),
        Entry::Do(
            Call::Notes,
            "initialized 0, 1\ninitialized 1, 2\ndestroyed 3, 2, 4 of 1 with 8\n",
        ),
        Entry::Do(Call::Cleanup, "out:\n"),
        Entry::Do(Call::Notes, ""),
    ],
    dies: None,
    error_bytes: 0,
    sends: 0,
};

/// Makes the runs, and fails if one is not as it has to be.
fn drill_all(rt: &(impl Abort + Print + AllocGlobal), runs: &[Run]) -> Result<(), Fail> {
    for run in runs {
        drill(rt, run)?;
    }
    Ok(())
}

#[test]
fn drill_of_registries_and_binds(rt: HostRuntime) -> Result<(), Fail> {
    drill_all(&rt, &REGISTRIES_AND_BINDS)
}

#[test]
fn drill_of_errors(rt: HostRuntime) -> Result<(), Fail> {
    drill_all(&rt, &ERRORS)
}

#[test]
fn drill_of_objects_and_clients(rt: HostRuntime) -> Result<(), Fail> {
    drill_all(&rt, &OBJECTS_AND_CLIENTS)
}

/// In each of these runs, each receive and each send of each client fails in turn.
#[test]
fn faults(rt: HostRuntime) -> Result<(), Fail> {
    for runs in [&REGISTRIES_AND_BINDS[..], &ERRORS, &OBJECTS_AND_CLIENTS] {
        for run in runs {
            fails_in_turn(&rt, run)?;
        }
    }
    Ok(())
}

/// The same of two clients; and each receive and each send of the first would block, or lacks memory. Only the last of its seven
/// receives is not made: what arrives before it breaks the protocol.
#[test]
fn faults_of_two_clients(rt: HostRuntime) -> Result<(), Fail> {
    drill(&rt, &SECOND_ALONE)?;
    let receives = fails_in_turn(&rt, &TWO_CLIENTS)?;
    assert_eq!(rt; receives, 6);
    faults_are_made_up_for(&rt, &TWO_CLIENTS)
}

/// Fails if the text of the object's id is not this; if memory is refused, it is the next time.
fn is_displayed(
    rt: &(impl Eprint + AllocGlobal),
    protocol: &Protocol,
    of: Thing,
    text: &str,
) -> Result<(), Fail> {
    for _ in 0..2 {
        if let Ok(told) = of.id().display(rt.alloc(), protocol) {
            return is_text(rt, told.as_str(), text);
        }
    }
    Err(Fail::new("memory was refused again"))
}

#[test]
fn drill_of_the_text_of_an_id(rt: HostRuntime) -> Result<(), Fail> {
    let protocol = quad_table(rt.alloc())?;
    is_displayed(&rt, &protocol, MADE, "quad@4278190080[0]")
}
