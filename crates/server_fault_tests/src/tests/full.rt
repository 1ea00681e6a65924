//! Runs in which a write sends: 4088 of the 4096 bytes of each client's buffer wait, so the next message of 12 bytes has to wait
//! for a send. Each receive and each send fails in turn, and memory does.

use super::drill::{Entry, Run, drill};
use super::faults::{fails_for_first, fails_in_turn};
use server_test_kit::arrivals::{BIND, DESTROY, GET_REGISTRY, SYNC_AT_5};
use server_test_kit::steps::Call;
use server_test_kit::values::{BOUND, Event, FIRST, Named, SECOND, THIRD, Thing};
use std::alloc::Global;
use std::process::Abort;
use std::test::Fail;
use test_kit::quad::QUAD;
use wl_wire::IoFault;

/// The first object that the server makes for the first client, which has a registry.
const MADE: Thing = Thing(FIRST, 0xFF00_0000, 2, QUAD);

/// Its creation.
const CREATE: Entry = Entry::Do(
    Call::Create(FIRST, QUAD, 3, 9),
    "created 4278190080, 2, 4 of 0\n",
);

/// A run of three clients that were told of so many globals, and then of these steps.
struct Row {
    /// What a failing row is named.
    name: &'static str,
    globals: u32,
    back: &'static [Entry],
    /// The step that kills the first client, if one does.
    dies: Option<usize>,
    /// How many bytes it is sent then.
    error_bytes: usize,
    /// How many sends to it there are.
    sends: usize,
}

/// The runs.
static ROWS: [Row; 11] = [
    // An event.
    Row {
        name: "an event",
        globals: 146,
        back: &[
            CREATE,
            Entry::Do(Call::Send(Event::Moved(MADE, 7)), "done\n"),
            Entry::Do(Call::Flush(FIRST), "done\n"),
            Entry::Sent(FIRST, &[4088, 12]),
            Entry::Do(Call::Send(Event::Bare(MADE, 2)), "done\n"),
            Entry::Do(Call::Cleanup, "out:\n"),
            Entry::Do(
                Call::Notes,
                "initialized 0, 1\ninitialized 1, 2\ninitialized 2, 3\ndestroyed 4278190080, 2, 4 of 0 with 9\n",
            ),
        ],
        dies: None,
        error_bytes: 0,
        sends: 3,
    },
    // The number of an object that the program destroys, and of one that ends by its own event, is told.
    Row {
        name: "a destroyed object",
        globals: 146,
        back: &[
            Entry::Do(Call::Arrive(FIRST, &BIND), ""),
            Entry::Do(Call::Next(FIRST), "global 1, 1 bound as 3, 2, 4 of 0\n"),
            Entry::Do(Call::FinishBind(FIRST, 9), "finished\n"),
            Entry::Do(Call::Destroy(BOUND), "done\n"),
            Entry::Do(Call::Flush(FIRST), "done\n"),
            Entry::Sent(FIRST, &[4088, 12]),
        ],
        dies: None,
        error_bytes: 0,
        sends: 2,
    },
    Row {
        name: "an event that ends its sender",
        globals: 146,
        back: &[
            Entry::Do(Call::Arrive(FIRST, &BIND), ""),
            Entry::Do(Call::Next(FIRST), "global 1, 1 bound as 3, 2, 4 of 0\n"),
            Entry::Do(Call::FinishBind(FIRST, 9), "finished\n"),
            Entry::Do(Call::Send(Event::Bare(BOUND, 2)), "done\n"),
            Entry::Do(Call::Flush(FIRST), "done\n"),
            Entry::Sent(FIRST, &[4096, 12]),
        ],
        dies: None,
        error_bytes: 0,
        sends: 2,
    },
    // The end of a request that ends its sender.
    Row {
        name: "the end of a destructor",
        globals: 146,
        back: &[
            Entry::Do(Call::Arrive(FIRST, &BIND), ""),
            Entry::Do(Call::Next(FIRST), "global 1, 1 bound as 3, 2, 4 of 0\n"),
            Entry::Do(Call::FinishBind(FIRST, 9), "finished\n"),
            Entry::Do(Call::Arrive(FIRST, &DESTROY), ""),
            Entry::Do(
                Call::Next(FIRST),
                "request 2 to 3, 2, 4 of 0, which ends it\n",
            ),
            Entry::Do(Call::Finish(FIRST, None), "finished\n"),
            Entry::Do(Call::Flush(FIRST), "done\n"),
            Entry::Sent(FIRST, &[4088, 12]),
            Entry::Do(
                Call::Notes,
                "initialized 0, 1\ninitialized 1, 2\ninitialized 2, 3\ndestroyed 3, 2, 4 of 0 with 9\n",
            ),
        ],
        dies: None,
        error_bytes: 0,
        sends: 2,
    },
    // A sync, whose `done` has no room; and a registry, of whose 146 globals the first has none.
    Row {
        name: "the end of a callback",
        globals: 146,
        back: &[
            Entry::Do(
                Call::Arrive(FIRST, &[1, 0, 0, 0, 0, 0, 12, 0, 3, 0, 0, 0]),
                "",
            ),
            Entry::Do(Call::Next(FIRST), "Io error: would block\n"),
            Entry::Do(Call::Flush(FIRST), "done\n"),
            Entry::Sent(FIRST, &[4088, 24]),
        ],
        dies: None,
        error_bytes: 0,
        sends: 2,
    },
    Row {
        name: "another registry",
        globals: 146,
        back: &[
            Entry::Do(
                Call::Arrive(FIRST, &[1, 0, 0, 0, 1, 0, 12, 0, 3, 0, 0, 0]),
                "",
            ),
            Entry::Do(Call::Next(FIRST), "Io error: would block\n"),
            Entry::Do(Call::Flush(FIRST), "done\n"),
            Entry::Sent(FIRST, &[4088, 4088]),
        ],
        dies: None,
        error_bytes: 0,
        sends: 2,
    },
    // Two syncs, if 4060 bytes wait: the second `done` fills the buffer, and the `delete_id` behind it has no room.
    Row {
        name: "the number of a callback",
        globals: 145,
        back: &[
            Entry::Do(
                Call::Arrive(
                    FIRST,
                    &[
                        1, 0, 0, 0, 0, 0, 12, 0, 3, 0, 0, 0, 1, 0, 0, 0, 0, 0, 12, 0, 3, 0, 0, 0,
                    ],
                ),
                "",
            ),
            Entry::Do(Call::Next(FIRST), "Io error: would block\n"),
            Entry::Do(Call::Flush(FIRST), "done\n"),
            Entry::Sent(FIRST, &[4096, 12]),
        ],
        dies: None,
        error_bytes: 0,
        sends: 2,
    },
    // Errors: the first of the two sends is that of the write, and the second the flush behind it.
    Row {
        name: "an error of the program",
        globals: 146,
        back: &[
            CREATE,
            Entry::Do(Call::PostError(MADE, 7, "no"), ""),
            Entry::Sent(FIRST, &[4088, 24]),
            Entry::Do(
                Call::Notes,
                "initialized 0, 1\ninitialized 1, 2\ninitialized 2, 3\ndisconnected 0, 1: error 7 on quad 4278190080: no\n",
            ),
        ],
        dies: Some(156),
        error_bytes: 24,
        sends: 2,
    },
    Row {
        name: "an error of a reading",
        globals: 146,
        back: &[
            Entry::Do(Call::Arrive(FIRST, &SYNC_AT_5), ""),
            Entry::Do(Call::Next(FIRST), "Io error: broken pipe\n"),
            Entry::Sent(FIRST, &[4088, 40]),
            Entry::Do(
                Call::Notes,
                "initialized 0, 1\ninitialized 1, 2\ninitialized 2, 3\ndisconnected 0, 1: error 0 on wl_display 1: Invalid new_id: 5.\n",
            ),
        ],
        dies: Some(156),
        error_bytes: 40,
        sends: 2,
    },
    // A global is disabled, of which each client is told.
    Row {
        name: "a disabled global",
        globals: 146,
        back: &[
            Entry::Do(Call::Disable(Named(1, 1)), ""),
            Entry::Do(Call::FlushAll, "done\n"),
            Entry::Sent(FIRST, &[4088, 12]),
            Entry::Sent(SECOND, &[4088, 12]),
            Entry::Sent(THIRD, &[4088, 12]),
        ],
        dies: None,
        error_bytes: 0,
        sends: 2,
    },
    // A cleanup sends what waits for a killed client, whether that works or not.
    Row {
        name: "a cleanup",
        globals: 146,
        back: &[
            Entry::Do(Call::Kill(FIRST), ""),
            Entry::Do(Call::Cleanup, "out: client 0, 1 with 1 sends\n"),
            Entry::Do(
                Call::Notes,
                "initialized 0, 1\ninitialized 1, 2\ninitialized 2, 3\ndisconnected 0, 1: closed\n",
            ),
            Entry::Global(147),
            Entry::Do(Call::FlushAll, "done\n"),
            Entry::Sent(SECOND, &[4088, 28]),
            Entry::Sent(THIRD, &[4088, 28]),
        ],
        dies: None,
        error_bytes: 0,
        sends: 1,
    },
];

/// All three clients are told of one more global.
static ONE_MORE: Row = Row {
    name: "147 globals",
    globals: 146,
    back: &[
        Entry::Global(147),
        Entry::Do(Call::FlushAll, "done\n"),
        Entry::Sent(FIRST, &[4088, 28]),
        Entry::Sent(SECOND, &[4088, 28]),
        Entry::Sent(THIRD, &[4088, 28]),
        Entry::Global(148),
        Entry::Do(
            Call::Notes,
            "initialized 0, 1\ninitialized 1, 2\ninitialized 2, 3\n",
        ),
    ],
    dies: None,
    error_bytes: 0,
    sends: 3,
};

/// The same, if the first of them cannot be written to.
static ONE_MORE_BUT_FIRST: Row = Row {
    name: "147 globals, of which one client is not told",
    globals: 146,
    back: &[
        Entry::Do(Call::AcceptFault(FIRST, IoFault::Pipe), ""),
        Entry::Global(147),
        Entry::Do(Call::FlushAll, "done\n"),
        Entry::Sent(SECOND, &[4088, 28]),
        Entry::Sent(THIRD, &[4088, 28]),
        Entry::Global(148),
        Entry::Do(
            Call::Notes,
            "initialized 0, 1\ninitialized 1, 2\ninitialized 2, 3\ndisconnected 0, 1: closed\n",
        ),
    ],
    dies: Some(156),
    error_bytes: 0,
    sends: 1,
};

/// Three clients are inserted, each of which makes a registry.
static THREE: [Entry; 9] = [
    Entry::Do(Call::Insert(true), "client 0, 1\n"),
    Entry::Do(Call::Insert(true), "client 1, 2\n"),
    Entry::Do(Call::Insert(true), "client 2, 3\n"),
    Entry::Do(Call::Arrive(FIRST, &GET_REGISTRY), ""),
    Entry::Do(Call::Next(FIRST), "Io error: would block\n"),
    Entry::Do(Call::Arrive(SECOND, &GET_REGISTRY), ""),
    Entry::Do(Call::Next(SECOND), "Io error: would block\n"),
    Entry::Do(Call::Arrive(THIRD, &GET_REGISTRY), ""),
    Entry::Do(Call::Next(THIRD), "Io error: would block\n"),
];

/// Puts the steps by which three clients have a registry each, and so many globals are created.
fn push_three(entries: &mut Vec<Entry>, globals: u32) -> Result<(), Fail> {
    entries.extend_from_slice(&THREE)?;
    for name in 1..=globals {
        entries.push(Entry::Global(name))?;
    }
    Ok(())
}

/// The steps of the run.
fn steps_of(alloc: Global, row: &Row) -> Result<Vec<Entry>, Fail> {
    let mut entries = Vec::new(alloc);
    push_three(&mut entries, row.globals)?;
    entries.extend_from_slice(row.back)?;
    Ok(entries)
}

/// What a run is tried by.
#[derive(Clone, Copy)]
enum Trial {
    /// By memory that is refused.
    Memory,
    /// By transports that fail.
    Transports,
    /// By the first client's transport, which fails in the steps after the globals.
    FirstTransport,
}

/// Makes the run, and fails if it is not as it has to be.
fn tried(rt: &(impl Abort + Print + AllocGlobal), trial: Trial, row: &Row) -> Result<(), Fail> {
    let entries = steps_of(rt.alloc(), row)?;
    let run = Run {
        name: row.name,
        entries: entries.as_slice(),
        dies: row.dies,
        error_bytes: row.error_bytes,
        sends: row.sends,
    };
    match trial {
        Trial::Memory => drill(rt, &run),
        Trial::Transports => fails_in_turn(rt, &run).map(|_| ()),
        Trial::FirstTransport => {
            let from = entries.len().saturating_sub(row.back.len());
            fails_for_first(rt, &run, from).map(|_| ())
        }
    }
}

#[test]
fn drill_of_147_globals(rt: HostRuntime) -> Result<(), Fail> {
    tried(&rt, Trial::Memory, &ONE_MORE)
}

#[test]
fn drill_of_a_client_that_cannot_be_told(rt: HostRuntime) -> Result<(), Fail> {
    tried(&rt, Trial::Memory, &ONE_MORE_BUT_FIRST)
}

#[test]
fn faults_of_147_globals(rt: HostRuntime) -> Result<(), Fail> {
    tried(&rt, Trial::Transports, &ONE_MORE)
}

#[test]
fn full_buffers(rt: HostRuntime) -> Result<(), Fail> {
    for row in &ROWS {
        tried(&rt, Trial::FirstTransport, row)?;
    }
    Ok(())
}
