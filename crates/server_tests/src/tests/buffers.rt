//! Buffers that have too little room: they grow as far as the program lets them.

use super::run::{Act, Look, WITH_A_QUAD, log_of};
use server_test_kit::arrivals::{DESTROY, SYNC_AT_4, SYNC_AT_5};
use server_test_kit::steps::Call;
use server_test_kit::values::{BOUND, Event, FIRST, Named, Thing};
use std::alloc::Global;
use std::test::Fail;
use test_kit::log::row_tells;
use test_kit::quad::{PAIR, QUAD};

/// The `pair` that the server makes for the client after those.
const PAIRED: Thing = Thing(FIRST, 0xFF00_0000, 3, PAIR);

/// Puts the acts by which the messages of so many globals, 28 bytes each, wait for a client in a buffer of 4096 bytes,
/// which may grow to the limit.
fn push_globals(acts: &mut Vec<Act>, count: u32, limit: usize) -> Result<(), Fail> {
    acts.push(Act::Quietly(&WITH_A_QUAD))?;
    acts.push(Act::Globals(count))?;
    Ok(acts.push(Act::Do(Call::Limit(FIRST, limit)))?)
}

/// Puts the calls, and the acts that tell how many bytes each send takes then.
fn push_calls(acts: &mut Vec<Act>, calls: &[Call]) -> Result<(), Fail> {
    for call in calls {
        acts.push(Act::Do(*call))?;
    }
    acts.push(Act::Do(Call::Flush(FIRST)))?;
    Ok(acts.push(Act::Look(Look::Lengths(FIRST)))?)
}

/// What is told of the calls if the messages of so many globals wait, and how many bytes each send takes then.
fn behind_globals(alloc: Global, count: u32, limit: usize, calls: &[Call]) -> Result<String, Fail> {
    let mut acts = Vec::new(alloc);
    push_globals(&mut acts, count, limit)?;
    push_calls(&mut acts, calls)?;
    log_of(alloc, acts.as_slice())
}

/// A row of the table: what a failing one is named, the messages of how many globals wait, how far the buffer may grow, the calls,
/// and what they have to tell. The messages of 146 globals have 4088 bytes.
struct Row {
    name: &'static str,
    globals: u32,
    limit: usize,
    calls: &'static [Call],
    told: &'static str,
}

/// The calls, and what they tell.
static ROWS: [Row; 14] = [
    // What answers a sync: the callback's message, and its number if that message fits in.
    Row {
        name: "grows for a sync",
        globals: 146,
        limit: 8192,
        calls: &[Call::Arrive(FIRST, &SYNC_AT_4), Call::Next(FIRST)],
        told: "Io error: would block\ndone\n4096 bytes\n16 bytes\n",
    },
    Row {
        name: "grows for the number of a callback",
        globals: 145,
        limit: 8192,
        calls: &[
            Call::Send(Event::Moved(BOUND, 7)),
            Call::Send(Event::Moved(BOUND, 8)),
            Call::Arrive(FIRST, &SYNC_AT_4),
            Call::Next(FIRST),
        ],
        told: "done\ndone\nIo error: would block\ndone\n4096 bytes\n12 bytes\n",
    },
    // What answers other requests: the globals of a registry, and an error.
    Row {
        name: "grows for a registry",
        globals: 146,
        limit: 16384,
        calls: &[
            Call::Arrive(FIRST, &[1, 0, 0, 0, 1, 0, 12, 0, 4, 0, 0, 0]),
            Call::Next(FIRST),
        ],
        told: "Io error: would block\ndone\n4096 bytes\n4096 bytes\n12 bytes\n",
    },
    Row {
        name: "grows for an error",
        globals: 146,
        limit: 8192,
        calls: &[
            Call::Arrive(FIRST, &SYNC_AT_5),
            Call::Next(FIRST),
            Call::Notes,
        ],
        told: "Io error: broken pipe\ninitialized 0, 1\ndisconnected 0, 1: error 0 on wl_display 1: Invalid new_id: 5.\ndone\n4096 bytes\n32 bytes\n",
    },
    // The number of an object that ends: by the program, by an event that fits in, and by a request.
    Row {
        name: "grows for the number of an object that ends: by the program",
        globals: 146,
        limit: 8192,
        calls: &[Call::Destroy(BOUND)],
        told: "done\ndone\n4096 bytes\n4 bytes\n",
    },
    Row {
        name: "grows for the number of an object that ends: by an event",
        globals: 146,
        limit: 8192,
        calls: &[Call::Send(Event::Bare(BOUND, 2))],
        told: "done\ndone\n4096 bytes\n12 bytes\n",
    },
    Row {
        name: "grows for the number of an object that ends: by a request",
        globals: 146,
        limit: 8192,
        calls: &[
            Call::Arrive(FIRST, &DESTROY),
            Call::Next(FIRST),
            Call::Finish(FIRST, None),
        ],
        told: "request 2 to 3, 2, 4 of 0, which ends it\nfinished\ndone\n4096 bytes\n4 bytes\n",
    },
    // Events, with a descriptor and without; and one that goes after a flush, if the buffer may not grow.
    Row {
        name: "grows for events",
        globals: 146,
        limit: 8192,
        calls: &[Call::Send(Event::Moved(BOUND, 7))],
        told: "done\ndone\n4096 bytes\n4 bytes\n",
    },
    Row {
        name: "grows for events with a descriptor",
        globals: 146,
        limit: 8192,
        calls: &[
            Call::Create(FIRST, PAIR, 1, 5),
            Call::Send(Event::Joined(PAIRED, BOUND)),
        ],
        told: "created 4278190080, 3, 5 of 0\ndone\ndone\n4096 bytes\n24 bytes\n",
    },
    Row {
        name: "flushes for an event with a descriptor",
        globals: 146,
        limit: 4096,
        calls: &[
            Call::Create(FIRST, PAIR, 1, 5),
            Call::Send(Event::Joined(PAIRED, BOUND)),
        ],
        told: "created 4278190080, 3, 5 of 0\ndone\ndone\n4088 bytes\n32 bytes\n",
    },
    // A global that is created, and one that is announced no more.
    Row {
        name: "grows for globals: a new one",
        globals: 146,
        limit: 8192,
        calls: &[Call::Global(QUAD, 3)],
        told: "global 148, 148\ndone\n4096 bytes\n20 bytes\n",
    },
    Row {
        name: "grows for globals: a disabled one",
        globals: 146,
        limit: 8192,
        calls: &[Call::Disable(Named(1, 1))],
        told: "done\n4096 bytes\n4 bytes\n",
    },
    Row {
        name: "grows for globals: a removed one",
        globals: 146,
        limit: 8192,
        calls: &[Call::Remove(Named(1, 1))],
        told: "done\n4096 bytes\n4 bytes\n",
    },
    // An error that the program posts.
    Row {
        name: "grows for a posted error",
        globals: 146,
        limit: 8192,
        calls: &[Call::PostError(BOUND, 7, "no"), Call::Notes],
        told: "initialized 0, 1\ndisconnected 0, 1: error 7 on quad 3: no\ndone\n4096 bytes\n16 bytes\n",
    },
];

/// Each run tells what it has to.
#[test]
fn rows(rt: HostRuntime) -> Result<(), Fail> {
    for row in &ROWS {
        let log = behind_globals(rt.alloc(), row.globals, row.limit, row.calls);
        row_tells(&rt, row.name, log, row.told)?;
    }
    Ok(())
}
