//! Dispatches of a server, each over scripts, with what was before it and what it left.

use super::handlers::{Contrary, Killing, Numbering, Summing, TakingOut, Working};
use super::run::{Act, Look, Server, WITH_A_QUAD, perform_all};
use server_test_kit::arrivals::{
    BIND, DESTROY, GET_REGISTRY, HALF_A_REQUEST, MAKE_BY_SERVER, SYNC,
};
use server_test_kit::steps::Call;
use server_test_kit::values::{FIRST, SECOND, Shown, Thing};
use std::alloc::Global;
use std::fmt::Write;
use std::test::Fail;
use test_kit::cuts::Cut;
use test_kit::log::row_tells;
use test_kit::quad::{QUAD, quad_table};
use wl_link::Memory;
use wl_server::{Backend, Handler};
use wl_wire::{IoFault, WL_REGISTRY_INTERFACE};

/// `wl_display.sync` with the new id 2, and then with the new id 5.
const SYNC_AND_SYNC_AT_5: [u8; 24] = [
    1, 0, 0, 0, 0, 0, 12, 0, 2, 0, 0, 0, 1, 0, 0, 0, 0, 0, 12, 0, 5, 0, 0, 0,
];

/// `wl_display.get_registry` with the new id 2; `wl_registry.bind`, of the global 1, as `quad` of version 3, with the new id
/// 3; and `quad.destroy`, by object 3.
const BIND_AND_DESTROY: [u8; 52] = [
    1, 0, 0, 0, 1, 0, 12, 0, 2, 0, 0, 0, 2, 0, 0, 0, 0, 0, 32, 0, 1, 0, 0, 0, 5, 0, 0, 0, 113, 117,
    97, 100, 0, 0, 0, 0, 3, 0, 0, 0, 3, 0, 0, 0, 3, 0, 0, 0, 2, 0, 8, 0,
];

/// `quad.poke` of 7, and then of 5, by object 3.
const TWO_POKES: [u8; 24] = [
    3, 0, 0, 0, 0, 0, 12, 0, 7, 0, 0, 0, 3, 0, 0, 0, 0, 0, 12, 0, 5, 0, 0, 0,
];

/// Tells how many requests a dispatch read, or by which fault it ended.
fn dispatched(log: &mut String, answer: Result<usize, IoFault>) -> Result<(), Fail> {
    match answer {
        Ok(read) => writeln!(log, "dispatched {read}")?,
        Err(fault) => writeln!(log, "{fault}")?,
    }
    Ok(())
}

/// Whom a dispatch is of.
#[derive(Clone, Copy)]
enum Whom {
    /// Of the first client.
    First,
    /// Of the first two clients.
    Both,
}

/// Dispatches the clients with the handler.
fn dispatch<H: Handler<Memory, u32, Shown, bool>>(
    server: &mut Server,
    handler: &mut H,
    whom: Whom,
) -> Result<usize, IoFault> {
    match whom {
        Whom::First => server.dispatch_single_client(handler, &FIRST.id()),
        Whom::Both => server.dispatch_all_clients(handler, &[FIRST.id(), SECOND.id()]),
    }
}

/// Makes the calls, then dispatches the clients with the handler, and then looks at what that left.
fn tell_around<H: Handler<Memory, u32, Shown, bool>>(
    log: &mut String,
    server: &mut Server,
    handler: &mut H,
    whom: Whom,
    (before, after): (&[Act], &[Act]),
) -> Result<(), Fail> {
    let alloc = *log.allocator();
    perform_all(alloc, server, log, before)?;
    dispatched(log, dispatch(server, handler, whom))?;
    perform_all(alloc, server, log, after)
}

/// The log of that.
fn log_by<H: Handler<Memory, u32, Shown, bool>>(
    alloc: Global,
    server: &mut Server,
    handler: &mut H,
    whom: Whom,
    around: (&[Act], &[Act]),
) -> Result<String, Fail> {
    let mut log = String::new(alloc);
    tell_around(&mut log, server, handler, whom, around)?;
    Ok(log)
}

/// The log of a new server, with a dispatch of the clients between what was before it and what comes after it.
fn log_of<H: Handler<Memory, u32, Shown, bool>>(
    alloc: Global,
    handler: &mut H,
    whom: Whom,
    around: (&[Act], &[Act]),
) -> Result<String, Fail> {
    let protocol = quad_table(alloc)?;
    let mut server = Backend::new(alloc, protocol);
    let answer = log_by(alloc, &mut server, handler, whom, around);
    drop(server);
    answer
}

/// A row of a table: what a failing one is named, the calls before a dispatch, what is looked at after it, and what is told.
struct Row {
    name: &'static str,
    before: &'static [Act],
    after: &'static [Act],
    told: &'static str,
}

/// Fails if a dispatch of the clients tells something else than its row says.
fn rows_of<H: Handler<Memory, u32, Shown, bool>>(
    rt: &(impl Eprint + AllocGlobal),
    handler: &mut H,
    whom: Whom,
    rows: &[Row],
) -> Result<(), Fail> {
    for row in rows {
        let log = log_of(rt.alloc(), handler, whom, (row.before, row.after));
        row_tells(rt, row.name, log, row.told)?;
    }
    Ok(())
}

/// Dispatches of the first client with a handler that answers 4 for each new object, and makes no call.
static ROWS: [Row; 9] = [
    // A sync is counted, and the server answers it by itself.
    Row {
        name: "sync is dispatched",
        before: &[
            Act::Do(Call::Insert(true)),
            Act::Do(Call::Arrive(FIRST, &SYNC)),
        ],
        after: &[Act::Do(Call::Flush(FIRST)), Act::Do(Call::TakeSent(FIRST))],
        told: "client 0, 1\ndispatched 1\ndone\n02 00 00 00 00 00 0c 00 00 00 00 00 01 00 00 00 01 00 0c 00 02 00 00 00\n",
    },
    // A new id out of order, after a request that was answered, in one receive: the dispatch ends by that fault, whatever the
    // count, and the client is taken out.
    Row {
        name: "fault behind a request",
        before: &[
            Act::Do(Call::Insert(true)),
            Act::Do(Call::Arrive(FIRST, &SYNC_AND_SYNC_AT_5)),
        ],
        after: &[Act::Do(Call::Next(FIRST)), Act::Do(Call::Notes)],
        told: "client 0, 1\nbroken pipe\nIo error: invalid input\ninitialized 0, 1\ndisconnected 0, 1: error 0 on wl_display 1: Invalid new_id: 5.\n",
    },
    // A `quad` is bound with the handler's number, and destroyed, in one receive.
    Row {
        name: "handler is called for each action",
        before: &[
            Act::Do(Call::Insert(true)),
            Act::Do(Call::Global(QUAD, 3)),
            Act::Do(Call::Arrive(FIRST, &BIND_AND_DESTROY)),
        ],
        after: &[
            Act::Do(Call::Flush(FIRST)),
            Act::Do(Call::TakeSent(FIRST)),
            Act::Do(Call::Notes),
        ],
        told: "client 0, 1\nglobal 1, 1\ndispatched 3\ndone\n02 00 00 00 00 00 1c 00 01 00 00 00 05 00 00 00 71 75 61 64 00 00 00 00 03 00 00 00 01 00 00 00 01 00 0c 00 03 00 00 00\ninitialized 0, 1\ndestroyed 3, 2, 4 of 0 with 4\n",
    },
    // The end of an action finds no memory, since 4088 bytes wait that the transport does not take for want of it: the action
    // stays open, and its data are gone. Later it is ended.
    Row {
        name: "end without memory",
        before: &[
            Act::Quietly(&WITH_A_QUAD),
            Act::Globals(146),
            Act::Do(Call::Arrive(FIRST, &DESTROY)),
            Act::Do(Call::AcceptFault(FIRST, IoFault::OutOfMemory)),
        ],
        after: &[
            Act::Do(Call::Next(FIRST)),
            Act::Do(Call::Finish(FIRST, None)),
            Act::Do(Call::Flush(FIRST)),
            Act::Look(Look::Lengths(FIRST)),
        ],
        told: "out of memory\nan action is open\nfinished\ndone\n4088 bytes\n12 bytes\n",
    },
    // A reading finds no memory; the next goes on.
    Row {
        name: "reading without memory",
        before: &[
            Act::Do(Call::Insert(true)),
            Act::Do(Call::Arrive(FIRST, &SYNC)),
            Act::Do(Call::ArriveFault(FIRST, IoFault::OutOfMemory)),
            Act::Do(Call::Arrive(FIRST, &SYNC)),
        ],
        after: &[
            Act::Do(Call::NextWithin(FIRST, 64)),
            Act::Look(Look::Arrivals(FIRST)),
            Act::Do(Call::Notes),
        ],
        told: "client 0, 1\nout of memory\nIo error: would block\n62 left, 1 read\n0 arrivals\ninitialized 0, 1\n",
    },
    // An action that is open when the dispatch begins stays open.
    Row {
        name: "action is open at the start",
        before: &[
            Act::Do(Call::Insert(true)),
            Act::Do(Call::Global(QUAD, 3)),
            Act::Do(Call::Arrive(FIRST, &BIND_AND_DESTROY)),
            Act::Do(Call::Next(FIRST)),
        ],
        after: &[
            Act::Do(Call::FinishBind(FIRST, 9)),
            Act::Do(Call::Next(FIRST)),
        ],
        told: "client 0, 1\nglobal 1, 1\nglobal 1, 1 bound as 3, 2, 4 of 0\ninvalid input\nfinished\nrequest 2 to 3, 2, 4 of 0, which ends it\n",
    },
    // Nothing waits; a client was killed, and is taken out; a client is not stored.
    Row {
        name: "nothing is read: nothing waits",
        before: &[Act::Do(Call::Insert(true))],
        after: &[],
        told: "client 0, 1\nwould block\n",
    },
    Row {
        name: "nothing is read: a client was killed",
        before: &[Act::Do(Call::Insert(true)), Act::Do(Call::Kill(FIRST))],
        after: &[Act::Do(Call::Next(FIRST))],
        told: "client 0, 1\nbroken pipe\nIo error: invalid input\n",
    },
    Row {
        name: "nothing is read: a client is not stored",
        before: &[],
        after: &[Act::Do(Call::Next(FIRST))],
        told: "invalid input\nIo error: invalid input\n",
    },
];

/// Dispatches of the first client with a handler whose answers do not fit the requests.
static CONTRARY: [Row; 2] = [
    // An answer without data for a new object ends nothing: the dispatch ends there, and the action stays open.
    Row {
        name: "answer lacks data",
        before: &[
            Act::Do(Call::Insert(true)),
            Act::Do(Call::Create(FIRST, QUAD, 3, 9)),
            Act::Do(Call::Arrive(FIRST, &MAKE_BY_SERVER)),
        ],
        after: &[
            Act::Do(Call::Next(FIRST)),
            Act::Do(Call::Finish(FIRST, Some(5))),
            Act::Look(Look::Data(Thing(FIRST, 2, 2, QUAD))),
        ],
        told: "client 0, 1\ncreated 4278190080, 1, 4 of 0\ninvalid input\nan action is open\nfinished\ndata 5\n",
    },
    // Neither does one with data if there is no new object.
    Row {
        name: "answer has data for no object",
        before: &[
            Act::Do(Call::Insert(true)),
            Act::Do(Call::Global(QUAD, 3)),
            Act::Do(Call::Arrive(FIRST, &BIND_AND_DESTROY)),
        ],
        after: &[
            Act::Do(Call::Next(FIRST)),
            Act::Do(Call::Finish(FIRST, None)),
            Act::Do(Call::Notes),
        ],
        told: "client 0, 1\nglobal 1, 1\ninvalid input\nan action is open\nfinished\ninitialized 0, 1\ndestroyed 3, 2, 4 of 0 with 4\n",
    },
];

/// A dispatch of the first client while registries are handed out: the handler is called with none. It stays open, and the host
/// ends it. What waits behind it is read after that.
static REGISTRY: [Row; 1] = [Row {
    name: "registry is handed out",
    before: &[
        Act::Do(Call::HandOutRegistries(true)),
        Act::Do(Call::Insert(true)),
        Act::Do(Call::Global(QUAD, 3)),
        Act::Do(Call::Arrive(FIRST, &BIND_AND_DESTROY)),
    ],
    after: &[
        Act::Do(Call::Next(FIRST)),
        Act::Do(Call::Finish(FIRST, None)),
        Act::Do(Call::FinishBind(FIRST, 7)),
        Act::Look(Look::Data(Thing(FIRST, 2, 1, WL_REGISTRY_INTERFACE))),
        Act::Do(Call::Next(FIRST)),
        Act::Do(Call::Flush(FIRST)),
        Act::Do(Call::TakeSent(FIRST)),
        Act::Do(Call::Notes),
    ],
    told: "client 0, 1\nglobal 1, 1\ninvalid input\nan action is open\nthe open action is of the other kind\nfinished\ndata 7\nglobal 1, 1 bound as 3, 2, 4 of 0\ndone\ninitialized 0, 1\n",
}];

/// Two clients with a hundred receives of a byte each: of each of them, a dispatch makes 64.
static LONG: [Row; 1] = [Row {
    name: "each client has 64 receives",
    before: &[
        Act::Do(Call::Insert(true)),
        Act::Do(Call::Insert(true)),
        Act::ArriveCut(FIRST, HALF_A_REQUEST, Cut::Bytewise, None),
        Act::ArriveCut(SECOND, HALF_A_REQUEST, Cut::Bytewise, None),
    ],
    after: &[
        Act::Look(Look::Arrivals(FIRST)),
        Act::Look(Look::Arrivals(SECOND)),
    ],
    told: "client 0, 1\nclient 1, 2\ndispatched 0\n36 arrivals\n36 arrivals\n",
}];

/// Handlers that make no call.
#[test]
fn rows(rt: HostRuntime) -> Result<(), Fail> {
    rows_of(&rt, &mut Numbering(4), Whom::First, &ROWS)?;
    rows_of(&rt, &mut Numbering(4), Whom::Both, &LONG)?;
    rows_of(&rt, &mut Numbering(4), Whom::First, &REGISTRY)?;
    rows_of(&rt, &mut Contrary(4), Whom::First, &CONTRARY)
}

/// A handler that wants its arguments lent.
static LENT: [Row; 1] = [Row {
    name: "requests that come together, behind a bind",
    before: &[
        Act::Do(Call::Insert(true)),
        Act::Do(Call::Global(QUAD, 3)),
        Act::Do(Call::Arrive(FIRST, &GET_REGISTRY)),
        Act::Do(Call::Arrive(FIRST, &BIND)),
        Act::Do(Call::Arrive(FIRST, &TWO_POKES)),
    ],
    after: &[],
    told: "client 0, 1\nglobal 1, 1\ndispatched 4\n",
}];

/// A handler that wants its arguments lent gets them so.
#[test]
fn handler_is_lent_the_arguments(rt: HostRuntime) -> Result<(), Fail> {
    let mut handler = Summing(0);
    rows_of(&rt, &mut handler, Whom::First, &LENT)?;
    assert_eq!(rt; handler.0, 12);
    Ok(())
}

/// A handler kills the client that binds: its answer ends the bind, and becomes the object's data, which are noted as the
/// client is taken out.
static KILLING: [Row; 1] = [Row {
    name: "handler kills its client",
    before: &[
        Act::Do(Call::Insert(true)),
        Act::Do(Call::Global(QUAD, 3)),
        Act::Do(Call::Arrive(FIRST, &GET_REGISTRY)),
        Act::Do(Call::Arrive(FIRST, &BIND)),
    ],
    after: &[Act::Do(Call::Next(FIRST)), Act::Do(Call::Notes)],
    told: "client 0, 1\nglobal 1, 1\nbroken pipe\nIo error: invalid input\ninitialized 0, 1\ndisconnected 0, 1: closed\ndestroyed 3, 2, 4 of 0 with 7\n",
}];

/// A handler takes the client out that binds: its answer has nothing to end.
static TAKING_OUT: [Row; 1] = [Row {
    name: "handler takes its client out",
    before: &[
        Act::Do(Call::Insert(true)),
        Act::Do(Call::Global(QUAD, 3)),
        Act::Do(Call::Arrive(FIRST, &BIND_AND_DESTROY)),
    ],
    after: &[Act::Do(Call::Next(FIRST)), Act::Do(Call::Notes)],
    told: "client 0, 1\nglobal 1, 1\ninvalid input\nIo error: invalid input\ninitialized 0, 1\ndisconnected 0, 1: closed\n",
}];

/// A handler calls the server for the client that binds and for another: each is sent an event, gets an object and loses one.
/// What a request ends is noted at once, and what the program destroys, by the cleanup at the end.
static WORKING: [Row; 1] = [Row {
    name: "handler works for two clients",
    before: &[
        Act::Do(Call::Insert(true)),
        Act::Do(Call::Insert(true)),
        Act::Do(Call::Global(QUAD, 3)),
        Act::Do(Call::Create(FIRST, QUAD, 3, 11)),
        Act::Do(Call::Create(SECOND, QUAD, 3, 12)),
        Act::Do(Call::Arrive(FIRST, &BIND_AND_DESTROY)),
    ],
    after: &[
        Act::Do(Call::FlushAll),
        Act::Do(Call::TakeSent(FIRST)),
        Act::Do(Call::TakeSent(SECOND)),
        Act::Do(Call::Notes),
        Act::Look(Look::Data(Thing(FIRST, 0xFF00_0001, 4, QUAD))),
        Act::Look(Look::Data(Thing(SECOND, 0xFF00_0001, 2, QUAD))),
        Act::Look(Look::Data(Thing(FIRST, 0xFF00_0000, 1, QUAD))),
        Act::Look(Look::Data(Thing(SECOND, 0xFF00_0000, 1, QUAD))),
    ],
    told: "client 0, 1\nclient 1, 2\nglobal 1, 1\ncreated 4278190080, 1, 4 of 0\ncreated 4278190080, 1, 4 of 1\ndispatched 3\ndone\n02 00 00 00 00 00 1c 00 01 00 00 00 05 00 00 00 71 75 61 64 00 00 00 00 03 00 00 00 03 00 00 00 00 00 0c 00 07 00 00 00 01 00 00 00 01 00 0c 00 03 00 00 00\n00 00 00 ff 00 00 0c 00 07 00 00 00\ninitialized 0, 1\ninitialized 1, 2\ndestroyed 3, 3, 4 of 0 with 4\ndestroyed 4278190080, 1, 4 of 0 with 11\ndestroyed 4278190080, 1, 4 of 1 with 12\ndata 8\ndata 6\nInvalid Id\nInvalid Id\n",
}];

/// Handlers that call the server.
#[test]
fn rows_of_calling_handlers(rt: HostRuntime) -> Result<(), Fail> {
    let mut working = Working {
        data: 4,
        own: Thing(FIRST, 0xFF00_0000, 1, QUAD).id(),
        other: Thing(SECOND, 0xFF00_0000, 1, QUAD).id(),
        alloc: rt.alloc(),
    };
    rows_of(&rt, &mut working, Whom::First, &WORKING)?;
    rows_of(&rt, &mut Killing(7), Whom::First, &KILLING)?;
    rows_of(&rt, &mut TakingOut(7), Whom::First, &TAKING_OUT)
}
