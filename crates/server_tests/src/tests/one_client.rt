//! A server with one client: requests of the display, objects, events, errors, and a transport that lacks memory.

use super::run::{Act, Beside, Look, Row, rows_tell};
use server_test_kit::arrivals::{GET_REGISTRY, HALF_A_REQUEST, MAKE_BY_SERVER, SYNC, SYNC_AT_5};
use server_test_kit::steps::Call;
use server_test_kit::told::done;
use server_test_kit::values::{DISPLAY, Event, FIRST, Named, SECOND, Thing};
use std::alloc::Global;
use std::test::Fail;
use test_kit::cuts::Cut;
use test_kit::log::tells;
use test_kit::quad::QUAD;
use wl_server::{CreateError, GlobalError, InsertClientError, ScriptError};
use wl_wire::{IoFault, WL_REGISTRY_INTERFACE};

/// The first object that the server makes for the first client.
const MADE: Thing = Thing(FIRST, 0xFF00_0000, 1, QUAD);

/// The second.
const SECOND_MADE: Thing = Thing(FIRST, 0xFF00_0001, 2, QUAD);

/// No object, but for its client.
const NONE: Thing = Thing(FIRST, 0, 0, QUAD);

/// `wl_registry.bind`, by registry 2, of the global 1, as an interface whose name is 150 times `a`, of version 3, with the new
/// id 3.
const BIND_OF_150_LETTERS: &[u8] =
    b"\x02\0\0\0\0\0\xb0\0\x01\0\0\0\x97\0\0\0aaaaaaaaaaaaaaaaaaaaaaaaaaaaaaaaaaaaaaaaaaaaaaaaaaaaaaaaaaaaaaaaaaaaaaaaaaaaaaaaaaaaaaaaaaaaaaaaaaaaaaaaaaaaaaaaaaaaaaaaaaaaaaaaaaaaaaaaaaaaaaaaaaaaaa\0\0\x03\0\0\0\x03\0\0\0";

/// The runs, and what they tell.
static ROWS: [Row; 14] = [
    // A sync is answered, and its callback is gone at once: its number is used again, with the next serial.
    Row {
        name: "sync is answered",
        acts: &[
            Act::Do(Call::Insert(true)),
            Act::Do(Call::Arrive(FIRST, &SYNC)),
            Act::Do(Call::NextWithin(FIRST, 64)),
            Act::Do(Call::Flush(FIRST)),
            Act::Do(Call::TakeSent(FIRST)),
            Act::Do(Call::Arrive(FIRST, &SYNC)),
            Act::Do(Call::Next(FIRST)),
            Act::Do(Call::Create(FIRST, QUAD, 3, 9)),
        ],
        told: "client 0, 1\nIo error: would block\n62 left, 1 read\ndone\n02 00 00 00 00 00 0c 00 00 00 00 00 01 00 00 00 01 00 0c 00 02 00 00 00\nIo error: would block\ncreated 4278190080, 3, 4 of 0\n",
    },
    // A new id that is not the next one.
    Row {
        name: "new ids are refused: not the next",
        acts: &[
            Act::Do(Call::Insert(true)),
            Act::Do(Call::Arrive(FIRST, &SYNC_AT_5)),
            Act::Do(Call::NextWithin(FIRST, 64)),
            Act::Do(Call::TakeSent(FIRST)),
            Act::Do(Call::Notes),
            Act::Do(Call::Next(FIRST)),
        ],
        told: "client 0, 1\nIo error: broken pipe\n63 left, 1 read\n01 00 00 00 00 00 28 00 01 00 00 00 00 00 00 00 13 00 00 00 49 6e 76 61 6c 69 64 20 6e 65 77 5f 69 64 3a 20 35 2e 00 00\ninitialized 0, 1\ndisconnected 0, 1: error 0 on wl_display 1: Invalid new_id: 5.\nIo error: broken pipe\n",
    },
    // A hundred receives of a byte each: a reading makes 64 of them, and the next goes on.
    Row {
        name: "readings end after 64 receives",
        acts: &[
            Act::Do(Call::Insert(true)),
            Act::ArriveCut(FIRST, HALF_A_REQUEST, Cut::Bytewise, None),
            Act::Do(Call::Next(FIRST)),
            Act::Look(Look::Arrivals(FIRST)),
            Act::Do(Call::Next(FIRST)),
            Act::Look(Look::Arrivals(FIRST)),
        ],
        told: "client 0, 1\nIo error: would block\n36 arrivals\nIo error: would block\n0 arrivals\n",
    },
    // An object of the server's makes one of the client's, of its own version.
    Row {
        name: "request makes an object",
        acts: &[
            Act::Do(Call::Insert(true)),
            Act::Do(Call::Create(FIRST, QUAD, 3, 9)),
            Act::Do(Call::Arrive(FIRST, &MAKE_BY_SERVER)),
            Act::Do(Call::Next(FIRST)),
            Act::Do(Call::Next(FIRST)),
            Act::Do(Call::Finish(FIRST, None)),
            Act::Do(Call::FinishBind(FIRST, 4)),
            Act::Do(Call::Finish(FIRST, Some(5))),
            Act::Do(Call::Finish(FIRST, None)),
            Act::Look(Look::Info(Thing(FIRST, 2, 2, QUAD))),
            Act::Look(Look::Data(Thing(FIRST, 2, 2, QUAD))),
            Act::Look(Look::Info(Thing(FIRST, 2, 3, QUAD))),
        ],
        told: "client 0, 1\ncreated 4278190080, 1, 4 of 0\nrequest 1 to 4278190080, 1, 4 of 0: new 2, 2, 4 of 0, which makes 2, 2, 4 of 0\nan action is open\nthe new object gets no user data\nthe open action is of the other kind, 4 is back\nfinished\nno action is open\nversion 3\ndata 5\nInvalid Id\n",
    },
    // A request that the object's version lacks.
    Row {
        name: "request of a later version",
        acts: &[
            Act::Do(Call::Insert(true)),
            Act::Do(Call::Create(FIRST, QUAD, 1, 9)),
            Act::Do(Call::Arrive(FIRST, &MAKE_BY_SERVER)),
            Act::Do(Call::Next(FIRST)),
            Act::Do(Call::TakeSent(FIRST)),
            Act::Do(Call::Cleanup),
            Act::Do(Call::Notes),
        ],
        told: "client 0, 1\ncreated 4278190080, 1, 4 of 0\nIo error: broken pipe\n01 00 00 00 00 00 4c 00 01 00 00 00 01 00 00 00 37 00 00 00 69 6e 76 61 6c 69 64 20 6d 65 74 68 6f 64 20 31 20 28 73 69 6e 63 65 20 31 20 3c 20 32 29 2c 20 6f 62 6a 65 63 74 20 71 75 61 64 23 34 32 37 38 31 39 30 30 38 30 00 00\nout: client 0, 1 with 0 sends\ninitialized 0, 1\ndisconnected 0, 1: error 1 on wl_display 1: invalid method 1 (since 1 < 2), object quad#4278190080\ndestroyed 4278190080, 1, 4 of 0 with 9\n",
    },
    // An event is sent, and one that ends its sender: of a number of the server's the client is told no `delete_id`.
    Row {
        name: "events are sent",
        acts: &[
            Act::Do(Call::Insert(true)),
            Act::Do(Call::Create(FIRST, QUAD, 3, 9)),
            Act::Do(Call::Send(Event::Moved(MADE, 7))),
            Act::Do(Call::Flush(FIRST)),
            Act::Do(Call::TakeSent(FIRST)),
            Act::Do(Call::Send(Event::Bare(MADE, 2))),
            Act::Do(Call::FlushAll),
            Act::Do(Call::TakeSent(FIRST)),
            Act::Look(Look::Info(MADE)),
            Act::Do(Call::Send(Event::Moved(MADE, 7))),
            Act::Do(Call::Notes),
            Act::Do(Call::Cleanup),
            Act::Do(Call::Notes),
        ],
        told: "client 0, 1\ncreated 4278190080, 1, 4 of 0\ndone\ndone\n00 00 00 ff 00 00 0c 00 07 00 00 00\ndone\ndone\n00 00 00 ff 02 00 08 00\nInvalid Id\nInvalid Id\ninitialized 0, 1\nout:\ndestroyed 4278190080, 1, 4 of 0 with 9\n",
    },
    // An event of a new object, and what is refused of events; a refused one queues nothing.
    Row {
        name: "events are refused",
        acts: &[
            Act::Do(Call::Insert(true)),
            Act::Do(Call::Insert(true)),
            Act::Do(Call::Create(FIRST, QUAD, 3, 9)),
            Act::Do(Call::Create(FIRST, QUAD, 3, 9)),
            Act::Do(Call::Send(Event::Made(MADE, SECOND_MADE))),
            Act::Do(Call::Send(Event::Made(MADE, NONE))),
            Act::Do(Call::Send(Event::Made(MADE, Thing(SECOND, 1, 0, QUAD)))),
            Act::Do(Call::Send(Event::Made(MADE, Thing(FIRST, 7, 7, QUAD)))),
            Act::Do(Call::Send(Event::Made(MADE, DISPLAY))),
            Act::Do(Call::Send(Event::Bare(MADE, 9))),
            Act::Do(Call::Send(Event::Bare(MADE, 0))),
            Act::Do(Call::Flush(FIRST)),
            Act::Do(Call::TakeSent(FIRST)),
        ],
        told: "client 0, 1\nclient 1, 2\ncreated 4278190080, 1, 4 of 0\ncreated 4278190081, 2, 4 of 0\ndone\na new id is null\nan argument is an object of another client\nInvalid Id\nan argument has another interface\nthe interface has no event of that opcode\nthe arguments do not fit the event's signature\ndone\n00 00 00 ff 01 00 0c 00 01 00 00 ff\n",
    },
    // An object of the server is looked up by its number and its interface.
    Row {
        name: "objects are looked up",
        acts: &[
            Act::Do(Call::Insert(true)),
            Act::Do(Call::Create(FIRST, QUAD, 3, 9)),
            Act::Do(Call::Create(FIRST, QUAD, 3, 9)),
            Act::Look(Look::Text(MADE)),
            Act::Look(Look::At(FIRST, QUAD, 0xFF00_0001)),
            Act::Look(Look::At(FIRST, WL_REGISTRY_INTERFACE, 0xFF00_0001)),
        ],
        told: "client 0, 1\ncreated 4278190080, 1, 4 of 0\ncreated 4278190081, 2, 4 of 0\nquad@4278190080[0]\n4278190081, 2, 4 of 0\nInvalid Id\n",
    },
    // Of two kills the first is noted, and to a killed client nothing is sent.
    Row {
        name: "killed client is noted once",
        acts: &[
            Act::Do(Call::Insert(true)),
            Act::Do(Call::Create(FIRST, QUAD, 3, 9)),
            Act::Do(Call::Kill(FIRST)),
            Act::Do(Call::Kill(FIRST)),
            Act::Do(Call::Send(Event::Bare(MADE, 9))),
            Act::Do(Call::Flush(FIRST)),
            Act::Do(Call::TakeSent(FIRST)),
            Act::Do(Call::Next(FIRST)),
            Act::Do(Call::Notes),
            Act::Do(Call::Notes),
            Act::Do(Call::Cleanup),
            Act::Do(Call::Notes),
            Act::Do(Call::Next(FIRST)),
            Act::Do(Call::Send(Event::Bare(MADE, 9))),
        ],
        told: "client 0, 1\ncreated 4278190080, 1, 4 of 0\ndone\ndone\nIo error: broken pipe\ninitialized 0, 1\ndisconnected 0, 1: closed\nout: client 0, 1 with 0 sends\ndestroyed 4278190080, 1, 4 of 0 with 9\nIo error: invalid input\nInvalid Id\n",
    },
    // A bind as an interface with a long name: the error's text of 193 bytes is sent and noted whole, and no memory is refused.
    Row {
        name: "an error of 193 bytes",
        acts: &[
            Act::Do(Call::Insert(true)),
            Act::Do(Call::Global(QUAD, 3)),
            Act::Do(Call::Disable(Named(1, 1))),
            Act::Do(Call::Arrive(FIRST, &GET_REGISTRY)),
            Act::Do(Call::Arrive(FIRST, BIND_OF_150_LETTERS)),
            Act::Beside(Beside::NextInto(FIRST)),
            Act::Do(Call::TakeSent(FIRST)),
            Act::Do(Call::Notes),
        ],
        told: "client 0, 1\nglobal 1, 1\nIo error: broken pipe\n01 00 00 00 00 00 d8 00 01 00 00 00 00 00 00 00 c2 00 00 00 49 6e 76 61 6c 69 64 20 62 69 6e 64 69 6e 67 20 6f 66 20 61 61 61 61 61 61 61 61 61 61 61 61 61 61 61 61 61 61 61 61 61 61 61 61 61 61 61 61 61 61 61 61 61 61 61 61 61 61 61 61 61 61 61 61 61 61 61 61 61 61 61 61 61 61 61 61 61 61 61 61 61 61 61 61 61 61 61 61 61 61 61 61 61 61 61 61 61 61 61 61 61 61 61 61 61 61 61 61 61 61 61 61 61 61 61 61 61 61 61 61 61 61 61 61 61 61 61 61 61 61 61 61 61 61 61 61 61 61 61 61 61 61 61 61 61 61 61 61 61 61 61 61 61 61 61 61 61 61 61 61 61 61 61 61 61 61 61 61 61 61 20 76 65 72 73 69 6f 6e 20 33 20 66 6f 72 20 67 6c 6f 62 61 6c 20 31 2e 00 00 00\ninitialized 0, 1\ndisconnected 0, 1: error 0 on wl_display 1: Invalid binding of aaaaaaaaaaaaaaaaaaaaaaaaaaaaaaaaaaaaaaaaaaaaaaaaaaaaaaaaaaaaaaaaaaaaaaaaaaaaaaaaaaaaaaaaaaaaaaaaaaaaaaaaaaaaaaaaaaaaaaaaaaaaaaaaaaaaaaaaaaaaaaaaaaaaaa version 3 for global 1.\n",
    },
    // A client that is killed while an action is open: that answers first, and after its end each reading that the client is
    // killed, whatever else is called, until a cleanup takes the client out. Of the two arrivals none is received.
    Row {
        name: "readings of a killed client",
        acts: &[
            Act::Do(Call::Insert(true)),
            Act::Do(Call::Create(FIRST, QUAD, 3, 9)),
            Act::Do(Call::Arrive(FIRST, &MAKE_BY_SERVER)),
            Act::Do(Call::Next(FIRST)),
            Act::Do(Call::Kill(FIRST)),
            Act::Do(Call::Arrive(FIRST, &SYNC)),
            Act::Do(Call::Arrive(FIRST, &SYNC)),
            Act::Do(Call::Next(FIRST)),
            Act::Do(Call::NextWithin(FIRST, 64)),
            Act::Do(Call::Finish(FIRST, Some(5))),
            Act::Do(Call::Next(FIRST)),
            Act::Do(Call::NextWithin(FIRST, 64)),
            Act::Do(Call::Send(Event::Moved(MADE, 7))),
            Act::Do(Call::Limit(FIRST, 4096)),
            Act::Do(Call::Global(QUAD, 3)),
            Act::Do(Call::Flush(FIRST)),
            Act::Do(Call::Destroy(MADE)),
            Act::Do(Call::Insert(true)),
            Act::Do(Call::Notes),
            Act::Do(Call::Next(FIRST)),
            Act::Beside(Beside::NextInto(FIRST)),
            Act::Beside(Beside::NextWithinInto(FIRST, 64)),
            Act::Look(Look::Arrivals(FIRST)),
            Act::Do(Call::Cleanup),
            Act::Do(Call::Next(FIRST)),
            Act::Do(Call::NextWithin(FIRST, 64)),
            Act::Do(Call::Insert(true)),
            Act::Do(Call::Next(FIRST)),
            Act::Look(Look::Arrivals(FIRST)),
        ],
        told: "client 0, 1\ncreated 4278190080, 1, 4 of 0\nrequest 1 to 4278190080, 1, 4 of 0: new 2, 2, 4 of 0, which makes 2, 2, 4 of 0\nan action is open\nan action is open\n64 left, 0 read\nfinished\nIo error: broken pipe\nIo error: broken pipe\n64 left, 0 read\ndone\nglobal 1, 1\ndone\ndone\nclient 1, 2\ninitialized 0, 1\ndisconnected 0, 1: closed\ninitialized 1, 2\nIo error: broken pipe\nIo error: broken pipe\nIo error: broken pipe\n64 left, 0 read\n2 arrivals\nout: client 0, 1 with 0 sends\nIo error: invalid input\nIo error: invalid input\n64 left, 0 read\nclient 0, 3\nIo error: invalid input\nInvalid Id\n",
    },
    // An error that the program posts, on an object that is kept and on one that is not.
    Row {
        name: "posted errors: on an object that is kept",
        acts: &[
            Act::Do(Call::Insert(true)),
            Act::Do(Call::Create(FIRST, QUAD, 3, 9)),
            Act::Do(Call::PostError(NONE, 7, "no")),
            Act::Do(Call::PostError(MADE, 7, "no")),
            Act::Do(Call::PostError(MADE, 8, "late")),
            Act::Do(Call::TakeSent(FIRST)),
            Act::Do(Call::Notes),
        ],
        told: "client 0, 1\ncreated 4278190080, 1, 4 of 0\n01 00 00 00 00 00 18 00 00 00 00 ff 07 00 00 00 03 00 00 00 6e 6f 00 00\ninitialized 0, 1\ndisconnected 0, 1: error 7 on quad 4278190080: no\n",
    },
    Row {
        name: "posted errors: on one that is not",
        acts: &[
            Act::Do(Call::Insert(true)),
            Act::Do(Call::PostError(MADE, 7, "no")),
            Act::Do(Call::TakeSent(FIRST)),
            Act::Do(Call::Notes),
        ],
        told: "client 0, 1\ninitialized 0, 1\ndisconnected 0, 1: error 7 on quad 4278190080: no\n",
    },
    // A transport that lacks memory: what was handled stays, and the reading goes on.
    Row {
        name: "want of memory of a transport",
        acts: &[
            Act::Do(Call::Insert(true)),
            Act::Do(Call::ArriveFault(FIRST, IoFault::OutOfMemory)),
            Act::Do(Call::Arrive(FIRST, &SYNC)),
            Act::InWant(Call::Next(FIRST)),
            Act::Do(Call::Next(FIRST)),
            Act::Do(Call::AcceptFault(FIRST, IoFault::OutOfMemory)),
            Act::InWant(Call::Flush(FIRST)),
            Act::Do(Call::AcceptFault(FIRST, IoFault::OutOfMemory)),
            Act::InWant(Call::FlushAll),
            Act::Do(Call::Flush(FIRST)),
            Act::Do(Call::TakeSent(FIRST)),
            Act::Do(Call::Notes),
        ],
        told: "client 0, 1\nstopped at 0\nIo error: would block\nstopped at 0\nstopped at 0\ndone\n02 00 00 00 00 00 0c 00 00 00 00 00 01 00 00 00 01 00 0c 00 02 00 00 00\ninitialized 0, 1\n",
    },
];

/// What is told of errors that no run gets.
fn tell_refusals(log: &mut String) -> Result<(), Fail> {
    done(log, &Err(InsertClientError::Full))?;
    done(log, &Err(CreateError::IdsExhausted))?;
    done(log, &Err(CreateError::SerialsExhausted))?;
    done(log, &Err(GlobalError::Full))?;
    done(log, &Err(ScriptError::TooManyTokens))
}

/// The same as a log.
fn refusals(alloc: Global) -> Result<String, Fail> {
    let mut log = String::new(alloc);
    tell_refusals(&mut log)?;
    Ok(log)
}

/// Each run tells what it has to, and so does each error that no run gets.
#[test]
fn rows(rt: HostRuntime) -> Result<(), Fail> {
    rows_tell(&rt, &ROWS)?;
    tells(
        &rt,
        refusals(rt.alloc()),
        "no slot or no serial is left\nno number is left\nno serial is left\nno name or no serial is left\nmore tokens than a receive may give\n",
    )
}
