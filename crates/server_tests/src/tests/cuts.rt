//! What breaks the protocol, in every cutting: whole, in two at each place, and byte by byte.

use super::run::{Act, Look, log_of};
use server_test_kit::arrivals::{
    GET_REGISTRY, LINK_OF_2, LINK_OF_9, LINK_OF_NONE, MAKE, SYNC_AT_5, SYNC_AT_SERVER,
    UNKNOWN_OPCODE, UNKNOWN_SENDER,
};
use server_test_kit::steps::Call;
use server_test_kit::values::{FIRST, Named, SECOND};
use std::alloc::Global;
use std::test::Fail;
use test_kit::cuts::{Stream, cut_of, cutting_tells};
use test_kit::quad::QUAD;
use wl_wire::IoFault;

/// A run of which what arrives of the first client is cut, and what it tells in each cutting.
#[derive(Clone, Copy)]
struct Row {
    name: &'static str,
    before: &'static [Call],
    arrives: Stream,
    after: &'static [Act],
    told: &'static str,
}

/// The registry 2, and the global 1 bound as the `quad` 3 of version 3.
const BOUND: [u8; 44] = [
    1, 0, 0, 0, 1, 0, 12, 0, 2, 0, 0, 0, 2, 0, 0, 0, 0, 0, 32, 0, 1, 0, 0, 0, 5, 0, 0, 0, 113, 117,
    97, 100, 0, 0, 0, 0, 3, 0, 0, 0, 3, 0, 0, 0,
];

/// The same of version 1.
const BOUND_AT_1: [u8; 44] = [
    1, 0, 0, 0, 1, 0, 12, 0, 2, 0, 0, 0, 2, 0, 0, 0, 0, 0, 32, 0, 1, 0, 0, 0, 5, 0, 0, 0, 113, 117,
    97, 100, 0, 0, 0, 0, 1, 0, 0, 0, 3, 0, 0, 0,
];

/// The registry 2, and a bind of version 1 without a name.
const BOUND_WITHOUT_A_NAME: [u8; 36] = [
    1, 0, 0, 0, 1, 0, 12, 0, 2, 0, 0, 0, 2, 0, 0, 0, 0, 0, 24, 0, 1, 0, 0, 0, 0, 0, 0, 0, 1, 0, 0,
    0, 3, 0, 0, 0,
];

/// The registry 2, and the front of a bind with a name of 1400 bytes.
const LONG_BIND: [u8; 28] = [
    1, 0, 0, 0, 1, 0, 12, 0, 2, 0, 0, 0, 2, 0, 0, 0, 0, 0, 0x94, 5, 1, 0, 0, 0, 0x79, 5, 0, 0,
];

/// Its back.
const LONG_BIND_BACK: [u8; 12] = [0, 0, 0, 0, 3, 0, 0, 0, 3, 0, 0, 0];

/// `quad.make`, by object 3, with the new id 4; `quad.link`, by object 3, of no object and of object 4; `quad.destroy`, by
/// object 4; and a sync with the new id 4.
const REQUESTS: [u8; 48] = [
    3, 0, 0, 0, 1, 0, 12, 0, 4, 0, 0, 0, 3, 0, 0, 0, 3, 0, 16, 0, 0, 0, 0, 0, 4, 0, 0, 0, 4, 0, 0,
    0, 2, 0, 8, 0, 1, 0, 0, 0, 0, 0, 12, 0, 4, 0, 0, 0,
];

/// A client and a global.
const OFFERED: [Call; 2] = [Call::Insert(true), Call::Global(QUAD, 3)];

/// A client alone.
const ALONE: [Call; 1] = [Call::Insert(true)];

/// A client, and a global of which nothing is announced.
const DISABLED: [Call; 3] = [
    Call::Insert(true),
    Call::Global(QUAD, 3),
    Call::Disable(Named(1, 1)),
];

/// Two clients, the second with a registry.
const TWO: [Call; 4] = [
    Call::Insert(true),
    Call::Insert(true),
    Call::Arrive(SECOND, &[1, 0, 0, 0, 1, 0, 12, 0, 2, 0, 0, 0]),
    Call::Next(SECOND),
];

/// What was sent so far, and the notes.
const AS_IT_ENDS: [Act; 2] = [Act::Do(Call::TakeSent(FIRST)), Act::Do(Call::Notes)];

/// What is sent after a flush, and the notes.
const FLUSHED: [Act; 3] = [
    Act::Do(Call::Flush(FIRST)),
    Act::Do(Call::TakeSent(FIRST)),
    Act::Do(Call::Notes),
];

/// The 147th global, if the first client cannot be written to.
const ONE_MORE_GLOBAL: [Act; 11] = [
    Act::Globals(146),
    Act::Do(Call::AcceptFault(FIRST, IoFault::Pipe)),
    Act::Do(Call::Global(QUAD, 3)),
    Act::Look(Look::Lengths(FIRST)),
    Act::Look(Look::Lengths(SECOND)),
    Act::Do(Call::FlushAll),
    Act::Look(Look::Lengths(FIRST)),
    Act::Look(Look::Lengths(SECOND)),
    Act::Do(Call::Flush(FIRST)),
    Act::Look(Look::Lengths(FIRST)),
    Act::Do(Call::Notes),
];

/// The rows.
static ROWS: [Row; 10] = [
    Row {
        name: "requests",
        before: &OFFERED,
        arrives: Stream {
            front: &BOUND,
            filled: 0,
            back: &REQUESTS,
        },
        after: &FLUSHED,
        told: "global 1, 1 bound as 3, 2, 4 of 0\nrequest 1 to 3, 2, 4 of 0: new 4, 3, 4 of 0, which makes 4, 3, 4 of 0\nrequest 3 to 3, 2, 4 of 0: object 0, 0, 0 of 0: object 4, 3, 4 of 0\nrequest 2 to 4, 3, 4 of 0, which ends it\nIo error: would block\ndone\n02 00 00 00 00 00 1c 00 01 00 00 00 05 00 00 00 71 75 61 64 00 00 00 00 03 00 00 00 01 00 00 00 01 00 0c 00 04 00 00 00 04 00 00 00 00 00 0c 00 00 00 00 00 01 00 00 00 01 00 0c 00 04 00 00 00\ninitialized 0, 1\ndestroyed 4, 3, 4 of 0 with 5\n",
    },
    Row {
        name: "a null object",
        before: &OFFERED,
        arrives: Stream {
            front: &BOUND,
            filled: 0,
            back: &LINK_OF_NONE,
        },
        after: &AS_IT_ENDS,
        told: "global 1, 1 bound as 3, 2, 4 of 0\nIo error: broken pipe\n02 00 00 00 00 00 1c 00 01 00 00 00 05 00 00 00 71 75 61 64 00 00 00 00 03 00 00 00 01 00 00 00 00 00 40 00 01 00 00 00 00 00 00 00 2a 00 00 00 49 6e 76 61 6c 69 64 20 6e 75 6c 6c 20 6f 62 6a 65 63 74 20 69 6e 20 72 65 71 75 65 73 74 20 71 75 61 64 2e 6c 69 6e 6b 2e 00 00 00\ninitialized 0, 1\ndisconnected 0, 1: error 0 on wl_display 1: Invalid null object in request quad.link.\n",
    },
    Row {
        name: "an object of another interface",
        before: &OFFERED,
        arrives: Stream {
            front: &BOUND,
            filled: 0,
            back: &LINK_OF_2,
        },
        after: &AS_IT_ENDS,
        told: "global 1, 1 bound as 3, 2, 4 of 0\nIo error: broken pipe\n02 00 00 00 00 00 1c 00 01 00 00 00 05 00 00 00 71 75 61 64 00 00 00 00 03 00 00 00 01 00 00 00 00 00 60 00 01 00 00 00 00 00 00 00 4a 00 00 00 49 6e 76 61 6c 69 64 20 6f 62 6a 65 63 74 20 32 20 69 6e 20 72 65 71 75 65 73 74 20 71 75 61 64 2e 6c 69 6e 6b 3a 20 65 78 70 65 63 74 65 64 20 71 75 61 64 20 62 75 74 20 67 6f 74 20 77 6c 5f 72 65 67 69 73 74 72 79 2e 00 00 00\ninitialized 0, 1\ndisconnected 0, 1: error 0 on wl_display 1: Invalid object 2 in request quad.link: expected quad but got wl_registry.\n",
    },
    Row {
        name: "an unknown object",
        before: &OFFERED,
        arrives: Stream {
            front: &BOUND,
            filled: 0,
            back: &LINK_OF_9,
        },
        after: &AS_IT_ENDS,
        told: "global 1, 1 bound as 3, 2, 4 of 0\nIo error: broken pipe\n02 00 00 00 00 00 1c 00 01 00 00 00 05 00 00 00 71 75 61 64 00 00 00 00 03 00 00 00 01 00 00 00 00 00 24 00 01 00 00 00 00 00 00 00 0f 00 00 00 55 6e 6b 6e 6f 77 6e 20 69 64 3a 20 39 2e 00 00\ninitialized 0, 1\ndisconnected 0, 1: error 0 on wl_display 1: Unknown id: 9.\n",
    },
    Row {
        name: "an unknown sender",
        before: &OFFERED,
        arrives: Stream {
            front: &BOUND,
            filled: 0,
            back: &UNKNOWN_SENDER,
        },
        after: &AS_IT_ENDS,
        told: "global 1, 1 bound as 3, 2, 4 of 0\nIo error: protocol fault\ninitialized 0, 1\ndisconnected 0, 1: closed\n",
    },
    Row {
        name: "an unknown opcode",
        before: &OFFERED,
        arrives: Stream {
            front: &BOUND,
            filled: 0,
            back: &UNKNOWN_OPCODE,
        },
        after: &AS_IT_ENDS,
        told: "global 1, 1 bound as 3, 2, 4 of 0\nIo error: protocol fault\ninitialized 0, 1\ndisconnected 0, 1: closed\n",
    },
    Row {
        name: "a new id that is not the next",
        before: &ALONE,
        arrives: Stream {
            front: &SYNC_AT_5,
            filled: 0,
            back: &[],
        },
        after: &AS_IT_ENDS,
        told: "Io error: broken pipe\n01 00 00 00 00 00 28 00 01 00 00 00 00 00 00 00 13 00 00 00 49 6e 76 61 6c 69 64 20 6e 65 77 5f 69 64 3a 20 35 2e 00 00\ninitialized 0, 1\ndisconnected 0, 1: error 0 on wl_display 1: Invalid new_id: 5.\n",
    },
    Row {
        name: "a new id of the server's range",
        before: &ALONE,
        arrives: Stream {
            front: &SYNC_AT_SERVER,
            filled: 0,
            back: &[],
        },
        after: &AS_IT_ENDS,
        told: "Io error: broken pipe\n01 00 00 00 00 00 30 00 01 00 00 00 00 00 00 00 1c 00 00 00 49 6e 76 61 6c 69 64 20 6e 65 77 5f 69 64 3a 20 34 32 37 38 31 39 30 30 38 30 2e 00\ninitialized 0, 1\ndisconnected 0, 1: error 0 on wl_display 1: Invalid new_id: 4278190080.\n",
    },
    Row {
        name: "a bind without a name",
        before: &OFFERED,
        arrives: Stream {
            front: &BOUND_WITHOUT_A_NAME,
            filled: 0,
            back: &[],
        },
        after: &AS_IT_ENDS,
        told: "Io error: broken pipe\n02 00 00 00 00 00 1c 00 01 00 00 00 05 00 00 00 71 75 61 64 00 00 00 00 03 00 00 00 01 00 00 00 00 00 40 00 01 00 00 00 00 00 00 00 2c 00 00 00 49 6e 76 61 6c 69 64 20 62 69 6e 64 69 6e 67 20 6f 66 20 20 76 65 72 73 69 6f 6e 20 31 20 66 6f 72 20 67 6c 6f 62 61 6c 20 31 2e 00\ninitialized 0, 1\ndisconnected 0, 1: error 0 on wl_display 1: Invalid binding of  version 1 for global 1.\n",
    },
    Row {
        name: "a request of a later version",
        before: &OFFERED,
        arrives: Stream {
            front: &BOUND_AT_1,
            filled: 0,
            back: &MAKE,
        },
        after: &AS_IT_ENDS,
        told: "global 1, 1 bound as 3, 2, 4 of 0\nIo error: broken pipe\n02 00 00 00 00 00 1c 00 01 00 00 00 05 00 00 00 71 75 61 64 00 00 00 00 03 00 00 00 01 00 00 00 00 00 44 00 01 00 00 00 01 00 00 00 2e 00 00 00 69 6e 76 61 6c 69 64 20 6d 65 74 68 6f 64 20 31 20 28 73 69 6e 63 65 20 31 20 3c 20 32 29 2c 20 6f 62 6a 65 63 74 20 71 75 61 64 23 33 00 00 00\ninitialized 0, 1\ndisconnected 0, 1: error 1 on wl_display 1: invalid method 1 (since 1 < 2), object quad#3\n",
    },
];

/// A bind with a name that makes its error too long to be sent.
static LONG_BIND_ROW: Row = Row {
    name: "a bind with a name of 1400 bytes",
    before: &DISABLED,
    arrives: Stream {
        front: &LONG_BIND,
        filled: 1400,
        back: &LONG_BIND_BACK,
    },
    after: &AS_IT_ENDS,
    told: "Io error: broken pipe\ninitialized 0, 1\ndisconnected 0, 1: closed\n",
};

/// The 147th global, of which one client cannot be told.
static MANY_GLOBALS: Row = Row {
    name: "147 globals",
    before: &TWO,
    arrives: Stream {
        front: &GET_REGISTRY,
        filled: 0,
        back: &[],
    },
    after: &ONE_MORE_GLOBAL,
    told: "Io error: would block\nglobal 147, 147\n4088 bytes\ndone\n4088 bytes\n28 bytes\ndone\n4088 bytes\ninitialized 0, 1\ninitialized 1, 2\ndisconnected 0, 1: closed\n",
};

/// Puts the calls before the arrival, and the arrival in the cutting of that number.
fn push_front(acts: &mut Vec<Act>, row: &Row, number: usize, len: usize) -> Result<(), Fail> {
    acts.push(Act::Quietly(row.before))?;
    acts.push(Act::ArriveCut(FIRST, row.arrives, cut_of(number, len), None))?;
    Ok(acts.push(Act::Serve(FIRST))?)
}

/// What the row tells in the cutting of that number.
fn told_in(alloc: Global, row: &Row, number: usize, len: usize) -> Result<String, Fail> {
    let mut acts = Vec::new(alloc);
    push_front(&mut acts, row, number, len)?;
    acts.extend_from_slice(row.after)?;
    log_of(alloc, acts.as_slice())
}

/// Fails if the row tells something else in the cutting of that number, and names it.
fn in_cutting(
    rt: &(impl Eprint + AllocGlobal),
    row: &Row,
    number: usize,
    len: usize,
) -> Result<(), Fail> {
    let told = told_in(rt.alloc(), row, number, len)?;
    cutting_tells(rt, (row.name, number), told.as_str(), row.told)
}

/// Fails if the row tells something else in a cutting.
fn in_every_cutting(rt: &(impl Eprint + AllocGlobal), row: &Row) -> Result<(), Fail> {
    let len = row.arrives.bytes(rt.alloc())?.len();
    for number in 0..=len {
        in_cutting(rt, row, number, len)?;
    }
    Ok(())
}

/// Cutting does not matter to what is answered, sent and noted.
#[test]
fn rows_in_every_cutting(rt: HostRuntime) -> Result<(), Fail> {
    for row in &ROWS {
        in_every_cutting(&rt, row)?;
    }
    Ok(())
}

#[test]
fn long_bind_in_every_cutting(rt: HostRuntime) -> Result<(), Fail> {
    in_every_cutting(&rt, &LONG_BIND_ROW)
}

#[test]
fn many_globals_in_every_cutting(rt: HostRuntime) -> Result<(), Fail> {
    in_every_cutting(&rt, &MANY_GLOBALS)
}
