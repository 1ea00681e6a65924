//! The limit of objects: who is refused an object, and who is not.

use super::run::{Act, Look, Row, rows_tell};
use server_test_kit::arrivals::{
    BIND, BIND_AT_4, DESTROY_4, GET_REGISTRY, MAKE, MAKE_BY_SERVER, SYNC, SYNC_AT_5,
};
use server_test_kit::steps::Call;
use server_test_kit::values::{BOUND, FIRST, SECOND};
use std::test::Fail;
use test_kit::quad::QUAD;

/// The runs, and what they tell.
static ROWS: [Row; 8] = [
    // The display has the number 1, so no other object may be made. The client is told on its display.
    Row {
        name: "sync beyond the limit",
        acts: &[
            Act::Do(Call::ObjectLimit(Some(1))),
            Act::Do(Call::Insert(true)),
            Act::Do(Call::Arrive(FIRST, &SYNC)),
            Act::Do(Call::Next(FIRST)),
            Act::Do(Call::TakeSent(FIRST)),
            Act::Do(Call::Next(FIRST)),
            Act::Do(Call::Notes),
        ],
        told: "client 0, 1\nIo error: broken pipe\n01 00 00 00 00 00 34 00 01 00 00 00 02 00 00 00 1d 00 00 00 54 6f 6f 20 6d 61 6e 79 20 6f 62 6a 65 63 74 73 3a 20 61 74 20 6d 6f 73 74 20 31 2e 00 00 00 00\nIo error: broken pipe\ninitialized 0, 1\ndisconnected 0, 1: error 2 on wl_display 1: Too many objects: at most 1.\n",
    },
    // A registry beyond the limit is told of no global.
    Row {
        name: "registry beyond the limit",
        acts: &[
            Act::Do(Call::Insert(true)),
            Act::Do(Call::Global(QUAD, 3)),
            Act::Do(Call::ObjectLimit(Some(1))),
            Act::Do(Call::Arrive(FIRST, &GET_REGISTRY)),
            Act::Do(Call::Next(FIRST)),
            Act::Look(Look::Lengths(FIRST)),
            Act::Look(Look::Objects(FIRST)),
        ],
        told: "client 0, 1\nglobal 1, 1\nIo error: broken pipe\n52 bytes\nobjects: 1\n",
    },
    // The limit is the last number that may be used.
    Row {
        name: "bind beyond the limit",
        acts: &[
            Act::Do(Call::ObjectLimit(Some(3))),
            Act::Do(Call::Insert(true)),
            Act::Do(Call::Global(QUAD, 3)),
            Act::Do(Call::Arrive(FIRST, &GET_REGISTRY)),
            Act::Do(Call::Next(FIRST)),
            Act::Do(Call::Arrive(FIRST, &BIND)),
            Act::Do(Call::Next(FIRST)),
            Act::Do(Call::FinishBind(FIRST, 9)),
            Act::Do(Call::Arrive(FIRST, &BIND_AT_4)),
            Act::Do(Call::Next(FIRST)),
            Act::Do(Call::Notes),
        ],
        told: "client 0, 1\nglobal 1, 1\nIo error: would block\nglobal 1, 1 bound as 3, 2, 4 of 0\nfinished\nIo error: broken pipe\ninitialized 0, 1\ndisconnected 0, 1: error 2 on wl_display 1: Too many objects: at most 3.\n",
    },
    // It is asked for each new object as it is then. Objects that are there stay, but their numbers are not used again.
    Row {
        name: "limit is raised, lifted and lowered",
        acts: &[
            Act::Do(Call::ObjectLimit(Some(4))),
            Act::Do(Call::Insert(true)),
            Act::Do(Call::Global(QUAD, 3)),
            Act::Do(Call::Arrive(FIRST, &GET_REGISTRY)),
            Act::Do(Call::Next(FIRST)),
            Act::Do(Call::Arrive(FIRST, &BIND)),
            Act::Do(Call::Next(FIRST)),
            Act::Do(Call::FinishBind(FIRST, 9)),
            Act::Do(Call::Arrive(FIRST, &MAKE)),
            Act::Do(Call::Next(FIRST)),
            Act::Do(Call::Finish(FIRST, Some(5))),
            Act::Do(Call::ObjectLimit(None)),
            Act::Do(Call::Arrive(FIRST, &SYNC_AT_5)),
            Act::Do(Call::Next(FIRST)),
            Act::Do(Call::ObjectLimit(Some(2))),
            Act::Look(Look::Info(BOUND)),
            Act::Do(Call::Arrive(FIRST, &DESTROY_4)),
            Act::Do(Call::Next(FIRST)),
            Act::Do(Call::Finish(FIRST, None)),
            Act::Do(Call::Arrive(FIRST, &MAKE)),
            Act::Do(Call::Next(FIRST)),
            Act::Do(Call::Notes),
        ],
        told: "client 0, 1\nglobal 1, 1\nIo error: would block\nglobal 1, 1 bound as 3, 2, 4 of 0\nfinished\nrequest 1 to 3, 2, 4 of 0: new 4, 3, 4 of 0, which makes 4, 3, 4 of 0\nfinished\nIo error: would block\nversion 3\nrequest 2 to 4, 3, 4 of 0, which ends it\nfinished\nIo error: broken pipe\ninitialized 0, 1\ndestroyed 4, 3, 4 of 0 with 5\ndisconnected 0, 1: error 2 on wl_display 1: Too many objects: at most 2.\n",
    },
    // A request beyond the limit, which could be handed out where it stands.
    Row {
        name: "request beyond the limit",
        acts: &[
            Act::Do(Call::ObjectLimit(Some(3))),
            Act::Do(Call::Insert(true)),
            Act::Do(Call::Global(QUAD, 3)),
            Act::Do(Call::Arrive(FIRST, &GET_REGISTRY)),
            Act::Do(Call::Next(FIRST)),
            Act::Do(Call::Arrive(FIRST, &BIND)),
            Act::Do(Call::Next(FIRST)),
            Act::Do(Call::FinishBind(FIRST, 9)),
            Act::Do(Call::Arrive(FIRST, &MAKE)),
            Act::Do(Call::Next(FIRST)),
            Act::Look(Look::ObjectWalk(FIRST)),
        ],
        told: "client 0, 1\nglobal 1, 1\nIo error: would block\nglobal 1, 1 bound as 3, 2, 4 of 0\nfinished\nIo error: broken pipe\nobjects: 1, 0 of 0; 2, 1 of 0; 3, 2 of 0;\n",
    },
    // A sync at a number that was in use needs no object for its callback, but the limit is asked all the same.
    Row {
        name: "sync at a number that was in use",
        acts: &[
            Act::Do(Call::Insert(true)),
            Act::Do(Call::Arrive(FIRST, &SYNC)),
            Act::Do(Call::Next(FIRST)),
            Act::Do(Call::Arrive(FIRST, &SYNC)),
            Act::Do(Call::Next(FIRST)),
            Act::Do(Call::ObjectLimit(Some(2))),
            Act::Do(Call::Arrive(FIRST, &SYNC)),
            Act::Do(Call::Next(FIRST)),
            Act::Do(Call::ObjectLimit(Some(1))),
            Act::Do(Call::Arrive(FIRST, &SYNC)),
            Act::Do(Call::Next(FIRST)),
        ],
        told: "client 0, 1\nIo error: would block\nIo error: would block\nIo error: would block\nIo error: broken pipe\n",
    },
    // What the program creates is not limited, also at a number of the client's. The limit is looked at before a number that is not
    // free, and before a version that lacks the request.
    Row {
        name: "objects of the program",
        acts: &[
            Act::Do(Call::ObjectLimit(Some(1))),
            Act::Do(Call::Insert(true)),
            Act::Do(Call::Create(FIRST, QUAD, 1, 9)),
            Act::Do(Call::CreateAt(FIRST, QUAD, 3, 2, 8)),
            Act::Do(Call::Arrive(FIRST, &MAKE_BY_SERVER)),
            Act::Do(Call::Next(FIRST)),
            Act::Do(Call::Notes),
        ],
        told: "client 0, 1\ncreated 4278190080, 1, 4 of 0\ncreated 2, 2, 4 of 0\nIo error: broken pipe\ninitialized 0, 1\ndisconnected 0, 1: error 2 on wl_display 1: Too many objects: at most 1.\n",
    },
    // Each client has the limit by itself.
    Row {
        name: "two clients",
        acts: &[
            Act::Do(Call::Insert(true)),
            Act::Do(Call::ObjectLimit(Some(2))),
            Act::Do(Call::Insert(true)),
            Act::Do(Call::Arrive(FIRST, &GET_REGISTRY)),
            Act::Do(Call::Arrive(SECOND, &GET_REGISTRY)),
            Act::Do(Call::Next(FIRST)),
            Act::Do(Call::Next(SECOND)),
            Act::Do(Call::Arrive(FIRST, &SYNC_AT_5)),
            Act::Do(Call::Next(FIRST)),
            Act::Do(Call::Next(SECOND)),
        ],
        told: "client 0, 1\nclient 1, 2\nIo error: would block\nIo error: would block\nIo error: broken pipe\nIo error: would block\n",
    },
];

/// Each run tells what it has to.
#[test]
fn rows(rt: HostRuntime) -> Result<(), Fail> {
    rows_tell(&rt, &ROWS)
}
