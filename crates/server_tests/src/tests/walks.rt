//! Walks over clients and over objects.

use super::run::{Act, Look, Row, rows_tell};
use server_test_kit::arrivals::GET_REGISTRY;
use server_test_kit::steps::Call;
use server_test_kit::values::{FIRST, SECOND, Who};
use std::test::Fail;
use test_kit::quad::QUAD;

/// The runs, and what they tell.
static ROWS: [Row; 3] = [
    // All clients are walked through: none of a new server, and each live one once. So are the objects of a client, by their
    // numbers, and of one that is not stored none.
    Row {
        name: "walks are counted",
        acts: &[
            Act::Look(Look::Clients),
            Act::Look(Look::Objects(FIRST)),
            Act::Do(Call::Insert(true)),
            Act::Look(Look::Clients),
            Act::Look(Look::Objects(FIRST)),
            Act::Do(Call::Create(FIRST, QUAD, 3, 9)),
            Act::Do(Call::Create(FIRST, QUAD, 3, 9)),
            Act::Do(Call::Arrive(FIRST, &GET_REGISTRY)),
            Act::Do(Call::Next(FIRST)),
            Act::Look(Look::Objects(FIRST)),
            Act::Do(Call::Insert(true)),
            Act::Do(Call::Insert(true)),
            Act::Look(Look::Clients),
            Act::Look(Look::Objects(SECOND)),
            Act::Look(Look::Objects(Who(1, 1))),
            Act::Do(Call::Kill(FIRST)),
            Act::Look(Look::Clients),
            Act::Look(Look::Objects(FIRST)),
            Act::Do(Call::Kill(SECOND)),
            Act::Do(Call::Kill(Who(2, 3))),
            Act::Look(Look::Clients),
            Act::Do(Call::Cleanup),
            Act::Look(Look::Clients),
            Act::Look(Look::Objects(FIRST)),
        ],
        told: "live: 0\nInvalid Id, objects: 0\nclient 0, 1\nlive: 1\nobjects: 1\ncreated 4278190080, 1, 4 of 0\ncreated 4278190081, 2, 4 of 0\nIo error: would block\nobjects: 1423\nclient 1, 2\nclient 2, 3\nlive: 123\nobjects: 1\nInvalid Id, objects: 0\nlive: 23\nobjects: 1423\nlive: 0\nout: client 0, 1 with 0 sends client 1, 2 with 0 sends client 2, 3 with 0 sends\nlive: 0\nInvalid Id, objects: 0\n",
    },
    // However many there are, each is walked through once.
    Row {
        name: "walks of many are counted",
        acts: &[
            Act::Do(Call::Insert(true)),
            Act::Do(Call::Insert(true)),
            Act::Do(Call::Insert(true)),
            Act::Do(Call::Insert(true)),
            Act::Do(Call::Insert(true)),
            Act::Look(Look::Clients),
            Act::Do(Call::Create(FIRST, QUAD, 3, 9)),
            Act::Do(Call::Create(FIRST, QUAD, 3, 9)),
            Act::Do(Call::Create(FIRST, QUAD, 3, 9)),
            Act::Do(Call::Create(FIRST, QUAD, 3, 9)),
            Act::Do(Call::Create(FIRST, QUAD, 3, 9)),
            Act::Look(Look::Objects(FIRST)),
        ],
        told: "client 0, 1\nclient 1, 2\nclient 2, 3\nclient 3, 4\nclient 4, 5\nlive: 12345\ncreated 4278190080, 1, 4 of 0\ncreated 4278190081, 2, 4 of 0\ncreated 4278190082, 3, 4 of 0\ncreated 4278190083, 4, 4 of 0\ncreated 4278190084, 5, 4 of 0\nobjects: 123456\n",
    },
    // The iterators give the id of each live client, and of each object of a client that is stored, killed or not.
    Row {
        name: "walks give each id once",
        acts: &[
            Act::Look(Look::ClientWalk),
            Act::Look(Look::ObjectWalk(FIRST)),
            Act::Do(Call::Insert(true)),
            Act::Look(Look::ClientWalk),
            Act::Look(Look::ObjectWalk(FIRST)),
            Act::Do(Call::Create(FIRST, QUAD, 3, 9)),
            Act::Do(Call::Create(FIRST, QUAD, 3, 9)),
            Act::Do(Call::Arrive(FIRST, &GET_REGISTRY)),
            Act::Do(Call::Next(FIRST)),
            Act::Look(Look::ObjectWalk(FIRST)),
            Act::Do(Call::Insert(true)),
            Act::Do(Call::Insert(true)),
            Act::Do(Call::Kill(SECOND)),
            Act::Look(Look::ClientWalk),
            Act::Look(Look::ObjectWalk(SECOND)),
            Act::Do(Call::Cleanup),
            Act::Look(Look::ObjectWalk(SECOND)),
            Act::Do(Call::Insert(true)),
            Act::Look(Look::ClientWalk),
            Act::Look(Look::ObjectWalk(Who(1, 4))),
            Act::Look(Look::ObjectWalk(FIRST)),
        ],
        told: "clients:\nInvalid Id\nclient 0, 1\nclients: 0, 1;\nobjects: 1, 0 of 0;\ncreated 4278190080, 1, 4 of 0\ncreated 4278190081, 2, 4 of 0\nIo error: would block\nobjects: 1, 0 of 0; 2, 3 of 0; 4278190080, 1 of 0; 4278190081, 2 of 0;\nclient 1, 2\nclient 2, 3\nclients: 0, 1; 2, 3;\nobjects: 1, 0 of 1;\nout: client 1, 2 with 0 sends\nInvalid Id\nclient 1, 4\nclients: 0, 1; 1, 4; 2, 3;\nobjects: 1, 0 of 1;\nobjects: 1, 0 of 0; 2, 3 of 0; 4278190080, 1 of 0; 4278190081, 2 of 0;\n",
    },
];

/// Each run tells what it has to.
#[test]
fn rows(rt: HostRuntime) -> Result<(), Fail> {
    rows_tell(&rt, &ROWS)
}
