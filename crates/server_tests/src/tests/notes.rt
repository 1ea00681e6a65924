//! Notes of several clients, in order of time.

use super::run::{Act, Row, rows_tell};
use server_test_kit::arrivals::{BIND, BIND_AT_4, DESTROY, DESTROY_4, GET_REGISTRY};
use server_test_kit::steps::Call;
use server_test_kit::values::{DISPLAY, Event, FIRST, SECOND, THIRD, Thing, Who};
use std::test::Fail;
use test_kit::quad::QUAD;

/// The first object that the server makes for the first client.
const MADE: Thing = Thing(FIRST, 0xFF00_0000, 1, QUAD);

/// `quad.destroy`, by the first object that the server made for the client.
const DESTROY_FIRST_MADE: [u8; 8] = [0, 0, 0, 255, 2, 0, 8, 0];

/// The same by the second.
const DESTROY_SECOND_MADE: [u8; 8] = [1, 0, 0, 255, 2, 0, 8, 0];

/// The client that is inserted fourth.
const FOURTH: Who = Who(3, 4);

/// The client that is inserted fifth.
const FIFTH: Who = Who(4, 5);

/// The client that is inserted sixth, after the third was taken out.
const SIXTH: Who = Who(2, 6);

/// The runs, and what they tell.
static ROWS: [Row; 5] = [
    // Notes wait for a cleanup in the order in which their objects were destroyed, whichever client's those were. The notes of a
    // client that is taken out come after them.
    Row {
        name: "notes stand in order of time",
        acts: &[
            Act::Do(Call::Insert(true)),
            Act::Do(Call::Insert(true)),
            Act::Do(Call::Create(FIRST, QUAD, 3, 1)),
            Act::Do(Call::Create(FIRST, QUAD, 3, 2)),
            Act::Do(Call::Create(SECOND, QUAD, 3, 1)),
            Act::Do(Call::Create(SECOND, QUAD, 3, 2)),
            Act::Do(Call::Destroy(Thing(SECOND, 0xFF00_0000, 1, QUAD))),
            Act::Do(Call::Destroy(Thing(FIRST, 0xFF00_0000, 1, QUAD))),
            Act::Do(Call::Destroy(Thing(SECOND, 0xFF00_0001, 2, QUAD))),
            Act::Do(Call::Kill(FIRST)),
            Act::Do(Call::Cleanup),
            Act::Do(Call::Notes),
            Act::Do(Call::Notes),
        ],
        told: "client 0, 1\nclient 1, 2\ncreated 4278190080, 1, 4 of 0\ncreated 4278190081, 2, 4 of 0\ncreated 4278190080, 1, 4 of 1\ncreated 4278190081, 2, 4 of 1\ndone\ndone\ndone\nout: client 0, 1 with 0 sends\ninitialized 0, 1\ninitialized 1, 2\ndisconnected 0, 1: closed\ndestroyed 4278190080, 1, 4 of 1 with 1\ndestroyed 4278190080, 1, 4 of 0 with 1\ndestroyed 4278190081, 2, 4 of 1 with 2\ndestroyed 4278190081, 2, 4 of 0 with 2\n",
    },
    // What is destroyed twice, or cannot be, is refused, and noted once.
    Row {
        name: "objects are destroyed once",
        acts: &[
            Act::Do(Call::Insert(true)),
            Act::Do(Call::Create(FIRST, QUAD, 3, 1)),
            Act::Do(Call::SetData(MADE, 8)),
            Act::Do(Call::Destroy(MADE)),
            Act::Do(Call::Destroy(MADE)),
            Act::Do(Call::Destroy(DISPLAY)),
            Act::Do(Call::SetData(MADE, 9)),
            Act::Do(Call::Create(FIRST, QUAD, 2, 3)),
            Act::Do(Call::Cleanup),
            Act::Do(Call::Cleanup),
            Act::Do(Call::Notes),
        ],
        told: "client 0, 1\ncreated 4278190080, 1, 4 of 0\ndone\ndone\nInvalid Id\nInvalid Id\nInvalid Id\ncreated 4278190080, 2, 4 of 0\nout:\nout:\ninitialized 0, 1\ndestroyed 4278190080, 1, 4 of 0 with 8\n",
    },
    // Objects that end by their clients' requests, in turn, are noted at once, and so is a kill between them, whichever slots
    // the clients have; what the program destroyed meanwhile is noted after the next cleanup.
    Row {
        name: "ends stand in order of time",
        acts: &[
            Act::Do(Call::Insert(true)),
            Act::Do(Call::Insert(true)),
            Act::Do(Call::Insert(true)),
            Act::Do(Call::Global(QUAD, 3)),
            Act::Do(Call::Arrive(FIRST, &GET_REGISTRY)),
            Act::Do(Call::Arrive(FIRST, &BIND)),
            Act::Do(Call::Next(FIRST)),
            Act::Do(Call::FinishBind(FIRST, 9)),
            Act::Do(Call::Arrive(FIRST, &BIND_AT_4)),
            Act::Do(Call::Next(FIRST)),
            Act::Do(Call::FinishBind(FIRST, 8)),
            Act::Do(Call::Arrive(SECOND, &GET_REGISTRY)),
            Act::Do(Call::Arrive(SECOND, &BIND)),
            Act::Do(Call::Next(SECOND)),
            Act::Do(Call::FinishBind(SECOND, 7)),
            Act::Do(Call::Arrive(SECOND, &BIND_AT_4)),
            Act::Do(Call::Next(SECOND)),
            Act::Do(Call::FinishBind(SECOND, 6)),
            Act::Do(Call::Arrive(SECOND, &DESTROY)),
            Act::Do(Call::Next(SECOND)),
            Act::Do(Call::Finish(SECOND, None)),
            Act::Do(Call::Kill(Who(2, 3))),
            Act::Do(Call::Arrive(FIRST, &DESTROY)),
            Act::Do(Call::Next(FIRST)),
            Act::Do(Call::Finish(FIRST, None)),
            Act::Do(Call::Destroy(Thing(FIRST, 4, 3, QUAD))),
            Act::Do(Call::Arrive(SECOND, &DESTROY_4)),
            Act::Do(Call::Next(SECOND)),
            Act::Do(Call::Finish(SECOND, None)),
            Act::Do(Call::Notes),
            Act::Do(Call::Cleanup),
            Act::Do(Call::Notes),
        ],
        told: "client 0, 1\nclient 1, 2\nclient 2, 3\nglobal 1, 1\nglobal 1, 1 bound as 3, 2, 4 of 0\nfinished\nglobal 1, 1 bound as 4, 3, 4 of 0\nfinished\nglobal 1, 1 bound as 3, 2, 4 of 1\nfinished\nglobal 1, 1 bound as 4, 3, 4 of 1\nfinished\nrequest 2 to 3, 2, 4 of 1, which ends it\nfinished\nrequest 2 to 3, 2, 4 of 0, which ends it\nfinished\ndone\nrequest 2 to 4, 3, 4 of 1, which ends it\nfinished\ninitialized 0, 1\ninitialized 1, 2\ninitialized 2, 3\ndestroyed 3, 2, 4 of 1 with 7\ndisconnected 2, 3: closed\ndestroyed 3, 2, 4 of 0 with 9\ndestroyed 4, 3, 4 of 1 with 6\nout: client 2, 3 with 0 sends\ndestroyed 4, 3, 4 of 0 with 8\n",
    },
    // Five clients, whose objects end by requests, by the program and by an event, with kills and an insertion between them.
    // What ends by a request, and each kill, is noted at once; the rest waits for a cleanup. What is noted and not taken yet
    // comes first, then what is noted later.
    Row {
        name: "notes of five clients stand in order of time",
        acts: &[
            Act::Quietly(&[
                Call::Insert(true),
                Call::Insert(true),
                Call::Insert(true),
                Call::Insert(true),
                Call::Insert(true),
                Call::Create(FIRST, QUAD, 3, 11),
                Call::Create(FIRST, QUAD, 3, 12),
                Call::Create(FIRST, QUAD, 3, 13),
                Call::Create(SECOND, QUAD, 3, 21),
                Call::Create(SECOND, QUAD, 3, 22),
                Call::Create(SECOND, QUAD, 3, 23),
                Call::Create(THIRD, QUAD, 3, 31),
                Call::Create(THIRD, QUAD, 3, 32),
                Call::Create(THIRD, QUAD, 3, 33),
                Call::Create(FOURTH, QUAD, 3, 41),
                Call::Create(FOURTH, QUAD, 3, 42),
                Call::Create(FOURTH, QUAD, 3, 43),
                Call::Create(FIFTH, QUAD, 3, 51),
                Call::Create(FIFTH, QUAD, 3, 52),
                Call::Create(FIFTH, QUAD, 3, 53),
            ]),
            Act::Do(Call::Destroy(Thing(FOURTH, 0xFF00_0000, 1, QUAD))),
            Act::Quietly(&[
                Call::Arrive(FIFTH, &DESTROY_FIRST_MADE),
                Call::Next(FIFTH),
                Call::Finish(FIFTH, None),
            ]),
            Act::Do(Call::Destroy(Thing(SECOND, 0xFF00_0000, 1, QUAD))),
            Act::Quietly(&[
                Call::Arrive(FIRST, &DESTROY_FIRST_MADE),
                Call::Next(FIRST),
                Call::Finish(FIRST, None),
            ]),
            Act::Do(Call::Kill(THIRD)),
            Act::Do(Call::Destroy(Thing(FIRST, 0xFF00_0001, 2, QUAD))),
            Act::Quietly(&[
                Call::Arrive(SECOND, &DESTROY_SECOND_MADE),
                Call::Next(SECOND),
                Call::Finish(SECOND, None),
            ]),
            Act::Do(Call::Kill(FIFTH)),
            Act::Do(Call::Notes),
            Act::Do(Call::Destroy(Thing(FIFTH, 0xFF00_0001, 2, QUAD))),
            Act::Quietly(&[
                Call::Arrive(FOURTH, &DESTROY_SECOND_MADE),
                Call::Next(FOURTH),
                Call::Finish(FOURTH, None),
            ]),
            Act::Do(Call::Send(Event::Bare(Thing(SECOND, 0xFF00_0002, 3, QUAD), 2))),
            Act::Do(Call::Cleanup),
            Act::Do(Call::Insert(true)),
            Act::Do(Call::Create(SIXTH, QUAD, 3, 61)),
            Act::Do(Call::Destroy(Thing(FOURTH, 0xFF00_0002, 3, QUAD))),
            Act::Do(Call::Kill(SECOND)),
            Act::Quietly(&[
                Call::Arrive(SIXTH, &DESTROY_FIRST_MADE),
                Call::Next(SIXTH),
                Call::Finish(SIXTH, None),
            ]),
            Act::Do(Call::Destroy(Thing(FIRST, 0xFF00_0002, 3, QUAD))),
            Act::Do(Call::Kill(FOURTH)),
            Act::Do(Call::Notes),
            Act::Do(Call::Cleanup),
            Act::Do(Call::Notes),
            Act::Do(Call::Notes),
        ],
        told: "done\ndone\ndone\ninitialized 0, 1\ninitialized 1, 2\ninitialized 2, 3\ninitialized 3, 4\ninitialized 4, 5\ndestroyed 4278190080, 1, 4 of 4 with 51\ndestroyed 4278190080, 1, 4 of 0 with 11\ndisconnected 2, 3: closed\ndestroyed 4278190081, 2, 4 of 1 with 22\ndisconnected 4, 5: closed\ndone\ndone\nout: client 2, 3 with 0 sends client 4, 5 with 0 sends\nclient 2, 6\ncreated 4278190080, 1, 4 of 2\ndone\ndone\ndestroyed 4278190081, 2, 4 of 3 with 42\ndestroyed 4278190080, 1, 4 of 3 with 41\ndestroyed 4278190080, 1, 4 of 1 with 21\ndestroyed 4278190081, 2, 4 of 0 with 12\ndestroyed 4278190081, 2, 4 of 4 with 52\ndestroyed 4278190082, 3, 4 of 1 with 23\ndestroyed 4278190080, 1, 4 of 2 with 31\ndestroyed 4278190081, 2, 4 of 2 with 32\ndestroyed 4278190082, 3, 4 of 2 with 33\ndestroyed 4278190082, 3, 4 of 4 with 53\ninitialized 2, 6\ndisconnected 1, 2: closed\ndestroyed 4278190080, 1, 4 of 2 with 61\ndisconnected 3, 4: closed\nout: client 1, 2 with 1 sends client 3, 4 with 0 sends\ndestroyed 4278190082, 3, 4 of 3 with 43\ndestroyed 4278190082, 3, 4 of 0 with 13\n",
    },
    // An object of one client ends, and later one of a client of a lower slot: by requests, and by the program. A kill, an
    // insertion, and notes that are taken come between them, and change nothing of that order.
    Row {
        name: "ends at a lower slot come later",
        acts: &[
            Act::Quietly(&[
                Call::Insert(true),
                Call::Insert(true),
                Call::Insert(true),
                Call::Create(FIRST, QUAD, 3, 11),
                Call::Create(FIRST, QUAD, 3, 12),
                Call::Create(SECOND, QUAD, 3, 21),
                Call::Create(SECOND, QUAD, 3, 22),
                Call::Create(THIRD, QUAD, 3, 31),
                Call::Create(THIRD, QUAD, 3, 32),
            ]),
            Act::Quietly(&[
                Call::Arrive(SECOND, &DESTROY_SECOND_MADE),
                Call::Next(SECOND),
                Call::Finish(SECOND, None),
            ]),
            Act::Do(Call::Destroy(Thing(SECOND, 0xFF00_0000, 1, QUAD))),
            Act::Do(Call::Kill(THIRD)),
            Act::Do(Call::Insert(true)),
            Act::Quietly(&[
                Call::Arrive(FIRST, &DESTROY_SECOND_MADE),
                Call::Next(FIRST),
                Call::Finish(FIRST, None),
            ]),
            Act::Do(Call::Notes),
            Act::Do(Call::Destroy(Thing(FIRST, 0xFF00_0000, 1, QUAD))),
            Act::Do(Call::Cleanup),
            Act::Do(Call::Notes),
        ],
        told: "done\nclient 3, 4\ninitialized 0, 1\ninitialized 1, 2\ninitialized 2, 3\ndestroyed 4278190081, 2, 4 of 1 with 22\ndisconnected 2, 3: closed\ninitialized 3, 4\ndestroyed 4278190081, 2, 4 of 0 with 12\ndone\nout: client 2, 3 with 0 sends\ndestroyed 4278190080, 1, 4 of 1 with 21\ndestroyed 4278190080, 1, 4 of 0 with 11\ndestroyed 4278190080, 1, 4 of 2 with 31\ndestroyed 4278190081, 2, 4 of 2 with 32\n",
    },
];

/// Each run tells what it has to.
#[test]
fn rows(rt: HostRuntime) -> Result<(), Fail> {
    rows_tell(&rt, &ROWS)
}
