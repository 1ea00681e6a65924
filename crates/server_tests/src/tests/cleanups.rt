//! Cleanups among many clients: a server looks only at those that were touched, 64 slots in a word.

use super::run::{Act, Look, Row, rows_tell};
use server_test_kit::steps::Call;
use server_test_kit::values::{Event, Thing, Who};
use std::test::Fail;
use test_kit::quad::QUAD;

/// The client at slot 1.
const AT_1: Who = Who(1, 2);

/// The client at the last slot of the first word.
const AT_63: Who = Who(63, 64);

/// The client at the first slot of the second word.
const AT_64: Who = Who(64, 65);

/// The client at slot 100.
const AT_100: Who = Who(100, 101);

/// The client at the first slot of the third word.
const AT_128: Who = Who(128, 129);

/// The first object that the server makes for the client at slot 64.
const MADE_FOR_64: Thing = Thing(AT_64, 0xFF00_0000, 1, QUAD);

/// The same for the client at slot 100.
const MADE_FOR_100: Thing = Thing(AT_100, 0xFF00_0000, 1, QUAD);

/// The runs, and what they tell.
static ROWS: [Row; 3] = [
    // Four are killed, not in the order of their slots: they leave by slot, and what waits for them is sent, but not what waits
    // for one that is live. Their ends are noted in the order of time, then what waited, and then their objects by slot and
    // number. New clients get their slots, the least first, and then one behind all.
    Row {
        name: "several of many",
        acts: &[
            Act::Clients(130),
            Act::Quietly(&[Call::Notes, Call::Notes, Call::FlushAll]),
            Act::Do(Call::Create(AT_128, QUAD, 3, 8)),
            Act::Do(Call::Create(AT_64, QUAD, 3, 4)),
            Act::Do(Call::Create(AT_64, QUAD, 3, 5)),
            Act::Do(Call::Create(AT_1, QUAD, 3, 1)),
            Act::Do(Call::Create(AT_100, QUAD, 3, 6)),
            Act::Do(Call::Send(Event::Moved(MADE_FOR_64, 7))),
            Act::Do(Call::Send(Event::Moved(MADE_FOR_100, 7))),
            Act::Do(Call::Destroy(MADE_FOR_100)),
            Act::Do(Call::Kill(AT_128)),
            Act::Do(Call::Kill(AT_1)),
            Act::Do(Call::Kill(AT_64)),
            Act::Do(Call::Kill(AT_63)),
            Act::Do(Call::Cleanup),
            Act::Look(Look::Lengths(AT_100)),
            Act::Do(Call::FlushAll),
            Act::Look(Look::Lengths(AT_100)),
            Act::Do(Call::Notes),
            Act::Look(Look::NextClient),
            Act::Do(Call::Insert(true)),
            Act::Do(Call::Insert(true)),
            Act::Do(Call::Insert(true)),
            Act::Do(Call::Insert(true)),
            Act::Do(Call::Insert(true)),
            Act::Do(Call::Cleanup),
        ],
        told: "created 4278190080, 1, 4 of 128\ncreated 4278190080, 1, 4 of 64\ncreated 4278190081, 2, 4 of 64\ncreated 4278190080, 1, 4 of 1\ncreated 4278190080, 1, 4 of 100\ndone\ndone\ndone\nout: client 1, 2 with 0 sends client 63, 64 with 0 sends client 64, 65 with 1 sends client 128, 129 with 0 sends\ndone\n12 bytes\ndisconnected 128, 129: closed\ndisconnected 1, 2: closed\ndisconnected 64, 65: closed\ndisconnected 63, 64: closed\ndestroyed 4278190080, 1, 4 of 100 with 6\ndestroyed 4278190080, 1, 4 of 1 with 1\ndestroyed 4278190080, 1, 4 of 64 with 4\ndestroyed 4278190081, 2, 4 of 64 with 5\ndestroyed 4278190080, 1, 4 of 128 with 8\nnext client 1, 131\nclient 1, 131\nclient 63, 132\nclient 64, 133\nclient 128, 134\nclient 130, 135\nout:\n",
    },
    // Neighbours leave together, and the last client too; the one between them and the first ones stay.
    Row {
        name: "neighbours",
        acts: &[
            Act::Clients(130),
            Act::Do(Call::Kill(Who(127, 128))),
            Act::Do(Call::Kill(Who(126, 127))),
            Act::Do(Call::Kill(Who(129, 130))),
            Act::Do(Call::Cleanup),
            Act::Look(Look::Lengths(Who(127, 128))),
            Act::Look(Look::Lengths(AT_128)),
            Act::Look(Look::Lengths(Who(129, 130))),
            Act::Do(Call::Insert(true)),
            Act::Do(Call::Insert(true)),
            Act::Do(Call::Insert(true)),
            Act::Do(Call::Insert(true)),
        ],
        told: "out: client 126, 127 with 0 sends client 127, 128 with 0 sends client 129, 130 with 0 sends\nInvalid Id\nInvalid Id\nclient 126, 131\nclient 127, 132\nclient 129, 133\nclient 130, 134\n",
    },
    // The search for a free slot goes back to the least that is given back, and not forward to one behind that.
    Row {
        name: "the least slot first",
        acts: &[
            Act::Clients(130),
            Act::Do(Call::Kill(AT_64)),
            Act::Do(Call::Cleanup),
            Act::Look(Look::NextClient),
            Act::Do(Call::Kill(AT_128)),
            Act::Do(Call::Cleanup),
            Act::Look(Look::NextClient),
            Act::Do(Call::Kill(AT_1)),
            Act::Do(Call::Cleanup),
            Act::Look(Look::NextClient),
            Act::Do(Call::Insert(true)),
            Act::Look(Look::NextClient),
            Act::Do(Call::Insert(true)),
            Act::Look(Look::NextClient),
            Act::Do(Call::Kill(Who(1, 131))),
            Act::Do(Call::Cleanup),
            Act::Do(Call::Insert(true)),
            Act::Do(Call::Insert(true)),
            Act::Do(Call::Insert(true)),
        ],
        told: "out: client 64, 65 with 0 sends\nnext client 64, 131\nout: client 128, 129 with 0 sends\nnext client 64, 131\nout: client 1, 2 with 0 sends\nnext client 1, 131\nclient 1, 131\nnext client 64, 132\nclient 64, 132\nnext client 128, 133\nout: client 1, 131 with 0 sends\nclient 1, 133\nclient 128, 134\nclient 130, 135\n",
    },
];

/// Each run tells what it has to.
#[test]
fn rows(rt: HostRuntime) -> Result<(), Fail> {
    rows_tell(&rt, &ROWS)
}
