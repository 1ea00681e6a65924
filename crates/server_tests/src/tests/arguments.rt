//! Requests and events of more than four arguments, and a new id of a request that is refused.

use super::run::{Act, Row, rows_tell};
use server_test_kit::steps::Call;
use server_test_kit::values::{Event, FIRST, Thing};
use std::test::Fail;
use test_kit::quad::{PAIR, QUAD};

/// The first object that the server makes for the first client, a `pair`.
const FIRST_MADE: Thing = Thing(FIRST, 0xFF00_0000, 1, PAIR);

/// The second, a `quad`.
const SECOND_MADE: Thing = Thing(FIRST, 0xFF00_0001, 2, QUAD);

/// A client with these two objects.
const WITH_BOTH: [Call; 3] = [
    Call::Insert(true),
    Call::Create(FIRST, PAIR, 1, 8),
    Call::Create(FIRST, QUAD, 3, 9),
];

/// `pair.join`, by the first object, of the second twice, the string `ab` and three bytes.
const JOIN: [u8; 32] = [
    0, 0, 0, 255, 0, 0, 32, 0, 1, 0, 0, 255, 1, 0, 0, 255, 3, 0, 0, 0, 97, 98, 0, 0, 3, 0, 0, 0, 1,
    2, 3, 0,
];

/// `quad.make`, by the second object, with the new id 9, which is not the next one.
const MAKE_AT_9: [u8; 12] = [1, 0, 0, 255, 1, 0, 12, 0, 9, 0, 0, 0];

/// The runs, and what they tell.
static ROWS: [Row; 4] = [
    // A request of five arguments.
    Row {
        name: "request of five arguments",
        acts: &[
            Act::Quietly(&WITH_BOTH),
            Act::Do(Call::ArriveWith(FIRST, &JOIN, 7)),
            Act::Do(Call::Next(FIRST)),
        ],
        told: "request 0 to 4278190080, 1, 5 of 0: object 4278190081, 2, 4 of 0: object 4278190081, 2, 4 of 0: string of 2: 3 bytes: fd 7\n",
    },
    // A request whose new id is not the next one.
    Row {
        name: "new id of a request is refused",
        acts: &[
            Act::Quietly(&WITH_BOTH),
            Act::Do(Call::Arrive(FIRST, &MAKE_AT_9)),
            Act::Do(Call::Next(FIRST)),
            Act::Do(Call::TakeSent(FIRST)),
        ],
        told: "Io error: broken pipe\n01 00 00 00 00 00 28 00 01 00 00 00 00 00 00 00 13 00 00 00 49 6e 76 61 6c 69 64 20 6e 65 77 5f 69 64 3a 20 39 2e 00 00\n",
    },
    // An event of five arguments, one of them a descriptor.
    Row {
        name: "event with a descriptor",
        acts: &[
            Act::Quietly(&WITH_BOTH),
            Act::Do(Call::Send(Event::Joined(FIRST_MADE, SECOND_MADE))),
            Act::Do(Call::Flush(FIRST)),
            Act::Do(Call::TakeSent(FIRST)),
        ],
        told: "done\ndone\n00 00 00 ff 00 00 20 00 01 00 00 ff 01 00 00 ff 03 00 00 00 61 62 00 00 03 00 00 00 01 02 03 00, fd 9\n",
    },
    // A send that answers 0 ends its flush well, and what it was offered of descriptors is gone: the bytes are sent later,
    // without the descriptor that their message has.
    Row {
        name: "send that takes nothing loses descriptors",
        acts: &[
            Act::Quietly(&WITH_BOTH),
            Act::Do(Call::Send(Event::Joined(FIRST_MADE, SECOND_MADE))),
            Act::Do(Call::Accept(FIRST, 0)),
            Act::Do(Call::Flush(FIRST)),
            Act::Do(Call::TakeSent(FIRST)),
            Act::Do(Call::Flush(FIRST)),
            Act::Do(Call::TakeSent(FIRST)),
            Act::Do(Call::Notes),
        ],
        told: "done\ndone\ndone\n00 00 00 ff 00 00 20 00 01 00 00 ff 01 00 00 ff 03 00 00 00 61 62 00 00 03 00 00 00 01 02 03 00\ninitialized 0, 1\n",
    },
];

/// Each run tells what it has to.
#[test]
fn rows(rt: HostRuntime) -> Result<(), Fail> {
    rows_tell(&rt, &ROWS)
}
