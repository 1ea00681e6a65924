//! The bytes of a client, cut otherwise: what is answered and sent is the same.

use super::run::{Act, Row, rows_tell};
use server_test_kit::steps::Call;
use server_test_kit::values::FIRST;
use std::test::Fail;
use test_kit::quad::QUAD;
use wl_wire::IoFault;

/// A sync with the new id 2, `quad.make` by the first object of the server's range with the new id 2, and a sync with the
/// new id 3.
const REQUESTS: [u8; 36] = [
    1, 0, 0, 0, 0, 0, 12, 0, 2, 0, 0, 0, 0, 0, 0, 255, 1, 0, 12, 0, 2, 0, 0, 0, 1, 0, 0, 0, 0, 0,
    12, 0, 3, 0, 0, 0,
];

/// The runs, and what they tell.
static ROWS: [Row; 2] = [
    // All at once.
    Row {
        name: "requests that arrive at once",
        acts: &[
            Act::Do(Call::Insert(true)),
            Act::Do(Call::Create(FIRST, QUAD, 3, 9)),
            Act::Do(Call::Arrive(FIRST, &REQUESTS)),
            Act::Do(Call::Next(FIRST)),
            Act::Do(Call::Finish(FIRST, Some(5))),
            Act::Do(Call::Next(FIRST)),
            Act::Do(Call::Flush(FIRST)),
            Act::Do(Call::TakeSent(FIRST)),
        ],
        told: "client 0, 1\ncreated 4278190080, 1, 4 of 0\nrequest 1 to 4278190080, 1, 4 of 0: new 2, 3, 4 of 0, which makes 2, 3, 4 of 0\nfinished\nIo error: would block\ndone\n02 00 00 00 00 00 0c 00 00 00 00 00 01 00 00 00 01 00 0c 00 02 00 00 00 03 00 00 00 00 00 0c 00 00 00 00 00 01 00 00 00 01 00 0c 00 03 00 00 00\n",
    },
    // The same bytes in four pieces, each cut within a header, with readings in between.
    Row {
        name: "requests that arrive in pieces",
        acts: &[
            Act::Do(Call::Insert(true)),
            Act::Do(Call::Create(FIRST, QUAD, 3, 9)),
            Act::Do(Call::Arrive(FIRST, &[1, 0, 0, 0, 0])),
            Act::Do(Call::Next(FIRST)),
            Act::Do(Call::Arrive(FIRST, &[0, 12, 0, 2, 0, 0, 0, 0, 0, 0, 255, 1])),
            Act::Do(Call::ArriveFault(FIRST, IoFault::WouldBlock)),
            Act::Do(Call::Arrive(FIRST, &[0, 12, 0, 2, 0, 0, 0, 1, 0, 0])),
            Act::Do(Call::Next(FIRST)),
            Act::Do(Call::Next(FIRST)),
            Act::Do(Call::Finish(FIRST, Some(5))),
            Act::Do(Call::Arrive(FIRST, &[0, 0, 0, 12, 0, 3, 0, 0, 0])),
            Act::Do(Call::Next(FIRST)),
            Act::Do(Call::Flush(FIRST)),
            Act::Do(Call::TakeSent(FIRST)),
        ],
        told: "client 0, 1\ncreated 4278190080, 1, 4 of 0\nIo error: would block\nIo error: would block\nrequest 1 to 4278190080, 1, 4 of 0: new 2, 3, 4 of 0, which makes 2, 3, 4 of 0\nfinished\nIo error: would block\ndone\n02 00 00 00 00 00 0c 00 00 00 00 00 01 00 00 00 01 00 0c 00 02 00 00 00 03 00 00 00 00 00 0c 00 00 00 00 00 01 00 00 00 01 00 0c 00 03 00 00 00\n",
    },
];

/// Each run tells what it has to.
#[test]
fn rows(rt: HostRuntime) -> Result<(), Fail> {
    rows_tell(&rt, &ROWS)
}
