//! Requests that are longer than the buffer in which they arrive is at first.

use super::run::{Act, Look, Row, WITH_A_QUAD, rows_tell};
use server_test_kit::arrivals::{GIVE_5000, GIVE_65532};
use server_test_kit::steps::Call;
use server_test_kit::values::FIRST;
use std::test::Fail;
use test_kit::cuts::{Cut, Stream};

/// `quad.give`, by object 3, of no string and 4984 bytes, as far as these.
const LONG_GIVE: [u8; 16] = [3, 0, 0, 0, 4, 0, 0x88, 0x13, 0, 0, 0, 0, 0x78, 0x13, 0, 0];

/// Its bytes after those.
const REST: Stream = Stream {
    front: &[],
    filled: 4984,
    back: &[],
};

/// The runs, and what they tell.
static ROWS: [Row; 4] = [
    // A request of 5000 bytes, which the first buffer cannot hold, in two pieces.
    Row {
        name: "request longer than the first buffer, in two pieces",
        acts: &[
            Act::Do(Call::DefaultLimit(8192)),
            Act::Quietly(&WITH_A_QUAD),
            Act::Do(Call::ArriveWith(FIRST, &LONG_GIVE, 7)),
            Act::ArriveCut(FIRST, REST, Cut::Whole, None),
            Act::Do(Call::Next(FIRST)),
        ],
        told: "request 4 to 3, 2, 4 of 0: no string: 4984 bytes: fd 7\n",
    },
    // The buffer is doubled for a request of 5000 bytes, if the limit allows it.
    Row {
        name: "request longer than the first buffer",
        acts: &[
            Act::Do(Call::DefaultLimit(8192)),
            Act::Quietly(&WITH_A_QUAD),
            Act::ArriveCut(FIRST, GIVE_5000, Cut::Chunks, Some(5)),
            Act::Do(Call::NextWithin(FIRST, 64)),
            Act::Look(Look::Arrivals(FIRST)),
        ],
        told: "request 4 to 3, 2, 4 of 0: string of 1: 4980 bytes: fd 5\n62 left, 1 read\n0 arrivals\n",
    },
    // It grows up to 65536 bytes, and a reading receives 16 times.
    Row {
        name: "request of 65532 bytes",
        acts: &[
            Act::Do(Call::DefaultLimit(65536)),
            Act::Quietly(&WITH_A_QUAD),
            Act::ArriveCut(FIRST, GIVE_65532, Cut::Chunks, Some(5)),
            Act::Do(Call::NextWithin(FIRST, 64)),
            Act::Look(Look::Arrivals(FIRST)),
        ],
        told: "request 4 to 3, 2, 4 of 0: string of 1: 65512 bytes: fd 5\n48 left, 1 read\n0 arrivals\n",
    },
    // A request that is longer than the buffer may become: the second receive finds it full, and the client is killed.
    Row {
        name: "request longer than the limit",
        acts: &[
            Act::Quietly(&WITH_A_QUAD),
            Act::ArriveCut(FIRST, GIVE_5000, Cut::Chunks, Some(5)),
            Act::Do(Call::NextWithin(FIRST, 64)),
            Act::Look(Look::Arrivals(FIRST)),
            Act::Do(Call::Notes),
        ],
        told: "Io error: broken pipe\n62 left, 0 read\n1 arrivals\ninitialized 0, 1\ndisconnected 0, 1: closed\n",
    },
];

/// Each run tells what it has to.
#[test]
fn rows(rt: HostRuntime) -> Result<(), Fail> {
    rows_tell(&rt, &ROWS)
}
