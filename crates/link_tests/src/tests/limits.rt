//! How far the buffers grow for a message.

use super::run::{Act, Fact, Row, link_log, rows_tell};
use super::script::Cue;
use super::transports::Refusing;
use std::test::Fail;
use test_kit::log::tells;
use test_kit::message::Arg;

/// Writes a message of 4096 bytes.
const WRITE_4096: Act = Act::Write((42, 0), &[Arg::Ones(4084)]);

/// Writes a message of 4100 bytes.
const WRITE_4100: Act = Act::Write((42, 0), &[Arg::Ones(4088)]);

/// Runs over a script, and what they tell.
static ROWS: [Row; 12] = [
    Row {
        name: "buffer grows without a limit",
        cues: &[],
        limit: None,
        acts: &[
            WRITE_4100,
            Act::Tell(Fact::Storage),
            Act::Tell(Fact::Waiting),
        ],
        told: "write: done\nstorage: 4096, 8192\nwaiting: 0, 0, 4100, 0\n0 sends recorded\n",
    },
    Row {
        name: "buffer grows for a message with a descriptor",
        cues: &[],
        limit: None,
        acts: &[
            Act::Write((42, 0), &[Arg::Ones(4088), Arg::Fd(7)]),
            Act::Tell(Fact::Storage),
            Act::Tell(Fact::Waiting),
        ],
        told: "write: done\nstorage: 4096, 8192\nwaiting: 0, 0, 4100, 1\n0 sends recorded\n",
    },
    // There is room for 28 descriptors that wait.
    Row {
        name: "buffer grows for the twenty-ninth descriptor",
        cues: &[],
        limit: None,
        acts: &[
            Act::WriteDescriptors(28),
            Act::Write((42, 0), &[Arg::Ones(4088), Arg::Fd(7)]),
            Act::Tell(Fact::Storage),
            Act::Tell(Fact::Waiting),
        ],
        told: "write: done\nwrite: done\nstorage: 4096, 8192\nwaiting: 0, 0, 4108, 29\n0 sends recorded\n",
    },
    // The buffer is full, and may not grow: what waits is sent first.
    Row {
        name: "29 descriptors wait behind a flush",
        cues: &[],
        limit: Some(4096),
        acts: &[
            WRITE_4096,
            Act::WriteDescriptors(29),
            Act::Tell(Fact::Waiting),
        ],
        told: "write: done\nwrite: done\nwaiting: 0, 0, 8, 29\n1 sends recorded\n",
    },
    Row {
        name: "message with a descriptor waits behind a flush",
        cues: &[],
        limit: Some(4096),
        acts: &[
            WRITE_4096,
            Act::Write((42, 1), &[Arg::Fd(7)]),
            Act::Tell(Fact::Waiting),
        ],
        told: "write: done\nwrite: done\nwaiting: 0, 0, 8, 1\n1 sends recorded\n",
    },
    Row {
        name: "message of the limit fits",
        cues: &[],
        limit: Some(4096),
        acts: &[
            WRITE_4096,
            Act::Tell(Fact::Waiting),
            Act::Tell(Fact::Storage),
        ],
        told: "write: done\nwaiting: 0, 0, 4096, 0\nstorage: 4096, 4096\n0 sends recorded\n",
    },
    Row {
        name: "limit bounds a message",
        cues: &[],
        limit: Some(4096),
        acts: &[
            WRITE_4100,
            Act::Tell(Fact::Waiting),
            Act::Tell(Fact::Storage),
        ],
        told: "write: message too big\nwaiting: 0, 0, 0, 0\nstorage: 4096, 4096\n0 sends recorded\n",
    },
    Row {
        name: "incoming buffer grows for a message",
        cues: &[ARRIVE_5000],
        limit: None,
        acts: &[
            Act::FillAndRead(2),
            Act::Tell(Fact::Storage),
            Act::Tell(Fact::Waiting),
        ],
        told: "2 read: 2, 0: uint 0\nstorage: 8192, 4096\nwaiting: 0, 0, 0, 0\n0 sends recorded\n",
    },
    Row {
        name: "incoming buffer grows up to 65536 bytes",
        cues: &[Cue::ArriveInChunks(&[2, 0, 0, 0, 0, 0, 0xfc, 0xff], 65532)],
        limit: None,
        acts: &[Act::FillAndRead(16), Act::Tell(Fact::Storage)],
        told: "16 read: 2, 0: uint 0\nstorage: 65536, 4096\n0 sends recorded\n",
    },
    // A buffer of 65536 bytes of which none is read is full for good.
    Row {
        name: "incoming buffer grows no further",
        cues: &[Cue::ArriveInChunks(&[9, 0, 0, 0, 1, 0, 8, 0], 65540)],
        limit: None,
        acts: &[
            Act::FillEach(16),
            Act::Tell(Fact::Storage),
            Act::Fill,
            Act::Tell(Fact::Storage),
            Act::Tell(Fact::Waiting),
        ],
        told: "storage: 65536, 4096\nreceive: broken pipe\nstorage: 65536, 4096\nwaiting: 65536, 0, 0, 0\n0 sends recorded\n",
    },
    Row {
        name: "incoming buffer stops at the limit",
        cues: &[ARRIVE_5000],
        limit: Some(4096),
        acts: &[
            Act::FillAndRead(1),
            Act::Fill,
            Act::Tell(Fact::Storage),
            Act::Tell(Fact::Waiting),
        ],
        told: "receive: broken pipe\nstorage: 4096, 4096\nwaiting: 4096, 0, 0, 0\n0 sends recorded\n",
    },
    Row {
        name: "lowered limit makes no buffer smaller",
        cues: &[ARRIVE_5000],
        limit: None,
        acts: &[
            Act::FillAndRead(2),
            Act::SetLimit(Some(4096)),
            Act::Fill,
            Act::Tell(Fact::Storage),
        ],
        told: "2 read: 2, 0: uint 0\nreceive: would block\nstorage: 8192, 4096\n0 sends recorded\n",
    },
];

/// Each run tells what it has to.
#[test]
fn rows(rt: HostRuntime) -> Result<(), Fail> {
    rows_tell(&rt, &ROWS)
}

/// The arrivals of a message of 5000 bytes.
const ARRIVE_5000: Cue = Cue::ArriveInChunks(&[2, 0, 0, 0, 0, 0, 0x88, 0x13], 5000);
