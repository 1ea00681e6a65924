//! What a flush sends, and what still waits after it.

use super::run::{Act, Fact, Row, link_log, rows_tell};
use super::script::Cue;
use super::transports::{OneByte, Refusing};
use std::test::Fail;
use test_kit::log::tells;
use test_kit::message::Arg;
use wl_link::{DEFAULT_MAX_BUFFER_SIZE, NumberMessage};
use wl_wire::IoFault;

/// Writes a message of 12 bytes and one token.
const WRITE_WITH_TOKEN: Act = Act::Write((42, 0), &[Arg::Uint(3), Arg::Fd(4)]);

/// Writes the two answers to a sync with the new id 2.
const WRITE_NUMBERS: Act = Act::WriteNumbers(&[
    NumberMessage {
        sender_id: 2,
        opcode: 0,
        number: 0,
    },
    NumberMessage {
        sender_id: 1,
        opcode: 1,
        number: 2,
    },
]);

/// Runs over a script, and what they tell.
static ROWS: [Row; 7] = [
    Row {
        name: "three messages in one flush",
        cues: &[],
        limit: None,
        acts: &[
            Act::Write((42, 0), &[Arg::Int(42), Arg::Str(b"I like trains")]),
            Act::Write((42, 1), &[Arg::Fd(1), Arg::Fd(0)]),
            Act::Write((42, 2), &[Arg::Uint(3), Arg::Fd(2)]),
            Act::Flush,
            Act::Tell(Fact::Sent),
            Act::Tell(Fact::SendSizes),
        ],
        told: "write: done\nwrite: done\nwrite: done\nflush: done\n1 sends\n2a 00 00 00 00 00 20 00 2a 00 00 00 0e 00 00 00 49 20 6c 69 6b 65 20 74 72 61 69 6e 73 00 00 00 2a 00 00 00 01 00 08 00 2a 00 00 00 02 00 0c 00 03 00 00 00, fd 1, fd 0, fd 2\nsends: 52 + 3\n1 sends recorded\n",
    },
    Row {
        name: "two numbers behind the rest of a message",
        cues: &[Cue::Accept(5), Cue::AcceptFault(IoFault::Other(5))],
        limit: None,
        acts: &[
            Act::Write((1, 0), &[Arg::NewId(2)]),
            Act::Flush,
            Act::TakeSent,
            WRITE_NUMBERS,
            Act::Tell(Fact::Waiting),
            Act::Flush,
            Act::Tell(Fact::Sent),
        ],
        told: "write: done\nflush: os error 5\n1 sends\n01 00 00 00 00\nwrite numbers: done\nwaiting: 0, 0, 31, 0\nflush: done\n1 sends\n00 0c 00 02 00 00 00 02 00 00 00 00 00 0c 00 00 00 00 00 01 00 00 00 01 00 0c 00 02 00 00 00\n1 sends recorded\n",
    },
    // The buffer has 4096 bytes: the array takes all but 16 of them.
    Row {
        name: "no room for two numbers",
        cues: &[],
        limit: Some(DEFAULT_MAX_BUFFER_SIZE),
        acts: &[
            Act::Write((42, 0), &[Arg::Ones(4068)]),
            WRITE_NUMBERS,
            Act::Tell(Fact::Waiting),
        ],
        told: "write: done\nwrite numbers: no room\nwaiting: 0, 0, 4080, 0\n0 sends recorded\n",
    },
    Row {
        name: "fault ends a flush",
        cues: &[Cue::Accept(5), Cue::AcceptFault(IoFault::Other(5))],
        limit: Some(DEFAULT_MAX_BUFFER_SIZE),
        acts: &[
            Act::Write((1, 0), &[Arg::NewId(2)]),
            Act::Flush,
            Act::Tell(Fact::Waiting),
            Act::TakeSent,
            Act::Tell(Fact::Sent),
        ],
        told: "write: done\nflush: os error 5\nwaiting: 0, 0, 7, 0\n1 sends\n01 00 00 00 00\n0 sends\n0 sends recorded\n",
    },
    Row {
        name: "answer zero drops the tokens",
        cues: &[Cue::Accept(0)],
        limit: None,
        acts: &[
            WRITE_WITH_TOKEN,
            Act::Tell(Fact::Waiting),
            Act::Flush,
            Act::Tell(Fact::Waiting),
        ],
        told: "write: done\nwaiting: 0, 0, 12, 1\nflush: done\nwaiting: 0, 0, 12, 0\n0 sends recorded\n",
    },
    Row {
        name: "sixty descriptors in three sends",
        cues: &[],
        limit: None,
        acts: &[
            Act::WriteDescriptors(60),
            Act::Flush,
            Act::Tell(Fact::SendSizes),
        ],
        told: "write: done\nflush: done\nsends: 1 + 28 1 + 28 6 + 4\n3 sends recorded\n",
    },
    Row {
        name: "eight sends of 300 descriptors",
        cues: &[],
        limit: None,
        acts: &[
            Act::WriteDescriptors(300),
            Act::Flush,
            Act::Tell(Fact::SendSizes),
            Act::Tell(Fact::Waiting),
        ],
        told: "write: done\nflush: done\nsends: 1 + 28 1 + 28 1 + 28 1 + 28 1 + 28 1 + 28 1 + 28 1 + 28\nwaiting: 0, 0, 0, 76\n8 sends recorded\n",
    },
];

/// Each run tells what it has to.
#[test]
fn rows(rt: HostRuntime) -> Result<(), Fail> {
    rows_tell(&rt, &ROWS)
}

#[test]
fn descriptors_that_have_no_byte_wait(rt: HostRuntime) -> Result<(), Fail> {
    let acts = [
        Act::WriteDescriptors(300),
        Act::Tell(Fact::Waiting),
        Act::Flush,
        Act::Tell(Fact::Waiting),
    ];
    tells(
        &rt,
        link_log(rt.alloc(), OneByte, None, &acts),
        "write: done\nwaiting: 0, 0, 8, 300\nflush: done\nwaiting: 0, 0, 0, 76\n0 sends recorded\n",
    )
}

#[test]
fn refusing_transport_is_answered(rt: HostRuntime) -> Result<(), Fail> {
    let acts = [
        WRITE_WITH_TOKEN,
        Act::Flush,
        Act::Fill,
        Act::Write((42, 0), &[Arg::Ones(4084)]),
        Act::Tell(Fact::Waiting),
    ];
    tells(
        &rt,
        link_log(rt.alloc(), Refusing, Some(0), &acts),
        "write: done\nflush: broken pipe\nreceive: broken pipe\nwrite: broken pipe\nwaiting: 0, 0, 12, 1\n0 sends recorded\n",
    )
}
