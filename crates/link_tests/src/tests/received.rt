//! Messages that are read from what arrived.

use super::run::{Act, Fact, Row, link_log, rows_tell};
use super::script::Cue;
use super::transports::WantsRoom;
use std::test::Fail;
use test_kit::log::tells;
use wl_wire::Token;

/// Three messages: a number and a string, two descriptors, a number and a descriptor.
const THREE_MESSAGES: [u8; 52] = [
    42, 0, 0, 0, 0, 0, 32, 0, 42, 0, 0, 0, 14, 0, 0, 0, b'I', b' ', b'l', b'i', b'k', b'e', b' ',
    b't', b'r', b'a', b'i', b'n', b's', 0, 0, 0, 42, 0, 0, 0, 1, 0, 8, 0, 42, 0, 0, 0, 2, 0, 12, 0,
    3, 0, 0, 0,
];

/// Their tokens.
const THREE_TOKENS: [Token; 3] = [Token(1), Token(0), Token(2)];

/// Runs over a script, and what they tell.
static ROWS: [Row; 9] = [
    Row {
        name: "three messages in one chunk",
        cues: &[Cue::Arrive(&THREE_MESSAGES, &THREE_TOKENS)],
        limit: None,
        acts: &[
            Act::Fill,
            Act::Tell(Fact::Waiting),
            Act::Read,
            Act::Read,
            Act::Read,
            Act::Tell(Fact::Waiting),
        ],
        told: "receive: done\nwaiting: 52, 3, 0, 0\nread: 42, 0: int 42: string I like trains\nread: 42, 1: fd 1: fd 0\nread: 42, 2: uint 3: fd 2\nwaiting: 0, 0, 0, 0\n0 sends recorded\n",
    },
    Row {
        name: "three messages byte by byte",
        cues: &[Cue::ArriveSingly(&THREE_MESSAGES, &THREE_TOKENS)],
        limit: None,
        acts: &[Act::FillAndRead(52), Act::Tell(Fact::Waiting), Act::Fill],
        told: "32 read: 42, 0: int 42: string I like trains\n40 read: 42, 1: fd 1: fd 0\n52 read: 42, 2: uint 3: fd 2\nwaiting: 0, 0, 0, 0\nreceive: would block\n0 sends recorded\n",
    },
    Row {
        name: "more than 28 tokens do not arrive",
        cues: &[
            Cue::ArriveTokens(29),
            Cue::ArrivalsLeft,
            Cue::ArriveTokens(28),
        ],
        limit: None,
        acts: &[Act::Fill, Act::Tell(Fact::Waiting)],
        told: "arrive: more than 28 tokens in one chunk\n0 arrivals left\nreceive: broken pipe\nwaiting: 0, 28, 0, 0\n0 sends recorded\n",
    },
    Row {
        name: "tokens behind more than 28 tokens",
        cues: &[
            Cue::ArriveTokens(28),
            Cue::ArriveTokens(28),
            Cue::ArriveTokens(28),
        ],
        limit: None,
        acts: &[Act::Fill, Act::Fill, Act::Fill, Act::Tell(Fact::Waiting)],
        told: "receive: broken pipe\nreceive: broken pipe\nreceive: broken pipe\nwaiting: 0, 84, 0, 0\n0 sends recorded\n",
    },
    Row {
        name: "unknown messages stay",
        cues: &[Cue::Arrive(&[42, 0, 0, 0, 1, 0, 8, 0], &[Token(1)])],
        limit: None,
        acts: &[
            Act::Fill,
            Act::ReadUnknown,
            Act::Tell(Fact::Waiting),
            Act::Read,
            Act::Tell(Fact::Waiting),
        ],
        told: "receive: done\nread: The message is malformed and cannot be parsed\nwaiting: 8, 1, 0, 0\nread: The message references a FD but the buffer FD is empty.\nwaiting: 8, 1, 0, 0\n0 sends recorded\n",
    },
    Row {
        name: "part of a header is missing data",
        cues: &[Cue::Arrive(&[42, 0, 0, 0, 1, 0, 8], &[Token(1)])],
        limit: None,
        acts: &[
            Act::Fill,
            Act::ReadUnknown,
            Act::Read,
            Act::Tell(Fact::Waiting),
        ],
        told: "receive: done\nread: More data is needed to deserialize the message\nread: More data is needed to deserialize the message\nwaiting: 7, 1, 0, 0\n0 sends recorded\n",
    },
    Row {
        name: "array is read",
        cues: &[Cue::Arrive(&[42, 0, 0, 0, 3, 0, 16, 0, 3, 0, 0, 0, 1, 2, 3, 0], &[])],
        limit: None,
        acts: &[Act::Fill, Act::Read, Act::Tell(Fact::Waiting)],
        told: "receive: done\nread: 42, 3: array 01 02 03\nwaiting: 0, 0, 0, 0\n0 sends recorded\n",
    },
    Row {
        name: "a word is looked at, and messages are skipped",
        cues: &[Cue::Arrive(
            &[
                1, 0, 0, 0, 0, 0, 12, 0, 2, 0, 0, 0, 42, 0, 0, 0, 1, 0, 8, 0, 1, 0, 0, 0, 0, 0, 12,
                0, 3, 0, 0,
            ],
            &[Token(1)],
        )],
        limit: None,
        acts: &[
            Act::Fill,
            Act::Tell(Fact::NextWord),
            Act::Skip(2),
            Act::Skip(0),
            Act::Tell(Fact::NextWord),
            Act::Skip(1),
            Act::Tell(Fact::NextWord),
            Act::Skip(0),
            Act::Tell(Fact::Waiting),
        ],
        told: "receive: done\nnext word: 2\nskip: none\nskip: done\nnext word: none\nskip: done\nnext word: none\nskip: none\nwaiting: 11, 0, 0, 0\n0 sends recorded\n",
    },
    Row {
        name: "five arguments are read",
        cues: &[Cue::Arrive(
            &[
                42, 0, 0, 0, 4, 0, 28, 0, 1, 0, 0, 0, 2, 0, 0, 0, 3, 0, 0, 0, 4, 0, 0, 0, 5, 0, 0,
                0,
            ],
            &[],
        )],
        limit: None,
        acts: &[Act::Fill, Act::Read, Act::Tell(Fact::Waiting)],
        told: "receive: done\nread: 42, 4: uint 1: uint 2: uint 3: uint 4: uint 5\nwaiting: 0, 0, 0, 0\n0 sends recorded\n",
    },
];

/// Each run tells what it has to.
#[test]
fn rows(rt: HostRuntime) -> Result<(), Fail> {
    rows_tell(&rt, &ROWS)
}

#[test]
fn receive_has_room_for_its_tokens(rt: HostRuntime) -> Result<(), Fail> {
    let acts = [
        Act::Fill,
        Act::Fill,
        Act::Fill,
        Act::Fill,
        Act::Fill,
        Act::Fill,
        Act::Tell(Fact::Waiting),
    ];
    tells(
        &rt,
        link_log(rt.alloc(), WantsRoom, None, &acts),
        "receive: done\nreceive: done\nreceive: done\nreceive: done\nreceive: done\nreceive: done\nwaiting: 6, 6, 0, 0\n0 sends recorded\n",
    )
}
