//! Messages of unknown senders that are passed over.

use super::acts::{Act, Cue, Look, Row, rows_tell};
use crate::kit::steps::Call;
use crate::kit::values::{Object, Request};
use std::test::Fail;
use test_kit::quad::PAIR;

/// A message of the object 99 with the opcode 5: a header, and four bytes.
const OF_99: [u8; 12] = [99, 0, 0, 0, 5, 0, 12, 0, 1, 2, 3, 4];

/// `quad.moved` of the `quad` 3, by 7.
const MOVED: [u8; 12] = [3, 0, 0, 0, 0, 0, 12, 0, 7, 0, 0, 0];

/// `quad.made` of the `quad` 3, with the first number of the server's range.
const MADE: [u8; 12] = [3, 0, 0, 0, 1, 0, 12, 0, 0, 0, 0, 255];

/// The event 3 of a `quad`, which has three.
const PAST_THE_LAST: [u8; 8] = [3, 0, 0, 0, 3, 0, 8, 0];

/// `wl_display.delete_id` of object 3.
const DELETE_3: [u8; 12] = [1, 0, 0, 0, 1, 0, 12, 0, 3, 0, 0, 0];

/// `pair.joined` of the `pair` 4: the `quad` 3 and no object, the string `no` and the byte 1, and a descriptor.
const JOINED: [u8; 32] = [
    4, 0, 0, 0, 0, 0, 32, 0, 3, 0, 0, 0, 0, 0, 0, 0, 3, 0, 0, 0, 110, 111, 0, 0, 1, 0, 0, 0, 1, 0,
    0, 0,
];

/// Numbers that hold no object, and what they tell where messages of unknown senders are passed over.
static NOBODY: [Row; 6] = [
    // Of no number at all, of one of the client's range, and of one of the server's; then an event of the `quad`.
    Row {
        name: "numbers that were never used",
        acts: &[
            Act::Bound,
            Act::PassOver(true),
            Act::Script(Cue::Arrive(&[0, 0, 0, 0, 0, 0, 8, 0])),
            Act::Script(Cue::Arrive(&OF_99)),
            Act::Script(Cue::Arrive(&[5, 0, 0, 255, 2, 0, 8, 0])),
            Act::Script(Cue::Arrive(&MOVED)),
            Act::Next,
            Act::Finish(None),
            Act::Next,
            Act::Look(Look::LastError),
        ],
        told: "sent: 2, 1\nsent: 3, 2\nevent 0 of 3: 7\nfinished\nwould block\nno error\n",
    },
    // The rest of the message is waited for, and belongs to it, though it reads as an event of the `quad`.
    Row {
        name: "message that came in pieces",
        acts: &[
            Act::Bound,
            Act::PassOver(true),
            Act::Script(Cue::Arrive(&[99, 0, 0, 0, 0, 0, 20, 0])),
            Act::Next,
            Act::Script(Cue::Arrive(&MOVED)),
            Act::Next,
            Act::Script(Cue::Arrive(&MOVED)),
            Act::Next,
        ],
        told: "sent: 2, 1\nsent: 3, 2\nwould block\nwould block\nevent 0 of 3: 7\n",
    },
    // Nothing is known of its descriptors: the one that came with it goes to the next event that has one.
    Row {
        name: "message with a descriptor",
        acts: &[
            Act::Bound,
            Act::SendWith(Request::Bind, (Some(6), Some((PAIR, 1)))),
            Act::PassOver(true),
            Act::Script(Cue::ArriveWith(&OF_99, 9)),
            Act::Next,
            Act::Script(Cue::ArriveWith(&JOINED, 10)),
            Act::Next,
        ],
        told: "sent: 2, 1\nsent: 3, 2\nsent: 4, 3\nwould block\nevent 0 of 4: object 3, 2, 4 object 0, 0, 0 string of 2 bytes 1 descriptor 9\n",
    },
    // The object is gone: the client destroyed it, and the server deleted its id. The number is free all the same.
    Row {
        name: "number of an object that is gone",
        acts: &[
            Act::Bound,
            Act::PassOver(true),
            Act::Destroy(Object::Quad),
            Act::Script(Cue::Arrive(&DELETE_3)),
            Act::Script(Cue::Arrive(&MOVED)),
            Act::Script(Cue::Arrive(&MADE)),
            Act::Next,
            Act::Look(Look::LastError),
            Act::Send(Request::Sync),
            Act::Notes,
        ],
        told: "sent: 2, 1\nsent: 3, 2\ndestroyed\nwould block\nno error\nsent: 3, 3\nnotes: 3, 2\n",
    },
    // A message is no shorter than its header.
    Row {
        name: "message without a length",
        acts: &[
            Act::Bound,
            Act::PassOver(true),
            Act::Script(Cue::Arrive(&[99, 0, 0, 0, 0, 0, 7, 0])),
            Act::Next,
            Act::Look(Look::LastError),
        ],
        told: "sent: 2, 1\nsent: 3, 2\nthe session failed\nProtocol error 0 on object @0: Malformed Wayland message.\n",
    },
    // As in a new session, the message ends it.
    Row {
        name: "passing over switched off again",
        acts: &[
            Act::Bound,
            Act::PassOver(true),
            Act::Script(Cue::Arrive(&OF_99)),
            Act::Next,
            Act::PassOver(false),
            Act::Script(Cue::Arrive(&OF_99)),
            Act::Next,
            Act::Look(Look::LastError),
        ],
        told: "sent: 2, 1\nsent: 3, 2\nwould block\nthe session failed\nProtocol error 0 on object @0: Malformed Wayland message.\n",
    },
];

/// Numbers that hold an object, and what they tell where messages of unknown senders are passed over.
static SOMEBODY: [Row; 5] = [
    // An object that the client destroyed is known until its id is deleted: its events take their descriptors. An event that its
    // interface does not have is passed over.
    Row {
        name: "destroyed objects",
        acts: &[
            Act::Bound,
            Act::SendWith(Request::Bind, (Some(6), Some((PAIR, 1)))),
            Act::SendWith(Request::Bind, (Some(5), Some((PAIR, 1)))),
            Act::PassOver(true),
            Act::Destroy(Object::Quad),
            Act::Destroy(Object::Pair),
            Act::Script(Cue::Arrive(&PAST_THE_LAST)),
            Act::Script(Cue::ArriveWith(&JOINED, 9)),
            Act::Next,
            Act::Script(Cue::ArriveWith(
                &[
                    5, 0, 0, 0, 0, 0, 32, 0, 0, 0, 0, 0, 0, 0, 0, 0, 3, 0, 0, 0, 110, 111, 0, 0, 1,
                    0, 0, 0, 1, 0, 0, 0,
                ],
                10,
            )),
            Act::Next,
            Act::Look(Look::LastError),
        ],
        told: "sent: 2, 1\nsent: 3, 2\nsent: 4, 3\nsent: 5, 4\ndestroyed\ndestroyed\nwould block\nevent 0 of 5: object 0, 0, 0 object 0, 0, 0 string of 2 bytes 1 descriptor 10\nno error\n",
    },
    // And they make what they make.
    Row {
        name: "child of a destroyed object",
        acts: &[
            Act::Bound,
            Act::PassOver(true),
            Act::Destroy(Object::Quad),
            Act::Script(Cue::Arrive(&MADE)),
            Act::Next,
            Act::SetData(Object::Child, 8),
            Act::Look(Look::Data(Object::Child)),
        ],
        told: "sent: 2, 1\nsent: 3, 2\ndestroyed\nwould block\ndone\ndata 8\n",
    },
    // An object that the client has not destroyed gets events of its interface.
    Row {
        name: "live object",
        acts: &[
            Act::Bound,
            Act::PassOver(true),
            Act::Script(Cue::Arrive(&PAST_THE_LAST)),
            Act::Next,
            Act::Look(Look::LastError),
        ],
        told: "sent: 2, 1\nsent: 3, 2\nthe session failed\nProtocol error 0 on object @0: Malformed Wayland message.\n",
    },
    // So does the display, and one whose id the server deleted first.
    Row {
        name: "display",
        acts: &[
            Act::PassOver(true),
            Act::Script(Cue::Arrive(&[1, 0, 0, 0, 2, 0, 8, 0])),
            Act::Next,
            Act::Look(Look::LastError),
        ],
        told: "the session failed\nProtocol error 0 on object @0: Malformed Wayland message.\n",
    },
    Row {
        name: "object whose id was deleted first",
        acts: &[
            Act::Bound,
            Act::PassOver(true),
            Act::Script(Cue::Arrive(&DELETE_3)),
            Act::Script(Cue::Arrive(&PAST_THE_LAST)),
            Act::Next,
            Act::Look(Look::LastError),
        ],
        told: "sent: 2, 1\nsent: 3, 2\nthe session failed\nProtocol error 0 on object @0: Malformed Wayland message.\n",
    },
];

/// A step of a run sets it, too, and a run leaves it as it is.
static STEPS: [Row; 1] = [Row {
    name: "set in a run",
    acts: &[
        Act::Replay(&[
            Call::Send(Request::Sync),
            Call::PassOver(true),
            Call::Arrive(&OF_99),
            Call::Next,
        ]),
        Act::Script(Cue::Arrive(&OF_99)),
        Act::Next,
        Act::Look(Look::LastError),
    ],
    told: "sent: 2, 1\npassing over set\ndone\nwould block\nrefused: false\nwould block\nno error\n",
}];

#[test]
fn numbers_of_nobody(rt: HostRuntime) -> Result<(), Fail> {
    rows_tell(&rt, &NOBODY)
}

#[test]
fn numbers_of_somebody(rt: HostRuntime) -> Result<(), Fail> {
    rows_tell(&rt, &SOMEBODY)
}

#[test]
fn steps(rt: HostRuntime) -> Result<(), Fail> {
    rows_tell(&rt, &STEPS)
}
