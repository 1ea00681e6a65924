//! The ids of objects that leave their numbers.

use super::acts::{Act, Cue, Look, Row, rows_tell};
use crate::kit::values::{Object, Request};
use std::test::Fail;

/// `wl_display.delete_id` of object 3.
const DELETE_3: [u8; 12] = [1, 0, 0, 0, 1, 0, 12, 0, 3, 0, 0, 0];

/// The same of object 4, and then of object 3.
const DELETE_4_AND_3: [u8; 24] = [
    1, 0, 0, 0, 1, 0, 12, 0, 4, 0, 0, 0, 1, 0, 0, 0, 1, 0, 12, 0, 3, 0, 0, 0,
];

/// The same as that of object 3, and one of another length, by the unknown sender 99; and an event of object 3 that it does not have.
const OF_NOBODY: [u8; 32] = [
    99, 0, 0, 0, 1, 0, 12, 0, 3, 0, 0, 0, 99, 0, 0, 0, 1, 0, 8, 0, 3, 0, 0, 0, 77, 0, 12, 0, 3, 0,
    0, 0,
];

/// `wl_callback.done`, by object 2, and `wl_display.delete_id` of that.
const ANSWER: [u8; 24] = [
    2, 0, 0, 0, 0, 0, 12, 0, 0, 0, 0, 0, 1, 0, 0, 0, 1, 0, 12, 0, 2, 0, 0, 0,
];

/// `quad.made` of the `quad` 3, with the first number of the server's range.
const MADE: [u8; 12] = [3, 0, 0, 0, 1, 0, 12, 0, 0, 0, 0, 255];

/// The same with a number beyond the next: the server may not make an object there.
const MADE_BEYOND: [u8; 12] = [3, 0, 0, 0, 1, 0, 12, 0, 9, 0, 0, 255];

/// The runs, and what they tell.
static ROWS: [Row; 8] = [
    // They come in the order in which the server deletes the ids, and name nothing any more.
    Row {
        name: "deleted ids are told",
        acts: &[
            Act::KeepFreed(true),
            Act::Bound,
            Act::Send(Request::Make),
            Act::Destroy(Object::Quad),
            Act::Destroy(Object::Second),
            Act::Freed,
            Act::Script(Cue::Arrive(&DELETE_4_AND_3)),
            Act::Next,
            Act::Freed,
            Act::Look(Look::Data(Object::Second)),
            Act::Freed,
            Act::Freed,
            Act::Send(Request::Sync),
        ],
        told: "sent: 2, 1\nsent: 3, 2\nsent: 4, 3\ndestroyed\ndestroyed\nnone freed\nwould block\nfreed 4, 3\nInvalid ObjectId\nfreed 3, 2\nnone freed\nsent: 3, 4\n",
    },
    // An object that an event ended.
    Row {
        name: "callback is told",
        acts: &[
            Act::KeepFreed(true),
            Act::Send(Request::Sync),
            Act::Script(Cue::Arrive(&ANSWER)),
            Act::Next,
            Act::Finish(None),
            Act::Freed,
            Act::Next,
            Act::Freed,
            Act::Freed,
        ],
        told: "sent: 2, 1\nevent 0 of 2: 0\nfinished\nnone freed\nwould block\nfreed 2, 1\nnone freed\n",
    },
    // One whose number the server takes for a new object; where it may not make one, the old one stays.
    Row {
        name: "number taken over",
        acts: &[
            Act::KeepFreed(true),
            Act::Bound,
            Act::Script(Cue::Arrive(&MADE)),
            Act::Next,
            Act::Finish(Some(7)),
            Act::Destroy(Object::Child),
            Act::Freed,
            Act::Script(Cue::Arrive(&MADE)),
            Act::Next,
            Act::Freed,
            Act::Freed,
            Act::Finish(Some(8)),
            Act::Script(Cue::Arrive(&MADE_BEYOND)),
            Act::Next,
            Act::Freed,
        ],
        told: "sent: 2, 1\nsent: 3, 2\nevent 1 of 3: new 4278190080, 3\nfinished\ndestroyed\nnone freed\nevent 1 of 3: new 4278190080, 4\nfreed 4278190080, 3\nnone freed\nfinished\nthe session failed\nnone freed\n",
    },
    // An object that the client has not destroyed keeps its number. What is reclaimed is told by the answer.
    Row {
        name: "live object is not told",
        acts: &[
            Act::KeepFreed(true),
            Act::Bound,
            Act::Script(Cue::Arrive(&DELETE_3)),
            Act::Next,
            Act::Freed,
            Act::Destroy(Object::Quad),
            Act::Freed,
            Act::Reclaim(Object::Quad),
            Act::Freed,
        ],
        told: "sent: 2, 1\nsent: 3, 2\nwould block\nnone freed\ndestroyed\nnone freed\nreclaimed\nnone freed\n",
    },
    // Messages that are passed over free no number.
    Row {
        name: "messages that are passed over",
        acts: &[
            Act::KeepFreed(true),
            Act::PassOver(true),
            Act::Bound,
            Act::Destroy(Object::Quad),
            Act::Script(Cue::Arrive(&OF_NOBODY)),
            Act::Next,
            Act::Freed,
            Act::Script(Cue::Arrive(&DELETE_3)),
            Act::Next,
            Act::Freed,
            Act::Script(Cue::Arrive(&OF_NOBODY)),
            Act::Next,
            Act::Freed,
        ],
        told: "sent: 2, 1\nsent: 3, 2\ndestroyed\nwould block\nnone freed\nwould block\nfreed 3, 2\nwould block\nnone freed\n",
    },
    // Without the setting none is kept.
    Row {
        name: "none is kept",
        acts: &[
            Act::Bound,
            Act::Destroy(Object::Quad),
            Act::Script(Cue::Arrive(&DELETE_3)),
            Act::Next,
            Act::Freed,
            Act::KeepFreed(true),
            Act::Freed,
        ],
        told: "sent: 2, 1\nsent: 3, 2\ndestroyed\nwould block\nnone freed\nnone freed\n",
    },
    // What waits is dropped when they are kept no more,
    Row {
        name: "kept no more",
        acts: &[
            Act::KeepFreed(true),
            Act::Bound,
            Act::Destroy(Object::Quad),
            Act::Script(Cue::Arrive(&DELETE_3)),
            Act::Next,
            Act::KeepFreed(false),
            Act::Freed,
            Act::KeepFreed(true),
            Act::Freed,
        ],
        told: "sent: 2, 1\nsent: 3, 2\ndestroyed\nwould block\nnone freed\nnone freed\n",
    },
    // and goes on waiting if they are.
    Row {
        name: "kept on",
        acts: &[
            Act::KeepFreed(true),
            Act::Bound,
            Act::Destroy(Object::Quad),
            Act::Script(Cue::Arrive(&DELETE_3)),
            Act::Next,
            Act::KeepFreed(true),
            Act::Freed,
        ],
        told: "sent: 2, 1\nsent: 3, 2\ndestroyed\nwould block\nfreed 3, 2\n",
    },
];

/// Each run tells what it has to.
#[test]
fn rows(rt: HostRuntime) -> Result<(), Fail> {
    rows_tell(&rt, &ROWS)
}
