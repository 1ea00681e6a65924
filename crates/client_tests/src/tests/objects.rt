//! Objects that the server makes, and the ends of objects and of their numbers.

use super::acts::{Act, Cue, Look, Row, rows_tell};
use crate::kit::values::{Object, Request};
use std::test::Fail;

/// `quad.made` of the `quad` 3, with the first number of the server's range.
const MADE: [u8; 12] = [3, 0, 0, 0, 1, 0, 12, 0, 0, 0, 0, 255];

/// `wl_display.delete_id` of object 3.
const DELETE_3: [u8; 12] = [1, 0, 0, 0, 1, 0, 12, 0, 3, 0, 0, 0];

/// `wl_display.delete_id` of the callback 2, and then `wl_callback.done` of it.
const DELETE_2_AND_DONE: [u8; 24] = [
    1, 0, 0, 0, 1, 0, 12, 0, 2, 0, 0, 0, 2, 0, 0, 0, 0, 0, 12, 0, 0, 0, 0, 0,
];

/// `quad.made` of the `quad` 3, with the first number of the server's range, and `wl_display.delete_id` of that number.
const MADE_AND_DELETED: [u8; 24] = [
    3, 0, 0, 0, 1, 0, 12, 0, 0, 0, 0, 255, 1, 0, 0, 0, 1, 0, 12, 0, 0, 0, 0, 255,
];

/// The runs, and what they tell.
static ROWS: [Row; 15] = [
    // An object that the server makes, ended and made again.
    Row {
        name: "run of made objects",
        acts: &[
            Act::Bound,
            Act::Script(Cue::Arrive(&MADE)),
            Act::Next,
            Act::Next,
            Act::Finish(None),
            Act::Finish(Some(7)),
            Act::Finish(None),
            Act::Look(Look::Data(Object::Child)),
            Act::Destroy(Object::Child),
            Act::Notes,
            Act::Script(Cue::Arrive(&MADE)),
            Act::Next,
            Act::Finish(Some(8)),
            Act::Script(Cue::Arrive(&MADE)),
            Act::Next,
            Act::Look(Look::LastError),
            Act::Flush,
            Act::Next,
        ],
        told: "sent: 2, 1\nsent: 3, 2\nevent 1 of 3: new 4278190080, 3\nan event is open\nthe new object gets no user data\nfinished\nno event is open\ndata 7\ndestroyed\nnotes: 4278190080, 3\nevent 1 of 3: new 4278190080, 4\nfinished\nthe session failed\nProtocol error 0 on object @0: Protocol error: server tried to create an object \"quad\" with invalid id 4278190080.\nthe session failed\nthe session failed\n",
    },
    // `quad.made` with the number 5, which is of the client's range.
    Row {
        name: "new id of the client",
        acts: &[
            Act::Bound,
            Act::Script(Cue::Arrive(&[3, 0, 0, 0, 1, 0, 12, 0, 5, 0, 0, 0])),
            Act::Next,
            Act::Look(Look::LastError),
        ],
        told: "sent: 2, 1\nsent: 3, 2\nthe session failed\nProtocol error 0 on object @0: Protocol error: server tried to create an object \"quad\" with invalid id 5.\n",
    },
    // A destroyed object makes objects that are destroyed as well, which are replaced.
    Row {
        name: "child of a destroyed object",
        acts: &[
            Act::Bound,
            Act::Destroy(Object::Quad),
            Act::Notes,
            Act::Script(Cue::Arrive(&MADE)),
            Act::Next,
            Act::Look(Look::Info(Object::Child)),
            Act::SetData(Object::Child, 8),
            Act::Look(Look::Data(Object::Child)),
            Act::Script(Cue::Arrive(&MADE)),
            Act::Next,
            Act::Look(Look::Data(Object::Child)),
            Act::Notes,
        ],
        told: "sent: 2, 1\nsent: 3, 2\ndestroyed\nnotes: 3, 2\nwould block\nInvalid ObjectId\ndone\ndata 8\nwould block\nInvalid ObjectId\nnotes:\n",
    },
    // `wl_callback.done`, with which a callback ends, and `wl_display.delete_id`; its number is used again.
    Row {
        name: "life of a callback",
        acts: &[
            Act::Send(Request::Sync),
            Act::Script(Cue::Arrive(&[
                2, 0, 0, 0, 0, 0, 12, 0, 0, 0, 0, 0, 1, 0, 0, 0, 1, 0, 12, 0, 2, 0, 0, 0,
            ])),
            Act::Next,
            Act::Finish(Some(9)),
            Act::Finish(None),
            Act::Notes,
            Act::Next,
            Act::Look(Look::Data(Object::Callback)),
            Act::Send(Request::Sync),
            Act::Look(Look::Info(Object::Callback)),
        ],
        told: "sent: 2, 1\nevent 0 of 2: 0\nthere is no new object for the user data, 9 is back\nfinished\nnotes: 2, 1\nwould block\nInvalid ObjectId\nsent: 2, 2\nInvalid ObjectId\n",
    },
    // A destroyed object keeps its data until the server gives up its number; its events, here `quad.moved`, are
    // swallowed.
    Row {
        name: "destroyed object and its number",
        acts: &[
            Act::Bound,
            Act::Destroy(Object::Quad),
            Act::Destroy(Object::Quad),
            Act::Look(Look::Info(Object::Quad)),
            Act::Look(Look::Data(Object::Quad)),
            Act::Script(Cue::Arrive(&[3, 0, 0, 0, 0, 0, 12, 0, 7, 0, 0, 0])),
            Act::Next,
            Act::Script(Cue::Arrive(&DELETE_3)),
            Act::Next,
            Act::Look(Look::Data(Object::Quad)),
            Act::Send(Request::Sync),
        ],
        told: "sent: 2, 1\nsent: 3, 2\ndestroyed\nInvalid ObjectId\nInvalid ObjectId\ndata 6\nwould block\nwould block\nInvalid ObjectId\nsent: 3, 3\n",
    },
    // A number holds its object until it is free, then none, and then the next one.
    Row {
        name: "objects by their numbers",
        acts: &[
            Act::Look(Look::At(0)),
            Act::Look(Look::At(1)),
            Act::Bound,
            Act::Look(Look::At(3)),
            Act::Look(Look::At(4)),
            Act::Script(Cue::Arrive(&MADE)),
            Act::Next,
            Act::Look(Look::At(0xFF00_0000)),
            Act::Finish(Some(7)),
            Act::Destroy(Object::Quad),
            Act::Look(Look::At(3)),
            Act::Script(Cue::Arrive(&DELETE_3)),
            Act::Next,
            Act::Look(Look::At(3)),
            Act::Send(Request::Sync),
            Act::Look(Look::At(3)),
        ],
        told: "holds none\nholds 1, 0\nsent: 2, 1\nsent: 3, 2\nholds 3, 2\nholds none\nevent 1 of 3: new 4278190080, 3\nholds 4278190080, 3\nfinished\ndestroyed\nholds 3, 2\nwould block\nholds none\nsent: 3, 4\nholds 3, 4\n",
    },
    // `quad.gone`, whose object is destroyed before the event is finished: one note.
    Row {
        name: "destructor event of a destroyed object",
        acts: &[
            Act::Bound,
            Act::Script(Cue::Arrive(&[3, 0, 0, 0, 2, 0, 8, 0])),
            Act::Next,
            Act::Destroy(Object::Quad),
            Act::Finish(None),
            Act::Notes,
        ],
        told: "sent: 2, 1\nsent: 3, 2\nevent 2 of 3:\ndestroyed\nfinished\nnotes: 3, 2\n",
    },
    // `wl_display.delete_id` of the display and of 99, which holds nothing.
    Row {
        name: "numbers not given up",
        acts: &[
            Act::Bound,
            Act::Script(Cue::Arrive(&[
                1, 0, 0, 0, 1, 0, 12, 0, 1, 0, 0, 0, 1, 0, 0, 0, 1, 0, 12, 0, 99, 0, 0, 0,
            ])),
            Act::Next,
            Act::Look(Look::Info(Object::Display)),
            Act::Look(Look::Info(Object::Quad)),
            Act::Send(Request::Sync),
        ],
        told: "sent: 2, 1\nsent: 3, 2\nwould block\nversion 1\nversion 3\nsent: 4, 3\n",
    },
    // The server deletes the id of an object that the client has not destroyed: its number is not used again by itself.
    Row {
        name: "id deleted first",
        acts: &[
            Act::Bound,
            Act::Script(Cue::Arrive(&DELETE_3)),
            Act::Next,
            Act::Look(Look::Info(Object::Quad)),
            Act::Destroy(Object::Quad),
            Act::Look(Look::Data(Object::Quad)),
            Act::Send(Request::Sync),
        ],
        told: "sent: 2, 1\nsent: 3, 2\nwould block\nversion 3\ndestroyed\ndata 6\nsent: 4, 3\n",
    },
    // Such a number is used again once the client has destroyed its object and reclaimed it. The old id names nothing then.
    Row {
        name: "object reclaimed",
        acts: &[
            Act::Bound,
            Act::Reclaim(Object::Quad),
            Act::Script(Cue::Arrive(&DELETE_3)),
            Act::Next,
            Act::Reclaim(Object::Quad),
            Act::SetData(Object::Quad, 8),
            Act::Look(Look::Data(Object::Quad)),
            Act::Destroy(Object::Quad),
            Act::Reclaim(Object::Stranger),
            Act::Reclaim(Object::Quad),
            Act::Reclaim(Object::Quad),
            Act::Look(Look::Data(Object::Quad)),
            Act::Notes,
            Act::Send(Request::Sync),
            Act::Look(Look::Info(Object::Quad)),
            Act::Reclaim(Object::Quad),
        ],
        told: "sent: 2, 1\nsent: 3, 2\nInvalid ObjectId\nwould block\nInvalid ObjectId\ndone\ndata 8\ndestroyed\nInvalid ObjectId\nreclaimed\nInvalid ObjectId\nInvalid ObjectId\nnotes: 3, 2\nsent: 3, 3\nInvalid ObjectId\nInvalid ObjectId\n",
    },
    // An object that the client destroyed first is not reclaimed: it leaves by itself when the server deletes its id.
    Row {
        name: "object not reclaimed before its id is deleted",
        acts: &[
            Act::Bound,
            Act::Destroy(Object::Quad),
            Act::Reclaim(Object::Quad),
            Act::Look(Look::Data(Object::Quad)),
            Act::Send(Request::Sync),
            Act::Script(Cue::Arrive(&DELETE_3)),
            Act::Next,
            Act::Reclaim(Object::Quad),
            Act::Send(Request::Sync),
        ],
        told: "sent: 2, 1\nsent: 3, 2\ndestroyed\nInvalid ObjectId\ndata 6\nsent: 4, 3\nwould block\nInvalid ObjectId\nsent: 3, 4\n",
    },
    // Nor is one that an event ended, before its id is deleted; if that came first, it is.
    Row {
        name: "callback reclaimed",
        acts: &[
            Act::Send(Request::Sync),
            Act::Script(Cue::Arrive(&DELETE_2_AND_DONE)),
            Act::Next,
            Act::Reclaim(Object::Callback),
            Act::Finish(None),
            Act::Reclaim(Object::Callback),
            Act::Notes,
            Act::Send(Request::Sync),
            Act::Script(Cue::Arrive(&[2, 0, 0, 0, 0, 0, 12, 0, 0, 0, 0, 0])),
            Act::Next,
            Act::Finish(None),
            Act::Reclaim(Object::SecondCallback),
            Act::Send(Request::Sync),
        ],
        told: "sent: 2, 1\nevent 0 of 2: 0\nInvalid ObjectId\nfinished\nreclaimed\nnotes: 2, 1\nsent: 2, 2\nevent 0 of 2: 0\nfinished\nInvalid ObjectId\nsent: 3, 3\n",
    },
    // A number of the server's range, which the server then uses again.
    Row {
        name: "made object reclaimed",
        acts: &[
            Act::Bound,
            Act::Script(Cue::Arrive(&MADE_AND_DELETED)),
            Act::Next,
            Act::Finish(Some(7)),
            Act::Next,
            Act::Destroy(Object::Child),
            Act::Reclaim(Object::Child),
            Act::Script(Cue::Arrive(&MADE)),
            Act::Next,
            Act::Finish(Some(8)),
            Act::Reclaim(Object::Child),
        ],
        told: "sent: 2, 1\nsent: 3, 2\nevent 1 of 3: new 4278190080, 3\nfinished\nwould block\ndestroyed\nreclaimed\nevent 1 of 3: new 4278190080, 4\nfinished\nInvalid ObjectId\n",
    },
    // The display stays, whatever the server deletes.
    Row {
        name: "display not reclaimed",
        acts: &[
            Act::Script(Cue::Arrive(&[1, 0, 0, 0, 1, 0, 12, 0, 1, 0, 0, 0])),
            Act::Next,
            Act::Destroy(Object::Display),
            Act::Reclaim(Object::Display),
            Act::Reclaim(Object::Null),
            Act::Look(Look::Info(Object::Display)),
        ],
        told: "would block\nInvalid ObjectId\nInvalid ObjectId\nInvalid ObjectId\nversion 1\n",
    },
    // Data that are lent are changed where they stand, also those of a destroyed object while it is kept. The display has none.
    Row {
        name: "data lent",
        acts: &[
            Act::Bound,
            Act::AddToData(Object::Quad, 3),
            Act::SetData(Object::Quad, 4),
            Act::AddToData(Object::Quad, 5),
            Act::Look(Look::Data(Object::Quad)),
            Act::Destroy(Object::Quad),
            Act::AddToData(Object::Quad, 1),
            Act::Look(Look::Data(Object::Quad)),
            Act::Script(Cue::Arrive(&DELETE_3)),
            Act::Next,
            Act::AddToData(Object::Quad, 1),
            Act::AddToData(Object::Display, 1),
        ],
        told: "sent: 2, 1\nsent: 3, 2\nlent 6\ndone\nlent 4\ndata 9\ndestroyed\nlent 9\ndata 10\nwould block\nInvalid ObjectId\nInvalid ObjectId\n",
    },
];

/// Each run tells what it has to.
#[test]
fn rows(rt: HostRuntime) -> Result<(), Fail> {
    rows_tell(&rt, &ROWS)
}
