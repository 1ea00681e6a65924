//! Events: their arguments, those that break the protocol, and errors that the server tells.

use super::acts::{Act, Cue, Look, Row, rows_tell};
use crate::kit::values::{Object, Request};
use std::test::Fail;
use test_kit::quad::{PAIR, QUAD};
use wl_wire::{InterfaceId, IoFault, WL_REGISTRY_INTERFACE};

/// An interface that the table of `quad` and `pair` lacks.
const PAST_THE_LAST: InterfaceId = InterfaceId(6);

/// The runs, and what they tell: of a client with a `quad`, the object 3, or with a `pair` beside it, the object 4, whose events
/// come with the descriptor 9. It tells the event, and the session's error.
static ROWS: [Row; 10] = [
    // `wl_registry.global` of the name 1, `quad` and the version 3.
    Row {
        name: "event with a string",
        acts: &[
            Act::Bound,
            Act::Script(Cue::Arrive(&[
                2, 0, 0, 0, 0, 0, 28, 0, 1, 0, 0, 0, 5, 0, 0, 0, 113, 117, 97, 100, 0, 0, 0, 0, 3,
                0, 0, 0,
            ])),
            Act::Next,
            Act::Look(Look::LastError),
        ],
        told: "sent: 2, 1\nsent: 3, 2\nevent 0 of 2: 1 string of 4 3\nno error\n",
    },
    // `pair.joined` of the `pair` 4: the `quad` 3 and no object, the string `no`, the byte 1, and the descriptor 9.
    Row {
        name: "event of five arguments",
        acts: &[
            Act::Bound,
            Act::SendWith(Request::Bind, (Some(6), Some((PAIR, 1)))),
            Act::Script(Cue::ArriveWith(
                &[
                    4, 0, 0, 0, 0, 0, 32, 0, 3, 0, 0, 0, 0, 0, 0, 0, 3, 0, 0, 0, 110, 111, 0, 0, 1,
                    0, 0, 0, 1, 0, 0, 0,
                ],
                9,
            )),
            Act::Next,
            Act::Look(Look::LastError),
        ],
        told: "sent: 2, 1\nsent: 3, 2\nsent: 4, 3\nevent 0 of 4: object 3, 2, 4 object 0, 0, 0 string of 2 bytes 1 descriptor 9\nno error\n",
    },
    // The same event of the object 9, which there is not.
    Row {
        name: "event with an unknown object",
        acts: &[
            Act::Bound,
            Act::SendWith(Request::Bind, (Some(6), Some((PAIR, 1)))),
            Act::Script(Cue::ArriveWith(
                &[
                    4, 0, 0, 0, 0, 0, 32, 0, 9, 0, 0, 0, 0, 0, 0, 0, 3, 0, 0, 0, 110, 111, 0, 0, 1,
                    0, 0, 0, 1, 0, 0, 0,
                ],
                9,
            )),
            Act::Next,
            Act::Look(Look::LastError),
        ],
        told: "sent: 2, 1\nsent: 3, 2\nsent: 4, 3\nthe session failed\nProtocol error 0 on object @0: Unknown object 9.\n",
    },
    // The same event of the registry in place of a `quad`.
    Row {
        name: "event with an object of another interface",
        acts: &[
            Act::Bound,
            Act::SendWith(Request::Bind, (Some(6), Some((PAIR, 1)))),
            Act::Script(Cue::ArriveWith(
                &[
                    4, 0, 0, 0, 0, 0, 32, 0, 2, 0, 0, 0, 0, 0, 0, 0, 3, 0, 0, 0, 110, 111, 0, 0, 1,
                    0, 0, 0, 1, 0, 0, 0,
                ],
                9,
            )),
            Act::Next,
            Act::Look(Look::LastError),
        ],
        told: "sent: 2, 1\nsent: 3, 2\nsent: 4, 3\nthe session failed\nProtocol error 0 on object @0: Protocol error: server sent object 2 for interface quad, but it has interface wl_registry.\n",
    },
    // The header alone, of a length that has not come: the sender decides before the length is looked at.
    Row {
        name: "event from an unknown sender",
        acts: &[
            Act::Bound,
            Act::Script(Cue::Arrive(&[0x63, 0, 0, 0, 0, 0, 0xff, 0xff])),
            Act::Next,
            Act::Look(Look::LastError),
        ],
        told: "sent: 2, 1\nsent: 3, 2\nthe session failed\nProtocol error 0 on object @0: Malformed Wayland message.\n",
    },
    // The event 3 of a `quad`, which has three.
    Row {
        name: "event of an unknown opcode",
        acts: &[
            Act::Bound,
            Act::Script(Cue::Arrive(&[3, 0, 0, 0, 3, 0, 8, 0])),
            Act::Next,
            Act::Look(Look::LastError),
        ],
        told: "sent: 2, 1\nsent: 3, 2\nthe session failed\nProtocol error 0 on object @0: Malformed Wayland message.\n",
    },
    // A `quad` gets the request 5 and the event 3. The event came before, with one that was read, and is handed out; there is no
    // event 4. Only the program's interfaces are extended.
    Row {
        name: "event of an opcode that was unknown when it came",
        acts: &[
            Act::Bound,
            Act::Send(Request::Bare(Object::Quad, 5)),
            Act::Script(Cue::Arrive(&[
                3, 0, 0, 0, 0, 0, 12, 0, 5, 0, 0, 0, 3, 0, 0, 0, 3, 0, 8, 0,
            ])),
            Act::Next,
            Act::Finish(None),
            Act::Extend(PAST_THE_LAST, 4),
            Act::Extend(WL_REGISTRY_INTERFACE, 2),
            Act::Extend(QUAD, 4),
            Act::Next,
            Act::Finish(None),
            Act::Send(Request::Bare(Object::Quad, 5)),
            Act::Flush,
            Act::Look(Look::Sent),
            Act::Script(Cue::Arrive(&[3, 0, 0, 0, 4, 0, 8, 0])),
            Act::Next,
            Act::Look(Look::LastError),
        ],
        told: "sent: 2, 1\nsent: 3, 2\nthe interface has no request of that opcode\nevent 0 of 3: 5\nfinished\ninterface 0: a message names an interface outside the table, or this one takes no more messages\ninterface 0: a message names an interface outside the table, or this one takes no more messages\ndone\nevent 3 of 3:\nfinished\nsent: 0, 0\nflushed\n0100000001000c000200000002000000000020000100000005000000717561640000000003000000030000000300000005000800\nthe session failed\nProtocol error 0 on object @0: Malformed Wayland message.\n",
    },
    // `wl_registry.global` of the name 1 and the version 3, whose string has the length 4 and is `quad` without a zero.
    Row {
        name: "event whose text lacks its final zero",
        acts: &[
            Act::Bound,
            Act::Script(Cue::Arrive(&[
                2, 0, 0, 0, 0, 0, 24, 0, 1, 0, 0, 0, 4, 0, 0, 0, 113, 117, 97, 100, 3, 0, 0, 0,
            ])),
            Act::Next,
            Act::Look(Look::LastError),
        ],
        told: "sent: 2, 1\nsent: 3, 2\nthe session failed\nProtocol error 0 on object @0: Malformed Wayland message.\n",
    },
    // `wl_display.error` of code 7 for object 3, with the text `no`.
    Row {
        name: "told error",
        acts: &[
            Act::Bound,
            Act::Script(Cue::Arrive(&[
                1, 0, 0, 0, 0, 0, 24, 0, 3, 0, 0, 0, 7, 0, 0, 0, 3, 0, 0, 0, 110, 111, 0, 0,
            ])),
            Act::Next,
            Act::Look(Look::LastError),
        ],
        told: "sent: 2, 1\nsent: 3, 2\nthe session failed\nProtocol error 7 on object quad@3: no\n",
    },
    // `wl_display.error` with a null text.
    Row {
        name: "error without text",
        acts: &[
            Act::Script(Cue::Arrive(&[
                1, 0, 0, 0, 0, 0, 20, 0, 0, 0, 0, 0, 0, 0, 0, 0, 0, 0, 0, 0,
            ])),
            Act::Next,
            Act::Look(Look::LastError),
        ],
        told: "the session failed\nProtocol error 0 on object @0: Malformed Wayland message.\n",
    },
];

/// `quad.moved` of the `quad` 3, by 7.
const MOVED: [u8; 12] = [3, 0, 0, 0, 0, 0, 12, 0, 7, 0, 0, 0];

/// `quad.made` of the `quad` 3, with the first number of the server's range.
const MADE: [u8; 12] = [3, 0, 0, 0, 1, 0, 12, 0, 0, 0, 0, 255];

/// `quad.gone` of the `quad` 3, which the table names a destructor.
const GONE: [u8; 8] = [3, 0, 0, 0, 2, 0, 8, 0];

/// Runs of a client with a `quad`, the object 3 with the serial 2, that look at the event that is open.
static OPEN: [Row; 5] = [
    // None before the first event, none after its end, and none after a reading without an event.
    Row {
        name: "plain event",
        acts: &[
            Act::Look(Look::Open),
            Act::Bound,
            Act::Script(Cue::Arrive(&MOVED)),
            Act::Look(Look::Open),
            Act::Next,
            Act::Look(Look::Open),
            Act::Finish(None),
            Act::Look(Look::Open),
            Act::Next,
            Act::Look(Look::Open),
        ],
        told: "none open\nsent: 2, 1\nsent: 3, 2\nnone open\nevent 0 of 3: 7\nopen: of 3, 2\nfinished\nnone open\nwould block\nnone open\n",
    },
    // The event stays open while its sender is destroyed.
    Row {
        name: "event that ends its object",
        acts: &[
            Act::Bound,
            Act::Script(Cue::Arrive(&GONE)),
            Act::Next,
            Act::Look(Look::Open),
            Act::Destroy(Object::Quad),
            Act::Look(Look::Open),
            Act::Finish(None),
            Act::Look(Look::Open),
        ],
        told: "sent: 2, 1\nsent: 3, 2\nevent 2 of 3:\nopen: of 3, 2 which ends\ndestroyed\nopen: of 3, 2 which ends\nfinished\nnone open\n",
    },
    // Neither a refused reading nor a refused finish ends the event, and the next event is another.
    Row {
        name: "event that makes an object",
        acts: &[
            Act::Bound,
            Act::Script(Cue::Arrive(&MADE)),
            Act::Script(Cue::Arrive(&MOVED)),
            Act::Next,
            Act::Look(Look::Open),
            Act::Next,
            Act::Look(Look::Open),
            Act::Finish(None),
            Act::Look(Look::Open),
            Act::Finish(Some(7)),
            Act::Look(Look::Open),
            Act::Next,
            Act::Look(Look::Open),
        ],
        told: "sent: 2, 1\nsent: 3, 2\nevent 1 of 3: new 4278190080, 3\nopen: of 3, 2 new 4278190080, 3\nan event is open\nopen: of 3, 2 new 4278190080, 3\nthe new object gets no user data\nopen: of 3, 2 new 4278190080, 3\nfinished\nnone open\nevent 0 of 3: 7\nopen: of 3, 2\n",
    },
    // An event of a destroyed object is not handed out.
    Row {
        name: "dropped event",
        acts: &[
            Act::Bound,
            Act::Destroy(Object::Quad),
            Act::Script(Cue::Arrive(&MADE)),
            Act::Next,
            Act::Look(Look::Open),
        ],
        told: "sent: 2, 1\nsent: 3, 2\ndestroyed\nwould block\nnone open\n",
    },
    // The session fails while the event is open, by a send that fails.
    Row {
        name: "failed session",
        acts: &[
            Act::Bound,
            Act::Script(Cue::Arrive(&MOVED)),
            Act::Next,
            Act::Script(Cue::AcceptFault(IoFault::Other(5))),
            Act::Flush,
            Act::Next,
            Act::Look(Look::Open),
            Act::Finish(None),
            Act::Look(Look::Open),
            Act::Next,
            Act::Look(Look::Open),
        ],
        told: "sent: 2, 1\nsent: 3, 2\nevent 0 of 3: 7\nthe session failed\nthe session failed\nopen: of 3, 2\nfinished\nnone open\nthe session failed\nnone open\n",
    },
];

/// Each run tells which event is open.
#[test]
fn open_events(rt: HostRuntime) -> Result<(), Fail> {
    rows_tell(&rt, &OPEN)
}

/// Each run tells what it has to.
#[test]
fn rows(rt: HostRuntime) -> Result<(), Fail> {
    rows_tell(&rt, &ROWS)
}
