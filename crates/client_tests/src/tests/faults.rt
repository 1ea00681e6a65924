//! Faults and wants of memory of the transport, and what is too long for it.

use super::acts::{Act, Cue, Look, Row, rows_tell};
use crate::kit::steps::Call;
use crate::kit::values::{Object, Request};
use std::test::Fail;
use test_kit::cuts::{Cut, Stream};
use wl_wire::IoFault;

/// The first 100 bytes of a message of the display that has 200.
const HALF_A_MESSAGE: Stream = Stream {
    front: &[1, 0, 0, 0, 0, 0, 200, 0],
    filled: 92,
    back: &[],
};

/// `wl_callback.done` of 0, by object 2, in a message of 5000 bytes.
const DONE_5000: Stream = Stream {
    front: &[2, 0, 0, 0, 0, 0, 0x88, 0x13, 0, 0, 0, 0],
    filled: 4988,
    back: &[],
};

/// The same of 65532 bytes.
const DONE_65532: Stream = Stream {
    front: &[2, 0, 0, 0, 0, 0, 0xfc, 0xff, 0, 0, 0, 0],
    filled: 65520,
    back: &[],
};

/// The runs, and what they tell.
static ROWS: [Row; 9] = [
    // A request fills the buffer of 4096 bytes to its end, after the 44 bytes of the bind. Then the transport fails while
    // one is sent: it counts as sent, and the fault is the session's error.
    Row {
        name: "fault of a request",
        acts: &[
            Act::Limit(0),
            Act::Bound,
            Act::Send(Request::Give(4036)),
            Act::Script(Cue::AcceptFault(IoFault::Other(5))),
            Act::Send(Request::Sync),
            Act::Look(Look::LastError),
            Act::Flush,
            Act::Send(Request::Sync),
            Act::Look(Look::LastError),
        ],
        told: "sent: 2, 1\nsent: 3, 2\nsent: 0, 0\nsent: 4, 3\nIo error: os error 5\nthe session failed\nsent: 5, 4\nIo error: os error 5\n",
    },
    // The transport lacks memory while a request is sent: it is refused, and the next one is as if it had not been.
    Row {
        name: "request without memory",
        acts: &[
            Act::Limit(0),
            Act::Bound,
            Act::Send(Request::Give(4036)),
            Act::Script(Cue::AcceptFault(IoFault::OutOfMemory)),
            Act::SendInWant(Request::Sync),
            Act::Send(Request::Sync),
            Act::Look(Look::LastError),
        ],
        told: "sent: 2, 1\nsent: 3, 2\nsent: 0, 0\nout of memory\nsent: 4, 3\nno error\n",
    },
    // A request that is longer than the buffer may be.
    Row {
        name: "request too long",
        acts: &[
            Act::Limit(0),
            Act::Bound,
            Act::Send(Request::Give(4084)),
            Act::Look(Look::LastError),
        ],
        told: "sent: 2, 1\nsent: 3, 2\nsent: 0, 0\nIo error: message too big\n",
    },
    // A flush that would block, and one that fails.
    Row {
        name: "faults of a flush",
        acts: &[
            Act::Send(Request::Sync),
            Act::Script(Cue::AcceptFault(IoFault::WouldBlock)),
            Act::Script(Cue::AcceptFault(IoFault::Other(5))),
            Act::Flush,
            Act::Look(Look::LastError),
            Act::Flush,
            Act::Look(Look::LastError),
            Act::Next,
            Act::Flush,
        ],
        told: "sent: 2, 1\nwould block\nno error\nthe session failed\nIo error: os error 5\nthe session failed\nthe session failed\n",
    },
    // A fault of a receive is the session's error.
    Row {
        name: "fault of a receive",
        acts: &[
            Act::Script(Cue::ArriveFault(IoFault::WouldBlock)),
            Act::Script(Cue::ArriveFault(IoFault::Other(3))),
            Act::Next,
            Act::Next,
            Act::Look(Look::LastError),
            Act::Flush,
            Act::Next,
        ],
        told: "would block\nthe session failed\nIo error: os error 3\nthe session failed\nthe session failed\n",
    },
    // A hundred receives of a byte each, the beginning of a message of 200 bytes: a reading makes 64 of them.
    Row {
        name: "receives of a reading",
        acts: &[
            Act::Script(Cue::ArriveCut(HALF_A_MESSAGE, Cut::Bytewise)),
            Act::Next,
            Act::Look(Look::Arrivals),
            Act::Next,
            Act::Look(Look::Arrivals),
        ],
        told: "would block\n36 arrivals\nwould block\n0 arrivals\n",
    },
    Row {
        name: "message longer than the first buffer",
        acts: &[
            Act::Send(Request::Sync),
            ARRIVE_5000,
            Act::Next,
            Act::Look(Look::Arrivals),
            Act::Look(Look::LastError),
        ],
        told: "sent: 2, 1\nevent 0 of 2: 0\n0 arrivals\nno error\n",
    },
    // The buffer of what was received grows to 65536 bytes, and a reading receives 16 times.
    Row {
        name: "message of 65532 bytes",
        acts: &[
            Act::Send(Request::Sync),
            Act::Script(Cue::ArriveCut(DONE_65532, Cut::Chunks)),
            Act::Next,
            Act::Look(Look::Arrivals),
            Act::Look(Look::LastError),
        ],
        told: "sent: 2, 1\nevent 0 of 2: 0\n0 arrivals\nno error\n",
    },
    // A message that is longer than the buffer of what was received may become.
    Row {
        name: "message longer than the limit",
        acts: &[
            Act::Limit(4096),
            Act::Send(Request::Sync),
            ARRIVE_5000,
            Act::Next,
            Act::Look(Look::LastError),
        ],
        told: "sent: 2, 1\nthe session failed\nIo error: broken pipe\n",
    },
];

/// Each run tells what it has to.
#[test]
fn rows(rt: HostRuntime) -> Result<(), Fail> {
    rows_tell(&rt, &ROWS)
}

/// `wl_callback.done` of 0, by object 2, and an event of the display that no session reads after it has failed.
const DONE_AND_MORE: &[u8] = &[
    2, 0, 0, 0, 0, 0, 12, 0, 0, 0, 0, 0, 1, 0, 0, 0, 1, 0, 12, 0, 2, 0, 0, 0,
];

/// Sessions that the program ends, and what they tell.
static ENDED: [Row; 3] = [
    // The open event is closed, and its sender lives on, though the event ends it. The first error stays. Other calls go on.
    Row {
        name: "ended while an event is open",
        acts: &[
            Act::Send(Request::Sync),
            Act::Script(Cue::Arrive(DONE_AND_MORE)),
            Act::Next,
            Act::Fail(5),
            Act::Finish(None),
            Act::SetData(Object::Callback, 6),
            Act::Next,
            Act::Flush,
            Act::Fail(7),
            Act::Look(Look::LastError),
            Act::Send(Request::Sync),
            Act::Destroy(Object::Callback),
            Act::Notes,
        ],
        told: "sent: 2, 1\nevent 0 of 2: 0\nfailed\nno event is open\ndone\nthe session failed\nthe session failed\nfailed\nIo error: os error 5\nsent: 3, 2\ndestroyed\nnotes: 2, 1\n",
    },
    // A fault that came first stays the error.
    Row {
        name: "ended after a fault",
        acts: &[
            Act::Script(Cue::ArriveFault(IoFault::Other(3))),
            Act::Next,
            Act::Fail(5),
            Act::Look(Look::LastError),
        ],
        told: "the session failed\nfailed\nIo error: os error 3\n",
    },
    // So a step of a run ends it.
    Row {
        name: "ended in a run",
        acts: &[
            Act::Replay(&[
                Call::Send(Request::Sync),
                Call::Fail(IoFault::Other(5)),
                Call::Next,
            ]),
            Act::Look(Look::LastError),
        ],
        told: "sent: 2, 1\nfailed\nthe session failed\nrefused: false\nIo error: os error 5\n",
    },
];

/// Each session that the program ends tells what it has to.
#[test]
fn ended(rt: HostRuntime) -> Result<(), Fail> {
    rows_tell(&rt, &ENDED)
}

/// The arrivals of a message of 5000 bytes, which is longer than the buffer of what was received is at first.
const ARRIVE_5000: Act = Act::Script(Cue::ArriveCut(DONE_5000, Cut::Chunks));
