//! In which order events come out, and what is dropped: as libwayland-client 1.21 was measured to do it.

use crate::run::{Act, Row, rows_tell};
use std::test::Fail;

static ROWS: [Row; 13] = [
    // libwayland hands out 2 before 1.
    Row {
        name: "event that waits stays in its queue when its object gets another one",
        acts: &[
            Act::Add(0, 91),
            Act::Put(0, &[], 1),
            Act::NewQueue,
            Act::SetQueue(0, 1),
            Act::Put(0, &[], 2),
            Act::Next(1),
            Act::Content(0),
            Act::Next(0),
            Act::Content(1),
            Act::Next(0),
            Act::Next(1),
        ],
        told: "Ok(0)\nput\nOk(1)\nOk(())\nput\nticket 0\nevent 2\nticket 1\nevent 1\nnothing\nnothing\n",
    },
    Row {
        name: "moved to the default queue",
        acts: &[
            Act::NewQueue,
            Act::Add(1, 91),
            Act::SetQueue(0, 0),
            Act::Put(0, &[], 1),
            Act::Next(1),
            Act::Next(0),
        ],
        told: "Ok(1)\nOk(0)\nOk(())\nput\nnothing\nticket 0\n",
    },
    // The child has the queue that its maker had when the event was read.
    Row {
        name: "child of a moved object",
        acts: &[
            Act::Add(0, 91),
            Act::Add(0, 92),
            Act::Put(0, &[1], 1),
            Act::NewQueue,
            Act::SetQueue(0, 1),
            Act::Put(1, &[], 2),
            Act::Next(1),
            Act::Next(0),
            Act::Content(0),
            Act::Next(0),
            Act::Content(1),
        ],
        told: "Ok(0)\nOk(1)\nput\nOk(1)\nOk(())\nput\nnothing\nticket 0\nevent 1\nticket 1\nevent 2\n",
    },
    Row {
        name: "child of a wrapper has its queue",
        acts: &[
            Act::Add(0, 91),
            Act::NewQueue,
            Act::Add(1, 92),
            Act::Add(0, 93),
            Act::Put(0, &[], 1),
            Act::Put(1, &[], 5),
            Act::Next(0),
            Act::Content(0),
            Act::Next(0),
            Act::Next(1),
            Act::Content(1),
        ],
        told: "Ok(0)\nOk(1)\nOk(1)\nOk(2)\nput\nput\nticket 0\nevent 1\nnothing\nticket 1\nevent 5\n",
    },
    // The event is never handed out.
    Row {
        name: "error after an event",
        acts: &[
            Act::Add(0, 91),
            Act::Put(0, &[], 1),
            Act::Fail,
            Act::Next(0),
            Act::Next(0),
        ],
        told: "Ok(0)\nput\ndropped: SessionFailed, 1\nnothing\n",
    },
    // An error in the display's own queue does not hold back the next event of another queue, as long as it is not dispatched.
    Row {
        name: "error of the display between two events",
        acts: &[
            Act::NewQueue,
            Act::Add(1, 91),
            Act::Add(0, 92),
            Act::Put(1, &[], 88),
            Act::Put(1, &[], 89),
            Act::Next(0),
            Act::Put(0, &[], 7),
            Act::Finish(0),
            Act::Next(0),
            Act::Finish(1),
            Act::Next(1),
            Act::Fail,
            Act::Next(0),
        ],
        told: "Ok(1)\nOk(0)\nOk(1)\nput\nput\nticket 0\nput\nevent 88\nticket 1\nevent 89\nticket 2\nnothing\n",
    },
    // The second event counts as dispatched, and no listener is called.
    Row {
        name: "listener destroys its object",
        acts: &[
            Act::Add(0, 91),
            Act::Put(0, &[], 77),
            Act::Put(0, &[], 78),
            Act::Next(0),
            Act::Destroy(0),
            Act::Finish(0),
            Act::Next(0),
            Act::Next(0),
        ],
        told: "Ok(0)\nput\nput\nticket 0\nOk(())\nevent 77\ndropped: SenderDestroyed, 78\nnothing\n",
    },
    Row {
        name: "listener dispatches",
        acts: &[
            Act::Add(0, 91),
            Act::Put(0, &[], 1),
            Act::Put(0, &[], 2),
            Act::Put(0, &[], 3),
            Act::Next(0),
            Act::Next(0),
            Act::Finish(1),
            Act::Next(0),
            Act::Finish(2),
            Act::Finish(0),
            Act::Finish(0),
        ],
        told: "Ok(0)\nput\nput\nput\nticket 0\nticket 1\nevent 2\nticket 2\nevent 3\nevent 1\nnot in hand\n",
    },
    Row {
        name: "destroyed argument is null",
        acts: &[
            Act::Add(0, 91),
            Act::Add(0, 92),
            Act::Add(0, 93),
            Act::Put(0, &[1, 2], 5),
            Act::Destroy(1),
            Act::Next(0),
            Act::Argument(0, 0),
            Act::Argument(0, 1),
            Act::Argument(0, 2),
        ],
        told: "Ok(0)\nOk(1)\nOk(2)\nput\nOk(())\nticket 0\nnone\n2\nnone\n",
    },
    // What it made is told of with it, so that the host can destroy that.
    Row {
        name: "dropped event that made an object",
        acts: &[
            Act::Add(0, 91),
            Act::Add(0, 92),
            Act::Put(0, &[1], 4),
            Act::Destroy(0),
            Act::Next(0),
            Act::Destroy(1),
            Act::Unused,
            Act::Unused,
            Act::Unused,
        ],
        told: "Ok(0)\nOk(1)\nput\nOk(())\ndropped: SenderDestroyed, 4\nOk(())\n0 with 91\n1 with 92\nnone\n",
    },
    // The content, with its descriptor, comes out with the event.
    Row {
        name: "queue dropped with an event",
        acts: &[
            Act::NewQueue,
            Act::Add(1, 91),
            Act::Put(0, &[], 4),
            Act::SetQueue(0, 0),
            Act::DropQueue(1),
            Act::Next(1),
            Act::Next(1),
        ],
        told: "Ok(1)\nOk(0)\nput\nOk(())\nOk(())\ndropped: QueueDropped, 4\nnothing\n",
    },
    // libwayland reads freed memory here.
    Row {
        name: "queue dropped while an object has it",
        acts: &[
            Act::NewQueue,
            Act::Add(1, 91),
            Act::DropQueue(1),
            Act::Object(0),
            Act::Put(0, &[], 1),
            Act::Next(1),
            Act::Next(0),
            Act::Content(0),
        ],
        told: "Ok(1)\nOk(0)\nOk(())\nObject { queue: 0, fate: Alive, content: 91 }\nput\nnothing\nticket 0\nevent 1\n",
    },
    Row {
        name: "number of a dropped queue is used no more",
        acts: &[
            Act::NewQueue,
            Act::DropQueue(1),
            Act::NewQueue,
            Act::Add(1, 91),
            Act::DropQueue(1),
            Act::DropQueue(0),
            Act::Add(2, 92),
            Act::SetQueue(0, 1),
        ],
        told: "Ok(1)\nOk(())\nOk(2)\nErr(NoQueue)\nErr(NoQueue)\nErr(NoQueue)\nOk(0)\nErr(NoQueue)\n",
    },
];

#[test]
fn rows(rt: HostRuntime) -> Result<(), Fail> {
    rows_tell(&rt, &ROWS)
}
