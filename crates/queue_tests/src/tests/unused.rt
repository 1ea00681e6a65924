//! When an object's data can be freed: once it is destroyed, and no event that waits or is in hand names it. It is told with the content
//! with which it was added.

use crate::run::{Act, Row, rows_tell};
use std::test::Fail;

static ROWS: [Row; 7] = [
    // The event in hand keeps the object.
    Row {
        name: "destroyed in its own listener",
        acts: &[
            Act::Add(0, 91),
            Act::Put(0, &[], 1),
            Act::Next(0),
            Act::Destroy(0),
            Act::Unused,
            Act::Content(0),
            Act::Finish(0),
            Act::Unused,
            Act::Unused,
        ],
        told: "Ok(0)\nput\nticket 0\nOk(())\nnone\nevent 1\nevent 1\n0 with 91\nnone\n",
    },
    Row {
        name: "destroyed while an event waits",
        acts: &[
            Act::Add(0, 91),
            Act::Put(0, &[], 1),
            Act::Destroy(0),
            Act::Unused,
            Act::Next(0),
            Act::Unused,
        ],
        told: "Ok(0)\nput\nOk(())\nnone\ndropped: SenderDestroyed, 1\n0 with 91\n",
    },
    Row {
        name: "destroyed while an event names it twice",
        acts: &[
            Act::Add(0, 91),
            Act::Add(0, 92),
            Act::Put(0, &[1, 1], 1),
            Act::Put(0, &[1], 2),
            Act::Destroy(1),
            Act::Next(0),
            Act::Finish(0),
            Act::Unused,
            Act::Next(0),
            Act::Unused,
            Act::Finish(1),
            Act::Unused,
        ],
        told: "Ok(0)\nOk(1)\nput\nput\nOk(())\nticket 0\nevent 1\nnone\nticket 1\nnone\nevent 2\n1 with 92\n",
    },
    Row {
        name: "destroyed with no event",
        acts: &[
            Act::Add(0, u64::MAX),
            Act::Destroy(0),
            Act::Unused,
            Act::Unused,
            Act::Destroy(0),
        ],
        told: "Ok(0)\nOk(())\n0 with 18446744073709551615\nnone\nErr(NoObject)\n",
    },
    // The old one's event is dropped, and the new one's comes.
    Row {
        name: "slot is not used again while an old event waits",
        acts: &[
            Act::Add(0, 91),
            Act::Put(0, &[], 1),
            Act::Destroy(0),
            Act::Add(0, 92),
            Act::Put(1, &[], 2),
            Act::Next(0),
            Act::Next(0),
            Act::Content(0),
            Act::Unused,
            Act::Add(0, 93),
            Act::Object(0),
        ],
        told: "Ok(0)\nput\nOk(())\nOk(1)\nput\ndropped: SenderDestroyed, 1\nticket 0\nevent 2\n0 with 91\nOk(0)\nObject { queue: 0, fate: Alive, content: 93 }\n",
    },
    Row {
        name: "oldest first",
        acts: &[
            Act::Add(0, 91),
            Act::Add(0, 92),
            Act::Add(0, 93),
            Act::Destroy(2),
            Act::Destroy(0),
            Act::Unused,
            Act::Unused,
            Act::Unused,
            Act::Add(0, 94),
            Act::Add(0, 95),
            Act::Add(0, 96),
        ],
        told: "Ok(0)\nOk(1)\nOk(2)\nOk(())\nOk(())\n2 with 93\n0 with 91\nnone\nOk(0)\nOk(2)\nOk(3)\n",
    },
    Row {
        name: "two events in hand",
        acts: &[
            Act::Add(0, 91),
            Act::Put(0, &[], 1),
            Act::Put(0, &[], 2),
            Act::Next(0),
            Act::Next(0),
            Act::Destroy(0),
            Act::Finish(0),
            Act::Unused,
            Act::Finish(1),
            Act::Unused,
        ],
        told: "Ok(0)\nput\nput\nticket 0\nticket 1\nOk(())\nevent 1\nnone\nevent 2\n0 with 91\n",
    },
];

#[test]
fn rows(rt: HostRuntime) -> Result<(), Fail> {
    rows_tell(&rt, &ROWS)
}
