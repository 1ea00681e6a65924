//! What is refused: nothing is changed then.

use crate::run::{Act, Row, rows_tell};
use std::test::Fail;

static ROWS: [Row; 5] = [
    Row {
        name: "event of no object",
        acts: &[
            Act::Put(0, &[], 1),
            Act::Add(0, 91),
            Act::Put(0, &[3], 2),
            Act::Destroy(0),
            Act::Put(0, &[], 3),
            Act::Next(0),
            Act::Unused,
        ],
        told: "not put: NoObject, 1\nOk(0)\nnot put: NoObject, 2\nOk(())\nnot put: NoObject, 3\nnothing\n0 with 91\n",
    },
    Row {
        name: "event with a destroyed argument",
        acts: &[
            Act::Add(0, 91),
            Act::Add(0, 92),
            Act::Destroy(1),
            Act::Put(0, &[1], 1),
            Act::Unused,
            Act::Put(0, &[1], 2),
            Act::Put(0, &[], 3),
        ],
        told: "Ok(0)\nOk(1)\nOk(())\nnot put: NoObject, 1\n1 with 92\nnot put: NoObject, 2\nput\n",
    },
    Row {
        name: "queue that is not there",
        acts: &[
            Act::Next(1),
            Act::Add(1, 91),
            Act::DropQueue(1),
            Act::HasEvents(1),
            Act::Add(0, 92),
            Act::SetQueue(0, 1),
            Act::Object(0),
        ],
        told: "NoQueue\nErr(NoQueue)\nErr(NoQueue)\nfalse\nOk(0)\nErr(NoQueue)\nObject { queue: 0, fate: Alive, content: 92 }\n",
    },
    Row {
        name: "object that is not there",
        acts: &[
            Act::SetQueue(0, 0),
            Act::Destroy(0),
            Act::Object(0),
            Act::Unused,
        ],
        told: "Err(NoObject)\nErr(NoObject)\nObject { queue: 0, fate: Free, content: 0 }\nnone\n",
    },
    Row {
        name: "ticket that was not given",
        acts: &[
            Act::Finish(0),
            Act::Content(0),
            Act::Argument(0, 0),
            Act::Add(0, 91),
            Act::Put(0, &[], 1),
            Act::HasEvents(0),
            Act::Next(0),
            Act::HasEvents(0),
            Act::Finish(1),
            Act::Finish(0),
        ],
        told: "not in hand\nnot in hand\nnone\nOk(0)\nput\ntrue\nticket 0\nfalse\nnot in hand\nevent 1\n",
    },
];

#[test]
fn rows(rt: HostRuntime) -> Result<(), Fail> {
    rows_tell(&rt, &ROWS)
}
