//! The runs for which each allocation is refused in turn.

use crate::drill::{Entry, run_tells};
use crate::run::Act;
use std::test::Fail;

/// Objects come, are destroyed and told unused, and a slot is used again; a queue is dropped; seven events are in hand at once; and
/// the session fails.
static RUN: [Entry; 70] = [
    (Act::NewQueue, "Ok(1)\n"),
    (Act::Add(0, 91), "Ok(0)\n"),
    (Act::Add(1, 92), "Ok(1)\n"),
    (Act::Put(0, &[1], 10), "put\n"),
    (Act::Put(1, &[], 11), "put\n"),
    (Act::Put(0, &[0, 1], 12), "put\n"),
    (Act::Put(0, &[], 13), "put\n"),
    (Act::Put(0, &[], 14), "put\n"),
    (Act::Put(0, &[], 15), "put\n"),
    (Act::Next(0), "ticket 0\n"),
    (Act::Argument(0, 0), "1\n"),
    (Act::Next(1), "ticket 1\n"),
    (Act::Next(0), "ticket 2\n"),
    (Act::Add(0, 93), "Ok(2)\n"),
    (Act::Destroy(1), "Ok(())\n"),
    (Act::Argument(0, 0), "none\n"),
    (Act::Unused, "none\n"),
    (Act::Finish(1), "event 11\n"),
    (Act::Finish(0), "event 10\n"),
    // The event 12 is in hand, and names it.
    (Act::Unused, "none\n"),
    (Act::Finish(2), "event 12\n"),
    (Act::Unused, "1 with 92\n"),
    (Act::Unused, "none\n"),
    (Act::Add(1, 94), "Ok(1)\n"),
    (
        Act::Object(1),
        "Object { queue: 1, fate: Alive, content: 94 }\n",
    ),
    (Act::Put(1, &[0], 16), "put\n"),
    (Act::NewQueue, "Ok(2)\n"),
    (Act::SetQueue(0, 2), "Ok(())\n"),
    (Act::Put(0, &[], 17), "put\n"),
    (Act::Next(0), "ticket 3\n"),
    (Act::Next(2), "ticket 4\n"),
    (Act::Content(3), "event 13\n"),
    (Act::Content(4), "event 17\n"),
    (Act::DropQueue(1), "Ok(())\n"),
    (Act::Next(1), "dropped: QueueDropped, 16\n"),
    (Act::Next(1), "nothing\n"),
    (
        Act::Object(1),
        "Object { queue: 0, fate: Alive, content: 94 }\n",
    ),
    // So many of each that what was taken for the first ones has no room.
    (Act::NewQueue, "Ok(3)\n"),
    (Act::NewQueue, "Ok(4)\n"),
    (Act::NewQueue, "Ok(5)\n"),
    (Act::NewQueue, "Ok(6)\n"),
    (Act::Add(6, 95), "Ok(3)\n"),
    (Act::Add(0, 96), "Ok(4)\n"),
    (Act::Add(0, 97), "Ok(5)\n"),
    (Act::Put(3, &[4], 18), "put\n"),
    (Act::Put(3, &[], 19), "put\n"),
    (Act::Put(3, &[], 20), "put\n"),
    (Act::Put(3, &[], 21), "put\n"),
    (Act::Put(3, &[], 22), "put\n"),
    (Act::Next(6), "ticket 5\n"),
    (Act::Next(6), "ticket 6\n"),
    (Act::Next(6), "ticket 7\n"),
    (Act::Next(6), "ticket 8\n"),
    (Act::Next(6), "ticket 9\n"),
    (Act::Next(6), "nothing\n"),
    (Act::Destroy(5), "Ok(())\n"),
    (Act::Destroy(4), "Ok(())\n"),
    (Act::Finish(9), "event 22\n"),
    (Act::Finish(6), "event 19\n"),
    (Act::Unused, "5 with 97\n"),
    (Act::Finish(5), "event 18\n"),
    (Act::Unused, "4 with 96\n"),
    (Act::Fail, ""),
    (Act::Next(0), "dropped: SessionFailed, 14\n"),
    (Act::Next(0), "dropped: SessionFailed, 15\n"),
    (Act::Next(0), "nothing\n"),
    (Act::HasEvents(0), "false\n"),
    (Act::Finish(4), "event 17\n"),
    (Act::Finish(3), "event 13\n"),
    (Act::Unused, "none\n"),
];

/// Whatever memory is refused, each event comes out once and in its order, and each object is told unused once.
#[test]
fn drill_of_queues(rt: HostRuntime) -> Result<(), Fail> {
    run_tells(&rt, "queues", &RUN)
}
