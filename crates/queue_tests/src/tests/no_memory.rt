//! Calls that take no memory. `./refusal-drill` counts what is allocated for each: nothing, but for those whose names begin with
//! `control`.

use crate::run::{Act, is_text, perform};
use std::test::Fail;
use wl_queues::Queues;

/// How a call is named, the call, and what it tells. One without a name makes ready for the next.
type Row = (&'static str, Act, &'static str);

/// The calls of new queues, in order. Until one event is handed out, there is no place in hand.
static ROWS: [Row; 30] = [
    ("next_of, none waits", Act::Next(0), "nothing\n"),
    ("next_of, there is no queue", Act::Next(1), "NoQueue\n"),
    ("", Act::NewQueue, "Ok(1)\n"),
    ("control: add", Act::Add(0, 91), "Ok(0)\n"),
    ("", Act::Add(1, 92), "Ok(1)\n"),
    ("", Act::Add(1, 93), "Ok(2)\n"),
    ("control: put", Act::Put(0, &[], 1), "put\n"),
    ("", Act::Put(1, &[], 2), "put\n"),
    ("", Act::Put(2, &[1], 3), "put\n"),
    ("destroy", Act::Destroy(0), "Ok(())\n"),
    (
        "next_of, its sender was destroyed",
        Act::Next(0),
        "dropped: SenderDestroyed, 1\n",
    ),
    ("next_unused", Act::Unused, "0 with 91\n"),
    ("next_unused, there is none", Act::Unused, "none\n"),
    ("set_queue", Act::SetQueue(2, 0), "Ok(())\n"),
    ("drop_queue", Act::DropQueue(1), "Ok(())\n"),
    (
        "next_of, its queue was dropped",
        Act::Next(1),
        "dropped: QueueDropped, 2\n",
    ),
    ("", Act::Put(2, &[1], 4), "put\n"),
    ("", Act::Put(2, &[], 5), "put\n"),
    (
        "control: next_of, it is handed out",
        Act::Next(0),
        "ticket 0\n",
    ),
    ("event", Act::Content(0), "event 4\n"),
    ("argument", Act::Argument(0, 0), "1\n"),
    (
        "object",
        Act::Object(1),
        "Object { queue: 0, fate: Alive, content: 92 }\n",
    ),
    ("has_events", Act::HasEvents(0), "true\n"),
    ("finish", Act::Finish(0), "event 4\n"),
    ("finish, it is not in hand", Act::Finish(0), "not in hand\n"),
    ("destroy, the last one", Act::Destroy(2), "Ok(())\n"),
    ("fail", Act::Fail, ""),
    (
        "next_of, the session failed",
        Act::Next(0),
        "dropped: SessionFailed, 5\n",
    ),
    ("", Act::Next(1), "dropped: SessionFailed, 3\n"),
    ("next_unused, after that", Act::Unused, "2 with 93\n"),
];

/// Names a call on standard error before it is made, if it has a name.
fn begin(rt: &impl Eprint, name: &str) {
    if !name.is_empty() {
        let _ = eprintln!(rt; "call: {name}");
    }
}

/// Ends what `begin` began.
fn end(rt: &impl Eprint, name: &str) {
    if !name.is_empty() {
        let _ = eprintln!(rt; "end");
    }
}

/// Makes the call, between its name and `end` on standard error if it has one. Fails if it tells something else.
fn perform_row(
    rt: &(impl Eprint + AllocGlobal),
    queues: &mut Queues<u32>,
    log: &mut String,
    row: &Row,
) -> Result<(), Fail> {
    let (name, act, text) = *row;
    log.clear();
    begin(rt, name);
    let performed = perform(rt.alloc(), queues, log, act);
    end(rt, name);
    performed?;
    is_text(rt, name, log.as_str(), text)
}

/// Makes the calls.
fn perform_all(
    rt: &(impl Eprint + AllocGlobal),
    queues: &mut Queues<u32>,
    log: &mut String,
) -> Result<(), Fail> {
    for row in &ROWS {
        perform_row(rt, queues, log, row)?;
    }
    Ok(())
}

#[test]
fn takes_no_memory(rt: HostRuntime) -> Result<(), Fail> {
    let mut log = String::with_capacity(rt.alloc(), 200)?;
    let mut queues = Queues::new(rt.alloc())?;
    let answer = perform_all(&rt, &mut queues, &mut log);
    drop(queues);
    answer
}
