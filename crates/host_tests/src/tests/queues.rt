//! Queues of events, and who reads: each call, and the status of each refusal.

use std::alloc::{AllocError, Global};
use std::fmt::Write;
use std::test::Fail;
use test_kit::log::row_tells;
use wl_host::{EventQueues, FlatReaders};

/// A call of queues.
#[derive(Clone, Copy)]
enum Act {
    NewQueue,
    DropQueue(usize),
    /// An object of the queue, with this content.
    Add(usize, u64),
    SetQueue(usize, usize),
    Destroy(usize),
    /// An event for this object, with these objects among its arguments, and this content.
    Put(usize, &'static [usize], u64),
    Next(usize),
    Finish(u64),
    Fail,
    Unused,
    Event(u64),
    Argument(u64, usize),
    Object(usize),
    HasEvents(usize),
}

/// Makes a call about queues or objects, and tells what it answers.
fn perform_other(queues: &mut EventQueues, log: &mut String, act: Act) -> Result<(), AllocError> {
    match act {
        Act::NewQueue => write!(log, "{:?}", queues.new_queue()),
        Act::DropQueue(queue) => write!(log, "{:?}", queues.drop_queue(queue)),
        Act::Add(queue, content) => write!(log, "{:?}", queues.add(queue, content)),
        Act::SetQueue(object, queue) => write!(log, "{:?}", queues.set_queue(object, queue)),
        Act::Destroy(object) => write!(log, "{:?}", queues.destroy(object)),
        Act::Unused => write!(log, "{:?}", queues.next_unused()),
        Act::HasEvents(queue) => write!(log, "{}", queues.has_events(queue)),
        _ => Ok(()),
    }
}

/// Makes the call, and tells what it answers.
fn perform(
    alloc: Global,
    queues: &mut EventQueues,
    log: &mut String,
    act: Act,
) -> Result<(), AllocError> {
    match act {
        Act::Put(sender, arguments, content) => {
            write!(log, "{:?}", queues.put(alloc, sender, arguments, content))
        }
        Act::Next(queue) => write!(log, "{:?}", queues.next_of(queue)),
        Act::Finish(ticket) => write!(log, "{:?}", queues.finish(ticket)),
        Act::Event(ticket) => write!(log, "{:?}", queues.event(ticket)),
        Act::Argument(ticket, place) => write!(log, "{:?}", queues.argument(ticket, place)),
        Act::Object(object) => write!(log, "{:?}", queues.object(object)),
        Act::Fail => {
            queues.fail();
            Ok(())
        }
        _ => perform_other(queues, log, act),
    }
}

/// A call, and what it tells.
type Entry = (Act, &'static str);

static RUN: [Entry; 48] = [
    (Act::NewQueue, "Ok(1)"),
    (Act::DropQueue(0), "Err(NoQueue)"),
    (Act::DropQueue(2), "Err(NoQueue)"),
    (Act::Add(2, 90), "Err(NoQueue)"),
    (Act::Add(0, 91), "Ok(0)"),
    (Act::Add(1, 92), "Ok(1)"),
    (
        Act::Object(1),
        "FlatQueuedObject { queue: 1, content: 92, fate: 1 }",
    ),
    (
        Act::Object(2),
        "FlatQueuedObject { queue: 0, content: 0, fate: 0 }",
    ),
    (Act::SetQueue(2, 2), "Err(InvalidId)"),
    (Act::SetQueue(0, 2), "Err(NoQueue)"),
    (Act::SetQueue(0, 1), "Ok(())"),
    (Act::SetQueue(0, 0), "Ok(())"),
    (Act::Next(2), "Err(NoQueue)"),
    (Act::Next(0), "Err(WouldBlock)"),
    (Act::Put(2, &[], 5), "Err(InvalidId)"),
    (Act::Put(0, &[1, 2], 5), "Err(InvalidId)"),
    (Act::HasEvents(0), "false"),
    (Act::Put(0, &[1, 0], 5), "Ok(())"),
    (Act::Put(1, &[], 6), "Ok(())"),
    (Act::Put(1, &[0], 7), "Ok(())"),
    (Act::Put(0, &[], 8), "Ok(())"),
    (Act::HasEvents(0), "true"),
    (Act::HasEvents(2), "false"),
    (Act::Event(0), "Err(InvalidId)"),
    (
        Act::Next(0),
        "Ok(FlatQueuedEvent { ticket: 0, content: 5, sender: 0, arguments: 2, outcome: 0 })",
    ),
    (
        Act::Event(0),
        "Ok(FlatQueuedEvent { ticket: 0, content: 5, sender: 0, arguments: 2, outcome: 0 })",
    ),
    (Act::Argument(0, 0), "Ok(1)"),
    (Act::Argument(0, 2), "Err(InvalidId)"),
    (Act::Argument(1, 0), "Err(InvalidId)"),
    (Act::Destroy(1), "Ok(())"),
    (Act::Destroy(1), "Err(InvalidId)"),
    (Act::Argument(0, 0), "Err(InvalidId)"),
    (
        Act::Object(1),
        "FlatQueuedObject { queue: 1, content: 92, fate: 2 }",
    ),
    (
        Act::Next(1),
        "Ok(FlatQueuedEvent { ticket: 0, content: 6, sender: 1, arguments: 0, outcome: 3 })",
    ),
    (Act::DropQueue(1), "Ok(())"),
    (Act::DropQueue(1), "Err(NoQueue)"),
    (
        Act::Next(1),
        "Ok(FlatQueuedEvent { ticket: 0, content: 7, sender: 1, arguments: 1, outcome: 2 })",
    ),
    (Act::Next(1), "Err(WouldBlock)"),
    (Act::Unused, "Err(WouldBlock)"),
    (Act::Finish(0), "Ok(5)"),
    (Act::Finish(0), "Err(InvalidId)"),
    (Act::Unused, "Ok(UnusedObject { object: 1, content: 92 })"),
    (Act::Unused, "Err(WouldBlock)"),
    (Act::Fail, ""),
    (
        Act::Next(0),
        "Ok(FlatQueuedEvent { ticket: 0, content: 8, sender: 0, arguments: 0, outcome: 1 })",
    ),
    (Act::Next(0), "Err(WouldBlock)"),
    (Act::Destroy(0), "Ok(())"),
    (Act::Unused, "Ok(UnusedObject { object: 0, content: 91 })"),
];

/// What a call tells.
fn told(alloc: Global, queues: &mut EventQueues, act: Act) -> Result<String, AllocError> {
    let mut log = String::new(alloc);
    perform(alloc, queues, &mut log, act)?;
    Ok(log)
}

/// Makes the calls, and fails if one tells anything else.
fn play(
    rt: &(impl Eprint + AllocGlobal),
    queues: &mut EventQueues,
    entries: &[Entry],
) -> Result<(), Fail> {
    for (act, text) in entries {
        let told = told(rt.alloc(), queues, *act)?;
        row_tells(rt, "queues", Ok(told), text)?;
    }
    Ok(())
}

#[test]
fn each_call(rt: HostRuntime) -> Result<(), Fail> {
    let mut queues = EventQueues::new(rt.alloc())?;
    let answer = play(&rt, &mut queues, &RUN);
    drop(queues);
    answer
}

/// What the calls answer, one after another, and what they leave.
fn read_told(alloc: Global, from: FlatReaders, has_events: u32) -> Result<String, AllocError> {
    let mut them = from;
    let mut log = String::new(alloc);
    write!(log, "{:?}", them.prepare(has_events))?;
    write!(log, " {:?}", them.begin())?;
    write!(log, " {:?}", them.end())?;
    write!(log, " {:?}", them.cancel())?;
    write!(log, " {:?}", them.ended())?;
    Ok(log)
}

static READ: [(FlatReaders, u32, &str); 5] = [
    (
        FlatReaders {
            prepared: 0,
            ended: 0,
            is_reading: 0,
        },
        0,
        "Ok(()) Ok(FlatTurn { ended: 0, reads: 1 }) Ok(()) Err(NotPrepared) Ok(1)",
    ),
    (
        FlatReaders {
            prepared: 1,
            ended: 7,
            is_reading: 0,
        },
        5,
        "Err(EventsWait) Ok(FlatTurn { ended: 0, reads: 1 }) Ok(()) Err(NotPrepared) Ok(8)",
    ),
    (
        FlatReaders {
            prepared: 1,
            ended: 7,
            is_reading: 0,
        },
        0,
        "Ok(()) Ok(FlatTurn { ended: 7, reads: 0 }) Err(NotReading) Ok(true) Ok(8)",
    ),
    (
        FlatReaders {
            prepared: 1,
            ended: 0xffff_ffff_ffff_fffd,
            is_reading: 9,
        },
        0,
        "Err(SerialsExhausted) Ok(FlatTurn { ended: 18446744073709551613, reads: 0 }) Ok(()) Err(NotPrepared) Ok(18446744073709551614)",
    ),
    (
        FlatReaders {
            prepared: 1,
            ended: 0xffff_ffff_ffff_ffff,
            is_reading: 0,
        },
        0,
        "Err(InvalidInput) Err(InvalidInput) Err(InvalidInput) Err(InvalidInput) Err(InvalidInput)",
    ),
];

#[test]
fn each_call_of_readers(rt: HostRuntime) -> Result<(), Fail> {
    for (from, has_events, text) in &READ {
        let told = read_told(rt.alloc(), *from, *has_events)?;
        row_tells(&rt, "readers", Ok(told), text)?;
    }
    Ok(())
}
