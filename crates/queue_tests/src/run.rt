//! Runs of calls as data, and what they tell: a line for each call.

use std::alloc::{AllocError, Global};
use std::fmt::Write;
use std::test::Fail;
use wl_queues::{Event, Next, PutRefused, Queues, UnusedObject};

/// A call. Objects are named by their slots.
#[derive(Clone, Copy)]
pub enum Act {
    NewQueue,
    DropQueue(usize),
    /// Adds an object of the queue, with this number as its content.
    Add(usize, u64),
    /// Gives the object another queue.
    SetQueue(usize, usize),
    Destroy(usize),
    /// Puts an event of this sender, with these objects as arguments and this number as its content.
    Put(usize, &'static [usize], u32),
    Next(usize),
    Finish(u64),
    Fail,
    Unused,
    /// The object that is the argument at this place of the event in hand.
    Argument(u64, usize),
    /// The number in the event in hand.
    Content(u64),
    HasEvents(usize),
    /// The queue of the object's later events, what has become of it, and its content.
    Object(usize),
}

/// A run, and what it tells.
pub struct Row {
    pub name: &'static str,
    pub acts: &'static [Act],
    pub told: &'static str,
}

/// The event with this number.
fn event(
    alloc: Global,
    sender: usize,
    arguments: &[usize],
    content: u32,
) -> Result<Event<u32>, AllocError> {
    Ok(Event {
        sender,
        arguments: Vec::from_slice(alloc, arguments)?,
        content,
    })
}

/// Tells whether the event was put.
fn write_put(log: &mut String, answer: &Result<(), PutRefused<u32>>) -> Result<(), AllocError> {
    match answer {
        Ok(()) => writeln!(log, "put"),
        Err(refused) => writeln!(
            log,
            "not put: {:?}, {}",
            refused.error, refused.event.content
        ),
    }
}

/// Tells what came out of a queue.
fn write_next(log: &mut String, next: &Next<u32>) -> Result<(), AllocError> {
    match next {
        Next::Nothing => writeln!(log, "nothing"),
        Next::Handed(ticket) => writeln!(log, "ticket {ticket}"),
        Next::Dropped(reason, event) => writeln!(log, "dropped: {reason:?}, {}", event.content),
    }
}

/// Tells the number of the event in hand.
fn write_content(log: &mut String, event: Option<&Event<u32>>) -> Result<(), AllocError> {
    match event {
        Some(event) => writeln!(log, "event {}", event.content),
        None => writeln!(log, "not in hand"),
    }
}

/// Tells a number, or that there is none.
fn write_number(log: &mut String, number: Option<usize>) -> Result<(), AllocError> {
    match number {
        Some(number) => writeln!(log, "{number}"),
        None => writeln!(log, "none"),
    }
}

/// Tells an object that is unused with its content, or that there is none.
fn write_unused(log: &mut String, unused: Option<UnusedObject>) -> Result<(), AllocError> {
    match unused {
        Some(unused) => writeln!(log, "{} with {}", unused.object, unused.content),
        None => writeln!(log, "none"),
    }
}

/// Makes the call, which changes no queue and no event, and tells what it answers.
fn perform_quiet(queues: &mut Queues<u32>, log: &mut String, act: Act) -> Result<(), AllocError> {
    match act {
        Act::NewQueue => writeln!(log, "{:?}", queues.new_queue()),
        Act::DropQueue(queue) => writeln!(log, "{:?}", queues.drop_queue(queue)),
        Act::Add(queue, content) => writeln!(log, "{:?}", queues.add(queue, content)),
        Act::SetQueue(object, queue) => writeln!(log, "{:?}", queues.set_queue(object, queue)),
        Act::Destroy(object) => writeln!(log, "{:?}", queues.destroy(object)),
        Act::HasEvents(queue) => writeln!(log, "{}", queues.has_events(queue)),
        Act::Object(object) => writeln!(log, "{:?}", queues.object(object)),
        _ => Ok(()),
    }
}

/// Makes the call, and tells what it answers. But for `Act::Put`, which makes an event, it takes no memory that the call does not
/// take, if the log has room.
pub fn perform(
    alloc: Global,
    queues: &mut Queues<u32>,
    log: &mut String,
    act: Act,
) -> Result<(), AllocError> {
    match act {
        Act::Put(sender, arguments, content) => {
            let event = event(alloc, sender, arguments, content)?;
            write_put(log, &queues.put(event))
        }
        Act::Next(queue) => match queues.next_of(queue) {
            Ok(next) => write_next(log, &next),
            Err(error) => writeln!(log, "{error:?}"),
        },
        Act::Finish(ticket) => write_content(log, queues.finish(ticket).as_ref()),
        Act::Content(ticket) => write_content(log, queues.event(ticket)),
        Act::Argument(ticket, place) => write_number(log, queues.argument(ticket, place)),
        Act::Unused => write_unused(log, queues.next_unused()),
        Act::Fail => {
            queues.fail();
            Ok(())
        }
        _ => perform_quiet(queues, log, act),
    }
}

/// Makes the calls.
fn perform_all(
    alloc: Global,
    queues: &mut Queues<u32>,
    log: &mut String,
    acts: &[Act],
) -> Result<(), AllocError> {
    for act in acts {
        perform(alloc, queues, log, *act)?;
    }
    Ok(())
}

/// What the calls tell of new queues.
fn run(alloc: Global, acts: &[Act]) -> Result<String, AllocError> {
    let mut log = String::new(alloc);
    let mut queues = Queues::new(alloc)?;
    let performed = perform_all(alloc, &mut queues, &mut log, acts);
    drop(queues);
    performed?;
    Ok(log)
}

/// Fails if something else is told than this text.
pub fn is_text(rt: &impl Eprint, name: &str, told: &str, text: &str) -> Result<(), Fail> {
    if told == text {
        return Ok(());
    }
    let _ = eprintln!(rt; "{name} tells:\n{told}\nand not:\n{text}");
    Err(Fail::new("something else is told"))
}

/// Fails if a run tells something else.
pub fn rows_tell(rt: &HostRuntime, rows: &[Row]) -> Result<(), Fail> {
    for row in rows {
        let told = run(rt.alloc(), row.acts)?;
        is_text(rt, row.name, told.as_str(), row.told)?;
    }
    Ok(())
}
