//! What a call or a run is given for which memory is refused is dropped, once: each value counts its drops.

use crate::kit::line::Line;
use crate::kit::values::{Object, Request, message};
use std::alloc::Global;
use std::cell::Cell;
use std::test::Fail;
use test_kit::counted::Counted;
use test_kit::log::holds;
use test_kit::quad::quad_table;
use wl_client::{Backend, Step};
use wl_link::Memory;
use wl_wire::IoFault;

/// A client whose transport and data count their drops.
type Client<'a> = Backend<Line<'a>, Counted<'a>>;

/// Fails if it was not this that was dropped so far.
fn has_dropped(rt: &impl Eprint, drops: &Cell<u64>, sum: u64) -> Result<(), Fail> {
    holds(rt, "these are dropped", drops.get() == sum)
}

/// A new client, whose transport has the weight 1; none if it is refused memory.
fn connected<'a>(alloc: Global, drops: &'a Cell<u64>) -> Result<Option<Client<'a>>, Fail> {
    let table = quad_table(alloc)?;
    let line = Line::new(&[], Counted::new(drops, 1));
    Ok(Backend::connect(alloc, table, line).ok())
}

/// Sends a sync whose callback has data of the weight 10. If that is refused, the data have been dropped when that returns, and
/// else they are the callback's.
fn sent<'a>(
    rt: &(impl Eprint + AllocGlobal),
    drops: &'a Cell<u64>,
    client: &mut Client<'a>,
) -> Result<(), Fail> {
    has_dropped(rt, drops, 0)?;
    let sync = message(rt.alloc(), Request::Sync)?;
    let data = Some(Counted::new(drops, 10));
    let sum = if client.send_request(sync, data, None).is_ok() {
        0
    } else {
        10
    };
    has_dropped(rt, drops, sum)
}

/// Sends by the client, if there is one; what has to be dropped once its session has ended.
fn sent_by<'a>(
    rt: &(impl Eprint + AllocGlobal),
    drops: &'a Cell<u64>,
    client: &mut Option<Client<'a>>,
) -> Result<u64, Fail> {
    match client {
        None => Ok(1),
        Some(client) => sent(rt, drops, client).map(|_| 11),
    }
}

/// Makes a client that sends, and whose session ends after that; what has to be dropped then.
fn made<'a>(rt: &(impl Eprint + AllocGlobal), drops: &'a Cell<u64>) -> Result<u64, Fail> {
    let mut client = connected(rt.alloc(), drops)?;
    let answer = sent_by(rt, drops, &mut client);
    drop(client);
    answer
}

/// Whatever is refused memory, each value has been dropped once when the session has ended.
#[test]
fn drill_of_refused_values(rt: HostRuntime) -> Result<(), Fail> {
    let drops = Cell::new(0);
    let sum = made(&rt, &drops)?;
    has_dropped(&rt, &drops, sum)
}

/// The step that sends a sync, whose callback has data of this weight.
fn sync<'a>(alloc: Global, drops: &'a Cell<u64>, weight: u64) -> Result<Step<Counted<'a>>, Fail> {
    let sync = message(alloc, Request::Sync)?;
    let data = Some(Counted::new(drops, weight));
    Ok(Step::SendRequest(sync, data, None))
}

/// The step of that place in a run that stops at the fifth, for which the transport has no memory.
fn step<'a>(alloc: Global, drops: &'a Cell<u64>, place: u32) -> Result<Step<Counted<'a>>, Fail> {
    match place {
        0 => sync(alloc, drops, 1),
        1 => sync(alloc, drops, 10),
        2 => sync(alloc, drops, 100),
        3 => Ok(Step::ArriveFault(IoFault::OutOfMemory)),
        4 => Ok(Step::NextEvent),
        5 => Ok(Step::SetData(Object::Callback.id(), Counted::new(drops, 1000))),
        6 => sync(alloc, drops, 10_000),
        _ => Ok(Step::FinishEvent(Some(Counted::new(drops, 100_000)))),
    }
}

/// The first steps, so many of them.
fn steps<'a>(
    alloc: Global,
    drops: &'a Cell<u64>,
    count: u32,
) -> Result<Vec<Step<Counted<'a>>>, Fail> {
    let mut steps = Vec::new(alloc);
    for place in 0..count {
        steps.push(step(alloc, drops, place)?)?;
    }
    Ok(steps)
}

/// What a run came to.
#[derive(Clone, Copy)]
struct Came {
    /// How many steps were made.
    made: usize,
    /// What was dropped when it answered.
    by_call: u64,
    /// What was dropped when that answer was let go of.
    in_all: u64,
}

/// Makes the first steps, so many of them.
fn replayed<'a>(
    alloc: Global,
    drops: &'a Cell<u64>,
    client: &mut Backend<Memory, Counted<'a>>,
    count: u32,
) -> Result<Came, Fail> {
    let steps = steps(alloc, drops, count)?;
    let answer = client.replay(steps);
    let made = match &answer {
        Ok(replies) => replies.len(),
        Err(stopped) => stopped.step,
    };
    let by_call = drops.get();
    drop(answer);
    let in_all = drops.get();
    Ok(Came {
        made,
        by_call,
        in_all,
    })
}

/// A client over a transport by script.
fn scripted<'a>(alloc: Global) -> Result<Backend<Memory, Counted<'a>>, Fail> {
    let table = quad_table(alloc)?;
    Ok(Backend::connect(alloc, table, Memory::new(alloc))?)
}

/// The same by a new client, whose session ends after them.
fn replayed_anew<'a>(alloc: Global, drops: &'a Cell<u64>, count: u32) -> Result<Came, Fail> {
    let mut client = scripted(alloc)?;
    let answer = replayed(alloc, drops, &mut client, count);
    drop(client);
    answer
}

/// A run that stops drops what its other steps have.
#[test]
fn stopped_run_drops_its_other_steps(rt: HostRuntime) -> Result<(), Fail> {
    let drops = Cell::new(0);
    let came = replayed_anew(rt.alloc(), &drops, 8)?;
    holds(&rt, "it stops at the fifth", came.made == 4)?;
    holds(&rt, "its answer drops nothing", came.by_call == came.in_all)?;
    holds(&rt, "three are dropped", came.in_all == 111_000)?;
    has_dropped(&rt, &drops, 111_111)
}

/// The weights of the data of those of the first three steps that are not among so many.
fn behind(made: usize) -> u64 {
    match made {
        0 => 111,
        1 => 110,
        2 => 100,
        _ => 0,
    }
}

/// Wherever a run stops, what the steps have that were not made has been dropped then, and each value once when the session has
/// ended.
#[test]
fn drill_of_values_of_a_stopped_run(rt: HostRuntime) -> Result<(), Fail> {
    let drops = Cell::new(0);
    let came = replayed_anew(rt.alloc(), &drops, 3)?;
    holds(&rt, "the rest is dropped", came.in_all == behind(came.made))?;
    has_dropped(&rt, &drops, 111)
}
