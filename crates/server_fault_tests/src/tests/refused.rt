//! What a call or a run is given for which memory is refused is dropped, once: each value counts its drops.

use server_test_kit::counted::{Line, Offered};
use server_test_kit::values::{FIRST, Thing};
use std::alloc::Global;
use std::cell::Cell;
use std::process::Abort;
use std::test::Fail;
use test_kit::counted::Counted;
use test_kit::quad::{QUAD, quad_table};
use wl_link::Memory;
use wl_server::{Backend, Step};
use wl_wire::IoFault;

/// A server all of whose values count their drops.
type Server<'a> = Backend<Line<'a>, Counted<'a>, Offered<'a>, Counted<'a>>;

/// Makes the call of that number: inserts a client, creates an object of it, or creates a global. The weights of what was given,
/// if that is refused, and else 0.
fn refused_by<'a>(drops: &'a Cell<u64>, server: &mut Server<'a>, call: u32) -> u64 {
    let (is_made, weights) = match call {
        0 => {
            let line = Line::new(&[], Counted::new(drops, 1));
            let answer = server.insert_client(line, Counted::new(drops, 10));
            (answer.is_ok(), 11)
        }
        1 => {
            let data = Counted::new(drops, 100);
            let answer = server.create_object(&FIRST.id(), QUAD, 3, data);
            (answer.is_ok(), 100)
        }
        _ => {
            let handler = Offered(Counted::new(drops, 1000));
            (server.create_global(QUAD, 3, handler).is_ok(), 1000)
        }
    };
    if is_made { 0 } else { weights }
}

/// Makes the three calls. What a refused one was given has been dropped when it returns, and what the others were given is the
/// server's.
fn make<'a>(rt: &impl Abort, drops: &'a Cell<u64>, server: &mut Server<'a>) {
    let mut sum = 0u64;
    for call in 0..3 {
        sum = sum.wrapping_add(refused_by(drops, server, call));
        assert_eq!(rt; drops.get(), sum);
    }
}

/// Makes the calls of a new server, whose session ends after them.
fn made<'a>(rt: &(impl Abort + AllocGlobal), drops: &'a Cell<u64>) -> Result<(), Fail> {
    let table = quad_table(rt.alloc())?;
    let mut server: Server<'a> = Backend::new(rt.alloc(), table);
    make(rt, drops, &mut server);
    drop(server);
    Ok(())
}

/// Whatever is refused memory, each value has been dropped once when the session has ended.
#[test]
fn drill_of_refused_values(rt: HostRuntime) -> Result<(), Fail> {
    let drops = Cell::new(0);
    made(&rt, &drops)?;
    assert_eq!(rt; drops.get(), 1111);
    Ok(())
}

/// A server over transports by script, whose values but for the transports count their drops.
type Scripted<'a> = Backend<Memory, Counted<'a>, Offered<'a>, Counted<'a>>;

/// A step of it.
type Made<'a> = Step<Memory, Counted<'a>, Offered<'a>, Counted<'a>>;

/// The step of that place in a run that stops at the sixth, for which the transport has no memory.
fn step<'a>(alloc: Global, drops: &'a Cell<u64>, place: u32) -> Made<'a> {
    match place {
        0 => Step::InsertClient(Memory::new(alloc), Counted::new(drops, 1)),
        1 => Step::CreateObject(FIRST.id(), QUAD, 3, Counted::new(drops, 10)),
        2 => Step::CreateGlobal(QUAD, 3, Offered(Counted::new(drops, 100))),
        3 => Step::InsertClient(Memory::new(alloc), Counted::new(drops, 1000)),
        4 => Step::ArriveFault(FIRST.id(), IoFault::OutOfMemory),
        5 => Step::NextAction(FIRST.id()),
        6 => {
            let made = Thing(FIRST, 0xFF00_0000, 1, QUAD);
            Step::SetObjectData(made.id(), Counted::new(drops, 10_000))
        }
        7 => Step::CreateGlobal(QUAD, 3, Offered(Counted::new(drops, 100_000))),
        8 => Step::InsertClient(Memory::new(alloc), Counted::new(drops, 1_000_000)),
        9 => Step::FinishRequest(FIRST.id(), Some(Counted::new(drops, 10_000_000))),
        _ => Step::FinishBind(FIRST.id(), Counted::new(drops, 100_000_000)),
    }
}

/// The first steps, so many of them.
fn steps<'a>(alloc: Global, drops: &'a Cell<u64>, count: u32) -> Result<Vec<Made<'a>>, Fail> {
    let mut steps = Vec::new(alloc);
    for place in 0..count {
        steps.push(step(alloc, drops, place))?;
    }
    Ok(steps)
}

/// What a run came to.
#[derive(Clone, Copy)]
struct Came {
    /// How many steps were made.
    made: usize,
    /// What was dropped when it answered.
    by_call: u64,
    /// What was dropped when that answer was let go of.
    in_all: u64,
}

/// Makes the first steps, so many of them.
fn replayed<'a>(
    alloc: Global,
    drops: &'a Cell<u64>,
    server: &mut Scripted<'a>,
    count: u32,
) -> Result<Came, Fail> {
    let steps = steps(alloc, drops, count)?;
    let answer = server.replay(steps);
    let made = match &answer {
        Ok(replies) => replies.len(),
        Err(stopped) => stopped.step,
    };
    let by_call = drops.get();
    drop(answer);
    let in_all = drops.get();
    Ok(Came {
        made,
        by_call,
        in_all,
    })
}

/// The same by a new server, whose session ends after them.
fn replayed_anew<'a>(alloc: Global, drops: &'a Cell<u64>, count: u32) -> Result<Came, Fail> {
    let table = quad_table(alloc)?;
    let mut server: Scripted<'a> = Backend::new(alloc, table);
    let answer = replayed(alloc, drops, &mut server, count);
    drop(server);
    answer
}

/// A run that stops drops what its other steps have.
#[test]
fn stopped_run_drops_its_other_steps(rt: HostRuntime) -> Result<(), Fail> {
    let drops = Cell::new(0);
    let came = replayed_anew(rt.alloc(), &drops, 11)?;
    let is_right = came.made == 5 && came.by_call == 111_110_000 && came.in_all == 111_110_000;
    let is_all = drops.get() == 111_111_111;
    assert!(rt; is_right && is_all, "{} steps were made", came.made);
    Ok(())
}

/// The weights of the values of those of the first four steps that are not among so many.
fn behind(made: usize) -> u64 {
    match made {
        0 => 1111,
        1 => 1110,
        2 => 1100,
        3 => 1000,
        _ => 0,
    }
}

/// Wherever a run stops, what the steps have that were not made has been dropped then, and each value once when the session has
/// ended.
#[test]
fn drill_of_values_of_a_stopped_run(rt: HostRuntime) -> Result<(), Fail> {
    let drops = Cell::new(0);
    let came = replayed_anew(rt.alloc(), &drops, 4)?;
    let is_right = came.in_all == behind(came.made) && drops.get() == 1111;
    assert!(rt; is_right, "{} steps were made", came.made);
    Ok(())
}
