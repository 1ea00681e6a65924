//! Which of several threads reads.

use crate::run::is_text;
use std::alloc::{AllocError, Global};
use std::fmt::Write;
use std::test::Fail;
use wl_queues::Readers;

/// A call of one of the threads.
#[derive(Clone, Copy)]
enum Act {
    /// It prepares, while events wait in its queue or none does.
    Prepare(bool),
    Begin,
    End,
    Cancel,
}

/// The calls, and what they tell.
struct Row {
    name: &'static str,
    acts: &'static [Act],
    told: &'static str,
}

static ROWS: [Row; 7] = [
    Row {
        name: "one thread",
        acts: &[Act::Prepare(false), Act::Begin, Act::End],
        told: "Ok(()), 0\nOk(Read), 0\nOk(()), 1\n",
    },
    Row {
        name: "events wait",
        acts: &[Act::Prepare(true), Act::Begin, Act::Cancel],
        told: "Err(EventsWait), 0\nErr(NotPrepared), 0\nErr(NotPrepared), 0\n",
    },
    // Events in another queue do not matter.
    Row {
        name: "events wait for another thread",
        acts: &[Act::Prepare(false), Act::Prepare(true), Act::Begin],
        told: "Ok(()), 0\nErr(EventsWait), 0\nOk(Read), 0\n",
    },
    Row {
        name: "last of three reads",
        acts: &[
            Act::Prepare(false),
            Act::Prepare(false),
            Act::Prepare(false),
            Act::Begin,
            Act::Begin,
            Act::Begin,
            Act::End,
        ],
        told: "Ok(()), 0\nOk(()), 0\nOk(()), 0\nOk(Wait(0)), 0\nOk(Wait(0)), 0\nOk(Read), 0\nOk(()), 1\n",
    },
    // The first one waits: so it is woken.
    Row {
        name: "last one cancels",
        acts: &[
            Act::Prepare(false),
            Act::Prepare(false),
            Act::Begin,
            Act::Cancel,
        ],
        told: "Ok(()), 0\nOk(()), 0\nOk(Wait(0)), 0\nOk(true), 1\n",
    },
    Row {
        name: "cancels, and another reads",
        acts: &[
            Act::Prepare(false),
            Act::Prepare(false),
            Act::Cancel,
            Act::Begin,
            Act::End,
        ],
        told: "Ok(()), 0\nOk(()), 0\nOk(false), 0\nOk(Read), 0\nOk(()), 1\n",
    },
    // A thread may prepare while another one reads, and waits then.
    Row {
        name: "prepares while another one reads",
        acts: &[
            Act::Prepare(false),
            Act::Begin,
            Act::Prepare(false),
            Act::Begin,
            Act::End,
            Act::End,
        ],
        told: "Ok(()), 0\nOk(Read), 0\nOk(()), 0\nOk(Wait(0)), 0\nOk(()), 1\nErr(NotReading), 1\n",
    },
];

/// Makes the call, and tells its answer and how many turns have ended.
fn perform(readers: &mut Readers, log: &mut String, act: Act) -> Result<(), AllocError> {
    match act {
        Act::Prepare(has_events) => write!(log, "{:?}", readers.prepare(has_events))?,
        Act::Begin => write!(log, "{:?}", readers.begin())?,
        Act::End => write!(log, "{:?}", readers.end())?,
        Act::Cancel => write!(log, "{:?}", readers.cancel())?,
    }
    writeln!(log, ", {}", readers.ended())
}

/// What the calls tell.
fn run(alloc: Global, acts: &[Act]) -> Result<String, AllocError> {
    let mut log = String::new(alloc);
    let mut readers = Readers::new();
    for act in acts {
        perform(&mut readers, &mut log, *act)?;
    }
    Ok(log)
}

#[test]
fn rows(rt: HostRuntime) -> Result<(), Fail> {
    for row in &ROWS {
        let told = run(rt.alloc(), row.acts)?;
        is_text(&rt, row.name, told.as_str(), row.told)?;
    }
    Ok(())
}
