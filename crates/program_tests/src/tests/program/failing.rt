//! Readers and writers that fail.

use super::process::{Words, arguments};
use crate::tests::log;
use crate::tests::streams::{Fault, Sink, Source};
use std::alloc::Global;
use std::test::Fail;
use test_kit::log::row_tells;
use wl_bench_program::perform;

/// A run of the program in which something fails.
struct Row {
    name: &'static str,
    args: Words,
    input: &'static [u8],
    fault: Fault,
    /// What was printed, told and answered, and how the run ended; and whether standard error took what was told.
    told: &'static str,
}

/// The runs.
static ROWS: [Row; 10] = [
    // If the input fails, what came before was answered; a line that is cut is not carried out.
    Row {
        name: "run: the input breaks",
        args: &[b"wl-bench", b"run"],
        input: b"client\nclie",
        fault: Fault::Input,
        told: "client 0 1\n[failed\n] 3, Err(Failed), told: true",
    },
    // If the output takes nothing, the program ends as failed.
    Row {
        name: "sync: no write",
        args: &[b"wl-bench", b"sync"],
        input: b"",
        fault: Fault::Write(0),
        told: "[failed\n] 3, Err(Failed), told: true",
    },
    Row {
        name: "run: no write",
        args: &[b"wl-bench", b"run"],
        input: b"client\n",
        fault: Fault::Write(0),
        told: "[failed\n] 3, Err(Failed), told: true",
    },
    Row {
        name: "record: no write",
        args: &[b"wl-bench", b"record"],
        input: b"client\n",
        fault: Fault::Write(0),
        told: "[failed\n] 3, Err(Failed), told: true",
    },
    Row {
        name: "replay: no write",
        args: &[b"wl-bench", b"replay"],
        input: b"1 client\n> client 0 1\n",
        fault: Fault::Write(0),
        told: "[failed\n] 3, Err(Failed), told: true",
    },
    // So it does if the output cannot be flushed.
    Row {
        name: "sync: no flush",
        args: &[b"wl-bench", b"sync"],
        input: b"",
        fault: Fault::Flush(0),
        told: "01 00 00 00 00 00 0c 00 02 00 00 00
02 00 00 00 00 00 0c 00 00 00 00 00 01 00 00 00 01 00 0c 00 02 00 00 00
[failed\n] 3, Err(Failed), told: true",
    },
    Row {
        name: "run: no flush",
        args: &[b"wl-bench", b"run"],
        input: b"client\n",
        fault: Fault::Flush(0),
        told: "client 0 1\n[failed\n] 3, Err(Failed), told: true",
    },
    Row {
        name: "record: no flush",
        args: &[b"wl-bench", b"record"],
        input: b"client\n",
        fault: Fault::Flush(0),
        told: "1 client\n> client 0 1\n[failed\n] 3, Err(Failed), told: true",
    },
    Row {
        name: "replay: no flush",
        args: &[b"wl-bench", b"replay"],
        input: b"1 client\n> client 0 1\n",
        fault: Fault::Flush(0),
        told: "same 1\n[failed\n] 3, Err(Failed), told: true",
    },
    // If standard error takes nothing, that changes nothing else.
    Row {
        name: "run: standard error takes nothing",
        args: &[b"wl-bench", b"run"],
        input: b"client\nquit\n",
        fault: Fault::Errors,
        told: "client 0 1\n[] 2, Err(BadLine(2)), told: false",
    },
];

/// What comes of the run.
fn performed(alloc: Global, row: &Row) -> Result<String, Fail> {
    let input = Source {
        bytes: row.input,
        breaks: matches!(row.fault, Fault::Input),
    };
    let mut printed = Sink::output(alloc, &row.fault);
    let mut told = Sink::errors(alloc, &row.fault);
    let args = arguments(alloc, row.args);
    let ended = perform(alloc, args, input, &mut printed, &mut told);
    let mut text = log(printed.taken, told.taken, ended.status)?;
    let (end, is_told) = (ended.end, ended.told.is_ok());
    write!(text, ", {end:?}, told: {is_told}")?;
    Ok(text)
}

/// Each run comes to what it has to.
#[test]
fn rows(rt: HostRuntime) -> Result<(), Fail> {
    for row in &ROWS {
        row_tells(&rt, row.name, performed(rt.alloc(), row), row.told)?;
    }
    Ok(())
}
