//! A reader or a writer that fails in the middle of a run.

use crate::tests::lines::{Call, end_of};
use crate::tests::streams::{Fault, Sink, Source};
use std::alloc::Global;
use std::io::BufReader;
use std::process::Abort;
use std::test::Fail;
use test_kit::log::row_tells;
use wl_bench::commands::run_commands;
use wl_bench::stop::Stop;

/// A run in which something fails.
struct Row {
    name: &'static str,
    call: Call,
    input: &'static [u8],
    fault: Fault,
    /// What was written, and after it in brackets how the run ended, with how many bytes of the input unread; and how many bytes
    /// were flushed. What was read of an input that breaks is not told.
    told: &'static str,
}

/// The runs.
static ROWS: [Row; 13] = [
    // If the input fails, the lines before it were answered; one that is cut is not carried out.
    Row {
        name: "run: the input breaks",
        call: Call::Run,
        input: b"client\nclient\nflu",
        fault: Fault::Input,
        told: "client 0 1\nclient 1 2\n[Err(Failed)] 22 flushed",
    },
    // If a write fails, the answers before it were flushed, and no later line is read.
    Row {
        name: "run: a write fails",
        call: Call::Run,
        input: b"client\nclient\nflush\n",
        fault: Fault::Write(1),
        told: "client 0 1\n[Err(Failed), 6 unread] 11 flushed",
    },
    // So it is if a flush fails: that answer was written, and not flushed.
    Row {
        name: "run: a flush fails",
        call: Call::Run,
        input: b"client\nclient\nflush\n",
        fault: Fault::Flush(1),
        told: "client 0 1\nclient 1 2\n[Err(Failed), 6 unread] 11 flushed",
    },
    // The verdict of a replay is flushed.
    Row {
        name: "replay: the same",
        call: Call::Replay,
        input: b"1 client\n> client 0 1\n",
        fault: Fault::None,
        told: "same 1\n[Ok(Same(1)), 0 unread] 7 flushed",
    },
    Row {
        name: "replay: it differs",
        call: Call::Replay,
        input: b"1 client\n> client 1 1\n",
        fault: Fault::None,
        told: "differs at line 2\n[Ok(Differs(2)), 0 unread] 18 flushed",
    },
    Row {
        name: "replay: there is no verdict",
        call: Call::Replay,
        input: b"1 nothing\n",
        fault: Fault::None,
        told: "[Err(BadLine(1)), 0 unread] 0 flushed",
    },
    Row {
        name: "replay: the flush fails",
        call: Call::Replay,
        input: b"1 client\n> client 0 1\n",
        fault: Fault::Flush(0),
        told: "same 1\n[Err(Failed), 0 unread] 0 flushed",
    },
    Row {
        name: "replay: the write fails",
        call: Call::Replay,
        input: b"1 client\n> client 0 1\n",
        fault: Fault::Write(0),
        told: "[Err(Failed), 0 unread] 0 flushed",
    },
    // The relay does the same, also within its table.
    Row {
        name: "relay: the input breaks",
        call: Call::Relay,
        input: b"relay\nclient 01 -\nclient 0",
        fault: Fault::Input,
        told: "ok\n[(Err(Failed), 3)] 3 flushed",
    },
    Row {
        name: "relay: the input breaks in the table",
        call: Call::Relay,
        input: b"interface a 1\n",
        fault: Fault::Input,
        told: "[(Err(Failed), 3)] 0 flushed",
    },
    // Each answer is flushed.
    Row {
        name: "relay: nothing fails",
        call: Call::Relay,
        input: b"relay\nclient 01 -\nserver 01 -\n",
        fault: Fault::Flush(2),
        told: "ok\nok\n[(Ok(()), 0), 0 unread] 6 flushed",
    },
    Row {
        name: "relay: a write fails",
        call: Call::Relay,
        input: b"relay\nclient 01 -\nserver 01 -\nclient 00 -\n",
        fault: Fault::Write(1),
        told: "ok\n[(Err(Failed), 3), 12 unread] 3 flushed",
    },
    Row {
        name: "relay: a flush fails",
        call: Call::Relay,
        input: b"relay\nclient 01 -\nserver 01 -\nclient 00 -\n",
        fault: Fault::Flush(1),
        told: "ok\nok\n[(Err(Failed), 3), 12 unread] 3 flushed",
    },
];

/// Makes the call of the row with this output. Tells how it ended, and how many bytes of an input that does not break are unread.
fn end_over(alloc: Global, row: &Row, output: &mut Sink) -> Result<String, Fail> {
    let mut input = row.input;
    if matches!(row.fault, Fault::Input) {
        let source = Source {
            bytes: input,
            breaks: true,
        };
        let mut reader = BufReader::new(alloc, source)?;
        return end_of(alloc, &row.call, &mut reader, output);
    }
    let mut end = end_of(alloc, &row.call, &mut input, output)?;
    let unread = input.len();
    write!(end, ", {unread} unread")?;
    Ok(end)
}

/// What comes of the run.
fn told(alloc: Global, row: &Row) -> Result<String, Fail> {
    let mut output = Sink::output(alloc, &row.fault);
    let end = end_over(alloc, row, &mut output)?;
    let Sink { taken, flushed, .. } = output;
    let mut text = String::from_utf8(taken)?;
    let end = end.as_str();
    write!(text, "[{end}] {flushed} flushed")?;
    Ok(text)
}

/// Each run comes to what it has to.
#[test]
fn rows(rt: HostRuntime) -> Result<(), Fail> {
    for row in &ROWS {
        row_tells(&rt, row.name, told(rt.alloc(), row), row.told)?;
    }
    Ok(())
}

/// An output without room for an answer ends the run.
#[test]
fn output_without_room(rt: HostRuntime) {
    let mut room = [0; 5];
    let mut output = room.as_mut_slice();
    let mut input = b"client\n".as_slice();
    let end = run_commands(rt.alloc(), &mut input, &mut output);
    assert_eq!(rt; end, Err(Stop::Failed));
}
