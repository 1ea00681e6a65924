//! What records and replays come to.

use crate::tests::lines::{Call, Group, Row, group_prints, rows_print};
use std::test::Fail;

/// Recordings that are the records of their own commands; the last line feed may be missing. The number of a command is the data
/// of an object, also if others were left out.
static SAME: [Row; 4] = [
    Row {
        name: "same",
        lines: b"1 client\n> client 0 1\n4 read 0\n> fault WouldBlock\n",
        printed: "same 2\n[Ok(Same(2))]",
    },
    Row {
        name: "same without the last line feed",
        lines: b"1 client\n> client 0 1\n4 read 0\n> fault WouldBlock",
        printed: "same 2\n[Ok(Same(2))]",
    },
    Row {
        name: "same of nothing",
        lines: b"",
        printed: "same 0\n[Ok(Same(0))]",
    },
    Row {
        name: "numbers are kept",
        lines: b"3 client
> client 0 1
7 notes
> initialized 0
4294967295 notes
> none
",
        printed: "same 3\n[Ok(Same(3))]",
    },
];

/// Recordings that differ, or have a line that is no command where no output is due.
static OTHERS: [Row; 5] = [
    Row {
        name: "a missing output",
        lines: b"1 client",
        printed: "differs at line 2\n[Ok(Differs(2))]",
    },
    Row {
        name: "an output without a command",
        lines: b"> ok\n",
        printed: "differs at line 1\n[Ok(Differs(1))]",
    },
    Row {
        name: "an output too many",
        lines: b"1 client\n> client 0 1\n> ok\n",
        printed: "differs at line 3\n[Ok(Differs(3))]",
    },
    Row {
        name: "a number that does not rise",
        lines: b"1 client\n> client 0 1\n1 read 0\n",
        printed: "[Err(BadLine(3))]",
    },
    Row {
        name: "an empty line after an output",
        lines: b"1 client\n> client 0 1\n\n",
        printed: "[Err(BadLine(3))]",
    },
];

/// What is no output of the command `client` before it.
static OUTPUTS: Group = Group {
    name: "another output",
    inputs: &[
        // Another slot.
        b"> client 0 2\n4 read 0\n> fault WouldBlock\n",
        // Another command's.
        b"4 read 0\n> fault WouldBlock\n",
        // No text.
        b"> client 0 1\xff\n",
        // A space after it, or none before it.
        b"> client 0 1 \n",
        b">client 0 1\n",
        // An empty line.
        b"\n",
    ],
};

/// First lines that are no command.
static FIRST_LINES: Group = Group {
    name: "a bad first line",
    inputs: &[
        // No number, or another than it may be.
        b"client\n",
        b"0 client\n",
        b"01 client\n",
        b"4294967296 client\n",
        // A space too many.
        b"1  client\n",
        b"1 client \n",
        // A number and nothing else.
        b"1 \n",
        b"1\n",
        // Nothing.
        b"\n",
        // No number, and no output.
        b">client 0 1\n",
        // A slot without a client.
        b"1 read 0\n",
        // No text.
        b"1 global \xff 3\n",
    ],
};

/// Each recording comes to what it has to.
#[test]
fn rows(rt: HostRuntime) -> Result<(), Fail> {
    rows_print(&rt, &Call::Replay, &SAME)?;
    rows_print(&rt, &Call::Replay, &OTHERS)?;
    let text = "differs at line 2\n[Ok(Differs(2))]";
    group_prints(&rt, &Call::Replay, b"1 client\n", &OUTPUTS, text)?;
    let text = "[Err(BadLine(1))]";
    group_prints(&rt, &Call::Replay, b"", &FIRST_LINES, text)
}

/// Lines, and their records.
static RECORDS: [Row; 2] = [
    Row {
        name: "nothing",
        lines: b"",
        printed: "",
    },
    // Empty lines are skipped, and counted; a bad line ends a record, with what came before it written.
    Row {
        name: "a bad line",
        lines: b"\nclient\n\nread 0\nread 1\nflush\n",
        printed: "2 client\n> client 0 1\n4 read 0\n> fault WouldBlock\n[Err(BadLine(5))]",
    },
];

/// Lines have their records.
#[test]
fn records_of_lines(rt: HostRuntime) -> Result<(), Fail> {
    rows_print(&rt, &Call::Record, &RECORDS)
}
