//! Calls that read lines, and what they print.

use std::alloc::Global;
use std::fmt::Debug;
use std::io::{BufRead, Write};
use std::test::Fail;
use test_kit::log::row_tells;
use wl_bench::commands::{record, run_commands};
use wl_replay::replay;

/// A call that reads lines, and prints what comes of them.
pub enum Call {
    /// `wl_bench::commands::run_commands`.
    Run,
    /// `wl_bench::commands::record`.
    Record,
    /// `wl_replay::replay`.
    Replay,
    /// `wl_relay::run`, with the exit status of its end.
    Relay,
}

/// The value as text.
fn text<T: Debug>(alloc: Global, value: &T) -> Result<String, Fail> {
    Ok(format!(in alloc; "{value:?}")?)
}

/// Makes the call, and tells how it ended.
pub fn end_of<R: BufRead, W: Write>(
    alloc: Global,
    call: &Call,
    reader: &mut R,
    writer: &mut W,
) -> Result<String, Fail> {
    match call {
        Call::Run => text(alloc, &run_commands(alloc, reader, writer)),
        Call::Record => text(alloc, &record(alloc, reader, writer)),
        Call::Replay => text(alloc, &replay(alloc, reader, writer)),
        Call::Relay => {
            let end = wl_relay::run(alloc, reader, writer);
            text(alloc, &(end, wl_relay::status(end)))
        }
    }
}

/// What was printed, and after it in brackets how the call ended, unless all is well.
fn told(output: Vec<u8>, end: &str) -> Result<String, Fail> {
    let mut text = String::from_utf8(output)?;
    if end != "Ok(())" {
        write!(text, "[{end}]")?;
    }
    Ok(text)
}

/// What the call prints of these lines, and how it ends.
pub fn printed(alloc: Global, call: &Call, lines: &[u8]) -> Result<String, Fail> {
    let mut reader = lines;
    let mut output = Vec::new(alloc);
    let end = end_of(alloc, call, &mut reader, &mut output)?;
    told(output, end.as_str())
}

/// A row of a table of inputs: what a failing one is named, its lines, and what is printed of them.
pub struct Row {
    pub name: &'static str,
    pub lines: &'static [u8],
    pub printed: &'static str,
}

/// Fails if something else is printed of an input than its row says.
pub fn rows_print(rt: &(impl Eprint + AllocGlobal), call: &Call, rows: &[Row]) -> Result<(), Fail> {
    for row in rows {
        let output = printed(rt.alloc(), call, row.lines);
        row_tells(rt, row.name, output, row.printed)?;
    }
    Ok(())
}

/// Inputs that come to the same: what a failing one is named, and the lines of each.
pub struct Group {
    pub name: &'static str,
    pub inputs: &'static [&'static [u8]],
}

/// Fails if something else than this text is printed of an input of the group, after the lines of the front.
pub fn group_prints(
    rt: &(impl Eprint + AllocGlobal),
    call: &Call,
    front: &[u8],
    group: &Group,
    text: &str,
) -> Result<(), Fail> {
    for lines in group.inputs {
        let mut input = Vec::from_slice(rt.alloc(), front)?;
        input.extend_from_slice(lines)?;
        let output = printed(rt.alloc(), call, input.as_slice());
        row_tells(rt, group.name, output, text)?;
    }
    Ok(())
}
