//! Calls that take no memory. `./refusal-drill` counts what is allocated for each: nothing, but for those whose names begin with
//! `control`.

use super::written::is_parsed;
use super::{OBJECT, STR, queue};
use std::collections::VecDeque;
use std::test::Fail;
use test_kit::log::holds;
use test_kit::message::{Arg, message};
use test_kit::quad::{MAKE, PAIR, QUAD, quad_table};
use wl_wire::{
    ArgumentType, Message, Protocol, Token, check_for_signature, parse_message, write_to_buffers,
};

/// A message of sender 7 and opcode 2: its arguments, their signature, its bytes and its tokens; and how the calls that write
/// and read it are named.
struct Row {
    writing: &'static str,
    reading: &'static str,
    args: &'static [Arg],
    signature: &'static [ArgumentType],
    bytes: &'static [u8],
    tokens: &'static [Token],
}

/// The messages.
static ROWS: [Row; 5] = [
    Row {
        writing: "write_to_buffers of no argument",
        reading: "parse_message of no argument",
        args: &[],
        signature: &[],
        bytes: &[7, 0, 0, 0, 2, 0, 8, 0],
        tokens: &[],
    },
    Row {
        writing: "write_to_buffers of four numbers",
        reading: "parse_message of four numbers",
        args: &[Arg::Int(-1), Arg::Uint(2), Arg::Fixed(256), Arg::NewId(9)],
        signature: &[
            ArgumentType::Int,
            ArgumentType::Uint,
            ArgumentType::Fixed,
            ArgumentType::NewId,
        ],
        bytes: &[
            7, 0, 0, 0, 2, 0, 24, 0, 255, 255, 255, 255, 2, 0, 0, 0, 0, 1, 0, 0, 9, 0, 0, 0,
        ],
        tokens: &[],
    },
    // The token needs room in a list that has none.
    Row {
        writing: "control: write_to_buffers of a descriptor",
        reading: "parse_message of an object and a descriptor",
        args: &[Arg::Object(3), Arg::Fd(4)],
        signature: &[OBJECT, ArgumentType::Fd],
        bytes: &[7, 0, 0, 0, 2, 0, 12, 0, 3, 0, 0, 0],
        tokens: &[Token(4)],
    },
    Row {
        writing: "write_to_buffers of a string and an array",
        reading: "control: parse_message of a string and an array",
        args: &[Arg::Str(b"hi"), Arg::Array(&[9])],
        signature: &[STR, ArgumentType::Array],
        bytes: &[
            7, 0, 0, 0, 2, 0, 24, 0, 3, 0, 0, 0, b'h', b'i', 0, 0, 1, 0, 0, 0, 9, 0, 0, 0,
        ],
        tokens: &[],
    },
    Row {
        writing: "write_to_buffers of five numbers",
        reading: "control: parse_message of five numbers",
        args: &[
            Arg::Uint(1),
            Arg::Uint(2),
            Arg::Uint(3),
            Arg::Uint(4),
            Arg::Uint(5),
        ],
        signature: &[ArgumentType::Uint; 5],
        bytes: &[
            7, 0, 0, 0, 2, 0, 28, 0, 1, 0, 0, 0, 2, 0, 0, 0, 3, 0, 0, 0, 4, 0, 0, 0, 5, 0, 0, 0,
        ],
        tokens: &[],
    },
];

/// Names a call on standard error before it is made.
fn begin(rt: &impl Eprint, name: &str) {
    let _ = eprintln!(rt; "call: {name}");
}

/// Ends what `begin` began.
fn end(rt: &impl Eprint) {
    let _ = eprintln!(rt; "end");
}

/// Writes the message, reads it, and compares its arguments with the signature, each between `begin` and `end`. Fails if one
/// answers something else than it has to.
fn of_message(
    rt: &(impl Eprint + AllocGlobal),
    row: &Row,
    message: &Message<u32, Token>,
    waiting: &mut VecDeque<Token>,
) -> Result<(), Fail> {
    let mut buffer = [0; 32];
    let mut tokens = Vec::new(rt.alloc());
    begin(rt, row.writing);
    let size = write_to_buffers(message, &mut buffer, &mut tokens);
    end(rt);
    begin(rt, row.reading);
    let parsed = parse_message(rt.alloc(), row.bytes, row.signature, waiting);
    end(rt);
    begin(rt, "check_for_signature");
    let fits = check_for_signature(row.signature, message.args.as_slice());
    end(rt);
    let is_written = size == Ok(row.bytes.len()) && buffer.starts_with(row.bytes);
    let are_right = is_written && is_parsed(&parsed, message) && fits;
    holds(rt, row.reading, are_right)
}

/// The same with tokens of the message that wait.
fn of_waiting(
    rt: &(impl Eprint + AllocGlobal),
    row: &Row,
    message: &Message<u32, Token>,
) -> Result<(), Fail> {
    let mut waiting = queue(rt.alloc(), row.tokens)?;
    of_message(rt, row, message, &mut waiting)
}

/// The same of the message of the row.
fn of_row(rt: &(impl Eprint + AllocGlobal), row: &Row) -> Result<(), Fail> {
    let message = message(rt.alloc(), (7, 2), row.args)?;
    of_waiting(rt, row, &message)
}

/// Whether interfaces and messages are found, and what is not there is not.
fn are_looked_up(table: &Protocol) -> bool {
    table.find("pair") == Some(PAIR)
        && table.find("pai").is_none()
        && table.find_bytes(b"quad") == Some(QUAD)
        && table.get(QUAD).is_some()
        && table.request(QUAD, MAKE).is_some()
        && table.request(QUAD, 5).is_none()
        && table.event(QUAD, 2).is_some()
        && table.event(QUAD, 3).is_none()
}

/// Looks interfaces and messages up in a table.
fn of_table(rt: &(impl Eprint + AllocGlobal)) -> Result<(), Fail> {
    let table = quad_table(rt.alloc())?;
    begin(rt, "look-ups");
    let are_found = are_looked_up(&table);
    end(rt);
    holds(rt, "look-ups", are_found)
}

#[test]
fn takes_no_memory(rt: HostRuntime) -> Result<(), Fail> {
    for row in &ROWS {
        of_row(&rt, row)?;
    }
    of_table(&rt)
}
