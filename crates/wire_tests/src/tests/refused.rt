//! Bytes that are no message, or not to its end, and what they leave.

use super::{STR, queue, tell_parsed};
use std::alloc::Global;
use std::collections::VecDeque;
use std::test::Fail;
use test_kit::log::row_tells;
use wl_wire::{ArgumentType, Token, parse_message};

/// Tells what is read under the signature.
fn tell_answer(
    log: &mut String,
    raw: &[u8],
    signature: &[ArgumentType],
    waiting: &mut VecDeque<Token>,
) -> Result<(), Fail> {
    let parsed = parse_message(*log.allocator(), raw, signature, waiting);
    tell_parsed(log, &parsed)
}

/// Tells what is read under the signature, and how many of the tokens are left.
fn tell_parse(
    log: &mut String,
    raw: &[u8],
    signature: &[ArgumentType],
    tokens: &[Token],
) -> Result<(), Fail> {
    let mut waiting = queue(*log.allocator(), tokens)?;
    tell_answer(log, raw, signature, &mut waiting)?;
    Ok(write!(log, "; {} tokens left", waiting.len())?)
}

/// What `tell_parse` tells.
fn parse_log(
    alloc: Global,
    raw: &[u8],
    signature: &[ArgumentType],
    tokens: &[Token],
) -> Result<String, Fail> {
    let mut log = String::new(alloc);
    tell_parse(&mut log, raw, signature, tokens)?;
    Ok(log)
}

/// A row of the table: what a failing one is named, the bytes, the signature under which they are read, the tokens that came, and
/// what is told.
struct Row {
    name: &'static str,
    raw: &'static [u8],
    signature: &'static [ArgumentType],
    tokens: &'static [Token],
    told: &'static str,
}

/// Bytes, and what is read of them.
static ROWS: [Row; 9] = [
    Row {
        name: "more bytes than the message has",
        raw: &[1, 0, 0, 0, 0, 0, 12, 0, 2, 0, 0, 0, 7, 8, 9],
        signature: &[ArgumentType::NewId],
        tokens: &[],
        told: "1, 0: new_id 2; 3 bytes; 0 tokens left",
    },
    Row {
        name: "a byte less than it has",
        raw: &[1, 0, 0, 0, 0, 0, 12, 0, 2, 0, 0],
        signature: &[ArgumentType::NewId],
        tokens: &[],
        told: "More data is needed to deserialize the message; 0 tokens left",
    },
    Row {
        name: "a length without its argument",
        raw: &[1, 0, 0, 0, 0, 0, 8, 0],
        signature: &[ArgumentType::NewId],
        tokens: &[],
        told: "The message is malformed and cannot be parsed; 0 tokens left",
    },
    Row {
        name: "a length that is no multiple of 4",
        raw: &[0x2a, 0, 0, 0, 0, 0, 11, 0, 1, 2, 3],
        signature: &[],
        tokens: &[],
        told: "42, 0; 0 bytes; 0 tokens left",
    },
    Row {
        name: "a byte less than such a length",
        raw: &[0x2a, 0, 0, 0, 0, 0, 11, 0, 1, 2],
        signature: &[],
        tokens: &[],
        told: "More data is needed to deserialize the message; 0 tokens left",
    },
    Row {
        name: "a length that is shorter than the header",
        raw: &[0x2a, 0, 0, 0, 0, 0, 7, 0],
        signature: &[],
        tokens: &[],
        told: "The message is malformed and cannot be parsed; 0 tokens left",
    },
    Row {
        name: "an overrunning string leaves its token",
        raw: &[
            0x2a, 0, 0, 0, 0, 0, 16, 0, 100, 0, 0, 0, b'a', b'b', b'c', 0,
        ],
        signature: &[STR, ArgumentType::Fd],
        tokens: &[Token(7)],
        told: "The message is malformed and cannot be parsed; 1 tokens left",
    },
    Row {
        name: "an overrunning string without a token",
        raw: &[
            0x2a, 0, 0, 0, 0, 0, 16, 0, 100, 0, 0, 0, b'a', b'b', b'c', 0,
        ],
        signature: &[STR, ArgumentType::Fd],
        tokens: &[],
        told: "The message references a FD but the buffer FD is empty.; 0 tokens left",
    },
    Row {
        name: "null string is read beside its token",
        raw: &[0x2a, 0, 0, 0, 0, 0, 12, 0, 0, 0, 0, 0],
        signature: &[STR, ArgumentType::Fd],
        tokens: &[Token(7)],
        told: "42, 0: string (null): fd 7; 0 bytes; 0 tokens left",
    },
];

/// Each is read, or refused, as it has to be.
#[test]
fn rows(rt: HostRuntime) -> Result<(), Fail> {
    for row in &ROWS {
        let log = parse_log(rt.alloc(), row.raw, row.signature, row.tokens);
        row_tells(&rt, row.name, log, row.told)?;
    }
    Ok(())
}
