//! The worked messages of the protocol, byte by byte, and read again.

use super::{OBJECT, Parsed, STR, queue, tell_parsed};
use std::alloc::Global;
use std::collections::VecDeque;
use std::test::Fail;
use test_kit::log::row_tells;
use test_kit::message::{Arg, message, tell_bytes};
use wl_wire::{
    ArgumentType, Message, MessageWriteError, Token, message_size, parse_message, write_to_buffers,
};

/// The bytes and the tokens of the message, in a buffer of so many bytes that was filled with others.
fn written(
    alloc: Global,
    message: &Message<u32, Token>,
    room: usize,
) -> Result<(Vec<u8>, Vec<Token>), Fail> {
    let mut buffer = Vec::from_elem(alloc, 0xa5, room)?;
    let mut tokens = Vec::new(alloc);
    let size = write_to_buffers(message, &mut buffer, &mut tokens)?;
    buffer.truncate(size);
    Ok((buffer, tokens))
}

/// Tells how many bytes the message takes.
pub fn tell_size(log: &mut String, message: &Message<u32, Token>) -> Result<(), Fail> {
    let written = match message_size(message) {
        Some(size) => writeln!(log, "size {size}"),
        None => writeln!(log, "no size"),
    };
    Ok(written?)
}

/// Tells the bytes and the tokens of the message.
fn tell_written(log: &mut String, message: &Message<u32, Token>, room: usize) -> Result<(), Fail> {
    tell_size(log, message)?;
    let (bytes, tokens) = written(*log.allocator(), message, room)?;
    tell_bytes(log, &bytes, &tokens)
}

/// Whether that message was read.
pub fn is_parsed(parsed: &Parsed<'_>, message: &Message<u32, Token>) -> bool {
    match parsed {
        Ok((again, _)) => *again == *message,
        Err(_) => false,
    }
}

/// Tells what was read, and whether it is that message.
fn tell_compared(
    log: &mut String,
    parsed: &Parsed<'_>,
    message: &Message<u32, Token>,
) -> Result<(), Fail> {
    tell_parsed(log, parsed)?;
    let told = if is_parsed(parsed, message) {
        "the same"
    } else {
        "another"
    };
    Ok(write!(log, "; {told}")?)
}

/// Reads, and tells what was read and whether it is that message.
fn tell_same(
    log: &mut String,
    bytes: &[u8],
    waiting: &mut VecDeque<Token>,
    signature: &[ArgumentType],
    message: &Message<u32, Token>,
) -> Result<(), Fail> {
    let parsed = parse_message(*log.allocator(), bytes, signature, waiting);
    tell_compared(log, &parsed, message)
}

/// Tells the message that the bytes and tokens are, whether it is that one, and what is left.
fn tell_read(
    log: &mut String,
    (bytes, tokens): (&[u8], &[Token]),
    signature: &[ArgumentType],
    message: &Message<u32, Token>,
) -> Result<(), Fail> {
    let mut waiting = queue(*log.allocator(), tokens)?;
    tell_same(log, bytes, &mut waiting, signature, message)?;
    Ok(write!(log, "; {} tokens left", waiting.len())?)
}

/// Writes the message and tells how it is read.
fn tell_again(
    log: &mut String,
    message: &Message<u32, Token>,
    room: usize,
    signature: &[ArgumentType],
) -> Result<(), Fail> {
    tell_size(log, message)?;
    let (bytes, tokens) = written(*log.allocator(), message, room)?;
    tell_read(log, (&bytes, &tokens), signature, message)
}

/// The size, the bytes and the tokens of a message.
fn written_log(
    alloc: Global,
    header: (u32, u16),
    args: &[Arg],
    room: usize,
) -> Result<String, Fail> {
    let mut log = String::new(alloc);
    let message = message(alloc, header, args)?;
    tell_written(&mut log, &message, room)?;
    Ok(log)
}

/// The size of a message, and how it is read after it was written.
fn again_log(
    alloc: Global,
    header: (u32, u16),
    args: &[Arg],
    room: usize,
    signature: &[ArgumentType],
) -> Result<String, Fail> {
    let mut log = String::new(alloc);
    let message = message(alloc, header, args)?;
    tell_again(&mut log, &message, room, signature)?;
    Ok(log)
}

/// A row of the table: what a failing one is named, a message, how many bytes its buffer has, and what is told.
struct Row {
    name: &'static str,
    header: (u32, u16),
    args: &'static [Arg],
    room: usize,
    told: &'static str,
}

/// Messages, and their bytes.
static ROWS: [Row; 4] = [
    Row {
        name: "first sync bytes",
        header: (1, 0),
        args: &[Arg::NewId(2)],
        room: 12,
        told: "size 12\n01 00 00 00 00 00 0c 00 02 00 00 00",
    },
    Row {
        name: "two objects bytes",
        header: (3, 3),
        args: &[Arg::Object(0), Arg::Object(3)],
        room: 100,
        told: "size 16\n03 00 00 00 03 00 10 00 00 00 00 00 03 00 00 00",
    },
    Row {
        name: "shell bind bytes",
        header: (2, 0),
        args: &[Arg::Uint(18), Arg::Str(b"wl_shell"), Arg::Uint(1)],
        room: 40,
        told: "size 32\n02 00 00 00 00 00 20 00 12 00 00 00 09 00 00 00 77 6c 5f 73 68 65 6c 6c 00 00 00 00 01 00 00 00",
    },
    Row {
        name: "tokens go beside the bytes",
        header: (42, 1),
        args: &[Arg::Fd(1), Arg::Fd(0)],
        room: 8,
        told: "size 8\n2a 00 00 00 01 00 08 00, fd 1, fd 0",
    },
];

/// Each message has the bytes that it has to.
#[test]
fn rows(rt: HostRuntime) -> Result<(), Fail> {
    for row in &ROWS {
        let log = written_log(rt.alloc(), row.header, row.args, row.room);
        row_tells(&rt, row.name, log, row.told)?;
    }
    Ok(())
}

/// The same of a message that is read again, under this signature.
struct Again {
    name: &'static str,
    header: (u32, u16),
    args: &'static [Arg],
    room: usize,
    signature: &'static [ArgumentType],
    told: &'static str,
}

/// Messages that are written, and read again.
static AGAIN: [Again; 3] = [
    Again {
        name: "train message and back",
        header: (42, 7),
        args: &[
            Arg::Uint(3),
            Arg::Fixed(-89),
            Arg::Str(b"I like trains!"),
            Arg::Array(&[1, 2, 3, 4, 5, 6, 7, 8, 9]),
            Arg::Object(88),
            Arg::NewId(56),
            Arg::Int(-25),
        ],
        room: 64,
        signature: &[
            ArgumentType::Uint,
            ArgumentType::Fixed,
            STR,
            ArgumentType::Array,
            OBJECT,
            ArgumentType::NewId,
            ArgumentType::Int,
        ],
        told: "size 64\n42, 7: uint 3: fixed -89: string I like trains!: array 01 02 03 04 05 06 07 08 09: object 88: new_id 56: int -25; 0 bytes; the same; 0 tokens left",
    },
    Again {
        name: "tokens are read beside the bytes",
        header: (42, 1),
        args: &[Arg::Fd(1), Arg::Fd(0)],
        room: 8,
        signature: &[ArgumentType::Fd, ArgumentType::Fd],
        told: "size 8\n42, 1: fd 1: fd 0; 0 bytes; the same; 0 tokens left",
    },
    Again {
        name: "array and back",
        header: (42, 3),
        args: &[Arg::Array(&[1, 2, 3])],
        room: 16,
        signature: &[ArgumentType::Array],
        told: "size 16\n42, 3: array 01 02 03; 0 bytes; the same; 0 tokens left",
    },
];

/// Each message is read as it was written.
#[test]
fn rows_that_are_read_again(rt: HostRuntime) -> Result<(), Fail> {
    for row in &AGAIN {
        let log = again_log(rt.alloc(), row.header, row.args, row.room, row.signature);
        row_tells(&rt, row.name, log, row.told)?;
    }
    Ok(())
}

/// What the writer answers for a buffer of so many bytes.
fn write_answer(
    alloc: Global,
    message: &Message<u32, Token>,
    room: usize,
) -> Result<Result<usize, MessageWriteError>, Fail> {
    let mut buffer = Vec::from_elem(alloc, 9, room)?;
    let mut tokens = Vec::new(alloc);
    Ok(write_to_buffers(message, &mut buffer, &mut tokens))
}

/// Tells what the writer answers for a buffer of so many bytes.
fn tell_answer(log: &mut String, message: &Message<u32, Token>, room: usize) -> Result<(), Fail> {
    let written = match write_answer(*log.allocator(), message, room)? {
        Ok(size) => writeln!(log, "{room} hold {size}"),
        Err(error) => writeln!(log, "{room}: {error}"),
    };
    Ok(written?)
}

/// Tells the size of the message, and what the writer answers for buffers of so many bytes.
fn tell_answers(
    log: &mut String,
    message: &Message<u32, Token>,
    rooms: &[usize],
) -> Result<(), Fail> {
    tell_size(log, message)?;
    for room in rooms {
        tell_answer(log, message, *room)?;
    }
    Ok(())
}

/// Tells the answers for a message of one array of so many bytes.
fn tell_array(log: &mut String, len: usize, rooms: &[usize]) -> Result<(), Fail> {
    let message = message(*log.allocator(), (1, 1), &[Arg::Ones(len)])?;
    tell_answers(log, &message, rooms)
}

/// What `tell_array` tells.
fn array_log(alloc: Global, len: usize, rooms: &[usize]) -> Result<String, Fail> {
    let mut log = String::new(alloc);
    tell_array(&mut log, len, rooms)?;
    Ok(log)
}

/// A message of an array of so many bytes, and the sizes of the buffers that it is written into.
struct Array {
    name: &'static str,
    len: usize,
    rooms: &'static [usize],
    told: &'static str,
}

/// The longest messages.
static ARRAYS: [Array; 2] = [
    Array {
        name: "longest message",
        len: 65520,
        rooms: &[65531, 65532],
        told: "size 65532\n65531: The provided buffer is too small to hold message content.\n65532 hold 65532\n",
    },
    Array {
        name: "longer message is refused",
        len: 65521,
        rooms: &[65532],
        told: "no size\n65532: The message is longer than 65535 bytes.\n",
    },
];

/// Each is written, or refused, as it has to be.
#[test]
fn rows_of_arrays(rt: HostRuntime) -> Result<(), Fail> {
    for row in &ARRAYS {
        row_tells(
            &rt,
            row.name,
            array_log(rt.alloc(), row.len, row.rooms),
            row.told,
        )?;
    }
    Ok(())
}
