//! The longest message of words alone, and one that is a word longer.
//!
//! The length of a message stands in the upper 16 bits of its second word. If all arguments are words it is a multiple
//! of 4, so it is at most 65532: the header of eight bytes and 16381 words.

use super::written::tell_size;
use smallvec::SmallVec;
use std::alloc::Global;
use std::test::Fail;
use test_kit::log::row_tells;
use test_kit::message::{Arg, push, tell_bytes};
use wl_wire::{Message, Token, write_to_buffers};

/// The message of so many words: 0, 1 and so on.
fn counting(alloc: Global, count: u32) -> Result<Message<u32, Token>, Fail> {
    let mut message = Message {
        sender_id: 3,
        opcode: 5,
        args: SmallVec::new(alloc),
    };
    for word in 0..count {
        push(alloc, &mut message, Arg::Uint(word))?;
    }
    Ok(message)
}

/// Writes the message, and tells the answer.
fn write(
    log: &mut String,
    message: &Message<u32, Token>,
    buffer: &mut [u8],
    tokens: &mut Vec<Token>,
) -> Result<(), Fail> {
    let told = match write_to_buffers(message, buffer, tokens) {
        Ok(size) => writeln!(log, "written {size}"),
        Err(error) => writeln!(log, "{error}"),
    };
    Ok(told?)
}

/// Whether each byte is the one that stood there before anything was written.
fn is_untouched(buffer: &[u8]) -> bool {
    buffer.iter().all(|byte| *byte == 0xa5)
}

/// Tells the first 16 bytes and the last 12, or that all are as they were, and the tokens.
fn tell_buffer(log: &mut String, buffer: &[u8], tokens: &[Token]) -> Result<(), Fail> {
    if is_untouched(buffer) {
        write!(log, "untouched")?;
        return tell_bytes(log, &[], tokens);
    }
    tell_bytes(log, &buffer[..buffer.len().min(16)], &[])?;
    write!(log, " .. ")?;
    tell_bytes(log, &buffer[buffer.len().saturating_sub(12)..], tokens)
}

/// Writes after a token that waits, and tells what comes of it.
fn tell_written(
    log: &mut String,
    message: &Message<u32, Token>,
    buffer: &mut [u8],
) -> Result<(), Fail> {
    let mut tokens = Vec::from_elem(*log.allocator(), Token(9), 1)?;
    write(log, message, buffer, &mut tokens)?;
    tell_buffer(log, buffer, &tokens)
}

/// What comes of it if the buffer has so many bytes.
fn tell_room(log: &mut String, message: &Message<u32, Token>, room: usize) -> Result<(), Fail> {
    let mut buffer = Vec::from_elem(*log.allocator(), 0xa5, room)?;
    tell_written(log, message, &mut buffer)
}

/// The size of the message, and what comes of its writing into so many bytes.
fn tell_words(log: &mut String, message: &Message<u32, Token>, room: usize) -> Result<(), Fail> {
    tell_size(log, message)?;
    tell_room(log, message, room)
}

/// The size of the message of so many words, and what comes of its writing into so many bytes.
fn words_log(alloc: Global, count: u32, room: usize) -> Result<String, Fail> {
    let mut log = String::new(alloc);
    let message = counting(alloc, count)?;
    tell_words(&mut log, &message, room)?;
    Ok(log)
}

/// A row of the table: what a failing one is named, how many words are written into how many bytes, and what is told.
struct Row {
    name: &'static str,
    count: u32,
    room: usize,
    told: &'static str,
}

/// Messages of so many words, written into so many bytes.
static ROWS: [Row; 3] = [
    // The first words are 0 and 1, the last are 16379 and 16380, and four bytes after them are not the message's.
    Row {
        name: "longest message of words is written",
        count: 16381,
        room: 65536,
        told: "size 65532\nwritten 65532\n03 00 00 00 05 00 fc ff 00 00 00 00 01 00 00 00 .. fb 3f 00 00 fc 3f 00 00 a5 a5 a5 a5, fd 9",
    },
    Row {
        name: "longest message of words wants all its bytes",
        count: 16381,
        room: 65531,
        told: "size 65532\nThe provided buffer is too small to hold message content.\nuntouched, fd 9",
    },
    // Its 65536 bytes would have room, and their number has none in 16 bits.
    Row {
        name: "message of a word more is refused",
        count: 16382,
        room: 65536,
        told: "no size\nThe message is longer than 65535 bytes.\nuntouched, fd 9",
    },
];

/// Each is written, or refused, as it has to be.
#[test]
fn rows(rt: HostRuntime) -> Result<(), Fail> {
    for row in &ROWS {
        row_tells(
            &rt,
            row.name,
            words_log(rt.alloc(), row.count, row.room),
            row.told,
        )?;
    }
    Ok(())
}
