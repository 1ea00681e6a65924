//! The lines of the README of `wl_link`: a sync is sent over a script, and its answer comes in two chunks.

use anyhow::Result;
use smallvec::SmallVec;
use std::alloc::Global;
use std::test::Fail;
use wl_link::{BufferedSocket, Memory};
use wl_wire::{Argument, ArgumentType, Message, MessageParseError, Token};

/// What the event `done` has: a number.
static DONE: [ArgumentType; 1] = [ArgumentType::Uint];

/// Appends the bytes to the arrivals.
fn arrive(alloc: Global, script: &mut Memory, bytes: &[u8]) -> Result<()> {
    let bytes = Vec::from_slice(alloc, bytes)?;
    Ok(script.arrive(bytes, Vec::new(alloc))?)
}

/// A script by which `done` comes in two chunks.
fn answer_in_two(alloc: Global) -> Result<Memory> {
    let mut script = Memory::new(alloc);
    arrive(alloc, &mut script, &[2, 0, 0, 0, 0, 0, 12, 0])?;
    arrive(alloc, &mut script, &[9, 0, 0, 0])?;
    Ok(script)
}

/// A message of one argument.
fn message(
    alloc: Global,
    sender_id: u32,
    argument: Argument<u32, Token>,
) -> Result<Message<u32, Token>> {
    let mut message = Message {
        sender_id,
        opcode: 0,
        args: SmallVec::new(alloc),
    };
    message.args.push(argument)?;
    Ok(message)
}

/// Whether the message is sent as these bytes in one send.
fn sends(
    link: &mut BufferedSocket<Memory>,
    message: &Message<u32, Token>,
    bytes: &[u8],
) -> Result<bool> {
    link.write_message(message)?;
    link.flush()?;
    let sent = link.transport().sent();
    Ok(sent.len() == 1 && sent[0].0.as_slice() == bytes)
}

/// Whether what waits is not yet a whole message.
fn lacks_data(link: &mut BufferedSocket<Memory>) -> bool {
    link.read_one_message(|_, _| Some(&DONE)) == Err(MessageParseError::MissingData)
}

/// Whether the message is read.
fn reads(link: &mut BufferedSocket<Memory>, message: &Message<u32, Token>) -> Result<bool> {
    let read = link.read_one_message(|_, _| Some(&DONE))?;
    Ok(read == *message)
}

/// Whether the message is read, if a first receive does not bring it to its end and a second does.
fn reads_in_two(link: &mut BufferedSocket<Memory>, message: &Message<u32, Token>) -> Result<bool> {
    link.fill_incoming_buffers()?;
    let half = lacks_data(link);
    link.fill_incoming_buffers()?;
    Ok(half && reads(link, message)?)
}

/// Whether the sync is sent.
fn sends_sync(link: &mut BufferedSocket<Memory>, alloc: Global) -> Result<bool> {
    let sync = message(alloc, 1, Argument::NewId(2))?;
    sends(link, &sync, &[1, 0, 0, 0, 0, 0, 12, 0, 2, 0, 0, 0])
}

/// Whether the answer to the sync is read.
fn reads_answer(link: &mut BufferedSocket<Memory>, alloc: Global) -> Result<bool> {
    let done = message(alloc, 2, Argument::Uint(9))?;
    reads_in_two(link, &done)
}

/// Whether the sync is sent, and its answer read.
fn asks(link: &mut BufferedSocket<Memory>, alloc: Global) -> Result<(bool, bool)> {
    let sent = sends_sync(link, alloc)?;
    let answered = reads_answer(link, alloc)?;
    Ok((sent, answered))
}

/// The same, and what is left to wait.
fn asks_and_waits(
    link: &mut BufferedSocket<Memory>,
    alloc: Global,
) -> Result<(bool, bool, [usize; 4])> {
    let (sent, answered) = asks(link, alloc)?;
    Ok((sent, answered, link.waiting()))
}

/// Whether the sync is sent over a new link, its answer read, and nothing left to wait.
fn asked(alloc: Global) -> Result<(bool, bool, [usize; 4])> {
    let script = answer_in_two(alloc)?;
    let mut link = BufferedSocket::new(alloc, script, None)?;
    let answer = asks_and_waits(&mut link, alloc);
    drop(link);
    answer
}

#[test]
fn sync_sent_and_answered(rt: HostRuntime) -> Result<(), Fail> {
    assert_eq!(rt; asked(rt.alloc())?, (true, true, [0, 0, 0, 0]));
    Ok(())
}
