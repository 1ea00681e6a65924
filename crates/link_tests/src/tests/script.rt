//! The transport by script: what it is given and asked, as a list of calls.

use std::alloc::Global;
use std::collections::VecDeque;
use std::test::Fail;
use test_kit::log::tells;
use test_kit::message::{padded, tell_bytes};
use wl_link::{ArriveError, Memory, Transport};
use wl_wire::{IoFault, OutOfMemory, Token};

/// A call of a script.
#[derive(Clone, Copy)]
pub enum Cue {
    /// A chunk arrives. It is told if it is refused.
    Arrive(&'static [u8], &'static [Token]),
    /// A chunk of no bytes and so many tokens arrives. It is told if it is refused.
    ArriveTokens(usize),
    /// A chunk arrives for each byte, of which the first has all tokens.
    ArriveSingly(&'static [u8], &'static [Token]),
    /// Bytes arrive, and zeros after them, of that length in all, in chunks of 4096.
    ArriveInChunks(&'static [u8], usize),
    /// A fault arrives.
    ArriveFault(IoFault),
    /// A send takes so many bytes.
    Accept(usize),
    /// A send answers a fault.
    AcceptFault(IoFault),
    /// Receives into so many bytes, which were 0.
    Receive(usize),
    /// How many arrivals are left.
    ArrivalsLeft,
}

/// Tells why a chunk was refused.
fn tell_refused(log: &mut String, arrived: Result<(), ArriveError>) -> Result<(), Fail> {
    match arrived {
        Ok(()) => Ok(()),
        Err(error) => Ok(writeln!(log, "arrive: {error}")?),
    }
}

/// Appends a chunk to the arrivals.
fn arrive(
    log: &mut String,
    memory: &mut Memory,
    bytes: &[u8],
    tokens: &[Token],
) -> Result<(), Fail> {
    let bytes = Vec::from_slice(*log.allocator(), bytes)?;
    let tokens = Vec::from_slice(*log.allocator(), tokens)?;
    tell_refused(log, memory.arrive(bytes, tokens))
}

/// Appends a chunk of no bytes and so many tokens to the arrivals.
fn arrive_tokens(log: &mut String, memory: &mut Memory, count: usize) -> Result<(), Fail> {
    let alloc = *log.allocator();
    let tokens = Vec::from_elem(alloc, Token(1), count)?;
    tell_refused(log, memory.arrive(Vec::new(alloc), tokens))
}

/// Appends a chunk for each byte to the arrivals, of which the first has all tokens.
fn arrive_singly(
    log: &mut String,
    memory: &mut Memory,
    bytes: &[u8],
    tokens: &[Token],
) -> Result<(), Fail> {
    let mut left = tokens;
    for byte in bytes {
        arrive(log, memory, &[*byte], left)?;
        left = &[];
    }
    Ok(())
}

/// Appends the bytes and zeros after them, of that length in all, to the arrivals, in chunks of 4096.
fn arrive_in_chunks(
    log: &mut String,
    memory: &mut Memory,
    bytes: &[u8],
    len: usize,
) -> Result<(), Fail> {
    for chunk in padded(*log.allocator(), bytes, len)?.chunks(4096) {
        arrive(log, memory, chunk, &[])?;
    }
    Ok(())
}

/// Tells a receive of so many bytes.
fn tell_count(log: &mut String, count: usize, buffer: &[u8], tokens: &[Token]) -> Result<(), Fail> {
    write!(log, "received {count} in ")?;
    tell_bytes(log, buffer, tokens)?;
    Ok(writeln!(log, "")?)
}

/// Tells how many bytes came, all bytes of the buffer, and the tokens that came.
pub fn tell_received(
    log: &mut String,
    received: Result<usize, IoFault>,
    buffer: &[u8],
    tokens: &[Token],
) -> Result<(), Fail> {
    match received {
        Ok(count) => tell_count(log, count, buffer, tokens),
        Err(fault) => Ok(writeln!(log, "receive: {fault}")?),
    }
}

/// Receives into so many bytes.
fn receive(log: &mut String, memory: &mut Memory, room: usize) -> Result<(), Fail> {
    let alloc = *log.allocator();
    let mut buffer = Vec::from_elem(alloc, 0, room)?;
    let mut tokens = VecDeque::new(alloc);
    let received = memory.rcv_msg(&mut buffer, &mut tokens);
    tell_received(log, received, &buffer, tokens.make_contiguous())
}

/// Tells how many arrivals are left.
fn arrivals_left(log: &mut String, memory: &Memory) -> Result<(), Fail> {
    Ok(writeln!(log, "{} arrivals left", memory.arrivals_left())?)
}

/// Fails if there was no memory for what a script is given.
fn put(answer: Result<(), OutOfMemory>) -> Result<(), Fail> {
    Ok(answer?)
}

/// Makes the call.
fn perform(log: &mut String, memory: &mut Memory, cue: Cue) -> Result<(), Fail> {
    match cue {
        Cue::Arrive(bytes, tokens) => arrive(log, memory, bytes, tokens),
        Cue::ArriveTokens(count) => arrive_tokens(log, memory, count),
        Cue::ArriveSingly(bytes, tokens) => arrive_singly(log, memory, bytes, tokens),
        Cue::ArriveInChunks(bytes, len) => arrive_in_chunks(log, memory, bytes, len),
        Cue::ArriveFault(fault) => put(memory.arrive_fault(fault)),
        Cue::Accept(count) => put(memory.accept(count)),
        Cue::AcceptFault(fault) => put(memory.accept_fault(fault)),
        Cue::Receive(room) => receive(log, memory, room),
        Cue::ArrivalsLeft => arrivals_left(log, memory),
    }
}

/// Makes the calls.
fn perform_all(log: &mut String, memory: &mut Memory, cues: &[Cue]) -> Result<(), Fail> {
    for cue in cues {
        perform(log, memory, *cue)?;
    }
    Ok(())
}

/// A script after these calls.
pub fn scripted(log: &mut String, cues: &[Cue]) -> Result<Memory, Fail> {
    let mut memory = Memory::new(*log.allocator());
    perform_all(log, &mut memory, cues)?;
    Ok(memory)
}

/// What the calls of a script tell.
fn script_log(alloc: Global, cues: &[Cue]) -> Result<String, Fail> {
    let mut log = String::new(alloc);
    let _memory = scripted(&mut log, cues)?;
    Ok(log)
}

#[test]
fn chunk_gives_its_tokens_with_its_first_bytes(rt: HostRuntime) -> Result<(), Fail> {
    let cues = [
        Cue::Arrive(&[1, 2, 3], &[Token(8), Token(9)]),
        Cue::ArriveFault(IoFault::Other(3)),
        Cue::Receive(2),
        Cue::ArrivalsLeft,
        Cue::Receive(5),
        Cue::Receive(0),
        Cue::Receive(5),
        Cue::Receive(5),
    ];
    tells(
        &rt,
        script_log(rt.alloc(), &cues),
        "received 2 in 01 02, fd 8, fd 9\n2 arrivals left\nreceived 1 in 03 00 00 00 00\nreceived 0 in \nreceive: os error 3\nreceive: would block\n",
    )
}
