//! Messages that are looked at, and handed on to another link as they came.

use super::script::{Cue, scripted};
use smallvec::SmallVec;
use std::alloc::Global;
use std::test::Fail;
use test_kit::log::row_tells;
use test_kit::message::{tell_bytes, tell_message};
use wl_link::{BufferedSocket, HandOnError, Memory};
use wl_wire::{AllowNull, ArgumentType, Message, Token};

/// A link over a script.
type Link = BufferedSocket<Memory>;

/// What is asked of the link on which messages came.
#[derive(Clone, Copy)]
enum Act {
    /// How long the message at its front is.
    Front,
    /// Which message it is, under this signature.
    Peek(&'static [ArgumentType]),
    /// To hand it on, under this signature.
    HandOn(&'static [ArgumentType]),
    /// To hand on all that was received.
    HandOnRest,
    /// To give out what was received and not read.
    TakeReceived,
    /// What waits on both links.
    Waiting,
}

/// A run: what comes, in how many receives, the limit of the link to which messages are handed on, and what is told.
struct Row {
    name: &'static str,
    cues: &'static [Cue],
    receives: usize,
    limit: Option<usize>,
    acts: &'static [Act],
    told: &'static str,
}

/// A string.
const TEXT: [ArgumentType; 1] = [ArgumentType::Str(AllowNull::No)];

/// Two descriptors.
const TWO_FDS: [ArgumentType; 2] = [ArgumentType::Fd, ArgumentType::Fd];

/// A string with another padding than zeros and four bytes behind it, two descriptors, and three bytes of a header.
const ODD_MESSAGES: [u8; 31] = [
    42, 0, 0, 0, 0, 0, 20, 0, 3, 0, 0, 0, b'h', b'i', 0, 9, 7, 7, 7, 7, 42, 0, 0, 0, 1, 0, 8, 0, 1,
    2, 3,
];

/// Their tokens, and one more.
const THREE_TOKENS: [Token; 3] = [Token(1), Token(0), Token(5)];

/// The header of a message of 4100 bytes.
const LONG: [u8; 8] = [42, 0, 0, 0, 0, 0, 4, 16];

/// Runs, and what they tell.
static ROWS: [Row; 8] = [
    Row {
        name: "messages leave as they came",
        cues: &[Cue::Arrive(&ODD_MESSAGES, &THREE_TOKENS)],
        receives: 1,
        limit: None,
        acts: &[
            Act::Front,
            Act::Peek(&TEXT),
            Act::Waiting,
            Act::HandOn(&TEXT),
            Act::Peek(&TWO_FDS),
            Act::HandOn(&TWO_FDS),
            Act::Front,
            Act::HandOn(&[]),
            Act::Waiting,
            Act::TakeReceived,
            Act::Waiting,
        ],
        told: "20 bytes of 31\n42, 0: string hi\n31, 3 and 0, 0 wait\nhand on: done\n42, 1: fd 1: fd 0\nhand on: done\nno message in 3 bytes\nhand on: a part of the message is missing\n3, 1 and 28, 2 wait\n01 02 03, fd 5\n0, 0 and 28, 2 wait\n2a 00 00 00 00 00 14 00 03 00 00 00 68 69 00 09 07 07 07 07 2a 00 00 00 01 00 08 00, fd 1, fd 0\n",
    },
    Row {
        name: "a message byte by byte",
        cues: &[Cue::ArriveSingly(&[42, 0, 0, 0, 1, 0, 8, 0], &[Token(1), Token(0)])],
        receives: 8,
        limit: None,
        acts: &[Act::HandOn(&TWO_FDS)],
        told: "hand on: done\n2a 00 00 00 01 00 08 00, fd 1, fd 0\n",
    },
    Row {
        name: "a descriptor is missing",
        cues: &[Cue::Arrive(&[42, 0, 0, 0, 1, 0, 8, 0], &[Token(1)])],
        receives: 1,
        limit: None,
        acts: &[Act::HandOn(&TWO_FDS), Act::Waiting],
        told: "hand on: a descriptor of the message is missing\n8, 1 and 0, 0 wait\n",
    },
    Row {
        name: "a length below eight",
        cues: &[Cue::Arrive(&[42, 0, 0, 0, 1, 0, 7, 0], &[])],
        receives: 1,
        limit: None,
        acts: &[Act::Front, Act::HandOn(&[]), Act::Waiting],
        told: "no message in 8 bytes\nhand on: the message is malformed\n8, 0 and 0, 0 wait\n",
    },
    Row {
        name: "no room",
        cues: &[Cue::ArriveInChunks(&LONG, 4100)],
        receives: 2,
        limit: Some(4096),
        acts: &[Act::Front, Act::HandOn(&[]), Act::Waiting],
        told: "4100 bytes of 4100\nhand on: too much waits to be sent\n4100, 0 and 0, 0 wait\n",
    },
    Row {
        name: "all that was received",
        cues: &[Cue::Arrive(&ODD_MESSAGES, &THREE_TOKENS)],
        receives: 1,
        limit: None,
        acts: &[
            Act::HandOn(&TEXT),
            Act::HandOnRest,
            Act::HandOnRest,
            Act::Waiting,
        ],
        told: "hand on: done\nhand on: done\nhand on: done\n0, 0 and 31, 3 wait\n2a 00 00 00 00 00 14 00 03 00 00 00 68 69 00 09 07 07 07 07 2a 00 00 00 01 00 08 00 01 02 03, fd 1, fd 0, fd 5\n",
    },
    Row {
        name: "no room for all",
        cues: &[Cue::ArriveInChunks(&LONG, 4100)],
        receives: 2,
        limit: Some(4096),
        acts: &[Act::HandOnRest, Act::Waiting],
        told: "hand on: too much waits to be sent\n4100, 0 and 0, 0 wait\n",
    },
    Row {
        name: "the buffer grows",
        cues: &[Cue::ArriveInChunks(&LONG, 4100)],
        receives: 2,
        limit: None,
        acts: &[Act::HandOn(&[]), Act::Waiting],
        told: "hand on: done\n0, 0 and 4100, 0 wait\n4096 bytes\n00 00 00 00\n",
    },
];

/// Tells how long the message at the front is.
fn tell_front(log: &mut String, from: &Link) -> Result<(), Fail> {
    let len = from.received().len();
    match from.front() {
        Some(front) => Ok(writeln!(log, "{} bytes of {len}", front.len())?),
        None => Ok(writeln!(log, "no message in {len} bytes")?),
    }
}

/// Tells the message at the front, which stays there.
fn tell_peeked(log: &mut String, from: &mut Link, signature: &[ArgumentType]) -> Result<(), Fail> {
    let mut message = Message {
        sender_id: 0,
        opcode: 0,
        args: SmallVec::new(*log.allocator()),
    };
    from.peek(signature, &mut message)?;
    tell_message(log, &message)?;
    Ok(writeln!(log, "")?)
}

/// Tells whether the message at the front was handed on.
fn tell_handed(log: &mut String, answer: Result<(), HandOnError>) -> Result<(), Fail> {
    match answer {
        Ok(()) => Ok(writeln!(log, "hand on: done")?),
        Err(error) => Ok(writeln!(log, "hand on: {error}")?),
    }
}

/// Tells what was received and not read.
fn tell_taken(log: &mut String, from: &mut Link) -> Result<(), Fail> {
    let (bytes, tokens) = from.take_received()?;
    tell_bytes(log, &bytes, &tokens)?;
    Ok(writeln!(log, "")?)
}

/// Tells what was received on the one link, and what is to be sent on the other: bytes and tokens.
fn tell_waiting(log: &mut String, from: &Link, to: &Link) -> Result<(), Fail> {
    let [bytes_in, tokens_in, _, _] = from.waiting();
    let [_, _, bytes_out, tokens_out] = to.waiting();
    writeln!(
        log,
        "{bytes_in}, {tokens_in} and {bytes_out}, {tokens_out} wait"
    )?;
    Ok(())
}

/// Does what is asked, and tells the answer.
fn perform(log: &mut String, from: &mut Link, to: &mut Link, act: Act) -> Result<(), Fail> {
    match act {
        Act::Front => tell_front(log, from),
        Act::Peek(signature) => tell_peeked(log, from, signature),
        Act::HandOn(signature) => tell_handed(log, from.hand_on(signature, to)),
        Act::HandOnRest => tell_handed(log, from.hand_on_rest(to)),
        Act::TakeReceived => tell_taken(log, from),
        Act::Waiting => tell_waiting(log, from, to),
    }
}

/// Receives, does what is asked, and sends what was handed on.
fn perform_all(log: &mut String, from: &mut Link, to: &mut Link, row: &Row) -> Result<(), Fail> {
    for _ in 0..row.receives {
        from.fill_incoming_buffers()?;
    }
    for act in row.acts {
        perform(log, from, to, *act)?;
    }
    Ok(to.flush()?)
}

/// Tells what a send took; of many bytes their number alone.
fn tell_sent(log: &mut String, bytes: &[u8], tokens: &[Token]) -> Result<(), Fail> {
    if bytes.len() <= 64 {
        tell_bytes(log, bytes, tokens)?;
    } else {
        write!(log, "{} bytes", bytes.len())?;
    }
    Ok(writeln!(log, "")?)
}

/// Tells what each send took.
fn tell_sends(log: &mut String, sends: &[(Vec<u8>, Vec<Token>)]) -> Result<(), Fail> {
    for (bytes, tokens) in sends {
        tell_sent(log, bytes, tokens)?;
    }
    Ok(())
}

/// Receives, does what is asked, sends what was handed on, and tells what each send took.
fn perform_and_tell(
    log: &mut String,
    from: &mut Link,
    to: &mut Link,
    row: &Row,
) -> Result<(), Fail> {
    perform_all(log, from, to, row)?;
    tell_sends(log, to.transport().sent())
}

/// Runs the row over a link and a new one, and tells what that sent.
fn run_to(log: &mut String, row: &Row, from: &mut Link) -> Result<(), Fail> {
    let alloc = *log.allocator();
    let mut to = BufferedSocket::new(alloc, Memory::new(alloc), row.limit)?;
    let answer = perform_and_tell(log, from, &mut to, row);
    drop(to);
    answer
}

/// Runs the row over two new links, and tells what the second sent.
fn run(log: &mut String, row: &Row, came: Memory) -> Result<(), Fail> {
    let mut from = BufferedSocket::new(*log.allocator(), came, None)?;
    let answer = run_to(log, row, &mut from);
    drop(from);
    answer
}

/// Tells the run of the row, and then what was sent.
fn tell_run(log: &mut String, row: &Row) -> Result<(), Fail> {
    let came = scripted(log, row.cues)?;
    run(log, row, came)
}

/// What the run of the row tells, and then what was sent.
fn row_log(alloc: Global, row: &Row) -> Result<String, Fail> {
    let mut log = String::new(alloc);
    tell_run(&mut log, row)?;
    Ok(log)
}

/// Each run tells what it has to.
#[test]
fn rows(rt: HostRuntime) -> Result<(), Fail> {
    for row in &ROWS {
        row_tells(&rt, row.name, row_log(rt.alloc(), row), row.told)?;
    }
    Ok(())
}
