//! A relay: each call, and the status of each refusal.

use super::rows::TABLE;
use std::alloc::{AllocError, Global};
use std::fmt::Write;
use std::test::Fail;
use test_kit::log::row_tells;
use wl_host::{CLIENT_SIDE, Counts, SERVER_SIDE};
use wl_host_relay::{Relay, mode_of};

/// A call of a relay.
#[derive(Clone, Copy)]
enum Act {
    /// These bytes and descriptors came from this side.
    Received(u32, &'static [u8], &'static [i32]),
    /// What is to be sent to this side, with room for so many bytes and descriptors.
    ToSend(u32, usize, usize),
    Sent(u32, u32),
    /// The next line, with room for so many bytes.
    Line(usize),
}

/// The client asks for the registry, as object 2.
const REGISTRY: &[u8] = &[1, 0, 0, 0, 1, 0, 12, 0, 2, 0, 0, 0];

/// The compositor announces `pad` in version 3 as the global 7. The table has version 2.
const ANNOUNCED: &[u8] = &[
    2, 0, 0, 0, 0, 0, 24, 0, 7, 0, 0, 0, 4, 0, 0, 0, b'p', b'a', b'd', 0, 3, 0, 0, 0,
];

/// The compositor announces `nop`, which the table lacks, as the global 8.
const UNKNOWN: &[u8] = &[
    2, 0, 0, 0, 0, 0, 24, 0, 8, 0, 0, 0, 4, 0, 0, 0, b'n', b'o', b'p', 0, 1, 0, 0, 0,
];

/// The client binds the global 7 in version 1 as object 3, and pushes 5 with a descriptor.
const BOUND: &[u8] = &[
    2, 0, 0, 0, 0, 0, 28, 0, 7, 0, 0, 0, 4, 0, 0, 0, b'p', b'a', b'd', 0, 1, 0, 0, 0, 3, 0, 0, 0,
    3, 0, 0, 0, 0, 0, 12, 0, 5, 0, 0, 0,
];

/// The client makes a request of object 3 that its interface lacks.
const MALFORMED: &[u8] = &[3, 0, 0, 0, 9, 0, 8, 0];

/// One descriptor more than may wait.
const MANY: &[i32] = &[
    1, 2, 3, 4, 5, 6, 7, 8, 9, 10, 11, 12, 13, 14, 15, 16, 17, 18, 19, 20, 21, 22, 23, 24, 25, 26,
    27, 28, 29,
];

/// Tells what is to be sent.
fn tell_send(
    alloc: Global,
    relay: &mut Relay,
    log: &mut String,
    side: u32,
    room: (usize, usize),
) -> Result<(), AllocError> {
    let mut bytes = Vec::from_elem(alloc, 0, room.0)?;
    let mut descriptors = Vec::from_elem(alloc, 0, room.1)?;
    let mut counts = Counts::new(99, 99);
    let status = relay.to_send(side, &mut bytes, &mut descriptors, &mut counts);
    write!(log, "{status:?} {} {}:", counts.bytes, counts.descriptors)?;
    for byte in &bytes {
        write!(log, " {byte}")?;
    }
    for descriptor in &descriptors {
        write!(log, " fd {descriptor}")?;
    }
    Ok(())
}

/// Tells the next line. A byte that is not written is a full stop.
fn tell_line(
    alloc: Global,
    relay: &mut Relay,
    log: &mut String,
    room: usize,
) -> Result<(), AllocError> {
    let mut text = Vec::from_elem(alloc, b'.', room)?;
    let mut size = 7usize;
    let status = relay.next_line(&mut text, &mut size);
    write!(log, "{status:?} {size}:")?;
    match str::from_utf8(&text) {
        Ok(text) => log.push_str(text),
        Err(_) => log.push_str("no text"),
    }
}

/// Makes the call, and tells what it answers.
fn perform(alloc: Global, relay: &mut Relay, log: &mut String, act: Act) -> Result<(), AllocError> {
    match act {
        Act::Received(side, bytes, descriptors) => {
            let status = relay.received(alloc, side, bytes, descriptors);
            write!(log, "{status:?}")
        }
        Act::ToSend(side, bytes, descriptors) => {
            tell_send(alloc, relay, log, side, (bytes, descriptors))
        }
        Act::Sent(side, count) => write!(log, "{:?}", relay.sent(side, count)),
        Act::Line(room) => tell_line(alloc, relay, log, room),
    }
}

/// A call, and what it tells.
type Entry = (Act, &'static str);

static RUN: [Entry; 35] = [
    (Act::Received(2, REGISTRY, &[]), "InvalidInput"),
    (Act::ToSend(2, 1, 1), "InvalidInput 99 99: 0 fd 0"),
    (Act::Sent(2, 1), "InvalidInput"),
    (Act::Line(3), "WouldBlock 7:..."),
    (Act::Received(CLIENT_SIDE, REGISTRY, &[]), "Ok"),
    (Act::Line(3), "TooSmall 51:..."),
    (
        Act::Line(52),
        "Ok 51: -> wl_display@1.get_registry(new id wl_registry@2).",
    ),
    (Act::Line(0), "WouldBlock 7:"),
    (Act::ToSend(SERVER_SIDE, 5, 1), "Ok 5 0: 1 0 0 0 1 fd 0"),
    (Act::Sent(SERVER_SIDE, 5), "Ok"),
    (Act::ToSend(CLIENT_SIDE, 2, 1), "Ok 0 0: 0 0 fd 0"),
    (Act::Received(SERVER_SIDE, ANNOUNCED, &[]), "Ok"),
    (Act::Received(SERVER_SIDE, UNKNOWN, &[]), "Ok"),
    (
        Act::ToSend(CLIENT_SIDE, 25, 0),
        "Ok 24 0: 2 0 0 0 0 0 24 0 7 0 0 0 4 0 0 0 112 97 100 0 2 0 0 0 0",
    ),
    (Act::Sent(CLIENT_SIDE, 99), "Ok"),
    (Act::ToSend(CLIENT_SIDE, 1, 1), "Ok 0 0: 0 fd 0"),
    (
        Act::Line(48),
        "Ok 48:wl_registry@2.global(7, \"pad\", 3) [lowered to 2]",
    ),
    (
        Act::Line(43),
        "Ok 43:wl_registry@2.global(8, \"nop\", 1) [dropped]",
    ),
    (Act::Received(CLIENT_SIDE, BOUND, &[8]), "Ok"),
    // What is ready goes first, and alone.
    (Act::ToSend(SERVER_SIDE, 8, 0), "Ok 7 0: 0 12 0 2 0 0 0 0"),
    (Act::Sent(SERVER_SIDE, 7), "Ok"),
    (Act::ToSend(SERVER_SIDE, 2, 0), "TooSmall 2 1: 0 0"),
    (Act::ToSend(SERVER_SIDE, 2, 1), "Ok 2 1: 2 0 fd 8"),
    (Act::Sent(SERVER_SIDE, 27), "Ok"),
    (
        Act::ToSend(SERVER_SIDE, 13, 1),
        "Ok 13 0: 0 3 0 0 0 0 0 12 0 5 0 0 0 fd 0",
    ),
    (Act::Sent(SERVER_SIDE, 13), "Ok"),
    (
        Act::Line(55),
        "Ok 55: -> wl_registry@2.bind(7, \"pad\", 1, new id [unknown]@3)",
    ),
    (Act::Line(23), "Ok 23: -> pad@3.push(5, fd 8)"),
    (
        Act::Received(CLIENT_SIDE, REGISTRY, MANY),
        "TooManyDescriptors",
    ),
    (Act::Received(CLIENT_SIDE, MALFORMED, &[6]), "Ok"),
    (Act::Line(37), "Ok 37:[client is no longer read: malformed]"),
    (
        Act::ToSend(SERVER_SIDE, 8, 1),
        "Ok 8 1: 3 0 0 0 9 0 8 0 fd 6",
    ),
    (Act::Sent(SERVER_SIDE, 0), "Ok"),
    (Act::ToSend(SERVER_SIDE, 1, 1), "Ok 1 1: 3 fd 6"),
    (Act::Line(1), "WouldBlock 7:."),
];

/// Of a relay that only logs.
static LOGGED: [Entry; 5] = [
    (Act::Received(CLIENT_SIDE, REGISTRY, &[]), "Ok"),
    (Act::Received(SERVER_SIDE, UNKNOWN, &[]), "Ok"),
    (
        Act::Line(51),
        "Ok 51: -> wl_display@1.get_registry(new id wl_registry@2)",
    ),
    (Act::Line(33), "Ok 33:wl_registry@2.global(8, \"nop\", 1)"),
    (
        Act::ToSend(CLIENT_SIDE, 24, 0),
        "Ok 24 0: 2 0 0 0 0 0 24 0 8 0 0 0 4 0 0 0 110 111 112 0 1 0 0 0",
    ),
];

/// What a call tells.
fn told(alloc: Global, relay: &mut Relay, act: Act) -> Result<String, AllocError> {
    let mut log = String::new(alloc);
    perform(alloc, relay, &mut log, act)?;
    Ok(log)
}

#[test]
fn each_call(rt: HostRuntime) -> Result<(), Fail> {
    let mut relay = Relay::new(rt.alloc(), &TABLE, mode_of(0))?;
    for (act, text) in RUN {
        let log = told(rt.alloc(), &mut relay, act);
        row_tells(&rt, "relays", Ok(log?), text)?;
    }
    drop(relay);
    Ok(())
}

#[test]
fn a_log_changes_nothing(rt: HostRuntime) -> Result<(), Fail> {
    let mut relay = Relay::new(rt.alloc(), &TABLE, mode_of(1))?;
    for (act, text) in LOGGED {
        let log = told(rt.alloc(), &mut relay, act);
        row_tells(&rt, "relays", Ok(log?), text)?;
    }
    drop(relay);
    Ok(())
}
