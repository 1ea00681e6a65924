//! A policy, and a guard: each call, and the status of each refusal.

use super::rows::TABLE;
use std::alloc::{AllocError, Global};
use std::fmt::Write;
use std::test::Fail;
use test_kit::log::row_tells;
use wl_host::{CLIENT_SIDE, Counts, Guard, Limits, Policy, SERVER_SIDE};

/// A call of a policy or a guard.
#[derive(Clone, Copy)]
enum Act {
    Allow(&'static [u8], u32),
    Refuse(&'static [u8], &'static [u8]),
    Ignore(&'static [u8], &'static [u8]),
    /// These bytes and descriptors came from this side.
    Received(u32, &'static [u8], &'static [i32]),
    /// What is to be sent to this side, with room for so many bytes and descriptors.
    ToSend(u32, usize, usize),
    Sent(u32, u32),
    Released,
    Ended,
}

/// The client asks for the registry, as object 2.
const REGISTRY: &[u8] = &[1, 0, 0, 0, 1, 0, 12, 0, 2, 0, 0, 0];

/// The compositor announces `pad` in version 2 as the global 7.
const ANNOUNCED: &[u8] = &[
    2, 0, 0, 0, 0, 0, 24, 0, 7, 0, 0, 0, 4, 0, 0, 0, b'p', b'a', b'd', 0, 2, 0, 0, 0,
];

/// The client binds it in version 1 as object 3, and pushes 5 with a descriptor.
const BOUND: &[u8] = &[
    2, 0, 0, 0, 0, 0, 28, 0, 7, 0, 0, 0, 4, 0, 0, 0, b'p', b'a', b'd', 0, 1, 0, 0, 0, 3, 0, 0, 0,
    3, 0, 0, 0, 0, 0, 12, 0, 5, 0, 0, 0,
];

/// The client gives object 3 the label `x`.
const LABELLED: &[u8] = &[3, 0, 0, 0, 1, 0, 16, 0, 2, 0, 0, 0, b'x', 0, 0, 0];

/// The compositor gives the client a descriptor.
const GIVEN: &[u8] = &[3, 0, 0, 0, 1, 0, 8, 0];

/// Tells what is to be sent.
fn tell_send(
    alloc: Global,
    guard: &Guard,
    log: &mut String,
    side: u32,
    room: (usize, usize),
) -> Result<(), AllocError> {
    let mut bytes = Vec::from_elem(alloc, 0, room.0)?;
    let mut descriptors = Vec::from_elem(alloc, 0, room.1)?;
    let mut counts = Counts::new(99, 99);
    let status = guard.to_send(side, &mut bytes, &mut descriptors, &mut counts);
    write!(log, "{status:?} {} {}:", counts.bytes, counts.descriptors)?;
    for byte in &bytes {
        write!(log, " {byte}")?;
    }
    for descriptor in &descriptors {
        write!(log, " fd {descriptor}")?;
    }
    Ok(())
}

/// Makes the call, and tells what it answers.
fn perform(
    alloc: Global,
    policy: &mut Policy,
    guard: &mut Guard,
    log: &mut String,
    act: Act,
) -> Result<(), AllocError> {
    match act {
        Act::Allow(name, version) => write!(log, "{:?}", policy.allow(name, version)),
        Act::Refuse(name, request) => write!(log, "{:?}", policy.refuse(name, request)),
        Act::Ignore(name, request) => write!(log, "{:?}", policy.ignore(name, request)),
        Act::Received(side, bytes, descriptors) => {
            let status = guard.received(alloc, policy, side, bytes, descriptors);
            write!(log, "{status:?}")
        }
        Act::ToSend(side, bytes, descriptors) => {
            tell_send(alloc, guard, log, side, (bytes, descriptors))
        }
        Act::Sent(side, count) => write!(log, "{:?}", guard.sent(side, count)),
        Act::Released => write!(log, "{:?}", guard.next_released()),
        Act::Ended => write!(log, "{:?}", guard.how_ended()),
    }
}

/// A call, and what it tells.
type Entry = (Act, &'static str);

static RUN: [Entry; 36] = [
    (Act::Allow(b"nope", 1), "Err(UnknownInterface)"),
    (Act::Allow(b"\xff", 1), "Err(UnknownInterface)"),
    (Act::Allow(b"wl_display", 1), "Err(WrongInterface)"),
    (Act::Allow(b"pad", 0), "Err(VersionTooHigh)"),
    (Act::Allow(b"pad", 3), "Err(VersionTooHigh)"),
    (Act::Allow(b"pad", 1), "Ok(())"),
    (Act::Refuse(b"nope", b"label"), "Err(UnknownInterface)"),
    (Act::Refuse(b"\xff", b"label"), "Err(UnknownInterface)"),
    (Act::Refuse(b"pad", b"nope"), "Err(UnknownOpcode)"),
    (Act::Refuse(b"pad", b"\xff"), "Err(UnknownOpcode)"),
    (Act::Refuse(b"wl_registry", b"bind"), "Err(WrongInterface)"),
    (Act::Refuse(b"pad", b"label"), "Ok(())"),
    (Act::Ignore(b"pad", b"make"), "Err(WrongKind)"),
    (Act::Ignore(b"pad", b"close"), "Err(WrongKind)"),
    (Act::Ignore(b"pad", b"push"), "Ok(())"),
    (Act::Received(2, REGISTRY, &[]), "InvalidInput"),
    (Act::ToSend(2, 1, 1), "InvalidInput 99 99: 0 fd 0"),
    (Act::Sent(2, 1), "InvalidInput"),
    (Act::Received(CLIENT_SIDE, REGISTRY, &[]), "Ok"),
    (Act::ToSend(SERVER_SIDE, 5, 1), "Ok 5 0: 1 0 0 0 1 fd 0"),
    (Act::Sent(SERVER_SIDE, 5), "Ok"),
    (Act::ToSend(SERVER_SIDE, 8, 0), "Ok 7 0: 0 12 0 2 0 0 0 0"),
    (Act::Sent(SERVER_SIDE, 99), "Ok"),
    (Act::Received(SERVER_SIDE, ANNOUNCED, &[]), "Ok"),
    // What waits for the client is above the limit, so nothing is taken from the compositor.
    (Act::Received(SERVER_SIDE, GIVEN, &[9]), "WouldBlock"),
    (
        Act::ToSend(CLIENT_SIDE, 24, 0),
        "Ok 24 0: 2 0 0 0 0 0 24 0 7 0 0 0 4 0 0 0 112 97 100 0 1 0 0 0",
    ),
    (Act::Sent(CLIENT_SIDE, 24), "Ok"),
    (Act::Received(CLIENT_SIDE, BOUND, &[8]), "Ok"),
    (Act::Released, "Ok(8)"),
    (Act::Received(SERVER_SIDE, GIVEN, &[9]), "Ok"),
    (
        Act::ToSend(CLIENT_SIDE, 8, 0),
        "TooSmall 8 1: 0 0 0 0 0 0 0 0",
    ),
    (
        Act::ToSend(CLIENT_SIDE, 8, 2),
        "Ok 8 1: 3 0 0 0 1 0 8 0 fd 9 fd 0",
    ),
    (Act::Sent(SERVER_SIDE, 28), "Ok"),
    (Act::Received(CLIENT_SIDE, LABELLED, &[7]), "Ok"),
    (
        Act::Ended,
        "FlatEnd { reason: 6, side: 0, object: 3, opcode: 1 }",
    ),
    (Act::Received(CLIENT_SIDE, LABELLED, &[]), "Closed"),
];

/// What a call tells.
fn told(
    alloc: Global,
    policy: &mut Policy,
    guard: &mut Guard,
    act: Act,
) -> Result<String, AllocError> {
    let mut log = String::new(alloc);
    perform(alloc, policy, guard, &mut log, act)?;
    Ok(log)
}

#[test]
fn each_call(rt: HostRuntime) -> Result<(), Fail> {
    let limits = Limits {
        objects: 9,
        globals: 2,
        waiting: 16,
    };
    let mut policy = Policy::new(rt.alloc(), &TABLE, limits)?;
    let mut guard = Guard::new(rt.alloc())?;
    for (act, text) in RUN {
        let log = told(rt.alloc(), &mut policy, &mut guard, act);
        row_tells(&rt, "guards", Ok(log?), text)?;
    }
    let last = (guard.next_released(), guard.next_released());
    drop(guard);
    drop(policy);
    let mut log = String::new(rt.alloc());
    write!(log, "{last:?}")?;
    row_tells(&rt, "guards", Ok(log), "(Ok(7), Err(WouldBlock))")
}
