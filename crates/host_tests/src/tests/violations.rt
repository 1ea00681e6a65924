//! How a client broke the protocol, as a host is told of it.

use crate::tests::acts::{Act, FIRST};
use crate::tests::session::{Entry, Run, run_tells};
use std::test::Fail;
use wl_host::Server;

/// `wl_display.get_registry` with the new id 2, and `wl_registry.bind` of the global 1 as a `pad` of version 2 with the new id 3.
const BIND: &[u32] = &[1, 0x000c0001, 2, 2, 0x001c0000, 1, 4, 0x00646170, 2, 3];

/// A client that has a `pad`, and is live.
const BOUND: &[Entry<Act>] = &[
    (Act::Global(70, 1, &[]), "Ok global 1:1"),
    (Act::Insert(7, 1, &[]), "Ok client 0:1"),
    (Act::Received(FIRST, BIND, &[]), "Ok"),
    (
        Act::Next(FIRST, 0, 0),
        "Ok kind 2 data 70 version 2 made 4@3",
    ),
    (Act::FinishBind(FIRST, 33), "Ok kept true"),
    (Act::Violation(FIRST), "InvalidId"),
];

/// The run in which these words come, the reading answers so, and the violation is told so, until the client is taken out.
macro_rules! comes {
    ($name:literal, $words:expr, $answer:literal, $told:literal) => {
        Run {
            name: $name,
            first: BOUND,
            entries: &[
                (Act::Received(FIRST, $words, &[]), "Ok"),
                (Act::Next(FIRST, 0, 0), $answer),
                (Act::Violation(FIRST), $told),
                (Act::Cleanup, "Ok"),
                (Act::Violation(FIRST), "InvalidId"),
            ],
        }
    };
}

/// Conversations that end so, each of a new session.
static RUNS: [Run<Act>; 9] = [
    comes!(
        "no object",
        &[42, 0x00080000],
        "ProtocolError",
        "Ok kind 1 sender 42"
    ),
    comes!(
        "no request",
        &[3, 0x00080021],
        "ProtocolError",
        "Ok kind 2 sender 3 interface 4 opcode 33"
    ),
    comes!(
        "short header",
        &[3, 0x00040000],
        "ProtocolError",
        "Ok kind 3 sender 3 interface 4"
    ),
    comes!(
        "label of nothing",
        &[3, 0x00080001],
        "ProtocolError",
        "Ok kind 4 sender 3 interface 4 opcode 1"
    ),
    comes!(
        "label of `aaaa` without a zero",
        &[3, 0x00100001, 4, 0x61616161],
        "ProtocolError",
        "Ok kind 5 sender 3 interface 4 opcode 1"
    ),
    comes!(
        "bind of the global 9",
        &[2, 0x001c0000, 9, 4, 0x00646170, 2, 4],
        "Closed",
        "Ok kind 7 sender 2 interface 2 number 9 wanted 2"
    ),
    comes!(
        "bind as null",
        &[2, 0x00180000, 1, 0, 2, 4],
        "Closed",
        "Ok kind 8 sender 2 interface 2 number 1 wanted 2"
    ),
    comes!(
        "bind at 9",
        &[2, 0x001c0000, 1, 4, 0x00646170, 2, 9],
        "Closed",
        "Ok kind 9 sender 2 interface 2 argument 3 number 9"
    ),
    Run {
        name: "killed by the program",
        first: BOUND,
        entries: &[
            (Act::Kill(FIRST), "Ok"),
            (Act::Violation(FIRST), "InvalidId"),
        ],
    },
];

#[test]
fn violations(rt: HostRuntime) -> Result<(), Fail> {
    for run in &RUNS {
        run_tells::<Server>(&rt, run, None, false)?;
    }
    Ok(())
}
