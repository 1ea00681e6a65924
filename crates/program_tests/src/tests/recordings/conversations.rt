//! Conversations, recorded and replayed.

use crate::tests::commands::calls::{BOUND_OBJECT, FAULTS};
use crate::tests::lines::{Call, printed};
use std::test::Fail;
use test_kit::log::row_tells;

/// Lines, their record, and what that comes to if it is replayed.
struct Conversation {
    name: &'static str,
    lines: &'static [u8],
    recording: &'static str,
    verdict: &'static str,
}

/// The conversations.
static CONVERSATIONS: [Conversation; 3] = [
    // A client gets its registry, binds a global, and destroys what it bound.
    Conversation {
        name: "bound object",
        lines: BOUND_OBJECT,
        recording: "1 client
> client 0 1
2 in 0 0100000001000c0002000000 -
> ok
3 read 0
> fault WouldBlock
4 global quad 3
> global 1 1
5 flush
> ok
> out 0 0200000000001c000100000005000000717561640000000003000000 -
6 in 0 0200000000002000010000000500000071756164000000000300000003000000 -
> ok
7 read 0
> bind 1 3
8 read 0
> fault ActionOpen
9 finish 0
> ok
10 in 0 0300000002000800 -
> ok
11 read 0
> request 3 2 [] destructor=1 created=-
12 finish 0
> ok
13 flush
> ok
> out 0 0100000001000c0003000000 -
14 notes
> initialized 0
> destroyed 0 3 9
",
        verdict: "same 14\n[Ok(Same(14))]",
    },
    // A client breaks the protocol: its note names an interface.
    Conversation {
        name: "an error in a note",
        lines: b"client
in 0 0100000000000c0005000000 -
read 0
notes
",
        recording: "1 client
> client 0 1
2 in 0 0100000000000c0005000000 -
> ok
3 read 0
> fault Pipe
> out 0 0100000000002800010000000000000013000000496e76616c6964206e65775f69643a20352e0000 -
4 notes
> initialized 0
> disconnected 0 error 0 1 wl_display 496e76616c6964206e65775f69643a20352e
",
        verdict: "same 4\n[Ok(Same(4))]",
    },
    // A transport that takes a byte, then would block, and then fails to receive.
    Conversation {
        name: "faults of a transport",
        lines: FAULTS,
        recording: "1 client
> client 0 1
2 accept 0 1
> ok
3 fail 0 out WouldBlock
> ok
4 in 0 0100000000000c0002000000 -
> ok
5 read 0
> fault WouldBlock
6 flush
> ok
> out 0 02 -
7 flush
> ok
> out 0 00000000000c00000000000100000001000c0002000000 -
8 fail 0 in Other
> ok
9 read 0
> fault Other
10 notes
> initialized 0
> disconnected 0 closed
",
        verdict: "same 10\n[Ok(Same(10))]",
    },
];

/// Each conversation has its record, which comes to its verdict.
#[test]
fn recorded_and_replayed(rt: HostRuntime) -> Result<(), Fail> {
    for row in &CONVERSATIONS {
        let recorded = printed(rt.alloc(), &Call::Record, row.lines);
        row_tells(&rt, row.name, recorded, row.recording)?;
        let verdict = printed(rt.alloc(), &Call::Replay, row.recording.as_bytes());
        row_tells(&rt, row.name, verdict, row.verdict)?;
    }
    Ok(())
}
