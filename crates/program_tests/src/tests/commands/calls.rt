//! What commands answer.

use crate::tests::lines::{Call, Row, rows_print};
use std::test::Fail;

/// A client gets its registry, binds a global, and destroys what it bound.
pub const BOUND_OBJECT: &[u8] = b"client
in 0 0100000001000c0002000000 -
read 0
global quad 3
flush
in 0 0200000000002000010000000500000071756164000000000300000003000000 -
read 0
read 0
finish 0
in 0 0300000002000800 -
read 0
finish 0
flush
notes
";

/// What is printed of it.
pub const BOUND_OBJECT_PRINTED: &str = "client 0 1
ok
fault WouldBlock
global 1 1
ok
out 0 0200000000001c000100000005000000717561640000000003000000 -
ok
bind 1 3
fault ActionOpen
ok
ok
request 3 2 [] destructor=1 created=-
ok
ok
out 0 0100000001000c0003000000 -
initialized 0
destroyed 0 3 9
";

/// A transport takes a byte, then would block, and then fails to receive.
pub const FAULTS: &[u8] = b"client
accept 0 1
fail 0 out WouldBlock
in 0 0100000000000c0002000000 -
read 0
flush
flush
fail 0 in Other
read 0
notes
";

/// Lines, and what is printed of them.
static ROWS: [Row; 14] = [
    // The commands before the first bad line are carried out, and none after it; empty lines count.
    Row {
        name: "first bad line: no client yet",
        lines: b"read 0\nclient\n",
        printed: "[Err(BadLine(1))]",
    },
    Row {
        name: "first bad line: empty lines count",
        lines: b"\nclient\n\nread 0\nquit\nclient\n",
        printed: "client 0 1\nfault WouldBlock\n[Err(BadLine(5))]",
    },
    // Globals are named by their interface, and disabled and removed by their own name, if one has it.
    Row {
        name: "globals by name",
        lines: b"global quad 4
global nothing 1
global nothing 4294967295
global \xc3\xa9 1
global <unknown> 1
global <anonymous> 1
global <anonymous> 0
global wl_callback 1
global quad 0
disable 0
disable 4
remove 4294967295
remove 2
global quad 1
flush
cleanup
notes
",
        printed: "refused VersionTooHigh
refused UnknownInterface
refused UnknownInterface
refused UnknownInterface
refused UnknownInterface
refused VersionTooHigh
global 1 1
global 2 2
global 3 3
ok
ok
ok
ok
global 2 4
ok
ok
none
",
    },
    // What a script is given.
    Row {
        name: "scripts",
        lines: b"client
in 0 - -
in 0 00 2147483647
in 0 - 0,1,2,3,4,5,6,7,8,9,10,11,12,13,14,15,16,17,18,19,20,21,22,23,24,25,26,27
in 0 - 0,1,2,3,4,5,6,7,8,9,10,11,12,13,14,15,16,17,18,19,20,21,22,23,24,25,26,27,28
accept 0 0,4294967295
fail 0 out WouldBlock
fail 0 out Pipe
fail 0 out TooBig
fail 0 out Proto
fail 0 out InvalidInput
fail 0 out Other
finish 0
",
        printed: "client 0 1
ok
ok
ok
refused TooManyTokens
ok
ok
ok
ok
ok
ok
ok
refused NoOpenAction
",
    },
    // Each fault of a receive is answered; each but `WouldBlock` kills the client.
    Row {
        name: "faults of a receive",
        lines: b"client
client
client
client
client
fail 0 in WouldBlock
fail 0 in TooBig
fail 1 in Proto
fail 2 in InvalidInput
fail 3 in Other
fail 4 in Pipe
read 0
read 0
read 1
read 2
read 3
read 4
read 0
",
        printed: "client 0 1
client 1 2
client 2 3
client 3 4
client 4 5
ok
ok
ok
ok
ok
ok
fault WouldBlock
fault TooBig
fault Proto
fault InvalidInput
fault Other
fault Pipe
fault Pipe
",
    },
    // Nothing is printed of nothing; the last line need not end in a line feed; and empty lines are skipped.
    Row {
        name: "no lines",
        lines: b"",
        printed: "",
    },
    Row {
        name: "empty lines alone",
        lines: b"\n\n",
        printed: "",
    },
    Row {
        name: "a last line without a line feed",
        lines: b"client",
        printed: "client 0 1\n",
    },
    Row {
        name: "empty lines between others",
        lines: b"\nclient\n\nnotes",
        printed: "client 0 1\ninitialized 0\n",
    },
    // What a flush leaves is sent by a later one, after any number of faults; a client that was taken out is sent nothing.
    Row {
        name: "sends that stop",
        lines: b"client
client
in 1 0100000000000c0002000000 -
read 1
fail 1 out WouldBlock
fail 1 out Pipe
accept 1 5
fail 1 out Other
flush
flush
flush
flush
flush
in 1 0100000000000c0002000000 -
read 1
fail 1 out WouldBlock
flush
kill 1
flush
cleanup
flush
client
flush
",
        printed: "client 0 1
client 1 2
ok
fault WouldBlock
ok
ok
ok
ok
ok
ok
ok
out 1 0200000000 -
ok
out 1 000c00000000000100000001000c0002000000 -
ok
ok
fault WouldBlock
ok
ok
ok
ok
ok
out 1 0200000000000c00000000000100000001000c0002000000 -
ok
client 1 3
ok
",
    },
    // A send that takes nothing ends a flush well; the bytes are sent by the next.
    Row {
        name: "sends that take nothing",
        lines: b"client
in 0 0100000000000c0002000000 -
read 0
accept 0 0
flush
accept 0 0,5,0
flush
flush
flush
",
        printed: "client 0 1
ok
fault WouldBlock
ok
ok
ok
ok
ok
out 0 0200000000 -
ok
out 0 000c00000000000100000001000c0002000000 -
",
    },
    // Conversations. The crate `conversations` has more of them.
    Row {
        name: "bound object",
        lines: BOUND_OBJECT,
        printed: BOUND_OBJECT_PRINTED,
    },
    Row {
        name: "faults of a transport",
        lines: FAULTS,
        printed: "client 0 1
ok
ok
ok
fault WouldBlock
ok
out 0 02 -
ok
out 0 00000000000c00000000000100000001000c0002000000 -
ok
fault Other
initialized 0
disconnected 0 closed
",
    },
    // A client gets its registry, binds a global, and destroys what it bound, in one dispatch. What was bound has the number of
    // the line.
    Row {
        name: "bound object, by a dispatch",
        lines: b"client
global quad 3
in 0 0100000001000c000200000002000000000020000100000005000000717561640000000003000000030000000300000002000800 -
dispatch 0
flush
notes
",
        printed: "client 0 1
global 1 1
ok
dispatched 3
ok
out 0 0200000000001c0001000000050000007175616400000000030000000100000001000c0003000000 -
initialized 0
destroyed 0 3 4
",
    },
];

/// Of each input is printed what has to be.
#[test]
fn rows(rt: HostRuntime) -> Result<(), Fail> {
    rows_print(&rt, &Call::Run, &ROWS)
}
