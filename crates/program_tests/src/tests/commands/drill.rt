//! Each allocation is refused in turn: runs of lines that judge themselves, whichever it is.

use super::calls::{BOUND_OBJECT, BOUND_OBJECT_PRINTED};
use std::process::Abort;
use wl_bench::commands::run_commands;
use wl_bench::stop::Stop;

/// A client binds a global and destroys what it bound, in one dispatch, with a second client that breaks the protocol.
const DISPATCHED_LINES: &[u8] = b"client
client
global quad 3
in 0 0100000001000c000200000002000000000020000100000005000000717561640000000003000000030000000300000002000800 -
in 1 0100000000000c0005000000 -
dispatch 0,1
flush
notes
";

/// What is printed of those.
const DISPATCHED: &[u8] = b"client 0 1
client 1 2
global 1 1
ok
ok
dispatched 3
ok
out 0 0200000000001c0001000000050000007175616400000000030000000100000001000c0003000000 -
initialized 0
initialized 1
destroyed 0 3 6
disconnected 1 error 0 1 wl_display 496e76616c6964206e65775f69643a20352e
";

/// Fails if the run did not end as failed, after whole answers.
fn failed_between_answers(rt: &impl Abort, stop: Stop, printed: &[u8], output: &[u8]) {
    assert_eq!(rt; stop, Stop::Failed);
    assert!(rt; printed.starts_with(output));
    assert!(rt; matches!(output.last(), None | Some(b'\n')));
}

/// Runs the lines. If memory is refused the run ends as failed, after whole answers, and is made again. Fails if something else is
/// printed.
fn drill(rt: &(impl Abort + AllocGlobal), lines: &[u8], printed: &[u8]) {
    let mut input = lines;
    let mut output = Vec::new(rt.alloc());
    if let Err(stop) = run_commands(rt.alloc(), &mut input, &mut output) {
        failed_between_answers(rt, stop, printed, output.as_slice());
        output.clear();
        let mut again = lines;
        assert!(rt; run_commands(rt.alloc(), &mut again, &mut output).is_ok());
    }
    assert_eq!(rt; output.as_slice(), printed);
}

/// A client's conversation, line by line.
#[test]
fn drill_of_lines(rt: HostRuntime) {
    drill(&rt, BOUND_OBJECT, BOUND_OBJECT_PRINTED.as_bytes());
}

/// Two clients in one dispatch.
#[test]
fn drill_of_dispatches(rt: HostRuntime) {
    drill(&rt, DISPATCHED_LINES, DISPATCHED);
}
