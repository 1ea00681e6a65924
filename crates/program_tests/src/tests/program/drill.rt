//! Each allocation is refused in turn: runs of the program that judge themselves, whichever it is.

use super::process::{Words, arguments};
use std::process::Abort;
use wl_bench::stop::Stop;
use wl_bench_program::{Ended, perform};

/// Fails if the program ended neither with its work done nor as failed; `failed` is told if that was written.
fn ended_well(rt: &impl Abort, ended: Ended, told: &[u8]) {
    match ended.end {
        Ok(()) => {
            assert_eq!(rt; ended.status, 0);
            assert!(rt; told.is_empty());
        }
        Err(stop) => {
            assert_eq!(rt; stop, Stop::Failed);
            assert_eq!(rt; ended.status, 3);
            assert!(rt; ended.told.is_err() || told == b"failed\n".as_slice());
        }
    }
}

/// Runs the program, and once more if that failed. Fails if something else was printed by then than this.
fn drill(rt: &(impl Abort + AllocGlobal), words: Words, input: &[u8], expected: &[u8]) {
    let alloc = rt.alloc();
    let mut printed = Vec::new(alloc);
    let mut told = Vec::new(alloc);
    let args = arguments(alloc, words);
    let ended = perform(alloc, args, input, &mut printed, &mut told);
    ended_well(rt, ended, told.as_slice());
    if ended.end.is_err() {
        assert!(rt; expected.starts_with(printed.as_slice()));
        printed.clear();
        let args = arguments(alloc, words);
        let again = perform(alloc, args, input, &mut printed, &mut told);
        assert!(rt; again.end.is_ok());
    }
    assert_eq!(rt; printed.as_slice(), expected);
}

/// Each command of the program.
#[test]
fn drill_of_commands(rt: HostRuntime) {
    drill(
        &rt,
        &[b"wl-bench", b"sync"],
        b"",
        b"01 00 00 00 00 00 0c 00 02 00 00 00\n02 00 00 00 00 00 0c 00 00 00 00 00 01 00 00 00 01 00 0c 00 02 00 00 00\n",
    );
    drill(&rt, &[b"wl-bench", b"run"], b"client\n", b"client 0 1\n");
    drill(
        &rt,
        &[b"wl-bench", b"record"],
        b"client\n",
        b"1 client\n> client 0 1\n",
    );
    drill(
        &rt,
        &[b"wl-bench", b"replay"],
        b"1 client\n> client 0 1\n",
        b"same 1\n",
    );
}
