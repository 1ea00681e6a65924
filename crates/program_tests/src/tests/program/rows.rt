//! What the program comes to, by its arguments and its input.

use super::process::{Words, arguments};
use crate::tests::log;
use std::alloc::Global;
use std::env::Args;
use std::io;
use std::test::Fail;
use test_kit::log::row_tells;
use wl_bench_program::perform;

/// A run of the program: what a failing one is named, its arguments, its input, and what comes of it.
struct Row {
    name: &'static str,
    args: Words,
    input: &'static [u8],
    told: &'static str,
}

/// What is told of other arguments than the program takes.
const USAGE: &str = "[usage: wl-bench sync | run | record | replay\n] 2";

/// What `wl-bench sync` prints: a client's `wl_display.sync` with the new object 2; and from the server, `done` of that
/// callback, and `delete_id` of its number.
const EXCHANGE: &str = "01 00 00 00 00 00 0c 00 02 00 00 00
02 00 00 00 00 00 0c 00 00 00 00 00 01 00 00 00 01 00 0c 00 02 00 00 00
[] 0";

/// Runs of each command, by how they end.
static ROWS: [Row; 13] = [
    Row {
        name: "sync",
        args: &[b"wl-bench", b"sync"],
        input: b"",
        told: EXCHANGE,
    },
    Row {
        name: "sync under another name, with an input",
        args: &[b"run", b"sync"],
        input: b"client\n",
        told: EXCHANGE,
    },
    Row {
        name: "run",
        args: &[b"wl-bench", b"run"],
        input: b"client\n\nread 0\n",
        told: "client 0 1\nfault WouldBlock\n[] 0",
    },
    Row {
        name: "run of nothing",
        args: &[b"wl-bench", b"run"],
        input: b"",
        told: "[] 0",
    },
    Row {
        name: "run of a bad line",
        args: &[b"wl-bench", b"run"],
        input: b"client\n\nquit\nclient\n",
        told: "client 0 1\n[line 3: bad command\n] 2",
    },
    Row {
        name: "record",
        args: &[b"wl-bench", b"record"],
        input: b"client\n\nread 0\n",
        told: "1 client\n> client 0 1\n3 read 0\n> fault WouldBlock\n[] 0",
    },
    Row {
        name: "record of a bad line",
        args: &[b"wl-bench", b"record"],
        input: b"client\nread 1\nclient\n",
        told: "1 client\n> client 0 1\n[line 2: bad command\n] 2",
    },
    Row {
        name: "replay of the same",
        args: &[b"wl-bench", b"replay"],
        input: b"1 client\n> client 0 1\n3 read 0\n> fault WouldBlock\n",
        told: "same 2\n[] 0",
    },
    Row {
        name: "replay of nothing",
        args: &[b"wl-bench", b"replay"],
        input: b"",
        told: "same 0\n[] 0",
    },
    Row {
        name: "replay of another output",
        args: &[b"wl-bench", b"replay"],
        input: b"1 client\n> client 1 1\n",
        told: "differs at line 2\n[] 1",
    },
    Row {
        name: "replay of an output too few",
        args: &[b"wl-bench", b"replay"],
        input: b"1 client\n> client 0 1\n2 client\n",
        told: "differs at line 4\n[] 1",
    },
    Row {
        name: "replay of a bad line",
        args: &[b"wl-bench", b"replay"],
        input: b"1 client\n> client 0 1\nclient\n",
        told: "[line 3: bad command\n] 2",
    },
    Row {
        name: "replay of what is no recording",
        args: &[b"wl-bench", b"replay"],
        input: b"client\n",
        told: "[line 1: bad command\n] 2",
    },
];

/// Arguments that ask for nothing, or are no text.
static OTHERS: [Words; 16] = [
    &[],
    &[b"wl-bench"],
    &[b"sync"],
    &[b"wl-bench", b""],
    &[b"wl-bench", b"Sync"],
    &[b"wl-bench", b"sync "],
    &[b"wl-bench", b"synchronize"],
    &[b"wl-bench", b"help"],
    &[b"wl-bench", b"--help"],
    &[b"wl-bench", b"sync", b"run"],
    &[b"wl-bench", b"run", b"run"],
    &[b"wl-bench", b"record", b""],
    &[b"wl-bench", b"wl-bench", b"replay"],
    &[b"wl-bench", b"\xff"],
    &[b"\xff", b"run"],
    &[b"wl-bench", b"run", b"\xe2\x82"],
];

/// What comes of these arguments and this input.
fn performed(alloc: Global, args: io::Result<Args>, input: &[u8]) -> Result<String, Fail> {
    let mut printed = Vec::new(alloc);
    let mut told = Vec::new(alloc);
    let ended = perform(alloc, args, input, &mut printed, &mut told);
    log(printed, told, ended.status)
}

/// Each run prints, tells and ends with what it has to.
#[test]
fn rows(rt: HostRuntime) -> Result<(), Fail> {
    for row in &ROWS {
        let told = performed(rt.alloc(), arguments(rt.alloc(), row.args), row.input);
        row_tells(&rt, row.name, told, row.told)?;
    }
    Ok(())
}

/// Other arguments end with the usage, and nothing is printed.
#[test]
fn other_arguments(rt: HostRuntime) -> Result<(), Fail> {
    for words in &OTHERS {
        let told = performed(rt.alloc(), arguments(rt.alloc(), words), b"client\n");
        row_tells(&rt, "other arguments", told, USAGE)?;
    }
    Ok(())
}

/// Why arguments could not be read, and what comes of that.
static UNREAD: [(io::ErrorKind, &str); 4] = [
    (io::ErrorKind::InvalidData, USAGE),
    (io::ErrorKind::OutOfMemory, "[failed\n] 3"),
    (io::ErrorKind::NotFound, "[failed\n] 3"),
    (io::ErrorKind::Other, "[failed\n] 3"),
];

/// Arguments that are no text end with the usage, and all others that cannot be read as failed.
#[test]
fn unread_arguments(rt: HostRuntime) -> Result<(), Fail> {
    for (kind, text) in &UNREAD {
        let args = Err(io::Error::from(*kind));
        let told = performed(rt.alloc(), args, b"client\n");
        row_tells(&rt, "unread arguments", told, text)?;
    }
    Ok(())
}
