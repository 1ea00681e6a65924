//! The program `wl-bench`.
//!
//! `wl-bench sync` prints the bytes that a fresh client sends for its first `wl_display.sync`, and those of the server's
//! answer, a line each. `wl-bench run` carries out the commands on its standard input, one a line, on a server, and prints
//! their answers. `wl-bench record` prints each command with its answer, and `wl-bench replay` compares such a recording
//! with the answers of today. The program ends with status 0; with 1 if a recording differs; with 2 and its usage on
//! standard error if the arguments are others; with 2 and `line <number>: bad command` there at the first bad line; with 3
//! and `failed` there if memory, input or output failed.
//!
//! All of this is done by [`perform`], of the library `wl_bench_program`, over the arguments and the standard streams.
#![tactic(auto)]

use std::process::ExitCode;
use std::{env, io};
use wl_bench_program::perform;

fn main(rt: HostRuntime) -> ExitCode {
    let args = env::args(&rt);
    let mut writer = io::writer(&rt);
    let mut errors = rt.stderr();
    let ended = perform(rt.alloc(), args, rt.reader(), &mut writer, &mut errors);
    ExitCode::from(ended.status)
}
