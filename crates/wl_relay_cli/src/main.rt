//! The program `wl-relay`: it stands between a Wayland client and a server, and hands on and logs what each of them sends.
//!
//! It reads the table of interfaces from its standard input, and then what came from each side, a line each. It writes the log
//! and what is to be sent. The program ends with status 0 at the end of its input; with 2 and `line <number>: bad line` or `bad
//! table: <fault>` on standard error; with 3 and `failed` there if memory, input or output failed.
//!
//! All of this is done by [`run`], of the library `wl_relay`, over the standard streams.
#![tactic(auto)]

use std::io;
use std::io::BufReader;
use std::process::ExitCode;
use wl_relay::{Stop, run, status, tell};

/// Runs the program over the standard streams.
fn run_over(rt: &(impl Input + Print + AllocGlobal)) -> Result<(), Stop> {
    let alloc = rt.alloc();
    let mut reader = BufReader::new(alloc, rt.reader())?;
    run(alloc, &mut reader, &mut io::writer(rt))
}

fn main(rt: HostRuntime) -> ExitCode {
    let ended = run_over(&rt);
    let mut errors = rt.stderr();
    let _ = tell(ended, &mut errors);
    ExitCode::from(status(ended))
}
