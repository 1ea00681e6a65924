//! Replays recordings of `wl-bench`, as `wl-bench replay` does with one, and says which of them are the same today.
//!
//! The arguments name the files. For each file, in their order, a line on the standard output has its name and what its
//! recording comes to: `NAME: same <n>`, `NAME: differs at line <k>` or `NAME: line <k>: bad command`. The program ends with
//! status 0 if every recording is the same, with 1 if one differs or has a bad line, and with 3 and `failed` on the standard
//! error if memory, input or output failed; the files after that are not looked at.
#![tactic(auto)]

use std::io::BufReader;
use std::process::ExitCode;
use std::rt::{Env, Files};
use std::{env, fs, io};
use wl_replay::{Replayed, replay};
use wl_bench::stop::Stop;

/// Replays the recording in a file, and prints its line. Returns whether the recording is the same today.
fn replay_file(rt: &(impl Files + Print + AllocGlobal), name: &str) -> Result<bool, Stop> {
    let alloc = rt.alloc();
    let mut reader = BufReader::new(alloc, fs::open(rt, name)?)?;
    print!(rt; "{name}: ")?;
    // What `replay` writes is the rest of the line. It writes nothing of a recording with a bad line.
    match replay(alloc, &mut reader, &mut io::writer(rt)) {
        Ok(Replayed::Same(_)) => Ok(true),
        Ok(Replayed::Differs(_)) => Ok(false),
        Err(Stop::BadLine(place)) => {
            println!(rt; "line {place}: bad command")?;
            Ok(false)
        }
        Err(stop) => Err(stop),
    }
}

/// Replays the recordings in the files that the arguments name. Returns whether each is the same today.
fn run(rt: &(impl Env + Files + Print + AllocGlobal)) -> Result<bool, Stop> {
    let mut names = env::args(rt)?;
    let _program = names.next();
    let mut are_same = true;
    for name in names {
        are_same &= replay_file(rt, name.as_str())?;
    }
    Ok(are_same)
}

fn main(rt: HostRuntime) -> ExitCode {
    match run(&rt) {
        Ok(true) => ExitCode::SUCCESS,
        Ok(false) => ExitCode::from(1),
        Err(_) => {
            let _ = eprintln!(rt; "failed");
            ExitCode::from(3)
        }
    }
}
