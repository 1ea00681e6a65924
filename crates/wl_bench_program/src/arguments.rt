//! Which program the arguments name.

ghost use Rattle.std.specs.Prelude.{MatchResult, map};
ghost use Rattle.std.specs.String.{string_bytes};
ghost use Rattle.std.specs.Vec.Iter.{into_iter_items};
ghost use Rattle.wl_bench.specs.Commands.{Finds};
ghost use Rattle.wl_bench_program.specs.Program.{Asks, AsksFor, AsksUnread, Names};

use std::env::Args;
use std::io;
use wl_bench::stop::Stop;

/// What the program can do.
#[derive(Clone, Copy, Debug, PartialEq, Eq)]
pub enum Program {
    /// Prints the first exchange of a client and a server.
    Sync,
    /// Carries out commands, and prints their answers.
    Run,
    /// Carries out commands, and prints each with its answer.
    Record,
    /// Compares a recording with the answers of today.
    Replay,
}

/// The program that a word names.
pub fn program_named(word: &str) -> Option<Program>
    ensures { Finds Names word.now result }
{
    match word {
        "sync" => Some(Program::Sync),
        "run" => Some(Program::Run),
        "record" => Some(Program::Record),
        "replay" => Some(Program::Replay),
        _ => None,
    }
}

/// The program that the arguments ask for: the name of this one, and one word.
fn asked_by(mut args: Args) -> Option<Program>
    ensures { Finds AsksFor (map string_bytes (into_iter_items args)) result }
{
    let _name = args.next()?;
    let word = args.next()?;
    if args.next().is_some() {
        return None;
    }
    program_named(word.as_str())
}

/// What the arguments ask for, the first of which is the name of this program. Arguments that are no text name no program.
pub fn asked(args: io::Result<Args>) -> Result<Program, Stop>
    ensures { MatchResult args (λ words. Asks (map string_bytes (into_iter_items words)) result) (λ error. AsksUnread error result) }
{
    match args {
        Ok(words) => asked_by(words).ok_or(Stop::Usage),
        Err(error) if error.kind() == io::ErrorKind::InvalidData => Err(Stop::Usage),
        Err(_) => Err(Stop::Failed),
    }
}
