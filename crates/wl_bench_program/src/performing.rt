//! What the program does.

ghost use Rattle.std.specs.Prelude.{◌≡◌, IfOk, MatchResult, OnOk, Result, map};
ghost use Rattle.std.specs.Io.KnownBytes.{Appends};
ghost use Rattle.std.specs.String.{string_bytes};
ghost use Rattle.std.specs.Vec.Iter.{into_iter_items};
ghost use Rattle.wl_bench.specs.declared.stop.Stop.{Stop as Ends};
ghost use Rattle.wl_bench_program.specs.Program.{Asks, AsksUnread, Does, DoesAsked, Exchanges, end_of, exchange, status_of, told_of};
ghost use Rattle.wl_bench_program.specs.declared.arguments.Program.{Program as Asked};
ghost use Rattle.wl_bench_program.specs.declared.arguments.Program.TheVariants as program;

use crate::arguments::{Program, asked};
use crate::ending::{status, tell};
use std::alloc::Global;
use std::env::Args;
use std::io;
use std::io::{BufRead, BufReader, Read, Write};
use wl_bench::commands::{record, run_commands};
use wl_bench::hex::hex_line;
use wl_bench::stop::Stop;
use wl_bench::sync;
use wl_replay::{Replayed, replay};

/// How the program ended.
#[derive(Clone, Copy, Debug)]
pub struct Ended {
    /// Why it ended before its work was done, if it did.
    pub end: Result<(), Stop>,
    /// The exit status.
    pub status: u8,
    /// Whether standard error took the line that says why.
    pub told: io::Result<()>,
}

/// The first exchange of a client and a server as text, a line for each.
fn exchange(alloc: Global) -> Result<String, Stop>
    ensures { IfOk result (λ text. string_bytes text ≡ exchange) }
{
    let request = sync::request(alloc)?;
    let answer = sync::answer(alloc, request.as_slice())?;
    let asked = hex_line(alloc, request.as_slice())?;
    let answered = hex_line(alloc, answer.as_slice())?;
    Ok(format!(in alloc; "{asked}\n{answered}\n")?)
}

/// Writes the first exchange.
fn print_exchange<W: Write>(alloc: Global, writer: &mut W) -> Result<(), Stop>
    ensures { Exchanges result (W.contents writer.old) (W.contents writer.new) }
{
    let Ok(text) = exchange(alloc) else {
        return Err(Stop::Failed);
    };
    writer.write_all(text.as_bytes())?;
    Ok(writer.flush()?)
}

/// How the program ends after a replay.
fn end_of(replayed: Replayed) -> Result<(), Stop>
    ensures { result ≡ end_of replayed }
{
    match replayed {
        Replayed::Same(_) => Ok(()),
        Replayed::Differs(_) => Err(Stop::Differs),
    }
}

/// Replays the recording that is read.
fn replay_all<R: BufRead, W: Write>(
    alloc: Global,
    reader: &mut R,
    writer: &mut W,
) -> Result<(), Stop>
    ensures { Does program.Replay (R.remaining reader.old) result (W.contents writer.old) (W.contents writer.new) }
{
    match replay(alloc, reader, writer) {
        Ok(replayed) => end_of(replayed),
        Err(stop) => Err(stop),
    }
}

/// Does what was asked for, with what is read.
fn carry_out<R: Read + Drop, W: Write>(
    alloc: Global,
    program: Program,
    reader: R,
    writer: &mut W,
) -> Result<(), Stop>
    ensures { Does program (R.remaining reader) result (W.contents writer.old) (W.contents writer.new) }
{
    match program {
        Program::Sync => print_exchange(alloc, writer),
        Program::Run => run_commands(alloc, &mut BufReader::new(alloc, reader)?, writer),
        Program::Record => record(alloc, &mut BufReader::new(alloc, reader)?, writer),
        Program::Replay => replay_all(alloc, &mut BufReader::new(alloc, reader)?, writer),
    }
}

/// Does what the arguments ask for, if they ask for something.
fn carry_out_asked<R: Read + Drop, W: Write>(
    alloc: Global,
    asked: Result<Program, Stop>,
    reader: R,
    writer: &mut W,
) -> Result<(), Stop>
    ensures { DoesAsked asked (R.remaining reader) result (W.contents writer.old) (W.contents writer.new) }
{
    match asked {
        Ok(program) => carry_out(alloc, program, reader, writer),
        Err(stop) => Err(stop),
    }
}

/// Does what the arguments ask for, the first of which is the name of this program.
///
/// What is read is the input, and what is printed is written to `writer`, which is flushed after each command. A line that
/// says why the program ended is written to `errors`; that this failed changes nothing else. The exit status is 0; 1 if a
/// recording differs; 2 if the arguments ask for nothing, or a line is bad; 3 if memory, input or output failed.
pub fn perform<R: Read + Drop, W: Write, E: Write>(
    alloc: Global,
    args: io::Result<Args>,
    reader: R,
    writer: &mut W,
    errors: &mut E,
) -> Ended
    ensures does { (asked : Result Asked Ends)
        × MatchResult args (λ words. Asks (map string_bytes (into_iter_items words)) asked) (λ error. AsksUnread error asked)
        × DoesAsked asked (R.remaining reader) result.end (W.contents writer.old) (W.contents writer.new) }
    ensures status { result.status ≡ status_of result.end }
    ensures told { OnOk result.told (Appends (E.contents errors.old) (E.contents errors.new) (told_of result.end)) }
{
    let end = carry_out_asked(alloc, asked(args), reader, writer);
    Ended {
        end,
        status: status(end),
        told: tell(end, errors),
    }
}
