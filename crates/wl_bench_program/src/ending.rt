//! The exit status, and what is told on standard error.

ghost use Rattle.std.specs.Prelude.{◌≡◌, OnOk};
ghost use Rattle.std.specs.Io.KnownBytes.{Appends};
ghost use Rattle.wl_bench_program.specs.Program.{status_of, told_of};

use std::io;
use std::io::Write;
use wl_bench::stop::Stop;

/// The exit status.
pub fn status(end: Result<(), Stop>) -> u8
    ensures { result ≡ status_of end }
{
    match end {
        Ok(()) => 0,
        Err(Stop::Differs) => 1,
        Err(Stop::Usage | Stop::BadLine(_)) => 2,
        Err(Stop::Failed) => 3,
    }
}

/// Writes the line that says why the program ended, if there is something to say.
pub fn tell<W: Write>(end: Result<(), Stop>, writer: &mut W) -> io::Result<()>
    ensures { OnOk result (Appends (W.contents writer.old) (W.contents writer.new) (told_of end)) }
{
    match end {
        Ok(()) | Err(Stop::Differs) => Ok(()),
        Err(Stop::Usage) => writeln!(writer, "usage: wl-bench sync | run | record | replay"),
        Err(Stop::BadLine(number)) => writeln!(writer, "line {number}: bad command"),
        Err(Stop::Failed) => writeln!(writer, "failed"),
    }
}
