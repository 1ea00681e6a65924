//! Recordings: their commands are carried out again, and what is printed now is compared with what was printed then.

ghost use Rattle.std.specs.Prelude.{◌≡◌, ◌++◌, ◌∷◌, ◌↔◌, ℕ, [], Err, IfErr, IfOk, IfSome, IsTrue, MatchBool, MatchOption};
ghost use Rattle.std.specs.Io.KnownBytes.{Appends, Keeps};
ghost use Rattle.wl_bench.specs.Bench.{new_bench};
ghost use Rattle.wl_bench.specs.Commands.{Finds, IsNumber};
ghost use Rattle.wl_replay.specs.Inside.Comparing.{CarriesOut, EndsWith, GoesOn, IsBadAt, IsNumbered, IsWord, missing_in};
ghost use Rattle.wl_bench.specs.Record.{Recorded, fed, lines, quoted};
ghost use Rattle.wl_replay.specs.Replay.{IsAnother, IsNoCommand, IsOutput, Replays, verdict_text};
ghost use Rattle.wl_bench.specs.Table.{bench_rows};
ghost use Rattle.wl_bench.specs.declared.stop.Stop.TheVariants.{BadLine, Failed};

use wl_bench::bench::Bench;
use wl_bench::command::{Command, parse_line};
use wl_bench::commands::without_line_feed;
use wl_bench::stop::Stop;
use wl_bench::words::number;
use std::alloc::{AllocError, Global};
use std::io::{BufRead, Write};

/// The verdict of a replay.
#[derive(Clone, Copy, Debug, PartialEq, Eq)]
pub enum Replayed {
    /// The recording is the record of its own commands, and there are so many of them.
    Same(u64),
    /// This line, counted from 1, is the first in which it differs from that record. It is one past the last line if
    /// output is missing at the end.
    Differs(u64),
}

/// A comparison up to some line of the recording.
#[derive(Drop)]
struct Comparison {
    bench: Bench,
    /// The number of the last command, or 0.
    last: u32,
    /// How many commands were carried out.
    count: u64,
    /// What the last command printed, and how many of these lines were found in the recording.
    lines: Vec<String>,
    found: usize,
}

/// The parts of a line before and after its first space.
fn cut(line: &[u8]) -> Option<(&[u8], &[u8])>
    ensures { MatchOption result (IsWord line.now) (λ parts. (line.now ≡ parts.0.now ++ 32 ∷ parts.1.now) × IsWord parts.0.now) }
{
    let place = line.iter().position(|byte| *byte == b' ')?;
    Some((&line[..place], &line[place + 1..]))
}

/// The number that the bytes are, as text.
fn number_of(bytes: &[u8]) -> Option<u32>
    ensures { Finds IsNumber bytes.now result }
{
    let Ok(text) = str::from_utf8(bytes) else {
        return None;
    };
    number(text)
}

/// The number and the command of a line of a recording, if it has both.
fn numbered_command(alloc: Global, line: &[u8]) -> Result<Option<(u32, Command)>, AllocError>
    ensures { IfOk result (Finds IsNumbered line.now) }
{
    let Some((word, text)) = cut(line) else {
        return Ok(None);
    };
    let Some(number) = number_of(word) else {
        return Ok(None);
    };
    match parse_line(alloc, text)? {
        Some(command) => Ok(Some((number, command))),
        None => Ok(None),
    }
}

/// Whether the line of a recording is output.
fn is_output(line: &[u8]) -> bool
    ensures { IsTrue result ↔ IsOutput line.now }
{
    match line {
        [b'>', b' ', ..] => true,
        _ => false,
    }
}

/// Whether the line of a recording is this line of output.
fn is_quoted(line: &[u8], output: &str) -> bool
    ensures { IsTrue result ↔ (line.now ≡ quoted output.now) }
{
    match line.strip_prefix(b"> ") {
        Some(rest) => rest == output.as_bytes(),
        None => false,
    }
}

impl Comparison {
    /// A comparison before the first line.
    fn new(alloc: Global) -> Result<Self, Stop>
        ensures new { IfOk result (λ c. (c.bench ≡ new_bench bench_rows) × (c.last ≡ 0) × (c.count ≡ 0) × (missing_in c ≡ [])) }
        ensures failed { IfErr result (λ stop. stop ≡ Failed) }
    {
        Ok(Comparison {
            bench: Bench::new(alloc)?,
            last: 0,
            count: 0,
            lines: Vec::new(alloc),
            found: 0,
        })
    }

    /// Carries out the command of a line at which no output is missing. Returns `false` if the line is no command.
    fn command(&mut self, alloc: Global, line: &[u8]) -> Result<bool, Stop>
        ensures carries { IfOk result (λ is. MatchBool is ((t : Recorded) × CarriesOut self.old line.now t self.new) (IsNoCommand self.old.last self.old.bench line.now)) }
        ensures failed { IfErr result (λ stop. stop ≡ Failed) }
    {
        let Some((number, command)) = numbered_command(alloc, line)? else {
            return Ok(false);
        };
        if number <= self.last {
            return Ok(false);
        }
        let Some(lines) = self.bench.carry_out(alloc, command, u64::from(number))? else {
            return Ok(false);
        };
        let Some(count) = self.count.checked_add(1) else {
            return Err(Stop::Failed);
        };
        self.last = number;
        self.count = count;
        self.lines = lines;
        self.found = 0;
        Ok(true)
    }

    /// Looks at a line, which has this number. Returns whether the recording is the same so far.
    fn line(&mut self, alloc: Global, line: &[u8], place: u64) -> Result<bool, Stop>
        ensures goes { IfOk result (λ same. MatchBool same (GoesOn self.old line.now self.new) (IsAnother (missing_in self.old) line.now)) }
        ensures stops { IfErr result (IsBadAt self.old line.now place) }
    {
        if let Some(output) = self.lines.get(self.found) {
            let is_same = is_quoted(line, output.as_str());
            self.found += 1;
            return Ok(is_same);
        }
        if is_output(line) {
            return Ok(false);
        }
        if self.command(alloc, line)? {
            Ok(true)
        } else {
            Err(Stop::BadLine(place))
        }
    }

    /// The verdict at the end of the recording. The given number is the one after that of the last line.
    fn end(&self, place: u64) -> Replayed
        ensures { EndsWith self.now place result }
    {
        if self.found < self.lines.len() {
            Replayed::Differs(place)
        } else {
            Replayed::Same(self.count)
        }
    }

    /// Looks at the lines of a recording from its first on, up to the end, or to the first that differs or is bad.
    fn read<R: BufRead>(&mut self, alloc: Global, reader: &mut R) -> Result<Replayed, Stop>
        requires { (self.old.bench ≡ new_bench bench_rows) × (self.old.last ≡ 0) × (self.old.count ≡ 0) × (missing_in self.old ≡ []) }
        ensures { IfSome (R.remaining reader.old) (λ input. Replays (new_bench bench_rows) (lines input) result) }
    {
        let mut line = Vec::new(alloc);
        for place in 1..u64::MAX {
            line.clear();
            if reader.read_until(b'\n', &mut line)? == 0 {
                return Ok(self.end(place));
            }
            if !self.line(alloc, without_line_feed(line.as_slice()), place)? {
                return Ok(Replayed::Differs(place));
            }
        }
        Err(Stop::Failed)
    }
}

/// Looks at the lines of a recording up to the end, or to the first that differs or is bad.
fn replay_lines<R: BufRead>(alloc: Global, reader: &mut R) -> Result<Replayed, Stop>
    ensures { IfSome (R.remaining reader.old) (λ input. Replays (new_bench bench_rows) (lines input) result) }
{
    let mut comparison = Comparison::new(alloc)?;
    comparison.read(alloc, reader)
}

/// Replays the recording that is read, over a new server, writes the verdict as a line, and returns it.
///
/// A line that begins with `> ` is output. Any other line has a number from 1, without leading zeros and greater than the
/// one before, a space, and a command, which is carried out under that number. The lines are looked at in order:
///
/// - At the first line in which the recording differs from the record of its own commands, the verdict is `Differs`.
/// - At the first line that is no command, or names a slot at which no client was inserted, the error is `BadLine`, and
///   nothing is written. If output is missing there, it is a difference instead.
/// - The error is `Failed` if memory was refused, or the reader or the writer failed.
pub fn replay<R: BufRead, W: Write>(
    alloc: Global,
    reader: &mut R,
    writer: &mut W,
) -> Result<Replayed, Stop>
    ensures replays { IfSome (R.remaining reader.old) (λ input. Replays (new_bench bench_rows) (lines input) result) }
    ensures told { IfOk result (λ verdict. Appends (W.contents writer.old) (W.contents writer.new) (fed (verdict_text verdict))) }
    ensures kept { (place : ℕ) → result ≡ Err (BadLine place) → Keeps (W.contents writer.old) (W.contents writer.new) }
{
    let replayed = replay_lines(alloc, reader)?;
    match replayed {
        Replayed::Same(count) => writeln!(writer, "same {count}")?,
        Replayed::Differs(place) => writeln!(writer, "differs at line {place}")?,
    }
    writer.flush()?;
    Ok(replayed)
}
