//! Runs of commands: lines are read, carried out and answered, one after another.

ghost use Rattle.std.specs.Prelude.{◌≡◌, ◌++◌, IfErr, IfOk, IfSome, OnOk, ◌≢◌, map};
ghost use Rattle.std.specs.Io.BufRead.{strip_last};
ghost use Rattle.std.specs.String.{string_bytes};
ghost use Rattle.wl_bench.specs.Bench.{new_bench};
ghost use Rattle.wl_bench.specs.Record.{Answers, Runs, StopsAt, fed, lines, quoted, text_of, written_of};
ghost use Rattle.wl_bench.specs.Table.{bench_rows};
ghost use Rattle.wl_bench.specs.declared.commands.Form.TheVariants as shape;
ghost use Rattle.wl_bench.specs.declared.stop.Stop.TheVariants.{Failed};

use crate::bench::Bench;
use crate::command::parse_line;
use crate::stop::Stop;
use std::alloc::{AllocError, Global};
use std::io::{BufRead, Write};

/// What is written of each command.
#[derive(Clone, Copy, Debug)]
pub enum Form {
    /// The lines that it prints.
    Answers,
    /// Its number, a space and the command; and then the lines that it prints, each after `> `.
    Record,
}

/// A line without the line feed at its end.
pub fn without_line_feed(line: &[u8]) -> &[u8]
    ensures { result.now ≡ strip_last 10 line.now }
{
    match line {
        [front @ .., b'\n'] => front,
        _ => line,
    }
}

/// Appends a line to the text, after these characters and with its line feed.
fn push_line(text: &mut Vec<u8>, before: &str, line: &[u8]) -> Result<(), AllocError>
    ensures { OnOk result (text.new.items ≡ text.old.items ++ fed (before.now ++ line.now)) }
{
    text.extend_from_slice(before.as_bytes())?;
    text.extend_from_slice(line)?;
    Ok(text.push(b'\n')?)
}

/// Appends lines to the text.
fn push_lines(text: &mut Vec<u8>, lines: &[String]) -> Result<(), AllocError>
    ensures { OnOk result (text.new.items ≡ text.old.items ++ text_of (map string_bytes lines.now)) }
{
    for line in lines {
        push_line(text, "", line.as_bytes())?;
    }
    Ok(())
}

/// Appends lines to the text, each after `> `.
fn push_quoted(text: &mut Vec<u8>, lines: &[String]) -> Result<(), AllocError>
    ensures { OnOk result (text.new.items ≡ text.old.items ++ text_of (map quoted (map string_bytes lines.now))) }
{
    for line in lines {
        push_line(text, "> ", line.as_bytes())?;
    }
    Ok(())
}

/// What is written of a command: the lines that it printed, or its record.
fn written(
    alloc: Global,
    form: Form,
    number: u64,
    line: &[u8],
    answer: &[String],
) -> Result<Vec<u8>, AllocError>
    ensures { IfOk result (λ text. text.items ≡ text_of (written_of form (record { number = number; line = line.now; answer = map string_bytes answer.now }))) }
{
    let mut text = Vec::new(alloc);
    match form {
        Form::Answers => push_lines(&mut text, answer)?,
        Form::Record => {
            let before = format!(in alloc; "{number} ")?;
            push_line(&mut text, before.as_str(), line)?;
            push_quoted(&mut text, answer)?;
        }
    }
    Ok(text)
}

/// Carries out the command that a line is, and writes what is written of it. For an empty line nothing is done.
fn answer_line<W: Write>(
    alloc: Global,
    bench: &mut Bench,
    form: Form,
    number: u64,
    line: &[u8],
    writer: &mut W,
) -> Result<(), Stop>
    ensures answers { OnOk result (Answers form number bench.old line.now bench.new (W.contents writer.old) (W.contents writer.new)) }
    ensures stops { IfErr result (λ stop. StopsAt number bench.new line.now stop (W.contents writer.old) (W.contents writer.new)) }
    ensures same { IfErr result (λ stop. stop ≢ Failed → bench.new ≡ bench.old) }
{
    if line.is_empty() {
        return Ok(());
    }
    let Some(command) = parse_line(alloc, line)? else {
        return Err(Stop::BadLine(number));
    };
    let Some(answer) = bench.carry_out(alloc, command, number)? else {
        return Err(Stop::BadLine(number));
    };
    let text = written(alloc, form, number, line, answer.as_slice())?;
    writer.write_all(text.as_slice())?;
    Ok(writer.flush()?)
}

/// Carries out the commands of the lines up to the end of the input.
fn run_lines<R: BufRead, W: Write>(
    alloc: Global,
    bench: &mut Bench,
    form: Form,
    reader: &mut R,
    writer: &mut W,
) -> Result<(), Stop>
    ensures { IfSome (R.remaining reader.old) (λ input. Runs form 1 bench.old (lines input) result (W.contents writer.old) (W.contents writer.new)) }
{
    let mut line = Vec::new(alloc);
    for number in 1..u64::MAX {
        line.clear();
        if reader.read_until(b'\n', &mut line)? == 0 {
            return Ok(());
        }
        let front = without_line_feed(line.as_slice());
        answer_line(alloc, bench, form, number, front, writer)?;
    }
    Err(Stop::Failed)
}

/// Carries out the commands of the lines up to the end of the input, over a new server.
fn run_anew<R: BufRead, W: Write>(
    alloc: Global,
    form: Form,
    reader: &mut R,
    writer: &mut W,
) -> Result<(), Stop>
    ensures { IfSome (R.remaining reader.old) (λ input. Runs form 1 (new_bench bench_rows) (lines input) result (W.contents writer.old) (W.contents writer.new)) }
{
    let mut bench = Bench::new(alloc)?;
    let ended = run_lines(alloc, &mut bench, form, reader, writer);
    drop(bench);
    ended
}

/// Carries out the commands of the lines that are read, over a new server, and writes what each prints before the next
/// line is read; the writer is flushed after each command.
///
/// A line ends in a line feed, which the last one may lack. Empty lines are skipped, but count. A line is bad if it is no
/// command, or names a slot at which no client was inserted. At the first bad line the run ends with `BadLine` and its
/// number, from 1; the commands before it were carried out. It ends with `Failed` if memory was refused, or the reader or
/// the writer failed.
pub fn run_commands<R: BufRead, W: Write>(
    alloc: Global,
    reader: &mut R,
    writer: &mut W,
) -> Result<(), Stop>
    ensures { IfSome (R.remaining reader.old) (λ input. Runs shape.Answers 1 (new_bench bench_rows) (lines input) result (W.contents writer.old) (W.contents writer.new)) }
{
    run_anew(alloc, Form::Answers, reader, writer)
}

/// Carries out the commands of the lines that are read, as `run_commands` does, and writes the record of each: the number
/// of its line, a space and the command, and then each line that it prints, after `> `.
pub fn record<R: BufRead, W: Write>(
    alloc: Global,
    reader: &mut R,
    writer: &mut W,
) -> Result<(), Stop>
    ensures { IfSome (R.remaining reader.old) (λ input. Runs shape.Record 1 (new_bench bench_rows) (lines input) result (W.contents writer.old) (W.contents writer.new)) }
{
    run_anew(alloc, Form::Record, reader, writer)
}
