//! The program `wl-relay` over a reader and a writer: its lines, and what is written for each.

ghost use Rattle.std.specs.Prelude.{◌≡◌, ◌≢◌, ◌++◌, ◌∷◌, ◌<◌, ◌+◌, ℕ, [], suc, false, true, IfErr, IfOk, IfSome, List, MatchOption, MatchResult, OnErr, OnOk, Ok, map};
ghost use Rattle.std.specs.Io.BufRead.{strip_last};
ghost use Rattle.std.specs.Io.KnownBytes.{Appends, Keeps};
ghost use Rattle.std.specs.String.{string_bytes};
ghost use Rattle.wl_wire.specs.Table.{InterfaceRow, IsAcceptedTable, interface_rows};
ghost use Rattle.wl_link.specs.Exchange.{Queue};
ghost use Rattle.wl_relay.specs.Flow.{RelayState, TakesLog, TakesOut};
ghost use Rattle.wl_relay.specs.Input.{Line, fed, lines, text_of};
ghost use Rattle.wl_relay.specs.Inside.Gathering.{FindsArrival, came_of};
ghost use Rattle.wl_relay.specs.Inside.Reading.{FindsTable, HasNoLine, ReadsLine, StopsInTable};
ghost use Rattle.wl_relay.specs.Program as spec;
ghost use Rattle.wl_relay.specs.Words.{Finds, hex, spoken, words};
ghost use Rattle.wl_relay.specs.declared.stop.Stop.TheVariants.{Failed};

use crate::mode::Mode;
use crate::relay::{ArriveError, Relay};
use crate::rows::add_row;
use crate::stop::Stop;
use crate::words::{bytes, tokens, words_of};
use std::alloc::{AllocError, Global};
use std::io::{BufRead, Write};
use wl_follow::Side;
use wl_wire::{Interface, Protocol, Token};

/// Appends bytes to a line, as the input has them.
fn push_bytes(line: &mut String, bytes: &[u8]) -> Result<(), AllocError>
    ensures { OnOk result (string_bytes line.new ≡ string_bytes line.old ++ hex bytes.now) }
{
    for byte in bytes {
        write!(line, "{byte:02x}")?;
    }
    Ok(())
}

/// Appends tokens to a line, as the input has them.
fn push_tokens(line: &mut String, tokens: &[Token]) -> Result<(), AllocError>
    ensures { OnOk result (string_bytes line.new ≡ string_bytes line.old ++ spec.tokens_text tokens.now) }
{
    let Some((first, rest)) = tokens.split_first() else {
        return line.push_str("-");
    };
    write!(line, "{}", first.0)?;
    for token in rest {
        write!(line, ",{}", token.0)?;
    }
    Ok(())
}

/// The line of what is to be sent to a side.
fn sent_line(
    alloc: Global,
    side: Side,
    bytes: &[u8],
    tokens: &[Token],
) -> Result<String, AllocError>
    ensures { IfOk result (λ line. string_bytes line ≡ fed (spec.sent_line side (record { bytes = bytes.now; tokens = tokens.now }))) }
{
    let mut line = format!(in alloc; "to {} ", side.name())?;
    push_bytes(&mut line, bytes)?;
    line.push_str(" ")?;
    push_tokens(&mut line, tokens)?;
    line.push_str("\n")?;
    Ok(line)
}

/// Writes what was taken out for a side, but not in a log.
fn write_sent<W: Write>(
    alloc: Global,
    mode: Mode,
    side: Side,
    bytes: &[u8],
    tokens: &[Token],
    writer: &mut W,
) -> Result<(), Stop>
    ensures written { OnOk result (Appends (W.contents writer.old) (W.contents writer.new)
        (text_of (spec.sent_lines mode side (record { bytes = bytes.now; tokens = tokens.now } ∷ [])))) }
    ensures failed { IfErr result (λ stop. stop ≡ Failed) }
{
    match mode {
        Mode::Log => Ok(()),
        Mode::HandOn => {
            let line = sent_line(alloc, side, bytes, tokens)?;
            Ok(writer.write_all(line.as_bytes())?)
        }
    }
}

/// Takes out the next that is to be sent to a side, and writes it, but not in a log. Answers whether there was something.
fn write_send<W: Write>(
    alloc: Global,
    relay: &mut Relay,
    mode: Mode,
    side: Side,
    writer: &mut W,
) -> Result<bool, Stop>
    ensures sent { result ≡ Ok true → (q : Queue) × TakesOut side q relay.old relay.new
        × Appends (W.contents writer.old) (W.contents writer.new) (text_of (spec.sent_lines mode side (q ∷ []))) }
    ensures none { result ≡ Ok false → spec.SentAll side relay.old × (relay.new ≡ relay.old) × Keeps (W.contents writer.old) (W.contents writer.new) }
    ensures failed { IfErr result (λ stop. stop ≡ Failed) }
{
    let Some((bytes, tokens)) = relay.next_send(alloc, side)? else {
        return Ok(false);
    };
    write_sent(
        alloc,
        mode,
        side,
        bytes.as_slice(),
        tokens.as_slice(),
        writer,
    )?;
    Ok(true)
}

/// Takes out all that is to be sent to a side, and writes it, a line for each send; in a log it is not written.
fn write_sends<W: Write>(
    alloc: Global,
    relay: &mut Relay,
    mode: Mode,
    side: Side,
    writer: &mut W,
) -> Result<(), Stop>
    ensures sent { OnOk result ((sends : List Queue) × spec.TakesEach side sends relay.old relay.new
        × Appends (W.contents writer.old) (W.contents writer.new) (text_of (spec.sent_lines mode side sends))) }
    ensures all { OnOk result (spec.SentAll side relay.new) }
    ensures failed { IfErr result (λ stop. stop ≡ Failed) }
{
    while write_send(alloc, relay, mode, side, writer)? {}
    Ok(())
}

/// Writes lines of the log.
fn write_lines<W: Write>(lines: &[String], writer: &mut W) -> Result<(), Stop>
    ensures written { OnOk result (Appends (W.contents writer.old) (W.contents writer.new)
        (text_of (map spec.logged_line (map string_bytes lines.now)))) }
    ensures failed { IfErr result (λ stop. stop ≡ Failed) }
{
    for line in lines {
        writeln!(writer, "log {line}")?;
    }
    Ok(())
}

/// Takes the lines of the log out, and writes them.
fn write_log<W: Write>(alloc: Global, relay: &mut Relay, writer: &mut W) -> Result<(), Stop>
    ensures written { OnOk result ((log : List (List ℕ)) × TakesLog log relay.old relay.new
        × Appends (W.contents writer.old) (W.contents writer.new) (text_of (map spec.logged_line log))) }
    ensures failed { IfErr result (λ stop. stop ≡ Failed) }
{
    let log = relay.take_log(alloc);
    write_lines(log.as_slice(), writer)
}

/// What came from a side.
#[derive(Drop)]
struct Arrival {
    side: Side,
    bytes: Vec<u8>,
    tokens: Vec<Token>,
}

/// The side that a word names.
fn side_of(word: &str) -> Option<Side>
    ensures { Finds spec.NamesSide word.now result }
{
    match word {
        "client" => Some(Side::Client),
        "server" => Some(Side::Server),
        _ => None,
    }
}

/// What the words of a line say that came; `None` if they say nothing of the kind.
fn arrival_of(alloc: Global, words: &[&str]) -> Result<Option<Arrival>, AllocError>
    ensures { IfOk result (FindsArrival (λ side came. spec.SayCame side came (spoken words.now))) }
{
    let [side, came, beside] = *words else {
        return Ok(None);
    };
    let Some(side) = side_of(side) else {
        return Ok(None);
    };
    let Some(bytes) = bytes(alloc, came)? else {
        return Ok(None);
    };
    match tokens(alloc, beside)? {
        Some(tokens) => Ok(Some(Arrival {
            side,
            bytes,
            tokens,
        })),
        None => Ok(None),
    }
}

/// What a line says that came; `None` if it says nothing of the kind.
fn parse_line(alloc: Global, line: &[u8]) -> Result<Option<Arrival>, AllocError>
    ensures { IfOk result (FindsArrival (λ side came. spec.IsArrival side came line.now)) }
{
    let Ok(text) = str::from_utf8(line) else {
        return Ok(None);
    };
    let words = words_of(alloc, text)?;
    arrival_of(alloc, words.as_slice())
}

/// Writes the answer to what came: the log, what is to be sent, and `ok`.
fn write_answer<W: Write>(
    alloc: Global,
    relay: &mut Relay,
    mode: Mode,
    writer: &mut W,
) -> Result<(), Stop>
    requires { spec.HasNoneReady relay.old }
    ensures written { OnOk result ((out : List Line) × spec.Serves mode relay.old out relay.new
        × Appends (W.contents writer.old) (W.contents writer.new) (text_of out)) }
    ensures failed { IfErr result (λ stop. stop ≡ Failed) }
{
    write_log(alloc, relay, writer)?;
    write_sends(alloc, relay, mode, Side::Server, writer)?;
    write_sends(alloc, relay, mode, Side::Client, writer)?;
    writer.write_all(b"ok\n")?;
    Ok(writer.flush()?)
}

/// Hands what came to the relay, and writes the answer. Answers whether the relay took it.
fn carry_out<W: Write>(
    alloc: Global,
    relay: &mut Relay,
    mode: Mode,
    arrival: &Arrival,
    writer: &mut W,
) -> Result<bool, Stop>
    requires { spec.HasNoneReady relay.old }
    ensures answered { result ≡ Ok true → (out : List Line)
        × spec.AnswersTo mode arrival.now.side (came_of arrival.now) relay.old out relay.new
        × Appends (W.contents writer.old) (W.contents writer.new) (text_of out) }
    ensures too_many { result ≡ Ok false → spec.IsTooMany relay.old arrival.now.side (came_of arrival.now) }
    ensures kept { result ≡ Ok false → (relay.new ≡ relay.old) × Keeps (W.contents writer.old) (W.contents writer.new) }
    ensures failed { IfErr result (λ stop. stop ≡ Failed) }
{
    let (bytes, tokens) = (arrival.bytes.as_slice(), arrival.tokens.as_slice());
    match relay.arrive(arrival.side, bytes, tokens) {
        Ok(()) => {}
        Err(ArriveError::TooManyTokens) => return Ok(false),
        Err(ArriveError::OutOfMemory) => return Err(Stop::Failed),
    }
    write_answer(alloc, relay, mode, writer)?;
    Ok(true)
}

/// Carries out a line, and writes the answer. Answers whether it is one that says what came, and no more than the relay takes.
fn answer_line<W: Write>(
    alloc: Global,
    relay: &mut Relay,
    mode: Mode,
    line: &[u8],
    writer: &mut W,
) -> Result<bool, Stop>
    requires { spec.HasNoneReady relay.old }
    ensures answered { result ≡ Ok true → (out : List Line) × spec.Answered mode relay.old line.now out relay.new
        × Appends (W.contents writer.old) (W.contents writer.new) (text_of out) }
    ensures bad { result ≡ Ok false → spec.IsBad relay.old line.now }
    ensures kept { result ≡ Ok false → (relay.new ≡ relay.old) × Keeps (W.contents writer.old) (W.contents writer.new) }
    ensures failed { IfErr result (λ stop. stop ≡ Failed) }
{
    match parse_line(alloc, line)? {
        Some(arrival) => carry_out(alloc, relay, mode, &arrival, writer),
        None => Ok(false),
    }
}

/// A line without the line feed at its end.
fn without_line_feed(line: &[u8]) -> &[u8]
    ensures { result.now ≡ strip_last 10 line.now }
{
    match line {
        [front @ .., b'\n'] => front,
        _ => line,
    }
}

/// Reads a line into the buffer, with its line feed. Answers whether there was one.
fn read_line<R: BufRead>(reader: &mut R, line: &mut Vec<u8>) -> Result<bool, Stop>
    ensures read { result ≡ Ok true → ReadsLine (R.remaining reader.old) (strip_last 10 line.new.items) (R.remaining reader.new) }
    ensures none { result ≡ Ok false → HasNoLine (R.remaining reader.old) }
    ensures failed { IfErr result (λ stop. stop ≡ Failed) }
{
    line.clear();
    Ok(reader.read_until(b'\n', line)? != 0)
}

/// What the line after the last row of a table says.
fn mode_of(line: &[u8]) -> Option<Mode>
    ensures { Finds spec.EndsTable line.now result }
{
    match line {
        b"relay" => Some(Mode::HandOn),
        b"log" => Some(Mode::Log),
        _ => None,
    }
}

/// Carries out a row of the table. Answers whether the line is one.
fn row_line(alloc: Global, interfaces: &mut Vec<Interface>, line: &[u8]) -> Result<bool, AllocError>
    ensures added { result ≡ Ok true → spec.IsRow (interface_rows interfaces.old.items) line.now (interface_rows interfaces.new.items) }
    ensures none { result ≡ Ok false → (rows : List InterfaceRow) → ¬ (spec.IsRow (interface_rows interfaces.old.items) line.now rows) }
    ensures kept { result ≡ Ok false → interfaces.new ≡ interfaces.old }
{
    let Ok(text) = str::from_utf8(line) else {
        return Ok(false);
    };
    let words = words_of(alloc, text)?;
    add_row(alloc, interfaces, words.as_slice())
}

/// Reads the rows up to the line `relay` or `log`, and answers the number of that line, and what it says.
fn read_rows<R: BufRead>(
    alloc: Global,
    reader: &mut R,
    interfaces: &mut Vec<Interface>,
) -> Result<(u64, Mode), Stop>
    requires { interfaces.old.items ≡ [] }
    ensures found { IfOk result (λ found. FindsTable (R.remaining reader.old) found.0 found.1 (interface_rows interfaces.new.items) (R.remaining reader.new)) }
    ensures number { IfOk result (λ found. found.0 < 18446744073709551615) }
    ensures stops { IfErr result (StopsInTable (R.remaining reader.old)) }
{
    let mut line = Vec::new(alloc);
    for number in 1..u64::MAX {
        if !read_line(reader, &mut line)? {
            return Err(Stop::BadLine(number));
        }
        let front = without_line_feed(line.as_slice());
        if let Some(mode) = mode_of(front) {
            return Ok((number, mode));
        }
        if !row_line(alloc, interfaces, front)? {
            return Err(Stop::BadLine(number));
        }
    }
    Err(Stop::Failed)
}

/// Reads the table, and answers the number of the line after its last row, what that line says, and the table.
fn read_table<R: BufRead>(alloc: Global, reader: &mut R) -> Result<(u64, Mode, Protocol), Stop>
    ensures found { IfOk result (λ found. (rows : List InterfaceRow) × (found.2 ≡ spec.table_with rows)
        × FindsTable (R.remaining reader.old) found.0 found.1 rows (R.remaining reader.new)) }
    ensures accepted { IfOk result (λ found. IsAcceptedTable found.2) }
    ensures number { IfOk result (λ found. found.0 < 18446744073709551615) }
    ensures stops { IfErr result (StopsInTable (R.remaining reader.old)) }
{
    let mut interfaces = Vec::new(alloc);
    let (number, mode) = read_rows(alloc, reader, &mut interfaces)?;
    Ok((number, mode, Protocol::new(alloc, interfaces)?))
}

/// Carries out the lines after the table, which has so many lines.
fn run_lines<R: BufRead, W: Write>(
    alloc: Global,
    relay: &mut Relay,
    mode: Mode,
    before: u64,
    reader: &mut R,
    writer: &mut W,
) -> Result<(), Stop>
    requires ready { spec.HasNoneReady relay.old }
    requires few { before < 18446744073709551615 }
    ensures { IfSome (R.remaining reader.old) (λ input. spec.RunsLines mode (suc before) relay.old (lines input) result (W.contents writer.old) (W.contents writer.new)) }
{
    let mut line = Vec::new(alloc);
    for number in before + 1..u64::MAX {
        if !read_line(reader, &mut line)? {
            return Ok(());
        }
        let front = without_line_feed(line.as_slice());
        if !answer_line(alloc, relay, mode, front, writer)? {
            return Err(Stop::BadLine(number));
        }
    }
    Err(Stop::Failed)
}

/// Reads the table, and then carries out each line: what came from a side goes to the relay, and the log and what is to be sent
/// are written. After each line the writer is flushed, and nothing is left to be sent to either side.
///
/// A line ends in a line feed, which the last one may lack. At the first bad line the run ends with `BadLine` and its number, from 1;
/// the lines before it were answered. A table without an end has its bad line after its last one. The run ends with `Failed` if
/// memory was refused, or the reader or the writer failed.
pub fn run<R: BufRead, W: Write>(alloc: Global, reader: &mut R, writer: &mut W) -> Result<(), Stop>
    ensures { IfSome (R.remaining reader.old) (λ input. spec.Runs (lines input) result (W.contents writer.old) (W.contents writer.new)) }
{
    let (before, mode, table) = read_table(alloc, reader)?;
    let mut relay = Relay::new(alloc, table, mode)?;
    let ended = run_lines(alloc, &mut relay, mode, before, reader, writer);
    drop(relay);
    ended
}

/// The exit status of the program.
pub fn status(ended: Result<(), Stop>) -> u8
    ensures { result ≡ spec.status_of ended }
{
    match ended {
        Ok(()) => 0,
        Err(Stop::BadLine(_) | Stop::BadTable(_)) => 2,
        Err(Stop::Failed) => 3,
    }
}

/// Tells why the program ended before its input did.
pub fn tell<W: Write>(ended: Result<(), Stop>, errors: &mut W) -> Result<(), Stop>
    ensures told { OnOk result (spec.Tells ended (W.contents errors.old) (W.contents errors.new)) }
    ensures failed { IfErr result (λ stop. stop ≡ Failed) }
{
    match ended {
        Ok(()) => {}
        Err(Stop::BadLine(number)) => writeln!(errors, "line {number}: bad line")?,
        Err(Stop::BadTable(fault)) => writeln!(errors, "bad table: {fault}")?,
        Err(Stop::Failed) => writeln!(errors, "failed")?,
    }
    Ok(())
}
