//! What a test has a link do, as a list of calls, and what each call tells.

use super::script::{Cue, scripted};
use super::transports::Record;
use std::alloc::Global;
use std::test::Fail;
use test_kit::log::row_tells;
use test_kit::message::{Arg, message, push, tell_bytes, tell_message};
use wl_link::{BufferedSocket, NumberMessage, Transport};
use wl_wire::{AllowNull, ArgumentType, IoFault, Message, MessageParseError, Token};

/// A call of a link.
#[derive(Clone, Copy)]
pub enum Act {
    /// Writes a message of this sender and opcode.
    Write((u32, u16), &'static [Arg]),
    /// Writes a message of so many descriptors, and of no bytes but its header.
    WriteDescriptors(usize),
    /// Writes two messages of one number each, if there is room for both.
    WriteNumbers(&'static [NumberMessage; 2]),
    /// Sends what waits.
    Flush,
    /// Receives once.
    Fill,
    /// Reads a message, of those that have a signature.
    Read,
    /// Reads, with no signature known for any message.
    ReadUnknown,
    /// Takes a message off, with so many tokens, if it is there to its end and they are there.
    Skip(usize),
    /// Receives so many times.
    FillEach(usize),
    /// Receives and reads so many times, and tells the messages that were there to their end.
    FillAndRead(usize),
    /// Sets the limit of the buffers, and tells nothing.
    SetLimit(Option<usize>),
    /// Takes the record of what each send took, and tells it.
    TakeSent,
    /// Tells what the link or its transport says.
    Tell(Fact),
}

/// What a link or its transport is asked.
#[derive(Clone, Copy)]
pub enum Fact {
    /// What was received and not read, and what was written and not sent: bytes and tokens.
    Waiting,
    /// The word after the first header, if it is all that follows.
    NextWord,
    /// The sizes of the incoming and the outgoing buffer.
    Storage,
    /// The bytes and tokens of each send that is recorded.
    Sent,
    /// How many bytes and tokens each of them took.
    SendSizes,
}

/// A string that may not be null.
const STR: ArgumentType = ArgumentType::Str(AllowNull::No);

/// A number and a string.
static TRAINS: [ArgumentType; 2] = [ArgumentType::Int, STR];

/// Two descriptors.
static TWO_FDS: [ArgumentType; 2] = [ArgumentType::Fd, ArgumentType::Fd];

/// A number and a descriptor.
static NUMBER_AND_FD: [ArgumentType; 2] = [ArgumentType::Uint, ArgumentType::Fd];

/// Some bytes.
static BYTES: [ArgumentType; 1] = [ArgumentType::Array];

/// More numbers than the arguments that lie in a message itself.
static FIVE_NUMBERS: [ArgumentType; 5] = [
    ArgumentType::Uint,
    ArgumentType::Uint,
    ArgumentType::Uint,
    ArgumentType::Uint,
    ArgumentType::Uint,
];

/// A number.
static NUMBER: [ArgumentType; 1] = [ArgumentType::Uint];

/// The signatures of the messages that are read.
fn signature(sender: u32, opcode: u16) -> Option<&'static [ArgumentType]> {
    match (sender, opcode) {
        (2, 0) => Some(&NUMBER),
        (_, 0) => Some(&TRAINS),
        (_, 1) => Some(&TWO_FDS),
        (_, 2) => Some(&NUMBER_AND_FD),
        (_, 3) => Some(&BYTES),
        (_, 4) => Some(&FIVE_NUMBERS),
        _ => None,
    }
}

/// Tells what a call answers.
fn tell_answer(log: &mut String, call: &str, answer: Result<(), IoFault>) -> Result<(), Fail> {
    let written = match answer {
        Ok(()) => writeln!(log, "{call}: done"),
        Err(fault) => writeln!(log, "{call}: {fault}"),
    };
    Ok(written?)
}

/// Writes the message of these arguments.
fn write<T: Transport>(
    log: &mut String,
    link: &mut BufferedSocket<T>,
    header: (u32, u16),
    args: &[Arg],
) -> Result<(), Fail> {
    let message = message(*log.allocator(), header, args)?;
    tell_answer(log, "write", link.write_message(&message))
}

/// A message of so many descriptors.
fn descriptors(alloc: Global, count: usize) -> Result<Message<u32, Token>, Fail> {
    let mut message = message(alloc, (42, 1), &[])?;
    for _ in 0..count {
        push(alloc, &mut message, Arg::Fd(7))?;
    }
    Ok(message)
}

/// Writes a message of so many descriptors.
fn write_descriptors<T: Transport>(
    log: &mut String,
    link: &mut BufferedSocket<T>,
    count: usize,
) -> Result<(), Fail> {
    let message = descriptors(*log.allocator(), count)?;
    tell_answer(log, "write", link.write_message(&message))
}

/// Writes the messages, if there is room for both.
fn write_numbers<T: Transport>(
    log: &mut String,
    link: &mut BufferedSocket<T>,
    messages: &[NumberMessage; 2],
) -> Result<(), Fail> {
    if !link.has_room(24) {
        return Ok(writeln!(log, "write numbers: no room")?);
    }
    link.write_numbers(messages);
    Ok(writeln!(log, "write numbers: done")?)
}

/// Sends what waits.
fn flush<T: Transport>(log: &mut String, link: &mut BufferedSocket<T>) -> Result<(), Fail> {
    tell_answer(log, "flush", link.flush())
}

/// Receives once.
fn fill<T: Transport>(log: &mut String, link: &mut BufferedSocket<T>) -> Result<(), Fail> {
    tell_answer(log, "receive", link.fill_incoming_buffers())
}

/// Receives so many times.
fn fill_each<T: Transport>(link: &mut BufferedSocket<T>, count: usize) -> Result<(), Fail> {
    for _ in 0..count {
        link.fill_incoming_buffers()?;
    }
    Ok(())
}

/// Tells the message, or why none was read.
fn tell_read(
    log: &mut String,
    read: &Result<Message<u32, Token>, MessageParseError>,
) -> Result<(), Fail> {
    write!(log, "read: ")?;
    match read {
        Ok(message) => tell_message(log, message)?,
        Err(error) => write!(log, "{error}")?,
    }
    Ok(writeln!(log, "")?)
}

/// Reads under the signatures of `signature`.
fn read<T>(log: &mut String, link: &mut BufferedSocket<T>) -> Result<(), Fail> {
    let read = link.read_one_message(|sender, opcode| signature(sender, opcode));
    tell_read(log, &read)
}

/// Reads, with no signature known for any message.
fn read_unknown<T>(log: &mut String, link: &mut BufferedSocket<T>) -> Result<(), Fail> {
    let read = link.read_one_message(|_, _| None);
    tell_read(log, &read)
}

/// Takes a message off, with so many tokens, if it is there to its end and they are there.
fn skip<T>(log: &mut String, link: &mut BufferedSocket<T>, tokens: usize) -> Result<(), Fail> {
    if link.front().is_none() || link.received_tokens().len() < tokens {
        return Ok(writeln!(log, "skip: none")?);
    }
    link.skip_message(tokens);
    Ok(writeln!(log, "skip: done")?)
}

/// Tells the message after the number of its receive, unless it is not there to its end.
fn tell_whole(
    log: &mut String,
    number: usize,
    read: &Result<Message<u32, Token>, MessageParseError>,
) -> Result<(), Fail> {
    if let Err(MessageParseError::MissingData) = read {
        return Ok(());
    }
    write!(log, "{number} ")?;
    tell_read(log, read)
}

/// Receives once and reads; after the number of the receive it tells a message that was there to its end.
fn fill_and_read<T: Transport>(
    log: &mut String,
    link: &mut BufferedSocket<T>,
    number: usize,
) -> Result<(), Fail> {
    link.fill_incoming_buffers()?;
    let read = link.read_one_message(|sender, opcode| signature(sender, opcode));
    tell_whole(log, number, &read)
}

/// Receives and reads so many times.
fn fill_and_read_each<T: Transport>(
    log: &mut String,
    link: &mut BufferedSocket<T>,
    count: usize,
) -> Result<(), Fail> {
    for number in 1..=count {
        fill_and_read(log, link, number)?;
    }
    Ok(())
}

/// Tells what waits on both sides.
fn waiting<T>(log: &mut String, link: &BufferedSocket<T>) -> Result<(), Fail> {
    let [bytes_in, tokens_in, bytes_out, tokens_out] = link.waiting();
    writeln!(
        log,
        "waiting: {bytes_in}, {tokens_in}, {bytes_out}, {tokens_out}"
    )?;
    Ok(())
}

/// Tells the word after the first header, if it is all that follows.
fn next_word<T>(log: &mut String, link: &BufferedSocket<T>) -> Result<(), Fail> {
    let written = match link.next_word() {
        Some(word) => writeln!(log, "next word: {word}"),
        None => writeln!(log, "next word: none"),
    };
    Ok(written?)
}

/// Tells the sizes of both buffers.
fn storage<T>(log: &mut String, link: &BufferedSocket<T>) -> Result<(), Fail> {
    let [incoming, outgoing] = link.storage();
    writeln!(log, "storage: {incoming}, {outgoing}")?;
    Ok(())
}

/// Tells the bytes and tokens of each send.
fn tell_sends(log: &mut String, sends: &[(Vec<u8>, Vec<Token>)]) -> Result<(), Fail> {
    writeln!(log, "{} sends", sends.len())?;
    for (bytes, tokens) in sends {
        tell_bytes(log, bytes, tokens)?;
        writeln!(log, "")?;
    }
    Ok(())
}

/// Tells how many bytes and tokens a send took.
fn tell_size(log: &mut String, bytes: usize, tokens: usize) -> Result<(), Fail> {
    Ok(write!(log, " {bytes} + {tokens}")?)
}

/// Tells how many bytes and tokens each send took.
fn tell_sizes(log: &mut String, sends: &[(Vec<u8>, Vec<Token>)]) -> Result<(), Fail> {
    write!(log, "sends:")?;
    for (bytes, tokens) in sends {
        tell_size(log, bytes.len(), tokens.len())?;
    }
    Ok(writeln!(log, "")?)
}

/// Tells the fact.
fn tell<T: Record>(log: &mut String, link: &BufferedSocket<T>, fact: Fact) -> Result<(), Fail> {
    match fact {
        Fact::Waiting => waiting(log, link),
        Fact::NextWord => next_word(log, link),
        Fact::Storage => storage(log, link),
        Fact::Sent => tell_sends(log, link.transport().sends()),
        Fact::SendSizes => tell_sizes(log, link.transport().sends()),
    }
}

/// Takes the record of the sends, and tells it.
fn take_sent<T: Record>(log: &mut String, link: &mut BufferedSocket<T>) -> Result<(), Fail> {
    let sends = link.transport_mut().take_sends(*log.allocator())?;
    tell_sends(log, &sends)
}

/// Makes the call, and tells its answer.
fn perform<T: Transport + Record>(
    log: &mut String,
    link: &mut BufferedSocket<T>,
    act: Act,
) -> Result<(), Fail> {
    match act {
        Act::Write(header, args) => write(log, link, header, args),
        Act::WriteDescriptors(count) => write_descriptors(log, link, count),
        Act::WriteNumbers(messages) => write_numbers(log, link, messages),
        Act::Flush => flush(log, link),
        Act::Fill => fill(log, link),
        Act::Read => read(log, link),
        Act::ReadUnknown => read_unknown(log, link),
        Act::Skip(tokens) => skip(log, link, tokens),
        Act::FillEach(count) => fill_each(link, count),
        Act::FillAndRead(count) => fill_and_read_each(log, link, count),
        Act::SetLimit(bytes) => {
            link.set_max_buffer_size(bytes);
            Ok(())
        }
        Act::TakeSent => take_sent(log, link),
        Act::Tell(fact) => tell(log, link, fact),
    }
}

/// Makes the calls, and tells their answers.
fn perform_all<T: Transport + Record>(
    log: &mut String,
    link: &mut BufferedSocket<T>,
    acts: &[Act],
) -> Result<(), Fail> {
    for act in acts {
        perform(log, link, *act)?;
    }
    Ok(())
}

/// Makes the calls of a new link with that limit over the transport, and answers the transport.
fn linked<T: Transport + Record + Drop>(
    log: &mut String,
    transport: T,
    limit: Option<usize>,
    acts: &[Act],
) -> Result<T, Fail> {
    let mut link = BufferedSocket::new(*log.allocator(), transport, limit)?;
    let answer = perform_all(log, &mut link, acts);
    let transport = link.into_transport();
    answer?;
    Ok(transport)
}

/// Tells the calls of a new link with that limit over the transport, and how many sends are recorded in the end.
fn tell_run<T: Transport + Record + Drop>(
    log: &mut String,
    transport: T,
    limit: Option<usize>,
    acts: &[Act],
) -> Result<(), Fail> {
    let transport = linked(log, transport, limit, acts)?;
    Ok(writeln!(log, "{} sends recorded", transport.sends().len())?)
}

/// What the calls of a new link with that limit over the transport tell, and how many sends are recorded in the end.
pub fn link_log<T: Transport + Record + Drop>(
    alloc: Global,
    transport: T,
    limit: Option<usize>,
    acts: &[Act],
) -> Result<String, Fail> {
    let mut log = String::new(alloc);
    tell_run(&mut log, transport, limit, acts)?;
    Ok(log)
}

/// Tells the calls of a script, and then those of a link over it as in `link_log`.
fn tell_script_run(
    log: &mut String,
    cues: &[Cue],
    limit: Option<usize>,
    acts: &[Act],
) -> Result<(), Fail> {
    let memory = scripted(log, cues)?;
    tell_run(log, memory, limit, acts)
}

/// What the calls of a script tell, and then those of a link over it as in `link_log`.
fn run_log(
    alloc: Global,
    cues: &[Cue],
    limit: Option<usize>,
    acts: &[Act],
) -> Result<String, Fail> {
    let mut log = String::new(alloc);
    tell_script_run(&mut log, cues, limit, acts)?;
    Ok(log)
}

/// A row of a table of runs: what a failing one is named, the calls of its script, the limit of its link and the calls of
/// that, and what they have to tell.
pub struct Row {
    pub name: &'static str,
    pub cues: &'static [Cue],
    pub limit: Option<usize>,
    pub acts: &'static [Act],
    pub told: &'static str,
}

/// Fails if a run tells something else than its row says.
pub fn rows_tell(rt: &(impl Eprint + AllocGlobal), rows: &[Row]) -> Result<(), Fail> {
    for row in rows {
        let log = run_log(rt.alloc(), row.cues, row.limit, row.acts);
        row_tells(rt, row.name, log, row.told)?;
    }
    Ok(())
}
