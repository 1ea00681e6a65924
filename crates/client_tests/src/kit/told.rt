//! What a client's calls answer, a line each.

use std::alloc::AllocError;
use std::fmt::{Display, Write};
use wl_client::{
    EventError, FinishRefused, Note, ObjectId, OpenEvent, Reply, RequestError, WaylandError,
};
use wl_wire::{Argument, CString, Message, Token};

/// Writes this word if something was done, or why not.
pub fn write_done<E: Display>(
    log: &mut String,
    word: &str,
    answer: &Result<(), E>,
) -> Result<(), AllocError> {
    match answer {
        Ok(()) => writeln!(log, "{word}"),
        Err(error) => writeln!(log, "{error}"),
    }
}

/// Writes a value after its name, or why there is none.
pub fn write_or<T: Display, E: Display>(
    log: &mut String,
    name: &str,
    answer: &Result<T, E>,
) -> Result<(), AllocError> {
    match answer {
        Ok(value) => writeln!(log, "{name} {value}"),
        Err(error) => writeln!(log, "{error}"),
    }
}

/// Writes the answer to a request: the number and the serial of what it made, or why it was refused.
pub fn write_sent(
    log: &mut String,
    answer: &Result<ObjectId, RequestError>,
) -> Result<(), AllocError> {
    match answer {
        Ok(id) => writeln!(log, "sent: {}, {}", id.protocol_id(), id.serial()),
        Err(error) => writeln!(log, "{error}"),
    }
}

/// Writes the object of an argument: its number, its serial and its interface.
fn write_object(log: &mut String, id: ObjectId) -> Result<(), AllocError> {
    let interface = id.interface();
    write!(
        log,
        " object {}, {}, {}",
        id.protocol_id(),
        id.serial(),
        interface.0
    )
}

/// Writes the object that an event makes: its number and its serial.
fn write_new(log: &mut String, id: ObjectId) -> Result<(), AllocError> {
    write!(log, " new {}, {}", id.protocol_id(), id.serial())
}

/// Writes a value after its name.
fn write_value(log: &mut String, name: &str, value: impl Display + Drop) -> Result<(), AllocError> {
    write!(log, "{name} {value}")
}

/// Writes the length of a string, or that there is none.
fn write_text(log: &mut String, text: &Option<CString>) -> Result<(), AllocError> {
    match text {
        Some(text) => write_value(log, " string of", text.as_bytes().len()),
        None => write!(log, " no string"),
    }
}

/// Writes an argument of an event.
fn write_argument(log: &mut String, arg: &Argument<ObjectId, Token>) -> Result<(), AllocError> {
    match arg {
        Argument::Uint(value) => write_value(log, "", *value),
        Argument::Int(value) | Argument::Fixed(value) => write_value(log, "", *value),
        Argument::NewId(id) => write_new(log, *id),
        Argument::Object(id) => write_object(log, *id),
        Argument::Str(text) => write_text(log, text),
        Argument::Array(bytes) => write_value(log, " bytes", bytes.as_slice().len()),
        Argument::Fd(token) => write_value(log, " descriptor", token.0),
    }
}

/// Writes an event: its sender, its opcode, and its arguments.
fn write_event(log: &mut String, event: &Message<ObjectId, Token>) -> Result<(), AllocError> {
    write!(
        log,
        "event {} of {}:",
        event.opcode,
        event.sender_id.protocol_id()
    )?;
    for arg in event.args.as_slice() {
        write_argument(log, arg)?;
    }
    writeln!(log)
}

/// Writes the answer to a reading: the event, or why there is none.
pub fn write_read(
    log: &mut String,
    answer: &Result<Message<ObjectId, Token>, EventError>,
) -> Result<(), AllocError> {
    match answer {
        Ok(event) => write_event(log, event),
        Err(error) => writeln!(log, "{error}"),
    }
}

/// Writes the event that is open: the number and the serial of its sender, whether it ends that, and the object that it made.
fn write_event_open(log: &mut String, event: &OpenEvent) -> Result<(), AllocError> {
    let sender = event.sender;
    write!(
        log,
        "open: of {}, {}",
        sender.protocol_id(),
        sender.serial()
    )?;
    if event.is_destructor {
        write!(log, " which ends")?;
    }
    if let Some(id) = event.created {
        write_new(log, id)?;
    }
    writeln!(log)
}

/// Writes the event that is open, or that none is.
pub fn write_open(log: &mut String, event: &Option<OpenEvent>) -> Result<(), AllocError> {
    match event {
        Some(event) => write_event_open(log, event),
        None => writeln!(log, "none open"),
    }
}

/// Writes the number and the serial of the object that a number holds, or that it holds none.
pub fn write_held(log: &mut String, held: &Option<ObjectId>) -> Result<(), AllocError> {
    match held {
        Some(id) => writeln!(log, "holds {}, {}", id.protocol_id(), id.serial()),
        None => writeln!(log, "holds none"),
    }
}

/// Writes the answer to the end of an event: or why not, and the data that come back.
pub fn write_finished(
    log: &mut String,
    answer: &Result<(), FinishRefused<u32>>,
) -> Result<(), AllocError> {
    match answer {
        Ok(()) => writeln!(log, "finished"),
        Err(refused) => match refused.user_data {
            Some(data) => writeln!(log, "{}, {data} is back", refused.error),
            None => writeln!(log, "{}", refused.error),
        },
    }
}

/// Writes what was destroyed: the number and the serial of each.
pub fn write_notes(log: &mut String, notes: &[Note]) -> Result<(), AllocError> {
    write!(log, "notes:")?;
    for note in notes {
        let Note::Destroyed(id) = note;
        write!(log, " {}, {}", id.protocol_id(), id.serial())?;
    }
    writeln!(log)
}

/// Writes the number and the serial of an object that left its number.
pub fn write_freed(log: &mut String, freed: Option<ObjectId>) -> Result<(), AllocError> {
    match freed {
        Some(id) => writeln!(log, "freed {}, {}", id.protocol_id(), id.serial()),
        None => writeln!(log, "none freed"),
    }
}

/// Writes bytes in hex.
fn write_bytes(log: &mut String, bytes: &[u8]) -> Result<(), AllocError> {
    for byte in bytes {
        write!(log, "{byte:02x}")?;
    }
    writeln!(log)
}

/// Writes what a send took: the descriptors, and the bytes.
fn write_parcel(log: &mut String, bytes: &[u8], tokens: &[Token]) -> Result<(), AllocError> {
    for token in tokens {
        write!(log, "descriptor {} with ", token.0)?;
    }
    write_bytes(log, bytes)
}

/// Writes what sends took, a line each.
pub fn write_taken(log: &mut String, sent: &[(Vec<u8>, Vec<Token>)]) -> Result<(), AllocError> {
    for (bytes, tokens) in sent {
        write_parcel(log, bytes, tokens)?;
    }
    Ok(())
}

/// Writes how many bytes and descriptors sends took, a line each.
pub fn write_lengths(log: &mut String, sent: &[(Vec<u8>, Vec<Token>)]) -> Result<(), AllocError> {
    for (bytes, tokens) in sent {
        writeln!(log, "{} bytes, {} descriptors", bytes.len(), tokens.len())?;
    }
    Ok(())
}

/// Writes the answer of the inner queue: how many were dispatched, or why none.
fn write_dispatched(
    log: &mut String,
    answer: &Result<usize, WaylandError>,
) -> Result<(), AllocError> {
    match answer {
        Ok(count) => writeln!(log, "{count} dispatched"),
        Err(error) => writeln!(log, "{error}"),
    }
}

/// Writes a reply.
pub fn write_reply(log: &mut String, reply: &Reply<u32>) -> Result<(), AllocError> {
    match reply {
        Reply::SetData(answer) => write_done(log, "done", answer),
        Reply::DestroyObject(answer) => write_done(log, "destroyed", answer),
        Reply::Reclaim(answer) => write_done(log, "reclaimed", answer),
        Reply::SendRequest(answer) => write_sent(log, answer),
        Reply::Flush(answer) => write_done(log, "flushed", answer),
        Reply::NextEvent(answer) => write_read(log, answer),
        Reply::FinishEvent(answer) => write_finished(log, answer),
        Reply::DispatchInnerQueue(answer) => write_dispatched(log, answer),
        Reply::Fail => writeln!(log, "failed"),
        Reply::SetMaxBufferSize => writeln!(log, "limit set"),
        Reply::PassOverUnknownSenders => writeln!(log, "passing over set"),
        Reply::TakeNotes(notes) => write_notes(log, notes.as_slice()),
        Reply::KeepFreed => writeln!(log, "keeping set"),
        Reply::NextFreed(freed) => write_freed(log, *freed),
        Reply::Arrive(answer) => write_done(log, "done", answer),
        Reply::ArriveFault(answer) | Reply::Accept(answer) | Reply::AcceptFault(answer) => {
            write_done(log, "done", answer)
        }
        Reply::TakeSent(sent) => write_taken(log, sent.as_slice()),
    }
}

/// Writes the replies of a run.
pub fn write_replies(log: &mut String, replies: &[Reply<u32>]) -> Result<(), AllocError> {
    for reply in replies {
        write_reply(log, reply)?;
    }
    Ok(())
}
