//! What a server's calls answer, a line each.

use std::fmt::{Display, Write};
use std::test::Fail;
use test_kit::message::tell_bytes;
use wl_link::Memory;
use wl_server::{
    Action, ActionError, ClientId, DisconnectReason, FinishRefused, GlobalError, GlobalId,
    InsertClientError, Note, ObjectId, Reading, Reply,
};
use wl_wire::{Argument, OutOfMemory, Token};

/// Tells whether something was done, or why not.
pub fn done<E: Display>(log: &mut String, answer: &Result<(), E>) -> Result<(), Fail> {
    match answer {
        Ok(()) => writeln!(log, "done")?,
        Err(error) => writeln!(log, "{error}")?,
    }
    Ok(())
}

/// Tells a client: its slot and its serial.
fn client(log: &mut String, id: ClientId) -> Result<(), Fail> {
    Ok(write!(log, "{}, {}", id.slot(), id.serial())?)
}

/// Tells an object: its number, its serial, its interface and the slot of its client.
pub fn object(log: &mut String, id: ObjectId) -> Result<(), Fail> {
    let interface = id.interface();
    let client = id.client();
    Ok(write!(
        log,
        "{}, {}, {} of {}",
        id.protocol_id(),
        id.serial(),
        interface.0,
        client.slot()
    )?)
}

/// Tells the client that was inserted, or why none was.
fn inserted(log: &mut String, answer: &Result<ClientId, InsertClientError>) -> Result<(), Fail> {
    match answer {
        Ok(id) => writeln!(log, "client {}, {}", id.slot(), id.serial())?,
        Err(error) => writeln!(log, "{error}")?,
    }
    Ok(())
}

/// Tells the object that was created, or why none was.
fn created<E: Display>(log: &mut String, answer: &Result<ObjectId, E>) -> Result<(), Fail> {
    match answer {
        Ok(id) => {
            write!(log, "created ")?;
            object(log, *id)?;
            writeln!(log)?;
        }
        Err(error) => writeln!(log, "{error}")?,
    }
    Ok(())
}

/// Tells the global that was created, or why none was.
fn global(log: &mut String, answer: &Result<GlobalId, GlobalError>) -> Result<(), Fail> {
    match answer {
        Ok(id) => writeln!(log, "global {}, {}", id.name(), id.serial())?,
        Err(error) => writeln!(log, "{error}")?,
    }
    Ok(())
}

/// Tells an object after this.
fn named(log: &mut String, before: &str, id: ObjectId) -> Result<(), Fail> {
    write!(log, "{before}")?;
    object(log, id)
}

/// Tells a string by its length.
fn string(log: &mut String, text: Option<usize>) -> Result<(), Fail> {
    match text {
        Some(len) => Ok(write!(log, ": string of {len}")?),
        None => Ok(write!(log, ": no string")?),
    }
}

/// Tells an argument that is a number or a descriptor.
fn number(log: &mut String, arg: &Argument<ObjectId, Token>) -> Result<(), Fail> {
    match arg {
        Argument::Int(value) | Argument::Fixed(value) => Ok(write!(log, ": {value}")?),
        Argument::Uint(value) => Ok(write!(log, ": {value}")?),
        Argument::Fd(token) => Ok(write!(log, ": fd {}", token.0)?),
        _ => Ok(()),
    }
}

/// Tells an argument of a request.
fn argument(log: &mut String, arg: &Argument<ObjectId, Token>) -> Result<(), Fail> {
    match arg {
        Argument::NewId(id) => named(log, ": new ", *id),
        Argument::Object(id) => named(log, ": object ", *id),
        Argument::Str(text) => string(log, text.as_ref().map(|text| text.as_bytes().len())),
        Argument::Array(bytes) => Ok(write!(log, ": {} bytes", bytes.as_slice().len())?),
        _ => number(log, arg),
    }
}

/// Tells a request: its opcode, its sender, its arguments, whether it ends its sender, and what it made.
fn request(
    log: &mut String,
    sender: ObjectId,
    opcode: u16,
    args: &[Argument<ObjectId, Token>],
) -> Result<(), Fail> {
    write!(log, "request {opcode} to ")?;
    object(log, sender)?;
    for arg in args {
        argument(log, arg)?;
    }
    Ok(())
}

/// Tells what else is known of a request.
fn of_request(
    log: &mut String,
    is_destructor: bool,
    created: Option<ObjectId>,
) -> Result<(), Fail> {
    if is_destructor {
        write!(log, ", which ends it")?;
    }
    if let Some(id) = created {
        write!(log, ", which makes ")?;
        object(log, id)?;
    }
    Ok(writeln!(log)?)
}

/// Tells a bind.
fn bound(log: &mut String, global: GlobalId, id: ObjectId) -> Result<(), Fail> {
    write!(
        log,
        "global {}, {} bound as ",
        global.name(),
        global.serial()
    )?;
    object(log, id)?;
    Ok(writeln!(log)?)
}

/// Tells a registry that is handed out.
fn registry(log: &mut String, id: ObjectId) -> Result<(), Fail> {
    named(log, "registry ", id)?;
    Ok(writeln!(log)?)
}

/// Tells an action.
pub fn action(log: &mut String, action: &Action) -> Result<(), Fail> {
    match action {
        Action::Request {
            sender,
            opcode,
            args,
            is_destructor,
            created,
        } => {
            request(log, *sender, *opcode, args.as_slice())?;
            of_request(log, *is_destructor, *created)
        }
        Action::Bind { global, object } => bound(log, *global, *object),
        Action::Registry { object } => registry(log, *object),
    }
}

/// Tells the answer to a reading.
fn read(log: &mut String, answer: &Result<Action, ActionError>) -> Result<(), Fail> {
    match answer {
        Ok(given) => action(log, given),
        Err(error) => Ok(writeln!(log, "{error}")?),
    }
}

/// Tells the answer to a reading, and what is left of its receives.
fn read_within(
    log: &mut String,
    answer: &Result<Action, ActionError>,
    reading: Reading,
) -> Result<(), Fail> {
    read(log, answer)?;
    Ok(writeln!(log, "{} left, {} read", reading.turns_left, reading.read)?)
}

/// Tells whether a request was finished, or why not, and the data that come back.
fn finished(log: &mut String, answer: &Result<(), FinishRefused<Option<u32>>>) -> Result<(), Fail> {
    match answer {
        Ok(()) => writeln!(log, "finished")?,
        Err(refused) => match refused.user_data {
            Some(data) => writeln!(log, "{}, {data} is back", refused.error)?,
            None => writeln!(log, "{}", refused.error)?,
        },
    }
    Ok(())
}

/// Tells whether a bind was finished, or why not, and the data that come back.
fn bind_finished(log: &mut String, answer: &Result<(), FinishRefused<u32>>) -> Result<(), Fail> {
    match answer {
        Ok(()) => writeln!(log, "finished")?,
        Err(refused) => writeln!(log, "{}, {} is back", refused.error, refused.user_data)?,
    }
    Ok(())
}

/// Tells a client that was taken out, and the number of sends that its transport recorded.
fn taken_out(log: &mut String, id: ClientId, transport: &Memory) -> Result<(), Fail> {
    write!(log, " client ")?;
    client(log, id)?;
    Ok(write!(log, " with {} sends", transport.sent().len())?)
}

/// Tells the clients that were taken out.
fn all_taken_out(log: &mut String, out: &[(ClientId, Memory)]) -> Result<(), Fail> {
    write!(log, "out:")?;
    for (id, transport) in out {
        taken_out(log, *id, transport)?;
    }
    Ok(writeln!(log)?)
}

/// Tells the answer to a cleanup.
fn cleaned(
    log: &mut String,
    answer: &Result<Vec<(ClientId, Memory)>, OutOfMemory>,
) -> Result<(), Fail> {
    match answer {
        Ok(out) => all_taken_out(log, out.as_slice()),
        Err(error) => Ok(writeln!(log, "{error}")?),
    }
}

/// Tells why a client was killed.
fn reason(log: &mut String, reason: &DisconnectReason) -> Result<(), Fail> {
    match reason {
        DisconnectReason::ConnectionClosed => write!(log, "closed")?,
        DisconnectReason::ProtocolError(error) => write!(
            log,
            "error {} on {} {}: {}",
            error.code,
            error.object_interface.as_str(),
            error.object_id,
            error.message.as_str()
        )?,
    }
    Ok(())
}

/// Tells that a client was inserted.
fn initialized(log: &mut String, id: ClientId) -> Result<(), Fail> {
    write!(log, "initialized ")?;
    client(log, id)
}

/// Tells the end of a client.
fn disconnected(log: &mut String, id: ClientId, why: &DisconnectReason) -> Result<(), Fail> {
    write!(log, "disconnected ")?;
    client(log, id)?;
    write!(log, ": ")?;
    reason(log, why)
}

/// Tells the end of an object.
fn destroyed(log: &mut String, id: ObjectId, data: u32) -> Result<(), Fail> {
    named(log, "destroyed ", id)?;
    Ok(write!(log, " with {data}")?)
}

/// Tells a note.
pub fn note(log: &mut String, note: &Note<u32>) -> Result<(), Fail> {
    match note {
        Note::Initialized(id) => initialized(log, *id),
        Note::Disconnected(id, why) => disconnected(log, *id, why),
        Note::Destroyed(_, id, data) => destroyed(log, *id, *data),
    }
}

/// Tells the notes, a line each.
fn notes(log: &mut String, answer: &Result<Vec<Note<u32>>, OutOfMemory>) -> Result<(), Fail> {
    match answer {
        Ok(notes) => {
            for one in notes.as_slice() {
                note(log, one)?;
                writeln!(log)?;
            }
        }
        Err(error) => writeln!(log, "{error}")?,
    }
    Ok(())
}

/// Tells what was sent, a send a line.
fn sent(log: &mut String, sent: &[(Vec<u8>, Vec<Token>)]) -> Result<(), Fail> {
    for (bytes, tokens) in sent {
        tell_bytes(log, bytes.as_slice(), tokens.as_slice())?;
        writeln!(log)?;
    }
    Ok(())
}

/// Tells the reply to a call about objects, or to one that reads.
fn of_client(log: &mut String, reply: &Reply<Memory, u32>) -> Result<(), Fail> {
    match reply {
        Reply::SetObjectData(answer) => done(log, answer),
        Reply::SetObjectVersion(answer) => done(log, answer),
        Reply::CreateObject(answer) => created(log, answer),
        Reply::CreateObjectAt(answer) => created(log, answer),
        Reply::DestroyObject(answer) => done(log, answer),
        Reply::SendEvent(answer) => done(log, answer),
        Reply::NextAction(answer) => read(log, answer),
        Reply::NextActionWithin(answer, reading) => read_within(log, answer, *reading),
        Reply::FinishRequest(answer) => finished(log, answer),
        Reply::FinishBind(answer) => bind_finished(log, answer),
        _ => Ok(()),
    }
}

/// Tells the reply to a call of a script.
fn of_script(log: &mut String, reply: &Reply<Memory, u32>) -> Result<(), Fail> {
    match reply {
        Reply::Arrive(answer)
        | Reply::ArriveFault(answer)
        | Reply::Accept(answer)
        | Reply::AcceptFault(answer) => match answer {
            Ok(()) => Ok(()),
            Err(error) => Ok(writeln!(log, "{error}")?),
        },
        Reply::TakeSent(Ok(parcels)) => sent(log, parcels.as_slice()),
        Reply::TakeSent(Err(error)) => Ok(writeln!(log, "{error}")?),
        _ => Ok(()),
    }
}

/// Tells the reply. Of a call that answers nothing, or that gave a script something, nothing is told.
pub fn reply(log: &mut String, reply: &Reply<Memory, u32>) -> Result<(), Fail> {
    match reply {
        Reply::InsertClient(answer) => inserted(log, answer),
        Reply::CreateGlobal(answer) => global(log, answer),
        Reply::Flush(answer) => done(log, answer),
        Reply::Cleanup(answer) => cleaned(log, answer),
        Reply::TakeNotes(answer) => notes(log, answer),
        Reply::Arrive(_)
        | Reply::ArriveFault(_)
        | Reply::Accept(_)
        | Reply::AcceptFault(_)
        | Reply::TakeSent(_) => of_script(log, reply),
        _ => of_client(log, reply),
    }
}
