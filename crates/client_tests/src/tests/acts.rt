//! What a run has a client do, as plain data, and the calls of it.

use super::replayed::replay;
use super::ways::{Read, Way, read_in, send_in};
use crate::kit::steps::Call;
use crate::kit::told::*;
use crate::kit::values::{Child, Object, Request, message};
use std::alloc::{AllocError, Global};
use std::fmt::{Display, Write};
use std::test::Fail;
use test_kit::cuts::{Cut, Stream};
use test_kit::log::row_tells;
use test_kit::quad::{destructor, messages, plain, push_interface, quad_table};
use wl_client::{Backend, EventError, WaylandError};
use wl_link::Memory;
use wl_wire::{InterfaceId, IoFault, Token};

/// A client whose objects have numbers as their data.
pub type Client = Backend<Memory, u32>;

/// A call of a client, a look at it, or what its script is given.
#[derive(Clone, Copy)]
pub enum Act {
    /// Sets the limit of the buffers.
    Limit(usize),
    /// Sets whether messages of unknown senders are passed over.
    PassOver(bool),
    /// Sends a request.
    Send(Request),
    /// Sends a request with these data and this wish for the object that it makes.
    SendWith(Request, Child),
    /// Sends a request for which there has to be no memory.
    SendInWant(Request),
    /// The registry and a `quad` of version 3.
    Bound,
    /// Sends what waits.
    Flush,
    /// Reads the next event.
    Next,
    /// Reads, and finishes each event, until nothing more is there or a reading fails.
    Serve,
    /// Finishes the open event, with these data for the object that it made.
    Finish(Option<u32>),
    /// Ends the session by this fault of the system.
    Fail(i32),
    /// Gives an object these data.
    SetData(Object, u32),
    /// Adds to the data of an object where they stand.
    AddToData(Object, u32),
    /// Destroys an object.
    Destroy(Object),
    /// Takes an object out that both sides have given up.
    Reclaim(Object),
    /// Takes the notes.
    Notes,
    /// Has the ids of objects that leave their numbers kept, or no more.
    KeepFreed(bool),
    /// Takes the next of them.
    Freed,
    /// Adds an interface of this name and of version 1, whose only event, `gone`, ends its object.
    Add(&'static str),
    /// Adds a request and an event `tip`, without arguments, to an interface, which then has at least this version.
    Extend(InterfaceId, u32),
    /// Runs the steps.
    Replay(&'static [Call]),
    /// Looks at something.
    Look(Look),
    /// Gives the script something.
    Script(Cue),
}

/// What is looked at.
#[derive(Clone, Copy)]
pub enum Look {
    /// The version of an object.
    Info(Object),
    /// The data of an object.
    Data(Object),
    /// The text of an object's id.
    Text(Object),
    /// The object that a number holds.
    At(u32),
    /// The session's error.
    LastError,
    /// The event that is open.
    Open,
    /// How many arrivals the script has left.
    Arrivals,
    /// What was sent, a send a line.
    Sent,
    /// How many bytes and descriptors were sent, a send a line.
    Lengths,
}

/// What a script is given.
#[derive(Clone, Copy)]
pub enum Cue {
    /// Bytes that are to arrive.
    Arrive(&'static [u8]),
    /// Bytes that are to arrive with a descriptor.
    ArriveWith(&'static [u8], i32),
    /// A stream that is to arrive, cut so.
    ArriveCut(Stream, Cut),
    /// A fault after what is to arrive.
    ArriveFault(IoFault),
    /// A fault after the answers to sends.
    AcceptFault(IoFault),
    /// Forgets what was sent.
    TakeSent,
}

/// Fails if the line was not written, or if the client's last call was refused memory.
fn told(client: &Client, written: Result<(), AllocError>) -> Result<(), Fail> {
    if client.memory_refused() {
        return Err(Fail::new("memory was refused"));
    }
    match written {
        Ok(()) => Ok(()),
        Err(_) => Err(Fail::new("there was no memory for the line")),
    }
}

/// Sends the request, with these data and this wish for the object that it makes.
fn send_with(
    alloc: Global,
    client: &mut Client,
    log: &mut String,
    way: Way,
    request: Request,
    child: Child,
) -> Result<(), Fail> {
    let message = message(alloc, request)?;
    let answer = send_in(client, way, message, child);
    let written = write_sent(log, &answer);
    told(client, written)
}

/// Sends the request.
fn send(
    alloc: Global,
    client: &mut Client,
    log: &mut String,
    way: Way,
    request: Request,
) -> Result<(), Fail> {
    send_with(alloc, client, log, way, request, request.child())
}

/// Sends the request, and fails if there was memory for it.
fn send_in_want(
    alloc: Global,
    client: &mut Client,
    log: &mut String,
    way: Way,
    request: Request,
) -> Result<(), Fail> {
    let message = message(alloc, request)?;
    let answer = send_in(client, way, message, request.child());
    write_sent(log, &answer)?;
    if client.memory_refused() {
        Ok(())
    } else {
        Err(Fail::new("the want of memory is not told"))
    }
}

/// Sends the requests of the registry and of a `quad` of version 3.
fn bound(alloc: Global, client: &mut Client, log: &mut String, way: Way) -> Result<(), Fail> {
    send(alloc, client, log, way, Request::GetRegistry)?;
    send(alloc, client, log, way, Request::Bind)
}

/// Reads the next event.
fn next(alloc: Global, client: &mut Client, log: &mut String, way: Way) -> Result<(), Fail> {
    let answer = read_in(alloc, client, way)?;
    let written = write_read(log, &answer);
    told(client, written)
}

/// Finishes the open event, with these data for the object that it made.
fn finish(client: &mut Client, log: &mut String, data: Option<u32>) -> Result<(), Fail> {
    let answer = client.finish_event(data);
    let written = write_finished(log, &answer);
    told(client, written)
}

/// Ends the session by this fault of the system.
fn fail(client: &mut Client, log: &mut String, number: i32) -> Result<(), Fail> {
    client.fail(WaylandError::Io(IoFault::Other(number)));
    let written = writeln!(log, "failed");
    told(client, written)
}

/// What a reading comes to.
#[derive(Clone, Copy)]
enum Came {
    /// An event, which is open now.
    Event,
    /// Nothing yet: something is still to arrive.
    NotYet,
    /// Nothing more, or a fault.
    Nothing,
}

/// Tells the answer to a reading, and what it comes to. Of a reading that would block it tells nothing if something is still to
/// arrive.
fn comes_to(client: &Client, log: &mut String, answer: &Read) -> Result<Came, Fail> {
    let would_block = matches!(answer, Err(EventError::WouldBlock));
    if would_block && client.transport().arrivals_left() > 0 {
        return Ok(Came::NotYet);
    }
    let written = write_read(log, answer);
    told(client, written)?;
    if answer.is_ok() {
        Ok(Came::Event)
    } else {
        Ok(Came::Nothing)
    }
}

/// Reads once.
fn read_once(alloc: Global, client: &mut Client, log: &mut String, way: Way) -> Result<Came, Fail> {
    let answer = read_in(alloc, client, way)?;
    comes_to(client, log, &answer)
}

/// Reads once, and finishes the event; whether there may be more to read.
fn serve_once(
    alloc: Global,
    client: &mut Client,
    log: &mut String,
    way: Way,
) -> Result<bool, Fail> {
    match read_once(alloc, client, log, way)? {
        Came::Event => {
            finish(client, log, None)?;
            Ok(true)
        }
        Came::NotYet => Ok(true),
        Came::Nothing => Ok(false),
    }
}

/// Reads, and finishes each event, until nothing more is there or a reading fails.
fn serve(alloc: Global, client: &mut Client, log: &mut String, way: Way) -> Result<(), Fail> {
    for _ in 0..1000 {
        if !serve_once(alloc, client, log, way)? {
            return Ok(());
        }
    }
    Err(Fail::new("there is more to read"))
}

/// Tells this word if a call of the client was done, or why not.
fn done<E: Display>(
    client: &Client,
    log: &mut String,
    word: &str,
    answer: &Result<(), E>,
) -> Result<(), Fail> {
    let written = write_done(log, word, answer);
    told(client, written)
}

/// Makes a call that is done or refused, and tells that.
fn change(client: &mut Client, log: &mut String, act: Act) -> Result<(), Fail> {
    match act {
        Act::Flush => {
            let answer = client.flush();
            done(client, log, "flushed", &answer)
        }
        Act::SetData(object, data) => {
            let answer = client.set_data(&object.id(), data);
            done(client, log, "done", &answer)
        }
        Act::Destroy(object) => {
            let answer = client.destroy_object(&object.id());
            done(client, log, "destroyed", &answer)
        }
        Act::Reclaim(object) => {
            let answer = client.reclaim(&object.id());
            done(client, log, "reclaimed", &answer)
        }
        _ => Err(Fail::new("the call changes nothing")),
    }
}

/// Adds to the object's data, and tells what they were.
fn add_to_data(
    client: &mut Client,
    log: &mut String,
    object: Object,
    more: u32,
) -> Result<(), Fail> {
    let answer = client.with_data(&object.id(), |data| {
        let before = *data;
        *data = before.wrapping_add(more);
        before
    });
    let written = write_or(log, "lent", &answer);
    told(client, written)
}

/// Takes the notes.
fn notes(client: &mut Client, log: &mut String) -> Result<(), Fail> {
    let notes = client.take_notes();
    let written = write_notes(log, notes.as_slice());
    told(client, written)
}

/// Takes the next id of an object that left its number.
fn freed(client: &mut Client, log: &mut String) -> Result<(), Fail> {
    let freed = client.next_freed();
    let written = write_freed(log, freed);
    told(client, written)
}

/// Tells the text of the object's id.
fn text(alloc: Global, client: &Client, log: &mut String, object: Object) -> Result<(), Fail> {
    let text = object.id().display(alloc, client.protocol())?;
    let written = writeln!(log, "{text}");
    told(client, written)
}

/// Writes the session's error.
fn write_last_error(client: &Client, log: &mut String) -> Result<(), AllocError> {
    match client.last_error() {
        Some(error) => writeln!(log, "{error}"),
        None => writeln!(log, "no error"),
    }
}

/// Appends the bytes to what is to arrive, with the descriptor if there is one.
fn arrive(
    alloc: Global,
    client: &mut Client,
    bytes: &[u8],
    descriptor: Option<i32>,
) -> Result<(), Fail> {
    let bytes = Vec::from_slice(alloc, bytes)?;
    let mut tokens = Vec::new(alloc);
    if let Some(number) = descriptor {
        tokens.push(Token(number))?;
    }
    client.transport_mut().arrive(bytes, tokens)?;
    Ok(())
}

/// Appends the stream to what is to arrive, cut so.
fn arrive_cut(alloc: Global, client: &mut Client, stream: Stream, cut: Cut) -> Result<(), Fail> {
    let pieces = stream.pieces(alloc, cut)?;
    for piece in pieces.as_slice() {
        arrive(alloc, client, piece.as_slice(), None)?;
    }
    Ok(())
}

/// Adds the interface of that name to the table.
fn add(alloc: Global, client: &mut Client, log: &mut String, name: &str) -> Result<(), Fail> {
    let mut interfaces = Vec::new(alloc);
    push_interface(alloc, &mut interfaces, name, 1, &[], &[destructor("gone")])?;
    let answer = client.add_interfaces(interfaces);
    done(client, log, "done", &answer)
}

/// Adds a request and an event to the interface.
fn extend(
    alloc: Global,
    client: &mut Client,
    log: &mut String,
    interface: InterfaceId,
    version: u32,
) -> Result<(), Fail> {
    let tip = [plain("tip", 1, &[])];
    let requests = messages(alloc, &tip)?;
    let events = messages(alloc, &tip)?;
    let answer = client.extend_interface(interface, version, requests, events);
    done(client, log, "done", &answer)
}

/// Tells what is there.
fn look_at(alloc: Global, client: &Client, log: &mut String, look: Look) -> Result<(), Fail> {
    let written = match look {
        Look::Info(object) => {
            let version = client.info(&object.id()).map(|info| info.version);
            write_or(log, "version", &version)
        }
        Look::Data(object) => write_or(log, "data", &client.get_data(&object.id())),
        Look::Text(object) => return text(alloc, client, log, object),
        Look::At(number) => write_held(log, &client.object_for_protocol_id(number)),
        Look::LastError => write_last_error(client, log),
        Look::Open => write_open(log, &client.open_event()),
        Look::Arrivals => writeln!(log, "{} arrivals", client.transport().arrivals_left()),
        Look::Sent => write_taken(log, client.transport().sent()),
        Look::Lengths => write_lengths(log, client.transport().sent()),
    };
    told(client, written)
}

/// Gives the script what it is given.
fn play(alloc: Global, client: &mut Client, cue: Cue) -> Result<(), Fail> {
    match cue {
        Cue::Arrive(bytes) => arrive(alloc, client, bytes, None),
        Cue::ArriveWith(bytes, descriptor) => arrive(alloc, client, bytes, Some(descriptor)),
        Cue::ArriveCut(stream, cut) => arrive_cut(alloc, client, stream, cut),
        Cue::ArriveFault(fault) => Ok(client.transport_mut().arrive_fault(fault)?),
        Cue::AcceptFault(fault) => Ok(client.transport_mut().accept_fault(fault)?),
        Cue::TakeSent => {
            client.transport_mut().take_sent();
            Ok(())
        }
    }
}

/// Makes the call in this way, and tells its answer.
fn perform(
    alloc: Global,
    client: &mut Client,
    log: &mut String,
    way: Way,
    act: Act,
) -> Result<(), Fail> {
    match act {
        Act::Limit(bytes) => {
            client.set_max_buffer_size(Some(bytes));
            told(client, Ok(()))
        }
        Act::PassOver(passes) => {
            client.pass_over_unknown_senders(passes);
            told(client, Ok(()))
        }
        Act::Send(request) => send(alloc, client, log, way, request),
        Act::SendWith(request, child) => send_with(alloc, client, log, way, request, child),
        Act::SendInWant(request) => send_in_want(alloc, client, log, way, request),
        Act::Bound => bound(alloc, client, log, way),
        Act::Flush | Act::SetData(..) | Act::Destroy(_) | Act::Reclaim(_) => {
            change(client, log, act)
        }
        Act::Next => next(alloc, client, log, way),
        Act::Serve => serve(alloc, client, log, way),
        Act::Finish(data) => finish(client, log, data),
        Act::Fail(number) => fail(client, log, number),
        Act::AddToData(object, more) => add_to_data(client, log, object, more),
        Act::Notes => notes(client, log),
        Act::KeepFreed(keeps) => {
            client.keep_freed(keeps);
            told(client, Ok(()))
        }
        Act::Freed => freed(client, log),
        Act::Add(name) => add(alloc, client, log, name),
        Act::Extend(interface, version) => extend(alloc, client, log, interface, version),
        Act::Replay(calls) => replay(alloc, client, log, calls),
        Act::Look(look) => look_at(alloc, client, log, look),
        Act::Script(cue) => play(alloc, client, cue),
    }
}

/// A client of the table of `quad` in which nothing has happened, over an empty script.
fn connected(alloc: Global) -> Result<Client, Fail> {
    let table = quad_table(alloc)?;
    Ok(Backend::connect(alloc, table, Memory::new(alloc))?)
}

/// What the acts tell, one after the other.
pub fn log_by(alloc: Global, client: &mut Client, way: Way, acts: &[Act]) -> Result<String, Fail> {
    let mut log = String::new(alloc);
    for act in acts {
        perform(alloc, client, &mut log, way, *act)?;
    }
    Ok(log)
}

/// What the acts tell of a client in which nothing has happened.
pub fn log_of(alloc: Global, way: Way, acts: &[Act]) -> Result<String, Fail> {
    let mut client = connected(alloc)?;
    let answer = log_by(alloc, &mut client, way, acts);
    drop(client);
    answer
}

/// A row of a table of runs: what a failing one is named, its acts, and what they have to tell.
pub struct Row {
    pub name: &'static str,
    pub acts: &'static [Act],
    pub told: &'static str,
}

/// Fails if the run in this way tells something else than its row says.
fn row_tells_in(rt: &(impl Eprint + AllocGlobal), row: &Row, way: Way) -> Result<(), Fail> {
    let told = row_tells(rt, row.name, log_of(rt.alloc(), way, row.acts), row.told);
    if told.is_err() {
        let _ = eprintln!(rt; "messages are {}", way.name());
    }
    told
}

/// Fails if a run of a client in which nothing has happened tells something else than its row says, in either way.
pub fn rows_tell(rt: &(impl Eprint + AllocGlobal), rows: &[Row]) -> Result<(), Fail> {
    for row in rows {
        row_tells_in(rt, row, Way::Moved)?;
        row_tells_in(rt, row, Way::Lent)?;
    }
    Ok(())
}
