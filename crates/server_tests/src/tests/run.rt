//! The one owner of a server: it makes the calls of a run and looks at what they left.

use super::violations::violation;
use server_test_kit::steps::{Call, Made, arrive, steps};
use server_test_kit::told::{action, done, object, reply};
use server_test_kit::values::{Event, FIRST, Named, Shown, Thing, Who, message};
use smallvec::SmallVec;
use std::alloc::Global;
use std::fmt::{Display, Write};
use std::test::Fail;
use test_kit::cuts::{Cut, Stream};
use test_kit::log::row_tells;
use test_kit::quad::{QUAD, messages, plain, push_interface, quad_table};
use wl_link::Memory;
use wl_server::{Action, ActionError, Backend, ClientId, Flushed, ObjectId, Reading, Reply};
use wl_wire::{Argument, InterfaceId, IoFault};

/// A server of the runs.
pub type Server = Backend<Memory, u32, Shown, bool>;

/// A call of a run, or a look.
#[derive(Clone, Copy)]
pub enum Act {
    /// Makes the call, for which there is to be memory, and tells its reply.
    Do(Call),
    /// Makes the call, for which there has to be no memory.
    InWant(Call),
    /// Appends the stream to what is to arrive, cut so, with the descriptor at its first piece if there is one.
    ArriveCut(Who, Stream, Cut, Option<i32>),
    /// Reads, and ends each action, until nothing more is there or a reading fails.
    Serve(Who),
    /// Creates a global, for which the transport of some client has to lack memory.
    GlobalInWant,
    /// Cleans up, and tells how many bytes each send of those took that are taken out.
    TakeOut,
    /// Creates so many globals.
    Globals(u32),
    /// Inserts so many clients.
    Clients(u32),
    /// Makes the calls, and tells nothing of them.
    Quietly(&'static [Call]),
    /// Adds an interface of this name and of version 1, which has no messages, and tells the answer.
    Add(&'static str),
    /// Adds a request and an event `tip`, without arguments, to an interface, which then has at least this version, and tells
    /// the answer.
    Extend(InterfaceId, u32),
    /// Makes a call beside one of those of `Do`.
    Beside(Beside),
    /// Looks at something.
    Look(Look),
}

/// A call that stands beside another one: it takes or answers in another way what that one does.
#[derive(Clone, Copy)]
pub enum Beside {
    /// `send_event_lent`.
    SendLent(Event),
    /// `next_action_into`.
    NextInto(Who),
    /// `next_action_within_into`, with so many receives left.
    NextWithinInto(Who, u32),
    /// `next_action_into` for a request that makes an object, whose data these are, and again into the same action.
    NextTwoInto(Who, u32),
    /// `finish_request_returning`.
    FinishReturning(Who, Option<u32>),
    /// `finish_bind_returning`.
    FinishBindReturning(Who, u32),
    /// `with_object_data`, which adds to the data.
    AddToData(Thing, u32),
    /// `flush_client`.
    FlushClient(Who),
}

/// What is looked at.
#[derive(Clone, Copy)]
pub enum Look {
    /// The version of an object.
    Info(Thing),
    /// The data of an object.
    Data(Thing),
    /// The text of an object's id.
    Text(Thing),
    /// The id of the object of that interface at a number.
    At(Who, InterfaceId, u32),
    /// A global: its interface, its version, and whether it is disabled.
    Global(Named),
    /// The name of a global for a client.
    Name(Named, Who),
    /// How many arrivals a client's script has left.
    Arrivals(Who),
    /// How many bytes each send took of a client.
    Lengths(Who),
    /// How a client broke the protocol.
    Violation(Who),
    /// The id that the next global gets.
    NextGlobal,
    /// The id that the next client gets.
    NextClient,
    /// The slots of the live clients, counted from 1: a digit for each call of the closure.
    Clients,
    /// The serials of a client's objects, counted from 1: a digit for each call of the closure.
    Objects(Who),
    /// The ids that the walk over the live clients gives.
    ClientWalk,
    /// The ids that the walk over a client's objects gives.
    ObjectWalk(Who),
    /// The object at a number, with its data.
    Held(Who, u32),
    /// What the walk over a client's objects with their data gives.
    HeldWalk(Who),
}

/// Tells the replies.
fn tell(log: &mut String, replies: &[Reply<Memory, u32>]) -> Result<(), Fail> {
    for one in replies {
        reply(log, one)?;
    }
    Ok(())
}

/// Makes the call by itself, and tells its reply.
fn perform(alloc: Global, server: &mut Server, log: &mut String, call: Call) -> Result<(), Fail> {
    let steps = steps(alloc, &[call])?;
    match server.replay(steps) {
        Ok(replies) => tell(log, replies.as_slice()),
        Err(_) => Err(Fail::new("memory was refused")),
    }
}

/// Makes the calls, one by one, and tells nothing of them.
fn quietly(alloc: Global, server: &mut Server, calls: &[Call]) -> Result<(), Fail> {
    for call in calls {
        let mut unheard = String::new(alloc);
        perform(alloc, server, &mut unheard, *call)?;
    }
    Ok(())
}

/// Makes the call, which has to be refused memory.
fn in_want(alloc: Global, server: &mut Server, log: &mut String, call: Call) -> Result<(), Fail> {
    let steps = steps(alloc, &[call])?;
    match server.replay(steps) {
        Ok(_) => Err(Fail::new("the want of memory is not told")),
        Err(stopped) => Ok(writeln!(log, "stopped at {}", stopped.step)?),
    }
}

/// The steps by which the pieces arrive, the first of them with the descriptor.
fn arrivals_of(
    alloc: Global,
    who: Who,
    pieces: &[Vec<u8>],
    descriptor: Option<i32>,
) -> Result<Vec<Made>, Fail> {
    let mut left = descriptor;
    let mut steps = Vec::new(alloc);
    for piece in pieces {
        steps.push(arrive(alloc, who, piece.as_slice(), left)?)?;
        left = None;
    }
    Ok(steps)
}

/// Appends the stream to what is to arrive, cut so, with the descriptor at its first piece.
fn arrive_cut(
    alloc: Global,
    server: &mut Server,
    who: Who,
    (stream, cut): (Stream, Cut),
    descriptor: Option<i32>,
) -> Result<(), Fail> {
    let pieces = stream.pieces(alloc, cut)?;
    let steps = arrivals_of(alloc, who, pieces.as_slice(), descriptor)?;
    match server.replay(steps) {
        Ok(_) => Ok(()),
        Err(_) => Err(Fail::new("memory was refused")),
    }
}

/// Ends the action: what a bind made gets 9, and what a request made gets 5.
fn end_action(server: &mut Server, who: Who, ended: &Action) -> Result<(), Fail> {
    match ended {
        Action::Bind { .. } | Action::Registry { .. } => Ok(server.finish_bind(&who.id(), 9)?),
        Action::Request { created, .. } => {
            Ok(server.finish_request(&who.id(), created.map(|_| 5))?)
        }
    }
}

/// Whether the client's script has something left that is to arrive.
fn has_arrivals(server: &Server, who: Who) -> bool {
    match server.transport(&who.id()) {
        Ok(script) => script.arrivals_left() > 0,
        Err(_) => false,
    }
}

/// Tells the action, and ends it.
fn tell_and_end(
    server: &mut Server,
    log: &mut String,
    who: Who,
    given: &Action,
) -> Result<(), Fail> {
    action(log, given)?;
    end_action(server, who, given)
}

/// Tells the fault of a reading; whether there may be more to read. Of a reading that would block it tells nothing if
/// something is still to arrive.
fn tell_fault(
    server: &Server,
    log: &mut String,
    who: Who,
    error: ActionError,
) -> Result<bool, Fail> {
    let would_block = matches!(error, ActionError::Io(IoFault::WouldBlock));
    if would_block && has_arrivals(server, who) {
        return Ok(true);
    }
    writeln!(log, "{error}")?;
    Ok(false)
}

/// Reads once, and ends the action; whether there may be more to read.
fn serve_once(server: &mut Server, log: &mut String, who: Who) -> Result<bool, Fail> {
    match server.next_action(&who.id()) {
        Ok(given) => {
            tell_and_end(server, log, who, &given)?;
            Ok(true)
        }
        Err(error) => tell_fault(server, log, who, error),
    }
}

/// Reads, and ends each action, until nothing more is there or a reading fails.
fn serve(server: &mut Server, log: &mut String, who: Who) -> Result<(), Fail> {
    for _ in 0..1000 {
        let may_go_on = serve_once(server, log, who)?;
        if server.memory_refused() {
            return Err(Fail::new("memory was refused"));
        }
        if !may_go_on {
            return Ok(());
        }
    }
    Err(Fail::new("there is more to read"))
}

/// Creates a global, for which the transport of some client has to lack memory.
fn global_in_want(server: &mut Server, log: &mut String) -> Result<(), Fail> {
    let id = server.create_global(QUAD, 3, Shown)?;
    writeln!(log, "global {}, {}", id.name(), id.serial())?;
    if server.memory_refused() {
        Ok(())
    } else {
        Err(Fail::new("the want of memory is not told"))
    }
}

/// Tells how many bytes each send took of a client that was taken out.
fn taken_out(log: &mut String, who: ClientId, script: &Memory) -> Result<(), Fail> {
    write!(log, "out {}, {}:", who.slot(), who.serial())?;
    for (bytes, _) in script.sent() {
        write!(log, " {}", bytes.len())?;
    }
    Ok(writeln!(log)?)
}

/// Cleans up, and tells how many bytes each send of those took that are taken out.
fn take_out(server: &mut Server, log: &mut String) -> Result<(), Fail> {
    let out = server.cleanup()?;
    for (who, script) in out.as_slice() {
        taken_out(log, *who, script)?;
    }
    Ok(())
}

/// Makes the call so many times, and tells nothing of it.
fn repeat(alloc: Global, server: &mut Server, call: Call, count: u32) -> Result<(), Fail> {
    for _ in 0..count {
        let mut unheard = String::new(alloc);
        perform(alloc, server, &mut unheard, call)?;
    }
    Ok(())
}

/// Tells a value after its name, or why there is none.
fn value<T: Display, E: Display>(
    log: &mut String,
    name: &str,
    answer: &Result<T, E>,
) -> Result<(), Fail> {
    match answer {
        Ok(value) => writeln!(log, "{name} {value}")?,
        Err(error) => writeln!(log, "{error}")?,
    }
    Ok(())
}

/// Tells the text of the object's id.
fn text(alloc: Global, server: &Server, log: &mut String, of: Thing) -> Result<(), Fail> {
    let text = of.id().display(alloc, server.protocol())?;
    Ok(writeln!(log, "{text}")?)
}

/// Tells the object of that interface at the number.
fn at(
    server: &Server,
    log: &mut String,
    who: Who,
    interface: InterfaceId,
    number: u32,
) -> Result<(), Fail> {
    match server.object_for_protocol_id(&who.id(), interface, number) {
        Ok(id) => {
            object(log, id)?;
            writeln!(log)?;
        }
        Err(error) => writeln!(log, "{error}")?,
    }
    Ok(())
}

/// Tells the global.
fn global(server: &Server, log: &mut String, of: Named) -> Result<(), Fail> {
    match server.global_info(&of.id()) {
        Ok(info) => writeln!(
            log,
            "interface {}, version {}, disabled: {}",
            info.interface.0, info.version, info.disabled
        )?,
        Err(error) => writeln!(log, "{error}")?,
    }
    Ok(())
}

/// Tells the name of the global for the client.
fn name(server: &Server, log: &mut String, of: Named, who: Who) -> Result<(), Fail> {
    match server.global_name(&of.id(), &who.id()) {
        Some(name) => writeln!(log, "name {name}")?,
        None => writeln!(log, "no name")?,
    }
    Ok(())
}

/// Tells how many arrivals the client's script has left.
fn arrivals(server: &Server, log: &mut String, who: Who) -> Result<(), Fail> {
    match server.transport(&who.id()) {
        Ok(script) => writeln!(log, "{} arrivals", script.arrivals_left())?,
        Err(error) => writeln!(log, "{error}")?,
    }
    Ok(())
}

/// Tells how many bytes each send took of the client.
fn lengths(server: &Server, log: &mut String, who: Who) -> Result<(), Fail> {
    match server.transport(&who.id()) {
        Ok(script) => {
            for (bytes, _) in script.sent() {
                writeln!(log, "{} bytes", bytes.len())?;
            }
        }
        Err(error) => writeln!(log, "{error}")?,
    }
    Ok(())
}

/// Tells the slots of the live clients, one digit for each, counted from 1.
fn clients(server: &Server, log: &mut String) -> Result<(), Fail> {
    let mut slots: u64 = 0;
    server.with_all_clients(&mut |id| {
        slots = slots
            .wrapping_mul(10)
            .wrapping_add(u64::from(id.slot()))
            .wrapping_add(1)
    });
    Ok(writeln!(log, "live: {slots}")?)
}

/// Tells the serials of the client's objects, one digit for each, counted from 1.
fn objects(server: &Server, log: &mut String, who: Who) -> Result<(), Fail> {
    let mut serials: u64 = 0;
    let answer = server.with_all_objects_for(
        &who.id(),
        &mut |id| {
            serials = serials
                .wrapping_mul(10)
                .wrapping_add(id.serial())
                .wrapping_add(1)
        },
    );
    match answer {
        Ok(()) => writeln!(log, "objects: {serials}")?,
        Err(error) => writeln!(log, "{error}, objects: {serials}")?,
    }
    Ok(())
}

/// Tells the ids that the walk over the live clients gives: the slot and the serial of each.
fn client_walk(server: &Server, log: &mut String) -> Result<(), Fail> {
    write!(log, "clients:")?;
    for id in server.all_clients() {
        write!(log, " {}, {};", id.slot(), id.serial())?;
    }
    Ok(writeln!(log)?)
}

/// Tells the ids that the walk over the client's objects gives: the number and the serial of each, and the slot of its client.
fn object_walk(server: &Server, log: &mut String, who: Who) -> Result<(), Fail> {
    match server.all_objects_for(&who.id()) {
        Ok(walk) => {
            write!(log, "objects:")?;
            for id in walk {
                let slot = id.client().slot();
                write!(log, " {}, {} of {slot};", id.protocol_id(), id.serial())?;
            }
            writeln!(log)?
        }
        Err(error) => writeln!(log, "{error}")?,
    }
    Ok(())
}

/// Tells an object with its data, if it has any.
fn held(log: &mut String, id: ObjectId, data: Option<&u32>) -> Result<(), Fail> {
    object(log, id)?;
    match data {
        Some(data) => Ok(writeln!(log, " with {data}")?),
        None => Ok(writeln!(log)?),
    }
}

/// Tells the client's object at the number, with its data.
fn held_at(server: &Server, log: &mut String, who: Who, number: u32) -> Result<(), Fail> {
    match server.object_by_number(&who.id(), number) {
        Ok((id, data)) => held(log, id, data),
        Err(error) => Ok(writeln!(log, "{error}")?),
    }
}

/// Tells what the walk over the client's objects with their data gives, a line each.
fn held_walk(server: &Server, log: &mut String, who: Who) -> Result<(), Fail> {
    match server.all_held_for(&who.id()) {
        Ok(walk) => {
            for (id, data) in walk {
                held(log, id, data)?;
            }
        }
        Err(error) => writeln!(log, "{error}")?,
    }
    Ok(())
}

/// Tells the id that the next global gets.
fn next_global(server: &Server, log: &mut String) -> Result<(), Fail> {
    match server.next_global_id() {
        Some(id) => writeln!(log, "next global {}, {}", id.name(), id.serial())?,
        None => writeln!(log, "no global is left")?,
    }
    Ok(())
}

/// Tells the id that the next client gets.
fn next_client(server: &Server, log: &mut String) -> Result<(), Fail> {
    match server.next_client_id() {
        Some(id) => writeln!(log, "next client {}, {}", id.slot(), id.serial())?,
        None => writeln!(log, "no client is left")?,
    }
    Ok(())
}

/// An action of no client: of a global that no run has.
fn unread() -> Action {
    Action::Bind {
        global: Named(99, 99).id(),
        object: ObjectId::null(),
    }
}

/// A request of no object, with an argument.
fn one_of_an_argument(alloc: Global) -> Result<Action, Fail> {
    let mut args = SmallVec::new(alloc);
    args.push(Argument::Uint(99))?;
    Ok(Action::Request {
        sender: ObjectId::null(),
        opcode: 0,
        args,
        is_destructor: false,
        created: None,
    })
}

/// Whether it has no arguments.
fn has_none(given: &Action) -> bool {
    match given {
        Action::Request { args, .. } => args.is_empty(),
        Action::Bind { .. } | Action::Registry { .. } => true,
    }
}

/// The answer of a call by value of which this is the answer, if the action has no arguments after an error.
fn answer_with(
    answer: Result<(), ActionError>,
    given: Action,
) -> Result<Result<Action, ActionError>, Fail> {
    match answer {
        Ok(()) => Ok(Ok(given)),
        Err(error) if has_none(&given) => Ok(Err(error)),
        Err(_) => Err(Fail::new("a refused reading left arguments")),
    }
}

/// Reads into an action, and tells it as a reading does.
fn next_into(alloc: Global, server: &mut Server, log: &mut String, who: Who) -> Result<(), Fail> {
    let mut given = one_of_an_argument(alloc)?;
    let answer = server.next_action_into(&who.id(), &mut given);
    reply(log, &Reply::NextAction(answer_with(answer, given)?))
}

/// The same with so many receives left.
fn next_within_into(
    server: &mut Server,
    log: &mut String,
    who: Who,
    turns_left: u32,
) -> Result<(), Fail> {
    let mut given = unread();
    let mut reading = Reading {
        turns_left,
        read: 0,
    };
    let answer = server.next_action_within_into(&who.id(), &mut reading, &mut given);
    reply(
        log,
        &Reply::NextActionWithin(answer_with(answer, given)?, reading),
    )
}

/// Reads a request into an action, finishes it with these data, reads the next one into the same action, and tells that one as
/// a reading does.
fn next_two_into(
    server: &mut Server,
    log: &mut String,
    who: Who,
    user_data: u32,
) -> Result<(), Fail> {
    let mut given = unread();
    let _ = server.next_action_into(&who.id(), &mut given);
    drop(server.finish_request(&who.id(), Some(user_data)));
    let answer = server.next_action_into(&who.id(), &mut given);
    reply(log, &Reply::NextAction(answer_with(answer, given)?))
}

/// Sends an event that is lent, and tells it as one that is given.
fn send_lent(
    alloc: Global,
    server: &mut Server,
    log: &mut String,
    event: Event,
) -> Result<(), Fail> {
    let lent = message(alloc, event)?;
    let answer = server.send_event_lent(&lent);
    reply(log, &Reply::SendEvent(answer))
}

/// Tells the data that came back, if some did.
fn tell_back(log: &mut String, back: Option<u32>) -> Result<(), Fail> {
    match back {
        Some(data) => Ok(writeln!(log, "{data} came back")?),
        None => Ok(()),
    }
}

/// Tells the data that came back of a finish, and its answer as that of the call that drops them.
fn finish_returning(
    server: &mut Server,
    log: &mut String,
    who: Who,
    given: Option<u32>,
) -> Result<(), Fail> {
    let answer = match server.finish_request_returning(&who.id(), given) {
        Ok(back) => {
            tell_back(log, back)?;
            Ok(())
        }
        Err(refused) => Err(refused),
    };
    reply(log, &Reply::FinishRequest(answer))
}

/// Adds to the data of the object where they stand, and tells what they were.
fn add_to_data(server: &mut Server, log: &mut String, of: Thing, more: u32) -> Result<(), Fail> {
    let answer = server.with_object_data(&of.id(), |data| {
        let before = *data;
        *data = before.wrapping_add(more);
        before
    });
    value(log, "lent", &answer)
}

/// The same of a bind.
fn finish_bind_returning(
    server: &mut Server,
    log: &mut String,
    who: Who,
    given: u32,
) -> Result<(), Fail> {
    let answer = match server.finish_bind_returning(&who.id(), given) {
        Ok(back) => {
            tell_back(log, back)?;
            Ok(())
        }
        Err(refused) => Err(refused),
    };
    reply(log, &Reply::FinishBind(answer))
}

/// Flushes one client, and tells whether more waits.
fn flush_client(server: &mut Server, log: &mut String, who: Who) -> Result<(), Fail> {
    match server.flush_client(&who.id()) {
        Ok(Flushed::All) => writeln!(log, "all is sent")?,
        Ok(Flushed::More) => writeln!(log, "more waits")?,
        Err(error) => writeln!(log, "{error}")?,
    }
    Ok(())
}

/// Makes the call, for which there is to be memory, and tells its answer as that of the call that it stands beside.
fn make_beside(
    alloc: Global,
    server: &mut Server,
    log: &mut String,
    call: Beside,
) -> Result<(), Fail> {
    let answer = match call {
        Beside::SendLent(event) => send_lent(alloc, server, log, event),
        Beside::NextInto(who) => next_into(alloc, server, log, who),
        Beside::NextTwoInto(who, user_data) => next_two_into(server, log, who, user_data),
        Beside::NextWithinInto(who, turns_left) => next_within_into(server, log, who, turns_left),
        Beside::FinishReturning(who, given) => finish_returning(server, log, who, given),
        Beside::FinishBindReturning(who, given) => finish_bind_returning(server, log, who, given),
        Beside::AddToData(of, more) => add_to_data(server, log, of, more),
        Beside::FlushClient(who) => flush_client(server, log, who),
    };
    answer?;
    if server.memory_refused() {
        return Err(Fail::new("memory was refused"));
    }
    Ok(())
}

/// Adds the interface of that name, for which there is to be memory, and tells the answer.
fn add(alloc: Global, server: &mut Server, log: &mut String, name: &str) -> Result<(), Fail> {
    let mut interfaces = Vec::new(alloc);
    push_interface(alloc, &mut interfaces, name, 1, &[], &[])?;
    let answer = server.add_interfaces(interfaces);
    if server.memory_refused() {
        return Err(Fail::new("memory was refused"));
    }
    done(log, &answer)
}

/// Adds a request and an event to the interface, for which there is to be memory, and tells the answer.
fn extend(
    alloc: Global,
    server: &mut Server,
    log: &mut String,
    interface: InterfaceId,
    version: u32,
) -> Result<(), Fail> {
    let tip = [plain("tip", 1, &[])];
    let requests = messages(alloc, &tip)?;
    let events = messages(alloc, &tip)?;
    let answer = server.extend_interface(interface, version, requests, events);
    if server.memory_refused() {
        return Err(Fail::new("memory was refused"));
    }
    done(log, &answer)
}

/// Looks at it.
fn look_at(alloc: Global, server: &Server, log: &mut String, at_what: Look) -> Result<(), Fail> {
    match at_what {
        Look::Info(of) => {
            let version = server.object_info(&of.id()).map(|info| info.version);
            value(log, "version", &version)
        }
        Look::Data(of) => value(log, "data", &server.get_object_data(&of.id())),
        Look::Text(of) => text(alloc, server, log, of),
        Look::At(who, interface, number) => at(server, log, who, interface, number),
        Look::Global(of) => global(server, log, of),
        Look::Name(of, who) => name(server, log, of, who),
        Look::Arrivals(who) => arrivals(server, log, who),
        Look::Lengths(who) => lengths(server, log, who),
        Look::Violation(who) => violation(log, server.violation(&who.id())),
        Look::NextGlobal => next_global(server, log),
        Look::NextClient => next_client(server, log),
        Look::Clients => clients(server, log),
        Look::Objects(who) => objects(server, log, who),
        Look::ClientWalk => client_walk(server, log),
        Look::ObjectWalk(who) => object_walk(server, log, who),
        Look::Held(who, number) => held_at(server, log, who, number),
        Look::HeldWalk(who) => held_walk(server, log, who),
    }
}

/// Appends something to what is to arrive, or makes calls, and tells nothing of it.
fn prepare(alloc: Global, server: &mut Server, act: Act) -> Result<(), Fail> {
    match act {
        Act::ArriveCut(who, stream, cut, descriptor) => {
            arrive_cut(alloc, server, who, (stream, cut), descriptor)
        }
        Act::Globals(count) => repeat(alloc, server, Call::Global(QUAD, 3), count),
        Act::Clients(count) => repeat(alloc, server, Call::Insert(true), count),
        Act::Quietly(calls) => quietly(alloc, server, calls),
        _ => Ok(()),
    }
}

/// Makes the call, and tells what it answers.
fn perform_act(alloc: Global, server: &mut Server, log: &mut String, act: Act) -> Result<(), Fail> {
    match act {
        Act::Do(call) => perform(alloc, server, log, call),
        Act::InWant(call) => in_want(alloc, server, log, call),
        Act::Serve(who) => serve(server, log, who),
        Act::GlobalInWant => global_in_want(server, log),
        Act::TakeOut => take_out(server, log),
        Act::Add(name) => add(alloc, server, log, name),
        Act::Extend(interface, version) => extend(alloc, server, log, interface, version),
        Act::Beside(call) => make_beside(alloc, server, log, call),
        Act::Look(what) => look_at(alloc, server, log, what),
        _ => prepare(alloc, server, act),
    }
}

/// Makes the calls, and tells what they answer.
pub fn perform_all(
    alloc: Global,
    server: &mut Server,
    log: &mut String,
    acts: &[Act],
) -> Result<(), Fail> {
    for act in acts {
        perform_act(alloc, server, log, *act)?;
    }
    Ok(())
}

/// The log of a run.
fn log_by(alloc: Global, server: &mut Server, acts: &[Act]) -> Result<String, Fail> {
    let mut log = String::new(alloc);
    perform_all(alloc, server, &mut log, acts)?;
    Ok(log)
}

/// The log of a run of a new server.
pub fn log_of(alloc: Global, acts: &[Act]) -> Result<String, Fail> {
    let table = quad_table(alloc)?;
    let mut server = Backend::new(alloc, table);
    let answer = log_by(alloc, &mut server, acts);
    drop(server);
    answer
}

/// A client with a registry, by `wl_display.get_registry`, and a `quad` of version 3, by `wl_registry.bind`.
pub const WITH_A_QUAD: [Call; 8] = [
    Call::Insert(true),
    Call::Global(QUAD, 3),
    Call::Arrive(FIRST, &[1, 0, 0, 0, 1, 0, 12, 0, 2, 0, 0, 0]),
    Call::Arrive(
        FIRST,
        &[
            2, 0, 0, 0, 0, 0, 32, 0, 1, 0, 0, 0, 5, 0, 0, 0, 113, 117, 97, 100, 0, 0, 0, 0, 3, 0,
            0, 0, 3, 0, 0, 0,
        ],
    ),
    Call::Next(FIRST),
    Call::FinishBind(FIRST, 9),
    Call::Flush(FIRST),
    Call::TakeSent(FIRST),
];

/// A row of a table of runs: what a failing one is named, its calls, and what they have to tell.
pub struct Row {
    pub name: &'static str,
    pub acts: &'static [Act],
    pub told: &'static str,
}

/// Fails if a run of a new server tells something else than its row says.
pub fn rows_tell(rt: &(impl Eprint + AllocGlobal), rows: &[Row]) -> Result<(), Fail> {
    for row in rows {
        row_tells(rt, row.name, log_of(rt.alloc(), row.acts), row.told)?;
    }
    Ok(())
}
