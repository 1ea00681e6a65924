//! Calls of the map and of the link that take no memory, since there is room, and one of the transport by script that never does.
//! `./refusal-drill` counts what is allocated for each: nothing, but for those whose names begin with `control`.

use std::alloc::Global;
use std::test::Fail;
use test_kit::log::holds;
use test_kit::message::{Arg, message};
use wl_link::{BufferedSocket, Mailbox, Memory, Object, ObjectMap, Transport};
use wl_wire::{ArgumentType, Token, WL_CALLBACK_INTERFACE};

/// Names a call on standard error before it is made, if it has a name.
fn begin(rt: &impl Eprint, name: &str) {
    if !name.is_empty() {
        let _ = eprintln!(rt; "call: {name}");
    }
}

/// Ends what `begin` began.
fn end(rt: &impl Eprint, name: &str) {
    if !name.is_empty() {
        let _ = eprintln!(rt; "end");
    }
}

/// A call of a map.
#[derive(Clone, Copy)]
enum MapCall {
    /// Makes room for an insertion in each range.
    Reserve,
    /// Puts an object at this number.
    InsertAt(u32),
    /// Puts a new object of the client, which gets this number.
    ClientNew(u32),
    /// Puts a new object of the server, which gets this number.
    ServerNew(u32),
    /// This is the number of the client's next new object, asked for in both ways.
    NextClient(u32),
    /// This is the number of the server's next new object.
    NextServer(u32),
    /// Finds, lends and walks over the objects, of which one has this number.
    Look(u32),
    /// Takes the object of this number out.
    Remove(u32),
}

/// The calls of a new map, in order. One without a name makes ready for the next.
static MAP_CALLS: [(&str, MapCall); 13] = [
    ("control: reserve", MapCall::Reserve),
    ("client_insert_new with room", MapCall::ClientNew(1)),
    ("", MapCall::Reserve),
    (
        "server_insert_new with room",
        MapCall::ServerNew(0xFF00_0000),
    ),
    ("", MapCall::Reserve),
    ("insert_at with room", MapCall::InsertAt(2)),
    ("find, is_vacant, with, all_objects", MapCall::Look(2)),
    ("next_client, peek_client", MapCall::NextClient(3)),
    ("peek_server", MapCall::NextServer(0xFF00_0001)),
    ("remove of the client's", MapCall::Remove(1)),
    ("insert_at a free number", MapCall::InsertAt(1)),
    ("remove of the server's", MapCall::Remove(0xFF00_0000)),
    (
        "server_insert_new at a free number",
        MapCall::ServerNew(0xFF00_0000),
    ),
];

/// An object.
fn object() -> Object<u32> {
    Object {
        interface: WL_CALLBACK_INTERFACE,
        version: 1,
        value: 7,
    }
}

/// Whether the object is found, lent and walked over, and its number is not vacant.
fn looks(map: &mut ObjectMap<u32>, number: u32) -> bool {
    let lent = map.with(number, |object| object.value);
    let walked = map.all_objects().any(|(at, _)| at == number);
    map.find(number).is_some() && !map.is_vacant(number) && lent == Some(7) && walked
}

/// Makes the call; whether it answers what it has to.
fn is_made(map: &mut ObjectMap<u32>, call: MapCall) -> bool {
    match call {
        MapCall::Reserve => map.reserve().is_ok(),
        MapCall::InsertAt(number) => map.insert_at(number, object()).is_ok(),
        MapCall::ClientNew(number) => map.client_insert_new(object()) == Ok(number),
        MapCall::ServerNew(number) => map.server_insert_new(object()) == Ok(number),
        MapCall::NextClient(number) => {
            map.next_client() == Some(number) && map.peek_client() == Some(number)
        }
        MapCall::NextServer(number) => map.peek_server() == Some(number),
        MapCall::Look(number) => looks(map, number),
        MapCall::Remove(number) => map.remove(number).is_some(),
    }
}

/// Makes the calls, the named ones between `begin` and `end`.
fn map_calls(rt: &impl Eprint, map: &mut ObjectMap<u32>) -> Result<(), Fail> {
    for (name, call) in &MAP_CALLS {
        begin(rt, name);
        let is_made = is_made(map, *call);
        end(rt, name);
        holds(rt, name, is_made)?;
    }
    Ok(())
}

/// A call of a link.
#[derive(Clone, Copy)]
enum LinkCall {
    /// A message and so many tokens arrive.
    Arrive(usize),
    /// Receives once.
    Fill,
    /// Reads a message of a number and a descriptor.
    Read,
    /// Writes such a message.
    Write,
    /// Hands what waits to the transport, which sends it.
    Send,
}

/// The calls of a new link, in order. One without a name makes ready for the next.
static LINK_CALLS: [(&str, LinkCall); 13] = [
    ("", LinkCall::Arrive(28)),
    ("fill_incoming_buffers, no token waits", LinkCall::Fill),
    ("", LinkCall::Arrive(28)),
    ("fill_incoming_buffers, 28 tokens wait", LinkCall::Fill),
    ("", LinkCall::Arrive(1)),
    (
        "control: fill_incoming_buffers, 56 tokens wait",
        LinkCall::Fill,
    ),
    ("read_one_message", LinkCall::Read),
    ("", LinkCall::Arrive(1)),
    (
        "fill_incoming_buffers, with the room of before",
        LinkCall::Fill,
    ),
    ("write_message", LinkCall::Write),
    ("write_message, a token waits", LinkCall::Write),
    ("", LinkCall::Send),
    ("write_message again", LinkCall::Write),
];

/// A message of the number 3 and a descriptor.
static BYTES: [u8; 12] = [2, 0, 0, 0, 2, 0, 12, 0, 3, 0, 0, 0];

/// The tokens that arrive, or the first of them.
static TOKENS: [Token; 28] = [Token(1); 28];

/// The signature of the message.
static NUMBER_AND_FD: [ArgumentType; 2] = [ArgumentType::Uint, ArgumentType::Fd];

/// The message and so many tokens arrive; whether they are let in.
fn arrives(link: &mut BufferedSocket<Mailbox>, count: usize) -> bool {
    let Some(tokens) = TOKENS.get(..count) else {
        return false;
    };
    link.transport_mut().arrive(&BYTES, tokens).is_ok()
}

/// Writes the message; whether it is written.
fn writes(alloc: Global, link: &mut BufferedSocket<Mailbox>) -> Result<bool, Fail> {
    let message = message(alloc, (2, 2), &[Arg::Uint(3), Arg::Fd(4)])?;
    Ok(link.write_message(&message).is_ok())
}

/// Sends what waits; whether the transport takes it.
fn sends(link: &mut BufferedSocket<Mailbox>) -> bool {
    let flushed = link.flush();
    let mailbox = link.transport_mut();
    let count = mailbox.bytes().len();
    mailbox.sent(count);
    flushed == Ok(()) && count > 0
}

/// Makes the call; whether it does what it has to.
fn is_done(
    alloc: Global,
    link: &mut BufferedSocket<Mailbox>,
    call: LinkCall,
) -> Result<bool, Fail> {
    match call {
        LinkCall::Arrive(count) => Ok(arrives(link, count)),
        LinkCall::Fill => Ok(link.fill_incoming_buffers() == Ok(())),
        LinkCall::Read => Ok(link.read_one_message(|_, _| Some(&NUMBER_AND_FD)).is_ok()),
        LinkCall::Write => writes(alloc, link),
        LinkCall::Send => Ok(sends(link)),
    }
}

/// Makes the calls, the named ones between `begin` and `end`.
fn link_calls(
    rt: &(impl Eprint + AllocGlobal),
    link: &mut BufferedSocket<Mailbox>,
) -> Result<(), Fail> {
    for (name, call) in &LINK_CALLS {
        begin(rt, name);
        let is_done = is_done(rt.alloc(), link, *call);
        end(rt, name);
        holds(rt, name, is_done?)?;
    }
    Ok(())
}

/// Makes the calls of a map, which is new.
fn of_a_map(rt: &(impl Eprint + AllocGlobal)) -> Result<(), Fail> {
    let mut map = ObjectMap::new(rt.alloc());
    let answer = map_calls(rt, &mut map);
    drop(map);
    answer
}

/// Makes the calls of a link, which is new.
fn of_a_link(rt: &(impl Eprint + AllocGlobal)) -> Result<(), Fail> {
    let mut link = BufferedSocket::new(rt.alloc(), Mailbox::new(rt.alloc()), None)?;
    let answer = link_calls(rt, &mut link);
    drop(link);
    answer
}

/// Sends over a new script, which records that, and takes the record.
fn of_a_script(rt: &(impl Eprint + AllocGlobal)) -> Result<(), Fail> {
    let mut script = Memory::new(rt.alloc());
    begin(rt, "control: send_msg of a script");
    let sent = script.send_msg(&BYTES, &TOKENS);
    end(rt, "control: send_msg of a script");
    begin(rt, "take_sent");
    let taken = script.take_sent();
    end(rt, "take_sent");
    let is_taken = sent == Ok(12) && taken.len() == 1 && script.sent().is_empty();
    holds(rt, "take_sent", is_taken)
}

#[test]
fn takes_no_memory(rt: HostRuntime) -> Result<(), Fail> {
    of_a_map(&rt)?;
    of_a_link(&rt)?;
    of_a_script(&rt)
}
