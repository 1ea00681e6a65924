//! What is looked up: interfaces by their names, messages by their opcodes, and a message that stays where it is.

use super::{STR, queue};
use smallvec::SmallVec;
use std::alloc::Global;
use std::collections::VecDeque;
use std::test::Fail;
use test_kit::log::tells;
use test_kit::message::tell_message;
use test_kit::quad::{PAIR, QUAD, quad_table};
use wl_wire::{
    ArgumentType, InterfaceId, Message, MessageDesc, Protocol, Token, WL_CALLBACK_INTERFACE,
    fd_places, peek_into,
};

/// Names, and the ids that they have in the table of `quad` and `pair`.
static NAMES: [(&str, Option<InterfaceId>); 6] = [
    ("wl_callback", Some(WL_CALLBACK_INTERFACE)),
    ("quad", Some(QUAD)),
    ("pair", Some(PAIR)),
    ("qua", None),
    ("quads", None),
    ("", None),
];

/// Whether the table finds this id by the name, as text and as bytes.
fn finds(table: &Protocol, name: &str, id: Option<InterfaceId>) -> bool {
    table.find(name) == id && table.find_bytes(name.as_bytes()) == id
}

#[test]
fn interfaces_are_found_by_their_names(rt: HostRuntime) -> Result<(), Fail> {
    let table = quad_table(rt.alloc())?;
    for (name, id) in &NAMES {
        assert!(rt; finds(&table, name, *id), "{name}");
    }
    assert_eq!(rt; table.len(), 6);
    Ok(())
}

/// Tells the name of a message, if there is one.
fn tell_name(log: &mut String, desc: Option<&MessageDesc>) -> Result<(), Fail> {
    match desc {
        Some(desc) => Ok(writeln!(log, "{}", desc.name)?),
        None => Ok(writeln!(log, "none")?),
    }
}

/// A message that is looked up, by its interface and its opcode.
enum Sought {
    Request(InterfaceId, u16),
    Event(InterfaceId, u16),
}

/// The messages that are looked up.
static SOUGHT: [Sought; 6] = [
    Sought::Request(QUAD, 1),
    Sought::Request(QUAD, 5),
    Sought::Event(QUAD, 2),
    Sought::Event(QUAD, 3),
    Sought::Request(InterfaceId(6), 0),
    Sought::Event(InterfaceId(6), 0),
];

/// Tells the name of each that the table has.
fn tell_sought(log: &mut String, table: &Protocol) -> Result<(), Fail> {
    for sought in &SOUGHT {
        let desc = match sought {
            Sought::Request(interface, opcode) => table.request(*interface, *opcode),
            Sought::Event(interface, opcode) => table.event(*interface, *opcode),
        };
        tell_name(log, desc)?;
    }
    Ok(())
}

/// The names of some requests and events.
fn names_log(alloc: Global) -> Result<String, Fail> {
    let table = quad_table(alloc)?;
    let mut log = String::new(alloc);
    tell_sought(&mut log, &table)?;
    Ok(log)
}

#[test]
fn messages_are_found_by_their_opcodes(rt: HostRuntime) -> Result<(), Fail> {
    tells(
        &rt,
        names_log(rt.alloc()),
        "make\nnone\ngone\nnone\nnone\nnone\n",
    )
}

/// A string and two descriptors.
const SIGNATURE: [ArgumentType; 3] = [ArgumentType::Fd, STR, ArgumentType::Fd];

/// A message of that signature, and the header of another.
const BYTES: [u8; 24] = [
    7, 0, 0, 0, 2, 0, 16, 0, 3, 0, 0, 0, b'h', b'i', 0, 0, 8, 0, 0, 0, 0, 0, 8, 0,
];

/// Looks at the message, and tells it.
fn tell_peeked(log: &mut String, waiting: &mut VecDeque<Token>) -> Result<(), Fail> {
    let alloc = *log.allocator();
    let mut message = Message {
        sender_id: 0,
        opcode: 0,
        args: SmallVec::new(alloc),
    };
    peek_into(alloc, &BYTES, &SIGNATURE, waiting, &mut message)?;
    tell_message(log, &message)
}

/// Tells the message, how many descriptors it has, and how many tokens wait after a look at it.
fn tell_peek(log: &mut String) -> Result<(), Fail> {
    let mut waiting = queue(*log.allocator(), &[Token(4), Token(5), Token(6)])?;
    tell_peeked(log, &mut waiting)?;
    let (places, left) = (fd_places(&SIGNATURE), waiting.len());
    Ok(write!(log, "; {places} of {left} tokens")?)
}

/// What `tell_peek` tells.
fn peek_log(alloc: Global) -> Result<String, Fail> {
    let mut log = String::new(alloc);
    tell_peek(&mut log)?;
    Ok(log)
}

#[test]
fn message_that_is_looked_at_keeps_its_tokens(rt: HostRuntime) -> Result<(), Fail> {
    tells(
        &rt,
        peek_log(rt.alloc()),
        "7, 2: fd 4: string hi: fd 5; 2 of 3 tokens",
    )
}
