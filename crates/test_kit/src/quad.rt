//! A table with two interfaces of the tests' own: `quad`, of version 3, and `pair`.

use std::alloc::Global;
use std::test::Fail;
use wl_wire::{AllowNull, ArgumentType, Interface, InterfaceId, MessageDesc, Protocol};

/// The interface `quad`.
pub const QUAD: InterfaceId = InterfaceId(4);

/// The interface `pair`.
pub const PAIR: InterfaceId = InterfaceId(5);

/// The opcode of `quad.make`.
pub const MAKE: u16 = 1;

/// The opcode of `quad.destroy`.
pub const DESTROY: u16 = 2;

/// The opcode of `quad.link`.
pub const LINK: u16 = 3;

/// The opcode of `quad.give`.
pub const GIVE: u16 = 4;

/// The opcode of `pair.join`.
pub const JOIN: u16 = 0;

/// A message of the table as plain data. Its new object and its object arguments are of `quad`.
#[derive(Clone, Copy)]
pub struct Row {
    name: &'static str,
    since: u32,
    is_destructor: bool,
    signature: &'static [ArgumentType],
}

/// An object that may not be null.
const OBJECT: ArgumentType = ArgumentType::Object(AllowNull::No);

/// A string that may not be null.
const STR: ArgumentType = ArgumentType::Str(AllowNull::No);

/// The message of that name and signature, which ends no object.
pub fn plain(name: &'static str, since: u32, signature: &'static [ArgumentType]) -> Row {
    Row {
        name,
        since,
        is_destructor: false,
        signature,
    }
}

/// The message of that name without arguments, which ends its object.
pub fn destructor(name: &'static str) -> Row {
    Row {
        name,
        since: 1,
        is_destructor: true,
        signature: &[],
    }
}

/// The requests of `quad`.
fn quad_requests() -> [Row; 5] {
    [
        plain("poke", 1, &[ArgumentType::Int]),
        plain("make", 2, &[ArgumentType::NewId]),
        destructor("destroy"),
        plain("link", 1, &[ArgumentType::Object(AllowNull::Yes), OBJECT]),
        plain("give", 1, &[STR, ArgumentType::Array, ArgumentType::Fd]),
    ]
}

/// The events of `quad`.
fn quad_events() -> [Row; 3] {
    [
        plain("moved", 1, &[ArgumentType::Int]),
        plain("made", 1, &[ArgumentType::NewId]),
        destructor("gone"),
    ]
}

/// The arguments of `pair.join` and of `pair.joined`.
const JOINING: [ArgumentType; 5] = [OBJECT, OBJECT, STR, ArgumentType::Array, ArgumentType::Fd];

/// Whether this argument makes an object.
fn is_new(kind: ArgumentType) -> bool {
    matches!(kind, ArgumentType::NewId)
}

/// The interface of each object argument.
fn object_interfaces(alloc: Global, row: &Row) -> Result<Vec<InterfaceId>, Fail> {
    let mut interfaces = Vec::new(alloc);
    for kind in row.signature {
        if matches!(kind, ArgumentType::Object(_)) {
            interfaces.push(QUAD)?;
        }
    }
    Ok(interfaces)
}

/// The description of the message.
fn described(alloc: Global, row: &Row) -> Result<MessageDesc, Fail> {
    Ok(MessageDesc {
        name: String::from_str(alloc, row.name)?,
        signature: Vec::from_slice(alloc, row.signature)?,
        since: row.since,
        is_destructor: row.is_destructor,
        child_interface: row
            .signature
            .iter()
            .any(|kind| is_new(*kind))
            .then_some(QUAD),
        arg_interfaces: object_interfaces(alloc, row)?,
    })
}

/// Appends the descriptions of the messages to the others.
fn push_messages(alloc: Global, messages: &mut Vec<MessageDesc>, rows: &[Row]) -> Result<(), Fail> {
    for row in rows {
        messages.push(described(alloc, row)?)?;
    }
    Ok(())
}

/// The descriptions of the messages.
pub fn messages(alloc: Global, rows: &[Row]) -> Result<Vec<MessageDesc>, Fail> {
    let mut messages = Vec::new(alloc);
    push_messages(alloc, &mut messages, rows)?;
    Ok(messages)
}

/// Appends an interface with these requests and events to the others.
pub fn push_interface(
    alloc: Global,
    interfaces: &mut Vec<Interface>,
    name: &str,
    version: u32,
    requests: &[Row],
    events: &[Row],
) -> Result<(), Fail> {
    let mut interface = Interface {
        name: String::from_str(alloc, name)?,
        version,
        requests: Vec::new(alloc),
        events: Vec::new(alloc),
    };
    push_messages(alloc, &mut interface.requests, requests)?;
    push_messages(alloc, &mut interface.events, events)?;
    interfaces.push(interface)?;
    Ok(())
}

/// The table.
pub fn quad_table(alloc: Global) -> Result<Protocol, Fail> {
    let join = plain("join", 1, &JOINING);
    let joined = plain("joined", 1, &JOINING);
    let mut interfaces = Vec::new(alloc);
    push_interface(
        alloc,
        &mut interfaces,
        "quad",
        3,
        &quad_requests(),
        &quad_events(),
    )?;
    push_interface(alloc, &mut interfaces, "pair", 1, &[join], &[joined])?;
    Ok(Protocol::new(alloc, interfaces)?)
}
