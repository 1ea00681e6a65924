//! Whole rows of interfaces, some of which a table has already.

ghost use Rattle.std.specs.Prelude.{◌≡◌, ◌<◌, IfOk, MatchResult, OnOk, length, drop, map, option_map};
ghost use Rattle.std.specs.List.{list_any};
ghost use Rattle.std.specs.Str.{bytes_eq};
ghost use Rattle.std.specs.String.{string_bytes};
ghost use Rattle.wl_wire.specs.Table.{LongerRow, NewRows, extension_of, interface_row, interface_rows, message_row};
ghost use Rattle.wl_flat.specs.Extending.{Agrees, Extends, IsFirstFaultOfRows, Lengthens, Takes, agree_on, children_agree, contradiction_of, differ_from, difference, fault_at, has_more, interfaces_agree, joined, longer_seen, messages_agree, no_parts, part_of, parts_of, parts_seen, place_of, told_at, told_of_new, types_agree};

use crate::flat::count_number;
use crate::rows::{TableFault, fault};
use std::alloc::Global;
use wl_wire::{
    ANONYMOUS_INTERFACE, ArgumentType, Interface, InterfaceId, MessageDesc, OutOfMemory, Protocol,
    TableError,
};

/// Why whole rows were refused, or only some of them taken.
#[repr(C)]
#[derive(Clone, Copy, Debug, PartialEq, Eq, Drop)]
pub struct ExtensionFault {
    /// The place of the interface among the rows, counted from 0. It is 0 if there was no memory.
    pub interface: u32,
    /// The fault, one of those of the module [`fault`].
    pub fault: u32,
    /// Of `fault::CONTRADICTS`: 1 if the message that differs is an event, 0 if it is a request. Of the others 0.
    pub is_event: u32,
    /// Of `fault::CONTRADICTS`: the opcode of that message. Of the others 0.
    pub opcode: u32,
    /// Of `fault::CONTRADICTS`: the version of the interface in the table. Of the others 0.
    pub version: u32,
}

impl From<TableFault> for ExtensionFault {
    ghost use Rattle.wl_flat.specs.Extending.{fault_as_told};

    ghost from_gives = { λ refused fault. fault ≡ fault_as_told refused };

    fn from(refused: TableFault) -> ExtensionFault {
        ExtensionFault {
            interface: refused.interface,
            fault: refused.fault,
            is_event: 0,
            opcode: 0,
            version: 0,
        }
    }
}

/// The first message in which a row and the interface of its name differ.
#[derive(Clone, Copy)]
struct Mismatch {
    is_event: bool,
    opcode: usize,
}

/// Whether the interfaces that two messages name at one place are the same, or one of them names none.
fn agree_on(there: InterfaceId, said: InterfaceId) -> bool
    ensures { result ≡ agree_on there said }
{
    there.0 == said.0 || there.0 == ANONYMOUS_INTERFACE.0 || said.0 == ANONYMOUS_INTERFACE.0
}

/// Whether the interfaces of object arguments agree.
fn interfaces_agree(there: &[InterfaceId], said: &[InterfaceId]) -> bool
    ensures { result ≡ interfaces_agree there.now said.now }
{
    if there.len() != said.len() {
        return false;
    }
    for at in 0..there.len() {
        if !agree_on(there[at], said[at]) {
            return false;
        }
    }
    true
}

/// Whether the interfaces of new objects agree.
fn children_agree(there: Option<InterfaceId>, said: Option<InterfaceId>) -> bool
    ensures { result ≡ children_agree there said }
{
    match (there, said) {
        (Some(one), Some(other)) => agree_on(one, other),
        _ => true,
    }
}

/// Whether the arguments have the same types, no matter which of them allow null.
fn types_agree(there: &[ArgumentType], said: &[ArgumentType]) -> bool
    ensures { result ≡ types_agree there.now said.now }
{
    if there.len() != said.len() {
        return false;
    }
    for at in 0..there.len() {
        if !there[at].same_type(said[at]) {
            return false;
        }
    }
    true
}

/// Whether two messages of one opcode are the same to both sides of a connection.
fn messages_agree(there: &MessageDesc, said: &MessageDesc) -> bool
    ensures { result ≡ messages_agree (message_row there.now) (message_row said.now) }
{
    there.name.as_str() == said.name.as_str()
        && there.since == said.since
        && types_agree(&there.signature, &said.signature)
        && children_agree(there.child_interface, said.child_interface)
        && interfaces_agree(&there.arg_interfaces, &said.arg_interfaces)
}

/// The first opcode of which both lists have a message, but not the same.
fn first_difference(there: &[MessageDesc], said: &[MessageDesc]) -> Option<usize>
    ensures { result ≡ differ_from 0 (map message_row there.now) (map message_row said.now) }
{
    for opcode in 0..there.len().min(said.len()) {
        if !messages_agree(&there[opcode], &said[opcode]) {
            return Some(opcode);
        }
    }
    None
}

/// The first request in which a row and the interface of its name differ, or else the first event.
fn first_mismatch(there: &Interface, said: &Interface) -> Option<Mismatch>
    ensures { result ≡ difference (interface_row there.now) (interface_row said.now) }
{
    if let Some(opcode) = first_difference(&there.requests, &said.requests) {
        return Some(Mismatch {
            is_event: false,
            opcode,
        });
    }
    match first_difference(&there.events, &said.events) {
        Some(opcode) => Some(Mismatch {
            is_event: true,
            opcode,
        }),
        None => None,
    }
}

/// Whether the row has a message or a version that the interface of its name lacks.
pub fn has_more(there: &Interface, said: &Interface) -> bool
    ensures { result ≡ has_more (interface_row there.now) (interface_row said.now) }
{
    there.version < said.version
        || there.requests.len() < said.requests.len()
        || there.events.len() < said.events.len()
}

/// The number of the interface of that name in the table.
pub fn place_of(protocol: &Protocol, name: &str) -> Option<InterfaceId>
    ensures { option_map (λ id. id.0) result ≡ place_of protocol.now name.now }
{
    for place in 0..protocol.len() {
        if name == protocol.name(InterfaceId(place)) {
            return Some(InterfaceId(place));
        }
    }
    None
}

/// Whether one of the interfaces has the name.
fn any_named(interfaces: &[Interface], name: &str) -> bool
    ensures { result ≡ list_any (λ i. bytes_eq name.now (string_bytes i.name)) interfaces.now }
{
    interfaces
        .iter()
        .any(|earlier| name == earlier.name.as_str())
}

/// Where the row contradicts the interface of its name, if the table has one.
fn contradiction(protocol: &Protocol, said: &Interface, at: usize) -> Option<ExtensionFault>
    ensures { result ≡ contradiction_of protocol.now at (interface_row said.now) }
{
    let id = place_of(protocol, &said.name)?;
    let there = protocol.get(id)?;
    let mismatch = first_mismatch(there, said)?;
    Some(ExtensionFault {
        interface: count_number(at),
        fault: fault::CONTRADICTS,
        is_event: u32::from(mismatch.is_event),
        opcode: count_number(mismatch.opcode),
        version: there.version,
    })
}

/// What is wrong with the row at that place, before anything is changed.
fn fault_of_row(protocol: &Protocol, rows: &[Interface], at: usize) -> Option<ExtensionFault>
    requires { at < length rows.now }
    ensures { result ≡ fault_at protocol.now (interface_rows rows.now) at }
{
    let said = &rows[at];
    if any_named(&rows[..at], &said.name) {
        let repeated = TableFault::from(TableError::DuplicateName(at));
        return Some(ExtensionFault::from(repeated));
    }
    contradiction(protocol, said, at)
}

/// Compares the rows with the table. The fault is that of the first row which has one.
fn compare(protocol: &Protocol, rows: &[Interface]) -> Result<(), ExtensionFault>
    ensures { MatchResult result (λ _. Agrees protocol.now (interface_rows rows.now)) (IsFirstFaultOfRows protocol.now (interface_rows rows.now)) }
{
    for at in 0..rows.len() {
        if let Some(fault) = fault_of_row(protocol, rows, at) {
            return Err(fault);
        }
    }
    Ok(())
}

/// What a row has more than the interface of its name.
#[derive(Drop)]
struct Longer {
    /// The place of the row.
    at: usize,
    /// The interface.
    id: InterfaceId,
    version: u32,
    requests: Vec<MessageDesc>,
    events: Vec<MessageDesc>,
}

/// What rows have that a table lacks.
#[derive(Drop)]
struct Parts {
    /// The interfaces whose names are new.
    new_rows: Vec<Interface>,
    /// The place of each of them among the rows.
    new_at: Vec<usize>,
    /// What the other rows have more.
    longer: Vec<Longer>,
}

/// The messages after the first `count`.
pub fn rest(messages: Vec<MessageDesc>, count: usize) -> Vec<MessageDesc>
    ensures { map message_row result.items ≡ drop count (map message_row messages.items) }
{
    let mut rest = messages;
    rest.drain(..count.min(rest.len()));
    rest
}

impl Parts {
    fn new(alloc: Global) -> Self
        ensures { parts_seen result ≡ no_parts }
    {
        Parts {
            new_rows: Vec::new(alloc),
            new_at: Vec::new(alloc),
            longer: Vec::new(alloc),
        }
    }

    /// Takes in what the row at that place has.
    fn push(&mut self, protocol: &Protocol, at: usize, said: Interface) -> Result<(), OutOfMemory>
        ensures { OnOk result (parts_seen self.new ≡ joined (parts_seen self.old) (part_of protocol.now at (interface_row said))) }
    {
        let Some(id) = place_of(protocol, &said.name) else {
            self.new_at.push(at)?;
            self.new_rows.push(said)?;
            return Ok(());
        };
        let Some(there) = protocol.get(id) else {
            return Ok(());
        };
        if has_more(there, &said) {
            self.longer.push(Longer {
                at,
                id,
                version: said.version,
                requests: rest(said.requests, there.requests.len()),
                events: rest(said.events, there.events.len()),
            })?;
        }
        Ok(())
    }
}

/// Takes the rows apart.
fn parts_of(alloc: Global, protocol: &Protocol, rows: Vec<Interface>) -> Result<Parts, OutOfMemory>
    ensures { IfOk result (λ parts. parts_seen parts ≡ parts_of protocol.now (interface_rows rows.items)) }
{
    let mut parts = Parts::new(alloc);
    for (at, said) in rows.into_iter().enumerate() {
        parts.push(protocol, at, said)?;
    }
    Ok(parts)
}

/// The core of a session, as far as its table grows.
pub trait Growing<Session> {
    ghost use Rattle.std.specs.Prelude.{List, Result};
    ghost use Rattle.wl_wire.specs.declared.protocol.TableError.{TableError};
    ghost use Rattle.wl_wire.specs.Table.{Growth, InterfaceRow};

    /// The table.
    ghost table_of: { Self → List InterfaceRow };

    /// What a growth makes of the session.
    ghost grows: { Self → Growth → Result (Unit {0}) TableError → Self → Type 0 };

    /// The table.
    fn table(&self) -> &Protocol
        ensures { result.now ≡ table_of self.now };

    /// Adds interfaces to the table.
    fn add(&mut self, interfaces: Vec<Interface>) -> Result<(), TableError>
        ensures { grows self.old (NewRows (interface_rows interfaces.items)) result self.new };

    /// Appends messages to those of an interface.
    fn lengthen(
        &mut self,
        id: InterfaceId,
        version: u32,
        requests: Vec<MessageDesc>,
        events: Vec<MessageDesc>,
    ) -> Result<(), TableError>
        ensures { grows self.old (LongerRow (extension_of id version requests.items events.items)) result self.new };
}

/// The core's fault of the row at that place.
fn told_at(at: usize, refused: TableFault) -> ExtensionFault
    ensures { result ≡ told_at at refused }
{
    let mut told = ExtensionFault::from(refused);
    if refused.fault != fault::OUT_OF_MEMORY {
        told.interface = count_number(at);
    }
    told
}

/// The core's fault of the new rows, which stand at these places.
fn told_of_new(new_at: &[usize], refused: TableFault) -> ExtensionFault
    ensures { result ≡ told_of_new new_at.now refused }
{
    let at = new_at.get(refused.interface as usize).copied();
    told_at(at.unwrap_or(0), refused)
}

/// Extends the interfaces, one after the other.
fn lengthen<Session, T: Growing<Session>>(
    core: &mut T,
    longer: Vec<Longer>,
) -> Result<(), ExtensionFault>
    ensures { Lengthens T.grows core.old (map longer_seen longer.items) result core.new }
{
    for more in longer {
        let at = more.at;
        match core.lengthen(more.id, more.version, more.requests, more.events) {
            Ok(()) => {}
            Err(error) => return Err(told_at(at, TableFault::from(error))),
        }
    }
    Ok(())
}

/// Adds the new rows, and then extends the other interfaces.
fn take<Session, T: Growing<Session>>(core: &mut T, parts: Parts) -> Result<(), ExtensionFault>
    ensures { Takes T.grows core.old (parts_seen parts) result core.new }
{
    match core.add(parts.new_rows) {
        Ok(()) => lengthen(core, parts.longer),
        Err(error) => Err(told_of_new(&parts.new_at, TableFault::from(error))),
    }
}

/// Extends the table by the rows.
pub fn extend<Session, T: Growing<Session>>(
    alloc: Global,
    core: &mut T,
    rows: Vec<Interface>,
) -> Result<(), ExtensionFault>
    ensures { Extends T.grows (T.table_of core.old) (interface_rows rows.items) core.old result core.new }
{
    compare(core.table(), &rows)?;
    match parts_of(alloc, core.table(), rows) {
        Ok(parts) => take(core, parts),
        Err(_) => Err(ExtensionFault::from(TableFault::from(TableError::OutOfMemory))),
    }
}
