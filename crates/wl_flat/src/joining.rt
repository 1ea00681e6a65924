//! One whole interface that joins a table: which row it is.
//!
//! `extending` takes many at once, and is less strict: two structs of libwayland stand for one interface only if a handler of the one
//! may take the messages of the other.

ghost use Rattle.std.specs.Prelude.{◌≡◌, OnOk, length, map, option_map};
ghost use Rattle.wl_wire.specs.Table.{interface_row, interface_rows, message_row};
ghost use Rattle.wl_flat.specs.Extending.{fault_as_told};
ghost use Rattle.wl_flat.specs.Rows.{row_fault};
ghost use Rattle.wl_flat.specs.Joining.{AddsRow, IsNamed, Joins, JoinsOthers, TakesRest, contrast, fit, numbered, only, same_child, same_flag, same_interfaces, same_message, same_type, same_types, unlike, unlike_from};

use crate::extending::{ExtensionFault, Growing, has_more, place_of, rest};
use crate::flat::count_number;
use crate::nulls::allows_null;
use crate::rows::{TableFault, fault};
use std::alloc::Global;
use wl_wire::{
    ArgumentType, Interface, InterfaceId, MessageDesc, OutOfMemory, Protocol, TableError,
};

/// What a table has of an interface.
#[derive(Clone, Copy)]
pub enum Fit {
    /// No row of its name.
    Nothing,
    /// A row of its name with the same messages, as far as both have some.
    Row(InterfaceId),
    /// A row of its name that differs, and where.
    Other(ExtensionFault),
}

/// Whether both are true, or both false.
fn same_flag(there: bool, said: bool) -> bool
    ensures { result ≡ same_flag there said }
{
    if there { said } else { !said }
}

/// Whether the types are the same, and both or neither allow null.
fn same_type(there: ArgumentType, said: ArgumentType) -> bool
    ensures { result ≡ same_type there said }
{
    there.same_type(said) && same_flag(allows_null(there), allows_null(said))
}

/// Whether the arguments have the same types.
fn same_types(there: &[ArgumentType], said: &[ArgumentType]) -> bool
    ensures { result ≡ same_types there.now said.now }
{
    if there.len() != said.len() {
        return false;
    }
    for at in 0..there.len() {
        if !same_type(there[at], said[at]) {
            return false;
        }
    }
    true
}

/// Whether the interfaces of object arguments are the same.
fn same_interfaces(there: &[InterfaceId], said: &[InterfaceId]) -> bool
    ensures { result ≡ same_interfaces there.now said.now }
{
    if there.len() != said.len() {
        return false;
    }
    for at in 0..there.len() {
        if there[at].0 != said[at].0 {
            return false;
        }
    }
    true
}

/// Whether the interfaces of new objects are the same.
fn same_child(there: Option<InterfaceId>, said: Option<InterfaceId>) -> bool
    ensures { result ≡ same_child there said }
{
    match (there, said) {
        (Some(one), Some(other)) => one.0 == other.0,
        (None, None) => true,
        _ => false,
    }
}

/// Whether two messages are the same, but for which of them ends its object.
fn same_message(there: &MessageDesc, said: &MessageDesc) -> bool
    ensures { result ≡ same_message (message_row there.now) (message_row said.now) }
{
    there.name.as_str() == said.name.as_str()
        && there.since == said.since
        && same_types(&there.signature, &said.signature)
        && same_child(there.child_interface, said.child_interface)
        && same_interfaces(&there.arg_interfaces, &said.arg_interfaces)
}

/// The first opcode of which both lists have a message, but not the same.
fn first_unlike(there: &[MessageDesc], said: &[MessageDesc]) -> Option<usize>
    ensures { result ≡ unlike_from 0 (map message_row there.now) (map message_row said.now) }
{
    for opcode in 0..there.len().min(said.len()) {
        if !same_message(&there[opcode], &said[opcode]) {
            return Some(opcode);
        }
    }
    None
}

/// The message of that opcode differs. `is_event` is 1 of an event, and 0 of a request.
fn unlike(there: &Interface, is_event: u32, opcode: usize) -> ExtensionFault
    ensures { result ≡ unlike (interface_row there.now) is_event opcode }
{
    ExtensionFault {
        interface: 0,
        fault: fault::CONTRADICTS,
        is_event,
        opcode: count_number(opcode),
        version: there.version,
    }
}

/// The first request in which a row and the interface differ, or else the first event.
fn contrast(there: &Interface, said: &Interface) -> Option<ExtensionFault>
    ensures { result ≡ contrast (interface_row there.now) (interface_row said.now) }
{
    if let Some(opcode) = first_unlike(&there.requests, &said.requests) {
        return Some(unlike(there, 0, opcode));
    }
    match first_unlike(&there.events, &said.events) {
        Some(opcode) => Some(unlike(there, 1, opcode)),
        None => None,
    }
}

/// What the table has of the interface.
fn fit_in(protocol: &Protocol, said: &Interface) -> Fit
    ensures { result ≡ fit protocol.now (interface_row said.now) }
{
    let Some(id) = place_of(protocol, &said.name) else {
        return Fit::Nothing;
    };
    let Some(there) = protocol.get(id) else {
        return Fit::Nothing;
    };
    match contrast(there, said) {
        None => Fit::Row(id),
        Some(fault) => Fit::Other(fault),
    }
}

/// The interface's number, or why the core refused it.
fn numbered(place: usize, answer: Result<(), TableError>) -> Result<u32, ExtensionFault>
    ensures { result ≡ numbered place answer }
{
    match answer {
        Ok(()) => Ok(count_number(place)),
        Err(error) => Err(ExtensionFault::from(TableFault::from(error))),
    }
}

/// Adds the interface as a new row.
fn add_row<Session, T: Growing<Session>>(
    alloc: Global,
    core: &mut T,
    said: Interface,
) -> Result<u32, ExtensionFault>
    ensures { AddsRow T.grows (T.table_of core.old) (interface_row said) core.old result core.new }
{
    let place = core.table().len();
    let mut rows = Vec::new(alloc);
    if rows.push(said).is_err() {
        return Err(ExtensionFault::from(TableFault::from(TableError::OutOfMemory)));
    }
    numbered(place, core.add(rows))
}

/// Extends the row by what it lacks.
fn take_rest<Session, T: Growing<Session>>(
    core: &mut T,
    id: InterfaceId,
    said: Interface,
) -> Result<u32, ExtensionFault>
    ensures { TakesRest T.grows (T.table_of core.old) id.0 (interface_row said) core.old result core.new }
{
    let Some(there) = core.table().get(id) else {
        return Ok(count_number(id.0));
    };
    if !has_more(there, &said) {
        return Ok(count_number(id.0));
    }
    let requests = rest(said.requests, there.requests.len());
    let events = rest(said.events, there.events.len());
    numbered(id.0, core.lengthen(id, said.version, requests, events))
}

/// Takes the interface into a table in which its name has one row.
pub fn join<Session, T: Growing<Session>>(
    alloc: Global,
    core: &mut T,
    said: Interface,
) -> Result<u32, ExtensionFault>
    ensures { Joins T.grows (T.table_of core.old) (interface_row said) core.old result core.new }
{
    match fit_in(core.table(), &said) {
        Fit::Nothing => add_row(alloc, core, said),
        Fit::Row(id) => take_rest(core, id, said),
        Fit::Other(fault) => Err(fault),
    }
}

/// Puts apostrophes behind the interface's name until no row of the name differs.
fn name_apart(protocol: &Protocol, said: &mut Interface) -> Result<(), OutOfMemory>
    ensures { OnOk result (IsNamed protocol.now (interface_row said.old) (interface_row said.new)) }
{
    while let Fit::Other(_) = fit_in(protocol, said) {
        said.name.push_str("'")?;
    }
    Ok(())
}

/// Takes the interface into a table that may have others of its name.
pub fn join_others<Session, T: Growing<Session>>(
    alloc: Global,
    core: &mut T,
    said: Interface,
) -> Result<u32, ExtensionFault>
    ensures { JoinsOthers T.grows (T.table_of core.old) (interface_row said) core.old result core.new }
{
    let mut said = said;
    match name_apart(core.table(), &mut said) {
        Ok(()) => join(alloc, core, said),
        Err(_) => Err(ExtensionFault::from(TableFault::from(TableError::OutOfMemory))),
    }
}

/// The rows are not those of one interface.
pub fn not_one() -> ExtensionFault
    ensures { result ≡ fault_as_told (row_fault 0) }
{
    ExtensionFault::from(TableFault {
        interface: 0,
        fault: fault::ROW,
    })
}

/// The interface, if it is the only one.
pub fn only(interfaces: Vec<Interface>) -> Option<Interface>
    ensures { option_map interface_row result ≡ only (interface_rows interfaces.items) }
{
    let mut interfaces = interfaces;
    if interfaces.len() != 1 {
        return None;
    }
    interfaces.pop()
}
