//! A table of interfaces as flat rows, and the interfaces that the rows say.

ghost use Rattle.std.specs.Prelude.{◌≡◌, ◌<◌, Some, Ok, IfErr, map, length, MatchResult, option_map};
ghost use Rattle.std.specs.String.{string_bytes};
ghost use Rattle.wl_wire.specs.Table.{interface_row, interface_rows, message_row};
ghost use Rattle.wl_flat.specs.Rows.{IsRead, RefusesRows, cut, interface_said, message_said, name_at, next_messages, row_fault, said_by, fault_of, table_answer, type_of, with_argument};
ghost use Rattle.wl_flat.specs.declared.rows.RowError.TheVariants as row_error;
ghost use Rattle.wl_wire.specs.declared.protocol.TableError.TheVariants as table_error;

use crate::flat::{count_number, kind};
use std::alloc::{AllocError, AllocFailed, Global};
use wl_wire::{
    ANONYMOUS_INTERFACE, AllowNull, ArgumentType, Interface, InterfaceId, MessageDesc, OutOfMemory,
    TableError,
};

/// An interface. Its requests and then its events are the next rows of the messages.
#[repr(C)]
#[derive(Clone, Copy, Debug, Drop)]
pub struct InterfaceRow {
    /// Where its name begins in the text.
    pub name_at: u32,
    /// How many bytes its name has.
    pub name_length: u32,
    /// The greatest version that is supported.
    pub version: u32,
    /// How many requests it has.
    pub requests: u32,
    /// How many events it has.
    pub events: u32,
}

/// A request or an event. Its arguments are the next rows of the arguments.
#[repr(C)]
#[derive(Clone, Copy, Debug, Drop)]
pub struct MessageRow {
    /// Where its name begins in the text.
    pub name_at: u32,
    /// How many bytes its name has.
    pub name_length: u32,
    /// The least version of the interface that has it.
    pub since: u32,
    /// Not 0 if it is a destructor.
    pub is_destructor: u32,
    /// How many arguments it has.
    pub arguments: u32,
}

/// An argument of a request or an event.
#[repr(C)]
#[derive(Clone, Copy, Debug, Drop)]
pub struct ArgumentRow {
    /// The kind: one of those of the module `kind`, except `NULL_STRING`.
    pub kind: u32,
    /// Not 0 if a string or an object may be null.
    pub is_nullable: u32,
    /// The interface of an object or a new id: 0 if it may be any, 1 `wl_display`, 2 `wl_registry`, 3 `wl_callback`, and from
    /// 4 on the program's own, in order.
    pub interface: u32,
}

/// The rows of some interfaces, and the text that has their names.
#[derive(Clone, Copy, Debug, Drop)]
pub struct Rows<'a> {
    /// The names, in UTF-8.
    pub text: &'a [u8],
    /// The interfaces.
    pub interfaces: &'a [InterfaceRow],
    /// The requests and events of each interface, one interface after the other.
    pub messages: &'a [MessageRow],
    /// The arguments of each message, one message after the other.
    pub arguments: &'a [ArgumentRow],
}

/// Why the rows are no table, or no more of one.
#[repr(C)]
#[derive(Clone, Copy, Debug, PartialEq, Eq, Drop)]
pub struct TableFault {
    /// The place of the interface among the rows, counted from 0. It is 0 if there was no memory.
    pub interface: u32,
    /// The fault, one of those of the module [`fault`].
    pub fault: u32,
}

/// The faults of a table.
pub mod fault {
    /// None.
    pub const NONE: u32 = 0;
    /// A row names what is not there: a name outside the text or not in UTF-8, messages or arguments behind the last row, or
    /// a kind of argument that there is not.
    pub const ROW: u32 = 1;
    /// `TableError::ZeroInName`: a name has a zero byte.
    pub const ZERO_IN_NAME: u32 = 2;
    /// `TableError::DuplicateName`: the name is taken.
    pub const DUPLICATE_NAME: u32 = 3;
    /// `TableError::UnknownInterface`: a message names an interface outside the table; or the row would extend a fixed interface.
    pub const UNKNOWN_INTERFACE: u32 = 4;
    /// `TableError::TooManyNewIds`: a message has more than one new id.
    pub const TOO_MANY_NEW_IDS: u32 = 5;
    /// `TableError::MissingChild`: a new id has no interface.
    pub const MISSING_CHILD: u32 = 6;
    /// `TableError::ArgInterfaces`: a message has not one interface for each object argument. No rows have this fault.
    pub const ARGUMENT_INTERFACES: u32 = 7;
    /// There was no memory for the table.
    pub const OUT_OF_MEMORY: u32 = 8;
    /// A row contradicts the interface of its name in the table. Only `extend_interfaces` answers it.
    pub const CONTRADICTS: u32 = 9;
}

impl From<TableError> for TableFault {
    ghost use Rattle.wl_flat.specs.Rows.{fault_of};

    ghost from_gives = { λ error fault. fault ≡ fault_of error };

    fn from(error: TableError) -> TableFault {
        let (at, fault) = match error {
            TableError::ZeroInName(at) => (at, fault::ZERO_IN_NAME),
            TableError::DuplicateName(at) => (at, fault::DUPLICATE_NAME),
            TableError::UnknownInterface(at) => (at, fault::UNKNOWN_INTERFACE),
            TableError::TooManyNewIds(at) => (at, fault::TOO_MANY_NEW_IDS),
            TableError::MissingChild(at) => (at, fault::MISSING_CHILD),
            TableError::ArgInterfaces(at) => (at, fault::ARGUMENT_INTERFACES),
            TableError::OutOfMemory => (0, fault::OUT_OF_MEMORY),
        };
        TableFault {
            interface: count_number(at),
            fault,
        }
    }
}

/// The answer of a table that was asked to take more interfaces, with the fault in place of its error.
pub fn table_answer(answer: Result<(), TableError>) -> Result<(), TableFault>
    ensures { result ≡ table_answer answer }
{
    match answer {
        Ok(()) => Ok(()),
        Err(error) => Err(TableFault::from(error)),
    }
}

/// Why a row was not read.
enum RowError {
    /// It names what is not there.
    NotThere,
    /// There was no memory.
    OutOfMemory,
}

impl From<AllocError> for RowError {
    ghost use Rattle.wl_flat.specs.declared.rows.RowError.TheVariants as row_error;

    ghost from_gives = { λ _ error. error ≡ row_error.OutOfMemory };

    fn from(_error: AllocError) -> RowError {
        RowError::OutOfMemory
    }
}

impl<T: Drop> From<AllocFailed<T>> for RowError {
    ghost use Rattle.wl_flat.specs.declared.rows.RowError.TheVariants as row_error;

    ghost from_gives = { λ _ error. error ≡ row_error.OutOfMemory };

    fn from(_error: AllocFailed<T>) -> RowError {
        RowError::OutOfMemory
    }
}

impl RowError {
    /// The fault of the interface of this place.
    fn at(self, interface: usize) -> TableFault
        ensures row { self ≡ row_error.NotThere → result ≡ row_fault interface }
        ensures memory { self ≡ row_error.OutOfMemory → result ≡ fault_of table_error.OutOfMemory }
    {
        match self {
            RowError::NotThere => TableFault {
                interface: count_number(interface),
                fault: fault::ROW,
            },
            RowError::OutOfMemory => TableFault::from(TableError::OutOfMemory),
        }
    }
}

/// The messages and the arguments that were not read yet.
#[derive(Clone, Copy)]
struct Unread<'a> {
    messages: &'a [MessageRow],
    arguments: &'a [ArgumentRow],
}

/// The next `count` rows, which are taken off.
fn next_rows<'a, T>(rows: &mut &'a [T], count: u32) -> Result<&'a [T], RowError>
    ensures rows { IsRead (cut rows.old.now count) (λ next. (next.now, rows.new.now)) result }
    ensures there { IfErr result (λ error. error ≡ row_error.NotThere) }
{
    let all = *rows;
    let count = count as usize;
    if count > all.len() {
        return Err(RowError::NotThere);
    }
    let (next, rest) = all.split_at(count);
    *rows = rest;
    Ok(next)
}

/// The name at that place of the text.
fn name_at(alloc: Global, text: &[u8], at: u32, length: u32) -> Result<String, RowError>
    ensures { IsRead (name_at text.now at length) (λ name. string_bytes name) result }
{
    let from = at as usize;
    let Some(bytes) = text.get(from..from + length as usize) else {
        return Err(RowError::NotThere);
    };
    match std::str::from_utf8(bytes) {
        Ok(name) => Ok(String::from_str(alloc, name)?),
        Err(_) => Err(RowError::NotThere),
    }
}

/// The type of an argument.
fn type_of(row: &ArgumentRow) -> Result<ArgumentType, RowError>
    ensures argument { IsRead (type_of row.now) (λ argument. argument) result }
    ensures there { IfErr result (λ error. error ≡ row_error.NotThere) }
{
    let null = if row.is_nullable == 0 {
        AllowNull::No
    } else {
        AllowNull::Yes
    };
    match row.kind {
        kind::INT => Ok(ArgumentType::Int),
        kind::UINT => Ok(ArgumentType::Uint),
        kind::FIXED => Ok(ArgumentType::Fixed),
        kind::STRING => Ok(ArgumentType::Str(null)),
        kind::OBJECT => Ok(ArgumentType::Object(null)),
        kind::NEW_ID => Ok(ArgumentType::NewId),
        kind::ARRAY => Ok(ArgumentType::Array),
        kind::DESCRIPTOR => Ok(ArgumentType::Fd),
        _ => Err(RowError::NotThere),
    }
}

/// Appends an argument to the signature of the message, with its interface.
fn push_argument(message: &mut MessageDesc, row: &ArgumentRow) -> Result<(), RowError>
    ensures { IsRead (option_map (λ t. with_argument t row.now.interface (message_row message.old)) (type_of row.now)) (λ _. message_row message.new) result }
{
    let argument = type_of(row)?;
    let interface = InterfaceId(row.interface as usize);
    match argument {
        ArgumentType::NewId if interface != ANONYMOUS_INTERFACE => {
            message.child_interface = Some(interface);
        }
        ArgumentType::Object(_) => message.arg_interfaces.push(interface)?,
        _ => {}
    }
    message.signature.push(argument)?;
    Ok(())
}

/// The request or event of the row and its arguments.
fn message_of(
    alloc: Global,
    text: &[u8],
    row: &MessageRow,
    arguments: &[ArgumentRow],
) -> Result<MessageDesc, RowError>
    ensures { IsRead (message_said text.now row.now arguments.now) message_row result }
{
    let mut message = MessageDesc {
        name: name_at(alloc, text, row.name_at, row.name_length)?,
        signature: Vec::with_capacity(alloc, arguments.len())?,
        since: row.since,
        is_destructor: row.is_destructor != 0,
        child_interface: None,
        arg_interfaces: Vec::new(alloc),
    };
    for argument in arguments {
        push_argument(&mut message, argument)?;
    }
    Ok(message)
}

/// The next `count` requests or events, which are taken off.
fn next_messages(
    alloc: Global,
    text: &[u8],
    unread: &mut Unread,
    count: u32,
) -> Result<Vec<MessageDesc>, RowError>
    ensures { IsRead (next_messages text.now count (unread.old.messages.now, unread.old.arguments.now))
        (λ messages. (map message_row messages.items, (unread.new.messages.now, unread.new.arguments.now))) result }
{
    let rows = next_rows(&mut unread.messages, count)?;
    let mut messages = Vec::with_capacity(alloc, rows.len())?;
    for row in rows {
        let arguments = next_rows(&mut unread.arguments, row.arguments)?;
        messages.push(message_of(alloc, text, row, arguments)?)?;
    }
    Ok(messages)
}

/// The interface of the row. Its messages and their arguments are taken off.
fn interface_of(
    alloc: Global,
    text: &[u8],
    unread: &mut Unread,
    row: &InterfaceRow,
) -> Result<Interface, RowError>
    ensures { IsRead (interface_said text.now row.now (unread.old.messages.now, unread.old.arguments.now))
        (λ interface. (interface_row interface, (unread.new.messages.now, unread.new.arguments.now))) result }
{
    Ok(Interface {
        name: name_at(alloc, text, row.name_at, row.name_length)?,
        version: row.version,
        requests: next_messages(alloc, text, unread, row.requests)?,
        events: next_messages(alloc, text, unread, row.events)?,
    })
}

/// The interfaces of the rows. Rows of messages and arguments that no interface has are not read.
///
/// The fault is the first row of an interface that names what is not there, or `fault::OUT_OF_MEMORY`.
pub fn interfaces_of(alloc: Global, rows: &Rows) -> Result<Vec<Interface>, TableFault>
    ensures { MatchResult result (λ interfaces. said_by rows.now ≡ Ok (interface_rows interfaces.items)) (RefusesRows rows.now) }
{
    let mut interfaces = Vec::new(alloc);
    let mut unread = Unread {
        messages: rows.messages,
        arguments: rows.arguments,
    };
    for (at, row) in rows.interfaces.iter().enumerate() {
        match interface_of(alloc, rows.text, &mut unread, row) {
            Ok(interface) => {
                if interfaces.push(interface).is_err() {
                    return Err(RowError::OutOfMemory.at(at));
                }
            }
            Err(error) => return Err(error.at(at)),
        }
    }
    Ok(interfaces)
}
