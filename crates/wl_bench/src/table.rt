//! The table of interfaces of the program: the fixed ones, and `quad`, of version 3.

ghost use Rattle.std.specs.Prelude.{◌≡◌, ◌∷◌, ◌++◌, [], IfErr, IfOk, OnOk, map};
ghost use Rattle.wl_wire.specs.Table.{interface_row, interface_rows, message_row};
ghost use Rattle.wl_bench.specs.Bench.{interface_of};
ghost use Rattle.wl_bench.specs.Rows.{message_of};
ghost use Rattle.wl_bench.specs.Table.{bench_rows, quad_row};
ghost use Rattle.wl_bench.specs.declared.stop.Stop.TheVariants.{Failed};

use crate::stop::Stop;
use std::alloc::{AllocError, Global};
use wl_wire::{AllowNull, ArgumentType, Interface, InterfaceId, MessageDesc, Protocol};

/// The interface `quad`, the first of the program's own.
pub const QUAD: InterfaceId = InterfaceId(4);

/// What a message does to objects, apart from its arguments.
#[derive(Clone, Copy)]
pub enum Kind {
    /// It neither makes nor ends an object.
    Plain,
    /// It makes a `quad`.
    Maker,
    /// It ends its object.
    Destructor,
}

/// A message of the table as plain data. Its object arguments are of `quad`.
#[derive(Clone, Copy)]
pub struct Row {
    pub name: &'static str,
    pub since: u32,
    pub kind: Kind,
    pub signature: &'static [ArgumentType],
    pub objects: &'static [InterfaceId],
}

/// The requests of `quad`.
static QUAD_REQUESTS: [Row; 5] = [
    Row {
        name: "poke",
        since: 1,
        kind: Kind::Plain,
        signature: &[ArgumentType::Int],
        objects: &[],
    },
    Row {
        name: "make",
        since: 2,
        kind: Kind::Maker,
        signature: &[ArgumentType::NewId],
        objects: &[],
    },
    Row {
        name: "destroy",
        since: 1,
        kind: Kind::Destructor,
        signature: &[],
        objects: &[],
    },
    Row {
        name: "link",
        since: 1,
        kind: Kind::Plain,
        signature: &[
            ArgumentType::Object(AllowNull::Yes),
            ArgumentType::Object(AllowNull::No),
        ],
        objects: &[QUAD, QUAD],
    },
    Row {
        name: "give",
        since: 1,
        kind: Kind::Plain,
        signature: &[
            ArgumentType::Str(AllowNull::No),
            ArgumentType::Array,
            ArgumentType::Fd,
        ],
        objects: &[],
    },
];

/// The events of `quad`.
static QUAD_EVENTS: [Row; 3] = [
    Row {
        name: "moved",
        since: 1,
        kind: Kind::Plain,
        signature: &[ArgumentType::Int],
        objects: &[],
    },
    Row {
        name: "made",
        since: 1,
        kind: Kind::Maker,
        signature: &[ArgumentType::NewId],
        objects: &[],
    },
    Row {
        name: "gone",
        since: 1,
        kind: Kind::Destructor,
        signature: &[],
        objects: &[],
    },
];

/// The description of the message.
fn described(alloc: Global, row: &Row) -> Result<MessageDesc, AllocError>
    ensures { IfOk result (λ message. message_row message ≡ message_of row.now) }
{
    let child_interface = match row.kind {
        Kind::Maker => Some(QUAD),
        Kind::Plain | Kind::Destructor => None,
    };
    Ok(MessageDesc {
        name: String::from_str(alloc, row.name)?,
        signature: Vec::from_slice(alloc, row.signature)?,
        since: row.since,
        is_destructor: matches!(row.kind, Kind::Destructor),
        child_interface,
        arg_interfaces: Vec::from_slice(alloc, row.objects)?,
    })
}

/// Appends the descriptions of the messages to the others.
fn push_messages(
    alloc: Global,
    messages: &mut Vec<MessageDesc>,
    rows: &[Row],
) -> Result<(), AllocError>
    ensures { OnOk result (map message_row messages.new.items ≡ map message_row messages.old.items ++ map message_of rows.now) }
{
    for row in rows {
        messages.push(described(alloc, row)?)?;
    }
    Ok(())
}

/// The interface of that name and version, without messages yet.
fn named(alloc: Global, name: &str, version: u32) -> Result<Interface, AllocError>
    ensures { IfOk result (λ interface. interface_row interface ≡ record { name = name.now; version = version; requests = []; events = [] }) }
{
    Ok(Interface {
        name: String::from_str(alloc, name)?,
        version,
        requests: Vec::new(alloc),
        events: Vec::new(alloc),
    })
}

/// Appends an interface with these requests and events to the others.
pub fn push_interface(
    alloc: Global,
    interfaces: &mut Vec<Interface>,
    name: &str,
    version: u32,
    requests: &[Row],
    events: &[Row],
) -> Result<(), AllocError>
    ensures { OnOk result (interface_rows interfaces.new.items ≡ interface_rows interfaces.old.items
        ++ record { name = name.now; version = version; requests = map message_of requests.now; events = map message_of events.now } ∷ []) }
{
    let mut interface = named(alloc, name, version)?;
    push_messages(alloc, &mut interface.requests, requests)?;
    push_messages(alloc, &mut interface.events, events)?;
    interfaces.push(interface)?;
    Ok(())
}

/// Appends `quad` to the others.
pub fn push_quad(alloc: Global, interfaces: &mut Vec<Interface>) -> Result<(), AllocError>
    ensures { OnOk result (interface_rows interfaces.new.items ≡ interface_rows interfaces.old.items ++ quad_row ∷ []) }
{
    push_interface(alloc, interfaces, "quad", 3, &QUAD_REQUESTS, &QUAD_EVENTS)
}

/// The table.
pub fn bench_table(alloc: Global) -> Result<Protocol, Stop>
    ensures rows { IfOk result (λ table. table ≡ bench_rows) }
    ensures failed { IfErr result (λ stop. stop ≡ Failed) }
{
    let mut interfaces = Vec::new(alloc);
    push_quad(alloc, &mut interfaces)?;
    Ok(Protocol::new(alloc, interfaces)?)
}

/// The first interface of that name; one outside the table if none has it. `Failed` if the table has more interfaces than
/// can be counted.
pub fn interface_named(table: &Protocol, name: &str) -> Result<InterfaceId, Stop>
    ensures named { IfOk result (λ id. id ≡ interface_of name.now table.now) }
    ensures failed { IfErr result (λ stop. stop ≡ Failed) }
{
    for place in 0..usize::MAX {
        let Some(interface) = table.get(InterfaceId(place)) else {
            return Ok(InterfaceId(place));
        };
        if interface.name.as_str() == name {
            return Ok(InterfaceId(place));
        }
    }
    Err(Stop::Failed)
}
