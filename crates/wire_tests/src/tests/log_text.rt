//! The text of a message in a log.

use std::alloc::Global;
use std::test::Fail;
use test_kit::log::row_tells;
use test_kit::message::{Arg, message};
use test_kit::quad::{PAIR, QUAD, quad_table};
use wl_wire::{
    InterfaceId, KnownObjects, Message, MessageDesc, Protocol, Token, push_argument, push_message,
};

/// Of the objects number 5 alone is known, which is a `quad`.
struct OnlyFive;

impl KnownObjects for OnlyFive {
    ghost use Rattle.std.specs.Prelude.{◌==◌, None, Some, if◌then◌else◌};

    ghost interface_of = { λ _ number. if number == 5 then Some (record { 0 = 4 }) else None };

    fn interface_of_object(&self, number: u32) -> Option<InterfaceId> {
        if number == 5 { Some(QUAD) } else { None }
    }
}

/// An argument, the interface of the new object, and the text.
struct Row(Arg, Option<InterfaceId>, &'static str);

/// Arguments and their texts. A fixed-point number is given as its value times 256.
static ROWS: [Row; 18] = [
    Row(Arg::Int(-7), None, "-7"),
    Row(Arg::Uint(4_294_967_295), None, "4294967295"),
    Row(Arg::Fixed(5440), None, "21.25000000"),
    Row(Arg::Fixed(0), None, "0.00000000"),
    Row(Arg::Fixed(-1), None, "-0.00390625"),
    Row(Arg::Fixed(-384), None, "-1.50000000"),
    Row(Arg::Fixed(i32::MIN), None, "-8388608.00000000"),
    Row(Arg::Str(b""), None, "\"\""),
    Row(
        Arg::Str(b"a \"b\"~\n\x7f\xc3\xa9"),
        None,
        "\"a \"b\"~\\x0a\\x7f\\xc3\\xa9\"",
    ),
    Row(Arg::Object(5), None, "quad@5"),
    Row(Arg::Object(9), None, "[unknown]@9"),
    Row(Arg::Object(0), None, "nil"),
    Row(Arg::NewId(3), Some(PAIR), "new id pair@3"),
    Row(Arg::NewId(3), None, "new id [unknown]@3"),
    Row(Arg::NewId(0), Some(PAIR), "new id pair@nil"),
    Row(Arg::NewId(0), None, "new id [unknown]@nil"),
    Row(Arg::Array(&[1, 2, 3]), None, "array[3]"),
    Row(Arg::Fd(4), None, "fd 4"),
];

/// Appends the text of the first argument.
fn push_first(
    log: &mut String,
    table: &Protocol,
    child: Option<InterfaceId>,
    message: &Message<u32, Token>,
) -> Result<(), Fail> {
    match message.args.as_slice() {
        [first, ..] => Ok(push_argument(log, table, &OnlyFive, child, first)?),
        [] => Ok(()),
    }
}

/// The text of the row's argument.
fn argument_log(alloc: Global, Row(arg, child, _): &Row) -> Result<String, Fail> {
    let mut log = String::new(alloc);
    let message = message(alloc, (6, 0), &[*arg])?;
    push_first(&mut log, &quad_table(alloc)?, *child, &message)?;
    Ok(log)
}

#[test]
fn each_argument_has_its_text(rt: HostRuntime) -> Result<(), Fail> {
    for row in &ROWS {
        row_tells(&rt, row.2, argument_log(rt.alloc(), row), row.2)?;
    }
    Ok(())
}

/// Appends the text of a message of an object of this interface.
fn push_of(
    log: &mut String,
    table: &Protocol,
    interface: InterfaceId,
    desc: Option<&MessageDesc>,
    message: &Message<u32, Token>,
) -> Result<(), Fail> {
    match desc {
        Some(desc) => Ok(push_message(log, table, &OnlyFive, interface, desc, message)?),
        None => Err(Fail::new("the table has the message")),
    }
}

/// A row of a table of events: what a failing one is named, its object and opcode, the object's interface, its arguments, and
/// its text.
struct Event {
    name: &'static str,
    header: (u32, u16),
    interface: InterfaceId,
    args: &'static [Arg],
    told: &'static str,
}

/// Events of object 6, a `pair`, and of object 5.
static EVENTS: [Event; 2] = [
    Event {
        name: "message has its arguments in order",
        header: (6, 0),
        interface: PAIR,
        args: &[
            Arg::Object(5),
            Arg::Object(0),
            Arg::Str(b"hi"),
            Arg::Array(&[1, 2]),
            Arg::Fd(3),
        ],
        told: "pair@6.joined(quad@5, nil, \"hi\", array[2], fd 3)",
    },
    Event {
        name: "message without arguments",
        header: (5, 2),
        interface: QUAD,
        args: &[],
        told: "quad@5.gone()",
    },
];

/// Appends the text of the event.
fn push_event(
    log: &mut String,
    table: &Protocol,
    event: &Event,
    message: &Message<u32, Token>,
) -> Result<(), Fail> {
    let (interface, opcode) = (event.interface, event.header.1);
    push_of(
        log,
        table,
        interface,
        table.event(interface, opcode),
        message,
    )
}

/// Appends the text of the event by the table of `quad` and `pair`.
fn tell_event(log: &mut String, event: &Event, message: &Message<u32, Token>) -> Result<(), Fail> {
    let table = quad_table(*log.allocator())?;
    push_event(log, &table, event, message)
}

/// The text of the event.
fn event_log(alloc: Global, event: &Event) -> Result<String, Fail> {
    let message = message(alloc, event.header, event.args)?;
    let mut log = String::new(alloc);
    tell_event(&mut log, event, &message)?;
    Ok(log)
}

#[test]
fn each_event_has_its_text(rt: HostRuntime) -> Result<(), Fail> {
    for event in &EVENTS {
        row_tells(&rt, event.name, event_log(rt.alloc(), event), event.told)?;
    }
    Ok(())
}
