//! A table in which an event names a child interface and has no new id.

use std::alloc::Global;
use std::test::Fail;
use test_kit::quad::QUAD;
use wl_wire::{ArgumentType, Interface, InterfaceId, MessageDesc, Protocol};

/// An event with one argument, of this type, and with this child interface.
fn event(
    alloc: Global,
    name: &str,
    kind: ArgumentType,
    child: Option<InterfaceId>,
) -> Result<MessageDesc, Fail> {
    Ok(MessageDesc {
        name: String::from_str(alloc, name)?,
        signature: Vec::from_slice(alloc, &[kind])?,
        since: 1,
        is_destructor: false,
        child_interface: child,
        arg_interfaces: Vec::new(alloc),
    })
}

/// The events: of a number, of a number with a child interface, and of a new id.
static EVENTS: [(&str, ArgumentType, Option<InterfaceId>); 3] = [
    ("moved", ArgumentType::Int, None),
    ("hinted", ArgumentType::Int, Some(QUAD)),
    ("made", ArgumentType::NewId, Some(QUAD)),
];

/// Their descriptions.
fn events(alloc: Global) -> Result<Vec<MessageDesc>, Fail> {
    let mut events = Vec::new(alloc);
    for (name, kind, child) in &EVENTS {
        events.push(event(alloc, name, *kind, *child)?)?;
    }
    Ok(events)
}

/// The table. Its only interface has the place, the name and the version of `quad`, and other events.
pub fn hinting_table(alloc: Global) -> Result<Protocol, Fail> {
    let quad = Interface {
        name: String::from_str(alloc, "quad")?,
        version: 3,
        requests: Vec::new(alloc),
        events: events(alloc)?,
    };
    let mut interfaces = Vec::new(alloc);
    interfaces.push(quad)?;
    Ok(Protocol::new(alloc, interfaces)?)
}
