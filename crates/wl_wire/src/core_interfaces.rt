//! The four fixed interfaces, with which each table begins.

ghost use Rattle.std.specs.Prelude.{◌≡◌, IfOk, map};
ghost use Rattle.wl_wire.specs.Table.{fixed_rows, interface_row, interface_rows, message_row};
ghost use Rattle.wl_wire.specs.Inside.FixedInterfaces.{row_of_interface, row_of_message};

use crate::argument::{AllowNull, ArgumentType};
use crate::interface::{
    ANONYMOUS_INTERFACE, Interface, InterfaceId, MessageDesc, WL_CALLBACK_INTERFACE,
    WL_REGISTRY_INTERFACE,
};
use std::alloc::{AllocError, Global};

/// The number of the display, in each session.
pub const DISPLAY: u32 = 1;

/// Opcodes of the fixed interfaces: where a message stands among the requests or the events of its interface in the table below.
pub mod opcodes {
    /// The request `wl_display.sync`.
    pub const SYNC: u16 = 0;

    /// The event `wl_display.error`.
    pub const ERROR: u16 = 0;

    /// The event `wl_display.delete_id`.
    pub const DELETE_ID: u16 = 1;

    /// The event `wl_registry.global`.
    pub const GLOBAL: u16 = 0;

    /// The event `wl_registry.global_remove`.
    pub const GLOBAL_REMOVE: u16 = 1;

    /// The event `wl_callback.done`.
    pub const DONE: u16 = 0;
}

/// A request or an event of a fixed interface. It is there from version 1 of its interface on.
struct FixedMessage {
    name: &'static str,
    signature: &'static [ArgumentType],
    is_destructor: bool,
    child_interface: Option<InterfaceId>,
    arg_interfaces: &'static [InterfaceId],
}

/// A fixed interface.
struct FixedInterface {
    name: &'static str,
    version: u32,
    requests: &'static [FixedMessage],
    events: &'static [FixedMessage],
}

/// The fixed interfaces, in the order of their ids.
static FIXED: [FixedInterface; 4] = [
    FixedInterface {
        name: "<anonymous>",
        version: 0,
        requests: &[],
        events: &[],
    },
    FixedInterface {
        name: "wl_display",
        version: 1,
        requests: &[
            FixedMessage {
                name: "sync",
                signature: &[ArgumentType::NewId],
                is_destructor: false,
                child_interface: Some(WL_CALLBACK_INTERFACE),
                arg_interfaces: &[],
            },
            FixedMessage {
                name: "get_registry",
                signature: &[ArgumentType::NewId],
                is_destructor: false,
                child_interface: Some(WL_REGISTRY_INTERFACE),
                arg_interfaces: &[],
            },
        ],
        events: &[
            FixedMessage {
                name: "error",
                signature: &[
                    ArgumentType::Object(AllowNull::No),
                    ArgumentType::Uint,
                    ArgumentType::Str(AllowNull::No),
                ],
                is_destructor: false,
                child_interface: None,
                arg_interfaces: &[ANONYMOUS_INTERFACE],
            },
            FixedMessage {
                name: "delete_id",
                signature: &[ArgumentType::Uint],
                is_destructor: false,
                child_interface: None,
                arg_interfaces: &[],
            },
        ],
    },
    FixedInterface {
        name: "wl_registry",
        version: 1,
        requests: &[FixedMessage {
            name: "bind",
            signature: &[
                ArgumentType::Uint,
                ArgumentType::Str(AllowNull::No),
                ArgumentType::Uint,
                ArgumentType::NewId,
            ],
            is_destructor: false,
            child_interface: None,
            arg_interfaces: &[],
        }],
        events: &[
            FixedMessage {
                name: "global",
                signature: &[
                    ArgumentType::Uint,
                    ArgumentType::Str(AllowNull::No),
                    ArgumentType::Uint,
                ],
                is_destructor: false,
                child_interface: None,
                arg_interfaces: &[],
            },
            FixedMessage {
                name: "global_remove",
                signature: &[ArgumentType::Uint],
                is_destructor: false,
                child_interface: None,
                arg_interfaces: &[],
            },
        ],
    },
    FixedInterface {
        name: "wl_callback",
        version: 1,
        requests: &[],
        events: &[FixedMessage {
            name: "done",
            signature: &[ArgumentType::Uint],
            is_destructor: true,
            child_interface: None,
            arg_interfaces: &[],
        }],
    },
];

/// The message that a row says.
fn message_of(alloc: Global, row: &FixedMessage) -> Result<MessageDesc, AllocError>
    ensures { IfOk result (λ m. message_row m ≡ row_of_message row.now) }
{
    Ok(MessageDesc {
        name: String::from_str(alloc, row.name)?,
        signature: Vec::from_slice(alloc, row.signature)?,
        since: 1,
        is_destructor: row.is_destructor,
        child_interface: row.child_interface,
        arg_interfaces: Vec::from_slice(alloc, row.arg_interfaces)?,
    })
}

/// The messages that the rows say, in order.
fn messages_of(alloc: Global, rows: &[FixedMessage]) -> Result<Vec<MessageDesc>, AllocError>
    ensures { IfOk result (λ v. map message_row v.items ≡ map row_of_message rows.now) }
{
    let mut messages = Vec::with_capacity(alloc, rows.len())?;
    for row in rows {
        messages.push(message_of(alloc, row)?)?;
    }
    Ok(messages)
}

/// The interface that a row says.
fn interface_of(alloc: Global, row: &FixedInterface) -> Result<Interface, AllocError>
    ensures { IfOk result (λ i. interface_row i ≡ row_of_interface row.now) }
{
    Ok(Interface {
        name: String::from_str(alloc, row.name)?,
        version: row.version,
        requests: messages_of(alloc, row.requests)?,
        events: messages_of(alloc, row.events)?,
    })
}

/// The four fixed interfaces, in the order of their ids. The error says that there was no memory for them.
pub(crate) fn fixed_interfaces(alloc: Global) -> Result<Vec<Interface>, AllocError>
    ensures { IfOk result (λ v. interface_rows v.items ≡ fixed_rows) }
{
    let mut fixed = Vec::with_capacity(alloc, FIXED.len())?;
    for row in &FIXED {
        fixed.push(interface_of(alloc, row)?)?;
    }
    Ok(fixed)
}
