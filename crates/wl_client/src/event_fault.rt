//! What is wrong with an event, and the text that says so.

ghost use Rattle.std.specs.Prelude.{◌≡◌, IfOk};
ghost use Rattle.std.specs.String.{string_bytes};
ghost use Rattle.wl_client.specs.declared.event_fault.EventFault.TheVariants as wrong;
ghost use Rattle.wl_client.specs.Events.{fault_text as text_of_fault};

use std::alloc::Global;
use wl_wire::{InterfaceId, OutOfMemory, Protocol};

/// What is wrong with an event. It ends the session.
#[derive(Clone, Copy)]
pub enum EventFault {
    /// The bytes are not an event of their sender.
    Malformed,
    /// There is no object with this number, which is an object argument.
    UnknownObject(u32),
    /// An object argument is of a wrong interface. The variant has the number of the object, the interface that the table
    /// asks for, and the object's interface.
    WrongInterface(u32, InterfaceId, InterfaceId),
    /// The server may not make an object with the number of the new id. The variant has the number, and the interface of
    /// the new object.
    InvalidNewId(u32, InterfaceId),
}

/// The text for an object of a wrong interface.
fn wrong_interface_text(
    alloc: Global,
    protocol: &Protocol,
    number: u32,
    asked: InterfaceId,
    given: InterfaceId,
) -> Result<String, OutOfMemory>
    ensures { IfOk result (λ text. string_bytes text ≡ text_of_fault protocol.now (wrong.WrongInterface number asked given)) }
{
    let asked = protocol.name(asked);
    let given = protocol.name(given);
    Ok(format!(in alloc;
        "Protocol error: server sent object {number} for interface {asked}, but it has interface {given}."
    )?)
}

/// The text that says what is wrong with an event.
#[cold]
#[inline(never)]
pub fn fault_text(
    alloc: Global,
    protocol: &Protocol,
    fault: EventFault,
) -> Result<String, OutOfMemory>
    ensures { IfOk result (λ text. string_bytes text ≡ text_of_fault protocol.now fault) }
{
    match fault {
        EventFault::Malformed => Ok(String::from_str(alloc, "Malformed Wayland message.")?),
        EventFault::UnknownObject(number) => Ok(format!(in alloc; "Unknown object {number}.")?),
        EventFault::WrongInterface(number, asked, given) => {
            wrong_interface_text(alloc, protocol, number, asked, given)
        }
        EventFault::InvalidNewId(number, interface) => {
            let name = protocol.name(interface);
            Ok(format!(in alloc;
                "Protocol error: server tried to create an object \"{name}\" with invalid id {number}."
            )?)
        }
    }
}
