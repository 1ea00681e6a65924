//! The errors that a client is killed for, and their texts.

ghost use Rattle.std.specs.Prelude.{◌≡◌, [], false, IfOk};
ghost use Rattle.std.specs.Option.{option_map_or};
ghost use Rattle.std.specs.Str.Lossy.{utf8_lossy};
ghost use Rattle.std.specs.String.{string_bytes};
ghost use Rattle.wl_wire.specs.Table.{holds_zero, message_row, name_of};
ghost use Rattle.wl_server_client.specs.declared.reading.response.RequestFault.TheVariants as wrong;
ghost use Rattle.wl_server_client.specs.Errors.{error_of, limit_text as text_of_limit, new_id_text as text_of_new_id, bind_text as text_of_bind, since_text as text_of_since, fault_text as text_of_fault};

use crate::ids::object_id::ObjectId;
use crate::reading::response::RequestFault;
use std::alloc::Global;
use wl_wire::{CString, InterfaceId, MessageDesc, OutOfMemory, Protocol, ProtocolError, Text};

/// The error that a client is killed for if this error is posted on an object. It has the name of the interface that is
/// in the id.
pub fn posted_error(
    alloc: Global,
    protocol: &Protocol,
    id: &ObjectId,
    code: u32,
    text: &CString,
) -> Result<ProtocolError, OutOfMemory>
    ensures { IfOk result (λ e. e ≡ error_of protocol.now id.now code text.now) }
{
    let interface = protocol.name(id.interface());
    Ok(ProtocolError {
        code,
        object_id: id.protocol_id(),
        object_interface: Text::new(String::from_str(alloc, interface)?),
        message: Text::new(text.to_string_lossy(alloc)?),
    })
}

/// The C string of these bytes, none of which is zero.
pub fn string_of_bytes(bytes: Vec<u8>) -> CString
    requires { holds_zero bytes.items ≡ false }
    ensures { result ≡ bytes.items }
{
    match CString::new(bytes) {
        Ok(string) => string,
        Err(_) => unreachable!(),
    }
}

/// The C string of a text without a zero byte.
fn c_string(text: String) -> CString
    requires { holds_zero (string_bytes text) ≡ false }
    ensures { result ≡ string_bytes text }
{
    string_of_bytes(text.into_bytes())
}

/// The text for a new id that cannot be used.
#[cold]
#[inline(never)]
pub fn new_id_text(alloc: Global, number: u32) -> Result<CString, OutOfMemory>
    ensures { IfOk result (λ text. text ≡ text_of_new_id number) }
{
    let text = format!(in alloc; "Invalid new_id: {number}.")?;
    Ok(c_string(text))
}

/// The text for a request that would make more objects than the limit allows.
#[cold]
#[inline(never)]
pub fn limit_text(alloc: Global, limit: u32) -> Result<CString, OutOfMemory>
    ensures { IfOk result (λ text. text ≡ text_of_limit limit) }
{
    let text = format!(in alloc; "Too many objects: at most {limit}.")?;
    Ok(c_string(text))
}

/// The name that a client gave for an interface, as a text. It is empty if the client sent null.
fn given_name(alloc: Global, name: &Option<CString>) -> Result<String, OutOfMemory>
    ensures text { IfOk result (λ text. string_bytes text ≡ utf8_lossy (option_map_or (λ t. t) name.now [])) }
    ensures no_zero { IfOk result (λ text. holds_zero (string_bytes text) ≡ false) }
{
    let Some(name) = name else {
        return Ok(String::new(alloc));
    };
    let text = String::from_utf8_lossy(alloc, name.as_bytes())?;
    Ok(text)
}

/// The text for a bind that is refused. It names the interface and the version that the client asked for, and the
/// global's name.
#[cold]
#[inline(never)]
pub fn bind_text(
    alloc: Global,
    interface: &Option<CString>,
    version: u32,
    global: u32,
) -> Result<CString, OutOfMemory>
    ensures { IfOk result (λ text. text ≡ text_of_bind (option_map_or (λ t. t) interface.now []) version global) }
{
    let interface = given_name(alloc, interface)?;
    let text = format!(in alloc;
        "Invalid binding of {interface} version {version} for global {global}."
    )?;
    Ok(c_string(text))
}

/// The text for a request that the object's version does not have: its opcode, the object's version, the first version
/// that has it, and the object's interface and number.
#[cold]
#[inline(never)]
pub fn since_text(
    alloc: Global,
    protocol: &Protocol,
    opcode: u16,
    version: u32,
    since: u32,
    interface: InterfaceId,
    number: u32,
) -> Result<CString, OutOfMemory>
    ensures { IfOk result (λ text. text ≡ text_of_since opcode version since (name_of protocol.now interface.0) number) }
{
    let interface = protocol.name(interface);
    let text = format!(in alloc;
        "invalid method {opcode} (since {version} < {since}), object {interface}#{number}"
    )?;
    Ok(c_string(text))
}

/// The text for an object argument with a wrong interface, in the request `request` of the interface `interface`.
fn wrong_interface_text(
    alloc: Global,
    protocol: &Protocol,
    interface: InterfaceId,
    request: &MessageDesc,
    number: u32,
    asked: InterfaceId,
    got: InterfaceId,
) -> Result<CString, OutOfMemory>
    requires { holds_zero (message_row request.now).name ≡ false }
    ensures { IfOk result (λ text. text ≡ text_of_fault protocol.now interface (message_row request.now) (wrong.WrongInterface number asked got)) }
{
    let interface = protocol.name(interface);
    let request = request.name.as_str();
    let asked = protocol.name(asked);
    let got = protocol.name(got);
    let text = format!(in alloc;
        "Invalid object {number} in request {interface}.{request}: expected {asked} but got {got}."
    )?;
    Ok(c_string(text))
}

/// The text for a wrong argument, in the request `request` of the interface `interface`.
#[cold]
#[inline(never)]
pub fn fault_text(
    alloc: Global,
    protocol: &Protocol,
    interface: InterfaceId,
    request: &MessageDesc,
    fault: &RequestFault,
) -> Result<CString, OutOfMemory>
    requires { holds_zero (message_row request.now).name ≡ false }
    ensures { IfOk result (λ text. text ≡ text_of_fault protocol.now interface (message_row request.now) fault.now) }
{
    match fault {
        RequestFault::InvalidNewId(number) => new_id_text(alloc, *number),
        RequestFault::UnknownId(number) => {
            let number = *number;
            let text = format!(in alloc; "Unknown id: {number}.")?;
            Ok(c_string(text))
        }
        RequestFault::WrongInterface(number, asked, got) => {
            wrong_interface_text(alloc, protocol, interface, request, *number, *asked, *got)
        }
        RequestFault::NullObject => {
            let interface = protocol.name(interface);
            let request = request.name.as_str();
            let text = format!(in alloc; "Invalid null object in request {interface}.{request}.")?;
            Ok(c_string(text))
        }
    }
}
