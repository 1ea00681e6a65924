//! The text of a message in a log, as libwayland before version 1.23 writes it if `WAYLAND_DEBUG` is set, without the time in front.
//!
//! One thing differs: a byte of a string that is no printing ASCII character is written in hex, so that a message is always one
//! line, and no peer can write what a terminal obeys.

ghost use Rattle.std.specs.Prelude.{ℕ, Option, ◌≡◌, ◌++◌, ◌<◌, Contains, OnErr, OnOk};
ghost use Rattle.std.specs.List.{flat_map};
ghost use Rattle.std.specs.String.{string_bytes};
ghost use Rattle.wl_wire.specs.LogText.{argument_text, arguments_text, digit_at, escaped, fixed_text, fraction_text, further_text, glyph, message_text, new_named, new_text, object_text, sign_text, string_text, whole_text};
ghost use Rattle.wl_wire.specs.Message.{content};
ghost use Rattle.wl_wire.specs.Table.{message_row};
ghost use Rattle.wl_wire.specs.declared.interface.InterfaceId.{InterfaceId as Interfaces};

use crate::argument::{Argument, Token};
use crate::c_string::CString;
use crate::interface::{InterfaceId, MessageDesc};
use crate::message::Message;
use crate::protocol::Protocol;
use std::alloc::AllocError;

/// What knows the interfaces of objects by their numbers.
///
/// An implementation says by a function, `interface_of`, what it knows. Contracts use this function.
pub trait KnownObjects {
    ghost interface_of: { Self → ℕ → Option Interfaces };

    /// The interface of the object with that number; `None` if nothing is known of it.
    fn interface_of_object(&self, number: u32) -> Option<InterfaceId>
        ensures { result ≡ interface_of self.now number };
}

/// Appends a byte in hex.
fn push_escaped(text: &mut String, byte: u8) -> Result<(), AllocError>
    ensures { OnOk result (string_bytes text.new ≡ string_bytes text.old ++ escaped byte) }
{
    write!(text, "\\x{byte:02x}")
}

/// Appends a byte of a string. One that is no printing ASCII character is written in hex.
fn push_glyph(text: &mut String, byte: u8) -> Result<(), AllocError>
    ensures { OnOk result (string_bytes text.new ≡ string_bytes text.old ++ glyph byte) }
{
    if byte < b' ' {
        return push_escaped(text, byte);
    }
    if byte > b'~' {
        return push_escaped(text, byte);
    }
    text.push(char::from(byte))
}

/// Appends the bytes of a string.
fn push_bytes(text: &mut String, bytes: &[u8]) -> Result<(), AllocError>
    ensures { OnOk result (string_bytes text.new ≡ string_bytes text.old ++ flat_map glyph bytes.now) }
{
    for byte in bytes {
        push_glyph(text, *byte)?;
    }
    Ok(())
}

/// Appends a string in quotes; `nil` for null.
fn push_string(text: &mut String, string: &Option<CString>) -> Result<(), AllocError>
    ensures { OnOk result (string_bytes text.new ≡ string_bytes text.old ++ string_text string.now) }
{
    let Some(string) = string else {
        return text.push_str("nil");
    };
    text.push_str("\"")?;
    push_bytes(text, string.as_bytes())?;
    text.push_str("\"")
}

/// Appends the digit of the number at this unit.
fn push_digit(text: &mut String, number: u32, unit: u32) -> Result<(), AllocError>
    requires { 0 < unit }
    ensures { OnOk result (string_bytes text.new ≡ string_bytes text.old ++ digit_at number unit) }
{
    let digit = (number / unit % 10) as u8;
    text.push(char::from(b'0' + digit))
}

/// The units of eight digits, the greatest first.
const EIGHT_UNITS: [u32; 8] = [10_000_000, 1_000_000, 100_000, 10_000, 1_000, 100, 10, 1];

/// Appends the 256ths of a fixed-point number as eight digits, which tell them exactly.
fn push_fraction(text: &mut String, size: u32) -> Result<(), AllocError>
    ensures { OnOk result (string_bytes text.new ≡ string_bytes text.old ++ fraction_text size) }
{
    let part = size % 256 * 390_625;
    for unit in EIGHT_UNITS {
        push_digit(text, part, unit)?;
    }
    Ok(())
}

/// What stands before a number: `-` if it is below zero.
fn sign_of(value: i32) -> &'static str
    ensures { result.now ≡ sign_text value }
{
    if value < 0 { "-" } else { "" }
}

/// Appends what stands of a fixed-point number before its 256ths.
fn push_whole(text: &mut String, value: i32) -> Result<(), AllocError>
    ensures { OnOk result (string_bytes text.new ≡ string_bytes text.old ++ whole_text value) }
{
    let (sign, whole) = (sign_of(value), value.unsigned_abs() / 256);
    write!(text, "{sign}{whole}.")
}

/// Appends a fixed-point number, given as its value times 256.
fn push_fixed(text: &mut String, value: i32) -> Result<(), AllocError>
    ensures { OnOk result (string_bytes text.new ≡ string_bytes text.old ++ fixed_text value) }
{
    push_whole(text, value)?;
    push_fraction(text, value.unsigned_abs())
}

/// Appends an object with its interface; `nil` for number 0.
fn push_object(
    text: &mut String,
    table: &Protocol,
    interface: Option<InterfaceId>,
    number: u32,
) -> Result<(), AllocError>
    ensures { OnOk result (string_bytes text.new ≡ string_bytes text.old ++ object_text table.now interface number) }
{
    if number == 0 {
        return text.push_str("nil");
    }
    match interface {
        Some(interface) => write!(text, "{}@{number}", table.name(interface)),
        None => write!(text, "[unknown]@{number}"),
    }
}

/// Appends a new object of an interface with this name; `nil` stands for number 0.
fn push_new_of(text: &mut String, name: &str, number: u32) -> Result<(), AllocError>
    ensures { OnOk result (string_bytes text.new ≡ string_bytes text.old ++ new_named name.now number) }
{
    if number == 0 {
        return write!(text, "new id {name}@nil");
    }
    write!(text, "new id {name}@{number}")
}

/// Appends a new object with its interface.
fn push_new(
    text: &mut String,
    table: &Protocol,
    child: Option<InterfaceId>,
    number: u32,
) -> Result<(), AllocError>
    ensures { OnOk result (string_bytes text.new ≡ string_bytes text.old ++ new_text table.now child number) }
{
    match child {
        Some(child) => push_new_of(text, table.name(child), number),
        None => push_new_of(text, "[unknown]", number),
    }
}

/// Appends the text of an argument, as `push_argument` does. If there is no memory, a part of it may be appended.
fn append_argument<K: KnownObjects>(
    text: &mut String,
    table: &Protocol,
    objects: &K,
    child: Option<InterfaceId>,
    argument: &Argument<u32, Token>,
) -> Result<(), AllocError>
    ensures { OnOk result (string_bytes text.new ≡ string_bytes text.old
        ++ argument_text table.now (K.KnownObjects.interface_of objects.now) child argument.now) }
{
    match argument {
        Argument::Int(value) => write!(text, "{value}"),
        Argument::Uint(value) => write!(text, "{value}"),
        Argument::Fixed(value) => push_fixed(text, *value),
        Argument::Str(string) => push_string(text, string),
        Argument::Object(number) => {
            push_object(text, table, objects.interface_of_object(*number), *number)
        }
        Argument::NewId(number) => push_new(text, table, child, *number),
        Argument::Array(bytes) => write!(text, "array[{}]", bytes.as_slice().len()),
        Argument::Fd(token) => write!(text, "fd {}", token.0),
    }
}

/// Appends the text of an argument. `objects` tells the interface of an object, and `child` is that of the new one.
///
/// | Argument | Text |
/// |---|---|
/// | a number | in decimal; a fixed-point number with eight digits behind the point, as `21.25000000` |
/// | a string | in quotes; a byte that is no printing ASCII character as `\x0a`. Null is `nil` |
/// | an object | `wl_buffer@5`; `[unknown]@5` if its interface is not known; `nil` for 0 |
/// | a new object | `new id wl_surface@3`; `new id [unknown]@3` without `child`, as that of a bind; `new id wl_surface@nil` for 0 |
/// | an array | `array[8]`, with the number of its bytes |
/// | a descriptor | `fd 4`, with the number of its token |
///
/// If there is no memory, `text` stays as it was.
pub fn push_argument<K: KnownObjects>(
    text: &mut String,
    table: &Protocol,
    objects: &K,
    child: Option<InterfaceId>,
    argument: &Argument<u32, Token>,
) -> Result<(), AllocError>
    ensures pushed { OnOk result (string_bytes text.new ≡ string_bytes text.old
        ++ argument_text table.now (K.KnownObjects.interface_of objects.now) child argument.now) }
    ensures unchanged { OnErr result (string_bytes text.new ≡ string_bytes text.old) }
{
    // In a string of its own first, of which nothing is left if memory fails in its middle.
    let mut piece = String::new(*text.allocator());
    append_argument(&mut piece, table, objects, child, argument)?;
    text.push_str(piece.as_str())
}

/// Appends the text of an argument that is not the first one.
fn push_further<K: KnownObjects>(
    text: &mut String,
    table: &Protocol,
    objects: &K,
    child: Option<InterfaceId>,
    argument: &Argument<u32, Token>,
) -> Result<(), AllocError>
    ensures { OnOk result (string_bytes text.new ≡ string_bytes text.old
        ++ further_text table.now (K.KnownObjects.interface_of objects.now) child argument.now) }
{
    text.push_str(", ")?;
    append_argument(text, table, objects, child, argument)
}

/// Appends the texts of the arguments that are not the first one.
fn push_others<K: KnownObjects>(
    text: &mut String,
    table: &Protocol,
    objects: &K,
    child: Option<InterfaceId>,
    others: &[Argument<u32, Token>],
) -> Result<(), AllocError>
    ensures { OnOk result (string_bytes text.new ≡ string_bytes text.old
        ++ flat_map (further_text table.now (K.KnownObjects.interface_of objects.now) child) others.now) }
{
    for argument in others {
        push_further(text, table, objects, child, argument)?;
    }
    Ok(())
}

/// Appends the texts of the arguments.
fn push_arguments<K: KnownObjects>(
    text: &mut String,
    table: &Protocol,
    objects: &K,
    child: Option<InterfaceId>,
    arguments: &[Argument<u32, Token>],
) -> Result<(), AllocError>
    ensures { OnOk result (string_bytes text.new ≡ string_bytes text.old
        ++ arguments_text table.now (K.KnownObjects.interface_of objects.now) child arguments.now) }
{
    let [first, others @ ..] = arguments else {
        return Ok(());
    };
    append_argument(text, table, objects, child, first)?;
    push_others(text, table, objects, child, others)
}

/// Appends the text of a message, as `push_message` does. If there is no memory, a part of it may be appended.
fn append_message<K: KnownObjects>(
    text: &mut String,
    table: &Protocol,
    objects: &K,
    interface: InterfaceId,
    desc: &MessageDesc,
    message: &Message<u32, Token>,
) -> Result<(), AllocError>
    ensures { OnOk result (string_bytes text.new ≡ string_bytes text.old
        ++ message_text table.now (K.KnownObjects.interface_of objects.now) interface (message_row desc.now) (content message.now)) }
{
    let (number, name) = (message.sender_id, desc.name.as_str());
    write!(text, "{}@{number}.{name}(", table.name(interface))?;
    push_arguments(
        text,
        table,
        objects,
        desc.child_interface,
        message.args.as_slice(),
    )?;
    text.push_str(")")
}

/// Appends the text of a message of an object of this interface, as `wl_surface@3.attach(wl_buffer@5, 0, 0)`. `desc` is what
/// the table has of the message, and `objects` tells the interfaces of the objects that it is about.
///
/// The arguments are written as by `push_argument`. If there is no memory, `text` stays as it was.
pub fn push_message<K: KnownObjects>(
    text: &mut String,
    table: &Protocol,
    objects: &K,
    interface: InterfaceId,
    desc: &MessageDesc,
    message: &Message<u32, Token>,
) -> Result<(), AllocError>
    ensures pushed { OnOk result (string_bytes text.new ≡ string_bytes text.old
        ++ message_text table.now (K.KnownObjects.interface_of objects.now) interface (message_row desc.now) (content message.now)) }
    ensures unchanged { OnErr result (string_bytes text.new ≡ string_bytes text.old) }
{
    // In a string of its own first, of which nothing is left if memory fails in its middle.
    let mut line = String::new(*text.allocator());
    append_message(&mut line, table, objects, interface, desc, message)?;
    text.push_str(line.as_str())
}
