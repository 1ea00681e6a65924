//! Messages that are written down as data, and how a message is told in a line.

use smallvec::SmallVec;
use std::alloc::Global;
use std::test::Fail;
use wl_wire::{Argument, ArgumentType, ByteArray, CString, Message, Token};

/// An argument as plain data.
#[derive(Clone, Copy)]
pub enum Arg {
    /// A signed number.
    Int(i32),
    /// An unsigned number.
    Uint(u32),
    /// A signed number of 24.8 bits: the value times 256.
    Fixed(i32),
    /// A string of these bytes.
    Str(&'static [u8]),
    /// An object.
    Object(u32),
    /// The object that the message creates.
    NewId(u32),
    /// An array of these bytes.
    Array(&'static [u8]),
    /// An array of so many bytes, each 1.
    Ones(usize),
    /// The descriptor of this token.
    Fd(i32),
}

/// A string of these bytes.
fn string(alloc: Global, bytes: &[u8]) -> Result<Argument<u32, Token>, Fail> {
    let text = CString::new(Vec::from_slice(alloc, bytes)?)?;
    Ok(Argument::Str(Some(text)))
}

/// The argument.
fn argument(alloc: Global, arg: Arg) -> Result<Argument<u32, Token>, Fail> {
    match arg {
        Arg::Int(value) => Ok(Argument::Int(value)),
        Arg::Uint(value) => Ok(Argument::Uint(value)),
        Arg::Fixed(value) => Ok(Argument::Fixed(value)),
        Arg::Str(bytes) => string(alloc, bytes),
        Arg::Object(number) => Ok(Argument::Object(number)),
        Arg::NewId(number) => Ok(Argument::NewId(number)),
        Arg::Array(bytes) => Ok(Argument::Array(ByteArray::new(Vec::from_slice(alloc, bytes)?))),
        Arg::Ones(len) => Ok(Argument::Array(ByteArray::new(Vec::from_elem(alloc, 1, len)?))),
        Arg::Fd(number) => Ok(Argument::Fd(Token(number))),
    }
}

/// Appends an argument to those of the message.
pub fn push(alloc: Global, message: &mut Message<u32, Token>, arg: Arg) -> Result<(), Fail> {
    message.args.push(argument(alloc, arg)?)?;
    Ok(())
}

/// The message of these arguments.
pub fn message(
    alloc: Global,
    (sender_id, opcode): (u32, u16),
    args: &[Arg],
) -> Result<Message<u32, Token>, Fail> {
    let mut message = Message {
        sender_id,
        opcode,
        args: SmallVec::new(alloc),
    };
    for arg in args {
        push(alloc, &mut message, *arg)?;
    }
    Ok(message)
}

/// Tells the bytes in hex, with a space between two.
fn tell_hex(log: &mut String, bytes: &[u8]) -> Result<(), Fail> {
    let Some((first, rest)) = bytes.split_first() else {
        return Ok(());
    };
    write!(log, "{first:02x}")?;
    for byte in rest {
        write!(log, " {byte:02x}")?;
    }
    Ok(())
}

/// Tells the bytes of a string as text.
fn tell_text(log: &mut String, text: &CString) -> Result<(), Fail> {
    let text = text.to_string_lossy(*log.allocator())?;
    Ok(write!(log, "{}", text.as_str())?)
}

/// Tells a string, or that it is null.
fn tell_string(log: &mut String, text: Option<&CString>) -> Result<(), Fail> {
    match text {
        Some(text) => tell_text(log, text),
        None => Ok(write!(log, "(null)")?),
    }
}

/// The name that the type has in a protocol.
fn type_name(kind: ArgumentType) -> &'static str {
    match kind {
        ArgumentType::Int => "int",
        ArgumentType::Uint => "uint",
        ArgumentType::Fixed => "fixed",
        ArgumentType::Str(_) => "string",
        ArgumentType::Object(_) => "object",
        ArgumentType::NewId => "new_id",
        ArgumentType::Array => "array",
        ArgumentType::Fd => "fd",
    }
}

/// Tells a number.
fn tell_number(log: &mut String, value: i64) -> Result<(), Fail> {
    Ok(write!(log, "{value}")?)
}

/// Tells the value of an argument.
fn tell_value(log: &mut String, arg: &Argument<u32, Token>) -> Result<(), Fail> {
    match arg {
        Argument::Int(value) | Argument::Fixed(value) => tell_number(log, i64::from(*value)),
        Argument::Uint(value) | Argument::Object(value) | Argument::NewId(value) => {
            tell_number(log, i64::from(*value))
        }
        Argument::Str(text) => tell_string(log, text.as_ref()),
        Argument::Array(bytes) => tell_hex(log, bytes.as_slice()),
        Argument::Fd(token) => tell_number(log, i64::from(token.0)),
    }
}

/// Tells an argument: the name of its type and its value.
fn tell_argument(log: &mut String, arg: &Argument<u32, Token>) -> Result<(), Fail> {
    write!(log, ": {} ", type_name(arg.get_type()))?;
    tell_value(log, arg)
}

/// Tells a message: its sender, its opcode, and after a colon each its arguments.
pub fn tell_message(log: &mut String, message: &Message<u32, Token>) -> Result<(), Fail> {
    write!(log, "{}, {}", message.sender_id, message.opcode)?;
    for arg in message.args.as_slice() {
        tell_argument(log, arg)?;
    }
    Ok(())
}

/// Tells the bytes in hex, and after them the number of each token.
pub fn tell_bytes(log: &mut String, bytes: &[u8], tokens: &[Token]) -> Result<(), Fail> {
    tell_hex(log, bytes)?;
    for token in tokens {
        write!(log, ", fd {}", token.0)?;
    }
    Ok(())
}

/// The bytes, and zeros after them, of that length in all.
pub fn padded(alloc: Global, bytes: &[u8], len: usize) -> Result<Vec<u8>, Fail> {
    let mut padded = Vec::from_slice(alloc, bytes)?;
    for _ in bytes.len()..len {
        padded.push(0)?;
    }
    Ok(padded)
}
