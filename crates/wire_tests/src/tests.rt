//! The message format: messages and their bytes, the table of interfaces, and the types that they are made of.

mod descriptors;
mod enums;
mod errors;
mod log_text;
mod longest;
mod looked_up;
mod no_memory;
mod refused;
mod strings;
mod tables;
mod written;

use std::alloc::Global;
use std::collections::VecDeque;
use std::fmt::Display;
use std::test::Fail;
use test_kit::message::tell_message;
use wl_wire::{AllowNull, ArgumentType, Message, MessageParseError, Token};

/// A string that may not be null.
const STR: ArgumentType = ArgumentType::Str(AllowNull::No);

/// An object that may not be null.
const OBJECT: ArgumentType = ArgumentType::Object(AllowNull::No);

/// The texts of these errors, a line each.
fn texts<E: Display>(alloc: Global, errors: &[E]) -> Result<String, Fail> {
    let mut log = String::new(alloc);
    for error in errors {
        writeln!(log, "{error}")?;
    }
    Ok(log)
}

/// The tokens as those that wait.
fn queue(alloc: Global, tokens: &[Token]) -> Result<VecDeque<Token>, Fail> {
    let mut waiting = VecDeque::new(alloc);
    for token in tokens {
        waiting.push_back(*token)?;
    }
    Ok(waiting)
}

/// What a parse answers: a message and what follows it, or why there is none.
type Parsed<'a> = Result<(Message<u32, Token>, &'a [u8]), MessageParseError>;

/// Tells the message, and how many bytes follow it.
fn tell_followed(log: &mut String, message: &Message<u32, Token>, rest: &[u8]) -> Result<(), Fail> {
    tell_message(log, message)?;
    Ok(write!(log, "; {} bytes", rest.len())?)
}

/// Tells the message that was read and how many bytes follow it, or why there is none.
fn tell_parsed(log: &mut String, parsed: &Parsed<'_>) -> Result<(), Fail> {
    match parsed {
        Ok((message, rest)) => tell_followed(log, message, rest),
        Err(error) => Ok(write!(log, "{error}")?),
    }
}
