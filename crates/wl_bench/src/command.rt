//! The commands of a bench, and which lines are commands.
//!
//! A line is UTF-8 and is cut into words at its spaces (the byte 32). No command has an empty word. Numbers are decimal,
//! without a sign or leading zeros, and at most 4294967295.

ghost use Rattle.std.specs.Prelude.{◌∷◌, ◌≢◌, ℕ, [], List, map, codes, IfOk};
ghost use Rattle.std.specs.Borrow.{Bor};
ghost use Rattle.wl_bench.specs.Commands.{AskSame, Finds, IsCommand, IsLine};
ghost use Rattle.wl_bench.specs.declared.command.Command.{Command as TheCommand};

use crate::words::{chunk_bytes, chunk_tokens, fault, number, numbers};
use std::alloc::{AllocError, Global};
use wl_wire::{IoFault, Token};

/// What a line asks for.
#[derive(Debug, Drop)]
pub enum Command {
    /// `client`: inserts a client over a new script.
    Insert,
    /// A command about the client that was inserted last at a slot.
    Client(u32, ClientCommand),
    /// `dispatch <slots>`: reads the clients that were inserted last at these slots, and ends each of their actions.
    Dispatch(Vec<u32>),
    /// `global <interface> <version>`: creates a global, by its interface's name.
    Create(String, u32),
    /// `disable <name>`: the global of that name is no longer announced.
    Disable(u32),
    /// `remove <name>`: the global of that name is removed.
    Remove(u32),
    /// `flush`: sends what waits for all clients.
    Flush,
    /// `cleanup`: takes out the clients that were killed.
    Cleanup,
    /// `notes`: takes what was noted.
    Notes,
}

/// What a line asks for, about one client.
#[derive(Debug, Drop)]
pub enum ClientCommand {
    /// `in <slot> <hex> <tokens>`: these bytes and tokens arrive from it.
    Arrive(Vec<u8>, Vec<Token>),
    /// `read <slot>`: reads it, up to an action or a fault.
    Read,
    /// `finish <slot>`: ends its open action.
    Finish,
    /// `kill <slot>`: kills it.
    Kill,
    /// `accept <slot> <counts>`: how many bytes the next sends to it take.
    Accept(Vec<u32>),
    /// `fail <slot> in <fault>`: a receive that fails.
    FailIn(IoFault),
    /// `fail <slot> out <fault>`: a send that fails.
    FailOut(IoFault),
}

/// The command of one word.
fn bare(name: &str) -> Option<Command>
    ensures { Finds IsCommand (name.now ∷ []) result }
{
    match name {
        "client" => Some(Command::Insert),
        "flush" => Some(Command::Flush),
        "cleanup" => Some(Command::Cleanup),
        "notes" => Some(Command::Notes),
        _ => None,
    }
}

/// The command `dispatch` with this argument.
fn dispatch(alloc: Global, slots: &str) -> Result<Option<Command>, AllocError>
    ensures { IfOk result (Finds IsCommand (codes "dispatch" ∷ slots.now ∷ [])) }
{
    match numbers(alloc, slots)? {
        Some(slots) => Ok(Some(Command::Dispatch(slots))),
        None => Ok(None),
    }
}

/// The command of a word other than `dispatch`, and a number.
fn numbered(name: &str, word: &str) -> Option<Command>
    requires { name.now ≢ codes "dispatch" }
    ensures { Finds IsCommand (name.now ∷ word.now ∷ []) result }
{
    let number = number(word)?;
    match name {
        "read" => Some(Command::Client(number, ClientCommand::Read)),
        "finish" => Some(Command::Client(number, ClientCommand::Finish)),
        "disable" => Some(Command::Disable(number)),
        "remove" => Some(Command::Remove(number)),
        "kill" => Some(Command::Client(number, ClientCommand::Kill)),
        _ => None,
    }
}

/// The command `global` with these arguments.
fn global(alloc: Global, interface: &str, version: &str) -> Result<Option<Command>, AllocError>
    ensures { IfOk result (Finds IsCommand (codes "global" ∷ interface.now ∷ version.now ∷ [])) }
{
    if interface.is_empty() {
        return Ok(None);
    }
    let Some(version) = number(version) else {
        return Ok(None);
    };
    let interface = String::from_str(alloc, interface)?;
    Ok(Some(Command::Create(interface, version)))
}

/// The command `accept` with these arguments.
fn accept(alloc: Global, slot: &str, counts: &str) -> Result<Option<Command>, AllocError>
    ensures { IfOk result (Finds IsCommand (codes "accept" ∷ slot.now ∷ counts.now ∷ [])) }
{
    let Some(slot) = number(slot) else {
        return Ok(None);
    };
    match numbers(alloc, counts)? {
        Some(counts) => Ok(Some(Command::Client(slot, ClientCommand::Accept(counts)))),
        None => Ok(None),
    }
}

/// The command `fail` with these arguments.
fn fail(slot: &str, side: &str, name: &str) -> Option<Command>
    ensures { Finds IsCommand (codes "fail" ∷ slot.now ∷ side.now ∷ name.now ∷ []) result }
{
    let slot = number(slot)?;
    let fault = fault(name)?;
    match side {
        "in" => Some(Command::Client(slot, ClientCommand::FailIn(fault))),
        "out" => Some(Command::Client(slot, ClientCommand::FailOut(fault))),
        _ => None,
    }
}

/// The command `in` with these arguments.
fn arrive(
    alloc: Global,
    slot: &str,
    bytes: &str,
    tokens: &str,
) -> Result<Option<Command>, AllocError>
    ensures { IfOk result (Finds IsCommand (codes "in" ∷ slot.now ∷ bytes.now ∷ tokens.now ∷ [])) }
{
    let Some(slot) = number(slot) else {
        return Ok(None);
    };
    let Some(bytes) = chunk_bytes(alloc, bytes)? else {
        return Ok(None);
    };
    match chunk_tokens(alloc, tokens)? {
        Some(tokens) => Ok(Some(Command::Client(slot, ClientCommand::Arrive(bytes, tokens)))),
        None => Ok(None),
    }
}

/// The command of two words.
fn of_two(alloc: Global, name: &str, word: &str) -> Result<Option<Command>, AllocError>
    ensures { IfOk result (Finds IsCommand (name.now ∷ word.now ∷ [])) }
{
    match name {
        "dispatch" => dispatch(alloc, word),
        _ => Ok(numbered(name, word)),
    }
}

/// The command of three words.
fn of_three(
    alloc: Global,
    name: &str,
    first: &str,
    second: &str,
) -> Result<Option<Command>, AllocError>
    ensures { IfOk result (Finds IsCommand (name.now ∷ first.now ∷ second.now ∷ [])) }
{
    match name {
        "global" => global(alloc, first, second),
        "accept" => accept(alloc, first, second),
        _ => Ok(None),
    }
}

/// The command of four words.
fn of_four(
    alloc: Global,
    name: &str,
    first: &str,
    second: &str,
    third: &str,
) -> Result<Option<Command>, AllocError>
    ensures { IfOk result (Finds IsCommand (name.now ∷ first.now ∷ second.now ∷ third.now ∷ [])) }
{
    match name {
        "in" => arrive(alloc, first, second, third),
        "fail" => Ok(fail(first, second, third)),
        _ => Ok(None),
    }
}

/// No command has more words than this.
const MOST_WORDS: usize = 4;

/// The command of these words.
fn command_of(alloc: Global, words: &[&str]) -> Result<Option<Command>, AllocError>
    ensures { IfOk result (Finds IsCommand (map (λ (w : Bor (List ℕ)). w.now) words.now)) }
{
    match *words {
        [] => Ok(None),
        [name] => Ok(bare(name)),
        [name, word] => of_two(alloc, name, word),
        [name, first, second] => of_three(alloc, name, first, second),
        [name, first, second, third] => of_four(alloc, name, first, second, third),
        _ => Ok(None),
    }
}

/// The command that a line is, without the line feed at its end; `None` if it is no command. No line is two commands.
#[tactic(auto, using(crate::proofs::OneCommand::one_of_line))]
pub fn parse_line(alloc: Global, line: &[u8]) -> Result<Option<Command>, AllocError>
    ensures found { IfOk result (Finds IsLine line.now) }
    ensures one { (c d : TheCommand) → IsLine c line.now → IsLine d line.now → AskSame c d }
{
    let Ok(text) = str::from_utf8(line) else {
        return Ok(None);
    };
    let words: Vec<&str> = text.split(' ').take(MOST_WORDS + 1).collect(alloc)?;
    command_of(alloc, &words)
}
