//! The lines of the README of `wl_wire`: a bind is written and read.

use anyhow::Result;
use smallvec::SmallVec;
use std::alloc::Global;
use std::collections::VecDeque;
use std::test::Fail;
use wl_wire::{
    AllowNull, Argument, ArgumentType, CString, Message, Token, parse_message, write_to_buffers,
};

/// Puts the arguments of the bind into the message.
fn push_arguments(bind: &mut Message<u32, Token>, name: CString) -> Result<()> {
    bind.args.push(Argument::Uint(18))?;
    bind.args.push(Argument::Str(Some(name)))?;
    bind.args.push(Argument::Uint(1))?;
    Ok(())
}

/// The bind of `wl_shell`.
fn bind_message(alloc: Global) -> Result<Message<u32, Token>> {
    let mut bind = Message {
        sender_id: 2,
        opcode: 0,
        args: SmallVec::new(alloc),
    };
    let name = CString::new(Vec::from_slice(alloc, b"wl_shell")?)?;
    push_arguments(&mut bind, name)?;
    Ok(bind)
}

/// How many bytes the message takes in the buffer.
fn write(alloc: Global, bind: &Message<u32, Token>, buffer: &mut [u8]) -> Result<usize> {
    let mut tokens = Vec::new(alloc);
    Ok(write_to_buffers(bind, buffer, &mut tokens)?)
}

/// Whether the buffer holds the message and nothing after it.
fn reads_again(alloc: Global, bind: &Message<u32, Token>, buffer: &[u8]) -> Result<bool> {
    let signature = [
        ArgumentType::Uint,
        ArgumentType::Str(AllowNull::No),
        ArgumentType::Uint,
    ];
    let mut waiting = VecDeque::new(alloc);
    let (again, rest) = parse_message(alloc, buffer, &signature, &mut waiting)?;
    Ok(again == *bind && rest.is_empty())
}

/// The size of the message, and whether it is read again.
fn written_and_read(alloc: Global, bind: &Message<u32, Token>) -> Result<(usize, bool)> {
    let mut buffer = [0u8; 32];
    let size = write(alloc, bind, &mut buffer)?;
    Ok((size, reads_again(alloc, bind, &buffer)?))
}

/// The size of the bind, and whether it is read again.
fn bind_again(alloc: Global) -> Result<(usize, bool)> {
    let bind = bind_message(alloc)?;
    written_and_read(alloc, &bind)
}

#[test]
fn bind_written_and_read(rt: HostRuntime) -> Result<(), Fail> {
    assert_eq!(rt; bind_again(rt.alloc())?, (32, true));
    Ok(())
}
