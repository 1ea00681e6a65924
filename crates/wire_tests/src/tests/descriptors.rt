//! The descriptors of a message replaced by others.

use smallvec::SmallVec;
use std::alloc::{AllocError, Global};
use std::test::Fail;
use test_kit::message::{Arg, message};
use wl_wire::{Argument, Message, Token};

/// A message whose descriptors are replaced by 0, 1 and so on, in the order in which they are asked for.
fn counted(alloc: Global, header: (u32, u16), args: &[Arg]) -> Result<Message<u32, u32>, Fail> {
    let message = message(alloc, header, args)?;
    let mut count = 0u32;
    let mapped = message.map_fd(|_| {
        let number = count;
        count = count.wrapping_add(1);
        number
    });
    match mapped {
        Ok(mapped) => Ok(mapped),
        Err(_) => Err(Fail::new("there is memory")),
    }
}

/// Whether the message has this sender and opcode and these arguments.
fn has<Fd: PartialEq>(
    message: &Message<u32, Fd>,
    header: (u32, u16),
    args: &[Argument<u32, Fd>],
) -> bool {
    (message.sender_id, message.opcode) == header && message.args.as_slice() == args
}

/// Whether these arguments become those.
fn maps(alloc: Global, args: &[Arg], expected: &[Argument<u32, u32>]) -> Result<bool, Fail> {
    let mapped = counted(alloc, (42, 7), args)?;
    Ok(has(&mapped, (42, 7), expected))
}

#[test]
fn descriptors_are_mapped_from_left_to_right(rt: HostRuntime) -> Result<(), Fail> {
    let args = [Arg::Fd(5), Arg::Int(1), Arg::Fd(6)];
    let expected = [Argument::Fd(0), Argument::Int(1), Argument::Fd(1)];
    assert!(rt; maps(rt.alloc(), &args, &expected)?);
    Ok(())
}

/// Whether the descriptors of this message of five arguments become 0, 1 and 2, or there is no memory, and the message comes
/// back without a call.
fn is_mapped_or_given_back(message: Message<u32, Token>) -> bool {
    let mut count = 0i32;
    let mapped = message.map_fd(|_| {
        let token = Token(count);
        count = count.wrapping_add(1);
        token
    });
    let (fds, calls) = match &mapped {
        Ok(_) => ([0, 1, 2], 3),
        Err(_) => ([5, 6, 7], 0),
    };
    let expected = [
        Argument::Fd(Token(fds[0])),
        Argument::Int(1),
        Argument::Fd(Token(fds[1])),
        Argument::Uint(2),
        Argument::Fd(Token(fds[2])),
    ];
    match &mapped {
        Ok(message) | Err(message) => has(message, (42, 7), &expected) && count == calls,
    }
}

/// A message of more arguments than lie in it: their list needs memory.
fn five_arguments(alloc: Global) -> Result<Message<u32, Token>, AllocError> {
    let mut args = SmallVec::new(alloc);
    args.push(Argument::Fd(Token(5)))?;
    args.push(Argument::Int(1))?;
    args.push(Argument::Fd(Token(6)))?;
    args.push(Argument::Uint(2))?;
    args.push(Argument::Fd(Token(7)))?;
    Ok(Message {
        sender_id: 42,
        opcode: 7,
        args,
    })
}

#[test]
fn drill_of_five_arguments(rt: HostRuntime) {
    if let Ok(message) = five_arguments(rt.alloc()) {
        assert!(rt; is_mapped_or_given_back(message));
    }
}
