//! The texts of errors.

use super::texts;
use std::alloc::{AllocError, Global};
use std::test::Fail;
use test_kit::log::tells;
use wl_wire::{
    IoFault, MessageParseError, MessageWriteError, ProtocolError, TableError, Text, ZeroByte,
};

/// The error 1 of a `quad`, of this message.
fn protocol_error(alloc: Global, message: &str) -> Result<ProtocolError, AllocError> {
    Ok(ProtocolError {
        code: 1,
        object_id: 3,
        object_interface: Text::new(String::from_str(alloc, "quad")?),
        message: Text::new(String::from_str(alloc, message)?),
    })
}

/// The text of the error of this message.
fn protocol_error_log(alloc: Global, message: &str) -> Result<String, Fail> {
    let error = protocol_error(alloc, message)?;
    Ok(format!(in alloc; "{error}")?)
}

#[test]
fn protocol_errors_end_in_their_message(rt: HostRuntime) -> Result<(), Fail> {
    tells(
        &rt,
        protocol_error_log(rt.alloc(), "no such request"),
        "Protocol error 1 on object quad@3: no such request",
    )?;
    tells(
        &rt,
        protocol_error_log(rt.alloc(), ""),
        "Protocol error 1 on object quad@3",
    )
}

/// Whether the errors of these two messages are equal.
fn are_equal(alloc: Global, one: &str, other: &str) -> Result<bool, Fail> {
    let one = protocol_error(alloc, one)?;
    let other = protocol_error(alloc, other)?;
    Ok(one == other)
}

#[test]
fn protocol_errors_of_other_messages_differ(rt: HostRuntime) -> Result<(), Fail> {
    assert!(rt; !are_equal(rt.alloc(), "no such request", "")?);
    Ok(())
}

/// The message that the error of this one gives back.
fn message_of(alloc: Global, message: &str) -> Result<String, Fail> {
    Ok(protocol_error(alloc, message)?.message.into_string())
}

#[test]
fn protocol_errors_give_their_message(rt: HostRuntime) -> Result<(), Fail> {
    tells(
        &rt,
        message_of(rt.alloc(), "no such request"),
        "no such request",
    )
}

#[test]
fn refusals_have_texts(rt: HostRuntime) -> Result<(), Fail> {
    tells(
        &rt,
        texts(rt.alloc(), &[MessageWriteError::BufferTooSmall]),
        "The provided buffer is too small to hold message content.\n",
    )?;
    let errors = [
        MessageParseError::MissingFD,
        MessageParseError::MissingData,
        MessageParseError::Malformed,
    ];
    tells(
        &rt,
        texts(rt.alloc(), &errors),
        "The message references a FD but the buffer FD is empty.\nMore data is needed to deserialize the message\nThe message is malformed and cannot be parsed\n",
    )?;
    let refusals = [
        TableError::ZeroInName(0),
        TableError::DuplicateName(1),
        TableError::UnknownInterface(2),
        TableError::TooManyNewIds(3),
        TableError::MissingChild(4),
        TableError::ArgInterfaces(50),
        TableError::OutOfMemory,
    ];
    tells(
        &rt,
        texts(rt.alloc(), &refusals),
        "interface 0: a name holds a zero byte\ninterface 1: the name is taken\ninterface 2: a message names an interface outside the table, or this one takes no more messages\ninterface 3: a message has more than one new id\ninterface 4: a message with a new id has no child interface\ninterface 50: a message has not one argument interface for each object\nout of memory\n",
    )?;
    tells(
        &rt,
        texts(rt.alloc(), &[ZeroByte]),
        "a string holds a zero byte\n",
    )
}

#[test]
fn faults_have_texts(rt: HostRuntime) -> Result<(), Fail> {
    let faults = [
        IoFault::WouldBlock,
        IoFault::Pipe,
        IoFault::TooBig,
        IoFault::Proto,
        IoFault::InvalidInput,
        IoFault::OutOfMemory,
        IoFault::Other(-5),
    ];
    tells(
        &rt,
        texts(rt.alloc(), &faults),
        "would block\nbroken pipe\nmessage too big\nprotocol fault\ninvalid input\nout of memory\nos error -5\n",
    )
}
