//! The texts of ids and errors.

use std::alloc::{AllocError, Global};
use std::fmt::{Display, Write};
use std::test::Fail;
use test_kit::log::tells;
use wl_client::{InvalidId, ObjectId, RequestError, WaylandError};
use wl_wire::{InterfaceId, IoFault, Protocol, ProtocolError, Text, WL_CALLBACK_INTERFACE};

/// Writes the text of an id.
fn write_id(alloc: Global, table: &Protocol, log: &mut String, id: ObjectId) -> Result<(), Fail> {
    let text = id.display(alloc, table)?;
    Ok(writeln!(log, "{text}")?)
}

/// The texts of the ids, a line each, if the table has no interface of its own.
fn ids_told(alloc: Global, ids: &[ObjectId]) -> Result<String, Fail> {
    let table = Protocol::new(alloc, Vec::new(alloc))?;
    let mut log = String::new(alloc);
    for id in ids {
        write_id(alloc, &table, &mut log, *id)?;
    }
    Ok(log)
}

/// The text.
fn text(alloc: Global, text: &str) -> Result<Text, Fail> {
    Ok(Text::new(String::from_str(alloc, text)?))
}

/// The error 1 of the `quad` 3, which says `no`.
fn no(alloc: Global) -> Result<ProtocolError, Fail> {
    Ok(ProtocolError {
        code: 1,
        object_id: 3,
        object_interface: text(alloc, "quad")?,
        message: text(alloc, "no")?,
    })
}

/// Writes the text of an error.
fn write_error<E: Display>(log: &mut String, error: &E) -> Result<(), AllocError> {
    writeln!(log, "{error}")
}

/// Writes the texts of an id's error, of the errors of a request that no run gets, of a fault of a session, and of this error of
/// one, a line each.
fn write_errors(log: &mut String, error: &WaylandError) -> Result<(), AllocError> {
    write_error(log, &InvalidId)?;
    write_error(log, &RequestError::IdsExhausted)?;
    write_error(log, &RequestError::SerialsExhausted)?;
    write_error(log, &WaylandError::Io(IoFault::Pipe))?;
    write_error(log, error)
}

/// The texts of these errors, of which that of the session is a protocol error.
fn errors_told(alloc: Global) -> Result<String, Fail> {
    let error = WaylandError::Protocol(no(alloc)?);
    let mut log = String::new(alloc);
    write_errors(&mut log, &error)?;
    Ok(log)
}

#[test]
fn texts_of_ids_and_errors(rt: HostRuntime) -> Result<(), Fail> {
    let ids = [
        ObjectId::from_parts(2, 1, WL_CALLBACK_INTERFACE),
        ObjectId::from_parts(4278190080, 7, InterfaceId(9)),
        ObjectId::null(),
    ];
    tells(
        &rt,
        ids_told(rt.alloc(), &ids),
        "wl_callback@2\n<unknown>@4278190080\n<anonymous>@0\n",
    )?;
    tells(
        &rt,
        errors_told(rt.alloc()),
        "Invalid ObjectId\nno number is left\nno serial is left\nIo error: broken pipe\nProtocol error 1 on object quad@3: no\n",
    )
}
