//! How what a session hands out is told in words. Both sessions share this.

use crate::tests::args::{arg, id};
use std::alloc::Global;
use std::test::Fail;
use wl_host::{
    Counts, ExtensionFault, FlatArgument, FlatClientId, FlatObjectId, Status, TableFault, Waiting,
    fault,
};

/// The client of all objects of a client's session.
pub const NOBODY: FlatClientId = FlatClientId { serial: 0, slot: 0 };

/// The null object.
pub const NULL: FlatObjectId = id!(NOBODY, 0 @ 0, serial 0);

/// The argument with nothing in it.
pub const NO_ARGUMENT: FlatArgument = arg!(int: 0);

/// Nothing to be sent.
pub const NOTHING: Counts = Counts {
    bytes: 0,
    descriptors: 0,
};

/// Numbers, each behind its name. Those that are 0 are left out.
pub fn tell_numbers(log: &mut String, numbers: &[(&str, u64)]) -> Result<(), Fail> {
    for (name, number) in numbers {
        if *number != 0 {
            write!(log, " {name} {number}")?;
        }
    }
    Ok(())
}

/// An object as `interface@number`.
pub fn tell_object(log: &mut String, id: FlatObjectId) -> Result<(), Fail> {
    let (interface, number) = (id.interface, id.number);
    write!(log, " {interface}@{number}")?;
    Ok(())
}

/// Objects, each behind its name. Those that are null are left out.
pub fn tell_objects(log: &mut String, objects: &[(&str, FlatObjectId)]) -> Result<(), Fail> {
    for (name, id) in objects {
        if id.interface != 0 || id.number != 0 {
            write!(log, " {name}")?;
            tell_object(log, *id)?;
        }
    }
    Ok(())
}

/// What an argument has beside its kind and its value.
fn tell_beside(log: &mut String, arg: &FlatArgument) -> Result<(), Fail> {
    tell_numbers(
        log,
        &[
            ("at", u64::from(arg.at)),
            ("length", u64::from(arg.length)),
            ("data", arg.data),
        ],
    )?;
    tell_objects(log, &[("object", arg.object)])
}

/// An argument: the number of its kind, its value, and what else it has.
fn tell_argument(log: &mut String, arg: &FlatArgument) -> Result<(), Fail> {
    let (number, value) = (arg.kind, arg.value);
    write!(log, " ({number}: {value}")?;
    tell_beside(log, arg)?;
    log.push(')')?;
    Ok(())
}

/// The bytes as hexadecimal numbers, in square brackets.
fn tell_bytes(log: &mut String, bytes: &[u8]) -> Result<(), Fail> {
    write!(log, " [")?;
    for byte in bytes {
        write!(log, " {byte:02x}")?;
    }
    write!(log, " ]")?;
    Ok(())
}

/// What was lent for arguments and bytes: the arguments, one after another, and the bytes, unless there are none.
pub fn tell_lent(log: &mut String, arguments: &[FlatArgument], bytes: &[u8]) -> Result<(), Fail> {
    for arg in arguments {
        tell_argument(log, arg)?;
    }
    if bytes.is_empty() {
        return Ok(());
    }
    tell_bytes(log, bytes)
}

/// The descriptors, in square brackets.
fn tell_descriptors(log: &mut String, descriptors: &[i32]) -> Result<(), Fail> {
    write!(log, " [")?;
    for descriptor in descriptors {
        write!(log, " {descriptor}")?;
    }
    write!(log, " ]")?;
    Ok(())
}

/// How much waits: bytes and descriptors that were received, and bytes and descriptors that are to be sent.
pub fn tell_waiting(log: &mut String, waiting: Waiting) -> Result<(), Fail> {
    let Waiting { received, to_send } = waiting;
    let (bytes, descriptors) = (received.bytes, received.descriptors);
    write!(log, " {bytes}+{descriptors}")?;
    let (bytes, descriptors) = (to_send.bytes, to_send.descriptors);
    write!(log, " {bytes}+{descriptors}")?;
    Ok(())
}

/// What is to be sent: so many of the bytes and the descriptors.
pub fn tell_counts(
    log: &mut String,
    counts: &Counts,
    bytes: &[u8],
    descriptors: &[i32],
) -> Result<(), Fail> {
    let bytes = bytes.get(..counts.bytes as usize).unwrap_or(&[]);
    let descriptors = descriptors
        .get(..counts.descriptors as usize)
        .unwrap_or(&[]);
    tell_bytes(log, bytes)?;
    tell_descriptors(log, descriptors)
}

/// A descriptor.
pub fn tell_descriptor(log: &mut String, descriptor: i32) -> Result<(), Fail> {
    write!(log, " descriptor {descriptor}")?;
    Ok(())
}

/// Whether the data are kept.
pub fn tell_kept(log: &mut String, is_kept: bool) -> Result<(), Fail> {
    write!(log, " kept {is_kept}")?;
    Ok(())
}

/// The status of an answer, whose value is told.
pub fn told<T, F: FnOnce(&mut String, T) -> Result<(), Fail>>(
    log: &mut String,
    answer: Result<T, Status>,
    tell: F,
) -> Result<Status, Fail>
    requires { F.IsAlwaysCallable tell }
{
    match answer {
        Ok(value) => {
            tell(log, value)?;
            Ok(Status::Ok)
        }
        Err(status) => Ok(status),
    }
}

/// The status of a table that was asked to take more interfaces. The fault of one that it refused is told.
pub fn told_table(log: &mut String, answer: Result<(), TableFault>) -> Result<Status, Fail> {
    let Err(refused) = answer else {
        return Ok(Status::Ok);
    };
    let (at, why) = (refused.interface, refused.fault);
    if why == fault::OUT_OF_MEMORY {
        return Ok(Status::OutOfMemory);
    }
    tell_numbers(
        log,
        &[("interface", u64::from(at)), ("fault", u64::from(why))],
    )?;
    Ok(Status::BadTable)
}

/// What whole rows came to.
pub fn told_extension(
    log: &mut String,
    answer: Result<(), ExtensionFault>,
) -> Result<Status, Fail> {
    let Err(refused) = answer else {
        return Ok(Status::Ok);
    };
    if refused.fault == fault::OUT_OF_MEMORY {
        return Ok(Status::OutOfMemory);
    }
    tell_numbers(
        log,
        &[
            ("interface", u64::from(refused.interface)),
            ("fault", u64::from(refused.fault)),
            ("event", u64::from(refused.is_event)),
            ("opcode", u64::from(refused.opcode)),
            ("version", u64::from(refused.version)),
        ],
    )?;
    Ok(Status::BadTable)
}

/// The number of an interface that joined a table, or why it was refused.
pub fn told_joined(log: &mut String, answer: Result<u32, ExtensionFault>) -> Result<Status, Fail> {
    match answer {
        Ok(number) => {
            tell_numbers(log, &[("number", u64::from(number))])?;
            Ok(Status::Ok)
        }
        Err(refused) => told_extension(log, Err(refused)),
    }
}

/// The bytes of these words, as the wire has them on a machine whose numbers begin with their lowest byte.
pub fn bytes_of(alloc: Global, words: &[u32]) -> Result<Vec<u8>, Fail> {
    let mut bytes = Vec::new(alloc);
    for word in words {
        bytes.extend_from_slice(&word.to_le_bytes())?;
    }
    Ok(bytes)
}
