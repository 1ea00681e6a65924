//! The errors of this crate and of the crates above it.

use crate::text::Text;
use std::alloc::{AllocError, AllocFailed};
use std::fmt;
use thiserror::Error;

/// There was no memory: an allocation failed.
#[derive(Clone, Copy, Debug, PartialEq, Eq, Error)]
#[error("out of memory")]
pub struct OutOfMemory;

impl From<AllocError> for OutOfMemory {
    fn from(_e: AllocError) -> OutOfMemory {
        OutOfMemory
    }
}

impl<T: Drop> From<AllocFailed<T>> for OutOfMemory {
    fn from(_e: AllocFailed<T>) -> OutOfMemory {
        OutOfMemory
    }
}

/// Why a transport could not send or receive, or why a session could not. It stands for the `std::io::Error` of
/// `wayland-backend`.
#[derive(Clone, Copy, PartialEq, Eq)]
pub enum IoFault {
    /// Nothing can be sent or received now. The call may be made again later.
    WouldBlock,
    /// The connection has ended: the other side closed it, or the client was killed.
    Pipe,
    /// A message takes more than 65535 bytes, or more than the buffer may hold.
    TooBig,
    /// The other side broke the protocol.
    Proto,
    /// The call cannot be made with what it was given.
    InvalidInput,
    /// There was no memory: an allocation failed.
    OutOfMemory,
    /// Another error of the system, with its number.
    Other(i32),
}

impl fmt::Display for IoFault {
    fn fmt<W: fmt::Write>(&self, f: &mut fmt::Formatter<W>) -> fmt::Result {
        let text = match self {
            IoFault::WouldBlock => "would block",
            IoFault::Pipe => "broken pipe",
            IoFault::TooBig => "message too big",
            IoFault::Proto => "protocol fault",
            IoFault::InvalidInput => "invalid input",
            IoFault::OutOfMemory => "out of memory",
            IoFault::Other(number) => return write!(f, "os error {number}"),
        };
        f.write_str(text)
    }
}

/// Writes what `Display` writes.
impl fmt::Debug for IoFault {
    fn fmt<W: fmt::Write>(&self, f: &mut fmt::Formatter<W>) -> fmt::Result {
        write!(f, "{self}")
    }
}

impl std::error::Error for IoFault {}

/// Why a message was not written.
#[derive(Clone, Copy, PartialEq, Eq, Error)]
pub enum MessageWriteError {
    /// The message takes more than 65535 bytes. The length field of its header has 16 bits.
    #[error("The message is longer than 65535 bytes.")]
    TooLong,
    /// The message takes more bytes than the buffer has.
    #[error("The provided buffer is too small to hold message content.")]
    BufferTooSmall,
    /// There was no memory for the message's tokens.
    #[error("out of memory")]
    OutOfMemory,
}

/// Writes what `Display` writes.
impl fmt::Debug for MessageWriteError {
    fn fmt<W: fmt::Write>(&self, f: &mut fmt::Formatter<W>) -> fmt::Result {
        write!(f, "{self}")
    }
}

/// Why no message was read.
#[derive(Clone, Copy, PartialEq, Eq, Error)]
pub enum MessageParseError {
    /// The message is not complete: some of its bytes are missing.
    #[error("More data is needed to deserialize the message")]
    MissingData,
    /// The bytes are not a message with that signature.
    #[error("The message is malformed and cannot be parsed")]
    Malformed,
    /// Fewer tokens wait than the signature has file descriptors.
    #[error("The message references a FD but the buffer FD is empty.")]
    MissingFD,
    /// There was no memory for the message's arguments.
    #[error("out of memory")]
    OutOfMemory,
}

/// Writes what `Display` writes.
impl fmt::Debug for MessageParseError {
    fn fmt<W: fmt::Write>(&self, f: &mut fmt::Formatter<W>) -> fmt::Result {
        write!(f, "{self}")
    }
}

/// A protocol error. One side told it to the other (`wl_display.error`), or a session found it itself.
///
/// As text it names the code and the object. The message follows, unless it is empty.
#[derive(Debug, PartialEq, Eq, Drop)]
pub struct ProtocolError {
    /// Which error it is, among those of the object's interface.
    pub code: u32,
    /// The number of the object that the error is about.
    pub object_id: u32,
    /// The name of that object's interface.
    pub object_interface: Text,
    /// What went wrong, as text for a person.
    pub message: Text,
}

impl fmt::Display for ProtocolError {
    fn fmt<W: fmt::Write>(&self, f: &mut fmt::Formatter<W>) -> fmt::Result {
        let ProtocolError {
            code,
            object_id,
            object_interface,
            message,
        } = self;
        write!(
            f,
            "Protocol error {code} on object {object_interface}@{object_id}"
        )?;
        if message.as_str().is_empty() {
            return Ok(());
        }
        write!(f, ": {message}")
    }
}

impl std::error::Error for ProtocolError {}
