//! Why a call of a session was refused, and the error that ends a session.

use std::fmt;
use thiserror::Error;
use wl_wire::{IoFault, ProtocolError};

/// The id names no object that the call may use.
///
/// An id *names* an object if its number has that object and its serial is that object's.
#[derive(Clone, Copy, Debug, PartialEq, Eq, Error)]
#[error("Invalid ObjectId")]
pub struct InvalidId;

/// The error that a session keeps. It stands for `wayland_backend::client::WaylandError`. The variants say what the session
/// itself keeps; `Backend::fail` may give it any.
#[derive(Debug, PartialEq, Eq, Drop, Error)]
pub enum WaylandError {
    /// A fault of the transport; or a request was too long to be sent (`TooBig`); or there was no memory for an error's
    /// text (`OutOfMemory`).
    #[error("Io error: {0}")]
    Io(IoFault),
    /// The server sent an error (`wl_display.error`), or it broke the protocol.
    #[error(transparent)]
    Protocol(ProtocolError),
}

/// Why an object was not destroyed.
#[derive(Clone, Copy, Debug, PartialEq, Eq, Error)]
pub enum DestroyError {
    /// The id names no object, or it names the display, or an object that the client has destroyed before.
    #[error("Invalid ObjectId")]
    InvalidId,
    /// There was no memory for the note.
    #[error("out of memory")]
    OutOfMemory,
}

/// Why a request was not sent.
///
/// The reasons are looked for in the order of the variants, with two exceptions. A sender that the client has destroyed is
/// refused after the opcode was looked at. The object arguments are looked at after `NotPlaceholder`, one after the other:
/// the first one with a reason decides.
#[derive(Clone, Copy, PartialEq, Eq)]
pub enum RequestError {
    /// The sender, or an object argument, names no object, or one that the client has destroyed.
    InvalidId,
    /// The sender's interface has no request of that opcode.
    UnknownOpcode,
    /// The arguments do not fit the request's signature: there are more or fewer, or one is of another type.
    BadSignature,
    /// The interface that the caller asks for the new object is not in the table.
    UnknownInterface,
    /// The caller asks for another interface of the new object than the table.
    WrongChild,
    /// The caller asks for another version of the new object than the sender's, though the table names its interface.
    WrongChildVersion,
    /// Neither the table nor the caller names the interface of the new object.
    MissingChildSpec,
    /// The request makes an object, and no user data were given for it.
    MissingObjectData,
    /// The new id among the arguments is not null. The session chooses the number.
    NotPlaceholder,
    /// An object argument is of another interface than the table asks for.
    WrongInterface,
    /// An object argument is null, and the signature forbids it.
    NullObject,
    /// No number is left for the new object: each number of the client's range has an object.
    IdsExhausted,
    /// No serial is left for the new object: each one was given out.
    SerialsExhausted,
    /// There was no memory for the new object, for the note of the sender's end, or to write the request.
    OutOfMemory,
}

impl fmt::Display for RequestError {
    fn fmt<W: fmt::Write>(&self, f: &mut fmt::Formatter<W>) -> fmt::Result {
        f.write_str(match self {
            RequestError::InvalidId => "Invalid ObjectId",
            RequestError::UnknownOpcode => "the interface has no request of that opcode",
            RequestError::BadSignature => "the arguments do not fit the request's signature",
            RequestError::UnknownInterface => "the new object's interface is not in the table",
            RequestError::WrongChild => "the table names another interface for the new object",
            RequestError::WrongChildVersion => "the new object's version is not its sender's",
            RequestError::MissingChildSpec => "the new object's interface is not named",
            RequestError::MissingObjectData => "the new object gets no user data",
            RequestError::NotPlaceholder => "the new id is not null",
            RequestError::WrongInterface => "an object argument has another interface",
            RequestError::NullObject => "an object argument is null",
            RequestError::IdsExhausted => "no number is left",
            RequestError::SerialsExhausted => "no serial is left",
            RequestError::OutOfMemory => "out of memory",
        })
    }
}

/// Writes what `Display` writes.
impl fmt::Debug for RequestError {
    fn fmt<W: fmt::Write>(&self, f: &mut fmt::Formatter<W>) -> fmt::Result {
        write!(f, "{self}")
    }
}

impl std::error::Error for RequestError {}

/// Why what waits was not sent, or not all of it.
#[derive(Clone, Copy, PartialEq, Eq, Error)]
pub enum FlushError {
    /// The session has an error, which `last_error` returns.
    #[error("the session failed")]
    Failed,
    /// The transport can send no more now. What was not sent still waits.
    #[error("would block")]
    WouldBlock,
    /// There was no memory in the transport. What was not sent still waits.
    #[error("out of memory")]
    OutOfMemory,
}

/// Writes what `Display` writes.
impl fmt::Debug for FlushError {
    fn fmt<W: fmt::Write>(&self, f: &mut fmt::Formatter<W>) -> fmt::Result {
        write!(f, "{self}")
    }
}

/// Why no event was handed out.
#[derive(Clone, Copy, PartialEq, Eq, Error)]
pub enum EventError {
    /// The session has an error, which `last_error` returns.
    #[error("the session failed")]
    Failed,
    /// The event that was handed out last is not finished yet.
    #[error("an event is open")]
    EventOpen,
    /// Nothing more can be read now, or 64 receives brought no event.
    #[error("would block")]
    WouldBlock,
    /// There was no memory for what was received, for an event, or for the id of a `delete_id` while ids are kept (`keep_freed`).
    #[error("out of memory")]
    OutOfMemory,
}

/// Writes what `Display` writes.
impl fmt::Debug for EventError {
    fn fmt<W: fmt::Write>(&self, f: &mut fmt::Formatter<W>) -> fmt::Result {
        write!(f, "{self}")
    }
}

/// Why an event was not finished.
#[derive(Clone, Copy, PartialEq, Eq, Error)]
pub enum FinishError {
    /// No event is open.
    #[error("no event is open")]
    NoOpenEvent,
    /// The event made an object, and no user data were given for it.
    #[error("the new object gets no user data")]
    MissingObjectData,
    /// User data were given, but the event made no object.
    #[error("there is no new object for the user data")]
    UnexpectedData,
    /// There was no memory for the note of the object that the event ends.
    #[error("out of memory")]
    OutOfMemory,
}

/// Writes what `Display` writes.
impl fmt::Debug for FinishError {
    fn fmt<W: fmt::Write>(&self, f: &mut fmt::Formatter<W>) -> fmt::Result {
        write!(f, "{self}")
    }
}

/// Why an event was not finished, and the user data that were given for it. The event is still open.
#[derive(Debug, Drop)]
pub struct FinishRefused<U> {
    /// The reason.
    pub error: FinishError,
    /// The user data that were given, if any.
    pub user_data: Option<U>,
}
