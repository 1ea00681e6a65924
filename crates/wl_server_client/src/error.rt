//! The errors of a server's calls.
//!
//! If several reasons for a refusal hold at once, the first one in the order of the variants is returned, unless the call
//! says otherwise. The page of the module `client` says which clients are *stored*, and what a *slot* is.

use std::fmt;
use thiserror::Error;
use wl_wire::IoFault;

/// The id names nothing that the call may use.
///
/// It stands for `wayland_backend::server::InvalidId`.
#[derive(Clone, Copy, Debug, PartialEq, Eq, Error)]
#[error("Invalid Id")]
pub struct InvalidId;

/// Why a client was not inserted.
#[derive(Clone, Copy, Debug, PartialEq, Eq, Error)]
pub enum InsertClientError {
    /// Each slot has a client, or each serial was given out.
    #[error("no slot or no serial is left")]
    Full,
    /// There was no memory.
    #[error("out of memory")]
    OutOfMemory,
}

/// Why an object was not created.
#[derive(Clone, Copy, PartialEq, Eq, Error)]
pub enum CreateError {
    /// The client is not stored.
    #[error("Invalid Id")]
    InvalidId,
    /// The interface is not in the table.
    #[error("the interface is not in the table")]
    UnknownInterface,
    /// Each number of the server's range, from 0xFF000000 on, holds an object of the client.
    #[error("no number is left")]
    IdsExhausted,
    /// Each serial was given out.
    #[error("no serial is left")]
    SerialsExhausted,
    /// There was no memory.
    #[error("out of memory")]
    OutOfMemory,
}

/// Writes what `Display` writes.
impl fmt::Debug for CreateError {
    fn fmt<W: fmt::Write>(&self, f: &mut fmt::Formatter<W>) -> fmt::Result {
        write!(f, "{self}")
    }
}

/// Why an object was not created at the number that the program chose.
#[derive(Clone, Copy, PartialEq, Eq, Error)]
pub enum CreateAtError {
    /// The client is not stored.
    #[error("Invalid Id")]
    InvalidId,
    /// The interface is not in the table.
    #[error("the interface is not in the table")]
    UnknownInterface,
    /// Each serial was given out.
    #[error("no serial is left")]
    SerialsExhausted,
    /// The number is not free, or not in the client's range.
    #[error("the number is not free")]
    NotFree,
    /// There was no memory.
    #[error("out of memory")]
    OutOfMemory,
}

/// Writes what `Display` writes.
impl fmt::Debug for CreateAtError {
    fn fmt<W: fmt::Write>(&self, f: &mut fmt::Formatter<W>) -> fmt::Result {
        write!(f, "{self}")
    }
}

/// Why an object did not get another version.
#[derive(Clone, Copy, Debug, PartialEq, Eq, Error)]
pub enum VersionError {
    /// The id names no object, or its client is not stored.
    #[error("Invalid Id")]
    InvalidId,
    /// The version is 0, or above that of the object's interface in the table.
    #[error("the object's interface has no such version")]
    UnknownVersion,
}

/// Why an object was not destroyed.
#[derive(Clone, Copy, Debug, PartialEq, Eq, Error)]
pub enum DestroyError {
    /// The id names no object, or the display, or its client is not stored.
    #[error("Invalid Id")]
    InvalidId,
    /// There was no memory.
    #[error("out of memory")]
    OutOfMemory,
}

/// Why an event was not sent.
///
/// The sender is checked first, then the opcode, then the signature, then the arguments from left to right. Of each
/// argument it is checked whether it is null, then to which client it belongs, then whether the object is there, then its
/// interface.
#[derive(Clone, Copy, PartialEq, Eq)]
pub enum EventError {
    /// The sender's client is not stored, or the id of the sender or of an argument names no object.
    InvalidId,
    /// The sender's interface has no event of that opcode.
    UnknownOpcode,
    /// The arguments do not fit the event's signature.
    BadSignature,
    /// An object argument is null, and the signature does not allow that.
    NullObject,
    /// A new id is null.
    NullNewId,
    /// An argument is an object of another client.
    ForeignObject,
    /// An argument has another interface than the one that the table asks for.
    WrongInterface,
    /// There was no memory.
    OutOfMemory,
}

impl fmt::Display for EventError {
    fn fmt<W: fmt::Write>(&self, f: &mut fmt::Formatter<W>) -> fmt::Result {
        f.write_str(match self {
            EventError::InvalidId => "Invalid Id",
            EventError::UnknownOpcode => "the interface has no event of that opcode",
            EventError::BadSignature => "the arguments do not fit the event's signature",
            EventError::NullObject => "an object argument is null",
            EventError::NullNewId => "a new id is null",
            EventError::ForeignObject => "an argument is an object of another client",
            EventError::WrongInterface => "an argument has another interface",
            EventError::OutOfMemory => "out of memory",
        })
    }
}

/// Writes what `Display` writes.
impl fmt::Debug for EventError {
    fn fmt<W: fmt::Write>(&self, f: &mut fmt::Formatter<W>) -> fmt::Result {
        write!(f, "{self}")
    }
}

impl std::error::Error for EventError {}

/// Why a global was not created.
#[derive(Clone, Copy, PartialEq, Eq, Error)]
pub enum GlobalError {
    /// The interface is not in the table.
    #[error("the interface is not in the table")]
    UnknownInterface,
    /// The version is above that of the interface in the table.
    #[error("the version is above the interface's")]
    VersionTooHigh,
    /// Each name has a global, or, while names are kept, was in use; or each serial was given out.
    #[error("no name or no serial is left")]
    Full,
    /// There was no memory.
    #[error("out of memory")]
    OutOfMemory,
}

/// Writes what `Display` writes.
impl fmt::Debug for GlobalError {
    fn fmt<W: fmt::Write>(&self, f: &mut fmt::Formatter<W>) -> fmt::Result {
        write!(f, "{self}")
    }
}

/// Why no action was handed out.
#[derive(Clone, Copy, Debug, PartialEq, Eq, Error)]
pub enum ActionError {
    /// The reading failed, for one of these reasons:
    ///
    /// - `WouldBlock`: no whole message is there yet.
    /// - `Proto`: the client sent bytes that are no message that it may send.
    /// - `Pipe`: the client was killed, or broke the protocol in another way.
    /// - `InvalidInput`: the client is not stored.
    /// - `OutOfMemory`: memory ran out.
    /// - Any fault with which the transport failed.
    #[error("Io error: {0}")]
    Io(IoFault),
    /// An action of this client was handed out before, and is not finished yet.
    #[error("an action is open")]
    ActionOpen,
}

/// Why an action was not finished.
#[derive(Clone, Copy, PartialEq, Eq, Error)]
pub enum FinishError {
    /// The client is not stored.
    #[error("Invalid Id")]
    InvalidId,
    /// No action of the client is open.
    #[error("no action is open")]
    NoOpenAction,
    /// The open action is a request and the call finishes a bind, or the other way round.
    #[error("the open action is of the other kind")]
    WrongKind,
    /// The request made an object, and no user data were given for it. This is no error if the client was killed.
    #[error("the new object gets no user data")]
    MissingObjectData,
    /// User data were given, and the request made no object.
    #[error("there is no new object for the user data")]
    UnexpectedData,
    /// There was no memory to destroy the object that the action ends.
    #[error("out of memory")]
    OutOfMemory,
}

/// Writes what `Display` writes.
impl fmt::Debug for FinishError {
    fn fmt<W: fmt::Write>(&self, f: &mut fmt::Formatter<W>) -> fmt::Result {
        write!(f, "{self}")
    }
}

/// A refusal to finish an action: the reason, and the user data that were given. The action is still open.
#[derive(Debug, Drop)]
pub struct FinishRefused<D> {
    /// The reason.
    pub error: FinishError,
    /// The user data that were given to the call.
    pub user_data: D,
}

/// Why a call of a client's transport by script (`wl_link::Memory`) was refused.
#[derive(Clone, Copy, PartialEq, Eq, Error)]
pub enum ScriptError {
    /// The client is not stored.
    #[error("Invalid Id")]
    InvalidId,
    /// The chunk that was to arrive has more than 28 tokens. A *token* stands for a file descriptor.
    #[error("more tokens than a receive may give")]
    TooManyTokens,
    /// There was no memory.
    #[error("out of memory")]
    OutOfMemory,
}

/// Writes what `Display` writes.
impl fmt::Debug for ScriptError {
    fn fmt<W: fmt::Write>(&self, f: &mut fmt::Formatter<W>) -> fmt::Result {
        write!(f, "{self}")
    }
}
