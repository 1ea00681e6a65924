//! What a call came to, as a number: one for each named error of the sessions.

ghost use Rattle.std.specs.Prelude.{◌≡◌};
ghost use Rattle.wl_flat.specs.Status.{code_of};

use wl_client::{
    DestroyError as ProxyDestroyError, EventError as NextEventError,
    FinishError as FinishEventError, FlushError, InvalidId as InvalidProxy, RequestError,
};
use wl_link::MailboxError;
use wl_server_client::error::{
    ActionError, CreateAtError, CreateError, DestroyError, EventError, FinishError, GlobalError,
    InsertClientError, InvalidId, VersionError,
};
use wl_wire::{IoFault, OutOfMemory};

/// What a call came to.
///
/// `code` is the number that stands for it outside of Rattle. Where an error of a session is turned into a status (`From`),
/// the status has its name, or the comment here says which error it is.
#[derive(Clone, Copy, Debug, PartialEq, Eq)]
pub enum Status {
    /// It was done.
    Ok,
    /// The place holds no session, or it is in a call.
    NoSession,
    /// The place holds a session already; or the session was used before the setting was made (`tell_messages` of a client).
    InUse,
    /// There was no memory.
    OutOfMemory,
    /// There is nothing, or nothing more now.
    WouldBlock,
    /// The memory that was lent is too small. What is needed is told, and nothing is lost.
    TooSmall,
    /// A flat struct cannot be read: its kind, an opcode above 65535, a range outside the bytes, a zero in a string.
    InvalidInput,
    /// The id names nothing that the call may use.
    InvalidId,
    /// The table was refused. The fault says which interface it is, and why.
    BadTable,
    /// More than 28 descriptors would wait.
    TooManyDescriptors,
    /// The client is killed, or the connection has ended (`IoFault::Pipe`).
    Closed,
    /// The other side broke the protocol (`IoFault::Proto`).
    ProtocolError,
    /// A message is too big (`IoFault::TooBig`).
    TooBig,
    /// The system's error with which a receive or a send failed (`IoFault::Other`).
    IoError,
    /// The session of a client has an error, which `last_error` tells.
    Failed,
    /// An action or an event is open.
    Open,
    /// No action and no event is open, or it was not handed out.
    NotOpen,
    /// The open action is of the other kind: a request, and the call finishes a bind, or the other way round.
    WrongKind,
    /// The message makes an object, and no data were given for it.
    MissingData,
    /// Data were given, and the message makes no object.
    UnexpectedData,
    /// The sender's interface has no message of that opcode.
    UnknownOpcode,
    /// The arguments do not fit the message's signature.
    BadSignature,
    /// An object argument is null, and the signature forbids it.
    NullObject,
    /// A new id is null.
    NullNewId,
    /// An argument is an object of another client.
    ForeignObject,
    /// An argument has another interface than the one that the table asks for.
    WrongInterface,
    /// The interface is not in the table.
    UnknownInterface,
    /// The version is above that of the interface, or 0 for an object (`VersionError::UnknownVersion`).
    VersionTooHigh,
    /// No number is left for the object.
    IdsExhausted,
    /// No serial is left.
    SerialsExhausted,
    /// No slot is left for a client, no name for a global, or no serial for either.
    Full,
    /// The caller asks for another interface of the new object than the table.
    WrongChild,
    /// The caller asks for another version of the new object than its sender's.
    WrongChildVersion,
    /// Neither the table nor the caller names the interface of the new object.
    MissingChild,
    /// The new id among the arguments is not null.
    NotPlaceholder,
    /// The number that was asked for is not free.
    NotFree,
    /// Events wait in the thread's queue: it handles these first (`wl_queues::PrepareError::EventsWait`).
    EventsWait,
    /// No thread has prepared to read.
    NotPrepared,
    /// No thread reads.
    NotReading,
    /// No such queue was made, or it was dropped; or it is the default queue, which is never dropped.
    NoQueue,
}

impl Status {
    /// The number that stands for the status: its place in the list, counted from 0.
    pub fn code(self) -> u32
        ensures { result ≡ code_of self }
    {
        self as u32
    }
}

impl From<IoFault> for Status {
    ghost use Rattle.wl_flat.specs.Status.{of_fault};

    ghost from_gives = { λ fault status. status ≡ of_fault fault };

    /// `InvalidInput` is `InvalidId`: the sessions answer it for a client that they do not have.
    fn from(fault: IoFault) -> Status {
        match fault {
            IoFault::WouldBlock => Status::WouldBlock,
            IoFault::Pipe => Status::Closed,
            IoFault::TooBig => Status::TooBig,
            IoFault::Proto => Status::ProtocolError,
            IoFault::InvalidInput => Status::InvalidId,
            IoFault::OutOfMemory => Status::OutOfMemory,
            IoFault::Other(_) => Status::IoError,
        }
    }
}

impl From<OutOfMemory> for Status {
    ghost use Rattle.wl_flat.specs.declared.status.Status.TheVariants as status;

    ghost from_gives = { λ _ s. s ≡ status.OutOfMemory };

    fn from(_error: OutOfMemory) -> Status {
        Status::OutOfMemory
    }
}

impl From<MailboxError> for Status {
    ghost use Rattle.wl_flat.specs.Status.{of_mailbox};

    ghost from_gives = { λ error status. status ≡ of_mailbox error };

    fn from(error: MailboxError) -> Status {
        match error {
            MailboxError::TooManyTokens => Status::TooManyDescriptors,
            MailboxError::OutOfMemory => Status::OutOfMemory,
        }
    }
}

impl From<InvalidId> for Status {
    ghost use Rattle.wl_flat.specs.declared.status.Status.TheVariants as status;

    ghost from_gives = { λ _ s. s ≡ status.InvalidId };

    fn from(_error: InvalidId) -> Status {
        Status::InvalidId
    }
}

impl From<InsertClientError> for Status {
    ghost use Rattle.wl_flat.specs.Status.{of_insert};

    ghost from_gives = { λ error status. status ≡ of_insert error };

    fn from(error: InsertClientError) -> Status {
        match error {
            InsertClientError::Full => Status::Full,
            InsertClientError::OutOfMemory => Status::OutOfMemory,
        }
    }
}

impl From<CreateError> for Status {
    ghost use Rattle.wl_flat.specs.Status.{of_create};

    ghost from_gives = { λ error status. status ≡ of_create error };

    fn from(error: CreateError) -> Status {
        match error {
            CreateError::InvalidId => Status::InvalidId,
            CreateError::UnknownInterface => Status::UnknownInterface,
            CreateError::IdsExhausted => Status::IdsExhausted,
            CreateError::SerialsExhausted => Status::SerialsExhausted,
            CreateError::OutOfMemory => Status::OutOfMemory,
        }
    }
}

impl From<CreateAtError> for Status {
    ghost use Rattle.wl_flat.specs.Status.{of_create_at};

    ghost from_gives = { λ error status. status ≡ of_create_at error };

    fn from(error: CreateAtError) -> Status {
        match error {
            CreateAtError::InvalidId => Status::InvalidId,
            CreateAtError::UnknownInterface => Status::UnknownInterface,
            CreateAtError::SerialsExhausted => Status::SerialsExhausted,
            CreateAtError::NotFree => Status::NotFree,
            CreateAtError::OutOfMemory => Status::OutOfMemory,
        }
    }
}

impl From<VersionError> for Status {
    ghost use Rattle.wl_flat.specs.Status.{of_version};

    ghost from_gives = { λ error status. status ≡ of_version error };

    fn from(error: VersionError) -> Status {
        match error {
            VersionError::InvalidId => Status::InvalidId,
            VersionError::UnknownVersion => Status::VersionTooHigh,
        }
    }
}

impl From<DestroyError> for Status {
    ghost use Rattle.wl_flat.specs.Status.{of_destroy};

    ghost from_gives = { λ error status. status ≡ of_destroy error };

    fn from(error: DestroyError) -> Status {
        match error {
            DestroyError::InvalidId => Status::InvalidId,
            DestroyError::OutOfMemory => Status::OutOfMemory,
        }
    }
}

impl From<EventError> for Status {
    ghost use Rattle.wl_flat.specs.Status.{of_event};

    ghost from_gives = { λ error status. status ≡ of_event error };

    fn from(error: EventError) -> Status {
        match error {
            EventError::InvalidId => Status::InvalidId,
            EventError::UnknownOpcode => Status::UnknownOpcode,
            EventError::BadSignature => Status::BadSignature,
            EventError::NullObject => Status::NullObject,
            EventError::NullNewId => Status::NullNewId,
            EventError::ForeignObject => Status::ForeignObject,
            EventError::WrongInterface => Status::WrongInterface,
            EventError::OutOfMemory => Status::OutOfMemory,
        }
    }
}

impl From<GlobalError> for Status {
    ghost use Rattle.wl_flat.specs.Status.{of_global};

    ghost from_gives = { λ error status. status ≡ of_global error };

    fn from(error: GlobalError) -> Status {
        match error {
            GlobalError::UnknownInterface => Status::UnknownInterface,
            GlobalError::VersionTooHigh => Status::VersionTooHigh,
            GlobalError::Full => Status::Full,
            GlobalError::OutOfMemory => Status::OutOfMemory,
        }
    }
}

impl From<ActionError> for Status {
    ghost use Rattle.wl_flat.specs.Status.{of_action};

    ghost from_gives = { λ error status. status ≡ of_action error };

    fn from(error: ActionError) -> Status {
        match error {
            ActionError::Io(fault) => Status::from(fault),
            ActionError::ActionOpen => Status::Open,
        }
    }
}

impl From<FinishError> for Status {
    ghost use Rattle.wl_flat.specs.Status.{of_finish};

    ghost from_gives = { λ error status. status ≡ of_finish error };

    fn from(error: FinishError) -> Status {
        match error {
            FinishError::InvalidId => Status::InvalidId,
            FinishError::NoOpenAction => Status::NotOpen,
            FinishError::WrongKind => Status::WrongKind,
            FinishError::MissingObjectData => Status::MissingData,
            FinishError::UnexpectedData => Status::UnexpectedData,
            FinishError::OutOfMemory => Status::OutOfMemory,
        }
    }
}

impl From<InvalidProxy> for Status {
    ghost use Rattle.wl_flat.specs.declared.status.Status.TheVariants as status;

    ghost from_gives = { λ _ s. s ≡ status.InvalidId };

    fn from(_error: InvalidProxy) -> Status {
        Status::InvalidId
    }
}

impl From<ProxyDestroyError> for Status {
    ghost use Rattle.wl_flat.specs.Status.{of_proxy_destroy};

    ghost from_gives = { λ error status. status ≡ of_proxy_destroy error };

    fn from(error: ProxyDestroyError) -> Status {
        match error {
            ProxyDestroyError::InvalidId => Status::InvalidId,
            ProxyDestroyError::OutOfMemory => Status::OutOfMemory,
        }
    }
}

impl From<RequestError> for Status {
    ghost use Rattle.wl_flat.specs.Status.{of_request};

    ghost from_gives = { λ error status. status ≡ of_request error };

    fn from(error: RequestError) -> Status {
        match error {
            RequestError::InvalidId => Status::InvalidId,
            RequestError::UnknownOpcode => Status::UnknownOpcode,
            RequestError::BadSignature => Status::BadSignature,
            RequestError::UnknownInterface => Status::UnknownInterface,
            RequestError::WrongChild => Status::WrongChild,
            RequestError::WrongChildVersion => Status::WrongChildVersion,
            RequestError::MissingChildSpec => Status::MissingChild,
            RequestError::MissingObjectData => Status::MissingData,
            RequestError::NotPlaceholder => Status::NotPlaceholder,
            RequestError::WrongInterface => Status::WrongInterface,
            RequestError::NullObject => Status::NullObject,
            RequestError::IdsExhausted => Status::IdsExhausted,
            RequestError::SerialsExhausted => Status::SerialsExhausted,
            RequestError::OutOfMemory => Status::OutOfMemory,
        }
    }
}

impl From<FlushError> for Status {
    ghost use Rattle.wl_flat.specs.Status.{of_flush};

    ghost from_gives = { λ error status. status ≡ of_flush error };

    fn from(error: FlushError) -> Status {
        match error {
            FlushError::Failed => Status::Failed,
            FlushError::WouldBlock => Status::WouldBlock,
            FlushError::OutOfMemory => Status::OutOfMemory,
        }
    }
}

impl From<NextEventError> for Status {
    ghost use Rattle.wl_flat.specs.Status.{of_next_event};

    ghost from_gives = { λ error status. status ≡ of_next_event error };

    fn from(error: NextEventError) -> Status {
        match error {
            NextEventError::Failed => Status::Failed,
            NextEventError::EventOpen => Status::Open,
            NextEventError::WouldBlock => Status::WouldBlock,
            NextEventError::OutOfMemory => Status::OutOfMemory,
        }
    }
}

impl From<FinishEventError> for Status {
    ghost use Rattle.wl_flat.specs.Status.{of_finish_event};

    ghost from_gives = { λ error status. status ≡ of_finish_event error };

    fn from(error: FinishEventError) -> Status {
        match error {
            FinishEventError::NoOpenEvent => Status::NotOpen,
            FinishEventError::MissingObjectData => Status::MissingData,
            FinishEventError::UnexpectedData => Status::UnexpectedData,
            FinishEventError::OutOfMemory => Status::OutOfMemory,
        }
    }
}
