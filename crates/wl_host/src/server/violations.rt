//! How a client broke the protocol, so that it was killed.

ghost use Rattle.std.specs.Prelude.{◌≡◌, option_map};
ghost use Rattle.wl_host.specs.Calls.{or_invalid};
ghost use Rattle.wl_flat.specs.Flat.{client_of};
ghost use Rattle.wl_flat.specs.Kinds as kinds;
ghost use Rattle.wl_host.specs.Violations.{flat_violation, with_fault, with_wrong};
ghost use Rattle.wl_server_model.specs.Lookups.{violation_of};

use crate::server::Server;
use wl_flat::flat::{FlatClientId, count_number, interface_number};
use wl_flat::status::Status;
use wl_server::{MessageFault, RequestFault, Violation};

/// The kind of a [`FlatViolation`]. `wl_server::MessageFault` and `wl_server::RequestFault` say what each means.
pub mod violation {
    /// Malformed: no object had the number of the sender.
    pub const UNKNOWN_SENDER: u32 = 1;
    /// Malformed: the interface has no request with the opcode.
    pub const UNKNOWN_OPCODE: u32 = 2;
    /// Malformed: by its header the message had fewer bytes than a header.
    pub const SHORT_HEADER: u32 = 3;
    /// Malformed: the message ended before the argument did.
    pub const MISSING_BYTES: u32 = 4;
    /// Malformed: the argument is a string, and its bytes did not end in a zero, or had another one.
    pub const UNENDED_STRING: u32 = 5;
    /// The object's version (`found`) does not have the request, which is there since `wanted`.
    pub const SINCE_LATER: u32 = 6;
    /// The global of the name `number` could not be bound in the version `wanted`.
    pub const REFUSED_BIND: u32 = 7;
    /// The same; the name of the interface was null.
    pub const NULL_NAME: u32 = 8;
    /// The client could not make an object with `number`.
    pub const INVALID_NEW_ID: u32 = 9;
    /// No object had the number `number`.
    pub const UNKNOWN_ID: u32 = 10;
    /// The object `number` was of the interface `found`, and `wanted` is asked for.
    pub const WRONG_INTERFACE: u32 = 11;
    /// The object was null, and the table does not allow that.
    pub const NULL_OBJECT: u32 = 12;
    /// The client would have made an object at a number above the limit of objects, which is `wanted`.
    pub const TOO_MANY_OBJECTS: u32 = 13;
}

/// How a client broke the protocol by a message, so that it was killed (`wl_server::Violation`).
#[repr(C)]
#[derive(Clone, Copy, Debug, PartialEq, Eq, Drop)]
pub struct FlatViolation {
    /// What was wrong, one of the kinds of the module [`violation`]. It says which of the last four fields have a meaning; the
    /// others are 0.
    pub kind: u32,
    /// The number in the message's header: of the object that it was sent to.
    pub sender: u32,
    /// The place of that object's interface in the table; 0 if no object had the number.
    pub interface: u32,
    /// The opcode in the message's header.
    pub opcode: u32,
    /// The place of the argument, from 0.
    pub argument: u32,
    /// The number of an object, or the name of a global.
    pub number: u32,
    /// The version or the interface that would have been right, the version that was asked for, or the limit of objects.
    pub wanted: u32,
    /// The version or the interface that was there.
    pub found: u32,
}

/// Says of an argument that was read what was wrong with it.
fn with_wrong(violation: FlatViolation, place: usize, fault: RequestFault) -> FlatViolation
    ensures { result ≡ with_wrong violation place fault }
{
    let violation = FlatViolation {
        argument: count_number(place),
        ..violation
    };
    match fault {
        RequestFault::InvalidNewId(number) => FlatViolation {
            kind: violation::INVALID_NEW_ID,
            number,
            ..violation
        },
        RequestFault::UnknownId(number) => FlatViolation {
            kind: violation::UNKNOWN_ID,
            number,
            ..violation
        },
        RequestFault::WrongInterface(number, asked, got) => FlatViolation {
            kind: violation::WRONG_INTERFACE,
            number,
            wanted: interface_number(asked),
            found: interface_number(got),
            ..violation
        },
        RequestFault::NullObject => FlatViolation {
            kind: violation::NULL_OBJECT,
            ..violation
        },
    }
}

/// The same with this kind.
fn of_kind(violation: FlatViolation, kind: u32) -> FlatViolation
    ensures { result ≡ record violation { kind = kind } }
{
    FlatViolation { kind, ..violation }
}

/// Says what was wrong with the message.
fn with_fault(violation: FlatViolation, fault: MessageFault) -> FlatViolation
    ensures { result ≡ with_fault violation fault }
{
    match fault {
        MessageFault::UnknownSender => of_kind(violation, violation::UNKNOWN_SENDER),
        MessageFault::UnknownOpcode => of_kind(violation, violation::UNKNOWN_OPCODE),
        MessageFault::ShortHeader => of_kind(violation, violation::SHORT_HEADER),
        MessageFault::MissingBytes(place) => FlatViolation {
            kind: violation::MISSING_BYTES,
            argument: count_number(place),
            ..violation
        },
        MessageFault::UnendedString(place) => FlatViolation {
            kind: violation::UNENDED_STRING,
            argument: count_number(place),
            ..violation
        },
        MessageFault::SinceLater { version, since } => FlatViolation {
            kind: violation::SINCE_LATER,
            wanted: since,
            found: version,
            ..violation
        },
        MessageFault::RefusedBind {
            global,
            version,
            has_name,
        } => FlatViolation {
            kind: if has_name {
                violation::REFUSED_BIND
            } else {
                violation::NULL_NAME
            },
            number: global,
            wanted: version,
            ..violation
        },
        MessageFault::TooManyObjects(limit) => FlatViolation {
            kind: violation::TOO_MANY_OBJECTS,
            wanted: limit,
            ..violation
        },
        MessageFault::WrongArgument(place, fault) => with_wrong(violation, place, fault),
    }
}

/// The violation as a flat struct.
fn flat_violation(violation: Violation) -> FlatViolation
    ensures { result ≡ flat_violation violation }
{
    let message = FlatViolation {
        kind: 0,
        sender: violation.sender_id,
        interface: interface_number(violation.interface),
        opcode: u32::from(violation.opcode),
        argument: 0,
        number: 0,
        wanted: 0,
        found: 0,
    };
    with_fault(message, violation.fault)
}

impl Server {
    /// How the client broke the protocol, if it was killed for a message (`wl_server::Backend::violation`), until the next
    /// cleanup takes it out.
    ///
    /// The status is `InvalidId` if the client is not stored, is live, or was killed for another reason, as for a null that
    /// `refuse_nulls` refuses.
    pub fn violation(&self, client: &FlatClientId) -> Result<FlatViolation, Status>
        ensures { result ≡ or_invalid (option_map flat_violation (violation_of self.now.core.server (client_of client.now))) }
    {
        match self.core.violation(&client.id()) {
            Some(violation) => Ok(flat_violation(violation)),
            None => Err(Status::InvalidId),
        }
    }
}
