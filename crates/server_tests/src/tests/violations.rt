//! How a client broke the protocol, which is kept when it is killed for a message.

use super::run::{Act, Look, Row, WITH_A_QUAD, rows_tell};
use server_test_kit::arrivals::{
    BIND, BIND_NULL, GET_REGISTRY, LINK_OF_2, LINK_OF_9, LINK_OF_NONE, MAKE_BY_SERVER, SYNC,
    SYNC_AT_5, UNKNOWN_OPCODE, UNKNOWN_SENDER,
};
use server_test_kit::steps::Call;
use server_test_kit::values::{DISPLAY, FIRST};
use std::fmt::Write;
use std::test::Fail;
use test_kit::quad::QUAD;
use wl_server::{MessageFault, RequestFault, Violation};
use wl_wire::IoFault;

/// `wl_display.sync` whose header says 7 bytes.
const SHORT_SYNC: [u8; 8] = [1, 0, 0, 0, 0, 0, 7, 0];

/// `wl_display.sync` without its new id.
const EMPTY_SYNC: [u8; 8] = [1, 0, 0, 0, 0, 0, 8, 0];

/// `quad.link`, by object 3, of no object, without its other argument.
const HALF_A_LINK: [u8; 12] = [3, 0, 0, 0, 3, 0, 12, 0, 0, 0, 0, 0];

/// `quad.give`, by object 3, of the bytes `ab` without a zero as a string, and of no bytes.
const GIVE_NO_STRING: [u8; 20] = [
    3, 0, 0, 0, 4, 0, 20, 0, 2, 0, 0, 0, 97, 98, 0, 0, 0, 0, 0, 0,
];

/// `quad.give`, by object 3, of the string `a`, and of 9 bytes that are not there.
const GIVE_NO_BYTES: [u8; 20] = [3, 0, 0, 0, 4, 0, 20, 0, 2, 0, 0, 0, 97, 0, 0, 0, 9, 0, 0, 0];

/// `quad.make`, by object 3, with the new id 9.
const MAKE_AT_9: [u8; 12] = [3, 0, 0, 0, 1, 0, 12, 0, 9, 0, 0, 0];

/// `wl_registry.bind`, by registry 2, of the global 7, as `quad` of version 3, with the new id 4.
const BIND_OF_7: [u8; 32] = [
    2, 0, 0, 0, 0, 0, 32, 0, 7, 0, 0, 0, 5, 0, 0, 0, 113, 117, 97, 100, 0, 0, 0, 0, 3, 0, 0, 0, 4,
    0, 0, 0,
];

/// Tells why an argument that was read is wrong.
fn request_fault(log: &mut String, fault: RequestFault) -> Result<(), Fail> {
    match fault {
        RequestFault::InvalidNewId(number) => writeln!(log, "new id {number}")?,
        RequestFault::UnknownId(number) => writeln!(log, "no object {number}")?,
        RequestFault::WrongInterface(number, asked, got) => {
            writeln!(log, "object {number} is {}, not {}", got.0, asked.0)?
        }
        RequestFault::NullObject => writeln!(log, "null")?,
    }
    Ok(())
}

/// Tells what was wrong with a message.
fn message_fault(log: &mut String, fault: MessageFault) -> Result<(), Fail> {
    match fault {
        MessageFault::UnknownSender => writeln!(log, "no such object")?,
        MessageFault::UnknownOpcode => writeln!(log, "no such request")?,
        MessageFault::ShortHeader => writeln!(log, "short header")?,
        MessageFault::MissingBytes(place) => writeln!(log, "argument {place} is cut")?,
        MessageFault::UnendedString(place) => writeln!(log, "argument {place} is no string")?,
        MessageFault::SinceLater { version, since } => {
            writeln!(log, "version {version}, since {since}")?
        }
        MessageFault::RefusedBind {
            global,
            version,
            has_name,
        } => writeln!(
            log,
            "bind of {global}, version {version}, named: {has_name}"
        )?,
        MessageFault::TooManyObjects(limit) => writeln!(log, "above the limit {limit}")?,
        MessageFault::WrongArgument(place, fault) => {
            write!(log, "argument {place}: ")?;
            request_fault(log, fault)?
        }
    }
    Ok(())
}

/// Tells how a client broke the protocol: the number and the interface of the object, the opcode, and what was wrong.
pub fn violation(log: &mut String, violation: Option<Violation>) -> Result<(), Fail> {
    let Some(violation) = violation else {
        return Ok(writeln!(log, "no violation")?);
    };
    let Violation {
        sender_id,
        interface,
        opcode,
        fault,
    } = violation;
    write!(log, "{sender_id} of {}, {opcode}: ", interface.0)?;
    message_fault(log, fault)
}

/// A run of a client with a quad to which these bytes come.
macro_rules! comes {
    ($name:literal, $bytes:expr, $told:literal) => {
        Row {
            name: $name,
            acts: &[
                Act::Quietly(&WITH_A_QUAD),
                Act::Quietly(&[Call::Arrive(FIRST, &$bytes), Call::Next(FIRST)]),
                Act::Look(Look::Violation(FIRST)),
            ],
            told: $told,
        }
    };
}

/// Messages that cannot be read.
static MALFORMED: [Row; 7] = [
    comes!(
        "unknown sender",
        UNKNOWN_SENDER,
        "99 of 0, 0: no such object\n"
    ),
    comes!(
        "unknown opcode",
        UNKNOWN_OPCODE,
        "1 of 1, 7: no such request\n"
    ),
    comes!("short header", SHORT_SYNC, "1 of 1, 0: short header\n"),
    comes!("no argument", EMPTY_SYNC, "1 of 1, 0: argument 0 is cut\n"),
    comes!(
        "one argument of two",
        HALF_A_LINK,
        "3 of 4, 3: argument 1 is cut\n"
    ),
    Row {
        name: "a string without a zero",
        acts: &[
            Act::Quietly(&WITH_A_QUAD),
            Act::Quietly(&[
                Call::ArriveWith(FIRST, &GIVE_NO_STRING, 7),
                Call::Next(FIRST),
            ]),
            Act::Look(Look::Violation(FIRST)),
        ],
        told: "3 of 4, 4: argument 0 is no string\n",
    },
    Row {
        name: "an array beyond the end",
        acts: &[
            Act::Quietly(&WITH_A_QUAD),
            Act::Quietly(&[
                Call::ArriveWith(FIRST, &GIVE_NO_BYTES, 7),
                Call::Next(FIRST),
            ]),
            Act::Look(Look::Violation(FIRST)),
        ],
        told: "3 of 4, 4: argument 1 is cut\n",
    },
];

/// Messages that can be read.
static REFUSED: [Row; 11] = [
    comes!("sync at 5", SYNC_AT_5, "1 of 1, 0: argument 0: new id 5\n"),
    comes!(
        "registry at 2",
        GET_REGISTRY,
        "1 of 1, 1: argument 0: new id 2\n"
    ),
    comes!(
        "bind of 7",
        BIND_OF_7,
        "2 of 2, 0: bind of 7, version 3, named: true\n"
    ),
    comes!(
        "bind of null",
        BIND_NULL,
        "2 of 2, 0: bind of 1, version 1, named: false\n"
    ),
    comes!("bind at 3", BIND, "2 of 2, 0: argument 3: new id 3\n"),
    comes!("make at 9", MAKE_AT_9, "3 of 4, 1: argument 0: new id 9\n"),
    comes!(
        "link of none",
        LINK_OF_NONE,
        "3 of 4, 3: argument 1: null\n"
    ),
    comes!(
        "link of 9",
        LINK_OF_9,
        "3 of 4, 3: argument 0: no object 9\n"
    ),
    comes!(
        "link of 2",
        LINK_OF_2,
        "3 of 4, 3: argument 0: object 2 is 2, not 4\n"
    ),
    Row {
        name: "request of a later version",
        acts: &[
            Act::Quietly(&[
                Call::Insert(true),
                Call::Create(FIRST, QUAD, 1, 9),
                Call::Arrive(FIRST, &MAKE_BY_SERVER),
                Call::Next(FIRST),
            ]),
            Act::Look(Look::Violation(FIRST)),
        ],
        told: "4278190080 of 4, 1: version 1, since 2\n",
    },
    Row {
        name: "sync above the limit of objects",
        acts: &[
            Act::Quietly(&[
                Call::ObjectLimit(Some(1)),
                Call::Insert(true),
                Call::Arrive(FIRST, &SYNC),
                Call::Next(FIRST),
            ]),
            Act::Look(Look::Violation(FIRST)),
        ],
        told: "1 of 1, 0: above the limit 1\n",
    },
];

/// When there is one, and when none.
static OTHERS: [Row; 3] = [
    Row {
        name: "until the cleanup",
        acts: &[
            Act::Quietly(&[
                Call::Insert(true),
                Call::Arrive(FIRST, &SYNC),
                Call::Next(FIRST),
            ]),
            Act::Look(Look::Violation(FIRST)),
            Act::Quietly(&[Call::Arrive(FIRST, &UNKNOWN_OPCODE), Call::Next(FIRST)]),
            Act::Look(Look::Violation(FIRST)),
            Act::Quietly(&[Call::Kill(FIRST), Call::Notes]),
            Act::Look(Look::Violation(FIRST)),
            Act::Quietly(&[Call::Cleanup]),
            Act::Look(Look::Violation(FIRST)),
        ],
        told: "no violation\n1 of 1, 7: no such request\n1 of 1, 7: no such request\nno violation\n",
    },
    Row {
        name: "killed by the program",
        acts: &[
            Act::Quietly(&[Call::Insert(true), Call::PostError(DISPLAY, 3, "no")]),
            Act::Look(Look::Violation(FIRST)),
        ],
        told: "no violation\n",
    },
    Row {
        name: "killed by a fault",
        acts: &[
            Act::Quietly(&[
                Call::Insert(true),
                Call::ArriveFault(FIRST, IoFault::Pipe),
                Call::Next(FIRST),
            ]),
            Act::Look(Look::Violation(FIRST)),
        ],
        told: "no violation\n",
    },
];

#[test]
fn malformed_messages(rt: HostRuntime) -> Result<(), Fail> {
    rows_tell(&rt, &MALFORMED)
}

#[test]
fn refused_messages(rt: HostRuntime) -> Result<(), Fail> {
    rows_tell(&rt, &REFUSED)
}

#[test]
fn other_ends(rt: HostRuntime) -> Result<(), Fail> {
    rows_tell(&rt, &OTHERS)
}
