//! The Wayland wire format: interfaces, arguments, messages, and their bytes.
//!
//! [`write_to_buffers`] writes a [`Message`]. [`parse_message`] reads one under a signature, which is the list of the types
//! of its arguments. A [`Protocol`] is the table of the interfaces that a session knows; the signatures stand there. The
//! format is the one that the Wayland documentation describes in the section "Wire Format"; numbers are little-endian on
//! every machine. Types and constants that are also in `wayland_backend::protocol` have the same names here: `Message`,
//! `Argument`, `Interface` and others. The page of this crate, `README.md`, has an example.
//!
//! | Calls | Code | Definitions, in `specs/` |
//! |---|---|---|
//! | `write_to_buffers`, `write_numbered`, `write_once`, `message_size`, `numbered_size` | `write` | `Message`, `MapIds` |
//! | `parse_message`, `parse_into`, `peek_into`, `message_header`, `message_is_there`, `fd_places` | `parse` | `Parse`, `Reading`, `Argument` |
//! | `read_word`, `read_counted`, `read_text`, `read_array` | `parse` | `Pieces` |
//! | `Protocol`, `check_for_signature`, `same_interface` | `protocol`, `table_check` | `Table`, `Argument`, `MessageRows` |
//! | `Message::map_fd` | `message` | `MapFd` |
//! | `push_message`, `push_argument`, `KnownObjects` | `log_text` | `LogText` |
//! | `WEnum`, `WaylandEnum` | `enums` | `Enum` |
//!
//! The `requires` and `ensures` lines of a function are its *contract*: what the caller has to see to, and what is proved
//! of each call. Lines that begin with `ghost` are for the checker alone. The `ghost` imports at the top of a file name the
//! files in which the words of its contracts are defined: `Rattle.wl_wire.specs.Message` is `specs/Message.antt`. The names
//! in `specs.declared` are those of the crate's Rust types.
//!
//! The functions of [`laws`] do nothing. Their contracts state what follows from the definitions alone: `Message`,
//! `Parse`, and `Stream` (messages one after another).
#![tactic(auto)]

/// An argument of a message, its type, and `Token`: the number that stands for a file descriptor.
mod argument;
/// `ByteArray`: the bytes of an array argument.
mod byte_array;
/// `CString`: the bytes of a string argument.
mod c_string;
/// The four interfaces that each table begins with, some of their opcodes, and the number of the display.
mod core_interfaces;
/// The enums of the protocol: the trait `WaylandEnum`, and `WEnum`: a value of one, or a number that is none.
mod enums;
/// The errors of messages and memory, and those that the crates above return: `IoFault`, `ProtocolError`.
mod error;
/// An interface; `InterfaceId`, with the ids of the four fixed interfaces; and `ObjectInfo`.
mod interface;
/// Laws that follow from the definitions alone: what is written is read back, in one way only.
pub mod laws;
/// Writes a message as a line of a log, as libwayland does; and the trait `KnownObjects`.
mod log_text;
/// `Message`: a request or an event, with its arguments.
mod message;
/// How the ids in arguments become numbers.
mod numbering;
/// The parser: reads a message, or its header alone, and says whether a whole message is there.
mod parse;
/// `Protocol`: the table of interfaces; `TableError`; and whether arguments match a signature.
mod protocol;
/// Whether a table may be accepted.
mod table_check;
/// `Text`: an owned string, as in `ProtocolError`. In contracts it is the list of its bytes.
mod text;
/// The writer: a message becomes bytes.
mod write;

pub use argument::{AllowNull, Argument, ArgumentType, Token};
pub use byte_array::ByteArray;
pub use c_string::{CString, ZeroByte};
pub use core_interfaces::{DISPLAY, opcodes};
pub use enums::{WEnum, WEnumError, WaylandEnum};
pub use error::{IoFault, MessageParseError, MessageWriteError, OutOfMemory, ProtocolError};
pub use interface::{
    ANONYMOUS_INTERFACE, Interface, InterfaceId, MessageDesc, ObjectInfo, WL_CALLBACK_INTERFACE,
    WL_DISPLAY_INTERFACE, WL_REGISTRY_INTERFACE,
};
pub use log_text::{KnownObjects, push_argument, push_message};
pub use message::{Args, INLINE_ARGS, Message};
pub use numbering::{Numbering, OwnNumbers};
pub use parse::{
    MessageHeader, fd_places, message_header, message_is_there, parse_into, parse_message,
    peek_into, read_array, read_counted, read_text, read_word,
};
pub use protocol::{
    Protocol, TableError, check_for_signature, same_interface, same_interface_or_anonymous,
};
pub use text::Text;
pub use write::{message_size, numbered_size, write_numbered, write_once, write_to_buffers};
