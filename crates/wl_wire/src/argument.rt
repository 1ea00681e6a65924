//! The types of argument that a message may have, and the arguments themselves.

ghost use Rattle.std.specs.Prelude.{◌≡◌, ◌↔◌, IsTrue};
ghost use Rattle.wl_wire.specs.Argument.{kind_of, type_of};

use crate::byte_array::ByteArray;
use crate::c_string::CString;
use std::fmt;

/// Whether a string or an object argument may be null.
#[derive(Clone, Copy, Debug, PartialEq, Eq)]
pub enum AllowNull {
    /// Null is allowed.
    Yes,
    /// Null is forbidden.
    No,
}

/// The type of one argument in the signature of a request or an event. Those that are one word on the wire come first.
#[derive(Clone, Copy, Debug, PartialEq, Eq)]
pub enum ArgumentType {
    /// A signed integer of 32 bits.
    Int,
    /// An unsigned integer of 32 bits.
    Uint,
    /// A signed fixed-point number with 24 bits before the point and 8 after it. It is kept as its value times 256.
    Fixed,
    /// The number of an object. 0 is null.
    Object(AllowNull),
    /// The number of an object that the message creates.
    NewId,
    /// A string, which has no zero byte in it, or null. It need not be UTF-8.
    Str(AllowNull),
    /// An array of bytes.
    Array,
    /// A file descriptor. It takes no bytes on the wire: the transport carries it beside them.
    Fd,
}

impl ArgumentType {
    /// Whether both are the same type, no matter which of them allows null.
    pub fn same_type(self, other: Self) -> bool
        ensures { IsTrue result ↔ (kind_of self ≡ kind_of other) }
    {
        match (self, other) {
            (ArgumentType::Str(_), ArgumentType::Str(_)) => true,
            (ArgumentType::Object(_), ArgumentType::Object(_)) => true,
            (one, two) => one == two,
        }
    }
}

/// A *token*: a number that stands for a file descriptor.
///
/// This core knows a file descriptor only by its token, which the transport gives and takes. The layer above opens,
/// duplicates and closes the file descriptor itself.
#[derive(Clone, Copy, Debug, PartialEq, Eq, Hash)]
pub struct Token(pub i32);

/// An argument of a message. `Id` is the type of object ids, and `Fd` that of file descriptors. Those that are one word on the wire
/// come first.
#[derive(PartialEq, Eq, Drop)]
pub enum Argument<Id, Fd> {
    /// A signed integer.
    Int(i32),
    /// An unsigned integer.
    Uint(u32),
    /// A signed fixed-point number with 24 bits before the point and 8 after it, kept as its value times 256.
    Fixed(i32),
    /// An object. The id may be null.
    Object(Id),
    /// The object that the message creates.
    NewId(Id),
    /// A string, or null (`None`).
    Str(Option<CString>),
    /// An array of bytes.
    Array(ByteArray),
    /// A file descriptor.
    Fd(Fd),
}

impl<Id, Fd> Argument<Id, Fd> {
    /// The type of the argument. For a string and for an object it is the type that allows null.
    pub fn get_type(&self) -> ArgumentType
        ensures { result ≡ type_of self.now }
    {
        match self {
            Argument::Int(_) => ArgumentType::Int,
            Argument::Uint(_) => ArgumentType::Uint,
            Argument::Fixed(_) => ArgumentType::Fixed,
            Argument::Str(_) => ArgumentType::Str(AllowNull::Yes),
            Argument::Object(_) => ArgumentType::Object(AllowNull::Yes),
            Argument::NewId(_) => ArgumentType::NewId,
            Argument::Array(_) => ArgumentType::Array,
            Argument::Fd(_) => ArgumentType::Fd,
        }
    }
}

/// Writes the name of a variant, and its one value in parentheses.
fn write_variant<W: fmt::Write, T: fmt::Debug>(
    f: &mut fmt::Formatter<W>,
    name: &str,
    value: &T,
) -> fmt::Result {
    write!(f, "{name}({value:?})")
}

impl<Id: fmt::Debug, Fd: fmt::Debug> fmt::Debug for Argument<Id, Fd> {
    fn fmt<W: fmt::Write>(&self, f: &mut fmt::Formatter<W>) -> fmt::Result {
        match self {
            Argument::Int(value) => write_variant(f, "Int", value),
            Argument::Uint(value) => write_variant(f, "Uint", value),
            Argument::Fixed(value) => write_variant(f, "Fixed", value),
            Argument::Str(text) => write_variant(f, "Str", text),
            Argument::Object(id) => write_variant(f, "Object", id),
            Argument::NewId(id) => write_variant(f, "NewId", id),
            Argument::Array(bytes) => write_variant(f, "Array", bytes),
            Argument::Fd(fd) => write_variant(f, "Fd", fd),
        }
    }
}

/// The value 0, which fills the inline places of a message's arguments that are not in use.
impl<Id, Fd> Default for Argument<Id, Fd> {
    ghost use Rattle.std.specs.Prelude.{◌≡◌, pos};
    ghost use Rattle.wl_wire.specs.declared.argument.Argument.TheVariants.{Int};

    ghost is_default = { λ a. a ≡ Int (pos 0) };

    fn default() -> Self {
        Argument::Int(0)
    }
}
