//! Nulls that the table forbids. The core hands them out; the host is told of the first one of a message, or has it refused.

ghost use Rattle.std.specs.Prelude.{◌≡◌, IfOk, MatchOption, false, option_map, slice_get};
ghost use Rattle.std.specs.Option.{option_copied};
ghost use Rattle.std.specs.String.{string_bytes};
ghost use Rattle.wl_wire.specs.Table.{message_row};
ghost use Rattle.wl_flat.specs.Nulls.{allows_null, forbidden_null, is_forbidden, is_null, is_refused, name_in, null_text as text_of_null};

use crate::arguments::Objects;
use crate::flat::count_number;
use std::alloc::Global;
use wl_wire::{AllowNull, Argument, ArgumentType, MessageDesc, OutOfMemory, Token};

/// Whether a string or an object of this type may be null.
pub fn allows_null(kind: ArgumentType) -> bool
    ensures { result ≡ allows_null kind }
{
    matches!(
        kind,
        ArgumentType::Str(AllowNull::Yes) | ArgumentType::Object(AllowNull::Yes)
    )
}

/// Whether the argument is a string or an object, and null.
fn is_null<Id, Session, O: Objects<Id, Session>>(objects: &O, arg: &Argument<Id, Token>) -> bool
    ensures { result ≡ is_null O.flat_of arg.now }
{
    match arg {
        Argument::Str(text) => text.is_none(),
        Argument::Object(id) => objects.flat(id).number == 0,
        _ => false,
    }
}

/// Whether the argument is null, and the signature allows no null at its place.
fn is_forbidden<Id, Session, O: Objects<Id, Session>>(
    objects: &O,
    signature: &[ArgumentType],
    place: usize,
    arg: &Argument<Id, Token>,
) -> bool
    ensures { MatchOption (slice_get signature.now place) (result ≡ false) (λ kind. result ≡ is_forbidden O.flat_of (kind, arg.now)) }
{
    if !is_null(objects, arg) {
        return false;
    }
    match signature.get(place) {
        Some(kind) => !allows_null(*kind),
        None => false,
    }
}

/// The place of the first argument that is null where the signature allows no null, counted from 1; 0 if there is none.
pub fn forbidden_null<Id, Session, O: Objects<Id, Session>>(
    objects: &O,
    signature: &[ArgumentType],
    args: &[Argument<Id, Token>],
) -> u32
    ensures { result ≡ forbidden_null O.flat_of signature.now args.now }
{
    for (index, arg) in args.iter().enumerate() {
        if is_forbidden(objects, signature, index, arg) {
            return count_number(index + 1);
        }
    }
    0
}

/// Whether a message whose first null that is forbidden has this place is refused.
pub fn is_refused(refuses_nulls: bool, place: u32) -> bool
    ensures { result ≡ is_refused refuses_nulls place }
{
    refuses_nulls && place != 0
}

/// The name of the message; empty if the table has none.
pub fn name_in<'p>(message: Option<&'p MessageDesc>) -> &'p str
    ensures { result.now ≡ name_in (option_map message_row (option_copied message.entry)) }
{
    match message {
        Some(message) => message.name.as_str(),
        None => "",
    }
}

/// The text that says of a null that it is refused: its place, whether the message is a request or an event (`kind`), the name of
/// its interface, and its own.
#[cold]
#[inline(never)]
pub fn null_text(
    alloc: Global,
    kind: &str,
    interface: &str,
    message: &str,
    place: u32,
) -> Result<String, OutOfMemory>
    ensures { IfOk result (λ text. string_bytes text ≡ text_of_null kind.now interface.now message.now place) }
{
    Ok(format!(in alloc; "Invalid null argument {place} in {kind} {interface}.{message}.")?)
}
