//! What the events of the display, `wl_display`, say, and the error that the session stores for one of them.

ghost use Rattle.std.specs.Prelude.{◌≡◌, IfOk};
ghost use Rattle.wl_client.specs.Events.{display_event, told_error as error_told};
ghost use Rattle.wl_client.specs.Inside.ReadingLoop.{told_by};

use crate::objects::Kept;
use std::alloc::Global;
use wl_link::ObjectMap;
use wl_wire::opcodes::{DELETE_ID, ERROR};
use wl_wire::{Argument, CString, Message, OutOfMemory, Protocol, ProtocolError, Text, Token};

/// What an event of the display says.
#[derive(Clone, Copy)]
pub enum DisplayMessage<'m> {
    /// `wl_display.error`: the error that ends the session. It has the code, the number of the object that it is about, and
    /// the text.
    Fails(u32, u32, &'m CString),
    /// `wl_display.delete_id`: the server deletes the id of this number.
    Deletes(u32),
    /// An error without a text, or no event of the display.
    Unreadable,
}

/// What the message says, as an event of the display.
pub fn display_event(message: &Message<u32, Token>) -> DisplayMessage<'_>
    ensures { told_by result ≡ display_event message.now.opcode message.now.args.items }
{
    match (message.opcode, message.args.as_slice()) {
        (
            ERROR,
            [
                Argument::Object(number),
                Argument::Uint(code),
                Argument::Str(Some(text)),
            ],
        ) => { DisplayMessage::Fails(*code, *number, text) }
        (DELETE_ID, [Argument::Uint(number)]) => DisplayMessage::Deletes(*number),
        _ => DisplayMessage::Unreadable,
    }
}

/// The error to be stored for a `wl_display.error`. It has the name of the interface of the object that the error is about,
/// or `<unknown>` if there is no such object.
#[cold]
#[inline(never)]
pub fn told_error<U: Drop>(
    alloc: Global,
    protocol: &Protocol,
    objects: &ObjectMap<Kept<U>>,
    code: u32,
    number: u32,
    text: &CString,
) -> Result<ProtocolError, OutOfMemory>
    ensures { IfOk result (λ e. e ≡ error_told protocol.now objects.now.store code number text.now) }
{
    let name = match objects.find(number) {
        Some(object) => protocol.name(object.interface),
        None => "<unknown>",
    };
    Ok(ProtocolError {
        code,
        object_id: number,
        object_interface: Text::new(String::from_str(alloc, name)?),
        message: Text::new(text.to_string_lossy(alloc)?),
    })
}
