//! The events of the display and of callbacks, which the server sends by itself.

ghost use Rattle.std.specs.Prelude.{◌≡◌, ◌∷◌, ℕ, [], false, IsTrue, Ok, Some};
ghost use Rattle.wl_wire.specs.declared.argument.Argument.TheVariants as arg;
ghost use Rattle.wl_wire.specs.Message.{content};
ghost use Rattle.wl_link.specs.Link.{Wrote, has_room};
ghost use Rattle.wl_link.specs.Puts.{lacks_memory};
ghost use Rattle.wl_link.specs.Store.{is_server_number};
ghost use Rattle.wl_server_client.specs.Inside.Puts.{Puts};
ghost use Rattle.wl_server_client.specs.Telling.{deletions, done_message, error_message};

use smallvec::SmallVec;
use std::alloc::Global;
use wl_link::{BufferedSocket, NumberMessage, SERVER_ID_LIMIT, Transport, clear_message};
use wl_wire::opcodes::{DELETE_ID, DONE, ERROR};
use wl_wire::{Argument, CString, DISPLAY, IoFault, Message, Token};

/// How many bytes `put_done_at_once` writes.
pub const DONE_SIZE: usize = 24;

/// Whether a write or a flush failed for want of memory.
pub fn is_out_of_memory(answer: Result<(), IoFault>) -> bool
    ensures { result ≡ lacks_memory answer }
{
    matches!(answer, Err(IoFault::OutOfMemory))
}

/// A message with one argument, a number.
pub fn message_of_number(
    alloc: Global,
    sender_id: u32,
    opcode: u16,
    number: u32,
) -> Message<u32, Token>
    ensures { content result ≡ record { sender = sender_id; opcode = opcode; args = arg.Uint number ∷ [] } }
{
    let mut args = SmallVec::new(alloc);
    args.push_reserved(Argument::Uint(number));
    Message {
        sender_id,
        opcode,
        args,
    }
}

/// Drops what is in a message, and gives it this sender, this opcode, and one argument, a number.
fn overwrite_message(message: &mut Message<u32, Token>, sender_id: u32, opcode: u16, number: u32)
    ensures { content message.new ≡ record { sender = sender_id; opcode = opcode; args = arg.Uint number ∷ [] } }
{
    message.sender_id = sender_id;
    message.opcode = opcode;
    // A sync has one argument, and so has its first answer: it is replaced where it stands.
    if message.args.len() == 1 {
        message.args.as_mut_slice()[0] = Argument::Uint(number);
        return;
    }
    clear_message(message);
    message.args.push_reserved(Argument::Uint(number));
}

/// Tells a client by `wl_display.delete_id` that a number is free again, if it is one of the client's own. For a number
/// of the server's range it does nothing.
pub fn put_delete_id<T: Transport>(
    alloc: Global,
    socket: &mut BufferedSocket<T>,
    number: u32,
) -> Result<(), IoFault>
    ensures { Puts T.sends socket.old (deletions number) result socket.new }
{
    if number >= SERVER_ID_LIMIT {
        return Ok(());
    }
    let message = message_of_number(alloc, DISPLAY, DELETE_ID, number);
    socket.write_message(&message)
}

/// The message `wl_display.error`, for an error on the object of this number.
fn message_of_error(alloc: Global, number: u32, code: u32, text: CString) -> Message<u32, Token>
    ensures { content result ≡ (error_message number code text).message }
{
    let mut args = SmallVec::new(alloc);
    args.push_reserved(Argument::Object(number));
    args.push_reserved(Argument::Uint(code));
    args.push_reserved(Argument::Str(Some(text)));
    Message {
        sender_id: DISPLAY,
        opcode: ERROR,
        args,
    }
}

/// Tells a client by `wl_display.error` of an error on the object of that number.
pub fn put_error<T: Transport>(
    alloc: Global,
    socket: &mut BufferedSocket<T>,
    number: u32,
    code: u32,
    text: CString,
) -> Result<(), IoFault>
    ensures puts { Puts T.sends socket.old (error_message number code text ∷ []) result socket.new }
    ensures wrote { Wrote T.sends socket.old (error_message number code text).message result socket.new }
{
    let message = message_of_error(alloc, number, code, text);
    socket.write_message(&message)
}

/// Writes `wl_callback.done` for the callback of this number, and then `wl_display.delete_id`, after which the client may use
/// the number again. For a number of the server's range it writes only the first.
///
/// Both are built in `message`, and what that had before is dropped. So no new message is made for them.
pub fn put_done<T: Transport>(
    message: &mut Message<u32, Token>,
    socket: &mut BufferedSocket<T>,
    number: u32,
) -> Result<(), IoFault>
    ensures { (serial : ℕ) → Puts T.sends socket.old (done_message (record { number = number; serial = serial }) ∷ deletions number) result socket.new }
{
    overwrite_message(message, number, DONE, 0);
    if let Err(fault) = socket.write_message(message) {
        return Err(fault);
    }
    if number >= SERVER_ID_LIMIT {
        return Ok(());
    }
    overwrite_message(message, DISPLAY, DELETE_ID, number);
    socket.write_message(message)
}

/// Does what `put_done` does for a callback of one of the client's own numbers, in one go. The outgoing buffer must have room
/// for both messages, `DONE_SIZE` bytes.
pub fn put_done_at_once<T: Transport>(socket: &mut BufferedSocket<T>, number: u32)
    requires own { is_server_number number ≡ false }
    requires room { IsTrue (has_room socket.old DONE_SIZE) }
    ensures { (serial : ℕ)
        → Puts T.sends socket.old (done_message (record { number = number; serial = serial }) ∷ deletions number) (Ok tt) socket.new }
{
    socket.write_numbers(&[
        NumberMessage {
            sender_id: number,
            opcode: DONE,
            number: 0,
        },
        NumberMessage {
            sender_id: DISPLAY,
            opcode: DELETE_ID,
            number,
        },
    ]);
}
