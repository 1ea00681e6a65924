//! The place that messages are read into, and the call that clears a message.

ghost use Rattle.std.specs.Prelude.{◌≡◌, []};
ghost use Rattle.wl_wire.specs.declared.message.TheConstants.{INLINE_ARGS};

use smallvec::SmallVec;
use std::alloc::Global;
use std::fmt;
use std::marker::Model;
use wl_wire::{INLINE_ARGS, Message, Token};

/// The place that messages are read into.
///
/// A program that reads many messages keeps one place, so that no message is made and dropped for each read. The place always
/// has the capacity that [`read_into`](crate::BufferedSocket::read_into) needs. In contracts all places are the same value,
/// whatever message is in them. So the contract of a call whose owner keeps a place does not say what the call leaves there.
#[derive(Drop)]
pub struct MessagePlace {
    /// The message.
    pub message: Message<u32, Token>,
}

impl fmt::Debug for MessagePlace {
    fn fmt<W: fmt::Write>(&self, f: &mut fmt::Formatter<W>) -> fmt::Result {
        f.write_str("MessagePlace { .. }")
    }
}

impl Model for MessagePlace {
    ghost use Rattle.std.specs.Prelude.{◌≤◌};
    ghost use Rattle.wl_wire.specs.declared.message.TheConstants.{INLINE_ARGS};

    ghost Value = { Unit {0} };

    ghost view = { λ p. tt };

    ghost invariant = { λ p. INLINE_ARGS ≤ p.message.args.capacity };
}

impl MessagePlace {
    /// A place without arguments.
    pub fn new(alloc: Global) -> Self {
        MessagePlace {
            message: Message {
                sender_id: 0,
                opcode: 0,
                args: SmallVec::new(alloc),
            },
        }
    }
}

/// Drops the arguments of a message. If the list of them is in allocated memory, that is freed too, so that the next message
/// is again read into the `INLINE_ARGS` places that need none. The sender and the opcode stay.
pub fn clear_message(message: &mut Message<u32, Token>)
    ensures args { message.new.args.items ≡ [] }
    ensures capacity { message.new.args.capacity ≡ INLINE_ARGS }
    ensures sender { message.new.sender_id ≡ message.old.sender_id }
    ensures opcode { message.new.opcode ≡ message.old.opcode }
{
    if message.args.spilled() {
        message.args = SmallVec::new(*message.args.allocator());
    } else {
        message.args.clear();
    }
}
