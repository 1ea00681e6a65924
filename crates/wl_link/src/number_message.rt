//! A message with one number.

ghost use Rattle.std.specs.Prelude.{◌≡◌, ◌+◌, ◌*◌, ◌≤◌, ◌++◌, length, take};
ghost use Rattle.std.specs.List.{flat_map};
ghost use Rattle.wl_wire.specs.Message.{spelling, word};
ghost use Rattle.wl_link.specs.Link.{number_message};

/// How many bytes a message with one number takes.
pub(crate) const NUMBER_MESSAGE_SIZE: usize = 12;

/// A message whose one argument is an unsigned number.
#[derive(Clone, Copy, Debug)]
pub struct NumberMessage {
    /// The number of the object that sends it.
    pub sender_id: u32,
    /// The opcode.
    pub opcode: u16,
    /// The argument.
    pub number: u32,
}

/// Writes the word at the place `at`.
#[tactic(auto, unfolding(wl_wire::specs::Message::word))]
fn put_word(storage: &mut [u8], at: usize, n: u32)
    requires { at + 4 ≤ length storage.old }
    ensures { take (at + 4) storage.new ≡ take at storage.old ++ word n }
{
    storage[at..at + 4].copy_from_slice(&n.to_le_bytes());
}

/// Writes the message at the place `at`.
fn put_number(storage: &mut [u8], at: usize, message: &NumberMessage)
    requires { at + 12 ≤ length storage.old }
    ensures { take (at + 12) storage.new ≡ take at storage.old ++ spelling (number_message message.now) }
{
    put_word(storage, at, message.sender_id);
    put_word(storage, at + 4, (12 << 16) + u32::from(message.opcode));
    put_word(storage, at + 8, message.number);
}

/// Writes the messages one after another, from the place `at` on.
pub(crate) fn put_numbers(storage: &mut [u8], at: usize, messages: &[NumberMessage])
    requires { at + 12 * length messages.now ≤ length storage.old }
    ensures { take (at + 12 * length messages.now) storage.new ≡ take at storage.old ++ flat_map (λ m. spelling (number_message m)) messages.now }
{
    let mut end = at;
    for message in messages {
        put_number(storage, end, message);
        end += NUMBER_MESSAGE_SIZE;
    }
}
