//! Which messages that arrived the session is to have together.

ghost use Rattle.std.specs.List.{list_any};
ghost use Rattle.std.specs.Prelude.{◌≡◌, ◌≤◌, ◌+◌, IfSome, length};
ghost use Rattle.wl_host_client.specs.Runs.{brings_descriptors, deleted_id, ended, front_of, may_bring, next_run, plain_run, run_behind, run_with};
ghost use Rattle.wl_wire.specs.Parse.{length_of, opcode_of, sender_of};
ghost use Rattle.wl_wire.specs.Table.{message_row};

use super::{Client, Core};
use wl_flat::flat::{
    DELETES_ID, FlatRun, LACKS_DESCRIPTORS, PASSED_OVER, PLAIN_RUN, count_number, interface_number,
};
use wl_link::MAX_FDS_OUT;
use wl_wire::opcodes::DELETE_ID;
use wl_wire::{DISPLAY, InterfaceId, MessageDesc, Protocol, fd_places, message_header};

/// No run has more messages. So a call takes a bounded time, and the next one goes on.
const MOST_MESSAGES: usize = 512;

/// How many bytes `wl_display.delete_id` has.
const DELETE_ID_SIZE: usize = 12;

/// The ids from here on are the server's.
const FIRST_OF_SERVER: u32 = 0xFF00_0000;

/// The message at the front of what arrived.
#[derive(Clone, Copy)]
struct Front {
    /// The number of its sender.
    sender: u32,
    /// Its opcode.
    opcode: u16,
    /// How many bytes it has.
    size: usize,
    /// The place of its sender's interface in the table; 0 if there is no such object.
    interface: u32,
    /// Whether its sender is there, and the client has not destroyed it.
    is_alive: bool,
    /// How many descriptors it brings.
    needed: usize,
    /// Whether it neither makes an object nor ends one, and is not the display's.
    is_steady: bool,
    /// Whether its sender was destroyed, and some event of that interface brings descriptors.
    may_bring: bool,
    /// The id that it deletes, if it is `wl_display.delete_id`.
    deleted: Option<u32>,
}

/// Whether the message brings descriptors.
fn brings_descriptors(event: &MessageDesc) -> bool
    ensures { result ≡ brings_descriptors (message_row event.now) }
{
    fd_places(&event.signature) > 0
}

/// Whether one of the messages brings descriptors.
fn any_brings(events: &[MessageDesc]) -> bool
    ensures { result ≡ list_any (λ m. brings_descriptors (message_row m)) events.now }
{
    events.iter().any(|event| brings_descriptors(event))
}

/// Whether some event of the interface brings descriptors.
fn may_bring(table: &Protocol, interface: InterfaceId) -> bool
    ensures { result ≡ may_bring table.now interface }
{
    match table.get(interface) {
        Some(row) => any_brings(&row.events),
        None => false,
    }
}

/// The id that the message at the front deletes, if it is `wl_display.delete_id`.
fn deleted_id(bytes: &[u8], sender: u32, opcode: u16, len: usize) -> Option<u32>
    requires sender { sender ≡ sender_of bytes.now }
    requires opcode { opcode ≡ opcode_of bytes.now }
    requires len { len ≡ length_of bytes.now }
    ensures { result ≡ deleted_id bytes.now }
{
    if sender != DISPLAY
        || opcode != DELETE_ID
        || len != DELETE_ID_SIZE
        || bytes.len() < DELETE_ID_SIZE
    {
        return None;
    }
    Some(u32::from_le_bytes([bytes[8], bytes[9], bytes[10], bytes[11]]))
}

/// The message at the front; `None` if it is not there to its end.
#[tactic(auto, unfolding(crate::specs::Runs::front_of))]
fn front_of(core: &Core, bytes: &[u8]) -> Option<Front>
    ensures front { result ≡ front_of core.now bytes.now }
    ensures there { IfSome result (λ f. f.size ≤ length bytes.now) }
{
    let header = message_header(bytes)?;
    // One that counts less than its header is no message, and what stands behind it has no meaning.
    let size = if header.len < 8 {
        bytes.len()
    } else {
        header.len
    };
    if size > bytes.len() {
        return None;
    }
    let (interface, is_alive) = match core.object_for_protocol_id(header.sender_id) {
        Some(id) => (id.interface(), core.info(&id).is_ok()),
        None => (InterfaceId(0), false),
    };
    let (needed, is_steady) = match core.protocol().event(interface, header.opcode) {
        Some(event) => (
            fd_places(&event.signature),
            !event.creates_object() && !event.is_destructor,
        ),
        None => (0, false),
    };
    Some(Front {
        sender: header.sender_id,
        opcode: header.opcode,
        size,
        interface: interface_number(interface),
        is_alive,
        needed,
        is_steady: is_steady && header.sender_id != DISPLAY,
        may_bring: !is_alive && may_bring(core.protocol(), interface),
        deleted: deleted_id(bytes, header.sender_id, header.opcode, header.len),
    })
}

/// So many bytes and descriptors, of which nothing is to be known.
fn plain_run(size: usize, used: usize) -> FlatRun
    ensures { result ≡ plain_run size used }
{
    FlatRun {
        bytes: count_number(size),
        descriptors: count_number(used),
        skipped: 0,
        kind: PLAIN_RUN,
        sender: 0,
        interface: 0,
        opcode: 0,
        size: 0,
        needed: 0,
        may_bring: 0,
        number: 0,
    }
}

impl Front {
    /// So many bytes and descriptors, and what is to be known of this message. So many of its bytes the session is not to have.
    fn run(&self, kind: u32, size: usize, used: usize, skipped: usize) -> FlatRun
        ensures { result ≡ run_with kind self.now size used skipped }
    {
        FlatRun {
            bytes: count_number(size),
            descriptors: count_number(used),
            skipped: count_number(skipped),
            kind,
            sender: self.sender,
            interface: self.interface,
            opcode: u32::from(self.opcode),
            size: count_number(self.size),
            needed: count_number(self.needed),
            may_bring: u32::from(self.may_bring),
            number: self.deleted.unwrap_or(0),
        }
    }

    /// How the run ends with this message, or before it; `None` if it goes on behind it. So many descriptors came, and the messages
    /// before this one take so many bytes and descriptors.
    fn ended(&self, came: usize, size: usize, used: usize) -> Option<FlatRun>
        requires bytes { size + self.now.size ≤ 18446744073709551615 }
        requires descriptors { used ≤ came }
        ensures { result ≡ ended self.now came size used }
    {
        if came - used < self.needed {
            return Some(if self.is_alive {
                self.run(LACKS_DESCRIPTORS, size, used, 0)
            } else {
                self.run(PASSED_OVER, size, used, self.size)
            });
        }
        if size > 0 && used + self.needed > MAX_FDS_OUT {
            return Some(plain_run(size, used));
        }
        let (size_with, used_with) = (size + self.size, used + self.needed);
        match self.deleted {
            Some(number) if number >= FIRST_OF_SERVER => {
                Some(self.run(DELETES_ID, size, used, self.size))
            }
            Some(_) => Some(self.run(DELETES_ID, size_with, used_with, 0)),
            None if !self.is_alive => Some(self.run(PASSED_OVER, size_with, used_with, 0)),
            None if self.is_steady => None,
            None => Some(plain_run(size_with, used_with)),
        }
    }
}

/// The run of at most so many messages at the front of these bytes, with which so many descriptors came.
fn run_of(core: &Core, bytes: &[u8], came: usize, most: usize) -> FlatRun
    ensures { result ≡ run_behind most core.now bytes.now came 0 0 }
{
    let mut size = 0;
    let mut used = 0;
    for _ in 0..most {
        let Some(front) = front_of(core, &bytes[size..]) else {
            break;
        };
        if let Some(run) = front.ended(came, size, used) {
            return run;
        }
        size += front.size;
        used += front.needed;
    }
    plain_run(size, used)
}

impl Client {
    /// The messages at the front of what arrived that the session is to have together, by one call of `received`: as many as there
    /// are whole, up to the first one that makes or ends an object, comes from the display, or is none that the table has. So of each
    /// the sender and the row are known before it is read, and a host can tell what no event tells. With the bytes so many descriptors
    /// came. Nothing is changed.
    ///
    /// The run ends, too, and its kind says so,
    ///
    /// - with a message that deletes an id (`DELETES_ID`). If the id is of the server's range, where deleting means nothing, the message
    ///   is *skipped*: the session is not to have it;
    /// - with a message of no object, or of one that the client has destroyed (`PASSED_OVER`). If too few descriptors came for
    ///   it, it is skipped;
    /// - before a message for which too few descriptors came (`LACKS_DESCRIPTORS`): the session would wait for them.
    ///
    /// It ends before a 29th descriptor, unless one message alone brings more: that stands alone. And it ends behind 512 messages. A
    /// message that counts fewer bytes than its header takes all that came. If no bytes are the run's and none are skipped, there is no
    /// whole message at the front, or it lacks descriptors.
    ///
    /// It is meant for a session that passes over unknown senders (`pass_over_unknown_senders`).
    pub fn next_run(&self, bytes: &[u8], descriptors: u32) -> FlatRun
        ensures { result ≡ next_run self.now.core bytes.now descriptors }
    {
        run_of(&self.core, bytes, descriptors as usize, MOST_MESSAGES)
    }
}
