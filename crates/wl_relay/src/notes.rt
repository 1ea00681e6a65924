//! What the relay knows: the objects of the session, and the log.

ghost use Rattle.std.specs.Prelude.{◌≡◌, ◌||◌, ◌++◌, ◌∷◌, [], map, IfOk, OnOk, false, true};
ghost use Rattle.std.specs.String.{string_bytes};
ghost use Rattle.wl_wire.specs.Message.{content};
ghost use Rattle.wl_wire.specs.Table.{message_row};
ghost use Rattle.wl_follow.specs.Objects.{first_objects, object_of};
ghost use Rattle.wl_relay.specs.Announcements.{EditsArguments, EditsGlobal, EditsMessage, is_announcement, is_change};
ghost use Rattle.wl_relay.specs.Inside.Passing.{NotesUnder};
ghost use Rattle.wl_relay.specs.Log.{arrow, deletions, edit_text, fault_line, follows, hears, known, message_line, stopped, unknown_interfaces, unknown_line, unknown_text};
ghost use Rattle.wl_relay.specs.declared.mode.Mode.TheVariants.{Log};

use crate::mode::Mode;
use std::alloc::{AllocError, Global};
use std::collections::VecDeque;
use wl_follow::{Deletions, Fault, Found, Side, UnknownInterfaces, first_objects, note_objects};
use wl_link::{MessagePlace, ObjectMap};
use wl_wire::{
    Argument, InterfaceId, Message, OutOfMemory, Protocol, Token, WL_REGISTRY_INTERFACE,
    push_message,
};

/// What the relay knows of the session, and what it has to tell.
#[derive(Drop)]
pub struct Notes {
    /// The objects by their numbers. One of an unknown interface is anonymous.
    pub objects: ObjectMap<()>,
    /// What is done with announcements.
    pub mode: Mode,
    /// The lines of the log that were not taken out yet.
    pub log: VecDeque<String>,
    /// Whether an announcement was dropped, or its version lowered.
    pub has_changed: bool,
    /// Whether what comes from the client is read.
    pub follows_client: bool,
    /// Whether what comes from the server is read.
    pub follows_server: bool,
    /// The place that the first message of a side is read into.
    pub place: MessagePlace,
}

/// What is done with a message.
#[derive(Clone, Copy)]
pub enum Edit {
    /// It is handed on as it is.
    Nothing,
    /// It is dropped.
    Drop,
    /// It is handed on with this version.
    Lower(u32),
}

impl Edit {
    /// Whether a message was dropped or lowered, with this one; `before` says it of those before it.
    pub fn or_changed(self, before: bool) -> bool
        ensures { result ≡ (before || is_change self) }
    {
        match self {
            Edit::Nothing => before,
            Edit::Drop | Edit::Lower(_) => true,
        }
    }
}

impl Notes {
    /// Of a session that begins: the display is its only object.
    pub fn new(alloc: Global, mode: Mode) -> Result<Self, OutOfMemory>
        ensures unchanged { IfOk result (λ notes. notes.has_changed ≡ false) }
        ensures follows { IfOk result (λ notes. (notes.follows_client ≡ true) × (notes.follows_server ≡ true)) }
        ensures log { IfOk result (λ notes. notes.log.items ≡ []) }
        ensures mode { IfOk result (λ notes. notes.mode ≡ mode) }
        ensures objects { IfOk result (λ notes. notes.objects.store ≡ first_objects) }
    {
        let objects = first_objects(alloc)?;
        Ok(Notes {
            objects,
            mode,
            log: VecDeque::new(alloc),
            has_changed: false,
            follows_client: true,
            follows_server: true,
            place: MessagePlace::new(alloc),
        })
    }
}

/// Whether what comes from the side is read.
pub fn follows(notes: &Notes, side: Side) -> bool
    ensures { result ≡ follows side (known notes.now) }
{
    match side {
        Side::Client => notes.follows_client,
        Side::Server => notes.follows_server,
    }
}

/// Whether what comes from the other side is read.
pub fn hears(notes: &Notes, side: Side) -> bool
    ensures { result ≡ hears side (known notes.now) }
{
    match side {
        Side::Client => notes.follows_server,
        Side::Server => notes.follows_client,
    }
}

/// What becomes of a bind of an interface that the table lacks.
fn unknown_interfaces(mode: Mode) -> UnknownInterfaces
    ensures { result ≡ unknown_interfaces mode }
{
    match mode {
        Mode::HandOn => UnknownInterfaces::Refused,
        Mode::Log => UnknownInterfaces::Anonymous,
    }
}

/// Whether deletions are seen: they are while the other side is read.
fn deletions(heard: bool) -> Deletions
    ensures { result ≡ deletions heard }
{
    if heard {
        Deletions::Seen
    } else {
        Deletions::Unseen
    }
}

/// Notes the objects of a message with which this is done: an announcement that is dropped or lowered has none.
pub fn note_unless_edited(
    table: &Protocol,
    mode: Mode,
    heard: bool,
    objects: &mut ObjectMap<()>,
    found: Found,
    message: &Message<u32, Token>,
    edit: Edit,
) -> Result<Option<Fault>, OutOfMemory>
    ensures { IfOk result (λ fault. NotesUnder table.now mode found.entry.side heard (object_of found.entry.interface found.entry.version) (message_row found.entry.desc.now)
        (content message.now) objects.old.store edit fault objects.new.store) }
{
    match edit {
        Edit::Nothing => {
            let (unknown, seen) = (unknown_interfaces(mode), deletions(heard));
            note_objects(table, unknown, seen, objects, found, message)
        }
        Edit::Drop | Edit::Lower(_) => Ok(None),
    }
}

/// What is done with the announcement of an interface in this version.
fn edit_of_global(table: &Protocol, name: &[u8], version: u32) -> Edit
    ensures { EditsGlobal table.now name.now version result }
{
    let Some(id) = table.find_bytes(name) else {
        return Edit::Drop;
    };
    match table.get(id) {
        Some(interface) if interface.version < version => Edit::Lower(interface.version),
        _ => Edit::Nothing,
    }
}

/// What is done with an announcement that has these arguments.
fn edit_of_arguments(table: &Protocol, args: &[Argument<u32, Token>]) -> Edit
    ensures { EditsArguments table.now args.now result }
{
    match args {
        [_, Argument::Str(Some(name)), Argument::Uint(version)] => {
            edit_of_global(table, name.as_bytes(), *version)
        }
        _ => Edit::Nothing,
    }
}

/// Whether a message is the event `wl_registry.global`.
fn is_announcement(side: Side, interface: InterfaceId, opcode: u16) -> bool
    ensures { result ≡ is_announcement side interface opcode }
{
    match side {
        Side::Client => false,
        Side::Server => interface == WL_REGISTRY_INTERFACE && opcode == 0,
    }
}

/// What is done with a message.
pub fn edit_of(table: &Protocol, mode: Mode, found: Found, message: &Message<u32, Token>) -> Edit
    ensures edits { EditsMessage table.now mode found.entry.side found.entry.interface (content message.now) result }
    ensures in_a_log { mode ≡ Log → result ≡ Edit.Nothing }
{
    match mode {
        Mode::Log => Edit::Nothing,
        Mode::HandOn => {
            if is_announcement(found.side, found.interface, message.opcode) {
                edit_of_arguments(table, message.args.as_slice())
            } else {
                Edit::Nothing
            }
        }
    }
}

/// Appends what is done with a message, if it is not handed on as it is.
fn push_edit(line: &mut String, edit: Edit) -> Result<(), AllocError>
    ensures { OnOk result (string_bytes line.new ≡ string_bytes line.old ++ edit_text edit) }
{
    match edit {
        Edit::Nothing => Ok(()),
        Edit::Drop => line.push_str(" [dropped]"),
        Edit::Lower(version) => write!(line, " [lowered to {version}]"),
    }
}

/// The line of a message that begins: requests begin with an arrow.
fn new_line(alloc: Global, side: Side) -> Result<String, AllocError>
    ensures { IfOk result (λ line. string_bytes line ≡ arrow side) }
{
    match side {
        Side::Client => String::from_str(alloc, " -> "),
        Side::Server => Ok(String::new(alloc)),
    }
}

/// Appends the line of a message to the log.
pub fn log_message(
    log: &mut VecDeque<String>,
    table: &Protocol,
    objects: &ObjectMap<()>,
    found: Found,
    message: &Message<u32, Token>,
    edit: Edit,
) -> Result<(), OutOfMemory>
    ensures { OnOk result (map string_bytes log.new.items ≡ map string_bytes log.old.items
        ++ message_line table.now objects.now.store found.entry.side found.entry.interface (message_row found.entry.desc.now) (content message.now) edit ∷ []) }
{
    let mut line = new_line(*log.allocator(), found.side)?;
    push_message(
        &mut line,
        table,
        objects,
        found.interface,
        found.desc,
        message,
    )?;
    push_edit(&mut line, edit)?;
    Ok(log.push_back(line)?)
}

/// Appends the number and the opcode of a message that was not read.
fn push_unknown(line: &mut String, sender: u32, opcode: u16) -> Result<(), AllocError>
    ensures { OnOk result (string_bytes line.new ≡ string_bytes line.old ++ unknown_text sender opcode) }
{
    write!(line, "[unknown]@{sender}.[{opcode}]")
}

/// The line of a message that was not read.
pub fn unknown_line(
    alloc: Global,
    side: Side,
    sender: u32,
    opcode: u16,
) -> Result<String, OutOfMemory>
    ensures { IfOk result (λ line. string_bytes line ≡ unknown_line side sender opcode) }
{
    let mut line = new_line(alloc, side)?;
    push_unknown(&mut line, sender, opcode)?;
    Ok(line)
}

/// The line that says that what comes from the side is no longer read, and why.
fn fault_line(alloc: Global, side: Side, fault: Fault) -> Result<String, AllocError>
    ensures { IfOk result (λ line. string_bytes line ≡ fault_line side fault) }
{
    let (name, reason) = (side.name(), fault.name());
    format!(in alloc; "[{name} is no longer read: {reason}]")
}

/// Appends to the log that what comes from the side is no longer read, and why.
pub fn log_fault(notes: &mut Notes, side: Side, fault: Fault) -> Result<(), OutOfMemory>
    ensures { OnOk result (known notes.new ≡ stopped side fault (known notes.old)) }
{
    let line = fault_line(*notes.log.allocator(), side, fault)?;
    match side {
        Side::Client => notes.follows_client = false,
        Side::Server => notes.follows_server = false,
    }
    Ok(notes.log.push_back(line)?)
}
