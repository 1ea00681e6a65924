//! What a test does with a server's session, and what it tells.

use crate::tests::chosen::{Choice, choose};
use crate::tests::registries::{Telling, tell};
use crate::tests::rows::{GATE, KNOT, NOTE, TABLE};
use crate::tests::session::Session;
use crate::tests::told::{
    NO_ARGUMENT, NOBODY, NOTHING, NULL, bytes_of, tell_counts, tell_descriptor, tell_kept,
    tell_lent, tell_numbers, tell_object, tell_objects, told, told_extension, told_joined,
    told_table,
};
use std::alloc::Global;
use std::test::Fail;
use wl_host::{
    FlatAction, FlatArgument, FlatClientId, FlatGlobalId, FlatNote, FlatObjectId, FlatTold,
    FlatViolation, Gone, Rows, Server, Status, TableFault,
};

/// One call of the session.
pub enum Act {
    /// A global of the interface `pad` of version 2, with data and groups, which these clients do not see.
    Global(u64, u64, &'static [FlatClientId]),
    /// A client, with data and groups, which does not see these globals.
    Insert(u64, u64, &'static [FlatGlobalId]),
    /// The id that the next client gets.
    NextClient,
    /// The id that the next global gets.
    NextGlobal,
    /// Which of the first six globals the client sees, if none of them was removed.
    Sees(FlatClientId),
    /// The interface `note` is added to the table.
    AddNote,
    /// The interface `knot` is added to the table.
    AddKnot,
    /// The interface `gate` is added to the table.
    AddGate,
    /// Whether nulls that the table forbids are refused is set.
    RefuseNulls(u32),
    /// Whether the messages of clients that are inserted from now on are told is set.
    TellMessages(u32),
    /// The next message of the client that is told, with so much room for arguments and bytes, at most 16 and 24.
    NextTold(FlatClientId, usize, usize),
    /// The table is extended by these rows.
    Extend(Rows<'static>),
    /// The interface of these rows joins the table.
    Join(Rows<'static>),
    /// A send to the client failed.
    SendFailed(FlatClientId),
    /// The client is killed.
    Kill(FlatClientId),
    /// The clients that were killed are taken out.
    Cleanup,
    /// The client receives these words, and these descriptors.
    Received(FlatClientId, &'static [u32], &'static [i32]),
    /// The next action of the client, with so much room for arguments and bytes, at most 16 of each.
    Next(FlatClientId, usize, usize),
    /// The open request is finished.
    Finish(FlatClientId),
    /// The open request is finished with these data.
    FinishWith(FlatClientId, u64),
    /// The open bind is finished with these data.
    FinishBind(FlatClientId, u64),
    /// The open action is finished as one of this kind, which made this object, or none.
    FinishAction(FlatClientId, u32, FlatObjectId),
    /// An object of this interface is made for the client, with data.
    Create(FlatClientId, u32, u64),
    /// The event of the object with this opcode, arguments and bytes.
    Send(FlatObjectId, u32, &'static [FlatArgument], &'static [u8]),
    /// The client of the object is told of an error with this code and message, and killed.
    PostError(FlatObjectId, u32, &'static [u8]),
    /// The next client to which something is to be sent.
    Writable,
    /// What is to be sent to the client.
    ToSend(FlatClientId),
    /// So many bytes were sent to the client.
    Sent(FlatClientId, u32),
    /// How the client broke the protocol.
    Violation(FlatClientId),
    /// The next client that is gone.
    Gone,
    /// The next note.
    Note,
    /// The next descriptor that belongs to nobody.
    Dropped,
    /// What the host chooses.
    Choose(Choice),
    /// What the host tells registries.
    Tell(Telling),
}

/// The first client.
pub const FIRST: FlatClientId = FlatClientId { serial: 1, slot: 0 };

/// The second.
pub const SECOND: FlatClientId = FlatClientId { serial: 2, slot: 1 };

/// The opcode of the event `moved` of a `pad`.
pub const MOVED: u32 = 0;

/// The opcode of its event `given`.
pub const GIVEN: u32 = 1;

/// A client as `slot:serial`.
fn tell_client(log: &mut String, id: FlatClientId) -> Result<(), Fail> {
    let (slot, serial) = (id.slot, id.serial);
    write!(log, " client {slot}:{serial}")?;
    Ok(())
}

/// A global as `name:serial`.
fn tell_global(log: &mut String, id: FlatGlobalId) -> Result<(), Fail> {
    let (name, serial) = (id.name, id.serial);
    write!(log, " global {name}:{serial}")?;
    Ok(())
}

/// Tells which of the first six globals the client sees.
fn tell_seen(log: &mut String, server: &Server, client: &FlatClientId) -> Result<(), Fail> {
    for name in 1..7u32 {
        let id = FlatGlobalId {
            serial: u64::from(name),
            name,
        };
        if let Ok(name) = server.global_name(&id, client) {
            write!(log, " {name}")?;
        }
    }
    Ok(())
}

/// The action, and what was lent for its arguments and bytes.
fn tell_action(
    log: &mut String,
    action: &FlatAction,
    arguments: &[FlatArgument],
    bytes: &[u8],
) -> Result<(), Fail> {
    tell_numbers(
        log,
        &[
            ("kind", u64::from(action.kind)),
            ("opcode", u64::from(action.opcode)),
            ("ends", u64::from(action.is_destructor)),
            ("data", action.data),
            ("version", u64::from(action.version)),
            ("arguments", u64::from(action.arguments)),
            ("bytes", u64::from(action.bytes)),
            ("null", u64::from(action.forbidden_null)),
        ],
    )?;
    tell_objects(log, &[("by", action.sender), ("made", action.created)])?;
    tell_lent(log, arguments, bytes)
}

/// The next action of the client, with so much room.
fn next(
    log: &mut String,
    server: &mut Server,
    client: &FlatClientId,
    room: usize,
    most: usize,
) -> Result<Status, Fail> {
    if room > 16 || most > 24 {
        return Err(Fail::new("too much room"));
    }
    let mut arguments = [NO_ARGUMENT; 16];
    let mut bytes = [0u8; 24];
    let mut action = FlatAction::none();
    let status = server.next_action(
        client,
        &mut action,
        &mut arguments[..room],
        &mut bytes[..most],
    );
    if matches!(status, Status::Ok | Status::TooSmall) {
        tell_action(log, &action, &arguments[..room], &bytes[..most])?;
    }
    Ok(status)
}

/// A message that is told, and what was lent for its arguments and bytes.
pub fn tell_message(
    log: &mut String,
    message: &FlatTold,
    arguments: &[FlatArgument],
    bytes: &[u8],
) -> Result<(), Fail> {
    let (interface, number) = (message.interface, message.number);
    tell_numbers(
        log,
        &[
            ("kind", u64::from(message.kind)),
            ("event", u64::from(message.is_event)),
            ("opcode", u64::from(message.opcode)),
            ("arguments", u64::from(message.arguments)),
            ("bytes", u64::from(message.bytes)),
            ("last", u64::from(message.is_last)),
        ],
    )?;
    write!(log, " of {interface}@{number}")?;
    tell_lent(log, arguments, bytes)
}

/// The next message of the client that is told, with so much room.
fn next_told(
    log: &mut String,
    server: &mut Server,
    client: &FlatClientId,
    room: usize,
    most: usize,
) -> Result<Status, Fail> {
    if room > 16 || most > 24 {
        return Err(Fail::new("too much room"));
    }
    let mut arguments = [NO_ARGUMENT; 16];
    let mut bytes = [0u8; 24];
    let mut message = FlatTold::none();
    let status = server.next_told(
        client,
        &mut message,
        &mut arguments[..room],
        &mut bytes[..most],
    );
    if matches!(status, Status::Ok | Status::TooSmall) {
        tell_message(log, &message, &arguments[..room], &bytes[..most])?;
    }
    Ok(status)
}

/// The client receives these words.
fn received(
    alloc: Global,
    server: &mut Server,
    client: &FlatClientId,
    words: &[u32],
    descriptors: &[i32],
) -> Result<Status, Fail> {
    let bytes = bytes_of(alloc, words)?;
    Ok(server.received(client, &bytes, descriptors))
}

/// What is to be sent to the client.
fn to_send(log: &mut String, server: &mut Server, client: &FlatClientId) -> Result<Status, Fail> {
    let mut bytes = [0u8; 256];
    let mut descriptors = [0i32; 28];
    let mut counts = NOTHING;
    let status = server.to_send(client, &mut bytes, &mut descriptors, &mut counts);
    if status == Status::Ok {
        tell_counts(log, &counts, &bytes, &descriptors)?;
    }
    Ok(status)
}

/// The next client that is gone, with what is to be sent to it.
fn next_gone(log: &mut String, server: &mut Server) -> Result<Status, Fail> {
    let mut bytes = [0u8; 256];
    let mut descriptors = [0i32; 28];
    let mut gone = Gone {
        client: NOBODY,
        data: 0,
        waiting: NOTHING,
    };
    let status = server.next_gone(&mut gone, &mut bytes, &mut descriptors);
    if status == Status::Ok {
        tell_client(log, gone.client)?;
        tell_numbers(log, &[("data", gone.data)])?;
        tell_counts(log, &gone.waiting, &bytes, &descriptors)?;
    }
    Ok(status)
}

/// A note with nothing in it.
const NO_NOTE: FlatNote = FlatNote {
    kind: 0,
    is_protocol_error: 0,
    code: 0,
    object_number: 0,
    client: NOBODY,
    object: NULL,
    data: 0,
    message_length: 0,
    interface_length: 0,
};

/// A note: what happened, to which client, and to which object.
fn tell_note(log: &mut String, note: &FlatNote) -> Result<(), Fail> {
    tell_numbers(
        log,
        &[
            ("kind", u64::from(note.kind)),
            ("error", u64::from(note.is_protocol_error)),
            ("code", u64::from(note.code)),
            ("data", note.data),
        ],
    )?;
    tell_client(log, note.client)?;
    tell_objects(log, &[("object", note.object)])
}

/// How a client broke the protocol.
fn tell_violation(log: &mut String, violation: FlatViolation) -> Result<(), Fail> {
    tell_numbers(
        log,
        &[
            ("kind", u64::from(violation.kind)),
            ("sender", u64::from(violation.sender)),
            ("interface", u64::from(violation.interface)),
            ("opcode", u64::from(violation.opcode)),
            ("argument", u64::from(violation.argument)),
            ("number", u64::from(violation.number)),
            ("wanted", u64::from(violation.wanted)),
            ("found", u64::from(violation.found)),
        ],
    )
}

/// The next note.
fn next_note(log: &mut String, server: &mut Server) -> Result<Status, Fail> {
    let mut note = NO_NOTE;
    let mut text = [0u8; 256];
    let status = server.next_note(&mut note, &mut text);
    if status == Status::Ok {
        tell_note(log, &note)?;
    }
    Ok(status)
}

/// Does an act about globals, and clients that are new.
fn on_clients(log: &mut String, server: &mut Server, act: &Act) -> Result<Status, Fail> {
    match act {
        Act::Global(user_data, groups, hidden) => {
            let answer = server.create_global(4, 2, *user_data, *groups, hidden);
            told(log, answer, tell_global)
        }
        Act::Insert(user_data, groups, hidden) => {
            let answer = server.insert_client(*user_data, *groups, hidden);
            told(log, answer, tell_client)
        }
        Act::NextClient => told(log, server.next_client_id(), tell_client),
        Act::NextGlobal => told(log, server.next_global_id(), tell_global),
        Act::Sees(id) => {
            tell_seen(log, server, id)?;
            Ok(Status::Ok)
        }
        Act::AddNote => told_table(log, server.add_interfaces(&NOTE)),
        Act::AddKnot => told_table(log, server.add_interfaces(&KNOT)),
        Act::AddGate => told_table(log, server.add_interfaces(&GATE)),
        Act::RefuseNulls(is_on) => Ok(server.refuse_nulls(*is_on)),
        Act::TellMessages(is_on) => Ok(server.tell_messages(*is_on)),
        Act::Extend(rows) => told_extension(log, server.extend_interfaces(rows)),
        Act::Join(rows) => told_joined(log, server.join_interface(rows)),
        _ => Err(Fail::new("no act of this kind")),
    }
}

/// Does an act about messages.
fn on_messages(log: &mut String, server: &mut Server, act: &Act) -> Result<Status, Fail> {
    match act {
        Act::Received(id, words, descriptors) => {
            received(*log.allocator(), server, id, words, descriptors)
        }
        Act::Next(id, room, most) => next(log, server, id, *room, *most),
        Act::NextTold(id, room, most) => next_told(log, server, id, *room, *most),
        Act::Finish(id) => Ok(server.finish_request(id)),
        Act::FinishWith(id, user_data) => {
            told(log, server.finish_request_with(id, *user_data), tell_kept)
        }
        Act::FinishBind(id, user_data) => {
            told(log, server.finish_bind(id, *user_data), tell_kept)
        }
        Act::FinishAction(id, kind, created) => {
            let action = FlatAction {
                kind: *kind,
                created: *created,
                ..FlatAction::none()
            };
            Ok(server.finish_action(id, &action))
        }
        Act::Create(id, interface, user_data) => {
            let answer = server.create_object(id, *interface, 1, 1, *user_data);
            told(log, answer, tell_object)
        }
        Act::Send(id, opcode, args, bytes) => Ok(server.send_event(id, *opcode, args, bytes)),
        Act::PostError(id, code, message) => Ok(server.post_error(id, *code, message)),
        other => on_clients(log, server, other),
    }
}

impl Session for Server {
    type Act = Act;

    fn begin(alloc: Global) -> Result<Self, TableFault> {
        Server::new(alloc, &TABLE)
    }

    fn was_refused(&self) -> bool {
        self.memory_refused()
    }

    fn act(&mut self, log: &mut String, act: &Act) -> Result<Status, Fail> {
        match act {
            Act::Writable => told(log, self.next_writable(), tell_client),
            Act::ToSend(id) => to_send(log, self, id),
            Act::Sent(id, count) => Ok(self.sent(id, *count)),
            Act::SendFailed(id) => Ok(self.send_failed(id)),
            Act::Kill(id) => Ok(self.kill_client(id)),
            Act::Cleanup => Ok(self.cleanup()),
            Act::Violation(id) => told(log, self.violation(id), tell_violation),
            Act::Gone => next_gone(log, self),
            Act::Note => next_note(log, self),
            Act::Dropped => told(log, self.next_dropped(), tell_descriptor),
            Act::Choose(choice) => choose(log, self, choice),
            Act::Tell(telling) => Ok(tell(self, telling)),
            other => on_messages(log, self, other),
        }
    }
}
