//! What a test does with a client's session, and what it tells.

use crate::tests::acts::tell_message;
use crate::tests::args::{arg, id};
use crate::tests::rows::{GATE, KNOT, NOTE, TABLE};
use crate::tests::session::Session;
use crate::tests::told::{
    NO_ARGUMENT, NOBODY, NOTHING, NULL, bytes_of, tell_counts, tell_descriptor, tell_kept,
    tell_lent, tell_numbers, tell_object, tell_objects, tell_waiting, told, told_extension,
    told_joined, told_table,
};
use std::alloc::Global;
use std::test::Fail;
use wl_host::{
    Client, FlatArgument, FlatError, FlatEvent, FlatObjectId, FlatObjectInfo, FlatRequest,
    FlatTold, Rows, Status, TableFault,
};

/// One call of the session.
pub enum Act {
    /// These words and these descriptors are received.
    Received(&'static [u32], &'static [i32]),
    /// The server closed the connection.
    End,
    /// The next event, with so much room for arguments and bytes, at most 16 of each.
    Next(usize, usize),
    /// The open event is finished.
    Finish,
    /// The open event is finished with these data.
    FinishWith(u64),
    /// A request of this object and opcode, with these arguments and bytes; the object that it makes gets these data.
    Send(FlatObjectId, u32, Option<u64>, &'static [FlatArgument], &'static [u8]),
    /// A `wl_registry.bind` of the global 1, as a `pad` of version 2 with these data.
    BindPad(u64),
    /// The same of the global 2, as a `note` of version 1.
    BindNote(u64),
    /// The same, as a `knot` of version 1.
    BindKnot(u64),
    /// The same, as a `gate`.
    BindGate(u64),
    /// The interface `note` is added to the table.
    AddNote,
    /// The interface `knot` is added to the table.
    AddKnot,
    /// The interface `gate` is added to the table.
    AddGate,
    /// Whether nulls that the table forbids are refused is set.
    RefuseNulls(u32),
    /// The host ends the session with this number.
    Fail(i32),
    /// A send failed with this number.
    SendFailed(i32),
    /// The table is extended by these rows.
    Extend(Rows<'static>),
    /// The interface of these rows joins the table.
    Join(Rows<'static>),
    /// These words and so many descriptors arrived: which messages the session is to have together.
    Run(&'static [u32], u32),
    /// What is known of the object.
    Info(FlatObjectId),
    /// The data of the object.
    Data(FlatObjectId),
    /// The object gets these data.
    SetData(FlatObjectId, u64),
    /// The object is destroyed.
    Destroy(FlatObjectId),
    /// The object, which both sides have given up, is taken out.
    Reclaim(FlatObjectId),
    /// The object is given up for good.
    GiveUp(FlatObjectId),
    /// The object that a number holds.
    At(u32),
    /// Messages of unknown senders are passed over, unless this is 0.
    PassOver(u32),
    /// What waits is put where the host finds it.
    Flush,
    /// What is to be sent, with room for so many descriptors, at most 28.
    ToSend(usize),
    /// So many bytes were sent.
    Sent(u32),
    /// How much waits.
    Waiting,
    /// The session's error.
    Error,
    /// The next note.
    Note,
    /// The next descriptor that nobody takes.
    Dropped,
    /// Whether messages are told is set.
    TellMessages(u32),
    /// The next message that is told, with so much room for arguments and bytes, at most 16 and 24.
    NextTold(usize, usize),
}

/// The display.
pub const DISPLAY: FlatObjectId = id!(NOBODY, 1 @ 1, serial 0);

/// The registry, the first object that is made.
pub const REGISTRY: FlatObjectId = id!(NOBODY, 2 @ 2, serial 1);

/// The arguments of a request that makes an object, and has no others.
pub const NEW: &[FlatArgument] = &[arg!(new)];

/// The arguments of a bind of the global 1 as a `pad` of version 2, whose name stands at the beginning of the bytes.
const BIND_PAD: &[FlatArgument] = &[arg!(uint: 1), arg!(string: 0, 3), arg!(uint: 2), arg!(new)];

/// The same of the global 2 as a `note`, a `knot` or a `gate`, of version 1.
const BIND_NOTE: &[FlatArgument] = &[arg!(uint: 2), arg!(string: 0, 4), arg!(uint: 1), arg!(new)];

/// An event with nothing in it.
const NO_EVENT: FlatEvent = FlatEvent {
    opcode: 0,
    arguments: 0,
    is_destructor: 0,
    bytes: 0,
    sender: NULL,
    data: 0,
    created: NULL,
    version: 0,
    has_data: 0,
    forbidden_null: 0,
};

/// The event, and what was lent for its arguments and bytes.
fn tell_event(
    log: &mut String,
    event: &FlatEvent,
    arguments: &[FlatArgument],
    bytes: &[u8],
) -> Result<(), Fail> {
    tell_numbers(
        log,
        &[
            ("opcode", u64::from(event.opcode)),
            ("ends", u64::from(event.is_destructor)),
            ("has_data", u64::from(event.has_data)),
            ("data", event.data),
            ("version", u64::from(event.version)),
            ("arguments", u64::from(event.arguments)),
            ("bytes", u64::from(event.bytes)),
            ("null", u64::from(event.forbidden_null)),
        ],
    )?;
    tell_objects(log, &[("by", event.sender), ("made", event.created)])?;
    tell_lent(log, arguments, bytes)
}

/// The next event, with so much room.
fn next(log: &mut String, client: &mut Client, room: usize, most: usize) -> Result<Status, Fail> {
    if room > 16 || most > 16 {
        return Err(Fail::new("too much room"));
    }
    let mut arguments = [NO_ARGUMENT; 16];
    let mut bytes = [0u8; 16];
    let mut event = NO_EVENT;
    let status = client.next_event(&mut event, &mut arguments[..room], &mut bytes[..most]);
    if matches!(status, Status::Ok | Status::TooSmall) {
        tell_event(log, &event, &arguments[..room], &bytes[..most])?;
    }
    Ok(status)
}

/// The next message that is told, with so much room.
fn next_told(
    log: &mut String,
    client: &mut Client,
    room: usize,
    most: usize,
) -> Result<Status, Fail> {
    if room > 16 || most > 24 {
        return Err(Fail::new("too much room"));
    }
    let mut arguments = [NO_ARGUMENT; 16];
    let mut bytes = [0u8; 24];
    let mut message = FlatTold::none();
    let status = client.next_told(&mut message, &mut arguments[..room], &mut bytes[..most]);
    if matches!(status, Status::Ok | Status::TooSmall) {
        tell_message(log, &message, &arguments[..room], &bytes[..most])?;
    }
    Ok(status)
}

/// A request. The object that it makes gets these data, and is of this interface and version, if the caller says so.
fn request(
    sender: FlatObjectId,
    opcode: u32,
    user_data: Option<u64>,
    child: Option<(u32, u32)>,
) -> FlatRequest {
    let (child_interface, child_version) = child.unwrap_or((0, 0));
    FlatRequest {
        sender,
        opcode,
        has_data: u32::from(user_data.is_some()),
        data: user_data.unwrap_or(0),
        has_child: u32::from(child.is_some()),
        child_interface,
        child_version,
        unused: 0,
    }
}

/// Sends a request.
fn send(
    log: &mut String,
    client: &mut Client,
    request: FlatRequest,
    args: &[FlatArgument],
    bytes: &[u8],
) -> Result<Status, Fail> {
    let answer = client.send_request(&request, args, bytes);
    told(log, answer, tell_id)
}

/// Tells an object with its serial.
fn tell_id(log: &mut String, id: FlatObjectId) -> Result<(), Fail> {
    tell_object(log, id)?;
    tell_numbers(log, &[("serial", id.serial)])
}

/// Tells the data of an object.
fn tell_data(log: &mut String, user_data: u64) -> Result<(), Fail> {
    tell_numbers(log, &[("data", user_data)])
}

/// Tells what is known of an object.
fn tell_info(log: &mut String, info: FlatObjectInfo) -> Result<(), Fail> {
    let (number, interface, version) = (info.number, info.interface, info.version);
    write!(log, " {interface}@{number} version {version}")?;
    Ok(())
}

/// What is to be sent, with room for so many descriptors. How much it is, is told in any case.
fn to_send(log: &mut String, client: &mut Client, room: usize) -> Result<Status, Fail> {
    if room > 28 {
        return Err(Fail::new("too much room"));
    }
    let mut bytes = [0u8; 256];
    let mut descriptors = [0i32; 28];
    let mut counts = NOTHING;
    let status = client.to_send(&mut bytes, &mut descriptors[..room], &mut counts);
    tell_numbers(
        log,
        &[
            ("bytes", u64::from(counts.bytes)),
            ("descriptors", u64::from(counts.descriptors)),
        ],
    )?;
    if status == Status::Ok {
        tell_counts(log, &counts, &bytes, &descriptors[..room])?;
    }
    Ok(status)
}

/// What an error says.
fn tell_error(log: &mut String, error: &FlatError) -> Result<(), Fail> {
    let number = error.number;
    write!(log, " number {number}")?;
    tell_numbers(
        log,
        &[
            ("kind", u64::from(error.kind)),
            ("status", u64::from(error.status)),
            ("code", u64::from(error.code)),
            ("object", u64::from(error.object_number)),
            ("message", u64::from(error.message_length)),
            ("interface", u64::from(error.interface_length)),
        ],
    )
}

/// The session's error. No room is lent for its text.
fn last_error(log: &mut String, client: &Client) -> Result<Status, Fail> {
    let mut error = FlatError {
        kind: 9,
        status: 0,
        number: 0,
        code: 0,
        object_number: 0,
        message_length: 0,
        interface_length: 0,
    };
    let status = client.last_error(&mut error, &mut []);
    tell_error(log, &error)?;
    Ok(status)
}

/// These words are received.
fn received(
    alloc: Global,
    client: &mut Client,
    words: &[u32],
    descriptors: &[i32],
) -> Result<Status, Fail> {
    let bytes = bytes_of(alloc, words)?;
    Ok(client.received(&bytes, descriptors))
}

/// Which messages at the front of these words the session is to have together, if so many descriptors came with them.
fn next_run(
    log: &mut String,
    client: &Client,
    words: &[u32],
    descriptors: u32,
) -> Result<Status, Fail> {
    let bytes = bytes_of(*log.allocator(), words)?;
    let run = client.next_run(&bytes, descriptors);
    let numbers = [
        ("bytes", run.bytes),
        ("descriptors", run.descriptors),
        ("skipped", run.skipped),
        ("kind", run.kind),
        ("sender", run.sender),
        ("interface", run.interface),
        ("opcode", run.opcode),
        ("size", run.size),
        ("needed", run.needed),
        ("may_bring", run.may_bring),
        ("number", run.number),
    ];
    for (name, number) in numbers {
        tell_numbers(log, &[(name, u64::from(number))])?;
    }
    Ok(Status::Ok)
}

/// The next note: the object that ended, and its data.
fn next_note(log: &mut String, client: &mut Client) -> Result<Status, Fail> {
    let mut ended = NULL;
    let mut user_data = 0;
    let status = client.next_note(&mut ended, &mut user_data);
    if status == Status::Ok {
        tell_id(log, ended)?;
        tell_data(log, user_data)?;
    }
    Ok(status)
}

/// Does an act about requests.
fn on_requests(log: &mut String, client: &mut Client, act: &Act) -> Result<Status, Fail> {
    match act {
        Act::Send(sender, opcode, user_data, args, bytes) => {
            let request = request(*sender, *opcode, *user_data, None);
            send(log, client, request, args, bytes)
        }
        Act::BindPad(user_data) => {
            let request = request(REGISTRY, 0, Some(*user_data), Some((4, 2)));
            send(log, client, request, BIND_PAD, b"pad")
        }
        Act::BindNote(user_data) => {
            let request = request(REGISTRY, 0, Some(*user_data), Some((5, 1)));
            send(log, client, request, BIND_NOTE, b"note")
        }
        Act::BindKnot(user_data) => {
            let request = request(REGISTRY, 0, Some(*user_data), Some((5, 1)));
            send(log, client, request, BIND_NOTE, b"knot")
        }
        Act::BindGate(user_data) => {
            let request = request(REGISTRY, 0, Some(*user_data), Some((5, 1)));
            send(log, client, request, BIND_NOTE, b"gate")
        }
        Act::AddNote => told_table(log, client.add_interfaces(&NOTE)),
        Act::AddKnot => told_table(log, client.add_interfaces(&KNOT)),
        Act::AddGate => told_table(log, client.add_interfaces(&GATE)),
        Act::RefuseNulls(is_on) => Ok(client.refuse_nulls(*is_on)),
        Act::TellMessages(is_on) => Ok(client.tell_messages(*is_on)),
        Act::NextTold(room, most) => next_told(log, client, *room, *most),
        Act::Fail(number) => Ok(client.fail(*number)),
        Act::Extend(rows) => told_extension(log, client.extend_interfaces(rows)),
        Act::Join(rows) => told_joined(log, client.join_interface(rows)),
        Act::Run(words, descriptors) => next_run(log, client, words, *descriptors),
        _ => Err(Fail::new("no act of this kind")),
    }
}

/// Does an act about objects and notes.
fn on_objects(log: &mut String, client: &mut Client, act: &Act) -> Result<Status, Fail> {
    match act {
        Act::Info(id) => told(log, client.object_info(id), tell_info),
        Act::Data(id) => told(log, client.object_data(id), tell_data),
        Act::SetData(id, user_data) => Ok(client.set_object_data(id, *user_data)),
        Act::Destroy(id) => Ok(client.destroy_object(id)),
        Act::Reclaim(id) => Ok(client.reclaim(id)),
        Act::GiveUp(id) => Ok(client.give_up_object(id)),
        Act::At(number) => told(log, client.object_for_protocol_id(*number), tell_id),
        Act::PassOver(passes) => Ok(client.pass_over_unknown_senders(*passes)),
        Act::Waiting => told(log, client.waiting(), tell_waiting),
        Act::Note => next_note(log, client),
        Act::Error => last_error(log, client),
        other => on_requests(log, client, other),
    }
}

impl Session for Client {
    type Act = Act;

    fn begin(alloc: Global) -> Result<Self, TableFault> {
        Client::connect(alloc, &TABLE)
    }

    fn was_refused(&self) -> bool {
        false
    }

    fn act(&mut self, log: &mut String, act: &Act) -> Result<Status, Fail> {
        match act {
            Act::Received(words, descriptors) => {
                received(*log.allocator(), self, words, descriptors)
            }
            Act::End => Ok(self.received_end()),
            Act::SendFailed(number) => Ok(self.send_failed(*number)),
            Act::Flush => Ok(self.flush()),
            Act::ToSend(room) => to_send(log, self, *room),
            Act::Sent(count) => Ok(self.sent(*count)),
            Act::Next(room, most) => next(log, self, *room, *most),
            Act::Finish => Ok(self.finish_event()),
            Act::FinishWith(user_data) => {
                told(log, self.finish_event_with(*user_data), tell_kept)
            }
            Act::Dropped => told(log, self.next_dropped(), tell_descriptor),
            other => on_objects(log, self, other),
        }
    }
}
