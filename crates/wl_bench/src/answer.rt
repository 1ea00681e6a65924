//! The lines that commands print. None has its line feed.

ghost use Rattle.std.specs.Prelude.{◌≡◌, ◌++◌, map, IfOk, OnOk};
ghost use Rattle.std.specs.List.{flat_map};
ghost use Rattle.std.specs.String.{string_bytes};
ghost use Rattle.wl_link.specs.Script.{parcel};
ghost use Rattle.wl_server_client.specs.Deeds.{handed};
ghost use Rattle.wl_bench.specs.Answers.{answer_lines, bind_text, destroyed_text, error_front, error_place, answer_text, action_text, argument_text, arguments_text, bytes_of, client_text, effect_text, end_text, error_text, fault_text, finish_name, global_name, global_text, hex, insert_name, name_of_fault, note_lines, note_text, record_lines, registry_text, records_lines, refusal_text, script_name, sent_lines, sent_text, taken_out_lines, tokens_of, tokens_text};

use std::alloc::{AllocError, Global};
use wl_link::Memory;
use wl_server::{
    Action, ActionError, ClientId, DisconnectReason, FinishError, GlobalError, GlobalId,
    InsertClientError, Note, ObjectId, Reply, ScriptError,
};
use wl_wire::{Argument, IoFault, ProtocolError, Token};

/// The reply to a step of a server.
pub type MemoryReply = Reply<Memory, u64>;

/// What a client took of a send: bytes and tokens.
pub type Sent = (Vec<u8>, Vec<Token>);

/// Appends the bytes in lower-case hex, two digits each, to the text.
fn push_hex(text: &mut String, bytes: &[u8]) -> Result<(), AllocError>
    ensures { OnOk result (string_bytes text.new ≡ string_bytes text.old ++ hex bytes.now) }
{
    for byte in bytes {
        write!(text, "{byte:02x}")?;
    }
    Ok(())
}

/// Appends an argument that is bytes to the text.
fn push_bytes(text: &mut String, kind: &str, bytes: &[u8]) -> Result<(), AllocError>
    ensures { OnOk result (string_bytes text.new ≡ string_bytes text.old ++ kind.now ++ hex bytes.now) }
{
    text.push_str(kind)?;
    push_hex(text, bytes)
}

/// Appends an argument of a request to the text.
fn push_argument(text: &mut String, arg: &Argument<ObjectId, Token>) -> Result<(), AllocError>
    ensures { OnOk result (string_bytes text.new ≡ string_bytes text.old ++ argument_text arg.now) }
{
    match arg {
        Argument::Int(value) => write!(text, "int:{value}"),
        Argument::Uint(value) => write!(text, "uint:{value}"),
        Argument::Fixed(value) => write!(text, "fixed:{value}"),
        Argument::Str(None) => text.push_str("str:null"),
        Argument::Str(Some(string)) => push_bytes(text, "str:", string.as_bytes()),
        Argument::Object(id) => write!(text, "object:{}", id.protocol_id()),
        Argument::NewId(id) => write!(text, "new:{}", id.protocol_id()),
        Argument::Array(bytes) => push_bytes(text, "array:", bytes.as_slice()),
        Argument::Fd(token) => write!(text, "fd:{}", token.0),
    }
}

/// Appends the arguments of a request to the text, with one space between.
fn push_arguments(text: &mut String, args: &[Argument<ObjectId, Token>]) -> Result<(), AllocError>
    ensures { OnOk result (string_bytes text.new ≡ string_bytes text.old ++ arguments_text args.now) }
{
    let Some((first, rest)) = args.split_first() else {
        return Ok(());
    };
    push_argument(text, first)?;
    for arg in rest {
        text.push_str(" ")?;
        push_argument(text, arg)?;
    }
    Ok(())
}

/// Appends what a request does to objects to the text: whether it ends its own, and the number of the one that it made.
fn push_effect(
    text: &mut String,
    is_destructor: bool,
    created: Option<ObjectId>,
) -> Result<(), AllocError>
    ensures { OnOk result (string_bytes text.new ≡ string_bytes text.old ++ effect_text is_destructor created) }
{
    let ends = if is_destructor { "1" } else { "0" };
    match created {
        Some(id) => write!(text, " destructor={ends} created={}", id.protocol_id()),
        None => write!(text, " destructor={ends} created=-"),
    }
}

/// The line of a bind.
fn bind_line(alloc: Global, global: GlobalId, object: ObjectId) -> Result<String, AllocError>
    ensures { IfOk result (λ line. string_bytes line ≡ bind_text global object) }
{
    let line = format!(in alloc; "bind {} {}", global.name(), object.protocol_id())?;
    Ok(line)
}

/// The line of a registry that is handed out.
fn registry_line(alloc: Global, object: ObjectId) -> Result<String, AllocError>
    ensures { IfOk result (λ line. string_bytes line ≡ registry_text object) }
{
    let line = format!(in alloc; "registry {}", object.protocol_id())?;
    Ok(line)
}

/// The line of an action: a request, a bind, or a registry.
fn action_line(alloc: Global, action: &Action) -> Result<String, AllocError>
    ensures { IfOk result (λ line. string_bytes line ≡ action_text (handed action.now)) }
{
    match action {
        Action::Request {
            sender,
            opcode,
            args,
            is_destructor,
            created,
        } => {
            let mut line = format!(in alloc; "request {} {opcode} [", sender.protocol_id())?;
            push_arguments(&mut line, args.as_slice())?;
            line.push_str("]")?;
            push_effect(&mut line, *is_destructor, *created)?;
            Ok(line)
        }
        Action::Bind { global, object } => { bind_line(alloc, *global, *object) }
        Action::Registry { object } => registry_line(alloc, *object),
    }
}

/// The name of the reason for which a reading handed out no action.
fn fault_name(fault: ActionError) -> &'static str
    ensures { result.now ≡ name_of_fault fault }
{
    match fault {
        ActionError::ActionOpen => "ActionOpen",
        ActionError::Io(IoFault::WouldBlock) => "WouldBlock",
        ActionError::Io(IoFault::Pipe) => "Pipe",
        ActionError::Io(IoFault::TooBig) => "TooBig",
        ActionError::Io(IoFault::Proto) => "Proto",
        ActionError::Io(IoFault::InvalidInput) => "InvalidInput",
        ActionError::Io(IoFault::OutOfMemory) => "OutOfMemory",
        ActionError::Io(IoFault::Other(_)) => "Other",
    }
}

/// The name of the reason for which no client was inserted.
fn insert_refusal(reason: InsertClientError) -> &'static str
    ensures { result.now ≡ insert_name reason }
{
    match reason {
        InsertClientError::Full => "Full",
        InsertClientError::OutOfMemory => "OutOfMemory",
    }
}

/// The name of the reason for which no global was created.
fn global_refusal(reason: GlobalError) -> &'static str
    ensures { result.now ≡ global_name reason }
{
    match reason {
        GlobalError::UnknownInterface => "UnknownInterface",
        GlobalError::VersionTooHigh => "VersionTooHigh",
        GlobalError::Full => "Full",
        GlobalError::OutOfMemory => "OutOfMemory",
    }
}

/// The name of the reason for which nothing was added to a client's script.
fn script_refusal(reason: ScriptError) -> &'static str
    ensures { result.now ≡ script_name reason }
{
    match reason {
        ScriptError::InvalidId => "InvalidId",
        ScriptError::TooManyTokens => "TooManyTokens",
        ScriptError::OutOfMemory => "OutOfMemory",
    }
}

/// The name of the reason for which no action was finished.
fn finish_refusal(reason: FinishError) -> &'static str
    ensures { result.now ≡ finish_name reason }
{
    match reason {
        FinishError::InvalidId => "InvalidId",
        FinishError::NoOpenAction => "NoOpenAction",
        FinishError::WrongKind => "WrongKind",
        FinishError::MissingObjectData => "MissingObjectData",
        FinishError::UnexpectedData => "UnexpectedData",
        FinishError::OutOfMemory => "OutOfMemory",
    }
}

/// The line of a client's protocol error, which ended it, up to the number of the object.
fn error_place_line(alloc: Global, slot: u32, code: u32, object: u32) -> Result<String, AllocError>
    ensures { IfOk result (λ line. string_bytes line ≡ error_place slot code object) }
{
    let line = format!(in alloc; "disconnected {slot} error {code} {object}")?;
    Ok(line)
}

/// The line of a client's protocol error, which ended it, up to the message.
fn error_front_line(alloc: Global, slot: u32, error: &ProtocolError) -> Result<String, AllocError>
    ensures { IfOk result (λ line. string_bytes line ≡ error_front slot error.now) }
{
    let mut line = error_place_line(alloc, slot, error.code, error.object_id)?;
    line.push_str(" ")?;
    line.push_str(error.object_interface.as_str())?;
    line.push_str(" ")?;
    Ok(line)
}

/// The line of a client's protocol error, which ended it.
fn error_line(alloc: Global, slot: u32, error: &ProtocolError) -> Result<String, AllocError>
    ensures { IfOk result (λ line. string_bytes line ≡ error_text slot error.now) }
{
    let mut line = error_front_line(alloc, slot, error)?;
    push_hex(&mut line, error.message.as_str().as_bytes())?;
    Ok(line)
}

/// The line of a client's end.
fn end_line(
    alloc: Global,
    client: ClientId,
    reason: &DisconnectReason,
) -> Result<String, AllocError>
    ensures { IfOk result (λ line. string_bytes line ≡ end_text client.slot reason.now) }
{
    match reason {
        DisconnectReason::ConnectionClosed => {
            format!(in alloc; "disconnected {} closed", client.slot())
        }
        DisconnectReason::ProtocolError(error) => error_line(alloc, client.slot(), error),
    }
}

/// The line of an object that is gone.
fn destroyed_line(
    alloc: Global,
    client: ClientId,
    object: ObjectId,
    number: u64,
) -> Result<String, AllocError>
    ensures { IfOk result (λ line. string_bytes line ≡ destroyed_text client object number) }
{
    let line = format!(in alloc;
        "destroyed {} {} {number}",
        client.slot(),
        object.protocol_id()
    )?;
    Ok(line)
}

/// The line of a note.
fn note_line(alloc: Global, note: &Note<u64>) -> Result<String, AllocError>
    ensures { IfOk result (λ line. string_bytes line ≡ note_text note.now) }
{
    match note {
        Note::Initialized(client) => format!(in alloc; "initialized {}", client.slot()),
        Note::Disconnected(client, reason) => end_line(alloc, *client, reason),
        Note::Destroyed(client, object, data) => { destroyed_line(alloc, *client, *object, *data) }
    }
}

/// Appends the line of each note to the lines.
fn push_notes(alloc: Global, lines: &mut Vec<String>, notes: &[Note<u64>]) -> Result<(), AllocError>
    ensures { OnOk result (map string_bytes lines.new.items ≡ map string_bytes lines.old.items ++ map note_text notes.now) }
{
    for note in notes {
        lines.push(note_line(alloc, note)?)?;
    }
    Ok(())
}

/// Appends the notes, a line each, to the lines; or `none`.
fn push_taken_notes(
    alloc: Global,
    lines: &mut Vec<String>,
    notes: &[Note<u64>],
) -> Result<(), AllocError>
    ensures { OnOk result (map string_bytes lines.new.items ≡ map string_bytes lines.old.items ++ note_lines notes.now) }
{
    if notes.is_empty() {
        lines.push(String::from_str(alloc, "none")?)?;
        return Ok(());
    }
    push_notes(alloc, lines, notes)
}

/// The line of a refusal.
fn refusal(alloc: Global, name: &str) -> Result<String, AllocError>
    ensures { IfOk result (λ line. string_bytes line ≡ refusal_text name.now) }
{
    format!(in alloc; "refused {name}")
}

/// The line of a new client.
fn client_line(alloc: Global, id: ClientId) -> Result<String, AllocError>
    ensures { IfOk result (λ line. string_bytes line ≡ client_text id) }
{
    let line = format!(in alloc; "client {} {}", id.slot(), id.serial())?;
    Ok(line)
}

/// The line of a new global.
fn global_line(alloc: Global, id: GlobalId) -> Result<String, AllocError>
    ensures { IfOk result (λ line. string_bytes line ≡ global_text id) }
{
    let line = format!(in alloc; "global {} {}", id.name(), id.serial())?;
    Ok(line)
}

/// The line of a reading's answer.
fn fault_line(alloc: Global, fault: ActionError) -> Result<String, AllocError>
    ensures { IfOk result (λ line. string_bytes line ≡ fault_text fault) }
{
    format!(in alloc; "fault {}", fault_name(fault))
}

/// The one line that a reply prints, if it is not that to `TakeNotes`.
fn answer_line(alloc: Global, reply: &MemoryReply) -> Result<String, AllocError>
    ensures { IfOk result (λ line. string_bytes line ≡ answer_text reply.now) }
{
    match reply {
        Reply::InsertClient(Ok(id)) => client_line(alloc, *id),
        Reply::InsertClient(Err(reason)) => refusal(alloc, insert_refusal(*reason)),
        Reply::CreateGlobal(Ok(id)) => global_line(alloc, *id),
        Reply::CreateGlobal(Err(reason)) => refusal(alloc, global_refusal(*reason)),
        Reply::NextAction(Ok(action)) => action_line(alloc, action),
        Reply::NextAction(Err(fault)) => fault_line(alloc, *fault),
        Reply::FinishRequest(Err(refused)) => refusal(alloc, finish_refusal(refused.error)),
        Reply::FinishBind(Err(refused)) => refusal(alloc, finish_refusal(refused.error)),
        Reply::Arrive(Err(reason))
        | Reply::ArriveFault(Err(reason))
        | Reply::Accept(Err(reason))
        | Reply::AcceptFault(Err(reason)) => refusal(alloc, script_refusal(*reason)),
        _ => String::from_str(alloc, "ok"),
    }
}

/// Appends the lines that a command answers to the lines, by the reply to its first step.
pub fn push_answer(
    alloc: Global,
    lines: &mut Vec<String>,
    reply: &MemoryReply,
) -> Result<(), AllocError>
    ensures { OnOk result (map string_bytes lines.new.items ≡ map string_bytes lines.old.items ++ answer_lines reply.now) }
{
    match reply {
        Reply::TakeNotes(Ok(notes)) => push_taken_notes(alloc, lines, notes.as_slice()),
        _ => Ok(lines.push(answer_line(alloc, reply)?)?),
    }
}

/// Appends the tokens of all sends to the others.
fn push_tokens(tokens: &mut Vec<Token>, sends: &[Sent]) -> Result<(), AllocError>
    ensures { OnOk result (tokens.new.items ≡ tokens.old.items ++ flat_map tokens_of (map parcel sends.now)) }
{
    for (_, sent) in sends {
        tokens.extend_from_slice(sent.as_slice())?;
    }
    Ok(())
}

/// Appends the tokens to the text, with commas between, or `-` if there are none.
fn push_token_list(text: &mut String, tokens: &[Token]) -> Result<(), AllocError>
    ensures { OnOk result (string_bytes text.new ≡ string_bytes text.old ++ tokens_text tokens.now) }
{
    let Some((first, rest)) = tokens.split_first() else {
        return text.push_str("-");
    };
    write!(text, "{}", first.0)?;
    for token in rest {
        write!(text, ",{}", token.0)?;
    }
    Ok(())
}

/// Appends the bytes of all sends to the text, in hex.
fn push_sent_bytes(text: &mut String, sends: &[Sent]) -> Result<(), AllocError>
    ensures { OnOk result (string_bytes text.new ≡ string_bytes text.old ++ hex (flat_map bytes_of (map parcel sends.now))) }
{
    for (bytes, _) in sends {
        push_hex(text, bytes.as_slice())?;
    }
    Ok(())
}

/// The line of what the client of a slot was sent, all sends joined.
fn sent_line(alloc: Global, slot: u32, sends: &[Sent]) -> Result<String, AllocError>
    ensures { IfOk result (λ line. string_bytes line ≡ sent_text slot (map parcel sends.now)) }
{
    let mut tokens = Vec::new(alloc);
    push_tokens(&mut tokens, sends)?;
    let mut line = format!(in alloc; "out {slot} ")?;
    push_sent_bytes(&mut line, sends)?;
    line.push_str(" ")?;
    push_token_list(&mut line, tokens.as_slice())?;
    Ok(line)
}

/// Appends to the lines what the client of a slot was sent; no line if it was sent nothing.
fn push_sends(
    alloc: Global,
    lines: &mut Vec<String>,
    slot: u32,
    sends: &[Sent],
) -> Result<(), AllocError>
    ensures { OnOk result (map string_bytes lines.new.items ≡ map string_bytes lines.old.items ++ sent_lines slot (map parcel sends.now)) }
{
    if sends.is_empty() {
        return Ok(());
    }
    Ok(lines.push(sent_line(alloc, slot, sends)?)?)
}

/// Appends to the lines what the clients that a command took out had been sent.
pub fn push_taken_out(
    alloc: Global,
    lines: &mut Vec<String>,
    reply: &MemoryReply,
) -> Result<(), AllocError>
    ensures { OnOk result (map string_bytes lines.new.items ≡ map string_bytes lines.old.items ++ taken_out_lines reply.now) }
{
    let Reply::Cleanup(Ok(out)) = reply else {
        return Ok(());
    };
    for (client, transport) in out.as_slice() {
        push_sends(alloc, lines, client.slot(), transport.sent())?;
    }
    Ok(())
}

/// Appends to the lines what a client was sent, by the reply to the step that took the record of it.
fn push_record(
    alloc: Global,
    lines: &mut Vec<String>,
    client: ClientId,
    reply: &MemoryReply,
) -> Result<(), AllocError>
    ensures { OnOk result (map string_bytes lines.new.items ≡ map string_bytes lines.old.items ++ record_lines client reply.now) }
{
    match reply {
        Reply::TakeSent(Ok(sends)) => push_sends(alloc, lines, client.slot(), sends.as_slice()),
        _ => Ok(()),
    }
}

/// Appends to the lines what these clients were sent, by the replies to the steps that took the records of it.
pub fn push_records(
    alloc: Global,
    lines: &mut Vec<String>,
    clients: &[ClientId],
    replies: &[MemoryReply],
) -> Result<(), AllocError>
    ensures { OnOk result (map string_bytes lines.new.items ≡ map string_bytes lines.old.items ++ records_lines clients.now replies.now) }
{
    let mut rest = replies;
    for client in clients {
        let [reply, others @ ..] = rest else {
            return Ok(());
        };
        push_record(alloc, lines, *client, reply)?;
        rest = others;
    }
    Ok(())
}
