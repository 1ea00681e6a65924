//! Takes the message at the front of the incoming buffer, and handles it.

ghost use Rattle.std.specs.Prelude.{◌≡◌, ◌≤◌, ◌<◌, List, [], true, Some, length, vec_len, vec_capacity, IfOk, OnErr, OnOk};
ghost use Rattle.wl_wire.specs.MessageRows.{creates};
ghost use Rattle.wl_wire.specs.Parse.{IsThere};
ghost use Rattle.wl_wire.specs.Table.{message_row};
ghost use Rattle.wl_wire.specs.declared.argument.Argument.{Argument as Arg};
ghost use Rattle.wl_wire.specs.declared.argument.Token.{Token as TokenParts};
ghost use Rattle.wl_server_client.specs.Deeds.{Handed, handed};
ghost use Rattle.wl_server_client.specs.Ids.{IdParts};
ghost use Rattle.wl_server_client.specs.NoteTimes.{IsNumbered, NotesInTime};
ghost use Rattle.wl_server_client.specs.Reading.{row_asks};
ghost use Rattle.wl_server_client.specs.Telling.{core_of};
ghost use Rattle.wl_server_client.specs.declared.reading.action.Found.{Found as FoundOf};
ghost use Rattle.wl_server_client.specs.declared.reading.action.Reading.{Reading as ReadingOf};
ghost use Rattle.wl_server_client.specs.Inside.Responses.{HasNames, IsOther, TookRequest, addressed_by, response_to};
ghost use Rattle.wl_server_client.specs.Inside.ReadingLoop.{HandlesMessage, IsFront, IsHandled, Live, NotTaken, around_of, found_with, message_result};

use crate::client::Client;
use crate::globals::handler::GlobalHandler;
use crate::ids::object_id::ObjectId;
use crate::notes::queues::NoteNumbers;
use crate::objects::ClientObjects;
use crate::reading::Surroundings;
use crate::reading::action::{Action, Finding, MessageEnd, NoAction, Reading};
use crate::reading::front_request::{FrontRequest, front_request};
use crate::reading::request::request;
use crate::reading::response::Response;
use crate::reading::violation::{MessageFault, unread};
use wl_link::{BufferedSocket, Transport, clear_message};
use wl_wire::{
    Args, INLINE_ARGS, IoFault, Message, MessageDesc, MessageParseError, OutOfMemory, Token,
};

/// Makes room for what becomes of the message at the front, if that is there whole: for its arguments, and for the object
/// that it may make, which may be a registry. If the message is not there, it allocates nothing.
fn make_room<T: Drop, U: Drop>(
    objects: &mut ClientObjects<U>,
    converted: &mut Args<ObjectId>,
    socket: &BufferedSocket<T>,
    desc: &MessageDesc,
) -> Result<(), OutOfMemory>
    requires empty { converted.old.items ≡ [] }
    requires inline { INLINE_ARGS ≤ converted.old.capacity }
    ensures store { objects.new.map.store ≡ objects.old.map.store }
    ensures registries { objects.new.registries.items ≡ objects.old.registries.items }
    ensures serial { objects.new.last_serial ≡ objects.old.last_serial }
    ensures empty { converted.new.items ≡ [] }
    ensures inline { INLINE_ARGS ≤ converted.new.capacity }
    ensures room { OnOk result (IsThere socket.now.incoming.bytes desc.now.signature.items socket.now.incoming.tokens
        → length desc.now.signature.items ≤ converted.new.capacity) }
    ensures can_make { OnOk result (IsThere socket.now.incoming.bytes desc.now.signature.items socket.now.incoming.tokens
        → creates (message_row desc.now) ≡ true → objects.new.map.reserved ≡ true) }
    ensures can_register { OnOk result (IsThere socket.now.incoming.bytes desc.now.signature.items socket.now.incoming.tokens
        → creates (message_row desc.now) ≡ true → vec_len objects.new.registries < vec_capacity objects.new.registries) }
    ensures asked { OnErr result ((row_asks (Some (message_row desc.now)) ≡ true)
        × IsThere socket.now.incoming.bytes desc.now.signature.items socket.now.incoming.tokens) }
{
    let creates = desc.creates_object();
    let asks_for_memory = creates || desc.signature.len() > INLINE_ARGS;
    if !asks_for_memory || !socket.holds_message(desc.signature.as_slice()) {
        return Ok(());
    }
    converted.reserve(desc.signature.len())?;
    if creates {
        objects.registries.reserve(1)?;
        objects.map.reserve()?;
    }
    Ok(())
}

/// Reads the request at the front into the message, and handles it. It first makes room for the arguments in `finding`, and for
/// the object that the request may make in the map and among the registries. Returns what is still to be done. A request that
/// is handed out is in `finding` then. The error says why no message was taken.
fn take_request<'p, 'm, T: Drop, U: Drop, G: GlobalHandler<C> + Drop, C>(
    around: &Surroundings<'_, G>,
    client_data: &C,
    objects: &mut ClientObjects<U>,
    socket: &mut BufferedSocket<T>,
    front: &FrontRequest<'p>,
    message: &'m mut Message<u32, Token>,
    finding: &mut Finding,
) -> Result<Response<'p, 'm>, MessageParseError>
    requires front { IsFront around.now.protocol.now objects.old.map.store socket.old front.now }
    requires empty { finding.old.args.items ≡ [] }
    requires inline { INLINE_ARGS ≤ finding.old.args.capacity }
    requires place { INLINE_ARGS ≤ message.old.args.capacity }
    ensures took { TookRequest (around_of G.views around.now) client_data.now front.now objects.old socket.old result finding.new.found finding.new.args.items objects.new socket.new }
    ensures names { IfOk result HasNames }
    ensures fewer { OnOk result (length socket.new.incoming.bytes < length socket.old.incoming.bytes) }
{
    let Ok(()) = make_room(objects, &mut finding.args, socket, front.desc) else {
        return Err(MessageParseError::OutOfMemory);
    };
    let signature = front.desc.signature.as_slice();
    socket.read_with_signature(signature, message)?;
    Ok(request(around, client_data, objects, front, message, finding))
}

impl<T: Transport + Drop, U: Drop, C: Drop> Client<T, U, C> {
    /// Takes the message at the front off the incoming buffer, and handles it. `message` is the place that it is read
    /// into. An action that is handed out is in `action` then; else what is in it is not said.
    pub fn handle_message<G: GlobalHandler<C> + Drop>(
        &mut self,
        numbers: &mut NoteNumbers,
        around: &Surroundings<'_, G>,
        reading: &mut Reading,
        message: &mut Message<u32, Token>,
        action: &mut Action,
    ) -> MessageEnd
        requires live { Live self.old.part }
        requires place { INLINE_ARGS ≤ message.old.args.capacity }
        ensures handles { HandlesMessage T.sends T.receives (around_of G.views around.now) self.old reading.old (message_result result (handed action.new)) self.new reading.new }
        ensures place { INLINE_ARGS ≤ message.new.args.capacity }
        ensures in_time { NotesInTime self.old.times numbers.old self.new.times numbers.new }
        ensures numbered { IsNumbered (Some self.old) → IsNumbered (Some self.new) }
    {
        // The count of requests starts within its type.
        prove!(reading.read <= usize::MAX);
        match front_request(around.protocol, &self.objects.map, &self.socket) {
            Ok(front) => self.handle_front(numbers, around, reading, &front, message, action),
            Err(error) => self.not_taken(numbers, around, error),
        }
    }

    /// Does the same as `handle_message` for this request at the front.
    #[inline(always)]
    fn handle_front<G: GlobalHandler<C> + Drop>(
        &mut self,
        numbers: &mut NoteNumbers,
        around: &Surroundings<'_, G>,
        reading: &mut Reading,
        front: &FrontRequest<'_>,
        message: &mut Message<u32, Token>,
        action: &mut Action,
    ) -> MessageEnd
        requires live { Live self.old.part }
        requires front { IsFront around.now.protocol.now self.old.part.store self.old.part.link front.now }
        requires place { INLINE_ARGS ≤ message.old.args.capacity }
        ensures handles { HandlesMessage T.sends T.receives (around_of G.views around.now) self.old reading.old (message_result result (handed action.new)) self.new reading.new }
        ensures place { INLINE_ARGS ≤ message.new.args.capacity }
        ensures in_time { NotesInTime self.old.times numbers.old self.new.times numbers.new }
        ensures numbered { IsNumbered (Some self.old) → IsNumbered (Some self.new) }
    {
        // Most syncs need no object for their callback.
        if self.answer_sync(around, reading, front) {
            return MessageEnd::Continues;
        }
        // Most requests can be handed out where they stand.
        if self.hand_out_in_place(around, reading, front, action) {
            return MessageEnd::HandsOut;
        }
        self.handle_request(numbers, around, reading, front, message, action)
    }

    /// Does the same for a request that cannot be handled where it stands. It is not inlined, so that it costs nothing for
    /// other requests.
    #[inline(never)]
    fn handle_request<G: GlobalHandler<C> + Drop>(
        &mut self,
        numbers: &mut NoteNumbers,
        around: &Surroundings<'_, G>,
        reading: &mut Reading,
        front: &FrontRequest<'_>,
        message: &mut Message<u32, Token>,
        action: &mut Action,
    ) -> MessageEnd
        requires live { Live self.old.part }
        requires front { IsFront around.now.protocol.now self.old.part.store self.old.part.link front.now }
        requires place { INLINE_ARGS ≤ message.old.args.capacity }
        ensures handles { HandlesMessage T.sends T.receives (around_of G.views around.now) self.old reading.old (message_result result (handed action.new)) self.new reading.new }
        ensures place { INLINE_ARGS ≤ message.new.args.capacity }
        ensures in_time { NotesInTime self.old.times numbers.old self.new.times numbers.new }
        ensures numbered { IsNumbered (Some self.old) → IsNumbered (Some self.new) }
    {
        let mut finding = Finding::new(self.alloc());
        let end = self.take_and_handle(numbers, around, reading, front, message, &mut finding);
        // The rest of the request is in `message` still, or the answer to a sync.
        clear_message(message);
        match end {
            MessageEnd::HandsOut => {
                *action = finding.into_action();
                MessageEnd::HandsOut
            }
            other => other,
        }
    }

    /// Takes the request at the front, and handles it. If it is handed out, it is in `finding` then.
    fn take_and_handle<G: GlobalHandler<C> + Drop>(
        &mut self,
        numbers: &mut NoteNumbers,
        around: &Surroundings<'_, G>,
        reading: &mut Reading,
        front: &FrontRequest<'_>,
        message: &mut Message<u32, Token>,
        finding: &mut Finding,
    ) -> MessageEnd
        requires live { Live self.old.part }
        requires front { IsFront around.now.protocol.now self.old.part.store self.old.part.link front.now }
        requires empty { finding.old.args.items ≡ [] }
        requires inline { INLINE_ARGS ≤ finding.old.args.capacity }
        requires place { INLINE_ARGS ≤ message.old.args.capacity }
        ensures handles { HandlesMessage T.sends T.receives (around_of G.views around.now) self.old reading.old (message_result result (found_with finding.new.found finding.new.args.items)) self.new reading.new }
        ensures in_time { NotesInTime self.old.times numbers.old self.new.times numbers.new }
        ensures numbered { IsNumbered (Some self.old) → IsNumbered (Some self.new) }
    {
        // The count of requests starts within its type.
        prove!(reading.read <= usize::MAX);
        let taken = take_request(
            around,
            &self.data,
            &mut self.objects,
            &mut self.socket,
            front,
            message,
            finding,
        );
        let response = match taken {
            Ok(response) => response,
            Err(error) => return self.not_taken(numbers, around, error),
        };
        reading.read = reading.read.saturating_add(1);
        match response {
            Response::Syncs(callback) => self.tell_done(numbers, message, &callback),
            Response::HandsOut => {
                self.action.open_action(&finding.found);
                MessageEnd::HandsOut
            }
            other => self.respond(numbers, around, front, &other),
        }
    }

    /// Does what is still to be done for a request that is neither a sync nor handed out.
    fn respond<G: GlobalHandler<C> + Drop>(
        &mut self,
        numbers: &mut NoteNumbers,
        around: &Surroundings<'_, G>,
        front: &FrontRequest<'_>,
        response: &Response<'_, '_>,
    ) -> MessageEnd
        requires live { Live self.old.part }
        requires names { HasNames response.now }
        requires other { IsOther response.now }
        ensures handled { (f : FoundOf) (args : List (Arg IdParts TokenParts)) (h : Handed) → IsHandled T.sends
            (response_to (around_of G.views around.now) (core_of self.old.part) (addressed_by front.now) response.now f args) self.old (message_result result h) self.new }
        ensures in_time { NotesInTime self.old.times numbers.old self.new.times numbers.new }
        ensures numbered { IsNumbered (Some self.old) → IsNumbered (Some self.new) }
    {
        match response {
            Response::Malformed => {
                let violation = front.violation(MessageFault::UnknownOpcode);
                MessageEnd::Ends(self.kill_for_malformed(numbers, violation))
            }
            Response::Breaks(breach) => MessageEnd::Ends(self.kill_for_breach(
                numbers, around, front, breach,
            )),
            Response::Registers(registry) => self.tell_globals(numbers, around, registry),
            Response::Syncs(_) | Response::HandsOut => unreachable!(),
        }
    }

    /// What it comes to if no message was taken.
    fn not_taken<G: GlobalHandler<C> + Drop>(
        &mut self,
        numbers: &mut NoteNumbers,
        around: &Surroundings<'_, G>,
        error: MessageParseError,
    ) -> MessageEnd
        requires live { Live self.old.part }
        requires not_taken { NotTaken around.now.protocol.now self.old.part.store self.old.part.link error }
        ensures handles { (r : ReadingOf) (h : Handed) → r.read ≤ 0xFFFFFFFFFFFFFFFF
            → HandlesMessage T.sends T.receives (around_of G.views around.now) self.old r (message_result result h) self.new r }
        ensures in_time { NotesInTime self.old.times numbers.old self.new.times numbers.new }
        ensures numbered { IsNumbered (Some self.old) → IsNumbered (Some self.new) }
    {
        match error {
            MessageParseError::MissingData | MessageParseError::MissingFD => MessageEnd::Lacks,
            MessageParseError::Malformed => {
                let violation = unread(around.protocol, &self.objects.map, &self.socket);
                MessageEnd::Ends(self.kill_for_malformed(numbers, violation))
            }
            MessageParseError::OutOfMemory => MessageEnd::Ends(NoAction {
                fault: IoFault::OutOfMemory,
                refused: true,
            }),
        }
    }
}
