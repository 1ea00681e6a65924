//! What is still to be done for a request that was handled, and how it is done: the client is written to, or killed.

ghost use Rattle.std.specs.Prelude.{◌≡◌, ◌∷◌, [], false, Err, IfOk, MatchResult, Some};
ghost use Rattle.wl_wire.specs.declared.error.IoFault.TheVariants as io;
ghost use Rattle.wl_link.specs.Puts.{lacks_memory};
ghost use Rattle.wl_server_client.specs.NoteTimes.{IsNumbered, NotesInTime};
ghost use Rattle.wl_server_client.specs.declared.notes.DisconnectReason.TheVariants.{ConnectionClosed};
ghost use Rattle.wl_server_client.specs.declared.reading.action.MessageEnd.TheVariants as came;
ghost use Rattle.wl_server_client.specs.Inside.Client.{Does};
ghost use Rattle.wl_server_client.specs.Deeds.{Handed, Remembered};
ghost use Rattle.wl_server_client.specs.Globals.{shown};
ghost use Rattle.wl_server_client.specs.Part.{id_of};
ghost use Rattle.wl_server_client.specs.Reading.{breaks, garbled, replies};
ghost use Rattle.wl_server_client.specs.Inside.Responses.{HasName, addressed_by, code_of, fault_of, text_of};
ghost use Rattle.wl_server_client.specs.Violations.{violation};
ghost use Rattle.wl_server_client.specs.Telling.{Kills, core_of, deletions, done_message, introductions};
ghost use Rattle.wl_server_client.specs.Inside.ReadingLoop.{Ended, IsHandled, Live, around_of, message_result};

use crate::client::Client;
use crate::events::own_events::put_done;
use crate::globals::handler::GlobalHandler;
use crate::globals::new_registry::put_globals;
use crate::ids::object_id::ObjectId;
use crate::notes::DisconnectReason;
use crate::notes::queues::NoteNumbers;
use crate::posted_errors::{bind_text, fault_text, limit_text, new_id_text, since_text};
use crate::reading::Surroundings;
use crate::reading::action::{MessageEnd, NoAction};
use crate::reading::front_request::FrontRequest;
use crate::reading::violation::{MessageFault, Violation};
use std::alloc::Global;
use wl_link::Transport;
use wl_wire::{
    CString, DISPLAY, InterfaceId, IoFault, Message, MessageDesc, OutOfMemory, Protocol, Token,
    WL_DISPLAY_INTERFACE,
};

/// Why an argument of a request is wrong. The client is killed for it.
#[derive(Clone, Copy, Debug)]
pub enum RequestFault {
    /// The client may not make an object with the number of a new id.
    InvalidNewId(u32),
    /// An object argument has a number that no object has.
    UnknownId(u32),
    /// An object argument has a wrong interface: the number, the interface asked for, and the object's interface.
    WrongInterface(u32, InterfaceId, InterfaceId),
    /// An object argument is null, and the signature does not allow that.
    NullObject,
}

/// How a client broke the protocol by a request.
#[derive(Drop)]
pub enum Breach<'p, 'm> {
    /// It may not make an object with this number, which is the argument at this place.
    InvalidNewId(usize, u32),
    /// The client may not bind the global of this name in this way. The other two values are the version and the name of
    /// the interface that were asked for.
    RefusedBind(u32, u32, &'m Option<CString>),
    /// The object's version does not have the request: the opcode, the version, the least version that has it, and the
    /// object's interface and number.
    SinceLater(u16, u32, u32, InterfaceId, u32),
    /// It would make an object at a number above this limit.
    TooManyObjects(u32),
    /// The argument at this place of a request of this interface is wrong.
    WrongArgument(InterfaceId, &'p MessageDesc, usize, RequestFault),
}

impl Breach<'_, '_> {
    /// What was wrong with the message.
    fn fault(&self) -> MessageFault
        ensures { result ≡ fault_of self.now }
    {
        match self {
            Breach::InvalidNewId(place, number) => {
                MessageFault::WrongArgument(*place, RequestFault::InvalidNewId(*number))
            }
            Breach::RefusedBind(global, version, interface) => {
                MessageFault::RefusedBind {
                    global: *global,
                    version: *version,
                    has_name: interface.is_some(),
                }
            }
            Breach::SinceLater(_, version, since, _, _) => MessageFault::SinceLater {
                version: *version,
                since: *since,
            },
            Breach::TooManyObjects(limit) => MessageFault::TooManyObjects(*limit),
            Breach::WrongArgument(_, _, place, fault) => MessageFault::WrongArgument(
                *place, *fault,
            ),
        }
    }
}

/// What is still to be done for a request after it changed the client's objects.
#[derive(Drop)]
pub enum Response<'p, 'm> {
    /// The client may not send it, and is killed with the reason `ConnectionClosed`.
    Malformed,
    /// The client broke the protocol.
    Breaks(Breach<'p, 'm>),
    /// It was a `sync`, and its callback is already removed. The client is told that the callback is done.
    Syncs(ObjectId),
    /// A registry was made. It is to be told of the globals.
    Registers(ObjectId),
    /// An action was found, and is handed out. It is open from then on.
    HandsOut,
}

/// The code and the text of the error that is posted for a breach of the protocol.
#[cold]
#[inline(never)]
fn breach_error(
    alloc: Global,
    protocol: &Protocol,
    breach: &Breach<'_, '_>,
) -> Result<(u32, CString), OutOfMemory>
    requires { HasName breach.now }
    ensures code { IfOk result (λ error. error.0 ≡ code_of breach.now) }
    ensures text { IfOk result (λ error. error.1 ≡ text_of protocol.now breach.now) }
{
    match breach {
        Breach::InvalidNewId(_, number) => Ok((0, new_id_text(alloc, *number)?)),
        Breach::RefusedBind(global, version, interface) => {
            Ok((0, bind_text(alloc, interface, *version, *global)?))
        }
        Breach::SinceLater(opcode, version, since, interface, number) => {
            let text = since_text(
                alloc, protocol, *opcode, *version, *since, *interface, *number,
            )?;
            Ok((1, text))
        }
        Breach::TooManyObjects(limit) => Ok((2, limit_text(alloc, *limit)?)),
        Breach::WrongArgument(interface, desc, _, wrong) => {
            Ok((0, fault_text(alloc, protocol, *interface, desc, wrong)?))
        }
    }
}

impl<T: Transport + Drop, U: Drop, C: Drop> Client<T, U, C> {
    /// Kills the client with the reason `ConnectionClosed`, because it sent bytes that are no message that it may send. How
    /// they broke the protocol is kept.
    #[cold]
    #[inline(never)]
    pub fn kill_for_malformed(
        &mut self,
        numbers: &mut NoteNumbers,
        violation: Violation,
    ) -> NoAction
        ensures handled { IsHandled T.sends (garbled (core_of self.old.part) violation) self.old (Ended result) self.new }
        ensures in_time { NotesInTime self.old.times numbers.old self.new.times numbers.new }
        ensures numbered { IsNumbered (Some self.old) → IsNumbered (Some self.new) }
    {
        self.violation = Some(violation);
        self.kill(numbers, DisconnectReason::ConnectionClosed);
        NoAction {
            fault: IoFault::Proto,
            refused: false,
        }
    }

    /// Kills a live client that broke the protocol by a request to this object: keeps how it did so, and posts that as an
    /// error on its display. If there is no memory for the text, the client is killed with the reason `ConnectionClosed`.
    #[cold]
    #[inline(never)]
    pub fn kill_for_breach<G: GlobalHandler<C>>(
        &mut self,
        numbers: &mut NoteNumbers,
        around: &Surroundings<'_, G>,
        front: &FrontRequest<'_>,
        breach: &Breach<'_, '_>,
    ) -> NoAction
        requires live { self.old.part.is_killed ≡ false }
        requires name { HasName breach.now }
        ensures handled { IsHandled T.sends (breaks (around_of G.views around.now) (core_of self.old.part) (violation (addressed_by front.now) (fault_of breach.now)) (code_of breach.now) (text_of around.now.protocol.now breach.now)) self.old (Ended result) self.new }
        ensures in_time { NotesInTime self.old.times numbers.old self.new.times numbers.new }
        ensures numbered { IsNumbered (Some self.old) → IsNumbered (Some self.new) }
    {
        self.violation = Some(front.violation(breach.fault()));
        let alloc = self.alloc();
        let Ok((code, text)) = breach_error(alloc, around.protocol, breach) else {
            let refused = self.kill_unless_written(numbers, Err(IoFault::OutOfMemory));
            return NoAction {
                fault: IoFault::Pipe,
                refused,
            };
        };
        let display = ObjectId::from_parts(DISPLAY, 0, around.client, WL_DISPLAY_INTERFACE);
        let refused = self.tell_error_and_kill(around.protocol, numbers, &display, code, text);
        NoAction {
            fault: IoFault::Pipe,
            refused,
        }
    }

    /// What the handling of a request comes to after the answer was written, with this result. If the write failed, the
    /// client is killed.
    pub fn kill_unless_answered(
        &mut self,
        numbers: &mut NoteNumbers,
        wrote: Result<(), IoFault>,
    ) -> MessageEnd
        ensures replied { MatchResult wrote
            (λ _. (result ≡ came.Continues) × (self.new ≡ self.old))
            (λ f. (result ≡ came.Ends (record { fault = io.Pipe; refused = lacks_memory (Err f) }))
            × Does self.old (λ p did q. Kills p ConnectionClosed did q) self.new) }
        ensures in_time { NotesInTime self.old.times numbers.old self.new.times numbers.new }
        ensures numbered { IsNumbered (Some self.old) → IsNumbered (Some self.new) }
    {
        if wrote.is_ok() {
            return MessageEnd::Continues;
        }
        let refused = self.kill_unless_written(numbers, wrote);
        MessageEnd::Ends(NoAction {
            fault: IoFault::Pipe,
            refused,
        })
    }

    /// Tells a new registry of a live client of the globals.
    pub fn tell_globals<G: GlobalHandler<C> + Drop>(
        &mut self,
        numbers: &mut NoteNumbers,
        around: &Surroundings<'_, G>,
        registry: &ObjectId,
    ) -> MessageEnd
        requires { Live self.old.part }
        ensures handled { (h : Handed) → IsHandled T.sends
            (replies (core_of self.old.part) (introductions around.now.protocol.now (id_of registry.now) 0 (shown G.views (around_of G.views around.now).globals around.now.client self.old.part.client_data))
            (Remembered (id_of registry.now) ∷ [])) self.old (message_result result h) self.new }
        ensures in_time { NotesInTime self.old.times numbers.old self.new.times numbers.new }
        ensures numbered { IsNumbered (Some self.old) → IsNumbered (Some self.new) }
    {
        let alloc = self.alloc();
        let wrote = put_globals(alloc, &mut self.socket, around, &self.data, registry);
        self.kill_unless_answered(numbers, wrote)
    }

    /// Tells a live client that its callback is done, and that the callback's number is free again if it is one of the
    /// client's own. The callback is already removed. If a write fails, the client is killed. `message` is overwritten with
    /// what the client is told.
    pub fn tell_done(
        &mut self,
        numbers: &mut NoteNumbers,
        message: &mut Message<u32, Token>,
        callback: &ObjectId,
    ) -> MessageEnd
        requires { Live self.old.part }
        ensures handled { (h : Handed) → IsHandled T.sends
            (replies (core_of self.old.part) (done_message (id_of callback.now) ∷ deletions callback.now.number) [])
            self.old (message_result result h) self.new }
        ensures in_time { NotesInTime self.old.times numbers.old self.new.times numbers.new }
        ensures numbered { IsNumbered (Some self.old) → IsNumbered (Some self.new) }
    {
        let wrote = put_done(message, &mut self.socket, callback.protocol_id());
        self.kill_unless_answered(numbers, wrote)
    }
}
