//! A *reading*: handles messages, and receives more if none is complete.

ghost use Rattle.std.specs.Prelude.{◌≡◌, ◌≤◌, Ok, MatchBool, OnErr, option_map};
ghost use Rattle.std.specs.Result.{result_and};
ghost use Rattle.wl_client.specs.Accounts.{Calls};
ghost use Rattle.wl_client.specs.Cutting.{CutsReading};
ghost use Rattle.wl_client.specs.Plain.{ReadsEvent};
ghost use Rattle.wl_client.specs.Reading.{EndsWithRoom, NextEvent, ReadsTo, event_content};
ghost use Rattle.wl_client.specs.ReadingEnds.{EndsForAReason};
ghost use Rattle.wl_client.specs.Requests.{session_content};
ghost use Rattle.wl_client.specs.Inside.ReadingLoop.{Live, ReceivedTo, Waited, event_answer, event_refused, with_event};
ghost use Rattle.wl_client.specs.Steps.{CallOf};
ghost use Rattle.wl_client.specs.declared.step.Reply.TheVariants as reply;
ghost use Rattle.wl_client.specs.declared.step.Step.TheVariants as step;

use crate::backend::Backend;
use crate::error::{EventError, WaylandError};
use crate::message::{MessageEnd, NoEvent};
use crate::object_id::ObjectId;
use smallvec::SmallVec;
use wl_link::Transport;
use wl_wire::{INLINE_ARGS, IoFault, Message, Token};

/// How many receives a reading makes at most.
pub const READ_TURNS: u32 = 64;

impl<T: Transport + Drop, U: Drop> Backend<T, U> {
    /// Handles messages until the reading ends, or no message is complete (`None`). If there is an event to hand out, it is
    /// in `event` then.
    fn handle_waiting(
        &mut self,
        event: &mut Message<ObjectId, Token>,
    ) -> Option<Result<(), NoEvent>>
        requires live { Live self.old.session }
        requires inline { INLINE_ARGS ≤ event.old.args.capacity }
        ensures waited { Waited T.sends T.receives self.old.session (option_map (λ ended. with_event ended event.new) result) self.new.session }
        ensures inline { INLINE_ARGS ≤ event.new.args.capacity }
    {
        loop {
            match self.handle_message(event) {
                MessageEnd::Continues => {}
                MessageEnd::Lacks => return None,
                MessageEnd::Event => return Some(Ok(())),
                MessageEnd::Ends(end) => return Some(Err(end)),
            }
        }
    }

    /// Receives once. Returns why the reading ends, if it does.
    fn receive(&mut self) -> Option<NoEvent>
        requires { Live self.old.session }
        ensures { ReceivedTo T.sends T.receives self.old.session result self.new.session }
    {
        let Err(fault) = self.socket.fill_incoming_buffers() else {
            return None;
        };
        match fault {
            IoFault::WouldBlock => Some(NoEvent {
                error: EventError::WouldBlock,
                refused: false,
            }),
            IoFault::OutOfMemory => Some(NoEvent {
                error: EventError::OutOfMemory,
                refused: true,
            }),
            _ => {
                self.error = Some(WaylandError::Io(fault));
                Some(NoEvent {
                    error: EventError::Failed,
                    refused: false,
                })
            }
        }
    }

    /// Reads and returns the next event. It is *open* until `finish_event` ends it.
    ///
    /// It takes the place of `ReadEventsGuard::read` and `ObjectData::event` of `wayland_backend::client`. The session
    /// handles events of the display by itself. It drops events for an object that the client has destroyed. The errors
    /// are, in this order:
    ///
    /// - `Failed` if the session has an error;
    /// - `EventOpen` if an event is open;
    /// - `Failed` if the session gets an error now: the transport failed, the server closed the connection, sent an error,
    ///   or broke the protocol;
    /// - `WouldBlock` if the transport can receive no more now, or if no message is complete after 64 receives;
    /// - `OutOfMemory` if there was no memory.
    ///
    /// After `WouldBlock` and `OutOfMemory` what was handled stays handled, and the next call reads what waits.
    ///
    /// It does not matter how bytes and tokens are cut into receives: the events are the same as if they had all come at
    /// once.
    ///
    /// A message does not end the session by a full buffer, if it is no longer than the limit or 65536 bytes, whichever is
    /// less, and its tokens come no later than its last byte.
    ///
    /// Which message an event is of, or why there is none, is said by `laws::each_reading_ends_for_a_reason` (clause `reason`), if
    /// the session had no error and no open event.
    pub fn next_event(&mut self) -> Result<Message<ObjectId, Token>, EventError>
        ensures call { Calls (CallOf T.sends T.receives) self.old step.NextEvent (reply.NextEvent result) self.new }
        ensures plain { ReadsEvent self.old.session (event_content result) self.new.session }
        ensures reason { EndsForAReason T.sends T.receives self.old.session (event_content result) self.new.refused self.new.session }
        ensures read { NextEvent T.sends T.receives self.old.session (event_content result) self.new.refused self.new.session }
        ensures cutting { CutsReading T.sends T.receives self.old.session (event_content result) self.new.refused self.new.session }
        ensures room { EndsWithRoom self.old.session self.new.session }
    {
        let mut event = Message {
            sender_id: ObjectId::null(),
            opcode: 0,
            args: SmallVec::new(*self.notes.allocator()),
        };
        match self.read_next(&mut event) {
            Ok(()) => Ok(event),
            Err(error) => Err(error),
        }
    }

    /// Reads the next event into `event`, unless the session has an error or an event is open. After an error the content of
    /// `event` has no meaning.
    #[inline(always)]
    fn read_next(&mut self, event: &mut Message<ObjectId, Token>) -> Result<(), EventError>
        requires { INLINE_ARGS ≤ event.old.args.capacity }
        ensures { NextEvent T.sends T.receives self.old.session (event_content (result_and result (Ok event.new))) self.new.refused self.new.session }
    {
        self.refused = false;
        if self.error.is_some() {
            return Err(EventError::Failed);
        }
        if self.open_event.is_some() {
            return Err(EventError::EventOpen);
        }
        match self.read_event(event) {
            Ok(()) => {
                // The contract of `read_event` does not say what this field becomes.
                self.refused = false;
                Ok(())
            }
            Err(end) => {
                self.refused = end.refused;
                Err(end.error)
            }
        }
    }

    /// Reads the next event as `next_event` does, and puts it into `event`, whose arguments are dropped. The errors are those of
    /// `next_event`; after an error `event` is as it was.
    pub fn next_event_into(
        &mut self,
        event: &mut Message<ObjectId, Token>,
    ) -> Result<(), EventError>
        ensures call { Calls (CallOf T.sends T.receives) self.old step.NextEvent (reply.NextEvent (result_and result (Ok event.new))) self.new }
        ensures plain { ReadsEvent self.old.session (event_content (result_and result (Ok event.new))) self.new.session }
        ensures reason { EndsForAReason T.sends T.receives self.old.session (event_content (result_and result (Ok event.new))) self.new.refused self.new.session }
        ensures read { NextEvent T.sends T.receives self.old.session (event_content (result_and result (Ok event.new))) self.new.refused self.new.session }
        ensures cutting { CutsReading T.sends T.receives self.old.session (event_content (result_and result (Ok event.new))) self.new.refused self.new.session }
        ensures room { EndsWithRoom self.old.session self.new.session }
        ensures kept { OnErr result (event.new ≡ event.old) }
    {
        self.read_next_into(event)
    }

    /// Reads the next event and puts it into `event`, unless the session has an error or an event is open.
    fn read_next_into(&mut self, event: &mut Message<ObjectId, Token>) -> Result<(), EventError>
        ensures next { NextEvent T.sends T.receives self.old.session (event_content (result_and result (Ok event.new))) self.new.refused self.new.session }
        ensures kept { OnErr result (event.new ≡ event.old) }
    {
        // It is at least `INLINE_ARGS`, as that of each such list.
        let _capacity = event.args.capacity();
        if self.read_numbers(event) {
            return Ok(());
        }
        let mut next = Message {
            sender_id: ObjectId::null(),
            opcode: 0,
            args: SmallVec::new(*self.notes.allocator()),
        };
        match self.read_next(&mut next) {
            Ok(()) => {
                *event = next;
                Ok(())
            }
            Err(error) => Err(error),
        }
    }

    /// Reads the next event into `event`, if it waits and its arguments are at most four numbers. If not, or if the session has
    /// an error or an event is open, nothing is changed.
    fn read_numbers(&mut self, event: &mut Message<ObjectId, Token>) -> bool
        requires { INLINE_ARGS ≤ event.old.args.capacity }
        ensures { MatchBool result
            (NextEvent T.sends T.receives self.old.session (Ok (session_content event.new)) self.new.refused self.new.session)
            ((self.new ≡ self.old) × (event.new ≡ event.old)) }
    {
        if self.error.is_some() || self.open_event.is_some() {
            return false;
        }
        let Some(header) = self.socket.next_header() else {
            return false;
        };
        if !self.take_numbers(header, event) {
            return false;
        }
        self.refused = false;
        true
    }

    /// Handles messages and receives, until there is an event or no receive is left. If there is an event, it is in `event`
    /// then.
    fn read_event(&mut self, event: &mut Message<ObjectId, Token>) -> Result<(), NoEvent>
        requires live { Live self.old.session }
        requires inline { INLINE_ARGS ≤ event.old.args.capacity }
        ensures { ReadsTo T.sends T.receives self.old.session (event_answer (with_event result event.new)) (event_refused (with_event result event.new)) self.new.session }
    {
        for used in 0..READ_TURNS {
            if let Some(end) = self.handle_waiting(event) {
                return end;
            }
            if let Some(end) = self.receive() {
                return Err(end);
            }
        }
        if let Some(end) = self.handle_waiting(event) {
            return end;
        }
        Err(NoEvent {
            error: EventError::WouldBlock,
            refused: false,
        })
    }
}
