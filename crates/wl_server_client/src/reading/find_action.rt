//! Finds the next action of a client: handles messages, and receives more if no whole message waits.

ghost use Rattle.std.specs.Prelude.{◌≤◌, Ok, Some, option_map};
ghost use Rattle.std.specs.Result.{result_and};
ghost use Rattle.wl_server_client.specs.Deeds.{handed};
ghost use Rattle.wl_server_client.specs.NoteTimes.{IsNumbered, NotesInTime};
ghost use Rattle.wl_server_client.specs.Reading.{NextAction, action_content};
ghost use Rattle.wl_server_client.specs.Inside.Client.{Does};
ghost use Rattle.wl_server_client.specs.Inside.ReadingLoop.{EndsAs, Fills, Live, Waited, around_of};

use crate::client::Client;
use crate::error::ActionError;
use crate::globals::handler::GlobalHandler;
use crate::notes::DisconnectReason;
use crate::notes::queues::NoteNumbers;
use crate::reading::Surroundings;
use crate::reading::action::{Action, MessageEnd, NoAction, Reading};
use wl_link::{MessagePlace, Transport};
use wl_wire::{INLINE_ARGS, IoFault, Message, Token};

impl<T: Transport + Drop, U: Drop, C: Drop> Client<T, U, C> {
    /// Reads the messages that wait, one after another, and does what each asks for. Returns `None` when no whole message
    /// waits any more. Returns `Some` when the reading is over: `Ok` if there is an action, or else the reason why there is
    /// none. The action is then in `action`; else what is in it is not said. Each message is read into `message`.
    fn handle_waiting<G: GlobalHandler<C> + Drop>(
        &mut self,
        numbers: &mut NoteNumbers,
        around: &Surroundings<'_, G>,
        reading: &mut Reading,
        message: &mut Message<u32, Token>,
        action: &mut Action,
    ) -> Option<Result<(), NoAction>>
        requires live { Live self.old.part }
        requires place { INLINE_ARGS ≤ message.old.args.capacity }
        ensures waited { Waited T.sends T.receives (around_of G.views around.now) self.old reading.old (option_map (λ r. result_and r (Ok (handed action.new))) result) self.new reading.new }
        ensures place { INLINE_ARGS ≤ message.new.args.capacity }
        ensures in_time { NotesInTime self.old.times numbers.old self.new.times numbers.new }
        ensures numbered { IsNumbered (Some self.old) → IsNumbered (Some self.new) }
    {
        // The count of requests starts within its type.
        prove!(reading.read <= usize::MAX);
        loop {
            match self.handle_message(numbers, around, reading, message, action) {
                MessageEnd::Continues => {}
                MessageEnd::Lacks => return None,
                MessageEnd::HandsOut => return Some(Ok(())),
                MessageEnd::Ends(end) => return Some(Err(end)),
            }
        }
    }

    /// Receives once. Returns why the reading ends, if it does. The client is killed with the reason `ConnectionClosed`
    /// by a fault other than `WouldBlock` and `OutOfMemory`.
    fn receive(&mut self, numbers: &mut NoteNumbers) -> Option<NoAction>
        ensures fills { Fills T.receives self.old result self.new }
        ensures in_time { NotesInTime self.old.times numbers.old self.new.times numbers.new }
        ensures numbered { IsNumbered (Some self.old) → IsNumbered (Some self.new) }
    {
        let Err(fault) = self.socket.fill_incoming_buffers() else {
            return None;
        };
        match fault {
            IoFault::WouldBlock => Some(NoAction {
                fault,
                refused: false,
            }),
            IoFault::OutOfMemory => Some(NoAction {
                fault,
                refused: true,
            }),
            _ => {
                self.kill(numbers, DisconnectReason::ConnectionClosed);
                Some(NoAction {
                    fault,
                    refused: false,
                })
            }
        }
    }

    /// Handles the messages that wait, and receives when no whole one is left, until there is an action or a reason why
    /// there is none. The action is then in `action`; else what is in it is not said. Each message is read into `message`.
    fn read<G: GlobalHandler<C> + Drop>(
        &mut self,
        numbers: &mut NoteNumbers,
        around: &Surroundings<'_, G>,
        reading: &mut Reading,
        message: &mut Message<u32, Token>,
        action: &mut Action,
    ) -> Result<(), NoAction>
        requires live { Live self.old.part }
        requires place { INLINE_ARGS ≤ message.old.args.capacity }
        ensures ends { EndsAs T.sends T.receives (around_of G.views around.now) self.old reading.old (result_and result (Ok (handed action.new))) self.new reading.new }
        ensures place { INLINE_ARGS ≤ message.new.args.capacity }
        ensures in_time { NotesInTime self.old.times numbers.old self.new.times numbers.new }
        ensures numbered { IsNumbered (Some self.old) → IsNumbered (Some self.new) }
    {
        // The count of requests starts within its type.
        prove!(reading.read <= usize::MAX);
        loop {
            if let Some(end) = self.handle_waiting(numbers, around, reading, message, action) {
                return end;
            }
            if reading.turns_left == 0 {
                return Err(NoAction {
                    fault: IoFault::WouldBlock,
                    refused: false,
                });
            }
            reading.turns_left -= 1;
            if let Some(end) = self.receive(numbers) {
                return Err(end);
            }
        }
    }

    /// Finds the next action of the client, if none is open and the client was not killed. The action is then in `action`,
    /// and stays open until it is finished; after an error what is in `action` is not said. Also returns whether memory ran out.
    pub fn find_action<G: GlobalHandler<C> + Drop>(
        &mut self,
        numbers: &mut NoteNumbers,
        around: &Surroundings<'_, G>,
        reading: &mut Reading,
        place: &mut MessagePlace,
        action: &mut Action,
    ) -> (Result<(), ActionError>, bool)
        ensures does { Does self.old (λ p did q. NextAction T.sends T.receives (around_of G.views around.now) reading.old p (action_content (result_and result.0 (Ok action.new))) reading.new result.1 did q) self.new }
        ensures in_time { NotesInTime self.old.times numbers.old self.new.times numbers.new }
        ensures numbered { IsNumbered (Some self.old) → IsNumbered (Some self.new) }
    {
        if self.action.is_open() {
            return (Err(ActionError::ActionOpen), false);
        }
        if self.is_killed {
            return (Err(ActionError::Io(IoFault::Pipe)), false);
        }
        let message = &mut place.message;
        if let Err(end) = self.read(numbers, around, reading, message, action) {
            return (Err(ActionError::Io(end.fault)), end.refused);
        }
        (Ok(()), false)
    }
}
