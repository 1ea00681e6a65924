//! The calls that read the next action of a client, by value or into an action that the program lends.

ghost use Rattle.std.specs.Prelude.{◌≡◌, [], Ok, OnErr};
ghost use Rattle.std.specs.Result.{result_and};
ghost use Rattle.wl_server_model.specs.Backend.{Calls};
ghost use Rattle.wl_server_model.specs.Cutting.{CallIsCut};
ghost use Rattle.wl_server_model.specs.PartStep.{Asked, over};
ghost use Rattle.wl_server_model.specs.Plain.Reading.{ReadsClient, ReadsWithin};
ghost use Rattle.wl_server_client.specs.Deeds.{arguments_in};
ghost use Rattle.wl_server_client.specs.Reading.{new_reading};
ghost use Rattle.wl_server_model.specs.ReadingEnds.{EndsForAReason};
ghost use Rattle.wl_server_model.specs.Room.{HasRoom};
ghost use Rattle.wl_server_client.specs.declared.reading.action.Reading.{Reading as ReadingOf};
ghost use Rattle.wl_server_model.specs.declared.step.Reply.TheVariants as reply;
ghost use Rattle.wl_server_model.specs.declared.step.Step.TheVariants as step;

use crate::backend::Backend;
use crate::client::stored::stored_mut;
use wl_link::Transport;
use wl_server_client::error::ActionError;
use wl_server_client::globals::handler::GlobalHandler;
use wl_server_client::ids::client_id::ClientId;
use wl_server_client::reading::Surroundings;
use wl_server_client::reading::action::{Action, Reading};
use wl_wire::IoFault;

impl<T: Transport + Drop, U: Drop, G: GlobalHandler<C> + Drop, C: Drop> Backend<T, U, G, C> {
    /// Reads the next action of the client. It is open until `finish_request` or `finish_bind` ends it.
    ///
    /// An *action* is a request or a bind that the program has to do something about. Some requests the server answers by
    /// itself: `sync`, `get_registry`, and those that break the protocol. With `hand_out_registries`, `get_registry` is an
    /// action, too. The call receives from the client's transport at most 64 times.
    ///
    /// # Errors
    ///
    /// They are looked for in this order:
    ///
    /// - `Io(InvalidInput)`: the client is not stored.
    /// - `ActionOpen`: an action of the client is open.
    /// - `Io(Pipe)`: the client was killed.
    ///
    /// Then the reading may end with one of these:
    ///
    /// - `Io(Proto)`: the client sent bytes that are no message that it may send. The client is killed.
    /// - `Io(Pipe)`: the client broke the protocol in another way, or could not be told something. The client is killed.
    /// - `Io(WouldBlock)`: the transport would block, or no whole message waits after the last receive.
    /// - `Io(OutOfMemory)`: there is no memory for the message at the front or for a receive.
    /// - `Io` with any other fault: a receive was answered by this fault. The client is killed.
    ///
    /// After `Io(WouldBlock)` and `Io(OutOfMemory)` what was handled stays handled, and the next call reads what waits.
    ///
    /// # What is promised
    ///
    /// A message always has room in the incoming buffer if it is no longer than the client's limit or 65536 bytes, whichever
    /// is less, and its tokens come no later than its last byte. A *token* stands for a file descriptor. So such a message
    /// never kills the client because the buffer is full.
    ///
    /// If each receive brings a byte or would block, and memory does not run out, it does not matter how bytes and tokens
    /// were cut into receives.
    ///
    /// Which message an action is of, or why there is none, is said by `laws::each_reading_ends_for_a_reason` (clause
    /// `reason`), if the client was live and had no open action.
    pub fn next_action(&mut self, id: &ClientId) -> Result<Action, ActionError>
        ensures call { Calls (over T.sends T.receives G.views) self.old (step.NextAction id.now) (reply.NextAction result) self.new }
        ensures plain { ReadsClient self.old id.now result self.new }
        ensures reason { (left : ReadingOf) × EndsForAReason (over T.sends T.receives G.views) self.old id.now new_reading result left self.new }
        ensures cutting { CallIsCut (over T.sends T.receives G.views) self.old.server (Asked (step.NextAction id.now) (reply.NextAction result)) self.new.refused self.new.server }
        ensures room { HasRoom (over T.sends T.receives G.views) self.old.server (Asked (step.NextAction id.now) (reply.NextAction result)) self.new.server }
    {
        let mut action = Action::none(self.alloc());
        self.next_action_into(id, &mut action)?;
        Ok(action)
    }

    /// Reads the next action of the client, as `next_action` does, and receives at most as often as `reading` allows.
    ///
    /// `reading` then has the number of receives that are left. Its count of requests that were read is increased by
    /// those that this call read. The errors are those of `next_action`.
    pub fn next_action_within(
        &mut self,
        id: &ClientId,
        reading: &mut Reading,
    ) -> Result<Action, ActionError>
        ensures call { Calls (over T.sends T.receives G.views) self.old (step.NextActionWithin id.now reading.old) (reply.NextActionWithin result reading.new) self.new }
        ensures plain { ReadsWithin self.old id.now reading.old result reading.new self.new }
        ensures reason { EndsForAReason (over T.sends T.receives G.views) self.old id.now reading.old result reading.new self.new }
        ensures cutting { CallIsCut (over T.sends T.receives G.views) self.old.server (Asked (step.NextActionWithin id.now reading.old) (reply.NextActionWithin result reading.new)) self.new.refused self.new.server }
        ensures room { HasRoom (over T.sends T.receives G.views) self.old.server (Asked (step.NextActionWithin id.now reading.old) (reply.NextActionWithin result reading.new)) self.new.server }
    {
        let mut action = Action::none(self.alloc());
        self.next_action_within_into(id, reading, &mut action)?;
        Ok(action)
    }

    /// Reads the next action of the client into `action`, as `next_action` answers it. What was there is dropped. A program
    /// that keeps one action hands it in again and again.
    ///
    /// The errors are those of `next_action`. After an error `action` has no arguments.
    pub fn next_action_into(
        &mut self,
        id: &ClientId,
        action: &mut Action,
    ) -> Result<(), ActionError>
        ensures call { Calls (over T.sends T.receives G.views) self.old (step.NextAction id.now) (reply.NextAction (result_and result (Ok action.new))) self.new }
        ensures plain { ReadsClient self.old id.now (result_and result (Ok action.new)) self.new }
        ensures reason { (left : ReadingOf) × EndsForAReason (over T.sends T.receives G.views) self.old id.now new_reading (result_and result (Ok action.new)) left self.new }
        ensures cutting { CallIsCut (over T.sends T.receives G.views) self.old.server (Asked (step.NextAction id.now) (reply.NextAction (result_and result (Ok action.new)))) self.new.refused self.new.server }
        ensures room { HasRoom (over T.sends T.receives G.views) self.old.server (Asked (step.NextAction id.now) (reply.NextAction (result_and result (Ok action.new)))) self.new.server }
        ensures empty { OnErr result (arguments_in action.new ≡ []) }
    {
        let mut reading = Reading::new();
        self.read_client(id, &mut reading, action)
    }

    /// Reads the next action of the client into `action`, as `next_action_within` answers it. What was there is dropped.
    ///
    /// The errors are those of `next_action`. After an error `action` has no arguments.
    pub fn next_action_within_into(
        &mut self,
        id: &ClientId,
        reading: &mut Reading,
        action: &mut Action,
    ) -> Result<(), ActionError>
        ensures call { Calls (over T.sends T.receives G.views) self.old (step.NextActionWithin id.now reading.old) (reply.NextActionWithin (result_and result (Ok action.new)) reading.new) self.new }
        ensures plain { ReadsWithin self.old id.now reading.old (result_and result (Ok action.new)) reading.new self.new }
        ensures reason { EndsForAReason (over T.sends T.receives G.views) self.old id.now reading.old (result_and result (Ok action.new)) reading.new self.new }
        ensures cutting { CallIsCut (over T.sends T.receives G.views) self.old.server (Asked (step.NextActionWithin id.now reading.old) (reply.NextActionWithin (result_and result (Ok action.new)) reading.new)) self.new.refused self.new.server }
        ensures room { HasRoom (over T.sends T.receives G.views) self.old.server (Asked (step.NextActionWithin id.now reading.old) (reply.NextActionWithin (result_and result (Ok action.new)) reading.new)) self.new.server }
        ensures empty { OnErr result (arguments_in action.new ≡ []) }
    {
        self.read_client(id, reading, action)
    }

    /// Reads the client into `action`. After an error `action` has no arguments.
    fn read_client(
        &mut self,
        id: &ClientId,
        reading: &mut Reading,
        action: &mut Action,
    ) -> Result<(), ActionError>
        ensures fresh { reading.old ≡ new_reading
            → Calls (over T.sends T.receives G.views) self.old (step.NextAction id.now) (reply.NextAction (result_and result (Ok action.new))) self.new }
        ensures within { Calls (over T.sends T.receives G.views) self.old (step.NextActionWithin id.now reading.old)
            (reply.NextActionWithin (result_and result (Ok action.new)) reading.new) self.new }
        ensures empty { OnErr result (arguments_in action.new ≡ []) }
    {
        self.refused = false;
        let Some(client) = stored_mut(&mut self.clients, &mut self.touched, id) else {
            action.drop_arguments();
            return Err(ActionError::Io(IoFault::InvalidInput));
        };
        let around = Surroundings {
            protocol: &self.protocol,
            globals: &self.globals,
            client: *id,
            object_limit: self.object_limit,
            hands_registries: self.hands_registries,
        };
        let (answer, refused) = client.find_action(
            &mut self.numbers,
            &around,
            reading,
            &mut self.place,
            action,
        );
        self.refused = refused;
        let Err(error) = answer else {
            return Ok(());
        };
        action.drop_arguments();
        Err(error)
    }
}
