//! Reads the actions of a client, has the handler handle them and finishes them, until no more of them waits.

ghost use Rattle.std.specs.Prelude.{◌≡◌, ◌||◌, List};
ghost use Rattle.wl_server_model.specs.Dispatch.{Handles, answering, dispatched, fault_of_end, fault_of_reading};
ghost use Rattle.wl_server_model.specs.Inside.Dispatching.{MakesAllRounds, MakesRound, MakesRounds};
ghost use Rattle.wl_server_model.specs.PartStep.{over};
ghost use Rattle.wl_server_model.specs.Steps.{Entry};

use crate::backend::Backend;
use crate::dispatch::request_handler::Handler;
use wl_link::Transport;
use wl_server_client::error::{ActionError, FinishError};
use wl_server_client::globals::handler::GlobalHandler;
use wl_server_client::ids::client_id::ClientId;
use wl_server_client::reading::action::{Action, Reading};
use wl_wire::IoFault;

/// The fault with which a dispatch ends if no action is handed out.
fn fault_of_reading(error: ActionError) -> IoFault
    ensures { result ≡ fault_of_reading error }
{
    match error {
        ActionError::Io(fault) => fault,
        ActionError::ActionOpen => IoFault::InvalidInput,
    }
}

/// The fault with which a dispatch ends if an action cannot be finished.
fn fault_of_end(error: FinishError) -> IoFault
    ensures { result ≡ fault_of_end error }
{
    match error {
        FinishError::OutOfMemory => IoFault::OutOfMemory,
        _ => IoFault::InvalidInput,
    }
}

/// What a dispatch returns that ended with this fault, after so many requests were read.
fn answer_of(fault: IoFault, read: usize) -> Result<usize, IoFault>
    ensures { result ≡ dispatched fault read }
{
    match fault {
        IoFault::WouldBlock if read > 0 => Ok(read),
        _ => Err(fault),
    }
}

impl<T: Transport + Drop, U: Drop, G: GlobalHandler<C> + Drop, C: Drop> Backend<T, U, G, C> {
    /// Calls the handler with the action, and finishes the action with its answer. Returns the error if that is refused. The
    /// handler may take the action's arguments out.
    fn handle<H: Handler<T, U, G, C>>(
        &mut self,
        handler: &mut H,
        id: &ClientId,
        action: &mut Action,
    ) -> Option<FinishError>
        ensures { (run : List (Entry T U G C)) × Handles (over T.sends T.receives G.views) (answering H.requests H.binds) id.now handler.old self.old action.old run self.new.refused result handler.new self.new.server }
    {
        match action {
            Action::Request {
                sender,
                opcode,
                args,
                created,
                is_destructor: _,
            } => {
                let user_data = handler.request_lent(self, id, *sender, *opcode, args, *created);
                match self.finish_request(id, user_data) {
                    Ok(()) => None,
                    Err(refused) => Some(refused.error),
                }
            }
            Action::Bind { global, object } => {
                let user_data = handler.bind(self, id, *global, *object);
                match self.finish_bind(id, user_data) {
                    Ok(()) => None,
                    Err(refused) => Some(refused.error),
                }
            }
            // No handler is called with a registry. It is not ended as a request is, so this is refused, and it stays open.
            Action::Registry { .. } => match self.finish_request(id, None) {
                Ok(()) => None,
                Err(refused) => Some(refused.error),
            },
        }
    }

    /// Sets `memory_refused` to whether memory ran out before or in the last call.
    pub(crate) fn keep_refused(&mut self, before: bool)
        ensures { self.new ≡ record self.old { refused = before || self.old.refused } }
    {
        self.refused = before | self.refused;
    }

    /// Reads the client's next action into `action`, and handles it. Returns the fault that ends the dispatch, if one does.
    /// Afterwards `memory_refused` tells of all calls of the dispatch so far.
    fn serve_action<H: Handler<T, U, G, C>>(
        &mut self,
        handler: &mut H,
        id: &ClientId,
        reading: &mut Reading,
        action: &mut Action,
    ) -> Option<IoFault>
        ensures { MakesRound (over T.sends T.receives G.views) (answering H.requests H.binds) id.now handler.old reading.old self.old result handler.new reading.new self.new }
    {
        let mut refused = self.memory_refused();
        if let Err(error) = self.next_action_within_into(id, reading, action) {
            self.keep_refused(refused);
            return Some(fault_of_reading(error));
        }
        refused |= self.memory_refused();
        let why = self.handle(handler, id, action);
        self.keep_refused(refused);
        match why {
            None => None,
            Some(error) => Some(fault_of_end(error)),
        }
    }

    /// Reads and handles the client's actions until a receive was made. Returns the fault that ends the dispatch before
    /// that, if one does. Each action is read into `action`.
    fn serve_some<H: Handler<T, U, G, C>>(
        &mut self,
        handler: &mut H,
        id: &ClientId,
        reading: &mut Reading,
        action: &mut Action,
    ) -> Option<IoFault>
        ensures { MakesRounds (over T.sends T.receives G.views) (answering H.requests H.binds) id.now handler.old reading.old self.old result handler.new reading.new self.new }
    {
        let left = reading.turns_left;
        // This loop ends since bytes get fewer, and that of `serve` since receives do. A receive brings bytes, so it ends this one.
        loop {
            if let Some(fault) = self.serve_action(handler, id, reading, action) {
                return Some(fault);
            }
            if reading.turns_left < left {
                return None;
            }
        }
    }

    /// Reads and handles the client's actions, until none is handed out or one cannot be finished. Returns what the
    /// dispatch of this client returns if the cleanup succeeds.
    pub(crate) fn serve<H: Handler<T, U, G, C>>(
        &mut self,
        handler: &mut H,
        id: &ClientId,
    ) -> Result<usize, IoFault>
        ensures { MakesAllRounds (over T.sends T.receives G.views) (answering H.requests H.binds) id.now handler.old self.old result handler.new self.new }
    {
        let mut reading = Reading::new();
        // One place serves all actions: requests are written into it, and lent to the handler.
        let mut action = Action::none(self.alloc());
        loop {
            if let Some(fault) = self.serve_some(handler, id, &mut reading, &mut action) {
                return answer_of(fault, reading.read);
            }
        }
    }
}
