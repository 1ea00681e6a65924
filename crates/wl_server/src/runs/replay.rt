//! Carries out a list of calls over transports by script (`wl_link::Memory`).

ghost use Rattle.std.specs.Prelude.{◌≡◌, ◌++◌, Bool, List, [], true, false, IfOk, IfErr, IsOk, is_err, length};
ghost use Rattle.wl_link.specs.Runs.{AllSame, RunEntry, entries};
ghost use Rattle.wl_link.specs.Script.{Script};
ghost use Rattle.wl_server_model.specs.declared.step.Reply.{Reply};
ghost use Rattle.wl_server_model.specs.declared.step.Step.{Step};
ghost use Rattle.wl_server_model.specs.Backend.{Calls};
ghost use Rattle.wl_server_model.specs.Histories.{Extends, ExtendsUpTo};
ghost use Rattle.wl_server_model.specs.PartStep.{over_scripts};
ghost use Rattle.wl_server_model.specs.Inside.Performing.{IsOfAll, IsOfGlobals, IsOfObject, IsOfReading};
ghost use Rattle.wl_server_model.specs.Runs.{Performs, StopsAt};
ghost use Rattle.wl_server_model.specs.Server.{ServerState};
ghost use Rattle.wl_server_model.specs.Steps.{IsOfScript};
ghost use Rattle.wl_server_model.specs.Outcome.Whole.{SameServer, WholeReply};

use crate::backend::Backend;
use crate::runs::script::ScriptCall;
use wl_link::Memory;
use wl_server_client::globals::handler::GlobalHandler;
use wl_server_model::step::{Reply, Step, Stopped};

impl<U: Drop, G: GlobalHandler<C> + Drop, C: Drop> Backend<Memory, U, G, C> {
    /// Makes the call of a step that is about one object.
    fn perform_object(&mut self, step: Step<Memory, U, G, C>) -> Reply<Memory, U>
        requires { IsOfObject step }
        ensures { Calls (over_scripts G.views) self.old step result self.new }
    {
        match step {
            Step::SetObjectData(id, user_data) => {
                Reply::SetObjectData(self.set_object_data(&id, user_data))
            }
            Step::SetObjectVersion(id, version) => {
                Reply::SetObjectVersion(self.set_object_version(&id, version))
            }
            Step::CreateObject(client, interface, version, user_data) => {
                Reply::CreateObject(self.create_object(&client, interface, version, user_data))
            }
            Step::CreateObjectAt(client, interface, version, number, user_data) => {
                let answer = self.create_object_at(&client, interface, version, number, user_data);
                Reply::CreateObjectAt(answer)
            }
            Step::DestroyObject(id) => Reply::DestroyObject(self.destroy_object(&id)),
            Step::SendEvent(message) => Reply::SendEvent(self.send_event(message)),
            Step::PostError(id, code, message) => {
                self.post_error(&id, code, message);
                Reply::PostError
            }
            _ => unreachable!(),
        }
    }

    /// Makes the call of a step that reads a client, or finishes an action.
    fn perform_reading(&mut self, step: Step<Memory, U, G, C>) -> Reply<Memory, U>
        requires { IsOfReading step }
        ensures { Calls (over_scripts G.views) self.old step result self.new }
    {
        match step {
            Step::NextAction(client) => Reply::NextAction(self.next_action(&client)),
            Step::NextActionWithin(client, reading) => {
                let mut reading = reading;
                let answer = self.next_action_within(&client, &mut reading);
                Reply::NextActionWithin(answer, reading)
            }
            Step::FinishRequest(client, user_data) => {
                Reply::FinishRequest(self.finish_request(&client, user_data))
            }
            Step::FinishBind(client, user_data) => {
                Reply::FinishBind(self.finish_bind(&client, user_data))
            }
            _ => unreachable!(),
        }
    }

    /// Makes the call of a step that is about globals, or that kills a client or limits its buffers.
    fn perform_other(&mut self, step: Step<Memory, U, G, C>) -> Reply<Memory, U>
        requires { IsOfGlobals step }
        ensures { Calls (over_scripts G.views) self.old step result self.new }
    {
        match step {
            Step::CreateGlobal(interface, version, handler) => {
                Reply::CreateGlobal(self.create_global(interface, version, handler))
            }
            Step::DisableGlobal(global) => {
                self.disable_global(&global);
                Reply::DisableGlobal
            }
            Step::RemoveGlobal(global) => {
                self.remove_global(&global);
                Reply::RemoveGlobal
            }
            Step::KillClient(client, reason) => {
                self.kill_client(&client, reason);
                Reply::KillClient
            }
            Step::SetClientMaxBufferSize(client, max_buffer_size) => {
                self.set_client_max_buffer_size(&client, max_buffer_size);
                Reply::SetClientMaxBufferSize
            }
            _ => unreachable!(),
        }
    }

    /// Makes the call of a step that is about all clients, or that inserts one.
    fn perform_shared(&mut self, step: Step<Memory, U, G, C>) -> Reply<Memory, U>
        requires { IsOfAll step }
        ensures { Calls (over_scripts G.views) self.old step result self.new }
    {
        match step {
            Step::InsertClient(transport, client_data) => {
                Reply::InsertClient(self.insert_client(transport, client_data))
            }
            Step::Flush(client) => Reply::Flush(self.flush(client)),
            Step::SetDefaultMaxBufferSize(max_buffer_size) => {
                self.set_default_max_buffer_size(max_buffer_size);
                Reply::SetDefaultMaxBufferSize
            }
            Step::KeepGlobalNames(keep) => {
                self.keep_global_names(keep);
                Reply::KeepGlobalNames
            }
            Step::SetObjectLimit(limit) => {
                self.set_object_limit(limit);
                Reply::SetObjectLimit
            }
            Step::HandOutRegistries(hand_out) => {
                self.hand_out_registries(hand_out);
                Reply::HandOutRegistries
            }
            Step::Cleanup => Reply::Cleanup(self.cleanup()),
            Step::TakeNotes => Reply::TakeNotes(self.take_notes()),
            _ => unreachable!(),
        }
    }

    /// Makes the call of a step that is about a client's transport by script.
    fn perform_script(&mut self, step: Step<Memory, U, G, C>) -> Reply<Memory, U>
        requires { IsOfScript step }
        ensures { Calls (over_scripts G.views) self.old step result self.new }
    {
        match step {
            Step::Arrive(client, bytes, tokens) => {
                Reply::Arrive(self.script(&client, ScriptCall::Arrive(bytes, tokens)))
            }
            Step::ArriveFault(client, fault) => {
                Reply::ArriveFault(self.script(&client, ScriptCall::ArriveFault(fault)))
            }
            Step::Accept(client, count) => {
                Reply::Accept(self.script(&client, ScriptCall::Accept(count)))
            }
            Step::AcceptFault(client, fault) => {
                Reply::AcceptFault(self.script(&client, ScriptCall::AcceptFault(fault)))
            }
            Step::TakeSent(client) => Reply::TakeSent(self.take_sent(&client)),
            _ => unreachable!(),
        }
    }

    /// Makes the call of a step.
    fn perform(&mut self, step: Step<Memory, U, G, C>) -> Reply<Memory, U>
        ensures { Calls (over_scripts G.views) self.old step result self.new }
    {
        // One `match` over all steps is too large for the borrow checker, so each group of them has a function of its own.
        match step {
            Step::SetObjectData(..)
            | Step::SetObjectVersion(..)
            | Step::CreateObject(..)
            | Step::CreateObjectAt(..)
            | Step::DestroyObject(_)
            | Step::SendEvent(_)
            | Step::PostError(..) => self.perform_object(step),
            Step::NextAction(_)
            | Step::NextActionWithin(..)
            | Step::FinishRequest(..)
            | Step::FinishBind(..) => self.perform_reading(step),
            Step::CreateGlobal(..)
            | Step::DisableGlobal(_)
            | Step::RemoveGlobal(_)
            | Step::KillClient(..)
            | Step::SetClientMaxBufferSize(..) => self.perform_other(step),
            Step::Arrive(..)
            | Step::ArriveFault(..)
            | Step::Accept(..)
            | Step::AcceptFault(..)
            | Step::TakeSent(_) => self.perform_script(step),
            _ => self.perform_shared(step),
        }
    }

    /// Makes the calls of the steps, one after another, and puts their replies into the list, which is empty. It stops
    /// after the first step in which memory runs out. Room for the replies is allocated first.
    fn perform_all(
        &mut self,
        steps: &mut Vec<Step<Memory, U, G, C>>,
        replies: &mut Vec<Reply<Memory, U>>,
    )
        requires { replies.old.items ≡ [] }
        ensures none { steps.old.items ≡ [] → self.new.refused ≡ false }
        ensures made { self.new.refused ≡ false →
            Performs (over_scripts G.views) self.old.server (entries steps.old.items replies.new.items) self.new.server × (length replies.new.items ≡ length steps.old.items) }
        ensures stopped { self.new.refused ≡ true →
            StopsAt (over_scripts G.views) self.old.server steps.old.items (length replies.new.items) replies.new.items self.new.server }
    {
        let Ok(()) = replies.reserve_exact(steps.len()) else {
            self.refused = true;
            return;
        };
        // The steps are taken out from the end, so that the others need not be moved.
        steps.reverse();
        self.refused = false;
        while let Some(step) = steps.pop() {
            let reply = self.perform(step);
            if self.refused {
                drop(reply);
                return;
            }
            replies.push_reserved(reply);
        }
    }

    /// Makes the calls of the steps, one after another, and returns their replies.
    ///
    /// It stops at the first step in which memory runs out. Then the error `Stopped` has the index of that step and the
    /// replies to the steps before it. The later steps are dropped. Room for the replies is allocated first. If there is
    /// none, `Stopped` has index 0, and nothing was done. A list without steps never stops.
    ///
    /// # What is promised
    ///
    /// The steps are a run of calls like any other. So they may follow any history of the server: calls, changes of a
    /// client's transport by `transport_mut`, growths of the table, and other lists of steps. These laws of runs
    /// (`laws`) hold of the whole (clauses `history` and `stopped_history`):
    ///
    /// - Each client that was inserted since the server was made depends only on its own steps and on the shared ones.
    ///   Steps about other clients do not matter to it.
    /// - Each id of an object that was handed out names its own object and never a later one.
    /// - What a client's transport took is what was written for it.
    /// - What its registries announced is what it may see.
    /// - Each object that is gone and had user data has one note.
    /// - If bytes arrive for a client and its actions are read and finished, it does not matter how the bytes were cut
    ///   into arrivals.
    /// - The same steps on a server that looks the same to its program get the same replies, and leave a server that
    ///   looks the same, if neither stops. The order of notes may be left out of that (`ordered` is `false`).
    pub fn replay(
        &mut self,
        steps: Vec<Step<Memory, U, G, C>>,
    ) -> Result<Vec<Reply<Memory, U>>, Stopped<Memory, U>>
        ensures none { steps.items ≡ [] → IsOk result }
        ensures count { IfOk result (λ replies. length replies.items ≡ length steps.items) }
        ensures steps { IfOk result (λ replies. Performs (over_scripts G.views) self.old.server (entries steps.items replies.items) self.new.server) }
        ensures joined { IfOk result (λ replies. (begun : ServerState Script U G C) (run : List (RunEntry (Step Script U G C) (Reply Script U))) →
            Performs (over_scripts G.views) begun run self.old.server →
            Performs (over_scripts G.views) begun (run ++ entries steps.items replies.items) self.new.server) }
        ensures history { IfOk result (λ replies. Extends G.views self.old.server (entries steps.items replies.items) self.new.server) }
        ensures outcome { IfOk result (λ replies. (ordered : Bool) (same other : ServerState Script U G C) (others : List (Reply Script U)) →
            SameServer ordered self.old.server same → length others ≡ length steps.items →
            Performs (over_scripts G.views) same (entries steps.items others) other →
            AllSame (WholeReply ordered) replies.items others × SameServer ordered self.new.server other) }
        ensures stopped_history { IfErr result (λ stopped. ExtendsUpTo G.views self.old.server steps.items stopped.replies.items self.new.server) }
        ensures stopped { IfErr result (λ stopped. StopsAt (over_scripts G.views) self.old.server steps.items stopped.step stopped.replies.items self.new.server) }
        ensures refused { self.new.refused ≡ is_err result }
    {
        let mut steps = steps;
        let mut replies = Vec::new(self.alloc());
        self.perform_all(&mut steps, &mut replies);
        if self.refused {
            return Err(Stopped {
                step: replies.len(),
                replies,
            });
        }
        Ok(replies)
    }
}
