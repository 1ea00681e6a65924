//! Runs of calls over the transport by script, `Memory`.

ghost use Rattle.std.specs.Prelude.{◌≡◌, ◌∷◌, ◌++◌, List, [], true, false, Err, IfOk, IfErr, IsOk, is_err, length, map};
ghost use Rattle.wl_wire.specs.Table.{InterfaceRow};
ghost use Rattle.wl_link.specs.Script.{Script, parcel};
ghost use Rattle.wl_client.specs.Accounts.{AccountsForStopped, IsAccountedFor};
ghost use Rattle.wl_client.specs.Histories.{Deed, History, called};
ghost use Rattle.wl_client.specs.Named.{KeepsNaming};
ghost use Rattle.wl_client.specs.Replies.{SameReplies};
ghost use Rattle.wl_client.specs.Session.{IsConnected, SessionState};
ghost use Rattle.wl_client.specs.Steps.{ArrivesWith, IsOfScript, Leads, Scripts, StepOf, StopsAt, entries, refused_arrive, refused_script, with_script};
ghost use Rattle.wl_client.specs.Stretches.{EachPartIsCut};

use crate::backend::Backend;
use crate::step::{Reply, Step, Stopped};
use wl_link::{ArriveError, Memory};
use wl_wire::{IoFault, OutOfMemory, Token};

impl<U: Drop> Backend<Memory, U> {
    /// Appends a chunk of bytes and tokens to the arrivals of the script.
    fn arrive(&mut self, bytes: Vec<u8>, tokens: Vec<Token>) -> Result<(), ArriveError>
        ensures arrived { ArrivesWith self.old.session (record { bytes = bytes.items; tokens = tokens.items }) result self.new.session }
        ensures refused { self.new.refused ≡ refused_arrive result }
    {
        let answer = self.transport_mut().arrive(bytes, tokens);
        self.refused = matches!(answer, Err(ArriveError::OutOfMemory));
        answer
    }

    /// Appends a fault to the arrivals of the script.
    fn arrive_fault(&mut self, fault: IoFault) -> Result<(), OutOfMemory>
        ensures scripted { Scripts self.old.session
            (record self.old.session.link.transport { arrivals = self.old.session.link.transport.arrivals ++ Err fault ∷ [] })
            result self.new.session }
        ensures refused { self.new.refused ≡ refused_script result }
    {
        let answer = self.transport_mut().arrive_fault(fault);
        self.refused = answer.is_err();
        answer
    }

    /// Appends a count or a fault to the send answers of the script.
    fn script_answer(&mut self, answer: Result<usize, IoFault>) -> Result<(), OutOfMemory>
        ensures scripted { Scripts self.old.session
            (record self.old.session.link.transport { answers = self.old.session.link.transport.answers ++ answer ∷ [] })
            result self.new.session }
        ensures refused { self.new.refused ≡ refused_script result }
    {
        let scripted = match answer {
            Ok(count) => self.transport_mut().accept(count),
            Err(fault) => self.transport_mut().accept_fault(fault),
        };
        self.refused = scripted.is_err();
        scripted
    }

    /// Takes the record of what was sent, and leaves an empty one.
    fn take_sent(&mut self) -> Vec<(Vec<u8>, Vec<Token>)>
        ensures taken { map parcel result.items ≡ self.old.session.link.transport.sent }
        ensures left { self.new.session ≡ with_script self.old.session (record self.old.session.link.transport { sent = [] }) }
        ensures refused { self.new.refused ≡ false }
    {
        let sent = self.transport_mut().take_sent();
        self.refused = false;
        sent
    }

    /// Makes the call of a step that is about the transport by script. It is a function of its own: one `match` over all
    /// steps is too large for the borrow checker.
    fn perform_script(&mut self, step: Step<U>) -> Reply<U>
        requires { IsOfScript step }
        ensures { StepOf self.old.session step result self.new.refused self.new.session }
    {
        match step {
            Step::Arrive(bytes, tokens) => Reply::Arrive(self.arrive(bytes, tokens)),
            Step::ArriveFault(fault) => Reply::ArriveFault(self.arrive_fault(fault)),
            Step::Accept(count) => Reply::Accept(self.script_answer(Ok(count))),
            Step::AcceptFault(fault) => Reply::AcceptFault(self.script_answer(Err(fault))),
            Step::TakeSent => Reply::TakeSent(self.take_sent()),
            _ => unreachable!(),
        }
    }

    /// Makes the call of a step.
    fn perform(&mut self, step: Step<U>) -> Reply<U>
        ensures { StepOf self.old.session step result self.new.refused self.new.session }
    {
        match step {
            Step::SetData(id, user_data) => Reply::SetData(self.set_data(&id, user_data)),
            Step::DestroyObject(id) => Reply::DestroyObject(self.destroy_object(&id)),
            Step::Reclaim(id) => Reply::Reclaim(self.reclaim(&id)),
            Step::SendRequest(message, user_data, child_spec) => {
                Reply::SendRequest(self.send_request(message, user_data, child_spec))
            }
            Step::Flush => Reply::Flush(self.flush()),
            Step::NextEvent => Reply::NextEvent(self.next_event()),
            Step::FinishEvent(user_data) => Reply::FinishEvent(self.finish_event(user_data)),
            Step::Fail(error) => {
                self.fail(error);
                Reply::Fail
            }
            Step::DispatchInnerQueue => Reply::DispatchInnerQueue(self.dispatch_inner_queue()),
            Step::SetMaxBufferSize(max_buffer_size) => {
                self.set_max_buffer_size(max_buffer_size);
                Reply::SetMaxBufferSize
            }
            Step::PassOverUnknownSenders(passes) => {
                self.pass_over_unknown_senders(passes);
                Reply::PassOverUnknownSenders
            }
            Step::TakeNotes => Reply::TakeNotes(self.take_notes()),
            Step::KeepFreed(keeps) => {
                self.keep_freed(keeps);
                Reply::KeepFreed
            }
            Step::NextFreed => Reply::NextFreed(self.next_freed()),
            Step::Arrive(..)
            | Step::ArriveFault(_)
            | Step::Accept(_)
            | Step::AcceptFault(_)
            | Step::TakeSent => self.perform_script(step),
        }
    }

    /// Makes the calls of the steps, one after another, and puts their replies into the list, which is empty. It stops at
    /// the step in which memory runs out. Room for the replies is made first.
    fn perform_all(&mut self, steps: &mut Vec<Step<U>>, replies: &mut Vec<Reply<U>>)
        requires { replies.old.items ≡ [] }
        ensures none { steps.old.items ≡ [] → self.new.refused ≡ false }
        ensures made { self.new.refused ≡ false →
            Leads self.old.session (entries steps.old.items replies.new.items) self.new.session × (length replies.new.items ≡ length steps.old.items) }
        ensures stopped { self.new.refused ≡ true → StopsAt self.old.session steps.old.items (length replies.new.items) replies.new.items self.new.session }
    {
        let Ok(()) = replies.reserve_exact(steps.len()) else {
            self.refused = true;
            return;
        };
        // After this the first step comes last: it is taken out without moving the others.
        steps.reverse();
        self.refused = false;
        while let Some(step) = steps.pop() {
            let reply = self.perform(step);
            if self.refused {
                drop(reply);
                return;
            }
            replies.push_reserved(reply);
        }
    }

    /// Makes the calls of the steps, one after another, and returns their replies.
    ///
    /// Room for the replies is made first. At the first step in which memory runs out, the run stops. The error names
    /// that step, and has the replies to those before it; the later steps are dropped. If there was no room for the
    /// replies, it names step 0, and no call was made. A run of no steps needs no room.
    ///
    /// The contract is about this run together with the history before it, from `connect` on: earlier runs, other calls, and
    /// what the program made of the transport between them.
    ///
    /// - Each id that was handed out, by a reply, an event or a note, names the object that it was made of as long as that
    ///   is kept, and then none. The same holds of any id, from a point on at which it names an object. The notes are those of
    ///   the objects that ended with user data, in order. A session that has an error keeps one, and reads and flushes no
    ///   more. All of this is said of the same changes of the objects (`accounted`); `named` says it of a point that is given.
    /// - Each part of the history that is a run, in which bytes arrive, and events are read and finished, hands out the same
    ///   as if all that arrived had come at once (`cutting`).
    /// - A run that stopped has both too (`stopped_accounts`).
    /// - The steps can lead to no other replies, and to no other session after them (`outcome`).
    pub fn replay(&mut self, steps: Vec<Step<U>>) -> Result<Vec<Reply<U>>, Stopped<U>>
        ensures none { steps.items ≡ [] → IsOk result }
        ensures count { IfOk result (λ replies. length replies.items ≡ length steps.items) }
        ensures steps { IfOk result (λ replies. Leads self.old.session (entries steps.items replies.items) self.new.session) }
        ensures joined { IfOk result (λ replies. (begun : SessionState Script U) (deeds : List (Deed Script U)) →
            History StepOf begun deeds self.old.session → History StepOf begun (deeds ++ called (entries steps.items replies.items)) self.new.session) }
        ensures accounted { IfOk result (λ replies.
            (table : List InterfaceRow) (transport : Script) (begun : SessionState Script U) (deeds : List (Deed Script U)) →
            IsConnected table transport begun → History StepOf begun deeds self.old.session →
            IsAccountedFor StepOf begun (deeds ++ called (entries steps.items replies.items)) self.new.session) }
        ensures named { IfOk result (λ replies.
            (table : List InterfaceRow) (transport : Script) (begun point : SessionState Script U) (done later : List (Deed Script U)) →
            IsConnected table transport begun → History StepOf begun done point → History StepOf point later self.old.session →
            KeepsNaming StepOf begun done point (later ++ called (entries steps.items replies.items)) self.new.session) }
        ensures cutting { IfOk result (λ replies. (begun : SessionState Script U) (deeds : List (Deed Script U)) →
            History StepOf begun deeds self.old.session → EachPartIsCut begun (deeds ++ called (entries steps.items replies.items))) }
        ensures outcome { IfOk result (λ replies. (others : List (Reply U)) (other : SessionState Script U) →
            length others ≡ length steps.items → Leads self.old.session (entries steps.items others) other →
            SameReplies replies.items others × (self.new.session ≡ other)) }
        ensures stopped_accounts { IfErr result (λ stopped.
            (table : List InterfaceRow) (transport : Script) (begun : SessionState Script U) (deeds : List (Deed Script U)) →
            IsConnected table transport begun → History StepOf begun deeds self.old.session →
            AccountsForStopped begun deeds steps.items stopped.replies.items self.new.session) }
        ensures stopped { IfErr result (λ stopped. StopsAt self.old.session steps.items stopped.step stopped.replies.items self.new.session) }
        ensures refused { self.new.refused ≡ is_err result }
    {
        let mut steps = steps;
        let mut replies = Vec::new(*self.notes.allocator());
        self.perform_all(&mut steps, &mut replies);
        if self.refused {
            return Err(Stopped {
                step: replies.len(),
                replies,
            });
        }
        Ok(replies)
    }
}
