//! The calls of a client's transport by script, as steps of its server.
//!
//! A *token* stands for a file descriptor.

ghost use Rattle.std.specs.Prelude.{◌≡◌, Ok};
ghost use Rattle.wl_server_model.specs.Backend.{Calls};
ghost use Rattle.wl_server_model.specs.Moves.{ScriptMoves, nothing_taken};
ghost use Rattle.wl_server_model.specs.PartStep.{lacks_move, over_scripts};
ghost use Rattle.wl_server.specs.Inside.Scripting.{arrived_as, move_of, reply_to, scripted_as, step_of};
ghost use Rattle.wl_server_model.specs.declared.step.Reply.TheVariants as reply;
ghost use Rattle.wl_server_model.specs.declared.step.Step.TheVariants as step;

use crate::backend::Backend;
use crate::client::stored::stored_mut;
use wl_link::{ArriveError, Memory};
use wl_server_client::error::{InvalidId, ScriptError};
use wl_server_client::globals::handler::GlobalHandler;
use wl_server_client::ids::client_id::ClientId;
use wl_wire::{IoFault, OutOfMemory, Token};

/// A call that adds something to the script of a transport.
#[derive(Drop)]
pub enum ScriptCall {
    /// `Memory::arrive`: these bytes and tokens arrive.
    Arrive(Vec<u8>, Vec<Token>),
    /// `Memory::arrive_fault`: a receive is answered by this fault.
    ArriveFault(IoFault),
    /// `Memory::accept`: a send takes at most this many bytes.
    Accept(usize),
    /// `Memory::accept_fault`: a send is answered by this fault.
    AcceptFault(IoFault),
}

/// What an arrival returned, as the server's program gets it.
fn arrived(answer: Result<(), ArriveError>) -> Result<(), ScriptError>
    ensures { result ≡ arrived_as answer }
{
    match answer {
        Ok(()) => Ok(()),
        Err(ArriveError::TooManyTokens) => Err(ScriptError::TooManyTokens),
        Err(ArriveError::OutOfMemory) => Err(ScriptError::OutOfMemory),
    }
}

/// What a call returned that fails only if memory runs out, as the server's program gets it.
fn scripted(answer: Result<(), OutOfMemory>) -> Result<(), ScriptError>
    ensures { result ≡ scripted_as answer }
{
    match answer {
        Ok(()) => Ok(()),
        Err(OutOfMemory) => Err(ScriptError::OutOfMemory),
    }
}

/// Makes this call of the script.
fn make_move(script: &mut Memory, call: ScriptCall) -> Result<(), ScriptError>
    ensures { ScriptMoves script.old (move_of call) (nothing_taken result) script.new }
{
    match call {
        ScriptCall::Arrive(bytes, tokens) => arrived(script.arrive(bytes, tokens)),
        ScriptCall::ArriveFault(fault) => scripted(script.arrive_fault(fault)),
        ScriptCall::Accept(count) => scripted(script.accept(count)),
        ScriptCall::AcceptFault(fault) => scripted(script.accept_fault(fault)),
    }
}

/// Whether the call of the script failed for want of memory.
fn lacks_memory(answer: &Result<(), ScriptError>) -> bool
    ensures { result ≡ lacks_move (nothing_taken answer.now) }
{
    matches!(answer, Err(ScriptError::OutOfMemory))
}

impl<U: Drop, G: GlobalHandler<C> + Drop, C: Drop> Backend<Memory, U, G, C> {
    /// Makes this call of the client's transport.
    ///
    /// The error is `InvalidId` if the client is not stored, `TooManyTokens` if a chunk that arrives has more than 28
    /// tokens, and `OutOfMemory`.
    pub(crate) fn script(&mut self, id: &ClientId, call: ScriptCall) -> Result<(), ScriptError>
        ensures { Calls (over_scripts G.views) self.old (step_of id.now call) (reply_to call result) self.new }
    {
        self.refused = false;
        let Some(client) = stored_mut(&mut self.clients, &mut self.touched, id) else {
            return Err(ScriptError::InvalidId);
        };
        let answer = make_move(client.socket.transport_mut(), call);
        self.refused = lacks_memory(&answer);
        answer
    }

    /// Takes the record of what the client's transport was sent. The record is empty from then on.
    ///
    /// The error is `InvalidId` if the client is not stored.
    pub(crate) fn take_sent(
        &mut self,
        id: &ClientId,
    ) -> Result<Vec<(Vec<u8>, Vec<Token>)>, InvalidId>
        ensures { Calls (over_scripts G.views) self.old (step.TakeSent id.now) (reply.TakeSent result) self.new }
    {
        self.refused = false;
        let Some(client) = stored_mut(&mut self.clients, &mut self.touched, id) else {
            return Err(InvalidId);
        };
        Ok(client.socket.transport_mut().take_sent())
    }
}
