//! Dispatches: the server reads clients and calls a handler, whose answers end their actions.

ghost use Rattle.std.specs.Prelude.{◌≡◌, ◌∷◌, IfErr, IfOk, MatchBool, MatchOption, None, Ok, Some, map};
ghost use Rattle.std.specs.String.{string_bytes};
ghost use Rattle.wl_bench.specs.Answers.{dispatched_text, records_lines};
ghost use Rattle.wl_bench.specs.declared.stop.Stop.TheVariants.{Failed};

use crate::answer::{MemoryReply, push_records};
use crate::bench::{Bench, push_takes};
use crate::stop::Stop;
use smallvec::SmallVec;
use std::alloc::{AllocError, Global};
use wl_link::Memory;
use wl_server::{Backend, ClientId, GlobalId, Handler, ObjectId, ShownToAll};
use wl_wire::{Argument, INLINE_ARGS, Token};

/// The handler of a dispatch. It gives each object that is made or bound a number as its data, and makes no call.
#[derive(Drop)]
pub struct LineHandler {
    /// The number of the command that dispatches.
    pub number: u64,
}

impl Handler<Memory, u64, ShownToAll, ()> for LineHandler {
    ghost use Rattle.wl_bench.specs.Bench.{answers_bind, answers_request};

    ghost requests = { answers_request };

    ghost binds = { answers_bind };

    fn request(
        &mut self,
        _backend: &mut Backend<Memory, u64, ShownToAll, ()>,
        _client: &ClientId,
        _sender: ObjectId,
        _opcode: u16,
        _args: SmallVec<Argument<ObjectId, Token>, INLINE_ARGS>,
        created: Option<ObjectId>,
    ) -> Option<u64> {
        match created {
            Some(_) => Some(self.number),
            None => None,
        }
    }

    fn bind(
        &mut self,
        _backend: &mut Backend<Memory, u64, ShownToAll, ()>,
        _client: &ClientId,
        _global: GlobalId,
        _object: ObjectId,
    ) -> u64 {
        self.number
    }
}

/// The line of a dispatch in which so many requests were read.
fn dispatched_line(alloc: Global, count: usize) -> Result<String, AllocError>
    ensures { IfOk result (λ line. string_bytes line ≡ dispatched_text count) }
{
    let line = format!(in alloc; "dispatched {count}")?;
    Ok(line)
}

/// The lines that a dispatch prints: how many requests it read, and what clients were sent.
fn lines_of(
    alloc: Global,
    count: usize,
    heard: &[ClientId],
    taken: &[MemoryReply],
) -> Result<Vec<String>, AllocError>
    ensures { IfOk result (λ lines. map string_bytes lines.items ≡ dispatched_text count ∷ records_lines heard.now taken.now) }
{
    let mut lines = Vec::new(alloc);
    lines.push(dispatched_line(alloc, count)?)?;
    push_records(alloc, &mut lines, heard, taken)?;
    Ok(lines)
}

impl Bench {
    ghost use Rattle.wl_bench.specs.Bench.{Dispatches, DoesDispatch, LacksClient, TakesRecords, client_at};

    /// Whether a client was inserted at each of the slots.
    fn has_clients(&self, slots: &[u32]) -> bool
        ensures { MatchBool result (¬ (LacksClient self.now slots.now)) (LacksClient self.now slots.now) }
    {
        for slot in slots {
            if self.clients.get(*slot).is_none() {
                return false;
            }
        }
        true
    }

    /// The clients that were inserted last at the slots.
    fn clients_at(&self, alloc: Global, slots: &[u32]) -> Result<Vec<ClientId>, AllocError>
        requires { ¬ (LacksClient self.now slots.now) }
        ensures { IfOk result (λ clients. map Some clients.items ≡ map (client_at self.now) slots.now) }
    {
        let mut clients = Vec::new(alloc);
        for slot in slots {
            let Some(seat) = self.clients.get(*slot) else {
                unreachable!();
            };
            clients.push(seat.client)?;
        }
        Ok(clients)
    }

    /// Dispatches the clients, and returns how many requests were read.
    fn dispatch_clients(&mut self, clients: &[ClientId], number: u64) -> Result<usize, Stop>
        ensures done { IfOk result (λ count. Dispatches self.old.server number clients.now count self.new.server) }
        ensures clients { self.new.clients ≡ self.old.clients }
        ensures globals { self.new.globals ≡ self.old.globals }
        ensures failed { IfErr result (λ stop. stop ≡ Failed) }
    {
        let mut handler = LineHandler { number };
        let answer = self.server.dispatch_all_clients(&mut handler, clients);
        if self.server.memory_refused() {
            return Err(Stop::Failed);
        }
        let Ok(count) = answer else {
            return Err(Stop::Failed);
        };
        Ok(count)
    }

    /// Takes the records of what the clients were sent.
    fn take_records(&mut self, alloc: Global, heard: &[ClientId]) -> Result<Vec<MemoryReply>, Stop>
        ensures taken { IfOk result (λ taken. TakesRecords self.old.server heard.now taken.items self.new.server) }
        ensures clients { self.new.clients ≡ self.old.clients }
        ensures globals { self.new.globals ≡ self.old.globals }
        ensures failed { IfErr result (λ stop. stop ≡ Failed) }
    {
        let mut steps = Vec::new(alloc);
        push_takes(&mut steps, heard)?;
        match self.server.replay(steps) {
            Ok(taken) => Ok(taken),
            Err(_) => Err(Stop::Failed),
        }
    }

    /// Dispatches the clients that were inserted last at the slots, under the number of the command, and returns the lines
    /// that this prints.
    fn dispatch(&mut self, alloc: Global, slots: &[u32], number: u64) -> Result<Vec<String>, Stop>
        requires { ¬ (LacksClient self.old slots.now) }
        ensures done { IfOk result (λ lines. DoesDispatch self.old number slots.now (map string_bytes lines.items) self.new) }
        ensures failed { IfErr result (λ stop. stop ≡ Failed) }
    {
        let clients = self.clients_at(alloc, slots)?;
        let heard = self.all_clients(alloc)?;
        let count = self.dispatch_clients(clients.as_slice(), number)?;
        let taken = self.take_records(alloc, heard.as_slice())?;
        let lines = lines_of(alloc, count, heard.as_slice(), taken.as_slice())?;
        Ok(lines)
    }

    /// The same, if a client was inserted at each of the slots. Else nothing is done, and the answer is `None`.
    pub fn carry_out_dispatch(
        &mut self,
        alloc: Global,
        slots: &[u32],
        number: u64,
    ) -> Result<Option<Vec<String>>, Stop>
        ensures done { IfOk result (λ answer. MatchOption answer (LacksClient self.old slots.now × (self.new ≡ self.old))
            (λ lines. DoesDispatch self.old number slots.now (map string_bytes lines.items) self.new)) }
        ensures none { LacksClient self.old slots.now → result ≡ Ok None }
        ensures failed { IfErr result (λ stop. stop ≡ Failed) }
    {
        if !self.has_clients(slots) {
            return Ok(None);
        }
        let lines = self.dispatch(alloc, slots, number)?;
        Ok(Some(lines))
    }
}
