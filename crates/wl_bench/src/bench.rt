//! A server that is driven by commands: the steps that each command is, or a dispatch, and what it prints.

ghost use Rattle.std.specs.Prelude.{List, ◌≡◌, ◌∷◌, ◌++◌, [], IfErr, IfOk, MatchOption, None, Ok, OnOk, Some, map};
ghost use Rattle.std.specs.String.{string_bytes};
ghost use Rattle.wl_server_client.specs.Deeds.{handed};
ghost use Rattle.wl_bench.specs.Bench.{BenchReply, Does, DoesFor, DoesForAll, IsOneCall, IsShared, NamesNone, Replies, accept_step, all_clients, client_calls, clients_after, finish_step, global_of, globals_after, heard_by, latest, new_bench, opened_by, printed, seat_told, shared_call, take_step, with_latest};
ghost use Rattle.wl_bench.specs.Table.{bench_rows};
ghost use Rattle.wl_bench.specs.declared.stop.Stop.TheVariants.{Failed};

mod dispatch;

use crate::answer::{MemoryReply, push_answer, push_records, push_taken_out};
use crate::command::{ClientCommand, Command};
use crate::latest::Latest;
use crate::stop::Stop;
use crate::table::{bench_table, interface_named};
use std::alloc::{AllocError, Global};
use std::fmt;
use std::marker::Model;
use wl_link::Memory;
use wl_server::{Action, Backend, ClientId, DisconnectReason, GlobalId, Reply, ShownToAll, Step};

/// A server over transports by script. The data of an object is the number of the command that ended its request.
pub type Server = Backend<Memory, u64, ShownToAll, ()>;

/// A step of the server.
pub type Made = Step<Memory, u64, ShownToAll, ()>;

/// What is kept of an action that was handed out and not finished yet.
#[derive(Clone, Copy, Debug)]
pub enum Open {
    /// A request.
    Request {
        /// Whether it made an object.
        made: bool,
    },
    /// A bind, or a registry that was handed out.
    Bind,
}

/// The client that was inserted last at a slot.
#[derive(Clone, Copy, Debug)]
pub struct Seat {
    /// The client.
    pub client: ClientId,
    /// The action that the last reading of it handed out, until it is finished.
    pub action: Option<Open>,
}

/// A server, and what commands name of it: the client that was inserted last at each slot, and the global that was created
/// last under each name.
#[derive(Drop)]
pub struct Bench {
    server: Server,
    clients: Latest<Seat>,
    globals: Latest<GlobalId>,
}

impl fmt::Debug for Bench {
    fn fmt<W: fmt::Write>(&self, f: &mut fmt::Formatter<W>) -> fmt::Result {
        f.write_str("Bench { .. }")
    }
}

impl Model for Bench {
    ghost use Rattle.std.specs.Coded.{codes};
    ghost use Rattle.wl_link.specs.ObjectMap.{store_code};
    ghost use Rattle.wl_bench.specs.Bench.{BenchState};

    ghost Value = { BenchState };

    ghost coded = { Prim.hlevel (codes, store_code) };

    ghost view = { λ b. record {
      server = b.server.server;
      clients = b.clients.places.items;
      globals = b.globals.places.items;
    } };
}

impl Bench {
    /// A server over the table of the program, in which nothing has happened.
    pub fn new(alloc: Global) -> Result<Self, Stop>
        ensures new { IfOk result (λ bench. bench ≡ new_bench bench_rows) }
        ensures failed { IfErr result (λ stop. stop ≡ Failed) }
    {
        let table = bench_table(alloc)?;
        Ok(Bench {
            server: Backend::new(alloc, table),
            clients: Latest::new(alloc),
            globals: Latest::new(alloc),
        })
    }

    /// Carries out a command under its number, and returns the lines that it prints. If the command names a slot at which no
    /// client was inserted, nothing is done, and the answer is `None`. The error is `Failed` if memory was refused.
    pub fn carry_out(
        &mut self,
        alloc: Global,
        command: Command,
        number: u64,
    ) -> Result<Option<Vec<String>>, Stop>
        ensures done { IfOk result (λ answer. MatchOption answer (NamesNone self.old command × (self.new ≡ self.old))
            (λ lines. Does self.old number command (map string_bytes lines.items) self.new)) }
        ensures none { NamesNone self.old command → result ≡ Ok None }
        ensures failed { IfErr result (λ stop. stop ≡ Failed) }
    {
        match command {
            Command::Client(slot, command) => {
                let Some(seat) = self.clients.get(slot) else {
                    return Ok(None);
                };
                let lines = self.carry_out_for(alloc, slot, &seat, command, number)?;
                Ok(Some(lines))
            }
            Command::Dispatch(slots) => self.carry_out_dispatch(alloc, slots.as_slice(), number),
            _ => {
                let lines = self.carry_out_for_all(alloc, command)?;
                Ok(Some(lines))
            }
        }
    }

    /// Carries out a command about the client of a slot.
    fn carry_out_for(
        &mut self,
        alloc: Global,
        slot: u32,
        seat: &Seat,
        command: ClientCommand,
        number: u64,
    ) -> Result<Vec<String>, Stop>
        requires { latest slot self.old.clients ≡ Some seat.now }
        ensures done { IfOk result (λ lines. DoesFor self.old number slot command (map string_bytes lines.items) self.new) }
        ensures failed { IfErr result (λ stop. stop ≡ Failed) }
    {
        let replies = self.drive(alloc, seat, command, number)?;
        self.conclude_for(alloc, slot, seat, replies.as_slice())
    }

    /// The lines of the replies to a command about the client of a slot. What the command leaves open is kept.
    fn conclude_for(
        &mut self,
        alloc: Global,
        slot: u32,
        seat: &Seat,
        replies: &[MemoryReply],
    ) -> Result<Vec<String>, Stop>
        ensures done { IfOk result (λ lines. (answer : BenchReply) × (taken : List BenchReply) × (replies.now ≡ answer ∷ taken)
            × (map string_bytes lines.items ≡ printed (seat.now.client ∷ []) answer taken)
            × (self.new.clients ≡ with_latest slot (seat_told seat.now answer) self.old.clients)) }
        ensures server { self.new.server ≡ self.old.server }
        ensures globals { self.new.globals ≡ self.old.globals }
        ensures failed { IfErr result (λ stop. stop ≡ Failed) }
    {
        let Some((answer, taken)) = replies.split_first() else {
            return Err(Stop::Failed);
        };
        let client = seat.client;
        let lines = lines_of(alloc, answer, &[client], taken)?;
        self.clients.put(slot, seat_after(seat, answer))?;
        Ok(lines)
    }

    /// Makes the calls of a command about a client, and takes the record of what the client was sent. Returns the reply to
    /// the last call, and that to the step after it.
    fn drive(
        &mut self,
        alloc: Global,
        seat: &Seat,
        command: ClientCommand,
        number: u64,
    ) -> Result<Vec<MemoryReply>, Stop>
        ensures made { IfOk result (λ replies. Replies self.old.server (client_calls seat.now number command) (seat.now.client ∷ []) replies.items self.new.server) }
        ensures clients { self.new.clients ≡ self.old.clients }
        ensures globals { self.new.globals ≡ self.old.globals }
        ensures failed { IfErr result (λ stop. stop ≡ Failed) }
    {
        let client = seat.client;
        if let ClientCommand::Accept(counts) = &command {
            return self.accept(alloc, client, counts.as_slice());
        }
        let step = client_step(seat, command, number);
        self.perform(alloc, step, &[client])
    }

    /// Carries out a command that is one step, and about all clients. After a command that may send something, the
    /// transports of all clients are looked at; a cleanup hands out those over which it sent.
    fn carry_out_for_all(&mut self, alloc: Global, command: Command) -> Result<Vec<String>, Stop>
        requires { IsShared command }
        ensures done { IfOk result (λ lines. DoesForAll self.old command (map string_bytes lines.items) self.new) }
        ensures failed { IfErr result (λ stop. stop ≡ Failed) }
    {
        let heard = self.heard(alloc, &command)?;
        let step = self.shared_step(alloc, command)?;
        let replies = self.perform(alloc, step, heard.as_slice())?;
        self.conclude_for_all(alloc, heard.as_slice(), replies.as_slice())
    }

    /// The lines of the replies to a command about all clients. The client or global that it made is kept.
    fn conclude_for_all(
        &mut self,
        alloc: Global,
        heard: &[ClientId],
        replies: &[MemoryReply],
    ) -> Result<Vec<String>, Stop>
        ensures done { IfOk result (λ lines. (answer : BenchReply) × (taken : List BenchReply) × (replies.now ≡ answer ∷ taken)
            × (map string_bytes lines.items ≡ printed heard.now answer taken)
            × (self.new.clients ≡ clients_after answer self.old.clients) × (self.new.globals ≡ globals_after answer self.old.globals)) }
        ensures server { self.new.server ≡ self.old.server }
        ensures failed { IfErr result (λ stop. stop ≡ Failed) }
    {
        let Some((answer, taken)) = replies.split_first() else {
            return Err(Stop::Failed);
        };
        let lines = lines_of(alloc, answer, heard, taken)?;
        self.keep(answer)?;
        Ok(lines)
    }

    /// The clients of all slots.
    pub fn all_clients(&self, alloc: Global) -> Result<Vec<ClientId>, AllocError>
        ensures { IfOk result (λ clients. clients.items ≡ all_clients self.now) }
    {
        let seats = self.clients.all(alloc)?;
        let mut clients = Vec::new(alloc);
        for seat in seats.as_slice() {
            clients.push(seat.client)?;
        }
        Ok(clients)
    }

    /// The clients whose transports are looked at after a command about all clients.
    fn heard(&self, alloc: Global, command: &Command) -> Result<Vec<ClientId>, AllocError>
        ensures { IfOk result (λ clients. clients.items ≡ heard_by self.now command.now) }
    {
        match command {
            Command::Create(..) | Command::Disable(_) | Command::Remove(_) | Command::Flush => {
                self.all_clients(alloc)
            }
            Command::Insert
            | Command::Notes
            | Command::Cleanup
            | Command::Dispatch(_)
            | Command::Client(..) => Ok(Vec::new(alloc)),
        }
    }

    /// The global that was created last under the name. If none was, the id names none: no global has the serial 0.
    fn global(&self, name: u32) -> GlobalId
        ensures { result ≡ global_of self.now name }
    {
        match self.globals.get(name) {
            Some(global) => global,
            None => GlobalId::from_parts(name, 0),
        }
    }

    /// The step of a command about all clients.
    fn shared_step(&self, alloc: Global, command: Command) -> Result<Made, Stop>
        requires { IsShared command }
        ensures step { IfOk result (λ step. shared_call self.now command ≡ Some step) }
        ensures failed { IfErr result (λ stop. stop ≡ Failed) }
    {
        Ok(match command {
            Command::Insert => Step::InsertClient(Memory::new(alloc), ()),
            Command::Create(name, version) => {
                let interface = interface_named(self.server.protocol(), name.as_str())?;
                Step::CreateGlobal(interface, version, ShownToAll)
            }
            Command::Disable(name) => Step::DisableGlobal(self.global(name)),
            Command::Remove(name) => Step::RemoveGlobal(self.global(name)),
            Command::Flush => Step::Flush(None),
            Command::Cleanup => Step::Cleanup,
            Command::Notes => Step::TakeNotes,
            Command::Client(..) | Command::Dispatch(_) => unreachable!(),
        })
    }

    /// Makes a step, and takes the records of what these clients were sent.
    fn perform(
        &mut self,
        alloc: Global,
        step: Made,
        heard: &[ClientId],
    ) -> Result<Vec<MemoryReply>, Stop>
        ensures made { IfOk result (λ replies. Replies self.old.server (step ∷ []) heard.now replies.items self.new.server) }
        ensures clients { self.new.clients ≡ self.old.clients }
        ensures globals { self.new.globals ≡ self.old.globals }
        ensures failed { IfErr result (λ stop. stop ≡ Failed) }
    {
        let mut steps = Vec::new(alloc);
        steps.push(step)?;
        push_takes(&mut steps, heard)?;
        match self.server.replay(steps) {
            Ok(replies) => Ok(replies),
            Err(_) => Err(Stop::Failed),
        }
    }

    /// Lets the next sends to the client take so many bytes each, and takes the record of what it was sent. There may be
    /// millions of counts, so each is a run of its own. Returns the reply to the last one, and that to the step after it.
    fn accept(
        &mut self,
        alloc: Global,
        client: ClientId,
        counts: &[u32],
    ) -> Result<Vec<MemoryReply>, Stop>
        ensures made { IfOk result (λ replies. Replies self.old.server (map (accept_step client) counts.now) (client ∷ []) replies.items self.new.server) }
        ensures clients { self.new.clients ≡ self.old.clients }
        ensures globals { self.new.globals ≡ self.old.globals }
        ensures failed { IfErr result (λ stop. stop ≡ Failed) }
    {
        let Some((last, front)) = counts.split_last() else {
            return Err(Stop::Failed);
        };
        for count in front {
            self.perform(alloc, Step::Accept(client, *count as usize), &[])?;
        }
        self.perform(alloc, Step::Accept(client, *last as usize), &[client])
    }

    /// Keeps the client or the global that a command about all clients made.
    fn keep(&mut self, reply: &MemoryReply) -> Result<(), AllocError>
        ensures clients { OnOk result (self.new.clients ≡ clients_after reply.now self.old.clients) }
        ensures globals { OnOk result (self.new.globals ≡ globals_after reply.now self.old.globals) }
        ensures server { self.new.server ≡ self.old.server }
    {
        match reply {
            Reply::InsertClient(Ok(client)) => {
                let seat = Seat {
                    client: *client,
                    action: None,
                };
                self.clients.put(client.slot(), seat)
            }
            Reply::CreateGlobal(Ok(global)) => self.globals.put(global.name(), *global),
            _ => Ok(()),
        }
    }
}

/// Appends the steps that take the records of what these clients were sent to the others.
pub fn push_takes(steps: &mut Vec<Made>, clients: &[ClientId]) -> Result<(), Stop>
    ensures steps { OnOk result (steps.new.items ≡ steps.old.items ++ map take_step clients.now) }
    ensures failed { IfErr result (λ stop. stop ≡ Failed) }
{
    for client in clients {
        steps.push(Step::TakeSent(*client))?;
    }
    Ok(())
}

/// The step of a command about a client that is not `accept`.
fn client_step(seat: &Seat, command: ClientCommand, number: u64) -> Made
    requires { IsOneCall command }
    ensures { client_calls seat.now number command ≡ result ∷ [] }
{
    let client = seat.client;
    match command {
        ClientCommand::Arrive(bytes, tokens) => Step::Arrive(client, bytes, tokens),
        ClientCommand::Read => Step::NextAction(client),
        ClientCommand::Finish => finish(seat, number),
        ClientCommand::Kill => Step::KillClient(client, DisconnectReason::ConnectionClosed),
        ClientCommand::FailIn(fault) => Step::ArriveFault(client, fault),
        ClientCommand::FailOut(fault) => Step::AcceptFault(client, fault),
        ClientCommand::Accept(_) => unreachable!(),
    }
}

/// The step that ends the open action of a client. If an object was made, it gets the number of the command as its data.
fn finish(seat: &Seat, number: u64) -> Made
    ensures { result ≡ finish_step seat.now number }
{
    match seat.action {
        Some(Open::Bind) => Step::FinishBind(seat.client, number),
        Some(Open::Request { made: true }) => Step::FinishRequest(seat.client, Some(number)),
        Some(Open::Request { made: false }) | None => Step::FinishRequest(seat.client, None),
    }
}

/// What is kept of an action while it is open.
fn opened(action: &Action) -> Open
    ensures { result ≡ opened_by (handed action.now) }
{
    match action {
        Action::Request { created, .. } => Open::Request {
            made: created.is_some(),
        },
        Action::Bind { .. } | Action::Registry { .. } => Open::Bind,
    }
}

/// The client of a slot after the reply to a command about it.
fn seat_after(seat: &Seat, reply: &MemoryReply) -> Seat
    ensures { result ≡ seat_told seat.now reply.now }
{
    let client = seat.client;
    match reply {
        Reply::NextAction(Ok(action)) => Seat {
            client,
            action: Some(opened(action)),
        },
        Reply::FinishRequest(Ok(())) | Reply::FinishBind(Ok(())) => Seat {
            client,
            action: None,
        },
        _ => Seat {
            client,
            action: seat.action,
        },
    }
}

/// The lines that a command prints: its answer, and what clients were sent.
fn lines_of(
    alloc: Global,
    answer: &MemoryReply,
    heard: &[ClientId],
    taken: &[MemoryReply],
) -> Result<Vec<String>, AllocError>
    ensures { IfOk result (λ lines. map string_bytes lines.items ≡ printed heard.now answer.now taken.now) }
{
    let mut lines = Vec::new(alloc);
    push_answer(alloc, &mut lines, answer)?;
    push_taken_out(alloc, &mut lines, answer)?;
    push_records(alloc, &mut lines, heard, taken)?;
    Ok(lines)
}
