//! Registries that are handed out: the host tells them of globals, and of their removal exactly those that it told.

ghost use Rattle.std.specs.Prelude.{[], ◌≡◌, ◌∷◌, ◌<◌, ◌==◌, ℕ, IfErr, IfOk, OnOk, Some, not, vec_capacity, vec_len};
ghost use Rattle.std.specs.List.{filter, list_any};
ghost use Rattle.wl_wire.specs.declared.argument.Argument.TheVariants as arg;
ghost use Rattle.wl_wire.specs.Table.{name_of};
ghost use Rattle.wl_host.specs.Calls.{status_by, world};
ghost use Rattle.wl_flat.specs.Descriptors.{Conserves};
ghost use Rattle.wl_flat.specs.Flat.{global_of, resource_of};
ghost use Rattle.wl_host.specs.Registries.{Announces, IsGlobalEvent, KeepsThere, KillsUntold, TellsRemoval, TellsRemovals, Withdraws, is_of, is_there, registries_told, said_with, told_with, without_global};
ghost use Rattle.wl_host.specs.Server.{kept_by_server};
ghost use Rattle.wl_flat.specs.Status.{of_event};
ghost use Rattle.wl_server_model.specs.Backend.{Calls};
ghost use Rattle.wl_server_model.specs.declared.step.Reply.TheVariants as reply;
ghost use Rattle.wl_server_model.specs.declared.step.Step.TheVariants as step;
ghost use Rattle.wl_flat.specs.declared.status.Status.TheVariants as status;

use crate::server::{Core, Server};
use smallvec::SmallVec;
use std::alloc::Global;
use wl_flat::arguments::text_of;
use wl_flat::flat::{FlatGlobalId, FlatObjectId};
use wl_flat::status::Status;
use wl_server::{ClientId, DisconnectReason, EventError, GlobalId, GlobalInfo, ObjectId};
use wl_wire::opcodes::{GLOBAL, GLOBAL_REMOVE};
use wl_wire::{Argument, CString, InterfaceId, Message, OutOfMemory, Token};

/// A registry that was told of a global.
#[derive(Clone, Copy, Debug, Drop)]
pub struct Told {
    /// The registry.
    pub registry: ObjectId,
    /// The global.
    pub global: GlobalId,
}

/// Drops what is kept of registries that are not there any more.
fn drop_gone(core: &Core, told: &mut Vec<Told>)
    ensures { told.new.items ≡ filter (is_there core.now) told.old.items }
{
    told.retain(|one| core.object_info(&one.registry).is_ok());
}

/// Makes room for one more. If there is none, what is kept of registries that are not there is dropped first. Then at least as
/// many more may come as are left, before it is looked for them again.
fn make_room(core: &Core, told: &mut Vec<Told>) -> Result<(), OutOfMemory>
    ensures kept { KeepsThere core.now told.old.items told.new.items }
    ensures room { OnOk result (vec_len told.new < vec_capacity told.new) }
{
    if told.len() < told.capacity() {
        return Ok(());
    }
    drop_gone(core, told);
    told.reserve(told.len().saturating_add(1))?;
    Ok(())
}

/// Keeps that a registry was told of a global, unless the core refused that. Returns the status of what it answered.
fn keep_told(told: &mut Vec<Told>, one: Told, answer: Result<(), EventError>) -> Status
    requires room { vec_len told.old < vec_capacity told.old }
    ensures told { told.new.items ≡ told_with told.old.items one answer }
    ensures status { result ≡ status_by of_event answer }
{
    match answer {
        Ok(()) => {
            told.push_reserved(one);
            Status::Ok
        }
        Err(error) => Status::from(error),
    }
}

/// The name of the interface, for the wire.
fn name_text(alloc: Global, core: &Core, interface: InterfaceId) -> Result<CString, Status>
    ensures name { IfOk result (λ text. text ≡ name_of core.now.server.offer.table interface.0) }
    ensures why { IfErr result (λ s. s ≡ status.OutOfMemory) }
{
    // No name of a table has a zero byte, so it is a string of the wire.
    match text_of(alloc, core.protocol().name(interface).as_bytes()) {
        Ok(text) => Ok(text),
        Err(_) => Err(Status::OutOfMemory),
    }
}

/// Puts `wl_registry.global` into the event: the registry is told of the global of that name.
fn write_global(
    core: &Core,
    event: &mut Message<ObjectId, Token>,
    registry: ObjectId,
    name: u32,
    info: &GlobalInfo,
    alloc: Global,
) -> Result<(), Status>
    ensures event { OnOk result (IsGlobalEvent core.now.server.offer.table registry name info.now event.new) }
    ensures why { IfErr result (λ s. s ≡ status.OutOfMemory) }
{
    let interface = name_text(alloc, core, info.interface)?;
    event.sender_id = registry;
    event.opcode = GLOBAL;
    event.args.clear();
    // It is at least four, as that of each such list: so there is room for three.
    let _capacity = event.args.capacity();
    event.args.push_reserved(Argument::Uint(name));
    event.args.push_reserved(Argument::Str(Some(interface)));
    event.args.push_reserved(Argument::Uint(info.version));
    Ok(())
}

/// `wl_registry.global_remove` of this name, of no registry yet.
fn removal_event(alloc: Global, name: u32) -> Message<ObjectId, Token>
    ensures opcode { result.opcode ≡ 1 }
    ensures args { result.args.items ≡ arg.Uint name ∷ [] }
{
    let mut args = SmallVec::new(alloc);
    args.push_reserved(Argument::Uint(name));
    Message {
        sender_id: ObjectId::null(),
        opcode: GLOBAL_REMOVE,
        args,
    }
}

/// Kills the client if there was no memory to tell it: then the core answered so.
fn kill_untold(core: &mut Core, client: &ClientId, answer: Result<(), EventError>)
    ensures { KillsUntold client.now answer core.old core.new }
{
    if let Err(EventError::OutOfMemory) = answer {
        core.kill_client(client, DisconnectReason::ConnectionClosed);
    }
}

/// Tells the registry by the event, whose sender it becomes, that the name is that of no global any more. If there is no memory
/// for that, its client is killed. Returns what the core answered.
fn tell_removal(
    core: &mut Core,
    event: &mut Message<ObjectId, Token>,
    registry: ObjectId,
) -> Result<(), EventError>
    requires opcode { event.old.opcode ≡ 1 }
    ensures told { (name : ℕ) → event.old.args.items ≡ arg.Uint name ∷ [] → TellsRemoval name core.old registry result core.new }
    ensures opcode { event.new.opcode ≡ event.old.opcode }
    ensures args { event.new.args ≡ event.old.args }
{
    event.sender_id = registry;
    let answer = core.send_event_lent(event);
    kill_untold(core, &registry.client(), answer);
    answer
}

/// The status so far, and of one more registry, which was told with this answer.
fn said_with(so_far: Status, answer: Result<(), EventError>) -> Status
    ensures { result ≡ said_with so_far answer }
{
    match answer {
        Err(EventError::OutOfMemory) => Status::OutOfMemory,
        _ => so_far,
    }
}

/// Tells each registry that was told of the global that it is removed, by the event. The status is `OutOfMemory` if there was no
/// memory for one of them, and else `Ok`.
fn tell_removals(
    core: &mut Core,
    event: &mut Message<ObjectId, Token>,
    told: &[Told],
    global: &GlobalId,
) -> Status
    requires opcode { event.old.opcode ≡ 1 }
    requires args { event.old.args.items ≡ arg.Uint global.now.name ∷ [] }
    ensures { TellsRemovals global.now.name core.old (registries_told global.now told.now) status.Ok result core.new }
{
    let mut status = Status::Ok;
    for one in told {
        if one.global == *global {
            let answer = tell_removal(core, event, one.registry);
            status = said_with(status, answer);
        }
    }
    status
}

/// Whether a registry was told of the global.
fn any_told(told: &[Told], global: &GlobalId) -> bool
    ensures { result ≡ list_any (is_of global.now) told.now }
{
    told.iter().any(|one| one.global == *global)
}

/// Keeps no longer which registries were told of the global.
fn forget_global(told: &mut Vec<Told>, global: &GlobalId)
    ensures { told.new.items ≡ without_global global.now told.old.items }
{
    told.retain(|one| one.global != *global);
}

impl Server {
    /// Hands out the registries that clients ask for, or no longer (`wl_server::Backend::hand_out_registries`): as long as
    /// `hand_out` is not 0, `next_action` hands each one out, and the host tells it of globals, by `announce_global` and
    /// `withdraw_global`. `finish_bind` ends the action.
    pub fn hand_out_registries(&mut self, hand_out: u32) -> Status
        ensures call { Calls world self.old.core (step.HandOutRegistries (not (hand_out == 0))) reply.HandOutRegistries self.new.core }
        ensures beside { self.new ≡ record self.old { core = self.new.core } }
        ensures descriptors { Conserves kept_by_server self.old [] [] self.new }
        ensures status { result ≡ status.Ok }
    {
        self.core.hand_out_registries(hand_out != 0);
        Status::Ok
    }

    /// Tells a registry that was handed out of the global, by `wl_registry.global`, and keeps that it was told. Whether the global
    /// is disabled or the client may see it is not looked at.
    ///
    /// The status is `InvalidId` if the global or the registry is not there, and `OutOfMemory`. Then the registry was told of
    /// nothing. For an object that is no registry it is that of `send_event`. If the client was killed, nothing is sent, and the
    /// status is `Ok`.
    pub fn announce_global(&mut self, registry: &FlatObjectId, global: &FlatGlobalId) -> Status
        ensures call { Announces self.old (resource_of registry.now) (global_of global.now) result self.new }
        ensures descriptors { Conserves kept_by_server self.old [] [] self.new }
    {
        let alloc = self.alloc();
        let (registry, global) = (registry.resource(), global.id());
        let info = match self.core.global_info(&global) {
            Ok(info) => info,
            Err(error) => return Status::from(error),
        };
        if make_room(&self.core, &mut self.told).is_err() {
            return Status::OutOfMemory;
        }
        let name = global.name();
        if let Err(status) = write_global(
            &self.core,
            &mut self.event,
            registry,
            name,
            &info,
            alloc,
        ) {
            return status;
        }
        let answer = self.core.send_event_lent(&self.event);
        let status = keep_told(&mut self.told, Told { registry, global }, answer);
        self.seats.list(registry.client().slot());
        self.mark();
        status
    }

    /// Tells each registry that was told of the global by `announce_global` that it is removed, by `wl_registry.global_remove`: as
    /// often as it was told, and not if it was told of that since. No other registry is told. So a host calls it where it disables
    /// or removes a global, or shows it to nobody any more.
    ///
    /// A client that cannot be told for want of memory is killed, as if its connection had ended, and the others are told all the
    /// same. The status is `OutOfMemory` then, and else `Ok`.
    pub fn withdraw_global(&mut self, global: &FlatGlobalId) -> Status
        ensures call { Withdraws self.old (global_of global.now) result self.new }
        ensures descriptors { Conserves kept_by_server self.old [] [] self.new }
    {
        let global = global.id();
        if !any_told(self.told.as_slice(), &global) {
            return Status::Ok;
        }
        let mut event = removal_event(self.alloc(), global.name());
        let status = tell_removals(&mut self.core, &mut event, self.told.as_slice(), &global);
        forget_global(&mut self.told, &global);
        self.tells_all();
        status
    }
}
