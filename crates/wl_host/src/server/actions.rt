//! The actions of clients, handed out and ended.

ghost use Rattle.std.specs.Prelude.{◌≡◌, ◌≤◌, [], ℤ, List, Bool, Result, MatchOption, None, Ok, Err, Some, IfOk, length, min};
ghost use Rattle.std.specs.Result.{result_and};
ghost use Rattle.wl_flat.specs.declared.status.Status.{Status};
ghost use Rattle.wl_flat.specs.declared.status.Status.TheVariants as status;
ghost use Rattle.wl_host.specs.Actions.{EndsAsAction, EndsBind, EndsRequest, HandsFrom, NextAction, ReadsAllowed, ReadsNext, args_of, ended, flat_action, flat_created, is_end, kills, marked_if, null_in, status_of_end, version_created};
ghost use Rattle.wl_flat.specs.Arguments.{all_bytes, flat_arguments, queue_after_all};
ghost use Rattle.wl_host.specs.Calls.{bit_of, data_or_zero, global_data_or_zero, kept_by, version_or_zero};
ghost use Rattle.wl_flat.specs.Flat.{client_of, count_number, flat_resource, no_action, over_front};
ghost use Rattle.wl_flat.specs.Descriptors.{Conserves};
ghost use Rattle.wl_flat.specs.Kinds as kinds;
ghost use Rattle.wl_host.specs.Inside.Actions.{NextOf, is_killed_in, status_of_next};
ghost use Rattle.wl_host.specs.Seats.{ledger_of};
ghost use Rattle.wl_host.specs.Server.{kept_by_server};
ghost use Rattle.wl_host.specs.Tellings.{ReadsTold};
ghost use Rattle.wl_server_client.specs.Deeds.{handed};

use crate::server::ledger::Ledger;
use crate::server::refusals::refuse;
use crate::server::{Core, Server, no_action};
use std::alloc::Global;
use std::mem;
use wl_flat::arguments::{Needs, Objects, write_arguments};
use wl_flat::descriptors::DescriptorQueue;
use wl_flat::flat::{
    BIND, FlatAction, FlatArgument, FlatClientId, FlatGlobalId, FlatObjectId, REGISTRY, REQUEST,
    count_number,
};
use wl_flat::nulls::{forbidden_null, is_refused};
use wl_flat::status::Status;
use wl_server::{Action, ActionError, ClientId, FinishRefused, GlobalId, ObjectId};
use wl_wire::{IoFault, OutOfMemory};

/// Whether a reading of a client that is stored, and ended so, killed the client.
fn kills(error: ActionError) -> bool
    ensures { result ≡ kills error }
{
    match error {
        ActionError::Io(fault) => !matches!(fault, IoFault::WouldBlock | IoFault::OutOfMemory),
        ActionError::ActionOpen => false,
    }
}

/// What the action needs of lent memory.
fn needs_of(action: &Action) -> Needs
    ensures arguments { result.arguments ≡ length (args_of (handed action.now)) }
    ensures bytes { result.bytes ≡ min (length (all_bytes (args_of (handed action.now)))) usize.MAX }
{
    match action {
        Action::Request { args, .. } => Needs::of(args.as_slice()),
        Action::Bind { .. } | Action::Registry { .. } => Needs {
            arguments: 0,
            bytes: 0,
        },
    }
}

/// Whether the action ends the object that it was sent to.
fn ends_sender(action: &Action) -> bool
    ensures { result ≡ is_end (handed action.now) }
{
    match action {
        Action::Request { is_destructor, .. } => *is_destructor,
        Action::Bind { .. } | Action::Registry { .. } => false,
    }
}

/// The program's data of the global; 0 if it was removed.
fn global_data(core: &Core, id: &GlobalId) -> u64
    ensures { result ≡ global_data_or_zero core.now id.now }
{
    match core.get_global_handler(id) {
        Ok(global) => global.user_data,
        Err(_) => 0,
    }
}

/// The version of the object; 0 if the id names none.
fn version_of(core: &Core, id: &ObjectId) -> u32
    ensures { result ≡ version_or_zero core.now id.now }
{
    match core.object_info(id) {
        Ok(info) => info.version,
        Err(_) => 0,
    }
}

/// A request as a flat struct, without what there is to say of its arguments.
fn flat_request(
    core: &Core,
    sender: &ObjectId,
    opcode: u16,
    is_destructor: bool,
    created: Option<ObjectId>,
) -> FlatAction
    ensures { result ≡ record no_action { kind = kinds.request; opcode = opcode; is_destructor = bit_of is_destructor; sender = flat_resource sender.now; «data» = data_or_zero core.now sender.now; created = flat_created created; version = version_created core.now created } }
{
    let (object, version) = match created {
        Some(id) => (FlatObjectId::of_resource(id), version_of(core, &id)),
        None => (FlatObjectId::null(), 0),
    };
    FlatAction {
        kind: REQUEST,
        opcode: u32::from(opcode),
        is_destructor: u32::from(is_destructor),
        sender: FlatObjectId::of_resource(*sender),
        data: core.data_or_zero(sender),
        created: object,
        version,
        ..FlatAction::none()
    }
}

/// The place of the first argument of the action that is null where the table allows no null, counted from 1; 0 if there is
/// none.
fn forbidden_null_of(core: &Core, action: &Action) -> u32
    ensures { result ≡ null_in core.now (handed action.now) }
{
    let Action::Request {
        sender,
        opcode,
        args,
        ..
    } = action
    else {
        return 0;
    };
    match core.protocol().request(sender.interface(), *opcode) {
        Some(desc) => forbidden_null(core, desc.signature.as_slice(), args.as_slice()),
        None => 0,
    }
}

/// The action as a flat struct, without what there is to say of its arguments.
fn flat_action(core: &Core, action: &Action) -> FlatAction
    ensures { result ≡ record (flat_action core.now (handed action.now)) { arguments = 0; bytes = 0; forbidden_null = 0 } }
{
    match action {
        Action::Request {
            sender,
            opcode,
            is_destructor,
            created,
            ..
        } => flat_request(core, sender, *opcode, *is_destructor, *created),
        Action::Bind { global, object } => FlatAction {
            kind: BIND,
            data: global_data(core, global),
            global: FlatGlobalId::new(*global),
            created: FlatObjectId::of_resource(*object),
            version: version_of(core, object),
            ..FlatAction::none()
        },
        Action::Registry { object } => FlatAction {
            kind: REGISTRY,
            created: FlatObjectId::of_resource(*object),
            version: version_of(core, object),
            ..FlatAction::none()
        },
    }
}

/// Writes the arguments of the action to the front of the lent memory, which has room for them. Their descriptors are taken
/// out.
fn write_arguments_of(
    core: &Core,
    action: &Action,
    received: &mut DescriptorQueue,
    arguments: &mut [FlatArgument],
    bytes: &mut [u8],
)
    requires room { length (args_of (handed action.now)) ≤ length arguments.old }
    requires room_for_bytes { length (all_bytes (args_of (handed action.now))) ≤ length bytes.old }
    ensures arguments { arguments.new ≡ over_front (flat_arguments flat_resource (data_or_zero core.now) received.old 0 (args_of (handed action.now))) arguments.old }
    ensures bytes { bytes.new ≡ over_front (all_bytes (args_of (handed action.now))) bytes.old }
    ensures descriptors { received.new ≡ queue_after_all received.old (args_of (handed action.now)) }
{
    match action {
        Action::Request { args, .. } => {
            write_arguments(core, args.as_slice(), received, arguments, bytes);
        }
        Action::Bind { .. } | Action::Registry { .. } => {}
    }
}

/// Takes the action that was kept into `action`.
fn take_kept(kept: &mut Option<Action>, action: &mut Action)
    ensures taken { (a : Action) → kept.old ≡ Some a → action.new ≡ a }
    ensures none { kept.new ≡ None }
{
    if let Some(kept) = kept.take() {
        *action = kept;
    }
}

/// Puts the action that was kept, or else the next one, into `action`. No action is kept after that.
fn read_action(
    core: &mut Core,
    id: &ClientId,
    kept: &mut Option<Action>,
    action: &mut Action,
) -> Result<(), ActionError>
    ensures read { ReadsNext core.old id.now kept.old (result_and result (Ok action.new)) core.new }
    ensures none { kept.new ≡ None }
{
    // An action is large: none is moved for one that is not there.
    if kept.is_none() {
        return core.next_action_into(id, action);
    }
    take_kept(kept, action);
    Ok(())
}

/// Puts the action that was kept, or else the next one, into `action`. Returns the place of its first argument that is null where
/// the table allows no null, counted from 1; 0 if there is none. If such nulls are refused, the place is 0, and an action with one is
/// refused: its client is killed, and the answer is as after a request that the core refuses.
fn read_allowed(
    core: &mut Core,
    id: &ClientId,
    kept: &mut Option<Action>,
    action: &mut Action,
    refuses_nulls: bool,
    alloc: Global,
) -> Result<u32, ActionError>
    ensures read { ReadsAllowed refuses_nulls core.old id.now kept.old (result_and result (Ok action.new)) kept.new core.new }
    ensures null { IfOk result (λ place. place ≡ null_in core.new (handed action.new)) }
{
    if let Err(error) = read_action(core, id, kept, action) {
        return Err(error);
    }
    let place = forbidden_null_of(core, action);
    if is_refused(refuses_nulls, place) {
        refuse(alloc, core, id, kept, action, place);
        return Err(ActionError::Io(IoFault::Pipe));
    }
    Ok(place)
}

/// Keeps the action in the client's ledger, until there is room for it. `out` says how much it needs.
fn keep(ledger: &mut Ledger, action: &mut Action, needs: Needs, alloc: Global, out: &mut FlatAction)
    ensures kept { ledger.new ≡ record ledger.old { kept = Some action.old } }
    ensures out { out.new ≡ record no_action { arguments = count_number needs.arguments; bytes = count_number needs.bytes } }
{
    *out = FlatAction {
        arguments: count_number(needs.arguments),
        bytes: count_number(needs.bytes),
        ..FlatAction::none()
    };
    ledger.kept = Some(mem::replace(action, no_action(alloc)));
}

/// Writes the action, with this null, to the lent memory, if that has room for it. Else it is kept in the client's ledger. It is not
/// inlined: among the code of its caller it would have too few registers.
#[inline(never)]
fn hand_out(
    core: &Core,
    ledger: &mut Ledger,
    action: &mut Action,
    forbidden_null: u32,
    alloc: Global,
    out: &mut FlatAction,
    arguments: &mut [FlatArgument],
    bytes: &mut [u8],
) -> Status
    requires null { forbidden_null ≡ null_in core.now (handed action.old) }
    ensures { HandsFrom core.now ledger.old action.old arguments.old bytes.old result (record { out = out.new; arguments = arguments.new; bytes = bytes.new }) ledger.new }
{
    let needs = needs_of(action);
    if !needs.fit(arguments, bytes) {
        keep(ledger, action, needs, alloc, out);
        return Status::TooSmall;
    }
    *out = FlatAction {
        arguments: count_number(needs.arguments),
        bytes: count_number(needs.bytes),
        forbidden_null,
        ..flat_action(core, action)
    };
    ledger.ends_sender = ends_sender(action);
    write_arguments_of(core, action, &mut ledger.received, arguments, bytes);
    Status::Ok
}

/// Reads the next action of a client, and hands it out.
fn next_of(
    core: &mut Core,
    id: &ClientId,
    ledger: &mut Ledger,
    action: &mut Action,
    refuses_nulls: bool,
    alloc: Global,
    out: &mut FlatAction,
    arguments: &mut [FlatArgument],
    bytes: &mut [u8],
) -> Result<Status, ActionError>
    ensures { NextOf refuses_nulls core.old id.now ledger.old (record { out = out.old; arguments = arguments.old; bytes = bytes.old }) result (record { out = out.new; arguments = arguments.new; bytes = bytes.new }) core.new ledger.new }
{
    match read_allowed(core, id, &mut ledger.kept, action, refuses_nulls, alloc) {
        Ok(place) => {
            let status = hand_out(core, ledger, action, place, alloc, out, arguments, bytes);
            Ok(status)
        }
        Err(error) => Err(error),
    }
}

/// Whether the data are kept after the end of an action: none came back.
fn is_kept<R: Drop>(answer: Result<Option<u64>, FinishRefused<R>>) -> Result<bool, Status>
    ensures { result ≡ kept_by answer }
{
    match answer {
        Ok(None) => Ok(true),
        Ok(Some(_)) => Ok(false),
        Err(refused) => Err(Status::from(refused.error)),
    }
}

impl Server {
    /// Reads the next action of the client (`wl_server::Backend::next_action`) into the lent memory. It is open until it is
    /// finished.
    ///
    /// The bytes of strings and arrays go to `bytes`, each at a multiple of eight, and a string with a zero behind it. The status
    /// is
    ///
    /// - `InvalidId` if the client is not stored;
    /// - `TooSmall` if `arguments` or `bytes` has no room for the action. Then `out` says how much is needed, and the action is
    ///   handed out by the next call with enough;
    /// - `Open` if an action that was handed out is not finished;
    /// - `WouldBlock` if there is no more now;
    /// - `ProtocolError`, `Closed`, `TooBig` or `IoError` if the client was killed, now or before;
    /// - `OutOfMemory`. The next call goes on.
    ///
    /// If nulls are refused (`refuse_nulls`), an action with an argument that is null where the table allows no null is not handed
    /// out. Its client is told by `wl_display.error` of its display, with the code 1 (`invalid_method`) and a text that names the
    /// request and the place, and killed: the status is `Closed`, as after a request that the core refuses. If there is no memory
    /// for the text, the client is killed as if its connection had ended. The request is finished: if it ends its sender, `next_note`
    /// tells of that, too. Without memory for that note, the next call refuses it again, if nulls are still refused.
    /// Its descriptors come out by `next_dropped`, once the client is taken out.
    ///
    /// After any but `Ok` and `TooSmall` `out` is all zeros. After any but `Ok` the rest of the lent memory is as it was.
    pub fn next_action(
        &mut self,
        client: &FlatClientId,
        out: &mut FlatAction,
        arguments: &mut [FlatArgument],
        bytes: &mut [u8],
    ) -> Status
        ensures { (came_out : List ℤ)
            × ReadsTold self.old (client_of client.now) arguments.old bytes.old result (record { out = out.new; arguments = arguments.new; bytes = bytes.new }) came_out self.new
            × Conserves kept_by_server self.old [] came_out self.new }
    {
        // What was read and written before comes before what this reading reads.
        match self.catch_up(&client.id()) {
            Ok(()) => self.read_next(client, out, arguments, bytes),
            Err(OutOfMemory) => {
                *out = FlatAction::none();
                Status::OutOfMemory
            }
        }
    }

    /// Reads the next action of the client. The statuses are those of `next_action`.
    fn read_next(
        &mut self,
        client: &FlatClientId,
        out: &mut FlatAction,
        arguments: &mut [FlatArgument],
        bytes: &mut [u8],
    ) -> Status
        ensures { (came_out : List ℤ)
            × NextAction self.old (client_of client.now) arguments.old bytes.old result (record { out = out.new; arguments = arguments.new; bytes = bytes.new }) came_out self.new
            × Conserves kept_by_server self.old [] came_out self.new }
    {
        *out = FlatAction::none();
        let id = client.id();
        let alloc = self.alloc();
        let answer = match self.seats.get_mut(&id) {
            Some(ledger) => {
                let action = &mut self.action;
                next_of(
                    &mut self.core,
                    &id,
                    ledger,
                    action,
                    self.refuses_nulls,
                    alloc,
                    out,
                    arguments,
                    bytes,
                )
            }
            None => return Status::InvalidId,
        };
        // The core may have answered a sync, or told the client of globals.
        self.seats.list(id.slot());
        self.tell_next(answer)
    }

    /// The status of an answer. If a reading killed the client, there may be notes, and something to be cleaned up.
    fn tell_next(&mut self, answer: Result<Status, ActionError>) -> Status
        ensures status { result ≡ status_of_next answer }
        ensures after { self.new ≡ marked_if (is_killed_in answer) self.old }
    {
        match answer {
            Ok(status) => status,
            Err(error) => {
                if kills(error) {
                    self.mark();
                }
                Status::from(error)
            }
        }
    }

    /// Finishes the open request, which made no object (`wl_server::Backend::finish_request`).
    ///
    /// The status is `InvalidId` if the client is not stored, `NotOpen` if no action was handed out that is still open, and else
    /// that of `wl_server::FinishError`. Then nothing is changed.
    pub fn finish_request(&mut self, client: &FlatClientId) -> Status
        ensures call { (answer : Result Bool Status) × EndsRequest self.old (client_of client.now) None answer self.new × (result ≡ status_of_end answer) }
        ensures descriptors { Conserves kept_by_server self.old [] [] self.new }
    {
        match self.end_request(&client.id(), None) {
            Ok(_) => Status::Ok,
            Err(status) => status,
        }
    }

    /// Finishes the open request, and gives the object that it made these data. Returns whether they are kept: they are not if
    /// the object is gone.
    ///
    /// The status is as that of `finish_request`.
    pub fn finish_request_with(
        &mut self,
        client: &FlatClientId,
        user_data: u64,
    ) -> Result<bool, Status>
        ensures call { EndsRequest self.old (client_of client.now) (Some user_data) result self.new }
        ensures descriptors { Conserves kept_by_server self.old [] [] self.new }
    {
        self.end_request(&client.id(), Some(user_data))
    }

    /// Finishes the open request. Returns whether the data, if any, are kept.
    fn end_request(&mut self, id: &ClientId, user_data: Option<u64>) -> Result<bool, Status>
        ensures call { EndsRequest self.old id.now user_data result self.new }
        ensures descriptors { Conserves kept_by_server self.old [] [] self.new }
    {
        let ends_sender = match self.open_action_ends_sender(id) {
            Ok(ends_sender) => ends_sender,
            Err(status) => return Err(status),
        };
        let answer = self.core.finish_request_returning(id, user_data);
        self.tell_end(id, ends_sender);
        is_kept(answer)
    }

    /// If the request ended its sender, the client is told that the number is free, and there is a note of the end.
    fn tell_end(&mut self, id: &ClientId, ends_sender: bool)
        ensures { self.new ≡ ended ends_sender id.now self.old }
    {
        if ends_sender {
            self.seats.list(id.slot());
            self.mark();
        }
    }

    /// Whether the open action of the client ends the object that it was sent to.
    ///
    /// The status is `NotOpen` if the action was not handed out yet, and `InvalidId` if the client is not stored.
    fn open_action_ends_sender(&self, id: &ClientId) -> Result<bool, Status>
        ensures { MatchOption (ledger_of id.now self.now.seats.ledgers) (result ≡ Err status.InvalidId)
            (λ l. MatchOption l.kept (result ≡ Ok l.ends_sender) (λ _. result ≡ Err status.NotOpen)) }
    {
        let Some(ledger) = self.seats.get(id) else {
            return Err(Status::InvalidId);
        };
        if ledger.kept.is_some() {
            return Err(Status::NotOpen);
        }
        Ok(ledger.ends_sender)
    }

    /// Finishes the open bind, and gives the object that was bound these data (`wl_server::Backend::finish_bind`). Returns
    /// whether they are kept: they are not if the object is gone.
    ///
    /// The status is as that of `finish_request`.
    pub fn finish_bind(&mut self, client: &FlatClientId, user_data: u64) -> Result<bool, Status>
        ensures call { EndsBind self.old (client_of client.now) user_data result self.new }
        ensures descriptors { Conserves kept_by_server self.old [] [] self.new }
    {
        let id = client.id();
        if let Err(status) = self.open_action_ends_sender(&id) {
            return Err(status);
        }
        is_kept(self.core.finish_bind_returning(&id, user_data))
    }

    /// Finishes the open action, which is this one, as `next_action` wrote it: by `finish_bind` if it is a bind or a registry, by
    /// `finish_request_with` if it is a request that made an object, and else by `finish_request`. What it made gets the data 0.
    ///
    /// The status is that of this call.
    pub fn finish_action(&mut self, client: &FlatClientId, action: &FlatAction) -> Status
        ensures call { (answer : Result Bool Status) × EndsAsAction self.old (client_of client.now) action.now answer self.new × (result ≡ status_of_end answer) }
        ensures descriptors { Conserves kept_by_server self.old [] [] self.new }
    {
        match self.end_action(client, action) {
            Ok(_) => Status::Ok,
            Err(status) => status,
        }
    }

    /// Finishes the open action as what it is. Returns whether the data 0, if any, are kept.
    fn end_action(&mut self, client: &FlatClientId, action: &FlatAction) -> Result<bool, Status>
        ensures call { EndsAsAction self.old (client_of client.now) action.now result self.new }
        ensures descriptors { Conserves kept_by_server self.old [] [] self.new }
    {
        if action.kind != REQUEST {
            return self.finish_bind(client, 0);
        }
        if action.created.number == 0 {
            self.end_request(&client.id(), None)
        } else {
            self.finish_request_with(client, 0)
        }
    }
}
