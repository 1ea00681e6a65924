//! The calls of a server as values, and their answers.

use std::fmt;
use wl_server_client::error::{
    ActionError, CreateAtError, CreateError, DestroyError, EventError, FinishRefused, GlobalError,
    InsertClientError, InvalidId, ScriptError, VersionError,
};
use wl_server_client::ids::client_id::ClientId;
use wl_server_client::ids::global_id::GlobalId;
use wl_server_client::ids::object_id::ObjectId;
use wl_server_client::notes::{DisconnectReason, Note};
use wl_server_client::reading::action::{Action, Reading};
use wl_wire::{CString, InterfaceId, IoFault, Message, OutOfMemory, Token};

/// A call that changes a server, as a value: a call of the server, or one of a client's transport by script.
///
/// The values of a variant are the arguments of the call, in order. The calls of `wl_link::Memory` have the client first
/// whose transport it is. `Backend::transport_mut`, `Backend::add_interfaces` and `Backend::extend_interface` are no steps, but
/// a history has entries for them.
#[derive(Drop)]
pub enum Step<T, U, G, C> {
    /// `Backend::insert_client`.
    InsertClient(T, C),
    /// `Backend::set_object_data`.
    SetObjectData(ObjectId, U),
    /// `Backend::set_object_version`.
    SetObjectVersion(ObjectId, u32),
    /// `Backend::create_object`.
    CreateObject(ClientId, InterfaceId, u32, U),
    /// `Backend::create_object_at`.
    CreateObjectAt(ClientId, InterfaceId, u32, u32, U),
    /// `Backend::destroy_object`.
    DestroyObject(ObjectId),
    /// `Backend::send_event`.
    SendEvent(Message<ObjectId, Token>),
    /// `Backend::post_error`.
    PostError(ObjectId, u32, CString),
    /// `Backend::kill_client`.
    KillClient(ClientId, DisconnectReason),
    /// `Backend::create_global`.
    CreateGlobal(InterfaceId, u32, G),
    /// `Backend::disable_global`.
    DisableGlobal(GlobalId),
    /// `Backend::remove_global`.
    RemoveGlobal(GlobalId),
    /// `Backend::keep_global_names`.
    KeepGlobalNames(bool),
    /// `Backend::set_object_limit`.
    SetObjectLimit(Option<u32>),
    /// `Backend::hand_out_registries`.
    HandOutRegistries(bool),
    /// `Backend::flush`, and `Backend::flush_client`.
    Flush(Option<ClientId>),
    /// `Backend::set_default_max_buffer_size`.
    SetDefaultMaxBufferSize(usize),
    /// `Backend::set_client_max_buffer_size`.
    SetClientMaxBufferSize(ClientId, usize),
    /// `Backend::next_action`.
    NextAction(ClientId),
    /// `Backend::next_action_within`.
    NextActionWithin(ClientId, Reading),
    /// `Backend::finish_request`.
    FinishRequest(ClientId, Option<U>),
    /// `Backend::finish_bind`.
    FinishBind(ClientId, U),
    /// `Backend::cleanup`.
    Cleanup,
    /// `Backend::take_notes`.
    TakeNotes,
    /// `Memory::arrive`.
    Arrive(ClientId, Vec<u8>, Vec<Token>),
    /// `Memory::arrive_fault`.
    ArriveFault(ClientId, IoFault),
    /// `Memory::accept`.
    Accept(ClientId, usize),
    /// `Memory::accept_fault`.
    AcceptFault(ClientId, IoFault),
    /// `Memory::take_sent`.
    TakeSent(ClientId),
}

impl<T, U, G, C> fmt::Debug for Step<T, U, G, C> {
    fn fmt<W: fmt::Write>(&self, f: &mut fmt::Formatter<W>) -> fmt::Result {
        f.write_str("Step { .. }")
    }
}

/// What the call of a step returned.
#[derive(Drop)]
pub enum Reply<T, U> {
    /// The reply to `Step::InsertClient`.
    InsertClient(Result<ClientId, InsertClientError>),
    /// The reply to `Step::SetObjectData`.
    SetObjectData(Result<(), InvalidId>),
    /// The reply to `Step::SetObjectVersion`.
    SetObjectVersion(Result<(), VersionError>),
    /// The reply to `Step::CreateObject`.
    CreateObject(Result<ObjectId, CreateError>),
    /// The reply to `Step::CreateObjectAt`.
    CreateObjectAt(Result<ObjectId, CreateAtError>),
    /// The reply to `Step::DestroyObject`.
    DestroyObject(Result<(), DestroyError>),
    /// The reply to `Step::SendEvent`.
    SendEvent(Result<(), EventError>),
    /// The reply to `Step::PostError`.
    PostError,
    /// The reply to `Step::KillClient`.
    KillClient,
    /// The reply to `Step::CreateGlobal`.
    CreateGlobal(Result<GlobalId, GlobalError>),
    /// The reply to `Step::DisableGlobal`.
    DisableGlobal,
    /// The reply to `Step::RemoveGlobal`.
    RemoveGlobal,
    /// The reply to `Step::KeepGlobalNames`.
    KeepGlobalNames,
    /// The reply to `Step::SetObjectLimit`.
    SetObjectLimit,
    /// The reply to `Step::HandOutRegistries`.
    HandOutRegistries,
    /// The reply to `Step::Flush`.
    Flush(Result<(), IoFault>),
    /// The reply to `Step::SetDefaultMaxBufferSize`.
    SetDefaultMaxBufferSize,
    /// The reply to `Step::SetClientMaxBufferSize`.
    SetClientMaxBufferSize,
    /// The reply to `Step::NextAction`.
    NextAction(Result<Action, ActionError>),
    /// The reply to `Step::NextActionWithin`, with what is left of the reading.
    NextActionWithin(Result<Action, ActionError>, Reading),
    /// The reply to `Step::FinishRequest`.
    FinishRequest(Result<(), FinishRefused<Option<U>>>),
    /// The reply to `Step::FinishBind`.
    FinishBind(Result<(), FinishRefused<U>>),
    /// The reply to `Step::Cleanup`.
    Cleanup(Result<Vec<(ClientId, T)>, OutOfMemory>),
    /// The reply to `Step::TakeNotes`.
    TakeNotes(Result<Vec<Note<U>>, OutOfMemory>),
    /// The reply to `Step::Arrive`.
    Arrive(Result<(), ScriptError>),
    /// The reply to `Step::ArriveFault`.
    ArriveFault(Result<(), ScriptError>),
    /// The reply to `Step::Accept`.
    Accept(Result<(), ScriptError>),
    /// The reply to `Step::AcceptFault`.
    AcceptFault(Result<(), ScriptError>),
    /// The reply to `Step::TakeSent`.
    TakeSent(Result<Vec<(Vec<u8>, Vec<Token>)>, InvalidId>),
}

impl<T, U> fmt::Debug for Reply<T, U> {
    fn fmt<W: fmt::Write>(&self, f: &mut fmt::Formatter<W>) -> fmt::Result {
        f.write_str("Reply { .. }")
    }
}

/// A run that stopped because memory ran out.
#[derive(Drop)]
pub struct Stopped<T, U> {
    /// The index of the step in which memory ran out, counted from 0. It is 0 also if there was no memory for the
    /// replies, and nothing was done.
    pub step: usize,
    /// The replies to the steps before it.
    pub replies: Vec<Reply<T, U>>,
}

impl<T, U> fmt::Debug for Stopped<T, U> {
    fn fmt<W: fmt::Write>(&self, f: &mut fmt::Formatter<W>) -> fmt::Result {
        f.write_str("Stopped { .. }")
    }
}
