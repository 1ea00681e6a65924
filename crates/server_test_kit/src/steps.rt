//! The steps of a run by `replay`, as plain data.

use crate::values::{Event, Named, Shown, Thing, Who, message};
use std::alloc::Global;
use std::test::Fail;
use wl_link::Memory;
use wl_server::{DisconnectReason, Reading, Step};
use wl_wire::{CString, InterfaceId, IoFault, Token};

/// A step of a server whose objects have numbers as their data, and whose clients say whether they see globals.
#[derive(Clone, Copy)]
pub enum Call {
    /// `Step::InsertClient`, of a client that sees globals or does not.
    Insert(bool),
    /// `Step::SetObjectData`.
    SetData(Thing, u32),
    /// `Step::CreateObject`.
    Create(Who, InterfaceId, u32, u32),
    /// `Step::SetObjectVersion`.
    SetVersion(Thing, u32),
    /// `Step::CreateObjectAt`: of a version, at a number, with data.
    CreateAt(Who, InterfaceId, u32, u32, u32),
    /// `Step::DestroyObject`.
    Destroy(Thing),
    /// `Step::SendEvent`.
    Send(Event),
    /// `Step::PostError`.
    PostError(Thing, u32, &'static str),
    /// `Step::KillClient`, as closed.
    Kill(Who),
    /// `Step::CreateGlobal`.
    Global(InterfaceId, u32),
    /// `Step::DisableGlobal`.
    Disable(Named),
    /// `Step::RemoveGlobal`.
    Remove(Named),
    /// `Step::KeepGlobalNames`.
    KeepNames(bool),
    /// `Step::HandOutRegistries`.
    HandOutRegistries(bool),
    /// `Step::SetObjectLimit`.
    ObjectLimit(Option<u32>),
    /// `Step::Flush` of one client.
    Flush(Who),
    /// `Step::Flush` of all clients.
    FlushAll,
    /// `Step::SetDefaultMaxBufferSize`.
    DefaultLimit(usize),
    /// `Step::SetClientMaxBufferSize`.
    Limit(Who, usize),
    /// `Step::NextAction`.
    Next(Who),
    /// `Step::NextActionWithin`, with so many receives left.
    NextWithin(Who, u32),
    /// `Step::FinishRequest`.
    Finish(Who, Option<u32>),
    /// `Step::FinishBind`.
    FinishBind(Who, u32),
    /// `Step::Cleanup`.
    Cleanup,
    /// `Step::TakeNotes`.
    Notes,
    /// `Step::Arrive`, of no descriptors.
    Arrive(Who, &'static [u8]),
    /// `Step::Arrive`, of one descriptor.
    ArriveWith(Who, &'static [u8], i32),
    /// `Step::ArriveFault`.
    ArriveFault(Who, IoFault),
    /// `Step::Accept`.
    Accept(Who, usize),
    /// `Step::AcceptFault`.
    AcceptFault(Who, IoFault),
    /// `Step::TakeSent`.
    TakeSent(Who),
}

/// A step of the runs.
pub type Made = Step<Memory, u32, Shown, bool>;

/// The step that inserts a client.
fn insert(alloc: Global, sees: bool) -> Made {
    Step::InsertClient(Memory::new(alloc), sees)
}

/// The step that sends the event.
fn send(alloc: Global, event: Event) -> Result<Made, Fail> {
    Ok(Step::SendEvent(message(alloc, event)?))
}

/// The step that posts the error.
fn post(alloc: Global, on: Thing, code: u32, text: &str) -> Result<Made, Fail> {
    let text = CString::new(Vec::from_slice(alloc, text.as_bytes())?)?;
    Ok(Step::PostError(on.id(), code, text))
}

/// The step by which the bytes arrive, with the descriptor if there is one.
pub fn arrive(
    alloc: Global,
    who: Who,
    bytes: &[u8],
    descriptor: Option<i32>,
) -> Result<Made, Fail> {
    let bytes = Vec::from_slice(alloc, bytes)?;
    let mut tokens = Vec::new(alloc);
    if let Some(number) = descriptor {
        tokens.push(Token(number))?;
    }
    Ok(Step::Arrive(who.id(), bytes, tokens))
}

/// The step of a call about objects.
fn of_objects(alloc: Global, call: Call) -> Result<Made, Fail> {
    match call {
        Call::SetData(object, data) => Ok(Step::SetObjectData(object.id(), data)),
        Call::Create(who, interface, version, data) => {
            Ok(Step::CreateObject(who.id(), interface, version, data))
        }
        Call::SetVersion(object, version) => Ok(Step::SetObjectVersion(object.id(), version)),
        Call::CreateAt(who, interface, version, number, data) => {
            Ok(Step::CreateObjectAt(who.id(), interface, version, number, data))
        }
        Call::Destroy(object) => Ok(Step::DestroyObject(object.id())),
        Call::Send(event) => send(alloc, event),
        Call::PostError(on, code, text) => post(alloc, on, code, text),
        _ => Err(Fail::new("the call is about no object")),
    }
}

/// The step of a call that reads, and of one that ends what was read.
fn of_reading(call: Call) -> Result<Made, Fail> {
    match call {
        Call::Next(who) => Ok(Step::NextAction(who.id())),
        Call::NextWithin(who, turns_left) => {
            let reading = Reading {
                turns_left,
                read: 0,
            };
            Ok(Step::NextActionWithin(who.id(), reading))
        }
        Call::Finish(who, data) => Ok(Step::FinishRequest(who.id(), data)),
        Call::FinishBind(who, data) => Ok(Step::FinishBind(who.id(), data)),
        _ => Err(Fail::new("the call reads nothing")),
    }
}

/// The step of a call of a script.
fn of_script(alloc: Global, call: Call) -> Result<Made, Fail> {
    match call {
        Call::Arrive(who, bytes) => arrive(alloc, who, bytes, None),
        Call::ArriveWith(who, bytes, number) => arrive(alloc, who, bytes, Some(number)),
        Call::ArriveFault(who, fault) => Ok(Step::ArriveFault(who.id(), fault)),
        Call::Accept(who, count) => Ok(Step::Accept(who.id(), count)),
        Call::AcceptFault(who, fault) => Ok(Step::AcceptFault(who.id(), fault)),
        Call::TakeSent(who) => Ok(Step::TakeSent(who.id())),
        _ => Err(Fail::new("the call is of no script")),
    }
}

/// The step of a call about clients and globals.
fn of_server(alloc: Global, call: Call) -> Result<Made, Fail> {
    match call {
        Call::Insert(sees) => Ok(insert(alloc, sees)),
        Call::Kill(who) => Ok(Step::KillClient(who.id(), DisconnectReason::ConnectionClosed)),
        Call::Global(interface, version) => Ok(Step::CreateGlobal(interface, version, Shown)),
        Call::Disable(global) => Ok(Step::DisableGlobal(global.id())),
        Call::Remove(global) => Ok(Step::RemoveGlobal(global.id())),
        Call::KeepNames(keep) => Ok(Step::KeepGlobalNames(keep)),
        Call::HandOutRegistries(hand_out) => Ok(Step::HandOutRegistries(hand_out)),
        Call::ObjectLimit(limit) => Ok(Step::SetObjectLimit(limit)),
        Call::Flush(who) => Ok(Step::Flush(Some(who.id()))),
        Call::FlushAll => Ok(Step::Flush(None)),
        Call::DefaultLimit(bytes) => Ok(Step::SetDefaultMaxBufferSize(bytes)),
        Call::Limit(who, bytes) => Ok(Step::SetClientMaxBufferSize(who.id(), bytes)),
        Call::Cleanup => Ok(Step::Cleanup),
        Call::Notes => Ok(Step::TakeNotes),
        _ => Err(Fail::new("the call is about no client and no global")),
    }
}

/// The step.
pub fn step(alloc: Global, call: Call) -> Result<Made, Fail> {
    match call {
        Call::SetData(..)
        | Call::Create(..)
        | Call::SetVersion(..)
        | Call::CreateAt(..)
        | Call::Destroy(_)
        | Call::Send(_)
        | Call::PostError(..) => of_objects(alloc, call),
        Call::Next(_) | Call::NextWithin(..) | Call::Finish(..) | Call::FinishBind(..) => {
            of_reading(call)
        }
        Call::Arrive(..)
        | Call::ArriveWith(..)
        | Call::ArriveFault(..)
        | Call::Accept(..)
        | Call::AcceptFault(..)
        | Call::TakeSent(_) => of_script(alloc, call),
        _ => of_server(alloc, call),
    }
}

/// The steps of the calls.
pub fn steps(alloc: Global, calls: &[Call]) -> Result<Vec<Made>, Fail> {
    let mut steps = Vec::new(alloc);
    for call in calls {
        steps.push(step(alloc, *call)?)?;
    }
    Ok(steps)
}
