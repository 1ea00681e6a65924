//! The steps of a run by `replay`, as plain data.

use crate::kit::values::{Object, Request, message};
use std::alloc::Global;
use std::test::Fail;
use wl_client::{Step, WaylandError};
use wl_wire::IoFault;

/// A step of a client whose objects have numbers as their data.
#[derive(Clone, Copy)]
pub enum Call {
    /// `Step::SetData`.
    SetData(Object, u32),
    /// `Step::DestroyObject`.
    Destroy(Object),
    /// `Step::Reclaim`.
    Reclaim(Object),
    /// `Step::SendRequest`.
    Send(Request),
    /// `Step::Flush`.
    Flush,
    /// `Step::NextEvent`.
    Next,
    /// `Step::FinishEvent`.
    Finish(Option<u32>),
    /// `Step::Fail`, with a fault of the transport.
    Fail(IoFault),
    /// `Step::DispatchInnerQueue`.
    Dispatch,
    /// `Step::SetMaxBufferSize`.
    Limit(Option<usize>),
    /// `Step::PassOverUnknownSenders`.
    PassOver(bool),
    /// `Step::TakeNotes`.
    Notes,
    /// `Step::KeepFreed`.
    KeepFreed(bool),
    /// `Step::NextFreed`.
    Freed,
    /// `Step::Arrive`, of no descriptors.
    Arrive(&'static [u8]),
    /// `Step::ArriveFault`.
    ArriveFault(IoFault),
    /// `Step::Accept`.
    Accept(usize),
    /// `Step::AcceptFault`.
    AcceptFault(IoFault),
    /// `Step::TakeSent`.
    TakeSent,
}

/// The step that sends the request.
fn send(alloc: Global, request: Request) -> Result<Step<u32>, Fail> {
    let message = message(alloc, request)?;
    let (data, child) = request.child();
    Ok(Step::SendRequest(message, data, child))
}

/// The step by which the bytes arrive.
fn arrive(alloc: Global, bytes: &[u8]) -> Result<Step<u32>, Fail> {
    let bytes = Vec::from_slice(alloc, bytes)?;
    Ok(Step::Arrive(bytes, Vec::new(alloc)))
}

/// The step.
fn step(alloc: Global, call: Call) -> Result<Step<u32>, Fail> {
    match call {
        Call::SetData(object, data) => Ok(Step::SetData(object.id(), data)),
        Call::Destroy(object) => Ok(Step::DestroyObject(object.id())),
        Call::Reclaim(object) => Ok(Step::Reclaim(object.id())),
        Call::Send(request) => send(alloc, request),
        Call::Flush => Ok(Step::Flush),
        Call::Next => Ok(Step::NextEvent),
        Call::Finish(data) => Ok(Step::FinishEvent(data)),
        Call::Fail(fault) => Ok(Step::Fail(WaylandError::Io(fault))),
        Call::Dispatch => Ok(Step::DispatchInnerQueue),
        Call::Limit(limit) => Ok(Step::SetMaxBufferSize(limit)),
        Call::PassOver(passes) => Ok(Step::PassOverUnknownSenders(passes)),
        Call::Notes => Ok(Step::TakeNotes),
        Call::KeepFreed(keeps) => Ok(Step::KeepFreed(keeps)),
        Call::Freed => Ok(Step::NextFreed),
        Call::Arrive(bytes) => arrive(alloc, bytes),
        Call::ArriveFault(fault) => Ok(Step::ArriveFault(fault)),
        Call::Accept(count) => Ok(Step::Accept(count)),
        Call::AcceptFault(fault) => Ok(Step::AcceptFault(fault)),
        Call::TakeSent => Ok(Step::TakeSent),
    }
}

/// The steps.
pub fn steps(alloc: Global, calls: &[Call]) -> Result<Vec<Step<u32>>, Fail> {
    let mut steps = Vec::new(alloc);
    for call in calls {
        steps.push(step(alloc, *call)?)?;
    }
    Ok(steps)
}
