//! The calls of a session as values, so that a program can make a list of them.

use crate::error::{
    DestroyError, EventError, FinishRefused, FlushError, InvalidId, RequestError, WaylandError,
};
use crate::object_id::ObjectId;
use crate::objects::Note;
use std::fmt;
use wl_link::ArriveError;
use wl_wire::{InterfaceId, IoFault, Message, OutOfMemory, Token};

/// A call that changes a session over the transport by script: a call of the session, or one of its transport, `Memory`.
///
/// `Backend::transport_mut`, `Backend::add_interfaces` and `Backend::extend_interface` are no steps, but a history has entries
/// for them.
#[derive(Drop)]
pub enum Step<U> {
    /// `Backend::set_data`, with the object and its user data.
    SetData(ObjectId, U),
    /// `Backend::destroy_object`, with the object.
    DestroyObject(ObjectId),
    /// `Backend::reclaim`, with the object.
    Reclaim(ObjectId),
    /// `Backend::send_request`, with the request, and for a new object its user data, and its interface and version.
    SendRequest(Message<ObjectId, Token>, Option<U>, Option<(InterfaceId, u32)>),
    /// `Backend::flush`.
    Flush,
    /// `Backend::next_event`.
    NextEvent,
    /// `Backend::finish_event`, with the user data of the object that the event made.
    FinishEvent(Option<U>),
    /// `Backend::fail`, with the error.
    Fail(WaylandError),
    /// `Backend::dispatch_inner_queue`.
    DispatchInnerQueue,
    /// `Backend::set_max_buffer_size`, with the limit in bytes.
    SetMaxBufferSize(Option<usize>),
    /// `Backend::pass_over_unknown_senders`, with whether messages of unknown senders are passed over.
    PassOverUnknownSenders(bool),
    /// `Backend::take_notes`.
    TakeNotes,
    /// `Backend::keep_freed`, with whether ids are kept.
    KeepFreed(bool),
    /// `Backend::next_freed`.
    NextFreed,
    /// `Memory::arrive`, with the bytes and tokens that a receive will give.
    Arrive(Vec<u8>, Vec<Token>),
    /// `Memory::arrive_fault`, with the fault that a receive will return.
    ArriveFault(IoFault),
    /// `Memory::accept`, with the number of bytes that a send will take.
    Accept(usize),
    /// `Memory::accept_fault`, with the fault that a send will return.
    AcceptFault(IoFault),
    /// `Memory::take_sent`.
    TakeSent,
}

impl<U> fmt::Debug for Step<U> {
    fn fmt<W: fmt::Write>(&self, f: &mut fmt::Formatter<W>) -> fmt::Result {
        f.write_str("Step { .. }")
    }
}

/// The answer to the call of a step.
#[derive(Drop)]
pub enum Reply<U> {
    /// The answer to `Step::SetData`.
    SetData(Result<(), InvalidId>),
    /// The answer to `Step::DestroyObject`.
    DestroyObject(Result<(), DestroyError>),
    /// The answer to `Step::Reclaim`.
    Reclaim(Result<(), InvalidId>),
    /// The answer to `Step::SendRequest`.
    SendRequest(Result<ObjectId, RequestError>),
    /// The answer to `Step::Flush`.
    Flush(Result<(), FlushError>),
    /// The answer to `Step::NextEvent`.
    NextEvent(Result<Message<ObjectId, Token>, EventError>),
    /// The answer to `Step::FinishEvent`.
    FinishEvent(Result<(), FinishRefused<U>>),
    /// The answer to `Step::Fail`, which returns nothing.
    Fail,
    /// The answer to `Step::DispatchInnerQueue`.
    DispatchInnerQueue(Result<usize, WaylandError>),
    /// The answer to `Step::SetMaxBufferSize`, which returns nothing.
    SetMaxBufferSize,
    /// The answer to `Step::PassOverUnknownSenders`, which returns nothing.
    PassOverUnknownSenders,
    /// The answer to `Step::TakeNotes`.
    TakeNotes(Vec<Note>),
    /// The answer to `Step::KeepFreed`, which returns nothing.
    KeepFreed,
    /// The answer to `Step::NextFreed`.
    NextFreed(Option<ObjectId>),
    /// The answer to `Step::Arrive`.
    Arrive(Result<(), ArriveError>),
    /// The answer to `Step::ArriveFault`.
    ArriveFault(Result<(), OutOfMemory>),
    /// The answer to `Step::Accept`.
    Accept(Result<(), OutOfMemory>),
    /// The answer to `Step::AcceptFault`.
    AcceptFault(Result<(), OutOfMemory>),
    /// The answer to `Step::TakeSent`.
    TakeSent(Vec<(Vec<u8>, Vec<Token>)>),
}

impl<U> fmt::Debug for Reply<U> {
    fn fmt<W: fmt::Write>(&self, f: &mut fmt::Formatter<W>) -> fmt::Result {
        f.write_str("Reply { .. }")
    }
}

/// The error of `Backend::replay`: memory ran out in a step.
#[derive(Drop)]
pub struct Stopped<U> {
    /// The step in which memory ran out, counted from 0.
    pub step: usize,
    /// The replies to the steps before it.
    pub replies: Vec<Reply<U>>,
}

impl<U> fmt::Debug for Stopped<U> {
    fn fmt<W: fmt::Write>(&self, f: &mut fmt::Formatter<W>) -> fmt::Result {
        f.write_str("Stopped { .. }")
    }
}
