//! Queues of events, and the objects that these name, as a host drives them.

ghost use Rattle.std.specs.Prelude.{◌≡◌, IfOk, option_map};
ghost use Rattle.wl_queues.specs.Queues.{Fail, IsAlike, argument_of, event_of, has_events};
ghost use Rattle.wl_queues.specs.Runs.{new_queues};
ghost use Rattle.wl_queues.specs.States.{Calls};
ghost use Rattle.wl_flat.specs.Status.{found};
ghost use Rattle.wl_flat.specs.EventQueues.{Adds, Destroys, DropsQueue, Finishes, MakesQueue, Puts, SetsQueue, Takes, TellsUnused, flat_dropped, flat_handed, flat_object, now_in, number_of_fate, number_of_reason};

use crate::status::Status;
use std::alloc::{AllocError, Global};
use wl_queues::{
    AddError, Event, Fate, Next, NextError, Object, PutError, Queues, Reason, SetQueueError,
    UnusedObject,
};

/// The outcome of a [`FlatQueuedEvent`]: it is handed out.
pub const HANDED: u32 = 0;

/// The outcome of a [`FlatQueuedEvent`]: it is dropped, since the session failed.
pub const SESSION_FAILED: u32 = 1;

/// The outcome of a [`FlatQueuedEvent`]: it is dropped, since its queue was dropped.
pub const QUEUE_DROPPED: u32 = 2;

/// The outcome of a [`FlatQueuedEvent`]: it is dropped, since the object that it is for was destroyed.
pub const SENDER_DESTROYED: u32 = 3;

/// The fate of a [`FlatQueuedObject`]: the slot has no object.
pub const SLOT_FREE: u32 = 0;

/// The fate of a [`FlatQueuedObject`]: it is not destroyed.
pub const SLOT_ALIVE: u32 = 1;

/// The fate of a [`FlatQueuedObject`]: it was destroyed, and events may still name it.
pub const SLOT_DESTROYED: u32 = 2;

/// An event that came out of its queue.
#[repr(C)]
#[derive(Clone, Copy, Debug, PartialEq, Eq, Drop)]
pub struct FlatQueuedEvent {
    /// The number by which it is finished, if it is handed out; else 0.
    pub ticket: u64,
    /// The host's own, as it was put.
    pub content: u64,
    /// The slot of the object that it is for.
    pub sender: usize,
    /// How many objects are among its arguments.
    pub arguments: usize,
    /// [`HANDED`], or why it is dropped.
    pub outcome: u32,
}

/// What a slot says of its object.
#[repr(C)]
#[derive(Clone, Copy, Debug, PartialEq, Eq, Drop)]
pub struct FlatQueuedObject {
    /// The queue in which its events wait that are still to come.
    pub queue: usize,
    /// The host's own, as the object was added. Of a slot that has no object it is 0.
    pub content: u64,
    /// What has become of it.
    pub fate: u32,
}

/// The number of a reason.
fn number_of_reason(reason: Reason) -> u32
    ensures { result ≡ number_of_reason reason }
{
    match reason {
        Reason::SessionFailed => SESSION_FAILED,
        Reason::QueueDropped => QUEUE_DROPPED,
        Reason::SenderDestroyed => SENDER_DESTROYED,
    }
}

/// The number of what has become of an object.
fn number_of_fate(fate: Fate) -> u32
    ensures { result ≡ number_of_fate fate }
{
    match fate {
        Fate::Free => SLOT_FREE,
        Fate::Alive => SLOT_ALIVE,
        Fate::Destroyed => SLOT_DESTROYED,
    }
}

/// An event that is in hand with this ticket.
fn handed(ticket: u64, event: &Event<u64>) -> FlatQueuedEvent
    ensures { result ≡ flat_handed ticket event.now }
{
    FlatQueuedEvent {
        ticket,
        content: event.content,
        sender: event.sender,
        arguments: event.arguments.len(),
        outcome: HANDED,
    }
}

/// An event that is dropped.
fn dropped(reason: Reason, event: &Event<u64>) -> FlatQueuedEvent
    ensures { result ≡ flat_dropped reason event.now }
{
    FlatQueuedEvent {
        ticket: 0,
        content: event.content,
        sender: event.sender,
        arguments: event.arguments.len(),
        outcome: number_of_reason(reason),
    }
}

/// Queues of events (`wl_queues::Queues`), for a host that keeps the events and the objects themselves: the content of each is a
/// number of the host's, often a pointer.
///
/// A call that is refused changes nothing.
#[derive(Drop)]
pub struct EventQueues {
    /// The queues.
    pub core: Queues<u64>,
}

impl EventQueues {
    /// Queues without objects, with the default queue alone, whose number is 0.
    ///
    /// Errors: `AllocError`, if there is no memory for it.
    pub fn new(alloc: Global) -> Result<EventQueues, AllocError>
        ensures { IfOk result (λ queues. IsAlike new_queues (now_in queues)) }
    {
        Ok(EventQueues {
            core: Queues::new(alloc)?,
        })
    }

    /// Makes a queue, whose number is that of no other.
    ///
    /// The status is `OutOfMemory` if there is no memory for it.
    pub fn new_queue(&mut self) -> Result<usize, Status>
        ensures call { MakesQueue self.old result self.new }
    {
        match self.core.new_queue() {
            Ok(queue) => Ok(queue),
            Err(_) => Err(Status::OutOfMemory),
        }
    }

    /// Drops the queue. Its objects have the default queue from now on, and its events come out of `next_of` as dropped.
    ///
    /// The status is `NoQueue` if it is the default queue, or no such queue was made, or it was dropped before.
    pub fn drop_queue(&mut self, queue: usize) -> Result<(), Status>
        ensures call { DropsQueue queue self.old result self.new }
    {
        match self.core.drop_queue(queue) {
            Ok(()) => Ok(()),
            Err(_) => Err(Status::NoQueue),
        }
    }

    /// Adds an object with this content, whose events wait in this queue. The answer is its slot, which had no object.
    ///
    /// The status is `NoQueue` if no such queue was made, or it was dropped; and else `OutOfMemory` if there is no memory for the
    /// object.
    pub fn add(&mut self, queue: usize, content: u64) -> Result<usize, Status>
        ensures call { Adds queue content self.old result self.new }
    {
        match self.core.add(queue, content) {
            Ok(object) => Ok(object),
            Err(AddError::NoQueue) => Err(Status::NoQueue),
            Err(AddError::OutOfMemory) => Err(Status::OutOfMemory),
        }
    }

    /// Events of the object that are still to come wait in this queue.
    ///
    /// The status is `InvalidId` if the slot has no object, or one that was destroyed; and else `NoQueue` if no such queue was made,
    /// or it was dropped.
    pub fn set_queue(&mut self, object: usize, queue: usize) -> Result<(), Status>
        ensures call { SetsQueue object queue self.old result self.new }
    {
        match self.core.set_queue(object, queue) {
            Ok(()) => Ok(()),
            Err(SetQueueError::NoObject) => Err(Status::InvalidId),
            Err(SetQueueError::NoQueue) => Err(Status::NoQueue),
        }
    }

    /// The object is destroyed: events for it are dropped by `next_of`.
    ///
    /// The status is `InvalidId` if the slot has no object, or one that was destroyed before.
    pub fn destroy(&mut self, object: usize) -> Result<(), Status>
        ensures call { Destroys object self.old result self.new }
    {
        match self.core.destroy(object) {
            Ok(()) => Ok(()),
            Err(_) => Err(Status::InvalidId),
        }
    }

    /// Puts an event into the queue that its sender has now, behind those that wait there. `arguments` are the slots of the objects
    /// among its arguments, in their order.
    ///
    /// The status is `OutOfMemory` if there is no memory for the event, and `InvalidId` if the sender or an argument is a slot that
    /// has no object, or one that was destroyed.
    pub fn put(
        &mut self,
        alloc: Global,
        sender: usize,
        arguments: &[usize],
        content: u64,
    ) -> Result<(), Status>
        ensures call { Puts sender arguments.now content self.old result self.new }
    {
        let Ok(arguments) = Vec::from_slice(alloc, arguments) else {
            return Err(Status::OutOfMemory);
        };
        let event = Event {
            sender,
            arguments,
            content,
        };
        let Err(refused) = self.core.put(event) else {
            return Ok(());
        };
        match refused.error {
            PutError::NoObject => Err(Status::InvalidId),
            PutError::OutOfMemory => Err(Status::OutOfMemory),
        }
    }

    /// Takes the first event out of the queue. It is handed out, or dropped.
    ///
    /// The status is `NoQueue` if no such queue was made, and `WouldBlock` if no event waits in it. Of an event that is to be handed
    /// out it is `SerialsExhausted` if each of the 2^64 - 1 tickets was given out, and else `OutOfMemory` if there is no memory for
    /// its place in hand.
    pub fn next_of(&mut self, queue: usize) -> Result<FlatQueuedEvent, Status>
        ensures call { Takes queue self.old result self.new }
    {
        match self.core.next_of(queue) {
            Ok(Next::Nothing) => Err(Status::WouldBlock),
            Ok(Next::Handed(ticket)) => self.event(ticket),
            Ok(Next::Dropped(reason, event)) => Ok(dropped(reason, &event)),
            Err(NextError::NoQueue) => Err(Status::NoQueue),
            Err(NextError::TicketsExhausted) => Err(Status::SerialsExhausted),
            Err(NextError::OutOfMemory) => Err(Status::OutOfMemory),
        }
    }

    /// Ends the event that was handed out with this ticket. The answer is its content.
    ///
    /// The status is `InvalidId` if no event with this ticket is in hand.
    pub fn finish(&mut self, ticket: u64) -> Result<u64, Status>
        ensures call { Finishes ticket self.old result self.new }
    {
        match self.core.finish(ticket) {
            Some(event) => Ok(event.content),
            None => Err(Status::InvalidId),
        }
    }

    /// The session has failed: no event is handed out any more.
    pub fn fail(&mut self)
        ensures call { Calls self.old.core Fail self.new.core }
    {
        self.core.fail();
    }

    /// Tells an object that was destroyed, and that no event names any more, with its content. Its slot is free from now on.
    ///
    /// The status is `WouldBlock` if there is none.
    pub fn next_unused(&mut self) -> Result<UnusedObject, Status>
        ensures call { TellsUnused self.old result self.new }
    {
        match self.core.next_unused() {
            Some(unused) => Ok(unused),
            None => Err(Status::WouldBlock),
        }
    }

    /// What the slot says of its object. Of one that has none, also of one that was never used, it is [`SLOT_FREE`], the default queue,
    /// and 0.
    pub fn object(&self, object: usize) -> FlatQueuedObject
        ensures { result ≡ flat_object ((now_in self.now).objects object) }
    {
        let Object {
            queue,
            fate,
            content,
        } = self.core.object(object);
        FlatQueuedObject {
            queue,
            content,
            fate: number_of_fate(fate),
        }
    }

    /// Whether an event waits in the queue. In one that was not made none does.
    pub fn has_events(&self, queue: usize) -> bool
        ensures { result ≡ has_events (now_in self.now) queue }
    {
        self.core.has_events(queue)
    }

    /// The event that is in hand with this ticket.
    ///
    /// The status is `InvalidId` if there is none.
    pub fn event(&self, ticket: u64) -> Result<FlatQueuedEvent, Status>
        ensures { result ≡ found (option_map (flat_handed ticket) (event_of (now_in self.now) ticket)) }
    {
        match self.core.event(ticket) {
            Some(event) => Ok(handed(ticket, event)),
            None => Err(Status::InvalidId),
        }
    }

    /// The object that is an argument of the event in hand with this ticket, at this place among its objects, from 0 on.
    ///
    /// The status is `InvalidId` if the object was destroyed, so that the argument is null now; or if no event with this ticket is in
    /// hand, or it has no argument at this place.
    pub fn argument(&self, ticket: u64, place: usize) -> Result<usize, Status>
        ensures { result ≡ found (argument_of (now_in self.now) ticket place) }
    {
        match self.core.argument(ticket, place) {
            Some(object) => Ok(object),
            None => Err(Status::InvalidId),
        }
    }
}
