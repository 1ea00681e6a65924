//! Queues of events that wait, and the events that were handed out.

ghost use Rattle.std.specs.Prelude.{◌≡◌, ◌↔◌, ◌⊎◌, ℕ, ◌+◌, ◌<◌, ◌≤◌, ◌∷◌, ◌++◌, [], IfErr, IfOk, IfSome, IfNone, IsTrue, OnErr, OnOk, Some, None, Err, All, drop, false, length, option_copied, slice_set, true, if◌then◌else◌};
ghost use Rattle.std.specs.Option.{option_map};
ghost use Rattle.std.specs.List.{position};
ghost use Rattle.wl_queues.specs.Events.{IsAppended, IsFirstSender, NamesLive, times_named};
ghost use Rattle.wl_queues.specs.Inside.Counts.{AreGivenOut, IsCounted, dropped_at, named_waiting, waiting_at};
ghost use Rattle.wl_queues.specs.Inside.Objects.{AddsNames, ArgumentsHaveRoom, HasRoom, KeepsObjects, KeepsReferences, object_of, references_of};
ghost use Rattle.wl_queues.specs.Inside.Refusals.{refusal_of};

use crate::events::{
    Event, Held, Reason, are_countable, are_live, hold_all, is_countable, is_live, place_by_ticket,
    reason_against_handing, release,
};
use crate::objects::{Object, Objects, UnusedObject};
use std::alloc::{AllocError, Global};
use std::collections::VecDeque;

/// A queue.
#[derive(Drop)]
pub(crate) struct Queue<E> {
    /// The events that wait in it, the oldest first.
    pub(crate) events: VecDeque<Event<E>>,
    /// Whether the program dropped it.
    pub(crate) is_dropped: bool,
}

/// What comes out of a queue.
#[derive(Drop)]
pub enum Next<E> {
    /// No event waits in it.
    Nothing,
    /// An event is handed out, with this ticket. It is in hand until `Queues::finish`.
    Handed(u64),
    /// An event is dropped, for this reason.
    Dropped(Reason, Event<E>),
}

/// No such queue was made, or it was dropped already; or it is the default queue, 0, which is never dropped.
#[derive(Clone, Copy, Debug, PartialEq, Eq)]
pub struct NoQueue;

/// The slot has no object, or one that was destroyed.
#[derive(Clone, Copy, Debug, PartialEq, Eq)]
pub struct NoObject;

/// Why an object is not added.
#[derive(Clone, Copy, Debug, PartialEq, Eq)]
pub enum AddError {
    /// No such queue was made, or it was dropped.
    NoQueue,
    /// There is no memory for the object: for its slot, or for its place among those that are unused.
    OutOfMemory,
}

/// Why an object's queue is not set.
#[derive(Clone, Copy, Debug, PartialEq, Eq)]
pub enum SetQueueError {
    /// The slot has no object, or one that was destroyed. This comes first, if the queue is not there either.
    NoObject,
    /// No such queue was made, or it was dropped.
    NoQueue,
}

/// Why an event is not put into a queue.
#[derive(Clone, Copy, Debug, PartialEq, Eq)]
pub enum PutError {
    /// It names a slot that has no object, or one that was destroyed: as its sender, or as an argument.
    NoObject,
    /// There is no memory for its place in the queue. Or an object that it names is named so often, by events that wait or are in
    /// hand, that with all names of this one there would be more than 2^64 - 1; so many do not fit into memory.
    OutOfMemory,
}

/// An event that was not put into a queue, and why.
#[derive(Drop)]
pub struct PutRefused<E> {
    /// Why it was not put.
    pub error: PutError,
    /// The event, as it was given.
    pub event: Event<E>,
}

/// Why no event is taken out of a queue.
#[derive(Clone, Copy, Debug, PartialEq, Eq)]
pub enum NextError {
    /// No such queue was made.
    NoQueue,
    /// The first event is to be handed out, and no ticket is left: each of the 2^64 - 1 was given out.
    TicketsExhausted,
    /// The first event is to be handed out, and there is no memory for its place in hand.
    OutOfMemory,
}

/// Puts the event into the queue. Without memory it is given back.
fn append<E: Drop>(
    queue: &mut Queue<E>,
    objects: &mut Objects,
    event: Event<E>,
) -> Result<(), Event<E>>
    requires live { NamesLive (object_of objects.old) event }
    requires sender { HasRoom objects.old (length event.arguments.items + 1) event.sender }
    requires arguments { ArgumentsHaveRoom objects.old event }
    ensures events { OnOk result (IsAppended queue.old.events.items event queue.new.events.items) }
    ensures references { OnOk result (AddsNames objects.old event objects.new) }
    ensures given_back { IfErr result (λ e. e ≡ event) }
    ensures refused { OnErr result (queue.new.events.items ≡ queue.old.events.items) }
    ensures unreferred { OnErr result (KeepsReferences objects.old objects.new) }
    ensures kept { queue.new.is_dropped ≡ queue.old.is_dropped }
    ensures objects { KeepsObjects objects.old objects.new }
{
    if queue.events.reserve(1).is_err() {
        return Err(event);
    }
    hold_all(objects, &event.arguments);
    objects.hold(event.sender);
    queue.events.push_back_reserved(event);
    Ok(())
}

/// Why the event is not put, if it is not: it names a slot that has no object, or one that was destroyed; or objects that are named
/// too often for a count. That many names do not fit into memory.
fn refusal<E>(objects: &Objects, event: &Event<E>) -> Option<PutError>
    ensures { result ≡ refusal_of (object_of objects.now) (references_of objects.now) event.now }
{
    if !is_live(objects, event.sender) {
        return Some(PutError::NoObject);
    }
    if !are_live(objects, &event.arguments) {
        return Some(PutError::NoObject);
    }
    let more = event.arguments.len() as u64 + 1;
    if !is_countable(objects, event.sender, more) {
        return Some(PutError::OutOfMemory);
    }
    if !are_countable(objects, &event.arguments, more) {
        return Some(PutError::OutOfMemory);
    }
    None
}

/// The sender of the first event of the queue, if one waits.
fn first_sender<E>(queue: &Queue<E>) -> Option<usize>
    ensures sender { IfSome result (λ o. IsFirstSender o queue.now.events.items) }
    ensures none { IfNone result (queue.now.events.items ≡ []) }
{
    Some(queue.events.front()?.sender)
}

/// Frees the memory of the queue, if it was dropped and no event waits in it.
fn free_if_done<E: Drop>(queue: &mut Queue<E>)
    ensures events { queue.new.events.items ≡ queue.old.events.items }
    ensures kept { queue.new.is_dropped ≡ queue.old.is_dropped }
{
    if queue.is_dropped && queue.events.is_empty() {
        queue.events = VecDeque::new(*queue.events.allocator());
    }
}

/// The queue is dropped. Its events stay.
fn drop_one<E: Drop>(queue: &mut Queue<E>)
    ensures events { queue.new.events.items ≡ queue.old.events.items }
    ensures dropped { queue.new.is_dropped ≡ true }
{
    queue.is_dropped = true;
    free_if_done(queue);
}

/// Takes the first event out of the queue, in which one waits.
fn take_first<E: Drop>(queue: &mut Queue<E>) -> Event<E>
    requires { 0 < length queue.old.events.items }
    ensures event { queue.old.events.items ≡ result ∷ queue.new.events.items }
    ensures kept { queue.new.is_dropped ≡ queue.old.is_dropped }
{
    let first = queue.events.pop_front().unwrap();
    free_if_done(queue);
    first
}

/// Events that wait in queues, and that were handed out. It stands for the `wl_event_queue`s of a `wl_display`, and for what
/// libwayland does with the references of proxies.
///
/// An *object* has a slot, from `add` until `next_unused` tells it. Each event waits in the queue that its sender had when it was
/// put. `next_of` hands it out with a ticket, or says why it is dropped. An object that the program destroys stays in its slot as
/// long as an event that waits or is in hand names it.
///
/// A call that refuses changes nothing. No contract of these calls says which slot a new object gets, nor which of several unused
/// objects is told first: it is the slot that was freed last, or a new one if none is free; and the object that became unused first.
#[derive(Drop)]
pub struct Queues<E> {
    objects: Objects,
    queues: Vec<Queue<E>>,
    in_hand: Vec<Held<E>>,
    /// How many tickets were given out.
    tickets: u64,
    failed: bool,
    ghost counted: { IsCounted objects.slots.items queues.items in_hand.items },
    ghost given_out: { AreGivenOut in_hand.items tickets },
}

impl<E: Drop> Queues<E> {
    ghost use Rattle.wl_queues.specs.Queues.{HasNoTicket, IsAlike, IsOpen, IsUnused, argument_of, event_of, has_events, put_of};
    ghost use Rattle.wl_queues.specs.Queues as call;
    ghost use Rattle.wl_queues.specs.Nexts.{LacksTicket, NeedsPlace, Nexts};
    ghost use Rattle.wl_queues.specs.Runs.{new_queues};
    ghost use Rattle.wl_queues.specs.States.{Calls, IsLive, IsUnchanged, all_objects, state_of};

    /// Queues without objects. There is one queue, the default queue: its number is 0, and it is never dropped.
    ///
    /// Errors: `AllocError`, if there is no memory for it.
    pub fn new(alloc: Global) -> Result<Self, AllocError>
        ensures { IfOk result (λ queues. IsAlike new_queues (state_of queues)) }
    {
        let mut queues = Vec::new(alloc);
        queues.push(Queue {
            events: VecDeque::new(alloc),
            is_dropped: false,
        })?;
        Ok(Queues {
            objects: Objects::new(alloc),
            queues,
            in_hand: Vec::new(alloc),
            tickets: 0,
            failed: false,
        })
    }

    /// Whether the queue is there, and was not dropped.
    fn is_open(&self, queue: usize) -> bool
        ensures { IsTrue result ↔ IsOpen (state_of self.now) queue }
    {
        queue < self.queues.len() && !self.queues[queue].is_dropped
    }

    /// Makes a queue. Its number is that of no other queue, also of none that was dropped: the first is 1, and each is one more than
    /// the one before. It stands for `wl_display_create_queue`.
    ///
    /// Errors: `AllocError`, if there is no memory for it; no queue is made then.
    pub fn new_queue(&mut self) -> Result<usize, AllocError>
        ensures made { IfOk result (λ queue. Calls self.old (call.NewQueue queue) self.new) }
        ensures refused { OnErr result (IsUnchanged self.old self.new) }
    {
        let queue = self.queues.len();
        let alloc = *self.queues.allocator();
        self.queues.push(Queue {
            events: VecDeque::new(alloc),
            is_dropped: false,
        })?;
        Ok(queue)
    }

    /// Drops the queue. Its objects have the default queue from now on. The events that wait in it come out of `next_of` as dropped.
    /// It takes no memory, and the queue's own is freed once no event waits in it. It stands for `wl_event_queue_destroy`.
    ///
    /// Errors: `NoQueue`, if it is the default queue, 0, or if no such queue was made, or it was dropped already.
    pub fn drop_queue(&mut self, queue: usize) -> Result<(), NoQueue>
        ensures dropped { OnOk result (Calls self.old (call.DropQueue queue) self.new) }
        ensures no_queue { OnErr result ((queue ≡ 0) ⊎ ¬ IsOpen (state_of self.old) queue) }
        ensures refused { OnErr result (IsUnchanged self.old self.new) }
    {
        if queue == 0 || !self.is_open(queue) {
            return Err(NoQueue);
        }
        drop_one(&mut self.queues[queue]);
        self.objects.leave_queue(queue);
        Ok(())
    }

    /// Adds an object, whose events wait in this queue. The answer is its slot, which had no object. The content is the host's own, often
    /// a pointer to what it keeps of the object: `object` and `next_unused` tell it.
    ///
    /// Errors: `NoQueue`, if no such queue was made, or it was dropped; `OutOfMemory`, if there is no memory for the object.
    pub fn add(&mut self, queue: usize, content: u64) -> Result<usize, AddError>
        ensures added { IfOk result (λ object. Calls self.old (call.Add object queue content) self.new) }
        ensures no_queue { (result ≡ Err AddError.NoQueue) ↔ ¬ IsOpen (state_of self.old) queue }
        ensures refused { OnErr result (IsUnchanged self.old self.new) }
    {
        if !self.is_open(queue) {
            return Err(AddError::NoQueue);
        }
        match self.objects.add(queue, content) {
            Ok(object) => Ok(object),
            Err(_) => Err(AddError::OutOfMemory),
        }
    }

    /// Events of the object that are still to come wait in this queue. Those that wait stay where they are. It takes no memory. It
    /// stands for `wl_proxy_set_queue`.
    ///
    /// Errors: `NoObject`, if the slot has no object, or one that was destroyed; else `NoQueue`, if no such queue was made, or it was
    /// dropped.
    pub fn set_queue(&mut self, object: usize, queue: usize) -> Result<(), SetQueueError>
        ensures set { OnOk result (Calls self.old (call.SetQueue object queue) self.new) }
        ensures no_object { (result ≡ Err SetQueueError.NoObject) ↔ ¬ IsLive self.old object }
        ensures no_queue { result ≡ Err SetQueueError.NoQueue → ¬ IsOpen (state_of self.old) queue }
        ensures refused { OnErr result (IsUnchanged self.old self.new) }
    {
        if !is_live(&self.objects, object) {
            return Err(SetQueueError::NoObject);
        }
        if !self.is_open(queue) {
            return Err(SetQueueError::NoQueue);
        }
        self.objects.set_queue(object, queue);
        Ok(())
    }

    /// The program destroys the object. Events of it that wait are dropped by `next_of`. It takes no memory. It stands for
    /// `wl_proxy_destroy`.
    ///
    /// Errors: `NoObject`, if the slot has no object, or one that was destroyed already.
    pub fn destroy(&mut self, object: usize) -> Result<(), NoObject>
        ensures destroyed { OnOk result (Calls self.old (call.Destroy object) self.new) }
        ensures no_object { OnErr result (¬ IsLive self.old object) }
        ensures refused { OnErr result (IsUnchanged self.old self.new) }
    {
        if !is_live(&self.objects, object) {
            return Err(NoObject);
        }
        self.objects.destroy(object);
        Ok(())
    }

    /// Puts the event into the queue that its sender has now, behind those that wait there.
    ///
    /// Errors: `NoObject`, if it names a slot that has no object, or one that was destroyed, as its sender or as an argument; else
    /// `OutOfMemory`, if there is no memory for its place in the queue, or if a count of names would pass 2^64 - 1. The event comes
    /// back with the error.
    pub fn put(&mut self, event: Event<E>) -> Result<(), PutRefused<E>>
        ensures put { OnOk result (Calls self.old (put_of (state_of self.old) event) self.new) }
        ensures no_object { IfErr result (λ r. r.error ≡ PutError.NoObject
            → ¬ NamesLive (all_objects self.old) event) }
        ensures memory { IfErr result (λ r. r.error ≡ PutError.OutOfMemory
            → NamesLive (all_objects self.old) event) }
        ensures given_back { IfErr result (λ r. r.event ≡ event) }
        ensures refused { OnErr result (IsUnchanged self.old self.new) }
    {
        if let Some(error) = refusal(&self.objects, &event) {
            return Err(PutRefused { error, event });
        }
        let queue = self.objects.get(event.sender).queue;
        match append(&mut self.queues[queue], &mut self.objects, event) {
            Ok(()) => Ok(()),
            Err(event) => Err(PutRefused {
                error: PutError::OutOfMemory,
                event,
            }),
        }
    }

    /// Takes the first event out of the queue. It is handed out, or dropped: if the session failed, if the queue was dropped, or if
    /// its sender was destroyed. `Next::Nothing`: none waits. The ticket of an event that is handed out names it (`event`).
    ///
    /// Errors: `NoQueue`, if no such queue was made; one that was dropped still gives its events. If the first event is to be handed
    /// out: `TicketsExhausted`, exactly if each ticket was given out, and else `OutOfMemory`, if there is no memory for its place in
    /// hand. That an event is dropped, and that none waits, needs no memory and no ticket.
    pub fn next_of(&mut self, queue: usize) -> Result<Next<E>, NextError>
        ensures next { IfOk result (λ n. Nexts (state_of self.old) queue n (state_of self.new)) }
        ensures no_queue { (result ≡ Err NextError.NoQueue) ↔ ((state_of self.old).queues ≤ queue) }
        ensures exhausted { (result ≡ Err NextError.TicketsExhausted)
            ↔ LacksTicket (state_of self.old) queue }
        ensures memory { result ≡ Err NextError.OutOfMemory → NeedsPlace (state_of self.old) queue }
        ensures refused { OnErr result (IsUnchanged self.old self.new) }
    {
        if queue >= self.queues.len() {
            return Err(NextError::NoQueue);
        }
        let is_dropped = self.queues[queue].is_dropped;
        let Some(sender) = first_sender(&self.queues[queue]) else {
            return Ok(Next::Nothing);
        };
        let is_alive = is_live(&self.objects, sender);
        if let Some(reason) = reason_against_handing(self.failed, is_dropped, is_alive) {
            let event = take_first(&mut self.queues[queue]);
            release(&mut self.objects, &event);
            return Ok(Next::Dropped(reason, event));
        }
        if self.tickets == u64::MAX {
            return Err(NextError::TicketsExhausted);
        }
        if self.in_hand.reserve(1).is_err() {
            return Err(NextError::OutOfMemory);
        }
        let event = take_first(&mut self.queues[queue]);
        let ticket = self.tickets;
        self.tickets += 1;
        self.in_hand.push_reserved(Held { ticket, event });
        Ok(Next::Handed(ticket))
    }

    /// Ends the event that was handed out with this ticket, and gives it back. Events are finished in any order. It takes no
    /// memory, and time that grows with the number of events in hand.
    ///
    /// `None`: no event with this ticket is in hand. None was handed out with it, or it was finished already.
    pub fn finish(&mut self, ticket: u64) -> Option<Event<E>>
        ensures finished { IfSome result (λ e. Calls self.old (call.Finish ticket e) self.new) }
        ensures none { IfNone result (HasNoTicket (state_of self.old) ticket) }
        ensures refused { IfNone result (IsUnchanged self.old self.new) }
    {
        let place = place_by_ticket(&self.in_hand, ticket)?;
        let held = self.in_hand.remove(place);
        release(&mut self.objects, &held.event);
        Some(held.event)
    }

    /// The session has failed: no event is handed out any more. It takes no memory.
    pub fn fail(&mut self)
        ensures { Calls self.old call.Fail self.new }
    {
        self.failed = true;
    }

    /// Tells an object that is *unused*: the program destroyed it, and no event that waits or is in hand names it any more. It tells
    /// also the content with which the object was added. Its slot is free from now on. It takes no memory.
    ///
    /// `None`: there is no such object.
    pub fn next_unused(&mut self) -> Option<UnusedObject>
        ensures unused { IfSome result (λ u. Calls self.old (call.NextUnused u.object u.content) self.new) }
        ensures none { IfNone result ((o : ℕ) → ¬ IsUnused (state_of self.old) o) }
        ensures refused { IfNone result (IsUnchanged self.old self.new) }
    {
        self.objects.next_unused()
    }

    /// The object in the slot: in which queue its events wait that are still to come, whether it is destroyed, and its content. Of a
    /// slot that has no object, also of one that was never used, it answers `Fate::Free`, the default queue, and 0.
    pub fn object(&self, object: usize) -> Object
        ensures { result ≡ (state_of self.now).objects object }
    {
        self.objects.get(object)
    }

    /// Whether an event waits in the queue. `Readers::prepare` asks for it. In a queue that was not made none does.
    pub fn has_events(&self, queue: usize) -> bool
        ensures { result ≡ has_events (state_of self.now) queue }
    {
        queue < self.queues.len() && !self.queues[queue].events.is_empty()
    }

    /// The event that is in hand with this ticket. It takes time that grows with the number of events in hand; that is small, mostly
    /// one for each thread that dispatches.
    ///
    /// `None`: no event with this ticket is in hand. None was handed out with it, or it was finished already.
    pub fn event(&self, ticket: u64) -> Option<&Event<E>>
        ensures { option_copied result ≡ event_of (state_of self.now) ticket }
    {
        let place = place_by_ticket(&self.in_hand, ticket)?;
        Some(&self.in_hand[place].event)
    }

    /// The object that is an argument of the event in hand with this ticket, at this place among its `arguments`, from 0 on. It takes
    /// as much time as `event`.
    ///
    /// `None`: the object was destroyed, so the argument is null now; or no event with this ticket is in hand; or it has no argument at
    /// this place.
    pub fn argument(&self, ticket: u64, place: usize) -> Option<usize>
        ensures argument { result ≡ argument_of (state_of self.now) ticket place }
    {
        let event = self.event(ticket)?;
        let object = *event.arguments.get(place)?;
        if is_live(&self.objects, object) {
            Some(object)
        } else {
            None
        }
    }
}
