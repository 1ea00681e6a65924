//! Events: what they name, and what becomes of them.

ghost use Rattle.std.specs.Prelude.{◌≡◌, ◌↔◌, ℕ, ◌+◌, ◌≤◌, All, IsTrue, length};
ghost use Rattle.std.specs.List.{list_all, position};
ghost use Rattle.wl_queues.specs.Events.{has_ticket, reason_against, times_in, times_named};
ghost use Rattle.wl_queues.specs.Inside.Objects.{AddsReferences, HasRoom, IsLiveIn, KeepsObjects, TakesReferences, object_of, references_of};
ghost use Rattle.wl_queues.specs.Inside.Refusals.{has_room};
ghost use Rattle.wl_queues.specs.Objects.{is_alive};

use crate::objects::{Fate, Objects};

/// An event: the object that it is for, the objects among its arguments, and all else, of which nothing is said.
#[derive(Drop)]
pub struct Event<E> {
    /// The slot of the object that it is for.
    pub sender: usize,
    /// The slots of the objects among its arguments, in their order. An argument that is null is left out.
    pub arguments: Vec<usize>,
    /// All else: the host's own. It is kept with the event, and comes out with it.
    pub content: E,
}

/// An event that was handed out, and is not finished.
#[derive(Drop)]
pub struct Held<E> {
    /// The number by which the host names the event until it is finished: from 0 to 2^64 - 2 in their order, and each is given out once.
    pub ticket: u64,
    /// The event, with all that it owns.
    pub event: Event<E>,
}

/// Why an event is dropped, and not handed out. If more than one reason holds, it is the first of these.
#[derive(Clone, Copy, Debug, PartialEq, Eq)]
pub enum Reason {
    /// The session failed.
    SessionFailed,
    /// The queue in which it waited was dropped.
    QueueDropped,
    /// The object that it is for was destroyed.
    SenderDestroyed,
}

/// Why an event is not handed out, if it is not.
pub(crate) fn reason_against_handing(
    failed: bool,
    is_dropped: bool,
    is_alive: bool,
) -> Option<Reason>
    ensures reason { result ≡ reason_against failed is_dropped is_alive }
{
    if failed {
        return Some(Reason::SessionFailed);
    }
    if is_dropped {
        return Some(Reason::QueueDropped);
    }
    if is_alive {
        None
    } else {
        Some(Reason::SenderDestroyed)
    }
}

/// Whether the slot has an object that is not destroyed.
pub(crate) fn is_live(objects: &Objects, object: usize) -> bool
    ensures live { IsTrue result ↔ IsLiveIn objects.now object }
    ensures value { result ≡ is_alive (object_of objects.now object).fate }
{
    match objects.get(object).fate {
        Fate::Alive => true,
        Fate::Free | Fate::Destroyed => false,
    }
}

/// Whether each of these objects is there, and not destroyed.
pub(crate) fn are_live(objects: &Objects, arguments: &[usize]) -> bool
    ensures { result ≡ list_all (λ o. is_alive (object_of objects.now o).fate) arguments.now }
{
    arguments.iter().all(|object| is_live(objects, *object))
}

/// Whether the object can be referred to so often more.
pub(crate) fn is_countable(objects: &Objects, object: usize, more: u64) -> bool
    ensures { result ≡ has_room (references_of objects.now) more object }
{
    objects.references(object) <= u64::MAX - more
}

/// Whether each of these objects can be referred to so often more.
pub(crate) fn are_countable(objects: &Objects, arguments: &[usize], more: u64) -> bool
    ensures { result ≡ list_all (λ o. has_room (references_of objects.now) more o) arguments.now }
{
    arguments
        .iter()
        .all(|object| is_countable(objects, *object, more))
}

/// These objects are referred to, each once more for each time that it is among them.
pub(crate) fn hold_all(objects: &mut Objects, arguments: &[usize])
    requires live { All (λ o. IsLiveIn objects.old o) arguments.now }
    requires room { All (λ o. HasRoom objects.old (length arguments.now + 1) o) arguments.now }
    ensures objects { KeepsObjects objects.old objects.new }
    ensures references { AddsReferences objects.old objects.new (λ o. times_in o arguments.now) }
{
    for object in arguments {
        objects.hold(*object);
    }
}

/// These objects are referred to once less for each time that it is among them.
pub(crate) fn release_all(objects: &mut Objects, arguments: &[usize])
    requires { (o : ℕ) → times_in o arguments.now ≤ references_of objects.old o }
    ensures objects { KeepsObjects objects.old objects.new }
    ensures references { TakesReferences objects.old objects.new (λ o. times_in o arguments.now) }
{
    for object in arguments {
        objects.release(*object);
    }
}

/// The event names its objects no more.
pub(crate) fn release<E>(objects: &mut Objects, event: &Event<E>)
    requires { (o : ℕ) → times_named o event.now ≤ references_of objects.old o }
    ensures objects { KeepsObjects objects.old objects.new }
    ensures references { TakesReferences objects.old objects.new (λ o. times_named o event.now) }
{
    release_all(objects, &event.arguments);
    objects.release(event.sender);
}

/// Where the event with this ticket stands.
pub(crate) fn place_by_ticket<E>(in_hand: &[Held<E>], ticket: u64) -> Option<usize>
    ensures { result ≡ position (has_ticket ticket) in_hand.now }
{
    in_hand.iter().position(|held| held.ticket == ticket)
}
