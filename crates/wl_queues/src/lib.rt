//! What stands between a client's session and the listeners of a program: who reads, in which queue each event waits, what is
//! handed out, and when an object's data can be freed.
#![tactic(auto)]

/// Events: what they name, and what becomes of them.
mod events;
/// Laws that follow from the definitions alone: of every schedule of threads, and of every run of calls.
pub mod laws;
/// The objects, each in a slot.
mod objects;
/// The queues, and the events that were handed out.
mod queues;
/// Which of several threads reads.
mod readers;

pub use events::{Event, Held, Reason};
pub use objects::{Fate, Object, UnusedObject};
pub use queues::{
    AddError, Next, NextError, NoObject, NoQueue, PutError, PutRefused, Queues, SetQueueError,
};
pub use readers::{NotPrepared, NotReading, PrepareError, Readers, Turn};
