//! Laws that follow from the definitions alone. Each function does nothing; its contract states a law.
//!
//! A *schedule* is a list of what threads do, one after another. A *run* is a list of calls of queues, each with its answer, from
//! new queues on.

ghost use Rattle.wl_queues.specs.Runs.{AccountsForQueues, DropsForGood, HandsNoneOutAfterFailing, NamesNoFreeObject, TellsEachContent, TellsEachObjectUnusedOnce};
ghost use Rattle.wl_queues.specs.Schedules.{AtMostOneReads, NoneIsLeftWaiting};

/// The law of reading: over every schedule of any number of threads, at most one reads at a time.
pub fn at_most_one_thread_reads()
    ensures every { AtMostOneReads }
{}

/// The law of waiting: over every schedule of any number of threads, a thread that waits, waits for a turn that has ended, so that
/// it goes on as soon as it looks; or for the turn that goes on, and then another thread has prepared or reads, whose `begin`,
/// `end` or `cancel` is still to come. Nothing is said of when it comes.
pub fn no_thread_is_left_waiting()
    ensures every { NoneIsLeftWaiting }
{}

/// The account of a queue: over every run, what came into it is what left it, in the same order, and behind that what waits.
///
/// An event leaves a queue only by `next_of`, which hands it out or drops it. So each event comes out once, with what it owns; and
/// the events of an object come out in their order, as long as they came into one queue.
pub fn each_queue_is_accounted_for<E>()
    ensures every { AccountsForQueues E }
{}

/// The law of unused objects: over every run, `next_unused` told each object that was added to a slot once, but for the one that is
/// there now.
pub fn each_object_is_told_unused_once<E>()
    ensures every { TellsEachObjectUnusedOnce E }
{}

/// The law of contents: over every run, the contents with which objects were added to a slot are those that `next_unused` told with
/// it, in the same order, and behind that the content of the object that is there now.
///
/// So an object is told with the content with which it was added, whatever came between.
pub fn each_object_is_told_with_its_content<E>()
    ensures every { TellsEachContent E }
{}

/// The law of names: over every run, no event that waits or is in hand names a slot that is free.
///
/// So when `next_unused` tells an object, no event names it; and as long as its slot is free, none comes to name it. Once the slot is
/// used again, the law says nothing of the former object by itself: that none names it then follows from what it says of each
/// beginning of the run, since a slot is used again only after it was free.
pub fn no_event_names_a_free_object<E>()
    ensures every { NamesNoFreeObject E }
{}

/// The law of dropped queues: over every run, a queue that was dropped stays dropped. No event comes into it, and none of it is
/// handed out.
pub fn a_dropped_queue_stays_dropped<E>()
    ensures every { DropsForGood E }
{}

/// The law of failing: a session that failed stays failed, and no event is handed out.
pub fn a_failed_session_hands_nothing_out<E>()
    ensures every { HandsNoneOutAfterFailing E }
{}
