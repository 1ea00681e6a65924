//! Queues of events for C: their place, and the calls of `nb_queues_`.
//!
//! | Calls | File |
//! |---|---|
//! | `start`, `end`, `new_queue`, `drop_queue`, `has_events`, `fail` | `whole` |
//! | `add`, `set_queue`, `destroy`, `object`, `next_unused` | `objects` |
//! | `put`, `next_of`, `event`, `argument`, `finish` | `events` |

mod events;
mod kept;
mod objects;
mod place;
mod whole;

pub use place::QueuesPlace;
