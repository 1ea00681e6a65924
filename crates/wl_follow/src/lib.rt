//! What is said over a Wayland connection, followed from outside: its messages one by one, by the table of interfaces, and the
//! objects that they make and end.
//!
//! A follower stands beside a connection, and sees what both sides send. It knows the objects by their numbers, from the display
//! on: only so can it tell which message some bytes are.
//!
//! | Subject | Code | Definitions, in `specs/` |
//! |---|---|---|
//! | the sides, and why one is read no further | `side` | `Sides` |
//! | the objects | `objects` | `Objects` |
//! | the message at the front of what a side sent | `front` | `Fronts` |
//! | a follower, which keeps what was sent and tells the messages | `follower`, `sent` | `Following`, `Sent` |
//! | calls of it one after another | `laws` | `Runs` |
#![tactic(auto)]

mod follower;
mod front;
pub mod laws;
mod objects;
mod sent;
mod side;

pub use follower::{Follower, Told, What};
pub use front::{Found, MessageSource, NoMessage, read_front};
pub use objects::{Deletions, UnknownInterfaces, first_objects, note_objects};
pub use side::{Fault, Side};
