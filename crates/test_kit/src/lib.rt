//! What the tests of several crates share.
//!
//! | Subject | Code |
//! |---|---|
//! | messages as data, and how a message is told in a line | `message` |
//! | a table of interfaces with two of the tests' own | `quad` |
//! | bytes that arrive, and the ways in which they are cut | `cuts` |
//! | what a run tells, compared with what it has to tell | `log` |
//! | runs in which something fails | `faults` |
//! | values that count their drops | `counted` |
//! | the names of calls that take no memory | `no_memory` |
#![tactic(auto)]

pub mod counted;
pub mod cuts;
pub mod faults;
pub mod log;
pub mod message;
pub mod no_memory;
pub mod quad;
