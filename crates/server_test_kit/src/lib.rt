//! What the tests of `wl_server` share: calls of a server as data, and how their replies are told.
//!
//! | Subject | Code |
//! |---|---|
//! | clients, globals, objects and events as data | `values` |
//! | the steps of a run by `replay` as data | `steps` |
//! | what a server's calls answer, a line each | `told` |
//! | bytes that a client sends | `arrivals` |
//! | a handler of globals and a transport that count their drops | `counted` |
#![tactic(auto)]

pub mod arrivals;
pub mod counted;
pub mod steps;
pub mod told;
pub mod values;
