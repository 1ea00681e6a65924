//! What the tests share: calls of a client as data, and how their answers are told.
//!
//! | Subject | Code |
//! |---|---|
//! | objects and requests as data | `values` |
//! | the steps of a run by `replay` as data | `steps` |
//! | what a client's calls answer, a line each | `told` |
//! | a transport that counts its drop | `line` |
//! | a table in which an event names a child interface and has no new id | `table` |

pub mod line;
pub mod steps;
pub mod table;
pub mod told;
pub mod values;
