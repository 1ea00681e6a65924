//! The commands of the program `wl-bench`, which drive a server by lines of text, and recordings of them.
//!
//! [`commands::run_commands`] carries out the lines of a reader and writes what they answer, [`commands::record`] writes each line
//! with its answer; the crate `wl_replay` compares such a recording with the answers of today. [`sync::request`] and
//! [`sync::answer`] are the first exchange of a client and a server. `docs/bench.md` has the language of the lines.
//!
//! | Subject | Code | Definitions, in `specs/` |
//! |---|---|---|
//! | the first exchange | `sync`, `hex` | `Sync`, `Hex` |
//! | which lines are commands | `command`, `words` | `Commands` |
//! | what a command does, and what it prints | `bench`, `latest`, `table`, `answer` | `Bench`, `Table`, `Answers` |
//! | runs and records | `commands`, `stop` | `Record` |
//! | laws of commands | `laws` | `Apart`, `OneLine`, `OneOutcome` |
#![tactic(auto)]

mod answer;
pub mod bench;
pub mod command;
pub mod commands;
pub mod hex;
mod latest;
pub mod laws;
pub mod stop;
pub mod sync;
mod table;
pub mod words;
