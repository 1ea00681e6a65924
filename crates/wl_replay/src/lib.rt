//! Recordings of `wl-bench` replayed: their commands are carried out again, and what they print today is compared with what was
//! recorded.
//!
//! [`replay`] reads a recording, writes the verdict as a line, and returns it. `specs/Replay` defines verdicts; the page
//! `docs/bench.md` has the language of the lines. `laws` says which verdict a recording has (`specs/OneVerdict`): what was
//! recorded is the same again, and else the first line is named that differs.
#![tactic(auto)]

mod laws;
mod recording;

pub use recording::{Replayed, replay};
