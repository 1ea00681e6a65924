//! A relay: it stands between a Wayland client and a server, hands on what each of them sends, and logs each message.
//!
//! [`Relay`] holds a link to each side and the objects of the session. [`run`] is the program `wl-relay` over a reader and a
//! writer: it reads the table of interfaces and then what came from each side, a line each, and writes the log and what is to
//! be sent. `main`, in the crate `wl_relay_cli`, gives it the standard streams.
//!
//! | Subject | Code | Definitions, in `specs/` |
//! |---|---|---|
//! | the sides, the objects, and which message comes first | the crate `wl_follow` | `Sides`, `Objects`, `Fronts` of that crate |
//! | what is known, and the log | `notes` | `Log` |
//! | what is handed on, dropped or lowered | `mode`, `notes`, `follow` | `Announcements`, `Log`; `Inside/Passing` |
//! | the relay | `relay` | `Flow`, `Log` |
//! | calls one after another | `laws` | `Runs` |
//! | the words of the program's lines, and its table | `words`, `rows` | `Words`, `Rows`; `Inside/Gathering` |
//! | the program | `commands`, `stop` | `Input`, `Program`; `Inside/Reading` |
#![tactic(auto)]

mod commands;
mod follow;
pub mod laws;
mod mode;
mod notes;
mod relay;
mod rows;
mod stop;
mod words;

pub use commands::{run, status, tell};
pub use mode::Mode;
pub use relay::{ArriveError, Relay};
pub use rows::add_row;
pub use stop::Stop;
pub use wl_follow::{Fault, Side};
