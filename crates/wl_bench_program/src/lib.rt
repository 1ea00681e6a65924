//! The program `wl-bench` over its arguments, a reader and two writers.
//!
//! [`perform`] does what the arguments ask for, and returns the exit status. `main`, in the crate `wl_bench_cli`, gives it the
//! arguments and the standard streams of the process. `specs/Program` defines what is printed, and the status.
//!
//! | Subject | Code |
//! |---|---|
//! | which program the arguments name | `arguments` |
//! | what it does | `performing` |
//! | the status, and what is told on standard error | `ending` |
#![tactic(auto)]

mod arguments;
mod ending;
mod performing;

pub use arguments::{Program, asked, program_named};
pub use ending::{status, tell};
pub use performing::{Ended, perform};
