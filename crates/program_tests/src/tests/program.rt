//! The tests of the program `wl-bench`: for its arguments and its input, what it prints, what it tells on standard error, and
//! its exit status.

mod drill;
mod failing;
mod process;
mod rows;
