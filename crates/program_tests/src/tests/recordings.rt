//! The tests of `wl-bench record` and `wl-bench replay`.

mod conversations;
mod differences;
