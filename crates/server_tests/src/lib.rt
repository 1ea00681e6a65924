//! The tests of `wl_server`, but for those in which something fails (`server_fault_tests`), and for the runs that lines of
//! `wl-bench run` can say (`conversations`). They call public items alone, and nothing stands on this crate.
#![tactic(auto)]

#[cfg(test)]
mod tests;
