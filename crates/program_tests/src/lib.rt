//! The tests of the programs `wl-bench` and `wl-relay`: of `wl_bench`, `wl_replay`, `wl_bench_program` and `wl_relay`. They call
//! public items alone, and nothing stands on this crate.
#![tactic(auto)]

#[cfg(test)]
mod tests;
