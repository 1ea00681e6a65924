//! The examples of the page of `wl_server`, run as tests. Nothing stands on this crate.
#![tactic(auto)]

#[cfg(test)]
mod tests;
