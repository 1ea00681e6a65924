//! Tests of `wl_server` in which each receive, each send and each allocation fails in turn. They call public items alone, and
//! nothing stands on this crate.
#![tactic(auto)]

#[cfg(test)]
mod tests;
