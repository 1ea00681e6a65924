//! The examples of the pages, run as tests. Nothing stands on this crate.
#![tactic(auto)]

#[cfg(test)]
mod tests;
