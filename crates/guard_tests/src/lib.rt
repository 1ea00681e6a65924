//! The tests of `wl_guard`. They call public items alone, and nothing stands on this crate.
#![tactic(auto)]

#[cfg(test)]
mod kit;
#[cfg(test)]
mod tests;
