//! The tests of `wl_queues`. They call public items alone, and nothing stands on this crate.
#![tactic(auto)]

#[cfg(test)]
mod drill;
#[cfg(test)]
mod run;
#[cfg(test)]
mod tests;
