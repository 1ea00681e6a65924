//! By what is tested.

mod drills;
mod no_memory;
mod order;
mod readers;
mod refused;
mod unused;
