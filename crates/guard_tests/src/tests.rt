//! By what is tested.

mod policies;
mod sessions;
