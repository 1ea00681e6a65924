//! Sets of small numbers, in words of 64 bits. They stand on the standard library alone.
//!
//! `FreeTree` says which places of a range are free, and finds the least by one word on each level. `SlotSet` has slots of a
//! list, and finds the next one from a slot on.
#![tactic(auto)]

/// `FreeTree`: which places of a range are free, and the least of them.
pub mod free_tree;
/// `SlotSet`: a set of slots of a list, and the next one from a slot on.
pub mod slot_set;
