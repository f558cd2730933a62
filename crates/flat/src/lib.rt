//! The flat store: every list is a copy of its own, side by side in lent slots.
//!
//! In comes a slice of slots; out comes a store in which a look at any distance is one read, and
//! putting an element before a list of n elements copies them, at a cost of n + 2.
//!
//! Proved: the flat store meets the contract of all stores, its whole room is the count of its
//! slots, at most 65,535, and clearing it leaves no element in any slot.
#![tactic(auto)]

pub mod flat_store;
pub mod slot;
mod span;
