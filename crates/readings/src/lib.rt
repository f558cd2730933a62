//! Run values, and the readings layer over a store of them.
//!
//! In comes any store of run values whose base list is empty, with the readings of a rule; out
//! comes a store in which the readings stand behind every list, so that a variable beyond the
//! binders finds its reading by the same look as any other.
//!
//! Proved: whatever the store below, the layer meets the contract of all stores; its base list
//! is the readings, its room is the room below, and each list costs what it costs below.
#![tactic(auto)]

pub mod environments;
pub mod layer;
pub mod readings_list;
