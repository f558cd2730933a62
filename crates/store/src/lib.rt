//! Environment stores: what a run, or whoever else keeps lists of elements, knows of the memory
//! that it was lent.
//!
//! In come handles, elements and indices; out come fresh handles, elements and the three
//! refusals 31, 32 and 33. Here stand the trait and its contract; each implementation is a
//! crate of its own, and none knows another.
//!
//! Proved of every store: each call answers and leaves exactly what `specs/Lists.antt` says.
#![tactic(auto)]

pub mod blank;
pub mod contract;
pub mod fault;
pub mod room;
