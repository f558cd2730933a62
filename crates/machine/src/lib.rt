//! The machine that works a rule out, over any store.
//!
//! In come the nodes of a rule, a store with the handle of the environment to begin in, and granted steps; out come a
//! state and a count. The machine seeks a value downwards, and comes back with it through the open operations to one
//! that is ready. That is reduced while a step is left of those granted; else the machine waits.
//!
//! Proved: over every store, the machine stands where the run is reckoned on plain lists, step for step.
#![tactic(auto)]

pub mod next;
pub mod operand;
pub mod operation;
pub mod operations;
pub mod reduce;
pub mod seek;
pub mod settle;
pub mod steps;

pub use steps::Machine;
