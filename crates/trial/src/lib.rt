//! A trial: one call from a text to a report.
//!
//!     let Tried { place, store, result } = trial(text, &book, .., place, store, &[80], 500);
//!
//! In come a text with its names book, buffers, a rule place, a store, readings and a count of steps. The text is
//! compiled, its record accepted, the rule started, rewound with the readings, granted the steps once where it waits,
//! asked and closed. The first refusal ends that, with its number, its place and its layer, and with buffers as the calls
//! so far leave them. Rule place and store are taken and given back beside the result.
//!
//! Proved, for all input: `specs/Trying.antt` says what each result means, and what buffers, rule place and store are then.
#![tactic(auto)]

pub mod fault;
mod trying;

pub use fault::{Layer, TrialFault};
pub use trying::{Success, Tried, trial};
