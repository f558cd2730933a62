//! The names book: which names a text may use for readings.
//!
//! In come names; the book takes at most eight, each new and at most 32 bytes long, and refuses
//! anything else. It keeps its own copies, so whoever brought a name may reuse its memory.
//!
//! Proved: which names are taken, what the book holds after each call, and which reading a name
//! stands for.
#![tactic(auto)]

pub mod book;
pub mod fault;
pub mod name;
