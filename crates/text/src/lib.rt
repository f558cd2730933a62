//! A rule text becomes its record.
//!
//! In come a text, the names book and an output buffer; out comes the record at the front of the
//! buffer and its count of bytes, or a refusal with its number and place. Nothing is allocated: the
//! nodes of a tree and the names in force stand in tables of a fixed size on the stack.
//!
//! Proved of [`compile::compile`]: its answer is the verdict on the text, of which there is one
//! only, and the buffer holds the record of the text's one tree and behind it what it held before.
#![tactic(auto)]

pub mod compile;
pub mod fault;
mod parser;
pub mod refusal;
mod scope;
mod spelling;
mod write;
