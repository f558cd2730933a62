//! Verdicts on records as people read them: the type in words, or why a record is not accepted.
//!
//! A record goes in, and with it the text that it was made from or the file that it came in; a type or a
//! message comes out. Nothing is judged here; the library `typing` does that. Every function is proved safe
//! and ending, whatever bytes the record and the text have.
#![tactic(auto)]

mod clash;
mod node_at;
pub mod of_record;
mod of_text;
mod questions;
mod span;
mod standing;
pub mod verdict;
pub mod walk;
pub mod words;
