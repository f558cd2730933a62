//! Cuts a text into tokens.
//!
//! In comes a text and a place in it; out comes the next token, a part of that text with its place,
//! or the reason why there is none. Nothing is copied and nothing is kept.
//!
//! Proved: the token is the longest that begins there, and a number's value is what its digits come
//! to; where there is none, the number and the place of the refusal are exact.
#![tactic(auto)]

pub mod ask;
pub mod fault;
pub mod number;
mod run;
pub mod scan;
mod start;
pub mod token;
