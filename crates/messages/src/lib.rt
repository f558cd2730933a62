//! Refusals as people read them: what is wrong, where, why it is refused and what to write instead.
//!
//! A fault and the text it was found in go in, a message comes out, in the layout of compilers:
//! the number in brackets, the file with line and column, the line itself with carets under the
//! token, and two notes. Nothing is judged here; the library `text` has done that. What records and
//! types are refused for is told by `verdicts`, in the frame that stands here. Every function is
//! proved safe and ending, whatever bytes the text has.
#![tactic(auto)]

mod context;
pub mod file;
pub mod frame;
mod line;
mod meant;
pub mod names;
pub mod near;
pub mod paint;
mod quote;
pub mod reason;
mod reasons;
pub mod refusal;
pub mod rule_text;
mod snippet;
pub mod tokens;
pub mod written;
