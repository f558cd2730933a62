//! Whole runs, and the law that holds of them.
//!
//! In come an accepted rule, a store and a list of calls; out come the reply to each call, what the run tells at its end,
//! and rule and store again. A program makes its calls of runs through `play`, so that the law holds of what it does.
//!
//! Proved, of every accepted rule, all readings, every list of grants, asks and rewinds, over every store with an empty
//! base list: `HoldsOf` in `specs/Law.antt`, of each run that is played, and `Law` of each two.
#![tactic(auto)]

mod follows;
mod playing;
mod turn;

pub use follows::law_follows;
pub use playing::{Both, Played, play, play_two};
pub use turn::{Call, Reply, Turn};
