//! The library for C: exports over memory that C lends, each thin over a function of `firmware`.
//!
//! A pointer in a call is null or leads to what the call's contract names: that is C's to see to, and `fun.h` says it in
//! words. A null pointer is refused with 41, and the call then changes nothing. Memory that C lends comes back with each
//! call, but for the cells of a run place, which it keeps for good.
//!
//! Proved: with pointers as the contracts want them, each export does what its function of `firmware` does.
#![tactic(auto)]

mod accepting;
mod compiling;
mod explaining;
mod lent;
mod running;
mod sizes;
mod starting;
mod trying;
