//! The nodes of a tree while it is read: a table of 512, children before their parents.
//!
//! In come nodes, out come their places. The table never refuses: a tree with more nodes is noticed
//! by one node too many, and only a tree that fits is ever looked at.
//!
//! Proved: what the table holds after each node, and, in `proofs/Growing`, that it holds a tree
//! where its parts were put in one after another.
#![tactic(auto)]

pub mod table;
