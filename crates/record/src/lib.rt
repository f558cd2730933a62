//! Records: the bytes that a rule is sent as.
//!
//! In comes a byte string, whatever the cable made of it; out comes the one tree whose record it is, as a table of
//! nodes in prefix order, or the first question that it fails, with a place.
//!
//! Proved: for every byte string the answer is the tree whose record these bytes are, with all variables bound and at
//! most 512 nodes, or the number and the place of the first no.
#![tactic(auto)]

mod bytes;
pub mod fault;
mod head;
pub mod law;
mod reader;
pub mod receive;
pub mod received;
mod tree;
