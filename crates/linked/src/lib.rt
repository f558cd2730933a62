//! The linked store: lists that share their ends, over lent cells.
//!
//! In comes a slice of cells; out comes a store in which every list is one cell before an older
//! list, whatever the kind of element, so that putting an element before a list costs 1. A cell
//! tells the length of its list and leads far down, so that a look reads few cells.
//!
//! Proved: the linked store meets the contract of all stores, its whole room is the count of
//! its cells, at most 65,535, and after clearing it the blank stands in every cell.
#![tactic(auto)]

pub mod cell;
pub mod linked;
