//! The tree of a rule and the record it is sent as: definitions, limits and nodes that every layer above shares.
//!
//! What a reader must believe stands in `specs/Tree.antt` and `specs/Record.antt`. The code here says what a node
//! of a table is and which byte stands for which kind of node, once for those who write records and those who read
//! them.
#![tactic(auto)]

pub mod kind;
pub mod limits;
pub mod node;
