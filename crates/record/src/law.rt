//! Reading and writing undo each other, and what is read is one tree.
ghost use Rattle.record.specs.Laws.{OneReading, OneTree};

/// Does nothing: its contract is that the record of a tree is read as this tree and no other, and that a byte string
/// gets one refusal at most.
pub fn one_reading()
    ensures { OneReading }
{}

/// Does nothing: its contract is that the nodes that are received are those of one tree and no other.
pub fn one_tree()
    ensures { OneTree }
{}
