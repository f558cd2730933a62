//! What leads from a text to the rule that a controller reads.
//!
//! `compile` is proved against the verdict on a text, and accepting against the questions to a record. Here the two are
//! joined: definitions and laws, and no code that runs.
//!
//! Proved: what compile writes is never refused by the questions 1 to 9 of accepting, and is read as the very tree that
//! the text means, over as many readings as the book has names. And the number range is one, in texts, in records and
//! in stages.
#![tactic(auto)]

ghost use Rattle.sending.specs.Ranges.{OneRange};
ghost use Rattle.sending.specs.Sending.{WrittenIsRead};

/// Does nothing: its contract is that a record that compile writes is read as the tree that its text means.
pub fn written_is_read()
    ensures { WrittenIsRead }
{}

/// Does nothing: its contract is that texts, records and stages have the same range of numbers.
pub fn one_range()
    ensures { OneRange }
{}
