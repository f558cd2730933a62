//! The figures that every part of the language is held to, from the text on.
//!
//! A text, with the names of its readings, means a tree; the tree has a record; the record is accepted with a type answer
//! or refused; the rule is run on readings. What that comes to is written down here for some texts, all together as one
//! proposition. So the definitions of tokens, grammar, names, records, types, stages and room are held to the same
//! figures, and to one another.
//!
//! Proved: `specs/Figures.antt`. Nothing runs here.
#![tactic(auto)]

ghost use Rattle.figures.specs.Figures.{Figures};

/// Does nothing: its contract is that the figures hold.
pub fn figures_stand()
    ensures { Figures }
{}
