//! The grammar of rule texts, as definitions and laws.
//!
//! Tokens go in, at most one tree comes out. `specs/` says what a token is, which token lists are
//! sentences, which names are in force and how a text is judged; `proofs/` has the laws that the
//! parser leans on. The one thing that code shares with the definitions is [`Mark`].
//!
//! Proved here: a token list has at most one tree, and judging the tokens one at a time decides
//! whether they begin a sentence.
#![tactic(auto)]

ghost use Rattle.grammar.specs.Laws.{OneTree, OneVerdict};

/// Does nothing: its contract is that a token list has at most one tree.
pub fn one_tree()
    ensures { OneTree }
{}

/// Does nothing: its contract is that a text has at most one verdict, so whoever answers by the
/// verdict answers in one way only.
pub fn one_verdict()
    ensures { OneVerdict }
{}

/// A keyword or a sign: a token that is spelled in one way only.
#[derive(Clone, Copy, Debug, PartialEq, Eq)]
pub enum Mark {
    Fun,
    Let,
    In,
    If,
    Then,
    Else,
    True,
    False,
    Arrow,
    Equals,
    AtMost,
    Plus,
    Open,
    Close,
}
