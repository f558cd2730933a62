//! The tokens of a text, one after another.
ghost use Rattle.std.specs.Prelude.{◌≡◌, ◌-◌, length};
ghost use Rattle.messages.specs.Begins.{begins_node};
ghost use Rattle.std.specs.Iterator.{at_most};

use grammar::Mark;
use lexer::scan::next_part;
use lexer::token::{Placed, Token};

/// A token with its place, and the token before it.
// With a `Placed` inside, whoever draws or counts a piece would name each of its parts by one step more.
#[derive(Clone, Copy)]
pub struct Piece<'a> {
    pub before: Option<Token<'a>>,
    pub token: Token<'a>,
    pub place: usize,
    pub stop: usize,
}

impl Piece<'_> {
    /// Whether a node begins with it: with a number, a truth, a name, `fun`, `let` or `if`. A name behind `fun` or
    /// `let` is opened there, and no node.
    pub fn begins_node(&self) -> bool
        ensures { result ≡ begins_node self.now.before self.now.token }
    {
        match self.token {
            Token::Name(_) => !matches!(self.before, Some(Token::Mark(Mark::Fun | Mark::Let))),
            Token::Number(_) => true,
            Token::Mark(Mark::True | Mark::False | Mark::Fun | Mark::Let | Mark::If) => true,
            _ => false,
        }
    }

    /// Whether a node has it between its children: a sum or a comparison.
    fn joins(&self) -> bool {
        matches!(self.token, Token::Mark(Mark::Plus | Mark::AtMost))
    }

    /// Whether an argument begins with it: an operand that follows another.
    fn begins_argument(&self) -> bool {
        self.token.starts_atom() && self.before.is_some_and(|before| ends_operand(before))
    }

    /// How many nodes it brings.
    fn nodes(&self) -> usize {
        usize::from(self.begins_node() || self.joins()) + usize::from(self.begins_argument())
    }
}

/// Whether an operand ends with a token.
pub(crate) fn ends_operand(token: Token) -> bool {
    match token {
        Token::Name(_) | Token::Number(_) => true,
        Token::Mark(mark) => matches!(mark, Mark::True | Mark::False | Mark::Close),
        Token::End => false,
    }
}

/// Goes over the tokens of a text, as far as it has any.
#[derive(Drop)]
pub struct Tokens<'a> {
    text: &'a [u8],
    before: Option<Token<'a>>,
    from: usize,
}

impl<'a> Tokens<'a> {
    /// Begins at the first.
    pub fn of(text: &'a [u8]) -> Tokens<'a>
        ensures text { result.text.now ≡ text.now }
        ensures first { (result.from ≡ 0) × (result.before ≡ None) }
    {
        Tokens {
            text,
            before: None,
            from: 0,
        }
    }
}

impl<'a> Iterator for Tokens<'a> {
    type Item = Piece<'a>;

    ghost remaining = { λ s. at_most (length s.text.now - s.from) };

    fn next(&mut self) -> Option<Piece<'a>> {
        let Placed { token, place, stop } = next_part(self.text, self.from).ok()?;
        if token.is_end() {
            return None;
        }
        let before = self.before.replace(token);
        self.from = stop;
        Some(Piece {
            before,
            token,
            place,
            stop,
        })
    }
}

/// How many nodes the tree of a sentence has.
pub(crate) fn nodes_of_sentence(text: &[u8]) -> usize {
    Tokens::of(text).fold(0, |nodes: usize, piece| nodes.saturating_add(piece.nodes()))
}
