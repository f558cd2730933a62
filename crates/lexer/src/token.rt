//! Tokens: parts of the text, each with its place.

use grammar::Mark;

/// A token. Names and numbers are parts of the text itself, so nothing is copied.
#[derive(Clone, Copy)]
pub enum Token<'a> {
    /// A keyword or a sign.
    Mark(Mark),
    Name(&'a [u8]),
    /// The digits, and a minus before them if there is one.
    Number(&'a [u8]),
    /// The end of the text counts as a token.
    End,
}

/// A token with the places of its first byte and of the byte after its last.
#[derive(Clone, Copy)]
pub struct Placed<'a> {
    pub token: Token<'a>,
    pub place: usize,
    pub stop: usize,
}
