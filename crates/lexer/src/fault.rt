//! What the lexer refuses.

/// Why there is no next token.
#[derive(Clone, Copy, PartialEq, Eq, Debug)]
pub enum LexFault {
    /// No token begins at this place: refusal 52.
    NoToken(usize),
    /// The number at this place is out of range: refusal 54.
    OutOfRange(usize),
}
