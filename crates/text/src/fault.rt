//! Refusals, each with its number and its place.

use lexer::fault::LexFault;

/// Why a text has no record.
#[derive(Clone, Copy, PartialEq, Eq, Debug)]
pub enum CompileFault {
    /// More than 4,096 bytes: refusal 51, at place 0.
    TooLong,
    /// What the lexer refuses: refusals 52 and 54.
    Lex(LexFault),
    /// No sentence goes on with the token at this place: refusal 55.
    Unexpected(usize),
    /// The name at this place is not in force: refusal 57.
    Unknown(usize),
    /// More than 512 nodes: refusal 58, at place 0.
    TooManyNodes,
    /// The record does not fit the output buffer: refusal 59, at place 0.
    NoRoom,
}
