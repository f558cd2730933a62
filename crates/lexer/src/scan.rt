//! Cuts a text into tokens: blanks are passed over, and the longest token wins.
ghost use Rattle.std.specs.Prelude.{◌≡◌, ◌≤◌, min, length};
ghost use Rattle.grammar.specs.Spelling.{token};
ghost use Rattle.lexer.specs.Shown.{Scans, Lexes, named};

use crate::fault::LexFault;
use crate::number::amount;
use crate::run::Kind;
use crate::start::Start;
use crate::token::{Placed, Token};

/// The next token after `from` by its spelling alone, so that a number may be out of range. A place behind the text
/// counts as its end.
pub fn next_part<'a>(text: &'a [u8], from: usize) -> Result<Placed<'a>, LexFault>
    ensures { Scans text.now (min from (length text.now)) result }
{
    let place = Kind::Blank.run(text, from.min(text.len()));
    if place >= text.len() {
        return Ok(Placed {
            token: Token::End,
            place,
            stop: place,
        });
    }
    Start { text, place }.token()
}

/// The next token after `from`, in range, or why it is refused. A place behind the text counts as
/// its end.
pub fn next_token<'a>(text: &'a [u8], from: usize) -> Result<Placed<'a>, LexFault>
    ensures { Lexes text.now (min from (length text.now)) result }
{
    let next = next_part(text, from)?;
    match next.token {
        Token::Number(spelled) if amount(spelled).is_none() => Err(LexFault::OutOfRange(
            next.place,
        )),
        _ => Ok(next),
    }
}

/// Whether these bytes are a name.
pub fn is_name(bytes: &[u8]) -> bool
    ensures { result ≡ named (token bytes.now) }
{
    if bytes.is_empty() {
        return false;
    }
    let start = Start {
        text: bytes,
        place: 0,
    };
    start.token().is_ok_and(|placed| placed.stop == bytes.len() && placed.token.is_name())
}
