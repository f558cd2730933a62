//! A byte of a text, and the longest token that begins there.
ghost use Rattle.std.specs.Prelude.{◌≡◌, ◌+◌, ◌<◌, ◌≤◌, true, length, slice_index};
ghost use Rattle.grammar.specs.Reading.{part, Longest};
ghost use Rattle.grammar.specs.Spelling.{letter};
ghost use Rattle.grammar.specs.Token.{numeral};
ghost use Rattle.lexer.specs.Shown.{value, shown, Spelled, Followed, TokenAt};
ghost use Rattle.lexer.specs.Runs.{Run};

use crate::fault::LexFault;
use crate::run::Kind;
use crate::token::{Placed, Token};
use grammar::Mark;

/// A byte of a text by its place.
#[derive(Clone, Copy)]
pub(crate) struct Start<'a> {
    pub(crate) text: &'a [u8],
    pub(crate) place: usize,
    ghost inside: { place < length text.now },
}

/// The keyword that a word is, or the name.
fn word_token<'a>(word: &'a [u8]) -> Token<'a>
    ensures shown { shown result ≡ Rattle.grammar.specs.Spelling.word word.now }
    ensures part { Spelled word.now result }
{
    match word {
        b"fun" => Token::Mark(Mark::Fun),
        b"let" => Token::Mark(Mark::Let),
        b"in" => Token::Mark(Mark::In),
        b"if" => Token::Mark(Mark::If),
        b"then" => Token::Mark(Mark::Then),
        b"else" => Token::Mark(Mark::Else),
        b"true" => Token::Mark(Mark::True),
        b"false" => Token::Mark(Mark::False),
        _ => Token::Name(word),
    }
}

impl<'a> Start<'a> {
    /// The number whose digits begin here, or behind the minus that stands here.
    fn number(&self, digits: usize) -> Placed<'a>
        requires { (self.now.place ≤ digits) × (digits < length self.now.text.now) }
        ensures place { result.place ≡ self.now.place }
        ensures run { Run Kind.Digit self.now.text.now (digits + 1) result.stop }
        ensures shown { shown result.token ≡ numeral (value (part self.now.text.now self.now.place result.stop)) }
        ensures part { Spelled (part self.now.text.now self.now.place result.stop) result.token }
    {
        let place = self.place;
        let stop = Kind::Digit.run(self.text, digits + 1);
        let token = Token::Number(&self.text[place..stop]);
        Placed { token, place, stop }
    }

    /// The sign of so many bytes that stands here.
    fn sign(&self, mark: Mark, width: usize) -> Placed<'a>
        requires { self.now.place + width ≤ length self.now.text.now }
        ensures place { result.place ≡ self.now.place }
        ensures stop { result.stop ≡ self.now.place + width }
        ensures shown { shown result.token ≡ Rattle.grammar.specs.Token.mark «mark» }
    {
        Placed {
            token: Token::Mark(mark),
            place: self.place,
            stop: self.place + width,
        }
    }

    /// Whether the byte behind this one is the given sign.
    fn followed_by(&self, sign: char) -> bool
        ensures { Followed self.now.text.now self.now.place sign result }
    {
        self.text
            .get(self.place + 1)
            .is_some_and(|byte| char::from(*byte) == sign)
    }

    /// The token that begins with a minus: an arrow, or a number below zero.
    fn minus(&self) -> Result<Placed<'a>, LexFault>
        requires { slice_index self.now.text.now self.now.place ≡ 45 }
        ensures { TokenAt self.now.text.now self.now.place result }
    {
        if self.followed_by('>') {
            return Ok(self.sign(Mark::Arrow, 2));
        }
        match self.text.get(self.place + 1) {
            Some(byte) if Kind::Digit.has(*byte) => Ok(self.number(self.place + 1)),
            _ => Err(LexFault::NoToken(self.place)),
        }
    }

    /// The word that begins with a letter: a keyword or a name.
    fn word(&self) -> Placed<'a>
        requires { letter (slice_index self.now.text.now self.now.place) ≡ true }
        ensures place { result.place ≡ self.now.place }
        ensures longest { Longest self.now.text.now self.now.place result.stop (shown result.token) }
        ensures part { Spelled (part self.now.text.now self.now.place result.stop) result.token }
    {
        let place = self.place;
        let stop = Kind::Word.run(self.text, place + 1);
        let token = word_token(&self.text[place..stop]);
        Placed { token, place, stop }
    }

    /// The longest token that begins here.
    pub(crate) fn token(&self) -> Result<Placed<'a>, LexFault>
        ensures { TokenAt self.now.text.now self.now.place result }
    {
        match char::from(self.text[self.place]) {
            '(' => Ok(self.sign(Mark::Open, 1)),
            ')' => Ok(self.sign(Mark::Close, 1)),
            '+' => Ok(self.sign(Mark::Plus, 1)),
            '=' => Ok(self.sign(Mark::Equals, 1)),
            '<' if self.followed_by('=') => Ok(self.sign(Mark::AtMost, 2)),
            '-' => self.minus(),
            '0'..='9' => Ok(self.number(self.place)),
            'A'..='Z' | 'a'..='z' => Ok(self.word()),
            _ => Err(LexFault::NoToken(self.place)),
        }
    }
}
