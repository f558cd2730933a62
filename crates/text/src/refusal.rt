//! What the faults tell: their numbers, their places, and how one carries another.
ghost use Rattle.std.specs.Prelude.{◌≡◌};
ghost use Rattle.text.specs.Faults.{number, place};
ghost use Rattle.text.specs.declared.fault.CompileFault.TheVariants.{Lex};

use crate::fault::CompileFault;
use lexer::fault::LexFault;

impl From<LexFault> for CompileFault {
    ghost from_gives = { λ f r. r ≡ Lex f };

    fn from(fault: LexFault) -> CompileFault {
        CompileFault::Lex(fault)
    }
}

impl CompileFault {
    /// The refusal's number.
    pub fn number(&self) -> u8
        ensures { result ≡ Rattle.text.specs.Faults.number self.now }
    {
        match self {
            CompileFault::TooLong => 51,
            CompileFault::Lex(LexFault::NoToken(_)) => 52,
            CompileFault::Lex(LexFault::OutOfRange(_)) => 54,
            CompileFault::Unexpected(_) => 55,
            CompileFault::Unknown(_) => 57,
            CompileFault::TooManyNodes => 58,
            CompileFault::NoRoom => 59,
        }
    }

    /// The byte of the text that the refusal points at, counted from 0.
    pub fn place(&self) -> usize
        ensures { result ≡ Rattle.text.specs.Faults.place self.now }
    {
        match self {
            CompileFault::Lex(LexFault::NoToken(place) | LexFault::OutOfRange(place))
            | CompileFault::Unexpected(place)
            | CompileFault::Unknown(place) => *place,
            CompileFault::TooLong | CompileFault::TooManyNodes | CompileFault::NoRoom => 0,
        }
    }
}
