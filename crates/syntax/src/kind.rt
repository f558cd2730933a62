//! The kinds of nodes, and the bytes that stand for them in a record.
ghost use Rattle.std.specs.Prelude.{◌≡◌};
ghost use Rattle.syntax.specs.Kinds.{byte_of, operands_of, Decodes};

use std::error::Error;
use std::fmt;

/// What kind of node a record's byte announces; the two truths are kinds of their own.
#[derive(Clone, Copy, Debug, PartialEq, Eq)]
pub enum Kind {
    Number = 1,
    False,
    True,
    Variable,
    Function,
    Application,
    LetIn,
    Sum,
    AtMost,
    IfElse,
}

/// A byte that stands for no kind.
#[derive(Clone, Copy, Debug, PartialEq, Eq)]
pub struct UnknownKind(pub u8);

impl fmt::Display for UnknownKind {
    fn fmt<W: fmt::Write>(&self, f: &mut fmt::Formatter<W>) -> fmt::Result {
        write!(f, "no kind of node has byte {}", self.0)
    }
}

impl Error for UnknownKind {}

impl From<Kind> for u8 {
    ghost from_gives = { λ kind byte. byte ≡ byte_of kind };

    fn from(kind: Kind) -> u8 {
        kind as u8
    }
}

impl TryFrom<u8> for Kind {
    type Error = UnknownKind;

    ghost try_from_gives = { Decodes };

    fn try_from(byte: u8) -> Result<Kind, UnknownKind> {
        match byte {
            1 => Ok(Kind::Number),
            2 => Ok(Kind::False),
            3 => Ok(Kind::True),
            4 => Ok(Kind::Variable),
            5 => Ok(Kind::Function),
            6 => Ok(Kind::Application),
            7 => Ok(Kind::LetIn),
            8 => Ok(Kind::Sum),
            9 => Ok(Kind::AtMost),
            10 => Ok(Kind::IfElse),
            _ => Err(UnknownKind(byte)),
        }
    }
}

impl Kind {
    /// How many bytes belong to a node behind its kind byte: the four of a number, or the two of a distance.
    pub fn operands(self) -> usize
        ensures { result ≡ operands_of self }
    {
        match self {
            Kind::Number => 4,
            Kind::Variable => 2,
            _ => 0,
        }
    }
}
