//! What the book refuses.
ghost use Rattle.std.specs.Prelude.{◌≡◌};

/// Why a book does not take a name: refusal 53, at place 0. A book asks in this order, and answers the first.
#[derive(Clone, Copy, PartialEq, Eq, Debug)]
pub enum NameFault {
    /// The book has 8 names.
    Full,
    /// It is no name.
    NoName,
    /// It is longer than 32 bytes.
    TooLong,
    /// The book has it.
    Taken,
}

impl NameFault {
    ghost use Rattle.book.specs.Faults.{number_of, place_of};

    /// The refusal's number.
    pub fn number(self) -> u8
        ensures { result ≡ number_of self }
    {
        match self {
            NameFault::Full | NameFault::NoName | NameFault::TooLong | NameFault::Taken => 53,
        }
    }

    /// Its place, 0: a name has no text around it.
    pub fn place(self) -> usize
        ensures { result ≡ place_of self }
    {
        match self {
            NameFault::Full | NameFault::NoName | NameFault::TooLong | NameFault::Taken => 0,
        }
    }
}
