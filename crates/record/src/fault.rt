//! Why a byte string is no record of a rule.
ghost use Rattle.std.specs.Prelude.{◌≡◌};
ghost use Rattle.record.specs.Faults.{number_of, place_of};

/// A refusal, with its place in the record where the number alone does not tell it.
#[derive(Clone, Copy, PartialEq, Eq, Debug)]
pub enum RecordFault {
    /// The first two bytes are missing, or are not the count of the rest.
    Length,
    /// The version byte is missing, or is not 1.
    Version,
    /// The count of readings is missing, or is above 8.
    Readings,
    /// A node has no byte left.
    NoNode(usize),
    /// A node is the 513th.
    TooManyNodes(usize),
    /// A node's kind is not from 1 to 10.
    UnknownKind(usize),
    /// The bytes of a number or a distance are not all there.
    CutShort(usize),
    /// A variable's distance is not below the binders and readings around it.
    Unbound(usize),
    /// The record goes on behind the tree.
    Spare(usize),
}

impl RecordFault {
    /// The number of the question that was answered with no.
    pub fn number(self) -> u8
        ensures { result ≡ number_of self }
    {
        match self {
            RecordFault::Length => 1,
            RecordFault::Version => 2,
            RecordFault::Readings => 3,
            RecordFault::NoNode(_) => 4,
            RecordFault::TooManyNodes(_) => 5,
            RecordFault::UnknownKind(_) => 6,
            RecordFault::CutShort(_) => 7,
            RecordFault::Unbound(_) => 8,
            RecordFault::Spare(_) => 9,
        }
    }

    /// The place in the record where it shows, in bytes from the first.
    pub fn place(self) -> usize
        ensures { result ≡ place_of self }
    {
        match self {
            RecordFault::Length => 0,
            RecordFault::Version => 2,
            RecordFault::Readings => 3,
            RecordFault::NoNode(place)
            | RecordFault::TooManyNodes(place)
            | RecordFault::UnknownKind(place)
            | RecordFault::CutShort(place)
            | RecordFault::Unbound(place)
            | RecordFault::Spare(place) => place,
        }
    }
}
