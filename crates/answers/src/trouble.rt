//! Why a line has no result.
use book::fault::NameFault;
use std::alloc::AllocError;
use std::fmt;
use text::fault::CompileFault;
use thiserror::Error;
use typing::fault::AcceptFault;

/// What a library refuses, by its number and its place.
#[derive(Clone, Copy, Debug)]
pub struct Refused {
    number: u8,
    place: usize,
}

impl fmt::Display for Refused {
    fn fmt<W: fmt::Write>(&self, f: &mut fmt::Formatter<W>) -> fmt::Result {
        write!(f, "refused {} {}", self.number, self.place)
    }
}

#[derive(Debug, Drop, Error)]
pub enum Trouble {
    /// There was no memory to answer in: the program ends.
    #[error("there is not enough memory")]
    NoMemory(#[from(alloc)] AllocError),
    /// The line cannot be read.
    #[error("error {0}")]
    Unreadable(&'static str),
    /// The name of this order, from 0, is refused.
    #[error("add {order} {refused}")]
    Name { order: usize, refused: Refused },
    /// The text or the record is refused.
    #[error("{0}")]
    Refused(Refused),
}

// A trait of the faults, with its two functions and an impl for each of three, would save two bodies of two lines.
impl From<NameFault> for Refused {
    fn from(fault: NameFault) -> Refused {
        Refused {
            number: fault.number(),
            place: fault.place(),
        }
    }
}

impl From<CompileFault> for Trouble {
    fn from(fault: CompileFault) -> Trouble {
        Trouble::Refused(Refused {
            number: fault.number(),
            place: fault.place(),
        })
    }
}

impl From<AcceptFault> for Trouble {
    fn from(fault: AcceptFault) -> Trouble {
        Trouble::Refused(Refused {
            number: fault.number(),
            place: fault.place(),
        })
    }
}
