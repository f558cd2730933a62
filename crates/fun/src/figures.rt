//! The counts of a rule's record.
use crate::counted::Counted;
use std::fmt;

#[derive(Clone, Copy)]
pub(crate) struct Figures {
    pub(crate) bytes: usize,
    pub(crate) nodes: usize,
    pub(crate) readings: usize,
}

impl fmt::Display for Figures {
    fn fmt<W: fmt::Write>(&self, f: &mut fmt::Formatter<W>) -> fmt::Result {
        write!(
            f,
            "{}, {}, {}",
            Counted(self.bytes, "byte"),
            Counted(self.nodes, "node"),
            Counted(self.readings, "reading")
        )
    }
}
