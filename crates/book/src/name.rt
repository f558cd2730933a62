//! A name of a reading, in memory of its own.
ghost use Rattle.std.specs.Prelude.{◌≡◌, ◌≤◌, ◌↔◌, length, IsOk, OnOk, IfOk};
ghost use Rattle.grammar.specs.Names.{same};
ghost use Rattle.book.specs.Spelled.{spelled, Copied};

use crate::fault::NameFault;
use arrayvec::ArrayVec;

/// How long a reading's name may be, in bytes.
pub const MOST_BYTES: usize = 32;

/// A copy of a name, so that whoever brought it may reuse its memory.
#[derive(Default, Drop)]
pub(crate) struct Name {
    bytes: ArrayVec<u8, MOST_BYTES>,
}

impl TryFrom<&[u8]> for Name {
    type Error = NameFault;

    ghost try_from_gives = { λ name r. Copied name.now r };

    fn try_from(name: &[u8]) -> Result<Name, NameFault> {
        ArrayVec::try_from(name)
            .map(|bytes| Name { bytes })
            .map_err(|_| NameFault::TooLong)
    }
}

impl Name {
    pub(crate) fn is(&self, name: &[u8]) -> bool
        ensures { result ≡ same name.now (spelled self.now) }
    {
        same_bytes(name, &self.bytes)
    }
}

/// Whether two names are equal.
// It is public, and lookups are proved of `same`, to which each `==` would have to be joined.
pub fn same_bytes(a: &[u8], b: &[u8]) -> bool
    ensures { result ≡ same a.now b.now }
{
    a == b
}
