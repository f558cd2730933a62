//! The nodes of a record, found in its bytes.
ghost use Rattle.std.specs.Prelude.{◌≡◌, ◌-◌, length};
ghost use Rattle.std.specs.Iterator.{at_most};

use syntax::kind::Kind;
use syntax::limits::HEAD;

/// Goes over the nodes of a record in their order, as far as its bytes announce any: the place of each and its kind.
#[derive(Drop)]
pub struct Walk<'a> {
    bytes: &'a [u8],
    next: usize,
}

impl<'a> Walk<'a> {
    /// Begins at the first.
    pub fn over(record: &'a [u8]) -> Walk<'a>
        ensures bytes { result.bytes.now ≡ record.now }
        ensures first { result.next ≡ 4 }
    {
        Walk {
            bytes: record,
            next: HEAD,
        }
    }
}

impl Iterator for Walk<'_> {
    type Item = (usize, Kind);

    ghost remaining = { λ s. at_most (length s.bytes.now - s.next) };

    fn next(&mut self) -> Option<(usize, Kind)> {
        let place = self.next;
        let kind = Kind::try_from(*self.bytes.get(place)?).ok()?;
        self.next = place + 1 + kind.operands();
        Some((place, kind))
    }
}
