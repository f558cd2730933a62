//! How much of the lent memory counts.
ghost use Rattle.std.specs.Prelude.{◌≡◌};
ghost use Rattle.store.specs.Room.{counted as counted_room};

/// The most places of lent memory that count.
const MOST: usize = 65_535;

/// How many of so many places count: none beyond the first 65,535.
#[inline]
pub fn counted(places: usize) -> u32
    ensures { result ≡ counted_room places }
{
    places.min(MOST) as u32
}
