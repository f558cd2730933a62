//! The cells that whoever owns the memory lends.
ghost use Rattle.std.specs.Prelude.{◌≡◌};
ghost use Rattle.linked.specs.Walk.{blank_cell};

use store::blank::Blank;

/// An element and the handle of the list below it, with what makes looks short: how many elements stand under this
/// one, and the handle of these elements' list cut to a multiple of 8.
// Handles and counts are 65,535 at most, so that with an element of 8 bytes a cell has 16.
#[derive(Clone, Copy)]
pub struct Cell<T> {
    pub(crate) element: T,
    pub(crate) below: u16,
    pub(crate) skip: u16,
    pub(crate) under: u16,
}

impl<T: Blank> Cell<T> {
    /// A cell in which nothing stands.
    pub fn blank() -> Cell<T>
        ensures { result ≡ blank_cell T.Blank.unwritten }
    {
        Cell {
            element: T::blank(),
            below: 0,
            skip: 0,
            under: 0,
        }
    }
}
