//! The slots that whoever owns the memory lends.
ghost use Rattle.std.specs.Prelude.{◌≡◌, ℕ, ◌<◌, Some};
ghost use Rattle.flat.specs.Spans.{element_of, ending as ending_of};

use store::blank::Blank;

/// What stands in one place of the memory.
#[derive(Clone, Copy)]
pub enum Slot<T> {
    /// Nothing.
    Spare,
    /// An element of a list.
    Element(T),
    /// The end of a list, whose elements stand right before it.
    Ends { length: u32 },
}

impl<T: Blank + Copy> Slot<T> {
    /// The element that stands here, or the blank.
    pub fn element(self) -> T
        ensures { result ≡ element_of T.Blank.unwritten self }
    {
        match self {
            Slot::Element(element) => element,
            Slot::Spare | Slot::Ends { .. } => T::blank(),
        }
    }

    /// The length of the list of a handle that names this slot, if a list ends here.
    pub fn ending(self, handle: u32) -> Option<u32>
        ensures ending { result ≡ ending_of handle self }
        ensures fits { (n : ℕ) → result ≡ Some n → n < handle }
    {
        match self {
            Slot::Ends { length } => (length < handle).then_some(length),
            Slot::Spare | Slot::Element(_) => None,
        }
    }
}
