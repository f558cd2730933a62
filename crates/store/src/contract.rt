//! The one contract of all stores.
ghost use Rattle.std.specs.Prelude.{◌≡◌, ℕ, List, []};
ghost use Rattle.store.specs.Lists.{Lists, Sound, Cleared, Extended, Looked};

use crate::fault::StoreFault;

/// Lists of elements in lent memory, each under a handle.
///
/// A list is never taken back singly: `clear` takes all of them, and only handle 0 has one then.
pub trait Store {
    type Elem: Copy;

    /// The list of each handle that has one.
    ghost lists: { Self → Lists Self.Elem };

    /// The list of handle 0.
    ghost base: { Self → List Self.Elem };

    /// The room of a store that was just cleared.
    ghost whole: { Self → ℕ };

    /// What is free of it now.
    ghost room: { Self → ℕ };

    /// What it takes from the room to put an element before a list of a given length.
    ghost cost: { Self → ℕ → ℕ };

    /// That nothing ever put in stands in the memory any more; each store says it of its own.
    ghost wiped: { Self → Type 0 };

    /// Leaves only handle 0, and no element in the memory.
    fn clear(&mut self)
        ensures wiped { wiped self.new }
        ensures cleared { Cleared (lists self.new) (base self.new) (whole self.new) (room self.new) }
        ensures base { base self.new ≡ base self.old }
        ensures whole { whole self.new ≡ whole self.old }
        ensures cost { cost self.new ≡ cost self.old };

    /// Puts an element before the list of a handle, and answers the handle of the new list.
    fn extend(&mut self, handle: u32, elem: Self::Elem) -> Result<u32, StoreFault>
        ensures extended { Extended (lists self.old) (lists self.new) (room self.old) (room self.new) (cost self.old) handle elem result }
        ensures base { base self.new ≡ base self.old }
        ensures whole { whole self.new ≡ whole self.old }
        ensures cost { cost self.new ≡ cost self.old };

    /// The element at an index of a handle's list.
    fn look(&self, handle: u32, index: u32) -> Result<Self::Elem, StoreFault>
        ensures { Looked (lists self.now) handle index result };

    /// The free room.
    fn free(&self) -> u32
        ensures { result ≡ room self.now };

    /// What holds of every store at all times.
    ghost sound: { (s : Self) → Sound (lists s) (base s) (whole s) (room s) (cost s) };
}

/// A store whose base list is empty.
pub trait BareStore: Store {
    ghost bare: { (s : Self) → Self.Store.base s ≡ [] };
}
