//! The store over lent cells.
ghost use Rattle.std.specs.Prelude.{◌≡◌, ◌+◌, ◌<◌, ◌≤◌, min, [], length, nat_le, slice_index_or};
ghost use Rattle.std.specs.Coded.{Coded-set};
ghost use Rattle.std.proofs.Common.{refl, rules};
ghost use Rattle.std.proofs.Props.{props};
ghost use Rattle.linked.specs.Walk.{list_of, blanks, lists_of, whole_of, room_of, Told, Spare, New, Pushed, Heads};

use crate::cell::Cell;
use store::blank::Blank;
use store::contract::{BareStore, Store};
use store::fault::StoreFault;
use store::room::counted;

/// So far a second handle leads at most.
const FAR: u32 = 8;

/// Lists in lent cells. Handles 1 to `made` each name the cell before their own number.
// The cells are lent, so that how many are made stands beside them.
#[derive(Drop)]
pub struct LinkedStore<'a, T: Blank> {
    cells: &'a mut [Cell<T>],
    made: u32,
    ghost inside: { made ≤ whole_of cells.now },
    ghost told: { Told T.Blank.unwritten cells.now } by { Prim.hlevel (props, Coded-set T.code) },
    ghost spare: { Spare T.Blank.unwritten cells.now made } by { Prim.hlevel (props, Coded-set T.code) },
}

impl<'a, T: Blank + Copy> LinkedStore<'a, T> {
    /// A store over these cells, as after `clear`.
    pub fn new(cells: &'a mut [Cell<T>]) -> LinkedStore<'a, T>
        ensures cleared { New T.Blank.unwritten result.cells.now result.made }
        ensures wiped { result.cells.now ≡ blanks T.Blank.unwritten cells.old }
    {
        cells.fill_with(|| Cell::blank());
        LinkedStore { cells, made: 0 }
    }

    #[inline]
    fn has_list(&self, handle: u32) -> bool
        ensures { result ≡ nat_le handle (min self.now.made (length self.now.cells.now)) }
    {
        handle <= self.made
    }

    #[inline]
    fn room(&self) -> u32
        ensures { result ≡ room_of self.now.cells.now self.now.made }
    {
        counted(self.cells.len()) - self.made
    }

    /// The length of a handle's list, which its cell tells.
    #[inline]
    fn length(&self, handle: u32) -> u32
        requires { handle ≤ self.now.made }
        ensures { result ≡ length (list_of T.Blank.unwritten self.now.cells.now handle) }
    {
        if handle == 0 {
            return 0;
        }
        let cell = self.cells[handle as usize - 1];
        cell.under as u32 + 1
    }

    /// The cell that puts an element before the list of a handle.
    #[inline]
    fn heading(&self, handle: u32, element: T) -> Cell<T>
        requires { handle ≤ self.now.made }
        ensures { Heads T.Blank.unwritten self.now.cells.now self.now.made handle element result }
    {
        let below = handle as u16;
        let under = self.length(handle) as u16;
        let skip = if under % 8 == 0 {
            below
        } else {
            let cell = self.cells[handle as usize - 1];
            cell.skip
        };
        Cell {
            element,
            below,
            skip,
            under,
        }
    }

    /// Puts an element before the list of a handle, in the first cell behind the `made` ones.
    #[inline]
    fn push(&mut self, handle: u32, element: T)
        requires known { handle ≤ self.old.made }
        requires room { 1 ≤ room_of self.old.cells.now self.old.made }
        ensures pushed { Pushed T.Blank.unwritten self.old.cells.now self.new.cells.now self.old.made handle element }
        ensures made { self.new.made ≡ self.old.made + 1 }
        ensures long { length self.new.cells.now ≡ length self.old.cells.now }
    {
        let cell = self.heading(handle, element);
        let place = self.made as usize;
        self.made += 1;
        self.cells[place] = cell;
    }
}

impl<'a, T: Blank + Copy> Store for LinkedStore<'a, T> {
    type Elem = T;

    ghost lists = { λ s. lists_of T.Blank.unwritten s.cells.now s.made };

    ghost base = { λ s. [] };

    ghost whole = { λ s. whole_of s.cells.now };

    ghost room = { λ s. room_of s.cells.now s.made };

    ghost cost = { λ s n. 1 };

    ghost wiped = { λ s. s.cells.now ≡ blanks T.Blank.unwritten s.cells.now };

    ghost sound = { λ s. Prim.search rules };

    fn clear(&mut self) {
        self.cells[..self.made as usize].fill_with(|| Cell::blank());
        self.made = 0;
    }

    #[inline]
    fn extend(&mut self, handle: u32, elem: T) -> Result<u32, StoreFault> {
        if !self.has_list(handle) {
            return Err(StoreFault::NoList);
        }
        if self.room() < 1 {
            return Err(StoreFault::NoRoom);
        }
        self.push(handle, elem);
        Ok(self.made)
    }

    #[inline]
    fn look(&self, handle: u32, index: u32) -> Result<T, StoreFault> {
        if !self.has_list(handle) {
            return Err(StoreFault::NoList);
        }
        let length = self.length(handle);
        if index >= length {
            return Err(StoreFault::Beyond { length });
        }
        Ok(find(self.cells, handle, index))
    }

    #[inline]
    fn free(&self) -> u32 {
        self.room()
    }
}

/// The element at an index of a handle's list.
#[inline]
fn find<T: Blank + Copy>(cells: &[Cell<T>], handle: u32, index: u32) -> T
    requires told { Told T.Blank.unwritten cells.now }
    requires inside { handle ≤ length cells.now }
    requires within { index < length (list_of T.Blank.unwritten cells.now handle) }
    ensures { result ≡ slice_index_or (list_of T.Blank.unwritten cells.now handle) index result }
{
    if index < FAR {
        near(cells, handle, index)
    } else {
        far(cells, handle, index)
    }
}

/// The element at an index of a handle's list, by the second handles as long as they lead no further than there.
#[inline(never)]
fn far<T: Blank + Copy>(cells: &[Cell<T>], handle: u32, index: u32) -> T
    requires told { Told T.Blank.unwritten cells.now }
    requires inside { handle ≤ length cells.now }
    requires within { index < length (list_of T.Blank.unwritten cells.now handle) }
    ensures { result ≡ slice_index_or (list_of T.Blank.unwritten cells.now handle) index result }
{
    let mut at = handle;
    let mut left = index;
    while left >= FAR {
        let cell = cells[at as usize - 1];
        left -= cell.under as u32 % 8 + 1;
        at = cell.skip as u32;
    }
    near(cells, at, left)
}

/// The element at an index of a handle's list, from cell to cell.
#[inline]
fn near<T: Blank + Copy>(cells: &[Cell<T>], handle: u32, index: u32) -> T
    requires told { Told T.Blank.unwritten cells.now }
    requires inside { handle ≤ length cells.now }
    requires within { index < length (list_of T.Blank.unwritten cells.now handle) }
    ensures { result ≡ slice_index_or (list_of T.Blank.unwritten cells.now handle) index result }
{
    let mut at = handle;
    let mut left = index;
    while left > 0 {
        let cell = cells[at as usize - 1];
        left -= 1;
        at = cell.below as u32;
    }
    let cell = cells[at as usize - 1];
    cell.element
}

impl<'a, T: Blank + Copy> BareStore for LinkedStore<'a, T> {
    ghost bare = { λ s. refl };
}
