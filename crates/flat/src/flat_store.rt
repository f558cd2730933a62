//! The store over lent slots.
ghost use Rattle.std.specs.Prelude.{◌≡◌, ℕ, ◌+◌, ◌-◌, ◌<◌, ◌≤◌, [], length, Some, Ok, slice_index_or, slice_set};
ghost use Rattle.std.specs.Option.{IfSome};
ghost use Rattle.std.proofs.Common.{refl, rules};
ghost use Rattle.flat.specs.declared.slot.Slot.TheVariants.{Spare, Element};
ghost use Rattle.flat.specs.Spans.{spares, element_of, span_of, lists_of, whole_of, room_of, cost_of, located, Placed, Spanned, New};

use crate::slot::Slot;
use crate::span::Span;
use store::blank::Blank;
use store::contract::{BareStore, Store};
use store::fault::StoreFault;
use store::room::counted;

/// Lists in lent slots, one behind the other in the first `used` of them.
// The slots are lent, so that how many are used stands beside them.
#[derive(Drop)]
pub struct FlatStore<'a, T> {
    slots: &'a mut [Slot<T>],
    used: u32,
    ghost inside: { used ≤ whole_of slots.now },
}

/// Copies elements to slots further on.
fn copy<T: Blank + Copy>(slots: &mut [Slot<T>], from: usize, to: usize, count: usize)
    requires { (from + count ≤ to) × (to + count ≤ length slots.old) }
    ensures before { (k : ℕ) → k < to → slice_index_or slots.new k Spare ≡ slice_index_or slots.old k Spare }
    ensures copied { (j : ℕ) → j < count → slice_index_or slots.new (to + j) Spare ≡ Element (element_of T.Blank.unwritten (slice_index_or slots.old (from + j) Spare)) }
{
    // `copy_within` would keep a slot without an element; what a zip of `iter_mut` wrote is unknown (`returns-clause-copied` stays open).
    for j in 0..count {
        slots[to + j] = Slot::Element(slots[from + j].element());
    }
}

/// Writes one slot.
fn put<T: Copy>(slots: &mut [Slot<T>], place: usize, slot: Slot<T>)
    requires { place < length slots.old }
    ensures { slots.new ≡ slice_set slots.old place slot }
{
    slots[place] = slot;
}

/// Writes a list: an element, a copy of those of an older list, and the slot that ends it.
fn place<T: Blank + Copy>(slots: &mut [Slot<T>], start: usize, older: Span, element: T)
    requires inside { older.begins + older.length ≤ start }
    requires room { (start + cost_of older.length ≤ length slots.old) × (start + cost_of older.length ≤ 65535) }
    ensures { Placed T.Blank.unwritten slots.old slots.new start older.begins older.length element }
{
    let count = older.length as usize;
    put(slots, start, Slot::Element(element));
    copy(slots, older.begins, start + 1, count);
    put(
        slots,
        start + 1 + count,
        Slot::Ends {
            length: older.length + 1,
        },
    );
}

impl<'a, T: Blank + Copy> FlatStore<'a, T> {
    /// A store over these slots, as after `clear`.
    pub fn new(slots: &'a mut [Slot<T>]) -> FlatStore<'a, T>
        ensures cleared { New T.Blank.unwritten result.slots.now result.used }
        ensures wiped { result.slots.now ≡ spares slots.old }
    {
        slots.fill_with(|| Slot::Spare);
        FlatStore { slots, used: 0 }
    }

    /// Where a handle's list lies, if it has one.
    fn span(&self, handle: u32) -> Option<Span>
        ensures span { result ≡ located handle (span_of self.now.slots.now self.now.used handle) }
        ensures list { Spanned (lists_of T.Blank.unwritten self.now.slots.now self.now.used handle) result }
        ensures inside { IfSome result (λ s. s.begins + s.length ≤ self.now.used) }
    {
        if handle == 0 {
            return Some(Span {
                begins: 0,
                length: 0,
            });
        }
        if handle > self.used {
            return None;
        }
        let length = self.slots[handle as usize - 1].ending(handle)?;
        Some(Span {
            begins: (handle - length - 1) as usize,
            length,
        })
    }

    fn room(&self) -> u32
        ensures { result ≡ room_of self.now.slots.now self.now.used }
    {
        counted(self.slots.len()) - self.used
    }
}

impl<'a, T: Blank + Copy> Store for FlatStore<'a, T> {
    type Elem = T;

    ghost lists = { λ s. lists_of T.Blank.unwritten s.slots.now s.used };

    ghost base = { λ s. [] };

    ghost whole = { λ s. whole_of s.slots.now };

    ghost room = { λ s. room_of s.slots.now s.used };

    ghost cost = { λ s. cost_of };

    ghost wiped = { λ s. s.slots.now ≡ spares s.slots.now };

    ghost sound = { λ s. Prim.search rules };

    fn clear(&mut self) {
        self.slots.fill_with(|| Slot::Spare);
        self.used = 0;
    }

    fn extend(&mut self, handle: u32, elem: T) -> Result<u32, StoreFault> {
        let span = self.span(handle).ok_or(StoreFault::NoList)?;
        let cost = span.length + 2;
        if cost > self.room() {
            return Err(StoreFault::NoRoom);
        }
        place(self.slots, self.used as usize, span, elem);
        self.used += cost;
        Ok(self.used)
    }

    fn look(&self, handle: u32, index: u32) -> Result<T, StoreFault> {
        let Span { begins, length } = self.span(handle).ok_or(StoreFault::NoList)?;
        if index >= length {
            return Err(StoreFault::Beyond { length });
        }
        Ok(self.slots[begins + index as usize].element())
    }

    fn free(&self) -> u32 {
        self.room()
    }
}

impl<'a, T: Blank + Copy> BareStore for FlatStore<'a, T> {
    ghost bare = { λ s. refl };
}
