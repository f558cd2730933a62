//! The stores that lines name, over memory of their own.
use crate::fields::{Fields, number};
use crate::trouble::Trouble;
use flat::flat_store::FlatStore;
use flat::slot::Slot;
use linked::cell::Cell;
use linked::linked::LinkedStore;
use std::alloc::Global;
use store::blank::Blank;
use store::contract::{BareStore, Store};
use values::Value;

/// What is done with a store, whichever it is.
pub(crate) trait OnStore {
    fn on<S: BareStore + Store<Elem = Value> + Drop>(
        self,
        heap: Global,
        store: S,
    ) -> Result<String, Trouble>;
}

/// A store as lines name it: which one, and over how many cells or slots.
#[derive(Clone, Copy)]
pub(crate) enum Memory {
    Linked(usize),
    Flat(usize),
}

impl Memory {
    /// The store in the fields `STORE SIZE`.
    pub(crate) fn read(fields: &mut Fields) -> Result<Memory, Trouble> {
        let kind = fields.next();
        let size = number(fields.next())?;
        match kind {
            "linked" => Ok(Memory::Linked(size)),
            "flat" => Ok(Memory::Flat(size)),
            _ => Err(Trouble::Unreadable("no such store")),
        }
    }

    /// Lends the memory, and does this with the store over it.
    pub(crate) fn lend<W: OnStore + Drop>(self, heap: Global, work: W) -> Result<String, Trouble> {
        match self {
            Memory::Linked(size) => {
                let mut cells = vec![in heap; Cell::blank(); size]?;
                work.on(heap, LinkedStore::new(&mut cells))
            }
            Memory::Flat(size) => {
                let mut slots = vec![in heap; Slot::Spare; size]?;
                work.on(heap, FlatStore::new(&mut slots))
            }
        }
    }
}
