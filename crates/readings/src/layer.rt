//! The layer that lays the readings behind every list of the store below.
ghost use Rattle.std.specs.Prelude.{◌≡◌, ◌-◌, ◌≤◌, length, Some};
ghost use Rattle.std.proofs.Common.{ap, refl, ◌∙◌};
ghost use Rattle.store.specs.Lists.{Extended, Looked};
ghost use Rattle.readings.specs.Behind.{values_of, added, behind, cost_below, Picked, Read};

use crate::environments::Environments;
use crate::readings_list::Readings;
use store::contract::{BareStore, Store};
use store::fault::StoreFault;
use values::Value;

/// A store of run values with the readings behind every list.
pub struct ReadingsLayer<S> {
    below: S,
    readings: Readings,
}

/// The answer at an index beyond the `length` elements below: a reading, or the whole length.
#[inline]
fn reading(readings: &Readings, length: u32, index: u32) -> Result<Value, StoreFault>
    requires { length ≤ index }
    ensures { Read (values_of readings.now) length index result }
{
    match readings.get((index - length) as usize) {
        Some(number) => Ok(Value::Number(number)),
        None => Err(StoreFault::Beyond {
            length: length + readings.len() as u32,
        }),
    }
}

impl<S: BareStore + Store<Elem = Value>> ReadingsLayer<S> {
    /// Lays readings over a store.
    pub fn new(below: S, readings: Readings) -> ReadingsLayer<S>
        ensures below { result.below ≡ below }
        ensures readings { result.readings ≡ readings }
    {
        ReadingsLayer { below, readings }
    }

    /// Puts other readings behind every list.
    pub fn set_readings(&mut self, readings: Readings)
        ensures below { self.new.below ≡ self.old.below }
        ensures readings { self.new.readings ≡ readings }
    {
        self.readings = readings;
    }

    /// Gives the store below back.
    pub fn into_below(self) -> S
        ensures { result ≡ self.below }
    {
        let ReadingsLayer { below, readings: _ } = self;
        below
    }

    /// Extends the list below: the readings stay behind it.
    #[inline]
    fn extend_below(&mut self, handle: u32, elem: Value) -> Result<u32, StoreFault>
        ensures extended { Extended (behind (values_of self.old.readings) (S.Store.lists self.old.below)) (behind (values_of self.new.readings) (S.Store.lists self.new.below)) (S.Store.room self.old.below) (S.Store.room self.new.below) (cost_below (values_of self.old.readings) (S.Store.cost self.old.below)) handle elem result }
        ensures readings { self.new.readings ≡ self.old.readings }
        ensures whole { S.Store.whole self.new.below ≡ S.Store.whole self.old.below }
        ensures cost { S.Store.cost self.new.below ≡ S.Store.cost self.old.below }
    {
        self.below.extend(handle, elem)
    }

    /// A reading, as a run value.
    #[inline]
    fn reading_value(&self, number: u32) -> Option<Value>
        ensures { Picked (values_of self.now.readings) number result }
    {
        match self.readings.get(number as usize) {
            Some(reading) => Some(Value::Number(reading)),
            None => None,
        }
    }

    /// Looks into the list below, and then among the readings behind it.
    #[inline]
    fn look_behind(&self, handle: u32, index: u32) -> Result<Value, StoreFault>
        ensures { Looked (behind (values_of self.now.readings) (S.Store.lists self.now.below)) handle index result }
    {
        match self.below.look(handle, index) {
            Ok(element) => Ok(element),
            Err(StoreFault::Beyond { length }) => reading(&self.readings, length, index),
            Err(StoreFault::NoList) => Err(StoreFault::NoList),
            // A look takes no room.
            Err(StoreFault::NoRoom) => unreachable!(),
        }
    }
}

impl<S: BareStore + Store<Elem = Value>> Store for ReadingsLayer<S> {
    type Elem = Value;

    ghost lists = { λ s. behind (values_of s.readings) (S.Store.lists s.below) };

    ghost base = { λ s. values_of s.readings };

    ghost whole = { λ s. S.Store.whole s.below };

    ghost room = { λ s. S.Store.room s.below };

    ghost cost = { λ s. cost_below (values_of s.readings) (S.Store.cost s.below) };

    ghost wiped = { λ s. S.Store.wiped s.below };

    ghost sound = { λ s. let below = S.Store.sound s.below in record {
      root = ap (added (values_of s.readings)) (below.root ∙ ap Some (S.BareStore.bare s.below));
      bounded = below.bounded;
      within = below.within;
      charged = λ n. below.charged (n - length (values_of s.readings));
    } };

    fn clear(&mut self) {
        self.below.clear();
    }

    #[inline]
    fn extend(&mut self, handle: u32, elem: Value) -> Result<u32, StoreFault> {
        self.extend_below(handle, elem)
    }

    #[inline]
    fn look(&self, handle: u32, index: u32) -> Result<Value, StoreFault> {
        self.look_behind(handle, index)
    }

    #[inline]
    fn free(&self) -> u32 {
        self.below.free()
    }
}

impl<S: BareStore + Store<Elem = Value>> Environments for ReadingsLayer<S> {
    ghost binders = { λ s. S.Store.lists s.below };

    ghost readings = { λ s. values_of s.readings };

    ghost base = { λ s. refl };

    ghost behind = { λ s h. refl };

    #[inline]
    fn binder(&self, handle: u32, distance: u32) -> Result<Value, StoreFault> {
        self.below.look(handle, distance)
    }

    #[inline]
    fn reading(&self, number: u32) -> Option<Value> {
        self.reading_value(number)
    }
}
