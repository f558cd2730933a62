//! The environments of a run, as its variables are looked up.
ghost use Rattle.std.specs.Prelude.{◌≡◌, ℕ, List};
ghost use Rattle.store.specs.Lists.{Lists, Looked};
ghost use Rattle.values.specs.declared.Value.{Value as RunValue};
ghost use Rattle.readings.specs.Behind.{added, Picked};

use store::contract::Store;
use store::fault::StoreFault;
use values::Value;

/// A store of environments: the values of binders, the innermost first, and behind them in every list the readings,
/// which are the base list.
///
/// Binders and readings are asked for apart, so that whoever asks knows nothing of where the readings are kept.
pub trait Environments: Store<Elem = Value> {
    /// The list of each handle without the readings.
    ghost binders: { Self → Lists RunValue };

    /// The readings.
    ghost readings: { Self → List RunValue };

    /// The value of the binder at a distance.
    fn binder(&self, handle: u32, distance: u32) -> Result<Value, StoreFault>
        ensures { Looked (binders self.now) handle distance result };

    /// The reading of a number, where there is one.
    fn reading(&self, number: u32) -> Option<Value>
        ensures { Picked (readings self.now) number result };

    /// The readings are the base list, and stand behind the binders of every list.
    ghost base: { (s : Self) → Self.Store.base s ≡ readings s };

    ghost behind: { (s : Self) → (h : ℕ) → Self.Store.lists s h ≡ added (readings s) (binders s h) };
}
