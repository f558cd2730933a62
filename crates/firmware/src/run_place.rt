//! The run place.
ghost use Rattle.std.specs.Prelude.{◌≡◌};

use run::{Closed, Run};
use store::contract::{BareStore, Store};
use values::Value;

/// What stands in a run place: a store, and a run over it while one is open.
pub enum RunPlace<S: BareStore + Store<Elem = Value>> {
    Closed(S),
    Open(Run<S>),
}

impl<S: BareStore + Store<Elem = Value> + Drop> RunPlace<S> {
    /// Lets go what stands here.
    pub fn let_go(self) {
        match self {
            RunPlace::Closed(_) => {}
            RunPlace::Open(run) => {
                let Closed { rule: _, store: _ } = run.close();
            }
        }
    }
}
