//! The calls of a run.
ghost use Rattle.std.specs.Prelude.{◌≡◌, ◌+◌, ℕ, ℤ, List, length, replicate, pos, OnOk, OnErr};
ghost use Rattle.syntax.specs.Tree.{Tree};
ghost use Rattle.record.specs.Reading.{IsTree};
ghost use Rattle.readings.specs.Behind.{numbers_of, values_of, behind, cost_below};
ghost use Rattle.calculus.specs.Types.{Ty, RuleHas};
ghost use Rattle.typing.specs.Accepting.{IsRule};
ghost use Rattle.reckoning.specs.Reckoning.{begun};
ghost use Rattle.machine.specs.Places.{rule_of};
ghost use Rattle.machine.specs.Reducing.{room_of};
ghost use Rattle.machine.specs.Running.{StandsAt, rooted};
ghost use Rattle.run.specs.Faults.{rewind_answer, grant_answer};
ghost use Rattle.run.specs.Told.{state_of};
ghost use Rattle.run.specs.Standing.{Seen, IsAt, Keeps, reported};

use crate::fault::RunFault;
use crate::report::{Report, State};
use machine::Machine;
use readings::layer::ReadingsLayer;
use readings::readings_list::Readings;
use std::marker::Model;
use store::contract::{BareStore, Store};
use typing::rule::Rule;
use values::Value;

/// As many steps as a run may be granted from its start or rewind on.
const MOST_STEPS: u32 = 1_000_000_000;

/// A run of an accepted rule on readings, over a store of its own.
pub struct Run<S: BareStore + Store<Elem = Value>> {
    rule: Rule,
    layer: ReadingsLayer<S>,
    machine: Machine,
}

// What a run is beside its store: its rule, with the table of nodes, its readings and its machine.
const _: () = prove!(size_of::<Rule>() + size_of::<Readings>() + size_of::<Machine>() <= 8 * 1024);

/// What a run took, given back.
pub struct Closed<S> {
    pub rule: Rule,
    pub store: S,
}

impl<S: BareStore + Store<Elem = Value>> Model for Run<S> {
    ghost Value = { Seen S };

    ghost view = { λ r. record { rule = r.rule; readings = numbers_of r.layer.readings; store = r.layer.below; machine = r.machine } };

    ghost invariant = { λ r. Keeps S.Store.lists S.Store.whole S.Store.room S.Store.cost (record { rule = r.rule; readings = numbers_of r.layer.readings; store = r.layer.below; machine = r.machine }) };
}

/// Clears the store and begins, in the environment of handle 0: the readings.
fn begin<S: BareStore + Store<Elem = Value>>(
    rule: &Rule,
    layer: &mut ReadingsLayer<S>,
    machine: &mut Machine,
)
    requires as_many { length (numbers_of layer.old.readings) ≡ rule.now.readings }
    ensures begun { (t : Tree) → IsTree rule.now t
        → StandsAt (rule_of rule.now.nodes.items (values_of layer.new.readings))
        (behind (values_of layer.new.readings) (S.Store.lists layer.new.below))
        (room_of (S.Store.whole layer.new.below) (cost_below (values_of layer.new.readings)
        (S.Store.cost layer.new.below))) (S.Store.room layer.new.below) (rooted 0 (numbers_of layer.new.readings))
        machine.new (begun (numbers_of layer.new.readings) t) }
    ensures readings { numbers_of layer.new.readings ≡ numbers_of layer.old.readings }
    ensures whole { S.Store.whole layer.new.below ≡ S.Store.whole layer.old.below }
    ensures cost { S.Store.cost layer.new.below ≡ S.Store.cost layer.old.below }
{
    layer.clear();
    machine.begin(rule.received.nodes.as_slice(), layer, 0);
}

impl<S: BareStore + Store<Elem = Value>> Run<S> {
    /// Starts a rule over a store, with all readings 0.
    pub fn start(rule: Rule, store: S) -> Run<S>
        ensures typed { (r : ℕ) (t : Tree) → IsRule rule r t → (τ : Ty) × RuleHas r t τ }
        ensures rule { result.rule ≡ rule }
        ensures whole { S.Store.whole result.store ≡ S.Store.whole store }
        ensures cost { S.Store.cost result.store ≡ S.Store.cost store }
        ensures begun { (r : ℕ) (t : Tree) → IsRule rule r t → IsAt S.Store.lists S.Store.whole S.Store.room
            S.Store.cost result t (replicate r (pos 0)) 0 }
    {
        let mut layer = ReadingsLayer::new(store, Readings::zeros(rule.received.readings));
        let mut machine = Machine::new();
        begin(&rule, &mut layer, &mut machine);
        Run {
            rule,
            layer,
            machine,
        }
    }

    /// Begins anew, with these readings; refused, the run is as it was.
    pub fn rewind(&mut self, readings: &[i32]) -> Result<(), RunFault>
        ensures answer { result ≡ rewind_answer self.old.rule.readings (length readings.now) }
        ensures err { OnErr result (self.new ≡ self.old) }
        ensures rule { self.new.rule ≡ self.old.rule }
        ensures whole { S.Store.whole self.new.store ≡ S.Store.whole self.old.store }
        ensures cost { S.Store.cost self.new.store ≡ S.Store.cost self.old.store }
        ensures ok { OnOk result ((t : Tree) → IsTree self.old.rule t → IsAt S.Store.lists S.Store.whole S.Store.room
            S.Store.cost self.new t readings.now 0) }
    {
        let wanted = self.rule.received.readings;
        if readings.len() != wanted {
            return Err(RunFault::WrongCount {
                wanted,
                given: readings.len(),
            });
        }
        self.layer.set_readings(Readings::new(readings));
        begin(&self.rule, &mut self.layer, &mut self.machine);
        Ok(())
    }

    /// Grants so many steps, which are done at once, or as many of them as there are; refused, the run is as it was.
    pub fn grant(&mut self, steps: u32) -> Result<(), RunFault>
        ensures answer { result ≡ grant_answer (state_of (reported self.old).state) (reported self.old).count steps }
        ensures err { OnErr result (self.new ≡ self.old) }
        ensures rule { self.new.rule ≡ self.old.rule }
        ensures whole { S.Store.whole self.new.store ≡ S.Store.whole self.old.store }
        ensures cost { S.Store.cost self.new.store ≡ S.Store.cost self.old.store }
        ensures ok { OnOk result ((t : Tree) (readings : List ℤ) (g : ℕ)
            → IsAt S.Store.lists S.Store.whole S.Store.room S.Store.cost self.old t readings g
            → IsAt S.Store.lists S.Store.whole S.Store.room S.Store.cost self.new t readings (g + steps)) }
    {
        let machine::steps::State::Waiting = self.machine.state else {
            return Err(RunFault::NotWaiting);
        };
        let most = MOST_STEPS.saturating_sub(self.machine.count);
        if steps < 1 || most < steps {
            return Err(RunFault::WrongSteps { most });
        }
        self.machine.grant(self.rule.received.nodes.as_slice(), &mut self.layer, steps);
        Ok(())
    }

    /// The count and the state.
    pub fn ask(&self) -> Report
        ensures { result ≡ reported self.now }
    {
        Report {
            count: self.machine.count,
            state: State::of(self.machine.state),
        }
    }

    /// Ends the run, and gives rule and store back.
    pub fn close(self) -> Closed<S>
        ensures rule { result.rule ≡ self.rule }
        ensures store { result.store ≡ self.store }
    {
        let Run {
            rule,
            layer,
            machine: _,
        } = self;
        Closed {
            rule,
            store: layer.into_below(),
        }
    }
}
