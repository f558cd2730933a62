//! A run, step for step.
ghost use Rattle.std.specs.Prelude.{◌≡◌, ◌≢◌, ◌<◌, ◌≤◌, ◌+◌, ℕ, List};
ghost use Rattle.store.specs.Lists.{Lists};
ghost use Rattle.values.specs.declared.Value.{Value as Value_};
ghost use Rattle.std.specs.Prelude.{ℤ};
ghost use Rattle.syntax.specs.Tree.{Tree};
ghost use Rattle.reckoning.specs.Work.{Work};
ghost use Rattle.reckoning.specs.Moves.{move, stuck};
ghost use Rattle.reckoning.specs.Reckoning.{Reckoned, begun, granted, steps, ahead as next_state};
ghost use Rattle.machine.specs.Places.{Rule, rule_of};
ghost use Rattle.machine.specs.declared.steps.State.TheVariants.{Waiting};
ghost use Rattle.machine.specs.Handles.{Root};
ghost use Rattle.machine.specs.Standing.{Readied};
ghost use Rattle.machine.specs.Reducing.{room_of};
ghost use Rattle.machine.specs.Running.{state_of, sum_ahead as sum_is_ahead, StandsAt, NeverStuck, NotStuckFor, Begins, rooted, OnTheWay};

use crate::next::{Gone, Met, Next};
use crate::operation::Operation;
use crate::operations::Operations;
use crate::settle::go_on;
use arithmetic::OutOfRange;
use readings::environments::Environments;
use syntax::node::Node;
use values::Value;

/// The state of a run.
#[derive(Clone, Copy, PartialEq, Eq, Debug)]
pub enum State {
    Waiting,
    Done(Value),
    Range { node: u16, beyond: OutOfRange },
    NoStore(u16),
    NoStack(u16),
}

/// Where a run is.
#[derive(Drop)]
pub struct Machine {
    pub table: Operations,
    /// While the run waits, the value that the innermost operation is reduced with.
    pub focus: Value,
    /// How many reductions were done.
    pub count: u32,
    pub state: State,
}

/// What is told of a sum that is next.
fn sum_ahead(node: u16, right: Value, left: Value) -> State
    ensures { result ≡ sum_is_ahead node right left }
{
    let Value::Number(right) = right else {
        return State::Waiting;
    };
    let Value::Number(left) = left else {
        return State::Waiting;
    };
    match arithmetic::sum(left, right) {
        Ok(_) => State::Waiting,
        Err(beyond) => State::Range { node, beyond },
    }
}

/// What is told of the reduction that is next.
fn ahead(table: &Operations, value: Value) -> State
    requires { 0 < table.now.depth }
    ensures { (rule : Rule) (lists : Lists Value_) (w : Work) → Readied rule lists table.now value w
        → state_of result ≡ next_state w (move w) }
{
    match table.top() {
        Operation::SumLeft { node, right } => sum_ahead(node, right, value),
        _ => State::Waiting,
    }
}

impl Machine {
    /// A run that has not begun.
    pub fn new() -> Machine {
        Machine {
            table: Operations::new(),
            focus: Value::Number(0),
            count: 0,
            state: State::Waiting,
        }
    }

    /// Goes on from what is next, until the run ends, or waits with no step left of those granted.
    #[inline(never)]
    fn walk<W: Environments>(&mut self, nodes: &[Node], store: &mut W, from: Next, granted: u32)
        requires low { self.old.count + granted < 4294967296 }
        requires goes_on { (root : Root) × (s : Reckoned) × OnTheWay (rule_of nodes.now (W.Store.base store.old))
            (W.Store.lists store.old) (room_of (W.Store.whole store.old) (W.Store.cost store.old))
            (W.Store.room store.old) root self.old.table from s
            × NotStuckFor (room_of (W.Store.whole store.old) (W.Store.cost store.old)) granted s }
        ensures goes { (root : Root) (s : Reckoned) → OnTheWay (rule_of nodes.now (W.Store.base store.old))
            (W.Store.lists store.old) (room_of (W.Store.whole store.old) (W.Store.cost store.old))
            (W.Store.room store.old) root self.old.table from s → self.old.count ≡ s.count
            → StandsAt (rule_of nodes.now (W.Store.base store.old)) (W.Store.lists store.new)
            (room_of (W.Store.whole store.old) (W.Store.cost store.old)) (W.Store.room store.new) root self.new
            (steps (room_of (W.Store.whole store.old) (W.Store.cost store.old)) granted s) }
        ensures still { granted ≡ 0 → store.new ≡ store.old }
        ensures base { W.Store.base store.new ≡ W.Store.base store.old }
        ensures whole { W.Store.whole store.new ≡ W.Store.whole store.old }
        ensures cost { W.Store.cost store.new ≡ W.Store.cost store.old }
    {
        let mut next = from;
        let mut left = granted;
        loop {
            match go_on(nodes, store, &mut self.table, next, left) {
                Gone::Nearer(to) => next = to,
                Gone::On(to) => {
                    next = to;
                    left -= 1;
                }
                Gone::Waits(value) => {
                    self.focus = value;
                    self.count += granted;
                    self.state = ahead(&self.table, value);
                    return;
                }
                Gone::Ended(state) => {
                    self.count += granted - left;
                    self.state = state;
                    return;
                }
            }
        }
    }

    /// Begins: at the root of the tree, in the environment of a handle.
    pub fn begin<W: Environments>(&mut self, nodes: &[Node], store: &mut W, environment: u32)
        requires { (t : Tree) × (readings : List ℤ) × Begins (rule_of nodes.now (W.Store.base store.old))
            (W.Store.lists store.old) (W.Store.whole store.old) (W.Store.room store.old) environment t readings
            × (move (begun readings t).work ≢ stuck) }
        ensures stands { (t : Tree) (readings : List ℤ) → Begins (rule_of nodes.now (W.Store.base store.old))
            (W.Store.lists store.old) (W.Store.whole store.old) (W.Store.room store.old) environment t readings
            → StandsAt (rule_of nodes.now (W.Store.base store.old)) (W.Store.lists store.old)
            (room_of (W.Store.whole store.old) (W.Store.cost store.old)) (W.Store.room store.old)
            (rooted environment readings) self.new (begun readings t) }
        ensures store { store.new ≡ store.old }
    {
        self.table.clear();
        self.count = 0;
        let root = Next::Node(Met {
            place: 0,
            environment,
        });
        self.walk(nodes, store, root, 0);
    }

    /// So many granted steps: exactly as many reductions, or as many as there are before the run ends.
    pub fn grant<W: Environments>(&mut self, nodes: &[Node], store: &mut W, granted: u32)
        requires low { self.old.count + granted < 4294967296 }
        requires stands { (root : Root) × (s : Reckoned) × StandsAt (rule_of nodes.now (W.Store.base store.old))
            (W.Store.lists store.old) (room_of (W.Store.whole store.old) (W.Store.cost store.old))
            (W.Store.room store.old) root self.old s
            × NeverStuck (room_of (W.Store.whole store.old) (W.Store.cost store.old)) s }
        ensures goes { (root : Root) (s : Reckoned) → StandsAt (rule_of nodes.now (W.Store.base store.old))
            (W.Store.lists store.old) (room_of (W.Store.whole store.old) (W.Store.cost store.old))
            (W.Store.room store.old) root self.old s → StandsAt (rule_of nodes.now (W.Store.base store.old))
            (W.Store.lists store.new) (room_of (W.Store.whole store.old) (W.Store.cost store.old))
            (W.Store.room store.new) root self.new (steps (room_of (W.Store.whole store.old) (W.Store.cost store.old))
            granted s) }
        ensures base { W.Store.base store.new ≡ W.Store.base store.old }
        ensures whole { W.Store.whole store.new ≡ W.Store.whole store.old }
        ensures cost { W.Store.cost store.new ≡ W.Store.cost store.old }
    {
        let State::Waiting = self.state else {
            return;
        };
        self.walk(nodes, store, Next::Value(self.focus), granted);
    }
}
