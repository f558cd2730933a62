//! Coming back with a value that was found.
ghost use Rattle.std.specs.Prelude.{◌≡◌, ◌≢◌, ◌<◌, suc, ◌*◌};
ghost use Rattle.reckoning.specs.Work.{Work};
ghost use Rattle.reckoning.specs.Moves.{move, stuck};
ghost use Rattle.machine.specs.Places.{rule_of};
ghost use Rattle.machine.specs.Opens.{weighed};
ghost use Rattle.machine.specs.Standing.{HasFound, Follows};
ghost use Rattle.machine.specs.Reducing.{room_of};
ghost use Rattle.machine.specs.Extents.{to_go};
ghost use Rattle.machine.specs.Going.{Goes, Lessens};
ghost use Rattle.machine.specs.declared.next.Next.TheVariants as next_is;

use crate::next::{Gone, Next};
use crate::operand::{operand, ready};
use crate::operation::Operation;
use crate::operations::Operations;
use crate::seek::enter;
use crate::steps::State;
use readings::environments::Environments;
use syntax::node::Node;
use values::Value;

/// Hands a value that was found to the innermost operation: a right operand gives way to the left one, and any other is
/// the last that the operation waits for.
#[inline(always)]
fn come_back<W: Environments>(
    nodes: &[Node],
    store: &mut W,
    table: &mut Operations,
    value: Value,
    left: u32,
) -> Gone
    requires found { (w : Work) × HasFound (rule_of nodes.now (W.Store.base store.old)) (W.Store.lists store.old)
        table.old value w × (move w ≢ stuck) }
    ensures goes { (w : Work) → HasFound (rule_of nodes.now (W.Store.base store.old)) (W.Store.lists store.old)
        table.old value w → Goes (rule_of nodes.now (W.Store.base store.old)) (room_of (W.Store.whole store.old)
        (W.Store.cost store.old)) (W.Store.lists store.old) (W.Store.lists store.new) (W.Store.room store.old)
        (W.Store.room store.new) left table.new result w }
    ensures lessens { Lessens nodes.now table.new result (to_go nodes.now table.old (next_is.Value value)) }
    ensures still { left ≡ 0 → store.new ≡ store.old }
    ensures base { W.Store.base store.new ≡ W.Store.base store.old }
    ensures whole { W.Store.whole store.new ≡ W.Store.whole store.old }
    ensures cost { W.Store.cost store.new ≡ W.Store.cost store.old }
{
    if table.depth == 0 {
        return Gone::Ended(State::Done(value));
    }
    let op = table.top();
    table.pop();
    match op {
        Operation::Argument {
            node,
            function,
            environment,
        } => {
            let op = Operation::Applied {
                node,
                argument: value,
            };
            operand(nodes, store, table, op, function, environment, left)
        }
        Operation::SumRight {
            node,
            left: l,
            environment,
        } => {
            let op = Operation::SumLeft { node, right: value };
            operand(nodes, store, table, op, l, environment, left)
        }
        Operation::CompareRight {
            node,
            left: l,
            environment,
        } => {
            let op = Operation::CompareLeft { node, right: value };
            operand(nodes, store, table, op, l, environment, left)
        }
        // An arm for each, so that what the operation is need not be asked again where it is reduced.
        Operation::Applied { .. } => ready(nodes, store, table, op, value, left),
        Operation::Bound { .. } => ready(nodes, store, table, op, value, left),
        Operation::SumLeft { .. } => ready(nodes, store, table, op, value, left),
        Operation::CompareLeft { .. } => ready(nodes, store, table, op, value, left),
        Operation::Condition { .. } => ready(nodes, store, table, op, value, left),
    }
}

/// Goes on from a value that was found, or from a node that is to be met.
#[inline(always)]
pub fn go_on<W: Environments>(
    nodes: &[Node],
    store: &mut W,
    table: &mut Operations,
    next: Next,
    left: u32,
) -> Gone
    requires follows { (w : Work) × Follows (rule_of nodes.now (W.Store.base store.old)) (W.Store.lists store.old)
        table.old next w × (move w ≢ stuck) }
    ensures goes { (w : Work) → Follows (rule_of nodes.now (W.Store.base store.old)) (W.Store.lists store.old)
        table.old next w → Goes (rule_of nodes.now (W.Store.base store.old)) (room_of (W.Store.whole store.old)
        (W.Store.cost store.old)) (W.Store.lists store.old) (W.Store.lists store.new) (W.Store.room store.old)
        (W.Store.room store.new) left table.new result w }
    ensures lessens { Lessens nodes.now table.new result (to_go nodes.now table.old next) }
    ensures still { left ≡ 0 → store.new ≡ store.old }
    ensures base { W.Store.base store.new ≡ W.Store.base store.old }
    ensures whole { W.Store.whole store.new ≡ W.Store.whole store.old }
    ensures cost { W.Store.cost store.new ≡ W.Store.cost store.old }
{
    match next {
        Next::Value(value) => come_back(nodes, store, table, value, left),
        Next::Node(met) => enter(nodes, store, table, met.place, met.environment, left),
    }
}
