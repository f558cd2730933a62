//! An operation in hand: it is not in the table, and has all but one of the values that it is reduced with.
ghost use Rattle.std.specs.Prelude.{◌≡◌, ◌≢◌, ◌<◌, ◌+◌, ℕ};
ghost use Rattle.reckoning.specs.Work.{Work};
ghost use Rattle.reckoning.specs.Moves.{move, stuck};
ghost use Rattle.machine.specs.Places.{rule_of};
ghost use Rattle.machine.specs.Opens.{IsReady, Topped};
ghost use Rattle.machine.specs.Standing.{InHand, Opening};
ghost use Rattle.machine.specs.Reducing.{room_of};
ghost use Rattle.machine.specs.declared.next.Gone.TheVariants.{Nearer};
ghost use Rattle.machine.specs.declared.next.Next.TheVariants.{Node as MeetNode};
ghost use Rattle.machine.specs.Extents.{to_meet};
ghost use Rattle.machine.specs.Going.{Goes, Lessens};

use crate::next::{Gone, Met, Next};
use crate::operation::Operation;
use crate::operations::Operations;
use crate::reduce::{Reduced, reduce};
use crate::seek::leaf;
use crate::steps::State;
use readings::environments::Environments;
use syntax::node::Node;
use values::Value;

/// The last value of an operation in hand was found: it is reduced, or opened where no step is left.
#[inline(always)]
pub fn ready<W: Environments>(
    nodes: &[Node],
    store: &mut W,
    table: &mut Operations,
    op: Operation,
    value: Value,
    left: u32,
) -> Gone
    requires room { table.old.depth < 256 }
    requires ready { IsReady op }
    requires hand { (w : Work) × InHand (rule_of nodes.now (W.Store.base store.old)) (W.Store.lists store.old)
        table.old.ops table.old.depth op value w × (move w ≢ stuck) }
    ensures goes { (w : Work) → InHand (rule_of nodes.now (W.Store.base store.old)) (W.Store.lists store.old)
        table.old.ops table.old.depth op value w → Goes (rule_of nodes.now (W.Store.base store.old))
        (room_of (W.Store.whole store.old) (W.Store.cost store.old)) (W.Store.lists store.old)
        (W.Store.lists store.new) (W.Store.room store.old) (W.Store.room store.new) left table.new result w }
    ensures lessens { (k : ℕ) → Lessens nodes.now table.new result k }
    ensures still { left ≡ 0 → store.new ≡ store.old }
    ensures base { W.Store.base store.new ≡ W.Store.base store.old }
    ensures whole { W.Store.whole store.new ≡ W.Store.whole store.old }
    ensures cost { W.Store.cost store.new ≡ W.Store.cost store.old }
{
    if left == 0 {
        table.push(op);
        return Gone::Waits(value);
    }
    match reduce(nodes, store, op, value) {
        Reduced::Found(value) => Gone::On(Next::Value(value)),
        Reduced::Body { place, environment } => Gone::On(Next::Node(Met { place, environment })),
        Reduced::Range { node, beyond } => Gone::Ended(State::Range { node, beyond }),
        Reduced::NoStore(node) => Gone::Ended(State::NoStore(node)),
    }
}

/// Opens an operation in hand, and goes on to its operand.
#[inline(always)]
pub fn open(table: &mut Operations, op: Operation, place: u16, environment: u32) -> Gone
    requires { table.old.depth < 256 }
    ensures ops { Topped table.old.ops table.new.ops table.old.depth op }
    ensures depth { table.new.depth ≡ table.old.depth + 1 }
    ensures next { result ≡ Nearer (MeetNode (record { place = place; environment = environment })) }
{
    table.push(op);
    Gone::Nearer(Next::Node(Met { place, environment }))
}

/// The last operand of an operation in hand: a leaf is worked out at once, for another the operation is opened.
#[inline(always)]
pub fn operand<W: Environments>(
    nodes: &[Node],
    store: &mut W,
    table: &mut Operations,
    op: Operation,
    place: u16,
    environment: u32,
    left: u32,
) -> Gone
    requires room { table.old.depth < 256 }
    requires ready { IsReady op }
    requires opening { (w : Work) × Opening (rule_of nodes.now (W.Store.base store.old)) (W.Store.lists store.old)
        table.old.ops table.old.depth op place environment w × (move w ≢ stuck) }
    ensures goes { (w : Work) → Opening (rule_of nodes.now (W.Store.base store.old)) (W.Store.lists store.old)
        table.old.ops table.old.depth op place environment w → Goes (rule_of nodes.now (W.Store.base store.old))
        (room_of (W.Store.whole store.old) (W.Store.cost store.old)) (W.Store.lists store.old)
        (W.Store.lists store.new) (W.Store.room store.old) (W.Store.room store.new) left table.new result w }
    ensures lessens { (k : ℕ) → to_meet nodes.now table.old place < k → Lessens nodes.now table.new result k }
    ensures still { left ≡ 0 → store.new ≡ store.old }
    ensures base { W.Store.base store.new ≡ W.Store.base store.old }
    ensures whole { W.Store.whole store.new ≡ W.Store.whole store.old }
    ensures cost { W.Store.cost store.new ≡ W.Store.cost store.old }
{
    match leaf(nodes, store, place, environment) {
        Some(value) => ready(nodes, store, table, op, value, left),
        None => open(table, op, place, environment),
    }
}
