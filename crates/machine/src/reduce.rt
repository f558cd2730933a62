//! One reduction.
ghost use Rattle.std.specs.Prelude.{◌≡◌, ◌≢◌, ℕ, List, Some};
ghost use Rattle.store.specs.Lists.{Lists};
ghost use Rattle.reckoning.specs.Room.{Room};
ghost use Rattle.machine.specs.Places.{Rule, rule_of};
ghost use Rattle.machine.specs.declared.operation.Operation.{Operation as Op};
ghost use Rattle.values.specs.declared.Value.{Value as RunValue};
ghost use Rattle.reckoning.specs.Work.{Work};
ghost use Rattle.reckoning.specs.Moves.{move, stuck};
ghost use Rattle.machine.specs.declared.operation.Operation.TheVariants.{Applied, Bound, SumLeft, CompareLeft, Condition};
ghost use Rattle.machine.specs.declared.operations.Operations.{Operations};
ghost use Rattle.machine.specs.Opens.{IsReady};
ghost use Rattle.machine.specs.Standing.{InHand};
ghost use Rattle.machine.specs.Reducing.{room_of, Reduces, Extends};

use crate::operation::Operation;
use crate::seek::node as node_of;
use arithmetic::OutOfRange;
use readings::environments::Environments;
use syntax::node::Node;
use values::Value;

/// Where a reduction leads.
#[derive(Clone, Copy)]
pub enum Reduced {
    /// To a value.
    Found(Value),
    /// To a body, or to the branch of an if.
    Body { place: u16, environment: u32 },
    /// Nowhere: the sum leaves the number range.
    Range { node: u16, beyond: OutOfRange },
    /// Nowhere: the extension costs more than is free.
    NoStore(u16),
}

/// Puts a value before an environment, and enters a body in it.
#[inline(always)]
fn enter_body<W: Environments>(
    store: &mut W,
    node: u16,
    place: u16,
    environment: u32,
    value: Value,
) -> Reduced
    requires known { (l : List RunValue) × (W.Store.lists store.old environment ≡ Some l) }
    ensures extends { (l : List RunValue) → W.Store.lists store.old environment ≡ Some l
        → Extends (W.Store.lists store.old) (W.Store.lists store.new) (W.Store.room store.old)
        (W.Store.room store.new) (W.Store.cost store.old) l value node place result }
    ensures base { W.Store.base store.new ≡ W.Store.base store.old }
    ensures whole { W.Store.whole store.new ≡ W.Store.whole store.old }
    ensures cost { W.Store.cost store.new ≡ W.Store.cost store.old }
{
    match store.extend(environment, value) {
        Ok(made) => Reduced::Body {
            place,
            environment: made,
        },
        Err(_) => Reduced::NoStore(node),
    }
}

/// A function is applied to its argument.
#[inline(always)]
fn apply<W: Environments>(
    nodes: &[Node],
    store: &mut W,
    node: u16,
    argument: Value,
    value: Value,
) -> Reduced
    requires hand { (ops : List Op) × (d : ℕ) × (w : Work) × InHand (rule_of nodes.now (W.Store.base store.old))
        (W.Store.lists store.old) ops d (Applied node argument) value w × (move w ≢ stuck) }
    ensures reduces { (table : Operations) (w : Work) → InHand (rule_of nodes.now (W.Store.base store.old))
        (W.Store.lists store.old) table.ops table.depth (Applied node argument) value w
        → Reduces (rule_of nodes.now (W.Store.base store.old)) (room_of (W.Store.whole store.old)
        (W.Store.cost store.old)) (W.Store.lists store.old) (W.Store.lists store.new) (W.Store.room store.old)
        (W.Store.room store.new) table result w }
    ensures base { W.Store.base store.new ≡ W.Store.base store.old }
    ensures whole { W.Store.whole store.new ≡ W.Store.whole store.old }
    ensures cost { W.Store.cost store.new ≡ W.Store.cost store.old }
{
    let Value::Function {
        node: function,
        environment,
    } = value
    else {
        unreachable!()
    };
    let Node::Function(body) = node_of(nodes, function) else {
        unreachable!()
    };
    enter_body(store, node, body, environment, argument)
}

/// A let binds its value.
#[inline(always)]
fn bind<W: Environments>(
    nodes: &[Node],
    store: &mut W,
    node: u16,
    body: u16,
    environment: u32,
    value: Value,
) -> Reduced
    requires hand { (ops : List Op) × (d : ℕ) × (w : Work) × InHand (rule_of nodes.now (W.Store.base store.old))
        (W.Store.lists store.old) ops d (Bound node body environment) value w }
    ensures reduces { (table : Operations) (w : Work) → InHand (rule_of nodes.now (W.Store.base store.old))
        (W.Store.lists store.old) table.ops table.depth (Bound node body environment) value w
        → Reduces (rule_of nodes.now (W.Store.base store.old)) (room_of (W.Store.whole store.old)
        (W.Store.cost store.old)) (W.Store.lists store.old) (W.Store.lists store.new) (W.Store.room store.old)
        (W.Store.room store.new) table result w }
    ensures base { W.Store.base store.new ≡ W.Store.base store.old }
    ensures whole { W.Store.whole store.new ≡ W.Store.whole store.old }
    ensures cost { W.Store.cost store.new ≡ W.Store.cost store.old }
{
    enter_body(store, node, body, environment, value)
}

/// Two numbers are added.
#[inline(always)]
fn add(node: u16, right: Value, value: Value) -> Reduced
    requires { (rule : Rule) × (lists : Lists RunValue) × (ops : List Op) × (d : ℕ) × (w : Work)
        × InHand rule lists ops d (SumLeft node right) value w × (move w ≢ stuck) }
    ensures { (rule : Rule) (r : Room) (lists : Lists RunValue) (free : ℕ) (table : Operations) (w : Work)
        → InHand rule lists table.ops table.depth (SumLeft node right) value w
        → Reduces rule r lists lists free free table result w }
{
    let Value::Number(left) = value else {
        unreachable!()
    };
    let Value::Number(right) = right else {
        unreachable!()
    };
    match arithmetic::sum(left, right) {
        Ok(sum) => Reduced::Found(Value::Number(sum)),
        Err(beyond) => Reduced::Range { node, beyond },
    }
}

/// Two numbers are compared.
#[inline(always)]
fn compare(node: u16, right: Value, value: Value) -> Reduced
    requires { (rule : Rule) × (lists : Lists RunValue) × (ops : List Op) × (d : ℕ) × (w : Work)
        × InHand rule lists ops d (CompareLeft node right) value w × (move w ≢ stuck) }
    ensures { (rule : Rule) (r : Room) (lists : Lists RunValue) (free : ℕ) (table : Operations) (w : Work)
        → InHand rule lists table.ops table.depth (CompareLeft node right) value w
        → Reduces rule r lists lists free free table result w }
{
    let Value::Number(left) = value else {
        unreachable!()
    };
    let Value::Number(right) = right else {
        unreachable!()
    };
    Reduced::Found(Value::Truth(left <= right))
}

/// A branch is chosen.
#[inline(always)]
fn choose(node: u16, then: u16, otherwise: u16, environment: u32, value: Value) -> Reduced
    requires { (rule : Rule) × (lists : Lists RunValue) × (ops : List Op) × (d : ℕ) × (w : Work)
        × InHand rule lists ops d (Condition node then otherwise environment) value w × (move w ≢ stuck) }
    ensures { (rule : Rule) (r : Room) (lists : Lists RunValue) (free : ℕ) (table : Operations) (w : Work)
        → InHand rule lists table.ops table.depth (Condition node then otherwise environment) value w
        → Reduces rule r lists lists free free table result w }
{
    let Value::Truth(truth) = value else {
        unreachable!()
    };
    Reduced::Body {
        place: if truth { then } else { otherwise },
        environment,
    }
}

/// Reduces an operation in hand with the last of its values.
#[inline(always)]
pub fn reduce<W: Environments>(
    nodes: &[Node],
    store: &mut W,
    op: Operation,
    value: Value,
) -> Reduced
    requires ready { IsReady op }
    requires hand { (ops : List Op) × (d : ℕ) × (w : Work) × InHand (rule_of nodes.now (W.Store.base store.old))
        (W.Store.lists store.old) ops d op value w × (move w ≢ stuck) }
    ensures reduces { (table : Operations) (w : Work) → InHand (rule_of nodes.now (W.Store.base store.old))
        (W.Store.lists store.old) table.ops table.depth op value w
        → Reduces (rule_of nodes.now (W.Store.base store.old)) (room_of (W.Store.whole store.old)
        (W.Store.cost store.old)) (W.Store.lists store.old) (W.Store.lists store.new) (W.Store.room store.old)
        (W.Store.room store.new) table result w }
    ensures base { W.Store.base store.new ≡ W.Store.base store.old }
    ensures whole { W.Store.whole store.new ≡ W.Store.whole store.old }
    ensures cost { W.Store.cost store.new ≡ W.Store.cost store.old }
{
    match op {
        Operation::Applied { node, argument } => apply(nodes, store, node, argument, value),
        Operation::Bound {
            node,
            body,
            environment,
        } => bind(nodes, store, node, body, environment, value),
        Operation::SumLeft { node, right } => add(node, right, value),
        Operation::CompareLeft { node, right } => compare(node, right, value),
        Operation::Condition {
            node,
            then,
            otherwise,
            environment,
        } => choose(node, then, otherwise, environment, value),
        _ => unreachable!(),
    }
}
