//! Seeking a value downwards.
ghost use Rattle.std.specs.Prelude.{◌≡◌, ◌≢◌, ◌<◌, length, None};
ghost use Rattle.reckoning.specs.Work.{Work};
ghost use Rattle.reckoning.specs.Moves.{move, stuck};
ghost use Rattle.record.specs.Nodes.{node_at};
ghost use Rattle.calculus.specs.Term.{Term};
ghost use Rattle.reckoning.specs.Environments.{Env, size};
ghost use Rattle.machine.specs.Places.{At, rule_of};
ghost use Rattle.machine.specs.Handles.{IsListOf};
ghost use Rattle.machine.specs.Leaves.{AtOnce, GoesOn};
ghost use Rattle.machine.specs.Opens.{IsOperation, IsOfNumbers};
ghost use Rattle.machine.specs.Standing.{Meets};
ghost use Rattle.machine.specs.Reducing.{room_of};
ghost use Rattle.machine.specs.Extents.{to_meet};
ghost use Rattle.machine.specs.Going.{Goes, Lessens};
ghost use Rattle.values.specs.declared.Value.TheVariants.{Number};

use crate::next::{Gone, Next};
use crate::operand::{open, operand};
use crate::operation::Operation;
use crate::operations::{MOST_OPEN, Operations};
use crate::steps::State;
use readings::environments::Environments;
use syntax::node::Node;
use values::Value;

/// The node at a place.
#[inline(always)]
pub fn node(nodes: &[Node], place: u16) -> Node
    requires { place < length nodes.now }
    ensures { result ≡ node_at nodes.now place }
{
    nodes[usize::from(place)]
}

/// A number, as a value.
#[inline(always)]
pub fn number_value(number: i32) -> Value
    ensures { result ≡ Number number }
{
    Value::Number(number)
}

/// The value of a node that is worked out at once: of a number, a truth, a binder, a reading or a function.
#[inline(always)]
pub fn leaf<W: Environments>(
    nodes: &[Node],
    store: &W,
    place: u16,
    environment: u32,
) -> Option<Value>
    requires { GoesOn (rule_of nodes.now (W.Store.base store.now)) (W.Store.lists store.now) place environment }
    ensures value { (t : Term) (env : Env) → At (rule_of nodes.now (W.Store.base store.now)) (size env) place t
        → IsListOf (rule_of nodes.now (W.Store.base store.now)) (W.Store.lists store.now) environment env
        → AtOnce (rule_of nodes.now (W.Store.base store.now)) (W.Store.lists store.now) t env result }
    ensures operation { result ≡ None → IsOperation (node_at nodes.now place) }
{
    match node(nodes, place) {
        Node::Number(number) => Some(number_value(number)),
        Node::Truth(truth) => Some(Value::Truth(truth)),
        Node::Variable(distance) => match store.binder(environment, distance as u32) {
            Ok(value) => Some(value),
            Err(_) => unreachable!(),
        },
        Node::Reading(number) => match store.reading(number as u32) {
            Some(value) => Some(value),
            None => unreachable!(),
        },
        Node::Function(_) => Some(Value::Function {
            node: place,
            environment,
        }),
        _ => None,
    }
}

/// Enters a sum or a comparison: the right operand first.
#[inline(always)]
fn enter_numbers<W: Environments>(
    nodes: &[Node],
    store: &mut W,
    table: &mut Operations,
    place: u16,
    environment: u32,
    left: u32,
) -> Gone
    requires room { table.old.depth < 256 }
    requires numbers { IsOfNumbers (node_at nodes.now place) }
    requires meets { (w : Work) × Meets (rule_of nodes.now (W.Store.base store.old)) (W.Store.lists store.old)
        table.old place environment w × (move w ≢ stuck) }
    ensures goes { (w : Work) → Meets (rule_of nodes.now (W.Store.base store.old)) (W.Store.lists store.old) table.old
        place environment w → Goes (rule_of nodes.now (W.Store.base store.old)) (room_of (W.Store.whole store.old)
        (W.Store.cost store.old)) (W.Store.lists store.old) (W.Store.lists store.new) (W.Store.room store.old)
        (W.Store.room store.new) left table.new result w }
    ensures lessens { Lessens nodes.now table.new result (to_meet nodes.now table.old place) }
    ensures still { left ≡ 0 → store.new ≡ store.old }
    ensures base { W.Store.base store.new ≡ W.Store.base store.old }
    ensures whole { W.Store.whole store.new ≡ W.Store.whole store.old }
    ensures cost { W.Store.cost store.new ≡ W.Store.cost store.old }
{
    match node(nodes, place) {
        Node::Sum(l, r) => match leaf(nodes, store, r, environment) {
            Some(right) => {
                let op = Operation::SumLeft { node: place, right };
                operand(nodes, store, table, op, l, environment, left)
            }
            None => {
                let op = Operation::SumRight {
                    node: place,
                    left: l,
                    environment,
                };
                open(table, op, r, environment)
            }
        },
        Node::AtMost(l, r) => match leaf(nodes, store, r, environment) {
            Some(right) => {
                let op = Operation::CompareLeft { node: place, right };
                operand(nodes, store, table, op, l, environment, left)
            }
            None => {
                let op = Operation::CompareRight {
                    node: place,
                    left: l,
                    environment,
                };
                open(table, op, r, environment)
            }
        },
        _ => unreachable!(),
    }
}

/// Enters an operation: the argument of an application first. An operand that is a leaf is worked out at once, and the
/// operation stays in hand.
#[inline(always)]
fn enter_operation<W: Environments>(
    nodes: &[Node],
    store: &mut W,
    table: &mut Operations,
    place: u16,
    environment: u32,
    left: u32,
) -> Gone
    requires room { table.old.depth < 256 }
    requires operation { IsOperation (node_at nodes.now place) }
    requires meets { (w : Work) × Meets (rule_of nodes.now (W.Store.base store.old)) (W.Store.lists store.old)
        table.old place environment w × (move w ≢ stuck) }
    ensures goes { (w : Work) → Meets (rule_of nodes.now (W.Store.base store.old)) (W.Store.lists store.old) table.old
        place environment w → Goes (rule_of nodes.now (W.Store.base store.old)) (room_of (W.Store.whole store.old)
        (W.Store.cost store.old)) (W.Store.lists store.old) (W.Store.lists store.new) (W.Store.room store.old)
        (W.Store.room store.new) left table.new result w }
    ensures lessens { Lessens nodes.now table.new result (to_meet nodes.now table.old place) }
    ensures still { left ≡ 0 → store.new ≡ store.old }
    ensures base { W.Store.base store.new ≡ W.Store.base store.old }
    ensures whole { W.Store.whole store.new ≡ W.Store.whole store.old }
    ensures cost { W.Store.cost store.new ≡ W.Store.cost store.old }
{
    match node(nodes, place) {
        Node::Application(function, argument) => match leaf(nodes, store, argument, environment) {
            Some(argument) => {
                let op = Operation::Applied {
                    node: place,
                    argument,
                };
                operand(nodes, store, table, op, function, environment, left)
            }
            None => {
                let op = Operation::Argument {
                    node: place,
                    function,
                    environment,
                };
                open(table, op, argument, environment)
            }
        },
        Node::LetIn(bound, body) => {
            let op = Operation::Bound {
                node: place,
                body,
                environment,
            };
            operand(nodes, store, table, op, bound, environment, left)
        }
        Node::IfElse(condition, then, otherwise) => {
            let op = Operation::Condition {
                node: place,
                then,
                otherwise,
                environment,
            };
            operand(nodes, store, table, op, condition, environment, left)
        }
        _ => enter_numbers(nodes, store, table, place, environment, left),
    }
}

/// Enters a node: a leaf has a value, an operation is opened, or reduced at once where its operands are leaves.
#[inline(always)]
pub fn enter<W: Environments>(
    nodes: &[Node],
    store: &mut W,
    table: &mut Operations,
    place: u16,
    environment: u32,
    left: u32,
) -> Gone
    requires meets { (w : Work) × Meets (rule_of nodes.now (W.Store.base store.old)) (W.Store.lists store.old)
        table.old place environment w × (move w ≢ stuck) }
    ensures goes { (w : Work) → Meets (rule_of nodes.now (W.Store.base store.old)) (W.Store.lists store.old) table.old
        place environment w → Goes (rule_of nodes.now (W.Store.base store.old)) (room_of (W.Store.whole store.old)
        (W.Store.cost store.old)) (W.Store.lists store.old) (W.Store.lists store.new) (W.Store.room store.old)
        (W.Store.room store.new) left table.new result w }
    ensures lessens { Lessens nodes.now table.new result (to_meet nodes.now table.old place) }
    ensures still { left ≡ 0 → store.new ≡ store.old }
    ensures base { W.Store.base store.new ≡ W.Store.base store.old }
    ensures whole { W.Store.whole store.new ≡ W.Store.whole store.old }
    ensures cost { W.Store.cost store.new ≡ W.Store.cost store.old }
{
    match node(nodes, place) {
        Node::Number(_)
        | Node::Truth(_)
        | Node::Variable(_)
        | Node::Reading(_)
        | Node::Function(_) => {
            match leaf(nodes, store, place, environment) {
                Some(value) => Gone::Nearer(Next::Value(value)),
                None => unreachable!(),
            }
        }
        _ if table.depth == MOST_OPEN => Gone::Ended(State::NoStack(place)),
        _ => enter_operation(nodes, store, table, place, environment, left),
    }
}
