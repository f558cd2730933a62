//! A record that was read.
ghost use Rattle.std.specs.Prelude.{◌≡◌, pos};
ghost use Rattle.syntax.specs.Tree.{number};
ghost use Rattle.record.specs.Reading.{IsTree};

use arrayvec::ArrayVec;
use syntax::limits::MOST_NODES;
use syntax::node::Node;

/// What a record says: a tree, and over how many readings.
///
/// The nodes stand in prefix order, a node and then its children from left to right; a node's number is its place.
#[derive(Drop)]
pub struct Received {
    pub nodes: ArrayVec<Node, MOST_NODES>,
    pub readings: usize,
}

impl Received {
    /// The tree `0`, over no readings.
    pub fn zero() -> Received
        ensures tree { IsTree result (number (pos 0)) }
        ensures readings { result.readings ≡ 0 }
    {
        let mut nodes = ArrayVec::new();
        nodes.push(Node::Number(0));
        Received { nodes, readings: 0 }
    }
}
