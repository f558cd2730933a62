//! A node of a tree, and what stands around it.
use std::iter;
use syntax::node::Node;

/// A node by its place among the nodes of its tree, which stand in prefix order.
#[derive(Clone, Copy)]
pub(crate) struct NodeAt<'a> {
    pub(crate) nodes: &'a [Node],
    pub(crate) at: usize,
}

impl<'a> NodeAt<'a> {
    /// The node itself, where the tree has so many.
    pub(crate) fn node(self) -> Option<Node> {
        self.nodes.get(self.at).copied()
    }

    /// The nodes before it.
    pub(crate) fn before(self) -> &'a [Node] {
        self.nodes.get(..self.at).unwrap_or(self.nodes)
    }

    /// The last node of the tree that begins here.
    pub(crate) fn last_below(self) -> NodeAt<'a> {
        let nodes = self.nodes;
        let at = iter::successors(Some(self.at), |at| last_child(*nodes.get(*at)?))
            .take(nodes.len())
            .last()
            .unwrap_or(self.at);
        NodeAt { nodes, at }
    }

    /// Whether it is applied to a number below 0. What is applied stands right behind its application.
    pub(crate) fn is_before_a_minus(self) -> bool {
        let Some(Node::Application(_, argument)) = self.nodes.get(self.at.saturating_sub(1)) else {
            return false;
        };
        matches!(self.nodes.get(usize::from(*argument)), Some(Node::Number(number)) if *number < 0)
    }
}

/// The last child of a node, where it has any.
fn last_child(node: Node) -> Option<usize> {
    match node {
        Node::Number(_) | Node::Truth(_) | Node::Variable(_) | Node::Reading(_) => None,
        Node::Function(last) => Some(usize::from(last)),
        Node::Application(_, last) | Node::LetIn(_, last) => Some(usize::from(last)),
        Node::Sum(_, last) | Node::AtMost(_, last) => Some(usize::from(last)),
        Node::IfElse(_, _, last) => Some(usize::from(last)),
    }
}
