//! The nodes of a tree, as tables hold them.
ghost use Rattle.std.specs.Prelude.{◌≡◌, pos};
ghost use Rattle.syntax.specs.declared.node.Node.TheVariants.{Number, Variable, Application, Sum};
ghost use Rattle.syntax.specs.Kinds.{kind_of};

use crate::kind::Kind;

/// A node, its children by their places in the table.
///
/// No table has more than 513 nodes, and a record has two bytes for a distance: 16 bits hold either.
// Boxes would need a heap, and a controller has none.
#[derive(Clone, Copy, Debug, PartialEq, Eq)]
pub enum Node {
    Number(i32),
    Truth(bool),
    /// How many binders stand between a variable and its own.
    Variable(u16),
    /// A variable that is a reading: which one. Only the table of an accepted record tells it apart.
    Reading(u16),
    Function(u16),
    Application(u16, u16),
    LetIn(u16, u16),
    Sum(u16, u16),
    AtMost(u16, u16),
    IfElse(u16, u16, u16),
}

// A controller keeps a table of 512 for each of its rules.
const _: () = prove!(size_of::<Node>() == 8);

impl Default for Node {
    ghost is_default = { λ node. node ≡ Number (pos 0) };

    fn default() -> Node {
        Node::Number(0)
    }
}

impl Node {
    pub fn variable(distance: u16) -> Node
        ensures { result ≡ Variable distance }
    {
        Node::Variable(distance)
    }

    pub fn applied(function: u16, argument: u16) -> Node
        ensures { result ≡ Application function argument }
    {
        Node::Application(function, argument)
    }

    pub fn summed(left: u16, right: u16) -> Node
        ensures { result ≡ Sum left right }
    {
        Node::Sum(left, right)
    }

    /// What a record announces the node as.
    pub fn kind(self) -> Kind
        ensures { result ≡ kind_of self }
    {
        match self {
            Node::Number(_) => Kind::Number,
            Node::Truth(false) => Kind::False,
            Node::Truth(true) => Kind::True,
            Node::Variable(_) | Node::Reading(_) => Kind::Variable,
            Node::Function(_) => Kind::Function,
            Node::Application(_, _) => Kind::Application,
            Node::LetIn(_, _) => Kind::LetIn,
            Node::Sum(_, _) => Kind::Sum,
            Node::AtMost(_, _) => Kind::AtMost,
            Node::IfElse(_, _, _) => Kind::IfElse,
        }
    }
}
