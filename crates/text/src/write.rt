//! Writes a tree into a record: a node, then its children from left to right.
ghost use Rattle.std.specs.Prelude.{◌≡◌, ◌+◌, ◌≤◌, length};
ghost use Rattle.syntax.specs.Record;
ghost use Rattle.text.specs.Writing.{Put, Fits, Wrote};

use syntax::node::Node;

/// The bytes of a number, the higher first.
pub(crate) fn two_bytes(value: u16) -> [u8; 2]
    ensures { result ≡ Record.two_bytes value }
{
    value.to_be_bytes()
}

/// A buffer, and the place up to which it is written.
// A writer of the rest alone would say by a `follows` what the whole buffer ends as, and of its `put` that is proved by hand only (`put_spec`).
#[derive(Drop)]
pub(crate) struct Writer<'a> {
    pub(crate) out: &'a mut [u8],
    pub(crate) at: usize,
}

impl Writer<'_> {
    /// Puts bytes behind those that were written.
    pub(crate) fn put(&mut self, bytes: &[u8])
        requires { self.old.at + length bytes.now ≤ length self.old.out.now }
        ensures same_reference { self.new.out.ghost_name ≡ self.old.out.ghost_name }
        ensures put { Put self.old self.new bytes.now }
    {
        let at = self.at;
        let stop = at + bytes.len();
        self.out[at..stop].copy_from_slice(bytes);
        self.at = stop;
    }

    /// Writes the tree at a node.
    pub(crate) fn tree(&mut self, nodes: &[Node], root: u16)
        requires { Fits nodes.now root self.old }
        ensures same_reference { self.new.out.ghost_name ≡ self.old.out.ghost_name }
        ensures wrote { Wrote nodes.now root self.old self.new }
    {
        let node = nodes[usize::from(root)];
        self.put(&[u8::from(node.kind())]);
        match node {
            Node::Number(number) => self.put(&number.to_be_bytes()),
            Node::Truth(_) => {}
            Node::Variable(distance) => self.put(&two_bytes(distance)),
            // The table of a text tells every variable by its distance, as a record does.
            Node::Reading(_) => unreachable!(),
            Node::Function(body) => self.tree(nodes, body),
            Node::Application(first, second)
            | Node::LetIn(first, second)
            | Node::Sum(first, second)
            | Node::AtMost(first, second) => {
                self.tree(nodes, first);
                self.tree(nodes, second);
            }
            Node::IfElse(condition, then, otherwise) => {
                self.tree(nodes, condition);
                self.tree(nodes, then);
                self.tree(nodes, otherwise);
            }
        }
    }
}
