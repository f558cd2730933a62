//! Where reading stands: how far in the bytes, and which nodes were read.
ghost use Rattle.std.specs.Prelude.{◌≡◌, ◌+◌, ◌<◌, ◌≤◌, [], ◌∷◌, ◌++◌, length, slice_set, pos};
ghost use Rattle.syntax.specs.Kinds.{operands_of};
ghost use Rattle.syntax.specs.declared.node.Node.TheVariants.{Number};

use arrayvec::ArrayVec;
use syntax::kind::Kind;
use syntax::limits::MOST_NODES;
use syntax::node::Node;

/// Goes through a record's bytes from the front to the end.
#[derive(Drop)]
pub(crate) struct Reader<'a> {
    pub(crate) bytes: &'a [u8],
    /// Where the next node begins.
    pub(crate) place: usize,
    pub(crate) nodes: ArrayVec<Node, MOST_NODES>,
    ghost inside: { place ≤ length bytes.now },
}

impl<'a> Reader<'a> {
    /// Begins at a place, with no nodes.
    pub(crate) fn new(bytes: &'a [u8], place: usize) -> Reader<'a>
        requires { place ≤ length bytes.now }
        ensures bytes { result.bytes.now ≡ bytes.now }
        ensures place { result.place ≡ place }
        ensures empty { result.nodes.items ≡ [] }
    {
        Reader {
            bytes,
            place,
            nodes: ArrayVec::new(),
        }
    }

    /// The place that the next node gets.
    pub(crate) fn next(&self) -> u16
        ensures { result ≡ length self.now.nodes.items }
    {
        self.nodes.len() as u16
    }

    /// Goes over a node's own bytes, and takes the next place in the table for it, since its children come first.
    pub(crate) fn open(&mut self, kind: Kind) -> u16
        requires there { self.old.place + (1 + operands_of kind) ≤ length self.old.bytes.now }
        requires few { length self.old.nodes.items < 512 }
        ensures at { result ≡ length self.old.nodes.items }
        ensures bytes { self.new.bytes.now ≡ self.old.bytes.now }
        ensures place { self.new.place ≡ self.old.place + (1 + operands_of kind) }
        ensures nodes { self.new.nodes.items ≡ self.old.nodes.items ++ Number (pos 0) ∷ [] }
    {
        let at = self.next();
        self.place += 1 + kind.operands();
        self.nodes.push(Node::default());
        at
    }

    /// Puts a node into the place that was taken for it.
    pub(crate) fn put(&mut self, at: u16, node: Node)
        requires { at < length self.old.nodes.items }
        ensures bytes { self.new.bytes.now ≡ self.old.bytes.now }
        ensures place { self.new.place ≡ self.old.place }
        ensures nodes { self.new.nodes.items ≡ slice_set self.old.nodes.items at node }
    {
        self.nodes[usize::from(at)] = node;
    }
}
