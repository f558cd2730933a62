//! The nodes of the tree that is being read.
ghost use Rattle.std.specs.Prelude.{◌*◌, ◌≤◌};
ghost use Rattle.arrayvec.specs.ArrayVec.{array_vec_len};

use arrayvec::ArrayVec;
use syntax::limits::MOST_NODES;
use syntax::node::Node;

/// One more than a rule may have nodes.
pub const TOO_MANY: usize = MOST_NODES + 1;

/// Nodes in the order in which they were completed, children before their parents. A text may have
/// more nodes than a rule: past 512 they are only noticed, as one too many.
#[derive(Drop)]
pub struct Table {
    pub nodes: ArrayVec<Node, TOO_MANY>,
    /// How many bytes the nodes take in a record.
    pub bytes: usize,
    ghost small: { bytes ≤ 5 * array_vec_len nodes },
}

impl Table {
    ghost use Rattle.std.specs.Prelude.{◌≡◌, []};
    ghost use Rattle.nodes.specs.Nodes.{Pushed};

    pub fn new() -> Table
        ensures { (result.nodes.items ≡ []) × (result.bytes ≡ 0) }
    {
        Table {
            nodes: ArrayVec::new(),
            bytes: 0,
        }
    }

    /// Puts a node behind the others, and answers its place.
    pub fn push(&mut self, node: Node) -> u16
        ensures { Pushed self.old self.new node result }
    {
        let at = self.nodes.len() as u16;
        if self.nodes.try_push(node).is_ok() {
            self.bytes += 1 + node.kind().operands();
        }
        at
    }
}
