//! Reading a tree: a node, then its children from left to right.
ghost use Rattle.std.specs.Prelude.{◌+◌, ◌≤◌, length};
ghost use Rattle.record.specs.Reading.{ReadsTree, ReadsTwo};

use crate::bytes::four_bytes;
use crate::fault::RecordFault;
use crate::head::{distance, named};
use crate::reader::Reader;
use syntax::kind::Kind;
use syntax::node::Node;

impl Reader<'_> {
    /// Reads the tree that begins here, with so many binders in force around it, and behind them the readings.
    #[cycle(tree_two)]
    pub(crate) fn tree(&mut self, binders: usize, readings: usize) -> Result<(), RecordFault>
        requires binders { binders ≤ length self.old.nodes.items }
        requires readings { readings ≤ 8 }
        ensures { ReadsTree readings binders self.old self.new result }
    {
        let kind = self.head()?;
        let here = self.place;
        let at = self.open(kind);
        let node = match kind {
            Kind::Number => Node::Number(four_bytes(self.bytes, here + 1)),
            Kind::False => Node::Truth(false),
            Kind::True => Node::Truth(true),
            Kind::Variable => named(distance(self.bytes, here, binders + readings)?, binders),
            Kind::Function => {
                self.tree(binders + 1, readings)?;
                Node::Function(at + 1)
            }
            Kind::Application => Node::Application(at + 1, self.two(binders, binders, readings)?),
            Kind::LetIn => Node::LetIn(at + 1, self.two(binders, binders + 1, readings)?),
            Kind::Sum => Node::Sum(at + 1, self.two(binders, binders, readings)?),
            Kind::AtMost => Node::AtMost(at + 1, self.two(binders, binders, readings)?),
            Kind::IfElse => {
                let then = self.two(binders, binders, readings)?;
                let otherwise = self.next();
                self.tree(binders, readings)?;
                Node::IfElse(at + 1, then, otherwise)
            }
        };
        self.put(at, node);
        Ok(())
    }

    /// Reads two trees, one behind the other, each under its own count of binders, and answers the second's node.
    #[cycle(tree_two)]
    fn two(&mut self, first: usize, second: usize, readings: usize) -> Result<u16, RecordFault>
        requires first { first ≤ length self.old.nodes.items }
        requires second { second ≤ length self.old.nodes.items + 1 }
        requires readings { readings ≤ 8 }
        ensures { ReadsTwo readings first second self.old self.new result }
    {
        self.tree(first, readings)?;
        let at = self.next();
        self.tree(second, readings)?;
        Ok(at)
    }
}
