//! A node's own bytes, its children apart.
ghost use Rattle.std.specs.Prelude.{◌≡◌, ◌+◌, ◌≤◌, length};
ghost use Rattle.record.specs.Nodes.{named};
ghost use Rattle.record.specs.Reading.{Headed, Distance};

use crate::bytes::two_bytes;
use crate::fault::RecordFault;
use crate::reader::Reader;
use syntax::kind::Kind;
use syntax::node::Node;

impl Reader<'_> {
    /// The kind of the node that begins here; its own bytes are all there.
    pub(crate) fn head(&self) -> Result<Kind, RecordFault>
        ensures { Headed self.now.bytes.now (length self.now.nodes.items) self.now.place result }
    {
        let place = self.place;
        let byte = self.bytes.get(place).ok_or(RecordFault::NoNode(place))?;
        if self.nodes.is_full() {
            return Err(RecordFault::TooManyNodes(place));
        }
        let kind = Kind::try_from(*byte).map_err(|_| RecordFault::UnknownKind(place))?;
        if self.bytes.len() - place - 1 < kind.operands() {
            return Err(RecordFault::CutShort(self.bytes.len()));
        }
        Ok(kind)
    }
}

/// The distance of the variable that begins at a place, with `bound` variables in force around it.
pub(crate) fn distance(bytes: &[u8], place: usize, bound: usize) -> Result<u16, RecordFault>
    requires { place + 3 ≤ length bytes.now }
    ensures { Distance bytes.now place bound result }
{
    let distance = two_bytes(bytes, place + 1);
    if usize::from(distance) >= bound {
        return Err(RecordFault::Unbound(place));
    }
    Ok(distance)
}

/// The node of a variable at a distance: it is one of the binders around it, or a reading behind them.
pub(crate) fn named(distance: u16, binders: usize) -> Node
    ensures { result ≡ named binders distance }
{
    if usize::from(distance) < binders {
        Node::Variable(distance)
    } else {
        Node::Reading(distance - binders as u16)
    }
}
