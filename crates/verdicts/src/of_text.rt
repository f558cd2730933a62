//! Texts whose records are not accepted.
ghost use Rattle.std.specs.Prelude.{◌≡◌, IfOk};
ghost use Rattle.typing.specs.Faults.{number_of};

use crate::node_at::NodeAt;
use crate::span::span_of;
use crate::verdict::Refused;
use messages::file::TextFile;
use messages::frame::Message;
use record::receive::receive;
use std::alloc::{AllocError, Global};
use typing::fault::AcceptFault;

impl Refused<'_> {
    /// The message for the text that the record was made from. Where a node is refused it shows the part that the node
    /// comes from.
    pub fn in_text<'a>(&self, heap: Global, file: TextFile<'a>) -> Result<Message<'a>, AllocError>
        ensures { IfOk result (λ message. message.number ≡ number_of self.now.fault) }
    {
        let number = self.fault.number();
        let reason = self.reason(heap, false)?;
        match (self.fault, receive(self.record)) {
            (AcceptFault::NoType(node), Ok(received)) => {
                let nodes = received.nodes.as_slice();
                let span = span_of(heap, file.text, NodeAt { nodes, at: node })?;
                Message::pointing(heap, number, file, span, reason)
            }
            _ => Ok(Message::about(number, file.name.into(), reason)),
        }
    }
}
