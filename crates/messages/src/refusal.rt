//! A refused text, shown as compilers show errors.
ghost use Rattle.std.specs.Prelude.{◌≡◌, IfOk};
ghost use Rattle.text.specs.Faults.{number};

use crate::frame::{Message, Span};
use crate::rule_text::RuleText;
use lexer::scan::next_part;
use std::alloc::{AllocError, Global};
use text::fault::CompileFault;

impl<'a> RuleText<'a, '_> {
    /// The message for a refusal. One of the whole text has no token to point at.
    pub fn refusal(&self, heap: Global, fault: CompileFault) -> Result<Message<'a>, AllocError>
        ensures { IfOk result (λ message. message.number ≡ number fault) }
    {
        let number = fault.number();
        let file = self.file();
        let reason = self.reason(heap, fault)?;
        match fault {
            CompileFault::TooLong | CompileFault::TooManyNodes | CompileFault::NoRoom => {
                Ok(Message::about(number, file.name.into(), reason))
            }
            CompileFault::Lex(_) | CompileFault::Unexpected(_) | CompileFault::Unknown(_) => {
                let span = span_at(file.text, fault.place());
                Message::pointing(heap, number, file, span, reason)
            }
        }
    }
}

/// The token at a place, or the one byte there where none begins. Where a text ends too early, that is nothing behind
/// the last token.
fn span_at(text: &[u8], place: usize) -> Span {
    if place >= text.len() {
        let end = text.trim_ascii_end().len();
        return Span {
            place: end,
            stop: end,
        };
    }
    let stop = next_part(text, place).map_or(place.saturating_add(1), |token| token.stop);
    Span { place, stop }
}
