//! The text of a rule.
ghost use Rattle.std.specs.Prelude.{◌≡◌, IfOk};
ghost use Rattle.book.specs.Books.{names};
ghost use Rattle.messages.specs.Told.{Told};

use crate::file::{TextFile, shown_name};
use book::book::Book;
use std::alloc::{AllocError, Global};
use text::compile::compile;
use text::fault::CompileFault;

/// What a call said besides the text.
#[derive(Drop)]
pub struct Origin<'a> {
    /// The file's name, or `-` for standard input.
    pub file: &'a str,
    /// The names of the readings, in their order.
    pub names: Vec<&'a str>,
    /// How many bytes the record may have.
    pub room: usize,
}

/// A rule's text, the names that it may use, and where it comes from.
#[derive(Clone, Copy)]
pub struct RuleText<'a, 'n> {
    pub text: &'a [u8],
    /// The file that the text ends.
    pub whole: &'a [u8],
    pub book: &'a Book,
    pub origin: &'a Origin<'n>,
}

impl<'a> RuleText<'a, '_> {
    /// The text, with its file as messages call it.
    pub fn file(&self) -> TextFile<'a>
        ensures { result.text.now ≡ self.now.text.now }
    {
        TextFile {
            name: shown_name(self.origin.file),
            whole: self.whole,
            text: self.text,
        }
    }

    /// The record, or why the text has none of at most `room` bytes.
    pub fn record(
        &self,
        heap: Global,
        room: usize,
    ) -> Result<Result<Vec<u8>, CompileFault>, AllocError>
        ensures { IfOk result (Told self.now.text.now (names self.now.book.now) room) }
    {
        let mut record = vec![in heap; 0u8; room]?;
        let compiled = compile(self.text, self.book, &mut record);
        Ok(compiled.map(|count| {
            record.truncate(count);
            record
        }))
    }
}
