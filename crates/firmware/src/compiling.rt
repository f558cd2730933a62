//! A names book, and from a text to its record.
ghost use Rattle.book.specs.Books.{names};
ghost use Rattle.firmware.specs.Replies.{NameReplied, CompileReplied};

use crate::reply::Reply;
use book::book::Book;
use trial::TrialFault;

/// Adds a name to a book: that of the next reading. Refused, the book is as it was.
pub fn add(book: &mut Book, name: &[u8]) -> Reply
    ensures { NameReplied (names book.old) (names book.new) name.now result }
{
    match book.add(name) {
        Ok(()) => Reply::done(0),
        Err(fault) => Reply::unnamed(fault),
    }
}

/// Compiles a text to its record at the front of `out`, and replies with the record's count of bytes. A refusal leaves
/// `out` as it was.
pub fn compile(text: &[u8], book: &Book, out: &mut [u8]) -> Reply
    ensures { CompileReplied text.now (names book.now) out.old out.new result }
{
    match text::compile::compile(text, book, out) {
        Ok(count) => Reply::done(count),
        Err(fault) => Reply::refused(TrialFault::Text(fault)),
    }
}
