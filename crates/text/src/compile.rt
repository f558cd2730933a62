//! From a text to its record.
ghost use Rattle.std.specs.Prelude.{◌≡◌, ◌≤◌, length, take, nat_le, nat_lt, IfOk, IfErr};
ghost use Rattle.syntax.specs.Tree.{Tree};
ghost use Rattle.book.specs.Books.{names};
ghost use Rattle.grammar.specs.Verdict.{Verdict, compiled, refused};
ghost use Rattle.syntax.specs.Buffers.{OnlyFront};
ghost use Rattle.text.specs.Compiling.{Held, Recorded};
ghost use Rattle.text.specs.Faults.{number, place};

use crate::fault::CompileFault;
use crate::parser::Parser;
use crate::scope::Scope;
use crate::write::{Writer, two_bytes};
use book::book::Book;
use nodes::table::Table;
use syntax::limits::{HEAD, MOST_NODES, MOST_TEXT, VERSION};

fn is_too_long(text: &[u8]) -> bool
    ensures { result ≡ nat_lt 4096 (length text.now) }
{
    text.len() > MOST_TEXT
}

/// Reads a text and writes its record at the front of `out`; answers the record's count of bytes.
///
/// A refusal leaves `out` as it was, and a success writes nothing behind the record.
pub fn compile(text: &[u8], book: &Book, out: &mut [u8]) -> Result<usize, CompileFault>
    ensures ok { IfOk result (λ count. Verdict (names book.now) text.now (length out.old) (compiled (take count out.new))) }
    ensures err { IfErr result (λ fault. Verdict (names book.now) text.now (length out.old) (refused (number fault) (place fault))) }
    ensures buffer { OnlyFront out.old out.new result }
{
    if is_too_long(text) {
        return Err(CompileFault::TooLong);
    }
    let mut parser = Parser::new(text, book)?;
    let root = parser.expr(&mut Scope::new())?;
    if !parser.current.token.is_end() {
        return Err(CompileFault::Unexpected(parser.current.place));
    }
    record(&parser.table, root, book.readings(), out)
}

fn fits(length: usize, room: usize) -> bool
    ensures { result ≡ nat_le length room }
{
    length <= room
}

/// Writes the record of a tree that was read.
fn record(table: &Table, root: u16, readings: usize, out: &mut [u8]) -> Result<usize, CompileFault>
    requires few { readings ≤ 8 }
    requires held { (t : Tree) × Held table.now t root }
    ensures { (t : Tree) → Held table.now t root → Recorded readings t out.old out.new result }
{
    if table.nodes.len() > MOST_NODES {
        return Err(CompileFault::TooManyNodes);
    }
    let length = HEAD + table.bytes;
    if !fits(length, out.len()) {
        return Err(CompileFault::NoRoom);
    }
    let mut writer = Writer { out, at: 0 };
    writer.put(&two_bytes((length - 2) as u16));
    writer.put(&[VERSION, readings as u8]);
    writer.tree(table.nodes.as_slice(), root);
    Ok(length)
}
