//! Lines of the kind `compile`: `NAMES OUT TEXT`, where the names of the readings are joined by
//! commas, each in hexadecimal, OUT is the size of the output buffer, and the text is in
//! hexadecimal. `-` stands for no names and for an empty text.
use crate::fields::{Fields, bytes, given, number};
use crate::trouble::Trouble;
use book::book::Book;
use std::alloc::Global;
use text::compile::compile;

/// Compiles the text of one line.
pub(crate) fn answer(heap: Global, mut fields: Fields) -> Result<String, Trouble> {
    let names = fields.next();
    let size = number(fields.next())?;
    let text = bytes(heap, fields.last())?;
    let book = book_of(heap, names)?;
    let mut buffer = vec![in heap; 0u8; size]?;
    let count = compile(text.as_slice(), &book, &mut buffer)?;
    let record = hex::encode(heap, &buffer[..count])?;
    Ok(format!(in heap; "ok {count} {record}")?)
}

/// A book of the names.
pub(crate) fn book_of(heap: Global, names: &str) -> Result<Book, Trouble> {
    let mut book = Book::new();
    let Some(names) = given(names) else {
        return Ok(book);
    };
    for (order, name) in names.split(',').enumerate() {
        let name = bytes(heap, name)?;
        book.add(name.as_slice()).map_err(|fault| Trouble::Name {
            order,
            refused: fault.into(),
        })?;
    }
    Ok(book)
}
