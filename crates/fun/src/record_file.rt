//! Records in files.
use crate::failure::Failure;
use crate::source;
use crate::source::RECORD;
use hex::FromHexError;
use messages::file::{MOST_READ, shown_name};
use std::alloc::{AllocError, Global};
use verdicts::of_record::{Form, RecordFile};

/// A record as it was found in a file.
#[derive(Drop)]
pub(crate) struct Found<'a> {
    pub(crate) bytes: Vec<u8>,
    pub(crate) from: RecordFile<'a>,
}

/// Fetches a record. A file of printed characters, with blanks between them, holds it in hexadecimal; every other file
/// holds its bytes. The two are not mistaken: the third byte of a record is 1, which is not printed.
pub(crate) fn fetch<'a>(rt: &HostRuntime, file: &'a str) -> Result<Found<'a>, Failure> {
    let bytes = source::read(rt, file, RECORD)?;
    let cut = bytes.len() >= MOST_READ;
    let name = shown_name(file);
    // Where the file goes on behind what was read, nothing is known of the partner of a last digit; no record is so long.
    let is_text = is_printed(bytes.as_slice()) && !(cut && has_odd_digits(bytes.as_slice()));
    let (form, bytes) = if is_text {
        (
            Form::Hexadecimal,
            from_digits(rt.alloc(), name, bytes.as_slice())?,
        )
    } else {
        (Form::Bytes, bytes)
    };
    Ok(Found {
        bytes,
        from: RecordFile { name, form, cut },
    })
}

/// Whether a byte may stand between digits: the blanks of the language alone.
fn is_blank(byte: u8) -> bool {
    matches!(byte, b' ' | b'\t' | b'\n' | b'\r')
}

/// Whether there are printed characters, and beside them blanks alone.
fn is_printed(text: &[u8]) -> bool {
    text.iter().any(|byte| byte.is_ascii_graphic())
        && text
            .iter()
            .all(|byte| byte.is_ascii_graphic() || is_blank(*byte))
}

/// Whether a digit has no partner.
fn has_odd_digits(text: &[u8]) -> bool {
    text.iter().filter(|byte| !is_blank(**byte)).count() % 2 == 1
}

/// The bytes that digits spell, blanks between them passed over.
fn from_digits(heap: Global, name: &str, text: &[u8]) -> Result<Vec<u8>, Failure> {
    let digits: Vec<u8> = text
        .iter()
        .copied()
        .filter(|byte| !is_blank(*byte))
        .collect(heap)?;
    if let Some(index) = digits.iter().position(|digit| !digit.is_ascii_hexdigit()) {
        return Err(no_digit(heap, name, text, index));
    }
    match hex::decode(heap, digits.as_slice()) {
        Ok(bytes) => Ok(bytes),
        Err(FromHexError::OutOfMemory) => Err(Failure::NoMemory(AllocError)),
        Err(_) => Err(no_partner(heap, name, text, digits.len())),
    }
}

/// The failure for a character, by its index among those that are not blank, that is no digit.
fn no_digit(heap: Global, name: &str, text: &[u8], index: usize) -> Failure {
    let place = place_of(text, index);
    let (line, column) = position(text, place);
    let character = text.get(place).map_or(' ', |byte| char::from(*byte));
    Failure::told(
        heap,
        &format_args!(
            "error: `{character}` is no hexadecimal digit\n --> {name}:{line}:{column}\n  = help: a record in hexadecimal has the digits 0 to 9 and a to f; a rule's text is checked without --record\n"
        ),
    )
}

/// The failure for an odd count of digits.
fn no_partner(heap: Global, name: &str, text: &[u8], count: usize) -> Failure {
    let (line, column) = position(text, place_of(text, count.saturating_sub(1)));
    Failure::told(
        heap,
        &format_args!(
            "error: the last hexadecimal digit has no partner\n --> {name}:{line}:{column}\n  = help: two digits make a byte, and {count} digits are an odd count\n"
        ),
    )
}

/// The place of the character with this index among those of a text that are not blank.
fn place_of(text: &[u8], index: usize) -> usize {
    text.iter()
        .enumerate()
        .filter(|(_, byte)| !is_blank(**byte))
        .nth(index)
        .map_or(0, |(place, _)| place)
}

/// The line and the column, both from 1, of a place of a text.
fn position(text: &[u8], place: usize) -> (usize, usize) {
    let before = text.get(..place).unwrap_or(text);
    let line = before.iter().filter(|byte| **byte == b'\n').count();
    let from = before
        .iter()
        .rposition(|byte| *byte == b'\n')
        .map_or(0, |end| end + 1);
    (
        line.saturating_add(1),
        before.len().saturating_sub(from).saturating_add(1),
    )
}
