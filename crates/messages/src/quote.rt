//! Showing bytes that somebody else wrote, so that they cannot disturb a message.
use std::fmt;

/// How many bytes are quoted within a sentence.
const MOST_QUOTED: usize = 40;

/// A character of a line, or a byte of a line that is not UTF-8, as it is shown: a tab as four blanks, and what would
/// move the cursor or hide text by its number.
#[derive(Clone, Copy)]
pub(crate) enum Cell {
    Char(char),
    Byte(u8),
}

impl From<u8> for Cell {
    fn from(byte: u8) -> Cell {
        if byte.is_ascii() {
            Cell::Char(char::from(byte))
        } else {
            Cell::Byte(byte)
        }
    }
}

impl fmt::Display for Cell {
    fn fmt<W: fmt::Write>(&self, f: &mut fmt::Formatter<W>) -> fmt::Result {
        match *self {
            Cell::Char('\t') => write!(f, "    "),
            Cell::Char(character) if is_hidden(character) => {
                write!(f, "{}", character.escape_unicode())
            }
            Cell::Char(character) => write!(f, "{character}"),
            Cell::Byte(byte) => write!(f, "\\x{byte:02x}"),
        }
    }
}

/// Whether a character would move the cursor or hide text.
fn is_hidden(character: char) -> bool {
    match character {
        '\u{200b}'..='\u{200f}' | '\u{2028}'..='\u{202e}' => true,
        '\u{2066}'..='\u{2069}' | '\u{feff}' => true,
        _ => character.is_control(),
    }
}

/// Bytes within backquotes, the end cut off where there are many.
#[derive(Clone, Copy)]
pub(crate) struct Quoted<'a>(pub(crate) &'a [u8]);

impl fmt::Display for Quoted<'_> {
    fn fmt<W: fmt::Write>(&self, f: &mut fmt::Formatter<W>) -> fmt::Result {
        write!(f, "`")?;
        for byte in self.0.iter().take(MOST_QUOTED) {
            write!(f, "{}", Cell::from(*byte))?;
        }
        if self.0.len() > MOST_QUOTED {
            write!(f, "...")?;
        }
        write!(f, "`")
    }
}

/// A name that somebody else chose, as of a file.
#[derive(Clone, Copy)]
pub(crate) struct Shown<'a>(pub(crate) &'a str);

impl fmt::Display for Shown<'_> {
    fn fmt<W: fmt::Write>(&self, f: &mut fmt::Formatter<W>) -> fmt::Result {
        for character in self.0.chars() {
            write!(f, "{}", Cell::Char(character))?;
        }
        Ok(())
    }
}
