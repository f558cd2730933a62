//! Files, as messages call them.
use crate::line::Line;

/// No more is read of a file: what is longer is refused anyway, and an input may never end.
pub const MOST_READ: usize = 1_048_576;

/// The name that a call gives standard input.
pub const STANDARD_INPUT: &str = "-";

/// A text, the file that it ends, and what messages call that file.
#[derive(Clone, Copy)]
pub struct TextFile<'a> {
    pub name: &'a str,
    /// All bytes of the file: lines of the text are counted among its lines.
    pub whole: &'a [u8],
    pub text: &'a [u8],
}

impl TextFile<'_> {
    /// How many bytes of the file stand before the text.
    pub(crate) fn before(&self) -> usize {
        self.whole.len().saturating_sub(self.text.len())
    }

    /// The line and the column, both from 1, of a place of the text.
    pub(crate) fn position(&self, place: usize) -> (usize, usize) {
        let place = place.saturating_add(self.before());
        let line = Line::of(self.whole, place);
        (line.number, line.before(place).saturating_add(1))
    }
}

/// How messages call a file.
pub fn shown_name(file: &str) -> &str {
    if file == STANDARD_INPUT {
        "<standard input>"
    } else {
        file
    }
}
