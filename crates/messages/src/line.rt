//! Lines and columns.

/// A line of a text, as editors count: its number from 1, the place of its first byte, and its bytes without those
/// that end it.
#[derive(Clone, Copy)]
pub(crate) struct Line<'a> {
    pub(crate) number: usize,
    pub(crate) from: usize,
    pub(crate) bytes: &'a [u8],
}

impl<'a> Line<'a> {
    /// The line of a place. One that ends in CR LF ends before the CR.
    pub(crate) fn of(text: &'a [u8], place: usize) -> Line<'a> {
        let (before, behind) = text.split_at(place.min(text.len()));
        let ends = before.iter().filter(|byte| **byte == b'\n').count();
        let from = before
            .iter()
            .rposition(|byte| *byte == b'\n')
            .map_or(0, |end| end + 1);
        let rest = behind
            .iter()
            .position(|byte| *byte == b'\n')
            .unwrap_or(behind.len());
        let bytes = &text[from..before.len() + rest];
        Line {
            number: ends.saturating_add(1),
            from,
            bytes: bytes.strip_suffix(b"\r").unwrap_or(bytes),
        }
    }

    /// How many bytes of the line stand before a place.
    pub(crate) fn before(&self, place: usize) -> usize {
        place.saturating_sub(self.from)
    }
}
