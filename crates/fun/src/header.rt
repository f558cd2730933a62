//! The first line of a rule's file, where it names the readings.
//!
//! A file may begin with a line as `# readings: coil, flow`. The program reads it and passes over it: the rule's text
//! begins behind it. No rule's text begins with `#`, so the two are not mistaken.

/// What stands before the names.
const MARK: &str = "# readings:";

/// A file, cut into the names of its readings and the rule's text.
#[derive(Clone, Copy)]
pub(crate) struct Headed<'a> {
    /// The names as they are written, where the first line has some.
    pub(crate) names: Option<&'a str>,
    pub(crate) text: &'a [u8],
}

impl<'a> Headed<'a> {
    /// Cuts off the first line where it names readings.
    pub(crate) fn of(bytes: &'a [u8]) -> Headed<'a> {
        let whole = Headed {
            names: None,
            text: bytes,
        };
        let end = bytes
            .iter()
            .position(|byte| *byte == b'\n')
            .unwrap_or(bytes.len());
        let (line, text) = bytes.split_at(end);
        match std::str::from_utf8(line) {
            Ok(line) => match line.strip_prefix(MARK) {
                Some(names) => Headed {
                    names: Some(names),
                    text,
                },
                None => whole,
            },
            Err(_) => whole,
        }
    }
}

/// Whether a character stands between names.
pub(crate) fn separates(character: char) -> bool {
    character == ',' || character.is_ascii_whitespace()
}
