//! Runs of bytes of one kind.
ghost use Rattle.std.specs.Prelude.{◌≡◌, ◌≤◌, length};
ghost use Rattle.lexer.specs.Runs.{belongs, Run};

/// What a run of bytes consists of.
// Contracts name the kind of a run; of a test that was passed in they could only say what it answers.
#[derive(Clone, Copy)]
pub(crate) enum Kind {
    Blank,
    Digit,
    /// Letters, digits and underscores.
    Word,
}

impl Kind {
    pub(crate) fn has(self, byte: u8) -> bool
        ensures { result ≡ belongs self byte }
    {
        match self {
            Kind::Blank => matches!(byte, b' ' | b'\t' | b'\n' | b'\r'),
            Kind::Digit => byte.is_ascii_digit(),
            Kind::Word => byte.is_ascii_alphanumeric() || byte == b'_',
        }
    }

    /// Where the run of such bytes that begins at `from` stops.
    pub(crate) fn run(self, text: &[u8], from: usize) -> usize
        requires { from ≤ length text.now }
        ensures { Run self text.now from result }
    {
        text[from..]
            .iter()
            .position(|byte| !self.has(*byte))
            .map_or(text.len(), |length| from + length)
    }
}
