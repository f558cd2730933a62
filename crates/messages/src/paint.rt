//! The colours of a message.

/// What is written before and behind the parts of a message: escapes for a terminal, or nothing.
#[derive(Clone, Copy)]
pub struct Paint {
    /// Before `error` and its number, and before the carets.
    pub(crate) wrong: &'static str,
    /// Before what frames the line.
    pub(crate) frame: &'static str,
    /// Before the title.
    pub(crate) title: &'static str,
    /// Behind each of them.
    pub(crate) end: &'static str,
}

impl Paint {
    /// No colours.
    pub const PLAIN: Paint = Paint {
        wrong: "",
        frame: "",
        title: "",
        end: "",
    };

    /// Those that terminals know.
    pub const COLORS: Paint = Paint {
        wrong: "\u{1b}[1;31m",
        frame: "\u{1b}[1;34m",
        title: "\u{1b}[1m",
        end: "\u{1b}[0m",
    };
}
