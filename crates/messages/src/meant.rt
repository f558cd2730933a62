//! What a byte was perhaps meant for that begins no token.

/// What is said of a byte that nobody can have meant.
const NO_SUCH_BYTE: (&str, &str) = (
    "no token has this byte",
    "use names, numbers, ( ) + <= = -> and the eight keywords",
);

const NO_COMMENTS: (&str, &str) = (
    "FUN has no comments",
    "say it in a name, or beside the file",
);

/// Why no token begins with these bytes, and what to write in their place.
pub(crate) fn meant_by(bytes: &[u8]) -> (&'static str, &'static str) {
    match bytes {
        [b'/', b'/' | b'*', ..] | [b'-', b'-', ..] | [b'#', ..] => NO_COMMENTS,
        [0xe2, 0x89, 0xa4, ..] => ("a text is ASCII", "write `<=` for `\u{2264}`"),
        [0xe2, 0x89, 0xa5, ..] => ("a text is ASCII", "write `b <= a` for `a \u{2265} b`"),
        [0xe2, 0x86, 0x92, ..] => ("a text is ASCII", "write `->` for `\u{2192}`"),
        [0xef, 0xbb, 0xbf, ..] => (
            "the file begins with a byte order mark",
            "save it as plain ASCII or as UTF-8 without the mark",
        ),
        [first, ..] => meant_by_byte(*first),
        [] => NO_SUCH_BYTE,
    }
}

fn meant_by_byte(byte: u8) -> (&'static str, &'static str) {
    match byte {
        b'<' => (
            "`<` stands only in `<=`",
            "write `a <= b`; for `a < b` on numbers, `a + 1 <= b`",
        ),
        b'>' => (
            "`>` stands only in `->`",
            "write `b <= a` for `a >= b`, and `b + 1 <= a` for `a > b`",
        ),
        b'-' => (
            "a minus stands only directly before a digit, or in `->`",
            "write `a + -1` for `a - 1`",
        ),
        b'*' | b'/' | b'%' => (
            "FUN only adds and compares",
            "use `+`, or have the reading scaled beforehand",
        ),
        b'_' => (
            "a name begins with a letter",
            "put a letter before the underscore",
        ),
        b'.' => (
            "FUN has whole numbers only, and no composition",
            "write tenths as whole numbers, as 215 for 21.5, and `f (g x)` for `f . g`",
        ),
        b',' => (
            "FUN has no lists and no pairs",
            "write `f a b` to give a function two arguments",
        ),
        b'{' | b'}' | b'[' | b']' => ("only round parentheses group", "write `(` and `)`"),
        b'&' | b'|' | b'!' => (
            "truths are combined by `if`",
            "write `if a then b else false` for a and b",
        ),
        0..=31 | 127 => ("it is a control byte", "remove it"),
        128..=255 => ("a text is ASCII", "write names and signs in ASCII"),
        _ => NO_SUCH_BYTE,
    }
}
