//! Types in words: `int`, `bool`, `(int -> a) -> a`, the unknowns by letters.
use std::alloc::{AllocError, Global};
use std::fmt;
use typing::entry::Entry;

/// An unknown of a type, by a letter: a to z, then the same letters with a number, as a1 and b1.
#[derive(Clone, Copy)]
struct Unknown(u16);

impl fmt::Display for Unknown {
    fn fmt<W: fmt::Write>(&self, f: &mut fmt::Formatter<W>) -> fmt::Result {
        let letter = char::from_digit(10 + u32::from(self.0 % 26), 36).unwrap();
        match self.0 / 26 {
            0 => write!(f, "{letter}"),
            round => write!(f, "{letter}{round}"),
        }
    }
}

/// An arrow that is not written to its end.
#[derive(Clone, Copy)]
struct OpenArrow {
    on_left: bool,
    in_parentheses: bool,
}

/// A type that is being written.
// A recursion over the two sides of an arrow would go as deep as a type has arrows, up to 32,767.
#[derive(Drop)]
struct Words {
    written: String,
    open: Vec<OpenArrow>,
}

/// A type in words.
pub fn in_words(heap: Global, spelling: &[u16]) -> Result<String, AllocError> {
    let mut words = Words {
        written: String::new(heap),
        open: Vec::new(heap),
    };
    for entry in spelling {
        match Entry::from(*entry) {
            Entry::Arrow => words.begin_arrow()?,
            Entry::Int => words.end_side("int")?,
            Entry::Bool => words.end_side("bool")?,
            Entry::Unknown(order) => {
                let letter = Unknown(order).to_string(heap)?;
                words.end_side(letter.as_str())?;
            }
        }
    }
    Ok(words.written)
}

impl Words {
    /// Begins an arrow. Arrows group to the right, so that only one on the left of another stands in parentheses.
    fn begin_arrow(&mut self) -> Result<(), AllocError> {
        let in_parentheses = self.open.last().is_some_and(|above| above.on_left);
        if in_parentheses {
            self.written.push('(')?;
        }
        self.open.push(OpenArrow {
            on_left: true,
            in_parentheses,
        })?;
        Ok(())
    }

    /// Writes a type without an arrow, ends the arrows whose right side it is, and goes on to the right side of the
    /// next one.
    fn end_side(&mut self, simple: &str) -> Result<(), AllocError> {
        self.written.push_str(simple)?;
        while let Some(arrow) = self.open.pop_if(|arrow| !arrow.on_left) {
            if arrow.in_parentheses {
                self.written.push(')')?;
            }
        }
        if let Some(arrow) = self.open.last_mut() {
            self.written.push_str(" -> ")?;
            arrow.on_left = false;
        }
        Ok(())
    }
}
