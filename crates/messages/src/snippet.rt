//! The line of a refused token, with carets under the token.
use crate::file::TextFile;
use crate::frame::Span;
use crate::line::Line;
use crate::paint::Paint;
use crate::quote::{Cell, Shown};
use std::alloc::{AllocError, Global};
use std::fmt;
use std::ops::Range;

/// How many bytes of a line are shown, and how many of them before the token where the line is longer.
const MOST_SHOWN: usize = 72;

const BEFORE: usize = 32;

/// Where a part of a text begins, its line as it is shown, and the carets below it, cell by cell.
#[derive(Drop)]
pub(crate) struct Snippet<'a> {
    file: &'a str,
    line: usize,
    column: usize,
    shown: String,
    carets: String,
}

impl<'a> Snippet<'a> {
    /// Shows the first line of a part. Of one that goes on, the carets say how far.
    pub(crate) fn of(
        heap: Global,
        file: TextFile<'a>,
        span: Span,
    ) -> Result<Snippet<'a>, AllocError> {
        let before = file.before();
        let span = Span {
            place: span.place.saturating_add(before),
            stop: span.stop.saturating_add(before),
        };
        let line = Line::of(file.whole, span.place);
        let last = Line::of(file.whole, span.stop.saturating_sub(1)).number;
        let place = line.before(span.place);
        let mut snippet = Snippet {
            file: file.name,
            line: line.number,
            column: place.saturating_add(1),
            shown: String::new(heap),
            carets: String::new(heap),
        };
        if last > line.number {
            snippet.draw(heap, line.bytes, place..line.bytes.trim_ascii_end().len())?;
            write!(snippet.carets, " to line {last}")?;
        } else {
            // Where nothing is marked, as at the end of the text, one caret tells the place.
            let stop = line.before(span.stop).max(place.saturating_add(1));
            snippet.draw(heap, line.bytes, place..stop)?;
        }
        Ok(snippet)
    }

    /// Draws a line with carets under some of its bytes, or one behind it where it ends.
    fn draw(&mut self, heap: Global, line: &[u8], marked: Range<usize>) -> Result<(), AllocError> {
        let seen = seen_of(line.len(), marked.start);
        if seen.start > 0 {
            self.shown.push_str("...")?;
            self.carets.push_str("   ")?;
        }
        for (at, cell) in &cells(heap, line, &seen)? {
            let cell = cell.to_string(heap)?;
            self.shown.push_str(cell.as_str())?;
            if *at < marked.end {
                let mark = if *at < marked.start { " " } else { "^" };
                let marks = mark.repeat(heap, cell.chars().count())?;
                self.carets.push_str(marks.as_str())?;
            }
        }
        if seen.end < line.len() {
            self.shown.push_str("...")?;
        }
        if marked.start >= line.len() {
            self.carets.push('^')?;
        }
        Ok(())
    }

    /// Its line and column, both from 1.
    pub(crate) fn position(&self) -> (usize, usize) {
        (self.line, self.column)
    }

    /// Shows it in colours.
    pub(crate) fn draw_in<W: fmt::Write>(
        &self,
        f: &mut fmt::Formatter<W>,
        paint: Paint,
    ) -> fmt::Result {
        let Paint {
            wrong,
            frame,
            end,
            ..
        } = paint;
        let margin = self.margin();
        let line = self.line;
        writeln!(
            f,
            "{:margin$}{frame}-->{end} {}:{line}:{}",
            "",
            Shown(self.file),
            self.column
        )?;
        writeln!(f, "{:margin$} {frame}|{end}", "")?;
        writeln!(f, "{frame}{line} |{end} {}", self.shown)?;
        writeln!(
            f,
            "{:margin$} {frame}|{end} {wrong}{}{end}",
            "", self.carets
        )?;
        writeln!(f, "{:margin$} {frame}|{end}", "")
    }

    /// As many blanks as the number of the line has digits stand before what is not the line.
    pub(crate) fn margin(&self) -> usize {
        self.line
            .checked_ilog10()
            .map_or(1, |tens| tens as usize + 1)
    }
}

/// Cuts what is shown of a line so that the token stays in sight.
fn seen_of(length: usize, place: usize) -> Range<usize> {
    let from = if length <= MOST_SHOWN {
        0
    } else {
        place.saturating_sub(BEFORE)
    };
    from..from.saturating_add(MOST_SHOWN).min(length)
}

/// What is shown for each character in sight, or for each byte where the line is not UTF-8, with its place in the line.
/// A line may be as long as its file, and little of it is in sight.
fn cells(heap: Global, line: &[u8], seen: &Range<usize>) -> Result<Vec<(usize, Cell)>, AllocError> {
    match std::str::from_utf8(line) {
        Ok(text) => text
            .char_indices()
            .filter(|(at, _)| seen.contains(at))
            .map(|(at, character)| (at, Cell::Char(character)))
            .collect(heap),
        Err(_) => line
            .iter()
            .enumerate()
            .filter(|(at, _)| seen.contains(at))
            .map(|(at, byte)| (at, Cell::from(*byte)))
            .collect(heap),
    }
}
