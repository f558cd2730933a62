//! The frame of a message: number and title above, what it is about, and the notes below.
ghost use Rattle.std.specs.Prelude.{◌≡◌, IfOk};

use crate::file::TextFile;
use crate::paint::Paint;
use crate::reason::Reason;
use crate::snippet::Snippet;
use std::alloc::{AllocError, Global};
use std::borrow::CowStr;
use std::fmt;

/// The bytes that a message points at, by the places of the first and of the byte behind the last.
// A `Range` is not Copy, and a part is copied wherever it is looked at.
#[derive(Clone, Copy)]
pub struct Span {
    pub place: usize,
    pub stop: usize,
}

/// What a message is about.
#[derive(Drop)]
pub(crate) enum Subject<'a> {
    /// Something that has no line to show.
    Whole(CowStr<'a>),
    /// A part of a text.
    Part(Snippet<'a>),
}

impl Subject<'_> {
    /// The line and the column, both from 1, of what is pointed at.
    pub(crate) fn position(&self) -> Option<(usize, usize)> {
        match self {
            Subject::Whole(_) => None,
            Subject::Part(snippet) => Some(snippet.position()),
        }
    }
}

/// A refusal, by its number, as people read it.
#[derive(Drop)]
pub struct Message<'a> {
    // A trait over the faults, with an impl for each, would only carry this number from where `number` tells it.
    pub(crate) number: u8,
    pub(crate) subject: Subject<'a>,
    pub(crate) reason: Reason,
}

impl<'a> Message<'a> {
    /// A message about something that has no line to show.
    pub fn about(number: u8, subject: CowStr<'a>, reason: Reason) -> Message<'a>
        ensures number { result.number ≡ number }
        ensures reason { result.reason ≡ reason }
    {
        let subject = Subject::Whole(subject);
        Message {
            number,
            subject,
            reason,
        }
    }

    /// A message that shows the line where a part of a text begins, with carets under the part.
    pub fn pointing(
        heap: Global,
        number: u8,
        file: TextFile<'a>,
        span: Span,
        reason: Reason,
    ) -> Result<Message<'a>, AllocError>
        ensures number { IfOk result (λ message. message.number ≡ number) }
        ensures reason { IfOk result (λ message. message.reason ≡ reason) }
    {
        let subject = Subject::Part(Snippet::of(heap, file, span)?);
        Ok(Message {
            number,
            subject,
            reason,
        })
    }
}

impl Message<'_> {
    /// What is wrong, why, and what to write instead.
    pub fn reason(&self) -> &Reason
        ensures { result.now ≡ self.now.reason }
    {
        &self.reason
    }

    /// The line and the column, both from 1, of what it points at.
    pub fn position(&self) -> Option<(usize, usize)> {
        self.subject.position()
    }

    /// The message in colours.
    pub fn painted(&self, paint: Paint) -> Painted<'_> {
        Painted {
            number: self.number,
            title: self.reason.title,
            subject: &self.subject,
            why: self.reason.why.as_str(),
            help: self.reason.help.as_str(),
            paint,
        }
    }
}

impl fmt::Display for Message<'_> {
    fn fmt<W: fmt::Write>(&self, f: &mut fmt::Formatter<W>) -> fmt::Result {
        write!(f, "{}", self.painted(Paint::PLAIN))
    }
}

/// A message, and the colours that it is shown in.
#[derive(Clone, Copy)]
pub struct Painted<'m> {
    pub(crate) number: u8,
    pub(crate) title: &'m str,
    pub(crate) subject: &'m Subject<'m>,
    pub(crate) why: &'m str,
    pub(crate) help: &'m str,
    pub(crate) paint: Paint,
}

impl fmt::Display for Painted<'_> {
    fn fmt<W: fmt::Write>(&self, f: &mut fmt::Formatter<W>) -> fmt::Result {
        let Paint {
            wrong,
            frame,
            title,
            end,
        } = self.paint;
        writeln!(
            f,
            "{wrong}error[{}]{end}{title}: {}{end}",
            self.number, self.title
        )?;
        let margin = match self.subject {
            Subject::Whole(subject) => {
                writeln!(f, " {frame}-->{end} {subject}")?;
                1
            }
            Subject::Part(snippet) => {
                snippet.draw_in(f, self.paint)?;
                snippet.margin()
            }
        };
        writeln!(f, "{:margin$} {frame}={end} why: {}", "", self.why)?;
        writeln!(f, "{:margin$} {frame}={end} help: {}", "", self.help)
    }
}

#[cfg(test)]
mod tests {
    use super::*;
    use std::test::Fail;

    /// The titles of two messages, one of a whole and one of a part, which are gone when they are answered.
    fn titles(heap: Global) -> Result<(&'static str, &'static str), AllocError> {
        let whole = String::from_str(heap, "1 true")?;
        let text = whole.as_str().as_bytes();
        let untyped = Reason::new("the rule has no type", "1 is no function", "leave it out");
        let about = Message::about(11, CowStr::from(whole.as_str()), untyped);
        let file = TextFile {
            name: "a file",
            whole: text,
            text,
        };
        let unread = Reason::new("the text ends here", "it ends", "go on");
        let pointing = Message::pointing(heap, 54, file, Span { place: 0, stop: 1 }, unread)?;
        Ok((about.reason().title, pointing.reason().title))
    }

    #[test]
    fn a_title_outlives_its_message(rt: HostRuntime) -> Result<(), Fail> {
        let (whole, part) = titles(rt.alloc())?;
        assert_eq!(rt; whole, "the rule has no type");
        assert_eq!(rt; part, "the text ends here");
        Ok(())
    }
}
