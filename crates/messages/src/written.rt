//! Messages whose titles are written for the case, as their other words are.
ghost use Rattle.std.specs.Prelude.{◌≡◌, IfOk};
ghost use Rattle.std.specs.Cow.{cow_str_bytes};

use crate::file::TextFile;
use crate::frame::{Message, Painted, Span, Subject};
use crate::paint::Paint;
use crate::snippet::Snippet;
use std::alloc::{AllocError, Global};
use std::borrow::CowStr;
use std::fmt;

/// What such a message says.
#[derive(Drop)]
pub struct WrittenReason<'a> {
    pub title: CowStr<'a>,
    pub why: CowStr<'a>,
    pub help: CowStr<'a>,
}

impl<'a> WrittenReason<'a> {
    /// A reason of parts that are known beforehand or were written for the case.
    pub fn new<T: Into<CowStr<'a>>, W: Into<CowStr<'a>>, H: Into<CowStr<'a>>>(
        title: T,
        why: W,
        help: H,
    ) -> WrittenReason<'a>
        ensures title { T.converts title result.title }
        ensures why { W.converts why result.why }
        ensures help { H.converts help result.help }
    {
        WrittenReason {
            title: title.into(),
            why: why.into(),
            help: help.into(),
        }
    }
}

/// A refusal, as a `Message` is.
#[derive(Drop)]
pub struct WrittenMessage<'a> {
    number: u8,
    subject: Subject<'a>,
    reason: WrittenReason<'a>,
}

impl<'a> WrittenMessage<'a> {
    /// A message about something that has no line to show.
    pub fn about(number: u8, subject: CowStr<'a>, reason: WrittenReason<'a>) -> WrittenMessage<'a>
        ensures number { result.number ≡ number }
        ensures reason { result.reason ≡ reason.entry }
    {
        let subject = Subject::Whole(subject);
        WrittenMessage {
            number,
            subject,
            reason,
        }
    }

    /// A message that shows the line where a part of a text begins, with carets under the part.
    pub fn pointing(
        heap: Global,
        number: u8,
        file: TextFile<'a>,
        span: Span,
        reason: WrittenReason<'a>,
    ) -> Result<WrittenMessage<'a>, AllocError>
        ensures number { IfOk result (λ message. message.number ≡ number) }
        ensures reason { IfOk result (λ message. message.reason ≡ reason.entry) }
    {
        let subject = Subject::Part(Snippet::of(heap, file, span)?);
        Ok(WrittenMessage {
            number,
            subject,
            reason,
        })
    }

    /// What is wrong, why, and what to write instead.
    pub fn reason(&self) -> &WrittenReason<'a>
        ensures { result.now ≡ self.now.reason }
    {
        &self.reason
    }
}

impl WrittenMessage<'_> {
    /// The line and the column, both from 1, of what it points at.
    pub fn position(&self) -> Option<(usize, usize)> {
        self.subject.position()
    }

    /// The message in colours.
    pub fn painted(&self, paint: Paint) -> Painted<'_> {
        Painted {
            number: self.number,
            title: self.reason.title.as_str(),
            subject: &self.subject,
            why: self.reason.why.as_str(),
            help: self.reason.help.as_str(),
            paint,
        }
    }
}

impl fmt::Display for WrittenMessage<'_> {
    fn fmt<W: fmt::Write>(&self, f: &mut fmt::Formatter<W>) -> fmt::Result {
        write!(f, "{}", self.painted(Paint::PLAIN))
    }
}

/// Every message may stand among such.
impl<'a> From<Message<'a>> for WrittenMessage<'a> {
    ghost from_gives = { λ told written. (written.number ≡ told.number) × (written.subject ≡ told.subject)
        × (cow_str_bytes written.reason.title ≡ told.reason.title.now)
        × (written.reason.why ≡ told.reason.why) × (written.reason.help ≡ told.reason.help) };

    fn from(message: Message<'a>) -> WrittenMessage<'a> {
        let Message {
            number,
            subject,
            reason,
        } = message;
        WrittenMessage {
            number,
            subject,
            reason: WrittenReason::new(reason.title, reason.why, reason.help),
        }
    }
}

#[cfg(test)]
mod tests {
    use super::*;
    use crate::reason::Reason;
    use std::test::Fail;

    /// A reason that outlives the words it is made of.
    fn titled(heap: Global, title: &str) -> Result<WrittenReason<'static>, AllocError> {
        let title = String::from_str(heap, title)?;
        Ok(WrittenReason::new(title, "why", "help"))
    }

    #[test]
    fn outlives_its_words(rt: HostRuntime) -> Result<(), Fail> {
        let heap = rt.alloc();
        let reason = {
            let node = 7;
            let words = format!(in heap; "node {node} is missing")?;
            titled(heap, words.as_str())?
        };
        assert_eq!(rt; reason.title.as_str(), "node 7 is missing");
        Ok(())
    }

    #[test]
    fn are_shown_as_others(rt: HostRuntime) -> Result<(), Fail> {
        let heap = rt.alloc();
        let node = 7;
        let title = format!(in heap; "node {node} is missing")?;
        let written = WrittenReason::new(title, "it is", "look for it");
        let known = Reason::new("this is not the version", "it is 2", "compile it again");
        let messages: [WrittenMessage; 2] = [
            WrittenMessage::about(4, CowStr::from("a record"), written),
            Message::about(2, CowStr::from("another"), known).into(),
        ];
        let [first, second] = &messages;
        let shown = format!(in heap; "{first}{second}")?;
        assert_eq!(rt;
            shown.as_str(),
            "error[4]: node 7 is missing\n --> a record\n  = why: it is\n  = help: look for it\n\
             error[2]: this is not the version\n --> another\n  = why: it is 2\n  = help: compile it again\n"
        );
        Ok(())
    }

    #[test]
    fn point_at_a_part_as_others_do(rt: HostRuntime) -> Result<(), Fail> {
        let heap = rt.alloc();
        let text = "1 +\n  * 2".as_bytes();
        let file = TextFile {
            name: "a file",
            whole: text,
            text,
        };
        let span = Span { place: 6, stop: 7 };
        let known = Reason::new("no token begins here", "`*` is none", "leave it out");
        let told = Message::pointing(heap, 52, file, span, known)?;
        let title = format!(in heap; "no token begins {}", "here")?;
        let reason = WrittenReason::new(title, "`*` is none", "leave it out");
        let written = WrittenMessage::pointing(heap, 52, file, span, reason)?;
        assert_eq!(rt; written.reason().title.as_str(), told.reason().title);
        assert_eq!(rt; written.position(), Some((2, 3)));
        assert_eq!(rt; written.position(), told.position());
        let written = written.to_string(heap)?;
        let told = told.to_string(heap)?;
        assert_eq!(rt; written.as_str(), told.as_str());
        Ok(())
    }
}
