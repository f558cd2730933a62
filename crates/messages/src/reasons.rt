//! Why a text is refused.
use crate::context::{Context, written};
use crate::file::MOST_READ;
use crate::meant::meant_by;
use crate::near::nearest;
use crate::quote::Quoted;
use crate::reason::Reason;
use crate::rule_text::RuleText;
use crate::tokens::nodes_of_sentence;
use lexer::fault::LexFault;
use lexer::scan::next_part;
use lexer::token::{Placed, Token};
use std::alloc::{AllocError, Global};
use std::borrow::CowStr;
use syntax::limits::{MOST_NODES, MOST_RECORD, MOST_TEXT};
use text::fault::CompileFault;

impl RuleText<'_, '_> {
    /// The reason for a refusal.
    pub(crate) fn reason(&self, heap: Global, fault: CompileFault) -> Result<Reason, AllocError> {
        match fault {
            CompileFault::TooLong => self.too_long(heap),
            CompileFault::Lex(LexFault::NoToken(place)) => Ok(self.no_token(place)),
            CompileFault::Lex(LexFault::OutOfRange(_)) => Ok(out_of_range()),
            CompileFault::Unexpected(place) => self.unexpected(heap, place),
            CompileFault::Unknown(place) => self.unknown(heap, place),
            CompileFault::TooManyNodes => self.too_many_nodes(heap),
            CompileFault::NoRoom => self.no_room(heap),
        }
    }

    fn too_long(&self, heap: Global) -> Result<Reason, AllocError> {
        let length = self.text.len();
        let more = if self.whole.len() < MOST_READ {
            ""
        } else {
            " or more"
        };
        let why = format!(in heap; "it has {length} bytes{more}, and a text may have {MOST_TEXT}")?;
        let help = "shorten names, drop blanks, or say a repeated part once by `let`";
        Ok(Reason::new("the text is too long", why, help))
    }

    fn too_many_nodes(&self, heap: Global) -> Result<Reason, AllocError> {
        let nodes = nodes_of_sentence(self.text);
        let why = format!(in heap; "its tree has {nodes} nodes, and a rule may have {MOST_NODES}")?;
        let help = "say a repeated part once by `let`, or make two rules of it";
        Ok(Reason::new("the rule has too many nodes", why, help))
    }

    /// The record's size is found by writing it where there is room enough.
    fn no_room(&self, heap: Global) -> Result<Reason, AllocError> {
        let room = self.origin.room;
        let why = match self.record(heap, MOST_RECORD)? {
            Ok(record) => {
                let count = record.len();
                format!(in heap; "it has {count} bytes, and there is room for {room}")?
            }
            Err(_) => format!(in heap; "there is room for {room} bytes")?,
        };
        let help = "give more room, or shorten the rule";
        Ok(Reason::new("the record does not fit", why, help))
    }

    /// Guesses from the bytes what was meant.
    fn no_token(&self, place: usize) -> Reason {
        let (why, help) = meant_by(self.text.get(place..).unwrap_or(&[]));
        Reason::new("no token begins here", why, help)
    }

    fn unknown(&self, heap: Global, place: usize) -> Result<Reason, AllocError> {
        let why = "it names no reading, and no `fun` or `let` around it opens it";
        let help = self.help_for_unknown(heap, place)?;
        Ok(Reason::new("unknown name", why, help))
    }

    /// The name that was perhaps meant, or the readings that there are.
    fn help_for_unknown(&self, heap: Global, place: usize) -> Result<CowStr<'static>, AllocError> {
        let names = self.origin.names.as_slice();
        if names.is_empty() {
            return Ok(CowStr::from(
                "name the readings behind the file, as in fun compile FILE NAME.., or in its first line",
            ));
        }
        if let Ok(
            Placed {
                token: Token::Name(name),
                ..
            },
        ) = next_part(self.text, place)
        {
            if let Some(near) = nearest(heap, name, names)? {
                return Ok(CowStr::from(format!(in heap; "did you mean the reading `{near}`?")?));
            }
        }
        let names = names.join(heap, " ")?;
        Ok(CowStr::from(format!(in heap; "use a name that is opened here, or a reading: {names}")?))
    }

    /// Says what should have stood in the token's place, or what is not finished before it.
    fn unexpected(&self, heap: Global, place: usize) -> Result<Reason, AllocError> {
        let context = Context::at(heap, self.text, place)?;
        let why = match (context.last, context.keyword_for_name(), context.wanted()) {
            (None, _, _) => CowStr::from("a rule begins with an expression"),
            (Some(_), Some(keyword), _) => {
                CowStr::from(format!(in heap; "{keyword} is a keyword, and no name")?)
            }
            (Some(_), None, None) => self.behind_operand(heap, &context)?,
            (Some(last), None, Some(wanted)) => {
                let stands = Quoted(self.text.get(last.place..last.stop).unwrap_or(&[]));
                CowStr::from(format!(in heap; "behind {stands} the grammar wants {wanted}")?)
            }
        };
        Ok(Reason::new(context.title(), why, context.advice()))
    }

    /// Why a token cannot follow an operand.
    fn behind_operand(
        &self,
        heap: Global,
        context: &Context,
    ) -> Result<CowStr<'static>, AllocError> {
        if let Some(why) = context.behind_operand() {
            return Ok(CowStr::from(why));
        }
        match context.innermost() {
            Some(unfinished) => {
                let (line, column) = self.file().position(unfinished.place);
                let begun = written(unfinished.begun_by);
                let awaited = written(unfinished.awaited);
                Ok(CowStr::from(format!(in heap;
                    "the {begun} at line {line}, column {column} waits for its {awaited}"
                )?))
            }
            None => Ok(CowStr::from(context.behind_all())),
        }
    }
}

fn out_of_range() -> Reason {
    Reason::new(
        "the number is out of range",
        "numbers run from -2147483648 to 2147483647",
        "write a number of this range",
    )
}
