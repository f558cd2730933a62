//! Why a sentence does not go on with a token, and what to write instead.
use crate::tokens::{Piece, Tokens, ends_operand};
use grammar::Mark;
use lexer::scan::next_part;
use lexer::token::Token;
use std::alloc::{AllocError, Global};

/// Something that was begun and is not finished: the keyword or the parenthesis that began it, and what it waits for.
#[derive(Clone, Copy)]
pub(crate) struct Unfinished {
    pub(crate) begun_by: Mark,
    pub(crate) place: usize,
    pub(crate) awaited: Mark,
}

/// Where a sentence stops: the last token that it takes, what is not finished there, and the token that it does not go
/// on with.
#[derive(Drop)]
pub(crate) struct Context<'a> {
    pub(crate) last: Option<Piece<'a>>,
    pub(crate) next: Token<'a>,
    /// What is not finished, the innermost last.
    unfinished: Vec<Unfinished>,
}

impl<'a> Context<'a> {
    /// Reads the tokens of a text up to a place.
    pub(crate) fn at(
        heap: Global,
        text: &'a [u8],
        place: usize,
    ) -> Result<Context<'a>, AllocError> {
        let mut context = Context {
            last: None,
            next: next_part(text, place).map_or(Token::End, |next| next.token),
            unfinished: Vec::new(heap),
        };
        for piece in Tokens::of(text).take_while(|piece| piece.place < place) {
            if let Token::Mark(mark) = piece.token {
                context.take(mark, piece.place)?;
            }
            context.last = Some(piece);
        }
        Ok(context)
    }

    /// Takes a keyword or a sign. One that was awaited is awaited by what was begun last, since the tokens so far begin
    /// a sentence.
    fn take(&mut self, mark: Mark, place: usize) -> Result<(), AllocError> {
        match mark {
            Mark::Open => self.begin(mark, place, Mark::Close)?,
            Mark::Fun => self.begin(mark, place, Mark::Arrow)?,
            Mark::Let => self.begin(mark, place, Mark::Equals)?,
            Mark::If => self.begin(mark, place, Mark::Then)?,
            Mark::Equals => self.go_on(Mark::In),
            Mark::Then => self.go_on(Mark::Else),
            Mark::Close | Mark::Arrow | Mark::In | Mark::Else => {
                let _ = self.unfinished.pop();
            }
            Mark::Plus | Mark::AtMost | Mark::True | Mark::False => {}
        }
        Ok(())
    }

    fn begin(&mut self, begun_by: Mark, place: usize, awaited: Mark) -> Result<(), AllocError> {
        self.unfinished.push(Unfinished {
            begun_by,
            place,
            awaited,
        })?;
        Ok(())
    }

    fn go_on(&mut self, awaited: Mark) {
        if let Some(innermost) = self.unfinished.last_mut() {
            innermost.awaited = awaited;
        }
    }

    /// What was begun last and is not finished.
    pub(crate) fn innermost(&self) -> Option<Unfinished> {
        self.unfinished.last().copied()
    }

    /// What is wrong.
    pub(crate) fn title(&self) -> &'static str {
        match self.next {
            Token::End => "the text ends too early",
            _ => "unexpected token",
        }
    }

    /// The keyword that opens the name just read; nothing where the name is used.
    fn opened_by(&self) -> Option<Mark> {
        match self.last?.before {
            Some(Token::Mark(Mark::Fun)) => Some(Mark::Fun),
            Some(Token::Mark(Mark::Let)) => Some(Mark::Let),
            _ => None,
        }
    }

    /// Whether a name has to stand here.
    fn wants_name(&self) -> bool {
        match self.last {
            Some(last) => matches!(last.token, Token::Mark(Mark::Fun | Mark::Let)),
            None => false,
        }
    }

    /// The keyword that stands where a name has to.
    pub(crate) fn keyword_for_name(&self) -> Option<&'static str> {
        match self.next {
            Token::Mark(mark) if self.wants_name() => keyword(mark),
            _ => None,
        }
    }

    /// What has to stand behind the tokens so far; nothing where that is open, behind an operand. The last token says
    /// it; a name says more by what stands before it, since `fun` and `let` go on in their own way.
    pub(crate) fn wanted(&self) -> Option<&'static str> {
        let last = self.last?.token;
        match self.opened_by() {
            Some(Mark::Fun) => return Some("`->`"),
            Some(_) => return Some("`=`"),
            None => {}
        }
        match last {
            Token::Mark(Mark::Fun | Mark::Let) => Some("a name"),
            Token::Mark(Mark::Plus | Mark::AtMost) => {
                Some("a number, `true`, `false`, a name or `(`")
            }
            _ if ends_operand(last) => None,
            _ => Some("an expression"),
        }
    }

    /// Why the token cannot follow an operand, where that is so whatever is not finished.
    pub(crate) fn behind_operand(&self) -> Option<&'static str> {
        match self.next {
            Token::Mark(Mark::Fun | Mark::Let | Mark::If) => {
                Some("an argument is a number, a truth, a name or in parentheses")
            }
            Token::Mark(Mark::AtMost) => {
                Some("a comparison has one `<=`, with a sum on either side")
            }
            _ => None,
        }
    }

    /// Why the token cannot follow a rule that is finished.
    pub(crate) fn behind_all(&self) -> &'static str {
        match self.next {
            Token::Mark(Mark::Close) => "no parenthesis is open here",
            Token::Mark(Mark::Equals) => "`=` stands only behind the name of a `let`",
            Token::Mark(Mark::Arrow) => "`->` stands only behind the name of a `fun`",
            Token::Mark(Mark::In) => "no `let` waits for its `in` here",
            Token::Mark(Mark::Then | Mark::Else) => "no `if` waits for it here",
            _ => "the rule is finished before it",
        }
    }

    /// What to write instead.
    pub(crate) fn advice(&self) -> &'static str {
        if self.wants_name() {
            return "write a name: a letter, then letters, digits and underscores, and no keyword";
        }
        match self.opened_by() {
            Some(Mark::Fun) => return "write `fun x -> fun y -> ..`: one name to each `fun`",
            Some(_) => return "write `let name = .. in ..`",
            None => {}
        }
        match self.next {
            Token::Mark(Mark::Fun | Mark::Let | Mark::If) => {
                "put it in parentheses, as in `1 + (if a then b else c)`"
            }
            Token::Mark(Mark::AtMost) => {
                "write `if a <= b then b <= c else false` for both of `a <= b` and `b <= c`"
            }
            _ if self.wanted().is_some() => "finish what stands before it",
            _ => self.advice_for_unfinished(),
        }
    }

    /// How what was begun last is finished, or what to do with a token behind a rule that is finished.
    fn advice_for_unfinished(&self) -> &'static str {
        match self.innermost() {
            Some(unfinished) => match unfinished.awaited {
                Mark::In | Mark::Equals => "write `let name = .. in ..`",
                Mark::Then | Mark::Else => "write `if .. then .. else ..`",
                Mark::Arrow => "write `fun name -> ..`",
                _ => "close the parenthesis",
            },
            None => match (self.last, self.next) {
                (None, _) => "write an expression, such as 0",
                (Some(_), Token::Mark(Mark::Close)) => "remove it, or open a parenthesis before it",
                (Some(_), Token::Mark(Mark::Equals)) => {
                    "write `<=` to compare; `=` belongs to `let name = .. in ..`"
                }
                (Some(_), Token::Mark(Mark::Arrow)) => "write `fun name -> ..`",
                (Some(_), Token::Mark(Mark::In)) => "write `let name = .. in ..`",
                (Some(_), Token::Mark(Mark::Then | Mark::Else)) => "write `if .. then .. else ..`",
                (Some(_), _) => "see the grammar: fun explain 55",
            },
        }
    }
}

/// A keyword as it is written; nothing where a mark is a sign.
fn keyword(mark: Mark) -> Option<&'static str> {
    match mark {
        Mark::Fun => Some("`fun`"),
        Mark::Let => Some("`let`"),
        Mark::In => Some("`in`"),
        Mark::If => Some("`if`"),
        Mark::Then => Some("`then`"),
        Mark::Else => Some("`else`"),
        Mark::True => Some("`true`"),
        Mark::False => Some("`false`"),
        _ => None,
    }
}

/// A keyword or a sign as it is written.
pub(crate) fn written(mark: Mark) -> &'static str {
    match mark {
        Mark::Arrow => "`->`",
        Mark::Equals => "`=`",
        Mark::AtMost => "`<=`",
        Mark::Plus => "`+`",
        Mark::Open => "`(`",
        Mark::Close => "`)`",
        _ => keyword(mark).unwrap_or("a keyword"),
    }
}
