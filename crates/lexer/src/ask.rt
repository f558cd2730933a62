//! Questions to a token.
ghost use Rattle.std.specs.Prelude.{◌≡◌};
ghost use Rattle.grammar.specs.Automaton.{is_end, starts_atom};
ghost use Rattle.grammar.specs.declared.Mark.TheVariants.{Plus};
ghost use Rattle.grammar.specs.Token.{is};
ghost use Rattle.grammar.specs.Walking.{is_name};
ghost use Rattle.lexer.specs.Shown.{shown};

use crate::token::Token;
use grammar::Mark;

impl Token<'_> {
    /// Whether it is a name.
    pub fn is_name(&self) -> bool
        ensures { result ≡ is_name (shown self.now) }
    {
        matches!(self, Token::Name(_))
    }

    /// Whether it is the end of the text.
    pub fn is_end(&self) -> bool
        ensures { result ≡ is_end (shown self.now) }
    {
        matches!(self, Token::End)
    }

    /// Whether it is this keyword or sign.
    pub fn is(&self, mark: Mark) -> bool
        ensures { result ≡ Rattle.grammar.specs.Token.is mark (shown self.now) }
    {
        matches!(self, Token::Mark(own) if *own == mark)
    }

    /// Whether a sum goes on with it.
    pub fn adds(&self) -> bool
        ensures { result ≡ Rattle.grammar.specs.Token.is Plus (shown self.now) }
    {
        self.is(Mark::Plus)
    }

    /// Whether an atom begins with it.
    pub fn starts_atom(&self) -> bool
        ensures { result ≡ starts_atom (shown self.now) }
    {
        matches!(
            self,
            Token::Name(_) | Token::Number(_) | Token::Mark(Mark::True | Mark::False | Mark::Open)
        )
    }
}
