//! Reads a text by the rules of the grammar: one function for each rule, one token in hand.
ghost use Rattle.std.specs.Prelude.{◌≤◌, length};
ghost use Rattle.std.proofs.Props.{props};
ghost use Rattle.grammar.specs.Walking.{Current};
ghost use Rattle.text.specs.Standing.{stand};

use crate::fault::CompileFault;
use crate::scope::{Opened, Scope};
use crate::spelling::Spelling;
use book::book::Book;
use grammar::Mark;
use lexer::fault::LexFault;
use lexer::number::amount;
use lexer::scan::next_token;
use lexer::token::{Placed, Token};
use nodes::table::Table;
use syntax::node::Node;

/// A text and the names of its readings, the token in hand, and the nodes of what has been read.
#[derive(Drop)]
pub(crate) struct Parser<'a> {
    text: &'a [u8],
    book: &'a Book,
    pub(crate) current: Placed<'a>,
    pub(crate) table: Table,
    ghost short: { length text.now ≤ 4096 },
    ghost in_hand: { Current text.now (stand current) } by { Prim.hlevel props },
}

impl<'a> Parser<'a> {
    ghost use Rattle.std.specs.Prelude.{◌≡◌, ◌≤◌, length};
    ghost use Rattle.grammar.specs.Token.{is};
    ghost use Rattle.text.specs.Parsing.{source, Began, Advanced, Passed, Named};

    /// Stands at the first token.
    pub(crate) fn new(text: &'a [u8], book: &'a Book) -> Result<Parser<'a>, LexFault>
        requires { length text.now ≤ 4096 }
        ensures { Began text.now book.now result }
    {
        let current = next_token(text, 0)?;
        let table = Table::new();
        Ok(Parser {
            text,
            book,
            current,
            table,
        })
    }

    /// Goes on to the next token.
    fn advance(&mut self) -> Result<(), LexFault>
        ensures { Advanced (source self.old) self.old self.new result }
    {
        self.current = next_token(self.text, self.current.stop)?;
        Ok(())
    }

    /// Goes over a keyword or a sign that has to stand here.
    fn pass(&mut self, mark: Mark) -> Result<(), CompileFault>
        ensures { Passed (is «mark») (source self.old) self.old self.new result }
    {
        if !self.current.token.is(mark) {
            return Err(CompileFault::Unexpected(self.current.place));
        }
        self.advance()?;
        Ok(())
    }

    /// Goes over a name that has to stand here.
    fn binder(&mut self) -> Result<&'a [u8], CompileFault>
        ensures { Named (source self.old) self.old self.new result }
    {
        let Token::Name(name) = self.current.token else {
            return Err(CompileFault::Unexpected(self.current.place));
        };
        self.advance()?;
        Ok(name)
    }
}

// `Room` and `Restored` speak of a scope apart, as one inside the parser would go to the guard with the whole parser, and `drop` would owe the rest of it.
impl<'a> Parser<'a> {
    ghost use Rattle.std.specs.Prelude.{◌≡◌, ◌+◌, ◌*◌, ◌≤◌, false, ◌∷◌, ◌++◌};
    ghost use Rattle.arrayvec.specs.ArrayVec.{array_vec_len};
    ghost use Rattle.grammar.specs.Token.{is, mark};
    ghost use Rattle.grammar.specs.declared.Mark.TheVariants.{Fun, Let, If, Open};
    ghost use Rattle.book.specs.Books.{names};
    ghost use Rattle.text.specs.Parsing.{source, at, Room, Single, ReadsExpr, ReadsComparison, ReadsSum, ReadsApplication, ReadsAtom};
    ghost use Rattle.text.specs.Scopes.{open_names, Restored};

    /// `fun name -> expr`, `let name = expr in expr`, `if expr then expr else expr`, or a comparison.
    #[cycle(application_atom_body_comparison_expr_function_if_else_let_in_sum)]
    pub(crate) fn expr(&mut self, scope: &mut Scope<'a>) -> Result<u16, CompileFault>
        requires { Room self.old scope.old }
        ensures restored { Restored scope.old scope.new }
        ensures reads { ReadsExpr (source self.old) (open_names scope.old) self.old self.new result }
    {
        match self.current.token {
            Token::Mark(Mark::Fun) => self.function(scope),
            Token::Mark(Mark::Let) => self.let_in(scope),
            Token::Mark(Mark::If) => self.if_else(scope),
            _ => self.comparison(scope),
        }
    }

    /// `fun name -> expr`
    #[cycle(application_atom_body_comparison_expr_function_if_else_let_in_sum)]
    fn function(&mut self, scope: &mut Scope<'a>) -> Result<u16, CompileFault>
        requires room { Room self.old scope.old }
        requires begins { (at self.old).token ≡ mark Fun }
        ensures restored { Restored scope.old scope.new }
        ensures reads { ReadsExpr (source self.old) (open_names scope.old) self.old self.new result }
    {
        self.advance()?;
        let name = self.binder()?;
        self.pass(Mark::Arrow)?;
        let body = self.body(scope, name)?;
        Ok(self.table.push(Node::Function(body)))
    }

    /// `let name = expr in expr`; the name opens behind `in`.
    #[cycle(application_atom_body_comparison_expr_function_if_else_let_in_sum)]
    fn let_in(&mut self, scope: &mut Scope<'a>) -> Result<u16, CompileFault>
        requires room { Room self.old scope.old }
        requires begins { (at self.old).token ≡ mark Let }
        ensures restored { Restored scope.old scope.new }
        ensures reads { ReadsExpr (source self.old) (open_names scope.old) self.old self.new result }
    {
        self.advance()?;
        let name = self.binder()?;
        self.pass(Mark::Equals)?;
        let bound = self.expr(scope)?;
        self.pass(Mark::In)?;
        let body = self.body(scope, name)?;
        Ok(self.table.push(Node::LetIn(bound, body)))
    }

    /// `if expr then expr else expr`
    #[cycle(application_atom_body_comparison_expr_function_if_else_let_in_sum)]
    fn if_else(&mut self, scope: &mut Scope<'a>) -> Result<u16, CompileFault>
        requires room { Room self.old scope.old }
        requires begins { (at self.old).token ≡ mark If }
        ensures restored { Restored scope.old scope.new }
        ensures reads { ReadsExpr (source self.old) (open_names scope.old) self.old self.new result }
    {
        self.advance()?;
        let condition = self.expr(scope)?;
        self.pass(Mark::Then)?;
        let then = self.expr(scope)?;
        self.pass(Mark::Else)?;
        let otherwise = self.expr(scope)?;
        Ok(self.table.push(Node::IfElse(condition, then, otherwise)))
    }

    /// An expression with one name more in force. The guard lives while the body is read, and closes the name on every way
    /// out, `?` included.
    #[cycle(application_atom_body_comparison_expr_function_if_else_let_in_sum)]
    fn body(&mut self, scope: &mut Scope<'a>, name: &'a [u8]) -> Result<u16, CompileFault>
        requires { 3 * array_vec_len scope.old.names + 3 ≤ self.old.current.place }
        ensures restored { Restored scope.old scope.new }
        ensures reads { ReadsExpr (source self.old) (name.now ∷ open_names scope.old) self.old self.new result }
    {
        let before = scope.names.len();
        scope.put(Spelling::of(name));
        let opened = Opened { scope, before };
        let root = self.expr(opened.scope)?;
        Ok(root)
    }

    /// `sum`, or `sum <= sum`
    #[cycle(application_atom_body_comparison_expr_function_if_else_let_in_sum)]
    fn comparison(&mut self, scope: &mut Scope<'a>) -> Result<u16, CompileFault>
        requires { Room self.old scope.old }
        ensures restored { Restored scope.old scope.new }
        ensures reads { ReadsComparison (source self.old) (open_names scope.old) self.old self.new result }
    {
        let left = self.sum(scope)?;
        if !self.current.token.is(Mark::AtMost) {
            return Ok(left);
        }
        self.advance()?;
        let right = self.sum(scope)?;
        Ok(self.table.push(Node::AtMost(left, right)))
    }

    /// `app`, or `sum + app`: sums group to the left.
    #[cycle(application_atom_body_comparison_expr_function_if_else_let_in_sum)]
    fn sum(&mut self, scope: &mut Scope<'a>) -> Result<u16, CompileFault>
        requires { Room self.old scope.old }
        ensures restored { Restored scope.old scope.new }
        ensures reads { ReadsSum (source self.old) (open_names scope.old) self.old self.new result }
    {
        let mut left = self.application(scope)?;
        while self.current.token.adds() {
            self.advance()?;
            let right = self.application(scope)?;
            left = self.table.push(Node::summed(left, right));
        }
        Ok(left)
    }

    /// `atom`, or `app atom`: applications group to the left.
    #[cycle(application_atom_body_comparison_expr_function_if_else_let_in_sum)]
    fn application(&mut self, scope: &mut Scope<'a>) -> Result<u16, CompileFault>
        requires { Room self.old scope.old }
        ensures restored { Restored scope.old scope.new }
        ensures reads { ReadsApplication (source self.old) (open_names scope.old) self.old self.new result }
    {
        let mut function = self.atom(scope)?;
        while self.current.token.starts_atom() {
            let argument = self.atom(scope)?;
            function = self.table.push(Node::applied(function, argument));
        }
        Ok(function)
    }

    /// A number, `true`, `false`, a name, or `( expr )`.
    #[cycle(application_atom_body_comparison_expr_function_if_else_let_in_sum)]
    fn atom(&mut self, scope: &mut Scope<'a>) -> Result<u16, CompileFault>
        requires { Room self.old scope.old }
        ensures restored { Restored scope.old scope.new }
        ensures reads { ReadsAtom (source self.old) (open_names scope.old) self.old self.new result }
    {
        if self.current.token.is(Mark::Open) {
            self.advance()?;
            let inner = self.expr(scope)?;
            self.pass(Mark::Close)?;
            return Ok(inner);
        }
        let node = self.leaf(scope)?;
        self.advance()?;
        Ok(self.table.push(node))
    }

    /// The node of an atom that is one token.
    fn leaf(&self, scope: &Scope<'a>) -> Result<Node, CompileFault>
        requires { is Open (at self.now).token ≡ false }
        ensures { Single (open_names scope.now ++ names self.now.book.now) (at self.now) result }
    {
        let place = self.current.place;
        match self.current.token {
            Token::Mark(Mark::True) => Ok(Node::Truth(true)),
            Token::Mark(Mark::False) => Ok(Node::Truth(false)),
            Token::Number(spelled) => amount(spelled)
                .map(Node::Number)
                .ok_or(CompileFault::Lex(LexFault::OutOfRange(place))),
            Token::Name(name) => scope
                .distance(self.book, name)
                .map(Node::variable)
                .ok_or(CompileFault::Unknown(place)),
            Token::Mark(_) | Token::End => Err(CompileFault::Unexpected(place)),
        }
    }
}
