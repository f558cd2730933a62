//! The names that are open while a text is read, and looking names up.
ghost use Rattle.std.specs.Prelude.{◌≡◌, ◌+◌, ◌<◌, [], ◌∷◌, ◌++◌, position, reverse, take};
ghost use Rattle.arrayvec.specs.ArrayVec.{array_vec_len};
ghost use Rattle.book.specs.Books.{names, Found};
ghost use Rattle.grammar.specs.Names.{same};
ghost use Rattle.text.specs.Scopes.{spelled, open_names};

use crate::spelling::Spelling;
use arrayvec::ArrayVec;
use book::book::Book;
use syntax::limits::MOST_TEXT;

/// More names than a text can have open at once: each takes three tokens to open.
pub(crate) const MOST_OPEN: usize = MOST_TEXT / 3 + 1;

/// The open names, each a part of the text, the newest last.
#[derive(Drop)]
pub(crate) struct Scope<'a> {
    pub(crate) names: ArrayVec<Spelling<'a>, MOST_OPEN>,
}

/// A name is open as long as this guard lives: on every way out of a body, a `?` while it lives included, the count of
/// open names goes back to what it was before.
pub(crate) struct Opened<'s, 'a> {
    pub(crate) scope: &'s mut Scope<'a>,
    pub(crate) before: usize,
}

impl Drop for Opened<'_, '_> {
    fn drop(self)
        ensures { self.exit.0.now.names.items ≡ take self.entry.before self.entry.scope.now.names.items }
    {
        let Opened { scope, before } = self;
        scope.names.truncate(before);
    }
}

impl<'a> Scope<'a> {
    pub(crate) fn new() -> Scope<'a>
        ensures { result.names.items ≡ [] }
    {
        Scope {
            names: ArrayVec::new(),
        }
    }

    /// Puts a name before the others.
    pub(crate) fn put(&mut self, name: Spelling<'a>)
        requires { array_vec_len self.old.names < 1366 }
        ensures { self.new.names.items ≡ self.old.names.items ++ name.entry ∷ [] }
    {
        self.names.push(name);
    }

    /// How many open names stand before this one; none where it is not open.
    // Apart from the parser's walk, so that its loop has the registers to itself.
    #[inline(never)]
    fn find(&self, name: &[u8]) -> Option<usize>
        ensures { result ≡ position (λ x. same name.now (spelled x)) (reverse self.now.names.items) }
    {
        let sought = Spelling::of(name);
        self.names.iter().rev().position(|open| sought.is(open))
    }

    /// How many names in force stand before this one, readings behind all open names; none where it
    /// is not in force.
    pub(crate) fn distance(&self, book: &Book, name: &[u8]) -> Option<u16>
        ensures { Found (open_names self.now ++ names book.now) name.now result }
    {
        let open = self.names.len();
        self.find(name)
            .or_else(|| book.find(name).map(|reading| open + reading))
            .map(|distance| distance as u16)
    }
}
