//! The names book: which names a text may use for readings.
ghost use Rattle.std.specs.Prelude.{◌≡◌, ◌≤◌, [], map, length};

use crate::fault::NameFault;
use crate::name::Name;
use arrayvec::ArrayVec;
use lexer::scan::is_name;
use syntax::limits::MOST_READINGS;

/// The names of the readings, the first for reading 0. A book begins empty.
#[derive(Drop)]
pub struct Book {
    pub(crate) names: ArrayVec<Name, MOST_READINGS>,
    ghost few: { length names.items ≤ 8 },
}

impl Book {
    ghost use Rattle.book.specs.Books.{names, Found, Added};

    /// An empty book.
    pub fn new() -> Book
        ensures { names result ≡ [] }
    {
        Book {
            names: ArrayVec::new(),
        }
    }

    /// Which reading a name stands for.
    pub fn find(&self, name: &[u8]) -> Option<usize>
        ensures { Found (names self.now) name.now result }
    {
        self.names.iter().position(|own| own.is(name))
    }

    /// Takes a name of at most 32 bytes that is new to the book, while it has fewer than 8. Anything
    /// else is refused and leaves the book as it was.
    pub fn add(&mut self, name: &[u8]) -> Result<(), NameFault>
        ensures { Added (names self.old) (names self.new) name.now result }
    {
        if self.names.is_full() {
            return Err(NameFault::Full);
        }
        if !is_name(name) {
            return Err(NameFault::NoName);
        }
        let own = Name::try_from(name)?;
        if self.find(name).is_some() {
            return Err(NameFault::Taken);
        }
        self.names.push(own);
        Ok(())
    }

    /// How many readings the book has named.
    pub fn readings(&self) -> usize
        ensures { (result ≡ length (names self.now)) × (result ≤ 8) }
    {
        self.names.len()
    }
}
