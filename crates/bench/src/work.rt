//! The five works.
use crate::fault::Fault;
use crate::texts::{ARITH, CHURCH, DEEP, RULE, TWICE};
use book::book::Book;
use std::alloc::Global;
use std::str::FromStr;
use syntax::limits::MOST_RECORD;
use typing::rule::Rule;

/// The names of the readings.
const NAMES: [&str; 8] = [
    "coil", "outside", "room", "target", "hours", "power", "flow", "back",
];

/// The most nodes of a rule take so many entries of each table of accept, and as many do for any type that a work has.
const ENTRIES: usize = 3 * 512 + 2;

/// What is measured.
#[derive(Clone, Copy, PartialEq, Eq, Debug)]
pub enum Work {
    Twice,
    Rule,
    Deep,
    Arith,
    Church,
}

impl Work {
    pub const ALL: [Work; 5] = [
        Work::Twice,
        Work::Rule,
        Work::Deep,
        Work::Arith,
        Work::Church,
    ];

    pub fn name(self) -> &'static str {
        match self {
            Work::Twice => "twice",
            Work::Rule => "rule",
            Work::Deep => "deep",
            Work::Arith => "arith",
            Work::Church => "church",
        }
    }

    fn text(self) -> &'static str {
        match self {
            Work::Twice => TWICE,
            Work::Rule => RULE,
            Work::Deep => DEEP,
            Work::Arith => ARITH,
            Work::Church => CHURCH,
        }
    }

    /// The accepted rule.
    pub fn rule(self, heap: Global) -> Result<Rule, Fault> {
        let mut record = [0; MOST_RECORD];
        let count = text::compile::compile(self.text().as_bytes(), &book(), &mut record)?;
        let mut first = vec![in heap; 0u16; ENTRIES]?;
        let mut second = vec![in heap; 0u16; ENTRIES]?;
        let mut types = vec![in heap; 0u16; ENTRIES]?;
        let mut rule = Rule::new();
        typing::accept::accept(
            &record[..count],
            &mut first,
            &mut second,
            &mut types,
            &mut rule,
        )?;
        Ok(rule)
    }
}

impl FromStr for Work {
    type Err = Fault;

    fn from_str(name: &str) -> Result<Work, Fault> {
        Work::ALL
            .iter()
            .copied()
            .find(|work| work.name() == name)
            .ok_or(Fault::NoWork)
    }
}

/// A book of the readings' names.
fn book() -> Book {
    let mut book = Book::new();
    for name in NAMES {
        // A name that is refused shows as a name that the texts may not use.
        let _ = book.add(name.as_bytes());
    }
    book
}
