//! A rule's text with the names of its readings, ready to be compiled.
use crate::failure::Failure;
use crate::header::{Headed, separates};
use crate::refusal::{Layer, Refusal};
use crate::shell::Shell;
use book::book::Book;
use messages::file::shown_name;
use messages::names::refused;
use messages::rule_text::{Origin, RuleText};
use std::alloc::{AllocError, Global};

/// A rule's file, and the names that its text may use.
#[derive(Drop)]
pub(crate) struct Prepared<'a> {
    book: Book,
    whole: &'a [u8],
    text: &'a [u8],
    pub(crate) origin: Origin<'a>,
}

impl<'a> Prepared<'a> {
    /// Takes the names from the first line of the file, or else from the call. Where both name readings they have to
    /// name the same ones in the same order.
    pub(crate) fn new(
        shell: Shell,
        file: &'a str,
        bytes: &'a [u8],
        called: &[&'a str],
        room: usize,
    ) -> Result<Prepared<'a>, Failure> {
        let heap = shell.heap();
        let headed = Headed::of(bytes);
        let names = match headed.names {
            Some(line) => {
                let names: Vec<&'a str> = line
                    .split(|character: char| separates(character))
                    .filter(|name| !name.is_empty())
                    .collect(heap)?;
                agree(heap, file, names.as_slice(), called)?;
                names
            }
            None => called.iter().copied().collect(heap)?,
        };
        let book = book_of(shell, file, names.as_slice())?;
        Ok(Prepared {
            book,
            whole: bytes,
            text: headed.text,
            origin: Origin { file, names, room },
        })
    }

    pub(crate) fn rule(&self) -> RuleText<'_, 'a> {
        RuleText {
            text: self.text,
            whole: self.whole,
            book: &self.book,
            origin: &self.origin,
        }
    }
}

impl Prepared<'_> {
    /// Warns of readings that the rule does not use: perhaps they were meant as others, or the text was.
    pub(crate) fn warn_of_unused(
        &self,
        heap: Global,
        unused: &[usize],
        beside: &mut String,
    ) -> Result<(), AllocError> {
        let file = shown_name(self.origin.file);
        for reading in unused {
            if let Some(name) = self.origin.names.get(*reading) {
                let warning = format!(in heap;
                    "warning: {file} does not use its reading `{name}`\n"
                )?;
                beside.push_str(warning.as_str())?;
            }
        }
        Ok(())
    }
}

/// Refuses a call that names other readings than the file, or the same in another order.
fn agree(heap: Global, file: &str, told: &[&str], called: &[&str]) -> Result<(), Failure> {
    if called.is_empty() || called == told {
        return Ok(());
    }
    let told = told.join(heap, " ")?;
    let called = called.join(heap, " ")?;
    Err(Failure::wrong_call(
        heap,
        &format_args!("the first line of {file} names the readings {told}, and the call {called}"),
    ))
}

/// Puts the names into a book, in their order.
fn book_of(shell: Shell, file: &str, names: &[&str]) -> Result<Book, Failure> {
    let heap = shell.heap();
    let mut book = Book::new();
    for (at, name) in names.iter().enumerate() {
        if let Err(fault) = book.add(name.as_bytes()) {
            let refusal = Refusal {
                file,
                layer: Layer::Name,
                number: fault.number(),
                place: fault.place(),
                message: refused(heap, fault, name, at)?,
            };
            return Err(refusal.failure(shell));
        }
    }
    Ok(book)
}

/// The record of a text, or what is wrong with the text.
pub(crate) fn record_of(shell: Shell, rule: RuleText) -> Result<Vec<u8>, Failure> {
    let heap = shell.heap();
    match rule.record(heap, rule.origin.room)? {
        Ok(record) => Ok(record),
        Err(fault) => {
            let refusal = Refusal {
                file: rule.file().name,
                layer: Layer::Text,
                number: fault.number(),
                place: fault.place(),
                message: rule.refusal(heap, fault)?,
            };
            Err(refusal.failure(shell))
        }
    }
}
