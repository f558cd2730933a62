//! Lines of the kind `trial`: `STORE SIZE NAMES OUT T1 T2 B STEPS READINGS TEXT`, as the kinds `run`, `compile` and
//! `accept` have these fields; the readings are joined by colons.
use crate::accept_lines::tell_entries;
use crate::compile_lines::book_of;
use crate::fields::{Fields, bytes, given, number, numbers};
use crate::memory::{Memory, OnStore};
use crate::trouble::Trouble;
use crate::turns::Reported;
use book::book::Book;
use std::alloc::Global;
use std::fmt;
use store::contract::{BareStore, Store};
use trial::{Layer, Success, Tried, trial};
use typing::rule::Rule;
use values::Value;

/// What a line lends and gives to a trial.
#[derive(Drop)]
struct Line {
    book: Book,
    record: Vec<u8>,
    first: Vec<u16>,
    second: Vec<u16>,
    types: Vec<u16>,
    steps: u32,
    readings: Vec<i32>,
    text: Vec<u8>,
}

/// Tries the text of one line.
pub(crate) fn answer(heap: Global, mut fields: Fields) -> Result<String, Trouble> {
    let memory = Memory::read(&mut fields)?;
    let book = book_of(heap, fields.next())?;
    let record = vec![in heap; 0u8; number(fields.next())?]?;
    let first = vec![in heap; 0u16; number(fields.next())?]?;
    let second = vec![in heap; 0u16; number(fields.next())?]?;
    let types = vec![in heap; 0u16; number(fields.next())?]?;
    let steps = number(fields.next())?;
    let readings = match given(fields.next()) {
        Some(readings) => numbers(heap, readings)?,
        None => Vec::new(heap),
    };
    let text = bytes(heap, fields.last())?;
    let line = Line {
        book,
        record,
        first,
        second,
        types,
        steps,
        readings,
        text,
    };
    memory.lend(heap, line)
}

impl OnStore for Line {
    /// What the trial came to, and the free room.
    fn on<S: BareStore + Store<Elem = Value> + Drop>(
        mut self,
        heap: Global,
        store: S,
    ) -> Result<String, Trouble> {
        let Tried {
            place: _,
            store,
            result,
        } = trial(
            self.text.as_slice(),
            &self.book,
            &mut self.record,
            &mut self.first,
            &mut self.second,
            &mut self.types,
            Rule::new(),
            store,
            self.readings.as_slice(),
            self.steps,
        );
        let free = store.free();
        match result {
            Ok(
                Success {
                    bytes: _,
                    entries,
                    report,
                },
            ) => {
                let mut told = format!(in heap; "ok {} type=", Reported(report))?;
                tell_entries(&mut told, &self.types[..entries])?;
                write!(told, " free={free}")?;
                Ok(told)
            }
            Err(fault) => {
                let layer = Named(fault.layer());
                let (number, place) = (fault.number(), fault.place());
                Ok(format!(in heap; "refused {layer} {number} {place} free={free}")?)
            }
        }
    }
}

/// A layer, for a line.
#[derive(Clone, Copy)]
struct Named(Layer);

impl fmt::Display for Named {
    fn fmt<W: fmt::Write>(&self, f: &mut fmt::Formatter<W>) -> fmt::Result {
        match self.0 {
            Layer::Text => write!(f, "text"),
            Layer::Rule => write!(f, "rule"),
            Layer::Run => write!(f, "run"),
        }
    }
}
