//! The command `trial`, from the file to what one call of the library's trial came to.
use crate::compiling::rule_refused;
use crate::failure::Failure;
use crate::figures::Figures;
use crate::outcome::Ending;
use crate::prepared::record_of;
use crate::refusal::{Layer, Refusal};
use crate::run_options::{Attempt, Grants, Stores};
use crate::running::prepared;
use crate::shell::{Answer, Shell};
use crate::source;
use crate::source::RULE;
use flat::flat_store::FlatStore;
use flat::slot::Slot;
use linked::cell::Cell;
use linked::linked::LinkedStore;
use messages::rule_text::RuleText;
use serde_json::json;
use std::alloc::{AllocError, Global};
use store::blank::Blank;
use store::contract::{BareStore, Store};
use syntax::limits::MOST_RECORD;
use trial::{TrialFault, Tried, trial};
use typing::rule::Rule;
use values::Value;
use verdicts::verdict::{MOST_ENTRIES, Refused, TABLE, unused_readings};
use verdicts::words::in_words;

/// Tries a text, and prints the answer of its run, its type and its figures.
pub(crate) fn try_out(shell: Shell, attempt: &Attempt) -> Result<Answer, Failure> {
    let heap = shell.heap();
    let bytes = source::read(shell.rt, attempt.file, RULE)?;
    let prepared = prepared(
        shell,
        attempt.file,
        attempt.names.as_slice(),
        bytes.as_slice(),
    )?;
    let lent = Lent {
        text: prepared.rule(),
        readings: attempt.readings(heap, prepared.origin.names.as_slice())?,
        steps: match attempt.grants {
            Grants::Once(steps) => steps,
            Grants::Slots(_) => 1,
        },
    };
    let mut unused = Vec::new(heap);
    let told = match attempt.stores {
        Stores::Flat => {
            let mut slots = vec![in heap; Slot::<Value>::Spare; attempt.room]?;
            lent.over(shell, FlatStore::new(&mut slots), "slot", &mut unused)?
        }
        _ => {
            let mut cells = vec![in heap; Cell::<Value>::blank(); attempt.room]?;
            lent.over(shell, LinkedStore::new(&mut cells), "cell", &mut unused)?
        }
    };
    let mut answer = Answer::plain(heap, told);
    if !shell.json {
        prepared.warn_of_unused(heap, unused.as_slice(), &mut answer.beside)?;
    }
    Ok(answer)
}

/// What a trial is given.
#[derive(Drop)]
struct Lent<'a, 'n> {
    text: RuleText<'a, 'n>,
    readings: Vec<i32>,
    steps: u32,
}

/// What a trial is lent, enough for every text.
#[derive(Drop)]
struct Buffers {
    record: Vec<u8>,
    first: Vec<u16>,
    second: Vec<u16>,
    types: Vec<u16>,
}

impl Buffers {
    fn new(heap: Global) -> Result<Buffers, AllocError> {
        Ok(Buffers {
            record: vec![in heap; 0u8; MOST_RECORD]?,
            first: vec![in heap; 0u16; TABLE]?,
            second: vec![in heap; 0u16; TABLE]?,
            types: vec![in heap; 0u16; MOST_ENTRIES]?,
        })
    }
}

impl Lent<'_, '_> {
    /// Tries the text over a store; says which readings its rule does not use.
    fn over<S: BareStore + Store<Elem = Value> + Drop>(
        &self,
        shell: Shell,
        store: S,
        unit: &'static str,
        unused: &mut Vec<usize>,
    ) -> Result<String, Failure> {
        let heap = shell.heap();
        let whole = store.free();
        let mut lent = Buffers::new(heap)?;
        let Tried {
            place,
            store,
            result,
        } = trial(
            self.text.text,
            self.text.book,
            &mut lent.record,
            &mut lent.first,
            &mut lent.second,
            &mut lent.types,
            Rule::new(),
            store,
            self.readings.as_slice(),
            self.steps,
        );
        let success = match result {
            Ok(success) => success,
            Err(fault) => return Err(self.why(shell, fault)),
        };
        *unused = unused_readings(heap, &place)?;
        let ending = Ending {
            report: success.report,
            used: whole.saturating_sub(store.free()),
            whole,
            unit,
        };
        let type_words = in_words(heap, &lent.types[..success.entries])?;
        let figures = Figures {
            bytes: success.bytes,
            nodes: place.received.nodes.len(),
            readings: place.received.readings,
        };
        Ok(self.told(shell, &ending, type_words.as_str(), figures)?)
    }

    /// What the run told, then the type, then the figures.
    fn told(
        &self,
        shell: Shell,
        ending: &Ending,
        type_words: &str,
        figures: Figures,
    ) -> Result<String, AllocError> {
        let heap = shell.heap();
        if shell.json {
            let run = ending.object(heap)?;
            let object = json!(in heap; {
                "file": self.text.file().name,
                "run": run,
                "type": type_words,
                "bytes": figures.bytes,
                "nodes": figures.nodes,
                "readings": figures.readings
            })?
            .to_string(heap)?;
            return format!(in heap; "{object}\n");
        }
        format!(in heap; "{ending}{type_words}\n{figures}\n")
    }

    /// Why a trial was refused. The record of a rule without a type is made once more, to point at its text.
    fn why(&self, shell: Shell, fault: TrialFault) -> Failure {
        let heap = shell.heap();
        let (number, place) = (fault.number(), fault.place());
        match fault {
            TrialFault::Text(fault) => match self.text.refusal(heap, fault) {
                Ok(message) => Refusal {
                    file: self.text.file().name,
                    layer: Layer::Text,
                    number,
                    place,
                    message,
                }
                .failure(shell),
                Err(error) => Failure::NoMemory(error),
            },
            TrialFault::Rule(fault) => match record_of(shell, self.text) {
                Ok(record) => {
                    let refused = Refused {
                        record: record.as_slice(),
                        fault,
                    };
                    rule_refused(shell, self.text.file(), refused)
                }
                Err(failure) => failure,
            },
            TrialFault::Run(_) => Failure::wrong_call(
                heap,
                &format_args!("the run refuses the readings or the steps ({number})"),
            ),
        }
    }
}
