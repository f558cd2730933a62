//! The command `run`, from the file to what the run did.
use crate::compiling::rule_refused;
use crate::failure::Failure;
use crate::header::Headed;
use crate::outcome::Outcome;
use crate::prepared::{Prepared, record_of};
use crate::run_options::{Attempt, Grants, Stores};
use crate::shell::{Answer, Shell};
use crate::source;
use crate::source::RULE;
use crate::trace::single_steps;
use flat::flat_store::FlatStore;
use flat::slot::Slot;
use law::{Both, Call, Played, Turn, play, play_two};
use linked::cell::Cell;
use linked::linked::LinkedStore;
use messages::file::TextFile;
use serde_json::json;
use std::alloc::{AllocError, Global};
use store::blank::Blank;
use store::contract::{BareStore, Store};
use syntax::limits::MOST_RECORD;
use typing::accept::accept;
use typing::rule::Rule;
use values::Value;
use verdicts::verdict::{MOST_ENTRIES, Refused, TABLE, unused_readings};

/// The readings of a run and the steps that it is granted, one slot after another.
#[derive(Drop)]
pub(crate) struct Plan {
    pub(crate) readings: Vec<i32>,
    pub(crate) slots: Vec<u32>,
}

impl Plan {
    /// The calls of a run: a rewind with the readings, and an ask behind each grant.
    pub(crate) fn turns(&self, heap: Global) -> Result<Vec<Turn<'_>>, AllocError> {
        let mut turns = Vec::new(heap);
        turns.push(Turn::new(Call::Rewind(self.readings.as_slice())))?;
        for steps in &self.slots {
            turns.push(Turn::new(Call::Grant(*steps)))?;
            turns.push(Turn::new(Call::Ask))?;
        }
        Ok(turns)
    }
}

/// Compiles and accepts a text, runs its rule, and prints what that did.
pub(crate) fn run(shell: Shell, attempt: &Attempt) -> Result<Answer, Failure> {
    let heap = shell.heap();
    let bytes = source::read(shell.rt, attempt.file, RULE)?;
    let prepared = prepared(
        shell,
        attempt.file,
        attempt.names.as_slice(),
        bytes.as_slice(),
    )?;
    let plan = Plan {
        readings: attempt.readings(heap, prepared.origin.names.as_slice())?,
        slots: slots_of(heap, attempt)?,
    };
    let text = prepared.rule();
    let record = record_of(shell, text)?;
    let rule = rule_of(shell, text.file(), record.as_slice())?;
    let unused = unused_readings(heap, &rule)?;
    let told = match attempt.stores {
        Stores::Linked => over_linked(shell, attempt, plan, rule)?,
        Stores::Flat => over_flat(shell, attempt, plan, rule)?,
        Stores::Both => {
            let other = rule_of(shell, text.file(), record.as_slice())?;
            over_both(shell, attempt, &plan, rule, other)?
        }
    };
    let mut answer = Answer::plain(heap, told);
    if !shell.json {
        prepared.warn_of_unused(heap, unused.as_slice(), &mut answer.beside)?;
    }
    Ok(answer)
}

/// The text with its names. Where the file names its readings, the call may give them in any order.
pub(crate) fn prepared<'a>(
    shell: Shell,
    file: &'a str,
    names: &[&'a str],
    bytes: &'a [u8],
) -> Result<Prepared<'a>, Failure> {
    match Headed::of(bytes).names {
        Some(_) => Prepared::new(shell, file, bytes, &[], MOST_RECORD),
        None => Prepared::new(shell, file, bytes, names, MOST_RECORD),
    }
}

/// The steps of a call, as slots.
fn slots_of(heap: Global, attempt: &Attempt) -> Result<Vec<u32>, AllocError> {
    match &attempt.grants {
        Grants::Once(steps) => vec![in heap; *steps; 1],
        Grants::Slots(slots) => slots.iter().copied().collect(heap),
    }
}

/// The rule of a record, or why it is not accepted.
fn rule_of(shell: Shell, file: TextFile, record: &[u8]) -> Result<Rule, Failure> {
    let heap = shell.heap();
    let mut first = vec![in heap; 0u16; TABLE]?;
    let mut second = vec![in heap; 0u16; TABLE]?;
    let mut types = vec![in heap; 0u16; MOST_ENTRIES]?;
    let mut rule = Rule::new();
    match accept(record, &mut first, &mut second, &mut types, &mut rule) {
        Ok(_) => Ok(rule),
        Err(fault) => Err(rule_refused(shell, file, Refused { record, fault })),
    }
}

/// Runs a rule over a store. A trace without slots runs it twice: how many steps it takes is known behind the first.
fn over<S: BareStore + Store<Elem = Value> + Drop>(
    shell: Shell,
    attempt: &Attempt,
    plan: Plan,
    rule: Rule,
    store: S,
    unit: &'static str,
) -> Result<String, AllocError> {
    let heap = shell.heap();
    let whole = store.free();
    let mut turns = plan.turns(heap)?;
    let played = play(rule, store, &mut turns);
    match &attempt.grants {
        Grants::Once(_) if attempt.trace => {
            let Played {
                rule,
                store,
                report,
            } = played;
            let traced = single_steps(heap, &plan, report)?;
            let mut turns = traced.turns(heap)?;
            let played = play(rule, store, &mut turns);
            told(shell, attempt, &Outcome::of(played, turns, whole, unit))
        }
        _ => told(shell, attempt, &Outcome::of(played, turns, whole, unit)),
    }
}

fn over_linked(
    shell: Shell,
    attempt: &Attempt,
    plan: Plan,
    rule: Rule,
) -> Result<String, AllocError> {
    let mut cells = vec![in shell.heap(); Cell::<Value>::blank(); attempt.room]?;
    over(
        shell,
        attempt,
        plan,
        rule,
        LinkedStore::new(&mut cells),
        "cell",
    )
}

fn over_flat(
    shell: Shell,
    attempt: &Attempt,
    plan: Plan,
    rule: Rule,
) -> Result<String, AllocError> {
    let mut slots = vec![in shell.heap(); Slot::<Value>::Spare; attempt.room]?;
    over(
        shell,
        attempt,
        plan,
        rule,
        FlatStore::new(&mut slots),
        "slot",
    )
}

/// Runs one rule over the linked store and the other over the flat one, and says whether the two tell the same.
fn over_both(
    shell: Shell,
    attempt: &Attempt,
    plan: &Plan,
    rule: Rule,
    other: Rule,
) -> Result<String, AllocError> {
    let heap = shell.heap();
    let mut cells = vec![in heap; Cell::<Value>::blank(); attempt.room]?;
    let mut slots = vec![in heap; Slot::<Value>::Spare; attempt.room]?;
    let linked = LinkedStore::new(&mut cells);
    let flat = FlatStore::new(&mut slots);
    let (cells, slots) = (linked.free(), flat.free());
    let mut turns = plan.turns(heap)?;
    let mut other_turns = plan.turns(heap)?;
    let Both { one, two } = play_two(rule, linked, &mut turns, other, flat, &mut other_turns);
    let one = Outcome::of(one, turns, cells, "cell");
    let two = Outcome::of(two, other_turns, slots, "slot");
    let same = one.tells_the_same(&two);
    if shell.json {
        let linked = one.object(heap, attempt.file)?;
        let flat = two.object(heap, attempt.file)?;
        let object = json!(in heap; {
            "file": attempt.file,
            "same": same,
            "linked": linked,
            "flat": flat
        })?
        .to_string(heap)?;
        return format!(in heap; "{object}\n");
    }
    let verdict = if same {
        "both stores tell the same"
    } else {
        "the stores do not tell the same: with more room they do"
    };
    let one = told(shell, attempt, &one)?;
    let two = told(shell, attempt, &two)?;
    format!(in heap; "linked store:\n{one}flat store:\n{two}{verdict}\n")
}

/// What a run did, and a line for each slot where the call has slots or wants a trace.
fn told(shell: Shell, attempt: &Attempt, outcome: &Outcome) -> Result<String, AllocError> {
    let heap = shell.heap();
    if shell.json {
        let object = outcome.object(heap, attempt.file)?.to_string(heap)?;
        return format!(in heap; "{object}\n");
    }
    match &attempt.grants {
        Grants::Once(_) if !attempt.trace => format!(in heap; "{outcome}"),
        _ => {
            let slots = outcome.slots(heap)?;
            format!(in heap; "{outcome}{slots}")
        }
    }
}
