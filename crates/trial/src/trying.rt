//! The trial.
ghost use Rattle.std.specs.Prelude.{◌≡◌, ◌+◌, ℕ, ℤ, List, length, replicate, pos, OnOk, OnErr, IfOk};
ghost use Rattle.syntax.specs.Tree.{Tree};
ghost use Rattle.book.specs.Books.{names};
ghost use Rattle.record.specs.Reading.{IsTree};
ghost use Rattle.typing.specs.Accepting.{IsRule};
ghost use Rattle.machine.specs.Reducing.{room_of};
ghost use Rattle.reckoning.specs.Reckoning.{state};
ghost use Rattle.run.specs.Told.{state_of};
ghost use Rattle.run.specs.Standing.{IsAt, reported};
ghost use Rattle.trial.specs.Running.{one_grant, steps_added, run_answer, run_course, run_end, RunAnswers, RunLeaves, Tells};
ghost use Rattle.trial.specs.SettingUp.{lent, SetUp, concluded};
ghost use Rattle.trial.specs.Trying.{asked, Accepts, Compiles, TextTold, RuleTold, RecordLeft, TableLeft, TypesLeft, PlaceLeft, StoreKept};

use crate::fault::TrialFault;
use book::book::Book;
use run::{Closed, Report, Run, RunFault, State};
use store::contract::{BareStore, Store};
use text::compile::compile;
use typing::accept::accept;
use typing::rule::Rule;
use values::Value;

/// What a trial came to.
#[derive(Clone, Copy, Debug, PartialEq, Eq)]
pub struct Success {
    /// How many bytes of its buffer the record has.
    pub bytes: usize,
    /// How many entries of its buffer the type answer has.
    pub entries: usize,
    /// What the run tells at its end.
    pub report: Report,
}

/// What a trial took, given back, beside its result.
pub struct Tried<S> {
    pub place: Rule,
    pub store: S,
    pub result: Result<Success, TrialFault>,
}

/// How far the front of each buffer is written.
#[derive(Clone, Copy)]
struct Written {
    bytes: usize,
    entries: usize,
}

/// What a run took, given back, beside what it told.
struct Ran<S> {
    rule: Rule,
    store: S,
    report: Result<Report, TrialFault>,
}

/// Compiles a text, and accepts its record into the rule place.
fn set_up(
    text: &[u8],
    book: &Book,
    out: &mut [u8],
    first: &mut [u16],
    second: &mut [u16],
    types: &mut [u16],
    place: &mut Rule,
) -> Result<Written, TrialFault>
    ensures { SetUp text.now (names book.now) (lent out.old first.old second.old types.old place.old)
        (lent out.new first.new second.new types.new place.new) result }
{
    let bytes = compile(text, book, out)?;
    let entries = accept(&out[..bytes], first, second, types, place)?;
    Ok(Written { bytes, entries })
}

/// Grants the steps where the run waits. Where it does not wait, that is no refusal: nothing is granted.
fn grant_where_it_waits<S: BareStore + Store<Elem = Value>>(
    run: &mut Run<S>,
    steps: u32,
) -> Result<(), RunFault>
    ensures answer { result ≡ one_grant (state_of (reported run.old).state) (reported run.old).count steps }
    ensures rule { run.new.rule ≡ run.old.rule }
    ensures whole { S.Store.whole run.new.store ≡ S.Store.whole run.old.store }
    ensures cost { S.Store.cost run.new.store ≡ S.Store.cost run.old.store }
    ensures stands { (t : Tree) (readings : List ℤ) (g : ℕ) → IsAt S.Store.lists S.Store.whole S.Store.room
        S.Store.cost run.old t readings g → IsAt S.Store.lists S.Store.whole S.Store.room S.Store.cost run.new t
        readings (g + steps_added (state_of (reported run.old).state) result steps) }
{
    let State::Waiting = run.ask().state else {
        return Ok(());
    };
    run.grant(steps)
}

/// Rewinds a run that was started, grants it the steps where it waits, and asks it.
fn attempt<S: BareStore + Store<Elem = Value>>(
    run: &mut Run<S>,
    readings: &[i32],
    steps: u32,
) -> Result<Report, TrialFault>
    ensures rule { run.new.rule ≡ run.old.rule }
    ensures whole { S.Store.whole run.new.store ≡ S.Store.whole run.old.store }
    ensures cost { S.Store.cost run.new.store ≡ S.Store.cost run.old.store }
    ensures answer { (t : Tree) → IsTree run.old.rule t
        → RunAnswers (run_answer (room_of (S.Store.whole run.old.store) (S.Store.cost run.old.store))
        run.old.rule.readings t readings.now steps) result }
    ensures stands { (t : Tree) → IsAt S.Store.lists S.Store.whole S.Store.room S.Store.cost run.old t
        (replicate run.old.rule.readings (pos 0)) 0 → IsAt S.Store.lists S.Store.whole S.Store.room S.Store.cost
        run.new t (run_course (room_of (S.Store.whole run.old.store) (S.Store.cost run.old.store))
        run.old.rule.readings t readings.now steps).readings
        (run_course (room_of (S.Store.whole run.old.store) (S.Store.cost run.old.store)) run.old.rule.readings t
        readings.now steps).granted }
    ensures report { IfOk result (λ report. report ≡ reported run.new) }
{
    run.rewind(readings)?;
    grant_where_it_waits(run, steps)?;
    Ok(run.ask())
}

/// Starts a rule, attempts its run, and closes it.
fn run_through<S: BareStore + Store<Elem = Value>>(
    rule: Rule,
    store: S,
    readings: &[i32],
    steps: u32,
) -> Ran<S>
    ensures rule { result.rule ≡ rule }
    ensures whole { S.Store.whole result.store ≡ S.Store.whole store }
    ensures cost { S.Store.cost result.store ≡ S.Store.cost store }
    ensures answer { (r : ℕ) (t : Tree) → IsRule rule r t
        → RunAnswers (run_answer (room_of (S.Store.whole store) (S.Store.cost store)) r t readings.now steps)
        result.report }
    ensures report { (r : ℕ) (t : Tree) → IsRule rule r t
        → IfOk result.report (λ report. Tells report (run_end (room_of (S.Store.whole store) (S.Store.cost store)) r t
        readings.now steps)) }
    ensures leaves { (r : ℕ) (t : Tree) → IsRule rule r t
        → RunLeaves (room_of (S.Store.whole store) (S.Store.cost store)) r t rule.nodes.items readings.now steps
        (S.Store.room result.store) (S.Store.lists result.store) }
{
    let mut run = Run::start(rule, store);
    let report = attempt(&mut run, readings, steps);
    let Closed { rule, store } = run.close();
    Ran {
        rule,
        store,
        report,
    }
}

/// What a trial came to, from what its run told.
fn conclude(written: Written, report: Result<Report, TrialFault>) -> Result<Success, TrialFault>
    ensures { result ≡ concluded written report }
{
    let Written { bytes, entries } = written;
    report.map(|report| Success {
        bytes,
        entries,
        report,
    })
}

/// Tries a text: compiles it, accepts its record, starts the rule, rewinds it with the readings, grants it the steps
/// once where it waits, asks it and closes it. The first refusal ends that.
///
/// `out`, the two work tables and `types` are lent as `compile` and `accept` want them, and are left as these leave
/// them. A rule that was accepted stands in the rule place, whatever comes after.
pub fn trial<S: BareStore + Store<Elem = Value>>(
    text: &[u8],
    book: &Book,
    out: &mut [u8],
    first: &mut [u16],
    second: &mut [u16],
    types: &mut [u16],
    place: Rule,
    store: S,
    readings: &[i32],
    steps: u32,
) -> Tried<S>
    // the text is refused so, or compiled
    ensures text { TextTold (asked text.now (names book.now) out.old first.old second.old types.old) result.result }
    // its record is refused so, or accepted
    ensures rule { (bytes : List ℕ) → Compiles (asked text.now (names book.now) out.old first.old second.old
        types.old) bytes →
        RuleTold (asked text.now (names book.now) out.old first.old second.old types.old) bytes result.result }
    // the readings are refused, or the steps where the run waits for them, or nothing is
    ensures run { (r : ℕ) (t : Tree) (w : List ℕ)
        → Accepts (asked text.now (names book.now) out.old first.old second.old types.old) r t w →
        RunAnswers (run_answer (room_of (S.Store.whole store) (S.Store.cost store)) r t readings.now steps) result.result }
    // the report is what the run tells behind its one grant
    ensures report { (r : ℕ) (t : Tree) (w : List ℕ)
        → Accepts (asked text.now (names book.now) out.old first.old second.old types.old) r t w →
        IfOk result.result (λ done. Tells done.report (run_end (room_of (S.Store.whole store) (S.Store.cost store)) r t readings.now steps)) }
    ensures out_left { RecordLeft (asked text.now (names book.now) out.old first.old second.old types.old) out.old
        out.new result.result }
    ensures first_left { TableLeft (asked text.now (names book.now) out.old first.old second.old types.old) first.old
        first.new result.result }
    ensures second_left { TableLeft (asked text.now (names book.now) out.old first.old second.old types.old)
        second.old second.new result.result }
    ensures types_left { TypesLeft (asked text.now (names book.now) out.old first.old second.old types.old) types.old
        types.new result.result }
    ensures place_left { PlaceLeft (asked text.now (names book.now) out.old first.old second.old types.old) place
        result.place result.result }
    // the store: as it was given where no run was started, else as the run left it
    ensures store_kept { StoreKept store result.store result.result }
    ensures store_left { (r : ℕ) (t : Tree) (w : List ℕ)
        → Accepts (asked text.now (names book.now) out.old first.old second.old types.old) r t w →
        RunLeaves (room_of (S.Store.whole store) (S.Store.cost store)) r t result.place.nodes.items readings.now steps
        (S.Store.room result.store) (S.Store.lists result.store) }
    ensures whole { S.Store.whole result.store ≡ S.Store.whole store }
    ensures cost { S.Store.cost result.store ≡ S.Store.cost store }
{
    let mut place = place;
    match set_up(text, book, out, first, second, types, &mut place) {
        Err(fault) => Tried {
            place,
            store,
            result: Err(fault),
        },
        Ok(written) => {
            let Ran {
                rule,
                store,
                report,
            } = run_through(place, store, readings, steps);
            Tried {
                place: rule,
                store,
                result: conclude(written, report),
            }
        }
    }
}
