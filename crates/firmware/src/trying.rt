//! A trial, over the places that C lends.
ghost use Rattle.std.specs.Prelude.{◌≡◌};
ghost use Rattle.book.specs.Books.{names};
ghost use Rattle.firmware.specs.Trials.{TrialLeft, buffers, no_trial, tried};

use crate::fault::CallFault;
use crate::reply::Reply;
use crate::report::Told;
use crate::run_place::RunPlace;
use book::book::Book;
use store::contract::{BareStore, Store};
use trial::{Success, TrialFault, Tried, trial};
use typing::rule::Rule;
use values::Value;

/// What a trial came to, in plain numbers.
#[repr(C)]
#[derive(Clone, Copy, PartialEq, Eq, Debug)]
pub struct Trial {
    pub reply: Reply,
    /// How many bytes the record has; 0 where the trial was refused.
    pub bytes: usize,
    /// How many entries the type answer has; 0 where the trial was refused.
    pub entries: usize,
    /// What the run told at its end; that no run is open where the trial was refused.
    pub report: Told,
}

impl Trial {
    /// A refusal.
    pub fn refused(reply: Reply) -> Trial
        ensures { result ≡ no_trial reply }
    {
        Trial {
            reply,
            bytes: 0,
            entries: 0,
            report: Told::none(),
        }
    }

    /// What the library's trial came to.
    fn of(answer: Result<Success, TrialFault>) -> Trial
        ensures { result ≡ tried answer }
    {
        match answer {
            Ok(done) => Trial {
                reply: Reply::done(0),
                bytes: done.bytes,
                entries: done.entries,
                report: Told::of(done.report),
            },
            Err(fault) => Trial::refused(Reply::refused(fault)),
        }
    }
}

/// A run place and a rule place, given back beside what the trial came to.
pub struct TriedPlaces<S: BareStore + Store<Elem = Value>> {
    pub run: RunPlace<S>,
    pub rule: Rule,
    pub trial: Trial,
}

/// Tries a text, as the trial of the library does, over the store of a run place and with the rule place. Refused where a
/// run is open.
pub fn try_text<S: BareStore + Store<Elem = Value>>(
    text: &[u8],
    book: &Book,
    out: &mut [u8],
    first: &mut [u16],
    second: &mut [u16],
    types: &mut [u16],
    run: RunPlace<S>,
    rule: Rule,
    readings: &[i32],
    steps: u32,
) -> TriedPlaces<S>
    ensures { TrialLeft S.Store.lists S.Store.whole S.Store.room S.Store.cost text.now (names book.now) (buffers out.old first.old second.old types.old) (buffers out.new first.new second.new types.new) run rule readings.now steps result.run result.rule result.trial }
{
    match run {
        RunPlace::Open(run) => TriedPlaces {
            run: RunPlace::Open(run),
            rule,
            trial: Trial::refused(Reply::misused(CallFault::Open)),
        },
        RunPlace::Closed(store) => {
            let Tried {
                place,
                store,
                result,
            } = trial(
                text, book, out, first, second, types, rule, store, readings, steps,
            );
            TriedPlaces {
                run: RunPlace::Closed(store),
                rule: place,
                trial: Trial::of(result),
            }
        }
    }
}
