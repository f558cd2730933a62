//! Calls of a run.
use crate::fault::Fault;
use crate::sets::{SETS, Set};
use run::{Found, Report, Run, State};
use store::contract::{BareStore, Store};
use values::Value;

/// More steps than any call takes.
pub(crate) const ALL_STEPS: u32 = 1_000_000;

/// What calls came to.
#[derive(Clone, Copy, Debug)]
pub(crate) struct Tally {
    pub(crate) steps: u64,
    pub(crate) sum: i64,
}

/// One call: other readings, one grant, and what came out.
pub(crate) fn call<S: BareStore + Store<Elem = Value>>(
    run: &mut Run<S>,
    readings: &[i32],
) -> Result<Report, Fault> {
    run.rewind(readings)?;
    run.grant(ALL_STEPS)?;
    Ok(run.ask())
}

/// So many calls, with changing readings.
pub(crate) fn calls<S: BareStore + Store<Elem = Value>>(
    run: &mut Run<S>,
    sets: &[Set; SETS],
    count: u32,
) -> Result<Tally, Fault> {
    let mut tally = Tally { steps: 0, sum: 0 };
    for at in 0..count {
        let report = call(run, &sets[at as usize % SETS])?;
        let number = number(report)?;
        tally.steps = tally.steps.wrapping_add(u64::from(report.count));
        tally.sum = tally.sum.wrapping_add(i64::from(number));
    }
    Ok(tally)
}

/// The number that a call came to.
pub(crate) fn number(report: Report) -> Result<i32, Fault> {
    match report.state {
        State::Done(Found::Number(number)) => Ok(number),
        other => Err(Fault::NoNumber(other)),
    }
}
