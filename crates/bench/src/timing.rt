//! Many calls of one work, and how long they take.
use crate::called::calls;
use crate::check::CELLS;
use crate::fault::Fault;
use crate::sets::sets;
use crate::work::Work;
use clap::{Arg, Command, value_parser};
use linked::cell::Cell;
use linked::linked::LinkedStore;
use run::{Closed, Run};
use std::alloc::Global;
use std::time::Instant;

/// What the words of a call ask for.
#[derive(Clone, Copy, Debug)]
pub(crate) struct Asked {
    work: Work,
    calls: u32,
}

impl Asked {
    /// Reads the words: a work and how often it is called.
    pub(crate) fn read(heap: Global, words: &[String]) -> Result<Asked, Fault> {
        let work = Arg::new(heap, "work").required(true);
        let count = Arg::new(heap, "calls")
            .required(true)
            .value_parser(value_parser!(u32));
        let command = Command::new(heap, "bench").arg(work)?.arg(count)?;
        let matches = command.try_get_matches_from(words)?;
        let work: Work = matches.get_str("work").unwrap_or("").parse()?;
        let calls = matches.get_one::<u32>("calls").unwrap_or(0);
        Ok(Asked { work, calls })
    }
}

/// Prints the sum of the answers, the count of the steps and the nanoseconds.
pub(crate) fn print(rt: &HostRuntime, asked: Asked) -> Result<(), Fault> {
    let mut cells = vec![in rt.alloc(); Cell::blank(); CELLS]?;
    let rule = asked.work.rule(rt.alloc())?;
    let mut run = Run::start(rule, LinkedStore::new(&mut cells));
    let begun = Instant::now(rt);
    let tally = calls(&mut run, &sets(), asked.calls);
    let Closed { rule: _, store: _ } = run.close();
    let tally = tally?;
    let taken = begun?.elapsed(rt)?.as_nanos();
    println!(rt; "{} {} {taken}", tally.sum, tally.steps)?;
    Ok(())
}
