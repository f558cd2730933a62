//! What some calls of each work come to.
use crate::called;
use crate::fault::Fault;
use crate::sets::{SETS, Set, sets};
use crate::work::Work;
use linked::cell::Cell;
use linked::linked::LinkedStore;
use run::{Closed, Run};
use store::contract::{BareStore, Store};
use values::Value;

/// So many calls are printed of each work.
const SHOWN: usize = 4;

/// So many cells are enough for each work.
pub(crate) const CELLS: usize = 65_535;

/// Prints them, and the sum of the first 64 calls.
pub(crate) fn print(rt: &HostRuntime) -> Result<(), Fault> {
    let mut cells = vec![in rt.alloc(); Cell::blank(); CELLS]?;
    for work in Work::ALL {
        let rule = work.rule(rt.alloc())?;
        let mut run = Run::start(rule, LinkedStore::new(&mut cells));
        let told = print_work(rt, work, &mut run);
        let Closed { rule: _, store: _ } = run.close();
        told?;
    }
    Ok(())
}

/// Prints what the calls of one work come to.
fn print_work<S: BareStore + Store<Elem = Value>>(
    rt: &HostRuntime,
    work: Work,
    run: &mut Run<S>,
) -> Result<(), Fault> {
    let sets: [Set; SETS] = sets();
    for set in &sets[..SHOWN] {
        let report = called::call(run, set)?;
        let number = called::number(report)?;
        println!(rt; "{}: {} steps, {number}", work.name(), report.count)?;
    }
    let tally = called::calls(run, &sets, SETS as u32)?;
    println!(rt;
        "{}: {} calls, {} steps, sum {}",
        work.name(),
        SETS,
        tally.steps,
        tally.sum
    )?;
    Ok(())
}
