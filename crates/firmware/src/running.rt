//! The calls of a run place.
ghost use Rattle.std.specs.Prelude.{◌≡◌};
ghost use Rattle.firmware.specs.Places.{Started, Rewound, Granted, Closing, told, freed};

use crate::fault::CallFault;
use crate::reply::Reply;
use crate::report::Told;
use crate::run_place::RunPlace;
use run::{Closed, Run};
use store::contract::{BareStore, Store};
use typing::rule::Rule;
use values::Value;

/// A run place and a rule place, given back beside the reply.
pub struct Places<S: BareStore + Store<Elem = Value>> {
    pub run: RunPlace<S>,
    pub rule: Rule,
    pub reply: Reply,
}

/// Starts the rule of a rule place in a run place, with all readings 0; the rule place is new then. Refused where a run is
/// open.
pub fn start<S: BareStore + Store<Elem = Value>>(run: RunPlace<S>, rule: Rule) -> Places<S>
    ensures { Started S.Store.lists S.Store.whole S.Store.room S.Store.cost run rule result.run result.rule result.reply }
{
    match run {
        RunPlace::Closed(store) => Places {
            run: RunPlace::Open(Run::start(rule, store)),
            rule: Rule::new(),
            reply: Reply::done(0),
        },
        RunPlace::Open(run) => Places {
            run: RunPlace::Open(run),
            rule,
            reply: Reply::misused(CallFault::Open),
        },
    }
}

/// Begins anew, with these readings; refused, the run is as it was.
pub fn rewind<S: BareStore + Store<Elem = Value>>(run: &mut RunPlace<S>, readings: &[i32]) -> Reply
    ensures { Rewound S.Store.lists S.Store.whole S.Store.room S.Store.cost run.old readings.now run.new result }
{
    match run {
        RunPlace::Closed(_) => Reply::misused(CallFault::Closed),
        RunPlace::Open(run) => Reply::of_run(run.rewind(readings)),
    }
}

/// Grants so many steps, which are done at once, or as many of them as there are; refused, the run is as it was.
pub fn grant<S: BareStore + Store<Elem = Value>>(run: &mut RunPlace<S>, steps: u32) -> Reply
    ensures { Granted S.Store.lists S.Store.whole S.Store.room S.Store.cost run.old steps run.new result }
{
    match run {
        RunPlace::Closed(_) => Reply::misused(CallFault::Closed),
        RunPlace::Open(run) => Reply::of_run(run.grant(steps)),
    }
}

/// The count and the state.
pub fn ask<S: BareStore + Store<Elem = Value>>(run: &RunPlace<S>) -> Told
    ensures { result ≡ told run.now }
{
    match run {
        RunPlace::Closed(_) => Told::none(),
        RunPlace::Open(run) => Told::of(run.ask()),
    }
}

/// Ends the run, and gives its rule back to the rule place, in place of what stands there. Refused where no run is open.
pub fn close<S: BareStore + Store<Elem = Value>>(run: RunPlace<S>, rule: Rule) -> Places<S>
    ensures { Closing run rule result.run result.rule result.reply }
{
    match run {
        RunPlace::Closed(store) => Places {
            run: RunPlace::Closed(store),
            rule,
            reply: Reply::misused(CallFault::Closed),
        },
        RunPlace::Open(run) => {
            let Closed { rule, store } = run.close();
            Places {
                run: RunPlace::Closed(store),
                rule,
                reply: Reply::done(0),
            }
        }
    }
}

/// The free room that a run left. Refused while a run is open.
pub fn free<S: BareStore + Store<Elem = Value>>(run: &RunPlace<S>) -> Reply
    ensures { result ≡ freed S.Store.room run.now }
{
    match run {
        RunPlace::Closed(store) => Reply::done(store.free() as usize),
        RunPlace::Open(_) => Reply::misused(CallFault::Open),
    }
}
