//! What a run did, in words.
use crate::counted::Counted;
use law::{Call, Played, Reply, Turn};
use run::{Found, Report, RunFault, State};
use serde_json::{Value, json};
use std::alloc::{AllocError, Global};
use std::fmt;
use store::contract::Store;

/// What a run did, and the room that it took.
#[derive(Drop)]
pub(crate) struct Outcome<'a> {
    turns: Vec<Turn<'a>>,
    ending: Ending,
}

/// What a run told at its end, and the room that it took.
#[derive(Clone, Copy)]
pub(crate) struct Ending {
    pub(crate) report: Report,
    pub(crate) used: u32,
    pub(crate) whole: u32,
    /// What the room is counted in.
    pub(crate) unit: &'static str,
}

impl<'a> Outcome<'a> {
    /// What is left of a run, over a store whose whole room is known.
    pub(crate) fn of<S: Store + Drop>(
        played: Played<S>,
        turns: Vec<Turn<'a>>,
        whole: u32,
        unit: &'static str,
    ) -> Outcome<'a> {
        let Played {
            rule: _,
            store,
            report,
        } = played;
        let used = whole.saturating_sub(store.free());
        Outcome {
            turns,
            ending: Ending {
                report,
                used,
                whole,
                unit,
            },
        }
    }

    /// Whether another run was told the same at each call.
    pub(crate) fn tells_the_same(&self, other: &Outcome) -> bool {
        self.ending.report == other.ending.report
            && self
                .turns
                .iter()
                .zip(other.turns.iter())
                .all(|(one, two)| one.reply == two.reply)
    }

    /// The slots of the run: each is a grant, and the ask behind it.
    pub(crate) fn slots(&self, heap: Global) -> Result<Slots, AllocError> {
        let mut slots = Vec::new(heap);
        for (grant, ask) in self.turns.iter().zip(self.turns.iter().skip(1)) {
            if let (Call::Grant(steps), Reply::Told(report)) = (grant.call, ask.reply) {
                slots.push(Slot {
                    steps,
                    reply: grant.reply,
                    report,
                })?;
            }
        }
        Ok(Slots(slots))
    }

    /// What the run did, for a tool.
    pub(crate) fn object(&self, heap: Global, file: &str) -> Result<Value, AllocError> {
        let run = self.ending.object(heap)?;
        let slots = self.slots(heap)?.objects(heap)?;
        json!(in heap; {"file": file, "run": run, "slots": slots})
    }
}

impl fmt::Display for Outcome<'_> {
    fn fmt<W: fmt::Write>(&self, f: &mut fmt::Formatter<W>) -> fmt::Result {
        write!(f, "{}", self.ending)
    }
}

impl Ending {
    /// What a run told, as an object.
    pub(crate) fn object(&self, heap: Global) -> Result<Value, AllocError> {
        let Report { count, state } = self.report;
        let (answer, node) = match state {
            State::Waiting => (Value::Null, Value::Null),
            State::Done(Found::Number(number)) => (Value::from(number), Value::Null),
            State::Done(Found::Truth(truth)) => (Value::from(truth), Value::Null),
            State::Done(Found::Function { node })
            | State::Range { node, .. }
            | State::NoStore { node }
            | State::NoStack { node } => (Value::Null, Value::from(node)),
        };
        json!(in heap; {
            "outcome": outcome_of(state),
            "answer": answer,
            "node": node,
            "steps": count,
            "used": self.used,
            "room": self.whole,
            "unit": self.unit
        })
    }
}

impl fmt::Display for Ending {
    fn fmt<W: fmt::Write>(&self, f: &mut fmt::Formatter<W>) -> fmt::Result {
        let Report { count, state } = self.report;
        writeln!(f, "{}", Answer(state))?;
        writeln!(
            f,
            "{}, {}",
            Counted(count as usize, "step"),
            Standing(state)
        )?;
        writeln!(
            f,
            "{} of {} used",
            self.used,
            Counted(self.whole as usize, self.unit)
        )
    }
}

/// The answer of a run, or why there is none.
#[derive(Clone, Copy)]
struct Answer(State);

impl fmt::Display for Answer {
    fn fmt<W: fmt::Write>(&self, f: &mut fmt::Formatter<W>) -> fmt::Result {
        match self.0 {
            State::Waiting => write!(f, "no answer yet"),
            State::Done(Found::Number(number)) => write!(f, "{number}"),
            State::Done(Found::Truth(truth)) => write!(f, "{truth}"),
            State::Done(Found::Function { node }) => write!(f, "the function at node {node}"),
            State::Range { node, .. } => {
                write!(f, "no answer: the sum at node {node} is out of range")
            }
            State::NoStore { node } => {
                write!(
                    f,
                    "no answer: what node {node} has to remember does not fit the store"
                )
            }
            State::NoStack { node } => {
                write!(
                    f,
                    "no answer: node {node} would be the 257th operation to be open"
                )
            }
        }
    }
}

/// Whether a run is over, or what it waits for.
#[derive(Clone, Copy)]
struct Standing(State);

impl fmt::Display for Standing {
    fn fmt<W: fmt::Write>(&self, f: &mut fmt::Formatter<W>) -> fmt::Result {
        match self.0 {
            State::Waiting => write!(f, "waits for more steps"),
            State::Done(_) | State::Range { .. } => write!(f, "over"),
            State::NoStore { .. } => write!(f, "short of room"),
            State::NoStack { .. } => write!(f, "short of stack"),
        }
    }
}

/// The slots of a run, shown a line for each.
#[derive(Drop)]
pub(crate) struct Slots(Vec<Slot>);

impl Slots {
    fn objects(&self, heap: Global) -> Result<Vec<Value>, AllocError> {
        let mut objects = Vec::new(heap);
        for slot in &self.0 {
            objects.push(slot.object(heap)?)?;
        }
        Ok(objects)
    }
}

impl fmt::Display for Slots {
    fn fmt<W: fmt::Write>(&self, f: &mut fmt::Formatter<W>) -> fmt::Result {
        let mut order = 0usize;
        for slot in &self.0 {
            order = order.saturating_add(1);
            writeln!(f, "slot {order}: {slot}")?;
        }
        Ok(())
    }
}

/// A grant, its reply, and what is told behind it.
#[derive(Clone, Copy)]
struct Slot {
    steps: u32,
    reply: Reply,
    report: Report,
}

impl Slot {
    /// The same for a tool.
    fn object(&self, heap: Global) -> Result<Value, AllocError> {
        let refused = match self.reply {
            Reply::Done | Reply::Told(_) => Value::Null,
            Reply::Refused(fault) => Value::from(fault.number()),
        };
        json!(in heap; {
            "granted": self.steps,
            "refused": refused,
            "steps": self.report.count,
            "outcome": outcome_of(self.report.state)
        })
    }
}

/// The outcome of a run in a word.
fn outcome_of(state: State) -> &'static str {
    match state {
        State::Waiting => "waiting",
        State::Done(_) => "done",
        State::Range { .. } => "range",
        State::NoStore { .. } => "no store",
        State::NoStack { .. } => "no stack",
    }
}

impl fmt::Display for Slot {
    fn fmt<W: fmt::Write>(&self, f: &mut fmt::Formatter<W>) -> fmt::Result {
        let Report { count, state } = self.report;
        let steps = Counted(self.steps as usize, "step");
        match self.reply {
            Reply::Done | Reply::Told(_) => {
                write!(
                    f,
                    "{steps} granted, {count} done so far, {}",
                    Standing(state)
                )
            }
            Reply::Refused(RunFault::WrongSteps { most }) => {
                write!(
                    f,
                    "{steps} refused, since at most {most} may still be granted"
                )
            }
            Reply::Refused(fault) => {
                write!(
                    f,
                    "{steps} refused ({}), {}",
                    fault.number(),
                    Standing(state)
                )
            }
        }
    }
}
