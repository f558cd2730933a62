//! The calls of a run and its replies, as lines have them.
use crate::fields::{number, numbers};
use crate::trouble::Trouble;
use law::{Call, Reply, Turn};
use run::{Found, Report, State};
use std::alloc::Global;
use std::fmt;

/// A call as it was read, which keeps the readings that it gives.
#[derive(Drop)]
pub(crate) enum Asked {
    Grant(u32),
    Ask,
    Rewind(Vec<i32>),
}

impl Asked {
    /// The call that is written so.
    pub(crate) fn read(heap: Global, text: &str) -> Result<Asked, Trouble> {
        if text == "a" {
            Ok(Asked::Ask)
        } else if text == "r" {
            Ok(Asked::Rewind(Vec::new(heap)))
        } else if let Some(steps) = text.strip_prefix('g') {
            let steps = number(steps)?;
            Ok(Asked::Grant(steps))
        } else if let Some(readings) = text.strip_prefix('r') {
            let readings = numbers(heap, readings)?;
            Ok(Asked::Rewind(readings))
        } else {
            Err(Trouble::Unreadable("no such call of a run"))
        }
    }

    /// The call, still to be made.
    pub(crate) fn turn(&self) -> Turn<'_> {
        Turn::new(match self {
            Asked::Grant(steps) => Call::Grant(*steps),
            Asked::Ask => Call::Ask,
            Asked::Rewind(readings) => Call::Rewind(readings.as_slice()),
        })
    }
}

/// A reply, for a line.
#[derive(Clone, Copy)]
pub(crate) struct Told(pub(crate) Reply);

impl fmt::Display for Told {
    fn fmt<W: fmt::Write>(&self, f: &mut fmt::Formatter<W>) -> fmt::Result {
        match self.0 {
            Reply::Done => write!(f, "ok"),
            Reply::Refused(fault) => write!(f, "refused {}", fault.number()),
            Reply::Told(report) => write!(f, "{}", Reported(report)),
        }
    }
}

/// What ask tells, for a line.
#[derive(Clone, Copy)]
pub(crate) struct Reported(pub(crate) Report);

impl fmt::Display for Reported {
    fn fmt<W: fmt::Write>(&self, f: &mut fmt::Formatter<W>) -> fmt::Result {
        let Report { count, state } = self.0;
        write!(f, "count={count} {}", Reached(state))
    }
}

/// The state that a run is in, for a line.
#[derive(Clone, Copy)]
struct Reached(State);

impl fmt::Display for Reached {
    fn fmt<W: fmt::Write>(&self, f: &mut fmt::Formatter<W>) -> fmt::Result {
        match self.0 {
            State::Waiting => write!(f, "waiting"),
            State::Done(Found::Number(number)) => write!(f, "number {number}"),
            State::Done(Found::Truth(truth)) => write!(f, "truth {truth}"),
            State::Done(Found::Function { node }) => write!(f, "function at {node}"),
            State::Range { node, .. } => write!(f, "range at {node}"),
            State::NoStore { node } => write!(f, "no store at {node}"),
            State::NoStack { node } => write!(f, "no stack at {node}"),
        }
    }
}
