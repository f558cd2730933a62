//! What ask tells C.
ghost use Rattle.std.specs.Prelude.{◌≡◌};
ghost use Rattle.firmware.specs.Reports.{plain, figures, no_run};

use run::{Found, Report, State};

/// The count and the state of a run, in plain numbers.
#[repr(C)]
#[derive(Clone, Copy, PartialEq, Eq, Debug)]
pub struct Told {
    /// How many steps were done.
    pub count: u32,
    /// 0 no run is open, 1 waiting, 2 number, 3 truth, 4 function, 5 range, 6 no store, 7 no stack.
    pub state: u32,
    /// The answer: the number, and of a truth 1 for true; else 0.
    pub value: i32,
    /// The node that the state names; else 0.
    pub node: u32,
}

/// A state in plain numbers.
#[derive(Clone, Copy)]
struct Figures {
    state: u32,
    value: i32,
    node: u32,
}

impl Figures {
    fn of(state: State) -> Figures
        ensures { result ≡ figures state }
    {
        let (state, value, node) = match state {
            State::Waiting => (1, 0, 0),
            State::Done(Found::Number(number)) => (2, number, 0),
            State::Done(Found::Truth(truth)) => (3, i32::from(truth), 0),
            State::Done(Found::Function { node }) => (4, 0, u32::from(node)),
            State::Range { node, .. } => (5, 0, u32::from(node)),
            State::NoStore { node } => (6, 0, u32::from(node)),
            State::NoStack { node } => (7, 0, u32::from(node)),
        };
        Figures { state, value, node }
    }
}

impl Told {
    /// What is told where no run is open.
    pub fn none() -> Told
        ensures { result ≡ no_run }
    {
        Told {
            count: 0,
            state: 0,
            value: 0,
            node: 0,
        }
    }

    /// What a run told.
    pub fn of(report: Report) -> Told
        ensures { result ≡ plain report }
    {
        let Figures { state, value, node } = Figures::of(report.state);
        Told {
            count: report.count,
            state,
            value,
            node,
        }
    }
}
