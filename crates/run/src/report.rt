//! What ask tells.
ghost use Rattle.std.specs.Prelude.{◌≡◌};
ghost use Rattle.machine.specs.declared.steps.State.{State as MachineState};
ghost use Rattle.run.specs.Told.{told};

use arithmetic::OutOfRange;
use machine::steps;
use values::Value;

/// A value, as far as a run tells it: of a function only its node.
#[derive(Clone, Copy, Debug, PartialEq, Eq)]
pub enum Found {
    Number(i32),
    Truth(bool),
    Function { node: u16 },
}

/// The state of a run.
#[derive(Clone, Copy, Debug, PartialEq, Eq)]
pub enum State {
    /// A step is next, and none is granted.
    Waiting,
    /// The rule is worked out.
    Done(Found),
    /// The sum at this node is next, and leaves the number range.
    Range { node: u16, beyond: OutOfRange },
    /// The environment that is made at this node costs more than is free.
    NoStore { node: u16 },
    /// The operation at this node would be the 257th to be open.
    NoStack { node: u16 },
}

/// The count of a run's steps, and its state.
#[derive(Clone, Copy, Debug, PartialEq, Eq)]
pub struct Report {
    pub count: u32,
    pub state: State,
}

impl State {
    /// What is told of the state of a machine.
    pub(crate) fn of(state: steps::State) -> State
        ensures { result ≡ told state }
    {
        match state {
            steps::State::Waiting => State::Waiting,
            steps::State::Done(Value::Number(number)) => State::Done(Found::Number(number)),
            steps::State::Done(Value::Truth(truth)) => State::Done(Found::Truth(truth)),
            steps::State::Done(Value::Function { node, .. }) => State::Done(Found::Function {
                node: u16::from(node),
            }),
            steps::State::Range { node, beyond } => State::Range { node, beyond },
            steps::State::NoStore(node) => State::NoStore { node },
            steps::State::NoStack(node) => State::NoStack { node },
        }
    }
}
