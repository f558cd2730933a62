//! What a run goes on with.
use crate::steps::State;
use values::Value;

/// A node that is to be met, in the environment of a handle.
// A struct of its own, so that within `Next` the handle lies where a value has its number or its handle: else each
// of the two is taken apart whenever one may be the other.
#[derive(Clone, Copy)]
pub struct Met {
    pub place: u16,
    pub environment: u32,
}

/// What a run goes on with.
#[derive(Clone, Copy)]
pub enum Next {
    /// A value that was found.
    Value(Value),
    Node(Met),
}

/// What comes of a node that was met, or of a value that was found.
#[derive(Clone, Copy)]
pub enum Gone {
    /// No reduction yet, and this is next.
    Nearer(Next),
    /// A reduction, and this is next.
    On(Next),
    /// The innermost operation is ready to be reduced with this value, and no step is left.
    Waits(Value),
    /// No reduction: the run is in this state.
    Ended(State),
}
