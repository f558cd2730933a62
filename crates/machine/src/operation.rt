//! The operations that are open.

use values::Value;

/// An operation one of whose operands is being worked out, with what waits for it.
///
/// Operands that wait are told by their places in the node table, and the environment they are to be met in by its
/// handle.
#[derive(Clone, Copy, PartialEq, Eq, Debug)]
pub enum Operation {
    /// The argument is being worked out, and the function waits.
    Argument {
        node: u16,
        function: u16,
        environment: u32,
    },
    /// The function is being worked out.
    Applied {
        node: u16,
        argument: Value,
    },
    /// What a let binds is being worked out.
    Bound {
        node: u16,
        body: u16,
        environment: u32,
    },
    SumRight {
        node: u16,
        left: u16,
        environment: u32,
    },
    SumLeft {
        node: u16,
        right: Value,
    },
    CompareRight {
        node: u16,
        left: u16,
        environment: u32,
    },
    CompareLeft {
        node: u16,
        right: Value,
    },
    Condition {
        node: u16,
        then: u16,
        otherwise: u16,
        environment: u32,
    },
}

// A machine has room for 256 of them.
const _: () = prove!(size_of::<Operation>() == 12);
