//! The table of operations.
ghost use Rattle.std.specs.Prelude.{◌≡◌, ◌+◌, ◌-◌, ◌<◌, ◌≤◌};
ghost use Rattle.machine.specs.Opens.{op_at, Topped};

use crate::operation::Operation;
use values::Value;

/// How many operations may be open.
pub const MOST_OPEN: usize = 256;

/// The operations that are open, the innermost last.
#[derive(Drop)]
pub struct Operations {
    pub ops: [Operation; MOST_OPEN],
    pub depth: usize,
    ghost low: { depth ≤ 256 },
}

impl Operations {
    pub fn new() -> Operations
        ensures { result.depth ≡ 0 }
    {
        Operations {
            ops: [Operation::SumLeft {
                node: 0,
                right: Value::Number(0),
            }; MOST_OPEN],
            depth: 0,
        }
    }

    /// Opens an operation.
    #[inline(always)]
    pub fn push(&mut self, op: Operation)
        requires { self.old.depth < 256 }
        ensures ops { Topped self.old.ops self.new.ops self.old.depth op }
        ensures depth { self.new.depth ≡ self.old.depth + 1 }
    {
        self.ops[self.depth] = op;
        self.depth += 1;
    }

    /// The innermost operation.
    #[inline(always)]
    pub fn top(&self) -> Operation
        requires { 0 < self.now.depth }
        ensures { result ≡ op_at self.now.ops (self.now.depth - 1) }
    {
        self.ops[self.depth - 1]
    }

    /// Closes the innermost operation.
    #[inline(always)]
    pub fn pop(&mut self)
        requires { 0 < self.old.depth }
        ensures ops { self.new.ops ≡ self.old.ops }
        ensures depth { self.new.depth + 1 ≡ self.old.depth }
    {
        self.depth -= 1;
    }

    /// Closes all operations.
    pub fn clear(&mut self)
        ensures { self.new.depth ≡ 0 }
    {
        self.depth = 0;
    }
}
