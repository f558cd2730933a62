//! Run values: what a rule, and each part of it, is worked out to.
//!
//! In comes nothing, out goes one small type that stores keep, machines work with and reports tell. It stands alone, so
//! that stores, the layer of readings and the machine can change apart.
#![tactic(auto)]

ghost use Rattle.std.specs.Prelude.{pos};
ghost use Rattle.values.specs.declared.Value.TheVariants.{Number};

use store::blank::Blank;

/// A run value.
#[derive(Clone, Copy, PartialEq, Eq, Debug)]
pub enum Value {
    Number(i32),
    Truth(bool),
    /// A function node, with the handle of the environment that it was met in.
    Function { node: u16, environment: u32 },
}

impl Blank for Value {
    ghost unwritten = { Number (pos 0) };

    fn blank() -> Value {
        Value::Number(0)
    }
}
