//! Calls of a run, with what it replies.
ghost use Rattle.std.specs.Prelude.{◌≡◌};

use run::{Report, RunFault};

/// A call of a run.
#[derive(Clone, Copy)]
pub enum Call<'a> {
    Grant(u32),
    Ask,
    Rewind(&'a [i32]),
}

/// What a run replies to a call.
#[derive(Clone, Copy, PartialEq, Eq, Debug)]
pub enum Reply {
    /// The call was allowed, and is done.
    Done,
    /// What ask tells.
    Told(Report),
    /// The call was refused, and changed nothing.
    Refused(RunFault),
}

/// A call with its reply.
#[derive(Clone, Copy)]
pub struct Turn<'a> {
    pub call: Call<'a>,
    pub reply: Reply,
}

impl<'a> Turn<'a> {
    /// A call that is still to be made.
    pub fn new(call: Call<'a>) -> Turn<'a>
        ensures { result.call ≡ call.entry }
    {
        Turn {
            call,
            reply: Reply::Done,
        }
    }
}
