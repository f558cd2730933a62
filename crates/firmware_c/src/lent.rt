//! What C lends memory for, and what is replied where it lends nothing.
ghost use Rattle.std.specs.Prelude.{◌≡◌};
ghost use Rattle.firmware_c.specs.Lent.{done_reply, null_told, null_reply};

use firmware::{CallFault, Reply, RunPlace, Told};
use linked::linked::LinkedStore;
use values::Value;

/// A run place over lent cells, which it keeps for good.
pub(crate) type RunOverCells = RunPlace<LinkedStore<'static, Value>>;

/// The reply where a pointer is null.
pub(crate) fn refused_null() -> Reply
    ensures { result ≡ null_reply }
{
    Reply::misused(CallFault::NullPointer)
}

/// The reply of a call that answers no count.
pub(crate) fn done() -> Reply
    ensures { result ≡ done_reply }
{
    Reply::done(0)
}

/// What is told where the pointer to the run place is null.
pub(crate) fn told_null() -> Told
    ensures { result ≡ null_told }
{
    Told::none()
}
