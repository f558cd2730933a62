//! What the commands of a call share: the machine they run on, and how they print.
use messages::paint::Paint;
use std::alloc::Global;

/// The machine, and how messages and answers are printed.
#[derive(Clone, Copy)]
pub(crate) struct Shell<'r> {
    pub(crate) rt: &'r HostRuntime,
    pub(crate) paint: Paint,
    /// Whether answers and refusals are objects of JSON, for tools.
    pub(crate) json: bool,
}

impl Shell<'_> {
    pub(crate) fn heap(&self) -> Global {
        self.rt.alloc()
    }
}

/// What a command prints.
#[derive(Drop)]
pub(crate) struct Answer {
    /// For standard output.
    pub(crate) out: String,
    /// For standard error: figures and warnings beside the answer, and what was refused beside what was not.
    pub(crate) beside: String,
    /// Whether a part of what was asked for was refused.
    pub(crate) refused: bool,
}

impl Answer {
    /// An answer with nothing beside it.
    pub(crate) fn plain(heap: Global, out: String) -> Answer {
        Answer {
            out,
            beside: String::new(heap),
            refused: false,
        }
    }
}
