//! What a message says: what is wrong, why it is refused, and what to write instead.
ghost use Rattle.std.specs.Prelude.{◌≡◌};

use std::borrow::CowStr;

/// The title is a constant, which may be kept longer than the message.
#[derive(Drop)]
pub struct Reason {
    pub title: &'static str,
    pub why: CowStr<'static>,
    pub help: CowStr<'static>,
}

impl Reason {
    /// A reason of parts that are known beforehand or were written for the case.
    pub fn new<W: Into<CowStr<'static>>, H: Into<CowStr<'static>>>(
        title: &'static str,
        why: W,
        help: H,
    ) -> Reason
        ensures title { result.title.now ≡ title.now }
        ensures why { W.converts why result.why }
        ensures help { H.converts help result.help }
    {
        Reason {
            title,
            why: why.into(),
            help: help.into(),
        }
    }
}
