//! What a call replies.
ghost use Rattle.std.specs.Prelude.{◌≡◌};
ghost use Rattle.firmware.specs.Replies.{code_of, done, misused, refused, replied, unnamed};

use crate::fault::CallFault;
use book::fault::NameFault;
use run::RunFault;
use trial::{Layer, TrialFault};

/// What a call replies: that it is done, or the number, the layer and the place of its refusal.
#[repr(C)]
#[derive(Clone, Copy, PartialEq, Eq, Debug)]
pub struct Reply {
    /// The refusal's number, and 0 where nothing was refused.
    pub refusal: u32,
    /// What refused: 1 the text, 2 the rule, 3 the run, 4 the call; 0 where nothing was refused.
    pub layer: u32,
    /// The refusal's place.
    pub place: usize,
    /// How many bytes, entries or cells the call answers with; 0 where it was refused.
    pub count: usize,
}

/// The number of a layer.
fn code(layer: Layer) -> u32
    ensures { result ≡ code_of layer }
{
    match layer {
        Layer::Text => 1,
        Layer::Rule => 2,
        Layer::Run => 3,
    }
}

impl Reply {
    /// The call is done, and answers with a count.
    pub fn done(count: usize) -> Reply
        ensures { result ≡ done count }
    {
        Reply {
            refusal: 0,
            layer: 0,
            place: 0,
            count,
        }
    }

    /// The library refused.
    pub fn refused(fault: TrialFault) -> Reply
        ensures { result ≡ refused fault }
    {
        Reply {
            refusal: u32::from(fault.number()),
            layer: code(fault.layer()),
            place: fault.place(),
            count: 0,
        }
    }

    /// A book refused a name.
    pub fn unnamed(fault: NameFault) -> Reply
        ensures { result ≡ unnamed }
    {
        Reply {
            refusal: u32::from(fault.number()),
            layer: code(Layer::Text),
            place: fault.place(),
            count: 0,
        }
    }

    /// The call does not fit.
    pub fn misused(fault: CallFault) -> Reply
        ensures { result ≡ misused fault }
    {
        Reply {
            refusal: u32::from(fault.number()),
            layer: 4,
            place: fault.place(),
            count: 0,
        }
    }

    /// What a run answered.
    pub(crate) fn of_run(answer: Result<(), RunFault>) -> Reply
        ensures { result ≡ replied answer }
    {
        match answer {
            Ok(()) => Reply::done(0),
            Err(fault) => Reply::refused(TrialFault::Run(fault)),
        }
    }
}
