//! What C can get wrong in a call, beside what the library refuses.
ghost use Rattle.std.specs.Prelude.{◌≡◌};
ghost use Rattle.firmware.specs.Replies.{number_of};

/// A call that does not fit: it is refused before anything is asked of the library, and changes nothing.
#[derive(Clone, Copy, PartialEq, Eq, Debug)]
pub enum CallFault {
    /// A pointer is null.
    NullPointer,
    /// No run is open in the run place.
    Closed,
    /// A run is open in the run place.
    Open,
}

impl CallFault {
    /// The refusal's number.
    pub fn number(self) -> u8
        ensures { result ≡ number_of self }
    {
        match self {
            CallFault::NullPointer => 41,
            CallFault::Closed => 42,
            CallFault::Open => 43,
        }
    }

    /// Its place, 0: a call has no text around it.
    pub fn place(self) -> usize
        ensures { result ≡ 0 }
    {
        0
    }
}
