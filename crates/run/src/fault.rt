//! What a run refuses, and the number of each refusal.
ghost use Rattle.std.specs.Prelude.{◌≡◌};
ghost use Rattle.run.specs.Faults.{number_of};

/// Why a run refuses a call. A call that is refused changes nothing.
#[derive(Clone, Copy, Debug, PartialEq, Eq)]
pub enum RunFault {
    /// The readings are not as many as the rule's.
    WrongCount { wanted: usize, given: usize },
    /// The run does not wait for steps.
    NotWaiting,
    /// The steps are not from 1 to the most that may still be granted.
    WrongSteps { most: u32 },
}

impl RunFault {
    /// The number of a refusal: 20, 21 or 22.
    pub fn number(self) -> u8
        ensures { result ≡ number_of self }
    {
        match self {
            RunFault::WrongCount { .. } => 20,
            RunFault::NotWaiting => 21,
            RunFault::WrongSteps { .. } => 22,
        }
    }

    /// The place of a refusal. A run's refusals have no place of their own, and tell 0.
    pub fn place(self) -> usize
        ensures { result ≡ 0 }
    {
        0
    }
}
