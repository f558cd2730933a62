//! What a store refuses, and the number of each refusal.
ghost use Rattle.std.specs.Prelude.{◌≡◌};
ghost use Rattle.store.specs.Faults.{number_of};

/// Why a store refuses a call.
#[derive(Clone, Copy, PartialEq, Eq, Debug)]
pub enum StoreFault {
    /// The handle has no list.
    NoList,
    /// The list's cost is above the free room.
    NoRoom,
    /// The index is not below the length of the handle's list.
    ///
    /// The length goes along, so that whoever lays a further list behind this one knows where
    /// it begins without asking again.
    Beyond { length: u32 },
}

impl StoreFault {
    /// The number of a refusal: 31, 32 or 33.
    pub fn number(self) -> u8
        ensures { result ≡ number_of self }
    {
        match self {
            StoreFault::NoList => 31,
            StoreFault::NoRoom => 32,
            StoreFault::Beyond { .. } => 33,
        }
    }
}
