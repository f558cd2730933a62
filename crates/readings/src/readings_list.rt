//! The readings of a rule: at most eight numbers, held by value.
ghost use Rattle.std.specs.Prelude.{◌≤◌};

use syntax::limits::MOST_READINGS;

/// Readings, the first for reading 0.
// Readings are publicly Copy, which they may not lose, and a vector of fixed capacity is not.
#[derive(Clone, Copy)]
pub struct Readings {
    numbers: [i32; MOST_READINGS],
    count: usize,
    ghost few: { count ≤ 8 },
}

impl Readings {
    ghost use Rattle.std.specs.Prelude.{◌≡◌, min, take, replicate, pos, length};
    ghost use Rattle.readings.specs.Behind.{numbers_of, Picked};

    /// These numbers; of more than eight the first eight.
    pub fn new(numbers: &[i32]) -> Readings
        ensures { numbers_of result ≡ take 8 numbers.now }
    {
        let count = numbers.len().min(MOST_READINGS);
        let mut held = [0; MOST_READINGS];
        held[..count].copy_from_slice(&numbers[..count]);
        Readings {
            numbers: held,
            count,
        }
    }

    /// So many readings, all 0; never more than eight.
    pub fn zeros(count: usize) -> Readings
        ensures { numbers_of result ≡ replicate (min 8 count) (pos 0) }
    {
        Readings {
            numbers: [0; MOST_READINGS],
            count: count.min(MOST_READINGS),
        }
    }

    /// How many there are.
    #[inline]
    pub(crate) fn len(&self) -> usize
        ensures { result ≡ length (numbers_of self.now) }
    {
        self.count
    }

    /// The number at a place, where there is one.
    #[inline]
    pub(crate) fn get(&self, place: usize) -> Option<i32>
        ensures { Picked (numbers_of self.now) place result }
    {
        self.numbers[..self.len()].get(place).copied()
    }
}
