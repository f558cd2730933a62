//! The readings of the calls: the same for every language that runs a work.

/// So many calls have readings of their own, and then it begins anew.
pub(crate) const SETS: usize = 64;

/// The readings of a call: numbers of -100 to 399, the hours 0 to 9.
pub(crate) type Set = [i32; 8];

/// The readings of all calls.
pub(crate) fn sets() -> [Set; SETS] {
    let mut sets = [[0; 8]; SETS];
    let mut seed = 1;
    for set in &mut sets {
        for (place, reading) in set.iter_mut().enumerate() {
            seed = next(seed);
            *reading = reading_of(seed, place);
        }
    }
    sets
}

/// The number behind another.
fn next(seed: u16) -> u16 {
    seed.wrapping_mul(1103).wrapping_add(12_345)
}

/// The reading at a place that a number stands for.
fn reading_of(seed: u16, place: usize) -> i32 {
    if place == 4 {
        i32::from(seed % 10)
    } else {
        i32::from(seed % 500) - 100
    }
}
