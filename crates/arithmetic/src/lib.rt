//! Arithmetic on the whole numbers of rules, which run from −2147483648 to 2147483647.
//!
//! Two numbers go in and their sum comes out, or that it leaves the range: what a rule's sum is worked out to. It is done
//! here alone, and knows nothing of rules, runs or stores.
#![tactic(auto)]

ghost use Rattle.std.specs.Prelude.{◌≡◌};
ghost use Rattle.calculus.specs.Range.{sum_of};
ghost use Rattle.arithmetic.specs.Sums.{as_result};

/// A result leaves the range of whole numbers.
#[derive(Clone, Copy, PartialEq, Eq, Debug)]
pub struct OutOfRange;

/// The sum of two numbers, where it is within the range.
#[inline]
pub fn sum(left: i32, right: i32) -> Result<i32, OutOfRange>
    ensures { result ≡ as_result (sum_of left right) }
{
    left.checked_add(right).ok_or(OutOfRange)
}

#[cfg(test)]
mod tests {
    use super::*;

    #[test]
    fn reaches_both_ends(rt: HostRuntime) {
        assert_eq!(rt; sum(2147483646, 1), Ok(2147483647));
        assert_eq!(rt; sum(2147483647, 1), Err(OutOfRange));
        assert_eq!(rt; sum(-2147483648, 0), Ok(-2147483648));
        assert_eq!(rt; sum(-2147483648, -1), Err(OutOfRange));
        assert_eq!(rt; sum(-2147483648, 2147483647), Ok(-1));
    }
}
