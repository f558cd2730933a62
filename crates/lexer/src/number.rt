//! What the digits of a number token come to.
ghost use Rattle.std.specs.Prelude.{◌≡◌, min};
ghost use Rattle.grammar.specs.Spelling.{decimal};
ghost use Rattle.lexer.specs.Amounts.{Amount};
ghost use Rattle.lexer.specs.Shown.{value};

/// What digits come to, but no more than a `u32` holds, which is out of range with either sign: there may be thousands
/// of them.
// `amount` is public and promises a value of bytes that are no digits too, so a fold would stand beside `parse`.
fn magnitude(digits: &[u8]) -> u32
    ensures { result ≡ min (decimal 0 digits.now) 4294967295 }
{
    digits.iter().fold(0, |sum: u32, digit| {
        sum.saturating_mul(10)
            .saturating_add(u32::from(digit.saturating_sub(b'0')))
    })
}

/// The number that a number token spells, if it is in range.
pub fn amount(spelled: &[u8]) -> Option<i32>
    ensures { Amount (value spelled.now) result }
{
    let number = match spelled {
        [b'-', digits @ ..] => -i64::from(magnitude(digits)),
        digits => i64::from(magnitude(digits)),
    };
    i32::try_from(number).ok()
}
