ghost use Rattle.std.specs.Prelude.{◌≡◌};
ghost use Rattle.pt_ints.specs.Answer.{ranged};
ghost use Rattle.pt_ints.specs.Integers.{power};

use crate::IntAns;

/// From this exponent on, the powers of all numbers but -1, 0 and 1 are out of range.
const LARGE_EXPONENT: u128 = 128;

fn small_power(base: i128, exponent: u32) -> IntAns
    ensures { result ≡ ranged (power base exponent) }
{
    match base.checked_pow(exponent) {
        Some(power) => IntAns::Value(power),
        None => IntAns::Range,
    }
}

/// `base ** exponent`, by repeated squaring.
pub(crate) fn raise(base: i128, exponent: u128) -> IntAns
    ensures { result ≡ ranged (power base exponent) }
{
    if exponent < LARGE_EXPONENT {
        small_power(base, exponent as u32)
    } else if base == 0 {
        IntAns::Value(0)
    } else if base == 1 {
        IntAns::Value(1)
    } else if base == -1 {
        IntAns::Value(if exponent % 2 == 0 { 1 } else { -1 })
    } else {
        IntAns::Range
    }
}
