ghost use Rattle.std.specs.Prelude.{◌≡◌, ◌^◌, ◌*ℤ◌, pos};
ghost use Rattle.pt_ints.specs.Answer.{ranged};
ghost use Rattle.pt_ints.specs.Integers.{floor_quotient};

use crate::IntAns;
use crate::exact::product;

/// `a << count`
pub(crate) fn shift_left(a: i128, count: u128) -> IntAns
    ensures { result ≡ ranged (a *ℤ pos (2 ^ count)) }
{
    if a == 0 {
        IntAns::Value(0)
    } else if count < 127 {
        product(a, 1 << count)
    } else if count == 127 && a == -1 {
        IntAns::Value(i128::MIN)
    } else {
        IntAns::Range
    }
}

/// `a >> count`
pub(crate) fn shift_right(a: i128, count: u128) -> IntAns
    ensures { result ≡ ranged (floor_quotient a (pos (2 ^ count))) }
{
    IntAns::Value(a >> count.min(127))
}
