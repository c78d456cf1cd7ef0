ghost use Rattle.std.specs.Prelude.{◌≡◌};
ghost use Rattle.pt_ints.specs.Answer.{divided};
ghost use Rattle.pt_ints.specs.Integers.{floor_quotient, floor_remainder};

use crate::IntAns;
use crate::exact::negation;

/// `a // b`
pub(crate) fn floor_division(a: i128, b: i128) -> IntAns
    ensures { result ≡ divided b (floor_quotient a b) }
{
    if b == 0 {
        return IntAns::ZeroDivide;
    }
    if b == -1 {
        return negation(a);
    }
    let quotient = a.div_euclid(b);
    if b < 0 && a.rem_euclid(b) != 0 {
        IntAns::Value(quotient - 1)
    } else {
        IntAns::Value(quotient)
    }
}

/// `a % b`
pub(crate) fn modulo(a: i128, b: i128) -> IntAns
    ensures { result ≡ divided b (floor_remainder a b) }
{
    if b == 0 {
        return IntAns::ZeroDivide;
    }
    if b == -1 {
        return IntAns::Value(0);
    }
    let rest = a.rem_euclid(b);
    if b < 0 && rest != 0 {
        IntAns::Value(rest + b)
    } else {
        IntAns::Value(rest)
    }
}
