ghost use Rattle.std.specs.Prelude.{◌≡◌, neg_ℤ, ◌+ℤ◌, ◌-ℤ◌, ◌*ℤ◌};
ghost use Rattle.pt_ints.specs.Answer.{ranged};

use crate::IntAns;

/// `a + b`
pub(crate) fn sum(a: i128, b: i128) -> IntAns
    ensures { result ≡ ranged (a +ℤ b) }
{
    match a.checked_add(b) {
        Some(sum) => IntAns::Value(sum),
        None => IntAns::Range,
    }
}

/// `a - b`
pub(crate) fn difference(a: i128, b: i128) -> IntAns
    ensures { result ≡ ranged (a -ℤ b) }
{
    match a.checked_sub(b) {
        Some(difference) => IntAns::Value(difference),
        None => IntAns::Range,
    }
}

/// `a * b`
pub(crate) fn product(a: i128, b: i128) -> IntAns
    ensures { result ≡ ranged (a *ℤ b) }
{
    match a.checked_mul(b) {
        Some(product) => IntAns::Value(product),
        None => IntAns::Range,
    }
}

/// `-a`
pub(crate) fn negation(a: i128) -> IntAns
    ensures { result ≡ ranged (neg_ℤ a) }
{
    match a.checked_neg() {
        Some(negation) => IntAns::Value(negation),
        None => IntAns::Range,
    }
}
