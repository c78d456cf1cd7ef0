ghost use Rattle.std.specs.Prelude.{◌≡◌};
ghost use Rattle.pt_ints.specs.Answer.{ranged};
ghost use Rattle.pt_ints.specs.Integers.{inverted, common_bits, joined_bits, differing_bits};

use crate::IntAns;

/// `a & b`
pub(crate) fn common(a: i128, b: i128) -> IntAns
    ensures { result ≡ ranged (common_bits a b) }
{
    IntAns::Value(a & b)
}

/// `a | b`
pub(crate) fn joined(a: i128, b: i128) -> IntAns
    ensures { result ≡ ranged (joined_bits a b) }
{
    IntAns::Value(a | b)
}

/// `a ^ b`
pub(crate) fn differing(a: i128, b: i128) -> IntAns
    ensures { result ≡ ranged (differing_bits a b) }
{
    IntAns::Value(a ^ b)
}

/// `~a`
pub(crate) fn inversion(a: i128) -> IntAns
    ensures { result ≡ ranged (inverted a) }
{
    IntAns::Value(!a)
}
