ghost use Rattle.std.specs.Prelude.{◌≡◌};
ghost use Rattle.pt_ints.specs.Answer.{binary_answer, unary_answer};
ghost use Rattle.pt_ints.specs.Law.{IsAnswer, IsUnaryAnswer};

use crate::IntAns;
use crate::bits::{common, differing, inversion, joined};
use crate::division::{floor_division, modulo};
use crate::exact::{difference, negation, product, sum};
use crate::power::raise;
use crate::shift::{shift_left, shift_right};
use pt_base::{BinOp, UnOp};

/// `a OP b` (Language Reference 6.5 and 6.7 to 6.9). A quotient and a negative power are floating
/// point numbers there.
pub fn binary(op: BinOp, a: i128, b: i128) -> IntAns
    ensures value { result ≡ binary_answer op a b }
    ensures law { IsAnswer op a b result }
{
    match op {
        BinOp::Add => sum(a, b),
        BinOp::Sub => difference(a, b),
        BinOp::Mul => product(a, b),
        BinOp::Div => IntAns::Float,
        BinOp::FloorDiv => floor_division(a, b),
        BinOp::Mod => modulo(a, b),
        BinOp::Pow if b < 0 => IntAns::Float,
        BinOp::Pow => raise(a, b as u128),
        BinOp::BitAnd => common(a, b),
        BinOp::BitOr => joined(a, b),
        BinOp::BitXor => differing(a, b),
        BinOp::LeftShift | BinOp::RightShift if b < 0 => IntAns::NegativeShift,
        BinOp::LeftShift => shift_left(a, b as u128),
        BinOp::RightShift => shift_right(a, b as u128),
    }
}

/// `OP a` (Language Reference 6.6).
pub fn unary(op: UnOp, a: i128) -> IntAns
    ensures value { result ≡ unary_answer op a }
    ensures law { IsUnaryAnswer op a result }
{
    match op {
        UnOp::Plus => IntAns::Value(a),
        UnOp::Minus => negation(a),
        UnOp::Invert => inversion(a),
    }
}

#[cfg(test)]
mod tests;
