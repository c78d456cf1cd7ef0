/// What an operator answers at integers.
#[derive(Clone, Copy, Debug, PartialEq, Eq)]
pub enum IntAns {
    /// The exact result.
    Value(i128),
    /// A division by zero.
    ZeroDivide,
    /// A shift by a negative count.
    NegativeShift,
    /// The result would be a floating point number.
    Float,
    /// The exact result is no `i128`.
    Range,
}
