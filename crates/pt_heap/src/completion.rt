use crate::Value;
use pt_base::Pc;

/// How a part of a block is left (Language Reference 7.6, 7.8 to 7.10).
#[derive(Clone, Copy, Debug, PartialEq, Eq)]
pub enum Completion {
    Normal,
    Raise(Value),
    Return(Value),
    /// By `break` or `continue`, for this place.
    Leave { target: Pc },
}
