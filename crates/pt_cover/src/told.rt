/// What a piece of the log tells: an event of a run that is counted, or anything else.
#[derive(Clone, Copy, Debug, PartialEq, Eq)]
pub enum Told {
    /// A block starts, or a generator goes on.
    Call,
    /// A line begins.
    Line,
    /// A block is left, or a generator gives a value on.
    Return,
    Other,
}
