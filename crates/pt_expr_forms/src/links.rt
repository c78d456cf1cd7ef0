use pt_assembler::Label;

/// Where a chain of comparisons goes on from one of its links (Language Reference 6.10): behind what it
/// leaves on the stack, and where that is dropped.
#[derive(Clone, Copy, Debug, PartialEq, Eq)]
pub struct LinkEnds {
    pub end: Label,
    pub dropping: Label,
}
