/// A part of the grammar that is read by itself.
#[derive(Clone, Copy, Debug, PartialEq, Eq)]
pub enum Part {
    /// An expression.
    Whole,
    /// What may stand in a target's place.
    Target,
}
