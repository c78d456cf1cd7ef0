use crate::{Lexeme, Mode, Part, Spot};
use pt_base::Line;

/// A kind of bracket.
#[derive(Clone, Copy, Debug, PartialEq, Eq)]
pub(crate) enum Bracket {
    Round,
    Square,
    Curly,
}

/// A bracket that is open, the line on which it stands, and the mode that goes on behind it.
#[derive(Clone, Copy, Debug, PartialEq, Eq)]
pub(crate) struct Opening {
    pub(crate) bracket: Bracket,
    pub(crate) line: Line,
    pub(crate) mode: Mode,
}

/// What stands at the front of a text.
#[derive(Debug, Drop)]
pub(crate) enum Reading<'a> {
    NoneFound,
    /// A word, and the text behind it.
    Found(Lexeme, &'a [Spot]),
    /// The text ends in this part of a string.
    Broken(Part),
}

/// How far in a line stands: with tabs that go on to the next multiple of eight, and with tabs
/// that are one wide (Language Reference 2.1.8).
#[derive(Clone, Copy, Debug, PartialEq, Eq)]
pub(crate) struct Column {
    pub(crate) wide: u64,
    pub(crate) narrow: u64,
}
