use crate::{Delimiter, Part, Spot};
use pt_base::{Failure, Line, Text};

/// A token and where it stands: the place of its first byte, and the number of its physical line
/// (Language Reference 2.1).
#[derive(Debug, Drop)]
pub struct Token {
    pub kind: TokenKind,
    pub at: u32,
    pub line: Line,
}

/// What a token is (Language Reference 2.1 to 2.6). Keywords, operators and brackets are signs.
#[derive(Debug, Drop)]
pub enum TokenKind {
    /// An identifier, brought to NFKC.
    Name(Text),
    Int(i128),
    Str(Text),
    FStart,
    FText(Text),
    FEnd,
    Sign(Text),
    Newline,
    Indent,
    Dedent,
    End,
}

/// Why a text has no tokens.
#[derive(Clone, Copy, Debug, PartialEq, Eq)]
pub enum LexErr {
    /// The bytes from here on are no UTF-8 (Language Reference 2.1.4).
    NotUtf8 { at: u32 },
    /// A line stands less far in than the one before it, and no open block stands there
    /// (Language Reference 2.1.8).
    BadIndent { line: Line },
    /// How far a line stands in depends on what a tab is worth (Language Reference 2.1.8).
    MixedTabs { line: Line },
    /// No token begins with this character.
    BadChar { at: u32 },
    /// A string breaks off.
    OpenString { line: Line },
    /// Digits that are no number (Language Reference 2.4.4).
    BadNumber { at: u32 },
    /// A bracket is never closed, or never opened (Language Reference 2.1.6).
    OpenBracket { line: Line },
    /// What is left out of the language on purpose.
    Excluded { line: Line },
    /// Too many levels of indentation, too many open brackets, or too large a number.
    Limit { line: Line },
}

impl From<LexErr> for Failure<LexErr> {
    ghost use Rattle.std.specs.Prelude.{◌≡◌};
    ghost use Rattle.pt_base.specs.declared.failure.Failure.TheVariants as failure;

    ghost from_gives = { λ e f. f ≡ failure.Refused e };

    fn from(error: LexErr) -> Self {
        Failure::Refused(error)
    }
}

/// A word as it is read: a token, or the beginning of an f-string.
#[derive(Debug, Drop)]
pub enum Lexeme {
    Word(TokenKind),
    Start(Delimiter),
}

/// What begins at the front of a text, apart from names, keywords and operators.
#[derive(Debug, Drop)]
pub enum Begun<'a> {
    Nothing,
    /// A word, and the text behind it.
    Known(Lexeme, &'a [Spot]),
    /// A part of a string, from its first character on.
    Holds(Part, &'a [Spot]),
}
