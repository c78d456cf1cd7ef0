ghost use Rattle.std.specs.Prelude.{◌≡◌};
ghost use Rattle.pt_front.specs.Refusals.{number_of, place_of, of_lexer, of_syntax, of_scopes};

use crate::SyntaxErr;
use pt_base::{Line, Text};
use pt_lexer::LexErr;
use pt_scopes::ScopeErr;

/// Why a text is no script, in the order of the numbers 1 to 17.
#[derive(Debug, Drop)]
pub enum Refusal {
    /// The bytes from here on are no UTF-8 (Language Reference 2.1.4).
    NotUtf8 { at: u32 },
    /// A line stands less far in than the one before it, and no open block stands there
    /// (Language Reference 2.1.8).
    BadIndent { line: Line },
    /// How far a line stands in depends on what a tab is worth (Language Reference 2.1.8).
    MixedTabs { line: Line },
    /// No token begins with this character.
    BadChar { at: u32 },
    /// A string breaks off.
    OpenString { line: Line },
    /// Digits that are no number (Language Reference 2.4.4).
    BadNumber { at: u32 },
    /// A bracket is never closed, or never opened (Language Reference 2.1.6).
    OpenBracket { line: Line },
    /// A token that is left out of the language.
    ExcludedToken { line: Line },
    /// Too many levels of indentation, too many open brackets, or too large a number.
    TokenLimit { line: Line },
    /// With the token at this byte place no script goes on, or the tokens end too early.
    Unexpected { at: u32 },
    /// What stands in a target's place can't stand there (Language Reference 7.2).
    BadTarget { line: Line },
    /// A form that is left out of the language.
    ExcludedForm { line: Line },
    /// With the token on this line a script goes on beyond the limits alone.
    TreeLimit { line: Line },
    /// `nonlocal` of a name that no function around the block binds (Language Reference 7.13).
    NoBinding { name: Text, line: Line },
    /// Two parameters of one name, or a declaration beside a parameter or the other declaration.
    Twice { name: Text, line: Line },
    /// A declaration of a name that the block has used already (Language Reference 7.12).
    LateDecl { name: Text, line: Line },
    /// `return`, `yield`, `break` or `continue` outside its place.
    Outside { line: Line },
}

impl Refusal {
    pub fn number(&self) -> u8
        ensures { result ≡ number_of self.now }
    {
        match self {
            Refusal::NotUtf8 { .. } => 1,
            Refusal::BadIndent { .. } => 2,
            Refusal::MixedTabs { .. } => 3,
            Refusal::BadChar { .. } => 4,
            Refusal::OpenString { .. } => 5,
            Refusal::BadNumber { .. } => 6,
            Refusal::OpenBracket { .. } => 7,
            Refusal::ExcludedToken { .. } => 8,
            Refusal::TokenLimit { .. } => 9,
            Refusal::Unexpected { .. } => 10,
            Refusal::BadTarget { .. } => 11,
            Refusal::ExcludedForm { .. } => 12,
            Refusal::TreeLimit { .. } => 13,
            Refusal::NoBinding { .. } => 14,
            Refusal::Twice { .. } => 15,
            Refusal::LateDecl { .. } => 16,
            Refusal::Outside { .. } => 17,
        }
    }

    /// The byte place or the line that is told.
    pub fn place(&self) -> u32
        ensures { result ≡ place_of self.now }
    {
        match self {
            Refusal::NotUtf8 { at }
            | Refusal::BadChar { at }
            | Refusal::BadNumber { at }
            | Refusal::Unexpected { at } => *at,
            Refusal::BadIndent { line }
            | Refusal::MixedTabs { line }
            | Refusal::OpenString { line }
            | Refusal::OpenBracket { line }
            | Refusal::ExcludedToken { line }
            | Refusal::TokenLimit { line }
            | Refusal::BadTarget { line }
            | Refusal::ExcludedForm { line }
            | Refusal::TreeLimit { line }
            | Refusal::NoBinding { line, .. }
            | Refusal::Twice { line, .. }
            | Refusal::LateDecl { line, .. }
            | Refusal::Outside { line } => line.0,
        }
    }
}

impl From<LexErr> for Refusal {
    ghost from_gives = { λ e r. r ≡ of_lexer e };

    fn from(error: LexErr) -> Self {
        match error {
            LexErr::NotUtf8 { at } => Refusal::NotUtf8 { at },
            LexErr::BadIndent { line } => Refusal::BadIndent { line },
            LexErr::MixedTabs { line } => Refusal::MixedTabs { line },
            LexErr::BadChar { at } => Refusal::BadChar { at },
            LexErr::OpenString { line } => Refusal::OpenString { line },
            LexErr::BadNumber { at } => Refusal::BadNumber { at },
            LexErr::OpenBracket { line } => Refusal::OpenBracket { line },
            LexErr::Excluded { line } => Refusal::ExcludedToken { line },
            LexErr::Limit { line } => Refusal::TokenLimit { line },
        }
    }
}

impl From<SyntaxErr> for Refusal {
    ghost from_gives = { λ e r. r ≡ of_syntax e };

    fn from(error: SyntaxErr) -> Self {
        match error {
            SyntaxErr::Unexpected { at } => Refusal::Unexpected { at },
            SyntaxErr::BadTarget { line } => Refusal::BadTarget { line },
            SyntaxErr::Excluded { line } => Refusal::ExcludedForm { line },
            SyntaxErr::Limit { line } => Refusal::TreeLimit { line },
        }
    }
}

impl From<ScopeErr> for Refusal {
    ghost from_gives = { λ e r. r ≡ of_scopes e };

    fn from(error: ScopeErr) -> Self {
        match error {
            ScopeErr::NoBinding { name, line } => Refusal::NoBinding { name, line },
            ScopeErr::Twice { name, line } => Refusal::Twice { name, line },
            ScopeErr::LateDecl { name, line } => Refusal::LateDecl { name, line },
            ScopeErr::Outside { line } => Refusal::Outside { line },
        }
    }
}
