ghost use Rattle.std.specs.Prelude.{◌≡◌, ℕ, ◌<◌, ◌≤◌, ◌^◌, [], ◌∷◌, length, MatchResult};
ghost use Rattle.pt_lexer.specs.Lines.{behind_blank, column_of as column_at};
ghost use Rattle.pt_lexer.specs.Columns.{AreRising, Indented};
ghost use Rattle.pt_base.specs.Failures.{IfRefused};
ghost use Rattle.pt_lexer.specs.Faults.{IsMisplaced, margin};

use crate::{Column, LexErr, Spot, Token, TokenKind};
use pt_base::{Failure, Seq, Stack};
use pt_literals::is_blank_char;
use std::alloc::Global;

/// The column behind a blank.
fn behind(column: Column, c: char) -> Column
    requires wide { column.wide < 2 ^ 63 }
    requires narrow { column.narrow < 2 ^ 63 }
    ensures { result ≡ behind_blank column c }
{
    match c {
        ' ' => Column {
            wide: column.wide + 1,
            narrow: column.narrow + 1,
        },
        '\t' => Column {
            wide: (column.wide / 8 + 1) * 8,
            narrow: column.narrow + 1,
        },
        _ => column,
    }
}

/// The column of the line that begins here (Language Reference 2.1.8).
pub(crate) fn column_of(text: &[Spot]) -> Column
    requires { length text.now < 2 ^ 32 }
    ensures { result ≡ column_at text.now }
{
    let mut column = Column { wide: 0, narrow: 0 };
    for spot in text {
        if !is_blank_char(spot.char) {
            return column;
        }
        column = behind(column, spot.char);
    }
    column
}

/// The columns of the blocks that are open: the innermost, and the others (Language Reference
/// 2.1.8). The outermost is the left margin.
#[derive(Drop)]
pub(crate) struct Columns {
    pub(crate) inner: Column,
    pub(crate) outer: Stack<Column>,
}

impl Columns {
    /// The left margin alone.
    pub(crate) fn new(alloc: Global) -> Columns
        ensures { (result.inner ∷ result.outer) ≡ margin }
    {
        Columns {
            inner: Column { wide: 0, narrow: 0 },
            outer: Stack::new(alloc),
        }
    }

    /// Opens a block of this column.
    fn open(
        &mut self,
        column: Column,
        spot: Spot,
        tokens: &mut Seq<Token>,
    ) -> Result<(), Failure<LexErr>>
        requires deeper { self.old.inner.wide < column.wide }
        requires rising { AreRising (self.old.inner ∷ self.old.outer) }
        ensures { MatchResult result
            (λ _. Indented (self.old.inner ∷ self.old.outer) (self.new.inner ∷ self.new.outer) column spot.at spot.line tokens.old tokens.new)
            (IfRefused (IsMisplaced (self.old.inner ∷ self.old.outer) column spot.line)) }
    {
        let line = spot.line;
        if column.narrow <= self.inner.narrow {
            return Err(Failure::Refused(LexErr::MixedTabs { line }));
        }
        self.outer.push(self.inner)?;
        self.inner = column;
        tokens.push(Token {
            kind: TokenKind::Indent,
            at: spot.at,
            line,
        })?;
        Ok(())
    }

    /// Closes the blocks that stand further in than this column.
    fn close(
        &mut self,
        column: Column,
        spot: Spot,
        tokens: &mut Seq<Token>,
    ) -> Result<(), Failure<LexErr>>
        requires level { column.wide ≤ self.old.inner.wide }
        requires rising { AreRising (self.old.inner ∷ self.old.outer) }
        ensures { MatchResult result
            (λ _. Indented (self.old.inner ∷ self.old.outer) (self.new.inner ∷ self.new.outer) column spot.at spot.line tokens.old tokens.new)
            (IfRefused (IsMisplaced (self.old.inner ∷ self.old.outer) column spot.line)) }
    {
        let line = spot.line;
        while column.wide < self.inner.wide {
            let Some(outer) = self.outer.pop() else {
                return Err(Failure::Refused(LexErr::BadIndent { line }));
            };
            self.inner = outer;
            tokens.push(Token {
                kind: TokenKind::Dedent,
                at: spot.at,
                line,
            })?;
        }
        if column.wide != self.inner.wide {
            return Err(Failure::Refused(LexErr::BadIndent { line }));
        }
        if column.narrow != self.inner.narrow {
            return Err(Failure::Refused(LexErr::MixedTabs { line }));
        }
        Ok(())
    }

    /// Opens or closes blocks before a line of this column, whose first token stands at the spot.
    pub(crate) fn turn(
        &mut self,
        column: Column,
        spot: Spot,
        tokens: &mut Seq<Token>,
    ) -> Result<(), Failure<LexErr>>
        requires { AreRising (self.old.inner ∷ self.old.outer) }
        ensures { MatchResult result
            (λ _. Indented (self.old.inner ∷ self.old.outer) (self.new.inner ∷ self.new.outer) column spot.at spot.line tokens.old tokens.new)
            (IfRefused (IsMisplaced (self.old.inner ∷ self.old.outer) column spot.line)) }
    {
        if self.inner.wide < column.wide {
            return self.open(column, spot, tokens);
        }
        self.close(column, spot, tokens)
    }
}
