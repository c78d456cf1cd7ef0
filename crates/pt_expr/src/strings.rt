//! Strings and f-strings (Language Reference 2.4.2, 2.4.3).

ghost use Rattle.std.specs.Prelude.{◌≡◌, ◌≤◌, ◌<◌, ◌↔◌, ◌++◌, ◌∷◌, [], ℕ, Some, None, length, IsTrue};
ghost use Rattle.pt_wide.specs.Fold.{exp_of};
ghost use Rattle.pt_readers.specs.Reading.{next_of};
ghost use Rattle.pt_readers.specs.Settled.{Settled};
ghost use Rattle.pt_grammar.specs.Lexemes.{sign_at, line_at};
ghost use Rattle.pt_grammar.specs.Nodes.{Quoted as QuotedParts, quoted};
ghost use Rattle.pt_grammar.specs.Parts.{FitsPieces, an_atom, some_formatted, a_field};
ghost use Rattle.pt_grammar.specs.PieceViews.{piece_read};
ghost use Rattle.pt_grammar.specs.QuotedViews.{parts_read, quoted_read};
ghost use Rattle.pt_grammar.specs.Signs.{BeginsString, conversion_of as conversion_named};
ghost use Rattle.pt_grammar.specs.Texts.{IsLiteral, BeginsPiece, a_string, a_piece, a_conversion_name, a_conversion, a_spec};

use crate::Reader;
use pt_base::Line;
use pt_grammar::deep::Deep;
use pt_grammar::pieces::{DeepPiece, Pieces, Quotes, field, string, text};
use pt_grammar::{Layout, Mark, Sign};
use pt_lexer::TokenKind;
use pt_readers::Halt;
use pt_tree::Conversion;

/// How deep fields may stand in the specs of one another.
const FIELDS: u32 = 2;

/// The conversion of this name (Language Reference 2.4.3).
fn conversion_of(name: &str) -> Option<Conversion>
    ensures { result ≡ conversion_named name.now }
{
    if name == "r" {
        return Some(Conversion::Repr);
    }
    if name == "s" {
        return Some(Conversion::Str);
    }
    None
}

impl<'a> Reader<'a> {
    /// Whether a string or an f-string is next.
    fn begins_string(&self) -> bool
        ensures { IsTrue result ↔ BeginsString (next_of self.now.lexemes) }
    {
        match self.lexemes.sign() {
            Some(sign) => sign.same(Sign::Layout(Layout::FStart)),
            None => self.is_string(),
        }
    }

    /// Whether literal text of an f-string is next, where no sign is.
    fn is_literal(&self) -> bool
        requires { sign_at (next_of self.now.lexemes) ≡ None }
        ensures { IsTrue result ↔ IsLiteral (next_of self.now.lexemes) }
    {
        let Some(token) = self.lexemes.peek() else {
            return false;
        };
        match &token.kind {
            TokenKind::FText(_) => true,
            _ => false,
        }
    }

    /// Whether text is next, or a field where fields may still stand.
    fn begins_piece(&self, fields: u32) -> bool
        ensures { IsTrue result ↔ BeginsPiece fields (next_of self.now.lexemes) }
    {
        match self.lexemes.sign() {
            Some(sign) => fields > 0 && sign.same(Sign::Mark(Mark::OpenBrace)),
            None => self.is_literal(),
        }
    }

    /// A string that is next.
    fn plain_string(&mut self) -> Result<DeepPiece, Halt>
        requires none { sign_at (next_of self.old.lexemes) ≡ None }
        requires begins { BeginsString (next_of self.old.lexemes) }
        ensures { (d : ℕ) (q : QuotedParts) → FitsPieces d q.pieces
            → Settled (a_string (line_at (next_of self.old.lexemes)) d q) (λ p. quoted q.formatted (q.pieces ++ (piece_read p.piece ∷ []))) self.old.lexemes self.new.lexemes result }
    {
        let Some(token) = self.lexemes.peek() else {
            return Err(Halt::Unexpected);
        };
        match &token.kind {
            TokenKind::Str(found) => {
                self.lexemes.skip();
                Ok(text(self.alloc, token.line, found)?)
            }
            _ => Err(Halt::Unexpected),
        }
    }

    /// Literal text of an f-string, which is next.
    fn literal_text(&mut self) -> Result<DeepPiece, Halt>
        requires { IsLiteral (next_of self.old.lexemes) }
        ensures { (n d : ℕ) → Settled (a_piece n d) (λ p. piece_read p.piece) self.old.lexemes self.new.lexemes result }
    {
        let Some(token) = self.lexemes.peek() else {
            return Err(Halt::Unexpected);
        };
        match &token.kind {
            TokenKind::FText(found) => {
                self.lexemes.skip();
                Ok(text(self.alloc, token.line, found)?)
            }
            _ => Err(Halt::Unexpected),
        }
    }

    /// The name of a conversion behind `!`.
    fn conversion_name(&mut self) -> Result<Conversion, Halt>
        ensures value { Settled a_conversion_name (λ c. c) self.old.lexemes self.new.lexemes result }
        ensures not_longer { length self.new.lexemes ≤ length self.old.lexemes }
    {
        let Some(token) = self.lexemes.peek() else {
            return Err(Halt::Unexpected);
        };
        match &token.kind {
            TokenKind::Name(name) => {
                let Some(conversion) = conversion_of(name.as_str()) else {
                    return Err(Halt::Unexpected);
                };
                self.lexemes.skip();
                Ok(conversion)
            }
            _ => Err(Halt::Unexpected),
        }
    }

    /// `!` and the name of a conversion, if they are there.
    fn conversion(&mut self) -> Result<Option<Conversion>, Halt>
        ensures { Settled a_conversion (λ c. c) self.old.lexemes self.new.lexemes result }
    {
        if !self.lexemes.take(Sign::Mark(Mark::Exclamation)) {
            return Ok(None);
        }
        Ok(Some(self.conversion_name()?))
    }

    /// Strings one behind the other, the first of which is next.
    #[cycle(reading)]
    pub(crate) fn strings(&mut self, room: u32) -> Result<Deep, Halt>
        requires begins { BeginsString (next_of self.old.lexemes) }
        requires some { 0 < room }
        requires few { room ≤ 500 }
        ensures { Settled (an_atom room) (λ e. exp_of e.tree) self.old.lexemes self.new.lexemes result }
    {
        let line = self.lexemes.line();
        let mut quotes = self.string(Quotes::new(self.alloc), room - 1)?;
        'more: while self.begins_string() {
            quotes = self.string(quotes, room - 1)?;
        }
        Ok(string(self.alloc, line, quotes)?)
    }

    /// A string or an f-string, which is next, behind these.
    #[cycle(reading)]
    fn string(&mut self, quotes: Quotes, room: u32) -> Result<Quotes, Halt>
        requires begins { BeginsString (next_of self.old.lexemes) }
        requires few { room ≤ 500 }
        requires fits { FitsPieces room (parts_read quotes.pieces) }
        ensures { Settled (a_string (line_at (next_of self.old.lexemes)) room (quoted_read quotes)) quoted_read self.old.lexemes self.new.lexemes result }
    {
        let Quotes { formatted, pieces } = quotes;
        if !self.lexemes.take(Sign::Layout(Layout::FStart)) {
            let plain = self.plain_string()?;
            let pieces = pieces.with(plain)?;
            return Ok(Quotes { formatted, pieces });
        }
        let pieces = self.formatted(pieces, FIELDS, room)?;
        if !self.lexemes.take(Sign::Layout(Layout::FEnd)) {
            return Err(Halt::Unexpected);
        }
        Ok(Quotes {
            formatted: true,
            pieces,
        })
    }

    /// Text and fields behind these; fields may stand so deep in the specs of one another.
    #[cycle(reading)]
    fn formatted(&mut self, pieces: Pieces, fields: u32, room: u32) -> Result<Pieces, Halt>
        requires few { room ≤ 500 }
        requires fits { FitsPieces room (parts_read pieces) }
        ensures { Settled (some_formatted fields room (parts_read pieces)) parts_read self.old.lexemes self.new.lexemes result }
    {
        let mut pieces = pieces;
        'more: while self.begins_piece(fields) {
            let piece = self.piece(fields, room)?;
            pieces = pieces.with(piece)?;
        }
        if !self.lexemes.ends_formatted() {
            return Err(Halt::Unexpected);
        }
        Ok(pieces)
    }

    /// Text or a field, which is next.
    #[cycle(reading)]
    fn piece(&mut self, fields: u32, room: u32) -> Result<DeepPiece, Halt>
        requires begins { BeginsPiece fields (next_of self.old.lexemes) }
        requires few { room ≤ 500 }
        ensures { Settled (a_piece fields room) (λ p. piece_read p.piece) self.old.lexemes self.new.lexemes result }
    {
        if !self.lexemes.is(Sign::Mark(Mark::OpenBrace)) {
            return self.literal_text();
        }
        if room == 0 {
            return Err(Halt::Limit);
        }
        let line = self.lexemes.line();
        self.lexemes.skip();
        self.field(line, fields - 1, room)
    }

    /// A field behind its opening brace on this line, with the closing one.
    #[cycle(reading)]
    fn field(&mut self, line: Line, fields: u32, room: u32) -> Result<DeepPiece, Halt>
        requires some { 0 < room }
        requires few { room ≤ 500 }
        ensures { Settled (a_field fields line.0 room) (λ p. piece_read p.piece) self.old.lexemes self.new.lexemes result }
    {
        let value = self.value(room)?;
        let conversion = self.conversion()?;
        let spec = self.spec(fields, room)?;
        if !self.lexemes.take(Sign::Mark(Mark::CloseBrace)) {
            return Err(Halt::Unexpected);
        }
        Ok(field(self.alloc, line, value, conversion, spec)?)
    }

    /// `:` and a format, if they are there.
    #[cycle(reading)]
    fn spec(&mut self, fields: u32, room: u32) -> Result<Pieces, Halt>
        requires few { room ≤ 500 }
        ensures { Settled (a_spec fields room) parts_read self.old.lexemes self.new.lexemes result }
    {
        let pieces = Pieces::new(self.alloc);
        if self.lexemes.take(Sign::Mark(Mark::Colon)) {
            return self.formatted(pieces, fields, room);
        }
        if !self.lexemes.ends_formatted() {
            return Err(Halt::Unexpected);
        }
        Ok(pieces)
    }
}
