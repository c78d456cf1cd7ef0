ghost use Rattle.std.specs.Prelude.{◌≡◌, true, ◌≤◌, [], ◌∷◌, List, length, MatchOption};
ghost use Rattle.pt_literals.specs.declared.source.Spot.{Spot as Char};
ghost use Rattle.pt_literals.specs.Source.{ends_line};
ghost use Rattle.pt_literals.specs.Source.{is_blank};
ghost use Rattle.pt_lexer.specs.Lines.{LineEnd, Stops, Comment, Piece, nest, has_words, Gap, NoPiece};

use crate::{Mode, Opening, Spot, TextEnd};
use pt_base::Stack;
use pt_literals::{ends_line_char, first_spot, is_blank_char};

/// What stands behind the line end at the front: LF, CR LF or CR (Language Reference 2.1.2).
fn line_end(text: &[Spot]) -> Option<&[Spot]>
    ensures { MatchOption result ((rest : List Char) → LineEnd text.now rest → ⊥) (λ rest. LineEnd text.now rest.now) }
{
    let (spot, rest) = first_spot(text)?;
    if spot.char == '\n' {
        return Some(rest);
    }
    if spot.char != '\r' {
        return None;
    }
    let Some((next, behind)) = first_spot(rest) else {
        return Some(rest);
    };
    if next.char == '\n' {
        return Some(behind);
    }
    Some(rest)
}

/// What stands behind the end of a line or of the text (Language Reference 2.1.1).
pub(crate) fn behind_stop(end: TextEnd, text: &[Spot]) -> Option<&[Spot]>
    ensures { MatchOption result ((rest : List Char) → Stops end text.now rest → ⊥) (λ rest. Stops end text.now rest.now) }
{
    if !text.is_empty() {
        return line_end(text);
    }
    if end.is_whole {
        return Some(text);
    }
    None
}

/// The end of the comment's line (Language Reference 2.1.3).
fn behind_comment(text: &[Spot]) -> &[Spot]
    ensures { Comment text.now result.now }
{
    let mut rest = text;
    while let Some((spot, behind)) = first_spot(rest) {
        if ends_line_char(spot.char) {
            return rest;
        }
        rest = behind;
    }
    rest
}

/// What stands behind one piece of a gap: a blank, a comment, or a join of two lines by a
/// backslash or inside brackets (Language Reference 2.1.3 to 2.1.6, 2.1.9).
fn behind_piece<'a>(end: TextEnd, opened: &Stack<Opening>, text: &'a [Spot]) -> Option<&'a [Spot]>
    ensures { MatchOption result ((rest : List Char) → Piece end opened.now text.now rest → ⊥) (λ rest. Piece end opened.now text.now rest.now) }
{
    let (spot, rest) = first_spot(text)?;
    if is_blank_char(spot.char) {
        return Some(rest);
    }
    if spot.char == '#' {
        return Some(behind_comment(rest));
    }
    if spot.char == '\\' {
        return behind_stop(end, rest);
    }
    if opened.is_empty() {
        return None;
    }
    line_end(text)
}

/// The first place where no gap goes on between words.
fn behind_pieces<'a>(
    end: TextEnd,
    mode: Mode,
    opened: &Stack<Opening>,
    text: &'a [Spot],
) -> &'a [Spot]
    requires { has_words mode ≡ true }
    ensures gap { Gap end (nest mode opened.now) text.now result.now }
    ensures full { NoPiece end (nest mode opened.now) result.now }
{
    let mut rest = text;
    while let Some(behind) = behind_piece(end, opened, rest) {
        rest = behind;
    }
    rest
}

/// Whether the text is read as words.
fn reads_words(mode: Mode) -> bool
    ensures { result ≡ has_words mode }
{
    match mode {
        Mode::Words => true,
        Mode::Text(_) => false,
        Mode::Field(_) => true,
        Mode::Spec(_) => false,
    }
}

/// The first place where no gap goes on: none does in the text of an f-string.
pub(crate) fn behind_gap<'a>(
    end: TextEnd,
    mode: Mode,
    opened: &Stack<Opening>,
    text: &'a [Spot],
) -> &'a [Spot]
    ensures gap { Gap end (nest mode opened.now) text.now result.now }
    ensures full { NoPiece end (nest mode opened.now) result.now }
{
    if reads_words(mode) {
        return behind_pieces(end, mode, opened, text);
    }
    text
}
