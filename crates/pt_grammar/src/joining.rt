//! Texts one behind the other become one (Language Reference 2.4.2, 2.4.3).

ghost use Rattle.std.specs.Prelude.{◌≡◌, [], ◌∷◌, ◌++◌, List, map, IfOk};
ghost use Rattle.pt_tree.specs.Fold.{chained};
ghost use Rattle.pt_wide.specs.Syntax as S;
ghost use Rattle.pt_wide.specs.Fold.{piece_of};
ghost use Rattle.pt_grammar.specs.Nodes as N;
ghost use Rattle.pt_grammar.specs.Nodes.{OnePiece, pieces_of};
ghost use Rattle.pt_grammar.specs.PieceViews.{piece_read, pieces_read};
ghost use Rattle.pt_grammar.specs.Joining.{rejoined, NoText};

use crate::Piece;
use pt_base::{Line, Memory, Seq, Text};
use pt_wide::WidePiece;
use std::alloc::Global;

/// Text with which what follows may be one, and the line on which it starts.
#[derive(Drop)]
pub struct Pending {
    line: Line,
    text: Text,
}

/// The parts of a node as far as they are known.
#[derive(Drop)]
pub struct Joining {
    done: Vec<WidePiece>,
    pending: Option<Pending>,
}

impl Joining {
    fn new(alloc: Global) -> Joining
        ensures { (r : List OnePiece) → rejoined result r ≡ pieces_of r }
    {
        Joining {
            done: Vec::new(alloc),
            pending: None,
        }
    }

    /// With text behind the last part.
    fn with_text(self, line: Line, text: Text) -> Result<Joining, Memory>
        ensures { IfOk result (λ j. (r : List OnePiece) → rejoined j r ≡ rejoined self (N.text line.0 text ∷ r)) }
    {
        let Joining { done, pending } = self;
        let Some(mut before) = pending else {
            let pending = Some(Pending { line, text });
            return Ok(Joining { done, pending });
        };
        before.text.push_str(text.as_str())?;
        let pending = Some(before);
        Ok(Joining { done, pending })
    }

    /// The parts, where no text follows. Text that is empty is none.
    fn ended(self) -> Result<Vec<WidePiece>, Memory>
        ensures { IfOk result (λ ps. (r : List OnePiece) → NoText r → chained (pieces_of r) (map piece_of ps.items) ≡ rejoined self r) }
    {
        let Joining { mut done, pending } = self;
        let Some(Pending { line, text }) = pending else {
            return Ok(done);
        };
        if text.is_empty() {
            return Ok(done);
        }
        done.push(WidePiece::Literal { line, text })?;
        Ok(done)
    }

    /// With one more behind the last part.
    fn with(self, piece: Piece) -> Result<Joining, Memory>
        ensures { IfOk result (λ j. (r : List OnePiece) → rejoined j r ≡ rejoined self (piece_read piece ∷ r)) }
    {
        match piece {
            Piece::Text { line, text } => self.with_text(line, text),
            Piece::Field {
                line,
                value,
                conversion,
                spec,
            } => {
                let mut done = self.ended()?;
                done.push(WidePiece::Field {
                    line,
                    value,
                    conversion,
                    spec,
                })?;
                let pending = None;
                Ok(Joining { done, pending })
            }
        }
    }
}

/// The parts of an f-string or of a format as a node has them.
pub(crate) fn joined(alloc: Global, pieces: Vec<Piece>) -> Result<Seq<WidePiece>, Memory>
    ensures { IfOk result (λ ps. chained S.no_pieces (map piece_of ps) ≡ pieces_of (pieces_read pieces.items)) }
{
    let mut joining = Joining::new(alloc);
    for piece in pieces {
        joining = joining.with(piece)?;
    }
    Ok(Seq::from_vec(joining.ended()?))
}

/// The text with what a part adds to it.
fn with_text_of(whole: Text, piece: &Piece) -> Result<Text, Memory>
    ensures { IfOk result (λ t. t ≡ whole ++ N.all_text (piece_read piece.now ∷ [])) }
{
    let mut whole = whole;
    match piece {
        Piece::Text { text, .. } => {
            whole.push_str(text.as_str())?;
            Ok(whole)
        }
        Piece::Field { .. } => Ok(whole),
    }
}

/// The texts of strings as one.
pub(crate) fn whole_text(alloc: Global, pieces: &[Piece]) -> Result<Text, Memory>
    ensures { IfOk result (λ t. t ≡ N.all_text (pieces_read pieces.now)) }
{
    let mut whole = Text::new(alloc);
    for piece in pieces {
        whole = with_text_of(whole, piece)?;
    }
    Ok(whole)
}
