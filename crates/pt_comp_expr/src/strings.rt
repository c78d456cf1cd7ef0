//! The code of f-strings (Language Reference 2.4.3).

ghost use Rattle.std.specs.Prelude.{◌≡◌, map, false, IfOk, OnOk};
ghost use Rattle.pt_tree.specs.Syntax.{no_pieces};
ghost use Rattle.pt_tree.specs.Fold.{chained, piece_of};
ghost use Rattle.pt_write_leaves.specs.pt_expr_forms.Behind.{behind_pieces, pieces_count};

use crate::expressions::expression;
use pt_assembler::Writer;
use pt_base::Memory;
use pt_instr::Instr;
use pt_tree::Piece;
use pt_write_leaves::{Surroundings, join};
use pt_write_ops::{formatting, operand_count, plain, text};

/// The parts of an f-string, and how many there are.
#[cycle(expressions)]
pub fn parts(
    w: &mut Writer,
    at: &Surroundings,
    pieces: &[Piece],
    again: bool,
) -> Result<u32, Memory>
    ensures { IfOk result (λ count.
        (count ≡ pieces_count (chained no_pieces (map piece_of pieces.now)))
        × (w.new ≡ behind_pieces at.now.names.now at.now.within.now
        (chained no_pieces (map piece_of pieces.now)) again w.old)) }
{
    let count = operand_count(pieces.len())?;
    let mut due = again;
    for piece in pieces {
        part(w, at, piece, due)?;
        due = false;
    }
    Ok(count)
}

/// A text, or a value with its spec and its format.
#[cycle(expressions)]
#[tactic(auto, using(pt_tree::proofs::Folds::expressions))]
fn part(w: &mut Writer, at: &Surroundings, piece: &Piece, again: bool) -> Result<(), Memory>
    ensures { OnOk result ((r : _) → behind_pieces at.now.names.now at.now.within.now
        (piece_of piece.now r) again w.old
        ≡ behind_pieces at.now.names.now at.now.within.now r false w.new) }
{
    match piece {
        Piece::Literal { line, text: value } => {
            text(at.names.alloc(), w, value.as_str(), *line, again)
        }
        Piece::Field {
            line,
            value,
            conversion,
            spec,
        } => {
            expression(w, at, value.get(), again)?;
            let count = parts(w, at, spec.as_slice(), false)?;
            join(w, count, *line)?;
            plain(w, Instr::Format(formatting(*conversion)), *line, false)
        }
    }
}
