//! Strings and f-strings as they are read, each with its depth, and the nodes that are made of them
//! (Language Reference 2.4.2, 2.4.3).

ghost use Rattle.std.specs.Prelude.{◌≡◌, ◌≤◌, ◌++◌, ◌∷◌, [], false, IfOk};
ghost use Rattle.pt_wide.specs.Fold.{exp_of};
ghost use Rattle.pt_wide.specs.Measure.{depth_pieces};
ghost use Rattle.pt_grammar.specs.Nodes as N;
ghost use Rattle.pt_grammar.specs.Nodes.{pieces_of, string_at};
ghost use Rattle.pt_grammar.specs.PieceViews.{piece_read, pieces_read};

use crate::Piece;
use crate::deep::Deep;
use crate::joining::{joined, whole_text};
use pt_base::{Boxed, Line, Memory, Text};
use pt_tree::{Constant, Conversion};
use pt_wide::{WideExpr, WideNode};
use std::alloc::Global;

/// A part of strings, and how deep its nodes stand inside one another.
#[derive(Drop)]
pub struct DeepPiece {
    pub piece: Piece,
    pub depth: u32,
    ghost exact: { depth ≡ depth_pieces (pieces_of (piece_read piece ∷ [])) },
}

/// Parts of strings, and how deep the nodes of the deepest stand inside one another.
#[derive(Drop)]
pub struct Pieces {
    pub items: Vec<Piece>,
    pub depth: u32,
    ghost exact: { depth ≡ depth_pieces (pieces_of (pieces_read items.items)) },
}

/// Strings one behind the other: whether an f-string is among them, and their parts.
#[derive(Drop)]
pub struct Quotes {
    pub formatted: bool,
    pub pieces: Pieces,
}

impl Pieces {
    pub fn new(alloc: Global) -> Pieces
        ensures { pieces_read result.items.items ≡ [] }
    {
        Pieces {
            items: Vec::new(alloc),
            depth: 0,
        }
    }

    /// The same with one more behind the last.
    pub fn with(self, next: DeepPiece) -> Result<Pieces, Memory>
        ensures { IfOk result (λ ps. pieces_read ps.items.items ≡ pieces_read self.items.items ++ (piece_read next.piece ∷ [])) }
    {
        let Pieces { mut items, depth } = self;
        items.push(next.piece)?;
        Ok(Pieces {
            items,
            depth: depth.max(next.depth),
        })
    }
}

impl Quotes {
    pub fn new(alloc: Global) -> Quotes
        ensures formatted { result.formatted ≡ false }
        ensures pieces { pieces_read result.pieces.items.items ≡ [] }
    {
        Quotes {
            formatted: false,
            pieces: Pieces::new(alloc),
        }
    }
}

/// Text on this line.
pub fn text(alloc: Global, line: Line, text: &Text) -> Result<DeepPiece, Memory>
    ensures { IfOk result (λ p. piece_read p.piece ≡ N.text line.0 text.now) }
{
    let text = Text::from_str(alloc, text.as_str())?;
    Ok(DeepPiece {
        piece: Piece::Text { line, text },
        depth: 0,
    })
}

/// `{value!r:spec}`, with its opening brace on this line.
pub fn field(
    alloc: Global,
    line: Line,
    value: Deep,
    conversion: Option<Conversion>,
    spec: Pieces,
) -> Result<DeepPiece, Memory>
    ensures { IfOk result (λ p. piece_read p.piece ≡ N.field line.0 (exp_of value.tree) conversion (pieces_of (pieces_read spec.items.items))) }
{
    let depth = value.depth.max(spec.depth);
    let value = value.tree;
    let spec = joined(alloc, spec.items)?;
    Ok(DeepPiece {
        piece: Piece::Field {
            line,
            value,
            conversion,
            spec,
        },
        depth,
    })
}

/// The node of strings, which start on this line.
#[tactic(auto, using(pt_wide::proofs::Folds::expressions))]
pub fn string(alloc: Global, line: Line, quotes: Quotes) -> Result<Deep, Memory>
    requires { quotes.pieces.depth ≤ 500 }
    ensures { IfOk result (λ e. exp_of e.tree ≡ string_at line.0 quotes.formatted (pieces_read quotes.pieces.items.items)) }
{
    let Quotes { formatted, pieces } = quotes;
    if !formatted {
        let text = whole_text(alloc, pieces.items.as_slice())?;
        let node = WideNode::Constant(Constant::Str(text));
        let tree = Boxed::new(alloc, WideExpr { line, node })?;
        return Ok(Deep { tree, depth: 1 });
    }
    let depth = pieces.depth + 1;
    let node = WideNode::Joined(joined(alloc, pieces.items)?);
    let tree = Boxed::new(alloc, WideExpr { line, node })?;
    Ok(Deep { tree, depth })
}
