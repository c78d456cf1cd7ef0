use pt_base::{Boxed, Line, Seq, Text};
use pt_tree::Conversion;
use pt_wide::{WideExpr, WidePiece};

/// A part of strings that stand one behind the other, as it is read (Language Reference 2.4.2,
/// 2.4.3).
#[derive(Drop)]
pub enum Piece {
    /// A string, or literal text of an f-string.
    Text {
        line: Line,
        text: Text,
    },
    /// `{value!r:spec}`
    Field {
        line: Line,
        value: Boxed<WideExpr>,
        conversion: Option<Conversion>,
        spec: Seq<WidePiece>,
    },
}
