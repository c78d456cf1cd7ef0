//! Laws of the first start on a line, each the contract of a function that does nothing.

ghost use Rattle.law_pieces.specs.first_starts.Laws.{FirstIsLeast};

/// In a block that was laid out from a piece, the first start on a line in the order of the piece
/// is the least place that the table of starts has for the line (Library Reference, "inspect":
/// `f_lineno`).
pub fn the_first_start_on_a_line_is_the_least<V>()
    ensures { FirstIsLeast V }
{}
