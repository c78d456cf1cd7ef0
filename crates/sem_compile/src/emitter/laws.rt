//! Laws of the code of expressions in pieces, each the contract of a function that does nothing.

ghost use Rattle.sem_compile.specs.emitter.Laws.{PieceIsCode};

/// Where the piece of an expression stands in a code object, there stands the code of the
/// expression.
pub fn the_piece_of_an_expression_is_its_code<V>()
    ensures { PieceIsCode V }
{}
