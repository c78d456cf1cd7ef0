//! A law of the code of expressions, the contract of a function that does nothing.

ghost use Rattle.pt_expr_forms.specs.Laws.{WrittenIsCode};

/// Where what is written of an expression stands in a code object, there stands the code of the
/// expression.
pub fn what_is_written_is_the_code_of_the_expression<V>()
    ensures { WrittenIsCode V }
{}
