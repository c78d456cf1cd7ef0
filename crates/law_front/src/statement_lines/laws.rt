//! The law of the lines of statements, the contract of a function that does nothing.

ghost use Rattle.law_front.specs.statement_lines.Laws.{StatementsAreOnLines};

/// Where the lines of tokens rise, the statements that the tokens are start on lines of theirs, and
/// in each `try` the `else` part behind all handlers (Language Reference 8.4); an `if` has a test
/// (8.1).
pub fn statements_start_in_order()
    ensures { StatementsAreOnLines }
{}
