//! The law of the lines of tokens, the contract of a function that does nothing.

ghost use Rattle.law_front.specs.token_lines.Rising.{LinesOfTokensRise};

/// No token of a text stands on an earlier line than the one before it, and behind a NEWLINE each
/// stands on a later line (Language Reference 2.1.1), but for INDENT, DEDENT and END, which stand
/// between lines.
pub fn lines_of_tokens_rise()
    ensures { LinesOfTokensRise }
{}
