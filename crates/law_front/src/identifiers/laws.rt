//! The law of names in tokens, the contract of a function that does nothing.

ghost use Rattle.law_front.specs.identifiers.Names.{NamesBeginAsIdentifiers};

/// Each name among the tokens of a text, which is its identifier in NFKC, begins with a letter, `_`
/// or a character beyond ASCII (Language Reference 2.3): it isn't empty, and begins with no sign.
pub fn names_begin_as_identifiers()
    ensures { NamesBeginAsIdentifiers }
{}
