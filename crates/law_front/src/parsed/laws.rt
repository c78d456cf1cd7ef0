//! The law of names that are mentioned, the contract of a function that does nothing.

ghost use Rattle.law_front.specs.parsed.Laws.{MentionsAreParsed};

/// Each name that a script mentions is one of the wide tree that it is, as the body of a class
/// reads it (Language Reference 6.2.1); of what stands out of its place the mention has no name.
pub fn mentions_are_parsed()
    ensures { MentionsAreParsed }
{}
