use std::fmt;

/// Why a run has left the profile of the language. No handler of a script catches it.
#[derive(Clone, Copy, Debug, PartialEq, Eq, Hash)]
pub enum What {
    /// A number beyond 128 bits.
    Integer,
    /// A result that would be a floating-point number.
    Float,
    /// A text or a container beyond its greatest length.
    Length,
    /// The heap is full.
    Heap,
    /// A class binds a special name that has no meaning here.
    Special,
    /// A script's own `__hash__` is needed.
    Hash,
    /// A character that is half of a surrogate pair.
    Surrogate,
    /// A format that is not supported.
    Format,
    /// Keys that cannot be put in order here.
    Sort,
    /// An exit with a value that is no status and no text.
    Exit,
    /// A builtin that is not supported.
    Feature,
    /// A helper of the prelude is missing.
    Helper,
}

impl fmt::Display for What {
    ghost use Rattle.std.specs.Prelude.{Some};
    ghost use Rattle.pt_base.specs.Words.{word_of};

    ghost output = { λ what. Some (word_of what) };

    fn fmt<W: fmt::Write>(&self, f: &mut fmt::Formatter<W>) -> fmt::Result {
        f.write_str(match self {
            What::Integer => "integer",
            What::Float => "float",
            What::Length => "length",
            What::Heap => "heap",
            What::Special => "special",
            What::Hash => "hash",
            What::Surrogate => "surrogate",
            What::Format => "format",
            What::Sort => "sort",
            What::Exit => "exit",
            What::Feature => "feature",
            What::Helper => "helper",
        })
    }
}
