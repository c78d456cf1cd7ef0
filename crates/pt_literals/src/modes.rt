use crate::Delimiter;

/// A replacement field of an f-string (Language Reference 2.4.3): the string that it stands in, and
/// whether it stands in the format spec of another field.
#[derive(Clone, Copy, Debug, PartialEq, Eq)]
pub struct Field {
    pub string: Delimiter,
    pub is_nested: bool,
}

/// How a place of a text is read.
#[derive(Clone, Copy, Debug, PartialEq, Eq)]
pub enum Mode {
    /// As words.
    Words,
    /// As the literal text of an f-string.
    Text(Delimiter),
    /// As words of a field, outside its brackets.
    Field(Field),
    /// As the format spec of a field.
    Spec(Field),
}

/// A part of a string whose characters are a token.
#[derive(Clone, Copy, Debug, PartialEq, Eq)]
pub enum Part {
    /// A string that is no f-string, from behind its opening quotes.
    Whole(Delimiter),
    /// Literal text of an f-string.
    Text(Delimiter),
    /// Text in a format spec.
    Spec(Delimiter),
}
