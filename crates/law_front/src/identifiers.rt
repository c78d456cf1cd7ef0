//! Names in the tokens of a text begin as identifiers do. A law, without code.

mod laws;

pub use laws::names_begin_as_identifiers;
