//! What begins at a place of a script's text (Language Reference 2.3, 2.4): its characters with
//! their places, numbers, strings, and the parts of f-strings.
#![tactic(auto)]

mod fields;
mod literals;
mod modes;
mod numbers;
mod source;
mod strings;
mod token;

pub use fields::literal;
pub use modes::{Field, Mode, Part};
pub use source::{
    Source, Spot, TextEnd, begins_name, behind_byte_order_mark, ends_line_char, first_spot,
    goes_on_name_char, is_blank_char, read,
};
pub use strings::{Chars, Delimiter, StringKind, behind_end, piece, push};
pub use token::{Begun, LexErr, Lexeme, Token, TokenKind};
