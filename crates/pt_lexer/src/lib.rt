//! The tokens of a script's text (Language Reference 2): logical lines, indentation, names,
//! keywords, operators and brackets, and where a text has none.
#![tactic(auto)]

mod brackets;
mod columns;
mod gaps;
mod laws;
mod lexer;
mod parts;
mod token;
mod words;

pub use laws::{a_text_has_one_answer, every_text_has_tokens_or_a_refusal};
pub use lexer::tokens;
pub use pt_literals::{LexErr, Token, TokenKind};
use pt_literals::{Begun, Delimiter, Field, Lexeme, Mode, Part, Spot, TextEnd};
use token::{Bracket, Column, Opening, Reading};

/// The operators and delimiters (Language Reference 2.5, 2.6): five of three characters, nineteen
/// of two, and the others of one.
const OPERATORS: [&str; 47] = [
    "**=", "//=", "<<=", ">>=", "...", "**", "//", "<<", ">>", "<=", ">=", "==", "!=", "->", "+=",
    "-=", "*=", "/=", "%=", "@=", "&=", "|=", "^=", ":=", "+", "-", "*", "/", "%", "@", "&", "|",
    "^", "~", "<", ">", "(", ")", "[", "]", "{", "}", ",", ":", ".", ";", "=",
];

/// What is left out of the language on purpose: asynchronous code, and two operators.
const EXCLUDED: [&str; 4] = ["async", "await", ":=", "@="];
