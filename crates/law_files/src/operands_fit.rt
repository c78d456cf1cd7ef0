//! Each operand of the code of a script fits in its four bytes. Definitions and a law, without
//! code.

mod laws;

pub use laws::operands_of_a_script_fit;
