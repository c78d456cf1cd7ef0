//! What a host knows of a script. Definitions and a law, without code.

mod laws;

pub use laws::code_tells_of_blocks;
