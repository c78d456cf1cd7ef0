//! That the code of a script fits, if no place of it gets too many slots. Definitions and laws,
//! without code.

mod laws;

pub use laws::{
    blocks_of_scripts_fit, blocks_of_texts_fit, code_of_texts_fits, sizes_tell_the_depth,
};
