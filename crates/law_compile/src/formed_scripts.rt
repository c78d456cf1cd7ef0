//! The tree of the language that a wide tree is has the form that the grammar gave it. A law, without
//! code.

mod laws;

pub use laws::a_script_is_formed_as_its_wide_tree;
