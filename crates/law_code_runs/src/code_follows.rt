//! That the code of a script follows the script. Laws, without code.

mod laws;

pub use laws::{
    a_script_is_followed_by_its_code, blocks_have_the_code_of_their_pieces,
    code_does_not_depend_on_none, each_free_name_of_code_has_a_cell,
};
