//! The code objects of a script that is read follow it. Laws, without code.

mod laws;

pub use laws::{a_script_that_is_read_is_followed_by_its_code, objects_of_a_script_have_its_code};
