//! That each loop in the code of a script has an act. A law, without code.

mod laws;

pub use laws::each_loop_of_a_scripts_code_has_an_act;
