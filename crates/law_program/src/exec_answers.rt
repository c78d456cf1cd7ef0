//! That no text says two ends, and that `exec` of the file which `build` writes of a supported
//! script answers as `run` of the script. Definitions and laws, without code.

mod laws;

pub use laws::{a_code_file_has_one_answer, a_text_says_one_end, exec_answers_as_run};
