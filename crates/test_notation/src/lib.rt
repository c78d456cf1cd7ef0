//! How the programs of tests read tables of texts and write answers.
#![tactic(auto)]

mod escapes;
mod signs;
mod tables;
mod words;

pub use escapes::text_of;
pub use signs::sign_of;
pub use tables::{Kind, answer_tables};
pub use words::{Printed, at, close, open, optional_name, show, word};
