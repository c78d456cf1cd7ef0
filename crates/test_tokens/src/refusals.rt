use pt_base::Failure;
use pt_lexer::LexErr;
use test_notation::{Printed, word};

/// The number of a refusal, and its byte or its line.
pub fn refusal(out: &mut String, failure: Failure<LexErr>) -> Printed {
    match failure {
        Failure::Memory => word(out, "memory"),
        Failure::Refused(error) => {
            let (number, place) = match error {
                LexErr::NotUtf8 { at } => (1, at),
                LexErr::BadIndent { line } => (2, line.0),
                LexErr::MixedTabs { line } => (3, line.0),
                LexErr::BadChar { at } => (4, at),
                LexErr::OpenString { line } => (5, line.0),
                LexErr::BadNumber { at } => (6, at),
                LexErr::OpenBracket { line } => (7, line.0),
                LexErr::Excluded { line } => (8, line.0),
                LexErr::Limit { line } => (9, line.0),
            };
            write!(out, " {number} {place}")
        }
    }
}
