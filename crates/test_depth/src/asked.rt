use crate::pieces::script_of;
use pt_base::Failure;
use pt_front::{Refusal, front};
use std::alloc::Global;
use test_notation::{Kind, Printed, word};

/// The size that a text stays below, in bytes.
const LIMIT: usize = 1 << 31;

/// What is asked of scripts, the pieces of each of which stand on a line.
#[derive(Clone, Copy, Debug, PartialEq, Eq)]
pub enum Asked {
    Answer,
}

/// Why a text is no script whose names have scopes, if it is none; a longer text than is read is told
/// as want of memory.
fn failure_of(alloc: Global, text: &[u8]) -> Option<Failure<Refusal>> {
    if text.len() >= LIMIT {
        return Some(Failure::Memory);
    }
    match front(alloc, text) {
        Ok(_) => None,
        Err(failure) => Some(failure),
    }
}

impl Kind for Asked {
    fn named(word: &str) -> Option<Asked> {
        match word {
            "answers" => Some(Asked::Answer),
            _ => None,
        }
    }

    fn between(self) -> &'static str {
        "\n"
    }

    fn answer(self, out: &mut String, alloc: Global, row: &str) -> Printed {
        let text = script_of(alloc, row)?;
        match failure_of(alloc, text.as_slice()) {
            None => word(out, "taken"),
            Some(Failure::Refused(refusal)) => {
                write!(out, " {} {}", refusal.number(), refusal.place())
            }
            Some(Failure::Memory) => word(out, "memory"),
        }
    }

    fn is_taken(self, alloc: Global, text: &[u8]) -> bool {
        failure_of(alloc, text).is_none()
    }
}
