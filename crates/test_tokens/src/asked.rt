use crate::refusals::refusal;
use crate::spelling::{places, spell};
use pt_base::{Failure, Seq};
use pt_lexer::{LexErr, Token, tokens};
use std::alloc::Global;
use test_notation::{Kind, Printed, text_of};

/// The size that a text stays below, in bytes.
const LIMIT: usize = 1 << 31;

/// What is asked of texts, each of which stands on a line.
#[derive(Clone, Copy, Debug, PartialEq, Eq)]
pub enum Asked {
    Tokens,
    /// The byte and the line of each token.
    Places,
}

/// The tokens of a text; a longer one than is read is told as want of memory.
fn tokens_of(alloc: Global, text: &[u8]) -> Result<Seq<Token>, Failure<LexErr>> {
    if text.len() >= LIMIT {
        return Err(Failure::Memory);
    }
    tokens(alloc, text)
}

impl Kind for Asked {
    fn named(word: &str) -> Option<Asked> {
        match word {
            "tokens" => Some(Asked::Tokens),
            "places" => Some(Asked::Places),
            _ => None,
        }
    }

    fn between(self) -> &'static str {
        "\n"
    }

    fn answer(self, out: &mut String, alloc: Global, row: &str) -> Printed {
        let text = text_of(alloc, row)?;
        match tokens_of(alloc, text.as_slice()) {
            Ok(words) => match self {
                Asked::Tokens => spell(out, words.as_slice()),
                Asked::Places => places(out, words.as_slice()),
            },
            Err(failure) => refusal(out, failure),
        }
    }

    fn is_taken(self, alloc: Global, text: &[u8]) -> bool {
        tokens_of(alloc, text).is_ok()
    }
}
