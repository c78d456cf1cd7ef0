use crate::answers::{part, script};
use pt_base::Seq;
use pt_grammar::Part;
use pt_lexer::{Token, tokens};
use pt_parser::wide_script;
use std::alloc::Global;
use test_notation::{Kind, Printed, text_of, word};

/// The size that a text stays below, in bytes.
const LIMIT: usize = 1 << 31;

/// What is asked of texts, each of which stands on a line.
#[derive(Clone, Copy, Debug, PartialEq, Eq)]
pub enum Asked {
    /// How many tokens the expression at the front has.
    Expression,
    /// How many tokens what may stand in a target's place has.
    Target,
    /// Whether it is a script.
    Script,
}

/// The tokens of a text that isn't too long and has some.
fn tokens_of(alloc: Global, text: &[u8]) -> Option<Seq<Token>> {
    if text.len() >= LIMIT {
        return None;
    }
    tokens(alloc, text).ok()
}

impl Kind for Asked {
    fn named(word: &str) -> Option<Asked> {
        match word {
            "expressions" => Some(Asked::Expression),
            "targets" => Some(Asked::Target),
            "scripts" => Some(Asked::Script),
            _ => None,
        }
    }

    fn between(self) -> &'static str {
        "\n"
    }

    fn answer(self, out: &mut String, alloc: Global, row: &str) -> Printed {
        let text = text_of(alloc, row)?;
        let Some(words) = tokens_of(alloc, text.as_slice()) else {
            return word(out, "no tokens");
        };
        match self {
            Asked::Expression => part(out, alloc, words.as_slice(), Part::Whole),
            Asked::Target => part(out, alloc, words.as_slice(), Part::Target),
            Asked::Script => script(out, alloc, words.as_slice()),
        }
    }

    fn is_taken(self, alloc: Global, text: &[u8]) -> bool {
        match tokens_of(alloc, text) {
            Some(words) => wide_script(alloc, words.as_slice()).is_ok(),
            None => false,
        }
    }
}
