use crate::rows::{act_table, expression, is_resolved, scopes, script_of, tree};
use std::alloc::Global;
use test_notation::{Kind, Printed};

/// What is asked of scripts, and of texts that begin with an expression.
#[derive(Clone, Copy, Debug, PartialEq, Eq)]
pub enum Asked {
    /// The tree of the expression that begins with the token of a number, which stands in front of it.
    Part,
    Tree,
    /// The acts of the blocks.
    Acts,
    /// The scopes of the names that the first line tells.
    Scopes,
}

impl Kind for Asked {
    fn named(word: &str) -> Option<Asked> {
        match word {
            "parts" => Some(Asked::Part),
            "trees" => Some(Asked::Tree),
            "acts" => Some(Asked::Acts),
            "scopes" => Some(Asked::Scopes),
            _ => None,
        }
    }

    /// Scripts are written as they are, other texts on a line each.
    fn between(self) -> &'static str {
        match self {
            Asked::Part => "\n",
            _ => "---\n",
        }
    }

    fn answer(self, out: &mut String, alloc: Global, row: &str) -> Printed {
        match self {
            Asked::Part => expression(out, alloc, row),
            Asked::Tree => tree(out, alloc, row.as_bytes()),
            Asked::Acts => act_table(out, alloc, row.as_bytes()),
            Asked::Scopes => scopes(out, alloc, row),
        }
    }

    fn is_taken(self, alloc: Global, text: &[u8]) -> bool {
        match self {
            Asked::Scopes => is_resolved(alloc, text),
            _ => script_of(alloc, text).is_ok(),
        }
    }
}
