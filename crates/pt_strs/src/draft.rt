ghost use Rattle.std.specs.Prelude.{◌≡◌, [], ◌∷◌, ◌++◌, OnOk};
ghost use Rattle.std.specs.Str.{chars};

use pt_base::{Memory, Text};
use std::alloc::Global;
use std::marker::Model;

/// A text that is being written. Contracts see its characters.
#[derive(Debug, Drop)]
pub struct Draft {
    text: Text,
}

impl Model for Draft {
    ghost use Rattle.std.specs.Prelude.{List, ℕ};
    ghost use Rattle.std.specs.Str.{chars, IsUtf8};

    ghost Value = { List ℕ };

    ghost view = { λ d. chars d.text };

    ghost invariant = { λ d. IsUtf8 d.text };
}

impl Draft {
    pub fn new(alloc: Global) -> Draft
        ensures { result ≡ [] }
    {
        Draft {
            text: Text::new(alloc),
        }
    }

    pub fn push_str(&mut self, more: &str) -> Result<(), Memory>
        ensures { OnOk result (self.new ≡ self.old ++ chars more.now) }
    {
        self.text.push_str(more)
    }

    pub fn push(&mut self, c: char) -> Result<(), Memory>
        ensures { OnOk result (self.new ≡ self.old ++ c ∷ []) }
    {
        let mut bytes = [0; 4];
        self.text.push_str(c.encode_utf8(&mut bytes))
    }

    pub fn into_text(self) -> Text
        ensures { chars result ≡ self }
    {
        self.text
    }
}
