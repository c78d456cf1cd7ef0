ghost use Rattle.std.specs.Prelude.{◌≡◌, ℕ, IfOk};
ghost use Rattle.std.specs.Option.{option_map};
ghost use Rattle.std.specs.Str.{chars};
ghost use Rattle.pt_strs.specs.Class.{has};
ghost use Rattle.pt_strs.specs.Strip.{goes};

use crate::Scan;
use crate::blank::is_blank;
use pt_base::{Memory, Text};
use std::alloc::Global;
use std::collections::BTreeSet;

/// A class of characters.
#[derive(Drop)]
pub enum Class {
    Blank,
    /// Those that are no blanks.
    Visible,
    Of(BTreeSet<char>),
}

impl Class {
    pub fn has(&self, c: char) -> bool
        ensures { result ≡ has self.now c }
    {
        match self {
            Class::Blank => is_blank(c),
            Class::Visible => !is_blank(c),
            Class::Of(set) => set.contains(&c),
        }
    }

    /// The characters that a strip takes off: those of a text, or blanks where none is given.
    pub fn of_strip(alloc: Global, set: Option<&Text>) -> Result<Class, Memory>
        ensures { IfOk result
            (λ class. (c : ℕ)
            → has class c ≡ goes (option_map (λ s. chars s.now) set.entry) c) }
    {
        match set {
            Some(set) => Class::of_text(alloc, set.as_str()),
            None => Ok(Class::Blank),
        }
    }

    /// The characters of a text.
    fn of_text(alloc: Global, text: &str) -> Result<Class, Memory>
        ensures { IfOk result
            (λ class. (c : ℕ) → has class c ≡ goes (Some (chars text.now)) c) }
    {
        let mut set = BTreeSet::new(alloc);
        let mut scan = Scan::new(text);
        while let Some(c) = scan.next() {
            set.insert(c)?;
        }
        Ok(Class::Of(set))
    }
}
