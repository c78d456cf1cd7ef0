ghost use Rattle.std.specs.Prelude.{◌≡◌, [], ◌∷◌, ◌++◌, bytes_eq, OnOk};
ghost use Rattle.std.specs.List.{list_any};
ghost use Rattle.sem_names.specs.BlockNames.{with_name};

use pt_base::{Memory, Seq, Text};
use std::alloc::Global;
use std::collections::BTreeSet;
use std::marker::Model;

/// Names, each once, in the order in which they come. A sorted tree knows them, so that no choice of
/// names makes it take more than a logarithm of their count to tell whether one is there.
#[derive(Drop)]
pub struct NameList {
    known: BTreeSet<String>,
    names: Seq<Text>,
}

impl Model for NameList {
    ghost use Rattle.std.specs.Prelude.{List, ℕ, ◌≡◌, bytes_eq};
    ghost use Rattle.std.specs.BTreeSet.{contains_text};
    ghost use Rattle.std.specs.List.{list_any};

    ghost Value = { List (List ℕ) };

    ghost view = { λ n. n.names };

    ghost invariant = { λ n. (x : List ℕ)
        → contains_text n.known x ≡ list_any (λ y. bytes_eq y x) n.names };
}

impl NameList {
    /// No names. It takes no memory until it grows.
    pub fn new(alloc: Global) -> NameList
        ensures { result ≡ [] }
    {
        NameList {
            known: BTreeSet::new(alloc),
            names: Seq::new(alloc),
        }
    }

    pub fn as_slice(&self) -> &[Text]
        ensures { result.now ≡ self.now }
    {
        self.names.as_slice()
    }

    pub fn into_names(self) -> Seq<Text>
        ensures { result ≡ self }
    {
        self.names
    }

    /// Puts a name behind the others, if it is none of them.
    pub fn add(&mut self, alloc: Global, name: &str) -> Result<(), Memory>
        ensures { OnOk result (self.new ≡ with_name self.old name.now) }
    {
        if self.has(name) {
            Ok(())
        } else {
            self.append(alloc, name)
        }
    }

    fn has(&self, name: &str) -> bool
        ensures { result ≡ list_any (λ y. bytes_eq y name.now) self.now }
    {
        self.known.contains(name)
    }

    /// Puts a name that isn't there behind the others.
    fn append(&mut self, alloc: Global, name: &str) -> Result<(), Memory>
        ensures { OnOk result (self.new ≡ self.old ++ name.now ∷ []) }
    {
        let len = self.names.len();
        let key = String::from_str(alloc, name)?;
        self.names.push(Text::from_str(alloc, name)?)?;
        match self.known.insert(key) {
            Ok(_) => Ok(()),
            Err(_) => {
                self.names.truncate(len);
                Err(Memory)
            }
        }
    }
}
