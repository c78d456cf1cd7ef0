ghost use Rattle.std.specs.Prelude.{◌≡◌, [], ◌∷◌, ◌++◌, length, None, IfOk};
ghost use Rattle.std.specs.Str.{bytes_eq};
ghost use Rattle.pt_assembler.specs.Tables.{number_in, kept, found_in};

use pt_base::{Memory, Seq, Text};
use std::alloc::Global;
use std::collections::BTreeMap;
use std::marker::Model;

/// Texts, each kept once, in the order in which they were first wanted. They are found by a sorted
/// tree, so that no choice of texts makes a look-up take more than a logarithm of their count.
#[derive(Drop)]
pub struct Texts {
    items: Seq<Text>,
    numbers: BTreeMap<String, u32>,
}

impl Model for Texts {
    ghost use Rattle.std.specs.Prelude.{List, ℕ, ◌≡◌};
    ghost use Rattle.std.specs.Str.{bytes_eq};
    ghost use Rattle.std.specs.BTreeMap.{get_by_text};
    ghost use Rattle.pt_assembler.specs.Tables.{found_in};

    ghost Value = { List (List ℕ) };

    ghost view = { λ t. t.items };

    ghost invariant = { λ t. (x : _) → get_by_text t.numbers x ≡ found_in (bytes_eq x) t.items };
}

impl Texts {
    /// No texts. It takes no memory until it grows.
    pub fn new(alloc: Global) -> Texts
        ensures { result ≡ [] }
    {
        Texts {
            items: Seq::new(alloc),
            numbers: BTreeMap::new(alloc),
        }
    }

    /// The number of a text, which is put behind the others where it isn't there.
    #[tactic(auto, using(crate::proofs::FoundLemmas::there, crate::proofs::FoundLemmas::new_one))]
    pub fn number(&mut self, alloc: Global, text: &str) -> Result<u32, Memory>
        ensures { IfOk result (λ n. (n ≡ number_in (bytes_eq text.now) self.old)
            × (self.new ≡ kept (bytes_eq text.now) text.now self.old)) }
    {
        match self.find(text) {
            Some(number) => Ok(number),
            None => self.append(alloc, text),
        }
    }

    /// The texts in their order.
    pub fn into_items(self) -> Seq<Text>
        ensures { result ≡ self }
    {
        self.items
    }

    fn find(&self, text: &str) -> Option<u32>
        ensures { result ≡ found_in (bytes_eq text.now) self.now }
    {
        self.numbers.get(text).copied()
    }

    /// Puts a text that isn't there behind the others.
    fn append(&mut self, alloc: Global, text: &str) -> Result<u32, Memory>
        requires { found_in (bytes_eq text.now) self.old ≡ None }
        ensures { IfOk result (λ n. (n ≡ length self.old)
            × (self.new ≡ self.old ++ text.now ∷ [])) }
    {
        let len = self.items.len();
        let number = u32::try_from(len).map_err(|_| Memory)?;
        let key = String::from_str(alloc, text)?;
        self.items.push(Text::from_str(alloc, text)?)?;
        match self.numbers.insert(key, number) {
            Ok(_) => Ok(number),
            Err(_) => {
                self.items.truncate(len);
                Err(Memory)
            }
        }
    }
}
