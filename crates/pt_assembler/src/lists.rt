ghost use Rattle.std.specs.Prelude.{◌≡◌, [], ◌∷◌, ◌++◌, length, None, IfOk};
ghost use Rattle.std.specs.Str.{bytes_eq};
ghost use Rattle.pt_assembler.specs.Tables.{number_in, kept, found_in};

use pt_base::{Memory, Seq};
use std::alloc::Global;
use std::collections::BTreeMap;
use std::marker::Model;

/// Lists of numbers of texts, each kept once, in the order in which they were first wanted.
#[derive(Drop)]
pub struct Lists {
    items: Seq<Seq<u32>>,
    numbers: BTreeMap<Vec<u32>, u32>,
}

impl Model for Lists {
    ghost use Rattle.std.specs.Prelude.{List, ℕ, ◌≡◌};
    ghost use Rattle.std.specs.Str.{bytes_eq};
    ghost use Rattle.pt_assembler.specs.Tables.{found_in, by_items};

    ghost Value = { List (List ℕ) };

    ghost view = { λ t. t.items };

    ghost invariant = { λ t. (x : _) → by_items t.numbers x ≡ found_in (bytes_eq x) t.items };
}

impl Lists {
    /// No lists. It takes no memory until it grows.
    pub fn new(alloc: Global) -> Lists
        ensures { result ≡ [] }
    {
        Lists {
            items: Seq::new(alloc),
            numbers: BTreeMap::new(alloc),
        }
    }

    /// The number of a list, which is put behind the others where it isn't there.
    #[tactic(auto, using(crate::proofs::FoundLemmas::there, crate::proofs::FoundLemmas::new_one))]
    pub fn number(&mut self, alloc: Global, list: &[u32]) -> Result<u32, Memory>
        ensures { IfOk result (λ n. (n ≡ number_in (bytes_eq list.now) self.old)
            × (self.new ≡ kept (bytes_eq list.now) list.now self.old)) }
    {
        match self.find(list) {
            Some(number) => Ok(number),
            None => self.append(alloc, list),
        }
    }

    /// The lists in their order.
    pub fn into_items(self) -> Seq<Seq<u32>>
        ensures { result ≡ self }
    {
        self.items
    }

    fn find(&self, list: &[u32]) -> Option<u32>
        ensures { result ≡ found_in (bytes_eq list.now) self.now }
    {
        self.numbers.get(list).copied()
    }

    /// Puts a list that isn't there behind the others.
    fn append(&mut self, alloc: Global, list: &[u32]) -> Result<u32, Memory>
        requires { found_in (bytes_eq list.now) self.old ≡ None }
        ensures { IfOk result (λ n. (n ≡ length self.old)
            × (self.new ≡ self.old ++ list.now ∷ [])) }
    {
        let len = self.items.len();
        let number = u32::try_from(len).map_err(|_| Memory)?;
        let key = Vec::from_slice(alloc, list)?;
        let item = Seq::from_slice(alloc, list)?;
        self.items.push(item)?;
        match self.numbers.insert(key, number) {
            Ok(_) => Ok(number),
            Err(_) => {
                self.items.truncate(len);
                Err(Memory)
            }
        }
    }
}
