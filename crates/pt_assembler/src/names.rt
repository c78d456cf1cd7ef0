ghost use Rattle.std.specs.Prelude.{◌≡◌, [], ◌∷◌, ◌++◌, length, None, IfOk};
ghost use Rattle.pt_assembler.specs.Tables.{number_in, kept, found_in, is_text};

use pt_base::{Memory, Seq};
use pt_instr::TextNo;
use std::alloc::Global;
use std::collections::BTreeMap;
use std::marker::Model;

/// Names of a block, by the numbers of their texts, each kept once, in the order in which they were
/// first wanted.
#[derive(Drop)]
pub struct Names {
    items: Seq<TextNo>,
    numbers: BTreeMap<u32, u32>,
}

impl Model for Names {
    ghost use Rattle.std.specs.Prelude.{List, ◌≡◌};
    ghost use Rattle.std.specs.Ordering.{nat_cmp};
    ghost use Rattle.std.specs.BTreeMap.{get};
    ghost use Rattle.pt_instr.specs.declared.TextNo.{TextNo};
    ghost use Rattle.pt_assembler.specs.Tables.{found_in, is_text};

    ghost Value = { List TextNo };

    ghost view = { λ t. t.items };

    ghost invariant = { λ t. (x : _) → get nat_cmp t.numbers x.0 ≡ found_in (is_text x) t.items };
}

impl Names {
    /// No names. It takes no memory until it grows.
    pub fn new(alloc: Global) -> Names
        ensures { result ≡ [] }
    {
        Names {
            items: Seq::new(alloc),
            numbers: BTreeMap::new(alloc),
        }
    }

    /// The number of a name, which is put behind the others where it isn't there.
    #[tactic(auto, using(crate::proofs::FoundLemmas::there, crate::proofs::FoundLemmas::new_one))]
    pub fn number(&mut self, text: TextNo) -> Result<u32, Memory>
        ensures { IfOk result (λ n. (n ≡ number_in (is_text text) self.old)
            × (self.new ≡ kept (is_text text) text self.old)) }
    {
        match self.find(text) {
            Some(number) => Ok(number),
            None => self.append(text),
        }
    }

    /// How many there are.
    pub fn len(&self) -> usize
        ensures { result ≡ length self.now }
    {
        self.items.len()
    }

    /// The names in their order.
    pub fn into_items(self) -> Seq<TextNo>
        ensures { result ≡ self }
    {
        self.items
    }

    fn find(&self, text: TextNo) -> Option<u32>
        ensures { result ≡ found_in (is_text text) self.now }
    {
        self.numbers.get(&text.0).copied()
    }

    /// Puts a name that isn't there behind the others.
    fn append(&mut self, text: TextNo) -> Result<u32, Memory>
        requires { found_in (is_text text) self.old ≡ None }
        ensures { IfOk result (λ n. (n ≡ length self.old) × (self.new ≡ self.old ++ text ∷ [])) }
    {
        let len = self.items.len();
        let number = u32::try_from(len).map_err(|_| Memory)?;
        self.items.push(text)?;
        match self.numbers.insert(text.0, number) {
            Ok(_) => Ok(number),
            Err(_) => {
                self.items.truncate(len);
                Err(Memory)
            }
        }
    }
}
