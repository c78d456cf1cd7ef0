ghost use Rattle.std.specs.Prelude.{◌≡◌, [], ◌∷◌, ◌++◌, length, Some, None, IfOk, OnOk, OnErr};
ghost use Rattle.std.specs.Ordering.{int_cmp};
ghost use Rattle.std.specs.BTreeMap.{get};
ghost use Rattle.pt_assembler.specs.Tables.{number_in, kept, found_in, is_const, known_in, knows_more};

use pt_base::{Memory, Seq};
use pt_code::Const;
use std::alloc::Global;
use std::collections::BTreeMap;
use std::marker::Model;

/// The numbers of constants, each kind by itself.
#[derive(Drop)]
pub struct Numbers {
    pub none: Option<u32>,
    pub no: Option<u32>,
    pub yes: Option<u32>,
    pub ellipsis: Option<u32>,
    pub integers: BTreeMap<i128, u32>,
    pub texts: BTreeMap<u32, u32>,
}

impl Numbers {
    fn new(alloc: Global) -> Numbers
        ensures { (k : _) → known_in result k ≡ None }
    {
        Numbers {
            none: None,
            no: None,
            yes: None,
            ellipsis: None,
            integers: BTreeMap::new(alloc),
            texts: BTreeMap::new(alloc),
        }
    }

    fn get(&self, constant: &Const) -> Option<u32>
        ensures { result ≡ known_in self.now constant.now }
    {
        match constant {
            Const::None => self.none,
            Const::False => self.no,
            Const::True => self.yes,
            Const::Ellipsis => self.ellipsis,
            Const::Int(n) => integer_in(&self.integers, n),
            Const::Text(t) => self.texts.get(&t.0).copied(),
        }
    }

    fn set(&mut self, constant: Const, number: u32) -> Result<(), Memory>
        ensures ok { OnOk result
            ((k : _) → known_in self.new k ≡ knows_more constant number (known_in self.old) k) }
        ensures err { OnErr result ((k : _) → known_in self.new k ≡ known_in self.old k) }
    {
        match constant {
            Const::None => self.none = Some(number),
            Const::False => self.no = Some(number),
            Const::True => self.yes = Some(number),
            Const::Ellipsis => self.ellipsis = Some(number),
            Const::Int(n) => {
                self.integers.insert(n, number)?;
            }
            Const::Text(t) => {
                self.texts.insert(t.0, number)?;
            }
        }
        Ok(())
    }
}

fn integer_in(integers: &BTreeMap<i128, u32>, n: &i128) -> Option<u32>
    ensures { result ≡ get int_cmp integers.now n.now }
{
    integers.get(n).copied()
}

/// Constants, each kept once, in the order in which they were first wanted.
#[derive(Drop)]
pub struct Constants {
    items: Seq<Const>,
    numbers: Numbers,
}

impl Model for Constants {
    ghost use Rattle.std.specs.Prelude.{List, ◌≡◌};
    ghost use Rattle.pt_code.specs.declared.Const.{Const};
    ghost use Rattle.pt_assembler.specs.Tables.{found_in, is_const, known_in};

    ghost Value = { List Const };

    ghost view = { λ t. t.items };

    ghost invariant = { λ t. (k : Const) → known_in t.numbers k ≡ found_in (is_const k) t.items };
}

impl Constants {
    /// No constants. It takes no memory until it grows.
    pub fn new(alloc: Global) -> Constants
        ensures { result ≡ [] }
    {
        Constants {
            items: Seq::new(alloc),
            numbers: Numbers::new(alloc),
        }
    }

    /// The number of a constant, which is put behind the others where it isn't there.
    #[tactic(auto, using(crate::proofs::FoundLemmas::there, crate::proofs::FoundLemmas::new_one))]
    pub fn number(&mut self, constant: Const) -> Result<u32, Memory>
        ensures { IfOk result (λ n. (n ≡ number_in (is_const constant) self.old)
            × (self.new ≡ kept (is_const constant) constant self.old)) }
    {
        match self.find(constant) {
            Some(number) => Ok(number),
            None => self.append(constant),
        }
    }

    /// The constants in their order.
    pub fn into_items(self) -> Seq<Const>
        ensures { result ≡ self }
    {
        self.items
    }

    fn find(&self, constant: Const) -> Option<u32>
        ensures { result ≡ found_in (is_const constant) self.now }
    {
        self.numbers.get(&constant)
    }

    /// Puts a constant that isn't there behind the others.
    fn append(&mut self, constant: Const) -> Result<u32, Memory>
        requires { found_in (is_const constant) self.old ≡ None }
        ensures { IfOk result (λ n. (n ≡ length self.old)
            × (self.new ≡ self.old ++ constant ∷ [])) }
    {
        let len = self.items.len();
        let number = u32::try_from(len).map_err(|_| Memory)?;
        self.items.push(constant)?;
        match self.numbers.set(constant, number) {
            Ok(()) => Ok(number),
            Err(_) => {
                self.items.truncate(len);
                Err(Memory)
            }
        }
    }
}
