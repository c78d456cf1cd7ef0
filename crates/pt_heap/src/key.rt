ghost use Rattle.std.specs.Prelude.{◌≡◌, [], ◌∷◌, IfOk};
ghost use Rattle.std.specs.Str.{bytes_eq};
ghost use Rattle.std.specs.Cmp.Rules.{comparing, hashing};
ghost use Rattle.std.proofs.Common.{rules};

use pt_base::{Dup, Memory, Seq};
use std::alloc::Global;
use std::hash::{Hash, Hasher};
use std::marker::Model;

/// A value as a key of a dictionary, written as a list of numbers. Two keys are equal where their
/// lists are (Language Reference 6.2.7; Library Reference, "Mapping Types").
#[derive(Debug, Drop)]
pub struct Key {
    codes: Seq<u8>,
}

impl Model for Key {
    ghost use Rattle.std.specs.Prelude.{List, ℕ};

    ghost Value = { List ℕ };

    ghost view = { λ k. k.codes };
}

impl Key {
    pub fn new(codes: Seq<u8>) -> Key
        ensures { result ≡ codes }
    {
        Key { codes }
    }

    pub fn codes(&self) -> &[u8]
        ensures { result.now ≡ self.now }
    {
        self.codes.as_slice()
    }
}

impl Dup for Key {
    fn dup(&self, alloc: Global) -> Result<Key, Memory> {
        let codes = self.codes.dup(alloc)?;
        Ok(Key { codes })
    }
}

impl PartialEq for Key {
    ghost eq = { bytes_eq };

    ghost laws = { Prim.search (comparing, rules) };

    fn eq(&self, other: &Key) -> bool {
        self.codes() == other.codes()
    }
}

impl Eq for Key {
    ghost laws = { Prim.search (comparing, rules) };
}

impl Hash for Key {
    ghost hash_input = { λ k. k ∷ [] };

    ghost respects_eq = { Prim.search (hashing, rules) };

    fn hash<H: Hasher>(&self, state: &mut H) {
        state.write(self.codes());
    }
}
