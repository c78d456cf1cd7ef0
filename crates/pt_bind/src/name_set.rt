ghost use Rattle.std.specs.Prelude.{◌≡◌, ◌||◌, not, false, IfOk, OnOk};
ghost use Rattle.std.specs.Str.{bytes_eq};
ghost use Rattle.pt_bind.specs.NameSets.{has_name, is_among};

use pt_base::{Memory, Text};
use std::alloc::Global;
use std::collections::BTreeSet;

/// Names in order, so that no choice of them makes a look-up take more than a logarithm of their
/// count.
#[derive(Drop)]
pub struct NameSet {
    names: BTreeSet<String>,
}

impl NameSet {
    pub fn new(alloc: Global) -> NameSet
        ensures { (x : _) → has_name result x ≡ false }
    {
        NameSet {
            names: BTreeSet::new(alloc),
        }
    }

    pub fn has(&self, name: &str) -> bool
        ensures { result ≡ has_name self.now name.now }
    {
        self.names.contains(name)
    }

    /// Adds a name, and answers whether it is new.
    pub fn add(&mut self, alloc: Global, name: &str) -> Result<bool, Memory>
        ensures new { IfOk result (λ new. new ≡ not (has_name self.old name.now)) }
        ensures added { OnOk result
            ((x : _) → has_name self.new x ≡ (bytes_eq x name.now || has_name self.old x)) }
    {
        let key = String::from_str(alloc, name)?;
        let is_new = self.names.insert(key)?;
        Ok(is_new)
    }

    /// Adds names.
    pub fn add_all(&mut self, alloc: Global, names: &[Text]) -> Result<(), Memory>
        ensures { OnOk result
            ((x : _) → has_name self.new x ≡ (is_among names.now x || has_name self.old x)) }
    {
        for name in names {
            self.add(alloc, name.as_str())?;
        }
        Ok(())
    }
}
