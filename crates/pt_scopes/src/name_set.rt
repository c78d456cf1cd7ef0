ghost use Rattle.std.specs.Prelude.{◌≡◌, ◌<◌, ◌&&◌, ◌||◌, ◌==◌, length, false, OnOk};
ghost use Rattle.std.specs.Str.{bytes_eq};
ghost use Rattle.pt_scopes.specs.NameSets.{is_in};

use pt_base::Memory;
use std::alloc::Global;
use std::collections::BTreeSet;

/// Names, each with the regions that it is in. They stand in order, so that no choice of names makes a
/// look-up take more than a logarithm of their count.
#[derive(Drop)]
pub struct NameSet {
    rows: Vec<BTreeSet<String>>,
}

impl NameSet {
    pub fn new(alloc: Global) -> NameSet
        ensures { (r : _) (x : _) → is_in result r x ≡ false }
    {
        NameSet {
            rows: Vec::new(alloc),
        }
    }

    pub fn has(&self, region: usize, name: &str) -> bool
        ensures { result ≡ is_in self.now region name.now }
    {
        match self.rows.get(region) {
            Some(row) => row.contains(name),
            None => false,
        }
    }

    /// Adds empty rows up to that of a region.
    fn reach(&mut self, alloc: Global, region: usize) -> Result<(), Memory>
        ensures within { OnOk result (region < length self.new.rows.items) }
        ensures same { OnOk result ((r : _) (x : _) → is_in self.new r x ≡ is_in self.old r x) }
    {
        while self.rows.len() <= region {
            self.rows.push(BTreeSet::new(alloc))?;
        }
        Ok(())
    }

    pub fn add(&mut self, alloc: Global, region: usize, name: &str) -> Result<(), Memory>
        ensures { OnOk result
            ((r : _) (x : _)
            → is_in self.new r x ≡ (is_in self.old r x || ((region == r) && bytes_eq name.now x))) }
    {
        self.reach(alloc, region)?;
        let name = String::from_str(alloc, name)?;
        self.rows[region].insert(name)?;
        Ok(())
    }
}
