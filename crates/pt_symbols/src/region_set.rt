ghost use Rattle.std.specs.Prelude.{◌≡◌, ◌||◌, ◌==◌, false, OnOk};
ghost use Rattle.pt_symbols.specs.RegionSets.{has_region};

use pt_base::Memory;
use std::alloc::Global;
use std::collections::BTreeSet;

/// A set of regions, in order.
#[derive(Drop)]
pub struct RegionSet {
    regions: BTreeSet<usize>,
}

impl RegionSet {
    pub fn new(alloc: Global) -> RegionSet
        ensures { (r : _) → has_region result r ≡ false }
    {
        RegionSet {
            regions: BTreeSet::new(alloc),
        }
    }

    pub fn has(&self, region: usize) -> bool
        ensures { result ≡ has_region self.now region }
    {
        self.regions.contains(&region)
    }

    pub fn add(&mut self, region: usize) -> Result<(), Memory>
        ensures { OnOk result
            ((r : _) → has_region self.new r ≡ (has_region self.old r || (region == r))) }
    {
        self.regions.insert(region)?;
        Ok(())
    }
}
