ghost use Rattle.std.specs.Prelude.{◌≡◌, ◌&&◌, ◌<◌, ◌==◌, length, if◌then◌else◌, Some, None, OnOk};
ghost use Rattle.pt_symbols.specs.Tables.{next_in};

use pt_base::Memory;
use std::alloc::Global;
use std::collections::BTreeMap;

/// The comprehensions of each block, by the numbers of their first Nexts (Language Reference 6.2.4).
#[derive(Drop)]
pub struct NextTable {
    rows: Vec<BTreeMap<u32, usize>>,
}

impl NextTable {
    pub fn new(alloc: Global) -> NextTable
        ensures { (h : _) (n : _) → next_in result h n ≡ None }
    {
        NextTable {
            rows: Vec::new(alloc),
        }
    }

    /// The comprehension with a number in the block that is a region.
    pub fn get(&self, block: usize, next: u32) -> Option<usize>
        ensures { result ≡ next_in self.now block next }
    {
        match self.rows.get(block) {
            Some(row) => row.get(&next).copied(),
            None => None,
        }
    }

    /// Adds empty rows up to that of a block.
    fn reach(&mut self, alloc: Global, block: usize) -> Result<(), Memory>
        ensures within { OnOk result (block < length self.new.rows.items) }
        ensures same { OnOk result
            ((h : _) (n : _) → next_in self.new h n ≡ next_in self.old h n) }
    {
        while self.rows.len() <= block {
            self.rows.push(BTreeMap::new(alloc))?;
        }
        Ok(())
    }

    /// Gives a number of a block its comprehension, in place of the one that it had.
    pub fn put(
        &mut self,
        alloc: Global,
        block: usize,
        next: u32,
        region: usize,
    ) -> Result<(), Memory>
        ensures { OnOk result
            ((h : _) (n : _) → next_in self.new h n
            ≡ (if (block == h) && (next == n) then Some region else next_in self.old h n)) }
    {
        self.reach(alloc, block)?;
        self.rows[block].insert(next, region)?;
        Ok(())
    }
}
