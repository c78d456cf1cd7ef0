ghost use Rattle.std.specs.Prelude.{◌≡◌, ◌++◌, ◌<◌, ◌==◌, [], ◌∷◌, length, if◌then◌else◌, OnOk};
ghost use Rattle.pt_symbols.specs.Tables.{mentions_in};

use pt_base::{Memory, Seq};
use std::alloc::Global;

/// The mentions of names in each block, by their places among all mentions of a script.
#[derive(Drop)]
pub struct MentionTable {
    rows: Vec<Seq<usize>>,
}

impl MentionTable {
    pub fn new(alloc: Global) -> MentionTable
        ensures { (h : _) → mentions_in result h ≡ [] }
    {
        MentionTable {
            rows: Vec::new(alloc),
        }
    }

    /// The places of the mentions in the block that is a region, in source order.
    pub fn of(&self, region: usize) -> &[usize]
        ensures { result.now ≡ mentions_in self.now region }
    {
        match self.rows.get(region) {
            Some(row) => row.as_slice(),
            None => &[],
        }
    }

    /// Adds empty rows up to that of a region.
    fn reach(&mut self, alloc: Global, region: usize) -> Result<(), Memory>
        ensures within { OnOk result (region < length self.new.rows.items) }
        ensures same { OnOk result ((r : _) → mentions_in self.new r ≡ mentions_in self.old r) }
    {
        while self.rows.len() <= region {
            self.rows.push(Seq::new(alloc))?;
        }
        Ok(())
    }

    /// Puts the place of a mention behind the others of a region.
    pub fn push(&mut self, alloc: Global, region: usize, place: usize) -> Result<(), Memory>
        ensures { OnOk result
            ((r : _) → mentions_in self.new r
            ≡ (if region == r then mentions_in self.old r ++ place ∷ []
            else mentions_in self.old r)) }
    {
        self.reach(alloc, region)?;
        self.rows[region].push(place)
    }
}
