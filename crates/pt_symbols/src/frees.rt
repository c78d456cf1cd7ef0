ghost use Rattle.std.specs.Prelude.{◌≡◌, ◌<◌, ◌==◌, [], length, if◌then◌else◌, OnOk};
ghost use Rattle.sem_names.specs.BlockNames.{with_name};
ghost use Rattle.pt_symbols.specs.Tables.{names_in};

use crate::NameList;
use pt_base::{Memory, Text};
use std::alloc::Global;

/// The names that regions have free, each once and in the order in which they come (Language
/// Reference 4.2.2).
#[derive(Drop)]
pub struct FreeNames {
    rows: Vec<NameList>,
}

impl FreeNames {
    pub fn new(alloc: Global) -> FreeNames
        ensures { (r : _) → names_in result r ≡ [] }
    {
        FreeNames {
            rows: Vec::new(alloc),
        }
    }

    /// The free names of a region.
    pub fn of(&self, region: usize) -> &[Text]
        ensures { result.now ≡ names_in self.now region }
    {
        match self.rows.get(region) {
            Some(row) => row.as_slice(),
            None => &[],
        }
    }

    /// Adds empty rows up to that of a region.
    fn reach(&mut self, alloc: Global, region: usize) -> Result<(), Memory>
        ensures within { OnOk result (region < length self.new.rows.items) }
        ensures same { OnOk result ((r : _) → names_in self.new r ≡ names_in self.old r) }
    {
        while self.rows.len() <= region {
            self.rows.push(NameList::new(alloc))?;
        }
        Ok(())
    }

    /// Puts a name behind the others of a region, if it is none of them.
    pub fn add(&mut self, alloc: Global, region: usize, name: &str) -> Result<(), Memory>
        ensures { OnOk result
            ((r : _) → names_in self.new r
            ≡ (if region == r then with_name (names_in self.old r) name.now
            else names_in self.old r)) }
    {
        self.reach(alloc, region)?;
        self.rows[region].add(alloc, name)
    }
}
