//! The regions of a script, and which names they bind and declare.

ghost use Rattle.std.specs.Prelude.{◌≡◌, [], slice_get, IfOk, OnOk};
ghost use Rattle.pt_scopes.specs.Refusals.{handed, handed_at, is_offered as is_offered_in, seat_from};
ghost use Rattle.pt_scopes.specs.Scope.{facts as facts_of, home_of, meant as meant_in, owner_from, owns as owns_name, verdict, verdict_at};
ghost use Rattle.pt_scopes.specs.Tables.{facts_in, noted};

use crate::name_set::NameSet;
use crate::region::{Facts, Kind, Mention, Region, Role, Verdict};
use pt_base::{Memory, Seq};
use std::alloc::Global;

/// The names that regions bind and declare.
#[derive(Drop)]
pub struct Names {
    bound: NameSet,
    global: NameSet,
    nonlocal: NameSet,
}

impl Names {
    fn new(alloc: Global) -> Names
        ensures { (x : _) (r : _) → facts_in result x r ≡ facts_of [] x r }
    {
        Names {
            bound: NameSet::new(alloc),
            global: NameSet::new(alloc),
            nonlocal: NameSet::new(alloc),
        }
    }

    fn facts(&self, region: usize, name: &str) -> Facts
        ensures { result ≡ facts_in self.now name.now region }
    {
        Facts {
            binds: self.bound.has(region, name),
            global: self.global.has(region, name),
            nonlocal: self.nonlocal.has(region, name),
        }
    }

    fn note(&mut self, alloc: Global, m: &Mention) -> Result<(), Memory>
        ensures { OnOk result
            ((x : _) (r : _)
            → facts_in self.new x r ≡ noted m.now.role m.now x r (facts_in self.old x r)) }
    {
        match m.role {
            Role::Read => Ok(()),
            Role::Bind => self.bound.add(alloc, m.region, m.name.as_str()),
            Role::Parameter => self.bound.add(alloc, m.region, m.name.as_str()),
            Role::Global => self.global.add(alloc, m.region, m.name.as_str()),
            Role::Nonlocal => self.nonlocal.add(alloc, m.region, m.name.as_str()),
            Role::Misplaced => Ok(()),
        }
    }

    /// The names that mentions bind and declare.
    pub fn build(alloc: Global, mentions: &[Mention]) -> Result<Names, Memory>
        ensures { IfOk result
            (λ names. (x : _) (r : _) → facts_in names x r ≡ facts_of mentions.now x r) }
    {
        let mut names = Names::new(alloc);
        for m in mentions {
            names.note(alloc, m)?;
        }
        Ok(names)
    }
}

fn owns(facts: Facts) -> bool
    ensures { result ≡ owns_name facts }
{
    facts.binds && !facts.global && !facts.nonlocal
}

/// What a region says of a name that is looked for from inside.
fn verdict_of(here: Region, facts: Facts) -> Verdict
    ensures { result ≡ verdict facts here here.kind }
{
    match here.kind {
        Kind::Module => Verdict::Nobody,
        Kind::Class => Verdict::Outwards(here.around),
        Kind::Function => {
            if owns(facts) {
                Verdict::Own
            } else if facts.global {
                Verdict::Nobody
            } else {
                Verdict::Outwards(here.around)
            }
        }
        Kind::Comprehension => {
            if owns(facts) {
                Verdict::Own
            } else {
                Verdict::Outwards(here.around)
            }
        }
    }
}

/// Whether a region keeps a name that is mentioned in it.
fn handed_of(here: Region, facts: Facts) -> Verdict
    ensures { result ≡ handed facts here here.kind }
{
    match here.kind {
        Kind::Module => Verdict::Own,
        Kind::Function => Verdict::Own,
        Kind::Class => Verdict::Own,
        Kind::Comprehension => {
            if facts.binds {
                Verdict::Own
            } else {
                Verdict::Outwards(here.around)
            }
        }
    }
}

/// The regions of a script with their names.
#[derive(Drop)]
pub struct Table {
    pub regions: Seq<Region>,
    pub names: Names,
}

impl Table {
    pub fn facts(&self, region: usize, name: &str) -> Facts
        ensures { result ≡ facts_in self.now.names name.now region }
    {
        self.names.facts(region, name)
    }

    fn verdict(&self, region: usize, name: &str) -> Verdict
        ensures { result
            ≡ verdict_at (facts_in self.now.names name.now region)
            (slice_get self.now.regions region) }
    {
        match self.regions.get(region) {
            Some(here) => verdict_of(*here, self.facts(region, name)),
            None => Verdict::Nobody,
        }
    }

    fn handed(&self, region: usize, name: &str) -> Verdict
        ensures { result
            ≡ handed_at (facts_in self.now.names name.now region)
            (slice_get self.now.regions region) }
    {
        match self.regions.get(region) {
            Some(here) => handed_of(*here, self.facts(region, name)),
            None => Verdict::Own,
        }
    }

    /// The function or comprehension whose name it is, seen from a region outwards.
    pub fn owner(&self, region: usize, name: &str) -> Option<usize>
        ensures { result ≡ owner_from self.now.regions (facts_in self.now.names name.now) region }
    {
        let mut at = region;
        let mut left = self.regions.len();
        while left > 0 {
            left -= 1;
            match self.verdict(at, name) {
                Verdict::Own => return Some(at),
                Verdict::Nobody => return None,
                Verdict::Outwards(next) => at = next,
            }
        }
        None
    }

    /// The region in which a name that is mentioned in a region is read or bound.
    pub fn seat(&self, region: usize, name: &str) -> Option<usize>
        ensures { result ≡ seat_from self.now.regions (facts_in self.now.names name.now) region }
    {
        let mut at = region;
        let mut left = self.regions.len();
        while left > 0 {
            left -= 1;
            match self.handed(at, name) {
                Verdict::Own => return Some(at),
                Verdict::Nobody => return None,
                Verdict::Outwards(next) => at = next,
            }
        }
        None
    }

    /// Whose name is meant in a region.
    pub fn meant(&self, region: usize, name: &str) -> Option<usize>
        ensures { result ≡ meant_in self.now.regions (facts_in self.now.names name.now) region }
    {
        let here = self.regions.get(region)?;
        let facts = self.facts(region, name);
        if here.kind == Kind::Class && (owns(facts) || facts.global) {
            None
        } else {
            self.owner(region, name)
        }
    }

    /// The block to which a region belongs.
    pub fn home(&self, region: usize) -> usize
        ensures { result ≡ home_of self.now.regions region }
    {
        match self.regions.get(region) {
            Some(here) => here.home,
            None => region,
        }
    }

    /// Whether a function around a region offers it the name.
    pub fn is_offered(&self, region: usize, name: &str) -> bool
        ensures { result
            ≡ is_offered_in self.now.regions (facts_in self.now.names name.now) region }
    {
        let around = match self.regions.get(region) {
            Some(here) => here.around,
            None => region,
        };
        self.owner(around, name).is_some()
    }
}
