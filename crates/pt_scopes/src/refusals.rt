//! The first fault in the declarations of a script.

ghost use Rattle.std.specs.Prelude.{◌≡◌, [], IfOk, OnOk};
ghost use Rattle.pt_scopes.specs.Refusals.{declaration_fault, earlier as earlier_of, fault as fault_with, first_fault as fault_in, is_offered};
ghost use Rattle.pt_scopes.specs.Tables.{earlier_in, facts_in, seen as seen_too, used_too};

use crate::name_set::NameSet;
use crate::region::{Earlier, Mention, Role};
use crate::scope::ScopeErr;
use crate::table::Table;
use pt_base::{Dup, Memory};
use std::alloc::Global;

/// What was said of names in regions.
#[derive(Drop)]
struct Seen {
    parameters: NameSet,
    global: NameSet,
    nonlocal: NameSet,
    used: NameSet,
}

impl Seen {
    fn new(alloc: Global) -> Seen
        ensures { (x : _) (r : _) (rs : _) (look : _)
            → earlier_in result x r ≡ earlier_of rs look [] x r }
    {
        Seen {
            parameters: NameSet::new(alloc),
            global: NameSet::new(alloc),
            nonlocal: NameSet::new(alloc),
            used: NameSet::new(alloc),
        }
    }

    fn earlier(&self, region: usize, name: &str) -> Earlier
        ensures { result ≡ earlier_in self.now name.now region }
    {
        Earlier {
            parameter: self.parameters.has(region, name),
            global: self.global.has(region, name),
            nonlocal: self.nonlocal.has(region, name),
            used: self.used.has(region, name),
        }
    }

    /// A use of a name, where it is read or bound in the end.
    fn note_use(&mut self, alloc: Global, table: &Table, m: &Mention) -> Result<(), Memory>
        ensures { OnOk result
            ((x : _) (r : _)
            → earlier_in self.new x r
            ≡ used_too table.now.regions (facts_in table.now.names) m.now x r
            (earlier_in self.old x r)) }
    {
        match table.seat(m.region, m.name.as_str()) {
            Some(seat) => self.used.add(alloc, seat, m.name.as_str()),
            None => Ok(()),
        }
    }

    fn note(&mut self, alloc: Global, table: &Table, m: &Mention) -> Result<(), Memory>
        ensures { OnOk result
            ((x : _) (r : _)
            → earlier_in self.new x r
            ≡ seen_too table.now.regions (facts_in table.now.names) m.now.role m.now x r
            (earlier_in self.old x r)) }
    {
        match m.role {
            Role::Read => self.note_use(alloc, table, m),
            Role::Bind => self.note_use(alloc, table, m),
            Role::Parameter => self.parameters.add(alloc, m.region, m.name.as_str()),
            Role::Global => self.global.add(alloc, m.region, m.name.as_str()),
            Role::Nonlocal => self.nonlocal.add(alloc, m.region, m.name.as_str()),
            Role::Misplaced => Ok(()),
        }
    }
}

fn twice(alloc: Global, m: &Mention) -> Result<Option<ScopeErr>, Memory>
    ensures { IfOk result (λ f. f ≡ Some (ScopeErr.Twice m.now.name m.now.line)) }
{
    let name = m.name.dup(alloc)?;
    Ok(Some(ScopeErr::Twice { name, line: m.line }))
}

fn late(alloc: Global, m: &Mention) -> Result<Option<ScopeErr>, Memory>
    ensures { IfOk result (λ f. f ≡ Some (ScopeErr.LateDecl m.now.name m.now.line)) }
{
    let name = m.name.dup(alloc)?;
    Ok(Some(ScopeErr::LateDecl { name, line: m.line }))
}

fn no_binding(alloc: Global, m: &Mention) -> Result<Option<ScopeErr>, Memory>
    ensures { IfOk result (λ f. f ≡ Some (ScopeErr.NoBinding m.now.name m.now.line)) }
{
    let name = m.name.dup(alloc)?;
    Ok(Some(ScopeErr::NoBinding { name, line: m.line }))
}

/// The fault of a declaration beside the other one.
fn declaration(
    alloc: Global,
    e: Earlier,
    other: bool,
    m: &Mention,
) -> Result<Option<ScopeErr>, Memory>
    ensures { IfOk result (λ f. f ≡ declaration_fault e other m.now) }
{
    if e.parameter || other {
        twice(alloc, m)
    } else if e.used {
        late(alloc, m)
    } else {
        Ok(None)
    }
}

/// The fault of a mention.
fn fault(alloc: Global, table: &Table, e: Earlier, m: &Mention) -> Result<Option<ScopeErr>, Memory>
    ensures { IfOk result
        (λ f. f ≡ fault_with
        (is_offered table.now.regions (facts_in table.now.names m.now.name) m.now.region)
        e m.now m.now.role) }
{
    match m.role {
        Role::Read => Ok(None),
        Role::Bind => Ok(None),
        Role::Parameter => {
            if e.parameter {
                twice(alloc, m)
            } else {
                Ok(None)
            }
        }
        Role::Global => declaration(alloc, e, e.nonlocal, m),
        Role::Nonlocal => {
            if table.is_offered(m.region, m.name.as_str()) {
                declaration(alloc, e, e.global, m)
            } else {
                no_binding(alloc, m)
            }
        }
        Role::Misplaced => Ok(Some(ScopeErr::Outside { line: m.line })),
    }
}

/// The fault of the first mention that has one.
pub fn first_fault(
    alloc: Global,
    table: &Table,
    mentions: &[Mention],
) -> Result<Option<ScopeErr>, Memory>
    ensures { IfOk result
        (λ f. f ≡ fault_in table.now.regions (facts_in table.now.names) [] mentions.now) }
{
    let mut seen = Seen::new(alloc);
    for m in mentions {
        let earlier = seen.earlier(m.region, m.name.as_str());
        let found = fault(alloc, table, earlier, m)?;
        if found.is_some() {
            return Ok(found);
        }
        seen.note(alloc, table, m)?;
    }
    Ok(None)
}
