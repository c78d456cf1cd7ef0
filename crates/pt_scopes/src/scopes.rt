ghost use Rattle.std.specs.Prelude.{◌≡◌, IfOk, IfErr, OnOk};
ghost use Rattle.pt_base.specs.Failures.{IfRefused};
ghost use Rattle.pt_scopes.specs.Mentions.{places_script};
ghost use Rattle.pt_scopes.specs.NameSets.{is_in};
ghost use Rattle.pt_scopes.specs.Resolved.{scope_told, IsRefused, IsResolved};
ghost use Rattle.pt_scopes.specs.Scope.{bound_scope as bound_in, is_captured, scope_in};
ghost use Rattle.pt_scopes.specs.Tables.{captured_too, facts_in};
ghost use Rattle.pt_tree.specs.StatementFold.{script_of};

use crate::name_set::NameSet;
use crate::refusals::first_fault;
use crate::region::{Kind, Mention, Region};
use crate::scope::{Scope, ScopeErr};
use crate::statements::gathered;
use crate::table::{Names, Table};
use pt_base::{BlockId, Failure, Memory, Seq};
use pt_tree::Script;
use std::alloc::Global;

/// The scopes of the names of a script.
#[derive(Drop)]
pub struct Scopes {
    blocks: Seq<usize>,
    table: Table,
    captured: NameSet,
}

/// The scope of a name that a block binds.
fn bound_scope(captured: bool, kind: Kind) -> Scope
    ensures { result ≡ bound_in captured kind }
{
    match kind {
        Kind::Module => Scope::Global,
        Kind::Function => { if captured { Scope::Cell } else { Scope::Local } }
        Kind::Class => Scope::Class,
        Kind::Comprehension => { if captured { Scope::Cell } else { Scope::Local } }
    }
}

impl Scopes {
    fn scope_in(&self, region: usize, here: Region, name: &str) -> Scope
        ensures { Some result
            ≡ scope_in self.now.table.regions (facts_in self.now.table.names)
            (is_in self.now.captured) region name.now (Some here) }
    {
        let facts = self.table.facts(region, name);
        if facts.global {
            Scope::Global
        } else if facts.nonlocal {
            Scope::Free
        } else if facts.binds {
            bound_scope(self.captured.has(region, name), here.kind)
        } else {
            match self.table.owner(here.around, name) {
                Some(_) => Scope::Free,
                None => Scope::Global,
            }
        }
    }

    /// The scope of a name in a block (Language Reference 4.2.2), also of one that the block doesn't
    /// mention. `None` where no block has this number.
    pub fn of(&self, block: BlockId, name: &str) -> Option<Scope>
        ensures { result ≡ scope_told self.now block.0 name.now }
    {
        let region = *self.blocks.get(block.0 as usize)?;
        let here = *self.table.regions.get(region)?;
        Some(self.scope_in(region, here, name))
    }
}

/// A mention in another block than the function that owns the name.
fn note_captured(
    alloc: Global,
    table: &Table,
    captured: &mut NameSet,
    m: &Mention,
) -> Result<(), Memory>
    ensures { OnOk result
        ((r : _) (x : _)
        → is_in captured.new r x
        ≡ captured_too table.now.regions (facts_in table.now.names) m.now r x
        (is_in captured.old r x)) }
{
    match table.meant(m.region, m.name.as_str()) {
        Some(owner) => {
            if table.home(m.region) == owner {
                Ok(())
            } else {
                captured.add(alloc, owner, m.name.as_str())
            }
        }
        None => Ok(()),
    }
}

/// The names of functions that other blocks read.
fn captured(alloc: Global, table: &Table, mentions: &[Mention]) -> Result<NameSet, Memory>
    ensures { IfOk result
        (λ s. (r : _) (x : _)
        → is_in s r x ≡ is_captured table.now.regions (facts_in table.now.names) mentions.now r x) }
{
    let mut captured = NameSet::new(alloc);
    for m in mentions {
        note_captured(alloc, table, &mut captured, m)?;
    }
    Ok(captured)
}

/// The scopes of the names of a script, or the first fault in its declarations.
pub fn resolve(alloc: Global, script: &Script) -> Result<Scopes, Failure<ScopeErr>>
    ensures ok { IfOk result (IsResolved (places_script (script_of script.now))) }
    ensures err { IfErr result (IfRefused (IsRefused (places_script (script_of script.now)))) }
{
    let (regions, blocks, mentions) = gathered(alloc, script)?.into_parts();
    let names = Names::build(alloc, mentions.as_slice())?;
    let table = Table { regions, names };
    match first_fault(alloc, &table, mentions.as_slice())? {
        Some(fault) => Err(Failure::Refused(fault)),
        None => {
            let captured = captured(alloc, &table, mentions.as_slice())?;
            Ok(Scopes {
                blocks,
                table,
                captured,
            })
        }
    }
}
