//! The tables in which the names of a script are looked up.

ghost use Rattle.pt_block_names.specs.Tells.{Tells};
ghost use Rattle.std.specs.Prelude.{◌≡◌, None, IfOk};
ghost use Rattle.pt_scopes.specs.Mentions.{places_script};
ghost use Rattle.pt_scopes.specs.Refusals.{fault_of};
ghost use Rattle.pt_scopes.specs.Resolved.{IsResolved};
ghost use Rattle.pt_tree.specs.StatementFold.{script_of};

use pt_base::{Failure, Memory, Seq};
use pt_scopes::{NameSet, Scopes, resolve};
use pt_symbols::{
    BlockShape, FreeNames, MentionTable, NextTable, PlaceTable, RegionSet, captured_names,
    class_makers, class_regions, free_names, mention_table, next_table,
};
use pt_tree::Script;
use std::alloc::Global;

#[derive(Drop)]
pub struct Tables {
    pub scopes: Scopes,
    pub nexts: NextTable,
    pub frees: FreeNames,
    /// The names of functions and comprehensions that some block has free.
    pub captured: NameSet,
    /// The regions that have the class of their functions free, or are that class.
    pub classes: RegionSet,
    /// The blocks that make such a class.
    pub class_makers: RegionSet,
    pub mentions: MentionTable,
}

impl Tables {
    pub fn new(
        alloc: Global,
        places: &PlaceTable,
        blocks: &Seq<BlockShape>,
        nexts: &Seq<Option<u32>>,
        scopes: Scopes,
    ) -> Result<Tables, Memory>
        requires { IsResolved places.now scopes }
        ensures { IfOk result (Tells
            (record { places = places.now; blocks = blocks.now; nexts = nexts.now })) }
    {
        let nexts = next_table(alloc, places, nexts.as_slice())?;
        let frees = free_names(alloc, places)?;
        let captured = captured_names(alloc, places)?;
        let classes = class_regions(alloc, places, blocks.as_slice())?;
        let class_makers = class_makers(alloc, places, &classes)?;
        let mentions = mention_table(alloc, places)?;
        Ok(Tables {
            scopes,
            nexts,
            frees,
            captured,
            classes,
            class_makers,
            mentions,
        })
    }
}

/// The scopes of a script without faults in its declarations.
pub fn scopes_of(alloc: Global, script: &Script) -> Result<Scopes, Memory>
    requires { fault_of (places_script (script_of script.now)) ≡ None }
    ensures { IfOk result (IsResolved (places_script (script_of script.now))) }
{
    match resolve(alloc, script) {
        Ok(scopes) => Ok(scopes),
        Err(Failure::Refused(_)) => unreachable!(),
        Err(Failure::Memory) => Err(Memory),
    }
}
