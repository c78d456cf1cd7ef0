//! The places of a script at which names are mentioned, and which functions and comprehensions have
//! these names.

ghost use Rattle.std.specs.Prelude.{◌≡◌, [], length, slice_get, IfOk};
ghost use Rattle.sem_names.specs.Naming.{comes_through, dotted, is_block as is_block_of};
ghost use Rattle.sem_names.specs.Regions.{class_of, depth_of, is_among, outside, outside_comprehension as outside_of_comprehension};
ghost use Rattle.pt_scopes.specs.Mentions.{places_script};
ghost use Rattle.pt_scopes.specs.Scope.{facts, home_of, meant, owner_from};
ghost use Rattle.pt_tree.specs.StatementFold.{script_of};
ghost use Rattle.pt_symbols.specs.RegionSets.{has_region};

use crate::RegionSet;
use pt_base::{BlockId, Memory, Seq, Text};
use pt_scopes::{Kind, Mention, Names, Region, Table, gathered};
use pt_tree::Script;
use std::alloc::Global;
use std::marker::Model;

#[derive(Drop)]
pub struct PlaceTable {
    table: Table,
    blocks: Seq<usize>,
    mentions: Seq<Mention>,
    /// The regions that are blocks.
    block_regions: RegionSet,
}

impl Model for PlaceTable {
    ghost use Rattle.std.specs.Prelude.{◌≡◌};
    ghost use Rattle.sem_names.specs.Regions.{is_among};
    ghost use Rattle.pt_scopes.specs.Places.{Places};
    ghost use Rattle.pt_scopes.specs.Scope.{facts};
    ghost use Rattle.pt_scopes.specs.Tables.{facts_in};
    ghost use Rattle.pt_symbols.specs.RegionSets.{has_region};

    ghost Value = { Places };

    ghost view = { λ p. record { regions = p.table.regions; blocks = p.blocks; mentions = p.mentions } };

    ghost invariant = { λ p. ((x : _) (r : _) → facts_in p.table.names x r ≡ facts p.mentions x r)
        × ((r : _) → has_region p.block_regions r ≡ is_among p.blocks r) };
}

impl PlaceTable {
    pub fn new(alloc: Global, script: &Script) -> Result<PlaceTable, Memory>
        ensures { IfOk result (λ p. p ≡ places_script (script_of script.now)) }
    {
        let (regions, blocks, mentions) = gathered(alloc, script)?.into_parts();
        let names = Names::build(alloc, mentions.as_slice())?;
        let block_regions = regions_among(alloc, blocks.as_slice())?;
        Ok(PlaceTable {
            table: Table { regions, names },
            blocks,
            mentions,
            block_regions,
        })
    }

    /// The function or comprehension whose name it is, seen from a region outwards.
    pub fn owner(&self, region: usize, name: &str) -> Option<usize>
        ensures { result ≡ owner_from self.now.regions (facts self.now.mentions name.now) region }
    {
        self.table.owner(region, name)
    }

    /// Whose name is meant in a region.
    pub fn meant(&self, region: usize, name: &str) -> Option<usize>
        ensures { result ≡ meant self.now.regions (facts self.now.mentions name.now) region }
    {
        self.table.meant(region, name)
    }

    /// The block to which a region belongs.
    pub fn home(&self, region: usize) -> usize
        ensures { result ≡ home_of self.now.regions region }
    {
        self.table.home(region)
    }

    pub fn region(&self, region: usize) -> Option<Region>
        ensures { result ≡ slice_get self.now.regions region }
    {
        self.table.regions.get(region).copied()
    }

    pub fn region_count(&self) -> usize
        ensures { result ≡ length self.now.regions }
    {
        self.table.regions.len()
    }

    /// The region of a block.
    pub fn block(&self, block: BlockId) -> Option<usize>
        ensures { result ≡ slice_get self.now.blocks block.0 }
    {
        self.blocks.get(block.0 as usize).copied()
    }

    /// A region is a block.
    fn is_block(&self, region: usize) -> bool
        ensures { result ≡ is_block_of self.now region }
    {
        self.block_regions.has(region)
    }

    /// The region in which one stands; the module stands in none.
    pub fn outside(&self, region: usize) -> Option<usize>
        ensures { result ≡ outside (slice_get self.now.regions region) }
    {
        let here = self.region(region)?;
        match here.kind {
            Kind::Module => None,
            Kind::Function => Some(here.around),
            Kind::Class => Some(here.around),
            Kind::Comprehension => Some(here.around),
        }
    }

    /// The innermost class body in which a region stands, or which it is.
    pub fn class_around(&self, region: usize) -> Option<usize>
        ensures { result ≡ class_of self.now.regions region }
    {
        let mut at = region;
        let mut left = self.region_count();
        while left > 0 {
            left -= 1;
            let here = self.region(at)?;
            match here.kind {
                Kind::Module => return None,
                Kind::Function => at = here.around,
                Kind::Class => return Some(at),
                Kind::Comprehension => at = here.around,
            }
        }
        None
    }

    /// A name of a region comes to another one through some block.
    pub fn comes_through(&self, owner: usize, region: usize) -> bool
        ensures { result ≡ comes_through self.now owner region }
    {
        let mut at = region;
        let mut left = self.region_count();
        while left > 0 {
            left -= 1;
            if at == owner {
                return false;
            }
            if self.is_block(at) {
                return true;
            }
            match self.outside(at) {
                Some(around) => at = around,
                None => return false,
            }
        }
        false
    }

    pub fn blocks(&self) -> &[usize]
        ensures { result.now ≡ self.now.blocks }
    {
        self.blocks.as_slice()
    }

    pub fn mentions(&self) -> &[Mention]
        ensures { result.now ≡ self.now.mentions }
    {
        self.mentions.as_slice()
    }
}

/// The regions of blocks, as a set.
fn regions_among(alloc: Global, blocks: &[usize]) -> Result<RegionSet, Memory>
    ensures { IfOk result (λ s. (r : _) → has_region s r ≡ is_among blocks.now r) }
{
    let mut regions = RegionSet::new(alloc);
    for region in blocks {
        regions.add(*region)?;
    }
    Ok(regions)
}

/// A dot for each comprehension of its block in which a region stands.
fn dots(alloc: Global, places: &PlaceTable, region: usize) -> Result<Text, Memory>
    ensures { IfOk result (λ t. t ≡ dotted (depth_of places.now.regions region) []) }
{
    let mut text = Text::new(alloc);
    let mut at = region;
    let mut left = places.region_count();
    while left > 0 {
        left -= 1;
        match outside_comprehension(places, at) {
            Some(around) => {
                text.push_str(".")?;
                at = around;
            }
            None => return Ok(text),
        }
    }
    Ok(text)
}

/// A name as its block has it.
pub fn dotted_name(
    alloc: Global,
    places: &PlaceTable,
    region: usize,
    name: &str,
) -> Result<Text, Memory>
    ensures { IfOk result (λ t. t ≡ dotted (depth_of places.now.regions region) name.now) }
{
    let mut text = dots(alloc, places, region)?;
    text.push_str(name)?;
    Ok(text)
}

/// The region in which a comprehension stands.
fn outside_comprehension(places: &PlaceTable, region: usize) -> Option<usize>
    ensures { result ≡ outside_of_comprehension (slice_get places.now.regions region) }
{
    let here = places.region(region)?;
    match here.kind {
        Kind::Module => None,
        Kind::Function => None,
        Kind::Class => None,
        Kind::Comprehension => Some(here.around),
    }
}
