//! The handler rows of a stretch of places in a chain, the deepest first, so that a place leads to
//! all those that leave no more slots than lie there.
ghost use Rattle.std.specs.Prelude.{◌≡◌, ◌+◌, ◌++◌, ◌≤◌, length, map, IfOk};
ghost use Rattle.pt_sizes.specs.Waiting.{AllDescend, Descends, level_of, levels_of, stretch_of};
ghost use Rattle.pt_block_kinds.specs.Leads.{leads_of};
ghost use Rattle.pt_cut_failures.specs.Chains.{AreRowChains, Chained, LaidLevel, LaidLevels, first_within, start_at, starts_of};
ghost use Rattle.pt_cut_failures.specs.Leads.{enter_leads, entering};

use pt_base::Memory;
use pt_block_kinds::{no_runs, numbered, sum};
use pt_kind_flow::Edge;
use pt_ranges::Handler;
use pt_sizes::Waiting;
use std::alloc::Global;

/// A row of a stretch, which leads to the next one unless it is the last.
#[derive(Clone, Copy, Debug)]
pub struct Link {
    /// The number of the row.
    pub row: usize,
    /// How many slots the row leaves.
    pub depth: u64,
    pub last: bool,
}

/// The handler rows in chains.
#[derive(Debug, Drop)]
pub struct Chains {
    /// Where the rows lie, each with its number for a target.
    pub waiting: Waiting,
    /// The first link of each stretch.
    pub starts: Vec<Vec<usize>>,
    pub links: Vec<Link>,
}

fn add_chain(links: &mut Vec<Link>, rows: &[Handler]) -> Result<(), Memory>
    ensures { IfOk result (λ _. Chained links.old.items links.new.items rows.now) }
{
    for at in 0..rows.len() {
        links.push(Link {
            row: rows[at].target.0 as usize,
            depth: rows[at].depth as u64,
            last: at + 1 == rows.len(),
        })?;
    }
    Ok(())
}

/// Adds the chains of a level, and tells where they start.
fn lay_level(
    alloc: Global,
    links: &mut Vec<Link>,
    level: &[Vec<Handler>],
) -> Result<Vec<usize>, Memory>
    ensures { IfOk result (λ starts. LaidLevel links.old.items links.new.items
        (map (λ rows. rows.items) level.now) starts.items) }
{
    let mut starts = Vec::new(alloc);
    for stretch in 0..level.len() {
        starts.push(links.len())?;
        add_chain(links, &level[stretch])?;
    }
    Ok(starts)
}

/// Adds the chains of all levels, and tells where they start.
fn lay_levels(
    alloc: Global,
    links: &mut Vec<Link>,
    levels: &[Vec<Vec<Handler>>],
) -> Result<Vec<Vec<usize>>, Memory>
    ensures { IfOk result (λ starts. LaidLevels links.old.items links.new.items
        (map level_of levels.now) (starts_of starts)) }
{
    let mut starts = Vec::new(alloc);
    for level in 0..levels.len() {
        starts.push(lay_level(alloc, links, &levels[level])?)?;
    }
    Ok(starts)
}

/// How many rows of a stretch leave more slots than these.
fn deeper(rows: &[Handler], below: u64) -> usize
    requires { Descends rows.now }
    ensures { result ≡ first_within rows.now below }
{
    rows.partition_point(|row| row.depth as u64 > below)
}

fn start_at(starts: &[Vec<usize>], level: usize, node: usize) -> usize
    ensures { result ≡ start_at (map (λ firsts. firsts.items) starts.now) level node }
{
    if level >= starts.len() || node >= starts[level].len() {
        return 0;
    }
    starts[level][node]
}

/// Adds the edge to the first row of a stretch that leaves no more slots than these, if one does.
fn add_entry(
    edges: &mut Vec<Edge>,
    links_from: usize,
    rows: &[Handler],
    start: usize,
    below: u64,
) -> Result<(), Memory>
    requires { Descends rows.now }
    ensures { IfOk result (λ _. leads_of edges.new.items ≡ leads_of edges.old.items
        ++ enter_leads links_from rows.now start below) }
{
    let skipped = deeper(rows, below);
    if skipped < rows.len() {
        edges.push(Edge {
            to: sum(links_from, sum(start, skipped)?)?,
            keeps: below,
            given: no_runs(),
            raises: false,
        })?;
    }
    Ok(())
}

/// The same of a stretch of a level, if it has the stretch.
fn add_entry_at(
    edges: &mut Vec<Edge>,
    links_from: usize,
    level: &[Vec<Handler>],
    node: usize,
    start: usize,
    below: u64,
) -> Result<(), Memory>
    requires { Descends (stretch_of (map (λ rows. rows.items) level.now) node) }
    ensures { IfOk result (λ _. leads_of edges.new.items ≡ leads_of edges.old.items
        ++ enter_leads links_from (stretch_of (map (λ rows. rows.items) level.now) node) start
        below) }
{
    if node >= level.len() {
        return Ok(());
    }
    add_entry(edges, links_from, &level[node], start, below)
}

impl Chains {
    /// The rows of a block by the places below a count that they cover.
    pub fn build(alloc: Global, rows: &[Handler], count: usize) -> Result<Chains, Memory>
        ensures { IfOk result (λ chains. AreRowChains rows.now count chains) }
    {
        let waiting = Waiting::build(alloc, &numbered(alloc, rows)?, count)?;
        let mut links = Vec::new(alloc);
        let starts = lay_levels(alloc, &mut links, &waiting.levels)?;
        Ok(Chains {
            waiting,
            starts,
            links,
        })
    }

    /// Adds the edges of a place to the rows that cover it and leave no more slots than these.
    pub fn add_entries(
        &self,
        edges: &mut Vec<Edge>,
        links_from: usize,
        at: usize,
        below: u64,
    ) -> Result<(), Memory>
        requires { AllDescend (levels_of self.now.waiting.levels) }
        ensures { IfOk result (λ _. leads_of edges.new.items ≡ leads_of edges.old.items
            ++ entering links_from (levels_of self.now.waiting.levels) (starts_of self.now.starts)
            at below (length self.now.waiting.levels.items)) }
    {
        let mut node = at;
        for level in 0..self.waiting.levels.len() {
            let start = start_at(&self.starts, level, node);
            add_entry_at(
                edges,
                links_from,
                &self.waiting.levels[level],
                node,
                start,
                below,
            )?;
            node /= 2;
        }
        Ok(())
    }
}
