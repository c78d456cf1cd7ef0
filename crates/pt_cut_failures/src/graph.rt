//! The graph of a block whose handler rows stand in chains, and the flow of kinds along it.
ghost use Rattle.std.specs.Prelude.{◌≡◌, ◌+◌, ◌≤◌, ℕ, Option, List, length, option_map, Some, IfOk};
ghost use Rattle.pt_code.specs.View.{Ins};
ghost use Rattle.pt_places.specs.PlaceTable.{HasPlaces, entry};
ghost use Rattle.sem_fits.specs.fits.Block.{block_of, links_of};
ghost use Rattle.pt_kind_flow.specs.Search.{IsFlow};
ghost use Rattle.pt_block_kinds.specs.Leads.{leads_of};
ghost use Rattle.pt_cut_failures.specs.Chains.{AreRowChains};
ghost use Rattle.pt_cut_failures.specs.Leads.{leads_from, link_leads, vertex_leads};
ghost use Rattle.pt_cut_failures.specs.Graph.{DrawsCuts};

use crate::chains::{Chains, Link};
use pt_base::Memory;
use pt_block_kinds::{
    add_own, edges_of_row, left, no_runs, number_of, place_at, sum, without_edges,
};
use pt_code::{Code, CodeBlock};
use pt_instr::effect;
use pt_kind_flow::{Edge, Flow};
use pt_places::{Place, Places};
use pt_ranges::Handler;
use pt_verify_depths::{captured, target_of};
use std::alloc::Global;

/// The edges of an instruction at the limit or below whose place has a size.
fn edges_from(
    alloc: Global,
    code: &Code,
    chains: &Chains,
    count: usize,
    links_from: usize,
    limit: usize,
    at: usize,
    place: Option<&Place>,
    size: Option<u64>,
) -> Result<Vec<Edge>, Memory>
    requires { (rows : List Handler) × AreRowChains rows count chains.now }
    ensures { IfOk result (λ edges. leads_of edges.items ≡ leads_from count links_from chains.now
        (links_of code.now) limit at (option_map (λ p. p.now) place.entry) size) }
{
    let mut edges = Vec::new(alloc);
    let (Some(place), Some(size)) = (place, size) else {
        return Ok(edges);
    };
    if at > limit {
        return Ok(edges);
    }
    let effect = effect(&place.instr, captured(code, &place.instr)?);
    let next = place.next.0 as usize;
    let target = number_of(target_of(&place.instr));
    add_own(&mut edges, count, &effect, size, at, next, target)?;
    chains.add_entries(&mut edges, links_from, at, left(&effect, size))?;
    Ok(edges)
}

/// The edges of a link, to its row and to the next one.
fn edges_of_link(
    alloc: Global,
    count: usize,
    links_from: usize,
    number: usize,
    link: Link,
) -> Result<Vec<Edge>, Memory>
    ensures { IfOk result (λ edges. leads_of edges.items
        ≡ link_leads count links_from number (Some link)) }
{
    let mut edges = Vec::new(alloc);
    edges.push(Edge {
        to: sum(count, link.row)?,
        keeps: link.depth,
        given: no_runs(),
        raises: false,
    })?;
    if link.last {
        return Ok(edges);
    }
    edges.push(Edge {
        to: sum(links_from, sum(number, 1)?)?,
        keeps: link.depth,
        given: no_runs(),
        raises: false,
    })?;
    Ok(edges)
}

/// The edges of a vertex.
fn edges_of_vertex(
    alloc: Global,
    code: &Code,
    rows: &[Handler],
    places: &Places,
    sizes: &[Option<u64>],
    limit: usize,
    chains: &Chains,
    vertex: usize,
) -> Result<Vec<Edge>, Memory>
    requires { AreRowChains rows.now (length sizes.now) chains.now }
    ensures { IfOk result (λ edges. leads_of edges.items ≡ vertex_leads (links_of code.now)
        rows.now (entry places.now vertex) limit sizes.now chains.now vertex) }
{
    let count = sizes.len();
    let links_from = sum(count, rows.len())?;
    if vertex < count {
        let place = place_at(places, vertex)?;
        let size = sizes[vertex];
        return edges_from(
            alloc, code, chains, count, links_from, limit, vertex, place, size,
        );
    }
    if vertex < links_from {
        return edges_of_row(alloc, count, rows.get(vertex - count));
    }
    let number = vertex - links_from;
    if number >= chains.links.len() {
        return Ok(Vec::new(alloc));
    }
    edges_of_link(alloc, count, links_from, number, chains.links[number])
}

/// The flow of kinds through the instructions of a block at a limit and below, for the sizes of
/// their places. The vertices are the places, the handler rows and the links of their chains. The
/// first gets its edges last, so that those of all others are there when lists go along them.
///
/// # Errors
///
/// `Memory` for want of it, and where the block has 2^32 bytes, handler rows or free names, as none
/// of a code file has.
pub fn cut_flow(
    alloc: Global,
    code: &Code,
    block: &CodeBlock,
    places: &Places,
    sizes: &[Option<u64>],
    limit: usize,
) -> Result<Flow, Memory>
    ensures flow { IfOk result (λ flow. IsFlow flow) }
    ensures draws { IfOk result (λ flow. (view : ℕ → Option Ins) → HasPlaces view places.now
        → DrawsCuts (block_of code.now block.now view) limit sizes.now flow) }
{
    let rows = block.handlers.as_slice();
    let chains = Chains::build(alloc, rows, sizes.len())?;
    let size = sum(sum(sizes.len(), rows.len())?, chains.links.len())?;
    let mut flow = without_edges(alloc, block.kind, size)?;
    let mut vertex = size;
    while vertex > 0 {
        vertex -= 1;
        let edges = edges_of_vertex(alloc, code, rows, places, sizes, limit, &chains, vertex)?;
        flow.open(vertex, edges)?;
    }
    Ok(flow)
}
