//! The graph of a block, and the flow of kinds along it.
ghost use Rattle.std.specs.Prelude.{◌≡◌, ◌≤◌, ℕ, List, Contains, length, map, Option, option_map, IfOk};
ghost use Rattle.pt_instr.specs.Runs.{kinds_of};
ghost use Rattle.pt_ranges.specs.declared.handlers.Handler.{Handler};
ghost use Rattle.pt_places.specs.PlaceTable.{HasPlaces, entry};
ghost use Rattle.pt_code.specs.View.{Ins};
ghost use Rattle.pt_sizes.specs.Waiting.{level_of, levels_of};
ghost use Rattle.pt_step_graph.specs.Graph.{width};
ghost use Rattle.sem_fits.specs.fits.Block.{block_of, kinds_at_start, links_of};
ghost use Rattle.pt_block_kinds.specs.Leads.{Lead, leads_from, leads_of, numbered, vertex_leads};
ghost use Rattle.pt_block_kinds.specs.Graph.{AreLaid};
ghost use Rattle.pt_block_kinds.specs.Drawing.{DrawnFrom, Draws, IsPlan};

use crate::leads::{add_stretch, edges_of_place, edges_of_row, sum};
use pt_base::{Memory, Pc};
use pt_code::{BlockKind, Code, CodeBlock};
use pt_instr::{Kind, Run, effect};
use pt_kind_flow::{Edge, Flow};
use pt_places::{Place, Places};
use pt_ranges::Handler;
use pt_sizes::Waiting;
use pt_verify_depths::{captured, target_of};
use std::alloc::Global;

/// The kinds of slots that come to the places of a block.
#[derive(Debug, Drop)]
pub struct BlockKinds {
    pub flow: Flow,
    /// The first vertex of the handler rows.
    pub rows_from: usize,
}

/// Where the handler rows lie, each by its number.
#[derive(Debug, Drop)]
struct Plan {
    waiting: Waiting,
    /// How many slots the deepest row leaves.
    deepest: u32,
    rows_from: usize,
    /// How many vertices there are.
    size: usize,
}

/// How many slots the deepest row leaves.
fn deepest(rows: &[Handler]) -> u32
    ensures { (row : Handler) → Contains rows.now row → row.depth ≤ result }
{
    let mut most = 0;
    for at in 0..rows.len() {
        most = rows[at].depth.max(most);
    }
    most
}

/// The rows with their numbers for targets.
pub fn numbered(alloc: Global, rows: &[Handler]) -> Result<Vec<Handler>, Memory>
    ensures { IfOk result (λ found. found.items ≡ numbered 0 rows.now) }
{
    let mut found = Vec::new(alloc);
    for at in 0..rows.len() {
        let Ok(number) = u32::try_from(at) else {
            return Err(Memory);
        };
        found.push(Handler {
            target: Pc(number),
            ..rows[at]
        })?;
    }
    Ok(found)
}

/// How many stretches there are.
fn width(levels: &[Vec<Vec<Handler>>]) -> Result<usize, Memory>
    ensures { IfOk result (λ n. n ≡ width (map level_of levels.now)) }
{
    match levels {
        [] => Ok(0),
        [level, above @ ..] => sum(level.len(), width(above)?),
    }
}

/// The rows with their numbers by the places that they cover. Where there are none, no level is made.
fn waiting(alloc: Global, rows: &[Handler], count: usize) -> Result<Waiting, Memory>
    ensures { IfOk result (λ waiting. AreLaid rows.now count (levels_of waiting.levels)) }
{
    if rows.is_empty() {
        return Ok(Waiting {
            levels: Vec::new(alloc),
        });
    }
    let numbered = numbered(alloc, rows)?;
    let waiting = Waiting::build(alloc, &numbered, count)?;
    Ok(waiting)
}

fn lay_rows(alloc: Global, rows: &[Handler], count: usize) -> Result<Plan, Memory>
    ensures { IfOk result (λ plan. IsPlan rows.now count plan) }
{
    let waiting = waiting(alloc, rows, count)?;
    let rows_from = sum(count, width(&waiting.levels)?)?;
    Ok(Plan {
        waiting,
        deepest: deepest(rows),
        rows_from,
        size: sum(rows_from, rows.len())?,
    })
}

/// A place by its number.
pub fn number_of(place: Option<Pc>) -> Option<usize>
    ensures { result ≡ option_map (λ t. t.0) place }
{
    match place {
        None => None,
        Some(place) => Some(place.0 as usize),
    }
}

/// The edges of an instruction at the limit or below whose place has a size.
fn edges_from(
    alloc: Global,
    code: &Code,
    count: usize,
    rows_from: usize,
    limit: usize,
    at: usize,
    place: Option<&Place>,
    size: Option<u64>,
) -> Result<Vec<Edge>, Memory>
    ensures { IfOk result (λ edges. leads_of edges.items ≡ leads_from count rows_from
        (links_of code.now) limit at (option_map (λ p. p.now) place.entry) size) }
{
    let (Some(place), Some(size)) = (place, size) else {
        return Ok(Vec::new(alloc));
    };
    if at > limit {
        return Ok(Vec::new(alloc));
    }
    let effect = effect(&place.instr, captured(code, &place.instr)?);
    edges_of_place(
        alloc,
        count,
        rows_from,
        &effect,
        size,
        at,
        place.next.0 as usize,
        number_of(target_of(&place.instr)),
    )
}

/// What stands at a vertex, if it is a place.
pub fn place_at(places: &Places, vertex: usize) -> Result<Option<&Place>, Memory>
    ensures { IfOk result (λ place. option_map (λ p. p.now) place ≡ entry places.now vertex) }
{
    match u32::try_from(vertex) {
        Err(_) => Err(Memory),
        Ok(pc) => Ok(places.at(Pc(pc))),
    }
}

/// The edges of a vertex.
fn edges_of_vertex(
    alloc: Global,
    code: &Code,
    rows: &[Handler],
    places: &Places,
    sizes: &[Option<u64>],
    limit: usize,
    plan: &Plan,
    vertex: usize,
) -> Result<Vec<Edge>, Memory>
    requires { IsPlan rows.now (length sizes.now) plan.now }
    ensures { IfOk result (λ edges. leads_of edges.items ≡ vertex_leads (links_of code.now)
        rows.now (entry places.now vertex) limit sizes.now (levels_of plan.now.waiting.levels)
        plan.now.deepest vertex) }
{
    let count = sizes.len();
    if vertex < count {
        let place = place_at(places, vertex)?;
        let size = sizes[vertex];
        return edges_from(
            alloc,
            code,
            count,
            plan.rows_from,
            limit,
            vertex,
            place,
            size,
        );
    }
    if vertex < plan.rows_from {
        let mut edges = Vec::with_capacity(alloc, 1)?;
        add_stretch(
            &mut edges,
            plan.rows_from,
            plan.deepest,
            count,
            &plan.waiting.levels,
            vertex - count,
        )?;
        return Ok(edges);
    }
    edges_of_row(alloc, count, rows.get(vertex - plan.rows_from))
}

/// The run with which a block starts.
pub fn first_run(kind: BlockKind) -> Run
    ensures { kinds_of result ≡ kinds_at_start kind }
{
    match kind {
        BlockKind::GeneratorExpression => Run {
            kind: Kind::Iter,
            count: 1,
        },
        _ => Run {
            kind: Kind::Value,
            count: 0,
        },
    }
}

/// A graph without edges.
pub fn without_edges(alloc: Global, kind: BlockKind, size: usize) -> Result<Flow, Memory>
    ensures { IfOk result (λ flow. (leads : ℕ → List Lead)
        → DrawnFrom (kinds_at_start kind) size leads size flow) }
{
    Flow::new(alloc, size, &[first_run(kind)])
}

/// The flow of kinds through the instructions of a block at a limit and below, for the sizes of
/// their places. For n places and r handler rows there are O(n + r log n) edges. The first vertex
/// gets its edges last, so that those of all others are there when lists go along them, and each is
/// gone along twice at most.
///
/// # Errors
///
/// `Memory` for want of it, and where the block has 2^32 bytes, handler rows or free names, as none
/// of a code file has.
pub fn kinds_up_to(
    alloc: Global,
    code: &Code,
    block: &CodeBlock,
    places: &Places,
    sizes: &[Option<u64>],
    limit: usize,
) -> Result<BlockKinds, Memory>
    ensures { IfOk result (λ kinds. (view : ℕ → Option Ins) → HasPlaces view places.now
        → Draws (block_of code.now block.now view) limit sizes.now kinds) }
{
    let rows = block.handlers.as_slice();
    let plan = lay_rows(alloc, rows, sizes.len())?;
    let mut flow = without_edges(alloc, block.kind, plan.size)?;
    let mut vertex = plan.size;
    while vertex > 0 {
        vertex -= 1;
        let edges = edges_of_vertex(alloc, code, rows, places, sizes, limit, &plan, vertex)?;
        flow.open(vertex, edges)?;
    }
    Ok(BlockKinds {
        flow,
        rows_from: plan.rows_from,
    })
}
