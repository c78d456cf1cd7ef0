//! The graph of steps, and whether they go round.
ghost use Rattle.std.specs.Prelude.{◌≡◌, map, IfOk};
ghost use Rattle.pt_sizes.specs.Waiting.{level_of};
ghost use Rattle.pt_step_graph.specs.Steps.{TellsSteps};
ghost use Rattle.pt_step_graph.specs.Graph.{HasSteps, ways, width};

use crate::adding::{add_bundle, add_from_place, add_from_stretch, sum};
use crate::exits::Exits;
use pt_base::Memory;
use pt_cycles::{Cycles, Graph, least_on_cycle};
use pt_ranges::Handler;
use pt_sizes::Waiting;
use std::alloc::Global;

/// The steps between places, with handler rows in stretches of the places that they cover, so that
/// there are about as many edges as places and rows.
#[derive(Debug, Drop)]
struct StepGraph {
    exits: Vec<Option<Exits>>,
    bundles: Vec<Vec<usize>>,
    waiting: Waiting,
    /// How many places, bundles and stretches there are.
    size: usize,
}

impl Graph for StepGraph {
    ghost use Rattle.pt_step_graph.specs.Graph.{digraph};

    ghost edges = { digraph };

    fn size(&self) -> usize {
        self.size
    }

    fn add_next(&self, vertex: usize, work: &mut Vec<usize>) -> Result<(), Memory> {
        let count = self.exits.len();
        let bundles = self.bundles.len();
        let first = sum(count, bundles)?;
        if vertex < count {
            return add_from_place(work, count, bundles, first, vertex, self.exits[vertex]);
        }
        if vertex < first {
            return add_bundle(work, count, &self.bundles[vertex - count]);
        }
        add_from_stretch(work, count, first, &self.waiting.levels, vertex - first)
    }
}

/// How many stretches there are.
fn width(levels: &[Vec<Vec<Handler>>]) -> Result<usize, Memory>
    ensures { IfOk result (λ n. n ≡ width (map level_of levels.now)) }
{
    match levels {
        [] => Ok(0),
        [level, above @ ..] => sum(level.len(), width(above)?),
    }
}

fn build(
    alloc: Global,
    exits: Vec<Option<Exits>>,
    bundles: Vec<Vec<usize>>,
    rows: &[Handler],
) -> Result<StepGraph, Memory>
    ensures { IfOk result (λ graph. HasSteps (ways exits bundles rows.now) graph) }
{
    let waiting = Waiting::build(alloc, rows, exits.len())?;
    let first = sum(exits.len(), bundles.len())?;
    let size = sum(first, width(&waiting.levels)?)?;
    Ok(StepGraph {
        exits,
        bundles,
        waiting,
        size,
    })
}

/// The least place on a cycle of steps, or numbers that fall along each step: from the places that
/// have exits, by these, to the places of the bundle of what they hold, and to the targets of the
/// rows that cover them. For n places and r rows, and as many places in bundles, it takes time and
/// memory O((n + r) log n).
///
/// # Errors
///
/// `Memory` for want of it.
pub fn cycles_of_steps(
    alloc: Global,
    exits: Vec<Option<Exits>>,
    bundles: Vec<Vec<usize>>,
    rows: &[Handler],
) -> Result<Cycles, Memory>
    ensures { IfOk result (λ told. TellsSteps (ways exits bundles rows.now) told) }
{
    let count = exits.len();
    let graph = build(alloc, exits, bundles, rows)?;
    least_on_cycle(alloc, &graph, count)
}
