//! The least vertex on a cycle, or ranks.
ghost use Rattle.std.specs.Prelude.{ℕ, ◌≡◌, ◌<◌, length, IfOk};
ghost use Rattle.pt_cycles.specs.Graphs.{AreComponents, Stays, TellsCycles};

use crate::graph::Graph;
use crate::search::components;
use pt_base::Memory;
use std::alloc::Global;

/// Whether vertices lie on cycles.
#[derive(Debug, Drop)]
pub enum Cycles {
    /// None does: these numbers fall along each walk from one.
    Ranks(Vec<usize>),
    /// The least that does.
    Least(usize),
}

/// Whether an edge from a vertex stays in its component.
fn stays<G: Graph>(
    graph: &G,
    table: &[usize],
    vertex: usize,
    work: &mut Vec<usize>,
) -> Result<bool, Memory>
    requires inside { vertex < length table.now }
    requires long { length table.now ≡ (G.edges graph.now).size }
    ensures { IfOk result (λ found. Stays found (G.edges graph.now) table.now vertex) }
{
    work.clear();
    graph.add_next(vertex, work)?;
    for next in work.iter() {
        if *next < table.len() && table[*next] == table[vertex] {
            return Ok(true);
        }
    }
    Ok(false)
}

/// The least of the vertices below a count that lies on a cycle, or numbers that fall along each
/// walk from one. It takes time linear in the vertices and edges of the graph.
///
/// # Errors
///
/// `Memory` for want of it.
pub fn least_on_cycle<G: Graph>(alloc: Global, graph: &G, count: usize) -> Result<Cycles, Memory>
    ensures { IfOk result (λ told. TellsCycles (G.edges graph.now) count told) }
{
    let table = components(alloc, graph)?;
    let mut work = Vec::new(alloc);
    for vertex in 0..count.min(table.len()) {
        if stays(graph, &table, vertex, &mut work)? {
            return Ok(Cycles::Least(vertex));
        }
    }
    Ok(Cycles::Ranks(table))
}
