//! The edges of the vertices of a graph, all in one row.
ghost use Rattle.std.specs.Prelude.{◌≡◌, ◌<◌, [], length, replicate, slice_index_or, slice_set, IfOk};
ghost use Rattle.pt_kind_flow.specs.EdgeLists.{AreWithin, edges_in};

use crate::edges::Edge;
use crate::packed::{PackedEdge, add_packed};
use pt_base::Memory;
use std::alloc::Global;
use std::marker::Model;

/// The edges from one number on, and before another.
#[derive(Clone, Copy, Debug)]
pub struct Span {
    pub from: u32,
    pub to: u32,
}

const NO_EDGE: Span = Span { from: 0, to: 0 };

impl Span {
    fn between(from: usize, to: usize) -> Result<Span, Memory>
        ensures { IfOk result (λ span. span ≡ record { from = from; to = to }) }
    {
        match (u32::try_from(from), u32::try_from(to)) {
            (Ok(from), Ok(to)) => Ok(Span { from, to }),
            _ => Err(Memory),
        }
    }
}

/// The edges of each vertex. They lie one behind the other, so that none has memory of its own.
#[derive(Debug, Drop)]
pub struct EdgeLists {
    edges: Vec<PackedEdge>,
    /// Of each vertex, where its edges lie.
    spans: Vec<Span>,
}

impl Model for EdgeLists {
    ghost use Rattle.std.specs.Prelude.{List, length, map};
    ghost use Rattle.pt_kind_flow.specs.declared.edges.Edge.{Edge};
    ghost use Rattle.pt_kind_flow.specs.EdgeLists.{AreWithin, edges_in};

    ghost Value = { List (List Edge) };

    ghost view = { λ l. map (edges_in l.edges.items) l.spans.items };

    ghost invariant = { λ l. AreWithin (length l.edges.items) l.spans.items };
}

impl EdgeLists {
    /// So many vertices without edges.
    pub fn new(alloc: Global, count: usize) -> Result<EdgeLists, Memory>
        ensures { IfOk result (λ lists. lists ≡ replicate count []) }
    {
        let spans = vec![in alloc; NO_EDGE; count]?;
        Ok(EdgeLists {
            edges: Vec::new(alloc),
            spans,
        })
    }

    /// Gives a vertex other edges.
    ///
    /// # Errors
    ///
    /// `Memory` for want of it, and where 2^32 edges have been given.
    pub fn set(&mut self, vertex: usize, edges: Vec<Edge>) -> Result<(), Memory>
        requires { vertex < length self.old }
        ensures { IfOk result (λ _. self.new ≡ slice_set self.old vertex edges.items) }
    {
        let from = self.edges.len();
        add_packed(&mut self.edges, &edges)?;
        let span = Span::between(from, self.edges.len())?;
        self.spans[vertex] = span;
        Ok(())
    }

    /// The edges of a vertex.
    pub fn at(&self, vertex: usize) -> &[PackedEdge]
        requires { vertex < length self.now }
        ensures { result.now ≡ slice_index_or self.now vertex [] }
    {
        let span = self.spans[vertex];
        &self.edges[span.from as usize..span.to as usize]
    }
}
