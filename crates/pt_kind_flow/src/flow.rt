//! The longest list with which all lists begin that come to a vertex.
ghost use Rattle.std.specs.Prelude.{◌≡◌, ◌++◌, ◌<◌, ◌∷◌, [], length, replicate, map, set, IfOk, Option, None, option_map};
ghost use Rattle.std.specs.List.{flat_map};
ghost use Rattle.std.specs.BinaryHeap.{heap_items};
ghost use Rattle.pt_instr.specs.Runs.{kinds_of};
ghost use Rattle.pt_kinds.specs.Forest.{IsForest, IsInside, list_at};
ghost use Rattle.pt_kind_flow.specs.Flow.{AreLongest, Descends, edges_at, entry, graph, told};
ghost use Rattle.pt_kind_flow.specs.Search.{AllDescend, GoesOn, GoneOn, IsFirstTable, IsFlow, IsSearch, Leads, Open, Opens, Settled};

use crate::edge_lists::EdgeLists;
use crate::edges::{Edge, led, push_runs};
use crate::packed::PackedEdge;
use pt_base::Memory;
use pt_instr::Run;
use pt_kinds::Forest;
use std::alloc::Global;
use std::collections::BinaryHeap;

/// A list that comes to a vertex. The greater one is seen to first.
#[derive(Clone, Copy, Debug, PartialEq, Eq, PartialOrd, Ord)]
pub struct Arrival {
    /// The greatest number where nothing is known of it yet; else the greater the fewer slots it has
    /// in common with what is told of the vertex.
    pub urgency: u64,
    pub to: usize,
    pub list: usize,
}

/// How urgent an arrival is that has so many slots in common with what is told of its vertex.
fn urgency_of(count: u64) -> u64 {
    (u64::MAX - 1).saturating_sub(count)
}

/// A graph along whose edges lists of kinds go, and for each vertex the longest list with which
/// all of those begin that come there.
#[derive(Debug, Drop)]
pub struct Flow {
    pub forest: Forest,
    /// The kinds with which the first vertex starts.
    pub first: usize,
    pub edges: EdgeLists,
    pub table: Vec<Option<usize>>,
    pub work: BinaryHeap<Arrival>,
}

/// Adds an arrival along each edge of a vertex, but for those that it had before.
fn add_led(
    forest: &mut Forest,
    work: &mut BinaryHeap<Arrival>,
    edges: &[PackedEdge],
    list: usize,
    told: Option<u64>,
) -> Result<(), Memory>
    requires forest { IsForest forest.old }
    requires inside { IsInside forest.old list }
    requires sorted { Descends edges.now }
    ensures { IfOk result (λ _. Leads forest.old forest.new edges.now list told
        (heap_items work.old) (heap_items work.new)) }
{
    for packed in edges.iter() {
        let edge = packed.edge();
        if edge.is_told(told) {
            return Ok(());
        }
        let there = led(forest, &edge, list)?;
        work.push(Arrival {
            urgency: u64::MAX,
            to: edge.to,
            list: there,
        })?;
    }
    Ok(())
}

/// A table in which the first vertex alone has its list.
fn first_table(alloc: Global, count: usize, first: usize) -> Result<Vec<Option<usize>>, Memory>
    ensures { IfOk result (λ table. IsFirstTable count first table.items) }
{
    let mut table = vec![in alloc; None; count]?;
    if count == 0 {
        return Ok(table);
    }
    table[0] = Some(first);
    Ok(table)
}

impl Flow {
    /// A graph of so many vertices without edges, of which the first starts with these kinds.
    ///
    /// # Errors
    ///
    /// `Memory` for want of it.
    pub fn new(alloc: Global, count: usize, first: &[Run]) -> Result<Flow, Memory>
        ensures flow { IfOk result (λ flow. IsFlow flow) }
        ensures edges { IfOk result (λ flow. flow.edges ≡ replicate count []) }
        ensures first { IfOk result (λ flow. (graph flow).first ≡ flat_map kinds_of first.now) }
    {
        let mut forest = Forest::new(alloc)?;
        let first = push_runs(&mut forest, 0, first)?;
        let edges = EdgeLists::new(alloc, count)?;
        let table = first_table(alloc, count, first)?;
        Ok(Flow {
            forest,
            first,
            edges,
            table,
            work: BinaryHeap::new(alloc),
        })
    }

    /// The longest list with which all lists begin that come to a vertex; None where none comes.
    pub fn longest(&self, vertex: usize) -> Option<usize>
        ensures { result ≡ entry self.now.table.items vertex }
    {
        if vertex < self.table.len() {
            self.table[vertex]
        } else {
            None
        }
    }

    /// Tells a list of a vertex, and goes on along its edges. So many of its slots were told
    /// before.
    fn go_on(&mut self, vertex: usize, list: usize, told: Option<u64>) -> Result<(), Memory>
        requires forest { IsForest self.old.forest }
        requires inside { IsInside self.old.forest list }
        requires room { vertex < length self.old.table.items }
        requires edges { vertex < length self.old.edges }
        requires sorted { Descends (edges_at self.old.edges vertex) }
        ensures { IfOk result (λ _. GoneOn self.old self.new vertex list told) }
    {
        self.table[vertex] = Some(list);
        add_led(
            &mut self.forest,
            &mut self.work,
            self.edges.at(vertex),
            list,
            told,
        )
    }

    /// Sees to one arrival, or has it wait until none is left that has fewer slots in common with what
    /// is told of its vertex. So what is told gets shorter once at most, where all edges are there.
    fn arrive(&mut self, arrival: Arrival) -> Result<(), Memory>
        requires opens { Open (graph self.old) self.old.forest self.old.table.items
            (heap_items self.old.work ++ arrival ∷ []) }
        requires first { IsInside self.old.forest self.old.first }
        requires sorted { AllDescend (graph self.old) }
        ensures { IfOk result (λ _. GoesOn self.old self.new) }
    {
        if arrival.to >= self.table.len() {
            return Ok(());
        }
        match self.table[arrival.to] {
            None => {
                self.go_on(arrival.to, arrival.list, None)?;
                Ok(())
            }
            Some(known) => {
                let count = self.forest.common(known, arrival.list);
                if count == self.forest.len(known) {
                    return Ok(());
                }
                if arrival.urgency > urgency_of(count) {
                    self.work.push(Arrival {
                        urgency: urgency_of(count),
                        ..arrival
                    })?;
                    return Ok(());
                }
                let list = self.forest.cut(known, count)?;
                self.go_on(arrival.to, list, Some(count))?;
                Ok(())
            }
        }
    }

    /// Sees to all arrivals.
    fn settle(&mut self) -> Result<(), Memory>
        requires { IsSearch self.old }
        ensures { IfOk result (λ _. Settled self.old self.new) }
    {
        let mut left = u64::MAX;
        while left > 0 {
            let Some(arrival) = self.work.pop() else {
                return Ok(());
            };
            self.arrive(arrival)?;
            left -= 1;
        }
        Err(Memory)
    }

    /// Gives a vertex its edges, and sees to all that comes along them. Those that depend on fewer
    /// slots come later, so that they aren't looked at where its list gets shorter above these.
    ///
    /// # Errors
    ///
    /// `Memory` for want of it, where there are 2^32 edges, and where a list would pass 2^64 slots or
    /// 2^64 lists have come along edges.
    pub fn open(&mut self, vertex: usize, edges: Vec<Edge>) -> Result<(), Memory>
        requires flow { IsFlow self.old }
        requires inside { vertex < length self.old.edges }
        requires none { edges_at self.old.edges vertex ≡ [] }
        requires sorted { Descends edges.items }
        ensures { IfOk result (λ _. Opens self.old self.new vertex edges.items) }
    {
        self.edges.set(vertex, edges)?;
        let Some(list) = self.table[vertex] else {
            return Ok(());
        };
        self.go_on(vertex, list, None)?;
        self.settle()?;
        Ok(())
    }
}

/// What is told of vertices is the longest list with which all begin that come there.
pub fn flows_tell_the_longest()
    ensures { (flow : Flow) → IsFlow flow → AreLongest flow }
{}
