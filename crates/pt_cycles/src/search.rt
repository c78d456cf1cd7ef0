//! Components of a graph by one search, which keeps a path of clusters (Gabow 2000).
ghost use Rattle.std.specs.Prelude.{ℕ, ◌≡◌, ◌++◌, ◌∷◌, [], ◌<◌, ◌≤◌, ◌+◌, length, IfOk};
ghost use Rattle.pt_cycles.specs.Graphs.{AreComponents};
ghost use Rattle.pt_cycles.specs.Search.{Before, Closed, HasNumbers, IsCut, IsLast, IsOpen, IsPut, Open, Rises, Settled, Stepped, Visited, at, number_in};

use crate::graph::Graph;
use pt_base::Memory;
use std::alloc::Global;

/// How far a vertex is known.
#[derive(Clone, Copy, Debug, PartialEq, Eq)]
pub enum State {
    New,
    /// It stands on the path, at this place.
    OnPath(usize),
    /// It is in the component with this number.
    Done(usize),
}

/// Where a cluster begins, on the path and in the work.
#[derive(Clone, Copy, Debug, PartialEq, Eq)]
pub struct Cluster {
    pub path: usize,
    pub work: usize,
}

/// What is known so far. The vertices of a cluster have walks both ways; each cluster leads to the
/// next, and what its edges lead to is still due as work.
#[derive(Debug, Drop)]
struct Search {
    states: Vec<State>,
    path: Vec<usize>,
    work: Vec<usize>,
    clusters: Vec<Cluster>,
    /// The number of the next component.
    next: usize,
}

/// Takes the clusters that begin behind a place away: what is theirs belongs to the one before.
fn cut(clusters: &mut Vec<Cluster>, place: usize) -> Result<(), Memory>
    requires { Rises clusters.old.items }
    ensures { IfOk result (λ _. IsCut place clusters.old.items clusters.new.items) }
{
    while let Some(cluster) = clusters.pop() {
        if cluster.path <= place {
            clusters.push(cluster)?;
            return Ok(());
        }
    }
    Ok(())
}

/// Puts what stands on the path from a place on into a component.
fn put(states: &mut Vec<State>, path: &[usize], start: usize, component: usize)
    requires below { start ≤ length path.now }
    requires inside { (i : ℕ) → i < length path.now
        → at path.now i < length states.old.items }
    ensures { IsPut component start (length path.now) path.now states.old.items
        states.new.items }
{
    for place in start..path.len() {
        states[path[place]] = State::Done(component);
    }
}

impl Search {
    /// Puts a new vertex on the path, a cluster of its own.
    fn visit<G: Graph>(&mut self, graph: &G, vertex: usize) -> Result<(), Memory>
        requires { vertex < length self.old.states.items }
        ensures { IfOk result (λ _. Visited (G.edges graph.now) vertex self.old self.new) }
    {
        let path = self.path.len();
        let work = self.work.len();
        self.states[vertex] = State::OnPath(path);
        self.path.push(vertex)?;
        self.clusters.push(Cluster { path, work })?;
        graph.add_next(vertex, &mut self.work)?;
        Ok(())
    }

    /// Makes what stands on the path from a place on a component.
    fn close(&mut self, start: usize) -> Result<(), Memory>
        requires below { start ≤ length self.old.path.items }
        requires inside { (i : ℕ) → i < length self.old.path.items
            → at self.old.path.items i < length self.old.states.items }
        ensures { IfOk result (λ _. Closed start self.old self.new) }
    {
        let Some(next) = self.next.checked_add(1) else {
            return Err(Memory);
        };
        put(&mut self.states, &self.path, start, self.next);
        self.path.truncate(start);
        self.next = next;
        Ok(())
    }

    /// Follows an edge of the last cluster.
    fn follow<G: Graph>(&mut self, graph: &G, vertex: usize) -> Result<(), Memory>
        requires known { Open (G.edges graph.now) self.old.states.items self.old.path.items
            (self.old.work.items ++ vertex ∷ []) self.old.clusters.items self.old.next }
        requires last { IsLast self.old.work.items self.old.clusters.items }
        ensures { IfOk result (λ _. Stepped (G.edges graph.now) self.old self.new) }
    {
        if vertex >= self.states.len() {
            return Ok(());
        }
        match self.states[vertex] {
            State::New => self.visit(graph, vertex),
            State::OnPath(place) => cut(&mut self.clusters, place),
            State::Done(_) => Ok(()),
        }
    }

    /// Goes on from the last cluster: follows an edge, or ends the cluster where none is left.
    fn step<G: Graph>(&mut self, graph: &G, cluster: Cluster) -> Result<(), Memory>
        requires { Open (G.edges graph.now) self.old.states.items self.old.path.items
            self.old.work.items (self.old.clusters.items ++ cluster ∷ []) self.old.next }
        ensures { IfOk result (λ _. Stepped (G.edges graph.now) self.old self.new) }
    {
        if self.work.len() <= cluster.work {
            return self.close(cluster.path);
        }
        let Some(vertex) = self.work.pop() else {
            return Ok(());
        };
        self.clusters.push(cluster)?;
        self.follow(graph, vertex)
    }

    /// Goes on until no cluster is left.
    fn settle<G: Graph>(&mut self, graph: &G) -> Result<(), Memory>
        requires { IsOpen (G.edges graph.now) self.old }
        ensures { IfOk result (λ _. Settled (G.edges graph.now) self.old self.new) }
    {
        while let Some(cluster) = self.clusters.pop() {
            self.step(graph, cluster)?;
        }
        Ok(())
    }

    /// Sees to a vertex and all that it leads to.
    fn root<G: Graph>(&mut self, graph: &G, vertex: usize) -> Result<(), Memory>
        requires inside { vertex < (G.edges graph.now).size }
        requires before { Before (G.edges graph.now) vertex self.old }
        ensures { IfOk result (λ _. Before (G.edges graph.now) (vertex + 1) self.new) }
    {
        match self.states[vertex] {
            State::New => {
                self.visit(graph, vertex)?;
                self.settle(graph)
            }
            _ => Ok(()),
        }
    }
}

fn number_in(state: State) -> usize
    ensures { result ≡ number_in state }
{
    match state {
        State::Done(component) => component,
        _ => 0,
    }
}

/// The numbers of the components.
fn numbers(alloc: Global, states: &[State]) -> Result<Vec<usize>, Memory>
    ensures { IfOk result (λ table. HasNumbers states.now table.items) }
{
    let mut table = Vec::new(alloc);
    for state in states {
        table.push(number_in(*state))?;
    }
    Ok(table)
}

/// The numbers of the components of a graph, from 0: no edge leads to a greater number, and between
/// vertices with one number there are walks both ways. It takes time linear in vertices and edges.
///
/// # Errors
///
/// `Memory` for want of it.
pub fn components<G: Graph>(alloc: Global, graph: &G) -> Result<Vec<usize>, Memory>
    ensures { IfOk result (λ table. AreComponents (G.edges graph.now) table.items) }
{
    let size = graph.size();
    let mut search = Search {
        states: vec![in alloc; State::New; size]?,
        path: Vec::new(alloc),
        work: Vec::new(alloc),
        clusters: Vec::new(alloc),
        next: 0,
    };
    for vertex in 0..size {
        search.root(graph, vertex)?;
    }
    numbers(alloc, &search.states)
}
