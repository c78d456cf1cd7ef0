//! Classes on all levels at once, in one forest: the pairs of the most levels are joined first, so
//! that on each level the links made up to then are its classes (Kruskal 1956, Tarjan 1975).
ghost use Rattle.std.specs.Prelude.{ℕ, ◌≡◌, ◌<◌, ◌≤◌, List, length, IfOk, MatchBool};
ghost use Rattle.pt_joins.specs.declared.joins.Join.{Join};
ghost use Rattle.pt_joins.specs.Joins.{AfterJoin, AreAlone, AreLow, AreWithin, IsByLevels, IsForest, IsLow, IsTop, Joined, Links, Root, TellsJoins};

use pt_base::Memory;
use std::alloc::Global;

/// Two numbers that are in one class on the lowest levels, on so many of them.
#[derive(Clone, Copy, Debug, PartialEq, Eq)]
pub struct Join {
    pub one: usize,
    pub other: usize,
    pub levels: u64,
}

/// A number, and the link to one that stands for it on the lowest levels.
#[derive(Clone, Copy, Debug, PartialEq, Eq)]
pub struct Node {
    pub parent: usize,
    /// On how many levels; 0 where there is no link.
    pub levels: u64,
    /// How many numbers lead here.
    pub below: usize,
}

/// The classes of numbers on each level.
#[derive(Debug, Drop)]
pub struct Joins {
    pub nodes: Vec<Node>,
}

/// The pairs by their levels, those of the most last.
fn by_levels(joins: Vec<Join>) -> Result<Vec<Join>, Memory>
    ensures { IfOk result (λ sorted. IsByLevels joins.items sorted.items) }
{
    let mut sorted = joins;
    sorted.sort_by_key(|join| join.levels)?;
    Ok(sorted)
}

/// So many numbers, each alone.
fn alone(alloc: Global, count: usize) -> Result<Joins, Memory>
    ensures { IfOk result (λ joins. AreAlone count joins.nodes.items) }
{
    let mut nodes = Vec::new(alloc);
    for number in 0..count {
        nodes.push(Node {
            parent: number,
            levels: 0,
            below: 0,
        })?;
    }
    Ok(Joins { nodes })
}

impl Joins {
    /// The number that stands for the class of a number on a level. It takes a few steps, however
    /// many there are: each leads to one below which at least twice as many lie.
    pub fn root_at(&self, number: usize, level: u64) -> usize
        requires forest { IsForest self.now.nodes.items }
        requires inside { number < length self.now.nodes.items }
        ensures { Root self.now.nodes.items level number result }
    {
        let mut node = number;
        while self.nodes[node].levels > level {
            node = self.nodes[node].parent;
        }
        node
    }

    /// Whether two numbers are in one class on a level.
    pub fn is_joined(&self, level: u64, one: usize, other: usize) -> bool
        requires forest { IsForest self.now.nodes.items }
        ensures { (joins : List Join) (count : ℕ) → TellsJoins joins count self.now.nodes.items
            → MatchBool result (Joined joins level one other) (Joined joins level one other → ⊥) }
    {
        if one >= self.nodes.len() || other >= self.nodes.len() {
            return one == other;
        }
        self.root_at(one, level) == self.root_at(other, level)
    }

    /// Links one root to another.
    fn link(&mut self, lower: usize, upper: usize, levels: u64) -> Result<(), Memory>
        requires lower { IsTop self.old.nodes.items lower }
        requires upper { IsTop self.old.nodes.items upper }
        requires apart { lower ≡ upper → ⊥ }
        requires fewer { IsLow self.old.nodes.items lower upper }
        ensures { IfOk result (λ _. Links self.old.nodes.items self.new.nodes.items lower upper levels) }
    {
        let left = self.nodes[lower];
        let right = self.nodes[upper];
        let Some(both) = left.below.checked_add(right.below) else {
            return Err(Memory);
        };
        let Some(below) = both.checked_add(1) else {
            return Err(Memory);
        };
        self.nodes[lower] = Node {
            parent: upper,
            levels,
            below: left.below,
        };
        self.nodes[upper] = Node {
            parent: right.parent,
            levels: right.levels,
            below,
        };
        Ok(())
    }

    /// Joins two numbers on so many levels, no more than those of any pair before.
    fn join(&mut self, join: Join) -> Result<(), Memory>
        requires forest { IsForest self.old.nodes.items }
        requires low { AreLow self.old.nodes.items join.levels }
        requires one { join.one < length self.old.nodes.items }
        requires other { join.other < length self.old.nodes.items }
        ensures { IfOk result (λ _. AfterJoin self.old.nodes.items self.new.nodes.items join) }
    {
        let one = self.root_at(join.one, 0);
        let other = self.root_at(join.other, 0);
        if join.levels == 0 || one == other {
            return Ok(());
        }
        if self.nodes[one].below <= self.nodes[other].below {
            self.link(one, other, join.levels)
        } else {
            self.link(other, one, join.levels)
        }
    }
}

/// The classes of the numbers below a count, on each level those of the least equivalence that has
/// the pairs which are joined there. For n numbers and m pairs it takes time O(m log m + m log n),
/// however many levels there are.
///
/// # Errors
///
/// `Memory` for want of it, and where 2^64 numbers would lie below one.
pub fn joins_of(alloc: Global, count: usize, joins: Vec<Join>) -> Result<Joins, Memory>
    requires { AreWithin count joins.items }
    ensures { IfOk result (λ told. TellsJoins joins.items count told.nodes.items) }
{
    let mut told = alone(alloc, count)?;
    let mut left = by_levels(joins)?;
    while let Some(join) = left.pop() {
        told.join(join)?;
    }
    Ok(told)
}
