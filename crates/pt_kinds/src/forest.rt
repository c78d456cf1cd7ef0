//! Lists of kinds, each known by a number.
ghost use Rattle.std.specs.Prelude.{◌≡◌, ◌++◌, ◌+◌, ◌<◌, [], length, replicate, take, slice_get, Some, IfOk, MatchBool};
ghost use Rattle.pt_kinds.specs.Forest.{AreDistinct, Begins, Has, HasTop, IsApart, IsFloor, IsForest, IsInside, IsLower, IsStandingOn, list_at};

use crate::known::{Known, is_kind};
use pt_base::Memory;
use pt_instr::Kind;
use std::alloc::Global;

/// A run of one kind upon another list.
#[derive(Clone, Copy, Debug)]
pub struct Node {
    /// The list below.
    pub parent: usize,
    pub kind: Kind,
    pub count: u64,
    /// How many slots the list has.
    pub length: u64,
    /// How many runs it has.
    pub runs: u64,
    /// A list on which it stands, so far below that a few of these lead to any.
    pub shortcut: usize,
}

/// Lists of kinds with the top last. Each is known by a number, and no two are the same, so that
/// lists are the same where their numbers are. Lists share what lies below: a list is a run of one
/// kind upon another list.
#[derive(Debug, Drop)]
pub struct Forest {
    pub nodes: Vec<Node>,
    pub known: Known,
}

const ROOT: Node = Node {
    parent: 0,
    kind: Kind::Value,
    count: 0,
    length: 0,
    runs: 0,
    shortcut: 0,
};

impl Forest {
    /// The list of none alone, which is 0.
    pub fn new(alloc: Global) -> Result<Forest, Memory>
        ensures forest { IfOk result (λ f. IsForest f) }
        ensures inside { IfOk result (λ f. IsInside f 0) }
        ensures none { IfOk result (λ f. list_at f 0 ≡ []) }
    {
        Ok(Forest {
            nodes: vec![in alloc; ROOT]?,
            known: Known::new(alloc),
        })
    }

    pub(crate) fn at(&self, node: usize) -> Node
        requires { IsInside self.now node }
        ensures { slice_get self.now.nodes.items node ≡ Some result }
    {
        self.nodes[node]
    }

    /// How many slots a list has.
    pub fn len(&self, list: usize) -> u64
        requires forest { IsForest self.now }
        requires inside { IsInside self.now list }
        ensures { result ≡ length (list_at self.now list) }
    {
        self.at(list).length
    }

    /// Whether two lists are the same.
    pub fn same(&self, one: usize, other: usize) -> bool
        requires forest { IsForest self.now }
        requires one { IsInside self.now one }
        requires other { IsInside self.now other }
        ensures { MatchBool result (list_at self.now one ≡ list_at self.now other)
            (list_at self.now one ≡ list_at self.now other → ⊥) }
    {
        one == other
    }

    /// The shortcut of a list upon another (Myers 1983, "An applicative random-access stack").
    fn shortcut_of(&self, parent: usize) -> usize
        requires forest { IsForest self.now }
        requires inside { IsInside self.now parent }
        ensures inside { result < parent + 1 }
        ensures begins { Begins (list_at self.now result) (list_at self.now parent) }
    {
        let below = self.at(parent);
        let shortcut = self.at(below.shortcut);
        let next = self.at(shortcut.shortcut);
        if below.runs.saturating_sub(shortcut.runs) == shortcut.runs.saturating_sub(next.runs) {
            shortcut.shortcut
        } else {
            parent
        }
    }

    /// Adds a run upon a list whose top is of another kind.
    fn add_run(&mut self, parent: usize, count: u64, kind: Kind) -> Result<usize, Memory>
        requires forest { IsForest self.old }
        requires inside { IsInside self.old parent }
        requires some { 0 < count }
        requires apart { IsApart (list_at self.old parent) kind }
        ensures { IfOk result (λ node. Has self.old self.new node
            (list_at self.old parent ++ replicate count kind)) }
    {
        if let Some(node) = self.known.find(parent, count, kind) {
            return Ok(node);
        }
        let below = self.at(parent);
        let shortcut = self.shortcut_of(parent);
        let Some(length) = below.length.checked_add(count) else {
            return Err(Memory);
        };
        let node = self.nodes.len();
        self.known.add(parent, count, kind, node)?;
        self.nodes.push(Node {
            parent,
            kind,
            count,
            length,
            runs: below.runs.saturating_add(1),
            shortcut,
        })?;
        Ok(node)
    }

    /// So many slots of a kind upon a list.
    ///
    /// # Errors
    ///
    /// `Memory` for want of it, and where a list passes 2^64 slots.
    pub fn push(&mut self, list: usize, count: u64, kind: Kind) -> Result<usize, Memory>
        requires forest { IsForest self.old }
        requires inside { IsInside self.old list }
        ensures { IfOk result (λ node. Has self.old self.new node
            (list_at self.old list ++ replicate count kind)) }
    {
        if count == 0 {
            return Ok(list);
        }
        if self.is_apart(list, kind) {
            return self.add_run(list, count, kind);
        }
        let top = self.at(list);
        match top.count.checked_add(count) {
            None => Err(Memory),
            Some(count) => self.add_run(top.parent, count, kind),
        }
    }

    /// Whether no slot of the kind lies on top of a list.
    fn is_apart(&self, list: usize, kind: Kind) -> bool
        requires forest { IsForest self.now }
        requires inside { IsInside self.now list }
        ensures { MatchBool result (IsApart (list_at self.now list) kind)
            (HasTop self.now list kind) }
    {
        if list == 0 {
            return true;
        }
        !is_kind(self.at(list).kind, kind)
    }

    /// A list on which one stands and that has so many slots: the one that its shortcut leads to,
    /// else the one below.
    fn lower(&self, node: usize, depth: u64) -> usize
        requires forest { IsForest self.now }
        requires inside { IsInside self.now node }
        requires behind { 0 < node }
        requires enough { IsStandingOn self.now node depth }
        ensures { IsLower self.now node depth result }
    {
        let top = self.at(node);
        if self.at(top.shortcut).length < depth {
            top.parent
        } else {
            top.shortcut
        }
    }

    /// Whether the list below one has so many slots.
    fn is_above(&self, node: usize, depth: u64) -> bool
        requires forest { IsForest self.now }
        requires inside { IsInside self.now node }
        ensures { MatchBool result (IsStandingOn self.now node depth)
            (IsStandingOn self.now node depth → ⊥) }
    {
        if node == 0 {
            return false;
        }
        let below = self.at(self.at(node).parent);
        below.length >= depth
    }

    pub(crate) fn floor(&self, list: usize, depth: u64) -> usize
        requires forest { IsForest self.now }
        requires inside { IsInside self.now list }
        ensures { IsFloor self.now list depth result }
    {
        let mut node = list;
        while self.is_above(node, depth) {
            node = self.lower(node, depth);
        }
        node
    }

    /// The lowest slots of a list, so many of them; all where it has no more.
    ///
    /// # Errors
    ///
    /// `Memory` for want of it.
    pub fn cut(&mut self, list: usize, depth: u64) -> Result<usize, Memory>
        requires forest { IsForest self.old }
        requires inside { IsInside self.old list }
        ensures { IfOk result (λ node. Has self.old self.new node
            (take depth (list_at self.old list))) }
    {
        let floor = self.floor(list, depth);
        let top = self.at(floor);
        if top.length <= depth {
            return Ok(floor);
        }
        let below = self.at(top.parent).length;
        self.add_run(top.parent, depth.saturating_sub(below), top.kind)
    }
}

/// No two lists of a forest are the same.
pub fn lists_are_distinct()
    ensures { (f : Forest) → IsForest f → AreDistinct f }
{}
