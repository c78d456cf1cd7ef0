//! Where lists of kinds lead.
ghost use Rattle.std.specs.Prelude.{◌≡◌, ◌++◌, nat_le, IfOk};
ghost use Rattle.std.specs.List.{flat_map};
ghost use Rattle.pt_instr.specs.Runs.{kinds_of};
ghost use Rattle.pt_kinds.specs.Forest.{Has, IsForest, IsInside, list_at};
ghost use Rattle.pt_kind_flow.specs.Flow.{kind_list, led, raised_from, reach};
ghost use Rattle.pt_kind_flow.specs.Search.{is_told};

use pt_base::Memory;
use pt_instr::{Kind, Run};
use pt_kinds::Forest;

/// An edge: so many of the lowest slots stay as they are, and others lie above at its end.
#[derive(Debug, Drop)]
pub struct Edge {
    pub to: usize,
    /// How many of the lowest slots stay; of fewer slots all stay, and nothing lies above.
    pub keeps: u64,
    /// What lies above, the top last, in runs of one kind.
    pub given: [Run; 3],
    /// The slot above those that stay is put on top of that.
    pub raises: bool,
}

/// Slots of these kinds upon a list, in runs of one kind.
pub fn push_runs(forest: &mut Forest, list: usize, runs: &[Run]) -> Result<usize, Memory>
    requires forest { IsForest forest.old }
    requires inside { IsInside forest.old list }
    ensures { IfOk result (λ node. Has forest.old forest.new node
        (list_at forest.old list ++ flat_map kinds_of runs.now)) }
{
    let mut top = list;
    for run in runs.iter() {
        top = forest.push(top, run.count as u64, run.kind)?;
    }
    Ok(top)
}

impl Edge {
    /// Whether so many slots decide what comes along it.
    pub fn is_decided(&self, count: u64) -> bool
        ensures { result ≡ nat_le (reach self.now) count }
    {
        if self.raises {
            self.keeps < count
        } else {
            self.keeps <= count
        }
    }

    /// Whether the slots that were told before decide what comes along it.
    pub fn is_told(&self, told: Option<u64>) -> bool
        ensures { result ≡ is_told self.now told }
    {
        match told {
            None => false,
            Some(count) => self.is_decided(count),
        }
    }
}

fn push_some(forest: &mut Forest, list: usize, kind: Option<Kind>) -> Result<usize, Memory>
    requires forest { IsForest forest.old }
    requires inside { IsInside forest.old list }
    ensures { IfOk result (λ node. Has forest.old forest.new node
        (list_at forest.old list ++ kind_list kind)) }
{
    match kind {
        None => Ok(list),
        Some(kind) => forest.push(list, 1, kind),
    }
}

/// The kind that an edge puts on top.
fn raised(forest: &Forest, edge: &Edge, list: usize) -> Option<Kind>
    requires forest { IsForest forest.now }
    requires inside { IsInside forest.now list }
    ensures { result ≡ raised_from edge.now (list_at forest.now list) }
{
    if edge.raises {
        forest.slot(list, edge.keeps)
    } else {
        None
    }
}

/// The list to which an edge leads from one.
pub fn led(forest: &mut Forest, edge: &Edge, list: usize) -> Result<usize, Memory>
    requires forest { IsForest forest.old }
    requires inside { IsInside forest.old list }
    ensures { IfOk result (λ node. Has forest.old forest.new node
        (led edge.now (list_at forest.old list))) }
{
    if forest.len(list) < edge.keeps {
        return Ok(list);
    }
    let raised = raised(forest, edge, list);
    let kept = forest.cut(list, edge.keeps)?;
    let given = push_runs(forest, kept, &edge.given)?;
    let top = push_some(forest, given, raised)?;
    Ok(top)
}
