//! Edges as they are kept, in less memory.
ghost use Rattle.std.specs.Prelude.{◌≡◌, ◌++◌, ◌≤◌, length, IfOk};

use crate::edges::Edge;
use pt_base::Memory;
use pt_instr::{Kind, Run};
use std::marker::Model;

/// An edge in 32 bytes: a large block has many. The counts of its runs stand side by side, and so
/// do their kinds, since each run by itself would have three bytes of padding.
#[derive(Debug, Drop)]
pub struct PackedEdge {
    to: usize,
    keeps: u64,
    counts: (u32, u32, u32),
    kinds: (Kind, Kind, Kind),
    raises: bool,
}

const _: () = prove!(size_of::<PackedEdge>() == 32);

impl Model for PackedEdge {
    ghost use Rattle.std.specs.Prelude.{[], ◌∷◌};
    ghost use Rattle.pt_kind_flow.specs.declared.edges.Edge.{Edge};

    ghost Value = { Edge };

    ghost view = { λ e. record {
      to = e.to;
      keeps = e.keeps;
      given = record { kind = e.kinds.0; count = e.counts.0 }
          ∷ record { kind = e.kinds.1; count = e.counts.1 }
          ∷ record { kind = e.kinds.2; count = e.counts.2 } ∷ [];
      raises = e.raises;
    } };
}

impl PackedEdge {
    fn new(edge: &Edge) -> PackedEdge
        ensures { result ≡ edge.now }
    {
        let [lowest, middle, highest] = edge.given;
        PackedEdge {
            to: edge.to,
            keeps: edge.keeps,
            counts: (lowest.count, middle.count, highest.count),
            kinds: (lowest.kind, middle.kind, highest.kind),
            raises: edge.raises,
        }
    }

    /// The edge that is kept.
    pub fn edge(&self) -> Edge
        ensures { result ≡ self.now }
    {
        Edge {
            to: self.to,
            keeps: self.keeps,
            given: [
                run(self.kinds.0, self.counts.0),
                run(self.kinds.1, self.counts.1),
                run(self.kinds.2, self.counts.2),
            ],
            raises: self.raises,
        }
    }
}

fn run(kind: Kind, count: u32) -> Run
    ensures { result ≡ record { kind = kind; count = count } }
{
    Run { kind, count }
}

/// Adds edges behind others.
pub fn add_packed(packed: &mut Vec<PackedEdge>, edges: &[Edge]) -> Result<(), Memory>
    ensures ok { IfOk result (λ _. packed.new.items ≡ packed.old.items ++ edges.now) }
    ensures kept { length packed.old.items ≤ length packed.new.items }
{
    for edge in edges.iter() {
        packed.push(PackedEdge::new(edge))?;
    }
    Ok(())
}
