ghost use Rattle.std.specs.Prelude.{◌≡◌, ◌∷◌, IfOk};
ghost use Rattle.pt_expr_forms.specs.Behind.{still};

use pt_base::{ActNo, Memory, Seq};
use pt_block_names::BlockNames;
use std::alloc::Global;

/// Where an expression stands: the names of its block, and the comprehensions of the block around it,
/// the innermost first, each by the number of its first `Next`.
#[derive(Clone, Copy)]
pub struct Surroundings<'a> {
    pub names: &'a BlockNames,
    pub within: &'a [ActNo],
}

/// The comprehensions around what stands in one more. How deep they nest is bounded as trees are.
pub fn inside(alloc: Global, next: ActNo, around: &[ActNo]) -> Result<Seq<ActNo>, Memory>
    ensures { IfOk result (λ within. within ≡ next ∷ around.now) }
{
    let mut within = Seq::new(alloc);
    within.push(next)?;
    for act in around {
        within.push(*act)?;
    }
    Ok(within)
}

/// Whether the mark of a re-test is still due behind so many operands.
pub fn still_due(again: bool, count: u32) -> bool
    ensures { result ≡ still again count }
{
    again && count == 0
}
