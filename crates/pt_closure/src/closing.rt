ghost use Rattle.std.specs.Prelude.{◌<◌, ◌++◌, ◌∷◌, [], List, IfOk};
ghost use Rattle.pt_closure.specs.Closure.{AreSeen, IsClosure, Open, Pair};

use crate::follows::Follows;
use crate::found::Found;
use pt_base::Memory;
use pt_budget::Budget;
use std::alloc::Global;

/// Sees to a pair that is due, in one step, and one for each way on where it is new.
fn step<F: Follows>(
    rule: &F,
    found: &mut Found,
    work: &mut Vec<(usize, usize)>,
    pair: (usize, usize),
    budget: &mut Budget,
) -> Result<(), Memory>
    requires { AreSeen found.old }
    ensures seen { IfOk result (λ _. AreSeen found.new) }
    ensures known { IfOk result (λ _. (next : Pair → List Pair) → F.tells rule.now next
        → (seeds : List Pair) → Open next seeds (work.old.items ++ pair ∷ []) found.old.pairs.items
        → Open next seeds work.new.items found.new.pairs.items) }
    ensures taken { IfOk result (λ _. budget.new.left < budget.old.left) }
{
    budget.spend(1)?;
    if found.add(pair)? {
        budget.spend(rule.looks(pair) as u64)?;
        rule.add_next(pair, work)?;
    }
    Ok(())
}

/// The least set of pairs that has the given ones and what follows from each of it, each pair once.
/// A pair takes a step each time that it is given or follows, and once as many as ways on are
/// looked at for what follows from it. So for s given pairs and w ways on, each of which gives one
/// pair at most, it takes up to s + 2w steps, time O((s + w) log (s + w)) and memory O(s + w).
///
/// # Errors
///
/// `Memory` for want of it, and where fewer steps are left.
pub fn closure<F: Follows>(
    alloc: Global,
    rule: &F,
    seeds: Vec<(usize, usize)>,
    budget: &mut Budget,
) -> Result<Vec<(usize, usize)>, Memory>
    ensures { IfOk result (λ found. (next : Pair → List Pair) → F.tells rule.now next
        → IsClosure next seeds.items found.items) }
{
    let mut found = Found::new(alloc);
    let mut work = seeds;
    while let Some(pair) = work.pop() {
        step(rule, &mut found, &mut work, pair, budget)?;
    }
    let Found { pairs, seen: _ } = found;
    Ok(pairs)
}
