//! Whether an instruction finds what it takes on a list of kinds.
ghost use Rattle.std.specs.Prelude.{◌≡◌, ◌++◌, ◌∷◌, [], IfOk, MatchBool};
ghost use Rattle.pt_instr.specs.declared.kinds.Kind.TheVariants.{Iter, Value};
ghost use Rattle.sem_fits.specs.fits.Steps.{below, finds, has_value};
ghost use Rattle.pt_kinds.specs.Forest.{Has, IsForest, IsInside, list_at};
ghost use Rattle.pt_kind_flow.specs.Search.{Grows};
ghost use Rattle.pt_kind_failures.specs.Lacking.{has_taken};

use pt_base::Memory;
use pt_instr::{Effect, Kind, Kinds};
use pt_kinds::Forest;
use pt_verify_depths::count;

/// Slots of these kinds upon a list.
fn push_kinds(forest: &mut Forest, list: usize, kinds: &Kinds) -> Result<usize, Memory>
    requires forest { IsForest forest.old }
    requires inside { IsInside forest.old list }
    ensures { IfOk result (λ node. Has forest.old forest.new node
        (list_at forest.old list ++ kinds.now)) }
{
    let runs = kinds.runs();
    let mut top = list;
    for run in runs.iter() {
        top = forest.push(top, run.count as u64, run.kind)?;
    }
    Ok(top)
}

/// Whether a list is another with slots of these kinds on top.
fn is_upon(forest: &mut Forest, list: usize, lower: usize, kinds: &Kinds) -> Result<bool, Memory>
    requires forest { IsForest forest.old }
    requires inside { IsInside forest.old list }
    requires lower { IsInside forest.old lower }
    ensures grows { IfOk result (λ _. Grows forest.old forest.new) }
    ensures exact { IfOk result (λ found. MatchBool found
        (list_at forest.old list ≡ list_at forest.old lower ++ kinds.now)
        (list_at forest.old list ≡ list_at forest.old lower ++ kinds.now → ⊥)) }
{
    let top = push_kinds(forest, lower, kinds)?;
    Ok(forest.same(list, top))
}

/// Whether a list is another with an iterator and a value above it.
fn has_iterator(forest: &mut Forest, list: usize, lower: usize) -> Result<bool, Memory>
    requires forest { IsForest forest.old }
    requires inside { IsInside forest.old list }
    requires lower { IsInside forest.old lower }
    ensures grows { IfOk result (λ _. Grows forest.old forest.new) }
    ensures exact { IfOk result (λ found. MatchBool found
        (list_at forest.old list ≡ list_at forest.old lower ++ Iter ∷ Value ∷ [])
        (list_at forest.old list ≡ list_at forest.old lower ++ Iter ∷ Value ∷ [] → ⊥)) }
{
    let iterator = forest.push(lower, 1, Kind::Iter)?;
    let value = forest.push(iterator, 1, Kind::Value)?;
    Ok(forest.same(list, value))
}

/// Whether an instruction finds the kinds that it takes above those that stay.
fn has_taken(
    forest: &mut Forest,
    list: usize,
    lower: usize,
    effect: &Effect,
) -> Result<bool, Memory>
    requires forest { IsForest forest.old }
    requires inside { IsInside forest.old list }
    requires lower { IsInside forest.old lower }
    requires stays { list_at forest.old lower ≡ below effect.now (list_at forest.old list) }
    ensures grows { IfOk result (λ _. Grows forest.old forest.new) }
    ensures exact { IfOk result (λ found. found
        ≡ has_taken effect.now (list_at forest.old list)) }
{
    let found = is_upon(forest, list, lower, &effect.takes)?;
    if found || !effect.swaps {
        return Ok(found);
    }
    has_iterator(forest, list, lower)
}

/// Whether a value lies so deep in a list, from 1.
fn has_value(forest: &Forest, list: usize, depth: Option<u32>) -> bool
    requires forest { IsForest forest.now }
    requires inside { IsInside forest.now list }
    ensures { result ≡ has_value depth (list_at forest.now list) }
{
    let Some(depth) = depth else {
        return true;
    };
    match forest.len(list).checked_sub(depth as u64) {
        None => false,
        Some(at) => matches!(forest.slot(list, at), Some(Kind::Value)),
    }
}

/// Whether an instruction of such an effect finds what it takes and reads, where slots of these
/// kinds lie. It takes O(log n) steps in a forest of n lists, however many slots it takes.
pub fn finds(forest: &mut Forest, list: usize, effect: &Effect) -> Result<bool, Memory>
    requires forest { IsForest forest.old }
    requires inside { IsInside forest.old list }
    ensures grows { IfOk result (λ _. Grows forest.old forest.new) }
    ensures exact { IfOk result (λ found. found ≡ finds effect.now (list_at forest.old list)) }
{
    let spared = forest.len(list).saturating_sub(count(&effect.takes));
    let lower = forest.cut(list, spared)?;
    if !has_value(forest, lower, effect.above) {
        return Ok(false);
    }
    has_taken(forest, list, lower, effect)
}
