//! Items of pairs by the numbers that the pairs begin with.
ghost use Rattle.std.specs.Prelude.{◌≡◌, [], IfOk};
ghost use Rattle.pt_step_graph.specs.Graph.{bundles_of};
ghost use Rattle.pt_verify_leaves.specs.Gathering.{AreGathered, put};

use pt_base::Memory;
use std::alloc::Global;

fn empty_lists(alloc: Global, count: usize) -> Result<Vec<Vec<usize>>, Memory>
    ensures { IfOk result (λ lists. AreGathered count [] (bundles_of lists)) }
{
    let mut lists = Vec::new(alloc);
    for counter in 0..count {
        lists.push(Vec::new(alloc))?;
    }
    Ok(lists)
}

/// Puts an item into a list, if there is that list.
fn put(lists: &mut Vec<Vec<usize>>, number: usize, item: usize) -> Result<(), Memory>
    ensures { IfOk result (λ _. bundles_of lists.new ≡ put (bundles_of lists.old) number item) }
{
    if number < lists.len() {
        lists[number].push(item)?;
    }
    Ok(())
}

/// For each number below a count the items of its pairs.
pub fn gathered(
    alloc: Global,
    count: usize,
    pairs: &[(usize, usize)],
) -> Result<Vec<Vec<usize>>, Memory>
    ensures { IfOk result (λ lists. AreGathered count pairs.now (bundles_of lists)) }
{
    let mut lists = empty_lists(alloc, count)?;
    for at in 0..pairs.len() {
        let (number, item) = pairs[at];
        put(&mut lists, number, item)?;
    }
    Ok(lists)
}
