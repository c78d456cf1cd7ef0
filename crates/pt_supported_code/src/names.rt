//! Whether names are different, by the numbers of their texts.

ghost use Rattle.std.specs.Prelude.{◌≡◌, ◌++◌, IfOk, OnOk, Decides, map, nat_eq};
ghost use Rattle.std.specs.List.{IsDistinct};
ghost use Rattle.pt_standing.specs.Texts.{id_at};

use pt_base::{Memory, Seq};
use pt_instr::TextNo;
use std::alloc::Global;
use std::collections::BTreeSet;

fn id_of(ids: &[usize], name: TextNo) -> usize
    ensures { result ≡ id_at ids.now name.0 }
{
    match ids.get(name.0 as usize) {
        Some(id) => *id,
        None => 0,
    }
}

/// Puts the numbers of names behind others.
pub fn add_ids(ids: &[usize], names: &[TextNo], to: &mut Seq<usize>) -> Result<(), Memory>
    ensures { OnOk result (to.new ≡ to.old ++ map (λ name. id_at ids.now name.0) names.now) }
{
    for name in names {
        to.push(id_of(ids, *name))?;
    }
    Ok(())
}

/// Whether no two numbers are the same, in time O(n log n).
pub fn are_different(alloc: Global, numbers: &[usize]) -> Result<bool, Memory>
    ensures { IfOk result (λ different. Decides different (IsDistinct nat_eq numbers.now)) }
{
    let set: BTreeSet<usize> = numbers.iter().copied().collect(alloc)?;
    Ok(set.len() == numbers.len())
}
