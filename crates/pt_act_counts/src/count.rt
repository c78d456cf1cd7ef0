ghost use Rattle.std.specs.Prelude.{◌≡◌, ◌+◌, OnOk};

use pt_base::Memory;

/// So many acts more. More than can be counted are want of memory.
pub fn add(acts: &mut u32, more: u32) -> Result<(), Memory>
    ensures { OnOk result (acts.new ≡ acts.old + more) }
{
    let count = acts.checked_add(more).ok_or(Memory)?;
    *acts = count;
    Ok(())
}
