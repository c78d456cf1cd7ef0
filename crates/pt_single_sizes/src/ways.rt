//! The ways on of an instruction, by numbers of slots.
ghost use Rattle.std.specs.Prelude.{◌≡◌, ◌+◌, ◌++◌, IfOk};
ghost use Rattle.pt_verify_depths.specs.Sizes.{gives_again, gives_aside, gives_onward};
ghost use Rattle.pt_single_sizes.specs.Single.{own_steps};

use pt_base::Memory;
use pt_block_kinds::{is_enough, left};
use pt_instr::{Effect, Kinds};
use pt_sizes::SizeStep;
use pt_verify_depths::count;

/// How many slots lie there, with those that are given.
fn sum(below: u64, given: u64) -> Result<u64, Memory>
    ensures { IfOk result (λ n. n ≡ below + given) }
{
    below.checked_add(given).ok_or(Memory)
}

fn add_onward(
    work: &mut Vec<SizeStep>,
    effect: &Effect,
    size: u64,
    next: usize,
) -> Result<(), Memory>
    ensures { IfOk result (λ _. work.new.items
        ≡ work.old.items ++ gives_onward effect.now size next effect.now.gives) }
{
    let Some(given) = &effect.gives else {
        return Ok(());
    };
    let size = sum(left(effect, size), count(given))?;
    work.push(SizeStep { to: next, size })?;
    Ok(())
}

fn add_aside(
    work: &mut Vec<SizeStep>,
    effect: &Effect,
    size: u64,
    target: Option<usize>,
) -> Result<(), Memory>
    ensures { IfOk result (λ _. work.new.items
        ≡ work.old.items ++ gives_aside effect.now size target effect.now.aside) }
{
    let (Some(to), Some(given)) = (target, &effect.aside) else {
        return Ok(());
    };
    let size = sum(left(effect, size), count(given))?;
    work.push(SizeStep { to, size })?;
    Ok(())
}

fn add_again(work: &mut Vec<SizeStep>, effect: &Effect, size: u64, at: usize) -> Result<(), Memory>
    ensures { IfOk result (λ _. work.new.items
        ≡ work.old.items ++ gives_again effect.now size at) }
{
    if effect.again {
        work.push(SizeStep { to: at, size })?;
    }
    Ok(())
}

/// Adds the ways on of an instruction itself.
#[tactic(auto, using(crate::proofs::OwnWays::own_parts))]
pub fn add_own(
    work: &mut Vec<SizeStep>,
    effect: &Effect,
    size: u64,
    at: usize,
    next: usize,
    target: Option<usize>,
) -> Result<(), Memory>
    ensures { IfOk result (λ _. work.new.items
        ≡ work.old.items ++ own_steps effect.now size at next target) }
{
    if !is_enough(effect, size) {
        return Ok(());
    }
    add_onward(work, effect, size, next)?;
    add_aside(work, effect, size, target)?;
    add_again(work, effect, size, at)?;
    Ok(())
}
