//! What an instruction takes and gives, in numbers of slots (Library Reference, "dis").
ghost use Rattle.std.specs.Prelude.{◌≡◌, ◌++◌, IfOk};
ghost use Rattle.pt_sizes.specs.Flow.{own_steps, step_again, step_to};

use pt_base::Memory;

/// An instruction as sizes see it.
#[derive(Clone, Copy, Debug, PartialEq, Eq)]
pub struct Place {
    pub takes: u64,
    /// How many slots have to lie there.
    pub needs: u64,
    /// How many it gives where it goes on behind itself, if it may.
    pub onward: Option<u64>,
    pub next: usize,
    /// How many it gives at its target, if it may go there.
    pub aside: Option<u64>,
    pub target: usize,
    /// It may stay at its place with all that it takes.
    pub again: bool,
}

/// A way on, and how many slots lie there.
#[derive(Clone, Copy, Debug, PartialEq, Eq)]
pub struct SizeStep {
    pub to: usize,
    pub size: u64,
}

/// Adds the step to where so many are given, if any are.
fn add_given(
    work: &mut Vec<SizeStep>,
    to: usize,
    below: u64,
    given: Option<u64>,
) -> Result<(), Memory>
    ensures { IfOk result (λ _. work.new.items ≡ work.old.items ++ step_to to below given) }
{
    match given {
        None => Ok(()),
        Some(given) => match below.checked_add(given) {
            None => Err(Memory),
            Some(size) => {
                work.push(SizeStep { to, size })?;
                Ok(())
            }
        },
    }
}

fn add_again(work: &mut Vec<SizeStep>, again: bool, at: usize, size: u64) -> Result<(), Memory>
    ensures { IfOk result (λ _. work.new.items ≡ work.old.items ++ step_again again at size) }
{
    if again {
        work.push(SizeStep { to: at, size })?;
    }
    Ok(())
}

/// Adds the ways on of an instruction itself.
pub fn add_own(work: &mut Vec<SizeStep>, place: Place, at: usize, size: u64) -> Result<(), Memory>
    ensures { IfOk result (λ _. work.new.items ≡ work.old.items ++ own_steps place at size) }
{
    if size < place.needs {
        return Ok(());
    }
    let below = size.saturating_sub(place.takes);
    add_given(work, place.next, below, place.onward)?;
    add_given(work, place.target, below, place.aside)?;
    add_again(work, place.again, at, size)?;
    Ok(())
}
