//! Where the newest activation goes on: at a place, or where a completion lands.
ghost use Rattle.std.specs.Prelude.{◌≡◌, ◌∷◌, OnOk};
ghost use Rattle.pt_machine_state.specs.Changes.{at_depth, gone_to, held, jumped, landed};
ghost use Rattle.pt_machine_state.specs.Changes.{left_place, out_by};

use pt_base::{Memory, Pc};
use pt_frames::Slot;
use pt_heap::Completion;
use pt_machine_state::{BlockCode, Machine, Standing};
use pt_unwind::Landing;

/// What a handler holds of what it takes (Language Reference 8.4).
fn held(holds_completion: bool, how: Completion) -> Slot
    ensures { result ≡ held holds_completion how }
{
    match how {
        Completion::Raise(exception) if !holds_completion => Slot::Exc(exception),
        _ => Slot::Pending(how),
    }
}

/// Goes to a place with the slots as they are.
pub fn go_to(machine: &mut Machine, pc: Pc)
    ensures { machine.new ≡ gone_to pc machine.old }
{
    machine.here.pc = pc;
}

/// Goes to a place with the slots that lie there.
fn jump(machine: &mut Machine, block: &BlockCode, pc: Pc)
    ensures { machine.new ≡ jumped block.now pc machine.old }
{
    machine.here.slots.cut(block.depth(pc));
    machine.here.pc = pc;
}

/// Past all handlers: a raise and a return end the block, a jump goes to its place.
fn pass(machine: &mut Machine, block: &BlockCode, how: Completion)
    ensures { machine.new ≡ out_by block.now how machine.old }
{
    match how {
        Completion::Normal => {}
        Completion::Raise(exception) => machine.standing = Standing::Raises(exception),
        Completion::Return(value) => machine.standing = Standing::Returns(value),
        Completion::Leave { target } => jump(machine, block, target),
    }
}

/// Goes to a handler with so many slots and one on them.
fn enter_handler(machine: &mut Machine, pc: Pc, depth: u32, slot: Slot) -> Result<(), Memory>
    ensures { OnOk result
        (machine.new ≡ record machine.old {
          here = record machine.old.here {
            pc = pc;
            slots = slot ∷ at_depth depth machine.old.here.slots;
          };
        }) }
{
    machine.here.pc = pc;
    machine.here.slots.cut(depth as usize);
    machine.here.slots.push(slot)
}

/// A completion leaves the place of the newest activation: it goes on at a handler, or past all of
/// them (Language Reference 8.4, 7.6, 7.8 to 7.10).
///
/// # Errors
///
/// `Memory` for want of it.
pub fn land(machine: &mut Machine, block: &BlockCode, how: Completion) -> Result<(), Memory>
    ensures { OnOk result (machine.new ≡ landed block.now how machine.old) }
{
    match pt_landings::land(&block.handlers, machine.here.pc, how) {
        Landing::Enter {
            pc,
            depth,
            holds_completion,
        } => enter_handler(machine, pc, depth, held(holds_completion, how)),
        Landing::Jump { pc } => {
            jump(machine, block, pc);
            Ok(())
        }
        Landing::Out => {
            pass(machine, block, how);
            Ok(())
        }
    }
}

/// A completion leaves the place if it is abrupt; else the machine goes on behind it.
///
/// # Errors
///
/// `Memory` for want of it.
pub fn leave_place(
    machine: &mut Machine,
    block: &BlockCode,
    next: Pc,
    how: Completion,
) -> Result<(), Memory>
    ensures { OnOk result (machine.new ≡ left_place block.now next how machine.old) }
{
    match how {
        Completion::Normal => {
            go_to(machine, next);
            Ok(())
        }
        Completion::Raise(_) | Completion::Return(_) | Completion::Leave { target: _ } => {
            land(machine, block, how)
        }
    }
}
