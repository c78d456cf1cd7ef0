//! An act takes its unit, and what comes before it is told.
ghost use Rattle.std.specs.Prelude.{◌≡◌, ◌++◌, IfOk, OnOk};
ghost use Rattle.sem_control.specs.control.LineEvents.{is_told};
ghost use Rattle.sem_code.specs.slots.Steps.{mark_of};
ghost use Rattle.pt_beginning.specs.Acts.{act_begun, act_taken, line_before, line_told, listed};

use pt_base::{Memory, Seq};
use pt_happenings::Happening;
use pt_pendings::{Callee, Pending};
use pt_ranges::ActMark;
use pt_turning::{BlockCode, Course, Machine, Standing, Waiting, is_told, tell};

/// Whether the line of an act is told: it is another than the frame's, or a jump came before it, or
/// a test is made again (PEP 626).
fn is_line_told(machine: &Machine, mark: ActMark) -> bool
    ensures { result ≡ is_told (line_before machine.now) (mark_of mark) }
{
    let line = if machine.course.behind_jump {
        None
    } else {
        machine.code.here.line
    };
    is_told(line, mark)
}

/// What is told as an act begins.
fn told_before(
    machine: &Machine,
    mark: ActMark,
    before: Option<Happening>,
) -> Result<Seq<Happening>, Memory>
    ensures { IfOk result (λ told. told ≡ line_told mark machine.now ++ listed before) }
{
    let alloc = machine.code.alloc;
    let line = Happening::Line {
        behind_jump: machine.course.behind_jump,
    };
    match before {
        Some(before) if is_line_told(machine, mark) => Seq::from_slice(alloc, &[line, before]),
        Some(before) => Seq::from_slice(alloc, &[before]),
        None if is_line_told(machine, mark) => Seq::from_slice(alloc, &[line]),
        None => Ok(Seq::new(alloc)),
    }
}

/// The act takes its unit, and its frame has its line. Where 2^64 - 1 units are taken it answers
/// Memory.
fn take_unit(machine: &mut Machine, mark: ActMark) -> Result<(), Memory>
    ensures { OnOk result (machine.new ≡ act_taken mark machine.old) }
{
    let Some(units) = machine.code.units.checked_add(1) else {
        return Err(Memory);
    };
    machine.code.units = units;
    machine.code.here.line = Some(mark.line);
    machine.course = Course {
        act: mark.act,
        behind_jump: false,
        generator: machine.course.generator,
    };
    Ok(())
}

/// The act with this mark begins in the newest activation, of this block, which stands so: this is
/// told before it, and if it is a call, that of what is called. It answers whether an event is told,
/// at which hooks are to be asked; where none is, the act is to be done.
///
/// # Errors
///
/// `Memory` for want of it.
pub fn begin_act(
    machine: &mut Machine,
    block: &BlockCode,
    mark: ActMark,
    standing: Standing,
    before: Option<Happening>,
    callee: Option<Callee>,
) -> Result<bool, Memory>
    ensures { IfOk result (λ event. record { event = event; machine = machine.new }
        ≡ act_begun block.now mark standing before callee machine.old) }
{
    let told = told_before(machine, mark, before)?;
    let active = standing.active(&machine.code.here.slots);
    take_unit(machine, mark)?;
    let waiting = Waiting {
        standing,
        active,
        pending: Pending::Doing { callee },
    };
    tell(machine, block, told, waiting)
}
