//! The line at which a run leaves the profile of the language.
ghost use Rattle.std.specs.Prelude.{◌≡◌};
ghost use Rattle.pt_closing.specs.pt_beginning.pt_machine_state.Changes.{line_in};
ghost use Rattle.pt_advancing.specs.Lines.{first_visible, left_at, visible_line};

use pt_base::{Line, What};
use pt_closing::{Blocks, Machine, MachineEnd};
use pt_frames::Activation;

/// The line that stands for the frame of an activation: until its first act that of the block's head.
fn line_in(blocks: &Blocks, activation: &Activation) -> Line
    ensures { result.0 ≡ line_in blocks.now activation.now }
{
    match activation.line {
        Some(line) => line,
        None => blocks.at(activation.block, activation.hidden).first_line,
    }
}

/// The line of the newest visible activation that waits, if one does.
#[tactic(auto, using(crate::proofs::Visible::visible_next))]
fn waiting_line(machine: &Machine, blocks: &Blocks, otherwise: Line) -> Line
    ensures { result.0 ≡ first_visible blocks.now otherwise.0 machine.now.openers }
{
    for newer in 0..machine.openers.len() {
        let opener = machine.openers.at(newer);
        if !opener.running.activation.hidden {
            return line_in(blocks, &opener.running.activation);
        }
    }
    otherwise
}

/// The line of the innermost visible frame, which is the newest one where none is visible.
pub fn visible_line(machine: &Machine, blocks: &Blocks) -> Line
    ensures { result.0 ≡ visible_line blocks.now machine.now }
{
    let line = line_in(blocks, &machine.code.here);
    if machine.code.here.hidden {
        waiting_line(machine, blocks, line)
    } else {
        line
    }
}

/// How the run ends that leaves the profile of the language so.
pub fn leave_profile(machine: &Machine, blocks: &Blocks, what: What) -> MachineEnd
    ensures { result ≡ left_at blocks.now what machine.now }
{
    MachineEnd::Outside {
        what,
        line: visible_line(machine, blocks),
    }
}
