//! The lines that stand for frames.
ghost use Rattle.std.specs.Prelude.{◌≡◌};
ghost use Rattle.pt_machine_state.specs.Changes.{first_visible, line_in, line_of, visible_line};

use pt_base::Line;
use pt_frames::Activation;
use pt_machine_state::{BlockCode, Blocks, Machine};

/// The line that stands for the newest frame: until its first act that of the block's head.
pub fn line(machine: &Machine, block: &BlockCode) -> Line
    ensures { result.0 ≡ line_of block.now machine.now }
{
    match machine.here.line {
        Some(line) => line,
        None => block.first_line,
    }
}

/// The line that stands for the frame of an activation.
fn line_in(blocks: &Blocks, activation: &Activation) -> Line
    ensures { result.0 ≡ line_in blocks.now activation.now }
{
    match activation.line {
        Some(line) => line,
        None => blocks.at(activation.block, activation.hidden).first_line,
    }
}

/// The line of the newest visible activation that waits, if one does.
#[tactic(auto, using(crate::proofs::VisibleLemmas::visible_next))]
fn waiting_line(machine: &Machine, blocks: &Blocks, otherwise: Line) -> Line
    ensures { result.0 ≡ first_visible blocks.now otherwise.0 machine.now.frames.activations }
{
    for newer in 0..machine.frames.depth() {
        let activation = machine.frames.at(newer);
        if !activation.hidden {
            return line_in(blocks, activation);
        }
    }
    otherwise
}

/// The line of the innermost visible frame, which is the newest one where none is visible.
pub fn visible_line(machine: &Machine, blocks: &Blocks) -> Line
    ensures { result.0 ≡ visible_line blocks.now machine.now }
{
    let line = line_in(blocks, &machine.here);
    if machine.here.hidden {
        waiting_line(machine, blocks, line)
    } else {
        line
    }
}
