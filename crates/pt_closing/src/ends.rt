//! The module's block ends.
ghost use Rattle.std.specs.Prelude.{◌≡◌};
ghost use Rattle.pt_closing.specs.Ending.{module_end};

use pt_beginning::{BlockCode, Machine, MachineEnd, line};
use pt_pendings::End;

/// How the run ends with the module, of this block.
pub fn module_end(machine: &Machine, block: &BlockCode, end: End) -> MachineEnd
    ensures { result ≡ module_end block.now end machine.now }
{
    match end {
        End::Gave(_) => MachineEnd::Done,
        End::LeftBy(exception) => MachineEnd::Left {
            exception,
            line: line(&machine.code, block),
        },
    }
}
