ghost use Rattle.std.specs.Prelude.{◌≡◌};
ghost use Rattle.pt_instr.specs.Names.{name_of};

use crate::Instr;
use crate::table::instructions;

macro_rules! name_arms {
    (($instr:expr) $( $number:literal $name:ident $( ( $($operand:ident : $kind:ident),+ ) )? { $($part:tt)* } )*) => {
        match $instr {
            $( Instr::$name $( ( $($operand),+ ) )? => stringify!($name), )*
        }
    };
}

/// The name of an instruction.
#[tactic(auto, unfolding(crate::specs::Names::name_of))]
pub fn name(instr: &Instr) -> &'static str
    ensures { result.now ≡ name_of instr.now }
{
    instructions!(name_arms, (*instr), ())
}
