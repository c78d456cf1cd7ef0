ghost use Rattle.std.specs.Prelude.{◌≡◌};
ghost use Rattle.pt_instr.specs.Effects.{effect_of};

use crate::Instr;
use crate::effects::{Effect, leaving, slots, taking, values};
use crate::kinds::{Kind, around, none, one, two};
use crate::table::instructions;

macro_rules! effect_arms {
    (($instr:expr) $( $number:literal $name:ident $( ( $($operand:ident : $kind:ident),+ ) )? { $effect:expr } )*) => {
        match $instr {
            $( Instr::$name $( ( $($operand),+ ) )? => $effect, )*
        }
    };
}

/// What an instruction takes and gives, where the block that it names has so many free names.
#[tactic(auto, unfolding(crate::specs::Effects::effect_of))]
pub fn effect(instr: &Instr, free: u32) -> Effect
    ensures { result ≡ effect_of instr.now free }
{
    instructions!(effect_arms, (*instr), free)
}
